//! Views compared and hashed.

use crate::views::made::view;
use std::cmp::Ordering;
use std::hash::{FoldHasher, Hash, Hasher};
use tests_support::{Answer, Run};
use utf16string::{Utf16Order, WStr};

// A call on two views.
#[derive(Clone, Copy)]
enum CompareCall {
    Eq,
    EqIgnoreAsciiCase,
    Cmp,
    PartialCmp,
    Hash,
    CommonPrefix,
}

impl CompareCall {
    // Returns the call of this name.
    fn named(name: &str) -> Option<Self> {
        match name {
            "eq" => Some(CompareCall::Eq),
            "eq_ignore_ascii_case" => Some(CompareCall::EqIgnoreAsciiCase),
            "cmp" => Some(CompareCall::Cmp),
            "partial_cmp" => Some(CompareCall::PartialCmp),
            "hash" => Some(CompareCall::Hash),
            "common_prefix" => Some(CompareCall::CommonPrefix),
            _ => None,
        }
    }
}

/// Makes a call on two views.
pub fn call<E: Utf16Order>(run: &mut Run, text: WStr<E>, name: &str) -> bool {
    let Some(call) = CompareCall::named(name) else {
        return false;
    };
    let other = run.bytes();
    if let Some(other) = view(run, &other) {
        two(&mut run.answer, text, other, call);
    }
    true
}

// Compares two views. `Hash` says whether the two have the same hash.
fn two<E: Utf16Order>(answer: &mut Answer, text: WStr<E>, other: WStr<E>, call: CompareCall) {
    match call {
        CompareCall::Eq => answer.truth(text == other),
        CompareCall::EqIgnoreAsciiCase => answer.truth(text.eq_ignore_ascii_case(other)),
        CompareCall::Cmp => answer.word(word(Some(text.cmp(&other)))),
        CompareCall::PartialCmp => answer.word(word(text.partial_cmp(&other))),
        CompareCall::Hash => answer.truth(hash_of(&text) == hash_of(&other)),
        CompareCall::CommonPrefix => answer.bytes(text.common_prefix(other).as_bytes()),
    }
}

/// Returns the word for an ordering.
pub fn word(found: Option<Ordering>) -> &'static str {
    match found {
        Some(Ordering::Less) => "less",
        Some(Ordering::Equal) => "equal",
        Some(Ordering::Greater) => "greater",
        None => "none",
    }
}

/// Returns the hash of a view or a string.
pub fn hash_of<T: Hash>(value: &T) -> u64 {
    let mut hasher = FoldHasher::default();
    value.hash(&mut hasher);
    hasher.finish()
}
