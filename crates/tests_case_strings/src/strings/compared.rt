//! Two strings compared.

use crate::strings::held::{Heap, part, string};
use crate::views::compared::{hash_of, word};
use tests_support::{Answer, Run};
use utf16string::{Utf16Order, WString};

// A call on two strings.
#[derive(Clone, Copy)]
enum CompareCall {
    Eq,
    Lt,
    Le,
    Cmp,
    PartialCmp,
}

impl CompareCall {
    // Returns the call of this name.
    fn named(name: &str) -> Option<Self> {
        match name {
            "eq" => Some(CompareCall::Eq),
            "lt" => Some(CompareCall::Lt),
            "le" => Some(CompareCall::Le),
            "cmp" => Some(CompareCall::Cmp),
            "partial_cmp" => Some(CompareCall::PartialCmp),
            _ => None,
        }
    }
}

/// Makes a call that compares or hashes a string.
pub fn call<'a, E: Utf16Order>(run: &mut Run<'a>, one: &WString<E, Heap<'a>>, name: &str) -> bool {
    match CompareCall::named(name) {
        Some(call) => two(run, one, call),
        None if name == "hash" => hash(run, one),
        None => return false,
    }
    true
}

// Adds how a string compares with the next one.
fn two<'a, E: Utf16Order>(run: &mut Run<'a>, one: &WString<E, Heap<'a>>, call: CompareCall) {
    let other = &string::<E>(run);
    let answer = &mut run.answer;
    match call {
        CompareCall::Eq => answer.truth(one == other),
        CompareCall::Lt => answer.truth(one < other),
        CompareCall::Le => answer.truth(one <= other),
        CompareCall::Cmp => answer.word(word(Some(one.cmp(other)))),
        CompareCall::PartialCmp => answer.word(word(one.partial_cmp(other))),
    }
}

// Adds whether a string has the same hash as another one that has no spare capacity, and as the
// view of that one.
fn hash<E: Utf16Order>(run: &mut Run, string: &WString<E, Heap>) {
    let other = part::<E>(run);
    let found = hash_of(string);
    run.answer.truth(found == hash_of(&other));
    run.answer.truth(found == hash_of(&other.as_wstr()));
}
