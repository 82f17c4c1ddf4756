//! Views searched, trimmed and split by a predicate.

use crate::views::made::view;
use crate::views::patterns::offset;
use tests_support::{Answer, Run};
use utf16string::{Utf16Order, WStr};

// A call with a predicate.
#[derive(Clone, Copy)]
enum PredicateCall {
    Find,
    Rfind,
    Trim,
    TrimStart,
    TrimEnd,
    Split,
    SplitBack,
}

impl PredicateCall {
    // Returns the call of this name.
    fn named(name: &str) -> Option<Self> {
        match name {
            "find_with" => Some(PredicateCall::Find),
            "rfind_with" => Some(PredicateCall::Rfind),
            "trim_with" => Some(PredicateCall::Trim),
            "trim_start_with" => Some(PredicateCall::TrimStart),
            "trim_end_with" => Some(PredicateCall::TrimEnd),
            "split_with" => Some(PredicateCall::Split),
            "WStrSplitWith::rev" => Some(PredicateCall::SplitBack),
            _ => None,
        }
    }
}

/// Makes a call with the predicate that is true of the characters of a second text.
pub fn call<E: Utf16Order>(run: &mut Run, text: WStr<E>, name: &str) -> bool {
    let Some(call) = PredicateCall::named(name) else {
        return false;
    };
    let set = run.bytes();
    if let Some(set) = view::<E>(run, &set) {
        by_predicate(&mut run.answer, text, set, call);
    }
    true
}

fn by_predicate<E: Utf16Order>(
    answer: &mut Answer,
    text: WStr<E>,
    set: WStr<E>,
    call: PredicateCall,
) {
    match call {
        PredicateCall::Find => offset(answer, text.find_with(|c| set.contains(c))),
        PredicateCall::Rfind => offset(answer, text.rfind_with(|c| set.contains(c))),
        PredicateCall::Trim => answer.bytes(text.trim_with(|c| set.contains(c)).as_bytes()),
        PredicateCall::TrimStart => {
            answer.bytes(text.trim_start_with(|c| set.contains(c)).as_bytes());
        }
        PredicateCall::TrimEnd => answer.bytes(text.trim_end_with(|c| set.contains(c)).as_bytes()),
        PredicateCall::Split => {
            for part in text.split_with(|c| set.contains(c)) {
                answer.bytes(part.as_bytes());
            }
        }
        PredicateCall::SplitBack => {
            for part in text.split_with(|c| set.contains(c)).rev() {
                answer.bytes(part.as_bytes());
            }
        }
    }
}
