//! How often the calls that take a predicate call it.

use crate::checks::{encoded, equal};
use std::cell::Cell;
use std::process::Abort;
use utf16string::{BE, LE, Utf16Order, WStr};

// A call that takes a predicate.
#[derive(Clone, Copy, Debug, PartialEq, Eq)]
enum Call {
    Find,
    RFind,
    TrimStart,
    TrimEnd,
    Trim,
    Split,
    SplitBack,
}

// A call, a text, and how often it asks whether a character is a digit: once for each character
// that it reads. `trim_with` reads from both ends.
const ASKED: [(Call, &str, u64); 21] = [
    (Call::Find, "", 0),
    (Call::Find, "ab1c", 3),
    (Call::Find, "ab\u{10000}c", 4),
    (Call::RFind, "", 0),
    (Call::RFind, "ab1c\u{10000}", 3),
    (Call::RFind, "abc", 3),
    (Call::TrimStart, "", 0),
    (Call::TrimStart, "12\u{4E00}b3", 3),
    (Call::TrimStart, "123", 3),
    (Call::TrimEnd, "", 0),
    (Call::TrimEnd, "1ab\u{10000}34", 3),
    (Call::TrimEnd, "123", 3),
    (Call::Trim, "", 0),
    (Call::Trim, "12ab3", 5),
    (Call::Trim, "123", 3),
    (Call::Split, "", 0),
    (Call::Split, "a1\u{10000}c23", 6),
    (Call::Split, "abc", 3),
    (Call::SplitBack, "", 0),
    (Call::SplitBack, "a1\u{10000}c23", 6),
    (Call::SplitBack, "abc", 3),
];

// Makes a call, and returns how often it asked.
fn asked<E: Utf16Order>(call: Call, text: WStr<E>) -> u64 {
    let count = Cell::new(0);
    let is_digit = |c: char| -> bool {
        count.set(u64::saturating_add(count.get(), 1));
        c.is_ascii_digit()
    };
    match call {
        Call::Find => {
            text.find_with(is_digit);
        }
        Call::RFind => {
            text.rfind_with(is_digit);
        }
        Call::TrimStart => {
            text.trim_start_with(is_digit);
        }
        Call::TrimEnd => {
            text.trim_end_with(is_digit);
        }
        Call::Trim => {
            text.trim_with(is_digit);
        }
        Call::Split => {
            text.split_with(is_digit).count();
        }
        Call::SplitBack => {
            text.split_with(is_digit).rev().count();
        }
    }
    count.get()
}

fn each_asked<E: Utf16Order>(rt: &(impl Abort + AllocGlobal)) {
    for (call, text, wanted) in ASKED {
        let string = encoded::<E>(rt, text);
        equal(rt, (call, asked(call, string.as_wstr())), (call, wanted));
    }
}

// A bug that no clause excludes: a call asks again about a character that it has read.
#[test]
fn predicates_are_asked_once(rt: HostRuntime) {
    each_asked::<LE>(&rt);
    each_asked::<BE>(&rt);
}
