//! Strings that std sorts and keeps in a set, which no case can express.

use crate::checks::{encoded, equal, holds};
use std::collections::BTreeSet;
use std::process::Abort;
use utf16string::{BE, LE, Utf16Order, WString};

const TEXTS: [&str; 6] = ["\u{10000}", "", "z", "\u{FFFF}", "zz", "\u{E000}"];

// The same texts in the order of their characters.
const SORTED: [&str; 6] = ["", "z", "zz", "\u{E000}", "\u{FFFF}", "\u{10000}"];

// Returns strings of these texts.
fn strings<E: Utf16Order>(rt: &(impl Abort + AllocGlobal), texts: &[&str]) -> Vec<WString<E>> {
    let mut strings = Vec::new(rt.alloc());
    for text in texts {
        strings.push(encoded::<E>(rt, text)).expect(rt, "memory");
    }
    strings
}

fn sorts<E: Utf16Order>(rt: &(impl Abort + AllocGlobal)) {
    let mut found = strings::<E>(rt, &TEXTS);
    found.sort().expect(rt, "memory");
    for (string, wanted) in found.iter().zip(&strings::<E>(rt, &SORTED)) {
        equal(rt, string.as_bytes(), wanted.as_bytes());
    }
}

// A bug that it would catch: the built code compares strings by their code units.
#[test]
fn six_texts_sorted(rt: HostRuntime) {
    sorts::<LE>(&rt);
    sorts::<BE>(&rt);
}

fn finds<E: Utf16Order>(rt: &(impl Abort + AllocGlobal)) {
    let mut known = BTreeSet::new(rt.alloc());
    for string in strings::<E>(rt, &TEXTS) {
        holds(rt, known.insert(string).is_ok());
    }
    for string in &strings::<E>(rt, &SORTED) {
        holds(rt, known.contains(string));
    }
    holds(rt, !known.contains(&encoded::<E>(rt, "zzz")));
}

// The same bug, for a tree.
#[test]
fn six_texts_in_a_set(rt: HostRuntime) {
    finds::<LE>(&rt);
    finds::<BE>(&rt);
}
