//! The iterators of views in a `for` and under std's adapters, which no case can express.

use crate::checks::{equal, holds, view};
use std::process::Abort;
use tests_support::texts::{APZ_BE, HELLO, PX};
use uses_strings::walks::{
    agree, collect_by_loop, collect_chars, collect_indices, collect_indices_back, collect_reversed,
    count_of, place_of,
};
use utf16string::{BE, LE, Utf16Order};

// Checks the characters in order, by `collect` and by `for`, and in reverse, by `rev`.
fn chars_are<E: Utf16Order>(rt: &(impl Abort + AllocGlobal), raw: &[u8], wanted: &[char]) {
    let text = view::<E>(rt, raw);
    let found = collect_chars(rt.alloc(), text).expect(rt, "memory");
    equal(rt, found.as_slice(), wanted);
    let found = collect_by_loop(rt.alloc(), text).expect(rt, "memory");
    equal(rt, found.as_slice(), wanted);
    let mut found = collect_reversed(rt.alloc(), text).expect(rt, "memory");
    found.reverse();
    equal(rt, found.as_slice(), wanted);
}

// A bug that it would catch: an adapter of std goes wrong over an iterator of another crate in the
// built code.
#[test]
fn characters_through_adapters(rt: HostRuntime) {
    chars_are::<LE>(&rt, &PX, &['\u{10000}', 'x']);
    chars_are::<BE>(&rt, &APZ_BE, &['a', '\u{10000}', 'z']);
}

fn indices_are<E: Utf16Order>(
    rt: &(impl Abort + AllocGlobal),
    raw: &[u8],
    wanted: &[(usize, char)],
) {
    let text = view::<E>(rt, raw);
    let found = collect_indices(rt.alloc(), text).expect(rt, "memory");
    equal(rt, found.as_slice(), wanted);
    let mut back = collect_indices_back(rt.alloc(), text).expect(rt, "memory");
    back.reverse();
    equal(rt, back.as_slice(), wanted);
}

// The same for characters with their offsets.
#[test]
fn offsets_through_adapters(rt: HostRuntime) {
    indices_are::<LE>(&rt, &PX, &[(0, '\u{10000}'), (4, 'x')]);
    indices_are::<BE>(&rt, &APZ_BE, &[(0, 'a'), (2, '\u{10000}'), (6, 'z')]);
}

// The same for `position`, `filter` and `eq`, with closures that hold a character.
#[test]
fn walks_that_search(rt: HostRuntime) {
    let text = view::<LE>(&rt, &HELLO);
    equal(&rt, place_of(text, 'l'), Some(2));
    equal(&rt, place_of(text, 'x'), None);
    equal(&rt, count_of(text, 'l'), 2);
    holds(&rt, agree(text, view(&rt, &HELLO[..4])));
    holds(&rt, !agree(text, view(&rt, &PX)));
}
