//! Searches in any bytes of UTF-16.

use tests_support::{Answer, Run};
use utf16_bytes::{find, find_char, rfind, rfind_char};
use utf16_units::Utf16Order;

/// Makes a call of `search`. The name has no `search::`.
pub fn call<E: Utf16Order>(run: &mut Run, name: &str) -> bool {
    match name {
        "find" => by_bytes::<E>(run, false),
        "rfind" => by_bytes::<E>(run, true),
        "find_char" => by_char::<E>(run, false),
        "rfind_char" => by_char::<E>(run, true),
        _ => return false,
    }
    true
}

fn by_bytes<E: Utf16Order>(run: &mut Run, is_last: bool) {
    let text = run.bytes();
    let pattern = run.bytes();
    offset(
        &mut run.answer,
        if is_last {
            rfind::<E>(&text, &pattern)
        } else {
            find::<E>(&text, &pattern)
        },
    );
}

fn by_char<E: Utf16Order>(run: &mut Run, is_last: bool) {
    let text = run.bytes();
    let pattern = run.character();
    offset(
        &mut run.answer,
        if is_last {
            rfind_char::<E>(&text, pattern)
        } else {
            find_char::<E>(&text, pattern)
        },
    );
}

// Adds an offset, if there is one.
fn offset(answer: &mut Answer, at: Option<usize>) {
    match at {
        Some(at) => answer.number(at),
        None => answer.word("none"),
    }
}
