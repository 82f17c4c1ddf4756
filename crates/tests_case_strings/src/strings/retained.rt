//! Characters kept by a predicate, whose results the case gives one by one.

use crate::strings::held::Heap;
use tests_support::{Run, Trouble};
use utf16string::{Utf16Order, WString};

// Takes the results of the predicate: a `y` or an `n` for each character, or `-` for none.
fn answers<'a>(run: &mut Run<'a>) -> &'a [u8] {
    let word = run.word();
    if word == "-" {
        return &[];
    }
    for letter in word.as_bytes() {
        if *letter != b'y' && *letter != b'n' {
            run.refuse(Trouble::Value);
        }
    }
    word.as_bytes()
}

/// Keeps the characters whose result is `y`. The result says `asked` unless the predicate is called
/// on each character once, from the front.
pub fn retain<E: Utf16Order>(run: &mut Run, string: &mut WString<E, Heap>) {
    let letters = answers(run);
    let Ok(text) = string.to_utf8(run.alloc) else {
        return run.refuse(Trouble::Memory);
    };
    let mut chars = text.chars();
    let mut in_order = true;
    let mut asked = 0usize;
    string.retain(|c| {
        in_order = in_order && chars.next() == Some(c);
        let is_kept = asked < letters.len() && letters[asked] == b'y';
        asked = asked.wrapping_add(1);
        is_kept
    });
    if !in_order || chars.next().is_some() || asked != letters.len() {
        run.answer.word("asked");
    }
}

/// Does the same as `retain`. The result begins with the number of characters on which the
/// predicate was called, which it noted down.
pub fn retain_by<E: Utf16Order>(run: &mut Run, string: &mut WString<E, Heap>) {
    let letters = answers(run);
    let mut asked = 0usize;
    let mut predicate = |_: char| {
        let is_kept = asked < letters.len() && letters[asked] == b'y';
        asked = asked.wrapping_add(1);
        is_kept
    };
    string.retain_by(&mut predicate);
    run.answer.number(asked);
}
