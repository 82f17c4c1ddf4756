//! Iteration over views from both ends.

use tests_support::{Answer, Run, Trouble};
use utf16string::{Utf16Order, WStr};

/// Makes a call of an iterator over the characters of a view.
pub fn call<E: Utf16Order>(run: &mut Run, text: WStr<E>, name: &str) -> bool {
    match name {
        "chars" => chars(run, text),
        "WStrChars::count" => count(run, text, false),
        "WStrChars::last" => character(&mut run.answer, text.chars().last()),
        "char_indices" => char_indices(run, text),
        "WStrCharIndices::count" => count(run, text, true),
        "WStrCharIndices::last" => place(&mut run.answer, text.char_indices().last()),
        _ => return false,
    }
    true
}

// Adds the number of characters that remain after steps, which are given as for `chars`. If no
// value remains there are no steps.
fn count<E: Utf16Order>(run: &mut Run, text: WStr<E>, has_offsets: bool) {
    let (mut chars, mut places) = (text.chars(), text.char_indices());
    let steps = if run.values.count() == 0 {
        ""
    } else {
        run.word()
    };
    for step in steps.chars() {
        match step {
            'f' => {
                let _taken = (chars.next(), places.next());
            }
            'b' => {
                let _taken = (chars.next_back(), places.next_back());
            }
            _ => run.refuse(Trouble::Value),
        }
    }
    run.answer.number(if has_offsets {
        places.count()
    } else {
        chars.count()
    });
}

fn character(answer: &mut Answer, found: Option<char>) {
    match found {
        Some(c) => answer.character(c),
        None => answer.word("none"),
    }
}

fn place(answer: &mut Answer, found: Option<(usize, char)>) {
    match found {
        Some((offset, c)) => {
            answer.number(offset);
            answer.character(c);
        }
        None => answer.word("none"),
    }
}

// What each call gives, and the view that is left. The steps say from which end each call takes:
// `f` from the front, `b` from the back.
fn chars<E: Utf16Order>(run: &mut Run, text: WStr<E>) {
    let mut chars = text.chars();
    for step in run.word().chars() {
        match step {
            'f' => character(&mut run.answer, chars.next()),
            'b' => character(&mut run.answer, chars.next_back()),
            _ => run.refuse(Trouble::Value),
        }
    }
    run.answer.bytes(chars.as_wstr().as_bytes());
}

fn char_indices<E: Utf16Order>(run: &mut Run, text: WStr<E>) {
    let mut places = text.char_indices();
    for step in run.word().chars() {
        match step {
            'f' => place(&mut run.answer, places.next()),
            'b' => place(&mut run.answer, places.next_back()),
            _ => run.refuse(Trouble::Value),
        }
    }
    run.answer.bytes(places.as_wstr().as_bytes());
}
