//! Calls that read a string.

use crate::strings::held::{Heap, made, part, refused};
use crate::strings::parts;
use tests_support::{Answer, By, Run, Trouble, add_written};
use utf16string::{Utf16Order, WString};

/// Makes a call that reads a string.
pub fn call<'a, E: Utf16Order>(
    run: &mut Run<'a>,
    string: &WString<E, Heap<'a>>,
    name: &str,
) -> bool {
    match name {
        "clone" => made(run, string.clone()),
        "to_utf8" => to_utf8(run, string),
        "fmt" => fmt(run, string),
        "is_char_boundary" => is_char_boundary(run, string),
        "fits" => fits(run, string),
        "get" => parts::part(run, string, By::Get),
        "get_unchecked" => parts::part(run, string, By::GetUnchecked),
        "index" => parts::part(run, string, By::Index),
        "chars" => chars(run, string),
        _ => return shown(&mut run.answer, string, name),
    }
    true
}

// Makes a call without further values.
fn shown<E: Utf16Order>(answer: &mut Answer, string: &WString<E, Heap>, name: &str) -> bool {
    match name {
        "capacity" => answer.number(string.capacity()),
        "len" => answer.number(string.len()),
        "is_empty" => answer.truth(string.is_empty()),
        "is_ascii" => answer.truth(string.is_ascii()),
        "as_bytes" => answer.bytes(string.as_bytes()),
        "as_wstr" => answer.bytes(string.as_wstr().as_bytes()),
        "char_indices" => char_indices(answer, string),
        _ => return false,
    }
    true
}

fn to_utf8<E: Utf16Order>(run: &mut Run, string: &WString<E, Heap>) {
    match string.to_utf8(run.heap) {
        Ok(text) => {
            run.answer.text(text.as_str());
            run.requests();
        }
        Err(_) => refused(run),
    }
}

// The characters are shown as one text.
fn chars<E: Utf16Order>(run: &mut Run, string: &WString<E, Heap>) {
    let mut text = String::new(run.alloc);
    for c in string.chars() {
        if text.push(c).is_err() {
            run.refuse(Trouble::Memory);
        }
    }
    run.answer.text(text.as_str());
}

// Adds each offset and its character, or `none` if there are no characters.
fn char_indices<E: Utf16Order>(answer: &mut Answer, string: &WString<E, Heap>) {
    for (offset, c) in string.char_indices() {
        answer.number(offset);
        answer.character(c);
    }
    if answer.is_empty() {
        answer.word("none");
    }
}

fn is_char_boundary<E: Utf16Order>(run: &mut Run, string: &WString<E, Heap>) {
    let idx = run.number();
    run.answer.truth(string.is_char_boundary(idx));
}

fn fits<E: Utf16Order>(run: &mut Run, string: &WString<E, Heap>) {
    let idx = run.number();
    let text = part::<E>(run);
    run.answer.truth(string.fits(idx, text.as_wstr()));
}

fn fmt<E: Utf16Order>(run: &mut Run, string: &WString<E, Heap>) {
    let format = run.word();
    run.written(string, format);
}
