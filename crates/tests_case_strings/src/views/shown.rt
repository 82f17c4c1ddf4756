//! Views in UTF-8, and what `{}` and `{:?}` write.

use std::alloc::{AllocError, Global};
use tests_support::refusing::Refusing;
use tests_support::{Run, Trouble, add_debug};
use utf16string::{Utf16Order, WStr};

/// Makes a call with UTF-8 or a format.
pub fn call<E: Utf16Order>(run: &mut Run, text: WStr<E>, name: &str) -> bool {
    match name {
        "eq_str" => eq_str(run, text),
        "fmt" => fmt(run, text),
        "WStrChars::fmt" => iterator(run, text, false),
        "WStrCharIndices::fmt" => iterator(run, text, true),
        "ParseError::fmt" => parse_error(run, text),
        "to_utf8" => to_utf8(run, text),
        "push_utf8" => push_utf8(run, text),
        _ => return false,
    }
    true
}

fn eq_str<E: Utf16Order>(run: &mut Run, text: WStr<E>) {
    let other = run.text();
    run.answer.truth(text.eq_str(other.as_str()));
}

fn fmt<E: Utf16Order>(run: &mut Run, text: WStr<E>) {
    let format = run.word();
    run.written(&text, format);
}

// Adds what `{:?}` writes for an iterator over a view.
fn iterator<E: Utf16Order>(run: &mut Run, text: WStr<E>, has_offsets: bool) {
    if run.word() != "{:?}" {
        return run.unmet();
    }
    let done = if has_offsets {
        add_debug(run.alloc, &text.char_indices(), &mut run.answer)
    } else {
        add_debug(run.alloc, &text.chars(), &mut run.answer)
    };
    run.note(done);
}

// Adds what is written for the error of a text that does not spell a number.
fn parse_error<E: Utf16Order>(run: &mut Run, text: WStr<E>) {
    let format = run.word();
    match text.parse::<u32>() {
        Ok(_) => run.unmet(),
        Err(error) => run.written(&error, format),
    }
}

fn to_utf8<E: Utf16Order>(run: &mut Run, text: WStr<E>) {
    run.begin();
    match text.to_utf8(run.heap) {
        Ok(utf8) => run.answer.text(utf8.as_str()),
        Err(_) => run.answer.word("no_memory"),
    }
    run.requests();
}

// Adds the string after the text was appended to it.
fn push_utf8<E: Utf16Order>(run: &mut Run, text: WStr<E>) {
    match front(run) {
        Ok(to) => appended(run, to, text),
        Err(_) => run.refuse(Trouble::Memory),
    }
}

// Takes a text as a string, with the capacity that the case says.
fn front<'a>(run: &mut Run<'a>) -> Result<String<&'a Refusing<Global>>, AllocError> {
    let text = run.text();
    let mut to = String::with_capacity(run.heap, run.how.room.max(text.len()))?;
    to.push_str(text.as_str())?;
    Ok(to)
}

fn appended<E: Utf16Order>(run: &mut Run, to: String<&Refusing<Global>>, text: WStr<E>) {
    let mut to = to;
    run.begin();
    run.done(text.push_utf8(&mut to).is_ok());
    run.answer.text(to.as_str());
    run.requests();
}
