//! Texts as bytes: their characters, how they compare, and each encoding appended to other bytes.

ghost use Rattle.std.specs.Prelude.{IfSome};
ghost use Rattle.utf16_units.specs.Encoding.{IsUtf16};

use crate::buffers::offsets::word;
use crate::buffers::output::{add_bytes, add_changed, buffer};
use std::alloc::Global;
use tests_support::{Answer, Run, Trouble};
use utf16_from_utf8::{append_utf16, extend_utf16, write_text};
use utf16_str::append_utf8;
use utf16_to_utf8::{SLACK, utf8_len, write_utf8};
use utf16_transcode::put;
use utf16_units::compare::compare;
use utf16_units::ends::{first_char, last_char};
use utf16_units::size::utf16_len_by_chars;
use utf16_units::text::{count_chars, is_ascii};
use utf16_units::{Utf16Order, utf16_len, validate_raw_utf16};

/// Makes a call on bytes that are a text, or on a text in UTF-8.
pub fn call<E: Utf16Order>(run: &mut Run, name: &str) -> bool {
    match name {
        "compare" => compared::<E>(run),
        "append_utf8" => to_string::<E>(run),
        "write_utf8" => to_buffer::<E>(run),
        "utf16_len" => utf8_to_len(run, false),
        "utf16_len_by_chars" => utf8_to_len(run, true),
        "append_utf16" => to_bytes::<E>(run, false),
        "extend_utf16" => to_bytes::<E>(run, true),
        "write_text" => text_to_buffer::<E>(run),
        "put" => at_place(run),
        _ => match TextCall::named(name) {
            Some(call) => of_text::<E>(run, call),
            None => return false,
        },
    }
    true
}

// A call on only a text.
#[derive(Clone, Copy)]
enum TextCall {
    CountChars,
    IsAscii,
    Utf8Len,
    FirstChar,
    LastChar,
}

impl TextCall {
    // Returns the call of this name.
    fn named(name: &str) -> Option<Self> {
        match name {
            "text::count_chars" => Some(TextCall::CountChars),
            "text::is_ascii" => Some(TextCall::IsAscii),
            "utf8_len" => Some(TextCall::Utf8Len),
            "first_char" => Some(TextCall::FirstChar),
            "last_char" => Some(TextCall::LastChar),
            _ => None,
        }
    }
}

// Takes bytes that are a text.
fn text<E: Utf16Order>(run: &mut Run) -> Option<Vec<u8>>
    ensures { IfSome result (λ raw. IsUtf16 E.BIG raw.items) }
{
    let raw = run.bytes();
    match validate_raw_utf16::<E>(&raw) {
        Ok(()) => Some(raw),
        Err(_) => {
            run.unmet();
            None
        }
    }
}

fn of_text<E: Utf16Order>(run: &mut Run, call: TextCall) {
    let Some(raw) = text::<E>(run) else {
        return;
    };
    match call {
        TextCall::CountChars => run.answer.number(count_chars::<E>(&raw)),
        TextCall::IsAscii => run.answer.truth(is_ascii::<E>(&raw)),
        TextCall::Utf8Len => run.answer.number(utf8_len::<E>(&raw)),
        _ if raw.is_empty() => run.unmet(),
        TextCall::FirstChar => end(&mut run.answer, first_char::<E>(&raw)),
        TextCall::LastChar => end(&mut run.answer, last_char::<E>(&raw)),
    }
}

// Adds the character at an end, and its length in bytes.
fn end(answer: &mut Answer, found: (char, usize)) {
    let (c, size) = found;
    answer.character(c);
    answer.number(size);
}

fn compared<E: Utf16Order>(run: &mut Run) {
    let first = text::<E>(run);
    let second = text::<E>(run);
    if let (Some(first), Some(second)) = (first, second) {
        run.answer.word(word(compare::<E>(&first, &second)));
    }
}

// Appends a text in UTF-16 to a text in UTF-8.
fn to_string<E: Utf16Order>(run: &mut Run) {
    let Some(raw) = text::<E>(run) else {
        return;
    };
    let mut to = run.text();
    match append_utf8::<E, Global>(&raw, &mut to) {
        Ok(()) => run.answer.text(to.as_str()),
        Err(_) => run.refuse(Trouble::Memory),
    }
}

// Writes a text in UTF-8 to the start of a buffer of this many bytes.
fn to_buffer<E: Utf16Order>(run: &mut Run) {
    let Some(raw) = text::<E>(run) else {
        return;
    };
    let room = run.number();
    let mut to = buffer(run, room);
    if to.len() < SLACK || (to.len() - SLACK) / 3 < raw.len() / 2 {
        return run.unmet();
    }
    let len = write_utf8::<E>(&raw, &mut to);
    add_bytes(run, &to, len, true);
}

fn utf8_to_len(run: &mut Run, by_chars: bool) {
    let text = run.text();
    run.answer.number(if by_chars {
        utf16_len_by_chars(text.as_str())
    } else {
        utf16_len(text.as_str())
    });
}

// Appends a text in UTF-8 to bytes, in UTF-16, with capacity that is reserved or not.
fn to_bytes<E: Utf16Order>(run: &mut Run, is_reserved: bool) {
    let mut raw = run.bytes();
    let text = run.text();
    let is_appended = if is_reserved {
        raw.reserve(utf16_len(text.as_str())).is_ok()
            && extend_utf16::<E, Global>(&mut raw, text.as_str()).is_ok()
    } else {
        append_utf16::<E, Global>(&mut raw, text.as_str()).is_ok()
    };
    if is_appended {
        run.answer.bytes(raw.as_slice());
    } else {
        run.refuse(Trouble::Memory);
    }
}

// Adds a text in UTF-8, written in UTF-16 to the start of a buffer with one byte more than the call
// may write.
fn text_to_buffer<E: Utf16Order>(run: &mut Run) {
    let bytes = run.bytes();
    match str::from_utf8(&bytes) {
        Ok(text) => write::<E>(run, text),
        Err(_) => run.unmet(),
    }
}

fn write<E: Utf16Order>(run: &mut Run, text: &str) {
    if text.len() > 1_000_000 {
        return run.unmet();
    }
    let room = 2 * text.len() + utf16_from_utf8::SLACK;
    let mut to = buffer(run, room + 1);
    if to.len() < room {
        return;
    }
    let len = write_text::<E>(text.as_bytes(), &mut to);
    add_bytes(run, &to, len, false);
    add_changed(run, &to, room);
}

// Adds the bytes of a buffer to which bytes were written at an offset, and the end of the written
// bytes.
fn at_place(run: &mut Run) {
    let bytes = run.bytes();
    let mut to = run.bytes();
    let at = run.number();
    if at > to.len() || to.len() - at < bytes.len() {
        return run.unmet();
    }
    run.answer.number(put(&bytes, &mut to, at));
    run.answer.bytes(&to);
}
