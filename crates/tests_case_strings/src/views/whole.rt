//! What a view is without further values: measured, trimmed, parsed, and its lines and words.

use tests_support::Answer;
use utf16string::{ParseError, Utf16Order, WStr};

/// Makes a call on only a view.
pub fn call<E: Utf16Order>(answer: &mut Answer, text: WStr<E>, name: &str) -> bool {
    match name {
        "len" => answer.number(text.len()),
        "is_empty" => answer.truth(text.is_empty()),
        "is_ascii" => answer.truth(text.is_ascii()),
        "as_bytes" => answer.bytes(text.as_bytes()),
        "clone" => clone(answer, text),
        "parse" => parse(answer, text),
        "trim" => answer.bytes(text.trim().as_bytes()),
        "trim_start" => answer.bytes(text.trim_start().as_bytes()),
        "trim_end" => answer.bytes(text.trim_end().as_bytes()),
        "trim_ascii" => answer.bytes(text.trim_ascii().as_bytes()),
        "trim_ascii_start" => answer.bytes(text.trim_ascii_start().as_bytes()),
        "trim_ascii_end" => answer.bytes(text.trim_ascii_end().as_bytes()),
        _ => return words(answer, text, name),
    }
    true
}

fn clone<E: Utf16Order>(answer: &mut Answer, text: WStr<E>) {
    let cloned: Result<_, _> = text.clone();
    match cloned {
        Ok(cloned) => answer.bytes(cloned.as_bytes()),
        Err(_) => answer.word("no_memory"),
    }
}

fn parse<E: Utf16Order>(answer: &mut Answer, text: WStr<E>) {
    match text.parse::<u32>() {
        Ok(number) => answer.number(number as usize),
        Err(ParseError::Long) => answer.word("long"),
        Err(ParseError::Value(_)) => answer.word("invalid"),
    }
}

macro_rules! each {
    ($answer:expr, $parts:expr) => {
        for part in $parts {
            $answer.bytes(part.as_bytes());
        }
    };
}

// Makes a call that gives the lines or the words of a view.
fn words<E: Utf16Order>(answer: &mut Answer, text: WStr<E>, name: &str) -> bool {
    match name {
        "lines" => each!(answer, text.lines()),
        "WStrLines::rev" => each!(answer, text.lines().rev()),
        "split_whitespace" => each!(answer, text.split_whitespace()),
        "WStrSplitWhitespace::rev" => each!(answer, text.split_whitespace().rev()),
        "split_ascii_whitespace" => each!(answer, text.split_ascii_whitespace()),
        "WStrSplitAsciiWhitespace::rev" => each!(answer, text.split_ascii_whitespace().rev()),
        _ => return false,
    }
    true
}
