//! Strings of which something is taken, and those that say how they were changed.

use crate::strings::held::Heap;
use crate::strings::ranged::drain;
use crate::strings::retained::retain_by;
use tests_support::Run;
use utf16string::{Utf16Order, WString};

/// Makes a call that changes a string, and adds what it returns.
pub fn call<E: Utf16Order>(run: &mut Run, string: &mut WString<E, Heap>, name: &str) -> bool {
    match name {
        "pop" => pop(run, string),
        "remove" => remove(run, string),
        "split_off" => split_off(run, string),
        "drain" => drain(run, string),
        "extend" => extend(run, string, true),
        "Extend::extend" => extend(run, string, false),
        "retain_by" => retain_by(run, string),
        _ => return false,
    }
    true
}

fn pop<E: Utf16Order>(run: &mut Run, string: &mut WString<E, Heap>) {
    match string.pop() {
        Some(c) => run.answer.character(c),
        None => run.answer.word("none"),
    }
}

fn remove<E: Utf16Order>(run: &mut Run, string: &mut WString<E, Heap>) {
    let at = run.number();
    if string.is_char_boundary(at) && at < string.len() {
        run.answer.character(string.remove(at));
    } else {
        run.unmet();
    }
}

fn split_off<E: Utf16Order>(run: &mut Run, string: &mut WString<E, Heap>) {
    let at = run.number();
    if !string.is_char_boundary(at) {
        return run.unmet();
    }
    match string.split_off(at) {
        Ok(back) => run.answer.bytes(back.as_bytes()),
        Err(_) => run.done(false),
    }
}

// Appends characters, with the call or with the trait of that name. If an allocation failed, the
// result also says which characters the iterator still has.
fn extend<E: Utf16Order>(run: &mut Run, string: &mut WString<E, Heap>, is_call: bool) {
    let text = run.text();
    let mut chars = text.chars();
    let done = if is_call {
        string.extend(&mut chars)
    } else {
        Extend::extend(string, &mut chars)
    };
    run.done(done.is_ok());
    if done.is_err() {
        run.answer.text(chars.as_str());
    }
}
