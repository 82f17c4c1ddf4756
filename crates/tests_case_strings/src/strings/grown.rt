//! Strings that grow.

use crate::strings::held::{Heap, part};
use crate::strings::joined;
use crate::strings::ranged::replace_range;
use std::alloc::AllocError;
use std::fmt::Write;
use tests_support::Run;
use utf16string::{Utf16Order, WString};

/// Makes a call that is done or whose allocation fails, and adds which.
pub fn call<E: Utf16Order>(run: &mut Run, string: &mut WString<E, Heap>, name: &str) -> bool {
    match done(run, string, name) {
        Some(done) => {
            run.done(done.is_ok());
            true
        }
        None => false,
    }
}

fn done<E: Utf16Order>(
    run: &mut Run,
    string: &mut WString<E, Heap>,
    name: &str,
) -> Option<Result<(), AllocError>> {
    Some(match name {
        "push" => string.push(run.character()),
        "push_wstr" => push_wstr(run, string),
        "push_str" => string.push_str(run.text().as_str()),
        "insert" => insert(run, string),
        "insert_wstr" => insert_wstr(run, string),
        "insert_str" => insert_str(run, string),
        "reserve" => reserve(run, string),
        "reserve_exact" => string.reserve_exact(run.number()),
        "shrink_to" => string.shrink_to(run.number()),
        "shrink_to_fit" => string.shrink_to_fit(),
        "extend_wstr" => joined::views::<E>(run, string),
        "extend_str" => joined::strs::<E>(run, string),
        "replace_range" => replace_range(run, string),
        "write_str" => write_str(run, string),
        "write_fmt" => write_fmt(run, string),
        _ => return None,
    })
}

fn push_wstr<E: Utf16Order>(
    run: &mut Run,
    string: &mut WString<E, Heap>,
) -> Result<(), AllocError> {
    string.push_wstr(part::<E>(run).as_wstr())
}

fn insert<E: Utf16Order>(run: &mut Run, string: &mut WString<E, Heap>) -> Result<(), AllocError> {
    let idx = run.number();
    let c = run.character();
    if string.is_char_boundary(idx) {
        string.insert(idx, c)
    } else {
        run.unmet();
        Ok(())
    }
}

fn insert_wstr<E: Utf16Order>(
    run: &mut Run,
    string: &mut WString<E, Heap>,
) -> Result<(), AllocError> {
    let idx = run.number();
    let text = part::<E>(run);
    if string.is_char_boundary(idx) {
        string.insert_wstr(idx, text.as_wstr())
    } else {
        run.unmet();
        Ok(())
    }
}

fn insert_str<E: Utf16Order>(
    run: &mut Run,
    string: &mut WString<E, Heap>,
) -> Result<(), AllocError> {
    let idx = run.number();
    let text = run.text();
    if string.is_char_boundary(idx) {
        string.insert_str(idx, text.as_str())
    } else {
        run.unmet();
        Ok(())
    }
}

// The result also says whether the capacity is enough for that many more bytes.
fn reserve<E: Utf16Order>(run: &mut Run, string: &mut WString<E, Heap>) -> Result<(), AllocError> {
    let additional = run.number();
    string.reserve(additional)?;
    run.answer.word("capacity");
    run.answer
        .truth(additional <= string.capacity() - string.len());
    Ok(())
}

fn write_str<E: Utf16Order>(
    run: &mut Run,
    string: &mut WString<E, Heap>,
) -> Result<(), AllocError> {
    string
        .write_str(run.text().as_str())
        .map_err(|_| AllocError)
}

// Writes a number and a character.
fn write_fmt<E: Utf16Order>(
    run: &mut Run,
    string: &mut WString<E, Heap>,
) -> Result<(), AllocError> {
    let number = run.number();
    let c = run.character();
    write!(string, "{number}{c}").map_err(|_| AllocError)
}
