//! Code units, byte orders, single characters and errors.

use crate::views::made::refused;
use tests_support::{Run, Trouble};
use utf16_units::{
    Utf16CharExt, decode_surrogates, is_leading_surrogate, is_trailing_surrogate,
    validate_raw_utf16,
};
use utf16string::{Utf16Order, WStr};

/// Makes a call on code units, single characters or errors.
pub fn call<E: Utf16Order>(run: &mut Run, name: &str) -> bool {
    match name {
        "is_leading_surrogate" => is_leading(run),
        "is_trailing_surrogate" => is_trailing(run),
        "decode_surrogates" => pair(run),
        "Utf16Order::read_unit" => read_unit::<E>(run),
        "Utf16Order::write_unit" => write_unit::<E>(run),
        "Utf16CharExt::encoded_utf16_len" => encoded_utf16_len(run),
        "Utf16CharExt::encode_utf16_into" => encode_utf16_into::<E>(run),
        "validate_raw_utf16" => validate::<E>(run),
        "Utf16Error::fmt" => fmt::<E>(run),
        "Utf16Error::detail" => detail::<E>(run),
        _ => return false,
    }
    true
}

// Takes a code unit.
fn unit(run: &mut Run) -> u16 {
    match u16::try_from(run.number()) {
        Ok(unit) => unit,
        Err(_) => {
            run.refuse(Trouble::Value);
            0
        }
    }
}

fn is_leading(run: &mut Run) {
    let unit = unit(run);
    run.answer.truth(is_leading_surrogate(unit));
}

fn is_trailing(run: &mut Run) {
    let unit = unit(run);
    run.answer.truth(is_trailing_surrogate(unit));
}

fn write_unit<E: Utf16Order>(run: &mut Run) {
    let unit = unit(run);
    run.answer.bytes(&E::write_unit(unit));
}

fn pair(run: &mut Run) {
    let leading = unit(run);
    let trailing = unit(run);
    if is_leading_surrogate(leading) && is_trailing_surrogate(trailing) {
        run.answer.character(decode_surrogates(leading, trailing));
    } else {
        run.unmet();
    }
}

fn read_unit<E: Utf16Order>(run: &mut Run) {
    match run.bytes().as_slice() {
        [first, second] => run.answer.number(E::read_unit([*first, *second]) as usize),
        _ => run.refuse(Trouble::Value),
    }
}

fn encoded_utf16_len(run: &mut Run) {
    let c = run.character();
    run.answer.number(c.encoded_utf16_len());
}

// The buffer as the call leaves it, after the number of bytes that were written.
fn encode_utf16_into<E: Utf16Order>(run: &mut Run) {
    let c = run.character();
    let mut buf = run.bytes();
    if buf.len() < c.encoded_utf16_len() {
        return run.unmet();
    }
    run.answer.number(c.encode_utf16_into::<E>(&mut buf));
    run.answer.bytes(&buf);
}

fn validate<E: Utf16Order>(run: &mut Run) {
    let bytes = run.bytes();
    match validate_raw_utf16::<E>(&bytes) {
        Ok(()) => run.answer.word("done"),
        Err(error) => refused(&mut run.answer, error),
    }
}

// Adds what a format writes for the error of ill-formed bytes.
fn fmt<E: Utf16Order>(run: &mut Run) {
    let raw = run.bytes();
    let format = run.word();
    match validate_raw_utf16::<E>(&raw) {
        Ok(()) => run.unmet(),
        Err(error) => run.written(&error, format),
    }
}

// Adds what a format writes for the detail of that error.
fn detail<E: Utf16Order>(run: &mut Run) {
    let raw = run.bytes();
    let format = run.word();
    match validate_raw_utf16::<E>(&raw) {
        Ok(()) => run.unmet(),
        Err(error) => run.written(&error.detail(), format),
    }
}
