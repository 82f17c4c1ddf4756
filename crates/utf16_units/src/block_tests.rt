//! Tests of the block functions of the validator, of `count_chars` and of `is_ascii`, each on known
//! blocks, and of the loop over code units.

ghost use Rattle.std.specs.Prelude.{IsTrue};

use crate::blocks::{is_ascii_block, units16, units32};
use crate::surrogates::{paired, trailing_bits};
use crate::validate::valid_len_from;
use crate::{BE, LE, Utf16Error, Utf16Order, validate_raw_utf16};
use std::process::Abort;
use std::simd::prelude::*;

// Asserts that `is` is true.
fn holds(rt: &impl Abort, is: bool)
    ensures { IsTrue is }
{
    assert!(rt; is);
}

// Writes a code unit at an offset, if there is space for it.
fn put<E: Utf16Order>(raw: &mut [u8], at: usize, unit: u16) {
    if at < raw.len() && raw.len() - at >= 2 {
        let two = E::write_unit(unit);
        raw[at] = two[0];
        raw[at + 1] = two[1];
    }
}

// Fills the buffer with the letter "a".
fn put_letters<E: Utf16Order>(raw: &mut [u8]) {
    for i in 0..raw.len() / 2 {
        put::<E>(raw, 2 * i, 0x61);
    }
}

// A block of letters with two other code units.
fn block<E: Utf16Order>(first: u16, second: u16) -> [u8; 64] {
    let mut raw = [0; 64];
    put_letters::<E>(&mut raw);
    put::<E>(&mut raw, 14, first);
    put::<E>(&mut raw, 16, second);
    raw
}

// The result for the whole block, and for its first half.
fn is_paired<E: Utf16Order>(raw: &[u8; 64]) -> [Option<bool>; 2] {
    let whole = units32::<E>(u8x64::from_array(*raw));
    let half = units16::<E>(u8x32::from_slice(raw));
    [paired(whole, false), paired(half, false)]
}

fn counts<E: Utf16Order>(raw: [u8; 64]) -> (u32, bool) {
    let block = u8x64::from_array(raw);
    let bits = trailing_bits(units32::<E>(block));
    (bits.count_ones(), is_ascii_block::<E>(block))
}

// A block that is well formed, one that is ill-formed, and one of ASCII.
fn blocks_are<E: Utf16Order>(rt: &impl Abort) {
    let (text, fault) = (block::<E>(0xD800, 0xDC00), block::<E>(0xDC00, 0xD800));
    holds(rt, is_paired::<E>(&text) == [Some(false); 2]);
    holds(rt, is_paired::<E>(&fault) == [None; 2]);
    holds(rt, counts::<E>(text) == (1, false));
    holds(rt, counts::<E>(block::<E>(0x7F, 0x61)) == (0, true));
}

#[test]
fn blocks_in_both_orders(rt: HostRuntime) {
    blocks_are::<LE>(&rt);
    blocks_are::<BE>(&rt);
}

// The length of the longest valid prefix, unit by unit.
fn by_units<E: Utf16Order>(raw: &[u8]) -> usize {
    valid_len_from::<E>(raw, 0)
}

// The fields of the error, if there is one.
fn fields(found: Result<(), Utf16Error>) -> Option<(usize, Option<usize>)> {
    match found {
        Ok(()) => None,
        Err(error) => Some((error.valid_up_to(), error.error_len())),
    }
}

// A text, and the result of its validation.
type Row = (
    // Whether the byte order is big endian.
    bool,
    // The number of letters at the start.
    usize,
    // The bytes after them.
    &'static [u8],
    // The number of letters after those bytes.
    usize,
    // The fields of the error, if there is one.
    Option<(usize, Option<usize>)>,
);

const LONG: [Row; 9] = [
    (false, 15, &[0x00, 0xD8, 0x00, 0xDC], 0, None),
    (false, 15, &[0x00, 0xD8], 0, Some((30, None))),
    (false, 15, &[0x00, 0xD8, 0x00], 0, Some((30, None))),
    (false, 15, &[0x00, 0xD8, 0x61, 0x00], 0, Some((30, Some(2)))),
    (false, 16, &[0x00, 0xDC], 0, Some((32, Some(2)))),
    (false, 40, &[0x41], 0, Some((80, None))),
    (
        false,
        2,
        &[
            0x00, 0xDC, 0x61, 0x00, 0x61, 0x00, 0x61, 0x00, 0x61, 0x00, 0x61, 0x00, 0x61, 0x00,
            0x61, 0x00, 0x61, 0x00, 0x61, 0x00, 0x61, 0x00, 0x61, 0x00, 0x61, 0x00, 0x61, 0x00,
            0x61, 0x00, 0x61, 0x00, 0x61, 0x00, 0x61, 0x00, 0x00, 0xDC,
        ],
        0,
        Some((4, Some(2))),
    ),
    (
        false,
        15,
        &[0x00, 0xD8, 0x00, 0xDC, 0x00, 0xDC],
        14,
        Some((34, Some(2))),
    ),
    (true, 15, &[0xD8, 0x00, 0xDC], 0, Some((30, None))),
];

const SEAMS: [Row; 7] = [
    (false, 31, &[0x00, 0xD8, 0x00, 0xDC], 0, None),
    (false, 31, &[0x00, 0xD8], 0, Some((62, None))),
    (
        false,
        31,
        &[0x00, 0xD8, 0x61, 0x00],
        31,
        Some((62, Some(2))),
    ),
    (false, 32, &[0x00, 0xDC], 31, Some((64, Some(2)))),
    (false, 40, &[0x00, 0xDC], 31, Some((80, Some(2)))),
    (true, 40, &[0xD8, 0x00, 0x00, 0x61], 31, Some((80, Some(2)))),
    (
        false,
        40,
        &[0x00, 0xD8, 0x00, 0xDC, 0x61, 0x00, 0x00, 0xDC],
        31,
        Some((86, Some(2))),
    ),
];

const SHORT_ROWS: [Row; 14] = [
    (false, 0, &[0x00, 0xDC], 0, Some((0, Some(2)))),
    (false, 0, &[0x00, 0xD8], 0, Some((0, None))),
    (false, 0, &[0x00, 0xD8, 0x00], 0, Some((0, None))),
    (false, 0, &[0xDC], 0, Some((0, None))),
    (false, 0, &[0x41], 0, Some((0, None))),
    (false, 0, &[0x00, 0xD8, 0x41, 0x00], 0, Some((0, Some(2)))),
    (false, 0, &[0x00, 0xD8, 0x00, 0xD8], 0, Some((0, Some(2)))),
    (false, 0, &[0x00, 0xDC, 0x00, 0xD8], 0, Some((0, Some(2)))),
    (
        false,
        0,
        &[0x00, 0xD8, 0x00, 0xDC, 0x00, 0xD8, 0x00, 0xDC, 0x00],
        0,
        Some((8, None)),
    ),
    (true, 0, &[0xDC], 0, Some((0, None))),
    (true, 0, &[0xD8], 0, Some((0, None))),
    (true, 0, &[0xD8, 0x00, 0xDC], 0, Some((0, None))),
    (true, 0, &[0xD8, 0x00, 0x00], 0, Some((0, None))),
    (true, 0, &[0x00, 0x41, 0xD8, 0x00], 0, Some((2, None))),
];

// Validates with both functions a buffer of letters that has `bytes` after the first `letters`.
fn row_is<E: Utf16Order>(
    rt: &impl Abort,
    letters: usize,
    bytes: &[u8],
    more: usize,
    wanted: Option<(usize, Option<usize>)>,
) {
    let mut buf = [0; 256];
    put_letters::<E>(&mut buf);
    holds(rt, letters < 64 && bytes.len() < 64 && more < 32);
    let end = letters * 2 + bytes.len();
    buf[letters * 2..end].copy_from_slice(bytes);
    let raw = &buf[..end + more * 2];
    holds(rt, fields(validate_raw_utf16::<E>(raw)) == wanted);
    let wanted_len = match wanted {
        None => raw.len(),
        Some((len, _)) => len,
    };
    holds(rt, by_units::<E>(raw) == wanted_len);
}

fn rows_are(rt: &impl Abort, rows: &[Row]) {
    for (big, letters, bytes, more, wanted) in rows {
        if *big {
            row_is::<BE>(rt, *letters, bytes, *more, *wanted);
        } else {
            row_is::<LE>(rt, *letters, bytes, *more, *wanted);
        }
    }
}

#[test]
fn rows_by_lanes_and_by_units(rt: HostRuntime) {
    rows_are(&rt, &LONG);
    rows_are(&rt, &SEAMS);
    rows_are(&rt, &SHORT_ROWS);
}
