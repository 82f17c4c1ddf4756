//! The length of a text in UTF-8.

ghost use Rattle.std.specs.Prelude.{◌≡◌, ◌%◌, ◌≤◌, length, sum_by};
ghost use Rattle.utf16_units.specs.Encoding.{IsUtf16, units_of, utf8_of};
ghost use Rattle.utf16_to_utf8.specs.Lanes.{added_len};

use crate::blocks::{are_below, filled_units};
use crate::pack::ascii_bits;
use std::simd::prelude::*;
use utf16_units::Utf16Order;
use utf16_units::blocks::units32;
use utf16_units::surrogates::class_bits;

/// Returns the length of the text in UTF-8, in bytes.
///
/// # Precondition
///
/// `raw` is well-formed UTF-16 in the byte order `E` (check with
/// `utf16_units::validate_raw_utf16`).
///
/// # Complexity
///
/// One pass.
pub fn utf8_len<E: Utf16Order>(raw: &[u8]) -> usize
    requires { IsUtf16 E.BIG raw.now }
    ensures { result ≡ length (utf8_of E.BIG raw.now) }
{
    units_len::<E>(raw)
}

// The number of bytes that the units add.
fn units_len<E: Utf16Order>(raw: &[u8]) -> usize
    requires { length raw.now % 2 ≡ 0 }
    ensures { result ≡ sum_by added_len (units_of E.BIG raw.now) }
{
    let mut at = 0;
    let mut len = 0;
    while raw.len() - at >= 64 {
        len += block_len(units32::<E>(u8x64::from_slice(&raw[at..])));
        at += 64;
    }
    len + rest_len::<E>(&raw[at..])
}

// The number of bytes that the units of at most a block add. The block is padded with zeros, each
// of which adds one byte.
#[inline(always)]
fn rest_len<E: Utf16Order>(raw: &[u8]) -> usize
    requires few { length raw.now ≤ 64 }
    requires even { length raw.now % 2 ≡ 0 }
    ensures { result ≡ sum_by added_len (units_of E.BIG raw.now) }
{
    block_len(filled_units::<E>(raw)) - (32 - raw.len() / 2)
}

// The number of bytes that the units of a block add: three for each, less one if it is below
// U+0800, less another one if it is ASCII, and less one if it is a surrogate.
#[inline(always)]
fn block_len(units: u16x32) -> usize
    ensures { result ≡ sum_by added_len units }
{
    if are_below(units, 0x80) {
        return 32;
    }
    let low = class_bits(units, 0xF8, 0).count_ones() as usize;
    let surrogates = class_bits(units, 0xF8, 0xD8).count_ones() as usize;
    96 - low - surrogates - ascii_bits(units).count_ones() as usize
}
