//! Validation of UTF-32.

ghost use Rattle.std.specs.Prelude.{◌↔◌, ◌<◌, ◌≤◌, IfErr, IsOk, length, slice_index, take};
ghost use Rattle.std.specs.Char.{IsScalar};
ghost use Rattle.utf16_fixed.specs.Utf32.{IsUtf32, IsUtf32ValidUpTo};

use crate::lanes::are_scalars;
use std::simd::prelude::*;

/// Tests whether code units are well-formed UTF-32: each is a scalar value, at most 0x10FFFF and no
/// surrogate.
///
/// # Errors
///
/// The offset, in code units, of the first that is not a scalar value.
///
/// # Complexity
///
/// One pass, with SIMD.
pub fn validate_utf32(utf32: &[u32]) -> Result<(), usize>
    ensures ok { IsOk result ↔ IsUtf32 utf32.now }
    ensures error { IfErr result (IsUtf32ValidUpTo utf32.now) }
{
    let mut at = scalar_blocks(utf32);
    while at < utf32.len() {
        let Some(_) = char::from_u32(utf32[at]) else {
            return Err(at);
        };
        at += 1;
    }
    Ok(())
}

// The end of the blocks of sixteen code units that are all scalar values.
#[inline(always)]
fn scalar_blocks(utf32: &[u32]) -> usize
    ensures within { result ≤ length utf32.now }
    ensures valid { IsUtf32 (take result utf32.now) }
{
    let mut at = 0;
    while utf32.len() - at >= 16 && are_scalars(u32x16::from_slice(&utf32[at..])) {
        at += 16;
    }
    at
}
