//! The surrogates of a block of code units, as bits.
//!
//! Only high bytes are compared, because twice as many fit into a register: whole units take 1.2 to
//! 1.3 times as long on emoji and on ASCII in big endian. Surrogates are paired exactly if the bits
//! of the trailing ones are those of the leading ones, moved by one. So one comparison of integers
//! tests all pairs of a block.

ghost use Rattle.std.specs.Prelude.{◌≡◌, ◌↔◌, ◌<◌, ◌≤◌, ◌==◌, IfNone, IfSome, IsTrue, bit_and, drop, false, map, slice_index, take};
ghost use Rattle.std.specs.Char.Utf16.{is_high_surrogate, is_low_surrogate};
ghost use Rattle.std.specs.Simd.Lanes.{mask_l};
ghost use Rattle.utf16_units.specs.Lanes.{HasNoSurrogate, IsNoSurrogate, Paired, Unpaired, high_byte};

use std::simd::prelude::*;

// The high bytes of the units. A register holds twice as many of them as of units.
#[inline(always)]
fn high_bytes<const N: usize>(units: Simd<u16, N>) -> Simd<u8, N>
    ensures { result ≡ map high_byte units.entry }
{
    (units >> Simd::splat(8)).cast::<u8>()
}

/// Returns a bit for each unit whose high byte has the bits `class` under the mask `mask`.
#[inline(always)]
pub fn class_bits<const N: usize>(units: Simd<u16, N>, mask: u8, class: u8) -> u64
    requires { N ≤ 64 }
    ensures { result ≡ mask_l (map (λ unit. bit_and (high_byte unit) mask == class) units.entry) }
{
    (high_bytes(units) & Simd::splat(mask))
        .simd_eq(Simd::splat(class))
        .to_bitmask()
}

// A bit for each leading surrogate.
#[inline(always)]
pub(crate) fn leading_bits<const N: usize>(units: Simd<u16, N>) -> u64
    requires { N ≤ 64 }
    ensures { result ≡ mask_l (map is_high_surrogate units.entry) }
{
    class_bits(units, 0xFC, 0xD8)
}

// A bit for each trailing surrogate.
#[inline(always)]
pub(crate) fn trailing_bits<const N: usize>(units: Simd<u16, N>) -> u64
    requires { N ≤ 64 }
    ensures { result ≡ mask_l (map is_low_surrogate units.entry) }
{
    class_bits(units, 0xFC, 0xDC)
}

/// Returns `Some` if the surrogates are paired: a unit is trailing exactly if the unit before it is
/// leading. `before` says whether the unit before the block is leading, and the result whether the
/// last unit is.
#[inline(always)]
pub fn paired<const N: usize>(units: Simd<u16, N>, before: bool) -> Option<bool>
    requires { N ≤ 32 }
    ensures some { IfSome result (λ after. Paired before units.entry after) }
    ensures none { IfNone result (Unpaired before units.entry) }
{
    let expected = 2 * leading_bits(units) + before as u64;
    if trailing_bits(units) == expected % (1 << N) {
        Some(expected >= 1 << N)
    } else {
        None
    }
}

// Whether the surrogates of the units from `from` on are paired, by themselves.
#[inline(always)]
pub(crate) fn paired_from<const N: usize>(units: Simd<u16, N>, from: usize) -> bool
    requires few { N ≤ 32 }
    requires within { from ≤ N }
    ensures { IsTrue result ↔ Paired false (drop from units.entry) false }
{
    trailing_bits(units) >> from == 2 * (leading_bits(units) >> from)
}

/// Returns whether no unit is a surrogate.
#[inline(always)]
pub fn has_no_surrogate<const N: usize>(units: Simd<u16, N>) -> bool
    requires { N ≤ 64 }
    ensures { IsTrue result ↔ HasNoSurrogate units.entry }
{
    class_bits(units, 0xF8, 0xD8) == 0
}

/// Returns the number of units before the first surrogate, or of all units if there is none.
///
/// # Precondition
///
/// There are at most sixty-four units.
#[inline(always)]
pub fn plain_len<const N: usize>(units: Simd<u16, N>) -> usize
    requires { N ≤ 64 }
    ensures few { result ≤ N }
    ensures plain { HasNoSurrogate (take result units.entry) }
    ensures stop { result < N → ¬ IsNoSurrogate (slice_index units.entry result) }
{
    let surrogates = class_bits(units, 0xF8, 0xD8);
    if surrogates == 0 {
        N
    } else {
        surrogates.trailing_zeros() as usize
    }
}
