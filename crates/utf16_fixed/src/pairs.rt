//! Surrogate pairs in lanes, and blocks of eight that are read.
//!
//! A pair is one lane, with the leading surrogate in its low half. Less 0xDC00_D800, the halves are
//! the ten bits of each surrogate, and one is above 0x3FF exactly if it is not a pair.

ghost use Rattle.std.specs.Prelude.{◌≡◌, ◌*◌, ◌≤◌, length, map, take};
ghost use Rattle.utf16_units.specs.Encoding.{units_of};
ghost use Rattle.utf16_fixed.specs.Pairs.{halved, joined, pair_bits, pair_char, pair_of, pair_offset, pair_test};
ghost use Rattle.utf16_fixed.specs.Utf32.{TranscodesFromUtf32, TranscodesToUtf32};

use crate::lanes::len_up_to;
use std::simd::prelude::*;
use utf16_units::Utf16Order;
use utf16_units::blocks::units16;

// Writes the characters of eight surrogate pairs to the start of a buffer, and returns how many of
// them are pairs, up to the first that is not. Only these count.
#[inline(always)]
pub(crate) fn write_pairs<E: Utf16Order>(raw: &[u8], to: &mut [u32]) -> usize
    requires bytes { 32 ≤ length raw.now }
    requires space { 8 ≤ length to.old }
    ensures few { result ≤ 8 }
    ensures text { TranscodesToUtf32 E.BIG (take (4 * result) raw.now) (take result to.new) }
{
    let bits = bits_of(joined::<E>(u8x32::from_slice(raw)));
    chars_of(bits).copy_to_slice(to);
    len_up_to(tests_of(bits), 0x3FF)
}

// Two code units in each lane, the first in the low half.
#[inline(always)]
fn joined<E: Utf16Order>(block: u8x32) -> u32x8
    ensures len { length result ≡ 8 }
    ensures units { result ≡ joined (units_of E.BIG block) }
{
    u32x8::from_le_bytes(units16::<E>(block).to_le_bytes())
}

// The ten bits of each surrogate, if they are a pair.
#[inline(always)]
fn bits_of(pairs: u32x8) -> u32x8
    ensures { result ≡ map pair_bits pairs }
{
    pairs - u32x8::splat(0xDC00_D800)
}

// The characters of these bits.
#[inline(always)]
fn chars_of(bits: u32x8) -> u32x8
    ensures { result ≡ map pair_char bits }
{
    ((bits & u32x8::splat(0xFFFF)) << u32x8::splat(10))
        + (bits >> u32x8::splat(16))
        + u32x8::splat(0x1_0000)
}

// Both halves together, which are at most 0x3FF if each is.
#[inline(always)]
fn tests_of(bits: u32x8) -> u32x8
    ensures { result ≡ map pair_test bits }
{
    (bits & u32x8::splat(0xFFFF)) | (bits >> u32x8::splat(16))
}

// The pairs of characters, by their offsets from U+10000, the first that takes two UTF-16 code
// units.
#[inline(always)]
pub(crate) fn pairs_of(chars: u32x8) -> u32x8
    ensures { result ≡ map pair_of (map pair_offset chars) }
{
    let offsets = chars - u32x8::splat(0x1_0000);
    ((offsets & u32x8::splat(0x3FF)) << u32x8::splat(16))
        + (offsets >> u32x8::splat(10))
        + u32x8::splat(0xDC00_D800)
}

// The halves of each lane, the low one first.
#[inline(always)]
pub(crate) fn halved(pairs: u32x8) -> u16x16
    ensures { result ≡ halved pairs }
{
    u16x16::from_le_bytes(pairs.to_le_bytes())
}
