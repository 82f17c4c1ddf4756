//! ASCII with unpaired surrogates in it, in blocks of thirty-two code units.
//!
//! Each unit is clamped to a byte, whose highest bit then says whether it is ASCII. All are stored,
//! and what follows the ASCII is overwritten.

ghost use Rattle.std.specs.Prelude.{◌≡◌, ◌*◌, ◌<◌, ◌≤◌, ◌==◌, ℕ, All, IfSome, bit_and, length, map, min, slice_index, take};
ghost use Rattle.std.specs.Simd.Lanes.{mask_l};
ghost use Rattle.utf16_units.specs.Encoding.{units_of};
ghost use Rattle.utf16_units.specs.Lanes.{HasLanes};
ghost use Rattle.utf16_transcode.specs.Transcoded.{DecodesTo, TranscodesToUtf8};

use crate::replacement::REPLACEMENT;
use std::simd::prelude::*;
use utf16_to_utf8::put;
use utf16_units::blocks::units32;
use utf16_units::{Moved, Utf16Order, first_char_len};

// Writes blocks of ASCII to the start of a buffer, with U+FFFD for each unpaired surrogate in them,
// until another character comes. Kept out of line so that its loop has all registers.
#[inline(never)]
pub(crate) fn write_lossy_ascii_blocks<E: Utf16Order>(raw: &[u8], to: &mut [u8]) -> Moved
    requires bytes { 66 ≤ length raw.now }
    requires space { 35 ≤ length to.old }
    ensures { DecodesTo E.BIG raw.now to.new result.read result.written }
{
    let last = raw.len() - 66;
    let most = to.len() - 35;
    let mut read = 0;
    let mut written = 0;
    while read <= last && written <= most {
        let Some(block) = write_lossy_ascii_block::<E>(&raw[read..], &mut to[written..]) else {
            break;
        };
        read += block.read;
        written += block.written;
    }
    Moved { read, written }
}

// Writes the ASCII at the start of a block to the start of a buffer, and U+FFFD for the unpaired
// surrogate that follows it; `None` if another character follows.
#[inline(always)]
fn write_lossy_ascii_block<E: Utf16Order>(raw: &[u8], to: &mut [u8]) -> Option<Moved>
    requires bytes { 66 ≤ length raw.now }
    requires space { 35 ≤ length to.old }
    ensures decodes { IfSome result (λ done.
        DecodesTo E.BIG raw.now to.new done.read done.written) }
    ensures advances { IfSome result (λ done. 0 < done.read) }
{
    let len = write_ascii_prefix::<E>(raw, to);
    if len == 32 {
        return Some(Moved {
            read: 2 * len,
            written: len,
        });
    }
    match first_char_len::<E>(&raw[2 * len..]) {
        Err(Some(lone)) => Some(Moved {
            read: 2 * len + lone as usize,
            written: put(&REPLACEMENT, to, len),
        }),
        _ => None,
    }
}

// Writes the ASCII at the start of a block to the start of a buffer, and returns the number of its
// code units. The bytes after them may be overwritten.
#[inline(always)]
fn write_ascii_prefix<E: Utf16Order>(raw: &[u8], to: &mut [u8]) -> usize
    requires bytes { 64 ≤ length raw.now }
    requires space { 32 ≤ length to.old }
    ensures few { result ≤ 32 }
    ensures text { TranscodesToUtf8 E.BIG (take (2 * result) raw.now) (take result to.new) }
    ensures stop { result < 32 → 0x80 ≤ slice_index (units_of E.BIG (take 64 raw.now)) result }
{
    let units = units32::<E>(u8x64::from_slice(raw));
    let bytes = narrowed(clamped(units));
    bytes.copy_to_slice(to);
    ascii_len(bytes)
}

// The units, each of them at most 0xFF.
#[inline(always)]
fn clamped(units: u16x32) -> u16x32
    ensures { HasLanes 32 result (λ i. min (slice_index units i) 0xFF) }
{
    units.simd_min(u16x32::splat(0xFF))
}

// The units as bytes.
#[inline(always)]
fn narrowed(units: u16x32) -> u8x32
    requires { (i : ℕ) → i < length units → slice_index units i ≤ 0xFF }
    ensures { HasLanes 32 result (λ i. slice_index units i) }
{
    units.cast::<u8>()
}

// Returns the number of bytes before the first byte that is not ASCII, or of all bytes if all are
// ASCII.
#[inline(always)]
pub(crate) fn ascii_len<const N: usize>(bytes: Simd<u8, N>) -> usize
    requires { N ≤ 64 }
    ensures few { result ≤ N }
    ensures ascii { All (λ byte. byte < 0x80) (take result bytes.entry) }
    ensures stop { result < N → 0x80 ≤ slice_index bytes.entry result }
{
    let others = high_bits(bytes);
    if others == 0 {
        N
    } else {
        others.trailing_zeros() as usize
    }
}

// A bit for each byte that is not ASCII.
#[inline(always)]
fn high_bits<const N: usize>(bytes: Simd<u8, N>) -> u64
    requires { N ≤ 64 }
    ensures { result ≡ mask_l (map (λ byte. bit_and byte 0x80 == 0x80) bytes.entry) }
{
    (bytes & Simd::splat(0x80))
        .simd_eq(Simd::splat(0x80))
        .to_bitmask()
}
