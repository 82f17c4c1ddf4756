//! Characters of one UTF-16 code unit each, narrowed from UTF-32.
//!
//! The last block ends where the last code unit does, so some units before it are written again.

ghost use Rattle.std.specs.Prelude.{◌≡◌, ◌*◌, ◌≤◌, ⊤, length, take};
ghost use Rattle.std.specs.List.{flat_map};
ghost use Rattle.utf16_units.specs.Unit.{unit_bytes};
ghost use Rattle.utf16_fixed.specs.Progress.{IsNarrowed};
ghost use Rattle.utf16_fixed.specs.Utf32.{TranscodesFromUtf32};

use crate::blocks::{Block, Fixed, write_in_blocks};
use crate::lanes::{are_basic, basic_len, low_units};
use crate::stores::{put_half, put_sixteen};
use std::marker::PhantomData;
use std::simd::prelude::*;
use utf16_transcode::put;
use utf16_units::Utf16Order;
use utf16_units::blocks::units8;

// Characters of one UTF-16 code unit each, from UTF-32.
struct Basic<E: Utf16Order>(PhantomData<E>);

impl<E: Utf16Order> Fixed for Basic<E> {
    type From = u32;

    type To = u8;

    ghost read = { 1 };

    ghost written = { 2 };

    ghost IsWritten = { λ utf32 before to n. IsNarrowed E.BIG utf32 to n };
}

// Writes the characters of one UTF-16 code unit each at the start of UTF-32 to the start of a
// buffer, as far as they fit, and returns how many.
#[inline(always)]
pub(crate) fn write_basic<E: Utf16Order>(utf32: &[u32], to: &mut [u8]) -> usize
    ensures within { result ≤ length utf32.now }
    ensures fits { 2 * result ≤ length to.new }
    ensures text { TranscodesFromUtf32 E.BIG (take result utf32.now) (take (2 * result) to.new) }
{
    let most = utf32.len().min(to.len() / 2);
    write_in_blocks::<Basic<E>>(utf32, to, most)
}

// Thirty-two characters, or none.
impl<E: Utf16Order> Block<32> for Basic<E> {
    ghost Stops = { λ utf32 n. ⊤ };

    #[inline(always)]
    fn write(utf32: &[u32], to: &mut [u8], at: usize) -> usize {
        let first = low_units(u32x16::from_slice(&utf32[at..]));
        let second = low_units(u32x16::from_slice(&utf32[at + 16..]));
        if !are_basic(first, second) {
            return 0;
        }
        put_sixteen::<E>(to, 2 * at, first);
        put_sixteen::<E>(to, 2 * (at + 16), second);
        32
    }
}

// The characters of eight that are before another one.
impl<E: Utf16Order> Block<8> for Basic<E> {
    ghost Stops = { λ utf32 n. ⊤ };

    #[inline(always)]
    fn write(utf32: &[u32], to: &mut [u8], at: usize) -> usize {
        let units = u32x8::from_slice(&utf32[at..]);
        let low = low_units(units);
        put_half(to, 2 * at, bytes8::<E>(low));
        basic_len(units, low)
    }
}

impl<E: Utf16Order> Block<1> for Basic<E> {
    ghost Stops = { λ utf32 n. ⊤ };

    #[inline(always)]
    fn write(utf32: &[u32], to: &mut [u8], at: usize) -> usize {
        let unit = utf32[at];
        if unit > 0xFFFF || unit / 0x800 == 0x1B {
            return 0;
        }
        put(&E::write_unit(unit as u16), to, 2 * at);
        1
    }
}

// The sixteen bytes of eight units. Read in an order, the bytes of little endian give units whose
// bytes in little endian are the bytes of the order.
#[inline(always)]
fn bytes8<E: Utf16Order>(units: u16x8) -> u8x16
    ensures len { length result ≡ 16 }
    ensures bytes { result ≡ flat_map (unit_bytes E.BIG) units }
{
    units8::<E>(units.to_le_bytes()).to_le_bytes()
}
