//! Stores of sixteen bytes.

ghost use Rattle.std.specs.Prelude.{◌≡◌, ◌+◌, ◌≤◌, ◌++◌, length, take, drop};
ghost use Rattle.std.specs.List.{flat_map};
ghost use Rattle.utf16_units.specs.Unit.{unit_bytes};

use std::simd::prelude::*;
use utf16_units::Utf16Order;
use utf16_units::blocks::bytes16;

// Writes sixteen units at `at`.
#[inline(always)]
pub(crate) fn put_sixteen<E: Utf16Order>(to: &mut [u8], at: usize, units: u16x16)
    requires { at + 32 ≤ length to.old }
    ensures bytes { take (at + 32) to.new ≡ take at to.old ++ flat_map (unit_bytes E.BIG) units }
    ensures rest { drop (at + 32) to.new ≡ drop (at + 32) to.old }
{
    let bytes = bytes16::<E>(units);
    // Two stores: on x86-64-v3 they become one. On x86-64-v2 one store becomes two, the later half
    // first, and then a block takes 1.6 times as long.
    put_half(to, at, bytes.extract::<0, 16>());
    put_half(to, at + 16, bytes.extract::<16, 16>());
}

// Writes sixteen bytes at `at`.
#[inline(always)]
pub(crate) fn put_half(to: &mut [u8], at: usize, bytes: u8x16)
    requires { at + 16 ≤ length to.old }
    ensures bytes { take (at + 16) to.new ≡ take at to.old ++ bytes }
    ensures rest { drop (at + 16) to.new ≡ drop (at + 16) to.old }
{
    bytes.copy_to_slice(&mut to[at..]);
}
