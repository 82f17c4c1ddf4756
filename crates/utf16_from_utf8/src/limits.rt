//! Bounds on the bytes of a block.

ghost use Rattle.std.specs.Prelude.{◌+◌, ◌<◌, ◌≤◌, ◌↔◌, IsTrue, ℕ, length, slice_index};
ghost use Rattle.utf16_from_utf8.specs.Follow.{AreBelow};

use crate::lanes::{each, greater, set_bits, where_below};
use std::simd::prelude::*;

// The greatest bytes of the next sixty-four, for each place in a group of sixteen.
#[inline(always)]
pub(crate) fn greatest(bytes: &[u8], at: usize) -> u8x16
    requires { at + 64 ≤ length bytes.now }
    ensures { (limit : ℕ) → ((i : ℕ) → i < 16 → slice_index result i < limit)
        ↔ AreBelow 64 bytes.now at limit }
{
    greater(
        greater(
            u8x16::from_slice(&bytes[at..]),
            u8x16::from_slice(&bytes[at + 16..]),
        ),
        greater(
            u8x16::from_slice(&bytes[at + 32..]),
            u8x16::from_slice(&bytes[at + 48..]),
        ),
    )
}

// Whether all bytes are below a limit.
#[inline(always)]
pub(crate) fn are_below(block: u8x16, limit: u8) -> bool
    ensures { IsTrue result ↔ ((i : ℕ) → i < 16 → slice_index block i < limit) }
{
    set_bits(where_below(block, limit, each(0), each(0xFF))) == 0
}
