//! Shuffle indices that move the pairs whose bit is set, of eight, to the front.

ghost use Rattle.std.specs.Prelude.{◌<◌};
ghost use Rattle.utf16_from_utf8.specs.Lanes.{Packs};

use std::simd::prelude::*;
use utf16_units::index_rows;

// The indices for the pairs in `bits`, which has a bit for each pair.
#[inline(always)]
pub(crate) fn positions(bits: usize) -> u8x16
    requires { bits < 256 }
    ensures { Packs bits result }
{
    u8x16::from_array(KEPT[bits])
}

static KEPT: [[u8; 16]; 256] = index_rows!(
    {() (0 1)}
    {() (2 3)}
    {() (4 5)}
    {() (6 7)}
    {() (8 9)}
    {() (10 11)}
    {() (12 13)}
    {() (14 15)}
);
