//! The first NUL.

ghost use Rattle.std.specs.Prelude.{Bool};
ghost use Rattle.utf16_bytes.specs.Nul.{IsNulOffset};

use utf16_bytes::nul_offset;

/// Returns the offset of the first NUL (U+0000), or the length if there is none. A NUL is two zero
/// bytes at an even offset, in either byte order. One pass, up to the first block that has a NUL.
#[unsafe(no_mangle)]
pub extern "C" fn dethrux_nul_offset(utf16: &[u8]) -> usize
    ensures first { (big : Bool) → IsNulOffset big utf16.now result }
{
    nul_offset(utf16)
}
