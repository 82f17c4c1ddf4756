//! Laws that what the library defines by itself is what `std` defines.

ghost use Rattle.std.specs.Prelude.{◌≡◌, ◌↔◌, ◌+◌, ◌≤◌, ◌%◌, ℕ, Bool, IfOk, List, drop, encode_utf8_all, length, string_bytes, take};
ghost use Rattle.std.specs.Char.Utf16.{utf16_lossy_chars};
ghost use Rattle.utf16_units.specs.Encoding.{units_of};
ghost use Rattle.utf16_units.specs.Split.{lossy_text};
ghost use Rattle.utf16_from_utf8.specs.Follow.{IsBlock};
ghost use Rattle.uses_buffers.specs.Block.{BeginsText};

use std::alloc::{AllocError, Allocator};

/// The text of whole code units, well formed or not, is the list of characters that `std` defines,
/// with U+FFFD for each surrogate that has no partner.
pub fn lossy_is_std()
    ensures { (big : Bool) (bytes : List ℕ) → length bytes % 2 ≡ 0
        → lossy_text big bytes ≡ utf16_lossy_chars (units_of big bytes) }
{}

/// Returns the text of code units, from a call of `std`: the lossy text of their bytes, in either
/// byte order.
///
/// # Errors
///
/// If allocation fails.
pub fn decode_by_std<A: Allocator>(alloc: A, units: &[u16]) -> Result<String<A>, AllocError>
    ensures { IfOk result (λ s. (big : Bool) (bytes : List ℕ) → length bytes % 2 ≡ 0
        → units_of big bytes ≡ units.now
        → string_bytes s ≡ encode_utf8_all (lossy_text big bytes)) }
{
    lossy_is_std();
    String::from_utf16_lossy(alloc, units)
}

/// Sixty-four bytes are what `write_blocks` calls a block exactly if they begin a text that is well
/// formed UTF-8, as `std` defines it.
pub fn block_is_text()
    ensures { (bytes : List ℕ) (at : ℕ) → IsBlock bytes at
        ↔ ((at + 64 ≤ length bytes) × BeginsText (take 64 (drop at bytes))) }
{}
