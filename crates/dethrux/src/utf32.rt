//! UTF-32 and UTF-16. A slice of UTF-32 is a pointer and a number of code units in C.

ghost use Rattle.std.specs.Prelude.{◌≡◌, ◌≢◌, ◌↔◌, ◌+◌, ◌-◌, ◌*◌, ◌/◌, ◌≤◌, drop, length};
ghost use Rattle.utf16_units.specs.Encoding.{char_bytes, size};
ghost use Rattle.utf16_units.specs.Split.{lossy_text};
ghost use Rattle.utf16_transcode.specs.WholeText.{WritesWhole};
ghost use Rattle.utf16_transcode.specs.Stops.{StopsLossy, Stops, IsIllFormedUtf16};
ghost use Rattle.utf16_transcode.specs.Transcoded.{Writes};
ghost use Rattle.utf16_transcode.specs.declared.progress.Stop.TheVariants.{Done, NoSpace};
ghost use Rattle.utf16_fixed.specs.Stops32.{DecodesToUtf32, IsIllFormedUtf32};
ghost use Rattle.utf16_fixed.specs.Utf32.{IsUtf32, IsUtf32ValidUpTo, ShowsInUtf16, TranscodesFromUtf32, TranscodesToUtf32, lossy_utf32, utf32_units};
ghost use Rattle.dethrux.specs.Numbers.{AreNumbers, is_big, stop_of};

use crate::byte_order::in_order;
use crate::results::{DONE, ILL_FORMED, Progress, Validity, progress_of};
use utf16_fixed::{
    from_utf32, from_utf32_lossy, from_utf32_lossy_len, to_utf32, to_utf32_lossy,
    to_utf32_lossy_len, validate_utf32,
};

/// Converts UTF-16 to UTF-32, code points in the machine's byte order, up to the first ill-formed
/// sequence or as far as it fits. An ill-formed sequence and an incomplete character are not read.
/// With status 3 the next character does not fit: call again with the rest. What follows the
/// written code units may have been overwritten. In time linear in what is read.
#[unsafe(no_mangle)]
pub extern "C" fn dethrux_to_utf32(byte_order: u32, utf16: &[u8], to: &mut [u32]) -> Progress
    ensures wrote { Writes (TranscodesToUtf32 (is_big byte_order)) utf16.now to.new result.read
        result.written }
    ensures stop { Stops (char_bytes (is_big byte_order)) utf32_units
        (IsIllFormedUtf16 (is_big byte_order)) utf16.now result.read
        (length to.new - result.written) (stop_of result) }
    ensures succeeds { length utf16.now / 2 ≤ length to.new → stop_of result ≢ NoSpace }
    ensures numbers { AreNumbers result.status result.error_len }
{
    progress_of(in_order!(byte_order, to_utf32(utf16, to)))
}

/// Converts UTF-16 to UTF-32 like `dethrux_to_utf32`, and replaces each unpaired surrogate, and an
/// incomplete character at the end, by U+FFFD. The status is 0, or 3 if the next character or
/// U+FFFD does not fit: call again with the rest.
#[unsafe(no_mangle)]
pub extern "C" fn dethrux_to_utf32_lossy(byte_order: u32, utf16: &[u8], to: &mut [u32]) -> Progress
    ensures shown { WritesWhole (lossy_text (is_big byte_order)) utf32_units utf16.now to.new
        result.read result.written }
    ensures stop { StopsLossy (lossy_text (is_big byte_order))
        utf32_units (drop result.read utf16.now) (length to.new - result.written) (stop_of result) }
    ensures between { stop_of result ≡ NoSpace
        → DecodesToUtf32 (is_big byte_order) utf16.now to.new result.read result.written }
    ensures succeeds { (length utf16.now + 1) / 2 ≤ length to.new → stop_of result ≡ Done }
    ensures numbers { AreNumbers result.status result.error_len }
{
    progress_of(in_order!(byte_order, to_utf32_lossy(utf16, to)))
}

/// Returns the number of code units that `dethrux_to_utf32_lossy` writes for the whole input: at
/// most one for every two bytes, and one for an odd byte at the end. Two passes.
#[unsafe(no_mangle)]
pub extern "C" fn dethrux_to_utf32_lossy_len(byte_order: u32, utf16: &[u8]) -> usize
    ensures len { result ≡ length (lossy_text (is_big byte_order) utf16.now) }
    ensures most { result ≤ (length utf16.now + 1) / 2 }
{
    in_order!(byte_order, to_utf32_lossy_len(utf16))
}

/// Returns how many code units at the start are UTF-32, and what follows them: nothing, or one that
/// is not a scalar value. One pass, up to the first such unit.
#[unsafe(no_mangle)]
pub extern "C" fn dethrux_validate_utf32(utf32: &[u32]) -> Validity
    ensures valid { (result.status ≡ 0) ↔ IsUtf32 utf32.now }
    ensures all { result.status ≡ 0 → result.valid_up_to ≡ length utf32.now }
    ensures error { result.status ≢ 0 → IsUtf32ValidUpTo utf32.now result.valid_up_to }
    ensures status { result.status ≢ 0 → (result.status ≡ 1) × (result.error_len ≡ 1) }
    ensures numbers { AreNumbers result.status result.error_len }
{
    match validate_utf32(utf32) {
        Ok(()) => Validity {
            valid_up_to: utf32.len(),
            status: DONE,
            error_len: 0,
        },
        Err(at) => Validity {
            valid_up_to: at,
            status: ILL_FORMED,
            error_len: 1,
        },
    }
}

/// Converts UTF-32 to UTF-16, up to the first code unit that is not a scalar value or as far as
/// whole characters fit. With status 3 the next character does not fit: call again with the rest.
/// The bytes after the written ones may have been overwritten. In time linear in what is read.
#[unsafe(no_mangle)]
pub extern "C" fn dethrux_from_utf32(byte_order: u32, utf32: &[u32], to: &mut [u8]) -> Progress
    ensures wrote { Writes (TranscodesFromUtf32 (is_big byte_order)) utf32.now to.new result.read
        result.written }
    ensures stop { Stops utf32_units (char_bytes (is_big byte_order)) IsIllFormedUtf32 utf32.now
        result.read
        (length to.new - result.written) (stop_of result) }
    ensures succeeds { 4 * length utf32.now ≤ length to.new → stop_of result ≢ NoSpace }
    ensures numbers { AreNumbers result.status result.error_len }
{
    progress_of(in_order!(byte_order, from_utf32(utf32, to)))
}

/// Converts UTF-32 to UTF-16 like `dethrux_from_utf32`, and replaces each code unit that is not a
/// scalar value by U+FFFD. The status is 0, or 3 if the next character does not fit: call again
/// with the rest.
#[unsafe(no_mangle)]
pub extern "C" fn dethrux_from_utf32_lossy(
    byte_order: u32,
    utf32: &[u32],
    to: &mut [u8],
) -> Progress
    ensures wrote { Writes (ShowsInUtf16 (is_big byte_order)) utf32.now to.new result.read
        result.written }
    ensures stop { StopsLossy lossy_utf32 (char_bytes (is_big byte_order))
        (drop result.read utf32.now) (length to.new - result.written) (stop_of result) }
    ensures succeeds { 4 * length utf32.now ≤ length to.new → stop_of result ≡ Done }
    ensures numbers { AreNumbers result.status result.error_len }
{
    progress_of(in_order!(byte_order, from_utf32_lossy(utf32, to)))
}

/// Returns the length in bytes of what `dethrux_from_utf32_lossy` writes for the whole input, in
/// either byte order: at most four for each code unit. Two passes.
#[unsafe(no_mangle)]
pub extern "C" fn dethrux_from_utf32_lossy_len(utf32: &[u32]) -> usize
    ensures size { result ≡ size (lossy_utf32 utf32.now) }
    ensures most { result ≤ 4 * length utf32.now }
{
    from_utf32_lossy_len(utf32)
}
