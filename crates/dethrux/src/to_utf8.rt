//! From UTF-16 to UTF-8, and before it the length and how often it replaces.

ghost use Rattle.std.specs.Prelude.{◌≡◌, ◌≢◌, ◌↔◌, [], ◌<◌, ◌≤◌, ◌+◌, ◌-◌, ◌*◌, ◌/◌, drop, encode_utf8_all, length};
ghost use Rattle.std.specs.Char.{encode_utf8};
ghost use Rattle.utf16_units.specs.Encoding.{IsUtf16, char_bytes};
ghost use Rattle.utf16_units.specs.Split.{decided_text, lossy_text};
ghost use Rattle.utf16_transcode.specs.Replaced.{ill_formed_count};
ghost use Rattle.utf16_transcode.specs.WholeText.{WritesWhole};
ghost use Rattle.utf16_transcode.specs.Stops.{StopsLossy, Stops, StopsPartial, IsIllFormedUtf16};
ghost use Rattle.utf16_transcode.specs.Transcoded.{DecodesTo, TranscodesToUtf8, Writes};
ghost use Rattle.dethrux.specs.Numbers.{AreNumbers, is_big, stop_of};
ghost use Rattle.utf16_transcode.specs.declared.progress.Stop.TheVariants.{Done, NoSpace};
ghost use Rattle.utf16_transcode.specs.Decodes.{utf16_split};

use crate::byte_order::in_order;
use crate::results::{Progress, progress_of};
use utf16_transcode::{
    to_utf8, to_utf8_lossy, to_utf8_lossy_len, to_utf8_partial, to_utf8_replacements,
};

/// Returns the length in bytes of what `dethrux_to_utf8_lossy` writes for the whole input: at most
/// three for each code unit, and three for an odd byte at the end. Two passes.
#[unsafe(no_mangle)]
pub extern "C" fn dethrux_to_utf8_lossy_len(byte_order: u32, utf16: &[u8]) -> usize
    ensures len { result ≡ length (encode_utf8_all (lossy_text (is_big byte_order) utf16.now)) }
    ensures most { result ≤ (length utf16.now + 1) / 2 * 3 }
{
    in_order!(byte_order, to_utf8_lossy_len(utf16))
}

/// Returns how many U+FFFD `dethrux_to_utf8_lossy` writes for ill-formed sequences of the whole
/// input: 0 exactly if the input is well formed. A U+FFFD of the input does not count. In linear
/// time.
#[unsafe(no_mangle)]
pub extern "C" fn dethrux_to_utf8_replacements(byte_order: u32, utf16: &[u8]) -> usize
    ensures count { result ≡ ill_formed_count (is_big byte_order) utf16.now }
    ensures well_formed { (result ≡ 0) ↔ IsUtf16 (is_big byte_order) utf16.now }
{
    in_order!(byte_order, to_utf8_replacements(utf16))
}

/// Converts UTF-16 to UTF-8, up to the first ill-formed sequence or as far as whole characters fit.
/// An ill-formed sequence and an incomplete character are not read. With status 3 the next
/// character does not fit: call again with the rest. The bytes after the written ones may have been
/// overwritten. In time linear in what is read.
#[unsafe(no_mangle)]
pub extern "C" fn dethrux_to_utf8(byte_order: u32, utf16: &[u8], to: &mut [u8]) -> Progress
    ensures wrote { Writes (TranscodesToUtf8 (is_big byte_order)) utf16.now to.new result.read
        result.written }
    ensures stop { Stops (char_bytes (is_big byte_order)) encode_utf8
        (IsIllFormedUtf16 (is_big byte_order)) utf16.now result.read
        (length to.new - result.written) (stop_of result) }
    ensures succeeds { length utf16.now / 2 * 3 ≤ length to.new → stop_of result ≢ NoSpace }
    ensures numbers { AreNumbers result.status result.error_len }
{
    in_order!(byte_order, to_utf8(utf16, to) => progress_of)
}

/// Converts UTF-16 to UTF-8 like `dethrux_to_utf8`, and replaces each unpaired surrogate, and an
/// incomplete character at the end, by U+FFFD. The status is 0, or 3 if the next character or
/// U+FFFD does not fit: call again with the rest. It is 0 with a capacity of three bytes for each
/// code unit, and three for an odd byte at the end.
#[unsafe(no_mangle)]
pub extern "C" fn dethrux_to_utf8_lossy(byte_order: u32, utf16: &[u8], to: &mut [u8]) -> Progress
    ensures shown { WritesWhole (lossy_text (is_big byte_order)) encode_utf8 utf16.now to.new
        result.read result.written }
    ensures stop { StopsLossy (lossy_text (is_big byte_order))
        encode_utf8 (drop result.read utf16.now) (length to.new - result.written) (stop_of result) }
    ensures between { stop_of result ≡ NoSpace
        → DecodesTo (is_big byte_order) utf16.now to.new result.read result.written }
    ensures succeeds { (length utf16.now + 1) / 2 * 3 ≤ length to.new → stop_of result ≡ Done }
    ensures numbers { AreNumbers result.status result.error_len }
{
    progress_of(in_order!(byte_order, to_utf8_lossy(utf16, to)))
}

/// Converts the next chunk of a stream like `dethrux_to_utf8_lossy`, but does not read an
/// incomplete character at the end, which more bytes may complete: in that case the status is 2.
#[unsafe(no_mangle)]
pub extern "C" fn dethrux_to_utf8_partial(byte_order: u32, utf16: &[u8], to: &mut [u8]) -> Progress
    ensures decodes { DecodesTo (is_big byte_order) utf16.now to.new result.read result.written }
    ensures stop { StopsPartial (utf16_split (is_big byte_order)) encode_utf8
        (drop result.read utf16.now)
        (length to.new - result.written) (stop_of result) }
    ensures succeeds { length utf16.now / 2 * 3 ≤ length to.new → stop_of result ≢ NoSpace }
    ensures filled { stop_of result ≡ NoSpace → length to.new < result.written + 4 }
    ensures advances { 4 ≤ length to.new → decided_text (is_big byte_order) utf16.now ≢ []
        → 0 < result.read }
    ensures numbers { AreNumbers result.status result.error_len }
{
    progress_of(in_order!(byte_order, to_utf8_partial(utf16, to)))
}
