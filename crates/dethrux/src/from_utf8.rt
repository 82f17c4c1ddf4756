//! From UTF-8 to UTF-16, and before it the length and how often it replaces.

ghost use Rattle.std.specs.Prelude.{◌≡◌, ◌≢◌, ◌↔◌, [], ◌<◌, ◌≤◌, ◌+◌, ◌-◌, ◌*◌, drop, length, take};
ghost use Rattle.std.specs.List.{flat_map};
ghost use Rattle.std.specs.Str.{IsUtf8, chars};
ghost use Rattle.std.specs.Str.Lossy.{utf8_valid_len};
ghost use Rattle.std.specs.Char.{encode_utf8};
ghost use Rattle.utf16_units.specs.Encoding.{char_bytes, size};
ghost use Rattle.utf16_transcode.specs.FromUtf8.{TranscodesToUtf16, text_of_utf8, IsIllFormedUtf8};
ghost use Rattle.utf16_transcode.specs.Replaced.{ill_formed_utf8_count};
ghost use Rattle.utf16_transcode.specs.WholeText.{WritesWhole};
ghost use Rattle.utf16_transcode.specs.Stops.{StopsLossy, Stops, StopsPartial};
ghost use Rattle.utf16_transcode.specs.Transcoded.{Writes};
ghost use Rattle.utf16_transcode.specs.Utf8Stream.{DecodesUtf8To, utf8_split};
ghost use Rattle.utf8_bytes.specs.Split.{decided_text};
ghost use Rattle.dethrux.specs.Numbers.{AreNumbers, is_big, stop_of};
ghost use Rattle.utf16_transcode.specs.declared.progress.Stop.TheVariants.{Done, NoSpace};

use crate::byte_order::in_order;
use crate::results::{Progress, progress_of};
use utf16_transcode::{
    from_utf8, from_utf8_len, from_utf8_lossy, from_utf8_lossy_len, from_utf8_partial,
    from_utf8_replacements,
};

/// Converts UTF-8 to UTF-16, up to the first ill-formed sequence or as far as whole characters fit.
/// An ill-formed sequence and an incomplete character are not read. With status 3 the next
/// character does not fit: call again with the rest. The bytes after the written ones may have been
/// overwritten. In time linear in what is read.
#[unsafe(no_mangle)]
pub extern "C" fn dethrux_from_utf8(byte_order: u32, utf8: &[u8], to: &mut [u8]) -> Progress
    ensures wrote { Writes (TranscodesToUtf16 (is_big byte_order)) utf8.now to.new result.read
        result.written }
    ensures stop { Stops encode_utf8 (char_bytes (is_big byte_order)) IsIllFormedUtf8 utf8.now
        result.read
        (length to.new - result.written) (stop_of result) }
    ensures succeeds { 2 * length utf8.now ≤ length to.new → stop_of result ≢ NoSpace }
    ensures numbers { AreNumbers result.status result.error_len }
{
    in_order!(byte_order, from_utf8(utf8, to) => progress_of)
}

/// Converts any bytes as UTF-8 to UTF-16, as far as whole characters fit, and replaces each maximal
/// subpart of an ill-formed subsequence, and an incomplete character at the end, by U+FFFD. The
/// status is 0, or 3 if the next character or U+FFFD does not fit: call again with the rest. The
/// bytes after the written ones may have been overwritten. In time linear in what is read.
#[unsafe(no_mangle)]
pub extern "C" fn dethrux_from_utf8_lossy(byte_order: u32, utf8: &[u8], to: &mut [u8]) -> Progress
    ensures shown { WritesWhole text_of_utf8 (char_bytes (is_big byte_order)) utf8.now to.new
        result.read result.written }
    ensures stop { StopsLossy text_of_utf8 (char_bytes (is_big byte_order))
        (drop result.read utf8.now) (length to.new - result.written) (stop_of result) }
    ensures between { take result.written to.new ≡ flat_map (char_bytes (is_big byte_order))
        (text_of_utf8 (take result.read utf8.now)) }
    ensures succeeds { 2 * length utf8.now ≤ length to.new → stop_of result ≡ Done }
    ensures numbers { AreNumbers result.status result.error_len }
{
    progress_of(in_order!(byte_order, from_utf8_lossy(utf8, to)))
}

/// Converts the next chunk of a stream of UTF-8 like `dethrux_from_utf8_lossy`, but does not read
/// an incomplete character at the end, which more bytes may complete: in that case the status is 2.
#[unsafe(no_mangle)]
pub extern "C" fn dethrux_from_utf8_partial(byte_order: u32, utf8: &[u8], to: &mut [u8]) -> Progress
    ensures decodes { DecodesUtf8To (is_big byte_order) utf8.now to.new result.read
        result.written }
    ensures stop { StopsPartial utf8_split (char_bytes (is_big byte_order))
        (drop result.read utf8.now)
        (length to.new - result.written) (stop_of result) }
    ensures succeeds { 2 * length utf8.now ≤ length to.new → stop_of result ≢ NoSpace }
    ensures filled { stop_of result ≡ NoSpace → length to.new < result.written + 4 }
    ensures advances { 4 ≤ length to.new → decided_text utf8.now ≢ [] → 0 < result.read }
    ensures numbers { AreNumbers result.status result.error_len }
{
    progress_of(in_order!(byte_order, from_utf8_partial(utf8, to)))
}

/// Returns the length in bytes of the UTF-16 of the longest well-formed prefix of UTF-8, in either
/// byte order: at most two for each byte. Two passes.
#[unsafe(no_mangle)]
pub extern "C" fn dethrux_from_utf8_len(utf8: &[u8]) -> usize
    ensures len { result ≡ size (chars (take (utf8_valid_len utf8.now) utf8.now)) }
    ensures most { result ≤ 2 * length utf8.now }
{
    from_utf8_len(utf8)
}

/// Returns the length in bytes of what `dethrux_from_utf8_lossy` writes for the whole input, in
/// either byte order: at most two for each byte. Two passes.
#[unsafe(no_mangle)]
pub extern "C" fn dethrux_from_utf8_lossy_len(utf8: &[u8]) -> usize
    ensures size { result ≡ size (text_of_utf8 utf8.now) }
    ensures most { result ≤ 2 * length utf8.now }
{
    from_utf8_lossy_len(utf8)
}

/// Returns how many U+FFFD `dethrux_from_utf8_lossy` writes for ill-formed sequences of the whole
/// input: 0 exactly if the input is UTF-8. A U+FFFD of the input does not count. One pass.
#[unsafe(no_mangle)]
pub extern "C" fn dethrux_from_utf8_replacements(utf8: &[u8]) -> usize
    ensures count { result ≡ ill_formed_utf8_count utf8.now }
    ensures well_formed { (result ≡ 0) ↔ IsUtf8 utf8.now }
{
    from_utf8_replacements(utf8)
}
