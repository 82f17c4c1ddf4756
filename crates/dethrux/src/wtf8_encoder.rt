//! An encoder of WTF-8 in UTF-16 for C, whose state is in memory that the caller owns.

ghost use Rattle.std.specs.Prelude.{◌≡◌, ◌≢◌, ℕ, ◌+◌, ◌-◌, ◌*◌, ◌<◌, ◌≤◌, [], ◌∷◌, ◌++◌, drop, length, take};
ghost use Rattle.std.specs.List.{flat_map};
ghost use Rattle.utf16_units.specs.Encoding.{char_bytes};
ghost use Rattle.utf16_transcode.specs.Transcoded.{Writes};
ghost use Rattle.utf16_transcode.specs.declared.progress.Stop.TheVariants.{Done, IllFormed, NoSpace};
ghost use Rattle.utf16_wtf8.specs.FromWtf8.{LeavesLeading, StopsFromWtf8, TranscodesFromWtf8};
ghost use Rattle.utf16_wtf8.specs.Stream.{FeedsWtf8, IsWtf8Tail, StopsFeedingWtf8, encoded_len, end_stop, wtf8_pending};
ghost use Rattle.dethrux.specs.Numbers.{AreNumbers, is_big, stop_of};

use crate::byte_order::in_order;
use crate::results::{Progress, progress_of};
use utf16_wtf8::Wtf8Stream;

/// Encodes the next chunk of a stream of WTF-8 in UTF-16, as far as whole characters fit and up to
/// the first ill-formed sequence, which begins with the bytes that are still pending. `read` counts
/// bytes of the chunk. Any bytes are allowed in the state; afterwards at most six are pending. With
/// status 3 the next character does not fit, or the leading surrogate that would be pending. If the
/// state is one that these calls leave, a capacity of two bytes for each byte of the chunk and four
/// more suffices, and `error_len` is not below the number of pending bytes. In time linear in what
/// is read.
#[unsafe(no_mangle)]
pub extern "C" fn dethrux_wtf8_encoder_feed(
    encoder: &mut Wtf8Stream,
    byte_order: u32,
    chunk: &[u8],
    to: &mut [u8],
) -> Progress
    ensures feeds { FeedsWtf8 (is_big byte_order) (wtf8_pending encoder.old) chunk.now
        (wtf8_pending encoder.new) to.new result.read result.written }
    ensures stop { StopsFeedingWtf8 (is_big byte_order) (wtf8_pending encoder.old) chunk.now
        (wtf8_pending encoder.new) result.read (length to.new - result.written) (stop_of result) }
    ensures fits { stop_of result ≡ Done → LeavesLeading (wtf8_pending encoder.old ++ chunk.now)
        (encoded_len (wtf8_pending encoder.old) (wtf8_pending encoder.new) result.read)
        → 2 ≤ length to.new - result.written }
    ensures few { encoder.new.len ≤ 6 }
    ensures filled { stop_of result ≡ NoSpace → length to.new < result.written + 4 }
    ensures tail { IsWtf8Tail (wtf8_pending encoder.old) → IsWtf8Tail (wtf8_pending encoder.new) }
    ensures succeeds { IsWtf8Tail (wtf8_pending encoder.old)
        → 2 * length chunk.now + 4 ≤ length to.new → stop_of result ≢ NoSpace }
    ensures succeeds_always { 2 * (length (wtf8_pending encoder.old) + length chunk.now)
        ≤ length to.new → stop_of result ≢ NoSpace }
    ensures resumes { IsWtf8Tail (wtf8_pending encoder.old) → (len : ℕ)
        → stop_of result ≡ IllFormed len → (length (wtf8_pending encoder.new) ≤ len)
        × (len ≤ length (wtf8_pending encoder.new) + (length chunk.now - result.read)) }
    ensures numbers { AreNumbers result.status result.error_len }
{
    progress_of(in_order!(byte_order, encoder.feed(chunk, to)))
}

/// Ends a stream of WTF-8: writes the pending bytes in UTF-16, like `dethrux_from_wtf8`. `read`
/// counts the pending bytes that were written. With status 3 a character does not fit, and only the
/// bytes before it are no longer pending; otherwise a new stream begins. If the state is one that
/// these calls leave, this writes a pending leading surrogate, two bytes suffice, and the status is
/// not 1.
#[unsafe(no_mangle)]
pub extern "C" fn dethrux_wtf8_encoder_finish(
    encoder: &mut Wtf8Stream,
    byte_order: u32,
    to: &mut [u8],
) -> Progress
    ensures wrote { Writes (TranscodesFromWtf8 (is_big byte_order)) (wtf8_pending encoder.old)
        to.new result.read result.written }
    ensures stop { StopsFromWtf8 (is_big byte_order) (wtf8_pending encoder.old) result.read
        (length to.new - result.written) (stop_of result) }
    ensures ended { stop_of result ≢ NoSpace → wtf8_pending encoder.new ≡ [] }
    ensures left { stop_of result ≡ NoSpace
        → wtf8_pending encoder.new ≡ drop result.read (wtf8_pending encoder.old) }
    ensures few { encoder.new.len ≤ 6 }
    ensures fresh { stop_of result ≢ NoSpace
        → (encoder.new.bytes ≡ 0 ∷ 0 ∷ 0 ∷ 0 ∷ 0 ∷ 0 ∷ []) × (encoder.new.len ≡ 0) }
    ensures tail { IsWtf8Tail (wtf8_pending encoder.old) → IsWtf8Tail (wtf8_pending encoder.new) }
    ensures leading { (tail : IsWtf8Tail (wtf8_pending encoder.old)) → stop_of result ≢ NoSpace
        → take result.written to.new ≡ flat_map (char_bytes (is_big byte_order)) tail.leads }
    ensures truncated { (tail : IsWtf8Tail (wtf8_pending encoder.old)) → stop_of result ≢ NoSpace
        → stop_of result ≡ end_stop tail.part }
    ensures succeeds { IsWtf8Tail (wtf8_pending encoder.old) → 2 ≤ length to.new
        → stop_of result ≢ NoSpace }
    ensures succeeds_always { 2 * length (wtf8_pending encoder.old) ≤ length to.new
        → stop_of result ≢ NoSpace }
    ensures numbers { AreNumbers result.status result.error_len }
{
    progress_of(in_order!(byte_order, encoder.finish(to)))
}
