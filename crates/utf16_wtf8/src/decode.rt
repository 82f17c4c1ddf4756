//! UTF-16 to WTF-8: all code units, as far as they are certain, and the end of a stream.

ghost use Rattle.std.specs.Prelude.{◌≡◌, ◌≢◌, ◌↔◌, ◌-◌, ◌%◌, ◌<◌, ◌≤◌, [], drop, length, take};
ghost use Rattle.std.specs.List.{flat_map};
ghost use Rattle.utf16_transcode.specs.WholeText.{WritesWhole};
ghost use Rattle.utf16_transcode.specs.Stream.{IsNewStream, stream_pending};
ghost use Rattle.utf16_transcode.specs.declared.progress.Stop.TheVariants.{Done, Incomplete, NoSpace};
ghost use Rattle.utf16_transcode.specs.Stops.{StopsPartial};
ghost use Rattle.utf16_wtf8.specs.ToWtf8.{DecodesToWtf8, StopsToWtf8, points_of, tail_points, wtf8_split};
ghost use Rattle.utf16_wtf8.specs.Wtf8.{generalized_utf8};

use crate::direction::ToWtf8;
use utf16_transcode::{LossyDirection, Progress, Stop, Stream, transcode_partial};
use utf16_units::Utf16Order;

/// Writes UTF-16 in WTF-8 to the start of a buffer, as far as whole characters fit, with each
/// unpaired surrogate as itself. What more bytes could change at the end is not read: a leading
/// surrogate, or an odd byte, or both. Any bytes are allowed. Bytes of the buffer after the written
/// ones may have been overwritten.
///
/// # Complexity
///
/// Linear time in the number of bytes read.
pub fn to_wtf8_partial<E: Utf16Order>(raw: &[u8], to: &mut [u8]) -> Progress
    ensures decodes { DecodesToWtf8 E.BIG raw.now to.new result.read result.written }
    ensures stop { StopsPartial (wtf8_split E.BIG) generalized_utf8 (drop result.read raw.now)
        (length to.new - result.written) result.stop }
{
    transcode_partial::<ToWtf8<E>>(raw, to)
}

/// Writes all code units of UTF-16 in WTF-8 to the start of a buffer, as far as whole characters
/// fit, with each unpaired surrogate as itself. Any bytes are allowed. A last odd byte is not a
/// code unit: the call stops with `Incomplete` before it. Bytes of the buffer after the written
/// ones may have been overwritten.
///
/// # Complexity
///
/// Linear time in the number of bytes read.
pub fn to_wtf8<E: Utf16Order>(raw: &[u8], to: &mut [u8]) -> Progress
    ensures shown { WritesWhole (points_of E.BIG) generalized_utf8 raw.now to.new result.read
        result.written }
    ensures stop { StopsToWtf8 E.BIG (drop result.read raw.now)
        (length to.new - result.written) result.stop }
    ensures between { result.stop ≡ NoSpace
        → DecodesToWtf8 E.BIG raw.now to.new result.read result.written }
{
    let front = to_wtf8_partial::<E>(raw, to);
    let Stop::Incomplete = front.stop else {
        return front;
    };
    let tail = &raw[front.read..];
    let Some(written) = ToWtf8::<E>::write_end(tail, to, front.written) else {
        return Progress {
            read: front.read,
            written: front.written,
            stop: Stop::NoSpace,
        };
    };
    let stop = if tail.len() == 2 {
        Stop::Done
    } else {
        Stop::Incomplete
    };
    Progress {
        read: front.read + tail.len() / 2 * 2,
        written,
        stop,
    }
}

/// Ends a stream in the direction `ToWtf8`: writes a pending leading surrogate to the start of a
/// buffer. Afterwards the stream is a new one. `read` is 0. With `Incomplete`, an odd byte at the
/// end of the stream, which is not a code unit, was left out. With `NoSpace`, the surrogate does
/// not fit, and nothing changed. Bytes of the buffer after the written ones are unchanged.
pub fn finish_wtf8<E: Utf16Order>(stream: &mut Stream, to: &mut [u8]) -> Progress
    ensures read { result.read ≡ 0 }
    ensures no_space { (result.stop ≡ NoSpace) ↔ (length to.new
        < length (flat_map generalized_utf8 (tail_points E.BIG (stream_pending stream.old)))) }
    ensures incomplete { (result.stop ≡ Incomplete) ↔ ((result.stop ≢ NoSpace)
        × (length (stream_pending stream.old) % 2 ≡ 1)) }
    ensures done { (result.stop ≡ Done) ↔ ((result.stop ≢ NoSpace)
        × (length (stream_pending stream.old) % 2 ≡ 0)) }
    ensures text { result.stop ≢ NoSpace → take result.written to.new
        ≡ flat_map generalized_utf8 (tail_points E.BIG (stream_pending stream.old)) }
    ensures within { result.written ≤ length to.new }
    ensures rest { drop result.written to.new ≡ drop result.written to.old }
    ensures pending { result.stop ≢ NoSpace → stream_pending stream.new ≡ [] }
    ensures fresh { result.stop ≢ NoSpace → IsNewStream stream.new }
    ensures unchanged { result.stop ≡ NoSpace
        → (result.written ≡ 0) × (stream.new ≡ stream.old) × (to.new ≡ to.old) }
{
    let odd = stream.pending().len() % 2 == 1;
    let mut end = stream.finish::<ToWtf8<E>>(to);
    if odd && end.stop == Stop::Done {
        end.stop = Stop::Incomplete;
    }
    end
}
