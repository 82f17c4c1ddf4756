//! WTF-8 to UTF-16: text as UTF-8, and surrogates where that stops.

ghost use Rattle.std.specs.Prelude.{◌≡◌, ◌+◌, ◌-◌, ◌≤◌, true, IfErr, IfOk, length};
ghost use Rattle.utf16_transcode.specs.Transcoded.{Writes};
ghost use Rattle.utf16_transcode.specs.declared.progress.Stop.TheVariants.{Incomplete};
ghost use Rattle.utf16_wtf8.specs.FromWtf8.{BeginsWithSurrogate, LeavesLeading, ReadsWtf8, StopsAfter, StopsFromWtf8, StopsFromWtf8Partial, TranscodesFromWtf8, surrogate_begins};

use utf8_bytes::is_continuation;
use utf16_transcode::{Progress, Stop, from_utf8, put};
use utf16_units::{Utf16Order, is_leading_surrogate, is_trailing_surrogate};

// The length in bytes of a surrogate in WTF-8.
pub(crate) const SURROGATE_LEN: usize = 3;

// The length in bytes of a code unit.
pub(crate) const UNIT_LEN: usize = 2;

/// Writes WTF-8 in UTF-16 to the start of a buffer, with each surrogate as one code unit, up to the
/// first ill-formed sequence or as far as whole characters fit. Any bytes are allowed. The three
/// bytes of a trailing surrogate directly after those of a leading one are ill-formed: the WTF-8 of
/// a pair is the four bytes of its character. Bytes of the buffer after the written ones may have
/// been overwritten.
///
/// # Complexity
///
/// Linear time in the number of bytes read.
pub fn from_wtf8<E: Utf16Order>(wtf8: &[u8], to: &mut [u8]) -> Progress
    ensures wrote { Writes (TranscodesFromWtf8 E.BIG) wtf8.now to.new result.read result.written }
    ensures stop { StopsFromWtf8 E.BIG wtf8.now result.read (length to.new - result.written)
        result.stop }
{
    let (progress, _) = transcode_wtf8::<E>(wtf8, to);
    progress
}

/// Writes a chunk of a stream of WTF-8 in UTF-16 to the start of a buffer, like `from_wtf8`. It
/// stops with `Incomplete` before a leading surrogate at the end, before the beginning of a code
/// point, or before one and then the other. These are at most six bytes: put them before the next
/// chunk, and pass those at the end of the stream to `from_wtf8`. If that leading surrogate does
/// not fit, it stops with `NoSpace` instead.
///
/// # Complexity
///
/// Linear time in the number of bytes read.
pub fn from_wtf8_partial<E: Utf16Order>(wtf8: &[u8], to: &mut [u8]) -> Progress
    ensures wrote { Writes (TranscodesFromWtf8 E.BIG) wtf8.now to.new result.read result.written }
    ensures stop { StopsFromWtf8Partial E.BIG wtf8.now result.read
        (length to.new - result.written) result.stop }
    ensures few { result.stop ≡ Incomplete → length wtf8.now ≤ result.read + 6 }
    ensures fits { result.stop ≡ Incomplete → LeavesLeading wtf8.now result.read
        → 2 ≤ length to.new - result.written }
{
    let (progress, after_leading) = transcode_wtf8::<E>(wtf8, to);
    if !after_leading {
        return progress;
    }
    match progress.stop {
        Stop::IllFormed(_) | Stop::NoSpace => progress,
        Stop::Done | Stop::Incomplete => Progress {
            read: progress.read - SURROGATE_LEN,
            written: progress.written - UNIT_LEN,
            stop: Stop::Incomplete,
        },
    }
}

// Writes WTF-8 like `from_wtf8`, and also returns whether what was read ends with a leading
// surrogate.
fn transcode_wtf8<E: Utf16Order>(wtf8: &[u8], to: &mut [u8]) -> (Progress, bool)
    ensures reads { ReadsWtf8 E.BIG wtf8.now to.new result.0.read result.0.written result.1 }
    ensures stop { StopsFromWtf8 E.BIG wtf8.now result.0.read
        (length to.new - result.0.written) result.0.stop }
{
    let mut read = 0;
    let mut written = 0;
    // Whether what was read ends with a leading surrogate.
    let mut after_leading = false;
    loop {
        let text = from_utf8::<E>(&wtf8[read..], &mut to[written..]);
        read += text.read;
        written += text.written;
        after_leading = after_leading && text.read == 0;
        let rest = &wtf8[read..];
        if !begins_surrogate(rest) {
            let progress = Progress {
                read,
                written,
                stop: text.stop,
            };
            return (progress, after_leading);
        }
        let unit = match first_surrogate(rest, after_leading) {
            Ok(unit) => unit,
            Err(stop) => {
                let progress = Progress {
                    read,
                    written,
                    stop,
                };
                return (progress, after_leading);
            }
        };
        if to.len() - written < UNIT_LEN {
            let progress = Progress {
                read,
                written,
                stop: Stop::NoSpace,
            };
            return (progress, after_leading);
        }
        written = put(&E::write_unit(unit), to, written);
        read += SURROGATE_LEN;
        after_leading = is_leading_surrogate(unit);
    }
}

// Whether the bytes begin with the first two bytes of a surrogate.
pub(crate) fn begins_surrogate(rest: &[u8]) -> bool
    ensures { result ≡ surrogate_begins rest.now }
{
    rest.len() >= 2 && rest[0] == 0xED && (0xA0..=0xBF).contains(&rest[1])
}

// Returns the surrogate at the start of the bytes, or why a call stops before it: it is truncated,
// or its third byte is missing, or it makes a pair with the leading surrogate before it.
pub(crate) fn first_surrogate(rest: &[u8], after_leading: bool) -> Result<u16, Stop>
    requires { surrogate_begins rest.now ≡ true }
    ensures surrogate { IfOk result (BeginsWithSurrogate after_leading rest.now) }
    ensures stop { IfErr result (StopsAfter after_leading rest.now) }
{
    if rest.len() < SURROGATE_LEN {
        return Err(Stop::Incomplete);
    }
    if !is_continuation(rest[2]) {
        return Err(Stop::IllFormed(2));
    }
    let unit = 0xD000 + (rest[1] - 0x80) as u16 * 0x40 + (rest[2] - 0x80) as u16;
    if after_leading && is_trailing_surrogate(unit) {
        return Err(Stop::IllFormed(3));
    }
    Ok(unit)
}
