//! Conversion of UTF-16 to UTF-32, up to the first ill-formed sequence.
//!
//! Code units without a surrogate are widened in blocks. After a pair come blocks of pairs, of
//! which those before another code unit count.

ghost use Rattle.std.specs.Prelude.{◌≡◌, ◌≢◌, ◌-◌, ◌*◌, ◌/◌, ◌<◌, ◌≤◌, IfErr, IfOk, length};
ghost use Rattle.utf16_units.specs.Encoding.{char_bytes};
ghost use Rattle.utf16_units.specs.IllFormed.{IsIllFormedAt};
ghost use Rattle.utf16_transcode.specs.Stops.{StopsHere, Stops, IsIllFormedUtf16};
ghost use Rattle.utf16_transcode.specs.Transcoded.{WritesAt, Writes};
ghost use Rattle.utf16_transcode.specs.declared.progress.Stop.TheVariants.{NoSpace};
ghost use Rattle.utf16_fixed.specs.Utf32.{TranscodesToUtf32, utf32_units};

use crate::pairs::write_pairs;
use crate::plain::write_plain;
use utf16_transcode::{Progress, Stop};
use utf16_units::ends::first_char;
use utf16_units::{Moved, Utf16Order, first_char_len};

/// Writes UTF-16 in UTF-32, as code points in the machine's byte order, to the start of a buffer,
/// up to the first ill-formed sequence or as far as it fits. Any bytes are allowed. `read` and the
/// length of an ill-formed sequence count bytes, `written` counts code units of UTF-32. Code units
/// of the buffer after the written ones may have been overwritten.
///
/// All fits if the buffer has a code unit for every two bytes.
///
/// # Complexity
///
/// Linear time in the number of bytes read.
pub fn to_utf32<E: Utf16Order>(raw: &[u8], to: &mut [u32]) -> Progress
    ensures wrote { Writes (TranscodesToUtf32 E.BIG) raw.now to.new result.read result.written }
    ensures stop { Stops (char_bytes E.BIG) utf32_units (IsIllFormedUtf16 E.BIG) raw.now result.read
        (length to.new - result.written)
        result.stop }
    ensures succeeds { length raw.now / 2 ≤ length to.new → result.stop ≢ NoSpace }
{
    let mut done = Moved {
        read: 0,
        written: 0,
    };
    while done.read < raw.len() {
        done = write_run::<E>(raw, to, done);
        if done.read == raw.len() {
            break;
        }
        match write_next_char::<E>(&raw[done.read..], to, done.written) {
            Ok(next) => {
                done = Moved {
                    read: done.read + next.read,
                    written: next.written,
                };
            }
            Err(stop) => {
                return Progress {
                    read: done.read,
                    written: done.written,
                    stop,
                };
            }
        }
    }
    Progress {
        read: done.read,
        written: done.written,
        stop: Stop::Done,
    }
}

// Writes blocks of surrogate pairs if a surrogate is next, or else the code units before the next
// surrogate, as far as they fit. A pair among other code units is written by itself, and takes less
// time so.
#[inline(always)]
fn write_run<E: Utf16Order>(raw: &[u8], to: &mut [u32], from: Moved) -> Moved
    requires { Writes (TranscodesToUtf32 E.BIG) raw.now to.old from.read from.written }
    ensures wrote { Writes (TranscodesToUtf32 E.BIG) raw.now to.new result.read result.written }
    ensures after { from.read ≤ result.read }
{
    if raw.len() - from.read >= 2 && is_surrogate::<E>(&raw[from.read..]) {
        return write_pair_blocks::<E>(raw, to, from);
    }
    let len = write_plain::<E>(&raw[from.read..], &mut to[from.written..]);
    Moved {
        read: from.read + 2 * len,
        written: from.written + len,
    }
}

// Whether the first code unit is a surrogate, from 0xD800 to 0xDFFF. Only speed depends on the
// answer.
#[inline(always)]
fn is_surrogate<E: Utf16Order>(rest: &[u8]) -> bool
    requires { 2 ≤ length rest.now }
{
    E::read_unit([rest[0], rest[1]]) / 0x800 == 0x1B
}

// Writes blocks of eight surrogate pairs, up to another code unit in one.
#[inline(always)]
fn write_pair_blocks<E: Utf16Order>(raw: &[u8], to: &mut [u32], from: Moved) -> Moved
    requires { Writes (TranscodesToUtf32 E.BIG) raw.now to.old from.read from.written }
    ensures wrote { Writes (TranscodesToUtf32 E.BIG) raw.now to.new result.read result.written }
    ensures after { from.read ≤ result.read }
{
    let Moved {
        mut read,
        mut written,
    } = from;
    while raw.len() - read >= 32 && to.len() - written >= 8 {
        let len = write_pairs::<E>(&raw[read..], &mut to[written..]);
        if len < 8 {
            return Moved {
                read: read + 4 * len,
                written: written + len,
            };
        }
        read += 32;
        written += 8;
    }
    Moved { read, written }
}

// Writes the first character at `at`, or returns why it does not.
#[inline(always)]
fn write_next_char<E: Utf16Order>(rest: &[u8], to: &mut [u32], at: usize) -> Result<Moved, Stop>
    requires not_empty { 0 < length rest.now }
    requires within { at ≤ length to.old }
    ensures wrote { IfOk result (λ next.
        WritesAt (TranscodesToUtf32 E.BIG) rest.now to.old to.new at next.read next.written) }
    ensures advances { IfOk result (λ next. 0 < next.read) }
    ensures stop { IfErr result (StopsHere (char_bytes E.BIG) utf32_units (IsIllFormedAt E.BIG)
        rest.now (length to.new - at)) }
    ensures unchanged { IfErr result (λ _. to.new ≡ to.old) }
{
    let len = match first_char_len::<E>(rest) {
        Ok(len) => len,
        Err(Some(len)) => return Err(Stop::IllFormed(len)),
        Err(None) => return Err(Stop::Incomplete),
    };
    let (c, len) = first_char::<E>(&rest[..len]);
    if at == to.len() {
        return Err(Stop::NoSpace);
    }
    to[at] = c as u32;
    Ok(Moved {
        read: len,
        written: at + 1,
    })
}
