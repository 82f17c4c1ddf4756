//! Conversion of UTF-32 to UTF-16, up to the first code unit that is not a scalar value.
//!
//! Characters of one unit each are narrowed in blocks. From a character of two units on come blocks
//! of both.

ghost use Rattle.std.specs.Prelude.{◌≡◌, ◌≢◌, ◌-◌, ◌*◌, ◌<◌, ◌≤◌, IfErr, IfOk, length};
ghost use Rattle.utf16_units.specs.Encoding.{char_bytes};
ghost use Rattle.utf16_transcode.specs.Stops.{StopsHere, Stops};
ghost use Rattle.utf16_transcode.specs.Transcoded.{WritesAt, Writes};
ghost use Rattle.utf16_transcode.specs.declared.progress.Stop.TheVariants.{NoSpace};
ghost use Rattle.utf16_fixed.specs.Stops32.{IsIllFormedUtf32At, IsIllFormedUtf32};
ghost use Rattle.utf16_fixed.specs.Utf32.{TranscodesFromUtf32, utf32_units};

use crate::basic::write_basic;
use crate::chars::write_char_blocks;
use utf16_transcode::{Progress, Stop};
use utf16_units::{Moved, Utf16CharExt, Utf16Order};

/// Writes UTF-32, code points in the machine's byte order, in UTF-16 to the start of a buffer, up
/// to the first code unit that is not a scalar value or as far as whole characters fit. That unit
/// is a surrogate or above 0x10FFFF. Any code units are allowed. `read` counts code units of
/// UTF-32, `written` counts bytes, and an ill-formed sequence is one code unit. Bytes of the buffer
/// after the written ones may have been overwritten.
///
/// All fits if the buffer has four bytes for every code unit.
///
/// # Complexity
///
/// Linear time in the number of code units read.
pub fn from_utf32<E: Utf16Order>(utf32: &[u32], to: &mut [u8]) -> Progress
    ensures wrote { Writes (TranscodesFromUtf32 E.BIG) utf32.now to.new result.read result.written }
    ensures stop { Stops utf32_units (char_bytes E.BIG) IsIllFormedUtf32 utf32.now result.read
        (length to.new - result.written)
        result.stop }
    ensures succeeds { 4 * length utf32.now ≤ length to.new → result.stop ≢ NoSpace }
{
    let mut done = Moved {
        read: 0,
        written: 0,
    };
    while done.read < utf32.len() {
        done = write_run::<E>(utf32, to, done);
        if done.read == utf32.len() {
            break;
        }
        match write_next_char::<E>(&utf32[done.read..], to, done.written) {
            Ok(end) => {
                done = Moved {
                    read: done.read + 1,
                    written: end,
                };
            }
            Err(stop) => {
                return Progress {
                    read: done.read,
                    written: done.written,
                    stop,
                };
            }
        }
    }
    Progress {
        read: done.read,
        written: done.written,
        stop: Stop::Done,
    }
}

// Writes the next characters of one UTF-16 code unit each, as far as they fit, and then blocks of
// any, if one of two code units follows.
#[inline(always)]
fn write_run<E: Utf16Order>(utf32: &[u32], to: &mut [u8], from: Moved) -> Moved
    requires { Writes (TranscodesFromUtf32 E.BIG) utf32.now to.old from.read from.written }
    ensures wrote { Writes (TranscodesFromUtf32 E.BIG) utf32.now to.new result.read result.written }
    ensures after { from.read ≤ result.read }
{
    let len = write_basic::<E>(&utf32[from.read..], &mut to[from.written..]);
    let basic = Moved {
        read: from.read + len,
        written: from.written + 2 * len,
    };
    if basic.read < utf32.len() && utf32[basic.read] > 0xFFFF {
        return write_char_blocks::<E>(utf32, to, basic);
    }
    basic
}

// Writes the first character at `at`, and returns where it ends, or why it is not written.
#[inline(always)]
fn write_next_char<E: Utf16Order>(rest: &[u32], to: &mut [u8], at: usize) -> Result<usize, Stop>
    requires not_empty { 0 < length rest.now }
    requires within { at ≤ length to.old }
    ensures wrote { IfOk result (λ end.
        WritesAt (TranscodesFromUtf32 E.BIG) rest.now to.old to.new at 1 end) }
    ensures stop { IfErr result (StopsHere utf32_units (char_bytes E.BIG) IsIllFormedUtf32At
        rest.now (length to.new - at)) }
    ensures unchanged { IfErr result (λ _. to.new ≡ to.old) }
{
    let Some(c) = char::from_u32(rest[0]) else {
        return Err(Stop::IllFormed(1));
    };
    if to.len() - at < c.encoded_utf16_len() {
        return Err(Stop::NoSpace);
    }
    let len = c.encode_utf16_into::<E>(&mut to[at..]);
    Ok(at + len)
}
