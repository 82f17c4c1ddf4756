//! Lossy conversion of UTF-16 to UTF-8, with U+FFFD for each ill-formed sequence.
//!
//! Ill-formed sequences are often near each other. So 1,024 bytes are copied, made well formed
//! (`well_formed.rt`) and converted with SIMD. 128 bytes of ASCII or more are written without a
//! copy (`ascii.rt`): with one, ASCII with a sequence in each 100 bytes takes 2.5 times as long.
//! Into fewer than 512 bytes U+FFFD is written directly.

ghost use Rattle.std.specs.Prelude.{◌≡◌, ◌≢◌, ◌-◌, ◌<◌, ◌≤◌, [], length, drop};
ghost use Rattle.utf16_units.specs.Split.{lossy_text, split_items};
ghost use Rattle.std.specs.Char.{encode_utf8};
ghost use Rattle.utf16_transcode.specs.Decodes.{utf16_split};
ghost use Rattle.utf16_transcode.specs.WholeText.{WritesWhole};
ghost use Rattle.utf16_transcode.specs.Stops.{StopsLossy, StopsPartial};
ghost use Rattle.utf16_transcode.specs.Transcoded.{DecodesTo};
ghost use Rattle.utf16_transcode.specs.declared.progress.Stop.TheVariants.{NoSpace};

use crate::ascii::write_lossy_ascii_blocks;
use crate::decode::ToUtf8;
use crate::lossy_direction::LossyDirection;
use crate::lossy_transcoding::{transcode_lossy, transcode_partial};
use crate::progress::Progress;
use crate::replacement::REPLACEMENT;
use crate::stream::FEED_SLACK;
use crate::well_formed::write_well_formed;
use utf16_to_utf8::{SLACK, put, write_utf8};
use utf16_units::{Moved, Utf16Order};

// The shortest run of ASCII with ill-formed sequences, in bytes, that is written without a copy.
const ASCII_LEN: usize = 128;

/// Writes the text of the bytes in UTF-8 to the start of a buffer, as far as whole characters fit,
/// with U+FFFD for each unpaired surrogate. An incomplete character at the end is not read. Any
/// bytes are allowed. Bytes of the buffer after the written ones may have been overwritten.
///
/// # Complexity
///
/// Linear time in the number of bytes read.
pub fn to_utf8_partial<E: Utf16Order>(raw: &[u8], to: &mut [u8]) -> Progress
    ensures decodes { DecodesTo E.BIG raw.now to.new result.read result.written }
    ensures stop { StopsPartial (utf16_split E.BIG) encode_utf8 (drop result.read raw.now)
        (length to.new - result.written)
        result.stop }
{
    transcode_partial::<ToUtf8<E>>(raw, to)
}

/// Writes the whole text of UTF-16 in UTF-8 to the start of a buffer, as far as whole characters
/// fit, with U+FFFD for each unpaired surrogate and one for an incomplete character at the end. Any
/// bytes are allowed. Bytes of the buffer after the written ones may have been overwritten.
///
/// # Complexity
///
/// Linear time in the number of bytes read.
pub fn to_utf8_lossy<E: Utf16Order>(raw: &[u8], to: &mut [u8]) -> Progress
    ensures shown { WritesWhole (lossy_text E.BIG) encode_utf8 raw.now to.new result.read
        result.written }
    ensures stop { StopsLossy (lossy_text E.BIG) encode_utf8 (drop result.read raw.now)
        (length to.new - result.written) result.stop }
    ensures between { result.stop ≡ NoSpace
        → DecodesTo E.BIG raw.now to.new result.read result.written }
{
    transcode_lossy::<ToUtf8<E>>(raw, to)
}

impl<E: Utf16Order> LossyDirection for ToUtf8<E> {
    type Text = Self;

    ghost split = { utf16_split E.BIG };

    ghost into = { encode_utf8 };

    #[inline(always)]
    fn lossy_laws() {}

    #[inline(always)]
    fn write_ill_formed(input: &[u8], len: u8, to: &mut [u8]) -> Option<Moved> {
        if to.len() >= FEED_SLACK {
            return Some(write_with_replacements::<E>(input, to));
        }
        if to.len() < REPLACEMENT.len() {
            return None;
        }
        Some(Moved {
            read: len as usize,
            written: put(&REPLACEMENT, to, 0),
        })
    }

    #[inline(always)]
    fn write_end(tail: &[u8], to: &mut [u8], at: usize) -> Option<usize> {
        if tail.is_empty() {
            return Some(at);
        }
        if to.len() - at < REPLACEMENT.len() {
            return None;
        }
        Some(put(&REPLACEMENT, to, at))
    }
}

// Writes the text of the next bytes to the start of a buffer, with U+FFFD for each unpaired
// surrogate. Many bytes are written at once, since an ill-formed sequence is often followed by
// others.
fn write_with_replacements<E: Utf16Order>(raw: &[u8], to: &mut [u8]) -> Moved
    requires space { FEED_SLACK ≤ length to.old }
    ensures decodes { DecodesTo E.BIG raw.now to.new result.read result.written }
    ensures advances { split_items E.BIG raw.now ≢ [] → 2 ≤ result.read }
{
    if raw.len() >= ASCII_LEN {
        let ascii = write_lossy_ascii_blocks::<E>(raw, to);
        if ascii.read >= ASCII_LEN {
            return ascii;
        }
    }
    write_copied::<E>(raw, to)
}

// Writes the text of the next bytes to the start of a buffer: at most 1,024 bytes, and no more than
// surely fit. They are first copied to the stack, with U+FFFD for each unpaired surrogate.
#[inline(never)]
fn write_copied<E: Utf16Order>(raw: &[u8], to: &mut [u8]) -> Moved
    requires space { FEED_SLACK ≤ length to.old }
    ensures decodes { DecodesTo E.BIG raw.now to.new result.read result.written }
    ensures advances { split_items E.BIG raw.now ≢ [] → 2 ≤ result.read }
{
    let mut copy = [0; 1024];
    let most = ((to.len() - SLACK) / 3 * 2).min(copy.len()).min(raw.len());
    let len = write_well_formed::<E>(&raw[..most], &mut copy);
    Moved {
        read: len,
        written: write_utf8::<E>(&copy[..len], to),
    }
}
