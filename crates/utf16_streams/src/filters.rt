//! Filters from a reader to a writer.

ghost use Rattle.std.specs.Prelude.{◌≡◌, ◌+◌, ◌-◌, ◌*◌, ◌<◌, ◌≤◌, ◌^◌, [], Some, IfOk, OnErr, OnOk, length};
ghost use Rattle.std.specs.Io.KnownBytes.{Appends};
ghost use Rattle.utf16_streams.specs.Filter.{AppendsPrefix, FiltersAs, FiltersAuto, FiltersBy, fault_text, read_faults, write_faults};
ghost use Rattle.utf16_streams.specs.Watched.{Counts, CountsFaults, watched_inner};

use crate::any_lossy::AnyLossy;
use crate::lossy::Lossy;
use crate::transcoder::Transcoder;
use crate::watched::{DeviceFault, Watched};
use std::alloc::{AllocError, Allocator};
use std::error::Error;
use std::fmt;
use std::io::{Read, Write};
use utf16_transcode::{CHUNK_LEN, FEED_SLACK};
use utf16_units::Utf16Order;

// A chunk of at least this many bytes always adds to the output.
const LONG_CHUNK: usize = 8;

// The length of the buffer on the stack for the output of a shorter chunk: two bytes for each byte
// of the chunk and eight more, as `Transcoder::feed_to` requires.
const SHORT_OUTPUT: usize = 2 * LONG_CHUNK + 8;

/// Why a filter stopped before the end of its input. Below, the text of the bytes read is the
/// output that is certain for them.
#[derive(Clone, Copy, Debug, PartialEq, Eq)]
pub enum FilterFault {
    /// A read failed. The text of the bytes read is written, but no U+FFFD for an incomplete end.
    Read,
    /// A write or the flush failed. A prefix of the text of the bytes read is written.
    Write,
    /// Allocation failed. The text of the bytes read before the last chunk is written. The last
    /// chunk has at least eight bytes and would have added to it, since a shorter chunk needs no
    /// allocation.
    Memory,
    /// 2^64 - 1 reads returned bytes. Their text is written, but no U+FFFD for an incomplete end.
    Long,
}

impl fmt::Display for FilterFault {
    ghost output = { λ fault. Some (fault_text fault) };

    // Width, fill and precision are ignored.
    ghost styled_output = { λ fault _. Some (fault_text fault) };

    fn fmt<W: fmt::Write>(&self, f: &mut fmt::Formatter<W>) -> fmt::Result {
        f.write_str(match self {
            FilterFault::Read => "read failed",
            FilterFault::Write => "write failed",
            FilterFault::Memory => "out of memory",
            FilterFault::Long => "input too long",
        })
    }
}

impl Error for FilterFault {}

/// Decodes a reader in byte order `E` and writes the text to a writer in UTF-8, with U+FFFD for
/// each unpaired surrogate and one more for an incomplete end. It reads chunks of up to 4,096 bytes
/// until a read returns 0, and flushes once at the end.
///
/// # Errors
///
/// At the first I/O error, if allocation fails, or after 2^64 - 1 reads that returned bytes.
/// `FilterFault` says what has been written in each case.
///
/// # Complexity
///
/// Allocates once, for the text of one chunk, however long the input is. Allocates nothing if no
/// read returns more than seven bytes.
pub fn filter<E: Utf16Order, R: Read, W: Write, A: Allocator>(
    alloc: A,
    reader: &mut Watched<R>,
    writer: &mut Watched<W>,
) -> Result<(), FilterFault>
    ensures transfers { FiltersAs E.BIG (R.remaining (watched_inner reader.old))
        (R.remaining (watched_inner reader.new)) (W.contents (watched_inner writer.old))
        (W.contents (watched_inner writer.new)) result }
    ensures reads { Counts reader.old reader.new (read_faults result) }
    ensures writes { Counts writer.old writer.new (write_faults result) }
{
    filter_by(alloc, Lossy::<E>::new(), reader, writer)
}

/// Decodes a reader in the byte order that its BOM gives and writes the text to a writer in UTF-8,
/// as `filter` does. A stream that begins with the bytes `FE FF` is big endian, and one that begins
/// with `FF FE` is little endian; this BOM is not written. Any other stream is big endian.
///
/// # Errors
///
/// The same as for `filter`.
pub fn filter_auto<R: Read, W: Write, A: Allocator>(
    alloc: A,
    reader: &mut Watched<R>,
    writer: &mut Watched<W>,
) -> Result<(), FilterFault>
    ensures transfers { FiltersAuto (R.remaining (watched_inner reader.old))
        (R.remaining (watched_inner reader.new)) (W.contents (watched_inner writer.old))
        (W.contents (watched_inner writer.new)) result }
    ensures reads { Counts reader.old reader.new (read_faults result) }
    ensures writes { Counts writer.old writer.new (write_faults result) }
{
    filter_by(alloc, AnyLossy::new(), reader, writer)
}

/// Transcodes a reader and writes the output to a writer. It reads chunks of up to 4,096 bytes
/// until a read returns 0, and flushes once at the end.
///
/// # Errors
///
/// At the first I/O error, if allocation fails, or after 2^64 - 1 reads that returned bytes.
/// `FilterFault` says what has been written in each case; its text is the output of the transcoder.
///
/// # Complexity
///
/// Allocates once, for the output of one chunk, however long the input is. Allocates nothing if no
/// read returns more than seven bytes.
pub fn filter_by<T: Transcoder, R: Read, W: Write, A: Allocator>(
    alloc: A,
    transcoder: T,
    reader: &mut Watched<R>,
    writer: &mut Watched<W>,
) -> Result<(), FilterFault>
    ensures transfers { FiltersBy (T.decided transcoder) (T.whole transcoder)
        (R.remaining (watched_inner reader.old)) (R.remaining (watched_inner reader.new))
        (W.contents (watched_inner writer.old)) (W.contents (watched_inner writer.new)) result }
    ensures reads { Counts reader.old reader.new (read_faults result) }
    ensures writes { Counts writer.old writer.new (write_faults result) }
{
    transcoder.laws();
    let mut transcoder = transcoder;
    let mut block = [0; CHUNK_LEN];
    let mut short = [0; SHORT_OUTPUT];
    let mut long = Vec::new(alloc);
    for _ in 0..u64::MAX {
        let Ok(count) = reader.read(&mut block) else {
            return Err(FilterFault::Read);
        };
        if count == 0 {
            let Ok(()) = end(transcoder, writer) else {
                return Err(FilterFault::Write);
            };
            return Ok(());
        }
        transcoder.laws();
        let Ok(to) = space_for(count, &mut short, &mut long) else {
            return Err(FilterFault::Memory);
        };
        let len = transcoder.feed_to(&block[..count], to);
        let Ok(()) = writer.write_all(&to[..len]) else {
            return Err(FilterFault::Write);
        };
    }
    Err(FilterFault::Long)
}

// Returns the buffer for the output of a chunk of `count` bytes: `short` if that is long enough,
// and otherwise `long`, which is allocated the first time, for a chunk of any length.
fn space_for<'a, A: Allocator>(
    count: usize,
    short: &'a mut [u8; SHORT_OUTPUT],
    long: &'a mut Vec<u8, A>,
) -> Result<&'a mut [u8], AllocError>
    requires { count ≤ CHUNK_LEN }
    ensures space { IfOk result (λ to. 2 * count + 8 ≤ length to.now) }
    ensures err { OnErr result (8 ≤ count) }
{
    if count < LONG_CHUNK {
        return Ok(short);
    }
    if long.capacity() == 0 {
        long.reserve_exact(2 * CHUNK_LEN + FEED_SLACK)?;
    }
    // `feed_to` requires only two bytes for each byte of the chunk and eight more; it is faster
    // with the slack that `FEED_SLACK` gives. Bytes that no chunk needs are not cleared.
    let len = 2 * count + FEED_SLACK;
    if long.len() < len {
        long.resize(len, 0)?;
    }
    Ok(long)
}

// Writes what the end of the stream adds to the output, and flushes once.
fn end<T: Transcoder, W: Write>(transcoder: T, writer: &mut Watched<W>) -> Result<(), DeviceFault>
    ensures appended { OnOk result (Appends (W.contents (watched_inner writer.old))
        (W.contents (watched_inner writer.new)) (T.whole transcoder [])) }
    ensures err { OnErr result (AppendsPrefix (W.contents (watched_inner writer.old))
        (W.contents (watched_inner writer.new)) (T.whole transcoder [])) }
    ensures faults { CountsFaults writer.old writer.new result }
{
    let mut buffer = [0; SHORT_OUTPUT];
    let len = transcoder.finish_to(&mut buffer);
    writer.write_all(&buffer[..len])?;
    writer.flush()
}
