//! Filters from a reader of UTF-8 to a writer of UTF-16.

ghost use Rattle.std.specs.Prelude.{◌≡◌, true, false};
ghost use Rattle.utf16_streams.specs.Filter.{read_faults, write_faults};
ghost use Rattle.utf16_streams.specs.Watched.{Counts, watched_inner};
ghost use Rattle.utf16_streams.specs.Encoder.{EncodesAs, EncodesWithBom};

use crate::encoder::Encoder;
use crate::filters::{FilterFault, filter_by};
use crate::watched::Watched;
use std::alloc::Allocator;
use std::io::{Read, Write};
use utf16_units::Utf16Order;

/// Encodes a reader of UTF-8 to a writer in UTF-16 in byte order `E`, with U+FFFD for each maximal
/// subpart of an ill-formed sequence and one for an incomplete end. It reads chunks of up to 4,096
/// bytes until a read returns 0, and flushes once at the end. A BOM of the input, the bytes
/// `EF BB BF`, is a character like any other.
///
/// # Errors
///
/// At the first I/O error, if allocation fails, or after 2^64 - 1 reads that returned bytes.
/// `FilterFault` says what has been written in each case.
///
/// # Complexity
///
/// Allocates once, for the output of one chunk, however long the input is. Allocates nothing if no
/// read returns more than seven bytes.
///
/// # Source
///
/// Unicode, section 3.9, "U+FFFD Substitution of Maximal Subparts"; `String::from_utf8_lossy` gives
/// the same text.
pub fn encode_stream<E: Utf16Order, R: Read, W: Write, A: Allocator>(
    alloc: A,
    reader: &mut Watched<R>,
    writer: &mut Watched<W>,
) -> Result<(), FilterFault>
    ensures transfers { EncodesAs E.BIG (R.remaining (watched_inner reader.old))
        (R.remaining (watched_inner reader.new)) (W.contents (watched_inner writer.old))
        (W.contents (watched_inner writer.new)) result }
    ensures reads { Counts reader.old reader.new (read_faults result) }
    ensures writes { Counts writer.old writer.new (write_faults result) }
{
    filter_by(alloc, Encoder::<E>::new(false), reader, writer)
}

/// Encodes a reader of UTF-8 to a writer in UTF-16 in byte order `E`, as `encode_stream` does, with
/// one BOM (byte order mark) first. A BOM at the beginning of the input, the bytes `EF BB BF`,
/// becomes that BOM. If the input begins with none, the output has a BOM before the text, even if
/// the text is empty.
///
/// # Errors
///
/// The same as for `encode_stream`.
pub fn encode_stream_with_bom<E: Utf16Order, R: Read, W: Write, A: Allocator>(
    alloc: A,
    reader: &mut Watched<R>,
    writer: &mut Watched<W>,
) -> Result<(), FilterFault>
    ensures transfers { EncodesWithBom E.BIG (R.remaining (watched_inner reader.old))
        (R.remaining (watched_inner reader.new)) (W.contents (watched_inner writer.old))
        (W.contents (watched_inner writer.new)) result }
    ensures reads { Counts reader.old reader.new (read_faults result) }
    ensures writes { Counts writer.old writer.new (write_faults result) }
{
    filter_by(alloc, Encoder::<E>::new(true), reader, writer)
}
