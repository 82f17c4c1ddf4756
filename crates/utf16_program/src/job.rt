//! What a word of a program does with its input.

ghost use Rattle.std.specs.Prelude.{◌≡◌, ◌≢◌};
ghost use Rattle.utf16_streams.specs.Watched.{Counts, watched_inner};
ghost use Rattle.utf16_program.specs.Job.{Does};
ghost use Rattle.utf16_program.specs.Status.{reads_failed, writes_failed};

use crate::check::check;
use crate::outcome::{Outcome, outcome_of};
use std::alloc::Allocator;
use std::io::{Read, Write};
use utf16_streams::{BE, LE, Watched, encode_stream, encode_stream_with_bom, filter, filter_auto};

/// What is done with an input. A byte order is `true` for big endian and `false` for little endian,
/// or `None` if the BOM gives it.
#[derive(Clone, Copy, Debug, PartialEq, Eq)]
pub enum Job {
    /// Decodes UTF-16 in this byte order to UTF-8.
    Decode(Option<bool>),
    /// Encodes UTF-8 in UTF-16 in this byte order.
    Encode(bool),
    /// Encodes UTF-8 in UTF-16 in this byte order, with a BOM first.
    EncodeWithBom(bool),
    /// Reports each ill-formed sequence of UTF-16 in this byte order.
    Check(Option<bool>),
}

impl Job {
    /// Does the job from a reader to a writer, and returns how it ended, which is never `Usage`.
    pub fn perform<R: Read, W: Write, A: Allocator>(
        self,
        alloc: A,
        reader: &mut Watched<R>,
        writer: &mut Watched<W>,
    ) -> Outcome
        ensures does { Does self (R.remaining (watched_inner reader.old))
            (R.remaining (watched_inner reader.new)) (W.contents (watched_inner writer.old))
            (W.contents (watched_inner writer.new)) result }
        ensures reads { Counts reader.old reader.new (reads_failed result) }
        ensures writes { Counts writer.old writer.new (writes_failed result) }
        ensures named { result ≢ Outcome.Usage }
    {
        match self {
            Job::Decode(None) => outcome_of(filter_auto(alloc, reader, writer)),
            Job::Decode(Some(true)) => outcome_of(filter::<BE, _, _, _>(alloc, reader, writer)),
            Job::Decode(Some(false)) => outcome_of(filter::<LE, _, _, _>(alloc, reader, writer)),
            Job::Encode(true) => outcome_of(encode_stream::<BE, _, _, _>(alloc, reader, writer)),
            Job::Encode(false) => outcome_of(encode_stream::<LE, _, _, _>(alloc, reader, writer)),
            Job::EncodeWithBom(true) => {
                outcome_of(encode_stream_with_bom::<BE, _, _, _>(alloc, reader, writer))
            }
            Job::EncodeWithBom(false) => {
                outcome_of(encode_stream_with_bom::<LE, _, _, _>(alloc, reader, writer))
            }
            Job::Check(big_endian) => check(big_endian, alloc, reader, writer),
        }
    }
}
