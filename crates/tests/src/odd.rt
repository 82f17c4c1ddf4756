//! The filter over a reader or a writer that fails, is interrupted or moves nothing at one of its
//! calls, at each in turn, and would continue afterwards. What is written is compared with what the
//! tests' own decoder writes.

use crate::checks::{equal, holds};
use std::process::Abort;
use tests_support::plain::{decode, to_utf8_lossy};
use tests_support::stepped::{Giver, Manner, Oddity, Taker};
use tests_support::texts::faults;
use utf16_tools::{FilterFault, Watched, filter};
use utf16string::{BE, LE};

// How a run of the filter ends: its result, and the state of the reader and of the writer.
type Ended<'a> = (Result<(), FilterFault>, Giver<'a>, Taker<'a>);

// A stream, and how many bytes are read and written at each call.
#[derive(Clone, Copy)]
struct Stream<'a> {
    big: bool,
    bytes: &'a [u8],
    reads: &'a [usize],
    writes: &'a [usize],
}

// What happens at a call, counted from 1.
#[derive(Clone, Copy)]
struct Odd {
    at: usize,
    oddity: Oddity,
}

const NOWHERE: Odd = Odd {
    at: 0,
    oddity: Oddity::Fails,
};

fn manner(sizes: &[usize], odd: Odd) -> Manner<'_> {
    Manner {
        sizes,
        odd_at: odd.at,
        oddity: odd.oddity,
    }
}

// Runs the filter, and checks that the error counts agree with its result.
fn filtered<'a>(
    rt: &(impl Abort + AllocGlobal),
    stream: Stream<'a>,
    read: Odd,
    write: Odd,
) -> Ended<'a> {
    let mut reader = Watched::new(Giver::new(stream.bytes, manner(stream.reads, read)));
    let taker = Taker::new(rt.alloc(), manner(stream.writes, write));
    let mut writer = Watched::new(taker);
    let answer = if stream.big {
        filter::<BE, _, _, _>(rt.alloc(), &mut reader, &mut writer)
    } else {
        filter::<LE, _, _, _>(rt.alloc(), &mut reader, &mut writer)
    };
    let read_fails = answer == Err(FilterFault::Read);
    let write_fails = answer == Err(FilterFault::Write);
    equal(rt, reader.faults(), read_fails as u64);
    equal(rt, writer.faults(), write_fails as u64);
    (answer, reader.into_inner(), writer.into_inner())
}

// Returns what was read, without the last `but` bytes.
fn given<'a>(rt: &impl Abort, stream: Stream<'a>, giver: &Giver, but: usize) -> &'a [u8] {
    let count = stream.bytes.len().saturating_sub(giver.left.len());
    stream
        .bytes
        .get(..count.saturating_sub(but))
        .expect(rt, "a beginning")
}

fn decided(rt: &(impl Abort + AllocGlobal), big: bool, bytes: &[u8]) -> String {
    let mut text = String::new(rt.alloc());
    decode(big, bytes, &mut text).expect(rt, "memory");
    text
}

fn whole(rt: &(impl Abort + AllocGlobal), big: bool, bytes: &[u8]) -> String {
    let mut text = String::new(rt.alloc());
    to_utf8_lossy(big, bytes, &mut text).expect(rt, "memory");
    text
}

// Checks a run without an I/O error, which ends when a read returns 0.
fn is_done(rt: &(impl Abort + AllocGlobal), stream: Stream, ended: Ended) {
    let (answer, giver, taker) = ended;
    equal(rt, answer, Ok(()));
    let text = whole(rt, stream.big, given(rt, stream, &giver, 0));
    equal(rt, taker.taken.as_slice(), text.as_bytes());
    equal(rt, (giver.last, taker.flushes), (0, 1));
}

// Checks a run that a failed read ended: it was the last call of the reader, and the text of what
// was read before it is written, without U+FFFD for an incomplete end.
fn read_failed(rt: &(impl Abort + AllocGlobal), stream: Stream, odd: Odd, ended: Ended) {
    let (answer, giver, taker) = ended;
    equal(rt, answer, Err(FilterFault::Read));
    let text = decided(rt, stream.big, given(rt, stream, &giver, 0));
    equal(rt, taker.taken.as_slice(), text.as_bytes());
    equal(rt, (giver.calls, taker.flushes), (odd.at, 0));
}

// Checks a run that a failed write or flush ended: it was the last call of the writer. What is
// written has the certain text of what was read before the last read, and is a prefix of the text
// of all that was read. If the flush failed, it is all of this text.
fn write_failed(rt: &(impl Abort + AllocGlobal), stream: Stream, odd: Odd, ended: Ended) {
    let (answer, giver, taker) = ended;
    equal(rt, answer, Err(FilterFault::Write));
    equal(rt, taker.calls, odd.at);
    let early = decided(rt, stream.big, given(rt, stream, &giver, giver.last));
    let text = whole(rt, stream.big, given(rt, stream, &giver, 0));
    holds(rt, taker.taken.starts_with(early.as_bytes()));
    holds(rt, text.as_bytes().starts_with(&taker.taken));
    equal(rt, taker.taken.len() == text.len(), taker.flushes == 1);
}

// The reader misbehaves at a call, if it makes that call.
fn odd_read(rt: &(impl Abort + AllocGlobal), stream: Stream, odd: Odd) -> bool {
    let ended = filtered(rt, stream, odd, NOWHERE);
    let is_met = odd.at <= ended.1.calls;
    if is_met && !matches!(odd.oddity, Oddity::MovesNothing) {
        read_failed(rt, stream, odd, ended);
    } else {
        holds(rt, is_met || ended.1.left.is_empty());
        is_done(rt, stream, ended);
    }
    is_met
}

// The writer misbehaves at a call, if it makes that call. A flush moves nothing anyway.
fn odd_write(rt: &(impl Abort + AllocGlobal), stream: Stream, odd: Odd) -> bool {
    let ended = filtered(rt, stream, NOWHERE, odd);
    let is_met = odd.at <= ended.2.calls;
    let is_as_ever = matches!(odd.oddity, Oddity::MovesNothing) && ended.2.flushes == 1;
    if is_met && !is_as_ever {
        write_failed(rt, stream, odd, ended);
    } else {
        holds(rt, ended.1.left.is_empty());
        is_done(rt, stream, ended);
    }
    is_met
}

// Each call of the reader misbehaves in turn, until a run does not make that call. Then each call
// of the writer does.
fn at_each_call(rt: &(impl Abort + AllocGlobal), stream: Stream, oddity: Oddity) {
    for at in 1..100 {
        if !odd_read(rt, stream, Odd { at, oddity }) {
            break;
        }
    }
    for at in 1..100 {
        if !odd_write(rt, stream, Odd { at, oddity }) {
            break;
        }
    }
}

// The sizes of reads and of writes, in bytes.
const SIZES: [(&[usize], &[usize]); 5] = [
    (&[1], &[1]),
    (&[], &[1]),
    (&[1], &[]),
    (&[2, 1, 3], &[2, 1]),
    (&[3], &[1, 5]),
];

const ODDITIES: [Oddity; 3] = [Oddity::Fails, Oddity::IsInterrupted, Oddity::MovesNothing];

fn in_all_sizes(rt: &(impl Abort + AllocGlobal), big: bool, bytes: &[u8]) {
    for (reads, writes) in SIZES {
        let stream = Stream {
            big,
            bytes,
            reads,
            writes,
        };
        for oddity in ODDITIES {
            at_each_call(rt, stream, oddity);
        }
    }
}

// A bug that no clause excludes: after an I/O error one more call is made, which moves nothing.
#[test]
fn each_call_of_each_device_over_each_known_fault(rt: HostRuntime) {
    for (big, bytes, ..) in &faults() {
        in_all_sizes(&rt, *big, bytes);
    }
    in_all_sizes(
        &rt,
        false,
        &[
            0x68, 0x00, 0x00, 0xD8, 0x65, 0x00, 0x00, 0xD8, 0x00, 0xDC, 0x6F,
        ],
    );
    in_all_sizes(
        &rt,
        true,
        &[
            0x00, 0x68, 0xD8, 0x00, 0x00, 0x65, 0xD8, 0x00, 0xDC, 0x00, 0x4E,
        ],
    );
}
