//! How much memory `feed` requests, for chunks of 0 to 64 code units and for one of 100,000.

use crate::checks::{equal, holds};
use std::alloc::{AllocError, Global};
use std::process::Abort;
use tests_support::refusing::Refusing;
use utf16_tools::{AnyLossy, Lossy};
use utf16string::{BE, LE, Utf16Order};

type Heap<'a> = &'a Refusing<Global>;

// Two code units that are repeated to make a chunk: ASCII letters, characters of the CJK block, an
// emoji, and unpaired surrogates.
const UNITS: [[u16; 2]; 5] = [
    [0x61, 0x62],
    [0x4E00, 0x9FFF],
    [0xD83D, 0xDE00],
    [0xD83D, 0xD83D],
    [0xDE00, 0xDE00],
];

const BOM: u16 = 0xFEFF;

const LONG: usize = 100_000;

// Appends `count` code units to a chunk.
fn append<E: Utf16Order>(rt: &impl Abort, units: [u16; 2], count: usize, chunk: &mut Vec<u8>) {
    let [first, second] = units;
    for k in 0..count {
        let unit = if k % 2 == 0 { first } else { second };
        chunk
            .extend_from_slice(&E::write_unit(unit))
            .expect(rt, "memory");
    }
}

// Checks what a call of `feed` returned for `units` code units, and its allocations: one if there
// is text, and none otherwise. The allocation has at most three bytes for each code unit, or eight
// for a single one. The counts start again.
fn requested(rt: &impl Abort, heap: Heap, units: usize, text: Result<String<Heap>, AllocError>) {
    let text = text.expect(rt, "memory");
    let most = if units == 1 {
        8
    } else {
        units.saturating_mul(3)
    };
    equal(rt, heap.requests(), (!text.is_empty()) as u64);
    holds(rt, heap.requested_bytes() <= most as u64);
    equal(rt, text.capacity() as u64, heap.requested_bytes());
    heap.refuse_none();
}

// Feeds a chunk of `count` code units to a decoder at once, and to another after its first byte.
fn known_order<E: Utf16Order>(rt: &impl Abort, heap: Heap, chunk: &[u8], count: usize) {
    let mut decoder = Lossy::<E>::new();
    requested(rt, heap, count, decoder.feed(heap, chunk));
    let mut decoder = Lossy::<E>::new();
    let (first, rest) = chunk.split_at(chunk.len().min(1));
    requested(rt, heap, 0, decoder.feed(heap, first));
    requested(rt, heap, count, decoder.feed(heap, rest));
}

// Does the same after a BOM, which is not a code unit of the text.
fn found_order(rt: &impl Abort, heap: Heap, stream: &[u8], count: usize) {
    let mut decoder = AnyLossy::new();
    requested(rt, heap, count, decoder.feed(heap, stream));
    let mut decoder = AnyLossy::new();
    let (first, rest) = stream.split_at(stream.len().min(1));
    requested(rt, heap, 0, decoder.feed(heap, first));
    requested(rt, heap, count, decoder.feed(heap, rest));
}

fn of_length<E: Utf16Order>(rt: &(impl Abort + AllocGlobal), units: [u16; 2], count: usize) {
    let heap = Refusing::<Global>::new(rt.alloc());
    let mut chunk = Vec::new(rt.alloc());
    append::<E>(rt, units, count, &mut chunk);
    known_order::<E>(rt, &heap, &chunk, count);
    let mut stream = Vec::new(rt.alloc());
    append::<E>(rt, [BOM, BOM], 1, &mut stream);
    stream.extend_from_slice(&chunk).expect(rt, "memory");
    found_order(rt, &heap, &stream, count);
    equal(rt, heap.live_blocks(), 0);
}

fn of_each_length<E: Utf16Order>(rt: &(impl Abort + AllocGlobal)) {
    for units in UNITS {
        for count in 0..=64 {
            of_length::<E>(rt, units, count);
        }
        of_length::<E>(rt, units, LONG);
    }
}

// A bug that no clause excludes: `feed` requests capacity for U+FFFD for each byte, or grows its
// text as parts of a chunk are decoded.
#[test]
fn feed_requests_three_bytes_a_unit(rt: HostRuntime) {
    of_each_length::<LE>(&rt);
    of_each_length::<BE>(&rt);
}
