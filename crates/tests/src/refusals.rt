//! Each allocation of `feed` fails in turn, and the stream continues after it.

use std::alloc::Global;
use std::process::Abort;
use std::test::Fail;
use tests_support::refusing::Refusing;
use utf16_tools::{Utf8Decoder, encode_pieces};
use utf16string::{BE, LE, Utf16Order, WString};

type Heap<'a> = &'a Refusing<Global>;

// The chunks of a stream, cut in characters and in ill-formed sequences, and its text (Unicode,
// section 3.9, tables 3-8 and 3-11).
const CHUNKS: [&[u8]; 7] = [
    b"a\xF0",
    b"\x9F",
    b"\x98\x80\xE1\x80",
    b"\xE2\xF0\x91\x92",
    b"\xF1\xBF",
    b"A\xC0\xAF",
    b"\xE1\x80",
];

const TEXT: &str = "a\u{1F600}\u{FFFD}\u{FFFD}\u{FFFD}\u{FFFD}A\u{FFFD}\u{FFFD}\u{FFFD}";

fn is_text<E: Utf16Order>(rt: &(impl Abort + AllocGlobal), found: &WString<E, Heap>) {
    let utf8 = found.to_utf8(rt.alloc()).expect(rt, "memory");
    assert_eq!(rt; utf8.as_str(), TEXT);
}

// Decodes the stream with one allocation that fails, and repeats each chunk that fails. Returns how
// many failed.
fn failed<E: Utf16Order>(rt: &(impl Abort + AllocGlobal), failing: u64) -> u64 {
    let heap = Refusing::<Global>::new(rt.alloc());
    let mut text = WString::<E, Heap>::new(&heap);
    let mut decoder = Utf8Decoder::<E>::new();
    heap.refuse_one(failing);
    for chunk in CHUNKS {
        if decoder.feed(chunk, &mut text).is_err() {
            decoder.feed(chunk, &mut text).expect(rt, "memory");
        }
    }
    let replacement = decoder.finish().expect(rt, "incomplete");
    let failed = heap.refusals();
    heap.refuse_none();
    text.push(replacement).expect(rt, "memory");
    is_text(rt, &text);
    failed
}

// A bug that no clause excludes: `feed` fails forever after a failed allocation.
#[test]
fn feed_goes_on_after_each_failed_allocation(rt: HostRuntime) {
    for (failing, times) in [(0, 1), (1, 1), (9, 0)] {
        assert_eq!(rt; failed::<LE>(&rt, failing), times);
        assert_eq!(rt; failed::<BE>(&rt, failing), times);
    }
}

// A bug that no clause excludes: `feed` allocates for each part of a chunk, or without need.
#[test]
fn feed_allocates_once_for_a_long_chunk(rt: HostRuntime) -> Result<(), Fail> {
    let heap = Refusing::<Global>::new(rt.alloc());
    let mut text = WString::<LE, Heap>::new(&heap);
    let mut decoder = Utf8Decoder::<LE>::new();
    decoder.feed(b"\xF0\x9F\x98", &mut text)?;
    assert_eq!(rt; heap.requests(), 0);
    decoder.feed(&[0x80; 10_000], &mut text)?;
    assert_eq!(rt; (heap.requests(), heap.requested_bytes()), (1, 20_002));
    Ok(())
}

// A bug that no clause excludes: `encode_pieces` fails although memory suffices.
#[test]
fn encode_pieces_gives_the_text(rt: HostRuntime) -> Result<(), Fail> {
    let heap = Refusing::<Global>::new(rt.alloc());
    let pieces = vec![in rt.alloc(); CHUNKS.concat(rt.alloc())?]?;
    is_text(&rt, &encode_pieces::<LE, Heap, Global>(&heap, &pieces)?);
    Ok(())
}
