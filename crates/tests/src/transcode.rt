//! Texts from one encoding to another.

use crate::checks::{equal, holds};
use examples::transcode::{
    ByteOrder, TranscodeError, from_utf8, from_utf8_in, pieces_to_utf8, swap_byte_order, to_utf8,
    to_utf8_in, to_utf8_lossy, to_utf8_lossy_in, utf8_round_trip, utf16_round_trip,
};
use std::process::Abort;
use tests_support::refusing::Refusing;
use tests_support::texts::{MIXED, MIXED_BE, faults};
use utf16string::{BE, LE, Utf16Order};

// The text of `MIXED`.
const TEXT: &str = "a\u{4E00}\u{10000}";

fn is_utf16(rt: &impl Abort, found: &str) {
    holds(rt, found == TEXT);
}

fn are(rt: &impl Abort, found: &[u8], wanted: &[u8]) {
    holds(rt, found == wanted);
}

// Checks transcoding to UTF-8.
fn goes_to<E: Utf16Order>(rt: &(impl Abort + AllocGlobal), order: ByteOrder, bytes: &[u8]) {
    let utf8 = to_utf8::<E, _>(rt.alloc(), bytes).expect(rt, "text");
    is_utf16(rt, &utf8);
    let told = to_utf8_in(rt.alloc(), order, bytes).expect(rt, "text");
    is_utf16(rt, &told);
    let lossy = to_utf8_lossy::<E, _>(rt.alloc(), bytes).expect(rt, "memory");
    is_utf16(rt, &lossy);
    let back = utf8_round_trip::<E, _, _>(rt.alloc(), rt.alloc(), TEXT).expect(rt, "memory");
    is_utf16(rt, &back);
}

// Checks transcoding from UTF-8.
fn goes_from<E: Utf16Order>(rt: &(impl Abort + AllocGlobal), order: ByteOrder, bytes: &[u8]) {
    let utf16 = from_utf8::<E, _>(rt.alloc(), TEXT).expect(rt, "memory");
    are(rt, &utf16, bytes);
    let told = from_utf8_in(rt.alloc(), order, TEXT).expect(rt, "memory");
    are(rt, &told, bytes);
    let back = utf16_round_trip::<E, _, _>(rt.alloc(), rt.alloc(), bytes).expect(rt, "text");
    are(rt, &back, bytes);
}

// Checks transcoding to UTF-8 from two chunks, cut at each byte.
fn goes_in_pieces<E: Utf16Order>(rt: &(impl Abort + AllocGlobal), bytes: &[u8]) {
    for at in 0..bytes.len() + 1 {
        let pieces = cut(rt, bytes, at);
        let utf8 = pieces_to_utf8::<E, _, _, _>(rt.alloc(), rt.alloc(), &pieces);
        is_utf16(rt, &utf8.expect(rt, "text"));
    }
}

fn goes<E: Utf16Order, F: Utf16Order>(
    rt: &(impl Abort + AllocGlobal),
    order: ByteOrder,
    bytes: &[u8],
    other: &[u8],
) {
    goes_to::<E>(rt, order, bytes);
    goes_from::<E>(rt, order, bytes);
    goes_in_pieces::<E>(rt, bytes);
    let swapped = swap_byte_order::<E, F, _>(rt.alloc(), bytes).expect(rt, "text");
    are(rt, &swapped, other);
}

// A bug that no clause excludes: allocation fails although memory is available.
#[test]
fn whole(rt: HostRuntime) {
    goes::<LE, BE>(&rt, ByteOrder::Little, &MIXED, &MIXED_BE);
    goes::<BE, LE>(&rt, ByteOrder::Big, &MIXED_BE, &MIXED);
    goes::<LE, LE>(&rt, ByteOrder::Little, &MIXED, &MIXED);
}

// Returns the bytes in two chunks, cut at this offset.
fn cut(rt: &(impl Abort + AllocGlobal), bytes: &[u8], at: usize) -> Vec<Vec<u8>> {
    let (front, back) = bytes.split_at(at.min(bytes.len()));
    let mut pieces = Vec::new(rt.alloc());
    for piece in [front, back] {
        let piece = Vec::from_slice(rt.alloc(), piece).expect(rt, "memory");
        equal(rt, pieces.push(piece).is_ok(), true);
    }
    pieces
}

fn places(found: Option<TranscodeError>) -> Option<(usize, Option<usize>)> {
    match found {
        Some(TranscodeError::NoText(e)) => Some((e.valid_up_to(), e.error_len())),
        _ => None,
    }
}

// Checks ill-formed bytes, and their lossy text, cut at each byte.
fn no_text(
    rt: &(impl Abort + AllocGlobal),
    order: ByteOrder,
    bytes: &[u8],
    wanted: (usize, Option<usize>),
    text: &str,
) {
    let found = to_utf8_in(rt.alloc(), order, bytes).err();
    equal(rt, places(found), Some(wanted));
    for at in 0..bytes.len() + 1 {
        let lossy = to_utf8_lossy_in(rt.alloc(), order, &cut(rt, bytes, at)).expect(rt, "memory");
        equal(rt, lossy.as_str() == text, true);
    }
}

// A bug that no clause excludes: the definition of an error differs from the worked examples.
#[test]
fn no_texts(rt: HostRuntime) {
    for (big, bytes, place, len, _, text) in &faults() {
        let order = if *big {
            ByteOrder::Big
        } else {
            ByteOrder::Little
        };
        no_text(&rt, order, bytes, (*place, *len), text);
    }
    let pieces = cut(&rt, &[0x41, 0, 0, 0xDC], 3);
    let found = pieces_to_utf8::<LE, _, _, _>(rt.alloc(), rt.alloc(), &pieces).err();
    equal(&rt, places(found), Some((2, Some(2))));
    let lossy = to_utf8_lossy::<LE, _>(rt.alloc(), &[0x41, 0, 0, 0xD8]).expect(&rt, "memory");
    equal(&rt, lossy.as_str() == "A\u{FFFD}", true);
}

// A bug that no clause excludes: a failed allocation leaks a block.
#[test]
fn memory_refused(rt: HostRuntime) {
    let heap = Refusing::new(rt.alloc());
    let memory = Some(TranscodeError::Memory);
    heap.refuse_from(0);
    equal(&rt, to_utf8::<LE, _>(&heap, &MIXED).err(), memory);
    equal(&rt, to_utf8_lossy::<LE, _>(&heap, &MIXED).is_err(), true);
    equal(&rt, from_utf8::<LE, _>(&heap, TEXT).is_err(), true);
    equal(
        &rt,
        swap_byte_order::<LE, BE, _>(&heap, &MIXED).err(),
        memory,
    );
    let pieces = cut(&rt, &MIXED, 1);
    let utf8 = pieces_to_utf8::<LE, _, _, _>(rt.alloc(), &heap, &pieces);
    equal(&rt, utf8.err(), memory);
    let utf8 = pieces_to_utf8::<LE, _, _, _>(&heap, rt.alloc(), &pieces);
    equal(&rt, utf8.err(), memory);
    equal(&rt, (heap.refusals(), heap.live_blocks()), (6, 0));
}
