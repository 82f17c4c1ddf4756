//! How much memory each call that allocates requests: all tests share one table of calls.

mod calls;
mod edits;
mod places;
mod streams;
mod strings;

use crate::checks::equal;
use crate::memory::calls::{Call, Held, Text, make};
use std::alloc::Global;
use std::process::Abort;
use tests_support::refusing::Refusing;
use utf16string::{BE, LE, Utf16Order};

// The string that grows by what a call requests memory for.
#[derive(Clone, Copy)]
enum Grows {
    // The result is new.
    Nothing,
    Utf16,
    Utf8,
}

// What a call requests memory for.
#[derive(Clone, Copy)]
enum Needs {
    // The first character in UTF-16.
    Char,
    // The text in UTF-16.
    Utf16,
    // The text in UTF-8, at least eight bytes.
    Utf8,
    // Twice the text in UTF-16.
    Twice,
    // Three bytes for each code unit, at least eight.
    Units,
    // Two bytes for each byte of UTF-8, and two for a pending one.
    Bytes,
    // A reply to each edit.
    Replies,
    // The output of one chunk of a filter.
    Chunk,
}

// The most allocations of a call whose result grows while it is made.
const MANY: u64 = 24;

// Numbers of characters around powers of two, and powers of ten.
const POWERS: [usize; 14] = [
    511, 512, 513, 1_000, 1_023, 1_024, 1_025, 4_095, 4_096, 4_097, 10_000, 65_535, 65_536, 65_537,
];

// A call, what grows, what it needs memory for, and the most allocations that it makes.
type Row = (Call, Grows, Needs, u64);

// The calls are in several short tables: one long table takes many times as long to prove.

// Calls that return a new string or make a string's capacity smaller.
const MADE: [Row; 10] = [
    (Call::WithCapacity, Grows::Nothing, Needs::Utf16, 1),
    (Call::FromStr, Grows::Nothing, Needs::Utf16, 1),
    (Call::FromWstr, Grows::Nothing, Needs::Utf16, 1),
    (Call::FromIter, Grows::Nothing, Needs::Utf16, MANY),
    (Call::Clone, Grows::Nothing, Needs::Utf16, 1),
    (Call::SplitOff, Grows::Nothing, Needs::Utf16, 1),
    (Call::ShrinkToFit, Grows::Nothing, Needs::Utf16, 1),
    (Call::ShrinkTo, Grows::Nothing, Needs::Utf16, 1),
    (Call::ToUtf8, Grows::Nothing, Needs::Utf8, 1),
    (Call::ViewToUtf8, Grows::Nothing, Needs::Utf8, 1),
];

// Calls that append to a string or insert into it.
const GROWN: [Row; 9] = [
    (Call::Push, Grows::Utf16, Needs::Char, 1),
    (Call::PushStr, Grows::Utf16, Needs::Utf16, 1),
    (Call::PushWstr, Grows::Utf16, Needs::Utf16, 1),
    (Call::Insert, Grows::Utf16, Needs::Char, 1),
    (Call::InsertWstr, Grows::Utf16, Needs::Utf16, 1),
    (Call::Extend, Grows::Utf16, Needs::Utf16, MANY),
    (Call::ExtendByTrait, Grows::Utf16, Needs::Utf16, MANY),
    (Call::Reserve, Grows::Utf16, Needs::Utf16, 1),
    (Call::PushUtf8, Grows::Utf8, Needs::Utf8, 1),
];

// More of them, which `put` makes.
const PUT: [Row; 6] = [
    (Call::InsertStr, Grows::Utf16, Needs::Utf16, 1),
    (Call::ReplaceRange, Grows::Utf16, Needs::Utf16, 1),
    (Call::ExtendViews, Grows::Utf16, Needs::Utf16, MANY),
    (Call::ExtendStrs, Grows::Utf16, Needs::Utf16, MANY),
    (Call::WriteStr, Grows::Utf16, Needs::Utf16, 1),
    (Call::ReserveExact, Grows::Utf16, Needs::Utf16, 1),
];

// Calls that return a new string, which `copied` makes.
const COPIED: [Row; 7] = [
    (Call::CollectViews, Grows::Nothing, Needs::Utf16, MANY),
    (Call::CollectStrs, Grows::Nothing, Needs::Utf16, MANY),
    (Call::Replace, Grows::Nothing, Needs::Utf16, 1),
    (Call::Replacen, Grows::Nothing, Needs::Twice, MANY),
    (Call::Repeat, Grows::Nothing, Needs::Twice, 1),
    (Call::Drain, Grows::Nothing, Needs::Utf16, 1),
    (Call::CloneByTrait, Grows::Nothing, Needs::Utf16, 1),
];

// Calls at the middle or the end of a string, and with numbers that are not even.
const PUT_INSIDE: [Row; 5] = [
    (Call::InsertStrInside, Grows::Utf16, Needs::Utf16, 1),
    (Call::ReplaceRangeInside, Grows::Utf16, Needs::Utf16, 1),
    (Call::ReplaceRangeAtEnd, Grows::Utf16, Needs::Utf16, 1),
    (Call::ReserveCount, Grows::Utf16, Needs::Utf16, 1),
    (Call::ReserveExactCount, Grows::Utf16, Needs::Utf16, 1),
];

// Calls with other counts than in `COPIED`, with a pattern that is as long as the text, and at the
// middle.
const COPIED_INSIDE: [Row; 5] = [
    (Call::ReplacenSeven, Grows::Nothing, Needs::Utf16, 1),
    (Call::ReplacenCount, Grows::Nothing, Needs::Utf16, 1),
    (Call::ReplaceText, Grows::Nothing, Needs::Utf16, 1),
    (Call::RepeatCount, Grows::Nothing, Needs::Utf16, 1),
    (Call::DrainInside, Grows::Nothing, Needs::Utf16, 1),
];

// Calls that take much spare capacity from a string.
const SHRUNK: [Row; 2] = [
    (Call::ShrinkToFitMuch, Grows::Nothing, Needs::Utf16, 1),
    (Call::ShrinkToMuch, Grows::Nothing, Needs::Twice, 1),
];

// Edits.
const EDITED: [Row; 6] = [
    (Call::EditPush, Grows::Utf16, Needs::Char, 1),
    (Call::EditPushText, Grows::Utf16, Needs::Utf16, 1),
    (Call::EditInsert, Grows::Utf16, Needs::Char, 1),
    (Call::EditInsertText, Grows::Utf16, Needs::Utf16, 1),
    (Call::EditSplitOff, Grows::Nothing, Needs::Utf16, 1),
    (Call::Run, Grows::Nothing, Needs::Replies, 1),
];

// Calls of decoders.
const DECODED: [Row; 7] = [
    (Call::Feed, Grows::Nothing, Needs::Units, 1),
    (Call::FeedAny, Grows::Nothing, Needs::Units, 1),
    (Call::FeedUtf8, Grows::Utf16, Needs::Bytes, 1),
    (Call::DecodePieces, Grows::Nothing, Needs::Units, MANY),
    (Call::DecodePiecesCut, Grows::Nothing, Needs::Units, MANY),
    (Call::DecodeUtf8Pieces, Grows::Nothing, Needs::Bytes, MANY),
    (
        Call::DecodeUtf8PiecesCut,
        Grows::Nothing,
        Needs::Bytes,
        MANY,
    ),
];

// Calls of filters.
const FILTERED: [Row; 4] = [
    (Call::Filter, Grows::Nothing, Needs::Chunk, 1),
    (Call::FilterAuto, Grows::Nothing, Needs::Chunk, 1),
    (Call::EncodeStream, Grows::Nothing, Needs::Chunk, 1),
    (Call::EncodeStreamWithBom, Grows::Nothing, Needs::Chunk, 1),
];

impl Needs {
    // Returns how many bytes this takes for a text.
    fn bytes<E: Utf16Order>(self, text: &Text<E>) -> u64 {
        let (utf16, utf8) = (text.utf16.len() as u64, text.utf8.len() as u64);
        match self {
            Needs::Char => text.first.len_utf16() as u64 * 2,
            Needs::Utf16 => utf16,
            Needs::Utf8 => utf8.max(8),
            Needs::Twice => utf16.saturating_mul(2),
            Needs::Units => (utf16 / 2).saturating_mul(3).max(8),
            Needs::Bytes => utf8.saturating_mul(2).saturating_add(2).max(8),
            Needs::Replies => (text.count as u64).saturating_mul(64),
            Needs::Chunk => 3 * 4096,
        }
    }
}

// Returns the capacity of what grows.
fn capacity<E: Utf16Order>(grows: Grows, held: &Held<E>) -> u64 {
    match grows {
        Grows::Nothing => 0,
        Grows::Utf16 => held.utf16.capacity() as u64,
        Grows::Utf8 => held.utf8.capacity() as u64,
    }
}

// Returns the most bytes that a call may request. In one allocation it requests what it needs, or
// what `Vec` requests if a string grows. In many allocations it may request four times that.
fn most<E: Utf16Order>(row: Row, text: &Text<E>, held: &Held<E>) -> u64 {
    let (_, grows, needs, requests) = row;
    let (needed, capacity) = (needs.bytes(text), capacity(grows, held));
    let once = match grows {
        Grows::Nothing => needed,
        _ => needed
            .saturating_add(capacity)
            .max(capacity.saturating_mul(2))
            .max(8),
    };
    if requests == 1 {
        once
    } else {
        once.saturating_mul(4)
    }
}

// Checks that a call succeeds, and how much it requests. The strings that it changes are empty, or
// have the text and no spare capacity.
fn requested<E: Utf16Order>(
    rt: &(impl Abort + AllocGlobal),
    row: Row,
    text: &Text<E>,
    is_full: bool,
) {
    let heap = Refusing::<Global>::new(rt.alloc());
    let mut held = Held::empty(&heap);
    if is_full {
        held = Held::full(&heap, text).expect(rt, "memory");
    }
    let (call, _, _, requests) = row;
    let most = most(row, text, &held);
    let is_done = make(rt.alloc(), &heap, call, text, &mut held).is_ok();
    equal(rt, (call, text.count, is_done), (call, text.count, true));
    let is_bounded = heap.requests() <= requests && heap.requested_bytes() <= most;
    equal(rt, (call, text.count, is_bounded), (call, text.count, true));
    drop(held);
    equal(rt, heap.live_blocks(), 0);
}

// Makes each of these calls on a text: with strings that have it, and also with empty ones if they
// grow.
fn each_requested<E: Utf16Order>(rt: &(impl Abort + AllocGlobal), rows: &[Row], text: &Text<E>) {
    for row in rows {
        requested(rt, *row, text, true);
        if !matches!(row.1, Grows::Nothing) {
            requested(rt, *row, text, false);
        }
    }
}

// Makes each call on a text.
fn all_requested<E: Utf16Order>(rt: &(impl Abort + AllocGlobal), chars: &str, count: usize) {
    let text = Text::<E>::new(rt.alloc(), chars, count).expect(rt, "memory");
    each_requested(rt, &MADE, &text);
    each_requested(rt, &GROWN, &text);
    each_requested(rt, &PUT, &text);
    each_requested(rt, &COPIED, &text);
    each_requested(rt, &PUT_INSIDE, &text);
    each_requested(rt, &COPIED_INSIDE, &text);
    each_requested(rt, &SHRUNK, &text);
    each_requested(rt, &EDITED, &text);
    each_requested(rt, &DECODED, &text);
    each_requested(rt, &FILTERED, &text);
}

fn at_each_length<E: Utf16Order>(rt: &(impl Abort + AllocGlobal), chars: &str) {
    for count in 0..=300 {
        all_requested::<E>(rt, chars, count);
    }
    for count in (301..5_000).step_by(97) {
        all_requested::<E>(rt, chars, count);
    }
    for count in POWERS {
        all_requested::<E>(rt, chars, count);
    }
}

// A bug that no clause excludes: a call requests capacity for the longest possible text, such as
// two bytes of UTF-16 for each byte of UTF-8, or many times that.
#[test]
fn each_call_requests_what_it_needs(rt: HostRuntime) {
    at_each_length::<LE>(&rt, "a");
    at_each_length::<LE>(&rt, "\u{4E00}");
    at_each_length::<BE>(&rt, "a");
    at_each_length::<BE>(&rt, "\u{1F600}");
}

// A bug that no clause excludes: allocation fails for a long text although memory is available.
#[test]
fn each_call_takes_a_text_of_16_mib(rt: HostRuntime) {
    all_requested::<LE>(&rt, "a\u{4E00}\u{10000}", 0x20_0000);
}

// Checks that a thousand calls that append a text make at most twelve allocations.
fn grows_seldom<E: Utf16Order>(rt: &(impl Abort + AllocGlobal), call: Call, text: &Text<E>) {
    let heap = Refusing::<Global>::new(rt.alloc());
    let mut held = Held::empty(&heap);
    let mut requests: u64 = 0;
    for _ in 0..1_000 {
        let is_done = make(rt.alloc(), &heap, call, text, &mut held).is_ok();
        equal(rt, (call, is_done), (call, true));
        requests = requests.saturating_add(heap.requests());
    }
    equal(rt, (call, requests <= 12), (call, true));
}

// Checks those of these calls that append. A call that appends characters one by one takes the
// first only: it begins with eight bytes.
fn each_grows_seldom<E: Utf16Order>(rt: &(impl Abort + AllocGlobal), rows: &[Row], text: &Text<E>) {
    for row in rows {
        let (call, grows, _, requests) = *row;
        if !matches!(grows, Grows::Nothing) && (requests == 1 || text.count == 1) {
            grows_seldom(rt, call, text);
        }
    }
}

// Texts of one character, of a few that are converted at once, and of many.
fn all_grow_seldom<E: Utf16Order>(rt: &(impl Abort + AllocGlobal), chars: &str) {
    for count in [1, 20, 300] {
        let text = Text::<E>::new(rt.alloc(), chars, count).expect(rt, "memory");
        each_grows_seldom(rt, &MADE, &text);
        each_grows_seldom(rt, &GROWN, &text);
        each_grows_seldom(rt, &PUT, &text);
        each_grows_seldom(rt, &COPIED, &text);
        each_grows_seldom(rt, &PUT_INSIDE, &text);
        each_grows_seldom(rt, &EDITED, &text);
        each_grows_seldom(rt, &DECODED, &text);
        each_grows_seldom(rt, &FILTERED, &text);
    }
}

// A bug that no clause excludes: a string grows by what it needs, so that each call copies it.
#[test]
fn a_thousand_calls_allocate_twelve_times(rt: HostRuntime) {
    all_grow_seldom::<LE>(&rt, "a");
    all_grow_seldom::<BE>(&rt, "\u{1F600}");
}
