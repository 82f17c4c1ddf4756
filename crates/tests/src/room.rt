//! Strings and views whose allocations all fail, or with sizes that no vector can have: the call
//! returns the error, and text, bytes and capacity are unchanged. Then the same call with memory.

use crate::checks::{equal, holds};
use std::alloc::{AllocError, Global};
use std::process::Abort;
use tests_support::refusing::Refusing;
use utf16string::{BE, LE, Utf16Order, WString};

type Heap<'a> = &'a Refusing<Global>;

// A call that allocates.
#[derive(Clone, Copy)]
enum Call {
    Push(char),
    PushText(&'static str),
    Insert(usize, char),
    InsertText(usize, &'static str),
    Reserve(usize),
    Shrink,
    SplitOff(usize),
    ToUtf8,
    PushUtf8,
}

// Calls on "ho" with capacity for three code units, and the text that each leaves.
const CALLS: [(Call, &str); 11] = [
    (Call::Push('\u{10000}'), "ho\u{10000}"),
    (Call::PushText("la"), "hola"),
    (Call::Insert(0, '\u{10000}'), "\u{10000}ho"),
    (Call::Insert(4, '\u{10000}'), "ho\u{10000}"),
    (Call::InsertText(2, "ell"), "hello"),
    (Call::InsertText(4, "la"), "hola"),
    (Call::Reserve(3), "ho"),
    (Call::Shrink, "ho"),
    (Call::SplitOff(2), "h"),
    (Call::ToUtf8, "ho"),
    (Call::PushUtf8, "ho"),
];

// Makes a call. A text that it takes has separate memory.
fn make<'a, E: Utf16Order>(
    rt: &(impl Abort + AllocGlobal),
    heap: Heap<'a>,
    text: &mut WString<E, Heap<'a>>,
    call: Call,
) -> Result<(), AllocError> {
    match call {
        Call::Push(c) => text.push(c),
        Call::PushText(part) => text.push_wstr(of::<E>(rt, part).as_wstr()),
        Call::Insert(at, c) if text.is_char_boundary(at) => text.insert(at, c),
        Call::InsertText(at, part) if text.is_char_boundary(at) => {
            text.insert_wstr(at, of::<E>(rt, part).as_wstr())
        }
        Call::SplitOff(at) if text.is_char_boundary(at) => {
            let _back = text.split_off(at)?;
            Ok(())
        }
        Call::Insert(..) | Call::InsertText(..) | Call::SplitOff(_) => panic!(rt; "no boundary"),
        Call::Reserve(count) => text.reserve(count),
        Call::Shrink => text.shrink_to_fit(),
        Call::ToUtf8 => {
            holds(rt, text.to_utf8(heap)?.as_str() == "ho");
            Ok(())
        }
        Call::PushUtf8 => {
            let mut all = String::new(heap);
            let answer = text.as_wstr().push_utf8(&mut all);
            holds(rt, all.as_str() == if answer.is_ok() { "ho" } else { "" });
            answer
        }
    }
}

fn of<E: Utf16Order>(rt: &(impl Abort + AllocGlobal), text: &str) -> WString<E> {
    WString::from_str(rt.alloc(), text).expect(rt, "memory")
}

// Checks that these are the bytes of a text.
fn are<E: Utf16Order>(rt: &(impl Abort + AllocGlobal), found: &[u8], wanted: &str) {
    equal(rt, found, of::<E>(rt, wanted).as_bytes());
}

// Returns "ho" with capacity for three code units.
fn ho<'a, E: Utf16Order>(rt: &impl Abort, heap: Heap<'a>) -> WString<E, Heap<'a>> {
    let mut text = WString::with_capacity(heap, 6).expect(rt, "memory");
    text.push('h').expect(rt, "memory");
    text.push('o').expect(rt, "memory");
    text
}

// Checks that a failed call leaves the string unchanged, and that the same call with memory
// succeeds.
fn refused_then_done<E: Utf16Order>(rt: &(impl Abort + AllocGlobal), call: Call, wanted: &str) {
    let heap = Refusing::<Global>::new(rt.alloc());
    let mut text = ho::<E>(rt, &heap);
    let room = text.capacity();
    heap.refuse_from(0);
    holds(rt, make(rt, &heap, &mut text, call).is_err());
    are::<E>(rt, text.as_bytes(), "ho");
    equal(rt, (text.capacity(), heap.refusals() == 0), (room, false));
    heap.refuse_none();
    holds(rt, make(rt, &heap, &mut text, call).is_ok());
    are::<E>(rt, text.as_bytes(), wanted);
    drop(text);
    equal(rt, heap.live_blocks(), 0);
}

// A bug that no clause excludes: a call allocates more than once, or a failed one leaks a block.
#[test]
fn calls_of_a_string(rt: HostRuntime) {
    for (call, wanted) in CALLS {
        refused_then_done::<LE>(&rt, call, wanted);
        refused_then_done::<BE>(&rt, call, wanted);
    }
}

// Checks strings that are made without memory, and then with memory.
fn made<E: Utf16Order>(rt: &(impl Abort + AllocGlobal)) {
    let heap = Refusing::<Global>::new(rt.alloc());
    heap.refuse_from(0);
    holds(rt, WString::<E, Heap>::with_capacity(&heap, 2).is_err());
    holds(rt, WString::<E, Heap>::from_str(&heap, "h").is_err());
    equal(rt, heap.refusals(), 2);
    heap.refuse_none();
    let text = WString::<E, Heap>::from_str(&heap, "h").expect(rt, "memory");
    equal(rt, text.as_bytes(), E::write_unit(0x68).as_slice());
    drop(text);
    equal(rt, heap.live_blocks(), 0);
}

fn sizes<E: Utf16Order>(rt: &(impl Abort + AllocGlobal)) {
    for size in [usize::MAX, usize::MAX - 1, usize::MAX / 2 + 1] {
        holds(rt, WString::<E>::with_capacity(rt.alloc(), size).is_err());
        for start in ["", "ho"] {
            let mut text = of::<E>(rt, start);
            let room = text.capacity();
            holds(rt, text.reserve(size).is_err());
            are::<E>(rt, text.as_bytes(), start);
            equal(rt, text.capacity(), room);
        }
    }
}

// Checks that reserved capacity takes three characters while all allocations fail.
fn reserved<E: Utf16Order>(rt: &(impl Abort + AllocGlobal)) {
    let heap = Refusing::<Global>::new(rt.alloc());
    let mut text = WString::<E, Heap>::new(&heap);
    text.reserve(8).expect(rt, "memory");
    heap.refuse_from(0);
    holds(rt, text.push('a').is_ok());
    holds(rt, text.push('\u{10000}').is_ok());
    holds(rt, make(rt, &heap, &mut text, Call::Insert(0, 'b')).is_ok());
    are::<E>(rt, text.as_bytes(), "ba\u{10000}");
    equal(rt, heap.requests(), 0);
}

// A bug that no clause excludes: a size that no vector can have reaches the allocator.
#[test]
fn sizes_of_a_string(rt: HostRuntime) {
    sizes::<LE>(&rt);
    sizes::<BE>(&rt);
    made::<LE>(&rt);
    made::<BE>(&rt);
    reserved::<LE>(&rt);
    reserved::<BE>(&rt);
}
