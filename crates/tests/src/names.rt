//! How much memory a name under a number requests.

use crate::checks::{equal, holds};
use examples::interner::Interner;
use std::alloc::Global;
use std::ops::Range;
use std::process::Abort;
use tests_support::refusing::Refusing;
use utf16string::{BE, LE, Utf16Order, WString};

// An ASCII letter, a character of the CJK block, and an emoji.
const LETTERS: [char; 3] = ['a', '\u{4E00}', '\u{1F600}'];

const LONG: usize = 100_000;

// Returns a name that has one character `count` times.
fn repeated<E: Utf16Order>(rt: &(impl Abort + AllocGlobal), c: char, count: usize) -> WString<E> {
    let mut name = WString::new(rt.alloc());
    for _ in 0..count {
        name.push(c).expect(rt, "memory");
    }
    name
}

// Returns the size of the block that is requested to grow one of `room` bytes so that it holds
// `bytes`: 0 if they already fit.
fn grown(room: usize, bytes: usize, least: usize) -> usize {
    if bytes <= room {
        0
    } else {
        room.saturating_mul(2).max(bytes).max(least)
    }
}

// Adds names of one character, of each of these lengths, to one table. Each requests at most three
// blocks: one for the text of all names, and two for a number of eight bytes for each. A name that
// is added again requests none.
fn come_in<E: Utf16Order>(rt: &(impl Abort + AllocGlobal), c: char, lengths: Range<usize>) {
    let heap = Refusing::<Global>::new(rt.alloc());
    let mut table = Interner::<E, &Refusing<Global>>::new(&heap).expect(rt, "a clone");
    let (mut bytes, mut text_room, mut number_room) = (0_usize, 0_usize, 0_usize);
    for count in lengths {
        let name = repeated::<E>(rt, c, count);
        bytes = bytes.saturating_add(name.len());
        heap.refuse_none();
        let number = table.len();
        equal(rt, table.intern(name.as_wstr()), Ok(number));
        let text = grown(text_room, bytes, 8);
        let numbers = grown(number_room, table.len().saturating_mul(8), 32);
        let most = numbers.saturating_mul(2).saturating_add(text) as u64;
        holds(rt, heap.requested_bytes() <= most && heap.requests() <= 3);
        (text_room, number_room) = (text_room.max(text), number_room.max(numbers));
        heap.refuse_none();
        holds(rt, table.intern(name.as_wstr()).is_ok());
        equal(rt, (heap.requests(), heap.requested_bytes()), (0, 0));
    }
}

fn at_each_length<E: Utf16Order>(rt: &(impl Abort + AllocGlobal)) {
    for c in LETTERS {
        for count in 0..65 {
            come_in::<E>(rt, c, count..count.saturating_add(1));
        }
        come_in::<E>(rt, c, LONG..LONG.saturating_add(1));
        come_in::<E>(rt, c, 0..65);
    }
}

// A bug that no clause excludes: a name requests capacity for two names of its length, or a known
// name requests capacity for one more.
#[test]
fn a_name_requests_what_it_takes(rt: HostRuntime) {
    at_each_length::<LE>(&rt);
    at_each_length::<BE>(&rt);
}
