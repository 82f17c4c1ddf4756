//! Calls on any bytes and an offset, or on two texts of any bytes.

use std::cmp::Ordering;
use tests_support::Run;
use utf16_bytes::{
    compare, floor_char_boundary, floor_char_boundary_around, is_char_boundary, shard_offset,
    swap_byte_order,
};
use utf16_units::{BE, LE, Utf16Order};

/// Makes a call with an offset, or one that compares.
pub fn call<E: Utf16Order>(run: &mut Run, name: &str) -> bool {
    match name {
        "bytes::compare" => compared::<E>(run),
        "shard_offset" => shard(run),
        _ => match OffsetCall::named(name) {
            Some(call) => at::<E>(run, call),
            None => return false,
        },
    }
    true
}

// A call on bytes of UTF-16 or of UTF-8, and an offset in them.
#[derive(Clone, Copy)]
enum OffsetCall {
    IsCharBoundary,
    FloorCharBoundary,
    FloorCharBoundaryAround,
    IsUtf8Boundary,
    FloorUtf8Boundary,
}

impl OffsetCall {
    // Returns the call of this name.
    fn named(name: &str) -> Option<Self> {
        match name {
            "bytes::is_char_boundary" => Some(OffsetCall::IsCharBoundary),
            "bytes::floor_char_boundary" => Some(OffsetCall::FloorCharBoundary),
            "bytes::floor_char_boundary_around" => Some(OffsetCall::FloorCharBoundaryAround),
            "utf8::is_char_boundary" => Some(OffsetCall::IsUtf8Boundary),
            "utf8::floor_char_boundary" => Some(OffsetCall::FloorUtf8Boundary),
            _ => None,
        }
    }
}

fn at<E: Utf16Order>(run: &mut Run, call: OffsetCall) {
    let bytes = run.bytes();
    let at = run.number();
    let answer = &mut run.answer;
    match call {
        OffsetCall::IsCharBoundary => answer.truth(is_char_boundary::<E>(&bytes, at)),
        OffsetCall::FloorCharBoundary => answer.number(floor_char_boundary::<E>(&bytes, at)),
        OffsetCall::FloorCharBoundaryAround => {
            answer.number(floor_char_boundary_around::<E>(&bytes, at as u64) as usize);
        }
        OffsetCall::IsUtf8Boundary => answer.truth(utf8_bytes::is_char_boundary(&bytes, at)),
        OffsetCall::FloorUtf8Boundary => answer.number(utf8_bytes::floor_char_boundary(&bytes, at)),
    }
}

fn shard(run: &mut Run) {
    let len = run.number() as u64;
    let count = run.number() as u64;
    let index = run.number() as u64;
    run.answer.number(shard_offset(len, count, index) as usize);
}

// Adds how two texts compare, and `differs` if the result is another one with the second text in
// the other byte order.
fn compared<E: Utf16Order>(run: &mut Run) {
    let first = run.bytes();
    let mut second = run.bytes();
    let order = compare::<E, E>(&first, &second);
    run.answer.word(word(order));
    swap_byte_order(second.as_mut_slice());
    let swapped = if E::BIG {
        compare::<E, LE>(&first, &second)
    } else {
        compare::<E, BE>(&first, &second)
    };
    if swapped != order {
        run.answer.word("differs");
    }
}

/// Returns the word for an ordering.
pub fn word(order: Ordering) -> &'static str {
    match order {
        Ordering::Less => "less",
        Ordering::Equal => "equal",
        Ordering::Greater => "greater",
    }
}
