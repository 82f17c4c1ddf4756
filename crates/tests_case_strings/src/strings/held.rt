//! The strings of a case, and what the result says about them.

use std::alloc::{AllocError, Allocator, Global};
use tests_support::refusing::Refusing;
use tests_support::{Run, Trouble};
use utf16string::{Utf16Order, WStr, WString};

/// The allocator of a case's strings.
pub type Heap<'a> = &'a Refusing<Global>;

/// Takes a string of these bytes, with the capacity that the case says.
pub fn string<'a, E: Utf16Order>(run: &mut Run<'a>) -> WString<E, Heap<'a>> {
    let raw = run.bytes();
    let found = match WStr::<E>::from_utf16(&raw) {
        Ok(text) => copy(run.heap, run.how.room.max(text.len()), text),
        Err(_) => Err(Trouble::Value),
    };
    match found {
        Ok(string) => string,
        Err(trouble) => {
            run.refuse(trouble);
            WString::new(run.heap)
        }
    }
}

fn copy<'a, E: Utf16Order>(
    heap: Heap<'a>,
    room: usize,
    text: WStr<E>,
) -> Result<WString<E, Heap<'a>>, Trouble> {
    let mut string = WString::with_capacity(heap, room)?;
    string.push_wstr(text)?;
    Ok(string)
}

/// Takes a text that is appended or inserted, in separate memory and with no spare capacity.
pub fn part<E: Utf16Order>(run: &mut Run) -> WString<E> {
    match WString::from_utf16(run.bytes()) {
        Ok(text) => text,
        Err(_) => {
            run.refuse(Trouble::Value);
            WString::new(run.alloc)
        }
    }
}

/// Adds the bytes of a string that was made or is left, and its capacity and the number of
/// allocations if the case wants them.
pub fn left<E: Utf16Order, A: Allocator>(run: &mut Run, string: &WString<E, A>) {
    run.answer.bytes(string.as_bytes());
    if run.how.capacity {
        run.answer.word("capacity");
        run.answer.number(string.capacity());
    }
    run.requests();
}

/// Adds a string that was made, or that an allocation failed.
pub fn made<E: Utf16Order>(run: &mut Run, made: Result<WString<E, Heap>, AllocError>) {
    match made {
        Ok(string) => left(run, &string),
        Err(_) => refused(run),
    }
}

/// Adds that an allocation failed.
pub fn refused(run: &mut Run) {
    run.done(false);
    run.requests();
}
