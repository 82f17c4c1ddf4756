//! Calls of strings at the middle and at the end of a text, with counts other than one, and on
//! strings with much spare capacity.

use crate::memory::calls::{Call, Heap, Held, Text};
use crate::memory::strings::first_of;
use std::alloc::AllocError;
use utf16string::Utf16Order;

// A capacity that no text needs, so that much of it is spare.
const MUCH: usize = 0x10_0000;

/// Makes a call that puts a text in after the start or reserves an odd number of bytes, or returns
/// `None` if it is another call.
pub fn put_inside<'a, E: Utf16Order>(
    call: Call,
    text: &Text<E>,
    held: &mut Held<'a, E>,
) -> Option<Result<(), AllocError>> {
    let string = &mut held.utf16;
    let at = middle(text).min(string.len());
    let end = string.len();
    Some(match call {
        Call::InsertStrInside if string.is_char_boundary(at) => {
            string.insert_str(at, text.utf8.as_str())
        }
        Call::ReplaceRangeInside if string.get(at..at).is_some() => {
            string.replace_range(at..at, text.utf16.as_wstr())
        }
        Call::ReplaceRangeAtEnd if string.get(end..).is_some() => {
            string.replace_range(end.., text.utf16.as_wstr())
        }
        Call::ReserveCount => string.reserve(text.count),
        Call::ReserveExactCount => string.reserve_exact(text.count),
        _ => return None,
    })
}

/// Makes a call that returns a new string, or returns `None` if it is another call. The string that
/// is held has the text.
pub fn copied_inside<'a, E: Utf16Order>(
    heap: Heap<'a>,
    call: Call,
    text: &Text<E>,
    held: &mut Held<'a, E>,
) -> Option<Result<(), AllocError>> {
    let string = &mut held.utf16;
    let view = text.utf16.as_wstr();
    let at = middle(text).min(string.len());
    let made = match call {
        Call::ReplacenSeven => string.replacen(heap, text.first, first_of(text), 7),
        Call::ReplacenCount => string.replacen(heap, text.first, first_of(text), text.count),
        Call::ReplaceText => string.replace(heap, view, view),
        Call::RepeatCount => text.letter.repeat(heap, text.count),
        Call::DrainInside if string.get(at..).is_some() => string.drain(at..),
        _ => return None,
    };
    Some(match made {
        Ok(_) => Ok(()),
        Err(error) => Err(error),
    })
}

/// Shrinks a string with much spare capacity, or returns `None` if it is another call. The heap's
/// counts are those of the shrinking.
pub fn shrunk<'a, E: Utf16Order>(
    heap: Heap<'a>,
    call: Call,
    text: &Text<E>,
    held: &mut Held<'a, E>,
) -> Option<Result<(), AllocError>> {
    if !matches!(call, Call::ShrinkToFitMuch | Call::ShrinkToMuch) {
        return None;
    }
    let string = &mut held.utf16;
    if let Err(error) = string.reserve(MUCH) {
        return Some(Err(error));
    }
    heap.refuse_none();
    Some(match call {
        Call::ShrinkToMuch => string.shrink_to(text.utf16.len().saturating_mul(2)),
        _ => string.shrink_to_fit(),
    })
}

// Returns the offset after half of the times that a text has its characters, if each of them takes
// as many bytes as the first.
fn middle<E: Utf16Order>(text: &Text<E>) -> usize {
    (text.count / 2)
        .saturating_mul(text.first.len_utf16())
        .saturating_mul(2)
}
