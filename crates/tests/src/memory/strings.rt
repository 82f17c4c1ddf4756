//! Calls of strings that take texts, ranges or iterators of texts, and allocate.

use crate::memory::calls::{Call, Heap, Held, Text};
use std::alloc::AllocError;
use std::fmt::Write;
use utf16string::{Utf16Order, WStr, WString};

/// Makes a call that appends texts or puts one in, or returns `None` if it is another call.
pub fn put<'a, E: Utf16Order>(
    call: Call,
    text: &Text<E>,
    held: &mut Held<'a, E>,
) -> Option<Result<(), AllocError>> {
    let string = &mut held.utf16;
    Some(match call {
        Call::InsertStr if string.is_char_boundary(0) => {
            string.insert_str(0, text.utf8.as_str())
        }
        Call::ReplaceRange if string.get(..0).is_some() => {
            string.replace_range(..0, text.utf16.as_wstr())
        }
        Call::ExtendViews => Extend::extend(string, text.utf16.as_wstr().matches(text.first)),
        Call::ExtendStrs => Extend::extend(string, text.utf8.as_str().matches(text.first)),
        Call::WriteStr => string.write_str(text.utf8.as_str()).map_err(|_| AllocError),
        Call::ReserveExact => string.reserve_exact(text.utf16.len()),
        _ => return None,
    })
}

/// Makes a call that returns a new string, or returns `None` if it is another call. The string that
/// is held has the text.
pub fn copied<'a, E: Utf16Order>(
    heap: Heap<'a>,
    call: Call,
    text: &Text<E>,
    held: &mut Held<'a, E>,
) -> Option<Result<(), AllocError>> {
    let string = &mut held.utf16;
    let view = text.utf16.as_wstr();
    let made = match call {
        Call::CollectViews => view.matches(text.first).collect(heap),
        Call::CollectStrs => text.utf8.as_str().matches(text.first).collect(heap),
        Call::Replace => string.replace(heap, text.first, first_of(text)),
        Call::Replacen => string.replacen(heap, text.first, view, 1),
        Call::Repeat => string.repeat(heap, 2),
        Call::Drain if string.get(..).is_some() => string.drain(..),
        Call::CloneByTrait => Clone::clone(string),
        _ => return None,
    };
    Some(match made {
        Ok(_) => Ok(()),
        Err(error) => Err(error),
    })
}

/// Returns the first character of a text as a view.
pub fn first_of<E: Utf16Order>(text: &Text<E>) -> WStr<'_, E> {
    let view = text.utf16.as_wstr();
    match view.matches(text.first).next() {
        Some(first) => first,
        None => view,
    }
}
