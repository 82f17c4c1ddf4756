//! A range that a user defines, and code that takes any range.

ghost use Rattle.std.specs.Prelude.{◌↔◌, ◌≡◌, ◌+◌, ◌^◌, Some, None, IfOk, IfSome, IsSome, length, nat_lt, if◌then◌else◌, encode_utf8_all, string_bytes};
ghost use Rattle.utf16string.specs.Window.{IsWindowOf, window_text};
ghost use Rattle.utf16string.specs.WStr.{wstr_bytes, wstr_text};

use std::alloc::{AllocError, Allocator};
use utf16string::{SliceIndex, Utf16Order, WStr};

/// A field of a record: `len` bytes starting at offset `start`.
#[derive(Clone, Copy, Debug)]
pub struct Field {
    pub start: usize,
    pub len: usize,
}

impl<E: Utf16Order> SliceIndex<E> for Field {
    ghost window = { λ field _. if nat_lt (field.start + field.len) (2 ^ 64)
        then Some (field.start, field.start + field.len) else None };

    fn window(self, _len: usize) -> Option<(usize, usize)> {
        let end = self.start.checked_add(self.len)?;
        Some((self.start, end))
    }
}

/// Returns the UTF-8 of the substring in any range, or `None` if the range is not valid.
pub fn part_to_utf8<E: Utf16Order, I: SliceIndex<E>, A: Allocator>(
    alloc: A,
    text: WStr<E>,
    part: I,
) -> Result<Option<String<A>>, AllocError>
    ensures some { IfOk result (λ found. IsSome found
        ↔ IsWindowOf (wstr_text text.entry) (I.window part (length (wstr_bytes text.entry)))) }
    ensures utf8 { IfOk result (λ found.
        IfSome found (λ utf8.
        string_bytes utf8
        ≡ encode_utf8_all
        (window_text (wstr_text text.entry) (I.window part (length (wstr_bytes text.entry)))))) }
{
    match text.get(part) {
        Some(part) => Ok(Some(part.to_utf8(alloc)?)),
        None => Ok(None),
    }
}
