//! Strings made from views in another byte order, and from characters.

ghost use Rattle.std.specs.Prelude.{◌≡◌, ◌==◌, ◌≤◌, [], ◌++◌, List, ℕ, IfOk, IsOk, OnErr, OnOk, reverse, take};
ghost use Rattle.std.specs.List.{flat_map, slice_split};
ghost use Rattle.utf16_units.specs.Edit.{push_text};
ghost use Rattle.utf16string.specs.Encoding.{Encodes};
ghost use Rattle.utf16string.specs.WStr.{wstr_text};
ghost use Rattle.utf16string.specs.WString.{wstring_bytes, wstring_capacity, wstring_text};

use std::alloc::{AllocError, Allocator};
use utf16string::{Utf16Order, WStr, WString};

/// Returns a copy of a text in the byte order `F`. Allocates once, and not at all for the empty
/// text.
pub fn in_order<E: Utf16Order, F: Utf16Order, A: Allocator>(
    alloc: A,
    text: WStr<E>,
) -> Result<WString<F, A>, AllocError>
    ensures text { IfOk result (λ s. wstring_text s ≡ wstr_text text.entry) }
    ensures bytes { IfOk result (λ s. Encodes F.BIG (wstr_text text.entry) (wstring_bytes s)) }
    ensures nothing { wstr_text text.entry ≡ [] → IsOk result }
{
    let copy = WString::from_wstr(alloc, text)?;
    Ok(copy.into_byte_order())
}

/// Returns the characters of a text in reverse order.
pub fn reverse<E: Utf16Order, A: Allocator>(
    alloc: A,
    text: WStr<E>,
) -> Result<WString<E, A>, AllocError>
    ensures { IfOk result (λ s. wstring_text s ≡ reverse (wstr_text text.entry)) }
{
    text.chars().rev().collect(alloc)
}

/// Appends the characters of a view, which may be in another byte order. If allocation fails, a
/// prefix of them is appended.
pub fn push_any<E: Utf16Order, F: Utf16Order, A: Allocator>(
    string: &mut WString<E, A>,
    text: WStr<F>,
) -> Result<(), AllocError>
    ensures text { OnOk result (wstring_text string.new
        ≡ push_text (wstring_text string.old) (wstr_text text.entry)) }
    ensures err { OnErr result ((front rest : List ℕ) × (wstr_text text.entry ≡ front ++ rest)
        × (wstring_text string.new ≡ push_text (wstring_text string.old) front)) }
{
    string.extend(text.chars())
}

/// Appends the fields of a line, without the commas. If allocation fails, the fields before one
/// that did not fit are appended, and the capacity is at least what it was.
pub fn push_fields<E: Utf16Order, A: Allocator>(
    string: &mut WString<E, A>,
    line: WStr<E>,
) -> Result<(), AllocError>
    ensures text { OnOk result (wstring_text string.new ≡ push_text (wstring_text string.old)
        (flat_map (λ field. field) (slice_split (λ c. c == 44) (wstr_text line.entry)))) }
    ensures err { OnErr result ((n : ℕ) × (wstring_text string.new
        ≡ push_text (wstring_text string.old) (flat_map (λ field. field)
        (take n (slice_split (λ c. c == 44) (wstr_text line.entry)))))) }
    ensures stays { wstring_bytes string.new ≡ wstring_bytes string.old
        → wstring_capacity string.new ≡ wstring_capacity string.old }
    ensures grows { wstring_capacity string.old ≤ wstring_capacity string.new }
{
    Extend::extend(string, line.split(','))
}

/// Returns a text without commas. An empty result takes no memory.
pub fn without_commas<E: Utf16Order, A: Allocator>(
    alloc: A,
    text: WStr<E>,
) -> Result<WString<E, A>, AllocError>
    ensures { IfOk result (λ s. wstring_bytes s ≡ [] → wstring_capacity s ≡ 0) }
{
    FromIterator::from_iter(alloc, text.split(','))
}
