//! Callers that iterate over a text from either end. The loop needs an invariant of one line; the
//! other functions are proved without a proof file.

ghost use Rattle.std.specs.Prelude.{◌≡◌, ◌≢◌, ◌==◌, ◌↔◌, ◌<◌, ℕ, All, IfNone, IfOk, IfSome, IsTrue, Some, count_by, encode_utf8_all, reverse, slice_get, slice_index, string_bytes, length};
ghost use Rattle.std.specs.List.{AllWithin};
ghost use Rattle.utf16string.specs.Offsets.{char_offsets};
ghost use Rattle.utf16string.specs.WStr.{wstr_text};

use std::alloc::{AllocError, Global};
use utf16string::{Utf16Order, WStr};

/// Returns the characters of a text.
pub fn collect_chars<E: Utf16Order>(alloc: Global, text: WStr<E>) -> Result<Vec<char>, AllocError>
    ensures { IfOk result (λ found. found.items ≡ wstr_text text.entry) }
{
    text.chars().collect(alloc)
}

/// Returns the characters of a text in reverse order.
pub fn collect_reversed<E: Utf16Order>(
    alloc: Global,
    text: WStr<E>,
) -> Result<Vec<char>, AllocError>
    ensures { IfOk result (λ found. found.items ≡ reverse (wstr_text text.entry)) }
{
    text.chars().rev().collect(alloc)
}

/// Returns the number of characters before the first that is equal to `wanted`, or `None` if there
/// is none.
pub fn place_of<E: Utf16Order>(text: WStr<E>, wanted: char) -> Option<usize>
    ensures none { IfNone result (All (λ c. c ≢ wanted) (wstr_text text.entry)) }
    ensures some { IfSome result (λ i. slice_get (wstr_text text.entry) i ≡ Some wanted) }
    ensures first { IfSome result (AllWithin (λ c. c ≢ wanted) (wstr_text text.entry) 0) }
{
    text.chars().position(|c| c == wanted)
}

/// Returns the number of characters that are equal to `wanted`.
pub fn count_of<E: Utf16Order>(text: WStr<E>, wanted: char) -> usize
    ensures { result ≡ count_by (λ c. c == wanted) (wstr_text text.entry) }
{
    text.chars().filter(|c| *c == wanted).count()
}

/// Returns whether two texts have the same characters, up to the length of the shorter one.
pub fn agree<E: Utf16Order>(first: WStr<E>, second: WStr<E>) -> bool
    ensures { IsTrue result ↔ ((k : ℕ) → k < length (wstr_text first.entry)
        → k < length (wstr_text second.entry)
        → slice_index (wstr_text first.entry) k ≡ slice_index (wstr_text second.entry) k) }
{
    first.chars().zip(second.chars()).all(|(a, b)| a == b)
}

/// Returns each character with its offset.
pub fn collect_indices<E: Utf16Order>(
    alloc: Global,
    text: WStr<E>,
) -> Result<Vec<(usize, char)>, AllocError>
    ensures { IfOk result (λ found. found.items ≡ char_offsets 0 (wstr_text text.entry)) }
{
    text.char_indices().collect(alloc)
}

/// Returns each character with its offset, in reverse order.
pub fn collect_indices_back<E: Utf16Order>(
    alloc: Global,
    text: WStr<E>,
) -> Result<Vec<(usize, char)>, AllocError>
    ensures { IfOk result (λ found.
        found.items ≡ reverse (char_offsets 0 (wstr_text text.entry))) }
{
    text.char_indices().rev().collect(alloc)
}

/// Returns the characters of a text, with a loop.
pub fn collect_by_loop<E: Utf16Order>(alloc: Global, text: WStr<E>) -> Result<Vec<char>, AllocError>
    ensures { IfOk result (λ found. found.items ≡ wstr_text text.entry) }
{
    let mut found = Vec::new(alloc);
    for c in text.chars() {
        found.push(c)?;
    }
    Ok(found)
}

/// Returns the text as `{}` formats it.
pub fn shown<E: Utf16Order>(alloc: Global, text: WStr<E>) -> Result<String, AllocError>
    ensures { IfOk result (λ utf8. string_bytes utf8 ≡ encode_utf8_all (wstr_text text.entry)) }
{
    format!(in alloc; "{text}")
}
