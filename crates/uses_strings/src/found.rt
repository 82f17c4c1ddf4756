//! Callers of the searches of a view, and of the calls that split it or take something off its
//! ends: with a text, and with a character.

ghost use Rattle.std.specs.Prelude.{◌≡◌, ◌↔◌, ◌++◌, ◌∷◌, [], IfOk, IfSome, IsSome, IsTrue, List, map, ℕ};
ghost use Rattle.std.specs.Str.{drop_trailing_whitespace, skip_leading_whitespace};
ghost use Rattle.std.specs.Str.Lines.{lines};
ghost use Rattle.utf16string.specs.Boundary.{OccursIn};
ghost use Rattle.utf16string.specs.Occurrence.{IsFirst, IsLast};
ghost use Rattle.utf16string.specs.Substrings.{words};
ghost use Rattle.utf16string.specs.WStr.{wstr_text};

use std::alloc::{AllocError, Allocator};
use utf16string::{Utf16Order, WStr};

/// Returns the offset of the first occurrence of a text.
pub fn find_text<E: Utf16Order>(text: WStr<E>, part: WStr<E>) -> Option<usize>
    ensures { IsFirst (λ at. OccursIn (wstr_text text.entry) at (wstr_text part.entry)) result }
{
    text.find(part)
}

/// Returns the offset of the last occurrence of a character.
pub fn rfind_char<E: Utf16Order>(text: WStr<E>, c: char) -> Option<usize>
    ensures { IsLast (λ at. OccursIn (wstr_text text.entry) at (c ∷ [])) result }
{
    text.rfind(c)
}

/// Returns whether a text has another.
pub fn has_text<E: Utf16Order>(text: WStr<E>, part: WStr<E>) -> bool
    ensures { IsTrue result ↔ ((front : List ℕ) × (back : List ℕ)
        × (wstr_text text.entry ≡ front ++ wstr_text part.entry ++ back)) }
{
    text.contains(part)
}

/// Returns whether a text begins with another.
pub fn begins_with<E: Utf16Order>(text: WStr<E>, prefix: WStr<E>) -> bool
    ensures { IsTrue result ↔ ((rest : List ℕ)
        × (wstr_text text.entry ≡ wstr_text prefix.entry ++ rest)) }
{
    text.starts_with(prefix)
}

/// Returns whether a text ends with a character.
pub fn ends_with_char<E: Utf16Order>(text: WStr<E>, c: char) -> bool
    ensures { IsTrue result ↔ ((front : List ℕ) × (wstr_text text.entry ≡ front ++ c ∷ [])) }
{
    text.ends_with(c)
}

/// Returns the text after a prefix, if there is one.
pub fn without_prefix<'a, E: Utf16Order>(text: WStr<'a, E>, prefix: WStr<E>) -> Option<WStr<'a, E>>
    ensures some { IsSome result ↔ ((rest : List ℕ)
        × (wstr_text text.entry ≡ wstr_text prefix.entry ++ rest)) }
    ensures text { IfSome result (λ rest.
        wstr_text text.entry ≡ wstr_text prefix.entry ++ wstr_text rest) }
{
    text.strip_prefix(prefix)
}

/// Returns the text before a last character, if it is this one.
pub fn without_last<'a, E: Utf16Order>(text: WStr<'a, E>, c: char) -> Option<WStr<'a, E>>
    ensures { IfSome result (λ front. wstr_text text.entry ≡ wstr_text front ++ c ∷ []) }
{
    text.strip_suffix(c)
}

/// Returns the text without the white space at its ends.
pub fn trimmed<'a, E: Utf16Order>(text: WStr<'a, E>) -> WStr<'a, E>
    ensures { wstr_text result
        ≡ drop_trailing_whitespace (skip_leading_whitespace (wstr_text text.entry)) }
{
    text.trim()
}

/// Collects the lines of a text.
pub fn lines_of<'a, E: Utf16Order, A: Allocator>(
    alloc: A,
    text: WStr<'a, E>,
) -> Result<Vec<WStr<'a, E>, A>, AllocError>
    ensures { IfOk result (λ found. map wstr_text found.items ≡ lines (wstr_text text.entry)) }
{
    text.lines().collect(alloc)
}

/// Collects the words of a text.
pub fn words_of<'a, E: Utf16Order, A: Allocator>(
    alloc: A,
    text: WStr<'a, E>,
) -> Result<Vec<WStr<'a, E>, A>, AllocError>
    ensures { IfOk result (λ found. map wstr_text found.items ≡ words (wstr_text text.entry)) }
{
    text.split_whitespace().collect(alloc)
}
