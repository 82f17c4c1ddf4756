//! Parts of a text, split at boundaries that a call or a law gives.

ghost use Rattle.std.specs.Prelude.{◌≡◌, ◌≢◌, ◌==◌, ◌↔◌, ◌++◌, ◌+◌, ◌≤◌, [], ◌∷◌, ℕ, All, IfNone, IfOk, IfSome, IsNone, IsSome, IsTrue, OnErr, OnOk, chars, drop, length, map, option_map, slice_get, take};
ghost use Rattle.std.specs.List.{slice_split};
ghost use Rattle.utf16_units.specs.Boundary.{IsBoundary, text_between, text_from, text_to};
ghost use Rattle.utf16_units.specs.Delimited.{Lacks};
ghost use Rattle.utf16_units.specs.Encoding.{Encodes, size};
ghost use Rattle.utf16string.specs.Offsets.{char_offsets};
ghost use Rattle.utf16string.specs.Substrings.{LieAt, offsets_from};
ghost use Rattle.utf16string.specs.WStr.{wstr_bytes, wstr_text};
ghost use Rattle.utf16string.specs.WString.{wstring_text};

use std::alloc::{AllocError, Allocator};
use utf16_units::Utf16CharExt;
use utf16string::{Utf16Order, WStr, WString};

/// Returns the substring at the whole range.
#[tactic(auto, using(utf16_units::proofs::Rules::boundaries))]
pub fn whole<'a, E: Utf16Order>(text: WStr<'a, E>) -> WStr<'a, E>
    ensures text { wstr_text result ≡ wstr_text text.entry }
    ensures bytes { wstr_bytes result ≡ wstr_bytes text.entry }
{
    text.index(..)
}

/// Returns the parts before and after a boundary.
#[tactic(auto, using(utf16_units::proofs::Rules::boundaries))]
pub fn halves<'a, E: Utf16Order>(text: WStr<'a, E>, at: usize) -> Option<(WStr<'a, E>, WStr<'a, E>)>
    ensures some { IsSome result ↔ IsBoundary (wstr_text text.entry) at }
    ensures front { IfSome result (λ parts.
        wstr_text parts.0 ≡ text_to (wstr_text text.entry) at) }
    ensures back { IfSome result (λ parts.
        wstr_text parts.1 ≡ text_from (wstr_text text.entry) at) }
    ensures joined { IfSome result (λ parts. wstr_text parts.0 ++ wstr_text parts.1
        ≡ wstr_text text.entry) }
    ensures sizes { IfSome result (λ parts. (length (wstr_bytes parts.0) ≡ at)
        × (at + length (wstr_bytes parts.1) ≡ length (wstr_bytes text.entry))) }
    ensures bytes { IfSome result (λ parts. (wstr_bytes parts.0 ≡ take at (wstr_bytes text.entry))
        × (wstr_bytes parts.1 ≡ drop at (wstr_bytes text.entry))) }
{
    Some((text.get(..at)?, text.get(at..)?))
}

/// Returns the parts before and after the first occurrence of a character, or `None` if it does not
/// occur.
#[tactic(auto, using(utf16_units::proofs::Rules::boundaries))]
pub fn around<'a, E: Utf16Order>(
    text: WStr<'a, E>,
    wanted: char,
) -> Option<(WStr<'a, E>, WStr<'a, E>)>
    ensures some { IfSome result (λ parts.
        wstr_text text.entry ≡ wstr_text parts.0 ++ wanted ∷ wstr_text parts.1) }
    ensures none { IfNone result (All (λ at. at.1 ≢ wanted)
        (char_offsets 0 (wstr_text text.entry))) }
{
    let (at, c) = text.char_indices().find(|at| at.1 == wanted)?;
    Some((text.index(..at), text.index(at + c.encoded_utf16_len()..)))
}

/// Returns the key before the first '=' of a line and the value after it, or `None` if the line has
/// no '='.
pub fn key_and_value<'a, E: Utf16Order>(line: WStr<'a, E>) -> Option<(WStr<'a, E>, WStr<'a, E>)>
    ensures none { IsNone result ↔ Lacks 61 (wstr_text line.entry) }
    ensures joined { IfSome result (λ parts. wstr_text parts.0 ++ 61 ∷ wstr_text parts.1
        ≡ wstr_text line.entry) }
    ensures key { IfSome result (λ parts. Lacks 61 (wstr_text parts.0)) }
    ensures bytes { IfSome result (λ parts.
        wstr_bytes parts.0 ≡ take (size (wstr_text parts.0)) (wstr_bytes line.entry)) }
{
    line.split_once('=')
}

/// Appends a name to a table, and returns the offsets at which it starts and ends. The names before
/// it are unchanged.
#[tactic(auto, using(utf16_units::proofs::Rules::behind))]
pub fn put<E: Utf16Order, A: Allocator>(
    table: &mut WString<E, A>,
    name: WStr<E>,
) -> Result<(usize, usize), AllocError>
    ensures text { OnOk result (wstring_text table.new ≡ wstring_text table.old
        ++ wstr_text name.entry) }
    ensures err { OnErr result (wstring_text table.new ≡ wstring_text table.old) }
    ensures start { IfOk result (λ at. IsBoundary (wstring_text table.new) at.0) }
    ensures end { IfOk result (λ at. IsBoundary (wstring_text table.new) at.1) }
    ensures ordered { IfOk result (λ at. at.0 ≤ at.1) }
    ensures there { IfOk result (λ at. text_between (wstring_text table.new) at.0 at.1
        ≡ wstr_text name.entry) }
    ensures boundaries_before { OnOk result ((i j : ℕ) → i ≤ j → IsBoundary (wstring_text table.old) i
        → IsBoundary (wstring_text table.old) j → text_between (wstring_text table.new) i j
        ≡ text_between (wstring_text table.old) i j) }
    ensures boundaries_after { OnOk result ((i : ℕ) → IsBoundary (wstring_text table.old) i
        → IsBoundary (wstring_text table.new) i) }
{
    let start = table.len();
    table.push_wstr(name)?;
    Ok((start, table.len()))
}

/// Returns the string made from the bytes that `into_bytes` returned for a string.
#[tactic(auto, using(utf16_units::proofs::Rules::texts))]
pub fn reopen<E: Utf16Order, A: Allocator>(text: WString<E, A>) -> WString<E, A>
    ensures { wstring_text result ≡ wstring_text text }
{
    WString::from_utf16_unchecked(text.into_bytes())
}

/// Returns a text as a view of bytes that encode it.
#[tactic(auto, using(utf16_units::proofs::Rules::texts))]
pub fn view<'a, E: Utf16Order>(name: WStr<'_, E>, raw: &'a [u8]) -> WStr<'a, E>
    requires { Encodes E.BIG (wstr_text name) raw.now }
    ensures text { wstr_text result ≡ wstr_text name.entry }
    ensures bytes { wstr_bytes result ≡ wstr_bytes name.entry }
    ensures long { length raw.now ≡ length (wstr_bytes name.entry) }
{
    WStr::from_utf16_unchecked(raw)
}

/// Returns the parts before and after an offset. Joined, they are the text; each has the bytes on
/// its side.
pub fn split_in_two<'a, E: Utf16Order>(
    text: WStr<'a, E>,
    at: usize,
) -> Option<(WStr<'a, E>, WStr<'a, E>)>
    ensures some { IsSome result ↔ IsBoundary (wstr_text text.entry) at }
    ensures joined { IfSome result (λ parts. wstr_text parts.0 ++ wstr_text parts.1
        ≡ wstr_text text.entry) }
    ensures bytes { IfSome result (λ parts. (wstr_bytes parts.0 ≡ take at (wstr_bytes text.entry))
        × (wstr_bytes parts.1 ≡ drop at (wstr_bytes text.entry))) }
{
    if text.is_char_boundary(at) {
        Some(text.split_at(at))
    } else {
        text.split_at_checked(at)
    }
}

/// Returns what follows the first character: the characters at the remaining offsets.
pub fn after_first<'a, E: Utf16Order>(text: WStr<'a, E>) -> Option<WStr<'a, E>>
    ensures none { IfNone result (char_offsets 0 (wstr_text text.entry) ≡ []) }
    ensures some { IfSome result (λ _. char_offsets 0 (wstr_text text.entry) ≢ []) }
    ensures tail_text { IfSome result (λ rest.
        wstr_text rest ≡ map (λ at. at.1) (drop 1 (char_offsets 0 (wstr_text text.entry)))) }
{
    let mut chars = text.char_indices();
    chars.next()?;
    Some(chars.as_wstr())
}

/// Returns whether a text is equal to a name that a table stores in UTF-8.
pub fn is_name<E: Utf16Order>(text: WStr<E>, name: &str) -> bool
    ensures { IsTrue result ↔ (wstr_text text.entry ≡ chars name.now) }
{
    text.eq_str(name)
}

/// Returns the fields of a line, separated by commas. Each is a window of the line's bytes.
pub fn fields<'a, E: Utf16Order, A: Allocator>(
    alloc: A,
    line: WStr<'a, E>,
) -> Result<Vec<WStr<'a, E>, A>, AllocError>
    ensures texts { IfOk result (λ fields.
        map wstr_text fields.items ≡ slice_split (λ c. c == 44) (wstr_text line.entry)) }
    ensures within { IfOk result (λ fields. LieAt line.entry (offsets_from 2 0
        (slice_split (λ c. c == 44) (wstr_text line.entry))) fields.items) }
{
    line.split(',').collect(alloc)
}

/// Returns the field with a number, counted from 0.
pub fn field<'a, E: Utf16Order>(line: WStr<'a, E>, number: usize) -> Option<WStr<'a, E>>
    ensures { option_map wstr_text result
        ≡ slice_get (slice_split (λ c. c == 44) (wstr_text line.entry)) number }
{
    line.split(',').nth(number)
}

/// Returns the number of fields of a line.
pub fn fields_in<E: Utf16Order>(line: WStr<E>) -> usize
    ensures { result ≡ length (slice_split (λ c. c == 44) (wstr_text line.entry)) }
{
    line.split(',').count()
}
