//! Callers that pass a predicate over characters, and one that parses a text.

ghost use Rattle.std.specs.Prelude.{◌≡◌, ◌==◌, ◌||◌, IfOk, IfSome, encode_utf8_all, length, map, nat_lt, not, reverse};
ghost use Rattle.std.specs.List.{slice_split};
ghost use Rattle.std.specs.Str.Parse.{digits_value, without_leading_plus};
ghost use Rattle.utf16string.specs.AsciiWords.{ascii_words};
ghost use Rattle.utf16string.specs.Predicates.{IsFirstWith, IsTrimmedWith};
ghost use Rattle.utf16string.specs.WStr.{wstr_text};

use std::alloc::{AllocError, Allocator};
use utf16string::{Utf16Order, WStr};

/// Collects the items of a list, separated by commas and semicolons.
pub fn items_of<'a, E: Utf16Order, A: Allocator>(
    alloc: A,
    list: WStr<'a, E>,
) -> Result<Vec<WStr<'a, E>, A>, AllocError>
    ensures { IfOk result (λ items. map wstr_text items.items
        ≡ slice_split (λ c. (c == 44) || (c == 59)) (wstr_text list.entry)) }
{
    list.split_with(|c| c == ',' || c == ';').collect(alloc)
}

/// Collects the items of a list, the last first.
pub fn items_from_the_back<'a, E: Utf16Order, A: Allocator>(
    alloc: A,
    list: WStr<'a, E>,
) -> Result<Vec<WStr<'a, E>, A>, AllocError>
    ensures { IfOk result (λ items. map wstr_text items.items
        ≡ reverse (slice_split (λ c. (c == 44) || (c == 59)) (wstr_text list.entry))) }
{
    list.split_with(|c| c == ',' || c == ';')
        .rev()
        .collect(alloc)
}

/// Returns the number of items of a list.
pub fn items_in<E: Utf16Order>(list: WStr<E>) -> usize
    ensures { result ≡ length (slice_split (λ c. (c == 44) || (c == 59)) (wstr_text list.entry)) }
{
    list.split_with(|c| c == ',' || c == ';').count()
}

/// Returns the offset of the first character that is not ASCII.
pub fn first_beyond_ascii<E: Utf16Order>(text: WStr<E>) -> Option<usize>
    ensures { IsFirstWith (λ c b. b ≡ not (nat_lt c 128)) (wstr_text text.entry) result }
{
    text.find_with(|c| !c.is_ascii())
}

/// Returns a text without the quotes around it.
pub fn without_quotes<'a, E: Utf16Order>(text: WStr<'a, E>) -> WStr<'a, E>
    ensures { IsTrimmedWith (λ c b. b ≡ (c == 34)) (wstr_text text.entry) (wstr_text result) }
{
    text.trim_with(|c| c == '"')
}

/// Collects the words between the white space of ASCII.
pub fn ascii_words_of<'a, E: Utf16Order, A: Allocator>(
    alloc: A,
    text: WStr<'a, E>,
) -> Result<Vec<WStr<'a, E>, A>, AllocError>
    ensures { IfOk result (λ found.
        map wstr_text found.items ≡ ascii_words (wstr_text text.entry)) }
{
    text.split_ascii_whitespace().collect(alloc)
}

/// Collects the words between the white space of ASCII, the last first.
pub fn ascii_words_from_the_back<'a, E: Utf16Order, A: Allocator>(
    alloc: A,
    text: WStr<'a, E>,
) -> Result<Vec<WStr<'a, E>, A>, AllocError>
    ensures { IfOk result (λ found.
        map wstr_text found.items ≡ reverse (ascii_words (wstr_text text.entry))) }
{
    text.split_ascii_whitespace().rev().collect(alloc)
}

/// Returns the number that a text spells in decimal, if it is below 2 ^ 32.
pub fn number<E: Utf16Order>(text: WStr<E>) -> Option<u32>
    ensures { IfSome result (λ n. n
        ≡ digits_value 10 (without_leading_plus (encode_utf8_all (wstr_text text.entry)))) }
{
    text.parse().ok()
}
