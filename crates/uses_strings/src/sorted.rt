//! Strings and their ordering: the greater and the lesser of two strings, sorting, and binary
//! search in a sorted list. Contracts that use std's terms for `Ord` are proved automatically;
//! those that use `IsBefore` need one lemma each.

ghost use Rattle.std.specs.Prelude.{◌≡◌, IfOk, IsPermutation, IsSorted, OnErr, OnOk};
ghost use Rattle.std.specs.Cmp.Lexicographic.{slice_cmp};
ghost use Rattle.std.specs.List.{HoldsAt};
ghost use Rattle.std.specs.declared.cmp.Ordering.TheVariants.{Equal};
ghost use Rattle.std.specs.List.Sorted.{IsBinarySearchResult};
ghost use Rattle.std.specs.Ordering.{nat_cmp, ord_max, ord_min};
ghost use Rattle.utf16_units.specs.TextOrder.{IsBefore};
ghost use Rattle.utf16string.specs.WString.{wstring_text};
ghost use Rattle.utf16string.specs.WStr.{wstr_text};

use std::alloc::AllocError;
use utf16string::{Utf16Order, WStr, WString};

/// Returns the greater of two strings, and the second if they are equal.
pub fn max_of<E: Utf16Order>(first: WString<E>, second: WString<E>) -> WString<E>
    ensures { result ≡ ord_max (λ x y. slice_cmp nat_cmp (wstring_text x) (wstring_text y)) first
        second }
{
    first.max(second)
}

/// Returns the lesser of two views, and the first if they are equal.
pub fn min_of<'a, E: Utf16Order>(first: WStr<'a, E>, second: WStr<'a, E>) -> WStr<'a, E>
    ensures { result ≡ ord_min (λ x y. slice_cmp nat_cmp (wstr_text x) (wstr_text y)) first.entry
        second.entry }
{
    first.min(second)
}

/// Returns the index of a string among sorted ones, or the index at which it could be inserted, by
/// binary search. The contract uses std's terms.
pub fn searched<E: Utf16Order>(sorted: &[WString<E>], wanted: &WString<E>) -> Result<usize, usize>
    ensures place { IsBinarySearchResult
        (λ s. slice_cmp nat_cmp (wstring_text s) (wstring_text wanted.now)) sorted.now result }
    ensures found { IfOk result (HoldsAt
        (λ s. slice_cmp nat_cmp (wstring_text s) (wstring_text wanted.now) ≡ Equal) sorted.now) }
{
    sorted.binary_search(wanted)
}

/// Returns the greater of two strings. The contract uses `IsBefore`.
pub fn later<E: Utf16Order>(first: WString<E>, second: WString<E>) -> WString<E>
    ensures less { IsBefore (wstring_text first) (wstring_text second) → result ≡ second }
    ensures greater { IsBefore (wstring_text second) (wstring_text first) → result ≡ first }
{
    max_of(first, second)
}

/// Returns the lesser of two views. The contract uses `IsBefore`.
pub fn earlier<'a, E: Utf16Order>(first: WStr<'a, E>, second: WStr<'a, E>) -> WStr<'a, E>
    ensures less { IsBefore (wstr_text first.entry) (wstr_text second.entry)
        → result ≡ first.entry }
    ensures greater { IsBefore (wstr_text second.entry) (wstr_text first.entry)
        → result ≡ second.entry }
{
    min_of(first, second)
}

/// Sorts strings, so that no text is less than the text before it.
pub fn sort<E: Utf16Order>(strings: &mut Vec<WString<E>>) -> Result<(), AllocError>
    ensures permutation { IsPermutation strings.old.items strings.new.items }
    ensures sorted { OnOk result (IsSorted
        (λ x y. slice_cmp nat_cmp (wstring_text x) (wstring_text y)) strings.new.items) }
    ensures err { OnErr result (strings.new.items ≡ strings.old.items) }
{
    strings.sort()
}

/// Returns the index of a text among sorted strings, or the index at which it could be inserted.
pub fn place_of<E: Utf16Order>(sorted: &[WString<E>], wanted: &WString<E>) -> Result<usize, usize>
    ensures { IfOk result (HoldsAt (λ s. wstring_text s ≡ wstring_text wanted.now) sorted.now) }
{
    searched(sorted, wanted)
}
