//! Functions that users of the ordering need. Each is proved with a law of the ordering.

ghost use Rattle.std.specs.Prelude.{◌≡◌, ◌↔◌, IsTrue};
ghost use Rattle.std.specs.List.{AllPairs};
ghost use Rattle.utf16_units.specs.TextOrder.{IsBefore};
ghost use Rattle.utf16string.specs.WStr.{wstr_text};
ghost use Rattle.utf16string.specs.WString.{wstring_text};

use std::cmp::Ordering;
use utf16_units::laws::{before_follows, before_total};
use utf16string::{Utf16Order, WStr, WString};

/// Returns whether two strings have the same text, by comparisons that only say whether one is less
/// than the other.
pub fn is_tie<E: Utf16Order>(first: WStr<E>, second: WStr<E>) -> bool
    ensures { IsTrue result ↔ (wstr_text first.entry ≡ wstr_text second.entry) }
{
    before_total();
    first.cmp(&second) != Ordering::Less && second.cmp(&first) != Ordering::Less
}

/// Returns whether each string is less than all that follow it, by comparing each two neighbors
/// once.
pub fn is_ascending<E: Utf16Order>(strings: &[WString<E>]) -> bool
    ensures { IsTrue result ↔ AllPairs (λ x y. IsBefore (wstring_text x) (wstring_text y))
        strings.now }
{
    before_follows();
    strings.is_sorted_by(|first, second| first < second)
}
