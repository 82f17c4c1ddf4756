//! The substrings of a text that each end with a terminator, without it and with it.

ghost use Rattle.std.specs.Prelude.{◌≡◌, ◌^◌, ◌<◌, ℕ, List, false, length, option_map};
ghost use Rattle.std.specs.Iterator.{YieldsFirstBy, item_count};
ghost use Rattle.utf16_units.specs.Encoding.{size};
ghost use Rattle.utf16_str.specs.Matches.{with_terminators, without_empty_last};
ghost use Rattle.utf16_str.specs.Substrings.{YieldsPartsOf, YieldsTexts, offsets_from, parts_left, split_by};
ghost use Rattle.utf16_str.specs.WStr.{wstr_text};

use crate::WStr;
use crate::remaining::{Forward, Remaining};
use std::marker::Model;
use utf16_bytes::Pattern;
use utf16_units::Utf16Order;

/// An iterator over the remaining substrings of a [`WStr`] that each end with a terminator. Each is
/// a view without it. Once none is left, `next` always returns `None`.
#[derive(Drop)]
pub struct WStrSplitTerminator<'a, E: Utf16Order, P: Pattern<E>> {
    left: Remaining<'a, E, P>,
}

impl<'a, E: Utf16Order, P: Pattern<E>> Model for WStrSplitTerminator<'a, E, P> {
    ghost Value = { List (List ℕ) };

    ghost view = { λ it. without_empty_last (parts_left false (P.part it.left.pattern) it.left.begun
        (option_map wstr_text it.left.rest)) };
}

impl<'a, E: Utf16Order, P: Pattern<E>> Iterator for WStrSplitTerminator<'a, E, P> {
    type Item = WStr<'a, E>;

    ghost next_gives = { YieldsFirstBy wstr_text (λ rest. rest) };

    ghost remaining = { item_count (λ rest. rest) };

    #[inline]
    fn next(&mut self) -> Option<WStr<'a, E>> {
        let (part, _) = self.left.next_part::<Forward>()?;
        if self.left.rest.is_none() && part.is_empty() {
            return None;
        }
        Some(part)
    }
}

/// An iterator over the remaining substrings of a [`WStr`] that each end with a terminator. Each is
/// a view with it. Once none is left, `next` always returns `None`.
#[derive(Drop)]
pub struct WStrSplitInclusive<'a, E: Utf16Order, P: Pattern<E>> {
    left: Remaining<'a, E, P>,
}

impl<'a, E: Utf16Order, P: Pattern<E>> Model for WStrSplitInclusive<'a, E, P> {
    ghost Value = { List (List ℕ) };

    ghost view = { λ it. with_terminators (P.part it.left.pattern)
        (parts_left false (P.part it.left.pattern) it.left.begun
        (option_map wstr_text it.left.rest)) };
}

impl<'a, E: Utf16Order, P: Pattern<E>> Iterator for WStrSplitInclusive<'a, E, P> {
    type Item = WStr<'a, E>;

    ghost next_gives = { YieldsFirstBy wstr_text (λ rest. rest) };

    ghost remaining = { item_count (λ rest. rest) };

    #[inline]
    fn next(&mut self) -> Option<WStr<'a, E>> {
        let (_, part) = self.left.next_part::<Forward>()?;
        if self.left.rest.is_none() && part.is_empty() {
            return None;
        }
        Some(part)
    }
}

impl<'a, E: Utf16Order> WStr<'a, E> {
    /// Returns an iterator over the substrings that `split` gives, but without an empty one at the
    /// end: each delimiter ends a substring.
    ///
    /// # Complexity
    ///
    /// One pass over the text. Copies nothing and does not allocate.
    ///
    /// # Source
    ///
    /// The substrings are the same as with `str::split_terminator`.
    pub fn split_terminator<P: Pattern<E>>(self, terminator: P) -> WStrSplitTerminator<'a, E, P>
        ensures parts { result
            ≡ without_empty_last (split_by (P.part terminator) (wstr_text self.entry)) }
        ensures bound { length result < 2 ^ 64 }
        ensures runs { YieldsTexts self.entry }
        ensures within { YieldsPartsOf self.entry
            (offsets_from (size (P.part terminator)) 0 result) result }
    {
        WStrSplitTerminator {
            left: Remaining::new(self, terminator),
        }
    }

    /// Returns an iterator over the substrings that `split_terminator` gives, each with the
    /// terminator that ends it. The last one may have none.
    ///
    /// # Complexity
    ///
    /// One pass over the text. Copies nothing and does not allocate.
    ///
    /// # Source
    ///
    /// The substrings are the same as with `str::split_inclusive`.
    pub fn split_inclusive<P: Pattern<E>>(self, terminator: P) -> WStrSplitInclusive<'a, E, P>
        ensures parts { result ≡ with_terminators (P.part terminator)
            (split_by (P.part terminator) (wstr_text self.entry)) }
        ensures bound { length result < 2 ^ 64 }
        ensures runs { YieldsTexts self.entry }
        ensures within { YieldsPartsOf self.entry (offsets_from 0 0 result) result }
    {
        WStrSplitInclusive {
            left: Remaining::new(self, terminator),
        }
    }
}
