//! The occurrences of a pattern in a text that do not overlap, with or without their offsets.

ghost use Rattle.std.specs.Prelude.{◌≡◌, ◌+◌, ◌^◌, ◌<◌, ℕ, List, false, length, map, option_map, true};
ghost use Rattle.std.specs.Iterator.{YieldsFirstBy, item_count};
ghost use Rattle.utf16_units.specs.Encoding.{size};
ghost use Rattle.utf16_str.specs.Matches.{YieldsPartsAt, YieldsTextsAt, left_size, match_offsets, rmatch_offsets};
ghost use Rattle.utf16_str.specs.Substrings.{YieldsPartsOf, YieldsTexts, parts_left, rsplit_by, split_by};
ghost use Rattle.utf16_str.specs.WStr.{wstr_text};

use crate::WStr;
use crate::remaining::{Backward, Forward, Remaining};
use std::marker::Model;
use utf16_bytes::Pattern;
use utf16_units::Utf16Order;

/// An iterator over the remaining occurrences of a pattern in a [`WStr`], each a view with its byte
/// offset. Once none is left, `next` always returns `None`.
#[derive(Drop)]
pub struct WStrMatchIndices<'a, E: Utf16Order, P: Pattern<E>> {
    left: Remaining<'a, E, P>,
    offset: usize,
}

impl<'a, E: Utf16Order, P: Pattern<E>> Model for WStrMatchIndices<'a, E, P> {
    ghost Value = { List (ℕ × List ℕ) };

    ghost view = { λ it. match_offsets (P.part it.left.pattern) it.offset
        (parts_left false (P.part it.left.pattern) it.left.begun
        (option_map wstr_text it.left.rest)) };

    ghost invariant = { λ it. it.offset + left_size (option_map wstr_text it.left.rest) < 2 ^ 64 };
}

impl<'a, E: Utf16Order, P: Pattern<E>> Iterator for WStrMatchIndices<'a, E, P> {
    type Item = (usize, WStr<'a, E>);

    ghost next_gives = { YieldsFirstBy (λ at. (at.0, wstr_text at.1)) (λ rest. rest) };

    ghost remaining = { item_count (λ rest. rest) };

    #[inline]
    fn next(&mut self) -> Option<(usize, WStr<'a, E>)> {
        let (part, closed) = self.left.next_part::<Forward>()?;
        if self.left.rest.is_none() {
            return None;
        }
        let offset = self.offset + part.len();
        self.offset += closed.len();
        let (_, found) = closed.split_at(part.len());
        Some((offset, found))
    }
}

/// An iterator over the remaining occurrences of a pattern in a [`WStr`], each a view. Once none is
/// left, `next` always returns `None`.
#[derive(Drop)]
pub struct WStrMatches<'a, E: Utf16Order, P: Pattern<E>> {
    indices: WStrMatchIndices<'a, E, P>,
}

impl<'a, E: Utf16Order, P: Pattern<E>> Model for WStrMatches<'a, E, P> {
    ghost Value = { List (List ℕ) };

    ghost view = { λ it. map (λ at. at.1) it.indices };
}

impl<'a, E: Utf16Order, P: Pattern<E>> Iterator for WStrMatches<'a, E, P> {
    type Item = WStr<'a, E>;

    ghost next_gives = { YieldsFirstBy wstr_text (λ rest. rest) };

    ghost remaining = { item_count (λ rest. rest) };

    #[inline]
    fn next(&mut self) -> Option<WStr<'a, E>> {
        let (_, found) = self.indices.next()?;
        Some(found)
    }
}

/// An iterator over the remaining occurrences of a pattern in a [`WStr`], the last first, each a
/// view with its byte offset. Once none is left, `next` always returns `None`.
#[derive(Drop)]
pub struct WStrRMatchIndices<'a, E: Utf16Order, P: Pattern<E>> {
    left: Remaining<'a, E, P>,
}

impl<'a, E: Utf16Order, P: Pattern<E>> Model for WStrRMatchIndices<'a, E, P> {
    ghost Value = { List (ℕ × List ℕ) };

    ghost view = { λ it. rmatch_offsets (P.part it.left.pattern)
        (left_size (option_map wstr_text it.left.rest))
        (parts_left true (P.part it.left.pattern) it.left.begun
        (option_map wstr_text it.left.rest)) };
}

impl<'a, E: Utf16Order, P: Pattern<E>> Iterator for WStrRMatchIndices<'a, E, P> {
    type Item = (usize, WStr<'a, E>);

    ghost next_gives = { YieldsFirstBy (λ at. (at.0, wstr_text at.1)) (λ rest. rest) };

    ghost remaining = { item_count (λ rest. rest) };

    #[inline]
    fn next(&mut self) -> Option<(usize, WStr<'a, E>)> {
        let (part, closed) = self.left.next_part::<Backward>()?;
        let before = self.left.rest?;
        let (found, _) = closed.split_at(closed.len() - part.len());
        Some((before.len(), found))
    }
}

impl<'a, E: Utf16Order> WStr<'a, E> {
    /// Returns an iterator over the occurrences of a text or a character, in order, each with its
    /// byte offset. Of occurrences that overlap it takes the first. The empty text occurs at each
    /// boundary.
    ///
    /// # Complexity
    ///
    /// One pass over the text. Copies nothing and does not allocate.
    ///
    /// # Source
    ///
    /// `str::match_indices`, with offsets in bytes of UTF-16.
    pub fn match_indices<P: Pattern<E>>(self, pattern: P) -> WStrMatchIndices<'a, E, P>
        ensures parts { result ≡ match_offsets (P.part pattern) 0
            (split_by (P.part pattern) (wstr_text self.entry)) }
        ensures bound { length result < 2 ^ 64 }
        ensures runs { YieldsTextsAt self.entry }
        ensures within { YieldsPartsAt self.entry result }
    {
        WStrMatchIndices {
            left: Remaining::new(self, pattern),
            offset: 0,
        }
    }

    /// Returns an iterator over the occurrences of a text or a character, in order, as views. Of
    /// occurrences that overlap it takes the first. Its `count` is the number of occurrences.
    ///
    /// # Complexity
    ///
    /// One pass over the text. Copies nothing and does not allocate.
    ///
    /// # Source
    ///
    /// `str::matches`.
    pub fn matches<P: Pattern<E>>(self, pattern: P) -> WStrMatches<'a, E, P>
        ensures parts { result ≡ map (λ at. at.1) (match_offsets (P.part pattern) 0
            (split_by (P.part pattern) (wstr_text self.entry))) }
        ensures bound { length result < 2 ^ 64 }
        ensures runs { YieldsTexts self.entry }
        ensures within { YieldsPartsOf self.entry (map (λ at. at.0) (match_offsets (P.part pattern)
            0 (split_by (P.part pattern) (wstr_text self.entry)))) result }
    {
        WStrMatches {
            indices: self.match_indices(pattern),
        }
    }

    /// Returns an iterator over the occurrences of a text or a character, the last first, each with
    /// its byte offset. Of occurrences that overlap it takes the last.
    ///
    /// # Complexity
    ///
    /// One pass over the text. Copies nothing and does not allocate.
    ///
    /// # Source
    ///
    /// `str::rmatch_indices`, with offsets in bytes of UTF-16.
    pub fn rmatch_indices<P: Pattern<E>>(self, pattern: P) -> WStrRMatchIndices<'a, E, P>
        ensures parts { result ≡ rmatch_offsets (P.part pattern) (size (wstr_text self.entry))
            (rsplit_by (P.part pattern) (wstr_text self.entry)) }
        ensures bound { length result < 2 ^ 64 }
        ensures runs { YieldsTextsAt self.entry }
        ensures within { YieldsPartsAt self.entry result }
    {
        WStrRMatchIndices {
            left: Remaining::new(self, pattern),
        }
    }
}
