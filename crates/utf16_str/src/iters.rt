//! Iterators over the characters of a string, from either end, with or without their byte offsets.

ghost use Rattle.std.specs.Prelude.{◌≡◌, ◌<◌, ◌-◌, ◌^◌, ℕ, List, length, map, slice_get};
ghost use Rattle.std.specs.Iterator.{YieldsFirst, YieldsLast, item_count};
ghost use Rattle.utf16_units.specs.Encoding.{size, text_of};
ghost use Rattle.utf16_str.specs.Offsets.{char_offsets, offset_after};

use crate::WStr;
use std::fmt;
use std::marker::Model;
use utf16_units::ends::{first_char, last_char};
use utf16_units::text::count_chars;
use utf16_units::{Utf16CharExt, Utf16Order};

/// An iterator over the remaining characters of a [`WStr`], from either end. Once none is left,
/// `next` and `next_back` always return `None`.
#[derive(Drop)]
pub struct WStrChars<'a, E: Utf16Order> {
    pub(crate) rest: WStr<'a, E>,
}

impl<'a, E: Utf16Order> Model for WStrChars<'a, E> {
    ghost Value = { List ℕ };

    ghost view = { λ it. text_of E.BIG it.rest.raw.now };
}

impl<'a, E: Utf16Order> WStrChars<'a, E> {
    ghost use Rattle.utf16_str.specs.WStr.{wstr_text};

    /// Returns the remaining text as a view.
    #[inline]
    pub fn as_wstr(&self) -> WStr<'a, E>
        ensures { wstr_text result ≡ self.now }
    {
        let WStrChars { rest } = self;
        *rest
    }

    /// Returns the number of remaining characters.
    ///
    /// # Complexity
    ///
    /// One pass over the remaining text.
    pub fn count(self) -> usize
        ensures { result ≡ length self.entry }
    {
        count_chars::<E>(self.rest.as_bytes())
    }

    /// Returns the last remaining character, or `None` if none is left.
    ///
    /// # Complexity
    ///
    /// Constant time: reads one character at the end.
    #[inline]
    pub fn last(self) -> Option<char>
        ensures { result ≡ slice_get self.entry (length self.entry - 1) }
    {
        let mut rest = self;
        rest.next_back()
    }
}

impl<'a, E: Utf16Order> Iterator for WStrChars<'a, E> {
    type Item = char;

    ghost next_gives = { YieldsFirst (λ rest. rest) };

    ghost remaining = { item_count (λ rest. rest) };

    #[inline]
    fn next(&mut self) -> Option<char> {
        let raw = self.rest.as_bytes();
        if raw.is_empty() {
            return None;
        }
        let (first, size) = first_char::<E>(raw);
        self.rest = WStr::from_utf16_unchecked(&raw[size..]);
        Some(first)
    }
}

impl<'a, E: Utf16Order> DoubleEndedIterator for WStrChars<'a, E> {
    ghost next_back_gives = { YieldsLast (λ rest. rest) };

    #[inline]
    fn next_back(&mut self) -> Option<char> {
        let raw = self.rest.as_bytes();
        if raw.is_empty() {
            return None;
        }
        let (last, size) = last_char::<E>(raw);
        self.rest = WStr::from_utf16_unchecked(&raw[..raw.len() - size]);
        Some(last)
    }
}

impl<'a, E: Utf16Order> fmt::Debug for WStrChars<'a, E> {
    fn fmt<W: fmt::Write>(&self, f: &mut fmt::Formatter<W>) -> fmt::Result {
        f.debug_struct("WStrChars")
            .field("rest", &self.rest)
            .finish()
    }
}

/// An iterator over the remaining characters of a [`WStr`], each with its byte offset in it, from
/// either end. Once none is left, `next` and `next_back` always return `None`.
#[derive(Drop)]
pub struct WStrCharIndices<'a, E: Utf16Order> {
    pub(crate) offset: usize,
    pub(crate) chars: WStrChars<'a, E>,
}

impl<'a, E: Utf16Order> Model for WStrCharIndices<'a, E> {
    ghost Value = { List (ℕ × ℕ) };

    ghost view = { λ it. char_offsets it.offset it.chars };

    ghost invariant = { λ it. offset_after it.offset it.chars < 2 ^ 64 };
}

impl<'a, E: Utf16Order> WStrCharIndices<'a, E> {
    ghost use Rattle.utf16_str.specs.WStr.{wstr_text};

    /// Returns the remaining text as a view.
    #[inline]
    pub fn as_wstr(&self) -> WStr<'a, E>
        ensures { wstr_text result ≡ map (λ at. at.1) self.now }
    {
        self.chars.as_wstr()
    }

    /// Returns the number of remaining characters.
    ///
    /// # Complexity
    ///
    /// One pass over the remaining text.
    pub fn count(self) -> usize
        ensures { result ≡ length self.entry }
    {
        self.chars.count()
    }

    /// Returns the last remaining character with its byte offset, or `None` if none is left.
    ///
    /// # Complexity
    ///
    /// Constant time: reads one character at the end.
    #[inline]
    pub fn last(self) -> Option<(usize, char)>
        ensures { result ≡ slice_get self.entry (length self.entry - 1) }
    {
        let mut left = self;
        left.next_back()
    }
}

impl<'a, E: Utf16Order> Iterator for WStrCharIndices<'a, E> {
    type Item = (usize, char);

    ghost next_gives = { YieldsFirst (λ rest. rest) };

    ghost remaining = { item_count (λ rest. rest) };

    #[inline]
    fn next(&mut self) -> Option<(usize, char)> {
        let Some(c) = self.chars.next() else {
            return None;
        };
        let offset = self.offset;
        self.offset += c.encoded_utf16_len();
        Some((offset, c))
    }
}

impl<'a, E: Utf16Order> DoubleEndedIterator for WStrCharIndices<'a, E> {
    ghost next_back_gives = { YieldsLast (λ rest. rest) };

    #[inline]
    fn next_back(&mut self) -> Option<(usize, char)> {
        let Some(c) = self.chars.next_back() else {
            return None;
        };
        Some((self.offset + self.chars.as_wstr().len(), c))
    }
}

impl<'a, E: Utf16Order> fmt::Debug for WStrCharIndices<'a, E> {
    fn fmt<W: fmt::Write>(&self, f: &mut fmt::Formatter<W>) -> fmt::Result {
        f.debug_struct("WStrCharIndices")
            .field("offset", &self.offset)
            .field("chars", &self.chars)
            .finish()
    }
}
