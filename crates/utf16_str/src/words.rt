//! The words of a text: what is between white space.

ghost use Rattle.std.specs.Prelude.{◌≡◌, ◌≢◌, ◌++◌, ◌∷◌, ◌<◌, ◌^◌, [], Bool, List, length, ℕ};
ghost use Rattle.std.specs.Char.{is_ascii_whitespace, is_whitespace};
ghost use Rattle.std.specs.Iterator.{YieldsFirstBy, YieldsLastBy, item_count};
ghost use Rattle.utf16_str.specs.AsciiWords.{ascii_words};
ghost use Rattle.utf16_str.specs.Substrings.{YieldsPartsOf, YieldsPartsOfBack, YieldsTexts, YieldsTextsBack, word_offsets, words, words_by};
ghost use Rattle.utf16_str.specs.WStr.{wstr_text};

use crate::WStr;
use std::marker::{Model, PhantomData};
use utf16_units::Utf16Order;

/// A set of characters that is white space.
pub trait Space {
    ghost is_space: { ℕ → Bool };

    /// Returns `true` if a character is white space.
    fn is_space(c: char) -> bool
        ensures { result ≡ is_space c };
}

/// The white space of Unicode: what has the property `White_Space`, as in `char::is_whitespace`.
pub struct UnicodeSpace;

impl Space for UnicodeSpace {
    ghost is_space = { is_whitespace };

    #[inline]
    fn is_space(c: char) -> bool {
        c.is_whitespace()
    }
}

/// The white space of ASCII, as in `char::is_ascii_whitespace`.
pub struct AsciiSpace;

impl Space for AsciiSpace {
    ghost is_space = { is_ascii_whitespace };

    #[inline]
    fn is_space(c: char) -> bool {
        c.is_ascii_whitespace()
    }
}

/// An iterator over the remaining words of a [`WStr`], the substrings between white space that are
/// not empty, from either end. Each is a view. Once none is left, `next` and `next_back` always
/// return `None`. `S` is what is white space.
#[derive(Drop)]
pub struct WStrWords<'a, E: Utf16Order, S: Space> {
    rest: WStr<'a, E>,
    space: PhantomData<S>,
}

/// An iterator over the remaining words of a [`WStr`] between white space: see [`WStrWords`].
pub type WStrSplitWhitespace<'a, E> = WStrWords<'a, E, UnicodeSpace>;

/// An iterator over the remaining words of a [`WStr`] between the white space of ASCII: see
/// [`WStrWords`].
pub type WStrSplitAsciiWhitespace<'a, E> = WStrWords<'a, E, AsciiSpace>;

impl<'a, E: Utf16Order, S: Space> Model for WStrWords<'a, E, S> {
    ghost Value = { List (List ℕ) };

    ghost view = { λ it. words_by S.is_space (wstr_text it.rest) };
}

impl<'a, E: Utf16Order, S: Space> Iterator for WStrWords<'a, E, S> {
    type Item = WStr<'a, E>;

    ghost next_gives = { YieldsFirstBy wstr_text (λ rest. rest) };

    ghost remaining = { item_count (λ rest. rest) };

    fn next(&mut self) -> Option<WStr<'a, E>> {
        let (word, after) = self.rest.split_first_word::<S>();
        self.rest = after;
        if word.is_empty() {
            return None;
        }
        Some(word)
    }
}

impl<'a, E: Utf16Order, S: Space> DoubleEndedIterator for WStrWords<'a, E, S> {
    ghost next_back_gives = { YieldsLastBy wstr_text (λ rest. rest) };

    fn next_back(&mut self) -> Option<WStr<'a, E>> {
        let (before, word) = self.rest.split_last_word::<S>();
        self.rest = before;
        if word.is_empty() {
            return None;
        }
        Some(word)
    }
}

impl<'a, E: Utf16Order> WStr<'a, E> {
    /// Returns an iterator over the words, in order: the substrings between white space that are
    /// not empty. White space is what has the property `White_Space` of Unicode.
    ///
    /// # Complexity
    ///
    /// One pass over the text. Copies nothing and does not allocate.
    ///
    /// # Source
    ///
    /// The words are the same as with `str::split_whitespace`.
    pub fn split_whitespace(self) -> WStrSplitWhitespace<'a, E>
        ensures parts { result ≡ words (wstr_text self.entry) }
        ensures bound { length result < 2 ^ 64 }
        ensures runs { YieldsTexts self.entry }
        ensures runs_back { YieldsTextsBack self.entry }
        ensures within { YieldsPartsOf self.entry
            (word_offsets is_whitespace (wstr_text self.entry)) result }
        ensures within_back { YieldsPartsOfBack self.entry
            (word_offsets is_whitespace (wstr_text self.entry)) result }
    {
        self.words()
    }

    /// Returns an iterator over the words, in order: the substrings between the white space of
    /// ASCII that are not empty.
    ///
    /// # Complexity
    ///
    /// One pass over the text. Copies nothing and does not allocate.
    ///
    /// # Source
    ///
    /// The words are the same as with `str::split_ascii_whitespace`.
    #[inline]
    pub fn split_ascii_whitespace(self) -> WStrSplitAsciiWhitespace<'a, E>
        ensures parts { result ≡ ascii_words (wstr_text self.entry) }
        ensures bound { length result < 2 ^ 64 }
        ensures runs { YieldsTexts self.entry }
        ensures runs_back { YieldsTextsBack self.entry }
        ensures within { YieldsPartsOf self.entry
            (word_offsets is_ascii_whitespace (wstr_text self.entry)) result }
        ensures within_back { YieldsPartsOfBack self.entry
            (word_offsets is_ascii_whitespace (wstr_text self.entry)) result }
    {
        self.words()
    }

    #[inline]
    fn words<S: Space>(self) -> WStrWords<'a, E, S>
        ensures parts { result ≡ words_by S.is_space (wstr_text self.entry) }
        ensures bound { length result < 2 ^ 64 }
        ensures runs { YieldsTexts self.entry }
        ensures runs_back { YieldsTextsBack self.entry }
        ensures within { YieldsPartsOf self.entry
            (word_offsets S.is_space (wstr_text self.entry)) result }
        ensures within_back { YieldsPartsOfBack self.entry
            (word_offsets S.is_space (wstr_text self.entry)) result }
    {
        WStrWords {
            rest: self,
            space: PhantomData,
        }
    }

    // Returns the first word, and a text that has the other words. If there are no words, both are
    // empty.
    fn split_first_word<S: Space>(self) -> (Self, Self)
        ensures some { wstr_text result.0 ≢ [] → words_by S.is_space (wstr_text self.entry)
            ≡ wstr_text result.0 ∷ words_by S.is_space (wstr_text result.1) }
        ensures none { wstr_text result.0 ≡ []
            → (words_by S.is_space (wstr_text self.entry) ≡ [])
            × (words_by S.is_space (wstr_text result.1) ≡ []) }
    {
        let is_space = |c| S::is_space(c);
        let trimmed = self.trim_start_by(&is_space);
        match trimmed.cut_by(&is_space) {
            Some(cut) => cut,
            None => trimmed.split_at(trimmed.len()),
        }
    }

    // Returns a text that has the other words, and the last word. If there are no words, both are
    // empty.
    fn split_last_word<S: Space>(self) -> (Self, Self)
        ensures some { wstr_text result.1 ≢ [] → words_by S.is_space (wstr_text self.entry)
            ≡ words_by S.is_space (wstr_text result.0) ++ wstr_text result.1 ∷ [] }
        ensures none { wstr_text result.1 ≡ []
            → (words_by S.is_space (wstr_text self.entry) ≡ [])
            × (words_by S.is_space (wstr_text result.0) ≡ []) }
    {
        let is_space = |c| S::is_space(c);
        let trimmed = self.trim_end_by(&is_space);
        match trimmed.cut_last_by(&is_space) {
            Some(cut) => cut,
            None => trimmed.split_at(0),
        }
    }
}
