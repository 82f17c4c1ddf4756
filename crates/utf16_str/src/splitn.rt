//! The first or the last `n` substrings of a text: the last one that comes has the rest.

ghost use Rattle.std.specs.Prelude.{◌≡◌, ◌≤◌, ℕ, List, length, option_map, reverse};
ghost use Rattle.std.specs.Iterator.{YieldsFirstBy, item_count};
ghost use Rattle.utf16_units.specs.Encoding.{size};
ghost use Rattle.utf16_str.specs.Matches.{limited};
ghost use Rattle.utf16_str.specs.Substrings.{YieldsPartsOf, YieldsTexts, joined_toward, joined_with, offsets_from, parts_left, rjoined_with, roffsets_from, rsplit_by, split_by};
ghost use Rattle.utf16_str.specs.WStr.{wstr_text};

use crate::WStr;
use crate::remaining::{Backward, Direction, Forward, Remaining};
use std::marker::{Model, PhantomData};
use utf16_bytes::Pattern;
use utf16_units::Utf16Order;

/// An iterator over at most a number of remaining substrings of a [`WStr`] separated by a
/// delimiter, in the direction `D`. Each is a view; the last one that it gives has the rest of the
/// text. Once none is left, `next` always returns `None`.
#[derive(Drop)]
pub struct WStrPartsN<'a, E: Utf16Order, P: Pattern<E>, D: Direction> {
    left: Remaining<'a, E, P>,
    count: usize,
    direction: PhantomData<D>,
}

/// An iterator over at most a number of substrings of a [`WStr`], in order: see [`WStrPartsN`].
pub type WStrSplitN<'a, E, P> = WStrPartsN<'a, E, P, Forward>;

/// An iterator over at most a number of substrings of a [`WStr`], the last first: see
/// [`WStrPartsN`].
pub type WStrRSplitN<'a, E, P> = WStrPartsN<'a, E, P, Backward>;

impl<'a, E: Utf16Order, P: Pattern<E>, D: Direction> Model for WStrPartsN<'a, E, P, D> {
    ghost Value = { List (List ℕ) };

    ghost view = { λ it. limited (joined_toward D.BACK (P.part it.left.pattern)) it.count
        (parts_left D.BACK (P.part it.left.pattern) it.left.begun
        (option_map wstr_text it.left.rest)) };
}

impl<'a, E: Utf16Order, P: Pattern<E>, D: Direction> Iterator for WStrPartsN<'a, E, P, D> {
    type Item = WStr<'a, E>;

    ghost next_gives = { YieldsFirstBy wstr_text (λ rest. rest) };

    ghost remaining = { item_count (λ rest. rest) };

    #[inline]
    fn next(&mut self) -> Option<WStr<'a, E>> {
        if self.count == 0 {
            return None;
        }
        self.count -= 1;
        if self.count == 0 {
            return self.left.rest;
        }
        let (part, _) = self.left.next_part::<D>()?;
        Some(part)
    }
}

impl<'a, E: Utf16Order> WStr<'a, E> {
    /// Returns an iterator over the substrings that `split` gives, but over at most `n`: the last
    /// of `n` has the rest of the text, with the delimiters in it.
    ///
    /// # Complexity
    ///
    /// One pass, up to the last delimiter that it takes. Copies nothing and does not allocate.
    ///
    /// # Source
    ///
    /// The substrings are the same as with `str::splitn`.
    pub fn splitn<P: Pattern<E>>(self, n: usize, delimiter: P) -> WStrSplitN<'a, E, P>
        ensures parts { result ≡ limited (joined_with (P.part delimiter)) n
            (split_by (P.part delimiter) (wstr_text self.entry)) }
        ensures bound { length result ≤ n }
        ensures runs { YieldsTexts self.entry }
        ensures within { YieldsPartsOf self.entry
            (offsets_from (size (P.part delimiter)) 0 result) result }
    {
        WStrPartsN {
            left: Remaining::new(self, delimiter),
            count: n,
            direction: PhantomData,
        }
    }

    /// Returns an iterator over the substrings that `rsplit` gives, the last first, but over at
    /// most `n`: the last of `n` has the rest of the text, with the delimiters in it.
    ///
    /// # Complexity
    ///
    /// One pass, down to the last delimiter that it takes. Copies nothing and does not allocate.
    ///
    /// # Source
    ///
    /// The substrings are the same as with `str::rsplitn`.
    pub fn rsplitn<P: Pattern<E>>(self, n: usize, delimiter: P) -> WStrRSplitN<'a, E, P>
        ensures parts { result ≡ limited (rjoined_with (P.part delimiter)) n
            (rsplit_by (P.part delimiter) (wstr_text self.entry)) }
        ensures bound { length result ≤ n }
        ensures runs { YieldsTexts self.entry }
        ensures within { YieldsPartsOf self.entry (roffsets_from (size (P.part delimiter))
            (size (wstr_text self.entry)) result) result }
    {
        WStrPartsN {
            left: Remaining::new(self, delimiter),
            count: n,
            direction: PhantomData,
        }
    }
}
