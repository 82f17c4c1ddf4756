//! Substrings by ranges of byte offsets.

ghost use Rattle.std.specs.Prelude.{◌≡◌, ◌↔◌, ℕ, Option, Some, IsSome, IfSome, length};
ghost use Rattle.std.specs.Range.{range_inclusive_end, range_inclusive_start};
ghost use Rattle.utf16_str.specs.WStr.{wstr_bytes, wstr_text};
ghost use Rattle.utf16_str.specs.Window.{IsWindowOf, inclusive_window, window_bytes, window_text};

use crate::WStr;
use std::ops::{Range, RangeFrom, RangeFull, RangeInclusive, RangeTo, RangeToInclusive};
use utf16_units::Utf16Order;

/// A range that selects a substring by its window, from one byte offset up to another.
///
/// There is such a substring exactly if there is a window, its start is at most its end, and both
/// are character boundaries.
///
/// Any crate may implement it: a type of ranges defines its window, and proves that `window`
/// computes it.
pub trait SliceIndex<E: Utf16Order> {
    // The window in a string of the given length in bytes, if there is one.
    ghost window: { Self → ℕ → Option (ℕ × ℕ) };

    /// Returns the window in a string of `len` bytes, or `None` if there is none.
    ///
    /// The window may be reversed, out of range, or not at character boundaries; `get` tests that.
    fn window(self, len: usize) -> Option<(usize, usize)>
        ensures { result ≡ window self len };

    /// Returns the substring of `slice`, or `None` if there is none.
    final fn get<'a>(self, slice: WStr<'a, E>) -> Option<WStr<'a, E>>
    where
        Self: Sized,
        ensures some { IsSome result ↔ IsWindowOf (wstr_text slice.entry)
            (window self (length (wstr_bytes slice.entry))) }
        ensures part { IfSome result (λ part.
            wstr_text part ≡ window_text (wstr_text slice.entry)
            (window self (length (wstr_bytes slice.entry)))) }
        ensures bytes { IfSome result (λ part.
            wstr_bytes part ≡ window_bytes (wstr_bytes slice.entry)
            (window self (length (wstr_bytes slice.entry)))) }
    {
        let (start, end) = self.window(slice.len())?;
        slice.part(start, end)
    }

    /// Returns the substring of `slice`.
    ///
    /// # Precondition
    ///
    /// There is such a substring (check with `get`).
    final fn get_unchecked<'a>(self, slice: WStr<'a, E>) -> WStr<'a, E>
    where
        Self: Sized,
        requires { IsWindowOf (wstr_text slice) (window self (length (wstr_bytes slice))) }
        ensures text { wstr_text result
            ≡ window_text (wstr_text slice.entry) (window self (length (wstr_bytes slice.entry))) }
        ensures bytes { wstr_bytes result
            ≡ window_bytes (wstr_bytes slice.entry)
            (window self (length (wstr_bytes slice.entry))) }
    {
        let (start, end) = self.window(slice.len()).unwrap();
        slice.part_unchecked(start, end)
    }

    /// Returns the substring of `slice`.
    ///
    /// # Precondition
    ///
    /// There is such a substring (check with `get`).
    final fn index<'a>(self, slice: WStr<'a, E>) -> WStr<'a, E>
    where
        Self: Sized,
        requires { IsWindowOf (wstr_text slice) (window self (length (wstr_bytes slice))) }
        ensures text { wstr_text result
            ≡ window_text (wstr_text slice.entry) (window self (length (wstr_bytes slice.entry))) }
        ensures bytes { wstr_bytes result
            ≡ window_bytes (wstr_bytes slice.entry)
            (window self (length (wstr_bytes slice.entry))) }
    {
        self.get_unchecked(slice)
    }
}

impl<E: Utf16Order> SliceIndex<E> for Range<usize> {
    ghost window = { λ range _. Some (range.start, range.end) };

    #[inline]
    fn window(self, _len: usize) -> Option<(usize, usize)> {
        Some((self.start, self.end))
    }
}

impl<E: Utf16Order> SliceIndex<E> for RangeFrom<usize> {
    ghost window = { λ range len. Some (range.start, len) };

    #[inline]
    fn window(self, len: usize) -> Option<(usize, usize)> {
        Some((self.start, len))
    }
}

impl<E: Utf16Order> SliceIndex<E> for RangeTo<usize> {
    ghost window = { λ range _. Some (0, range.end) };

    #[inline]
    fn window(self, _len: usize) -> Option<(usize, usize)> {
        Some((0, self.end))
    }
}

impl<E: Utf16Order> SliceIndex<E> for RangeFull {
    ghost window = { λ _ len. Some (0, len) };

    #[inline]
    fn window(self, len: usize) -> Option<(usize, usize)> {
        Some((0, len))
    }
}

impl<E: Utf16Order> SliceIndex<E> for RangeInclusive<usize> {
    ghost window = { λ range _. inclusive_window (range_inclusive_start range)
        (range_inclusive_end range) };

    #[inline]
    fn window(self, _len: usize) -> Option<(usize, usize)> {
        let start = *self.start();
        let last = *self.end();
        if last < usize::MAX {
            Some((start, last + 1))
        } else {
            None
        }
    }
}

impl<E: Utf16Order> SliceIndex<E> for RangeToInclusive<usize> {
    ghost window = { λ range _. inclusive_window 0 range.end };

    #[inline]
    fn window(self, _len: usize) -> Option<(usize, usize)> {
        let last = self.end;
        if last < usize::MAX {
            Some((0, last + 1))
        } else {
            None
        }
    }
}
