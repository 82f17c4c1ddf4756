//! A text without the white space at its ends.

ghost use Rattle.std.specs.Prelude.{◌≡◌, ◌+◌, ◌-◌, drop, length, take};
ghost use Rattle.std.specs.Str.{drop_trailing_whitespace, skip_leading_whitespace};
ghost use Rattle.utf16_units.specs.Encoding.{size};
ghost use Rattle.utf16_str.specs.Window.{bytes_between};
ghost use Rattle.utf16_str.specs.WStr.{wstr_bytes, wstr_text};

use crate::WStr;
use crate::words::{Space, UnicodeSpace};
use utf16_units::Utf16Order;

impl<'a, E: Utf16Order> WStr<'a, E> {
    /// Returns the text without the white space at its start. White space is what has the property
    /// `White_Space` of Unicode, as in `char::is_whitespace`.
    ///
    /// # Complexity
    ///
    /// One pass over the white space. Copies nothing.
    ///
    /// # Source
    ///
    /// `str::trim_start`.
    pub fn trim_start(self) -> WStr<'a, E>
        ensures text { wstr_text result ≡ skip_leading_whitespace (wstr_text self.entry) }
        ensures bytes { wstr_bytes result
            ≡ drop (length (wstr_bytes self.entry) - length (wstr_bytes result))
            (wstr_bytes self.entry) }
    {
        self.trim_start_by(&UnicodeSpace::is_space)
    }

    /// Returns the text without the white space at its end.
    ///
    /// # Complexity
    ///
    /// One pass over the white space. Copies nothing.
    ///
    /// # Source
    ///
    /// `str::trim_end`.
    pub fn trim_end(self) -> WStr<'a, E>
        ensures text { wstr_text result ≡ drop_trailing_whitespace (wstr_text self.entry) }
        ensures bytes { wstr_bytes result
            ≡ take (length (wstr_bytes result)) (wstr_bytes self.entry) }
    {
        self.trim_end_by(&UnicodeSpace::is_space)
    }

    /// Returns the text without the white space at its start and at its end.
    ///
    /// # Complexity
    ///
    /// One pass over the white space. Copies nothing.
    ///
    /// # Source
    ///
    /// `str::trim`.
    pub fn trim(self) -> WStr<'a, E>
        ensures text { wstr_text result
            ≡ drop_trailing_whitespace (skip_leading_whitespace (wstr_text self.entry)) }

        // The result begins where the white space at the start ends.
        ensures bytes { let start = size (wstr_text self.entry)
            - size (skip_leading_whitespace (wstr_text self.entry)) in
            wstr_bytes result ≡ bytes_between (wstr_bytes self.entry) start
            (start + length (wstr_bytes result)) }
    {
        self.trim_start().trim_end()
    }
}
