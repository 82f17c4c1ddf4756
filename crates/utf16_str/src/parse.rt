//! Values that a text spells.

ghost use Rattle.std.specs.Prelude.{encode_utf8_all};
ghost use Rattle.utf16_str.specs.WStr.{wstr_text};
ghost use Rattle.utf16_str.specs.Parse.{ParsesTo, parse_error_text};

use crate::wstr::WStr;
use std::error::Error;
use std::fmt;
use std::str::FromStr;
use utf16_to_utf8::{SLACK, write_utf8};
use utf16_units::Utf16Order;

// The most bytes of UTF-8 that are parsed.
const MAX_LEN: usize = 256;

/// The error of `parse`. `Display` writes the text of the type's error, or for `Long` a text of its
/// own.
#[derive(Debug, Drop, PartialEq, Eq)]
pub enum ParseError<E> {
    /// The text takes more than 256 bytes in UTF-8.
    Long,
    /// The text does not spell a value: the error of the type's `from_str`.
    Value(E),
}

impl<E: fmt::Display> fmt::Display for ParseError<E> {
    ghost output = { parse_error_text E.output };

    fn fmt<W: fmt::Write>(&self, f: &mut fmt::Formatter<W>) -> fmt::Result {
        match self {
            ParseError::Long => f.write_str("text longer than 256 bytes in UTF-8"),
            ParseError::Value(error) => fmt::Display::fmt(error, f),
        }
    }
}

impl<E: Error> Error for ParseError<E> {}

impl<'a, E: Utf16Order> WStr<'a, E> {
    /// Returns the value that the text spells.
    ///
    /// # Errors
    ///
    /// [`ParseError::Long`], exactly if the text takes more than 256 bytes in UTF-8.
    /// [`ParseError::Value`], with the error of `from_str`, if that returns one.
    ///
    /// # Complexity
    ///
    /// One pass over the text, and `from_str`. Does not allocate: the UTF-8 is written to the
    /// stack.
    ///
    /// # Source
    ///
    /// `str::parse`.
    pub fn parse<T: FromStr>(self) -> Result<T, ParseError<T::Err>>
        ensures { ParsesTo T.from_str_gives (encode_utf8_all (wstr_text self.entry)) result }
    {
        let raw = self.as_bytes();
        // Each code unit takes at least one byte.
        if raw.len() > 2 * MAX_LEN {
            return Err(ParseError::Long);
        }
        let mut buffer = [0; MAX_LEN * 3 + SLACK];
        let len = write_utf8::<E>(raw, &mut buffer);
        if len > MAX_LEN {
            return Err(ParseError::Long);
        }
        let utf8 = unsafe { str::from_utf8_unchecked(&buffer[..len]) };
        match utf8.parse() {
            Ok(value) => Ok(value),
            Err(error) => Err(ParseError::Value(error)),
        }
    }
}
