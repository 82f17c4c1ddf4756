//! The error for ill-formed UTF-16.

ghost use Rattle.std.specs.Prelude.{◌≡◌, Some, codes};
ghost use Rattle.std.specs.Option.{ForSome};

use std::error::Error;
use std::fmt;

/// The error for ill-formed UTF-16: the length of the longest valid prefix, and whether more bytes
/// could make the input well formed.
#[derive(Clone, Copy, Debug, PartialEq, Eq)]
pub struct Utf16Error {
    pub(crate) valid_up_to: usize,
    pub(crate) error_len: Option<u8>,
    ghost one_unit: { ForSome error_len (λ n. n ≡ 2) },
}

impl Utf16Error {
    ghost use Rattle.utf16_units.specs.Utf16Error.{detail, error_len, valid_up_to};

    /// Returns the length in bytes of the longest prefix that is well-formed UTF-16.
    #[inline]
    pub fn valid_up_to(&self) -> usize
        ensures { result ≡ valid_up_to self.now }
    {
        self.valid_up_to
    }

    /// Returns the length in bytes of the ill-formed sequence after the valid prefix: `Some(2)` for
    /// an unpaired surrogate, `None` if the input is incomplete.
    ///
    /// After `Some(2)`, decoding can resume two bytes after `valid_up_to`. With `None`, the bytes
    /// end inside a character: the last 1 to 3 bytes may be the start of one.
    #[inline]
    pub fn error_len(&self) -> Option<usize>
        ensures { result ≡ error_len self.now }
    {
        self.error_len.map(usize::from)
    }

    /// Returns a form of the error whose `Display` says which sequence is ill-formed and where.
    #[inline]
    pub fn detail(&self) -> Detail
        ensures { result ≡ detail self.now }
    {
        Detail { error: *self }
    }
}

/// The form of a [`Utf16Error`] that says which sequence is ill-formed and where: "unpaired
/// surrogate of 2 bytes at byte 6", or "incomplete character at byte 6".
#[derive(Clone, Copy, Debug, PartialEq, Eq)]
pub struct Detail {
    error: Utf16Error,
}

impl fmt::Display for Detail {
    ghost use Rattle.utf16_units.specs.Utf16Error.{detail_text};

    ghost output = { λ it. Some (detail_text it) };

    fn fmt<W: fmt::Write>(&self, f: &mut fmt::Formatter<W>) -> fmt::Result {
        let at = self.error.valid_up_to;
        match self.error.error_len {
            Some(_) => write!(f, "unpaired surrogate of 2 bytes at byte {at}"),
            None => write!(f, "incomplete character at byte {at}"),
        }
    }
}

impl fmt::Display for Utf16Error {
    // The same message in both byte orders.
    ghost output = { λ _. Some (codes "Invalid UTF-16LE data in byte slice") };

    // Width, fill and precision are ignored.
    ghost styled_output = { λ _ _. Some (codes "Invalid UTF-16LE data in byte slice") };

    fn fmt<W: fmt::Write>(&self, f: &mut fmt::Formatter<W>) -> fmt::Result {
        f.write_str("Invalid UTF-16LE data in byte slice")
    }
}

impl Error for Utf16Error {}
