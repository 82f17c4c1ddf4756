//! Text formatted into a string.

ghost use Rattle.std.specs.Prelude.{◌≡◌, ◌+◌, ◌≤◌, ◌++◌, length, IsOk, OnErr, OnOk};
ghost use Rattle.std.specs.Str.{chars};
ghost use Rattle.utf16_units.specs.Edit.{push_text};
ghost use Rattle.utf16_units.specs.Encoding.{size};

use crate::WString;
use std::alloc::Allocator;
use std::fmt;
use utf16_units::Utf16Order;

/// `write!` appends what it formats, piece by piece.
impl<E: Utf16Order, A: Allocator> fmt::Write for WString<E, A> {
    ghost use Rattle.utf16string.specs.WString.{IsUnchanged, wstring_bytes, wstring_capacity, wstring_text, wstring_utf8};

    // The text in UTF-8 has grown by the bytes that were written.
    ghost write_str_gives = { λ s bytes t. wstring_utf8 t ≡ wstring_utf8 s ++ bytes };

    /// Appends the characters of a UTF-8 string, like `push_str`.
    ///
    /// # Errors
    ///
    /// `fmt::Error`, if allocation fails. The string is unchanged by this call. What `write!`
    /// appended before with other calls stays.
    fn write_str(&mut self, s: &str) -> fmt::Result
        ensures ok { IsOk result → wstring_utf8 self.new ≡ wstring_utf8 self.old ++ s.now }
        ensures text { OnOk result (wstring_text self.new
            ≡ push_text (wstring_text self.old) (chars s.now)) }
        ensures err { OnErr result (IsUnchanged self.old self.new) }
        ensures succeeds { length (wstring_bytes self.old) + size (chars s.now)
            ≤ wstring_capacity self.old → IsOk result }
        ensures grows { wstring_capacity self.old ≤ wstring_capacity self.new }
    {
        self.push_str(s)?;
        Ok(())
    }
}
