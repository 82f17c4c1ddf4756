//! Strings made from UTF-8, and UTF-8 appended to a string or inserted into it.

ghost use Rattle.std.specs.Prelude.{◌≡◌, ◌+◌, ◌≤◌, [], length, IfOk, IsOk, OnErr, OnOk};
ghost use Rattle.std.specs.List.{splice};
ghost use Rattle.std.specs.Str.{chars};
ghost use Rattle.std.specs.Vec.{VecUnchanged, vec_capacity, vec_len};
ghost use Rattle.utf16_units.specs.Boundary.{IsBoundary};
ghost use Rattle.utf16_units.specs.Edit.{insert_at, push_text};
ghost use Rattle.utf16_units.specs.Encoding.{encode, size};

use super::inserts::write_char;
use super::ranges::turn_in;
use crate::WString;
use std::alloc::{AllocError, Allocator};
use utf16_from_utf8::{SLACK, append_utf16, extend_utf16, write_text};
use utf16_units::size::utf16_len_by_chars;
use utf16_units::strategy::{FEW_TEXT, SHORT_TEXT};
use utf16_units::{Utf16Order, utf16_len};

impl<E: Utf16Order, A: Allocator> WString<E, A> {
    ghost use Rattle.utf16string.specs.WString.{IsUnchanged, wstring_bytes, wstring_capacity, wstring_text};

    /// Returns a new string with the characters of a UTF-8 string.
    ///
    /// # Errors
    ///
    /// `AllocError`, if allocation fails. It does not fail for the empty text.
    ///
    /// # Complexity
    ///
    /// One pass over a text of 8 to 191 bytes, else two. Allocates once, for as many bytes as the
    /// string takes, and not at all for the empty text.
    #[inline]
    pub fn from_str(alloc: A, s: &str) -> Result<Self, AllocError>
        ensures text { IfOk result (λ t. wstring_text t ≡ chars s.now) }
        ensures nothing { s.now ≡ [] → IsOk result }
        ensures empty { s.now ≡ [] → IfOk result (λ t. wstring_capacity t ≡ 0) }
    {
        if s.len() < FEW_TEXT {
            Self::from_few(alloc, s)
        } else if s.len() <= SHORT_TEXT {
            Self::from_short(alloc, s)
        } else {
            Self::from_long(alloc, s)
        }
    }

    // Converts a few characters, whose length is computed first.
    #[inline(never)]
    fn from_few(alloc: A, s: &str) -> Result<Self, AllocError>
        ensures text { IfOk result (λ t. wstring_text t ≡ chars s.now) }
        ensures nothing { s.now ≡ [] → IsOk result }
        ensures exact { IfOk result (λ t. wstring_capacity t ≡ size (chars s.now)) }
    {
        let mut raw = Vec::with_capacity(alloc, utf16_len_by_chars(s))?;
        for c in s.chars() {
            write_char::<E, A>(&mut raw, c);
        }
        Ok(Self::from_utf16_unchecked(raw))
    }

    // Converts a short text, which is written to the stack before its length is known.
    #[inline(never)]
    fn from_short(alloc: A, s: &str) -> Result<Self, AllocError>
        requires { length s.now ≤ SHORT_TEXT }
        ensures { IfOk result (λ t. wstring_text t ≡ chars s.now) }
    {
        let mut buf = [0; 2 * SHORT_TEXT + SLACK];
        let end = write_text::<E>(s.as_bytes(), &mut buf);
        let mut raw = Vec::with_capacity(alloc, end)?;
        raw.extend_from_slice(&buf[..end])?;
        Ok(Self::from_utf16_unchecked(raw))
    }

    // Converts a long text, whose length is computed first.
    #[inline(never)]
    fn from_long(alloc: A, s: &str) -> Result<Self, AllocError>
        ensures { IfOk result (λ t. wstring_text t ≡ chars s.now) }
    {
        let mut raw = Vec::with_capacity(alloc, utf16_len(s))?;
        extend_utf16::<E, A>(&mut raw, s)?;
        Ok(Self::from_utf16_unchecked(raw))
    }

    /// Appends the characters of a UTF-8 string.
    ///
    /// # Errors
    ///
    /// `AllocError`, if allocation fails. The string is unchanged.
    ///
    /// # Complexity
    ///
    /// One pass over a text of fewer than 192 bytes, else two. Allocates at most once, and not at
    /// all if the text fits in the capacity.
    pub fn push_str(&mut self, string: &str) -> Result<(), AllocError>
        ensures text { OnOk result (wstring_text self.new
            ≡ push_text (wstring_text self.old) (chars string.now)) }
        ensures len { OnOk result (length (wstring_bytes self.new)
            ≡ length (wstring_bytes self.old) + size (chars string.now)) }
        ensures err { OnErr result (IsUnchanged self.old self.new) }
        ensures succeeds { length (wstring_bytes self.old) + size (chars string.now)
            ≤ wstring_capacity self.old → IsOk result }
        ensures grows { wstring_capacity self.old ≤ wstring_capacity self.new }
    {
        append_utf16::<E, A>(&mut self.raw, string)
    }

    /// Inserts the characters of a UTF-8 string at a byte offset.
    ///
    /// # Errors
    ///
    /// `AllocError`, if allocation fails. The string is unchanged.
    ///
    /// # Precondition
    ///
    /// The offset is a character boundary (check with `is_char_boundary`).
    ///
    /// # Complexity
    ///
    /// As of `push_str`. Moves the bytes after the offset in blocks.
    ///
    /// # Source
    ///
    /// `String::insert_str`.
    pub fn insert_str(&mut self, idx: usize, string: &str) -> Result<(), AllocError>
        requires { IsBoundary (wstring_text self.old) idx }
        ensures text { OnOk result (wstring_text self.new
            ≡ insert_at (wstring_text self.old) idx (chars string.now)) }
        ensures len { OnOk result (length (wstring_bytes self.new)
            ≡ length (wstring_bytes self.old) + size (chars string.now)) }
        ensures err { OnErr result (IsUnchanged self.old self.new) }
        ensures succeeds { length (wstring_bytes self.old) + size (chars string.now)
            ≤ wstring_capacity self.old → IsOk result }
        ensures grows { wstring_capacity self.old ≤ wstring_capacity self.new }
    {
        insert_utf8::<E, A>(&mut self.raw, idx, string)
    }
}

// Inserts the characters of a UTF-8 string at an index. If allocation fails, nothing has changed.
// They are appended first, since a vector grows only at its end.
fn insert_utf8<E: Utf16Order, A: Allocator>(
    raw: &mut Vec<u8, A>,
    index: usize,
    string: &str,
) -> Result<(), AllocError>
    requires { index ≤ vec_len raw.old }
    ensures items { OnOk result (raw.new.items
        ≡ splice raw.old.items index index (encode E.BIG (chars string.now))) }
    ensures err { OnErr result (VecUnchanged raw.old raw.new
        × (vec_capacity raw.new ≡ vec_capacity raw.old)) }
    ensures succeeds { vec_len raw.old + size (chars string.now) ≤ vec_capacity raw.old
        → IsOk result }
    ensures grows { vec_capacity raw.old ≤ vec_capacity raw.new }
{
    let len = raw.len();
    append_utf16::<E, A>(raw, string)?;
    let added = raw.len() - len;
    turn_in(raw, index, added);
    Ok(())
}
