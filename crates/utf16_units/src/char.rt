//! UTF-16 of one character.

ghost use Rattle.std.specs.Prelude.{◌≡◌, ℕ, ◌≤◌, ◌++◌, length, drop};
ghost use Rattle.utf16_units.specs.Encoding.{char_bytes, char_size};

use crate::Utf16Order;

/// Extension of `char` for UTF-16.
pub trait Utf16CharExt {
    /// The code point, a number.
    ghost code: { Self → ℕ };

    /// Returns the number of bytes that the character takes in UTF-16, 2 or 4.
    fn encoded_utf16_len(self) -> usize
        ensures { result ≡ char_size (code self) };

    /// Writes the character in UTF-16 to the start of `buf` and returns the number of bytes
    /// written. Later bytes are unchanged.
    ///
    /// # Precondition
    ///
    /// `buf` has at least as many bytes as `encoded_utf16_len` returns.
    fn encode_utf16_into<E: Utf16Order>(self, buf: &mut [u8]) -> usize
        requires { char_size (code self) ≤ length buf.old }
        ensures len { result ≡ char_size (code self) }
        ensures bytes { buf.new ≡ char_bytes E.BIG (code self) ++ drop (char_size (code self))
            buf.old };
}

impl Utf16CharExt for char {
    ghost code = { λ c. c };

    #[inline]
    fn encoded_utf16_len(self) -> usize {
        if (self as u32) < 0x1_0000 { 2 } else { 4 }
    }

    #[inline]
    fn encode_utf16_into<E: Utf16Order>(self, buf: &mut [u8]) -> usize {
        let code = self as u32;
        if code < 0x1_0000 {
            buf[..2].copy_from_slice(&E::write_unit(code as u16));
            return 2;
        }
        let above = code - 0x1_0000;
        buf[..2].copy_from_slice(&E::write_unit((0xD800 + above / 0x400) as u16));
        buf[2..4].copy_from_slice(&E::write_unit((0xDC00 + above % 0x400) as u16));
        4
    }
}
