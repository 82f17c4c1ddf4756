//! Converts a few characters one by one.

ghost use Rattle.std.specs.Prelude.{◌≡◌, ◌≤◌, length, take};
ghost use Rattle.std.specs.Str.{chars};
ghost use Rattle.utf16_units.specs.Encoding.{encode, size};

use utf16_units::{Utf16CharExt, Utf16Order};

// Writes the characters to the start of a buffer that has space for them, and returns the number of
// bytes written.
pub(crate) fn write_chars<E: Utf16Order>(s: &str, buf: &mut [u8]) -> usize
    requires { size (chars s.now) ≤ length buf.old }
    ensures bytes { take result buf.new ≡ encode E.BIG (chars s.now) }
    ensures written_to { result ≡ size (chars s.now) }
{
    let mut len = 0;
    for c in s.chars() {
        len += c.encode_utf16_into::<E>(&mut buf[len..]);
    }
    len
}
