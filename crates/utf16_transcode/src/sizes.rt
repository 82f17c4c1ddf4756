//! The length of a text in the other encoding, in bytes.
//!
//! Valid parts are counted with SIMD, and each ill-formed sequence adds the length of U+FFFD. Only
//! parts of fewer than sixteen bytes are counted character by character.

ghost use Rattle.std.specs.Prelude.{◌≡◌, IsTrue, encode_utf8_all, length, take};
ghost use Rattle.std.specs.Str.{IsUtf8, chars};
ghost use Rattle.std.specs.Str.Lossy.{utf8_valid_len};
ghost use Rattle.utf16_units.specs.Encoding.{size};
ghost use Rattle.utf16_units.specs.Split.{lossy_text};

use crate::direction::BLOCK_LEN;
use crate::replacement::REPLACEMENT;
use utf16_from_utf8::is_text;
use utf16_to_utf8::utf8_len;
use utf16_units::strategy::FEW_TEXT;
use utf16_units::{Utf16Order, utf16_len, validate_raw_utf16};

/// Returns the length in bytes of the output of `to_utf8_lossy` for the whole input. Any bytes are
/// allowed.
///
/// # Complexity
///
/// Two passes.
pub fn to_utf8_lossy_len<E: Utf16Order>(raw: &[u8]) -> usize
    ensures { result ≡ length (encode_utf8_all (lossy_text E.BIG raw.now)) }
{
    let mut rest = raw;
    let mut size = 0;
    loop {
        let error = match validate_raw_utf16::<E>(rest) {
            Ok(()) => return size + utf8_len::<E>(rest),
            Err(error) => error,
        };
        let (front, next) = rest.split_at(error.valid_up_to());
        size += utf8_len::<E>(front) + REPLACEMENT.len();
        match error.error_len() {
            Some(len) => rest = &next[len..],
            None => return size,
        }
    }
}

/// Returns the length in bytes of UTF-16, in either byte order, of the longest valid prefix of
/// UTF-8: of all of the bytes if they are UTF-8. Any bytes are allowed.
///
/// # Complexity
///
/// Two passes, or three if the bytes are not UTF-8.
pub fn from_utf8_len(text: &[u8]) -> usize
    ensures { result ≡ size (chars (take (utf8_valid_len text.now) text.now)) }
{
    if is_text_within_block(text) {
        return utf16_len(unsafe { str::from_utf8_unchecked(text) });
    }
    match simdutf8::compat::from_utf8(text) {
        Ok(text) => utf16_len(text),
        Err(error) => {
            utf16_len(unsafe { str::from_utf8_unchecked(&text[..error.valid_up_to()]) })
        }
    }
}

// Whether the bytes are a text of eight bytes or more and less than a block, in which `simdutf8`
// goes byte by byte: on 62 bytes of Greek that takes four times as long.
pub(crate) fn is_text_within_block(bytes: &[u8]) -> bool
    ensures { IsTrue result → IsUtf8 bytes.now }
{
    (FEW_TEXT..BLOCK_LEN).contains(&bytes.len()) && is_text(bytes)
}
