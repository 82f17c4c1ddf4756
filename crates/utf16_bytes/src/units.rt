//! Properties of the code units of any bytes.

ghost use Rattle.std.specs.Prelude.{◌≡◌, ◌↔◌, ◌-◌, ◌/◌, ◌%◌, ◌<◌, All, IsTrue, count_by, length};
ghost use Rattle.std.specs.Char.Utf16.{is_low_surrogate};
ghost use Rattle.utf16_units.specs.Encoding.{IsUtf16, text_of, units_of};

use utf16_units::Utf16Order;
use utf16_units::text::{has_ascii_units, trailing_units};

/// Returns the number of complete code units that are not trailing surrogates: the number of
/// characters if the bytes are well formed. Any bytes are allowed.
///
/// # Complexity
///
/// One pass.
pub fn count_chars<E: Utf16Order>(raw: &[u8]) -> usize
    ensures units { result ≡ length raw.now / 2 - count_by is_low_surrogate
        (units_of E.BIG raw.now) }
    ensures count { IsUtf16 E.BIG raw.now → result ≡ length (text_of E.BIG raw.now) }
{
    raw.len() / 2 - trailing_units::<E>(raw)
}

/// Returns whether the bytes are complete code units that are all ASCII, below U+0080: for
/// well-formed bytes, whether all characters are. Any bytes are allowed.
///
/// # Complexity
///
/// One pass, up to the first block that has another code unit.
pub fn is_ascii<E: Utf16Order>(raw: &[u8]) -> bool
    ensures are_units { IsTrue result ↔ ((length raw.now % 2 ≡ 0)
        × All (λ unit. unit < 0x80) (units_of E.BIG raw.now)) }
    ensures ascii { IsUtf16 E.BIG raw.now
        → (IsTrue result ↔ All (λ c. c < 0x80) (text_of E.BIG raw.now)) }
{
    raw.len() % 2 == 0 && has_ascii_units::<E>(raw)
}
