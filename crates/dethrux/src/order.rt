//! The order of two texts.

ghost use Rattle.std.specs.Prelude.{◌≡◌, ◌↔◌, negsuc, pos};
ghost use Rattle.utf16_units.specs.Split.{lossy_text};
ghost use Rattle.utf16_units.specs.TextOrder.{IsBefore};
ghost use Rattle.dethrux.specs.Numbers.{is_big};

use crate::byte_order::is_big_endian;
use std::cmp::Ordering;
use utf16_bytes::compare;
use utf16_units::{BE, LE};

/// Compares two texts by their scalar values, each in its byte order: returns -1, 0 or 1 if the
/// first is less than, equal to or greater than the second. An unpaired surrogate, and an
/// incomplete character at the end, counts as U+FFFD. Reads both up to the first character that
/// differs.
#[unsafe(no_mangle)]
pub extern "C" fn dethrux_compare(
    first_order: u32,
    first: &[u8],
    second_order: u32,
    second: &[u8],
) -> i32
    ensures less { (result ≡ negsuc 0) ↔ IsBefore (lossy_text (is_big first_order) first.now)
        (lossy_text (is_big second_order) second.now) }
    ensures equal { (result ≡ pos 0) ↔ (lossy_text (is_big first_order) first.now
        ≡ lossy_text (is_big second_order) second.now) }
    ensures greater { (result ≡ pos 1) ↔ IsBefore (lossy_text (is_big second_order) second.now)
        (lossy_text (is_big first_order) first.now) }
{
    let order = match (is_big_endian(first_order), is_big_endian(second_order)) {
        (false, false) => compare::<LE, LE>(first, second),
        (false, true) => compare::<LE, BE>(first, second),
        (true, false) => compare::<BE, LE>(first, second),
        (true, true) => compare::<BE, BE>(first, second),
    };
    match order {
        Ordering::Less => -1,
        Ordering::Equal => 0,
        Ordering::Greater => 1,
    }
}
