//! The two byte orders of a code unit.

ghost use Rattle.std.specs.Prelude.{◌≡◌, ◌↔◌, ◌∷◌, [], Bool, Some, true, false, slice_index};
ghost use Rattle.utf16_units.specs.Unit.{unit_bytes, unit_of};

use byteorder::ByteOrder;
pub use byteorder::{BigEndian, LittleEndian};

/// Big endian, the high byte of a code unit first.
pub type BE = BigEndian;

/// Little endian, the low byte of a code unit first.
pub type LE = LittleEndian;

/// A byte order of UTF-16: how a code unit is stored as two bytes.
pub trait Utf16Order {
    /// Whether the high byte comes first.
    const BIG: bool;

    ghost BIG: { Bool };

    /// Returns the code unit of two bytes in this byte order.
    fn read_unit(two: [u8; 2]) -> u16
        ensures { result ≡ unit_of BIG (slice_index two 0) (slice_index two 1) };

    /// Returns the two bytes of a code unit in this byte order.
    fn write_unit(unit: u16) -> [u8; 2]
        ensures { result ≡ unit_bytes BIG unit };
}

impl Utf16Order for BigEndian {
    const BIG: bool = true;

    ghost BIG = { true };

    #[inline]
    fn read_unit(two: [u8; 2]) -> u16 {
        BigEndian::read_u16(&two)
    }

    #[inline]
    fn write_unit(unit: u16) -> [u8; 2] {
        let mut two = [0; 2];
        BigEndian::write_u16(&mut two, unit);
        two
    }
}

impl Utf16Order for LittleEndian {
    const BIG: bool = false;

    ghost BIG = { false };

    #[inline]
    fn read_unit(two: [u8; 2]) -> u16 {
        LittleEndian::read_u16(&two)
    }

    #[inline]
    fn write_unit(unit: u16) -> [u8; 2] {
        let mut two = [0; 2];
        LittleEndian::write_u16(&mut two, unit);
        two
    }
}

/// Returns the byte order that a byte order mark (BOM) at the start of a stream gives:
/// `Some(true)`, big endian, for `FE FF`, `Some(false)`, little endian, for `FF FE`, and `None` for
/// any other two bytes.
///
/// # Source
///
/// Unicode, section 23.8: byte order mark.
#[inline]
pub fn bom_of(first_two: [u8; 2]) -> Option<bool>
    ensures big { (result ≡ Some true) ↔ (first_two ≡ 0xFE ∷ 0xFF ∷ []) }
    ensures little { (result ≡ Some false) ↔ (first_two ≡ 0xFF ∷ 0xFE ∷ []) }
{
    match first_two {
        [0xFE, 0xFF] => Some(true),
        [0xFF, 0xFE] => Some(false),
        _ => None,
    }
}
