//! The ill-formed sequences of bytes in a given byte order.

ghost use Rattle.std.specs.Prelude.{◌≡◌, ◌+◌, ◌<◌, ◌^◌, IfOk, OnErr, length, vec_capacity, vec_len};
ghost use Rattle.utf16_units.specs.Split.{split_items};
ghost use Rattle.utf16_program.specs.Report.{ill_formed_lines};
ghost use Rattle.utf16_program.specs.Scans.{IsFront, Scans};

use crate::lines::append_unpaired;
use std::alloc::{AllocError, Allocator};
use utf16_units::text::count_chars;
use utf16_units::{BE, LE, Utf16Order, validate_raw_utf16};

/// What a scan found.
#[derive(Clone, Copy)]
pub struct Found {
    /// The number of bytes before the incomplete character at the end.
    pub taken: usize,
    /// The number of characters.
    pub chars: usize,
    /// The number of unpaired surrogates.
    pub unpaired: usize,
}

/// Scans bytes, the first of which is at `offset` in the input, and appends a line for each
/// unpaired surrogate.
///
/// # Errors
///
/// If the capacity does not suffice and allocation fails. In that case the lines are unchanged.
///
/// # Precondition
///
/// `offset` and the number of bytes fit a `u64` together.
///
/// # Complexity
///
/// Linear time.
pub fn scan<A: Allocator>(
    big_endian: bool,
    offset: u64,
    bytes: &[u8],
    lines: &mut Vec<u8, A>,
) -> Result<Found, AllocError>
    requires { offset + length bytes.now < 2 ^ 64 }
    ensures found { IfOk result (Scans big_endian offset bytes.now lines.old.items
        lines.new.items) }
    ensures full { OnErr result (vec_capacity lines.old < vec_len lines.old
        + length (ill_formed_lines big_endian offset (split_items big_endian bytes.now))) }
    ensures err { OnErr result (lines.new.items ≡ lines.old.items) }
{
    if big_endian {
        scan_in::<BE, A>(offset, bytes, lines)
    } else {
        scan_in::<LE, A>(offset, bytes, lines)
    }
}

// Scans bytes in the byte order `E`, as `scan` does.
fn scan_in<E: Utf16Order, A: Allocator>(
    offset: u64,
    bytes: &[u8],
    lines: &mut Vec<u8, A>,
) -> Result<Found, AllocError>
    requires { offset + length bytes.now < 2 ^ 64 }
    ensures found { IfOk result (Scans E.BIG offset bytes.now lines.old.items lines.new.items) }
    ensures full { OnErr result (vec_capacity lines.old < vec_len lines.old
        + length (ill_formed_lines E.BIG offset (split_items E.BIG bytes.now))) }
    ensures err { OnErr result (lines.new.items ≡ lines.old.items) }
{
    let before = lines.len();
    let mut found = Found {
        taken: 0,
        chars: 0,
        unpaired: 0,
    };
    loop {
        let front = front_of::<E>(&bytes[found.taken..]);
        found.chars += front.chars;
        found.taken += front.len;
        let Some(unit) = front.unpaired else {
            return Ok(found);
        };
        if let Err(error) = append_unpaired(offset + found.taken as u64, unit, lines) {
            lines.truncate(before);
            return Err(error);
        }
        found.taken += 2;
        found.unpaired += 1;
    }
}

// What bytes begin with: characters, and an unpaired surrogate if one comes after them.
#[derive(Clone, Copy)]
struct Front {
    len: usize,
    chars: usize,
    unpaired: Option<u16>,
}

// Returns the longest well-formed front of bytes, and the unpaired surrogate after it. If there is
// none, the bytes after the front are an incomplete character, or there are none.
fn front_of<E: Utf16Order>(bytes: &[u8]) -> Front
    ensures { IsFront E.BIG bytes.now result }
{
    let Err(error) = validate_raw_utf16::<E>(bytes) else {
        return Front {
            len: bytes.len(),
            chars: count_chars::<E>(bytes),
            unpaired: None,
        };
    };
    let (front, back) = bytes.split_at(error.valid_up_to());
    let unpaired = match error.error_len() {
        Some(_) => Some(E::read_unit([back[0], back[1]])),
        None => None,
    };
    Front {
        len: front.len(),
        chars: count_chars::<E>(front),
        unpaired,
    }
}
