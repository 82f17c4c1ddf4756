//! The lines of a report, which are appended to bytes.

ghost use Rattle.std.specs.Prelude.{◌≡◌, ◌<◌, ◌-◌, ◌^◌, [], ◌∷◌, flat_map, length, min, true};
ghost use Rattle.std.specs.Fmt.{digit_glyph, digits};
ghost use Rattle.utf16_program.specs.Lines.{Appends};
ghost use Rattle.utf16_program.specs.Report.{count_line, ill_formed_line, tail_line};
ghost use Rattle.utf16_program.specs.Scans.{lone};

use itoa::Buffer;
use std::alloc::{AllocError, Allocator};
use utf16_units::is_leading_surrogate;

/// Appends the line of an unpaired surrogate at an offset.
///
/// # Errors
///
/// If the capacity does not suffice and allocation fails. The bytes that were there before stay.
pub fn append_unpaired<A: Allocator>(
    offset: u64,
    unit: u16,
    lines: &mut Vec<u8, A>,
) -> Result<(), AllocError>
    ensures { Appends lines.old lines.new result (ill_formed_line offset (lone unit)) }
{
    let kind: &'static [u8] = if is_leading_surrogate(unit) {
        b"): unpaired leading surrogate "
    } else {
        b"): unpaired trailing surrogate "
    };
    append(
        &[
            b"0x",
            hex(offset, &mut [0; 16]),
            b" (",
            Buffer::new().format(offset).as_bytes(),
            kind,
            hex(unit as u64, &mut [0; 16]),
            b"\n",
        ],
        lines,
    )
}

/// Appends the line of an incomplete character at an offset.
///
/// # Errors
///
/// If the capacity does not suffice and allocation fails. The bytes that were there before stay.
pub fn append_incomplete<A: Allocator>(
    offset: u64,
    lines: &mut Vec<u8, A>,
) -> Result<(), AllocError>
    ensures { Appends lines.old lines.new result (tail_line offset (0 ∷ [])) }
{
    append(
        &[
            b"0x",
            hex(offset, &mut [0; 16]),
            b" (",
            Buffer::new().format(offset).as_bytes(),
            b"): incomplete character\n",
        ],
        lines,
    )
}

/// Appends the line that counts.
///
/// # Errors
///
/// If the capacity does not suffice and allocation fails. The bytes that were there before stay.
pub fn append_counts<A: Allocator>(
    bytes: u64,
    chars: u64,
    ill_formed: u64,
    lines: &mut Vec<u8, A>,
) -> Result<(), AllocError>
    ensures { Appends lines.old lines.new result (count_line bytes chars ill_formed) }
{
    append(
        &[
            b"bytes: ",
            Buffer::new().format(bytes).as_bytes(),
            b", characters: ",
            Buffer::new().format(chars).as_bytes(),
            b", ill-formed: ",
            Buffer::new().format(ill_formed).as_bytes(),
            b"\n",
        ],
        lines,
    )
}

// Appends the parts of a line, for which capacity is requested at once.
fn append<A: Allocator>(parts: &[&[u8]], lines: &mut Vec<u8, A>) -> Result<(), AllocError>
    ensures { Appends lines.old lines.new result (flat_map (λ p. p.now) parts.now) }
{
    lines.reserve(len_of(parts))?;
    for part in parts {
        lines.extend_from_slice(part)?;
    }
    Ok(())
}

fn len_of(parts: &[&[u8]]) -> usize
    ensures { result ≡ min (length (flat_map (λ p. p.now) parts.now)) (2 ^ 64 - 1) }
{
    let mut len: usize = 0;
    for part in parts {
        len = len.saturating_add(part.len());
    }
    len
}

// Writes the digits of a number in base 16 to the end of a buffer, and returns them.
fn hex(number: u64, buffer: &mut [u8; 16]) -> &[u8]
    ensures { result.now ≡ digits 16 true number }
{
    let mut left = number;
    let mut at = 16;
    loop {
        at -= 1;
        buffer[at] = hex_digit(left % 16);
        left /= 16;
        if left == 0 {
            return &buffer[at..];
        }
    }
}

fn hex_digit(digit: u64) -> u8
    requires { digit < 16 }
    ensures { result ≡ digit_glyph true digit }
{
    if digit < 10 {
        b'0' + digit as u8
    } else {
        b'A' - 10 + digit as u8
    }
}
