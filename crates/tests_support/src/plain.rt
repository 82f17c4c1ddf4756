//! A decoder for tests that follows the definition of UTF-16, one code unit after another, and
//! calls nothing of the libraries.

use std::alloc::{AllocError, Allocator};

const REPLACEMENT: char = '\u{FFFD}';

// Returns the code unit of two bytes.
fn unit(big: bool, two: [u8; 2]) -> u32 {
    let [high, low] = if big { two } else { [two[1], two[0]] };
    u32::from(high) * 256 + u32::from(low)
}

// Returns the character of a leading and a trailing surrogate.
fn pair(leading: u32, trailing: u32) -> Option<char> {
    if 0xD800 <= leading && leading < 0xDC00 && 0xDC00 <= trailing && trailing < 0xE000 {
        char::from_u32(0x10000 + (leading - 0xD800) * 0x400 + (trailing - 0xDC00))
    } else {
        None
    }
}

/// Appends the text of the bytes that is certain, with U+FFFD for each unpaired surrogate, and
/// returns the number of pending bytes at the end: an odd byte, a leading surrogate, or both.
pub fn decode<A: Allocator>(
    big: bool,
    bytes: &[u8],
    to: &mut String<A>,
) -> Result<usize, AllocError> {
    let mut rest = bytes;
    while let [one, two, next @ ..] = rest {
        let first = unit(big, [*one, *two]);
        let is_leading = 0xD800 <= first && first < 0xDC00;
        let [three, four, after @ ..] = next else {
            if is_leading {
                return Ok(rest.len());
            }
            to.push(char::from_u32(first).unwrap_or(REPLACEMENT))?;
            rest = next;
            continue;
        };
        match pair(first, unit(big, [*three, *four])) {
            Some(c) => {
                to.push(c)?;
                rest = after;
            }
            None => {
                to.push(char::from_u32(first).unwrap_or(REPLACEMENT))?;
                rest = next;
            }
        }
    }
    Ok(rest.len())
}

/// Does the same, with one more U+FFFD if bytes are pending: appends the text of a whole stream.
pub fn to_utf8_lossy<A: Allocator>(
    big: bool,
    bytes: &[u8],
    to: &mut String<A>,
) -> Result<(), AllocError> {
    if decode(big, bytes, to)? == 0 {
        return Ok(());
    }
    to.push(REPLACEMENT)
}
