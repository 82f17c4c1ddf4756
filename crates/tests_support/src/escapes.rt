//! Characters as a table spells them: the visible ones of ASCII as they are, and all others as
//! their number.

use crate::trouble::Trouble;
use std::alloc::{AllocError, Global};

// Returns whether a character is spelled by itself.
fn is_plain(c: char) -> bool {
    c.is_ascii_graphic() && !matches!(c, '"' | '\'' | '\\')
}

/// Appends a character: itself, or its number in hex, such as `\u{1F600}`.
pub fn push_escaped(to: &mut String, c: char) -> Result<(), AllocError> {
    if is_plain(c) {
        to.push(c)
    } else {
        let number = u32::from(c);
        write!(to, "\\u{{{number:X}}}")
    }
}

/// Returns the text that this spells. `Value` if a number is not the number of a character.
pub fn unescape(alloc: Global, spelled: &str) -> Result<String, Trouble> {
    let mut text = String::new(alloc);
    let mut parts = spelled.split("\\u{");
    if let Some(plain) = parts.next() {
        text.push_str(plain)?;
    }
    for part in parts {
        push_unescaped(&mut text, part)?;
    }
    Ok(text)
}

// Appends the character of a number in hex before a `}`, and what follows it as it is.
fn push_unescaped(text: &mut String, part: &str) -> Result<(), Trouble> {
    let (digits, plain) = part.split_once('}').ok_or(Trouble::Value)?;
    text.push(numbered(digits).ok_or(Trouble::Value)?)?;
    Ok(text.push_str(plain)?)
}

// Returns the character of a number in hex.
fn numbered(digits: &str) -> Option<char> {
    char::from_u32(u32::from_str_radix(digits, 16).ok()?)
}
