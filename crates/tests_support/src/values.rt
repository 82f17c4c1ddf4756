//! The values of a case, read from their words.

use crate::escapes::unescape;
use crate::trouble::Trouble;
use std::alloc::Global;

/// The values of a case that are not taken yet.
#[derive(Drop)]
pub struct Values<'a> {
    left: &'a [&'a str],
}

impl<'a> Values<'a> {
    /// Returns all values of a case.
    pub fn new(words: &'a [&'a str]) -> Self {
        Values { left: words }
    }

    /// Takes the next value, as it is spelled.
    pub fn word(&mut self) -> Result<&'a str, Trouble> {
        let [word, left @ ..] = self.left else {
            return Err(Trouble::Value);
        };
        self.left = left;
        Ok(*word)
    }

    /// Returns the number of remaining values.
    pub fn count(&self) -> usize {
        self.left.len()
    }

    /// Returns an error if a value remains.
    pub fn end(&self) -> Result<(), Trouble> {
        if self.left.is_empty() {
            Ok(())
        } else {
            Err(Trouble::Value)
        }
    }

    /// Takes a number.
    pub fn number(&mut self) -> Result<usize, Trouble> {
        number_of(self.word()?)
    }

    /// Takes a text in double quotes.
    pub fn text(&mut self, alloc: Global) -> Result<String, Trouble> {
        quoted(alloc, self.word()?, '"')
    }

    /// Takes a character in single quotes.
    pub fn character(&mut self, alloc: Global) -> Result<char, Trouble> {
        let text = quoted(alloc, self.word()?, '\'')?;
        let mut chars = text.chars();
        let c = chars.next().ok_or(Trouble::Value)?;
        match chars.next() {
            None => Ok(c),
            Some(_) => Err(Trouble::Value),
        }
    }

    /// Takes bytes, as `bytes_of` reads them.
    pub fn bytes(&mut self, alloc: Global, is_big: bool) -> Result<Vec<u8>, Trouble> {
        bytes_of(alloc, self.word()?, is_big)
    }

    /// Takes bytes in chunks, separated by commas.
    pub fn pieces(&mut self, alloc: Global, is_big: bool) -> Result<Vec<Vec<u8>>, Trouble> {
        let mut pieces = Vec::new(alloc);
        for piece in self.word()?.split(',') {
            pieces
                .push(bytes_of(alloc, piece, is_big)?)
                .map_err(|_| Trouble::Memory)?;
        }
        Ok(pieces)
    }
}

/// Returns the number that a word spells: decimal digits, hex digits after `0x`, or `max` for the
/// greatest `usize`.
pub fn number_of(word: &str) -> Result<usize, Trouble> {
    if word == "max" {
        return Ok(usize::MAX);
    }
    let number = match word.strip_prefix("0x") {
        Some(digits) => usize::from_str_radix(digits, 16),
        None => word.parse::<usize>(),
    };
    number.map_err(|_| Trouble::Value)
}

// Returns the text between two of these quotes.
fn quoted(alloc: Global, word: &str, quote: char) -> Result<String, Trouble> {
    let spelled = word
        .strip_prefix(quote)
        .and_then(|rest| rest.strip_suffix(quote));
    unescape(alloc, spelled.ok_or(Trouble::Value)?)
}

/// Returns whether a word has parts separated by `+`, each after its number of repetitions and a
/// `*`.
pub fn has_parts(word: &str) -> bool {
    word.starts_with(|c: char| c.is_ascii_digit()) && word.contains('*')
}

/// Returns the bytes that a word spells: in hex, as `^` and code units in hex or `~` and a text in
/// double quotes for its UTF-16, both in this byte order, as a text in double quotes for its UTF-8,
/// in parts that are repeated, or `-` for none.
pub fn bytes_of(alloc: Global, word: &str, is_big: bool) -> Result<Vec<u8>, Trouble> {
    if !has_parts(word) {
        return part_of(alloc, word, is_big);
    }
    let mut bytes = Vec::new(alloc);
    for part in word.split('+') {
        repeat(alloc, part, is_big, &mut bytes)?;
    }
    Ok(bytes)
}

// Appends the bytes of a part as often as it says.
fn repeat(alloc: Global, part: &str, is_big: bool, bytes: &mut Vec<u8>) -> Result<(), Trouble> {
    let (count, part) = part.split_once('*').ok_or(Trouble::Value)?;
    let count = number_of(count)?;
    let part = part_of(alloc, part, is_big)?;
    for _ in 0..count {
        bytes.extend_from_slice(&part)?;
    }
    Ok(())
}

// Returns the bytes that a word without parts spells.
fn part_of(alloc: Global, word: &str, is_big: bool) -> Result<Vec<u8>, Trouble> {
    if word == "-" {
        return Ok(Vec::new(alloc));
    }
    if let Some(text) = word.strip_prefix('~') {
        return encoded(alloc, quoted(alloc, text, '"')?.as_str(), is_big);
    }
    if let Some(units) = word.strip_prefix('^') {
        return ordered(alloc, hexed(alloc, units)?.as_slice(), is_big);
    }
    if word.starts_with('"') {
        return Ok(quoted(alloc, word, '"')?.into_bytes());
    }
    hexed(alloc, word)
}

// Returns the bytes of digits in hex.
fn hexed(alloc: Global, digits: &str) -> Result<Vec<u8>, Trouble> {
    hex::decode(alloc, digits).map_err(|_| Trouble::Value)
}

// Returns the bytes of big-endian code units in this byte order. A last odd byte stays.
fn ordered(alloc: Global, units: &[u8], is_big: bool) -> Result<Vec<u8>, Trouble> {
    let mut bytes = Vec::new(alloc);
    for unit in units.chunks(2) {
        match unit {
            [high, low] if !is_big => bytes.extend_from_slice(&[*low, *high])?,
            _ => bytes.extend_from_slice(unit)?,
        }
    }
    Ok(bytes)
}

// Returns a text in UTF-16.
fn encoded(alloc: Global, text: &str, is_big: bool) -> Result<Vec<u8>, Trouble> {
    let mut bytes = Vec::new(alloc);
    for unit in text.encode_utf16() {
        let pair = if is_big {
            unit.to_be_bytes()
        } else {
            unit.to_le_bytes()
        };
        bytes.extend_from_slice(&pair)?;
    }
    Ok(bytes)
}

/// Returns the numbers that a word spells, separated by commas.
pub fn numbers_of(alloc: Global, word: &str) -> Result<Vec<usize>, Trouble> {
    let mut numbers = Vec::new(alloc);
    for part in word.split(',') {
        numbers.push(number_of(part)?).map_err(|_| Trouble::Memory)?;
    }
    Ok(numbers)
}
