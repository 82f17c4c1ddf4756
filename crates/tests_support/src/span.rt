//! Ranges as a table spells them, and the three calls that return the substring at a range.

use crate::trouble::Trouble;
use crate::values::number_of;

/// A range of bytes, of one of the six kinds.
#[derive(Clone, Copy, Drop)]
pub enum Span {
    Between(usize, usize),
    From(usize),
    To(usize),
    Full,
    Through(usize, usize),
    ToThrough(usize),
}

impl Span {
    /// Returns the range that a word spells.
    pub fn read(word: &str) -> Result<Self, Trouble> {
        match word.split_once("..=") {
            Some(("", end)) => Ok(Span::ToThrough(number_of(end)?)),
            Some((start, end)) => Ok(Span::Through(number_of(start)?, number_of(end)?)),
            None => Span::read_open(word),
        }
    }

    // Returns a range without an end, or with an end that is not included.
    fn read_open(word: &str) -> Result<Self, Trouble> {
        match word.split_once("..").ok_or(Trouble::Value)? {
            ("", "") => Ok(Span::Full),
            ("", end) => Ok(Span::To(number_of(end)?)),
            (start, "") => Ok(Span::From(number_of(start)?)),
            (start, end) => Ok(Span::Between(number_of(start)?, number_of(end)?)),
        }
    }
}

/// A call that returns a substring.
#[derive(Clone, Copy, Drop)]
pub enum By {
    Get,
    GetUnchecked,
    Index,
}
