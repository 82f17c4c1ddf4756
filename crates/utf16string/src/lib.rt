//! UTF-16 strings in either byte order: `WStr` and `WString` are to UTF-16 bytes what `str` and
//! `String` are to UTF-8.
//!
//! This crate holds the owned string. It re-exports the views of `utf16_str` and the byte orders,
//! so that you need to name only this crate.
#![tactic(auto)]

mod retain;
mod retain_blocks;
mod wstring;

pub use crate::wstring::WString;
pub use utf16_str::{
    BE, BigEndian, LE, LittleEndian, ParseError, Pattern, SliceIndex, Utf16Error, Utf16Order, WStr,
    WStrCharIndices, WStrChars, WStrLines, WStrMatchIndices, WStrMatches, WStrMut,
    WStrRMatchIndices, WStrRSplit, WStrRSplitN, WStrSplit, WStrSplitAsciiWhitespace,
    WStrSplitInclusive, WStrSplitN, WStrSplitTerminator, WStrSplitWhitespace, WStrSplitWith,
};
