//! Views of UTF-16 strings in either byte order: `WStr` is what `&str` is for UTF-8, and `WStrMut`,
//! which can be overwritten, what `&mut str` is.
#![tactic(auto)]

mod affixes;
mod ascii;
mod ascii_whitespace;
mod find_with;
mod iters;
mod lines;
mod matches;
mod parse;
mod parts;
mod remaining;
mod search;
mod slicing;
mod split;
mod split_with;
mod splitn;
mod terminators;
mod trim;
mod trim_matches;
mod trim_with;
mod utf8;
mod words;
mod wstr;
mod wstr_mut;

pub use crate::iters::{WStrCharIndices, WStrChars};
pub use crate::lines::WStrLines;
pub use crate::matches::{WStrMatchIndices, WStrMatches, WStrRMatchIndices};
pub use crate::parse::ParseError;
pub use crate::slicing::SliceIndex;
pub use crate::split::{WStrRSplit, WStrSplit};
pub use crate::split_with::WStrSplitWith;
pub use crate::splitn::{WStrRSplitN, WStrSplitN};
pub use crate::terminators::{WStrSplitInclusive, WStrSplitTerminator};
pub use crate::words::{WStrSplitAsciiWhitespace, WStrSplitWhitespace};
pub use crate::wstr::WStr;
pub use crate::wstr_mut::WStrMut;
pub use utf16_bytes::Pattern;
pub use utf16_to_utf8::{append_utf8, to_utf8};
pub use utf16_units::{BE, BigEndian, LE, LittleEndian, Utf16Error, Utf16Order};
