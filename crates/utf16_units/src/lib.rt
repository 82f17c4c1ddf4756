//! UTF-16 code units and bytes: byte orders, surrogates, one character, the validator and its
//! error.
#![tactic(auto)]

#[cfg(test)]
mod block_tests;
pub mod blocks;
mod byte_order;
mod char;
pub mod compare;
pub mod ends;
mod error;
pub mod index_rows;
pub mod laws;
mod moved;
pub mod plain;
pub mod size;
pub mod strategy;
pub mod surrogates;
pub mod text;
mod unit;
mod validate;

pub use crate::byte_order::{BE, BigEndian, LE, LittleEndian, Utf16Order, bom_of};
pub use crate::char::Utf16CharExt;
pub use crate::error::{Detail, Utf16Error};
pub use crate::moved::Moved;
pub use crate::size::utf16_len;
pub use crate::unit::{decode_surrogates, is_leading_surrogate, is_trailing_surrogate};
pub use crate::validate::{first_char_len, validate_raw_utf16};
