//! The kernel from UTF-16 to UTF-8, with SIMD: the length, writers into a buffer that you own, and
//! a text's bytes in a new `String` or appended to one.
#![tactic(auto)]

mod append;
mod blocks;
mod chars;
mod groups;
mod lanes;
pub mod laws;
mod lens;
mod pack;
mod padded;
mod places;
mod runs;
mod short;
mod vectors;
mod word_places;
mod write;

pub use crate::append::{append_utf8, to_utf8};
pub use crate::chars::{put, put_char};
pub use crate::lens::utf8_len;
pub use crate::short::write_eight_ascii;
pub use crate::vectors::write_vectors;
pub use crate::write::{SLACK, write_blocks, write_utf8};
