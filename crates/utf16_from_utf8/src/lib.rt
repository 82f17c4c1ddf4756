//! Conversion of UTF-8 to UTF-16 with SIMD. It validates bytes while it writes them, sixty-four at
//! a time, or sixteen if few are left.
#![tactic(auto)]

mod append;
mod ascii;
mod block;
mod blocks;
mod chars;
mod faults;
mod lanes;
mod limits;
mod pack;
mod positions;
mod read;
mod rest;
mod short;
mod sixteen;
mod text;
mod threes;
mod units;
mod valid;

pub use crate::append::{append_utf16, extend_utf16};
pub use crate::ascii::write_ascii_block;
pub use crate::blocks::write_blocks;
pub use crate::pack::write_kept;
pub use crate::text::{SLACK, write_prefix, write_text};
pub use crate::valid::is_text;
