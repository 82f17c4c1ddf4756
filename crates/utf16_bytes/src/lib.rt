//! Any bytes as UTF-16, well formed or not, without conversion to another encoding: the byte order
//! swapped in place, the order of two texts, how many characters there are, where bytes may be cut
//! so that the parts decode to the parts of the text, and where a pattern or a character occurs
//! first or last. `Pattern` is what a search looks for: a character, or a view of `utf16_str`.
#![tactic(auto)]

mod backwards;
mod boundary;
mod bytes;
mod char_pattern;
pub mod cut_laws;
mod file;
mod first;
mod forwards;
mod nul;
mod order;
mod pattern;
mod repeats;
pub mod search_laws;
mod shards;
mod swap;
mod units;

pub use crate::backwards::{rfind, rfind_char};
pub use crate::boundary::{floor_char_boundary, is_char_boundary};
pub use crate::file::floor_char_boundary_around;
pub use crate::forwards::{find, find_char};
pub use crate::nul::nul_offset;
pub use crate::order::compare;
pub use crate::pattern::Pattern;
pub use crate::shards::shard_offset;
pub use crate::swap::swap_byte_order;
pub use crate::units::{count_chars, is_ascii};
