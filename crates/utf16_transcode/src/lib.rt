//! Conversion between UTF-16 and UTF-8 into buffers that you own, without allocation. Each
//! direction converts up to the first ill-formed sequence, lossy with U+FFFD for each ill-formed
//! sequence, and as a stream that comes in chunks. Also the length of each result, and how many
//! ill-formed sequences are replaced.
#![tactic(auto)]

mod ascii;
mod chars;
mod counts;
mod decode;
mod decode_lossy;
mod direction;
mod encode;
mod encode_lossy;
mod encode_stream;
mod items;
pub mod joined;
pub mod laws;
mod lossy_direction;
mod lossy_transcoding;
mod progress;
mod replacement;
mod sizes;
mod stream;
mod transcoding;
mod well_formed;

pub use crate::counts::{from_utf8_replacements, to_utf8_replacements};
pub use crate::decode::{ToUtf8, to_utf8};
pub use crate::decode_lossy::{to_utf8_lossy, to_utf8_partial};
pub use crate::direction::Direction;
pub use crate::encode::{FromUtf8, from_utf8};
pub use crate::encode_lossy::{from_utf8_lossy, from_utf8_lossy_len, from_utf8_partial};
pub use crate::encode_stream::{feed_utf8, finish_utf8};
pub use crate::lossy_direction::LossyDirection;
pub use crate::lossy_transcoding::{transcode_lossy, transcode_partial};
pub use crate::progress::{Progress, Stop};
pub use crate::replacement::REPLACEMENT;
pub use crate::sizes::{from_utf8_len, to_utf8_lossy_len};
pub use crate::stream::{CHUNK_LEN, FEED_SLACK, SHORT_CHUNK, Stream};
pub use crate::transcoding::transcode;
pub use crate::well_formed::{make_well_formed, write_well_formed};
pub use utf16_to_utf8::put;
pub use utf16_units::Moved;
