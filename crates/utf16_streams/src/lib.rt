//! UTF-16 and UTF-8 that come in chunks: decoders, filters from a reader to a writer in both
//! directions, and readers and writers whose I/O errors are counted. The byte orders are
//! re-exported, so that a user names only this crate.
#![tactic(auto)]

mod any_lossy;
pub mod bom_laws;
mod decoder;
mod encode_filters;
mod encoder;
mod filters;
mod lossy;
mod transcoder;
mod watched;

pub use crate::any_lossy::AnyLossy;
pub use crate::encode_filters::{encode_stream, encode_stream_with_bom};
pub use crate::filters::{FilterFault, filter, filter_auto, filter_by};
pub use crate::lossy::{Lossy, decode_pieces};
pub use crate::transcoder::Transcoder;
pub use crate::watched::{DeviceFault, Watched};
pub use utf16_units::{BE, BigEndian, LE, LittleEndian, Utf16Order};
