//! Edits of UTF-16 strings as values, applied one by one or as a list with a reply for each, and a
//! decoder of UTF-8 that comes in chunks into a UTF-16 string. The crate also re-exports, from
//! `utf16_streams`, decoders of UTF-16 that comes in chunks, filters from a reader to a writer, and
//! readers and writers whose I/O errors are counted.
#![tactic(auto)]

mod edit;
mod utf8_decoder;
mod utf8_parts;
mod utf8_pieces;

pub use crate::edit::{Edit, Reply, apply, run};
pub use crate::utf8_decoder::Utf8Decoder;
pub use crate::utf8_pieces::encode_pieces;
pub use utf16_streams::{
    AnyLossy, DeviceFault, FilterFault, Lossy, Watched, decode_pieces, filter, filter_auto,
};
