//! Proved callers of the decoders, of the laws of the split and of cuts, of streams of UTF-8, and
//! of each conversion with a buffer, to UTF-32, Latin-1 and WTF-8 too: each is the loop that a
//! program in C has, through a small buffer. They use only public calls. Also laws of these calls.
//! `headline` states each phrase of the headline.
#![tactic(auto)]

pub mod bom;
pub mod buffer_call;
pub mod call_laws;
pub mod chars;
pub mod cuts;
pub mod form_laws;
pub mod headline;
pub mod latin1;
pub mod small_buffer;
pub mod std_laws;
pub mod streams;
pub mod through;
pub mod utf32;
pub mod utf8_both;
pub mod utf8_parts;
pub mod utf8_streamed;
pub mod wtf8;
pub mod wtf8_chunks;
pub mod wtf8_stream;
