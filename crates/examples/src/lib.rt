//! Code that uses the strings and streams: tables of texts, of names, and of keys and values,
//! fields of records, transcoders, lines of a registry export and of a log, JSON strings, common
//! prefixes, and counts of a stream.
#![tactic(auto)]

pub mod counts;
pub mod interner;
pub mod json;
pub mod log;
pub mod multi_sz;
pub mod prefixes;
pub mod records;
pub mod registry;
pub mod table;
pub mod transcode;
