//! UTF-16 for callers in C, and in any language that can call C; `include/dethrux.h` documents the
//! calls. They only call functions of the crates below, in the byte order that they are passed,
//! except the calls for the BOM and the version. A slice is a pointer and a length in bytes in C.
//! No call allocates, and none has a precondition on the bytes.
#![tactic(auto)]

mod bom;
mod boundary;
mod byte_order;
mod decoder;
mod encoder;
mod find;
mod from_utf8;
mod in_place;
mod inspect;
mod latin1;
mod nul;
mod order;
mod results;
mod to_utf8;
mod utf32;
mod validate;
mod version;
mod wtf8;
mod wtf8_encoder;
