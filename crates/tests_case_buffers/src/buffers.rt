//! The calls of `utf16_transcode` over buffers that the caller owns, and the calls of the crates
//! below it and below strings, as cases name them.
mod bytes;
mod conversions;
mod fixed;
mod offsets;
mod output;
mod search;
mod streams;
mod texts;
mod wtf8;

pub use crate::buffers::output::filled;
use tests_support::Run;
use utf16_units::Utf16Order;

/// Makes a call over buffers.
pub fn call<E: Utf16Order>(run: &mut Run, name: &str) -> bool {
    match name.split_once("::") {
        Some(("search", call)) => search::call::<E>(run, call),
        Some(("bytes" | "utf8", _)) => offsets::call::<E>(run, name),
        Some(("text", _)) => texts::call::<E>(run, name),
        Some(("Wtf8Stream", _)) => wtf8::stream_call::<E>(run, name),
        Some(_) => streams::call::<E>(run, name),
        None => plain::<E>(run, name),
    }
}

// Makes a call whose name has no `::`.
fn plain<E: Utf16Order>(run: &mut Run, name: &str) -> bool {
    conversions::call::<E>(run, name)
        || bytes::call::<E>(run, name)
        || fixed::call::<E>(run, name)
        || wtf8::call::<E>(run, name)
        || texts::call::<E>(run, name)
        || offsets::call::<E>(run, name)
        || streams::call::<E>(run, name)
}
