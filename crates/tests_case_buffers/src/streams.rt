//! The calls of `utf16_streams`, and the check and the words of `utf16_program`, as cases name
//! them.
mod chunkings;
mod devices;
mod fed;
mod filtered;
mod sweeps;
mod words;

use crate::streams::filtered::FilterCall;
use tests_support::Run;
use utf16_streams::{AnyLossy, Lossy, Utf16Order};

/// Makes a call of streams.
pub fn call<E: Utf16Order>(run: &mut Run, name: &str) -> bool {
    match name {
        "decode_pieces" => fed::decode_pieces::<E>(run),
        "every_chunking" => chunkings::every_chunking::<E>(run),
        "AnyLossy::every_chunking" => chunkings::every_any_chunking(run),
        "Lossy::feed" => fed::feed::<Lossy<E>>(run),
        "AnyLossy::feed" => fed::feed::<AnyLossy>(run),
        "Watched::read" => devices::read(run),
        "Watched::write" => devices::write(run),
        "Watched::flush" => devices::flush(run),
        "filter" => filtered::filter::<E>(run, FilterCall::Decode),
        "filter_auto" => filtered::filter::<E>(run, FilterCall::DecodeAuto),
        "encode_stream" => filtered::filter::<E>(run, FilterCall::Encode),
        "encode_stream_with_bom" => filtered::filter::<E>(run, FilterCall::EncodeWithBom),
        "check" => filtered::filter::<E>(run, FilterCall::Check),
        "check_auto" => filtered::filter::<E>(run, FilterCall::CheckAuto),
        "filter_each_read" => sweeps::each_call::<E>(run, FilterCall::Decode, true),
        "filter_each_write" => sweeps::each_call::<E>(run, FilterCall::Decode, false),
        "check_each_read" => sweeps::each_call::<E>(run, FilterCall::Check, true),
        "Program::job" => words::job(run),
        "check_each_write" => sweeps::each_call::<E>(run, FilterCall::Check, false),
        _ => return false,
    }
    true
}
