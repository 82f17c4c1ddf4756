//! The calls over buffers and of streams, as cases name them. In each module, `call` makes the call
//! of a name and returns whether the module has it.
#![tactic(auto)]

mod buffers;
mod streams;

use tests_support::Run;
use utf16_units::Utf16Order;

/// Makes the call of this name and adds what it gave. Returns whether this crate has the call.
pub fn call<E: Utf16Order>(run: &mut Run, name: &str) -> bool {
    match name.rsplit_once("::") {
        Some(("AnyLossy" | "Lossy" | "Program" | "Watched", _)) => streams::call::<E>(run, name),
        _ => buffers::call::<E>(run, name) || streams::call::<E>(run, name),
    }
}
