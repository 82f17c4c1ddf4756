//! The calls of the base, of views, of strings and of edits, as cases name them. In each module,
//! `call` makes the call of a name and returns whether the module has it.
#![tactic(auto)]

mod edits;
mod strings;
mod views;

use crate::views::{made, units, written};
use tests_support::Run;
use utf16string::Utf16Order;

/// Makes the call of this name and adds what it gave. Returns whether this crate has the call.
pub fn call<E: Utf16Order>(run: &mut Run, name: &str) -> bool {
    match name.rsplit_once("::") {
        Some(("WString", call)) => {
            strings::made::call::<E>(run, call) || strings::call::<E>(run, call)
        }
        Some(("WStrMut", call)) => written::call::<E>(run, call),
        Some(("WStr", call)) => made::call::<E>(run, call) || views::call::<E>(run, call),
        Some(("Extend", _)) => strings::call::<E>(run, name),
        Some((kind, _)) if kind.starts_with("WStr") || kind == "ParseError" => {
            views::call::<E>(run, name)
        }
        _ => units::call::<E>(run, name) || edits::call::<E>(run, name),
    }
}
