//! The calls on views, as cases name them.
pub mod compared;
pub mod made;
mod parts;
mod patterns;
mod predicates;
mod shown;
pub mod units;
mod walks;
mod whole;
pub mod written;

use crate::views::made::view;
use tests_support::Run;
use utf16string::{Utf16Order, WStr};

/// Makes a call on a view, whose bytes are the first value. The name has no `WStr::`.
pub fn call<E: Utf16Order>(run: &mut Run, name: &str) -> bool {
    let raw = run.bytes();
    match view::<E>(run, &raw) {
        Some(text) => on_view(run, text, name),
        None => true,
    }
}

fn on_view<E: Utf16Order>(run: &mut Run, text: WStr<E>, name: &str) -> bool {
    whole::call(&mut run.answer, text, name)
        || parts::call(run, text, name)
        || patterns::call(run, text, name)
        || compared::call(run, text, name)
        || predicates::call(run, text, name)
        || walks::call(run, text, name)
        || shown::call(run, text, name)
}
