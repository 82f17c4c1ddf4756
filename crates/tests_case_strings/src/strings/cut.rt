//! Strings shortened and overwritten, and their letters in the other case.

use crate::strings::held::{Heap, part};
use crate::strings::retained::retain;
use tests_support::Run;
use utf16string::{Utf16Order, WString};

/// Makes a call that is always done.
pub fn call<E: Utf16Order>(run: &mut Run, string: &mut WString<E, Heap>, name: &str) -> bool {
    match name {
        "clear" => string.clear(),
        "truncate" => truncate(run, string),
        "overwrite" => overwrite(run, string),
        "retain" => retain(run, string),
        "make_ascii_lowercase" => string.make_ascii_lowercase(),
        "make_ascii_uppercase" => string.make_ascii_uppercase(),
        _ => return false,
    }
    run.done(true);
    true
}

fn truncate<E: Utf16Order>(run: &mut Run, string: &mut WString<E, Heap>) {
    let at = run.number();
    if at >= string.len() || string.is_char_boundary(at) {
        string.truncate(at);
    } else {
        run.unmet();
    }
}

fn overwrite<E: Utf16Order>(run: &mut Run, string: &mut WString<E, Heap>) {
    let idx = run.number();
    let text = part::<E>(run);
    if string.fits(idx, text.as_wstr()) {
        string.overwrite(idx, text.as_wstr());
    } else {
        run.unmet();
    }
}
