//! New strings made of a string: with matches replaced, and repeated.

use crate::strings::held::{Heap, made, part};
use tests_support::Run;
use utf16string::{Pattern, Utf16Order, WString};

/// Makes a call that makes a string of another one.
pub fn call<'a, E: Utf16Order>(
    run: &mut Run<'a>,
    string: &WString<E, Heap<'a>>,
    name: &str,
) -> bool {
    match name {
        "replace" => by_text(run, string, false),
        "replacen" => by_text(run, string, true),
        "replace_char" => by_char(run, string, false),
        "replacen_char" => by_char(run, string, true),
        "repeat" => repeated(run, string),
        _ => return false,
    }
    true
}

fn by_text<'a, E: Utf16Order>(run: &mut Run<'a>, string: &WString<E, Heap<'a>>, is_counted: bool) {
    let from = part::<E>(run);
    replaced(run, string, from.as_wstr(), is_counted);
}

fn by_char<'a, E: Utf16Order>(run: &mut Run<'a>, string: &WString<E, Heap<'a>>, is_counted: bool) {
    let from = run.character();
    replaced(run, string, from, is_counted);
}

// Adds a string with all matches replaced, or as many as the next value says.
fn replaced<'a, E: Utf16Order, P: Pattern<E> + Copy>(
    run: &mut Run<'a>,
    string: &WString<E, Heap<'a>>,
    from: P,
    is_counted: bool,
) {
    let to = part::<E>(run);
    let found = if is_counted {
        let count = run.number();
        string.replacen(run.heap, from, to.as_wstr(), count)
    } else {
        string.replace(run.heap, from, to.as_wstr())
    };
    made(run, found);
}

fn repeated<'a, E: Utf16Order>(run: &mut Run<'a>, string: &WString<E, Heap<'a>>) {
    let n = run.number();
    made(run, string.repeat(run.heap, n));
}
