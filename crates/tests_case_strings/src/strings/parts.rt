//! The substrings of a string, by each kind of range.

use crate::strings::held::Heap;
use tests_support::{By, Run, Span};
use utf16string::{Utf16Order, WStr, WString};

/// Takes a part of a string. The range has the kind that the word has.
pub fn part<E: Utf16Order>(run: &mut Run, string: &WString<E, Heap>, by: By) {
    let span = run.span();
    match (taken(string, by, span), by) {
        (Some(part), _) => run.answer.bytes(part.as_bytes()),
        (None, By::Get) => run.answer.word("none"),
        _ => run.unmet(),
    }
}

// The substring that a call returns, if `get` returns one.
macro_rules! part {
    ($string:expr, $by:expr, $range:expr) => {
        match ($string.get($range), $by) {
            (None, _) => None,
            (Some(part), By::Get) => Some(part),
            (Some(_), By::GetUnchecked) => Some($string.get_unchecked($range)),
            (Some(_), By::Index) => Some($string.index($range)),
        }
    };
}

fn taken<'a, E: Utf16Order>(
    string: &'a WString<E, Heap>,
    by: By,
    span: Span,
) -> Option<WStr<'a, E>> {
    match span {
        Span::From(start) => part!(string, by, start..),
        Span::Between(start, end) => part!(string, by, start..end),
        Span::Through(start, end) => part!(string, by, start..=end),
        Span::Full => part!(string, by, ..),
        Span::To(end) => front(string, by, end, false),
        Span::ToThrough(end) => front(string, by, end, true),
    }
}

// The substring at a range that begins at 0.
fn front<'a, E: Utf16Order>(
    string: &'a WString<E, Heap>,
    by: By,
    end: usize,
    is_inclusive: bool,
) -> Option<WStr<'a, E>> {
    if is_inclusive {
        part!(string, by, ..=end)
    } else {
        part!(string, by, ..end)
    }
}
