//! Parts of views at ranges and offsets.

use crate::views::made::view;
use crate::views::patterns::both;
use tests_support::{By, Run, Span};
use utf16string::{Utf16Order, WStr};

/// Makes a call with a range or an offset, or that splits from the back.
pub fn call<E: Utf16Order>(run: &mut Run, text: WStr<E>, name: &str) -> bool {
    match name {
        "get" => range(run, text, By::Get),
        "get_unchecked" => range(run, text, By::GetUnchecked),
        "index" => range(run, text, By::Index),
        "fits" => fits(run, text),
        "is_char_boundary" => is_char_boundary(run, text),
        "split_at" => split_at(run, text),
        "split_at_checked" => split_at_checked(run, text),
        "WStrSplit::rev" => split_back(run, text),
        _ => return false,
    }
    true
}

// The substring that a call returns, if `get` returns one.
macro_rules! part {
    ($text:expr, $by:expr, $range:expr) => {
        match ($text.get($range), $by) {
            (None, _) => None,
            (Some(part), By::Get) => Some(part),
            (Some(_), By::GetUnchecked) => Some($text.get_unchecked($range)),
            (Some(_), By::Index) => Some($text.index($range)),
        }
    };
}

fn part<'a, E: Utf16Order>(text: WStr<'a, E>, by: By, span: Span) -> Option<WStr<'a, E>> {
    match span {
        Span::From(start) => part!(text, by, start..),
        Span::Between(start, end) => part!(text, by, start..end),
        Span::Through(start, end) => part!(text, by, start..=end),
        Span::Full => part!(text, by, ..),
        Span::To(end) => front(text, by, end, false),
        Span::ToThrough(end) => front(text, by, end, true),
    }
}

// The substring at a range that begins at 0.
fn front<'a, E: Utf16Order>(
    text: WStr<'a, E>,
    by: By,
    end: usize,
    is_inclusive: bool,
) -> Option<WStr<'a, E>> {
    if is_inclusive {
        part!(text, by, ..=end)
    } else {
        part!(text, by, ..end)
    }
}

fn range<E: Utf16Order>(run: &mut Run, text: WStr<E>, by: By) {
    let span = run.span();
    match (part(text, by, span), by) {
        (Some(part), _) => run.answer.bytes(part.as_bytes()),
        (None, By::Get) => run.answer.word("none"),
        _ => run.unmet(),
    }
}

fn split_at<E: Utf16Order>(run: &mut Run, text: WStr<E>) {
    let mid = run.number();
    if text.is_char_boundary(mid) {
        both(&mut run.answer, Some(text.split_at(mid)));
    } else {
        run.unmet();
    }
}

fn split_at_checked<E: Utf16Order>(run: &mut Run, text: WStr<E>) {
    let mid = run.number();
    both(&mut run.answer, text.split_at_checked(mid));
}

fn split_back<E: Utf16Order>(run: &mut Run, text: WStr<E>) {
    for part in text.split(run.character()).rev() {
        run.answer.bytes(part.as_bytes());
    }
}

fn is_char_boundary<E: Utf16Order>(run: &mut Run, text: WStr<E>) {
    let index = run.number();
    run.answer.truth(text.is_char_boundary(index));
}

fn fits<E: Utf16Order>(run: &mut Run, text: WStr<E>) {
    let index = run.number();
    let part = run.bytes();
    if let Some(part) = view(run, &part) {
        run.answer.truth(text.fits(index, part));
    }
}
