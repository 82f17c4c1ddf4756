//! Substrings replaced or removed, by each kind of range.

use crate::strings::held::{Heap, part};
use std::alloc::AllocError;
use tests_support::{Run, Span};
use utf16string::{Utf16Order, WStr, WString};

/// Replaces the substring at a range.
pub fn replace_range<E: Utf16Order>(
    run: &mut Run,
    string: &mut WString<E, Heap>,
) -> Result<(), AllocError> {
    let span = run.span();
    let text = part::<E>(run);
    match put(string, span, text.as_wstr()) {
        Some(done) => done,
        None => {
            run.unmet();
            Ok(())
        }
    }
}

/// Removes the substring at a range, and adds it.
pub fn drain<E: Utf16Order>(run: &mut Run, string: &mut WString<E, Heap>) {
    let span = run.span();
    match taken(string, span) {
        Some(Ok(part)) => run.answer.bytes(part.as_bytes()),
        Some(Err(_)) => run.done(false),
        None => run.unmet(),
    }
}

// What a call returns, if `get` returns a substring at the range.
macro_rules! at {
    ($string:expr, $range:expr, $made:expr) => {
        if $string.get($range).is_some() {
            Some($made)
        } else {
            None
        }
    };
}

fn put<E: Utf16Order>(
    string: &mut WString<E, Heap>,
    span: Span,
    text: WStr<E>,
) -> Option<Result<(), AllocError>> {
    match span {
        Span::From(start) => at!(string, start.., string.replace_range(start.., text)),
        Span::Between(start, end) => at!(
            string,
            start..end,
            string.replace_range(start..end, text)
        ),
        Span::Full => at!(string, .., string.replace_range(.., text)),
        _ => put_to(string, span, text),
    }
}

fn put_to<E: Utf16Order>(
    string: &mut WString<E, Heap>,
    span: Span,
    text: WStr<E>,
) -> Option<Result<(), AllocError>> {
    match span {
        Span::To(end) => at!(string, ..end, string.replace_range(..end, text)),
        Span::ToThrough(end) => at!(string, ..=end, string.replace_range(..=end, text)),
        Span::Through(start, end) => at!(
            string,
            start..=end,
            string.replace_range(start..=end, text)
        ),
        _ => None,
    }
}

fn taken<'a, E: Utf16Order>(
    string: &mut WString<E, Heap<'a>>,
    span: Span,
) -> Option<Result<WString<E, Heap<'a>>, AllocError>> {
    match span {
        Span::From(start) => at!(string, start.., string.drain(start..)),
        Span::Between(start, end) => at!(string, start..end, string.drain(start..end)),
        Span::Full => at!(string, .., string.drain(..)),
        _ => taken_to(string, span),
    }
}

fn taken_to<'a, E: Utf16Order>(
    string: &mut WString<E, Heap<'a>>,
    span: Span,
) -> Option<Result<WString<E, Heap<'a>>, AllocError>> {
    match span {
        Span::To(end) => at!(string, ..end, string.drain(..end)),
        Span::ToThrough(end) => at!(string, ..=end, string.drain(..=end)),
        Span::Through(start, end) => at!(string, start..=end, string.drain(start..=end)),
        _ => None,
    }
}
