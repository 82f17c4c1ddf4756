//! New strings with the matches of a pattern replaced.

ghost use Rattle.std.specs.Prelude.{◌≡◌, ◌≢◌, [], IfOk, IsOk, OnOk, option_map};
ghost use Rattle.utf16_units.specs.Edit.{push_text};
ghost use Rattle.utf16_str.specs.WStr.{wstr_text};
ghost use Rattle.utf16string.specs.Replace.{around_match, replaced, replaced_first};
ghost use Rattle.utf16string.specs.WString.{wstring_bytes, wstring_capacity, wstring_text};

use crate::WString;
use std::alloc::{AllocError, Allocator};
use utf16_str::{Pattern, WStr};
use utf16_units::Utf16Order;

impl<E: Utf16Order, A: Allocator> WString<E, A> {
    /// Returns a new string with each match of a text or a character replaced by the text `to`. The
    /// matches are found from the front, and do not overlap. The empty text matches before each
    /// character and at the end.
    ///
    /// # Errors
    ///
    /// `AllocError`, if allocation fails. It does not fail if the result is empty.
    ///
    /// # Complexity
    ///
    /// Linear in the lengths of this text, the pattern and the result. Allocates as many bytes as
    /// this text has, and again only if the result has more. Allocates nothing if the result is
    /// empty.
    ///
    /// # Source
    ///
    /// `str::replace`, for a text or a character.
    pub fn replace<P: Pattern<E> + Copy, B: Allocator>(
        &self,
        alloc: B,
        from: P,
        to: WStr<E>,
    ) -> Result<WString<E, B>, AllocError>
        ensures text { IfOk result (λ s.
            wstring_text s ≡ replaced (P.part from) (wstr_text to.entry) (wstring_text self.now)) }
        ensures nothing { replaced (P.part from) (wstr_text to.entry) (wstring_text self.now) ≡ []
            → IsOk result }
        ensures empty { IfOk result (λ s. wstring_bytes s ≡ [] → wstring_capacity s ≡ 0) }
    {
        self.replacen(alloc, from, to, usize::MAX)
    }

    /// Replaces the first `count` matches like `replace`, or all if there are fewer.
    ///
    /// # Errors
    ///
    /// `AllocError`, if allocation fails. It does not fail if the result is empty.
    ///
    /// # Complexity
    ///
    /// As of `replace`.
    ///
    /// # Source
    ///
    /// `str::replacen`, for a text or a character.
    pub fn replacen<P: Pattern<E> + Copy, B: Allocator>(
        &self,
        alloc: B,
        from: P,
        to: WStr<E>,
        count: usize,
    ) -> Result<WString<E, B>, AllocError>
        ensures text { IfOk result (λ s. wstring_text s
            ≡ replaced_first count (P.part from) (wstr_text to.entry) (wstring_text self.now)) }
        ensures nothing { replaced_first count (P.part from) (wstr_text to.entry)
            (wstring_text self.now) ≡ [] → IsOk result }
        ensures empty { IfOk result (λ s. wstring_bytes s ≡ [] → wstring_capacity s ≡ 0) }
    {
        let mut made = WString::new(alloc);
        push_replaced(&mut made, self.as_wstr(), from, to, count)?;
        Ok(made)
    }
}

// Appends a text with the first `count` matches of a pattern replaced.
fn push_replaced<E: Utf16Order, P: Pattern<E> + Copy, A: Allocator>(
    made: &mut WString<E, A>,
    text: WStr<E>,
    from: P,
    to: WStr<E>,
    count: usize,
) -> Result<(), AllocError>
    ensures text { OnOk result (wstring_text made.new ≡ push_text (wstring_text made.old)
        (replaced_first count (P.part from) (wstr_text to.entry) (wstr_text text.entry))) }
    ensures nothing { replaced_first count (P.part from) (wstr_text to.entry) (wstr_text text.entry)
        ≡ [] → IsOk result × (wstring_capacity made.new ≡ wstring_capacity made.old) }
{
    if from.encoded_len() == 0 {
        push_between(made, text, to, count)
    } else {
        push_around(made, text, from, to, count)
    }
}

// Appends a text with the first `count` matches of the empty text replaced: another is put before
// each character and at the end.
fn push_between<E: Utf16Order, A: Allocator>(
    made: &mut WString<E, A>,
    text: WStr<E>,
    to: WStr<E>,
    count: usize,
) -> Result<(), AllocError>
    ensures text { OnOk result (wstring_text made.new ≡ push_text (wstring_text made.old)
        (replaced_first count [] (wstr_text to.entry) (wstr_text text.entry))) }
    ensures nothing { replaced_first count [] (wstr_text to.entry) (wstr_text text.entry) ≡ []
        → IsOk result × (wstring_capacity made.new ≡ wstring_capacity made.old) }
{
    let len = text.len();
    made.reserve_exact(len)?;
    let mut chars = text.chars();
    for _ in 0..count {
        push_part(made, to, len)?;
        let Some(c) = chars.next() else {
            return Ok(());
        };
        made.push(c)?;
    }
    push_part(made, chars.as_wstr(), len)
}

// Appends a text with the first `count` matches of a pattern, which is not empty, replaced.
fn push_around<E: Utf16Order, P: Pattern<E> + Copy, A: Allocator>(
    made: &mut WString<E, A>,
    text: WStr<E>,
    from: P,
    to: WStr<E>,
    count: usize,
) -> Result<(), AllocError>
    requires { P.part from ≢ [] }
    ensures text { OnOk result (wstring_text made.new ≡ push_text (wstring_text made.old)
        (replaced_first count (P.part from) (wstr_text to.entry) (wstr_text text.entry))) }
    ensures nothing { replaced_first count (P.part from) (wstr_text to.entry) (wstr_text text.entry)
        ≡ [] → IsOk result × (wstring_capacity made.new ≡ wstring_capacity made.old) }
{
    let len = text.len();
    let mut rest = text;
    for _ in 0..count {
        let Some((before, after)) = split_around(rest, from) else {
            return push_part(made, rest, len);
        };
        push_part(made, before, len)?;
        push_part(made, to, len)?;
        rest = after;
    }
    push_part(made, rest, len)
}

// Appends a text. A string without capacity first reserves `len` bytes, unless the text is empty.
#[inline]
fn push_part<E: Utf16Order, A: Allocator>(
    made: &mut WString<E, A>,
    part: WStr<E>,
    len: usize,
) -> Result<(), AllocError>
    ensures text { OnOk result (wstring_text made.new
        ≡ push_text (wstring_text made.old) (wstr_text part.entry)) }
    ensures nothing { wstr_text part.entry ≡ []
        → IsOk result × (wstring_capacity made.new ≡ wstring_capacity made.old) }
{
    if part.is_empty() {
        return Ok(());
    }
    if made.capacity() == 0 {
        made.reserve_exact(len)?;
    }
    made.push_wstr(part)
}

// The text before the first match of a pattern and the text after that match, if there is one.
#[inline]
fn split_around<'a, E: Utf16Order, P: Pattern<E> + Copy>(
    text: WStr<'a, E>,
    pattern: P,
) -> Option<(WStr<'a, E>, WStr<'a, E>)>
    ensures { option_map (λ around. (wstr_text around.0, wstr_text around.1)) result
        ≡ around_match (P.part pattern) (wstr_text text.entry) }
{
    let at = text.find(pattern)?;
    let (before, matched) = text.split_at(at);
    let (_, after) = matched.split_at(pattern.encoded_len());
    Some((before, after))
}
