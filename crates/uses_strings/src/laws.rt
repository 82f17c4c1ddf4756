//! Functions that users of the format need. Each is proved with a law of UTF-16.

ghost use Rattle.std.specs.Prelude.{◌≡◌, ◌↔◌, ◌⊎◌, ◌++◌, ◌%◌, [], true, length, chars, IfOk, IfSome, IsNone, IsTrue};
ghost use Rattle.utf16_units.specs.Boundary.{IsBoundary};
ghost use Rattle.utf16_units.specs.Continued.{IsUtf16Prefix, IsDeadEnd};
ghost use Rattle.utf16_units.specs.Encoding.{Encodes};
ghost use Rattle.utf16_units.specs.Laws.{OccursAt};
ghost use Rattle.utf16string.specs.WStr.{wstr_bytes, wstr_text};
ghost use Rattle.utf16string.specs.WString.{wstring_bytes, wstring_text};

use std::alloc::{AllocError, Allocator, Global};
use utf16_units::laws::{
    found_aligned, insert_then_remove, joined_text, none_continues, split_then_push,
    swapped_orders, two_never_continues, unique_text, utf8_back,
};
use utf16_units::{is_leading_surrogate, validate_raw_utf16};
use utf16string::{BE, LE, Utf16Order, WStr, WString};

/// Returns whether two strings have the same text, by one comparison of their bytes.
pub fn same_text<E: Utf16Order>(first: WStr<E>, second: WStr<E>) -> bool
    ensures { IsTrue result ↔ (wstr_text first.entry ≡ wstr_text second.entry) }
{
    unique_text();
    first.as_bytes() == second.as_bytes()
}

/// Returns the bytes of two strings joined, which are the encoding of their texts joined.
pub fn joined<E: Utf16Order, A: Allocator>(
    alloc: A,
    front: WStr<E>,
    back: WStr<E>,
) -> Result<Vec<u8, A>, AllocError>
    ensures { IfOk result (λ bytes.
        Encodes E.BIG (wstr_text front.entry ++ wstr_text back.entry) bytes.items) }
{
    joined_text();
    let mut both = Vec::new(alloc);
    both.extend_from_slice(front.as_bytes())?;
    both.extend_from_slice(back.as_bytes())?;
    Ok(both)
}

/// Returns both parts of a text split at a boundary, joined again: the encoding of the text.
pub fn cut_and_join<E: Utf16Order, A: Allocator>(
    alloc: A,
    text: WStr<E>,
    at: usize,
) -> Result<Vec<u8, A>, AllocError>
    requires { IsBoundary (wstr_text text) at }
    ensures { IfOk result (λ bytes. Encodes E.BIG (wstr_text text.entry) bytes.items) }
{
    split_then_push();
    let (head, tail) = text.split_at(at);
    joined(alloc, head, tail)
}

/// Splits a text at a key whose bytes are at an even offset. Returns what is before the key and
/// what follows it, or `None` if the key is empty, the offset is odd, or the key's bytes are not at
/// the offset.
pub fn cut_at_key<'a, E: Utf16Order>(
    text: WStr<'a, E>,
    key: WStr<'_, E>,
    at: usize,
) -> Option<(WStr<'a, E>, WStr<'a, E>)>
    ensures found { IfSome result (λ parts.
        wstr_text text.entry ≡ wstr_text parts.0 ++ (wstr_text key.entry ++ wstr_text parts.1)) }
    ensures offset { IfSome result (λ parts. length (wstr_bytes parts.0) ≡ at) }
    ensures none { IsNone result → (wstr_text key.entry ≡ []) ⊎ (at % 2 ≡ 1)
        ⊎ ¬ (OccursAt (wstr_bytes text.entry) at (wstr_bytes key.entry)) }
{
    if key.is_empty() {
        return None;
    }
    if at % 2 != 0 {
        return None;
    }
    if !occurs_at(text.as_bytes(), at, key.as_bytes()) {
        return None;
    }
    found_aligned();
    let (front, rest) = text.split_at(at);
    let (_, back) = rest.split_at(key.len());
    Some((front, back))
}

// Returns whether the bytes at an offset begin with the part.
pub(crate) fn occurs_at(bytes: &[u8], at: usize, part: &[u8]) -> bool
    ensures { IsTrue result ↔ OccursAt bytes.now at part.now }
{
    if bytes.len() < at {
        return part.is_empty();
    }
    bytes[at..].starts_with(part)
}

/// Returns little-endian text as big-endian bytes, each pair of bytes swapped.
pub fn to_big_endian<A: Allocator>(alloc: A, text: WStr<LE>) -> Result<Vec<u8, A>, AllocError>
    ensures { IfOk result (λ bytes. Encodes true (wstr_text text.entry) bytes.items) }
{
    swapped_orders();
    let raw = text.as_bytes();
    let mut swapped = Vec::with_capacity(alloc, raw.len())?;
    let mut at = 0;
    while raw.len() - at >= 2 {
        swapped.extend_from_slice(&[raw[at + 1], raw[at]])?;
        at += 2;
    }
    Ok(swapped)
}

/// Inserts a character at a boundary and removes it again, as an undo does. The bytes of the string
/// are unchanged, even if allocation fails.
pub fn type_and_undo<E: Utf16Order, A: Allocator>(
    text: &mut WString<E, A>,
    at: usize,
    c: char,
) -> Result<(), AllocError>
    requires { IsBoundary (wstring_text text.old) at }
    ensures { wstring_bytes text.new ≡ wstring_bytes text.old }
{
    insert_then_remove();
    text.insert(at, c)?;
    text.remove(at);
    Ok(())
}

/// Returns the characters of the UTF-8 of a text, which are the characters of the text.
pub fn through_utf8<E: Utf16Order>(alloc: Global, text: WStr<E>) -> Result<Vec<char>, AllocError>
    ensures { IfOk result (λ found. found.items ≡ wstr_text text.entry) }
{
    utf8_back();
    let utf8 = text.to_utf8(alloc)?;
    chars_of(alloc, &utf8)
}

// Returns the characters of UTF-8.
fn chars_of(alloc: Global, utf8: &str) -> Result<Vec<char>, AllocError>
    ensures { IfOk result (λ found. found.items ≡ chars utf8.now) }
{
    utf8.chars().collect(alloc)
}

/// Returns whether bytes are a prefix of a text, so that a reader of a stream may wait for more.
pub fn is_prefix<E: Utf16Order>(raw: &[u8]) -> bool
    ensures { IsTrue result ↔ IsUtf16Prefix E.BIG raw.now }
{
    two_never_continues();
    none_continues();
    let Err(e) = validate_raw_utf16::<E>(raw) else {
        return true;
    };
    if e.error_len().is_some() {
        return false;
    }
    !is_dead_end::<E>(&raw[e.valid_up_to()..])
}

// Returns whether an incomplete character can no longer be completed, which happens only in big
// endian.
fn is_dead_end<E: Utf16Order>(rest: &[u8]) -> bool
    ensures { IsTrue result ↔ IsDeadEnd E.BIG rest.now }
{
    if !E::BIG {
        return false;
    }
    match rest {
        [last] => (0xDC..=0xDF).contains(last),
        [first, second, last] => {
            is_leading_surrogate(BE::read_unit([*first, *second])) && !(0xDC..=0xDF).contains(last)
        }
        _ => false,
    }
}
