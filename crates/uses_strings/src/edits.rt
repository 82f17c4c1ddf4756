//! Edits whose preconditions are tested first, with public calls only: what a caller writes, and
//! what it then knows.

ghost use Rattle.std.specs.Prelude.{◌≡◌, ◌↔◌, ◌⊎◌, ◌+◌, ◌<◌, ◌≤◌, length, take, ℕ, false, true, Ok, Some, IfOk, IfSome, IsNone, IsOk, IsSome, IsTrue, OnErr, OnOk};
ghost use Rattle.std.specs.List.{splice};
ghost use Rattle.utf16_units.specs.Boundary.{IsBoundary, text_to};
ghost use Rattle.utf16_units.specs.Edit.{char_at, insert_at, push_text, remove_at, split_back, split_front};
ghost use Rattle.utf16_units.specs.Encoding.{IsUtf16, size, text_of};
ghost use Rattle.utf16_units.specs.IllFormed.{IsUtf16ValidUpTo};
ghost use Rattle.utf16string.specs.WStr.{wstr_bytes, wstr_text};
ghost use Rattle.utf16string.specs.WString.{wstring_text};

use std::alloc::{AllocError, Allocator};
use utf16string::{Utf16Error, Utf16Order, WStr, WStrMut, WString};

/// Inserts a text at an offset if that is a character boundary. Returns whether it is.
pub fn insert_checked<E: Utf16Order, A: Allocator>(
    text: &mut WString<E, A>,
    idx: usize,
    part: WStr<E>,
) -> Result<bool, AllocError>
    ensures edited { IfOk result (λ put. IsTrue put ↔ IsBoundary (wstring_text text.old) idx) }
    ensures put { result ≡ Ok true
        → wstring_text text.new ≡ insert_at (wstring_text text.old) idx (wstr_text part.entry) }
    ensures unchanged { result ≡ Ok false → wstring_text text.new ≡ wstring_text text.old }
    ensures err { OnErr result (wstring_text text.new ≡ wstring_text text.old) }
{
    if !text.is_char_boundary(idx) {
        return Ok(false);
    }
    text.insert_wstr(idx, part)?;
    Ok(true)
}

/// Appends two texts, or neither: once capacity for both is reserved, no allocation fails.
pub fn push_both<E: Utf16Order, A: Allocator>(
    text: &mut WString<E, A>,
    first: WStr<E>,
    second: WStr<E>,
) -> Result<(), AllocError>
    ensures both { OnOk result (wstring_text text.new
        ≡ push_text (push_text (wstring_text text.old) (wstr_text first.entry))
        (wstr_text second.entry)) }
    ensures neither { OnErr result (wstring_text text.new ≡ wstring_text text.old) }
{
    text.reserve(first.len() + second.len())?;
    text.push_wstr(first)?;
    text.push_wstr(second)
}

/// Removes the character at an offset, if one begins there.
pub fn remove_checked<E: Utf16Order, A: Allocator>(
    text: &mut WString<E, A>,
    idx: usize,
) -> Option<char>
    ensures some { IsSome result ↔ ((idx < size (wstring_text text.old))
        × IsBoundary (wstring_text text.old) idx) }
    ensures char { IfSome result (λ c. char_at (wstring_text text.old) idx ≡ Some c) }
    ensures cut { IfSome result (λ _.
        wstring_text text.new ≡ remove_at (wstring_text text.old) idx) }
    ensures unchanged { IsNone result → wstring_text text.new ≡ wstring_text text.old }
{
    if idx < text.len() && text.is_char_boundary(idx) {
        Some(text.remove(idx))
    } else {
        None
    }
}

/// Keeps the prefix up to an offset if that is a character boundary or past the text. Returns
/// whether it is.
pub fn truncate_checked<E: Utf16Order, A: Allocator>(text: &mut WString<E, A>, len: usize) -> bool
    ensures edited { IsTrue result ↔ ((size (wstring_text text.old) ≤ len)
        ⊎ IsBoundary (wstring_text text.old) len) }
    ensures cut { IsTrue result → len < size (wstring_text text.old)
        → wstring_text text.new ≡ text_to (wstring_text text.old) len }
    ensures unchanged { result ≡ false → wstring_text text.new ≡ wstring_text text.old }
{
    let cuts = text.len() <= len || text.is_char_boundary(len);
    if cuts {
        text.truncate(len);
    }
    cuts
}

/// Splits off what follows an offset, if that is a character boundary.
pub fn split<E: Utf16Order, A: Allocator + Clone>(
    text: &mut WString<E, A>,
    at: usize,
) -> Result<Option<WString<E, A>>, AllocError>
    ensures some { IfOk result (λ back. IsSome back ↔ IsBoundary (wstring_text text.old) at) }
    ensures front { IfOk result (λ back.
        IfSome back (λ _. wstring_text text.new ≡ split_front (wstring_text text.old) at)) }
    ensures back { IfOk result (λ back.
        IfSome back (λ back. wstring_text back ≡ split_back (wstring_text text.old) at)) }
    ensures unchanged { IfOk result (λ back. IsNone back
        → wstring_text text.new ≡ wstring_text text.old) }
    ensures err { OnErr result (wstring_text text.new ≡ wstring_text text.old) }
{
    if !text.is_char_boundary(at) {
        return Ok(None);
    }
    Ok(Some(text.split_off(at)?))
}

/// Overwrites a part of the caller's bytes with a text if the bytes are text and it fits. Returns
/// whether it does. After the view is dropped, the slice holds the changed bytes; after an error,
/// it is unchanged. The bytes are validated before they are borrowed: if a `Result` holds the
/// borrowed bytes, a caller's proof knows only their length.
pub fn overwrite_in_place<E: Utf16Order>(
    buf: &mut [u8],
    idx: usize,
    part: WStr<E>,
) -> Result<bool, Utf16Error>
    ensures ok { IsOk result ↔ IsUtf16 E.BIG buf.old }
    ensures edited { IfOk result (λ put. IsTrue put
        ↔ (IsBoundary (text_of E.BIG buf.old) idx
        × IsBoundary (text_of E.BIG buf.old) (idx + size (wstr_text part.entry)))) }
    ensures over { result ≡ Ok true
        → buf.new ≡ splice buf.old idx (idx + length (wstr_bytes part.entry))
        (wstr_bytes part.entry) }
    ensures unchanged { result ≡ Ok false → buf.new ≡ buf.old }
    ensures err { OnErr result (buf.new ≡ buf.old) }
{
    WStr::<E>::from_utf16(buf)?;
    let mut view = WStrMut::<E>::from_utf16_unchecked(buf);
    let fits = view.fits(idx, part);
    if fits {
        view.overwrite(idx, part);
    }
    Ok(fits)
}

/// Overwrites a part of the longest valid prefix of the caller's bytes with a text if it fits.
/// Returns whether it does. What follows the prefix is unchanged. If nothing is written, all bytes
/// are.
pub fn overwrite_valid_prefix<E: Utf16Order>(buf: &mut [u8], idx: usize, part: WStr<E>) -> bool
    ensures edited { (n : ℕ) → IsUtf16ValidUpTo E.BIG buf.old n
        → (IsTrue result
        ↔ (IsBoundary (text_of E.BIG (take n buf.old)) idx
        × IsBoundary (text_of E.BIG (take n buf.old)) (idx + size (wstr_text part.entry)))) }
    ensures over { IsTrue result → buf.new
        ≡ splice buf.old idx (idx + length (wstr_bytes part.entry)) (wstr_bytes part.entry) }
    ensures unchanged { result ≡ false → buf.new ≡ buf.old }
{
    let (front, _rest) = WStrMut::<E>::split_valid(buf);
    let mut view = WStrMut::<E>::from_utf16_unchecked(front);
    let fits = view.fits(idx, part);
    if fits {
        view.overwrite(idx, part);
    }
    fits
}

/// Does the same with a checked view, and returns the caller's bytes with `into_bytes`.
pub fn overwrite_and_return<'a, E: Utf16Order>(
    buf: &'a mut [u8],
    idx: usize,
    part: WStr<E>,
) -> Result<&'a mut [u8], Utf16Error>
    ensures ok { IsOk result ↔ IsUtf16 E.BIG buf.old }
    ensures same_reference { IfOk result (λ left. left.ghost_name ≡ buf.entry.ghost_name) }
    ensures over { IfOk result (λ left. IsBoundary (text_of E.BIG buf.old) idx
        → IsBoundary (text_of E.BIG buf.old) (idx + size (wstr_text part.entry))
        → left.now ≡ splice buf.old idx (idx + length (wstr_bytes part.entry))
        (wstr_bytes part.entry)) }
    ensures unchanged { IfOk result (λ left.
        ¬ (IsBoundary (text_of E.BIG buf.old) idx
        × IsBoundary (text_of E.BIG buf.old) (idx + size (wstr_text part.entry)))
        → left.now ≡ buf.old) }
{
    let mut view = WStrMut::<E>::from_utf16(buf)?;
    if view.fits(idx, part) {
        view.overwrite(idx, part);
    }
    Ok(view.into_bytes())
}
