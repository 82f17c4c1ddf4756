//! What a string has at an offset after an edit.

ghost use Rattle.std.specs.Prelude.{◌≡◌, ◌↔◌, ◌⊎◌, ◌+◌, IfOk, IfSome, IsNone, IsSome, IsTrue, OnErr, OnOk, false};
ghost use Rattle.utf16_units.specs.Boundary.{IsBoundary, text_between, text_from, text_to};
ghost use Rattle.utf16_units.specs.Encoding.{size};
ghost use Rattle.utf16string.specs.WStr.{wstr_text};
ghost use Rattle.utf16string.specs.WString.{wstring_text};

use std::alloc::{AllocError, Allocator};
use utf16string::{Utf16Order, WStr, WString};

/// Inserts a text at an offset if that is a character boundary, and returns the offset of its end.
#[tactic(auto, using(utf16_units::proofs::Rules::edits))]
pub fn insert_at_key<E: Utf16Order, A: Allocator>(
    text: &mut WString<E, A>,
    at: usize,
    part: WStr<E>,
) -> Result<Option<usize>, AllocError>
    ensures some { IfOk result (λ end. IsSome end ↔ IsBoundary (wstring_text text.old) at) }
    ensures start { IfOk result (λ end. IfSome end (λ _. IsBoundary (wstring_text text.new) at)) }
    ensures end { IfOk result (λ end. IfSome end (IsBoundary (wstring_text text.new))) }
    ensures there { IfOk result (λ end.
        IfSome end (λ end. text_between (wstring_text text.new) at end ≡ wstr_text part.entry)) }
    ensures front { IfOk result (λ end.
        IfSome end (λ _. text_to (wstring_text text.new) at
        ≡ text_to (wstring_text text.old) at)) }
    ensures back { IfOk result (λ end.
        IfSome end (λ end. text_from (wstring_text text.new) end
        ≡ text_from (wstring_text text.old) at)) }
    ensures size { IfOk result (λ end.
        IfSome end (λ _. size (wstring_text text.new)
        ≡ size (wstring_text text.old) + size (wstr_text part.entry))) }
    ensures unchanged { IfOk result (λ end. IsNone end
        → wstring_text text.new ≡ wstring_text text.old) }
    ensures err { OnErr result (wstring_text text.new ≡ wstring_text text.old) }
{
    if !text.is_char_boundary(at) {
        return Ok(None);
    }
    text.insert_wstr(at, part)?;
    Ok(Some(at + part.len()))
}

/// Writes a text over the bytes that start at an offset if it fits there, and returns whether it
/// does. The string keeps its length.
#[tactic(auto, using(utf16_units::proofs::Rules::edits))]
pub fn overwrite_at_key<E: Utf16Order, A: Allocator>(
    text: &mut WString<E, A>,
    at: usize,
    part: WStr<E>,
) -> bool
    ensures edited { IsTrue result ↔ (IsBoundary (wstring_text text.old) at
        × IsBoundary (wstring_text text.old) (at + size (wstr_text part.entry))) }
    ensures there { IsTrue result → text_between (wstring_text text.new) at
        (at + size (wstr_text part.entry)) ≡ wstr_text part.entry }
    ensures front { IsTrue result → text_to (wstring_text text.new) at
        ≡ text_to (wstring_text text.old) at }
    ensures back { IsTrue result → text_from (wstring_text text.new)
        (at + size (wstr_text part.entry))
        ≡ text_from (wstring_text text.old) (at + size (wstr_text part.entry)) }
    ensures size { IsTrue result → size (wstring_text text.new) ≡ size (wstring_text text.old) }
    ensures unchanged { result ≡ false → wstring_text text.new ≡ wstring_text text.old }
{
    let fits = text.fits(at, part);
    if fits {
        text.overwrite(at, part);
    }
    fits
}

/// Splits off what follows an offset if that is a character boundary, and appends it again. If
/// allocation fails, either the text is unchanged or what followed the offset is lost.
#[tactic(auto, using(utf16_units::proofs::Rules::edits))]
pub fn cut_and_mend<E: Utf16Order, A: Allocator + Clone>(
    text: &mut WString<E, A>,
    at: usize,
) -> Result<bool, AllocError>
    ensures edited { IfOk result (λ done. IsTrue done ↔ IsBoundary (wstring_text text.old) at) }
    ensures unchanged { OnOk result (wstring_text text.new ≡ wstring_text text.old) }
    ensures err { OnErr result (wstring_text text.new ≡ wstring_text text.old
        ⊎ wstring_text text.new ≡ text_to (wstring_text text.old) at) }
{
    if !text.is_char_boundary(at) {
        return Ok(false);
    }
    let back = text.split_off(at)?;
    text.push_wstr(back.as_wstr())?;
    Ok(true)
}
