//! Copies of strings, and of vectors of strings.

ghost use Rattle.std.specs.Prelude.{◌≡◌, [], ◌∷◌, IfOk, OnErr, OnOk, map};
ghost use Rattle.utf16_units.specs.Edit.{push_text};
ghost use Rattle.utf16string.specs.WString.{wstring_text};

use std::alloc::{AllocError, Allocator};
use utf16string::{Utf16Order, WString};

/// Appends a character, and returns a copy of the text from before. If allocation fails, the text
/// is unchanged.
pub fn keep_and_push<E: Utf16Order, A: Allocator + Clone>(
    text: &mut WString<E, A>,
    ch: char,
) -> Result<WString<E, A>, AllocError>
    ensures copy { IfOk result (λ kept. wstring_text kept ≡ wstring_text text.old) }
    ensures pushed { OnOk result (wstring_text text.new
        ≡ push_text (wstring_text text.old) (ch ∷ [])) }
    ensures err { OnErr result (wstring_text text.new ≡ wstring_text text.old) }
{
    let kept = text.clone()?;
    text.push(ch)?;
    Ok(kept)
}

/// Returns a copy with a character appended. The original is only borrowed.
pub fn push_to_copy<E: Utf16Order, A: Allocator + Clone>(
    text: &WString<E, A>,
    ch: char,
) -> Result<WString<E, A>, AllocError>
    ensures { IfOk result (λ copy.
        wstring_text copy ≡ push_text (wstring_text text.now) (ch ∷ [])) }
{
    let mut copy = text.clone()?;
    copy.push(ch)?;
    Ok(copy)
}

/// Returns a vector of copies, each with the text of the string at the same place.
pub fn copy_all<E: Utf16Order>(strings: &Vec<WString<E>>) -> Result<Vec<WString<E>>, AllocError>
    ensures { IfOk result (λ copies. map wstring_text copies.items
        ≡ map wstring_text strings.now.items) }
{
    strings.clone()
}
