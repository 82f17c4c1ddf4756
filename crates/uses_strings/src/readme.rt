//! Code that the README shows.

ghost use Rattle.std.specs.Prelude.{◌↔◌, ◌∷◌, IfErr, IfOk, IsOk, false};
ghost use Rattle.utf16string.specs.Encoding.{Encodes, IsUtf16};
ghost use Rattle.utf16string.specs.Utf16Error.{IsErrorOf};
ghost use Rattle.utf16string.specs.WStr.{wstr_text};

use std::alloc::{AllocError, Global};
use utf16string::{LE, Utf16Error, WStr, WString};

/// Returns the name in a field, in little endian.
pub fn name_of(field: &[u8]) -> Result<WStr<'_, LE>, Utf16Error>
    ensures ok { IsOk result ↔ IsUtf16 false field.now }
    ensures name { IfOk result (λ name. Encodes false (wstr_text name) field.now) }
    ensures error { IfErr result (IsErrorOf false field.now) }
{
    WStr::from_utf16(field)
}

/// Returns a name with a star before it, ready to be stored.
pub fn starred(alloc: Global, name: WStr<LE>) -> Result<Vec<u8>, AllocError>
    ensures { IfOk result (λ bytes.
        Encodes false (0x2605 ∷ 0x20 ∷ wstr_text name.entry) bytes.items) }
{
    let mut starred = WString::<LE>::new(alloc);
    starred.push('★')?;
    starred.push(' ')?;
    starred.push_wstr(name)?;
    Ok(starred.into_bytes())
}
