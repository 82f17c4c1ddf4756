//! The text of all chunks of a stream of UTF-8.

ghost use Rattle.std.specs.Prelude.{◌≡◌, [], IfOk, IsOk, chars};
ghost use Rattle.std.specs.List.{flat_map};
ghost use Rattle.std.specs.Str.Lossy.{utf8_lossy};
ghost use Rattle.std.specs.Vec.{vec_items};
ghost use Rattle.utf16string.specs.WString.{wstring_text};

use crate::utf8_decoder::Utf8Decoder;
use std::alloc::{AllocError, Allocator};
use utf16string::{Utf16Order, WString};

/// Returns the text of the chunks of a stream, joined: its characters, U+FFFD for each maximal
/// subpart of an ill-formed sequence, and one more for an incomplete end.
///
/// # Errors
///
/// If allocation fails. It does not fail if the chunks have no bytes.
///
/// # Source
///
/// `String::from_utf8_lossy` of the chunks joined gives the same text.
pub fn encode_pieces<E: Utf16Order, A: Allocator, B: Allocator>(
    alloc: A,
    pieces: &[Vec<u8, B>],
) -> Result<WString<E, A>, AllocError>
    ensures text { IfOk result (λ s.
        wstring_text s ≡ chars (utf8_lossy (flat_map vec_items pieces.now))) }
    ensures nothing { flat_map vec_items pieces.now ≡ [] → IsOk result }
{
    let mut text = WString::new(alloc);
    let mut decoder = Utf8Decoder::<E>::new();
    for piece in pieces {
        decoder.feed(piece, &mut text)?;
    }
    let Some(replacement) = decoder.finish() else {
        return Ok(text);
    };
    text.push(replacement)?;
    Ok(text)
}
