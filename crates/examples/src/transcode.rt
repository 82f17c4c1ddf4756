//! Transcoders from UTF-16 in either byte order to UTF-8, the reverse, and to the other byte order.

ghost use Rattle.std.specs.Prelude.{◌≡◌, [], IfErr, IfOk, IsOk, chars, encode_utf8_all, string_bytes};
ghost use Rattle.std.specs.List.{flat_map};
ghost use Rattle.std.specs.Vec.{vec_items};
ghost use Rattle.utf16_tools.specs.Split.{lossy_text};
ghost use Rattle.utf16string.specs.Encoding.{Encodes, text_of, utf8_of};
ghost use Rattle.examples.specs.Transcode.{IsPiecesError, IsTranscodeError, order_big};

use std::alloc::{AllocError, Allocator};
use utf16_tools::{Lossy, decode_pieces};
use utf16_units::laws::{encoded_text, utf8_back};
use utf16string::{BE, LE, Utf16Error, Utf16Order, WStr, WString};

/// A byte order that is known at run time.
#[derive(Clone, Copy, Debug, PartialEq, Eq)]
pub enum ByteOrder {
    /// Big endian, the high byte first.
    Big,
    /// Little endian, the low byte first.
    Little,
}

/// Why bytes were not transcoded.
#[derive(Clone, Copy, Debug, PartialEq, Eq)]
pub enum TranscodeError {
    /// They are ill-formed. The error gives the length of the longest valid prefix and what follows
    /// it.
    NoText(Utf16Error),
    /// Allocation failed.
    Memory,
}

impl From<Utf16Error> for TranscodeError {
    ghost use Rattle.examples.specs.declared.transcode.TranscodeError.TheVariants.{NoText};

    ghost from_gives = { λ e given. given ≡ NoText e };

    fn from(e: Utf16Error) -> TranscodeError {
        TranscodeError::NoText(e)
    }
}

impl From<AllocError> for TranscodeError {
    ghost use Rattle.examples.specs.declared.transcode.TranscodeError.TheVariants.{Memory};

    ghost from_gives = { λ _ given. given ≡ Memory };

    fn from(_refused: AllocError) -> TranscodeError {
        TranscodeError::Memory
    }
}

/// Returns the text of UTF-16 in UTF-8.
///
/// # Errors
///
/// If the bytes are ill-formed or allocation fails. It does not fail for the empty text.
#[tactic(auto, using(crate::proofs::Rules::empty))]
pub fn to_utf8<E: Utf16Order, A: Allocator>(
    alloc: A,
    bytes: &[u8],
) -> Result<String<A>, TranscodeError>
    ensures text { IfOk result (λ s. Encodes E.BIG (chars (string_bytes s)) bytes.now) }
    ensures utf8 { IfOk result (λ s. string_bytes s ≡ utf8_of E.BIG bytes.now) }
    ensures error { IfErr result (IsTranscodeError E.BIG bytes.now) }
    ensures nothing { bytes.now ≡ [] → IsOk result }
{
    utf8_back();
    let text = WStr::<E>::from_utf16(bytes)?;
    Ok(text.to_utf8(alloc)?)
}

/// Returns the whole text of any bytes in UTF-8, with U+FFFD for each unpaired surrogate, and one
/// more for an incomplete end.
///
/// # Errors
///
/// If allocation fails. It does not fail if there are no bytes.
pub fn to_utf8_lossy<E: Utf16Order, A: Allocator>(
    alloc: A,
    bytes: &[u8],
) -> Result<String<A>, AllocError>
    ensures text { IfOk result (λ s.
        string_bytes s ≡ encode_utf8_all (lossy_text E.BIG bytes.now)) }
    ensures nothing { bytes.now ≡ [] → IsOk result }
{
    let mut decoder = Lossy::<E>::new();
    let mut text = decoder.feed(alloc, bytes)?;
    let Some(replacement) = decoder.finish() else {
        return Ok(text);
    };
    text.push(replacement)?;
    Ok(text)
}

/// Returns a text in UTF-16.
///
/// # Errors
///
/// If allocation fails. It does not fail for the empty text.
pub fn from_utf8<E: Utf16Order, A: Allocator>(
    alloc: A,
    text: &str,
) -> Result<Vec<u8, A>, AllocError>
    ensures text { IfOk result (λ bytes. Encodes E.BIG (chars text.now) (vec_items bytes)) }
    ensures nothing { text.now ≡ [] → IsOk result }
{
    Ok(WString::<E, A>::from_str(alloc, text)?.into_bytes())
}

/// Converts UTF-16 from one byte order to another.
///
/// # Errors
///
/// If the bytes are ill-formed or allocation fails. It does not fail for the empty text.
///
/// # Complexity
///
/// Allocates once, and not at all for the empty text.
#[tactic(auto, using(crate::proofs::Rules::empty))]
pub fn swap_byte_order<E: Utf16Order, F: Utf16Order, A: Allocator>(
    alloc: A,
    bytes: &[u8],
) -> Result<Vec<u8, A>, TranscodeError>
    ensures text { IfOk result (λ other.
        Encodes F.BIG (text_of E.BIG bytes.now) (vec_items other)) }
    ensures error { IfErr result (IsTranscodeError E.BIG bytes.now) }
    ensures nothing { bytes.now ≡ [] → IsOk result }
{
    let text = WStr::<E>::from_utf16(bytes)?;
    let copy = WString::<E, A>::from_wstr(alloc, text)?;
    Ok(copy.into_byte_order::<F>().into_bytes())
}

/// Returns the text of UTF-16 that comes in chunks, cut anywhere, in UTF-8. The chunks are first
/// joined in memory from a separate allocator.
///
/// # Errors
///
/// If the joined bytes are ill-formed or allocation fails. The offsets in the error count bytes of
/// the joined chunks. It does not fail if the chunks have no bytes.
pub fn pieces_to_utf8<E: Utf16Order, A: Allocator, B: Allocator, C: Allocator>(
    alloc: A,
    joined_alloc: B,
    pieces: &[Vec<u8, C>],
) -> Result<String<A>, TranscodeError>
    ensures text { IfOk result (λ s.
        Encodes E.BIG (chars (string_bytes s)) (flat_map vec_items pieces.now)) }
    ensures error { IfErr result (IsPiecesError E.BIG (flat_map vec_items pieces.now)) }
{
    let bytes = joined(joined_alloc, pieces)?;
    to_utf8::<E, A>(alloc, &bytes)
}

// Returns the chunks joined.
fn joined<A: Allocator, B: Allocator>(
    alloc: A,
    pieces: &[Vec<u8, B>],
) -> Result<Vec<u8, A>, AllocError>
    ensures bytes { IfOk result (λ bytes. vec_items bytes ≡ flat_map vec_items pieces.now) }
    ensures nothing { flat_map vec_items pieces.now ≡ [] → IsOk result }
{
    let mut bytes = Vec::new(alloc);
    for piece in pieces {
        bytes.extend_from_slice(piece)?;
    }
    Ok(bytes)
}

/// Returns the whole text of any bytes that come in chunks, cut anywhere, in UTF-8, with U+FFFD as
/// in `to_utf8_lossy`. The byte order is known only at run time.
///
/// # Errors
///
/// If allocation fails. It does not fail if the chunks have no bytes.
pub fn to_utf8_lossy_in<A: Allocator, B: Allocator>(
    alloc: A,
    order: ByteOrder,
    pieces: &[Vec<u8, B>],
) -> Result<String<A>, AllocError>
    ensures text { IfOk result (λ s.
        string_bytes s ≡ encode_utf8_all
        (lossy_text (order_big order) (flat_map vec_items pieces.now))) }
    ensures nothing { flat_map vec_items pieces.now ≡ [] → IsOk result }
{
    match order {
        ByteOrder::Big => decode_pieces::<BE, A, B>(alloc, pieces),
        ByteOrder::Little => decode_pieces::<LE, A, B>(alloc, pieces),
    }
}

/// Returns the text of UTF-16 in UTF-8, as `to_utf8` does. The byte order is known only at run
/// time.
pub fn to_utf8_in<A: Allocator>(
    alloc: A,
    order: ByteOrder,
    bytes: &[u8],
) -> Result<String<A>, TranscodeError>
    ensures text { IfOk result (λ s.
        Encodes (order_big order) (chars (string_bytes s)) bytes.now) }
    ensures error { IfErr result (IsTranscodeError (order_big order) bytes.now) }
    ensures nothing { bytes.now ≡ [] → IsOk result }
{
    match order {
        ByteOrder::Big => to_utf8::<BE, A>(alloc, bytes),
        ByteOrder::Little => to_utf8::<LE, A>(alloc, bytes),
    }
}

/// Returns a text in UTF-16, as `from_utf8` does. The byte order is known only at run time.
pub fn from_utf8_in<A: Allocator>(
    alloc: A,
    order: ByteOrder,
    text: &str,
) -> Result<Vec<u8, A>, AllocError>
    ensures text { IfOk result (λ bytes.
        Encodes (order_big order) (chars text.now) (vec_items bytes)) }
    ensures nothing { text.now ≡ [] → IsOk result }
{
    match order {
        ByteOrder::Big => from_utf8::<BE, A>(alloc, text),
        ByteOrder::Little => from_utf8::<LE, A>(alloc, text),
    }
}

/// Transcodes UTF-16 to UTF-8 and back, and returns the same bytes.
///
/// # Errors
///
/// If the bytes are ill-formed or allocation fails. It does not fail for the empty text.
#[tactic(auto, using(crate::proofs::Rules::empty))]
pub fn utf16_round_trip<E: Utf16Order, A: Allocator, B: Allocator>(
    alloc: A,
    back_alloc: B,
    bytes: &[u8],
) -> Result<Vec<u8, B>, TranscodeError>
    ensures bytes { IfOk result (λ back. vec_items back ≡ bytes.now) }
    ensures error { IfErr result (IsTranscodeError E.BIG bytes.now) }
    ensures nothing { bytes.now ≡ [] → IsOk result }
{
    let text = to_utf8::<E, A>(alloc, bytes)?;
    Ok(from_utf8::<E, B>(back_alloc, &text)?)
}

/// Transcodes UTF-8 to UTF-16 and back, and returns the same text.
///
/// # Errors
///
/// If allocation fails. It does not fail for the empty text.
#[tactic(auto, using(crate::proofs::Rules::empty))]
pub fn utf8_round_trip<E: Utf16Order, A: Allocator, B: Allocator>(
    alloc: A,
    back_alloc: B,
    text: &str,
) -> Result<String<B>, AllocError>
    ensures text { IfOk result (λ back. string_bytes back ≡ text.now) }
    ensures nothing { text.now ≡ [] → IsOk result }
{
    encoded_text();
    let bytes = from_utf8::<E, A>(alloc, text)?;
    match to_utf8::<E, B>(back_alloc, &bytes) {
        Ok(back) => Ok(back),
        Err(_) => Err(AllocError),
    }
}
