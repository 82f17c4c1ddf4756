//! The characters of a stream, counted chunk by chunk. No function has a proof file.

ghost use Rattle.std.specs.Prelude.{◌≡◌, ◌<◌, ◌++◌, All, IfOk, OnErr, OnOk, chars, length};
ghost use Rattle.std.specs.List.{flat_map};
ghost use Rattle.std.specs.Vec.{vec_items};
ghost use Rattle.utf16_tools.specs.AnyLossy.{any_byte_order, any_pending};
ghost use Rattle.utf16_tools.specs.Lossy.{lossy_pending};
ghost use Rattle.utf16_tools.specs.Bom.{items_in};
ghost use Rattle.utf16_tools.specs.Split.{decided_text, lossy_text, lossy_chars, split_tail};

use std::alloc::{AllocError, Allocator};
use utf16_tools::{AnyLossy, Lossy, decode_pieces};
use utf16string::Utf16Order;

/// Returns the number of characters that the next chunk decides, U+FFFD among them.
pub fn count_decided<E: Utf16Order, A: Allocator>(
    decoder: &mut Lossy<E>,
    alloc: A,
    piece: &[u8],
) -> Result<usize, AllocError>
    ensures count { IfOk result (λ n.
        n ≡ length (decided_text E.BIG (lossy_pending decoder.old ++ piece.now))) }
    ensures pending { OnOk result (lossy_pending decoder.new
        ≡ split_tail E.BIG (lossy_pending decoder.old ++ piece.now)) }
    ensures err { OnErr result (lossy_pending decoder.new ≡ lossy_pending decoder.old) }
    ensures are_bytes { All (λ b. b < 256) (lossy_pending decoder.old ++ piece.now) }
{
    let text = decoder.feed(alloc, piece)?;
    Ok(count(&text))
}

/// Returns the same, in the byte order of the BOM.
pub fn count_decided_any<A: Allocator>(
    decoder: &mut AnyLossy,
    alloc: A,
    piece: &[u8],
) -> Result<usize, AllocError>
    ensures { IfOk result (λ n.
        n ≡ length (lossy_chars
        (items_in (any_byte_order decoder.old) (any_pending decoder.old ++ piece.now)))) }
{
    let text = decoder.feed(alloc, piece)?;
    Ok(count(&text))
}

/// Returns the number of characters of a stream's text.
pub fn count_all<E: Utf16Order, A: Allocator, B: Allocator>(
    alloc: A,
    pieces: &[Vec<u8, B>],
) -> Result<usize, AllocError>
    ensures { IfOk result (λ n. n ≡ length (lossy_text E.BIG (flat_map vec_items pieces.now))) }
{
    let text = decode_pieces::<E, A, B>(alloc, pieces)?;
    Ok(count(&text))
}

#[tactic(auto, using(std::proofs::lemmas::Str::chars_from_encodes))]
fn count(text: &str) -> usize
    ensures { result ≡ length (chars text.now) }
{
    text.chars().count()
}
