//! Streams that are cut into chunks in many ways.

use crate::streams::fed::Decoder;
use std::alloc::{AllocError, Global};
use std::marker::PhantomData;
use tests_support::{Answer, Run, Trouble};
use utf16_streams::{AnyLossy, Lossy, Utf16Order, decode_pieces};

// The longest stream, in bytes, that is cut in every way, and the longest one that is cut at all.
const CUT_EVERY_WAY: usize = 12;

const MOST: usize = 64;

// A way to decode chunks.
trait Way {
    // Returns the text of the chunks.
    fn text(alloc: Global, pieces: &[Vec<u8>]) -> Result<String, AllocError>;
}

// Decodes them with one call.
struct AtOnce<E: Utf16Order>(PhantomData<E>);

impl<E: Utf16Order> Way for AtOnce<E> {
    fn text(alloc: Global, pieces: &[Vec<u8>]) -> Result<String, AllocError> {
        decode_pieces::<E, _, _>(alloc, pieces)
    }
}

// Decodes them with a decoder that is fed the chunks one by one and then finished.
struct OneByOne<D: Decoder>(PhantomData<D>);

impl<D: Decoder> Way for OneByOne<D> {
    fn text(alloc: Global, pieces: &[Vec<u8>]) -> Result<String, AllocError> {
        let mut decoder = D::new();
        let mut text = String::new(alloc);
        for piece in pieces {
            let more = decoder.feed(alloc, piece)?;
            text.push_str(more.as_str())?;
        }
        if let Some(replacement) = decoder.finish() {
            text.push(replacement)?;
        }
        Ok(text)
    }
}

/// Adds the text of the bytes in one chunk, and after it any other text that a chunking gives, from
/// `decode_pieces` or from `Lossy`.
pub fn every_chunking<E: Utf16Order>(run: &mut Run) {
    let bytes = run.bytes();
    let added = add_both::<E>(run.alloc, &bytes, &mut run.answer);
    run.note(added);
}

/// Does the same with `AnyLossy`.
pub fn every_any_chunking(run: &mut Run) {
    let bytes = run.bytes();
    let added = add_all::<OneByOne<AnyLossy>>(run.alloc, &bytes, &mut run.answer);
    run.note(added.map(|_| ()));
}

fn add_both<E: Utf16Order>(
    alloc: Global,
    bytes: &[u8],
    answer: &mut Answer,
) -> Result<(), Trouble> {
    let whole = add_all::<AtOnce<E>>(alloc, bytes, answer)?;
    add_other::<OneByOne<Lossy<E>>>(alloc, bytes, whole.as_str(), answer)
}

// Adds the text of one chunk, and the first one that differs. Returns the text of one chunk.
fn add_all<W: Way>(alloc: Global, bytes: &[u8], answer: &mut Answer) -> Result<String, Trouble> {
    let whole = W::text(alloc, &cut(alloc, bytes, 0, false)?)?;
    answer.text(whole.as_str());
    add_other::<W>(alloc, bytes, whole.as_str(), answer)?;
    Ok(whole)
}

// Adds the first text of a chunking that differs.
fn add_other<W: Way>(
    alloc: Global,
    bytes: &[u8],
    whole: &str,
    answer: &mut Answer,
) -> Result<(), Trouble> {
    for cuts in chunkings(alloc, bytes.len())? {
        for with_empty in [false, true] {
            let text = W::text(alloc, &cut(alloc, bytes, cuts, with_empty)?)?;
            if text.as_str() != whole {
                answer.text(text.as_str());
                return Ok(());
            }
        }
    }
    Ok(())
}

// Returns the chunkings of `len` bytes: all of them if there are few bytes; otherwise those into
// two and three chunks and the one into single bytes. In each a bit is set for each byte after
// which the stream is cut, the lowest bit for the first byte.
fn chunkings(alloc: Global, len: usize) -> Result<Vec<u64>, Trouble> {
    let mut chunkings = Vec::new(alloc);
    if len > MOST {
        return Err(Trouble::Condition);
    }
    if len <= CUT_EVERY_WAY {
        for cuts in 0..bit(len.saturating_sub(1)) {
            chunkings.push(cuts).map_err(|_| Trouble::Memory)?;
        }
        return Ok(chunkings);
    }
    chunkings.push(u64::MAX).map_err(|_| Trouble::Memory)?;
    for second in 0..len {
        for first in 0..=second {
            chunkings
                .push(bit(first) | bit(second))
                .map_err(|_| Trouble::Memory)?;
        }
    }
    Ok(chunkings)
}

// Returns the bit of that number, which is less than 64.
fn bit(number: usize) -> u64 {
    match u32::try_from(number) {
        Ok(number) => 1u64.wrapping_shl(number),
        Err(_) => 0,
    }
}

// Returns the bytes in chunks, cut after each byte whose bit is set. With `with_empty`, there are
// empty chunks at the start, at each chunk boundary, and at the end.
fn cut(alloc: Global, bytes: &[u8], cuts: u64, with_empty: bool) -> Result<Vec<Vec<u8>>, Trouble> {
    let mut pieces = Vec::new(alloc);
    let mut piece = Vec::new(alloc);
    if with_empty {
        add(&mut pieces, Vec::new(alloc))?;
    }
    for (at, byte) in bytes.iter().enumerate() {
        piece.push(*byte).map_err(|_| Trouble::Memory)?;
        if cuts & bit(at) != 0 {
            add(&mut pieces, piece)?;
            piece = Vec::new(alloc);
            if with_empty {
                add(&mut pieces, Vec::new(alloc))?;
            }
        }
    }
    add(&mut pieces, piece)?;
    if with_empty {
        add(&mut pieces, Vec::new(alloc))?;
    }
    Ok(pieces)
}

// Adds a chunk.
fn add(pieces: &mut Vec<Vec<u8>>, piece: Vec<u8>) -> Result<(), Trouble> {
    pieces.push(piece).map_err(|_| Trouble::Memory)
}
