//! A stream of UTF-16 that is converted to WTF-8 through a small buffer, and a stream of WTF-8 that
//! is converted to UTF-16, in the loop that a program in C has.

ghost use Rattle.std.specs.Prelude.{◌≡◌, ◌↔◌, ℕ, ◌%◌, ◌≤◌, IfOk, IsTrue, length};
ghost use Rattle.std.specs.List.{flat_map};
ghost use Rattle.std.specs.Vec.{vec_items};
ghost use Rattle.utf16_units.specs.Split.{split_tail};
ghost use Rattle.utf16_transcode.specs.declared.progress.Stop.TheVariants.{Incomplete};
ghost use Rattle.utf16_wtf8.specs.Stream.{IsWtf8Tail, wtf8_pending};
ghost use Rattle.utf16_wtf8.specs.ToWtf8.{points_of};
ghost use Rattle.utf16_wtf8.specs.Wtf8.{generalized_utf8};
ghost use Rattle.uses_buffers.specs.FormCalls.{Completes};
ghost use Rattle.uses_buffers.specs.Forms.{TakesWtf8, from_wtf8};

use crate::small_buffer::feed_chunks;
use std::alloc::{AllocError, Allocator};
use utf16_transcode::Stop;
use utf16_units::Utf16Order;
use utf16_wtf8::{ToWtf8, Wtf8Stream, finish_wtf8};

/// Converts all code units of a stream of UTF-16 to WTF-8. The stream comes in chunks, cut
/// anywhere. Also returns whether it ends with an odd byte, which is not a code unit.
///
/// # Precondition
///
/// The buffer has at least four bytes.
///
/// # Errors
///
/// If allocation fails.
pub fn wtf8_decoder_feed_through<E: Utf16Order, A: Allocator, B: Allocator>(
    alloc: A,
    chunks: &[Vec<u8, B>],
    buffer: &mut [u8],
) -> Result<(Vec<u8, A>, bool), AllocError>
    requires { 4 ≤ length buffer.old }
    ensures points { IfOk result (λ done. vec_items done.0
        ≡ flat_map generalized_utf8 (points_of E.BIG (flat_map vec_items chunks.now))) }
    ensures odd { IfOk result (λ done. IsTrue done.1
        ↔ (length (split_tail E.BIG (flat_map vec_items chunks.now)) % 2 ≡ 1)) }
{
    let (mut all, mut stream) = feed_chunks::<ToWtf8<E>, A, B>(alloc, chunks, buffer)?;
    let end = finish_wtf8::<E>(&mut stream, buffer);
    all.extend_from_slice(&buffer[..end.written])?;
    if let Stop::Incomplete = end.stop {
        return Ok((all, true));
    }
    Ok((all, false))
}

/// Converts a stream of WTF-8 to UTF-16, up to the first ill-formed sequence, and returns why it
/// stopped. The stream comes in chunks, cut anywhere. The result is that of one call of `from_wtf8`
/// that is given the chunks together, with enough space.
///
/// # Precondition
///
/// The buffer has at least four bytes.
///
/// # Errors
///
/// If allocation fails.
pub fn wtf8_encoder_feed_through<E: Utf16Order, A: Allocator, B: Allocator>(
    alloc: A,
    chunks: &[Vec<u8, B>],
    buffer: &mut [u8],
) -> Result<(Vec<u8, A>, Stop), AllocError>
    requires { 4 ≤ length buffer.old }
    ensures { IfOk result (λ done. (n : ℕ) × Completes (from_wtf8 E.BIG)
        (flat_map vec_items chunks.now) (vec_items done.0) n done.1) }
{
    let mut all = Vec::new(alloc);
    let mut stream = Wtf8Stream::new();
    for chunk in chunks {
        let stop = feed_wtf8_through::<E, A>(&mut stream, chunk, buffer, &mut all)?;
        let Stop::Done = stop else {
            return Ok((all, stop));
        };
    }
    let end = stream.finish::<E>(buffer);
    all.extend_from_slice(&buffer[..end.written])?;
    Ok((all, end.stop))
}

// Appends the UTF-16 of the next chunk of a stream of WTF-8, and returns why the last call stopped.
fn feed_wtf8_through<E: Utf16Order, A: Allocator>(
    stream: &mut Wtf8Stream,
    chunk: &[u8],
    buffer: &mut [u8],
    all: &mut Vec<u8, A>,
) -> Result<Stop, AllocError>
    requires { 4 ≤ length buffer.old }
    ensures takes { IfOk result (TakesWtf8 E.BIG (wtf8_pending stream.old) chunk.now
        (wtf8_pending stream.new) (vec_items all.old) (vec_items all.new)) }
    ensures tail { IfOk result (λ stop. IsWtf8Tail (wtf8_pending stream.old)
        → IsWtf8Tail (wtf8_pending stream.new)) }
{
    let mut rest = chunk;
    loop {
        let progress = stream.feed::<E>(rest, buffer);
        all.extend_from_slice(&buffer[..progress.written])?;
        rest = &rest[progress.read..];
        let Stop::NoSpace = progress.stop else {
            return Ok(progress.stop);
        };
    }
}
