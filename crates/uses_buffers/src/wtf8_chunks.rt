//! A stream of WTF-8 that is converted to UTF-16 without a decoder, in the loop that a program in C
//! has: what a call leaves of a chunk comes before the next one.

ghost use Rattle.std.specs.Prelude.{◌≡◌, ◌≢◌, ◌⊎◌, ℕ, ◌≤◌, IfOk, drop, length, take};
ghost use Rattle.std.specs.List.{flat_map};
ghost use Rattle.std.specs.Vec.{vec_items};
ghost use Rattle.utf16_transcode.specs.declared.progress.Stop.TheVariants.{IllFormed, NoSpace};
ghost use Rattle.uses_buffers.specs.FormCalls.{IsCall};
ghost use Rattle.uses_buffers.specs.Forms.{from_wtf8};

use crate::wtf8::{from_wtf8_partial_through, from_wtf8_through};
use std::alloc::{AllocError, Allocator};
use utf16_transcode::Stop;
use utf16_units::Utf16Order;

/// What was converted of a stream in chunks.
#[derive(Drop)]
pub struct Converted<A: Allocator> {
    /// The UTF-16.
    pub utf16: Vec<u8, A>,
    /// The bytes that were not read.
    pub unread: Vec<u8, A>,
    /// The number of chunks that were used: all, unless an ill-formed sequence was found.
    pub chunks: usize,
    /// Why the last call stopped.
    pub stop: Stop,
}

/// Converts a stream of WTF-8 to UTF-16, through a buffer of four bytes or more. The stream comes
/// in chunks, cut anywhere. The result is that of one call of `from_wtf8` that is given the chunks
/// together: all of them, or those up to the one in which an ill-formed sequence was found.
///
/// # Precondition
///
/// The buffer has at least four bytes.
///
/// # Errors
///
/// If allocation fails.
pub fn from_wtf8_chunks_through<E: Utf16Order, A: Allocator + Clone, B: Allocator>(
    alloc: A,
    chunks: &[Vec<u8, B>],
    buffer: &mut [u8],
) -> Result<Converted<A>, AllocError>
    requires { 4 ≤ length buffer.old }
    ensures converts { IfOk result (λ done. (n : ℕ)
        × IsCall (from_wtf8 E.BIG) (flat_map vec_items (take done.chunks chunks.now))
        (vec_items done.utf16) n 0 done.stop
        × (vec_items done.unread ≡ drop n (flat_map vec_items (take done.chunks chunks.now)))) }
    ensures whole { IfOk result (λ done. done.stop ≢ NoSpace) }
    ensures all { IfOk result (λ done. (done.chunks ≡ length chunks.now)
        ⊎ ((len : ℕ) × (done.stop ≡ IllFormed len))) }
{
    let mut utf16 = Vec::new(alloc.clone()?);
    let mut unread = Vec::new(alloc.clone()?);
    let mut used = 0;
    for chunk in chunks {
        unread.extend_from_slice(chunk)?;
        used += 1;
        let (part, read, stop) = from_wtf8_partial_through::<E, A>(
            alloc.clone()?,
            &unread,
            buffer,
        )?;
        utf16.extend_from_slice(&part)?;
        remove_front(&mut unread, read);
        if let Stop::IllFormed(_) = stop {
            return Ok(Converted {
                utf16,
                unread,
                chunks: used,
                stop,
            });
        }
    }
    let (part, read, stop) = from_wtf8_through::<E, A>(alloc, &unread, buffer)?;
    utf16.extend_from_slice(&part)?;
    remove_front(&mut unread, read);
    Ok(Converted {
        utf16,
        unread,
        chunks: used,
        stop,
    })
}

// Removes the first bytes.
fn remove_front<A: Allocator>(bytes: &mut Vec<u8, A>, count: usize)
    requires { count ≤ length (vec_items bytes.old) }
    ensures { vec_items bytes.new ≡ drop count (vec_items bytes.old) }
{
    let left = bytes.len() - count;
    bytes.copy_within(count.., 0);
    bytes.truncate(left);
}
