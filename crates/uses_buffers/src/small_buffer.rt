//! Conversions through a small buffer, in the loop that a program in C has: it calls again with the
//! rest as long as the next character does not fit. Each call for C in `dethrux` is one of these
//! calls in the byte order that it is passed.

ghost use Rattle.std.specs.Prelude.{◌≡◌, ◌≤◌, ◌++◌, IfOk, OnOk, length, drop};
ghost use Rattle.std.specs.List.{flat_map};
ghost use Rattle.std.specs.Vec.{vec_items};
ghost use Rattle.utf16_transcode.specs.StreamSplit.{decided};
ghost use Rattle.utf16_transcode.specs.Stream.{stream_pending};
ghost use Rattle.utf16_transcode.specs.Transcoded.{SameText};
ghost use Rattle.uses_buffers.specs.Calls.{ConvertsUpTo};
ghost use Rattle.uses_buffers.specs.Forms.{lossy, partial, strict};

use crate::buffer_call::{BufferCall, call_through};
use std::alloc::{AllocError, Allocator};
use std::marker::PhantomData;
use utf16_transcode::{
    Direction, LossyDirection, Progress, Stop, Stream, transcode, transcode_lossy,
    transcode_partial,
};

/// Calls of `transcode_lossy`.
pub struct Lossy<D: LossyDirection>(PhantomData<D>);

impl<D: LossyDirection> BufferCall for Lossy<D> {
    type From = u8;

    type To = u8;

    type Stop = Stop;

    ghost conversion = { lossy D.split.whole D.into };

    ghost least = { 4 };

    fn call(input: &[u8], to: &mut [u8]) -> Progress {
        transcode_lossy::<D>(input, to)
    }

    fn laws() {
        D::lossy_laws();
    }
}

/// Returns the whole text of the input in the other encoding, with the replacement of each
/// ill-formed sequence and of a tail at the end, through a buffer of four bytes or more.
///
/// # Precondition
///
/// The buffer has at least four bytes.
///
/// # Errors
///
/// If allocation fails.
pub fn lossy_through<D: LossyDirection, A: Allocator>(
    alloc: A,
    input: &[u8],
    buffer: &mut [u8],
) -> Result<Vec<u8, A>, AllocError>
    requires { 4 ≤ length buffer.old }
    ensures { IfOk result (λ all. vec_items all ≡ flat_map D.into (D.split.whole input.now)) }
{
    D::lossy_laws();
    Ok(call_through::<Lossy<D>, A>(alloc, input, buffer)?.0)
}

/// Returns the whole text of a stream in the other encoding, with the replacement of each
/// ill-formed sequence and of a tail at the end, through a buffer of four bytes or more. The stream
/// comes in chunks, cut anywhere.
///
/// # Precondition
///
/// The buffer has at least four bytes.
///
/// # Errors
///
/// If allocation fails.
pub fn stream_through<D: LossyDirection, A: Allocator, B: Allocator>(
    alloc: A,
    chunks: &[Vec<u8, B>],
    buffer: &mut [u8],
) -> Result<Vec<u8, A>, AllocError>
    requires { 4 ≤ length buffer.old }
    ensures { IfOk result (λ all. vec_items all
        ≡ flat_map D.into (D.split.whole (flat_map vec_items chunks.now))) }
{
    D::lossy_laws();
    let (mut all, mut stream) = feed_chunks::<D, A, B>(alloc, chunks, buffer)?;
    let progress = stream.finish::<D>(buffer);
    all.extend_from_slice(&buffer[..progress.written])?;
    Ok(all)
}

/// Calls of `transcode_partial`.
pub struct Partial<D: LossyDirection>(PhantomData<D>);

impl<D: LossyDirection> BufferCall for Partial<D> {
    type From = u8;

    type To = u8;

    type Stop = Stop;

    ghost conversion = { partial D.split D.into };

    ghost least = { 4 };

    fn call(input: &[u8], to: &mut [u8]) -> Progress {
        transcode_partial::<D>(input, to)
    }

    fn laws() {
        D::lossy_laws();
    }
}

/// Returns what is certain of the input in the other encoding, with the replacement of each
/// ill-formed sequence, through a buffer of four bytes or more; and the number of bytes read. The
/// rest is the tail of the input.
///
/// # Precondition
///
/// The buffer has at least four bytes.
///
/// # Errors
///
/// If allocation fails.
pub fn partial_through<D: LossyDirection, A: Allocator>(
    alloc: A,
    input: &[u8],
    buffer: &mut [u8],
) -> Result<(Vec<u8, A>, usize), AllocError>
    requires { 4 ≤ length buffer.old }
    ensures text { IfOk result (λ done. vec_items done.0
        ≡ flat_map D.into (decided D.split input.now)) }
    ensures tail { IfOk result (λ done. drop done.1 input.now ≡ D.split.tail input.now) }
    ensures within { IfOk result (λ done. done.1 ≤ length input.now) }
{
    D::lossy_laws();
    let (all, read, _) = call_through::<Partial<D>, A>(alloc, input, buffer)?;
    Ok((all, read))
}

/// Calls of `transcode`.
pub struct Strict<D: Direction>(PhantomData<D>);

impl<D: Direction> BufferCall for Strict<D> {
    type From = u8;

    type To = u8;

    type Stop = Stop;

    ghost conversion = { strict (SameText D.IsValid D.other) D.from D.into D.IsIllFormed };

    ghost least = { 4 };

    fn call(input: &[u8], to: &mut [u8]) -> Progress {
        transcode::<D>(input, to)
    }

    fn laws() {
        D::laws();
    }
}

/// Returns the text of the input in the other encoding, up to the first ill-formed sequence,
/// through a buffer of four bytes or more; the number of bytes read; and what follows them.
///
/// # Precondition
///
/// The buffer has at least four bytes.
///
/// # Errors
///
/// If allocation fails.
#[tactic(auto, using(crate::proofs::FormLemmas::strict_end))]
pub fn strict_through<D: Direction, A: Allocator>(
    alloc: A,
    input: &[u8],
    buffer: &mut [u8],
) -> Result<(Vec<u8, A>, usize, Stop), AllocError>
    requires { 4 ≤ length buffer.old }
    ensures { IfOk result (λ done. ConvertsUpTo D.IsValid D.other D.IsIllFormed input.now
        (vec_items done.0) done.1 done.2) }
{
    call_through::<Strict<D>, A>(alloc, input, buffer)
}

// Returns the text of what is certain of a stream in chunks, and the stream after them.
pub(crate) fn feed_chunks<D: LossyDirection, A: Allocator, B: Allocator>(
    alloc: A,
    chunks: &[Vec<u8, B>],
    buffer: &mut [u8],
) -> Result<(Vec<u8, A>, Stream), AllocError>
    requires { 4 ≤ length buffer.old }
    ensures text { IfOk result (λ fed. vec_items fed.0
        ≡ flat_map D.into (decided D.split (flat_map vec_items chunks.now))) }
    ensures pending { IfOk result (λ fed.
        stream_pending fed.1 ≡ D.split.tail (flat_map vec_items chunks.now)) }
{
    D::lossy_laws();
    let mut all = Vec::new(alloc);
    let mut stream = Stream::new();
    for chunk in chunks {
        feed_through::<D, A>(&mut stream, chunk, buffer, &mut all)?;
    }
    Ok((all, stream))
}

// Appends the text of the next chunk of a stream.
fn feed_through<D: LossyDirection, A: Allocator>(
    stream: &mut Stream,
    chunk: &[u8],
    buffer: &mut [u8],
    all: &mut Vec<u8, A>,
) -> Result<(), AllocError>
    requires { 4 ≤ length buffer.old }
    ensures text { OnOk result (vec_items all.new ≡ vec_items all.old
        ++ flat_map D.into (decided D.split (stream_pending stream.old ++ chunk.now))) }
    ensures pending { OnOk result (stream_pending stream.new
        ≡ D.split.tail (stream_pending stream.old ++ chunk.now)) }
{
    D::lossy_laws();
    let mut rest = chunk;
    loop {
        let progress = stream.feed::<D>(rest, buffer);
        all.extend_from_slice(&buffer[..progress.written])?;
        rest = &rest[progress.read..];
        let Stop::NoSpace = progress.stop else {
            return Ok(());
        };
    }
}
