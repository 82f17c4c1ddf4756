//! Conversions from and to WTF-8 through a small buffer, in the loop that a program in C has.

ghost use Rattle.std.specs.Prelude.{◌≡◌, ◌≢◌, ◌≤◌, IfOk, drop, length, map, take};
ghost use Rattle.std.specs.List.{flat_map};
ghost use Rattle.std.specs.Vec.{vec_items};
ghost use Rattle.utf16_units.specs.Split.{split_items, split_tail};
ghost use Rattle.utf16_transcode.specs.declared.progress.Stop.TheVariants.{NoSpace};
ghost use Rattle.utf16_wtf8.specs.FromWtf8.{StopsFromWtf8, StopsFromWtf8Partial, TranscodesFromWtf8};
ghost use Rattle.utf16_wtf8.specs.ToWtf8.{StopsToWtf8, item_point, points_of};
ghost use Rattle.utf16_wtf8.specs.Wtf8.{generalized_utf8};
ghost use Rattle.uses_buffers.specs.Forms as forms;

use crate::buffer_call::{BufferCall, call_through};
use crate::small_buffer::partial_through;
use std::alloc::{AllocError, Allocator};
use std::marker::PhantomData;
use utf16_transcode::{Progress, Stop};
use utf16_units::Utf16Order;
use utf16_wtf8::{ToWtf8, from_wtf8, from_wtf8_partial, to_wtf8};

/// Calls of `to_wtf8`.
pub struct AllToWtf8<E: Utf16Order>(PhantomData<E>);

impl<E: Utf16Order> BufferCall for AllToWtf8<E> {
    type From = u8;

    type To = u8;

    type Stop = Stop;

    ghost conversion = { forms.to_wtf8 E.BIG };

    ghost least = { 4 };

    fn call(input: &[u8], to: &mut [u8]) -> Progress {
        to_wtf8::<E>(input, to)
    }

    #[tactic(auto, using(crate::proofs::Wtf8Lemmas::to_wtf8_joined, crate::proofs::Wtf8Lemmas::to_wtf8_nothing))]
    fn laws() {}
}

/// Converts all code units of UTF-16 to WTF-8, like one call of `to_wtf8` with enough space.
/// Returns the WTF-8, the number of bytes read, and `Incomplete` if an odd byte follows them.
///
/// # Precondition
///
/// The buffer has at least four bytes.
///
/// # Errors
///
/// If allocation fails.
#[tactic(auto, using(crate::proofs::Wtf8Lemmas::to_wtf8_end))]
pub fn to_wtf8_through<E: Utf16Order, A: Allocator>(
    alloc: A,
    utf16: &[u8],
    buffer: &mut [u8],
) -> Result<(Vec<u8, A>, usize, Stop), AllocError>
    requires { 4 ≤ length buffer.old }
    ensures points { IfOk result (λ done.
        vec_items done.0 ≡ flat_map generalized_utf8 (points_of E.BIG utf16.now)) }
    ensures within { IfOk result (λ done. done.1 ≤ length utf16.now) }
    ensures stop { IfOk result (λ done. StopsToWtf8 E.BIG (drop done.1 utf16.now) 0 done.2) }
    ensures whole { IfOk result (λ done. done.2 ≢ NoSpace) }
{
    call_through::<AllToWtf8<E>, A>(alloc, utf16, buffer)
}

/// Converts what is certain of UTF-16 to WTF-8, and returns the WTF-8 and the number of bytes read.
/// Each call in the loop is `to_wtf8_partial`, which is `transcode_partial` in the direction
/// `ToWtf8`.
///
/// # Precondition
///
/// The buffer has at least four bytes.
///
/// # Errors
///
/// If allocation fails.
pub fn to_wtf8_partial_through<E: Utf16Order, A: Allocator>(
    alloc: A,
    utf16: &[u8],
    buffer: &mut [u8],
) -> Result<(Vec<u8, A>, usize), AllocError>
    requires { 4 ≤ length buffer.old }
    ensures points { IfOk result (λ done. vec_items done.0
        ≡ flat_map generalized_utf8 (map item_point (split_items E.BIG utf16.now))) }
    ensures tail { IfOk result (λ done. drop done.1 utf16.now ≡ split_tail E.BIG utf16.now) }
    ensures within { IfOk result (λ done. done.1 ≤ length utf16.now) }
{
    partial_through::<ToWtf8<E>, A>(alloc, utf16, buffer)
}

/// Calls of `from_wtf8`.
pub struct FromWtf8<E: Utf16Order>(PhantomData<E>);

impl<E: Utf16Order> BufferCall for FromWtf8<E> {
    type From = u8;

    type To = u8;

    type Stop = Stop;

    ghost conversion = { forms.from_wtf8 E.BIG };

    ghost least = { 4 };

    fn call(input: &[u8], to: &mut [u8]) -> Progress {
        from_wtf8::<E>(input, to)
    }

    fn laws() {}
}

/// Converts WTF-8 to UTF-16, up to the first ill-formed sequence, like one call of `from_wtf8` with
/// enough space. Returns the UTF-16, the number of bytes read, and why it stopped.
///
/// # Precondition
///
/// The buffer has at least four bytes.
///
/// # Errors
///
/// If allocation fails.
pub fn from_wtf8_through<E: Utf16Order, A: Allocator>(
    alloc: A,
    wtf8: &[u8],
    buffer: &mut [u8],
) -> Result<(Vec<u8, A>, usize, Stop), AllocError>
    requires { 4 ≤ length buffer.old }
    ensures within { IfOk result (λ done. done.1 ≤ length wtf8.now) }
    ensures text { IfOk result (λ done.
        TranscodesFromWtf8 E.BIG (take done.1 wtf8.now) (vec_items done.0)) }
    ensures stop { IfOk result (λ done. StopsFromWtf8 E.BIG wtf8.now done.1 0 done.2) }
    ensures whole { IfOk result (λ done. done.2 ≢ NoSpace) }
{
    call_through::<FromWtf8<E>, A>(alloc, wtf8, buffer)
}

/// Calls of `from_wtf8_partial`.
pub struct FromWtf8Partial<E: Utf16Order>(PhantomData<E>);

impl<E: Utf16Order> BufferCall for FromWtf8Partial<E> {
    type From = u8;

    type To = u8;

    type Stop = Stop;

    ghost conversion = { forms.from_wtf8_partial E.BIG };

    ghost least = { 4 };

    fn call(input: &[u8], to: &mut [u8]) -> Progress {
        from_wtf8_partial::<E>(input, to)
    }

    fn laws() {}
}

/// Converts a chunk of a stream of WTF-8 to UTF-16, like one call of `from_wtf8_partial` with
/// enough space. Returns the UTF-16, the number of bytes read, and why it stopped.
///
/// # Precondition
///
/// The buffer has at least four bytes.
///
/// # Errors
///
/// If allocation fails.
pub fn from_wtf8_partial_through<E: Utf16Order, A: Allocator>(
    alloc: A,
    wtf8: &[u8],
    buffer: &mut [u8],
) -> Result<(Vec<u8, A>, usize, Stop), AllocError>
    requires { 4 ≤ length buffer.old }
    ensures within { IfOk result (λ done. done.1 ≤ length wtf8.now) }
    ensures text { IfOk result (λ done.
        TranscodesFromWtf8 E.BIG (take done.1 wtf8.now) (vec_items done.0)) }
    ensures stop { IfOk result (λ done. StopsFromWtf8Partial E.BIG wtf8.now done.1 0 done.2) }
    ensures whole { IfOk result (λ done. done.2 ≢ NoSpace) }
{
    call_through::<FromWtf8Partial<E>, A>(alloc, wtf8, buffer)
}
