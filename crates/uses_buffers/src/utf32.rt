//! Conversions from and to UTF-32 through a small buffer, in the loop that a program in C has: it
//! calls again with the rest as long as the next character does not fit.

ghost use Rattle.std.specs.Prelude.{◌≡◌, ◌≢◌, ◌<◌, ◌≤◌, IfOk, length, take};
ghost use Rattle.std.specs.Vec.{vec_items};
ghost use Rattle.utf16_units.specs.Encoding.{encode, char_bytes};
ghost use Rattle.utf16_units.specs.Split.{lossy_text};
ghost use Rattle.utf16_transcode.specs.declared.progress.Stop.TheVariants.{NoSpace};
ghost use Rattle.utf16_transcode.specs.Stops.{Stops, IsIllFormedUtf16};
ghost use Rattle.utf16_fixed.specs.Utf32.{TranscodesFromUtf32, TranscodesToUtf32, lossy_utf32, utf32_units};
ghost use Rattle.utf16_fixed.specs.Stops32.{IsIllFormedUtf32};
ghost use Rattle.uses_buffers.specs.Forms as forms;

use crate::buffer_call::{BufferCall, call_through};
use std::alloc::{AllocError, Allocator};
use std::marker::PhantomData;
use utf16_fixed::{from_utf32, from_utf32_lossy, to_utf32, to_utf32_lossy};
use utf16_transcode::{Direction, Progress, Stop, ToUtf8};
use utf16_units::Utf16Order;

/// Calls of `to_utf32`.
pub struct ToUtf32<E: Utf16Order>(PhantomData<E>);

impl<E: Utf16Order> BufferCall for ToUtf32<E> {
    type From = u8;

    type To = u32;

    type Stop = Stop;

    ghost conversion = { forms.to_utf32 E.BIG };

    ghost least = { 1 };

    fn call(input: &[u8], to: &mut [u32]) -> Progress {
        to_utf32::<E>(input, to)
    }

    #[tactic(auto, using(crate::proofs::Utf32Lemmas::to_utf32_nothing))]
    fn laws() {
        ToUtf8::<E>::laws();
    }
}

/// Converts UTF-16 to UTF-32, up to the first ill-formed sequence, like one call of `to_utf32` with
/// enough space. Returns the code units, the number of bytes read, and why it stopped.
///
/// # Precondition
///
/// The buffer has at least one code unit.
///
/// # Errors
///
/// If allocation fails.
pub fn to_utf32_through<E: Utf16Order, A: Allocator>(
    alloc: A,
    utf16: &[u8],
    buffer: &mut [u32],
) -> Result<(Vec<u32, A>, usize, Stop), AllocError>
    requires { 0 < length buffer.old }
    ensures within { IfOk result (λ done. done.1 ≤ length utf16.now) }
    ensures text { IfOk result (λ done.
        TranscodesToUtf32 E.BIG (take done.1 utf16.now) (vec_items done.0)) }
    ensures stop { IfOk result
        (λ done. Stops (char_bytes E.BIG) utf32_units (IsIllFormedUtf16 E.BIG) utf16.now done.1 0
        done.2) }
    ensures whole { IfOk result (λ done. done.2 ≢ NoSpace) }
{
    call_through::<ToUtf32<E>, A>(alloc, utf16, buffer)
}

/// Calls of `to_utf32_lossy`.
pub struct ToUtf32Lossy<E: Utf16Order>(PhantomData<E>);

impl<E: Utf16Order> BufferCall for ToUtf32Lossy<E> {
    type From = u8;

    type To = u32;

    type Stop = Stop;

    ghost conversion = { forms.to_utf32_lossy E.BIG };

    ghost least = { 1 };

    fn call(input: &[u8], to: &mut [u32]) -> Progress {
        to_utf32_lossy::<E>(input, to)
    }

    #[tactic(auto, using(crate::proofs::FormLemmas::lossy_joined))]
    fn laws() {}
}

/// Converts UTF-16 to UTF-32, with U+FFFD for each ill-formed sequence.
///
/// # Precondition
///
/// The buffer has at least one code unit.
///
/// # Errors
///
/// If allocation fails.
#[tactic(auto, using(crate::proofs::Utf32Lemmas::to_utf32_lossy_end))]
pub fn to_utf32_lossy_through<E: Utf16Order, A: Allocator>(
    alloc: A,
    utf16: &[u8],
    buffer: &mut [u32],
) -> Result<Vec<u32, A>, AllocError>
    requires { 0 < length buffer.old }
    ensures { IfOk result (λ all. vec_items all ≡ lossy_text E.BIG utf16.now) }
{
    Ok(call_through::<ToUtf32Lossy<E>, A>(alloc, utf16, buffer)?.0)
}

/// Calls of `from_utf32`.
pub struct FromUtf32<E: Utf16Order>(PhantomData<E>);

impl<E: Utf16Order> BufferCall for FromUtf32<E> {
    type From = u32;

    type To = u8;

    type Stop = Stop;

    ghost conversion = { forms.from_utf32 E.BIG };

    ghost least = { 4 };

    fn call(input: &[u32], to: &mut [u8]) -> Progress {
        from_utf32::<E>(input, to)
    }

    fn laws() {}
}

/// Converts UTF-32 to UTF-16, up to the first code unit that is not a scalar value, like one call
/// of `from_utf32` with enough space. Returns the bytes, the number of code units read, and why it
/// stopped.
///
/// # Precondition
///
/// The buffer has at least four bytes.
///
/// # Errors
///
/// If allocation fails.
pub fn from_utf32_through<E: Utf16Order, A: Allocator>(
    alloc: A,
    utf32: &[u32],
    buffer: &mut [u8],
) -> Result<(Vec<u8, A>, usize, Stop), AllocError>
    requires { 4 ≤ length buffer.old }
    ensures within { IfOk result (λ done. done.1 ≤ length utf32.now) }
    ensures text { IfOk result (λ done.
        TranscodesFromUtf32 E.BIG (take done.1 utf32.now) (vec_items done.0)) }
    ensures stop { IfOk result
        (λ done. Stops utf32_units (char_bytes E.BIG) IsIllFormedUtf32 utf32.now done.1 0 done.2) }
    ensures whole { IfOk result (λ done. done.2 ≢ NoSpace) }
{
    call_through::<FromUtf32<E>, A>(alloc, utf32, buffer)
}

/// Calls of `from_utf32_lossy`.
pub struct FromUtf32Lossy<E: Utf16Order>(PhantomData<E>);

impl<E: Utf16Order> BufferCall for FromUtf32Lossy<E> {
    type From = u32;

    type To = u8;

    type Stop = Stop;

    ghost conversion = { forms.from_utf32_lossy E.BIG };

    ghost least = { 4 };

    fn call(input: &[u32], to: &mut [u8]) -> Progress {
        from_utf32_lossy::<E>(input, to)
    }

    fn laws() {}
}

/// Converts UTF-32 to UTF-16, with U+FFFD for each code unit that is not a scalar value.
///
/// # Precondition
///
/// The buffer has at least four bytes.
///
/// # Errors
///
/// If allocation fails.
pub fn from_utf32_lossy_through<E: Utf16Order, A: Allocator>(
    alloc: A,
    utf32: &[u32],
    buffer: &mut [u8],
) -> Result<Vec<u8, A>, AllocError>
    requires { 4 ≤ length buffer.old }
    ensures { IfOk result (λ all. vec_items all ≡ encode E.BIG (lossy_utf32 utf32.now)) }
{
    Ok(call_through::<FromUtf32Lossy<E>, A>(alloc, utf32, buffer)?.0)
}
