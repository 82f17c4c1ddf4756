//! Conversions from and to Latin-1 through a small buffer, in the loop that a program in C has.

ghost use Rattle.std.specs.Prelude.{◌≢◌, ◌<◌, ◌≤◌, IfOk, length, take};
ghost use Rattle.std.specs.Vec.{vec_items};
ghost use Rattle.utf16_units.specs.Encoding.{Encodes};
ghost use Rattle.utf16_fixed.specs.StopsLatin1.{StopsLatin1};
ghost use Rattle.utf16_fixed.specs.declared.latin1_stop.Latin1Stop.TheVariants.{NoSpace};
ghost use Rattle.uses_buffers.specs.Forms as forms;

use crate::buffer_call::{BufferCall, call_through};
use std::alloc::{AllocError, Allocator};
use std::marker::PhantomData;
use utf16_fixed::{Latin1Stop, from_latin1, to_latin1};
use utf16_transcode::{Direction, Progress, Stop, ToUtf8};
use utf16_units::Utf16Order;

/// Calls of `to_latin1`.
pub struct ToLatin1<E: Utf16Order>(PhantomData<E>);

impl<E: Utf16Order> BufferCall for ToLatin1<E> {
    type From = u8;

    type To = u8;

    type Stop = Latin1Stop;

    ghost conversion = { forms.to_latin1 E.BIG };

    ghost least = { 1 };

    fn call(input: &[u8], to: &mut [u8]) -> Progress<Latin1Stop> {
        to_latin1::<E>(input, to)
    }

    #[tactic(auto, using(crate::proofs::Latin1Lemmas::to_latin1_nothing))]
    fn laws() {
        ToUtf8::<E>::laws();
    }
}

/// Converts UTF-16 to Latin-1, up to the first ill-formed sequence or the first character above
/// U+00FF, like one call of `to_latin1` with enough space. Returns the Latin-1, the number of bytes
/// read, and why it stopped.
///
/// # Precondition
///
/// The buffer is not empty.
///
/// # Errors
///
/// If allocation fails.
pub fn to_latin1_through<E: Utf16Order, A: Allocator>(
    alloc: A,
    utf16: &[u8],
    buffer: &mut [u8],
) -> Result<(Vec<u8, A>, usize, Latin1Stop), AllocError>
    requires { 0 < length buffer.old }
    ensures within { IfOk result (λ done. done.1 ≤ length utf16.now) }
    ensures encoding { IfOk result (λ done.
        Encodes E.BIG (vec_items done.0) (take done.1 utf16.now)) }
    ensures stop { IfOk result (λ done. StopsLatin1 E.BIG utf16.now done.1 0 done.2) }
    ensures whole { IfOk result (λ done. done.2 ≢ NoSpace) }
{
    call_through::<ToLatin1<E>, A>(alloc, utf16, buffer)
}

/// Calls of `from_latin1`.
pub struct FromLatin1<E: Utf16Order>(PhantomData<E>);

impl<E: Utf16Order> BufferCall for FromLatin1<E> {
    type From = u8;

    type To = u8;

    type Stop = Stop;

    ghost conversion = { forms.from_latin1 E.BIG };

    ghost least = { 2 };

    fn call(input: &[u8], to: &mut [u8]) -> Progress {
        from_latin1::<E>(input, to)
    }

    fn laws() {}
}

/// Converts Latin-1 to UTF-16.
///
/// # Precondition
///
/// The buffer has at least two bytes.
///
/// # Errors
///
/// If allocation fails.
pub fn from_latin1_through<E: Utf16Order, A: Allocator>(
    alloc: A,
    latin1: &[u8],
    buffer: &mut [u8],
) -> Result<Vec<u8, A>, AllocError>
    requires { 2 ≤ length buffer.old }
    ensures { IfOk result (λ all. Encodes E.BIG latin1.now (vec_items all)) }
{
    Ok(call_through::<FromLatin1<E>, A>(alloc, latin1, buffer)?.0)
}
