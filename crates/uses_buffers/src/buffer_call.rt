//! The loop that a program in C has around a conversion with a buffer: it calls again with the rest
//! as long as the next character does not fit.

ghost use Rattle.std.specs.Prelude.{◌≡◌, ◌↔◌, ◌-◌, ◌<◌, ◌≤◌, ℕ, List, [], IfOk, IsTrue, length, take};
ghost use Rattle.std.specs.Vec.{vec_items};
ghost use Rattle.utf16_transcode.specs.declared.progress.Stop.TheVariants as stop;
ghost use Rattle.utf16_fixed.specs.declared.latin1_stop.Latin1Stop.TheVariants as latin1_stop;
ghost use Rattle.uses_buffers.specs.FormCalls.{Completes, Composes, Conversion, IsCall, Joined};

use std::alloc::{AllocError, Allocator};
use utf16_fixed::Latin1Stop;
use utf16_transcode::{Progress, Stop};

/// Why a call stopped.
pub trait Reason: Copy {
    // The reason that the next character does not fit.
    ghost no_space: { Self };

    /// Returns whether the next character does not fit.
    fn is_no_space(self) -> bool
        ensures { IsTrue result ↔ self ≡ no_space };
}

impl Reason for Stop {
    ghost no_space = { stop.NoSpace };

    fn is_no_space(self) -> bool {
        self == Stop::NoSpace
    }
}

impl Reason for Latin1Stop {
    ghost no_space = { latin1_stop.NoSpace };

    fn is_no_space(self) -> bool {
        self == Latin1Stop::NoSpace
    }
}

/// A conversion with a buffer. Calls of it, each given the rest that the call before left, do
/// together what one call does.
pub trait BufferCall {
    /// A unit of the input.
    type From;

    /// A unit of the output.
    type To: Copy;

    /// Why a call stops.
    type Stop: Reason;

    // What the contract promises of a call.
    ghost conversion: { Conversion Self.From Self.To Self.Stop };

    // The length of the shortest buffer in which every character fits.
    ghost least: { ℕ };

    /// Calls the conversion. Returns how much it read and wrote, and why it stopped.
    fn call(input: &[Self::From], to: &mut [Self::To]) -> Progress<Self::Stop>
        ensures fits { result.written ≤ length to.new }
        ensures call { IsCall conversion input.now (take result.written to.new) result.read
            (length to.new - result.written) result.stop };

    /// States what the proof of the loop needs, and does nothing. A call that stopped for lack of
    /// space has no space for some character, and has written nothing if it read nothing.
    fn laws()
        ensures joined { Joined conversion }
        ensures no_space { conversion.no_space ≡ Self.Stop.no_space }
        ensures short { (input : List Self.From) (n left : ℕ)
            → conversion.Stops input n left conversion.no_space → left < least }
        ensures nothing { (input : List Self.From) (out : List Self.To)
            → conversion.Writes input out 0 → out ≡ [] };
}

/// Does what one call with enough space does. Returns the output, how much was read, and why the
/// last call stopped.
///
/// # Precondition
///
/// Every character fits in the buffer.
///
/// # Errors
///
/// If allocation fails.
pub fn call_through<C: BufferCall, A: Allocator>(
    alloc: A,
    input: &[C::From],
    buffer: &mut [C::To],
) -> Result<(Vec<C::To, A>, usize, C::Stop), AllocError>
    requires { C.least ≤ length buffer.old }
    ensures { IfOk result (λ done.
        Completes C.conversion input.now (vec_items done.0) done.1 done.2) }
{
    C::laws();
    let mut all = Vec::new(alloc);
    let mut at = 0;
    loop {
        let progress = C::call(&input[at..], buffer);
        all.extend_from_slice(&buffer[..progress.written])?;
        at += progress.read;
        if !progress.stop.is_no_space() {
            return Ok((all, at, progress.stop));
        }
    }
}

/// Calls one after another, in buffers of any lengths.
pub fn calls_compose<C: BufferCall>()
    ensures { Composes C.conversion }
{
    C::laws();
}
