//! Laws of calls one after another, each given the rest that the call before left, in buffers of
//! any capacities: together they do what one call does that is given the whole input. The laws hold
//! for every call that keeps the contract of the function that they name, and so for each call for
//! C in `dethrux`. For `to_wtf8_partial` and the feeds of a stream to WTF-8 they are
//! `partial_calls` and `stream_calls` of `call_laws`, in the direction `ToWtf8`.

ghost use Rattle.std.specs.Prelude.{◌≡◌, ℕ, ◌+◌, ◌-◌, List, [], ◌++◌, drop, length};
ghost use Rattle.std.specs.List.{flat_map};
ghost use Rattle.utf16_transcode.specs.declared.progress.Stop.{Stop};
ghost use Rattle.utf16_transcode.specs.declared.progress.Stop.TheVariants.{IllFormed};
ghost use Rattle.uses_buffers.specs.Calls.{Feed, Feeding, FeedsAll, GoesOnWtf8, IsWtf8Feed, feed_output};
ghost use Rattle.uses_buffers.specs.FormCalls.{Composes, IsCall};
ghost use Rattle.uses_buffers.specs.Forms.{Cuts, from_latin1, from_utf32, from_utf32_lossy, from_wtf8, from_wtf8_partial, to_latin1, to_utf32, to_utf32_lossy, to_wtf8};

use crate::buffer_call::calls_compose;
use crate::latin1::{FromLatin1, ToLatin1};
use crate::utf32::{FromUtf32, FromUtf32Lossy, ToUtf32, ToUtf32Lossy};
use crate::wtf8::{AllToWtf8, FromWtf8, FromWtf8Partial};
use utf16_units::Utf16Order;

/// Calls of `to_utf32`.
pub fn to_utf32_calls<E: Utf16Order>()
    ensures { Composes (to_utf32 E.BIG) }
{
    calls_compose::<ToUtf32<E>>();
}

/// Calls of `to_utf32_lossy`.
pub fn to_utf32_lossy_calls<E: Utf16Order>()
    ensures { Composes (to_utf32_lossy E.BIG) }
{
    calls_compose::<ToUtf32Lossy<E>>();
}

/// Calls of `from_utf32`.
pub fn from_utf32_calls<E: Utf16Order>()
    ensures { Composes (from_utf32 E.BIG) }
{
    calls_compose::<FromUtf32<E>>();
}

/// Calls of `from_utf32_lossy`.
pub fn from_utf32_lossy_calls<E: Utf16Order>()
    ensures { Composes (from_utf32_lossy E.BIG) }
{
    calls_compose::<FromUtf32Lossy<E>>();
}

/// Calls of `to_latin1`.
pub fn to_latin1_calls<E: Utf16Order>()
    ensures { Composes (to_latin1 E.BIG) }
{
    calls_compose::<ToLatin1<E>>();
}

/// Calls of `from_latin1`.
pub fn from_latin1_calls<E: Utf16Order>()
    ensures { Composes (from_latin1 E.BIG) }
{
    calls_compose::<FromLatin1<E>>();
}

/// Calls of `to_wtf8`.
pub fn to_wtf8_calls<E: Utf16Order>()
    ensures { Composes (to_wtf8 E.BIG) }
{
    calls_compose::<AllToWtf8<E>>();
}

/// Calls of `from_wtf8`.
pub fn from_wtf8_calls<E: Utf16Order>()
    ensures { Composes (from_wtf8 E.BIG) }
{
    calls_compose::<FromWtf8<E>>();
}

/// Calls of `from_wtf8_partial`.
pub fn from_wtf8_partial_calls<E: Utf16Order>()
    ensures { Composes (from_wtf8_partial E.BIG) }
{
    calls_compose::<FromWtf8Partial<E>>();
}

/// A stream of WTF-8 in chunks: calls of `from_wtf8_partial`, each given what the call before left
/// and then the next chunk, do what one call does, for any chunks. At the end `from_wtf8` is given
/// what is left, and all do what one call of it does that is given the whole stream.
pub fn from_wtf8_cuts<E: Utf16Order>()
    ensures chunk { Cuts E.BIG (from_wtf8_partial E.BIG) }
    ensures end { Cuts E.BIG (from_wtf8 E.BIG) }
{}

/// A stream of WTF-8: calls of `Wtf8Stream::feed`, for any chunks and in buffers of any capacities,
/// do together what one call of `from_wtf8` does that is given the whole stream. If all of it was
/// taken, `from_wtf8` for what is pending does the rest, and `Wtf8Stream::finish` is that call.
/// Otherwise a call found the ill-formed sequence that the one call finds.
pub fn wtf8_stream_calls<E: Utf16Order>()
    ensures end { (bytes : List ℕ) (feeds : List Feed) (last : Feed) (out : List ℕ) (n left : ℕ)
        (stop : Stop) → FeedsAll (GoesOnWtf8 E.BIG) bytes feeds last
        → IsCall (from_wtf8 E.BIG) last.pending out n left stop
        → IsCall (from_wtf8 E.BIG) bytes ((flat_map feed_output feeds ++ feed_output last) ++ out)
        (length bytes - length last.pending + n) left stop }
    ensures fault { (bytes : List ℕ) (feeds : List Feed) (last : Feed) (pending left : List ℕ)
        (len : ℕ) → Feeding (GoesOnWtf8 E.BIG) [] bytes feeds pending left
        → IsWtf8Feed E.BIG pending left last → last.stop ≡ IllFormed len
        → (n : ℕ) × IsCall (from_wtf8 E.BIG) bytes (flat_map feed_output feeds ++ feed_output last)
        n (length last.to - last.written) last.stop
        × (last.pending ++ drop last.read left ≡ drop n bytes) }
{}
