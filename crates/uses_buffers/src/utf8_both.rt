//! Both filters, one after the other. What the first wrote is what the second reads, through a file
//! or a pipe, cut anywhere on both sides.

ghost use Rattle.std.specs.Prelude.{◌≡◌, List, ℕ, Some, [], OnOk};
ghost use Rattle.std.specs.Io.KnownBytes.{Appends};
ghost use Rattle.std.specs.Str.{IsUtf8};
ghost use Rattle.utf16_units.specs.Encoding.{IsUtf16};
ghost use Rattle.utf16_streams.specs.Watched.{watched_inner};

use std::alloc::Allocator;
use std::io::{Read, Write};
use utf16_streams::bom_laws::there_and_back;
use utf16_streams::{FilterFault, Utf16Order, Watched, encode_stream, filter};

/// Encodes a reader of UTF-8 to a writer in UTF-16, and then decodes a second reader of that UTF-16
/// to a second writer. If the first input is well formed, the last output is the same bytes.
///
/// # Errors
///
/// The errors of the filter that stops.
pub fn encode_then_filter<
    E: Utf16Order,
    R: Read,
    W: Write,
    S: Read,
    V: Write,
    A: Allocator,
    B: Allocator,
>(
    alloc: A,
    second_alloc: B,
    utf8: &mut Watched<R>,
    between: &mut Watched<W>,
    utf16: &mut Watched<S>,
    back: &mut Watched<V>,
) -> Result<(), FilterFault>
    ensures same { OnOk result ((bytes : List ℕ)
        → R.remaining (watched_inner utf8.old) ≡ Some bytes → IsUtf8 bytes
        → W.contents (watched_inner between.old) ≡ Some []
        → S.remaining (watched_inner utf16.old) ≡ W.contents (watched_inner between.new)
        → Appends (V.contents (watched_inner back.old)) (V.contents (watched_inner back.new))
        bytes) }
{
    there_and_back();
    encode_stream::<E, R, W, A>(alloc, utf8, between)?;
    filter::<E, S, V, B>(second_alloc, utf16, back)?;
    Ok(())
}

/// Decodes a reader of UTF-16 to a writer in UTF-8, and then encodes a second reader of that UTF-8
/// to a second writer. If the first input is well formed, the last output is the same bytes.
///
/// # Errors
///
/// The errors of the filter that stops.
pub fn filter_then_encode<
    E: Utf16Order,
    R: Read,
    W: Write,
    S: Read,
    V: Write,
    A: Allocator,
    B: Allocator,
>(
    alloc: A,
    second_alloc: B,
    utf16: &mut Watched<R>,
    between: &mut Watched<W>,
    utf8: &mut Watched<S>,
    back: &mut Watched<V>,
) -> Result<(), FilterFault>
    ensures same { OnOk result ((bytes : List ℕ)
        → R.remaining (watched_inner utf16.old) ≡ Some bytes → IsUtf16 E.BIG bytes
        → W.contents (watched_inner between.old) ≡ Some []
        → S.remaining (watched_inner utf8.old) ≡ W.contents (watched_inner between.new)
        → Appends (V.contents (watched_inner back.old)) (V.contents (watched_inner back.new))
        bytes) }
{
    there_and_back();
    filter::<E, R, W, A>(alloc, utf16, between)?;
    encode_stream::<E, S, V, B>(second_alloc, utf8, back)?;
    Ok(())
}
