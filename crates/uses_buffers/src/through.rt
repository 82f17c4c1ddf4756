//! Each conversion for C through a small buffer, in either byte order.

ghost use Rattle.std.specs.Prelude.{◌≡◌, ◌≤◌, IfOk, drop, encode_utf8_all, length};
ghost use Rattle.std.specs.List.{flat_map};
ghost use Rattle.std.specs.Str.{IsUtf8, chars};
ghost use Rattle.std.specs.Vec.{vec_items};
ghost use Rattle.utf16_units.specs.Encoding.{IsUtf16, char_bytes, encode, utf8_of};
ghost use Rattle.utf16_units.specs.Split.{decided_text, lossy_text, split_tail};
ghost use Rattle.utf16_transcode.specs.Stops.{IsIllFormedUtf16};
ghost use Rattle.utf16_transcode.specs.FromUtf8.{IsIllFormedUtf8, text_of_utf8};
ghost use Rattle.uses_buffers.specs.Calls.{ConvertsUpTo};

use crate::small_buffer::{lossy_through, partial_through, stream_through, strict_through};
use std::alloc::{AllocError, Allocator};
use utf16_transcode::{FromUtf8, Stop, ToUtf8};
use utf16_units::Utf16Order;

/// Converts UTF-16 to UTF-8, up to the first ill-formed sequence.
pub fn to_utf8_through<E: Utf16Order, A: Allocator>(
    alloc: A,
    utf16: &[u8],
    buffer: &mut [u8],
) -> Result<(Vec<u8, A>, usize, Stop), AllocError>
    requires { 4 ≤ length buffer.old }
    ensures { IfOk result (λ done. ConvertsUpTo (IsUtf16 E.BIG) (utf8_of E.BIG)
        (IsIllFormedUtf16 E.BIG) utf16.now (vec_items done.0) done.1 done.2) }
{
    strict_through::<ToUtf8<E>, A>(alloc, utf16, buffer)
}

/// Converts UTF-8 to UTF-16, up to the first ill-formed sequence.
pub fn from_utf8_through<E: Utf16Order, A: Allocator>(
    alloc: A,
    utf8: &[u8],
    buffer: &mut [u8],
) -> Result<(Vec<u8, A>, usize, Stop), AllocError>
    requires { 4 ≤ length buffer.old }
    ensures { IfOk result (λ done. ConvertsUpTo IsUtf8 (λ text. encode E.BIG (chars text))
        IsIllFormedUtf8 utf8.now (vec_items done.0) done.1 done.2) }
{
    strict_through::<FromUtf8<E>, A>(alloc, utf8, buffer)
}

/// Converts UTF-16 to UTF-8, with U+FFFD for each ill-formed sequence.
pub fn to_utf8_lossy_through<E: Utf16Order, A: Allocator>(
    alloc: A,
    utf16: &[u8],
    buffer: &mut [u8],
) -> Result<Vec<u8, A>, AllocError>
    requires { 4 ≤ length buffer.old }
    ensures { IfOk result (λ all. vec_items all ≡ encode_utf8_all (lossy_text E.BIG utf16.now)) }
{
    lossy_through::<ToUtf8<E>, A>(alloc, utf16, buffer)
}

/// Converts UTF-8 to UTF-16, with U+FFFD for each ill-formed sequence.
pub fn from_utf8_lossy_through<E: Utf16Order, A: Allocator>(
    alloc: A,
    utf8: &[u8],
    buffer: &mut [u8],
) -> Result<Vec<u8, A>, AllocError>
    requires { 4 ≤ length buffer.old }
    ensures { IfOk result (λ all. vec_items all
        ≡ flat_map (char_bytes E.BIG) (text_of_utf8 utf8.now)) }
{
    lossy_through::<FromUtf8<E>, A>(alloc, utf8, buffer)
}

/// Converts UTF-16 to UTF-8, with U+FFFD for each unpaired surrogate, but does not read an
/// incomplete character at the end.
pub fn to_utf8_partial_through<E: Utf16Order, A: Allocator>(
    alloc: A,
    utf16: &[u8],
    buffer: &mut [u8],
) -> Result<(Vec<u8, A>, usize), AllocError>
    requires { 4 ≤ length buffer.old }
    ensures text { IfOk result (λ done.
        vec_items done.0 ≡ encode_utf8_all (decided_text E.BIG utf16.now)) }
    ensures tail { IfOk result (λ done. drop done.1 utf16.now ≡ split_tail E.BIG utf16.now) }
    ensures within { IfOk result (λ done. done.1 ≤ length utf16.now) }
{
    partial_through::<ToUtf8<E>, A>(alloc, utf16, buffer)
}

/// Converts a stream of UTF-16 in chunks to UTF-8, with U+FFFD for each ill-formed sequence.
pub fn decoder_feed_through<E: Utf16Order, A: Allocator, B: Allocator>(
    alloc: A,
    chunks: &[Vec<u8, B>],
    buffer: &mut [u8],
) -> Result<Vec<u8, A>, AllocError>
    requires { 4 ≤ length buffer.old }
    ensures { IfOk result (λ all. vec_items all
        ≡ encode_utf8_all (lossy_text E.BIG (flat_map vec_items chunks.now))) }
{
    stream_through::<ToUtf8<E>, A, B>(alloc, chunks, buffer)
}

/// Converts a stream of UTF-8 in chunks to UTF-16, with U+FFFD for each ill-formed sequence.
pub fn utf8_decoder_feed_through<E: Utf16Order, A: Allocator, B: Allocator>(
    alloc: A,
    chunks: &[Vec<u8, B>],
    buffer: &mut [u8],
) -> Result<Vec<u8, A>, AllocError>
    requires { 4 ≤ length buffer.old }
    ensures { IfOk result (λ all. vec_items all
        ≡ flat_map (char_bytes E.BIG) (text_of_utf8 (flat_map vec_items chunks.now))) }
{
    stream_through::<FromUtf8<E>, A, B>(alloc, chunks, buffer)
}
