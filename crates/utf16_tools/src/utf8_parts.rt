//! Decodes a chunk of UTF-8 part by part, through a buffer.

ghost use Rattle.std.specs.Prelude.{◌≡◌, ◌+◌, ◌*◌, ◌≤◌, [], ◌++◌, IfOk, IsOk, OnErr, OnOk, length};
ghost use Rattle.utf16_units.specs.Edit.{push_text};
ghost use Rattle.utf16_units.specs.Encoding.{size};
ghost use Rattle.utf8_bytes.specs.Split.{decided_text, split_tail};
ghost use Rattle.utf16_transcode.specs.Stream.{stream_pending};
ghost use Rattle.utf16string.specs.WStr.{wstr_bytes, wstr_text};
ghost use Rattle.utf16string.specs.WString.{IsUnchanged, wstring_bytes, wstring_capacity, wstring_text};

use std::alloc::{AllocError, Allocator};
use utf16_transcode::{CHUNK_LEN, FEED_SLACK, FromUtf8, SHORT_CHUNK, Stream};
use utf16string::{Utf16Order, WStr, WString};

/// Decodes the next chunk of a stream, appends its text, and returns the stream with the bytes that
/// are now pending. For a short chunk, capacity is reserved for its text only; for a longer one,
/// for the longest possible text.
///
/// # Errors
///
/// If allocation fails. In that case the string is unchanged.
pub fn feed<E: Utf16Order, A: Allocator>(
    stream: Stream,
    piece: &[u8],
    to: &mut WString<E, A>,
) -> Result<Stream, AllocError>
    requires { split_tail (stream_pending stream) ≡ stream_pending stream }
    ensures text { OnOk result (wstring_text to.new ≡ push_text (wstring_text to.old)
        (decided_text (stream_pending stream ++ piece.now))) }
    ensures len { OnOk result (length (wstring_bytes to.new) ≡ length (wstring_bytes to.old)
        + size (decided_text (stream_pending stream ++ piece.now))) }
    ensures pending { IfOk result (λ fed.
        stream_pending fed ≡ split_tail (stream_pending stream ++ piece.now)) }
    ensures err { OnErr result (IsUnchanged to.old to.new) }
    ensures nothing { decided_text (stream_pending stream ++ piece.now) ≡ []
        → IsOk result × IsUnchanged to.old to.new }
    ensures succeeds { length (wstring_bytes to.old) + (2 * length piece.now + 2)
        ≤ wstring_capacity to.old → IsOk result }
    ensures grows { wstring_capacity to.old ≤ wstring_capacity to.new }
{
    if piece.len() <= SHORT_CHUNK {
        return append_part(stream, piece, &mut [0; 2 * SHORT_CHUNK + FEED_SLACK], to);
    }
    to.reserve(piece.len().saturating_mul(2).saturating_add(2))?;
    Ok(decode_parts(stream, piece, to))
}

// Decodes a chunk in parts, appends its text, which fits in the capacity, and returns the stream
// with the bytes that are now pending.
fn decode_parts<E: Utf16Order, A: Allocator>(
    stream: Stream,
    piece: &[u8],
    to: &mut WString<E, A>,
) -> Stream
    requires undecided { split_tail (stream_pending stream) ≡ stream_pending stream }
    requires fits { length (wstring_bytes to.old)
        + size (decided_text (stream_pending stream ++ piece.now)) ≤ wstring_capacity to.old }
    ensures text { wstring_text to.new ≡ push_text (wstring_text to.old)
        (decided_text (stream_pending stream ++ piece.now)) }
    ensures len { length (wstring_bytes to.new) ≡ length (wstring_bytes to.old)
        + size (decided_text (stream_pending stream ++ piece.now)) }
    ensures pending { stream_pending result
        ≡ split_tail (stream_pending stream ++ piece.now) }
    ensures grows { wstring_capacity to.old ≤ wstring_capacity to.new }
{
    let mut buffer = [0; 2 * CHUNK_LEN + FEED_SLACK];
    let mut stream = stream;
    let mut rest = piece;
    while !rest.is_empty() {
        let (part, next) = rest.split_at(rest.len().min(CHUNK_LEN));
        let Ok(fed) = append_part(stream, part, &mut buffer, to) else {
            unreachable!()
        };
        stream = fed;
        rest = next;
    }
    stream
}

// Decodes the next part of a chunk through a buffer, appends its text, and returns the stream with
// the bytes that are now pending.
fn append_part<E: Utf16Order, A: Allocator>(
    stream: Stream,
    part: &[u8],
    buffer: &mut [u8],
    to: &mut WString<E, A>,
) -> Result<Stream, AllocError>
    requires undecided { split_tail (stream_pending stream) ≡ stream_pending stream }
    requires space { 2 * length part.now + 2 ≤ length buffer.old }
    ensures text { OnOk result (wstring_text to.new ≡ push_text (wstring_text to.old)
        (decided_text (stream_pending stream ++ part.now))) }
    ensures len { OnOk result (length (wstring_bytes to.new) ≡ length (wstring_bytes to.old)
        + size (decided_text (stream_pending stream ++ part.now))) }
    ensures pending { IfOk result (λ fed.
        stream_pending fed ≡ split_tail (stream_pending stream ++ part.now)) }
    ensures err { OnErr result (IsUnchanged to.old to.new) }
    ensures nothing { decided_text (stream_pending stream ++ part.now) ≡ []
        → IsOk result × IsUnchanged to.old to.new }
    ensures succeeds { length (wstring_bytes to.old)
        + size (decided_text (stream_pending stream ++ part.now)) ≤ wstring_capacity to.old
        → IsOk result }
    ensures grows { wstring_capacity to.old ≤ wstring_capacity to.new }
{
    let (stream, text) = decode_part::<E>(stream, part, buffer);
    if !text.is_empty() {
        to.push_wstr(text)?;
    }
    Ok(stream)
}

// Decodes the next part of a chunk into a buffer, and returns the stream, with the bytes that are
// now pending, and the text.
fn decode_part<'a, E: Utf16Order>(
    stream: Stream,
    part: &[u8],
    buffer: &'a mut [u8],
) -> (Stream, WStr<'a, E>)
    requires undecided { split_tail (stream_pending stream) ≡ stream_pending stream }
    requires space { 2 * length part.now + 2 ≤ length buffer.old }
    ensures text { wstr_text result.1 ≡ decided_text (stream_pending stream ++ part.now) }
    ensures len { length (wstr_bytes result.1)
        ≡ size (decided_text (stream_pending stream ++ part.now)) }
    ensures pending { stream_pending result.0
        ≡ split_tail (stream_pending stream ++ part.now) }
{
    let mut stream = stream;
    let written = stream.feed::<FromUtf8<E>>(part, buffer).written;
    (stream, WStr::from_utf16_unchecked(&buffer[..written]))
}
