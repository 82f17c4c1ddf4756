//! A decoder of UTF-16 that comes in chunks.

ghost use Rattle.std.specs.Prelude.{◌≡◌, ◌≢◌, ◌↔◌, ◌+◌, ◌*◌, ◌<◌, ◌≤◌, [], ◌++◌, All, None, Some, IfOk, IsOk, OnErr, OnOk, chars, encode_utf8_all, length, string_bytes, take};
ghost use Rattle.std.specs.List.{flat_map};
ghost use Rattle.std.specs.Option.{option_to_list};
ghost use Rattle.std.specs.Str.{IsUtf8};
ghost use Rattle.std.specs.String.{string_capacity};
ghost use Rattle.std.specs.Vec.{vec_items};
ghost use Rattle.utf16_units.specs.Split.{decided_text, IsTail, lossy_text, split_items, split_tail};
ghost use Rattle.utf16_transcode.specs.Decodes.{Decodes};
ghost use Rattle.utf16_transcode.specs.Stream.{stream_pending};
ghost use Rattle.utf16_streams.specs.Filter.{ContinuesUtf8, decided_utf8, whole_utf8};

use crate::decoder::{BUFFER_LEN, Decoder, SHORT_BUFFER, feed};
use crate::transcoder::Transcoder;
use std::alloc::{AllocError, Allocator};
use std::marker::PhantomData;
use utf16_transcode::{FEED_SLACK, REPLACEMENT, Stream, ToUtf8, put};
use utf16_units::Utf16Order;
use utf16_units::laws::are_bytes;

/// A decoder of UTF-16 in the byte order `E` that comes in chunks, cut anywhere. Each unpaired
/// surrogate becomes U+FFFD, the replacement character. The value itself holds the pending bytes,
/// at most three.
#[derive(Drop)]
pub struct Lossy<E: Utf16Order> {
    stream: Stream,
    order: PhantomData<E>,
    ghost undecided: { split_tail E.BIG (stream_pending stream) ≡ stream_pending stream },
}

impl<E: Utf16Order> Lossy<E> {
    ghost use Rattle.utf16_streams.specs.Lossy.{lossy_pending};

    /// Returns a decoder at the beginning of a stream.
    #[inline]
    pub fn new() -> Self
        ensures { lossy_pending result ≡ [] }
    {
        Lossy {
            stream: Stream::new(),
            order: PhantomData,
        }
    }

    /// Returns the bytes that are not decoded yet: none, one byte, or a leading surrogate and at
    /// most one byte after it.
    #[inline]
    pub fn pending(&self) -> &[u8]
        ensures bytes { result.now ≡ lossy_pending self.now }
        ensures undecided { split_tail E.BIG result.now ≡ result.now }
        ensures tail { IsTail E.BIG result.now }
        ensures few { length result.now ≤ 3 }
        ensures are_bytes { All (λ b. b < 256) result.now }
    {
        let pending = self.stream.pending();
        are_bytes(pending);
        pending
    }

    /// Decodes the next chunk, and returns the text that is now certain: the characters, and U+FFFD
    /// for each unpaired surrogate. What more bytes could change stays pending.
    ///
    /// # Errors
    ///
    /// If allocation fails. In that case the decoder is unchanged, and nothing of the chunk is
    /// taken. A call that returns the empty string never fails.
    ///
    /// # Complexity
    ///
    /// Linear time. Allocates once for the longest possible result: three bytes for each code
    /// unit, or eight for a single one. Allocates nothing if the result is empty. The chunk is not
    /// copied; the text of 4,096 bytes at a time passes through a buffer on the stack.
    pub fn feed<A: Allocator>(&mut self, alloc: A, piece: &[u8]) -> Result<String<A>, AllocError>
        ensures text { IfOk result (λ s.
            string_bytes s ≡ encode_utf8_all
            (decided_text E.BIG (lossy_pending self.old ++ piece.now))) }
        ensures chars { IfOk result (λ s.
            chars (string_bytes s) ≡ decided_text E.BIG (lossy_pending self.old ++ piece.now)) }
        ensures pending { OnOk result (lossy_pending self.new
            ≡ split_tail E.BIG (lossy_pending self.old ++ piece.now)) }
        ensures err { OnErr result (lossy_pending self.new ≡ lossy_pending self.old) }
        ensures nothing { decided_text E.BIG (lossy_pending self.old ++ piece.now) ≡ []
            → IsOk result }
        ensures are_bytes { All (λ b. b < 256) (lossy_pending self.old ++ piece.now) }
    {
        are_bytes(self.stream.pending());
        feed(self, alloc, piece)
    }

    // Returns a decoder whose pending bytes are `first`, if there is one.
    pub(crate) fn after(first: Option<u8>) -> Self
        ensures { lossy_pending result ≡ option_to_list first }
    {
        let stream = match first {
            Some(byte) => Stream::holding(&[byte]),
            None => Stream::new(),
        };
        Lossy {
            stream,
            order: PhantomData,
        }
    }

    /// Ends the stream: returns U+FFFD if bytes are pending, and `None` if not.
    ///
    /// # Complexity
    ///
    /// Allocates nothing.
    #[inline]
    pub fn finish(self) -> Option<char>
        ensures none { (result ≡ None) ↔ (lossy_pending self ≡ []) }
        ensures replacement { (result ≡ Some 0xFFFD) ↔ (lossy_pending self ≢ []) }
    {
        if self.stream.pending().is_empty() {
            None
        } else {
            Some('\u{FFFD}')
        }
    }
}

impl<E: Utf16Order> Decoder for Lossy<E> {
    ghost use Rattle.utf16_streams.specs.Lossy.{lossy_pending};

    ghost order = { λ _. Some E.BIG };

    ghost pending = { lossy_pending };

    fn feed_into<A: Allocator>(
        &mut self,
        piece: &[u8],
        buffer: &mut [u8],
        to: &mut String<A>,
    ) -> Result<(), AllocError> {
        reserve_text(self.stream.pending().len(), piece.len(), to)?;
        self.stream = decode_parts::<E, A>(self.stream, piece, buffer, to)?;
        Ok(())
    }
}

impl<E: Utf16Order> Transcoder for Lossy<E> {
    ghost use Rattle.utf16_streams.specs.Lossy.{lossy_pending};

    ghost decided = { λ it bytes. decided_utf8 (Some E.BIG) (lossy_pending it ++ bytes) };

    ghost whole = { λ it bytes. whole_utf8 (Some E.BIG) (lossy_pending it ++ bytes) };

    fn feed_to(&mut self, piece: &[u8], to: &mut [u8]) -> usize
        requires { 2 * length piece.now + 8 ≤ length to.old }
        ensures within { result ≤ length to.new }
        ensures bytes { take result to.new
            ≡ decided_utf8 (Some E.BIG) (lossy_pending self.old ++ piece.now) }
        ensures continues { ContinuesUtf8 (Some E.BIG) (lossy_pending self.old) (Some E.BIG)
            (lossy_pending self.new) piece.now }
        ensures pending { lossy_pending self.new
            ≡ split_tail E.BIG (lossy_pending self.old ++ piece.now) }
    {
        are_bytes(self.stream.pending());
        self.stream.feed::<ToUtf8<E>>(piece, to).written
    }

    fn finish_to(self, to: &mut [u8]) -> usize {
        match self.finish() {
            Some(_) => put(&REPLACEMENT, to, 0),
            None => 0,
        }
    }

    fn laws(&self) {}
}

/// Returns the text of the chunks of a stream, joined: its characters, U+FFFD for each unpaired
/// surrogate, and one more for an incomplete end.
///
/// # Errors
///
/// If allocation fails. It does not fail if the chunks have no bytes.
pub fn decode_pieces<E: Utf16Order, A: Allocator, B: Allocator>(
    alloc: A,
    pieces: &[Vec<u8, B>],
) -> Result<String<A>, AllocError>
    ensures text { IfOk result (λ s.
        string_bytes s ≡ encode_utf8_all (lossy_text E.BIG (flat_map vec_items pieces.now))) }
    ensures chars { IfOk result (λ s.
        chars (string_bytes s) ≡ lossy_text E.BIG (flat_map vec_items pieces.now)) }
    ensures are_bytes { OnOk result (All (λ b. b < 256) (flat_map vec_items pieces.now)) }
    ensures nothing { flat_map vec_items pieces.now ≡ [] → IsOk result }
{
    decode_each::<E, A, B>(alloc, pieces)
}

// Returns the text of the chunks, as `decode_pieces` does.
fn decode_each<E: Utf16Order, A: Allocator, B: Allocator>(
    alloc: A,
    pieces: &[Vec<u8, B>],
) -> Result<String<A>, AllocError>
    ensures text { IfOk result (λ s.
        string_bytes s ≡ encode_utf8_all (lossy_text E.BIG (flat_map vec_items pieces.now))) }
    ensures are_bytes { OnOk result (All (λ b. b < 256) (flat_map vec_items pieces.now)) }
    ensures nothing { flat_map vec_items pieces.now ≡ [] → IsOk result }
{
    let mut text = String::new(alloc);
    let mut decoder = Lossy::<E>::new();
    let mut buffer = [0; BUFFER_LEN];
    for piece in pieces {
        are_bytes(piece);
        decoder.feed_into(piece, &mut buffer, &mut text)?;
    }
    let Some(replacement) = decoder.finish() else {
        return Ok(text);
    };
    text.push(replacement)?;
    Ok(text)
}

// Reserves capacity for the longest text of `pending` and `piece` bytes: a code unit takes at most
// three bytes of UTF-8. A string without capacity gets exactly that; one with capacity grows as
// `String` does. Fewer than four bytes decode to at most one character, and perhaps to nothing, so
// capacity for it is reserved only when it is appended.
fn reserve_text<A: Allocator>(
    pending: usize,
    piece: usize,
    to: &mut String<A>,
) -> Result<(), AllocError>
    ensures text { string_bytes to.new ≡ string_bytes to.old }
    ensures nothing { pending + piece < 4 → IsOk result }
    ensures most { string_capacity to.old ≡ 0
        → 2 * string_capacity to.new ≤ 3 * (pending + piece) }
{
    let bytes = piece.saturating_add(pending);
    if bytes < 4 {
        return Ok(());
    }
    let room = (bytes / 2).saturating_mul(3);
    if to.capacity() == 0 {
        return to.reserve_exact(room);
    }
    to.reserve(room)
}

// Appends the text of a stream's pending bytes and a chunk, and returns the stream with the bytes
// that are now pending. The text passes through a buffer, which takes as many bytes of the chunk at
// a time as its capacity allows.
fn decode_parts<E: Utf16Order, A: Allocator>(
    stream: Stream,
    piece: &[u8],
    buffer: &mut [u8],
    to: &mut String<A>,
) -> Result<Stream, AllocError>
    requires undecided { split_tail E.BIG (stream_pending stream) ≡ stream_pending stream }
    requires space { SHORT_BUFFER ≤ length buffer.old }
    ensures text { OnOk result (string_bytes to.new ≡ string_bytes to.old
        ++ encode_utf8_all (decided_text E.BIG (stream_pending stream ++ piece.now))) }
    ensures tail { IfOk result (λ fed.
        stream_pending fed ≡ split_tail E.BIG (stream_pending stream ++ piece.now)) }
    ensures nothing { split_items E.BIG (stream_pending stream ++ piece.now) ≡ [] → IsOk result }
{
    let mut stream = stream;
    let mut rest = piece;
    while !rest.is_empty() {
        (stream, rest) = decode_part::<E, A>(stream, rest, buffer, to)?;
    }
    Ok(stream)
}

// Decodes the first part of a chunk, and appends its text to `to` through a buffer. Returns the
// stream after it, and the rest of the chunk.
fn decode_part<'a, E: Utf16Order, A: Allocator>(
    stream: Stream,
    piece: &'a [u8],
    buffer: &mut [u8],
    to: &mut String<A>,
) -> Result<(Stream, &'a [u8]), AllocError>
    requires not_empty { 0 < length piece.now }
    requires space { SHORT_BUFFER ≤ length buffer.old }
    ensures decoded { IfOk result (λ left.
        Decodes E.BIG (stream_pending stream ++ piece.now) (stream_pending left.0 ++ left.1.now)
        (string_bytes to.old) (string_bytes to.new)) }
    ensures undecided { IfOk result (λ left. split_tail E.BIG (stream_pending left.0)
        ≡ stream_pending left.0) }
    ensures shorter { IfOk result (λ left. length left.1.now < length piece.now) }
    ensures nothing { split_items E.BIG (stream_pending stream ++ piece.now) ≡ [] → IsOk result }
{
    let mut stream = stream;
    let (part, rest) = part_that_fits::<E>(stream.pending(), piece, buffer.len());
    let written = stream.feed::<ToUtf8<E>>(part, buffer).written;
    to.push_str(unsafe { str::from_utf8_unchecked(&buffer[..written]) })?;
    Ok((stream, rest))
}

// Splits a chunk into the part to decode first, after the pending bytes, and the rest. The text
// fits in a buffer of `room` bytes. The pending bytes and the part have an even number of bytes
// together, so that no code unit is split before the end of the chunk.
fn part_that_fits<'a, E: Utf16Order>(
    pending: &[u8],
    piece: &'a [u8],
    room: usize,
) -> (&'a [u8], &'a [u8])
    requires few { length pending.now ≤ 3 }
    requires space { SHORT_BUFFER ≤ room }
    ensures joined { piece.now ≡ result.0.now ++ result.1.now }
    ensures advances { 0 < length piece.now → 0 < length result.0.now }
    ensures utf8 { IsUtf8 (encode_utf8_all (decided_text E.BIG (pending.now ++ result.0.now))) }
    ensures within { length (encode_utf8_all (decided_text E.BIG (pending.now ++ result.0.now)))
        ≤ room }
{
    let most = (room - FEED_SLACK) / 3 * 2;
    piece.split_at(piece.len().min(most - pending.len()))
}
