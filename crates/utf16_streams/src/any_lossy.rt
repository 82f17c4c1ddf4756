//! A decoder of UTF-16 whose byte order the BOM gives.

ghost use Rattle.std.specs.Prelude.{◌≡◌, ◌≢◌, ◌↔◌, ◌+◌, ◌*◌, ◌<◌, ◌≤◌, [], ◌++◌, All, None, Some, IfErr, IfOk, IsOk, OnErr, OnOk, chars, encode_utf8_all, length, string_bytes, take};
ghost use Rattle.std.specs.Option.{option_to_list};
ghost use Rattle.utf16_units.specs.Split.{IsTail, lossy_chars};
ghost use Rattle.utf16_streams.specs.AnyLossy.{any_byte_order, any_pending, state_byte_order, state_pending};
ghost use Rattle.utf16_streams.specs.Bom.{big_in, items_in, byte_order_after, tail_in};
ghost use Rattle.utf16_streams.specs.Filter.{decided_utf8, whole_utf8};

use crate::decoder::{Decoder, SHORT_BUFFER, feed};
use crate::lossy::Lossy;
use crate::transcoder::Transcoder;
use std::alloc::{AllocError, Allocator};
use utf16_transcode::{REPLACEMENT, put};
use utf16_units::laws::are_bytes;
use utf16_units::{BE, LE, bom_of};

/// A decoder of UTF-16 that comes in chunks, cut anywhere, in the byte order that its BOM (byte
/// order mark) gives. A stream that begins with the bytes `FE FF` is big endian, and one that
/// begins with `FF FE` is little endian; this BOM is not part of its text. Any other stream is big
/// endian, and all of it is text. A second BOM is a character like any other. Each unpaired
/// surrogate becomes U+FFFD, the replacement character. The value itself holds the pending bytes,
/// at most three.
#[derive(Drop)]
pub struct AnyLossy {
    state: State,
}

// The pending byte, or the decoder once two bytes have come.
#[derive(Drop)]
enum State {
    // Fewer than two bytes have come.
    Undecided(Option<u8>),
    Big(Lossy<BE>),
    Little(Lossy<LE>),
}

impl AnyLossy {
    /// Returns a decoder at the beginning of a stream. Its byte order is not decided.
    #[inline]
    pub fn new() -> Self
        ensures pending { any_pending result ≡ [] }
        ensures byte_order { any_byte_order result ≡ None }
    {
        AnyLossy {
            state: State::Undecided(None),
        }
    }

    /// Returns the bytes that are not decoded yet, at most three. Before the second byte of the
    /// stream comes, this is the first byte, if it has come: it may be a byte of a BOM. After that,
    /// it is what `Lossy::pending` returns.
    #[inline]
    pub fn pending(&self) -> &[u8]
        ensures bytes { result.now ≡ any_pending self.now }
        ensures undecided { tail_in (any_byte_order self.now) result.now ≡ result.now }
        ensures tail { IsTail (big_in (any_byte_order self.now) result.now) result.now }
        ensures few { length result.now ≤ 3 }
        ensures are_bytes { All (λ b. b < 256) result.now }
        ensures none { any_byte_order self.now ≡ None → length result.now ≤ 1 }
    {
        match &self.state {
            State::Undecided(first) => {
                let pending = first.as_slice();
                are_bytes(pending);
                pending
            }
            State::Big(decoder) => decoder.pending(),
            State::Little(decoder) => decoder.pending(),
        }
    }

    /// Decodes the next chunk, and returns the text that is now certain, as `Lossy::feed` does in
    /// the byte order found. The second byte of the stream decides the byte order; a BOM is
    /// dropped.
    ///
    /// # Errors
    ///
    /// If allocation fails. In that case the decoder is unchanged, nothing of the chunk is taken,
    /// and a byte order that was undecided remains so. A call that returns the empty string never
    /// fails.
    ///
    /// # Complexity
    ///
    /// Allocates once for the longest possible result: three bytes for each code unit except a BOM,
    /// or eight for a single one. Allocates nothing if the result is empty.
    pub fn feed<A: Allocator>(&mut self, alloc: A, piece: &[u8]) -> Result<String<A>, AllocError>
        ensures text { IfOk result (λ s.
            string_bytes s ≡ encode_utf8_all
            (lossy_chars (items_in (any_byte_order self.old)
            (any_pending self.old ++ piece.now)))) }
        ensures chars { IfOk result (λ s.
            chars (string_bytes s)
            ≡ lossy_chars (items_in (any_byte_order self.old)
            (any_pending self.old ++ piece.now))) }
        ensures pending { OnOk result (any_pending self.new
            ≡ tail_in (any_byte_order self.old) (any_pending self.old ++ piece.now)) }
        ensures byte_order { OnOk result (any_byte_order self.new
            ≡ byte_order_after (any_byte_order self.old) (any_pending self.old ++ piece.now)) }
        ensures err { OnErr result ((any_pending self.new ≡ any_pending self.old)
            × (any_byte_order self.new ≡ any_byte_order self.old)) }
        ensures nothing { lossy_chars (items_in (any_byte_order self.old)
            (any_pending self.old ++ piece.now)) ≡ [] → IsOk result }
        ensures are_bytes { All (λ b. b < 256) (any_pending self.old ++ piece.now) }
    {
        are_bytes(self.pending());
        feed(self, alloc, piece)
    }

    /// Ends the stream: returns U+FFFD if bytes are pending, and `None` if not.
    ///
    /// # Complexity
    ///
    /// Allocates nothing.
    #[inline]
    pub fn finish(self) -> Option<char>
        ensures none { (result ≡ None) ↔ (any_pending self ≡ []) }
        ensures replacement { (result ≡ Some 0xFFFD) ↔ (any_pending self ≢ []) }
    {
        match self.state {
            State::Undecided(first) => first.map(|_| '\u{FFFD}'),
            State::Big(decoder) => decoder.finish(),
            State::Little(decoder) => decoder.finish(),
        }
    }
}

impl Decoder for AnyLossy {
    ghost order = { any_byte_order };

    ghost pending = { any_pending };

    fn feed_into<A: Allocator>(
        &mut self,
        piece: &[u8],
        buffer: &mut [u8],
        to: &mut String<A>,
    ) -> Result<(), AllocError> {
        match &mut self.state {
            State::Undecided(first) => {
                let (mut state, rest) = begin(*first, piece);
                state.feed_into(rest, buffer, to)?;
                self.state = state;
                Ok(())
            }
            decided => decided.feed_into(piece, buffer, to),
        }
    }
}

impl Transcoder for AnyLossy {
    ghost decided = { λ it bytes. decided_utf8 (any_byte_order it) (any_pending it ++ bytes) };

    ghost whole = { λ it bytes. whole_utf8 (any_byte_order it) (any_pending it ++ bytes) };

    fn feed_to(&mut self, piece: &[u8], to: &mut [u8]) -> usize {
        match &mut self.state {
            State::Undecided(first) => {
                let (mut state, rest) = begin(*first, piece);
                let written = state.feed_to(rest, to);
                self.state = state;
                written
            }
            decided => decided.feed_to(piece, to),
        }
    }

    fn finish_to(self, to: &mut [u8]) -> usize {
        let _ = self.pending();
        match self.finish() {
            Some(_) => put(&REPLACEMENT, to, 0),
            None => 0,
        }
    }

    fn laws(&self) {
        let _ = self.pending();
    }
}

impl State {
    // Decodes a chunk, as `Decoder::feed_into` does.
    fn feed_into<A: Allocator>(
        &mut self,
        piece: &[u8],
        buffer: &mut [u8],
        to: &mut String<A>,
    ) -> Result<(), AllocError>
        requires decided { state_byte_order self.old ≡ None → piece.now ≡ [] }
        requires space { SHORT_BUFFER ≤ length buffer.old }
        ensures text { OnOk result (string_bytes to.new ≡ string_bytes to.old
            ++ decided_utf8 (state_byte_order self.old) (state_pending self.old ++ piece.now)) }
        ensures pending { OnOk result (state_pending self.new
            ≡ tail_in (state_byte_order self.old) (state_pending self.old ++ piece.now)) }
        ensures byte_order { OnOk result (state_byte_order self.new
            ≡ byte_order_after (state_byte_order self.old) (state_pending self.old ++ piece.now)) }
        ensures err { OnErr result ((state_pending self.new ≡ state_pending self.old)
            × (state_byte_order self.new ≡ state_byte_order self.old)) }
        ensures nothing { items_in (state_byte_order self.old) (state_pending self.old ++ piece.now)
            ≡ [] → IsOk result }
    {
        match self {
            State::Undecided(_) => Ok(()),
            State::Big(decoder) => decoder.feed_into(piece, buffer, to),
            State::Little(decoder) => decoder.feed_into(piece, buffer, to),
        }
    }

    // Decodes a chunk, as `Transcoder::feed_to` does.
    fn feed_to(&mut self, piece: &[u8], to: &mut [u8]) -> usize
        requires decided { state_byte_order self.old ≡ None → piece.now ≡ [] }
        requires space { 2 * length piece.now + 8 ≤ length to.old }
        ensures within { result ≤ length to.new }
        ensures text { take result to.new
            ≡ decided_utf8 (state_byte_order self.old) (state_pending self.old ++ piece.now) }
        ensures pending { state_pending self.new
            ≡ tail_in (state_byte_order self.old) (state_pending self.old ++ piece.now) }
        ensures byte_order { state_byte_order self.new
            ≡ byte_order_after (state_byte_order self.old) (state_pending self.old ++ piece.now) }
    {
        match self {
            State::Undecided(_) => 0,
            State::Big(decoder) => decoder.feed_to(piece, to),
            State::Little(decoder) => decoder.feed_to(piece, to),
        }
    }
}

// Returns the state after the BOM, if the chunk completes one, and the rest of the chunk. At most
// one byte of the stream has come before. The second byte decides the byte order.
fn begin<'a>(first: Option<u8>, piece: &'a [u8]) -> (State, &'a [u8])
    ensures items { items_in None (option_to_list first ++ piece.now)
        ≡ items_in (state_byte_order result.0) (state_pending result.0 ++ result.1.now) }
    ensures tail { tail_in None (option_to_list first ++ piece.now)
        ≡ tail_in (state_byte_order result.0) (state_pending result.0 ++ result.1.now) }
    ensures byte_order { byte_order_after None (option_to_list first ++ piece.now)
        ≡ state_byte_order result.0 }
    ensures undecided { state_byte_order result.0 ≡ None → result.1.now ≡ [] }
    ensures shorter { length result.1.now ≤ length piece.now }
{
    let (beginning, rest) = match first_two(first, piece) {
        Ok(parts) => parts,
        Err(only) => return (State::Undecided(only), &[]),
    };
    match bom_of(beginning) {
        Some(true) => (State::Big(Lossy::new()), rest),
        Some(false) => (State::Little(Lossy::new()), rest),
        None => (State::Big(Lossy::after(first)), piece),
    }
}

// Returns the first two bytes of a stream and the bytes after them. If fewer have come, the error
// holds the only one, if there is one.
fn first_two<'a>(first: Option<u8>, piece: &'a [u8]) -> Result<([u8; 2], &'a [u8]), Option<u8>>
    ensures two { IfOk result (λ parts. option_to_list first ++ piece.now
        ≡ parts.0 ++ parts.1.now) }
    ensures len { IfOk result (λ parts. length parts.0 ≡ 2) }
    ensures fewer { IfErr result (λ only. option_to_list first ++ piece.now
        ≡ option_to_list only) }
    ensures shorter { IfOk result (λ parts. length parts.1.now ≤ length piece.now) }
{
    match (first, piece) {
        (None, [first, second, rest @ ..]) => Ok(([*first, *second], rest)),
        (Some(first), [second, rest @ ..]) => Ok(([first, *second], rest)),
        (None, [only]) => Err(Some(*only)),
        (first, []) => Err(first),
    }
}
