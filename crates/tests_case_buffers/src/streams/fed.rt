//! Chunks decoded: fed to a decoder one by one, or at once.

use std::alloc::{AllocError, Allocator, Global};
use tests_support::Run;
use tests_support::refusing::Refusing;
use utf16_streams::{AnyLossy, Lossy, Utf16Order};

/// The calls that both decoders have.
pub trait Decoder: Drop {
    /// Returns a decoder at the beginning of a stream.
    fn new() -> Self;

    /// Returns the pending bytes.
    fn pending(&self) -> &[u8];

    /// Decodes the next chunk, and returns the text that is now certain.
    fn feed<A: Allocator>(&mut self, alloc: A, piece: &[u8]) -> Result<String<A>, AllocError>;

    /// Ends the stream: returns U+FFFD if bytes are pending, and `None` if not.
    fn finish(self) -> Option<char>;
}

impl<E: Utf16Order> Decoder for Lossy<E> {
    fn new() -> Self {
        Lossy::new()
    }

    fn pending(&self) -> &[u8] {
        Lossy::pending(self)
    }

    fn feed<A: Allocator>(&mut self, alloc: A, piece: &[u8]) -> Result<String<A>, AllocError> {
        Lossy::feed(self, alloc, piece)
    }

    fn finish(self) -> Option<char> {
        Lossy::finish(self)
    }
}

impl Decoder for AnyLossy {
    fn new() -> Self {
        AnyLossy::new()
    }

    fn pending(&self) -> &[u8] {
        AnyLossy::pending(self)
    }

    fn feed<A: Allocator>(&mut self, alloc: A, piece: &[u8]) -> Result<String<A>, AllocError> {
        AnyLossy::feed(self, alloc, piece)
    }

    fn finish(self) -> Option<char> {
        AnyLossy::finish(self)
    }
}

/// Feeds the chunks: adds for each the text and what is pending after it, and finally the result of
/// the end.
pub fn feed<D: Decoder>(run: &mut Run) {
    let pieces = run.pieces();
    run.begin();
    let mut decoder = D::new();
    for piece in &pieces {
        add_text(run, decoder.feed(run.heap, piece));
        run.answer.bytes(decoder.pending());
    }
    match decoder.finish() {
        Some(replacement) => run.answer.character(replacement),
        None => run.answer.word("none"),
    }
    run.requests();
}

/// Adds the text of chunks that are decoded at once.
pub fn decode_pieces<E: Utf16Order>(run: &mut Run) {
    let pieces = run.pieces();
    run.begin();
    add_text(
        run,
        utf16_streams::decode_pieces::<E, _, _>(run.heap, &pieces),
    );
    run.requests();
}

// Adds a text that was made, or that an allocation failed.
fn add_text(run: &mut Run, made: Result<String<&Refusing<Global>>, AllocError>) {
    match made {
        Ok(text) => run.answer.text(text.as_str()),
        Err(AllocError) => run.answer.word("no_memory"),
    }
}
