//! Decoding of a stream that comes in chunks.

ghost use Rattle.std.specs.Prelude.{◌≡◌, ℕ, Bool, List, Option, [], ◌++◌, ◌≤◌, IfOk, IsOk, OnErr, OnOk, encode_utf8_all, length, string_bytes};
ghost use Rattle.utf16_units.specs.Split.{lossy_chars};
ghost use Rattle.utf16_streams.specs.Bom.{items_in, byte_order_after, tail_in};

use std::alloc::{AllocError, Allocator};
use utf16_transcode::{CHUNK_LEN, FEED_SLACK, SHORT_CHUNK};

/// The length, in bytes, of the buffer that decoded text is written to: three bytes for each code
/// unit of `CHUNK_LEN` bytes, and `FEED_SLACK` more.
pub const BUFFER_LEN: usize = 3 * (CHUNK_LEN / 2) + FEED_SLACK;

/// The length, in bytes, of the smallest buffer, which is for a chunk of at most `SHORT_CHUNK`
/// bytes.
pub const SHORT_BUFFER: usize = 3 * (SHORT_CHUNK / 2) + FEED_SLACK;

/// A decoder of a stream that comes in chunks, in a given byte order or in the one that the BOM
/// gives.
pub trait Decoder: Drop {
    // The byte order being decoded, or `None` until it is decided.
    ghost order: { Self → Option Bool };

    // The bytes that are pending: they have come, but are not decoded yet.
    ghost pending: { Self → List ℕ };

    /// Decodes the next chunk, and appends the text that is now certain to `to`. The text passes
    /// through `buffer`, part by part.
    ///
    /// # Errors
    ///
    /// If allocation fails. In that case the decoder is unchanged, and a prefix of the text may
    /// have been appended.
    ///
    /// # Precondition
    ///
    /// The buffer has at least `SHORT_BUFFER` bytes.
    fn feed_into<A: Allocator>(
        &mut self,
        piece: &[u8],
        buffer: &mut [u8],
        to: &mut String<A>,
    ) -> Result<(), AllocError>
        requires { SHORT_BUFFER ≤ length buffer.old }
        ensures text { OnOk result (string_bytes to.new ≡ string_bytes to.old
            ++ encode_utf8_all
            (lossy_chars (items_in (order self.old) (pending self.old ++ piece.now)))) }
        ensures pending { OnOk result (pending self.new
            ≡ tail_in (order self.old) (pending self.old ++ piece.now)) }
        ensures byte_order { OnOk result (order self.new
            ≡ byte_order_after (order self.old) (pending self.old ++ piece.now)) }
        ensures err { OnErr result ((pending self.new ≡ pending self.old)
            × (order self.new ≡ order self.old)) }
        ensures nothing { items_in (order self.old) (pending self.old ++ piece.now) ≡ []
            → IsOk result };
}

/// Decodes the next chunk, and returns the text that is now certain.
///
/// # Errors
///
/// If allocation fails. In that case the decoder is unchanged. A call that returns the empty string
/// never fails.
pub fn feed<D: Decoder, A: Allocator>(
    decoder: &mut D,
    alloc: A,
    piece: &[u8],
) -> Result<String<A>, AllocError>
    ensures text { IfOk result (λ s.
        string_bytes s ≡ encode_utf8_all
        (lossy_chars (items_in (D.order decoder.old) (D.pending decoder.old ++ piece.now)))) }
    ensures pending { OnOk result (D.pending decoder.new
        ≡ tail_in (D.order decoder.old) (D.pending decoder.old ++ piece.now)) }
    ensures byte_order { OnOk result (D.order decoder.new
        ≡ byte_order_after (D.order decoder.old) (D.pending decoder.old ++ piece.now)) }
    ensures err { OnErr result ((D.pending decoder.new ≡ D.pending decoder.old)
        × (D.order decoder.new ≡ D.order decoder.old)) }
    ensures nothing { items_in (D.order decoder.old) (D.pending decoder.old ++ piece.now) ≡ []
        → IsOk result }
{
    let mut text = String::new(alloc);
    if piece.len() <= SHORT_CHUNK {
        decoder.feed_into(piece, &mut [0; SHORT_BUFFER], &mut text)?;
    } else {
        decoder.feed_into(piece, &mut [0; BUFFER_LEN], &mut text)?;
    }
    Ok(text)
}
