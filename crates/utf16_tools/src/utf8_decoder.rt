//! A decoder of UTF-8 that comes in chunks.

ghost use Rattle.std.specs.Prelude.{◌≡◌, ◌≢◌, ◌↔◌, ◌+◌, ◌*◌, ◌<◌, ◌≤◌, [], ◌++◌, All, None, Some, IsOk, OnErr, OnOk, length};
ghost use Rattle.utf16_units.specs.Edit.{push_text};
ghost use Rattle.utf16_units.specs.Encoding.{size};
ghost use Rattle.utf8_bytes.specs.Split.{decided_text, IsTail, split_tail};
ghost use Rattle.utf16_transcode.specs.Stream.{stream_pending};

use crate::utf8_parts::feed;
use std::alloc::{AllocError, Allocator};
use std::marker::PhantomData;
use utf16_transcode::Stream;
use utf16_units::laws::are_bytes;
use utf16string::{Utf16Order, WString};

/// A decoder of UTF-8 that comes in chunks, cut anywhere, into a UTF-16 string in the byte order
/// `E`. Each maximal subpart of an ill-formed sequence becomes U+FFFD, the replacement character.
/// The value itself holds the pending bytes, at most three.
#[derive(Drop)]
pub struct Utf8Decoder<E: Utf16Order> {
    stream: Stream,
    order: PhantomData<E>,
    ghost undecided: { split_tail (stream_pending stream) ≡ stream_pending stream },
}

impl<E: Utf16Order> Utf8Decoder<E> {
    ghost use Rattle.utf16_tools.specs.Utf8Decoder.{utf8_decoder_pending};
    ghost use Rattle.utf16string.specs.WString.{IsUnchanged, wstring_bytes, wstring_capacity, wstring_text};

    /// Returns a decoder at the beginning of a stream.
    #[inline]
    pub fn new() -> Self
        ensures { utf8_decoder_pending result ≡ [] }
    {
        Utf8Decoder {
            stream: Stream::new(),
            order: PhantomData,
        }
    }

    /// Returns the bytes that are not decoded yet: none, or the first bytes of a character whose
    /// other bytes have not come.
    #[inline]
    pub fn pending(&self) -> &[u8]
        ensures bytes { result.now ≡ utf8_decoder_pending self.now }
        ensures undecided { split_tail result.now ≡ result.now }
        ensures tail { IsTail result.now }
        ensures few { length result.now ≤ 3 }
        ensures are_bytes { All (λ b. b < 256) result.now }
    {
        let pending = self.stream.pending();
        are_bytes(pending);
        pending
    }

    /// Decodes the next chunk, and appends the text that is now certain to a string: the
    /// characters, and U+FFFD for each maximal subpart of an ill-formed sequence. What more bytes
    /// could change stays pending.
    ///
    /// # Errors
    ///
    /// If allocation fails. In that case the decoder and the string are unchanged, and nothing of
    /// the chunk is taken. A call that appends nothing never fails.
    ///
    /// # Complexity
    ///
    /// Linear time. Allocates at most once. A chunk of at most 512 bytes needs capacity for
    /// its text, and a longer one for two bytes per byte and two more. Allocates nothing if the
    /// capacity suffices or nothing is appended. The chunk is not copied; the text of 4,096 bytes
    /// at a time passes through a buffer on the stack.
    pub fn feed<A: Allocator>(
        &mut self,
        piece: &[u8],
        to: &mut WString<E, A>,
    ) -> Result<(), AllocError>
        ensures text { OnOk result (wstring_text to.new ≡ push_text (wstring_text to.old)
            (decided_text (utf8_decoder_pending self.old ++ piece.now))) }
        ensures len { OnOk result (length (wstring_bytes to.new) ≡ length (wstring_bytes to.old)
            + size (decided_text (utf8_decoder_pending self.old ++ piece.now))) }
        ensures pending { OnOk result (utf8_decoder_pending self.new
            ≡ split_tail (utf8_decoder_pending self.old ++ piece.now)) }
        ensures err { OnErr result ((utf8_decoder_pending self.new ≡ utf8_decoder_pending self.old)
            × IsUnchanged to.old to.new) }
        ensures nothing { decided_text (utf8_decoder_pending self.old ++ piece.now) ≡ []
            → IsOk result × IsUnchanged to.old to.new }
        ensures succeeds { length (wstring_bytes to.old) + (2 * length piece.now + 2)
            ≤ wstring_capacity to.old → IsOk result }
        ensures grows { wstring_capacity to.old ≤ wstring_capacity to.new }
        ensures are_bytes { All (λ b. b < 256) (utf8_decoder_pending self.old ++ piece.now) }
    {
        are_bytes(self.stream.pending());
        self.stream = feed(self.stream, piece, to)?;
        Ok(())
    }

    /// Ends the stream: returns U+FFFD if bytes are pending, and `None` if not.
    ///
    /// # Complexity
    ///
    /// Allocates nothing.
    #[inline]
    pub fn finish(self) -> Option<char>
        ensures none { (result ≡ None) ↔ (utf8_decoder_pending self ≡ []) }
        ensures replacement { (result ≡ Some 0xFFFD) ↔ (utf8_decoder_pending self ≢ []) }
    {
        if self.stream.pending().is_empty() {
            None
        } else {
            Some('\u{FFFD}')
        }
    }
}
