//! A transcoder from UTF-8 to UTF-16.

ghost use Rattle.std.specs.Prelude.{◌≡◌, ◌+◌, ◌*◌, ◌≤◌, [], ◌++◌, length, take};
ghost use Rattle.utf8_bytes.specs.Split.{split_tail};
ghost use Rattle.utf16_transcode.specs.Stream.{stream_pending};
ghost use Rattle.utf16_streams.specs.Encoder.{certain, decided_utf16, entire, with_bom};

use crate::transcoder::Transcoder;
use std::marker::PhantomData;
use utf16_transcode::{FromUtf8, Stream, finish_utf8, put};
use utf16_units::Utf16Order;

// U+FEFF, the BOM (byte order mark).
const BOM: u16 = 0xFEFF;

/// A transcoder from UTF-8 to UTF-16 in byte order `E`, with U+FFFD for each maximal subpart of an
/// ill-formed sequence and one for an incomplete end.
#[derive(Drop)]
pub struct Encoder<E: Utf16Order> {
    stream: Stream,
    // Whether a BOM must come first and the output has not begun.
    bom_due: bool,
    order: PhantomData<E>,
    ghost undecided: { split_tail (stream_pending stream) ≡ stream_pending stream },
}

impl<E: Utf16Order> Encoder<E> {
    /// Returns a transcoder at the beginning of a stream. `bom_due` says whether a BOM comes first.
    pub fn new(bom_due: bool) -> Self
        ensures bom_due { result.bom_due ≡ bom_due }
        ensures pending { stream_pending result.stream ≡ [] }
    {
        Encoder {
            stream: Stream::new(),
            bom_due,
            order: PhantomData,
        }
    }
}

impl<E: Utf16Order> Transcoder for Encoder<E> {
    ghost decided = { λ it bytes.
        certain it.bom_due E.BIG (stream_pending it.stream ++ bytes) };

    ghost whole = { λ it bytes.
        entire it.bom_due E.BIG (stream_pending it.stream ++ bytes) };

    fn feed_to(&mut self, piece: &[u8], to: &mut [u8]) -> usize {
        let len = feed::<E>(&mut self.stream, piece, to);
        if !self.bom_due {
            return len;
        }
        if len == 0 {
            return 0;
        }
        self.bom_due = false;
        write_bom::<E>(to, len)
    }

    fn finish_to(self, to: &mut [u8]) -> usize {
        let mut stream = self.stream;
        let len = finish_utf8::<E>(&mut stream, to).written;
        if self.bom_due {
            write_bom::<E>(to, len)
        } else {
            len
        }
    }

    fn laws(&self) {}
}

// Encodes the next chunk: writes the UTF-16 that is now certain to the start of a buffer, and
// returns its length in bytes.
fn feed<E: Utf16Order>(stream: &mut Stream, piece: &[u8], to: &mut [u8]) -> usize
    requires undecided { split_tail (stream_pending stream.old)
        ≡ stream_pending stream.old }
    requires space { 2 * length piece.now + 8 ≤ length to.old }
    ensures fits { result + 6 ≤ length to.new }
    ensures bytes { take result to.new
        ≡ decided_utf16 E.BIG (stream_pending stream.old ++ piece.now) }
    ensures pending { stream_pending stream.new
        ≡ split_tail (stream_pending stream.old ++ piece.now) }
    ensures undecided { split_tail (stream_pending stream.new)
        ≡ stream_pending stream.new }
{
    stream.feed::<FromUtf8<E>>(piece, to).written
}

// Inserts a BOM before the first `len` bytes of a buffer, unless they begin with one. Returns the
// length of the output.
fn write_bom<E: Utf16Order>(to: &mut [u8], len: usize) -> usize
    requires { len + 2 ≤ length to.old }
    ensures within { result ≤ length to.new }
    ensures bytes { take result to.new ≡ with_bom E.BIG (take len to.old) }
{
    let bom = E::write_unit(BOM);
    if to[..len].starts_with(&bom) {
        return len;
    }
    to.copy_within(..len, bom.len());
    put(&bom, to, 0);
    len + bom.len()
}
