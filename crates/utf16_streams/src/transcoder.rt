//! What a filter writes for the bytes that it reads.

ghost use Rattle.std.specs.Prelude.{◌≡◌, ◌≢◌, ◌+◌, ◌*◌, ◌≤◌, ℕ, List, [], length, take};
ghost use Rattle.utf16_streams.specs.Continues.{Continues};

/// A transcoder of a stream that comes in chunks, cut anywhere, which writes to buffers:
/// `filter_by` writes its output for the bytes that it reads.
pub trait Transcoder: Drop {
    // The output that is certain once these bytes have come, whatever follows them.
    ghost decided: { Self → List ℕ → List ℕ };

    // The whole output if the stream ends with these bytes.
    ghost whole: { Self → List ℕ → List ℕ };

    /// Transcodes the next chunk, writes the output that is now certain to the start of a buffer,
    /// and returns its length in bytes. The bytes of the buffer after it may be overwritten.
    ///
    /// # Precondition
    ///
    /// The buffer has at least two bytes for each byte of the chunk, and eight more.
    fn feed_to(&mut self, piece: &[u8], to: &mut [u8]) -> usize
        requires { 2 * length piece.now + 8 ≤ length to.old }
        ensures within { result ≤ length to.new }
        ensures bytes { take result to.new ≡ decided self.old piece.now }
        ensures continues { Continues (decided self.old) (whole self.old) (decided self.new)
            (whole self.new) piece.now };

    /// Ends the stream: writes what the end adds to the output to the start of a buffer, and
    /// returns its length in bytes.
    ///
    /// # Precondition
    ///
    /// The buffer has at least eight bytes.
    fn finish_to(self, to: &mut [u8]) -> usize
        requires { 8 ≤ length to.old }
        ensures within { result ≤ length to.new }
        ensures bytes { take result to.new ≡ whole self [] };

    /// States what the proof of `filter_by` needs, and does nothing: no bytes make nothing certain,
    /// and eight bytes always add to the output.
    fn laws(&self)
        ensures nothing { decided self.now [] ≡ [] }
        ensures eight { (bytes : List ℕ) → 8 ≤ length bytes → decided self.now bytes ≢ [] };
}
