//! Counts of the characters and line feeds of a stream of UTF-16 that comes in chunks.

ghost use Rattle.std.specs.Prelude.{◌≡◌, ◌==◌, ◌+◌, ◌-◌, ◌^◌, IfOk, chars, count_by, length, min};
ghost use Rattle.std.specs.List.{flat_map};
ghost use Rattle.std.specs.Vec.{vec_items};
ghost use Rattle.utf16_tools.specs.Split.{lossy_text};
ghost use Rattle.examples.specs.Counts.{AreCounts};

use std::alloc::{AllocError, Allocator};
use utf16_tools::Lossy;
use utf16string::Utf16Order;

/// The number of characters and the number of line feeds of a text. A count stops at `usize::MAX`.
#[derive(Clone, Copy, Debug, PartialEq, Eq)]
pub struct Counts {
    pub chars: usize,
    pub line_feeds: usize,
}

impl Counts {
    // Adds the counts of a part that follows the text.
    fn add(&mut self, part: &str)
        ensures chars { self.new.chars ≡ min (self.old.chars + length (chars part.now))
            (2 ^ 64 - 1) }
        ensures line_feeds { self.new.line_feeds
            ≡ min (self.old.line_feeds + count_by (λ c. c == 10) (chars part.now)) (2 ^ 64 - 1) }
    {
        self.chars = self.chars.saturating_add(count(part));
        self.line_feeds = self.line_feeds.saturating_add(count_line_feeds(part));
    }
}

/// Returns the counts of the text of a stream, with U+FFFD for each unpaired surrogate and for an
/// incomplete end. One chunk is decoded at a time.
///
/// # Errors
///
/// If an allocation fails.
#[tactic(auto, using(utf16_tools::proofs::StreamRules::streams))]
pub fn count_pieces<E: Utf16Order, A: Allocator + Clone, B: Allocator>(
    alloc: A,
    pieces: &[Vec<u8, B>],
) -> Result<Counts, AllocError>
    ensures { IfOk result (AreCounts (lossy_text E.BIG (flat_map vec_items pieces.now))) }
{
    let mut decoder = Lossy::<E>::new();
    let mut counts = Counts {
        chars: 0,
        line_feeds: 0,
    };
    for piece in pieces {
        let text = decoder.feed(alloc.clone()?, piece)?;
        counts.add(&text);
    }
    let Some(_mark) = decoder.finish() else {
        return Ok(counts);
    };
    counts.chars = counts.chars.saturating_add(1);
    Ok(counts)
}

#[tactic(auto, using(std::proofs::lemmas::Str::chars_from_encodes))]
fn count(text: &str) -> usize
    ensures { result ≡ length (chars text.now) }
{
    text.chars().count()
}

#[tactic(auto, using(std::proofs::lemmas::Str::chars_from_encodes))]
fn count_line_feeds(text: &str) -> usize
    ensures { result ≡ count_by (λ c. c == 10) (chars text.now) }
{
    text.chars().filter(|c| *c == '\n').count()
}
