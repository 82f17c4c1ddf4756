//! Callers of streams, each of which needs a law of the split.

ghost use Rattle.std.specs.Prelude.{◌≡◌, ◌⊎◌, ◌↔◌, ◌*◌, ◌+◌, ◌≤◌, ◌++◌, List, ℕ, Bool, IfOk, IsTrue, OnErr, OnOk, encode_utf8_all, length, string_bytes, take};
ghost use Rattle.std.specs.Io.{StartsWith};
ghost use Rattle.utf16_units.specs.Recipe.{Recipe};
ghost use Rattle.utf16_tools.specs.Lossy.{lossy_pending};
ghost use Rattle.utf16_tools.specs.Split.{decided_text, IsTail, Item, lossy_text, lossy_chars, Split, split_tail};
ghost use Rattle.utf16string.specs.WStr.{wstr_text};

use std::alloc::{AllocError, Allocator};
use utf16_tools::Lossy;
use utf16_units::laws::{
    cut_anywhere, items_stay, recipe_is_split, shown_within, split_exists, split_extends,
    split_unique, text_is_shown,
};
use utf16string::{Utf16Order, WStr};

/// Returns whether a decoder waits for the second half of a pair: the pending bytes then begin with
/// a leading surrogate.
pub fn waits_for_a_pair<E: Utf16Order>(decoder: &Lossy<E>) -> bool
    ensures waits { IsTrue result ↔ (2 ≤ length (lossy_pending decoder.now)) }
    ensures tail { IsTail E.BIG (lossy_pending decoder.now) }
{
    decoder.pending().len() >= 2
}

/// Feeds two chunks, and returns the text of both: what a decoder that is fed the two joined
/// returns. The same bytes are pending as in that one.
///
/// # Errors
///
/// If allocation fails. In that case the decoder is as it was, or as after the first chunk, or as
/// after both, and the text is lost.
pub fn feed_in_two<E: Utf16Order, A: Allocator, B: Allocator>(
    decoder: &mut Lossy<E>,
    alloc: A,
    second_alloc: B,
    first: &[u8],
    second: &[u8],
) -> Result<String<A>, AllocError>
    ensures text { IfOk result (λ s.
        string_bytes s ≡ encode_utf8_all
        (decided_text E.BIG (lossy_pending decoder.old ++ (first.now ++ second.now)))) }
    ensures pending { OnOk result (lossy_pending decoder.new
        ≡ split_tail E.BIG (lossy_pending decoder.old ++ (first.now ++ second.now))) }
    ensures err { OnErr result ((lossy_pending decoder.new ≡ lossy_pending decoder.old)
        ⊎ (lossy_pending decoder.new ≡ split_tail E.BIG (lossy_pending decoder.old ++ first.now))
        ⊎ (lossy_pending decoder.new
        ≡ split_tail E.BIG (lossy_pending decoder.old ++ (first.now ++ second.now)))) }
{
    split_extends();
    cut_anywhere();
    let mut text = decoder.feed(alloc, first)?;
    let more = decoder.feed(second_alloc, second)?;
    text.push_str(&more)?;
    Ok(text)
}

/// Returns the text of a whole stream that is certain, and the number of pending bytes. For any
/// split of the bytes, the text is the text of its items, and the pending bytes are its tail.
pub fn decoded<E: Utf16Order, A: Allocator>(
    alloc: A,
    bytes: &[u8],
) -> Result<(String<A>, usize), AllocError>
    ensures { IfOk result (λ answer. (items : List Item) (tail : List ℕ)
        → Split E.BIG bytes.now items tail
        → (string_bytes answer.0 ≡ encode_utf8_all (lossy_chars items))
        × (answer.1 ≡ length tail)) }
{
    split_unique();
    split_exists();
    let mut decoder = Lossy::<E>::new();
    let text = decoder.feed(alloc, bytes)?;
    Ok((text, decoder.pending().len()))
}

/// Returns the text that a reader gets who follows the fields of the error, in any way.
pub fn followed<E: Utf16Order, A: Allocator>(
    alloc: A,
    bytes: &[u8],
) -> Result<String<A>, AllocError>
    ensures { IfOk result (λ s. (text kept : List ℕ) → Recipe E.BIG bytes.now text kept
        → string_bytes s ≡ encode_utf8_all text) }
{
    recipe_is_split();
    Lossy::<E>::new().feed(alloc, bytes)
}

/// Returns a text that passed through a decoder: it is unchanged, and nothing is pending.
pub fn pass_through<E: Utf16Order, A: Allocator>(
    alloc: A,
    text: WStr<E>,
) -> Result<(String<A>, bool), AllocError>
    ensures text { IfOk result (λ answer.
        string_bytes answer.0 ≡ encode_utf8_all (wstr_text text.entry)) }
    ensures valid { IfOk result (λ answer. IsTrue answer.1) }
{
    text_is_shown();
    let mut decoder = Lossy::<E>::new();
    let passed = decoder.feed(alloc, text.as_bytes())?;
    Ok((passed, decoder.pending().is_empty()))
}

/// Returns the text of a prefix, and the text of all: the first is a prefix of the second.
pub fn early_and_whole<E: Utf16Order, A: Allocator, B: Allocator>(
    early_alloc: A,
    whole_alloc: B,
    whole: &[u8],
    at: usize,
) -> Result<(String<A>, String<B>), AllocError>
    requires { at ≤ length whole.now }
    ensures early { IfOk result (λ shown.
        string_bytes shown.0 ≡ encode_utf8_all (decided_text E.BIG (take at whole.now))) }
    ensures whole { IfOk result (λ shown.
        string_bytes shown.1 ≡ encode_utf8_all (decided_text E.BIG whole.now)) }
    ensures prefix { IfOk result (λ shown.
        StartsWith (string_bytes shown.1) (string_bytes shown.0)) }
{
    items_stay();
    let early = Lossy::<E>::new().feed(early_alloc, &whole[..at])?;
    let all = Lossy::<E>::new().feed(whole_alloc, whole)?;
    Ok((early, all))
}

/// Returns how many bytes of UTF-8 suffice for the whole text of bytes, in either byte order: at
/// most (3n + 6)/2 for n bytes.
pub fn room_for(bytes: &[u8]) -> usize
    ensures most { 2 * result ≤ 3 * length bytes.now + 6 }
    ensures suffices { (big : Bool) → length (encode_utf8_all (lossy_text big bytes.now)) ≤ result }
{
    shown_within();
    (bytes.len() / 2).saturating_mul(3).saturating_add(3)
}
