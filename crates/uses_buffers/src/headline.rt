//! The headline of the project, phrase by phrase. Each is the contract of a function that uses only
//! public calls.
//!
//! In either byte order, bytes are taken as text exactly when they encode a list of characters, and
//! only one; every list of edits leaves the encoding of the equally edited list; where bytes are
//! refused, the error marks the longest valid beginning; and resuming by it, over every cutting of
//! a stream, yields the text of the stream's one split.

ghost use Rattle.std.specs.Prelude.{◌≡◌, ◌↔◌, ◌-◌, ◌<◌, ◌≤◌, ◌++◌, All, IfOk, IfSome, IsSome, List, OnErr, OnOk, ℕ, drop, encode_utf8_all, length, map, string_bytes};
ghost use Rattle.std.specs.List.{flat_map};
ghost use Rattle.std.specs.Vec.{vec_items};
ghost use Rattle.utf16_tools.specs.Split.{decided_text, lossy_text, lossy_chars, split_tail};
ghost use Rattle.utf16_tools.specs.Step.{Run};
ghost use Rattle.utf16string.specs.Encoding.{Encodes, IsUtf16};
ghost use Rattle.utf16string.specs.IllFormed.{IsIllFormed, IsUtf16ValidUpTo};
ghost use Rattle.utf16string.specs.WStr.{wstr_text};
ghost use Rattle.utf16string.specs.WString.{wstring_bytes, wstring_text};
ghost use Rattle.uses_buffers.specs.OneSplit.{IsTextByResuming, IsTextOfOneSplit};

use std::alloc::{AllocError, Allocator};
use utf16_tools::{Edit, Lossy, Reply, run};
use utf16_units::laws::{resumes_is_split, split_exists, split_unique, unique_text};
use utf16string::{Utf16Order, WStr, WString};

/// Bytes are taken as text exactly when they encode a list of characters, and only one: the view
/// has that list, and there is no other.
pub fn take_as_text<E: Utf16Order>(bytes: &[u8]) -> Option<WStr<E>>
    ensures taken { IsSome result ↔ ((text : List ℕ) × Encodes E.BIG text bytes.now) }
    ensures encoding { IfSome result (λ s. Encodes E.BIG (wstr_text s) bytes.now
        × ((other : List ℕ) → Encodes E.BIG other bytes.now → other ≡ wstr_text s)) }
{
    unique_text();
    WStr::<E>::from_utf16(bytes).ok()
}

/// Every list of edits leaves the encoding of the equally edited list: the replies and the last
/// text are a run of the list from the text at the start, and the bytes are the encoding of that
/// last text. If the allocation of the replies fails, the bytes are unchanged.
pub fn every_list_of_edits<E: Utf16Order, A: Allocator + Clone, B: Allocator, C: Allocator>(
    alloc: B,
    string: WString<E, A>,
    edits: Vec<Edit<E, A>, C>,
) -> (Result<Vec<Reply<E, A>, B>, AllocError>, Vec<u8, A>)
    ensures edited { IfOk result.0 (λ replies. (last : List ℕ)
        × Run (wstring_text string) edits.items replies.items last
        × Encodes E.BIG last result.1.items) }
    ensures err { OnErr result.0 (result.1.items ≡ wstring_bytes string) }
{
    let mut string = string;
    let replies = run(alloc, &mut string, edits);
    (replies, string.into_bytes())
}

/// Where bytes are refused, the error marks the longest valid beginning: returns the two fields of
/// the error, the length of the longest valid prefix and the `error_len` of what follows it, and
/// `None` exactly if the bytes are well formed.
pub fn error_after_valid_prefix<E: Utf16Order>(bytes: &[u8]) -> Option<(usize, Option<usize>)>
    ensures some { IsSome result ↔ ¬ (IsUtf16 E.BIG bytes.now) }
    ensures lossy_chars { IfSome result (λ fields. IsUtf16ValidUpTo E.BIG bytes.now fields.0
        × IsIllFormed E.BIG bytes.now fields.1) }
{
    let error = WStr::<E>::from_utf16(bytes).err()?;
    Some((error.valid_up_to(), error.error_len()))
}

/// Resuming by the error, over every cutting of a stream, yields the text of the stream's one
/// split. `resuming` says the first half: the text is what a reader gets who continues by
/// `valid_up_to` and `error_len` over the chunks, and keeps an incomplete character for the next
/// chunk, with one more U+FFFD if bytes are pending at the end. `one` says the second. The text in
/// UTF-8 is what `decode_pieces` returns, and what a `Lossy` returns that is fed the chunks: see
/// [`fed`].
pub fn resumed<E: Utf16Order, A: Allocator, B: Allocator, C: Allocator>(
    text_alloc: A,
    rest_alloc: B,
    pieces: &[Vec<u8, C>],
) -> Result<String<A>, AllocError>
    ensures resuming { IfOk result (λ text.
        IsTextByResuming E.BIG (map vec_items pieces.now) (string_bytes text)) }
    ensures one { IfOk result (λ text.
        IsTextOfOneSplit E.BIG (flat_map vec_items pieces.now) (string_bytes text)) }
    ensures same { IfOk result (λ text. string_bytes text ≡ encode_utf8_all
        (lossy_text E.BIG (flat_map vec_items pieces.now))) }
{
    split_exists();
    split_unique();
    resumes_is_split();
    let text = resume_pieces::<E, A, B, C>(text_alloc, rest_alloc, pieces)?;
    Ok(text)
}

/// Returns the text of a `Lossy` that is fed the chunks one by one and then finished, in UTF-8. It
/// is the text of [`resumed`] and of `decode_pieces`.
///
/// # Errors
///
/// If allocation fails.
pub fn fed<E: Utf16Order, A: Allocator, B: Allocator + Clone, C: Allocator>(
    text_alloc: A,
    answer_alloc: B,
    pieces: &[Vec<u8, C>],
) -> Result<String<A>, AllocError>
    ensures { IfOk result (λ text. string_bytes text ≡ encode_utf8_all
        (lossy_text E.BIG (flat_map vec_items pieces.now))) }
{
    let mut text = String::new(text_alloc);
    let mut decoder = Lossy::<E>::new();
    for piece in pieces {
        let answer = decoder.feed(answer_alloc.clone()?, piece)?;
        text.push_str(&answer)?;
    }
    let Some(replacement) = decoder.finish() else {
        return Ok(text);
    };
    text.push(replacement)?;
    Ok(text)
}

/// Appends the text of bytes, with U+FFFD for each ill-formed sequence that has a length, and
/// returns the incomplete character at the end: the loop in Rust's documentation of
/// `Utf8Error::error_len`.
///
/// # Errors
///
/// If allocation fails.
pub fn resume<'a, E: Utf16Order, A: Allocator>(
    bytes: &'a [u8],
    to: &mut String<A>,
) -> Result<&'a [u8], AllocError>
    ensures text { OnOk result (string_bytes to.new ≡ string_bytes to.old
        ++ encode_utf8_all (decided_text E.BIG bytes.now)) }
    ensures tail { IfOk result (λ kept. kept.now ≡ split_tail E.BIG bytes.now) }
    ensures are_bytes { All (λ b. b < 256) bytes.now }
{
    let mut rest = bytes;
    loop {
        let error = match WStr::<E>::from_utf16(rest) {
            Ok(text) => {
                text.push_utf8(to)?;
                return Ok(&[]);
            }
            Err(error) => error,
        };
        let (valid, faulty) = rest.split_at(error.valid_up_to());
        WStr::<E>::from_utf16_unchecked(valid).push_utf8(to)?;
        match error.error_len() {
            Some(len) => {
                to.push('\u{FFFD}')?;
                rest = &faulty[len..];
            }
            None => return Ok(faulty),
        }
    }
}

// Returns the text of chunks, which it decodes in a plain loop that follows the fields of the
// error.
fn resume_pieces<E: Utf16Order, A: Allocator, B: Allocator, C: Allocator>(
    text_alloc: A,
    rest_alloc: B,
    pieces: &[Vec<u8, C>],
) -> Result<String<A>, AllocError>
    ensures text { IfOk result (λ text. string_bytes text ≡ encode_utf8_all
        (lossy_text E.BIG (flat_map vec_items pieces.now))) }
    ensures are_bytes { OnOk result (All (λ b. b < 256) (flat_map vec_items pieces.now)) }
{
    let mut text = String::new(text_alloc);
    let mut rest = Vec::new(rest_alloc);
    for piece in pieces {
        rest.extend_from_slice(piece)?;
        let kept = resume::<E, A>(&rest, &mut text)?.len();
        keep_last(&mut rest, kept);
    }
    if rest.is_empty() {
        return Ok(text);
    }
    text.push('\u{FFFD}')?;
    Ok(text)
}

// Removes all but the last bytes.
fn keep_last<A: Allocator>(bytes: &mut Vec<u8, A>, count: usize)
    requires { count ≤ length (vec_items bytes.old) }
    ensures { vec_items bytes.new ≡ drop (length (vec_items bytes.old) - count)
        (vec_items bytes.old) }
{
    let from = bytes.len() - count;
    bytes.copy_within(from.., 0);
    bytes.truncate(count);
}
