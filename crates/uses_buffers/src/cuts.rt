//! A proved decoder of a file of UTF-16 in parts, each of which is decoded separately.
ghost use Rattle.std.specs.Prelude.{◌≡◌, ◌+◌, ◌-◌, ◌<◌, ℕ, All, IfOk, encode_utf8_all, length, nat_lt, slice_index, string_bytes};
ghost use Rattle.std.specs.List.Sorted.{IsSortedBy};
ghost use Rattle.std.specs.Vec.{vec_items};
ghost use Rattle.utf16_bytes.specs.Boundary.{IsCut, IsLastCut};
ghost use Rattle.utf16_bytes.specs.Shards.{shard_start};
ghost use Rattle.utf16_streams.specs.Split.{lossy_text};

use std::alloc::{AllocError, Allocator};
use utf16_bytes::cut_laws::cuts_text;
use utf16_bytes::{floor_char_boundary_around, shard_offset};
use utf16_streams::Lossy;
use utf16_units::Utf16Order;

/// Returns the text of bytes in UTF-8, with U+FFFD for each unpaired surrogate and for an
/// incomplete character at the end.
///
/// # Errors
///
/// If allocation fails.
pub fn decode<E: Utf16Order, A: Allocator>(alloc: A, bytes: &[u8]) -> Result<String<A>, AllocError>
    ensures { IfOk result (λ text.
        string_bytes text ≡ encode_utf8_all (lossy_text E.BIG bytes.now)) }
{
    let mut decoder = Lossy::<E>::new();
    let mut text = decoder.feed(alloc, bytes)?;
    let Some(replacement) = decoder.finish() else {
        return Ok(text);
    };
    text.push(replacement)?;
    Ok(text)
}

/// Returns where a part of a file begins, of `count` about equal ones: the greatest boundary at or
/// before its `shard_offset`. Only four bytes of the file are read.
pub fn part_start<E: Utf16Order>(file: &[u8], count: u64, index: u64) -> usize
    ensures { IsLastCut E.BIG file.now (shard_start (length file.now) count index) result }
{
    let at = shard_offset(file.len() as u64, count, index);
    let start = (at / 2 * 2).saturating_sub(2) as usize;
    let around = &file[start..file.len().min(start + 4)];
    floor_char_boundary_around::<E>(around, at) as usize
}

/// Returns where the parts of a file after the first one begin, of `count` about equal ones.
///
/// # Errors
///
/// If allocation fails.
pub fn part_starts<E: Utf16Order, A: Allocator>(
    alloc: A,
    file: &[u8],
    count: u64,
) -> Result<Vec<usize, A>, AllocError>
    ensures count { IfOk result (λ starts. length (vec_items starts) ≡ count - 1) }
    ensures starts { IfOk result (λ starts. (k : ℕ) → k < length (vec_items starts)
        → IsLastCut E.BIG file.now (shard_start (length file.now) count (k + 1))
        (slice_index (vec_items starts) k)) }
    ensures ascend { IfOk result (λ starts. IsSortedBy nat_lt (vec_items starts)) }
    ensures cuts { IfOk result (λ starts. All (IsCut E.BIG file.now) (vec_items starts)) }
{
    let mut starts = Vec::new(alloc);
    let mut index = 1;
    while index < count {
        starts.push(part_start::<E>(file, count, index))?;
        index += 1;
    }
    Ok(starts)
}

/// Returns the text of a file in UTF-8, with U+FFFD for each unpaired surrogate and for an
/// incomplete character at the end. It decodes parts separately: they end at ascending boundaries
/// of the file, and the last one at its end.
///
/// # Errors
///
/// If allocation fails.
pub fn decode_parts<E: Utf16Order, A: Allocator, B: Allocator + Clone>(
    alloc: A,
    part_alloc: B,
    file: &[u8],
    starts: &[usize],
) -> Result<String<A>, AllocError>
    requires ascend { IsSortedBy nat_lt starts.now }
    requires cuts { All (IsCut E.BIG file.now) starts.now }
    ensures { IfOk result (λ text.
        string_bytes text ≡ encode_utf8_all (lossy_text E.BIG file.now)) }
{
    cuts_text();
    let mut text = String::new(alloc);
    let mut from = 0;
    for to in starts {
        let part = decode::<E, B>(part_alloc.clone()?, &file[from..*to])?;
        text.push_str(&part)?;
        from = *to;
    }
    let part = decode::<E, B>(part_alloc, &file[from..])?;
    text.push_str(&part)?;
    Ok(text)
}

/// Returns the text of a file in UTF-8, like `decode_parts`, from `count` parts of about equal
/// length. The text is the same for any count.
///
/// # Errors
///
/// If allocation fails.
pub fn decode_in_parts<E: Utf16Order, A: Allocator, B: Allocator + Clone, C: Allocator>(
    alloc: A,
    part_alloc: B,
    starts_alloc: C,
    file: &[u8],
    count: u64,
) -> Result<String<A>, AllocError>
    ensures { IfOk result (λ text.
        string_bytes text ≡ encode_utf8_all (lossy_text E.BIG file.now)) }
{
    let starts = part_starts::<E, C>(starts_alloc, file, count)?;
    decode_parts::<E, A, B>(alloc, part_alloc, file, &starts)
}
