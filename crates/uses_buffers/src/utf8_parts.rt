//! Any bytes of UTF-8 decoded in parts, each separately.

ghost use Rattle.std.specs.Prelude.{◌≡◌, ◌+◌, ◌-◌, ◌*◌, ◌/◌, ◌<◌, ◌≤◌, ℕ, IfOk, OnOk, length, slice_index};
ghost use Rattle.std.specs.Str.{IsCharBoundary};
ghost use Rattle.std.specs.Vec.{vec_items};
ghost use Rattle.utf16_units.specs.Edit.{push_text};
ghost use Rattle.utf8_bytes.specs.Boundary.{AreCuts};
ghost use Rattle.utf8_bytes.specs.Split.{lossy_text};
ghost use Rattle.uses_buffers.specs.Utf8Parts.{IsLastCut};
ghost use Rattle.utf16string.specs.WString.{wstring_text};

use std::alloc::{AllocError, Allocator};
use utf8_bytes::cut_laws::{cut_text, cuts_text, text_boundaries};
use utf8_bytes::floor_char_boundary;
use utf16_tools::Utf8Decoder;
use utf16string::{Utf16Order, WString};

/// Appends the lossy text of bytes: the characters, and U+FFFD for each maximal subpart of an
/// ill-formed sequence and for an incomplete end.
///
/// # Errors
///
/// If allocation fails.
pub fn push_lossy<E: Utf16Order, A: Allocator>(
    utf8: &[u8],
    to: &mut WString<E, A>,
) -> Result<(), AllocError>
    ensures text { OnOk result (wstring_text to.new
        ≡ push_text (wstring_text to.old) (lossy_text utf8.now)) }
{
    let mut decoder = Utf8Decoder::<E>::new();
    decoder.feed(utf8, to)?;
    let Some(replacement) = decoder.finish() else {
        return Ok(());
    };
    to.push(replacement)
}

/// Appends the same text, from two parts that are decoded separately: the bytes before the greatest
/// boundary at or before an offset, and the bytes from it on.
///
/// # Errors
///
/// If allocation fails.
pub fn push_in_two<E: Utf16Order, A: Allocator>(
    utf8: &[u8],
    at: usize,
    to: &mut WString<E, A>,
) -> Result<(), AllocError>
    ensures text { OnOk result (wstring_text to.new
        ≡ push_text (wstring_text to.old) (lossy_text utf8.now)) }
{
    cut_text();
    let cut = floor_char_boundary(utf8, at);
    let (before, after) = utf8.split_at(cut);
    push_lossy(before, to)?;
    push_lossy(after, to)?;
    Ok(())
}

/// Returns the end of each part of bytes except the last: the greatest boundary at or before each
/// multiple of `size` that is less than the length of the bytes.
///
/// # Errors
///
/// If allocation fails.
///
/// # Precondition
///
/// `size` is not 0.
///
/// # Complexity
///
/// Constant time for each part.
pub fn part_ends<A: Allocator>(
    alloc: A,
    utf8: &[u8],
    size: usize,
) -> Result<Vec<usize, A>, AllocError>
    requires some { 0 < size }
    ensures count { IfOk result (λ ends. length (vec_items ends)
        ≡ (length utf8.now - 1) / size) }
    ensures ends { IfOk result (λ ends. (k : ℕ) → k < length (vec_items ends)
        → IsLastCut utf8.now ((k + 1) * size) (slice_index (vec_items ends) k)) }
    ensures cuts { IfOk result (λ ends. AreCuts utf8.now (vec_items ends)) }
{
    let mut ends = Vec::new(alloc);
    let mut at = size;
    while at < utf8.len() {
        ends.push(floor_char_boundary(utf8, at))?;
        at += size;
    }
    Ok(ends)
}

/// Appends the same text, from parts that are decoded separately. They end at ascending boundaries,
/// and the last one ends where the bytes end.
///
/// # Errors
///
/// If allocation fails.
///
/// # Precondition
///
/// The offsets are boundaries, and none is less than the one before.
pub fn push_parts<E: Utf16Order, A: Allocator>(
    utf8: &[u8],
    ends: &[usize],
    to: &mut WString<E, A>,
) -> Result<(), AllocError>
    requires cuts { AreCuts utf8.now ends.now }
    ensures text { OnOk result (wstring_text to.new
        ≡ push_text (wstring_text to.old) (lossy_text utf8.now)) }
{
    cuts_text();
    let mut start = 0;
    for end in ends {
        push_lossy(&utf8[start..*end], to)?;
        start = *end;
    }
    push_lossy(&utf8[start..], to)?;
    Ok(())
}

/// Appends the same text, from parts of about `size` bytes that are decoded separately. The text is
/// the same for any size.
///
/// # Errors
///
/// If allocation fails.
///
/// # Precondition
///
/// `size` is not 0.
pub fn push_in_parts<E: Utf16Order, A: Allocator, B: Allocator>(
    ends_alloc: B,
    utf8: &[u8],
    size: usize,
    to: &mut WString<E, A>,
) -> Result<(), AllocError>
    requires some { 0 < size }
    ensures text { OnOk result (wstring_text to.new
        ≡ push_text (wstring_text to.old) (lossy_text utf8.now)) }
{
    let ends = part_ends(ends_alloc, utf8, size)?;
    push_parts(utf8, &ends, to)
}

/// Returns what `str::floor_char_boundary` returns.
///
/// # Complexity
///
/// Constant time.
pub fn floor_of_text(text: &str, at: usize) -> usize
    ensures bound { result ≤ at }
    ensures boundary { IsCharBoundary text.now result }
    ensures nearest { (i : ℕ) → result < i → i ≤ at → ¬ (IsCharBoundary text.now i) }
{
    text_boundaries();
    floor_char_boundary(text.as_bytes(), at)
}
