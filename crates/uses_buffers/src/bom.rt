//! What users need of streams whose BOM gives the byte order.

ghost use Rattle.std.specs.Prelude.{◌≡◌, ◌⊎◌, ◌++◌, None, IfOk, OnErr, OnOk, encode_utf8_all, string_bytes};
ghost use Rattle.utf16_tools.specs.AnyLossy.{any_byte_order, any_pending};
ghost use Rattle.utf16_tools.specs.Bom.{items_in, byte_order_after, tail_in};
ghost use Rattle.utf16_tools.specs.Split.{whole_lossy_chars, lossy_chars};
ghost use Rattle.uses_buffers.specs.Given.{Leaves};

use std::alloc::{AllocError, Allocator};
use utf16_tools::AnyLossy;

/// Returns the text of a whole stream, in the byte order that its BOM gives. The BOM is not part of
/// the text. Ill-formed sequences become U+FFFD.
///
/// # Errors
///
/// If allocation fails.
pub fn decode_by_bom<A: Allocator>(alloc: A, bytes: &[u8]) -> Result<String<A>, AllocError>
    ensures { IfOk result (λ s.
        string_bytes s ≡ encode_utf8_all
        (whole_lossy_chars (items_in None bytes.now) (tail_in None bytes.now))) }
{
    let mut decoder = AnyLossy::new();
    let mut text = decoder.feed(alloc, bytes)?;
    let Some(replacement) = decoder.finish() else {
        return Ok(text);
    };
    text.push(replacement)?;
    Ok(text)
}

/// Feeds two chunks, cut in the BOM or after it, and returns the text of both: what a decoder that
/// is fed the two joined returns. The pending bytes and the byte order are also the same as in that
/// decoder.
///
/// # Errors
///
/// If allocation fails. In that case the decoder is as it was, or as after the first chunk, or as
/// after both, and the text is lost.
pub fn feed_in_two_by_bom<A: Allocator, B: Allocator>(
    decoder: &mut AnyLossy,
    alloc: A,
    second_alloc: B,
    first: &[u8],
    second: &[u8],
) -> Result<String<A>, AllocError>
    ensures text { IfOk result (λ s.
        string_bytes s ≡ encode_utf8_all
        (lossy_chars (items_in (any_byte_order decoder.old)
        (any_pending decoder.old ++ (first.now ++ second.now))))) }
    ensures pending { OnOk result (any_pending decoder.new
        ≡ tail_in (any_byte_order decoder.old)
        (any_pending decoder.old ++ (first.now ++ second.now))) }
    ensures byte_order { OnOk result (any_byte_order decoder.new
        ≡ byte_order_after (any_byte_order decoder.old)
        (any_pending decoder.old ++ (first.now ++ second.now))) }
    ensures err { OnErr result (((any_pending decoder.new ≡ any_pending decoder.old)
        × (any_byte_order decoder.new ≡ any_byte_order decoder.old))
        ⊎ Leaves (any_byte_order decoder.old) (any_pending decoder.old ++ first.now)
        (any_byte_order decoder.new) (any_pending decoder.new)
        ⊎ Leaves (any_byte_order decoder.old)
        (any_pending decoder.old ++ (first.now ++ second.now)) (any_byte_order decoder.new)
        (any_pending decoder.new)) }
{
    let mut text = decoder.feed(alloc, first)?;
    let more = decoder.feed(second_alloc, second)?;
    text.push_str(&more)?;
    Ok(text)
}
