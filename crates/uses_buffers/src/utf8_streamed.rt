//! Callers of the decoder of UTF-8, each of which needs a law of the split.

ghost use Rattle.std.specs.Prelude.{◌≡◌, ◌++◌, ◌⊎◌, OnErr, OnOk};
ghost use Rattle.utf16_units.specs.Edit.{push_text};
ghost use Rattle.utf8_bytes.specs.Split.{decided_text, split_tail};
ghost use Rattle.utf16_tools.specs.Utf8Decoder.{utf8_decoder_pending};
ghost use Rattle.utf16string.specs.WString.{wstring_text};

use std::alloc::{AllocError, Allocator};
use utf8_bytes::laws::{cut_anywhere, split_extends};
use utf16_tools::Utf8Decoder;
use utf16string::{Utf16Order, WString};

/// Feeds two chunks: the string has what a decoder that is fed the two joined appends, and the same
/// bytes are pending as in that one.
///
/// # Errors
///
/// If allocation fails. In that case the decoder is as it was, or as after the first chunk.
pub fn feed_in_two<E: Utf16Order, A: Allocator>(
    decoder: &mut Utf8Decoder<E>,
    first: &[u8],
    second: &[u8],
    to: &mut WString<E, A>,
) -> Result<(), AllocError>
    ensures text { OnOk result (wstring_text to.new ≡ push_text (wstring_text to.old)
        (decided_text (utf8_decoder_pending decoder.old ++ (first.now ++ second.now)))) }
    ensures pending { OnOk result (utf8_decoder_pending decoder.new
        ≡ split_tail (utf8_decoder_pending decoder.old ++ (first.now ++ second.now))) }
    ensures err { OnErr result ((utf8_decoder_pending decoder.new
        ≡ utf8_decoder_pending decoder.old)
        ⊎ (utf8_decoder_pending decoder.new
        ≡ split_tail (utf8_decoder_pending decoder.old ++ first.now))) }
{
    split_extends();
    cut_anywhere();
    decoder.feed(first, to)?;
    decoder.feed(second, to)?;
    Ok(())
}
