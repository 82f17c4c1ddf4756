//! Decoders and filters that allocate.

use crate::memory::calls::{Call, Heap, Text};
use std::alloc::{AllocError, Global};
use tests_support::stepped::{Giver, Manner, Oddity, Taker};
use utf16_streams::{encode_stream, encode_stream_with_bom};
use utf16_tools::{
    AnyLossy, FilterFault, Lossy, Utf8Decoder, Watched, decode_pieces, filter, filter_auto,
};
use utf16string::{Utf16Order, WString};

// The first byte of a character, in UTF-16 and in UTF-8.
const CUT: [u8; 1] = [0xE4];

// The number of bytes of a short chunk.
const SHORT: usize = 64;

/// Makes a call of a decoder, or passes the call to `filtered`.
pub fn stream<'a, E: Utf16Order>(
    alloc: Global,
    heap: Heap<'a>,
    call: Call,
    text: &Text<E>,
    to: &mut WString<E, Heap<'a>>,
) -> Result<(), AllocError> {
    match call {
        Call::Feed => {
            let _text = Lossy::<E>::new().feed(heap, text.utf16.as_bytes())?;
            Ok(())
        }
        Call::FeedAny => {
            let _text = AnyLossy::new().feed(heap, text.utf16.as_bytes())?;
            Ok(())
        }
        Call::FeedUtf8 => Utf8Decoder::<E>::new().feed(text.utf8.as_bytes(), to),
        Call::DecodePieces => decoded::<E>(alloc, heap, text, &[]),
        Call::DecodePiecesCut => decoded::<E>(alloc, heap, text, &CUT),
        Call::DecodeUtf8Pieces => decoded_utf8::<E>(alloc, heap, text, &[]),
        Call::DecodeUtf8PiecesCut => decoded_utf8::<E>(alloc, heap, text, &CUT),
        _ => filtered(alloc, heap, call, text),
    }
}

// Cuts a stream: its first half is a long chunk, the rest short ones, and the last chunk is `end`.
fn chunks(alloc: Global, bytes: &[u8], end: &[u8]) -> Result<Vec<Vec<u8>>, AllocError> {
    let (first, rest) = bytes.split_at(bytes.len() / 2);
    let mut pieces = Vec::new(alloc);
    pieces.push(first.to_vec(alloc)?)?;
    for chunk in rest.chunks(SHORT) {
        pieces.push(chunk.to_vec(alloc)?)?;
    }
    pieces.push(end.to_vec(alloc)?)?;
    Ok(pieces)
}

fn decoded<E: Utf16Order>(
    alloc: Global,
    heap: Heap,
    text: &Text<E>,
    end: &[u8],
) -> Result<(), AllocError> {
    let pieces = chunks(alloc, text.utf16.as_bytes(), end)?;
    let _text = decode_pieces::<E, Heap, Global>(heap, &pieces)?;
    Ok(())
}

fn decoded_utf8<E: Utf16Order>(
    alloc: Global,
    heap: Heap,
    text: &Text<E>,
    end: &[u8],
) -> Result<(), AllocError> {
    let pieces = chunks(alloc, text.utf8.as_bytes(), end)?;
    let _text = utf16_tools::encode_pieces::<E, Heap, Global>(heap, &pieces)?;
    Ok(())
}

// Makes a call of a filter.
fn filtered<E: Utf16Order>(
    alloc: Global,
    heap: Heap,
    call: Call,
    text: &Text<E>,
) -> Result<(), AllocError> {
    let manner = Manner {
        sizes: &[],
        odd_at: 0,
        oddity: Oddity::Fails,
    };
    let mut writer = Watched::new(Taker::new(alloc, manner));
    let mut utf16 = Watched::new(Giver::new(text.utf16.as_bytes(), manner));
    let mut utf8 = Watched::new(Giver::new(text.utf8.as_bytes(), manner));
    let done = match call {
        Call::Filter => filter::<E, _, _, _>(heap, &mut utf16, &mut writer),
        Call::FilterAuto => filter_auto(heap, &mut utf16, &mut writer),
        Call::EncodeStream => encode_stream::<E, _, _, _>(heap, &mut utf8, &mut writer),
        Call::EncodeStreamWithBom => {
            encode_stream_with_bom::<E, _, _, _>(heap, &mut utf8, &mut writer)
        }
        _ => Err(FilterFault::Memory),
    };
    done.map_err(|_| AllocError)
}
