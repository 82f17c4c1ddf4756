//! Calls on only bytes, which measure, test or change them.

use crate::buffers::output::add_stop;
use tests_support::Run;
use utf16_bytes::{count_chars, is_ascii, nul_offset, swap_byte_order};
use utf16_fixed::{Repertoire, inspect, to_utf32_lossy_len};
use utf16_transcode::{
    from_utf8_len, from_utf8_lossy_len, from_utf8_replacements, make_well_formed,
    to_utf8_lossy_len, to_utf8_replacements,
};
use utf16_units::text::{has_ascii_units, trailing_units};
use utf16_units::{Utf16Order, first_char_len};
use utf16_wtf8::{from_wtf8_len, to_wtf8_len};

/// Makes a call on only bytes.
pub fn call<E: Utf16Order>(run: &mut Run, name: &str) -> bool {
    match name {
        "swap_byte_order" => swapped(run),
        "make_well_formed" => well_formed::<E>(run),
        "first_char_len" => front::<E>(run),
        "inspect" => kind::<E>(run),
        _ => match MeasureCall::named(name) {
            Some(call) => measured::<E>(run, call),
            None => return false,
        },
    }
    true
}

// A call that returns a number or a truth.
#[derive(Clone, Copy)]
enum MeasureCall {
    CountChars,
    FromUtf8Len,
    FromUtf8LossyLen,
    FromUtf8Replacements,
    FromWtf8Len,
    HasAsciiUnits,
    IsAscii,
    NulOffset,
    ToUtf8LossyLen,
    ToUtf8Replacements,
    ToUtf32LossyLen,
    ToWtf8Len,
    TrailingUnits,
}

impl MeasureCall {
    // Returns the call of this name.
    fn named(name: &str) -> Option<Self> {
        match name {
            "count_chars" => Some(MeasureCall::CountChars),
            "from_utf8_len" => Some(MeasureCall::FromUtf8Len),
            "from_utf8_lossy_len" => Some(MeasureCall::FromUtf8LossyLen),
            "from_utf8_replacements" => Some(MeasureCall::FromUtf8Replacements),
            "from_wtf8_len" => Some(MeasureCall::FromWtf8Len),
            "has_ascii_units" => Some(MeasureCall::HasAsciiUnits),
            "is_ascii" => Some(MeasureCall::IsAscii),
            "nul_offset" => Some(MeasureCall::NulOffset),
            "to_utf8_lossy_len" => Some(MeasureCall::ToUtf8LossyLen),
            "to_utf8_replacements" => Some(MeasureCall::ToUtf8Replacements),
            "to_utf32_lossy_len" => Some(MeasureCall::ToUtf32LossyLen),
            "to_wtf8_len" => Some(MeasureCall::ToWtf8Len),
            "trailing_units" => Some(MeasureCall::TrailingUnits),
            _ => None,
        }
    }
}

fn measured<E: Utf16Order>(run: &mut Run, call: MeasureCall) {
    let bytes = run.bytes();
    let answer = &mut run.answer;
    match call {
        MeasureCall::CountChars => answer.number(count_chars::<E>(&bytes)),
        MeasureCall::FromUtf8Len => answer.number(from_utf8_len(&bytes)),
        MeasureCall::FromUtf8LossyLen => answer.number(from_utf8_lossy_len(&bytes)),
        MeasureCall::FromUtf8Replacements => answer.number(from_utf8_replacements(&bytes)),
        MeasureCall::FromWtf8Len => answer.number(from_wtf8_len(&bytes)),
        MeasureCall::HasAsciiUnits => answer.truth(has_ascii_units::<E>(&bytes)),
        MeasureCall::IsAscii => answer.truth(is_ascii::<E>(&bytes)),
        MeasureCall::NulOffset => answer.number(nul_offset(&bytes)),
        MeasureCall::ToUtf8LossyLen => answer.number(to_utf8_lossy_len::<E>(&bytes)),
        MeasureCall::ToUtf8Replacements => answer.number(to_utf8_replacements::<E>(&bytes)),
        MeasureCall::ToUtf32LossyLen => answer.number(to_utf32_lossy_len::<E>(&bytes)),
        MeasureCall::ToWtf8Len => answer.number(to_wtf8_len::<E>(&bytes)),
        MeasureCall::TrailingUnits => answer.number(trailing_units::<E>(&bytes)),
    }
}

fn swapped(run: &mut Run) {
    let mut bytes = run.bytes();
    swap_byte_order(bytes.as_mut_slice());
    run.answer.bytes(&bytes);
}

fn well_formed<E: Utf16Order>(run: &mut Run) {
    let mut bytes = run.bytes();
    run.answer
        .number(make_well_formed::<E>(bytes.as_mut_slice()));
    run.answer.bytes(&bytes);
}

// Adds the length of the first character, or `ill_formed` and its length, or `incomplete`.
fn front<E: Utf16Order>(run: &mut Run) {
    let bytes = run.bytes();
    if bytes.is_empty() {
        return run.unmet();
    }
    match first_char_len::<E>(&bytes) {
        Ok(len) => run.answer.number(len),
        Err(Some(len)) => {
            run.answer.word("ill_formed");
            run.answer.number(len as usize);
        }
        Err(None) => run.answer.word("incomplete"),
    }
}

// Adds the length of the longest valid prefix, the number of its characters, the least repertoire
// that has them, and what follows.
fn kind<E: Utf16Order>(run: &mut Run) {
    let found = inspect::<E>(&run.bytes());
    let answer = &mut run.answer;
    answer.number(found.valid_up_to);
    answer.number(found.chars);
    answer.word(match found.repertoire {
        Repertoire::Ascii => "ascii",
        Repertoire::Latin1 => "latin1",
        Repertoire::Bmp => "bmp",
        Repertoire::Unicode => "unicode",
    });
    add_stop(answer, found.stop);
}
