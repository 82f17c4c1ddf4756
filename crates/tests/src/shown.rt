//! What `Debug` writes for each type that has it.

use crate::checks::{equal, string};
use std::fmt::Debug;
use std::process::Abort;
use utf16_fixed::{Inspection, Latin1Stop, Repertoire};
use utf16_program::{Job, Outcome, Program};
use utf16_tools::{DeviceFault, FilterFault};
use utf16_transcode::{Progress, Stop, Stream};
use utf16_wtf8::Wtf8Stream;
use utf16string::{BE, LE, ParseError, Utf16Order, WStr};

// "h" and U+1F600 in little endian.
const HG: [u8; 6] = [0x68, 0, 0x3D, 0xD8, 0x00, 0xDE];

// "h" and U+1F600 in big endian.
const HG_BE: [u8; 6] = [0, 0x68, 0xD8, 0x3D, 0xDE, 0x00];

// "h" and a leading surrogate, at the end of the bytes.
const LEADING: [u8; 4] = [0x68, 0, 0x3D, 0xD8];

// "h" and an unpaired trailing surrogate.
const TRAILING: [u8; 4] = [0x68, 0, 0x00, 0xDE];

fn shows<T: Debug>(rt: &(impl Abort + AllocGlobal), value: &T, wanted: &str) {
    let text = format!(in rt.alloc(); "{value:?}").expect(rt, "memory");
    equal(rt, text.as_str(), wanted);
}

// Checks a string, a view of it, and its iterators before their first item, each by its whole text.
fn of_bytes<E: Utf16Order>(rt: &(impl Abort + AllocGlobal), raw: &[u8], wanted: [&str; 4]) {
    let text = string::<E>(rt, raw);
    let [of_string, of_view, of_chars, of_indices] = wanted;
    shows(rt, &text, of_string);
    shows(rt, &text.as_wstr(), of_view);
    shows(rt, &text.chars(), of_chars);
    shows(rt, &text.char_indices(), of_indices);
}

// Checks the iterators after they gave the first of two characters.
fn of_rest<E: Utf16Order>(rt: &(impl Abort + AllocGlobal), raw: &[u8], wanted: [&str; 2]) {
    let text = string::<E>(rt, raw);
    let (mut chars, mut indices) = (text.chars(), text.char_indices());
    equal(rt, chars.next(), Some('h'));
    equal(rt, indices.next(), Some((0, 'h')));
    let [of_chars, of_indices] = wanted;
    shows(rt, &chars, of_chars);
    shows(rt, &indices, of_indices);
}

fn of_error(rt: &(impl Abort + AllocGlobal), raw: &[u8], wanted: &str) {
    match WStr::<LE>::from_utf16(raw) {
        Ok(_) => panic!(rt; "well formed"),
        Err(error) => {
            shows(rt, &error, wanted);
            let detail = format!(in rt.alloc(); "Detail {{ error: {wanted} }}").expect(
                rt, "memory",
            );
            shows(rt, &error.detail(), detail.as_str());
        }
    }
}

// A bug that no clause excludes: `Debug` leaves out bytes, or writes the bytes of the other byte
// order.
#[test]
fn debug_shows_the_bytes(rt: HostRuntime) {
    of_bytes::<LE>(
        &rt,
        &HG,
        [
            "WString { raw: [104, 0, 61, 216, 0, 222] }",
            "WStr { raw: [104, 0, 61, 216, 0, 222] }",
            "WStrChars { rest: WStr { raw: [104, 0, 61, 216, 0, 222] } }",
            "WStrCharIndices { offset: 0, \
             chars: WStrChars { rest: WStr { raw: [104, 0, 61, 216, 0, 222] } } }",
        ],
    );
    of_bytes::<BE>(
        &rt,
        &[],
        [
            "WString { raw: [] }",
            "WStr { raw: [] }",
            "WStrChars { rest: WStr { raw: [] } }",
            "WStrCharIndices { offset: 0, chars: WStrChars { rest: WStr { raw: [] } } }",
        ],
    );
    of_rest::<BE>(
        &rt,
        &HG_BE,
        [
            "WStrChars { rest: WStr { raw: [216, 61, 222, 0] } }",
            "WStrCharIndices { offset: 2, \
             chars: WStrChars { rest: WStr { raw: [216, 61, 222, 0] } } }",
        ],
    );
    of_error(
        &rt,
        &LEADING,
        "Utf16Error { valid_up_to: 2, error_len: None }",
    );
    of_error(
        &rt,
        &TRAILING,
        "Utf16Error { valid_up_to: 2, error_len: Some(2) }",
    );
}

// A bug that no clause excludes: `Debug` leaves out a field, or writes the name of another error.
#[test]
fn debug_shows_errors_and_progress(rt: HostRuntime) {
    shows(&rt, &FilterFault::Read, "Read");
    shows(&rt, &FilterFault::Write, "Write");
    shows(&rt, &FilterFault::Memory, "Memory");
    shows(&rt, &FilterFault::Long, "Long");
    shows(&rt, &DeviceFault, "DeviceFault");
    shows(&rt, &Stop::Done, "Done");
    shows(&rt, &Stop::IllFormed(2), "IllFormed(2)");
    shows(&rt, &Stop::Incomplete, "Incomplete");
    let (read, written, stop) = (4, 3, Stop::NoSpace);
    shows(
        &rt,
        &Progress {
            read,
            written,
            stop,
        },
        "Progress { read: 4, written: 3, stop: NoSpace }",
    );
    shows::<ParseError<bool>>(&rt, &ParseError::Long, "Long");
    shows(&rt, &ParseError::Value(false), "Value(false)");
}

#[test]
fn debug_shows_streams(rt: HostRuntime) {
    let (bytes, len) = ([0x3D, 0xD8, 0], 2);
    shows(
        &rt,
        &Stream { bytes, len },
        "Stream { bytes: [61, 216, 0], len: 2 }",
    );
    let (bytes, len) = ([0xED, 0xA0, 0xBD, 0xED, 0, 0], 4);
    shows(
        &rt,
        &Wtf8Stream { bytes, len },
        "Wtf8Stream { bytes: [237, 160, 189, 237, 0, 0], len: 4 }",
    );
}

#[test]
fn debug_shows_what_fixed_widths_have(rt: HostRuntime) {
    shows(&rt, &Latin1Stop::Done, "Done");
    shows(&rt, &Latin1Stop::IllFormed(2), "IllFormed(2)");
    shows(&rt, &Latin1Stop::Incomplete, "Incomplete");
    shows(&rt, &Latin1Stop::NoSpace, "NoSpace");
    shows(&rt, &Latin1Stop::NotLatin1, "NotLatin1");
    shows(&rt, &Repertoire::Ascii, "Ascii");
    shows(&rt, &Repertoire::Latin1, "Latin1");
    shows(&rt, &Repertoire::Unicode, "Unicode");
    let (valid_up_to, chars) = (6, 3);
    let (stop, repertoire) = (Stop::Incomplete, Repertoire::Bmp);
    shows(
        &rt,
        &Inspection {
            valid_up_to,
            stop,
            chars,
            repertoire,
        },
        "Inspection { valid_up_to: 6, stop: Incomplete, chars: 3, repertoire: Bmp }",
    );
}

#[test]
fn debug_shows_programs(rt: HostRuntime) {
    shows(&rt, &Outcome::Done, "Done");
    shows(&rt, &Outcome::IllFormed, "IllFormed");
    shows(&rt, &Outcome::Read, "Read");
    shows(&rt, &Outcome::Write, "Write");
    shows(&rt, &Outcome::Memory, "Memory");
    shows(&rt, &Outcome::Long, "Long");
    shows(&rt, &Outcome::Usage, "Usage");
    shows(&rt, &Job::Decode(None), "Decode(None)");
    shows(&rt, &Job::Encode(true), "Encode(true)");
    shows(&rt, &Job::EncodeWithBom(false), "EncodeWithBom(false)");
    shows(&rt, &Job::Check(Some(true)), "Check(Some(true))");
    shows(&rt, &Program::Cat, "Cat");
    shows(&rt, &Program::Enc, "Enc");
    shows(&rt, &Program::Check, "Check");
}
