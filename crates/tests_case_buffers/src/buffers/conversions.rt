//! Conversions from one encoding to the other.

use crate::buffers::output::{add_bytes, add_changed, add_start, add_written, buffer};
use tests_support::{Run, Trouble};
use utf16_transcode::{
    Progress, from_utf8, from_utf8_lossy, from_utf8_lossy_len, from_utf8_partial, to_utf8,
    to_utf8_lossy, to_utf8_lossy_len, to_utf8_partial, write_well_formed,
};
use utf16_units::Utf16Order;

/// Makes a call that converts to a buffer.
pub fn call<E: Utf16Order>(run: &mut Run, name: &str) -> bool {
    match name {
        "every_room" => every_room::<E>(run),
        "write_well_formed" => well_formed::<E>(run),
        _ => match Conversion::named(name) {
            Some(conversion) => convert::<E>(run, conversion),
            None => return false,
        },
    }
    true
}

// The calls that read one encoding and write the other.
#[derive(Clone, Copy)]
enum Conversion {
    ToUtf8,
    Decode,
    DecodeWhole,
    FromUtf8,
    Encode,
    EncodeWhole,
}

impl Conversion {
    // Returns the call of this name.
    fn named(name: &str) -> Option<Self> {
        match name {
            "to_utf8" => Some(Conversion::ToUtf8),
            "to_utf8_partial" => Some(Conversion::Decode),
            "to_utf8_lossy" => Some(Conversion::DecodeWhole),
            "from_utf8" => Some(Conversion::FromUtf8),
            "from_utf8_partial" => Some(Conversion::Encode),
            "from_utf8_lossy" => Some(Conversion::EncodeWhole),
            _ => None,
        }
    }

    // Returns whether it writes UTF-8.
    fn writes_utf8(self) -> bool {
        !matches!(
            self,
            Conversion::FromUtf8 | Conversion::Encode | Conversion::EncodeWhole
        )
    }

    // Returns the most bytes that it writes, with U+FFFD for each ill-formed sequence.
    fn size<E: Utf16Order>(self, from: &[u8]) -> usize {
        if self.writes_utf8() {
            to_utf8_lossy_len::<E>(from)
        } else {
            from_utf8_lossy_len(from)
        }
    }

    // Makes the call.
    fn make<E: Utf16Order>(self, from: &[u8], to: &mut [u8]) -> Progress {
        match self {
            Conversion::ToUtf8 => to_utf8::<E>(from, to),
            Conversion::Decode => to_utf8_partial::<E>(from, to),
            Conversion::DecodeWhole => to_utf8_lossy::<E>(from, to),
            Conversion::FromUtf8 => from_utf8::<E>(from, to),
            Conversion::Encode => from_utf8_partial::<E>(from, to),
            Conversion::EncodeWhole => from_utf8_lossy::<E>(from, to),
        }
    }
}

// Adds how far a call came with a buffer of this many bytes, or of the length that its length call
// returns, and what was written.
fn convert<E: Utf16Order>(run: &mut Run, conversion: Conversion) {
    let from = run.bytes();
    let room = run.room(conversion.size::<E>(&from));
    let mut to = buffer(run, room);
    let progress = conversion.make::<E>(&from, &mut to);
    add_written(run, &to, progress, conversion.writes_utf8());
}

// Adds, for each length of a buffer up to the one that the length call returns, how many bytes the
// call writes to it, and `differs` if they are not a prefix of the bytes that it writes to the last
// one. Then adds those bytes.
fn every_room<E: Utf16Order>(run: &mut Run) {
    let Some(conversion) = Conversion::named(run.word()) else {
        return run.refuse(Trouble::Value);
    };
    let from = run.bytes();
    let size = conversion.size::<E>(&from);
    let mut all = buffer(run, size);
    let last = conversion.make::<E>(&from, &mut all);
    for room in 0..=size {
        begins::<E>(run, conversion, &from, &all, room);
    }
    add_start(run, &all, last.written, conversion.writes_utf8());
}

// Adds how many bytes a call writes to a buffer of this many bytes, and `differs` if they are not a
// prefix of `all`.
fn begins<E: Utf16Order>(
    run: &mut Run,
    conversion: Conversion,
    from: &[u8],
    all: &[u8],
    room: usize,
) {
    let mut to = buffer(run, room);
    let written = conversion.make::<E>(from, &mut to).written;
    run.answer.number(written);
    match to.get(..written) {
        Some(start) if all.starts_with(start) => {}
        _ => run.answer.word("differs"),
    }
}

// Adds the number of bytes written to a buffer of this many bytes, and the bytes.
fn well_formed<E: Utf16Order>(run: &mut Run) {
    let raw = run.bytes();
    let room = run.number();
    let mut to = buffer(run, room);
    if to.len() < raw.len() {
        return run.unmet();
    }
    let len = write_well_formed::<E>(&raw, &mut to);
    add_bytes(run, &to, len, false);
    add_changed(run, &to, len);
}
