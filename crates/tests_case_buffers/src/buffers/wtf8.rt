//! Calls from and to WTF-8, whose bytes are in hex.

use crate::buffers::output::{add_changed, add_written, buffer};
use crate::buffers::streams::{add_step, fed};
use tests_support::{Run, Trouble};
use utf16_transcode::{Progress, Stop};
use utf16_units::Utf16Order;
use utf16_wtf8::{
    ToWtf8, Wtf8Stream, finish_wtf8, from_wtf8, from_wtf8_partial, to_wtf8, to_wtf8_partial,
};

/// Makes a call from or to WTF-8.
pub fn call<E: Utf16Order>(run: &mut Run, name: &str) -> bool {
    match Wtf8Call::named(name) {
        Some(call) => convert::<E>(run, call),
        None if name == "feed_wtf8" => feed::<E>(run),
        None => return false,
    }
    true
}

/// Makes a call of `Wtf8Stream`.
pub fn stream_call<E: Utf16Order>(run: &mut Run, name: &str) -> bool {
    match name {
        "Wtf8Stream::new" => run.answer.bytes(Wtf8Stream::new().pending()),
        "Wtf8Stream::pending" => {
            let stream = held(run);
            run.answer.bytes(stream.pending());
        }
        "Wtf8Stream::feed" => encode::<E>(run),
        "Wtf8Stream::finish" => {
            let mut stream = held(run);
            let room = run.number();
            end::<E>(run, &mut stream, room);
        }
        _ => return false,
    }
    true
}

// A call that converts bytes to a buffer.
#[derive(Clone, Copy)]
enum Wtf8Call {
    To,
    ToPartial,
    From,
    FromPartial,
}

impl Wtf8Call {
    // Returns the call of this name.
    fn named(name: &str) -> Option<Self> {
        match name {
            "to_wtf8" => Some(Wtf8Call::To),
            "to_wtf8_partial" => Some(Wtf8Call::ToPartial),
            "from_wtf8" => Some(Wtf8Call::From),
            "from_wtf8_partial" => Some(Wtf8Call::FromPartial),
            _ => None,
        }
    }
}

fn convert<E: Utf16Order>(run: &mut Run, call: Wtf8Call) {
    let from = run.bytes();
    let room = run.number();
    let mut to = buffer(run, room);
    let progress = match call {
        Wtf8Call::To => to_wtf8::<E>(&from, &mut to),
        Wtf8Call::ToPartial => to_wtf8_partial::<E>(&from, &mut to),
        Wtf8Call::From => from_wtf8::<E>(&from, &mut to),
        Wtf8Call::FromPartial => from_wtf8_partial::<E>(&from, &mut to),
    };
    add_written(run, &to, progress, false);
}

// Feeds the chunks of UTF-16 and adds the same for `finish_wtf8` as for each of them.
fn feed<E: Utf16Order>(run: &mut Run) {
    let (mut stream, room) = fed::<ToWtf8<E>>(run, false);
    let mut to = buffer(run, room);
    let progress = finish_wtf8::<E>(&mut stream, &mut to);
    add_step(run, &to, progress, false, &stream);
    add_changed(run, &to, progress.written);
}

// Returns a stream whose fields are six bytes and a length.
fn held(run: &mut Run) -> Wtf8Stream {
    let bytes = run.bytes();
    match (bytes.as_slice(), u8::try_from(run.number())) {
        ([a, b, c, d, e, f], Ok(len)) => Wtf8Stream {
            bytes: [*a, *b, *c, *d, *e, *f],
            len,
        },
        _ => {
            run.refuse(Trouble::Value);
            Wtf8Stream::new()
        }
    }
}

// Feeds the chunks of WTF-8, each to a buffer of the given length, and what follows an ill-formed
// sequence in its chunk. For each call, and for `finish`, it adds how far the call came, what it
// wrote, and what is pending after it.
fn encode<E: Utf16Order>(run: &mut Run) {
    let chunks = run.pieces();
    let room = run.number();
    let mut stream = Wtf8Stream::new();
    for chunk in &chunks {
        let mut rest = feed_part::<E>(run, &mut stream, chunk, room);
        for _ in chunk {
            rest = rest.and_then(|part| feed_part::<E>(run, &mut stream, part, room));
        }
    }
    end::<E>(run, &mut stream, room);
}

// Ends a stream, and adds how far the call came, what it wrote, and what is pending after it.
fn end<E: Utf16Order>(run: &mut Run, stream: &mut Wtf8Stream, room: usize) {
    let mut to = buffer(run, room);
    let progress = stream.finish::<E>(&mut to);
    add_encoded(run, &to, progress, stream);
}

// Feeds a part of a chunk. If it has an ill-formed sequence, drops the pending bytes and returns
// what follows the sequence.
fn feed_part<'a, E: Utf16Order>(
    run: &mut Run,
    stream: &mut Wtf8Stream,
    part: &'a [u8],
    room: usize,
) -> Option<&'a [u8]> {
    let mut to = buffer(run, room);
    let progress = stream.feed::<E>(part, &mut to);
    add_encoded(run, &to, progress, stream);
    let Stop::IllFormed(len) = progress.stop else {
        return None;
    };
    let skipped = (len as usize).saturating_sub(stream.pending().len());
    *stream = Wtf8Stream::new();
    let rest = part.get(progress.read..)?.get(skipped..)?;
    if rest.is_empty() { None } else { Some(rest) }
}

fn add_encoded(run: &mut Run, to: &[u8], progress: Progress, stream: &Wtf8Stream) {
    add_written(run, to, progress, false);
    run.answer.bytes(stream.pending());
}
