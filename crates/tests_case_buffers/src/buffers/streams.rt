//! Streams whose pending bytes are in a value that the caller owns.

use crate::buffers::output::{add_changed, add_written, buffer};
use tests_support::{Run, Trouble};
use utf16_transcode::{FromUtf8, LossyDirection, Progress, Stream, ToUtf8};
use utf16_units::Utf16Order;

/// Makes a call of `Stream`.
pub fn call<E: Utf16Order>(run: &mut Run, name: &str) -> bool {
    match name {
        "Stream::new" => run.answer.bytes(Stream::new().pending()),
        "Stream::pending" => pending(run),
        "Stream::feed" => feed::<ToUtf8<E>>(run, true),
        "feed_utf8" => feed::<FromUtf8<E>>(run, false),
        _ => return false,
    }
    true
}

// Adds the pending bytes of a stream whose fields are three bytes and a length.
fn pending(run: &mut Run) {
    let bytes = run.bytes();
    match (bytes.as_slice(), u8::try_from(run.number())) {
        ([first, second, third], Ok(len)) => {
            let stream = Stream {
                bytes: [*first, *second, *third],
                len,
            };
            run.answer.bytes(stream.pending());
        }
        _ => run.refuse(Trouble::Value),
    }
}

// Feeds the chunks and adds the same for `finish` as for each of them. `is_utf8` says whether UTF-8
// is written.
fn feed<D: LossyDirection>(run: &mut Run, is_utf8: bool) {
    let (mut stream, room) = fed::<D>(run, is_utf8);
    let mut to = buffer(run, room);
    let progress = stream.finish::<D>(&mut to);
    add_step(run, &to, progress, is_utf8, &stream);
    add_changed(run, &to, progress.written);
}

/// Feeds the chunks in a direction, each to a buffer of the given length in bytes. For each chunk
/// it adds how far the call came, what it wrote, and what is pending after it. Returns the stream
/// and the length of the buffers.
pub fn fed<D: LossyDirection>(run: &mut Run, is_utf8: bool) -> (Stream, usize) {
    let pieces = run.pieces();
    let room = run.number();
    let mut stream = Stream::new();
    for piece in &pieces {
        let mut to = buffer(run, room);
        let progress = stream.feed::<D>(piece, &mut to);
        add_step(run, &to, progress, is_utf8, &stream);
    }
    (stream, room)
}

/// Adds how far a call came, what it wrote, and what is pending after it.
pub fn add_step(run: &mut Run, to: &[u8], progress: Progress, is_utf8: bool, stream: &Stream) {
    add_written(run, to, progress, is_utf8);
    run.answer.bytes(stream.pending());
}
