//! The buffers to which calls write, and what a call leaves in them.

use tests_support::{Answer, Run, Trouble};
use utf16_transcode::{Progress, Stop};

// Each byte of a buffer before a call.
const BEFORE: u8 = 0xEE;

/// Returns a buffer of `room` bytes.
pub fn buffer(run: &mut Run, room: usize) -> Vec<u8> {
    filled(run, BEFORE, room)
}

/// Returns a buffer of `room` times this byte.
pub fn filled(run: &mut Run, byte: u8, room: usize) -> Vec<u8> {
    match vec![in run.alloc; byte; room] {
        Ok(to) => to,
        Err(_) => {
            run.refuse(Trouble::Memory);
            Vec::new(run.alloc)
        }
    }
}

/// Adds `changed` if a byte after the first `written` of a buffer is not as it was before the call.
pub fn add_changed(run: &mut Run, to: &[u8], written: usize) {
    match to.get(written..) {
        Some(after) if after.iter().any(|byte| *byte != BEFORE) => run.answer.word("changed"),
        Some(_) => {}
        None => run.unmet(),
    }
}

/// Adds how much was read and written, and why the call stopped.
pub fn add_progress(answer: &mut Answer, progress: Progress) {
    answer.number(progress.read);
    answer.number(progress.written);
    add_stop(answer, progress.stop);
}

/// Adds why a call stopped.
pub fn add_stop(answer: &mut Answer, stop: Stop) {
    match stop {
        Stop::Done => answer.word("end"),
        Stop::IllFormed(len) => {
            answer.word("ill_formed");
            answer.number(len as usize);
        }
        Stop::Incomplete => answer.word("incomplete"),
        Stop::NoSpace => answer.word("no_space"),
    }
}

/// Adds how far a call came, and what it wrote to a buffer.
pub fn add_written(run: &mut Run, to: &[u8], progress: Progress, is_utf8: bool) {
    add_progress(&mut run.answer, progress);
    add_start(run, to, progress.written, is_utf8);
}

/// Adds the number of bytes written to a buffer, and the bytes.
pub fn add_bytes(run: &mut Run, to: &[u8], written: usize, is_utf8: bool) {
    run.answer.number(written);
    add_start(run, to, written, is_utf8);
}

/// Adds the first `written` bytes of a buffer.
pub fn add_start(run: &mut Run, to: &[u8], written: usize, is_utf8: bool) {
    match to.get(..written) {
        Some(bytes) => run.answer.text_or_bytes(bytes, is_utf8),
        None => run.unmet(),
    }
}
