//! Calls from and to UTF-32 and Latin-1. UTF-32 is spelled by its bytes in big endian.

use crate::buffers::output::{add_progress, add_start, add_written, buffer};
use tests_support::{Run, Trouble};
use utf16_fixed::{
    Latin1Stop, from_latin1, from_utf32, from_utf32_lossy, from_utf32_lossy_len, to_latin1,
    to_utf32, to_utf32_lossy, to_utf32_lossy_len, validate_utf32,
};
use utf16_transcode::{Progress, Stop};
use utf16_units::Utf16Order;

/// Makes a call from or to UTF-32 or Latin-1.
pub fn call<E: Utf16Order>(run: &mut Run, name: &str) -> bool {
    match name {
        "to_utf32" => to_wide::<E>(run, false),
        "to_utf32_lossy" => to_wide::<E>(run, true),
        "from_utf32" => from_wide::<E>(run, false),
        "from_utf32_lossy" => from_wide::<E>(run, true),
        "from_utf32_lossy_len" => wide_len(run),
        "validate_utf32" => validate(run),
        "to_latin1" => to_narrow::<E>(run),
        "from_latin1" => from_narrow::<E>(run),
        _ => return false,
    }
    true
}

// Takes code units of UTF-32; fewer than four bytes at the end spell none.
fn numbers(run: &mut Run) -> Vec<u32> {
    let mut numbers = Vec::new(run.alloc);
    for chunk in run.bytes().chunks_exact(4) {
        if numbers
            .push(u32::from_be_bytes([chunk[0], chunk[1], chunk[2], chunk[3]]))
            .is_err()
        {
            run.refuse(Trouble::Memory);
        }
    }
    numbers
}

// Adds how far a call to UTF-32 came with a buffer of this many code units, or of the number that
// the length call returns, and what it wrote.
fn to_wide<E: Utf16Order>(run: &mut Run, is_lossy: bool) {
    let bytes = run.bytes();
    let room = run.room(to_utf32_lossy_len::<E>(&bytes));
    let Ok(mut to) = vec![in run.alloc; 0u32; room] else {
        return run.refuse(Trouble::Memory);
    };
    let progress = if is_lossy {
        to_utf32_lossy::<E>(&bytes, &mut to)
    } else {
        to_utf32::<E>(&bytes, &mut to)
    };
    add_progress(&mut run.answer, progress);
    match to.get(..progress.written) {
        Some(units) => add_units(run, units),
        None => run.unmet(),
    }
}

// Adds the bytes of code units of UTF-32.
fn add_units(run: &mut Run, units: &[u32]) {
    let mut bytes = Vec::new(run.alloc);
    for unit in units {
        if bytes.extend_from_slice(&unit.to_be_bytes()).is_err() {
            run.refuse(Trouble::Memory);
        }
    }
    run.answer.bytes(&bytes);
}

// Adds how far a call from UTF-32 came with a buffer of this many bytes, or of the length that the
// length call returns, and what it wrote.
fn from_wide<E: Utf16Order>(run: &mut Run, is_lossy: bool) {
    let numbers = numbers(run);
    let room = run.room(from_utf32_lossy_len(&numbers));
    let mut to = buffer(run, room);
    let progress = if is_lossy {
        from_utf32_lossy::<E>(&numbers, &mut to)
    } else {
        from_utf32::<E>(&numbers, &mut to)
    };
    add_written(run, &to, progress, false);
}

fn wide_len(run: &mut Run) {
    let numbers = numbers(run);
    run.answer.number(from_utf32_lossy_len(&numbers));
}

fn validate(run: &mut Run) {
    match validate_utf32(&numbers(run)) {
        Ok(()) => run.answer.word("done"),
        Err(at) => run.answer.number(at),
    }
}

// Adds how far a call to Latin-1 came with a buffer of this many bytes, and what it wrote.
fn to_narrow<E: Utf16Order>(run: &mut Run) {
    let bytes = run.bytes();
    let room = run.number();
    let mut to = buffer(run, room);
    let Progress {
        read,
        written,
        stop,
    } = to_latin1::<E>(&bytes, &mut to);
    let stop = match stop {
        Latin1Stop::Done => Stop::Done,
        Latin1Stop::IllFormed(len) => Stop::IllFormed(len),
        Latin1Stop::Incomplete => Stop::Incomplete,
        Latin1Stop::NoSpace => Stop::NoSpace,
        Latin1Stop::NotLatin1 => {
            run.answer.number(read);
            run.answer.number(written);
            run.answer.word("not_latin1");
            return add_start(run, &to, written, false);
        }
    };
    let progress = Progress {
        read,
        written,
        stop,
    };
    add_written(run, &to, progress, false);
}

fn from_narrow<E: Utf16Order>(run: &mut Run) {
    let bytes = run.bytes();
    let room = run.number();
    let mut to = buffer(run, room);
    let progress = from_latin1::<E>(&bytes, &mut to);
    add_written(run, &to, progress, false);
}
