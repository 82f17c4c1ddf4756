//! Readers and writers whose I/O errors are counted.

use crate::buffers::filled;
use tests_support::stepped::{Giver, Manner, Oddity, Taker};
use tests_support::{Answer, Device, Odd, Run};
use utf16_streams::{DeviceFault, Watched};

/// Returns how the reader or the writer of a case behaves, and that it misbehaves at that call.
pub fn manner(device: &Device, odd_at: usize) -> Manner<'_> {
    Manner {
        sizes: &device.sizes,
        odd_at,
        oddity: match device.odd {
            Odd::Fails => Oddity::Fails,
            Odd::IsInterrupted => Oddity::IsInterrupted,
            Odd::MovesNothing => Oddity::MovesNothing,
        },
    }
}

// Adds the number of bytes moved, or that the call failed.
fn moved(answer: &mut Answer, found: Result<usize, DeviceFault>) {
    match found {
        Ok(count) => answer.number(count),
        Err(DeviceFault) => answer.word("fault"),
    }
}

// Adds the number of I/O errors and the number of calls.
fn counts(answer: &mut Answer, faults: u64, calls: usize) {
    answer.word("faults");
    answer.number(faults as usize);
    answer.word("calls");
    answer.number(calls);
}

/// Adds the result of one read into a buffer of this many zeros: the number of bytes, and the
/// buffer afterwards.
pub fn read(run: &mut Run) {
    let bytes = run.bytes();
    let room = run.number();
    let mut buf = filled(run, 0, room);
    let device = &run.how.reads;
    let mut reader = Watched::new(Giver::new(&bytes, manner(device, device.odd_at)));
    moved(&mut run.answer, reader.read(&mut buf));
    run.answer.bytes(&buf);
    counts(&mut run.answer, reader.faults(), reader.inner().calls);
}

/// Adds the result of one write of each chunk: the number of bytes written. Then adds all bytes
/// written, and the result of a flush.
pub fn write(run: &mut Run) {
    let pieces = run.pieces();
    let device = &run.how.writes;
    let mut writer = Watched::new(Taker::new(run.alloc, manner(device, device.odd_at)));
    for piece in &pieces {
        moved(&mut run.answer, writer.write(piece));
    }
    let faults = writer.faults();
    let taker = writer.into_inner();
    run.answer.bytes(&taker.taken);
    counts(&mut run.answer, faults, taker.calls);
}

/// Adds the result of one flush.
pub fn flush(run: &mut Run) {
    let device = &run.how.writes;
    let mut writer = Watched::new(Taker::new(run.alloc, manner(device, device.odd_at)));
    match writer.flush() {
        Ok(()) => run.answer.word("done"),
        Err(DeviceFault) => run.answer.word("fault"),
    }
    counts(&mut run.answer, writer.faults(), writer.inner().calls);
}
