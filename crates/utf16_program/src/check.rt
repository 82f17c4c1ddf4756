//! The check of what a reader has, reported to a writer.

ghost use Rattle.std.specs.Prelude.{◌≡◌, ◌+◌, ◌-◌, ◌<◌, ◌≤◌, ◌^◌, All, IfErr, IfOk, OnOk, drop, length, take, vec_capacity};
ghost use Rattle.std.specs.Io.KnownBytes.{Appends, ReadConsumes};
ghost use Rattle.utf16_streams.specs.Watched.{Counts, CountsFaults, watched_faults, watched_inner};
ghost use Rattle.utf16_program.specs.Status.{reads_failed, writes_failed};
ghost use Rattle.utf16_program.specs.Checker.{IsPending, Takes, checker_ill_formed, checker_lines, checker_offset, checker_report};
ghost use Rattle.utf16_program.specs.Checks.{ChecksBy, EndsBy, FailsBy};
ghost use Rattle.utf16_program.specs.declared.outcome.Outcome.TheVariants.{Memory};

use crate::checker::Checker;
use crate::outcome::Outcome;
use std::alloc::Allocator;
use std::io::{Read, Write};
use utf16_streams::{DeviceFault, Watched};
use utf16_units::laws::are_bytes;

// The length in bytes of the block that is read into, with the pending bytes at its front.
const BLOCK_LEN: usize = 4096;

/// Checks what a reader has, and writes a line for each ill-formed sequence and a last line that
/// counts. The byte order is `Some(true)` for big endian, `Some(false)` for little endian, and
/// `None` if the BOM gives it. It reads until a read returns 0.
///
/// Returns `Done` if the input is well formed, and `IllFormed` if not. It stops at the first I/O
/// error, if allocation fails, or after 2^64 - 1 bytes.
///
/// # Complexity
///
/// Linear time. The memory for lines is limited by the length of a block.
pub fn check<R: Read, W: Write, A: Allocator>(
    big_endian: Option<bool>,
    alloc: A,
    reader: &mut Watched<R>,
    writer: &mut Watched<W>,
) -> Outcome
    ensures checks { ChecksBy big_endian (R.remaining (watched_inner reader.old))
        (R.remaining (watched_inner reader.new)) (W.contents (watched_inner writer.old))
        (W.contents (watched_inner writer.new)) result }
    ensures reads { Counts reader.old reader.new (reads_failed result) }
    ensures writes { Counts writer.old writer.new (writes_failed result) }
{
    let mut checker = Checker::new(big_endian);
    let mut lines = Vec::new(alloc);
    let mut block = [0; BLOCK_LEN];
    let mut pending = 0;
    loop {
        let countable = u64::MAX - checker.offset() - pending as u64;
        let room = (BLOCK_LEN - pending).min(countable as usize);
        if room == 0 {
            return Outcome::Long;
        }
        let Ok(count) = read_behind(reader, &mut block, pending, room) else {
            return Outcome::Read;
        };
        if count == 0 {
            return end(checker, &block[..pending], lines, writer);
        }
        let filled = pending + count;
        let taken = match check_block(&mut checker, &block[..filled], &mut lines, writer) {
            Ok(taken) => taken,
            Err(outcome) => return outcome,
        };
        block.copy_within(taken..filled, 0);
        pending = filled - taken;
    }
}

// Reads once, at most `room` bytes, into the block behind the pending bytes. Returns the number of
// bytes read.
fn read_behind<R: Read>(
    reader: &mut Watched<R>,
    block: &mut [u8],
    pending: usize,
    room: usize,
) -> Result<usize, DeviceFault>
    requires room { pending + room ≤ length block.old }
    ensures before { take pending block.new ≡ take pending block.old }
    ensures within { IfOk result (λ count. count ≤ room) }
    ensures transfers { ReadConsumes (R.remaining (watched_inner reader.old))
        (R.remaining (watched_inner reader.new)) result (take room (drop pending block.new)) }
    ensures faults { CountsFaults reader.old reader.new result }
    ensures are_bytes { All (λ b. b < 256) block.new }
{
    let count = reader.read(&mut block[pending..pending + room]);
    are_bytes(block);
    count
}

// Checks the bytes of a block, the pending ones included, and writes their lines. Returns the
// number of bytes that are not pending any more, or the outcome if the run ends here.
fn check_block<W: Write, A: Allocator>(
    checker: &mut Checker,
    block: &[u8],
    lines: &mut Vec<u8, A>,
    writer: &mut Watched<W>,
) -> Result<usize, Outcome>
    requires fits { checker_offset checker.old + length block.now < 2 ^ 64 }
    ensures takes { IfOk result (Takes checker.old checker.new block.now) }
    ensures lines { OnOk result (Appends (W.contents (watched_inner writer.old))
        (W.contents (watched_inner writer.new)) (checker_lines checker.old block.now)) }
    ensures fails { IfErr result (FailsBy (W.contents (watched_inner writer.old))
        (W.contents (watched_inner writer.new)) (checker_lines checker.old block.now)) }
    ensures full { IfErr result (λ outcome. outcome ≡ Memory
        → vec_capacity lines.old < length (checker_lines checker.old block.now)) }
    ensures succeeds { OnOk result (watched_faults writer.new ≡ watched_faults writer.old) }
    ensures writes { IfErr result (λ outcome.
        Counts writer.old writer.new (writes_failed outcome)) }
{
    lines.clear();
    let Ok(taken) = checker.feed(block, lines) else {
        return Err(Outcome::Memory);
    };
    let Ok(()) = writer.write_all(lines) else {
        return Err(Outcome::Write);
    };
    Ok(taken)
}

// Writes the lines that are left at the end of the input, and flushes once.
fn end<W: Write, A: Allocator>(
    checker: Checker,
    pending: &[u8],
    lines: Vec<u8, A>,
    writer: &mut Watched<W>,
) -> Outcome
    requires pending { IsPending checker pending.now }
    requires fits { checker_offset checker + length pending.now < 2 ^ 64 }
    ensures ends { EndsBy (W.contents (watched_inner writer.old))
        (W.contents (watched_inner writer.new)) (checker_report checker pending.now)
        (checker_ill_formed checker pending.now) result }
    ensures full { result ≡ Memory
        → vec_capacity lines < length (checker_report checker pending.now) }
    ensures writes { Counts writer.old writer.new (writes_failed result) }
{
    let mut lines = lines;
    lines.clear();
    let Ok(well_formed) = checker.finish(pending, &mut lines) else {
        return Outcome::Memory;
    };
    let Ok(()) = writer.write_all(&lines) else {
        return Outcome::Write;
    };
    let Ok(()) = writer.flush() else {
        return Outcome::Write;
    };
    if well_formed {
        Outcome::Done
    } else {
        Outcome::IllFormed
    }
}
