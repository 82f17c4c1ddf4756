//! Filters from a reader to a writer, and the check, which reports to a writer.

use crate::streams::devices::manner;
use tests_support::stepped::{Giver, Taker};
use tests_support::{Answer, Run};
use utf16_program::{Job, Outcome};
use utf16_streams::{
    FilterFault, Utf16Order, Watched, encode_stream, encode_stream_with_bom, filter_auto,
};

/// The calls of filters and of the check.
#[derive(Clone, Copy, Drop)]
pub enum FilterCall {
    Decode,
    DecodeAuto,
    Encode,
    EncodeWithBom,
    Check,
    CheckAuto,
}

/// How a run of a filter ended.
#[derive(Drop)]
pub struct Ended {
    pub result: Outcome,
    /// Whether an allocation failed.
    pub is_refused: bool,
    pub taken: Vec<u8>,
    pub reads: usize,
    pub writes: usize,
    pub flushes: usize,
    pub read_faults: u64,
    pub write_faults: u64,
}

/// Runs a filter over the bytes, with a reader and a writer that misbehave at the given calls, and
/// allocations that fail as the case says.
pub fn run<E: Utf16Order>(
    case: &Run,
    bytes: &[u8],
    filter: FilterCall,
    odd: (usize, usize),
) -> Ended {
    case.begin();
    let heap = case.heap;
    let mut reader = Watched::new(Giver::new(bytes, manner(&case.how.reads, odd.0)));
    let mut writer = Watched::new(Taker::new(case.alloc, manner(&case.how.writes, odd.1)));
    let result = match filter {
        FilterCall::Decode => {
            outcome_of(utf16_streams::filter::<E, _, _, _>(heap, &mut reader, &mut writer))
        }
        FilterCall::DecodeAuto => outcome_of(filter_auto(heap, &mut reader, &mut writer)),
        FilterCall::Encode => {
            outcome_of(encode_stream::<E, _, _, _>(heap, &mut reader, &mut writer))
        }
        FilterCall::EncodeWithBom => {
            outcome_of(encode_stream_with_bom::<E, _, _, _>(heap, &mut reader, &mut writer))
        }
        FilterCall::Check => Job::Check(Some(E::BIG)).perform(heap, &mut reader, &mut writer),
        FilterCall::CheckAuto => Job::Check(None).perform(heap, &mut reader, &mut writer),
    };
    let (read_faults, write_faults) = (reader.faults(), writer.faults());
    let (giver, taker) = (reader.into_inner(), writer.into_inner());
    Ended {
        result,
        is_refused: heap.refusals() != 0,
        reads: giver.calls,
        writes: taker.calls.saturating_sub(taker.flushes),
        flushes: taker.flushes,
        taken: taker.taken,
        read_faults,
        write_faults,
    }
}

// The outcome of a run, given the result of its filter.
fn outcome_of(found: Result<(), FilterFault>) -> Outcome {
    match found {
        Ok(()) => Outcome::Done,
        Err(FilterFault::Read) => Outcome::Read,
        Err(FilterFault::Write) => Outcome::Write,
        Err(FilterFault::Memory) => Outcome::Memory,
        Err(FilterFault::Long) => Outcome::Long,
    }
}

/// Adds the result. Want of memory has another word if no allocation failed.
pub fn add_result(answer: &mut Answer, ended: &Ended) {
    answer.word(match ended.result {
        Outcome::Done => "done",
        Outcome::IllFormed => "ill_formed",
        Outcome::Read => "read",
        Outcome::Write => "write",
        Outcome::Memory if ended.is_refused => "memory",
        Outcome::Memory => "memory_without_a_failed_allocation",
        Outcome::Long => "long",
        Outcome::Usage => "usage",
    });
}

/// Adds the result and what was written. If the case counts them, also adds the calls of the reader
/// and the writer and their I/O errors.
pub fn filter<E: Utf16Order>(case: &mut Run, filter: FilterCall) {
    let bytes = case.bytes();
    let odd = (case.how.reads.odd_at, case.how.writes.odd_at);
    let ended = run::<E>(case, &bytes, filter, odd);
    let answer = &mut case.answer;
    add_result(answer, &ended);
    let is_utf8 = !matches!(filter, FilterCall::Encode | FilterCall::EncodeWithBom);
    answer.text_or_bytes(&ended.taken, is_utf8);
    if case.how.counted {
        add_counts(answer, &ended);
    }
}

// Adds the numbers of reads, writes and flushes, and the counted I/O errors of the reader and of
// the writer.
fn add_counts(answer: &mut Answer, ended: &Ended) {
    answer.word("reads");
    answer.number(ended.reads);
    answer.word("writes");
    answer.number(ended.writes);
    answer.word("flushes");
    answer.number(ended.flushes);
    answer.word("faults");
    answer.number(ended.read_faults as usize);
    answer.number(ended.write_faults as usize);
}
