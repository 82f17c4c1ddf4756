//! Filters whose reader or writer misbehaves at one call, at each in turn.

use crate::streams::filtered::{Ended, FilterCall, add_result, run};
use tests_support::{Answer, Run};
use utf16_streams::Utf16Order;

// The most calls that are tried.
const MOST: usize = 1000;

/// For each call of the reader in turn, or of the writer, flushes included, up to the first that is
/// not made: adds the result, the numbers of reads, writes and flushes, and what was written.
pub fn each_call<E: Utf16Order>(case: &mut Run, filter: FilterCall, of_reader: bool) {
    let bytes = case.bytes();
    for at in 1..MOST {
        let odd = if of_reader { (at, 0) } else { (0, at) };
        let ended = run::<E>(case, &bytes, filter, odd);
        add(&mut case.answer, &ended);
        let made = if of_reader {
            ended.reads
        } else {
            ended.writes.saturating_add(ended.flushes)
        };
        if made < at {
            break;
        }
    }
}

// Adds how a run ended.
fn add(answer: &mut Answer, ended: &Ended) {
    add_result(answer, ended);
    answer.number(ended.reads);
    answer.number(ended.writes);
    answer.number(ended.flushes);
    answer.text_or_bytes(&ended.taken, true);
}
