//! How the run of a program ends.

ghost use Rattle.std.specs.Prelude.{◌≡◌};
ghost use Rattle.utf16_program.specs.Outcome.{outcome};

use utf16_streams::FilterFault;

/// How a run ended.
#[derive(Clone, Copy, Debug, PartialEq, Eq)]
pub enum Outcome {
    /// The whole input was converted and written, with U+FFFD for each ill-formed sequence. Or it
    /// was checked, and is well formed.
    Done,
    /// The whole input was checked and reported, and is ill-formed. A conversion does not end with
    /// it.
    IllFormed,
    /// A read failed. The output for what was read before was written.
    Read,
    /// A write or the flush failed. A prefix of the output was written.
    Write,
    /// Allocation failed. The output for what was read before the last chunk was written, if
    /// anything was read.
    Memory,
    /// A conversion made 2^64 - 1 reads that returned bytes, or a check read as many bytes. The
    /// output for them was written.
    Long,
    /// The arguments do not name a choice. Nothing was read or written.
    Usage,
}

/// Returns the outcome of a run, given the result of its filter.
pub fn outcome_of(answer: Result<(), FilterFault>) -> Outcome
    ensures { result ≡ outcome answer }
{
    match answer {
        Ok(()) => Outcome::Done,
        Err(FilterFault::Read) => Outcome::Read,
        Err(FilterFault::Write) => Outcome::Write,
        Err(FilterFault::Memory) => Outcome::Memory,
        Err(FilterFault::Long) => Outcome::Long,
    }
}
