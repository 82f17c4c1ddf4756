//! A run of a program, with any arguments, reader and writers.

ghost use Rattle.std.specs.Prelude.{◌≡◌, ◌⊎◌, ◌≤◌, string_bytes};
ghost use Rattle.std.specs.IoError.{error_kind};
ghost use Rattle.std.specs.Process.{exit_status};
ghost use Rattle.std.specs.Vec.Iter.{into_iter_items};
ghost use Rattle.utf16_streams.specs.Watched.{Counts, watched_inner};
ghost use Rattle.utf16_program.specs.Arguments.{IsRefusal, words_of};
ghost use Rattle.utf16_program.specs.Job.{Does};
ghost use Rattle.utf16_program.specs.Message.{Reports};
ghost use Rattle.utf16_program.specs.Run.{Runs};
ghost use Rattle.utf16_program.specs.Status.{reads_failed, status_of, writes_failed};
ghost use Rattle.utf16_program.specs.Words.{Names};
ghost use Rattle.utf16_program.specs.declared.job.Job.{Job};

use crate::arguments::job_of;
use crate::messages::report;
use crate::outcome::Outcome;
use crate::words::Program;
use std::alloc::Allocator;
use std::env::Args;
use std::io::{self, ErrorKind, Read, Write};
use std::process::ExitCode;
use utf16_streams::Watched;

/// Does the job that the only argument names, from a reader to a writer, and reports how it ended:
/// it writes the message to `errors` and returns the exit status. The status is 0 if the whole
/// input was converted, or was checked and is well formed; 2 if the arguments name no job; and 1
/// otherwise. The arguments are what `env::args` of std returned. If they name no job, nothing is
/// read or written.
pub fn program<R: Read, W: Write, T: Write, A: Allocator>(
    program: Program,
    alloc: A,
    args: io::Result<Args>,
    reader: &mut Watched<R>,
    writer: &mut Watched<W>,
    errors: &mut Watched<T>,
) -> ExitCode
    ensures ends { (ended : Outcome) × Runs program (λ job. Does job
        (R.remaining (watched_inner reader.old)) (R.remaining (watched_inner reader.new))
        (W.contents (watched_inner writer.old)) (W.contents (watched_inner writer.new)))
        (words_of into_iter_items string_bytes args)
        (IsRefusal (λ error. error_kind error ≡ ErrorKind.OutOfMemory) args)
        reader.old reader.new writer.old writer.new ended
        × Reports T.contents errors.old errors.new program ended (exit_status result) }
    ensures done { exit_status result ≡ 0 → (job : Job)
        × Names program (words_of into_iter_items string_bytes args) job
        × Does job (R.remaining (watched_inner reader.old)) (R.remaining (watched_inner reader.new))
        (W.contents (watched_inner writer.old)) (W.contents (watched_inner writer.new))
        Outcome.Done }
    ensures quiet { exit_status result ≡ 0 → errors.new ≡ errors.old }
    ensures failed { exit_status result ≡ 1
        → ((reader.new ≡ reader.old) × (writer.new ≡ writer.old))
        ⊎ ((job : Job) × (ended : Outcome) × (status_of ended ≡ 1)
        × Names program (words_of into_iter_items string_bytes args) job
        × Does job (R.remaining (watched_inner reader.old)) (R.remaining (watched_inner reader.new))
        (W.contents (watched_inner writer.old)) (W.contents (watched_inner writer.new)) ended) }
    ensures usage { exit_status result ≡ 2 → (reader.new ≡ reader.old)
        × (writer.new ≡ writer.old) }
    ensures cases { exit_status result ≤ 2 }
{
    let outcome = match job_of(program, args) {
        Ok(job) => job.perform(alloc, reader, writer),
        Err(outcome) => outcome,
    };
    ExitCode::from(report(program, &outcome, errors))
}
