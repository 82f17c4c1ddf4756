//! The arguments of a program.

ghost use Rattle.std.specs.Prelude.{◌≡◌, ◌↔◌, IfErr, Ok, drop, map, option_map, string_bytes};
ghost use Rattle.std.specs.IoError.{error_kind};
ghost use Rattle.std.specs.Vec.Iter.{into_iter_items};
ghost use Rattle.utf16_program.specs.Arguments.{IsOnly, IsRefusal, words_of};
ghost use Rattle.utf16_program.specs.Words.{Names};
ghost use Rattle.utf16_program.specs.declared.job.Job.{Job};

use crate::job::Job;
use crate::outcome::Outcome;
use crate::words::Program;
use std::env::Args;
use std::io::{self, ErrorKind};

/// Returns the job that the arguments name: exactly one argument follows the name of the program,
/// and it is the word of this job. The arguments are what `env::args` of std returned.
///
/// # Errors
///
/// `Memory` if there was no memory for the arguments. `Usage` if they name no job or one of them is
/// not UTF-8.
pub fn job_of(program: Program, args: io::Result<Args>) -> Result<Job, Outcome>
    ensures named { (job : Job) → (result ≡ Ok job)
        ↔ Names program (words_of into_iter_items string_bytes args) job }
    ensures error { IfErr result (IsRefusal
        (λ error. error_kind error ≡ ErrorKind.OutOfMemory) args) }
{
    match args {
        Ok(args) => named_by(program, args),
        Err(error) => match error.kind() {
            ErrorKind::OutOfMemory => Err(Outcome::Memory),
            _ => Err(Outcome::Usage),
        },
    }
}

// Returns the job that the arguments name. The only error is `Usage`.
fn named_by(program: Program, args: Args) -> Result<Job, Outcome>
    ensures named { (job : Job) → (result ≡ Ok job)
        ↔ Names program (map string_bytes (drop 1 (into_iter_items args))) job }
    ensures error { IfErr result (λ outcome. outcome ≡ Outcome.Usage) }
{
    let Some(word) = only_word(args) else {
        return Err(Outcome::Usage);
    };
    match program.job(word.as_str()) {
        Some(job) => Ok(job),
        None => Err(Outcome::Usage),
    }
}

// Returns the only argument after the first, which is the name of the program.
fn only_word(mut args: Args) -> Option<String>
    ensures { IsOnly (map string_bytes (drop 1 (into_iter_items args)))
        (option_map string_bytes result) }
{
    let _program = args.next();
    let word = args.next();
    match args.next() {
        None => word,
        Some(_) => None,
    }
}
