//! The message of a run's outcome, and its exit status.

ghost use Rattle.std.specs.Prelude.{◌≡◌, ◌≢◌, [], ◌++◌, IfNone, IfSome, OnErr, OnOk};
ghost use Rattle.utf16_program.specs.Message.{Reports, TellsAll, TellsPrefix, line_of};

use crate::outcome::Outcome;
use crate::words::Program;
use std::io::Write;
use utf16_streams::{DeviceFault, Watched};

/// Writes the message of an outcome, and returns the exit status. A failure to write is ignored.
pub fn report<W: Write>(program: Program, outcome: &Outcome, to: &mut Watched<W>) -> u8
    ensures reports { Reports W.contents to.old to.new program outcome.now result }
    ensures quiet { outcome.now ≡ Outcome.Done → to.new ≡ to.old }
{
    let _ = tell(program, outcome, to);
    match outcome {
        Outcome::Done => 0,
        Outcome::IllFormed | Outcome::Read | Outcome::Write | Outcome::Memory | Outcome::Long => 1,
        Outcome::Usage => 2,
    }
}

// Writes the message of an outcome. For an outcome without a message the writer is not called. The
// only error is a write that fails; the writer is not called again after that.
fn tell<W: Write>(
    program: Program,
    outcome: &Outcome,
    to: &mut Watched<W>,
) -> Result<(), DeviceFault>
    ensures line { OnOk result (TellsAll W.contents to.old to.new (line_of program outcome.now)) }
    ensures err { OnErr result
        (TellsPrefix W.contents to.old to.new (line_of program outcome.now)) }
    ensures quiet { line_of program outcome.now ≡ [] → to.new ≡ to.old }
{
    let Some((before, name, after)) = parts(program, outcome) else {
        return Ok(());
    };
    to.write_all(before)?;
    to.write_all(name)?;
    to.write_all(after)
}

// A message: what is before the name of the program, the name, and what is after it.
type Parts = (&'static [u8], &'static [u8], &'static [u8]);

// Returns the message of an outcome, or `None` for an outcome without a message.
fn parts(program: Program, outcome: &Outcome) -> Option<Parts>
    ensures some { IfSome result (λ parts. line_of program outcome.now
        ≡ parts.0.now ++ (parts.1.now ++ parts.2.now)) }
    ensures told { IfSome result (λ _. line_of program outcome.now ≢ []) }
    ensures none { IfNone result (line_of program outcome.now ≡ []) }
{
    let after: &'static [u8] = match outcome {
        Outcome::Done | Outcome::IllFormed => return None,
        Outcome::Usage => return Some((b"usage: ", program.name(), program.usage())),
        Outcome::Read => b": read failed\n",
        Outcome::Write => b": write failed\n",
        Outcome::Memory => b": out of memory\n",
        Outcome::Long => b": input too long\n",
    };
    Some((b"", program.name(), after))
}
