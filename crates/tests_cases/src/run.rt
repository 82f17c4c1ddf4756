//! One line of a table.

use std::alloc::Global;
use std::io;
use tests_support::refusing::Refusing;
use tests_support::{Answer, Case, How, Run, Trouble};
use utf16string::{BigEndian, LittleEndian, Utf16Order};

/// The number of cases that passed and failed.
#[derive(Drop)]
pub struct Counts {
    pub passed: u64,
    pub failed: u64,
}

impl Counts {
    /// Returns counts of 0.
    pub fn new() -> Self {
        Counts {
            passed: 0,
            failed: 0,
        }
    }

    /// Runs the case of a line, prints what differs, and counts it. Empty lines and comments after
    /// `#` are not cases.
    pub fn line(&mut self, rt: &(impl Print + AllocGlobal), line: &str) -> io::Result<()> {
        if line.is_empty() || line.starts_with('#') {
            return Ok(());
        }
        let passed = match run(rt, rt.alloc(), line) {
            Ok(passed) => passed,
            Err(Failure::Trouble(trouble)) => {
                println!(rt; "{trouble:?}: {line}")?;
                false
            }
            Err(Failure::Output(error)) => return Err(error),
        };
        if passed {
            self.passed = self.passed.saturating_add(1);
        } else {
            self.failed = self.failed.saturating_add(1);
        }
        Ok(())
    }
}

// Why a line was not run to its end.
enum Failure {
    Trouble(Trouble),
    Output(io::Error),
}

impl From<Trouble> for Failure {
    fn from(trouble: Trouble) -> Failure {
        Failure::Trouble(trouble)
    }
}

impl From<std::alloc::AllocError> for Failure {
    fn from(error: std::alloc::AllocError) -> Failure {
        Failure::Trouble(Trouble::from(error))
    }
}

impl From<io::Error> for Failure {
    fn from(error: io::Error) -> Failure {
        Failure::Output(error)
    }
}

// Runs the case of a line in each byte order that it names, and returns whether it gave the
// expected result.
fn run(rt: &impl Print, alloc: Global, line: &str) -> Result<bool, Failure> {
    let words: Vec<&str> = line.split_ascii_whitespace().collect(alloc)?;
    let case = Case::read(&words).ok_or(Trouble::Form)?;
    let how = How::read(alloc, case.how)?;
    let little = !how.little || agrees::<LittleEndian>(rt, alloc, &case, &how)?;
    let big = !how.big || agrees::<BigEndian>(rt, alloc, &case, &how)?;
    Ok(little && big)
}

// Returns whether the call gives the expected result in this byte order. Prints both if it does
// not.
fn agrees<E: Utf16Order>(
    rt: &impl Print,
    alloc: Global,
    case: &Case,
    how: &How,
) -> Result<bool, Failure> {
    let found = answer::<E>(alloc, case, how)?;
    let wanted = Answer::wanted(alloc, case.wanted, E::BIG)?;
    let (found, wanted) = (found.as_str()?, wanted.as_str()?);
    let is_equal = found == wanted;
    if !is_equal {
        let name = case.name;
        println!(rt; "{name}: {found}, wanted: {wanted}")?;
    }
    Ok(is_equal)
}

// Returns the result of the call of a case. A remaining value is an error.
fn answer<E: Utf16Order>(alloc: Global, case: &Case, how: &How) -> Result<Answer, Trouble> {
    let heap = Refusing::new(alloc);
    let mut run = Run::new(alloc, &heap, how, case.values, E::BIG);
    if !is_made::<E>(&mut run, case.call) {
        run.refuse(Trouble::Call);
    }
    run.end()
}

// Makes the call of this name, and returns whether there is one.
fn is_made<E: Utf16Order>(run: &mut Run, name: &str) -> bool {
    tests_case_strings::call::<E>(run, name) || tests_case_buffers::call::<E>(run, name)
}
