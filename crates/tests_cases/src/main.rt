//! `tests_cases` runs the cases of a table on standard input. It prints the cases that differ, and
//! how many passed and failed.
#![tactic(auto)]

mod run;

use crate::run::Counts;
use std::io::{self, BufRead, BufReader};
use std::process::ExitCode;

fn main(rt: HostRuntime) -> io::Result<ExitCode> {
    let mut counts = Counts::new();
    for line in BufReader::new(rt.alloc(), rt.reader())?.lines(rt.alloc()) {
        counts.line(&rt, line?.as_str())?;
    }
    let passed = counts.passed;
    let failed = counts.failed;
    println!(rt; "{passed} passed, {failed} failed")?;
    Ok(ExitCode::from((failed != 0) as u8))
}
