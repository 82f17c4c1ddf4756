//! `utf16_check le`, `utf16_check be` and `utf16_check auto` test whether standard input is
//! well-formed UTF-16, and report each ill-formed sequence on standard output.
#![tactic(auto)]

use std::env;
use std::process::ExitCode;
use utf16_program::{Program, program};
use utf16_streams::Watched;

fn main(rt: HostRuntime) -> ExitCode {
    let mut input = Watched::new(rt.stdin());
    let mut output = Watched::new(rt.stdout());
    let mut errors = Watched::new(rt.stderr());
    let args = env::args(&rt);
    program(
        Program::Check,
        rt.alloc(),
        args,
        &mut input,
        &mut output,
        &mut errors,
    )
}
