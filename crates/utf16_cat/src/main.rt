//! `utf16_cat le`, `utf16_cat be` and `utf16_cat auto` decode UTF-16 on standard input to UTF-8 on
//! standard output.
#![tactic(auto)]

use std::env;
use std::process::ExitCode;
use utf16_program::{Program, program};
use utf16_streams::Watched;

fn main(rt: HostRuntime) -> ExitCode {
    let mut input = Watched::new(rt.stdin());
    let mut output = Watched::new(rt.stdout());
    let mut errors = Watched::new(rt.stderr());
    let args = env::args(&rt);
    program(
        Program::Cat,
        rt.alloc(),
        args,
        &mut input,
        &mut output,
        &mut errors,
    )
}
