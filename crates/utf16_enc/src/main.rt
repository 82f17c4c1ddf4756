//! `utf16_enc le`, `be`, `le-bom` and `be-bom` encode UTF-8 on standard input in UTF-16 on standard
//! output.
#![tactic(auto)]

use std::env;
use std::process::ExitCode;
use utf16_program::{Program, program};
use utf16_streams::Watched;

fn main(rt: HostRuntime) -> ExitCode {
    let mut input = Watched::new(rt.stdin());
    let mut output = Watched::new(rt.stdout());
    let mut errors = Watched::new(rt.stderr());
    let args = env::args(&rt);
    program(
        Program::Enc,
        rt.alloc(),
        args,
        &mut input,
        &mut output,
        &mut errors,
    )
}
