//! The programs `utf16_cat`, `utf16_enc` and `utf16_check`: their words, what each word does, how a
//! run goes and ends, its message and its exit status.
#![tactic(auto)]

mod arguments;
mod check;
mod checker;
mod job;
mod lines;
mod messages;
mod order;
mod outcome;
mod programs;
mod scan;
mod words;

pub use job::Job;
pub use outcome::Outcome;
pub use programs::program;
pub use words::Program;
