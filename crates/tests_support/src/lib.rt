//! What the tests of the other crates share: an allocator, readers and writers that fail as a test
//! says and count what they do, known texts as bytes, and a line of a table of cases: its fields,
//! the conditions and the values that they spell, and the result of a call in the same words.
#![tactic(auto)]

mod answer;
mod case;
mod escapes;
mod formats;
mod how;
pub mod plain;
pub mod refusing;
mod run;
mod span;
pub mod stepped;
pub mod texts;
mod trouble;
mod values;

pub use crate::answer::Answer;
pub use crate::case::Case;
pub use crate::formats::{add_debug, add_written};
pub use crate::how::{Device, How, Odd, Refuse};
pub use crate::run::Run;
pub use crate::span::{By, Span};
pub use crate::trouble::Trouble;
pub use crate::values::{Values, number_of};
