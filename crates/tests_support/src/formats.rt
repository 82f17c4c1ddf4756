//! What `{}` and `{:?}` write.

use crate::answer::Answer;
use crate::trouble::Trouble;
use std::alloc::Global;
use std::fmt::{Debug, Display};

/// Adds what a format, such as `{:>60}`, writes for a value.
pub fn add_written<T: Display + Debug>(
    alloc: Global,
    value: &T,
    format: &str,
    answer: &mut Answer,
) -> Result<(), Trouble> {
    let text = match format {
        "{}" => format!(in alloc; "{value}"),
        "{:>60}" => format!(in alloc; "{value:>60}"),
        "{:<60}" => format!(in alloc; "{value:<60}"),
        "{:*^60}" => format!(in alloc; "{value:*^60}"),
        "{:.3}" => format!(in alloc; "{value:.3}"),
        "{:?}" => return add_debug(alloc, value, answer),
        _ => return Err(Trouble::Value),
    };
    answer.text(text?.as_str());
    Ok(())
}

/// Adds `done` if `{:?}` writes something: what it writes is not promised.
pub fn add_debug<T: Debug>(alloc: Global, value: &T, answer: &mut Answer) -> Result<(), Trouble> {
    let text = format!(in alloc; "{value:?}")?;
    answer.word(if text.is_empty() { "none" } else { "done" });
    Ok(())
}
