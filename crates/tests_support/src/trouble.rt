//! Why a line of a table is not run.

use std::alloc::AllocError;

/// Why a line of a table is not run. It is not a case that failed: the table itself is wrong, or
/// allocation failed.
#[derive(Clone, Copy, Debug, Drop)]
pub enum Trouble {
    /// The line does not have the form of the tables.
    Form,
    /// No call has this name.
    Call,
    /// A value is not spelled as the call needs it, or there are too few values, or too many.
    Value,
    /// The values do not meet the precondition of the call.
    Condition,
    /// An allocation of the program itself failed.
    Memory,
}

impl From<AllocError> for Trouble {
    fn from(_error: AllocError) -> Trouble {
        Trouble::Memory
    }
}
