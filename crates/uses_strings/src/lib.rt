//! Proved callers of the strings that use only public calls: iteration, edits, ranges, parts,
//! copies, the ordering, the laws, and the examples.
#![tactic(auto)]

pub mod copies;
pub mod edited;
pub mod edits;
pub mod found;
pub mod laws;
pub mod made;
pub mod order_laws;
pub mod parts;
pub mod predicates;
pub mod ranges;
pub mod readme;
pub mod retains;
pub mod scripts;
pub mod searches;
pub mod sorted;
pub mod tables;
pub mod users;
pub mod walks;
