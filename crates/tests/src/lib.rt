//! Tests of what no line of a table can express: iterators under adapters, strings sorted, lists of
//! edits, what `Debug` writes, readers and writers that misbehave at each of their calls, failures
//! of each allocation in turn, how much memory each call requests, the headline's loop compared
//! with the decoder, and the examples.
#![tactic(auto)]

#[cfg(test)]
mod asked;
#[cfg(test)]
mod checks;
#[cfg(test)]
mod heap;
#[cfg(test)]
mod interner;
#[cfg(test)]
mod iterators;
#[cfg(test)]
mod lists;
#[cfg(test)]
mod log;
#[cfg(test)]
mod memory;
#[cfg(test)]
mod multi_sz;
#[cfg(test)]
mod names;
#[cfg(test)]
mod odd;
#[cfg(test)]
mod plain;
#[cfg(test)]
mod records;
#[cfg(test)]
mod refusals;
#[cfg(test)]
mod requests;
#[cfg(test)]
mod room;
#[cfg(test)]
mod short;
#[cfg(test)]
mod shown;
#[cfg(test)]
mod sorted;
#[cfg(test)]
mod splits;
#[cfg(test)]
mod table;
#[cfg(test)]
mod transcode;
#[cfg(test)]
mod views;
