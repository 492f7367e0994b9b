//! The journal of a run: every step, verdict and wake-up, in the order in which they were made. Its one promise: a
//! journal is the list of what was pushed, and where a step and a verdict stand in it is found at once.
//! What its entries are as plain data stands in `specs/Entries.antt`.
#![tactic(auto)]

mod index;
mod journal;
mod marks;
#[cfg(test)]
mod tests;

pub use journal::{Entry, Journal, Opening, RunRecord};
