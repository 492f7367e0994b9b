//! What a clause is worth at a moment of a run. Its one promise: on any two heaps, the one of the moment and the old
//! one, a clause has the value that its definition gives it, and the heaps stay as they are. What an expression of
//! a clause is worth stands with the definitions of a run; what is said here of scenes and outcomes stands in
//! `specs/`.
#![tactic(auto)]

mod clause;
mod expr;
mod heaps;
pub mod laws;
mod outcome;
mod range;
mod scene;
mod snapshots;
#[cfg(test)]
mod tests;

pub use clause::{value, value_over};
pub use heaps::Heaps;
pub use snapshots::Snapshots;
