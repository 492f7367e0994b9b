//! Which programs can be run yet: those of one thread, whose clauses look at the moment alone. Its one promise: a program
//! that is built asks for no monitor and no other thread, in every run has main's thread alone, and has clauses that speak
//! of no earlier step and no lockset. The definitions stand in `specs/`: `Built.antt` says which programs these are,
//! `OneThread.antt` what follows.
#![tactic(auto)]

mod clause;
mod expr;
pub mod laws;
mod stmt;
#[cfg(test)]
mod tests;
mod unit;

pub use unit::is_built;
