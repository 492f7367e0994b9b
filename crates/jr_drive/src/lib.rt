//! Runs a program of one thread by the serial rule, and judges its clauses.
#![tactic(auto)]

mod blanks;
mod counted;
mod driver;
mod due;
mod frames;
mod judge;
pub mod laws;
mod store;
mod turn;

pub use driver::drive_serial;
