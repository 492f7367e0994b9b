//! A turn: a lock that workers take in the order in which they asked for it, round a value that stands
//! for a list which only grows. Its one promise: who takes the turn finds a value whose list begins with
//! all that this worker has seen before, and has just the steps of this worker that it counted, in order.
//! The rule that each atomic step keeps stands in `specs/Points.antt`, what a worker knows in
//! `specs/Views.antt`.
#![tactic(auto)]

pub mod annal;
mod law;
mod lock;
pub mod pass;
#[cfg(test)]
mod tests;
pub mod turn;
pub mod view;

pub use annal::{Annal, Face};
pub use pass::Pass;
pub use turn::Turn;
pub use view::{Past, View};
