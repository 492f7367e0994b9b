//! The stamps at which a heap is still read: each has as many pins as there are readers of it. Its one promise: a
//! stamp is pinned exactly where one of its pins was set and not taken away since, and what is kept with a pin
//! stays with it. What is seen of the pins stands in `specs/Pins.antt`.
#![tactic(auto)]

mod pins;
#[cfg(test)]
mod tests;

pub use pins::{Pin, PinId, Pins};
