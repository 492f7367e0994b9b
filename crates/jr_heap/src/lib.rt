//! One heap of the program that runs: where its cells stand, what a reader sees in it, and the heap that keeps
//! newest values alone. Its one promise: a snapshot shows one heap, from which each question is answered and
//! which stays as it is while it is read. The places of cells stand in `specs/Layout.antt`, what is seen in
//! `specs/Plain.antt`.
#![tactic(auto)]

mod layout;
mod plain;
mod snapshot;
#[cfg(test)]
mod tests;

pub use layout::{Layout, Place};
pub use plain::{PlainHeap, PlainReader};
pub use snapshot::Snapshot;
