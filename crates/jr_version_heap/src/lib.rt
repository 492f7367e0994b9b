//! A heap that keeps the versions of its cells which are still read.
#![tactic(auto)]

mod cells;
mod chain;
mod heap;
mod needs;
#[cfg(test)]
mod tests;
mod version;

pub use heap::VersionHeap;
pub use version::{Home, Past, Version};
