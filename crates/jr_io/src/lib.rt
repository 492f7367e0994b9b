//! Where a program's text comes from and where its report goes: the traits [`Source`] and [`Sink`], a
//! whole source read to its end, a whole piece written, and sources and sinks over memory and over std's
//! readers and writers. The crate's one promise: what is read and written is exactly what the source had
//! and the piece said, and a fault is reported only where the source or the sink itself counted one.
//! What its clauses say stands in `specs/`.
#![tactic(auto)]

pub mod memory;
pub mod sink;
pub mod source;
pub mod standard;

pub use memory::{MemSink, MemSource};
pub use sink::{Piece, Sink, WriteOut, write_piece};
pub use source::{ReadFail, ReadOut, Source, read_all};
pub use standard::{StdSink, StdSource};

#[cfg(test)]
mod tests;
