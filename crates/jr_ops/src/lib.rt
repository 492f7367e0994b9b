//! The tables of the keywords of Java and of JML, with a number for each, and of the rows of stack code. Its
//! one promise: `keyword` answers the row of a word exactly where the word is a keyword, and `effect` the row of
//! a number, exactly. The definitions stand in `specs/`: `Keywords.antt`, `Instructions.antt`.
#![tactic(auto)]

pub mod instruction;
pub mod table;
#[cfg(test)]
mod tests;

pub use instruction::{OpRow, ROW_COUNT, RowArg, RowKind, effect, instructions_differ};
pub use table::{KEYWORDS, OpTable, keyword, words_differ};
