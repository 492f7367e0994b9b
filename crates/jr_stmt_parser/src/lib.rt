//! The reader of statements. The one promise: it gives the block that stands at an index, and the index
//! behind it, exactly where one stands there that nests within the limit. What a statement is stands in
//! `specs/Grammar.antt`, how deep one nests in `specs/Nesting.antt`, where statements and labels stand in
//! `specs/Labels.antt`, and the answers in `specs/Answers.antt`.
#![tactic(auto)]

mod code;
mod effects;
mod forms;
mod parsing;
mod pieces;
mod reader;
#[cfg(test)]
mod tests;

pub use parsing::{one_block, parse_block};
