//! The reader of sources. The one promise: it gives the unit that the tokens spell, exactly where they spell
//! one that nests within the limit. What a source is stands in `specs/Grammar.antt`, how deep one nests in
//! `specs/Nesting.antt`, and the answers in `specs/Answers.antt`.
#![tactic(auto)]

mod classes;
mod fields;
mod head;
mod members;
mod parsing;
mod parts;
mod reader;
mod signatures;
#[cfg(test)]
mod tests;
mod words;

pub use parsing::{one_unit, parse};
