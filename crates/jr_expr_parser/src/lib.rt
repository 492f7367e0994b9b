//! The reader of expressions, of code and of clauses. The one promise: it gives the expression of a level
//! that stands at an index, and the index behind it, exactly where one stands there that nests within the
//! limit. What an expression is stands in `specs/Grammar.antt`, the operators in `specs/Operators.antt`,
//! nesting in `specs/Nesting.antt`, where a big literal stands in `specs/BigLiteral.antt`, and the answers in
//! `specs/Answers.antt`.
#![tactic(auto)]

mod levels;
mod listing;
mod nodes;
mod operators;
mod parser;
pub mod parsing;
mod primary;
mod read;
mod signs;
#[cfg(test)]
mod tests;

pub use parsing::{Level, one_tree, parse_expr, parse_spec_expr};
