//! The reader of JML clauses. The one promise: it gives the clause that stands at an index, and the
//! index behind it, exactly where one stands there that nests within the limit. What a clause is stands in
//! `specs/Grammar.antt`, its nesting in `specs/Nesting.antt`, and the answers in `specs/Answers.antt`.
#![tactic(auto)]

mod annotations;
pub mod clause;
mod parts;
#[cfg(test)]
mod tests;

pub use clause::{one_clause, parse_assert, parse_class_clause, parse_clause, parse_method_clause};
