//! What no clause says: which cells are asked for, in which order; and values from the rules of the language.

mod asked;
mod build;
mod clauses;
mod operators;
mod parts;
mod quantified;
