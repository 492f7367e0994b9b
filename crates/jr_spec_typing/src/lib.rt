//! The types of clauses: what each expression of a clause states, which clauses a source has, and which words of JML are
//! read and not judged; or which rule is broken and where (JML Reference Manual, "Predicates and Specification
//! Expressions", "Modifiers"). Its one promise: each call gives what the rules of `jr_typing_rules` give, and refuses as
//! they do. How the code's own types are seen as the plain data of those rules stands in `specs/Views.antt`,
//! `specs/Clauses.antt` and `specs/Noted.antt`.
#![tactic(auto)]

mod access;
mod chain;
mod class_clauses;
mod environment;
mod method_clauses;
mod modifiers;
mod name;
mod operator;
mod predicate;
mod primary;
mod quantifier;
mod stand;
mod term;
#[cfg(test)]
mod tests;
mod unjudged;
mod written;

pub use class_clauses::clauses;
pub use predicate::{states_boolean, states_reference};
pub use stand::{Quantified, Stand};
pub use unjudged::notes;
