//! The typed program: what the checks before the run leave of a source, with each name resolved to a
//! number, each operator typed and each conversion written. Its plain data stands in `specs/`:
//! `Programs.antt` has the code, `Clauses.antt` the clauses.
#![tactic(auto)]

pub mod clause;
mod copied;
pub mod due;
pub mod expr;
pub mod parts;
pub mod sharing;
pub mod stmt;
#[cfg(test)]
mod tests;
pub mod unit;
pub mod words;

pub use clause::{ClauseExpr, ClauseShape, ClauseSuffix, QuantifiedExpr, TypedSpec};
pub use due::DueList;
pub use expr::{Effect, TypedCall, TypedExpr, TypedShape, TypedSuffix, TypedVariable};
pub use parts::{TypedClass, TypedField, TypedMethod, TypedNote, UnitParts};
pub use stmt::{TypedCatch, TypedForm, TypedPart, TypedStmt};
pub use unit::TypedUnit;
pub use words::{Bound, ClauseKind, Mode, Owner, Quantifier, Site};
