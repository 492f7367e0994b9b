//! The types of code: what each expression denotes, or which rule it breaks and where (JLS 4, 6, 15). Its one promise:
//! each call gives what the rules of `jr_typing_rules` give, and refuses as they do. How the code's own types are seen as
//! the plain data of those rules stands in `specs/Views.antt`.
#![tactic(auto)]

mod access;
mod call;
mod callee;
mod chain;
mod coded;
mod constant;
mod conversion;
mod counts;
mod declaration;
mod denotation;
mod effect;
mod ends;
mod expression;
mod fault;
mod field;
mod formal;
mod heading;
mod literal;
mod local;
mod made;
mod operation;
mod operator;
mod primary;
mod print;
mod scope;
mod scopes;
mod state;
mod statement;
#[cfg(test)]
mod tests;
mod types;

pub use access::{class_denoted, field_access};
pub use counts::Counts;
pub use declaration::{CodeMade, type_code};
pub use denotation::{Denotation, Value, mismatch, unknown};
pub use ends::body_ends;
pub use expression::{denotation_of, value};
pub use literal::{Literal, negated_literal, written_literal};
pub use made::{MadeClass, MadeField, MadeMember, MadeMethod};
pub use operation::{operation_on, single, wider};
pub use operator::{not_here, step_of};
pub use primary::integer_under;
pub use scope::{Scope, Variable};
pub use scopes::{ScopeStep, Scopes};
pub use state::{Frame, State};
pub use statement::body_of;
pub use types::{BOOLEAN, INT, LONG, OBJECT, is_boolean, is_int, kind_of, members_of, width_to};
