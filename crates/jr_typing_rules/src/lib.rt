//! Names and types as rules: which program a syntax tree is, or which rule it breaks and where (JLS 4, 6, 8, 14, 15;
//! JML Reference Manual). The definition stands in `specs/`, in four passes that follow each other: `Resolution` the
//! names of the whole unit, `Declarations` its code, `Specifications` its clauses, `Sites` how many clauses are due
//! at each place; `Whole` has them together. Its one promise: the laws of `laws`.
#![tactic(auto)]

pub mod laws;
pub mod words;

pub use words::{
    Access, Face, FieldEntry, Head, Joint, Library, Members, MethodEntry, Operation, Single,
    ValueType, VariableKind,
};
