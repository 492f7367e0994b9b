//! Operators and their results, of `int` and of `long`. Its one promise: each call is the operator that
//! code, clauses and the verifier mean. The definitions stand in `specs/`: `Arithmetic.antt` has the results
//! of numbers, `Operators.antt` those of values, `Kinds.antt` what an operator takes and gives.
#![tactic(auto)]

pub mod apply;
pub mod int;
pub mod kinds;
pub mod laws;
pub mod long;
pub mod operator;
#[cfg(test)]
mod tests;

pub use kinds::kind_of_element;
pub use operator::{Arithmetic, Binary, Bitwise, Comparison, Shift, Unary, Width};
