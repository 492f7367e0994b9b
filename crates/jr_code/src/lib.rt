//! Stack code, and what it does. Its one promise: code does at most one thing next, and code that keeps the rules
//! never meets a missing operand, one of a wrong kind, or an end of its instructions. The definitions stand in
//! `specs/`: `Instructions.antt` has code as plain data, `Coded.antt` the numbered rows, `Machine.antt` what code
//! does, `Checked.antt` the rules.
#![tactic(auto)]

pub mod checking;
pub mod code;
mod effects;
mod handler;
pub mod instr;
pub mod instruction;
mod kinds;
pub mod laws;
mod shapes;
pub mod sharing;
#[cfg(test)]
mod tests;
mod verifier;

pub use checking::{CheckFail, Checked, check};
pub use code::{AssertCode, Code, FieldCode, MethodCode, Region, RegionKind};
pub use instr::Instr;
pub use instruction::{Flow, Instruction};
