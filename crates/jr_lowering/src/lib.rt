//! The code of a program, and that it does what the program does. Its one promise: for every well-formed program, every
//! start that fits it and every list of replies, what the code does next is what the program does next, and the code
//! keeps the rules of stack code. The definitions stand in `specs/`: `ExprCode.antt`, `StatementCode.antt` and
//! `ProgramCode.antt` have the code as a function of its place. `size` and `statement_size` compute how many instructions
//! each piece has, which the emitting pass has to know before it names a place. `expr` and `stmt` emit the code, each piece
//! at its place, `tables` gives the rows, `method` puts a method together and `lowering` a program, and `program` keeps a
//! unit with its code.
#![tactic(auto)]

pub mod access;
pub mod effect;
pub mod exit;
pub mod expr;
pub mod laws;
pub mod lowering;
pub mod method;
pub mod monitors;
pub mod op;
pub mod pieces;
pub mod program;
pub mod region;
pub mod sharing;
pub mod size;
pub mod statement_size;
pub mod stmt;
pub mod tables;

pub use lowering::lower;
pub use program::Program;
