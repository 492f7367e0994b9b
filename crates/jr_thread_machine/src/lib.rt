//! Runs one thread of a program from action to action. Its one promise: what `Machine::next` answers is the thread's next
//! action as the program's definition has it (`next` of jr_meaning), or that it has ended, after the replies that
//! `Machine::resume` was given. The definitions stand in `specs/`: `Standing.antt` has what a machine stands for,
//! `Stages.antt` what a thread stands before, `Calls.antt` how a call begins, `Steps.antt` what running a call is,
//! `Handlers.antt` what takes an exception, `Moves.antt` what an instruction comes to, as a move of its code.
#![tactic(auto)]

mod act;
mod answer;
mod asking_rows;
mod callers;
mod flow;
mod frame;
mod handlers;
mod local_rows;
mod locals;
pub mod machine;
mod run;
mod slot;
mod stack;
mod stage;
mod table;
mod table_rows;
mod text_rows;

pub use machine::{Machine, Next};
