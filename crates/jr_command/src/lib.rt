//! What the words after the program's name ask for. Its one promise: [`Words::command`] gives the command that the
//! definition in `specs/Command.antt` makes of them.
#![tactic(auto)]

mod command;
mod number;
mod options;
#[cfg(test)]
mod tests;
mod words;

pub use command::Command;
pub use words::Words;
