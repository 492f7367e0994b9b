//! What a run of a program is: a thread's next action, the world, legal histories, the clauses that are due and
//! what they are worth, right verdicts, true finishes and the serial rule. The definitions stand in `specs/`. Its
//! one promise: the laws of `thread_laws` and `history_laws`.
#![tactic(auto)]

pub mod history_laws;
pub mod thread_laws;
