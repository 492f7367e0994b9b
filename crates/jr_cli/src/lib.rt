//! The top call: from a list of words, a source and a sink to a status, a record and a report. Its one
//! promise is the headline of [`jmlrac_quiet`]: the record returned is right, and the bytes written are
//! exactly its report. Which bytes spell which program stands in `specs/Sources.antt`, what a command does with it in
//! `specs/Commands.antt`, why a call ends as it does in `specs/Causes.antt` and `specs/Ends.antt`.
#![tactic(auto)]

mod ended;
mod outcome;
mod quiet;
mod source;

pub use ended::Ended;
pub use quiet::jmlrac_quiet;
pub use source::one_meaning;

#[cfg(test)]
mod tests;
