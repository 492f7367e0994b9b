//! What is written: the report of a run, what `check` and `clauses` tell of a source, and the line of a refusal. Its one
//! promise: the bytes are exactly the text that `specs/` states (`Report.antt`, `Listing.antt`, `Refusals.antt`), or a
//! part of it where the sink met a fault. Nothing here takes memory.
#![tactic(auto)]

mod count;
mod line;
mod listing;
mod open_calls;
mod pass;
mod prints;
mod refusal_line;
mod report;
mod sites;
#[cfg(test)]
mod tests;
mod uncaught;
mod violations;
mod words;

pub use count::{Count, count_all};
pub use listing::{write_check, write_clauses};
pub use refusal_line::write_refusal;
pub use report::write_report;
