//! What every reader of tokens shares: the tokens of code and those of annotations as a reader sees them, the
//! words that are left out, types, and the limit of nesting. The one promise: a reader sees at each index
//! exactly the token of its own sort that stands there. What is seen stands in `specs/Seen.antt`, what is left
//! out in `specs/LeftOut.antt`, types in `specs/Types.antt`, lists with commas in `specs/Listed.antt`, what a
//! reader answers in `specs/Answers.antt`, and its steps in `specs/Outcomes.antt` and `specs/Steps.antt`.
#![tactic(auto)]

mod limits;
#[cfg(test)]
mod tests;
mod types;
pub mod view;
mod words;

pub use limits::NESTING_LIMIT;
pub use view::View;
pub use words::left_out;
