//! Tokens of Java with annotations of JML. The one promise: `lex` gives the tokens of the bytes, or the
//! first place from the left at which there is none, with its cause. What the tokens of bytes are stands
//! in `specs/Lexical.antt`, the signs in `specs/Signs.antt`, and what a token is in `specs/Token.antt`.
#![tactic(auto)]

pub mod kind;
mod lexer;
mod literal;
pub mod number;
mod place;
mod scan;
mod sign;
mod stored;
#[cfg(test)]
mod tests;
pub mod tokens;
mod words;

pub use kind::Kind;
pub use lexer::{lex, refusals_are_lexical};
pub use number::{Number, big_literal};
pub use tokens::Tokens;
