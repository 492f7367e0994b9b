//! What holds of the tokens of every source (JLS 3): above the definition of tokens, which says how they are found, in
//! terms of the source's bytes alone. Its one promise: the laws of `sign_laws` and `source_laws`. What they say stands
//! in `specs/`.
#![tactic(auto)]

pub mod sign_laws;
pub mod source_laws;
