//! The monitors of a run and the roster of its threads. Its one promise: what is kept here stands for the part of the
//! world that it is about, so an action is ready, is replied and changes things exactly as the machine's definition has
//! it (JLS 14.19, 17.1, 17.2). What is kept stands in `specs/Roster.antt`, and what it stands for in
//! `specs/Stands.antt`.
#![tactic(auto)]

mod laws;
mod member;
mod members;
mod monitors;
mod owners;

pub use laws::depths_are_given_back;
pub use monitors::Monitors;
