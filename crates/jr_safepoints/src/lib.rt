//! The typed program of a source, with the clauses that are due at each site. Its one promise: [`typed`] gives the program
//! that the rules of names, types, clauses and sites make of a source, or refuses it as they do. The rules stand in
//! `specs/Whole.antt` of `jr_typing_rules`, which clauses are due where in `specs/Sites.antt` of `jr_program`; the
//! definitions here are aids: `specs/Sorted.antt`, `Few.antt` and `Due.antt` of due lists, `specs/Slotted.antt` of slots,
//! `specs/Assembled.antt` and `Whole.antt` of the parts that are put together.
#![tactic(auto)]

mod assembly;
mod joined;
mod label;
mod owned;
mod slots;
mod sorted;
#[cfg(test)]
mod tests;
mod whole;

pub use whole::typed;
