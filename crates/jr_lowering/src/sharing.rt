//! That threads may share a program.

ghost use denote.Param.Send.{IsSend, IsSync};
ghost use Rattle.jr_lowering.specs.contracts.program.Program as Program;

/// A law: a program may be moved to another thread, and several may read it at once. No other crate proves this of its
/// own: it cites `program_send` and `program_sync` of `proofs/Crossing.antt`.
#[tactic(auto, using(crate::proofs::Crossing::program_send, crate::proofs::Crossing::program_sync))]
pub fn programs_cross_threads()
    ensures send { IsSend Program.the_row }
    ensures sync { IsSync Program.the_row }
{}
