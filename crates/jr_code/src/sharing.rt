//! That threads may share checked code.

ghost use denote.Param.Send.{IsSend, IsSync};
ghost use Rattle.jr_code.specs.contracts.checking.Checked as Checked;

/// A law: checked code may be moved to another thread, and several may read it at once. No other crate proves this of
/// its own: it cites `checked_send` and `checked_sync` of `proofs/Crossing.antt`.
#[tactic(auto, using(crate::proofs::Crossing::checked_send, crate::proofs::Crossing::checked_sync))]
pub fn checked_code_crosses_threads()
    ensures send { IsSend Checked.the_row }
    ensures sync { IsSync Checked.the_row }
{}
