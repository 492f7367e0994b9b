//! That threads may share a typed unit.

ghost use denote.Param.Send.{IsSend, IsSync};
ghost use Rattle.jr_program.specs.contracts.unit.TypedUnit as TypedUnit;

/// A law: a typed unit may be moved to another thread, and several may read it at once. No other crate
/// proves this of its own: it cites `unit_send` and `unit_sync` of `proofs/Crossing.antt`.
#[tactic(auto, using(crate::proofs::Crossing::unit_send, crate::proofs::Crossing::unit_sync))]
pub fn typed_units_cross_threads()
    ensures send { IsSend TypedUnit.the_row }
    ensures sync { IsSync TypedUnit.the_row }
{}
