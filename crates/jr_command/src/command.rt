//! The commands.

/// What the words ask for.
#[derive(Clone, Copy, Debug, PartialEq, Eq)]
pub enum Command {
    /// Runs the source on one worker, by the serial rule with that seed, for at most so many steps.
    RunSerial { seed: u32, budget: u32 },
    /// Tells how much the source has.
    Check,
    /// Lists its clauses, and the words of JML that aren't judged.
    Clauses,
}
