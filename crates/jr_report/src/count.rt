//! What is counted of a run.

ghost use Rattle.std.specs.Prelude.{◌≡◌, ◌≤◌, ◌+◌, ◌<◌, length, sum_by};
ghost use Rattle.jr_program.specs.Programs.{Program};
ghost use Rattle.jr_meaning.specs.History.{step_count, steps_in, world_after};
ghost use Rattle.jr_journal.specs.Entries.{event_of};
ghost use Rattle.jr_report.specs.Report.{verdicts_in, violations_in, uncaught_in};
ghost use Rattle.jr_report.specs.Started.{starts_in};

use jr_base::{Action, EndHow, Reply, Verdict};
use jr_journal::{Entry, Journal};

/// What is counted of the entries of a journal.
#[derive(Clone, Copy)]
pub struct Count {
    pub steps: u32,
    /// Threads that were started beside main.
    pub guests: u32,
    pub verdicts: u32,
    /// Verdicts other than True.
    pub violations: u32,
    /// Threads that an exception ended.
    pub uncaught: u32,
}

/// Nothing.
const NOTHING: Count = Count {
    steps: 0,
    guests: 0,
    verdicts: 0,
    violations: 0,
    uncaught: 0,
};

/// What an entry counts for.
pub fn count_of(entry: &Entry) -> Count
    ensures steps { result.steps ≡ steps_in (event_of entry.now) }
    ensures guests { result.guests ≡ starts_in (event_of entry.now) }
    ensures verdicts { result.verdicts ≡ verdicts_in (event_of entry.now) }
    ensures violations { result.violations ≡ violations_in (event_of entry.now) }
    ensures uncaught { result.uncaught ≡ uncaught_in (event_of entry.now) }
    ensures one { result.steps ≤ 1 × result.guests ≤ 1 × result.verdicts ≤ 1 × result.violations ≤ 1 × result.uncaught ≤ 1 }
{
    match entry {
        Entry::Step {
            guest: _,
            action: Action::End(EndHow::Uncaught(_)),
            reply: _,
        } => Count {
            steps: 1,
            uncaught: 1,
            ..NOTHING
        },
        Entry::Step {
            guest: _,
            action: Action::Start(_),
            reply: Reply::Started(_, _),
        } => Count {
            steps: 1,
            guests: 1,
            ..NOTHING
        },
        Entry::Step { .. } => Count {
            steps: 1,
            ..NOTHING
        },
        Entry::Verdict {
            step: _,
            place: _,
            value: Verdict::True,
        } => Count {
            verdicts: 1,
            ..NOTHING
        },
        Entry::Verdict { .. } => Count {
            verdicts: 1,
            violations: 1,
            ..NOTHING
        },
        Entry::Wake { guest: _ } => NOTHING,
    }
}

/// What all entries count for.
pub fn count_all(journal: &Journal) -> Count
    ensures steps { result.steps ≡ step_count journal.now.entries }
    ensures guests { (program : Program) → result.guests + 1 ≡ length (world_after program journal.now.entries).guests }
    ensures verdicts { result.verdicts ≡ sum_by verdicts_in journal.now.entries }
    ensures violations { result.violations ≡ sum_by violations_in journal.now.entries }
    ensures uncaught { result.uncaught ≡ sum_by uncaught_in journal.now.entries }
{
    let mut all = NOTHING;
    for at in 0..journal.len() {
        let one = count_of(journal.entry(at));
        all.steps += one.steps;
        all.guests += one.guests;
        all.verdicts += one.verdicts;
        all.violations += one.violations;
        all.uncaught += one.uncaught;
    }
    all
}
