//! Where the entries of two small journals are found.

use super::*;
use jr_base::{Action, GuestNo, Memory, NewKind, ObjId, Reply, Stamp, Verdict};
use std::alloc::Global;
use std::test::Fail;

fn step(action: Action, reply: Reply) -> Entry {
    Entry::Step {
        guest: GuestNo(1),
        action,
        reply,
    }
}

fn make(object: u32) -> Entry {
    step(Action::New(NewKind::Plain), Reply::Made(ObjId(object)))
}

fn verdict(step: u32, place: u8, value: Verdict) -> Entry {
    Entry::Verdict {
        step: Stamp(step),
        place,
        value,
    }
}

/// Three steps, of which the last two make an object. The clause at place 0 of the first has two verdicts.
fn three_steps(alloc: Global) -> Result<Journal, Memory> {
    let mut journal = Journal::new(alloc);
    journal.reserve(7)?;
    journal.push(step(Action::Back, Reply::Unit));
    journal.push(verdict(0, 0, Verdict::True));
    journal.push(make(4));
    journal.push(Entry::Wake { guest: GuestNo(2) });
    journal.push(make(5));
    journal.push(verdict(0, 0, Verdict::False));
    journal.push(verdict(1, 3, Verdict::Undefined));
    Ok(journal)
}

#[test]
fn finds_steps_and_makes(rt: HostRuntime) -> Result<(), Fail> {
    let journal = three_steps(rt.alloc())?;
    assert_eq!(rt; journal.len(), 7);
    for (n, place, make_place) in [
        (0, Some(0), Some(2)),
        (1, Some(2), Some(4)),
        (2, Some(4), None),
        (3, None, None),
    ] {
        assert_eq!(rt; journal.place_of(Stamp(n)), place, "step {n}");
        assert_eq!(rt; journal.make_place_of(n), make_place, "object {n}");
    }
    Ok(())
}

#[test]
fn finds_first_verdicts(rt: HostRuntime) -> Result<(), Fail> {
    let mut journal = three_steps(rt.alloc())?;
    // These stand before their steps, or have a place that no clause has.
    for early in [false, true] {
        if early {
            journal.reserve(2)?;
            journal.push(verdict(9, 1, Verdict::Wide));
            journal.push(verdict(2, 16, Verdict::False));
        }
        for (step, place, value) in [
            (0, 0, Some(Verdict::True)),
            (0, 1, None),
            (1, 3, Some(Verdict::Undefined)),
            (1, 0, None),
            (9, 1, if early { Some(Verdict::Wide) } else { None }),
            (2, 16, if early { Some(Verdict::False) } else { None }),
        ] {
            assert_eq!(rt;
                journal.verdict(Stamp(step), place),
                value,
                "step {step}, place {place}"
            );
        }
    }
    Ok(())
}
