//! A pass over the entries of a journal.

ghost use Rattle.std.specs.Prelude.{◌≡◌, ◌+◌, ◌≤◌, ◌<◌, Some, slice_get, List};
ghost use Rattle.jr_meaning.specs.Event.{Event};
ghost use Rattle.jr_journal.specs.Entries.{event_of};
ghost use Rattle.jr_report.specs.OpenCalls.{Stands};
ghost use Rattle.jr_report.specs.Sites.{IsLegalSomehow};
ghost use Rattle.jr_program.specs.Programs.{Program};

use crate::open_calls::OpenCalls;
use jr_journal::Entry;

/// Where a pass stands: the place of the next entry, how many steps stand before it, and which calls are open there.
#[derive(Clone, Copy)]
pub struct Pass {
    pub at: u32,
    pub step: u32,
    pub calls: OpenCalls,
}

impl Pass {
    /// Before all entries.
    pub fn new() -> Pass
        ensures stands { (h : List Event) → Stands h result }
        ensures at { result.at ≡ 0 }
        ensures steps { result.step ≤ result.at }
    {
        Pass {
            at: 0,
            step: 0,
            calls: OpenCalls::new(),
        }
    }

    /// Goes past the next entry.
    pub fn go_on(&mut self, entry: &Entry)
        requires room { self.old.at < 4294967295 }
        requires steps { self.old.step ≤ self.old.at }
        ensures stands { (program : Program) (h : List Event) → IsLegalSomehow program h → Stands h self.old → slice_get h self.old.at ≡ Some (event_of entry.now) → Stands h self.new }
        ensures at { self.new.at ≡ self.old.at + 1 }
        ensures steps { self.new.step ≤ self.new.at }
    {
        self.at += 1;
        if let Entry::Step {
            guest,
            action,
            reply: _,
        } = entry
        {
            self.step += 1;
            self.calls.pass(*guest, action);
        }
    }
}
