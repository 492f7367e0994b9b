//! Two snapshots, as the heaps on which a clause is judged.

ghost use Rattle.std.specs.Prelude.{◌≡◌};

use crate::heaps::Heaps;
use jr_base::{Ask, Seen};
use jr_heap::Snapshot;

/// Two snapshots: the heap of the moment, and the old one.
pub struct Snapshots<'a, N, O> {
    pub moment: &'a mut N,
    pub before: &'a mut O,
}

impl<N: Snapshot, O: Snapshot> Heaps for Snapshots<'_, N, O> {
    ghost shown = { λ s. record { now = N.shown s.moment.now; old = O.shown s.before.now } };

    ghost follows = { λ start s. (s.moment.ghost_name ≡ start.moment.ghost_name) × (s.before.ghost_name ≡ start.before.ghost_name) };

    fn now(&mut self, what: Ask) -> Seen {
        self.moment.ask(what)
    }

    fn old(&mut self, what: Ask) -> Seen {
        self.before.ask(what)
    }
}
