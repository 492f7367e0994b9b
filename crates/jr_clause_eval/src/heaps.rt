//! The two heaps that a clause is judged on.

ghost use Rattle.std.specs.Prelude.{◌≡◌};
ghost use Rattle.jr_clause_eval.specs.Shown.{Shown};

use jr_base::{Ask, Seen};

/// The heap of the moment at which a clause is judged, and the older one on which its `\old` parts and the members of
/// a `locks` clause are read: at a return the heap just before the call. They stay as they are while they are read,
/// but the object that answers may change, such as one that takes a lock in turns.
pub trait Heaps {
    // what the two heaps show
    ghost shown: { Self → Shown };

    // what is still known of the object that answers after it was asked: each thing known of it relative to a start
    ghost follows: { Self → Self → Type 0 };

    /// What the heap of the moment has there.
    fn now(&mut self, what: Ask) -> Seen
        ensures answer { result ≡ (shown self.old).now what }
        ensures same { shown self.new ≡ shown self.old }
        ensures follows { (start : Self) → follows start self.old → follows start self.new };

    /// What the old heap has there.
    fn old(&mut self, what: Ask) -> Seen
        ensures answer { result ≡ (shown self.old).old what }
        ensures same { shown self.new ≡ shown self.old }
        ensures follows { (start : Self) → follows start self.old → follows start self.new };
}
