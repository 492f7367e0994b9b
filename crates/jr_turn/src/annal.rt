//! What a turn asks of the value that it guards.
ghost use Rattle.std.specs.Prelude.{ℕ, List, Option};
ghost use Rattle.jr_turn.specs.declared.annal.Face.{Face as FaceOf};

use jr_base::Finish;

/// What a pass remembers of the value that it took last.
#[derive(Clone, Copy, Debug, PartialEq, Eq)]
pub struct Face {
    /// The finish that the value holds, if it has one.
    pub finish: Option<Finish>,
    /// How many versions are pending in it.
    pub pending: u32,
    /// How many tickets wait in it.
    pub waiting: u32,
}

/// A value that stands for a list of entries, the annals of what its holders did.
///
/// A ticket is work that was opened and is not closed. While it is open it is in the hand of one pass,
/// or it waits in the value for one. The trait has meanings alone, and no calls.
pub trait Annal: Drop {
    type Opening;

    type Entry;

    type Ticket;

    // What the list was begun with. It never changes.
    ghost opening: { Self → Self.Opening };

    ghost entries: { Self → List Self.Entry };

    // The open tickets that don't wait in the value.
    ghost in_hand: { Self → List Self.Ticket };

    // The open tickets that wait in the value.
    ghost waiting: { Self → List Self.Ticket };

    ghost face: { Self → FaceOf };

    // The guest that an entry names, which it does only where it is a step.
    ghost guest: { Self.Entry → Option ℕ };
}
