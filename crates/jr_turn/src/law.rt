//! The rule of a turn's table, and what each atomic step tells.
use crate::annal::Annal;
use crate::view::{View, ViewOf};
use atomic_table::{Join, Play, Split, TableRule};
use std::marker::{Brand, PhantomData};
use std::snapshot::Snapshot;

/// The seven points.
pub struct Law;

impl<V: Annal> TableRule<Option<V>, ViewOf<V>, Snapshot<V>> for Law {
    ghost use Rattle.jr_turn.specs.Points.{Rule};
    ghost use Rattle.std.specs.Prelude.{Some, []};
    ghost use Rattle.jr_turn.specs.Views.{newcomer};

    ghost holds = { λ k s. Rule V.opening V.entries V.in_hand V.waiting V.guest s };

    ghost first = { λ k. newcomer 1 (Some (V.opening k.value)) [] };
}

/// A number is drawn.
pub struct Draws;

impl<V: Annal> Play<Option<V>, ViewOf<V>> for Draws {
    ghost use Rattle.jr_turn.specs.Tellings.{drew};

    ghost then = { drew };
}

/// The slot is taken, where the number served is the pass's own.
pub struct Takes;

impl<V: Annal> Play<Option<V>, ViewOf<V>> for Takes {
    ghost use Rattle.jr_turn.specs.Tellings.{took};

    ghost then = { took V.opening V.entries V.in_hand V.face V.guest };
}

/// Which entry is counted. A call picks it.
pub trait Entered<E> {
    ghost use Rattle.std.specs.Prelude.{Option};

    ghost entry: { Option E };
}

impl<E> Entered<E> for Brand {
    ghost use Rattle.std.specs.Prelude.{None};

    ghost entry = { None };
}

/// An entry is counted.
pub struct Counts<G> {
    entered: PhantomData<G>,
}

impl<V: Annal, G: Entered<V::Entry>> Play<Option<V>, ViewOf<V>> for Counts<G> {
    ghost use Rattle.jr_turn.specs.Tellings.{counted};

    ghost then = { counted V.guest G.entry };
}

/// Which ticket a pass has in hand once it has given the turn back. A call picks it.
pub trait Handed<T> {
    ghost use Rattle.std.specs.Prelude.{Option};

    ghost ticket: { Option T };
}

impl<T> Handed<T> for Brand {
    ghost use Rattle.std.specs.Prelude.{None};

    ghost ticket = { None };
}

/// The slot is given back.
pub struct Gives<G> {
    handed: PhantomData<G>,
}

impl<V: Annal, G: Handed<V::Ticket>> Play<Option<V>, ViewOf<V>> for Gives<G> {
    ghost use Rattle.jr_turn.specs.Tellings.{gave};

    ghost then = { gave G.ticket };
}

/// The next number is served.
pub struct Serves;

impl<V: Annal> Play<Option<V>, ViewOf<V>> for Serves {
    ghost use Rattle.jr_turn.specs.Tellings.{served_next};

    ghost then = { served_next };
}

/// A pass is split off the first one, or joined into it.
pub struct Parts;

impl<O, E, T> Split<View<O, E, T>> for Parts {
    ghost use Rattle.jr_turn.specs.Views.{with_made, split_off};

    ghost left = { with_made };

    ghost right = { split_off };
}

impl<O, E, T> Join<View<O, E, T>> for Parts {
    ghost use Rattle.jr_turn.specs.Views.{with_joined, gone};

    ghost both = { with_joined };

    ghost spent = { gone };
}

/// The count is loaded.
pub struct Looks;

impl<V: Annal> Play<Option<V>, ViewOf<V>> for Looks {
    ghost use Rattle.jr_turn.specs.Tellings.{knew};

    ghost then = { knew };
}
