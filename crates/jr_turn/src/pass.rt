//! The token that a worker takes the turn with.
use crate::annal::Annal;
use crate::view::SeatOf;
use std::marker::Model;

/// A pass of a turn. It has no bytes, and is moved to the worker that uses it. Contracts see whose pass
/// it is and its view, without the number that it drew.
#[derive(Drop)]
pub struct Pass<V: Annal> {
    pub(crate) seat: SeatOf<V>,
}

impl<V: Annal> Model for Pass<V> {
    ghost use Rattle.jr_turn.specs.Passes.{Standing, AtRest, knows};

    ghost Value = { Standing V.Opening V.Entry V.Ticket };

    ghost view = { λ p. record { turn = p.seat.table_id; view = knows p.seat } };

    ghost invariant = { λ p. AtRest p.seat.me };
}
