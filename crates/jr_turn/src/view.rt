//! What a pass knows. Contracts and proofs alone see it: no value of it is ever made.
use crate::annal::{Annal, Face};
use atomic_table::Seat;
use std::collections::LinkedList;

/// What is kept of a pass that was joined: its number, what it had seen, and the steps of its number.
pub struct Past<E> {
    pub number: u32,
    pub seen: LinkedList<E>,
    pub mine: LinkedList<E>,
}

/// The parts of a view. `number` 1 is the first pass, which alone keeps `made`, `joined` and `past`.
pub struct View<O, E, T> {
    pub number: u32,
    /// How many passes were made, the first included, and how many were joined into it.
    pub made: u32,
    pub joined: u32,
    /// The passes that were joined, in the order in which they were.
    pub past: LinkedList<Past<E>>,
    pub opening: Option<O>,
    /// The list of the value when the pass last took the turn, and what it counted since.
    pub seen: LinkedList<E>,
    /// The number of entries that it last loaded.
    pub known: u64,
    /// The steps of its number.
    pub mine: LinkedList<E>,
    /// How often it took the turn, and how often it loaded the number of entries.
    pub takes: u64,
    pub loads: u64,
    /// The face of the value that it last took.
    pub found: Option<Face>,
    /// The ticket that it has in hand.
    pub ticket: Option<T>,
    /// The number that it drew.
    pub drawn: Option<u64>,
    /// The entry that it counted since it took the turn.
    pub flight: Option<E>,
    /// While it holds the turn, the tickets that were in hand when it took it.
    pub out: Option<LinkedList<T>>,
    /// It gave the slot back, and hasn't served the next.
    pub given: bool,
    /// It was joined into the first pass.
    pub spent: bool,
}

pub type ViewOf<V> = View<<V as Annal>::Opening, <V as Annal>::Entry, <V as Annal>::Ticket>;

pub type SeatOf<V> = Seat<Option<V>, ViewOf<V>>;
