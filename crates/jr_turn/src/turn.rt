//! A lock with an order, round a value whose list only grows.
ghost use Rattle.std.specs.Prelude.{◌≡◌, ◌+◌, ◌<◌, ◌≤◌, ◌^◌, ℕ, [], ◌∷◌, ◌++◌, length, Some, None, IfOk, IsSome, Contains, All, Any};
ghost use Rattle.std.specs.Option.{ForSome};
ghost use Rattle.jr_turn.specs.Views.{IsPrefix, IsReplaced, as_list, steps, open_tickets, out_tickets, with_taken, with_entry, with_back, with_known, with_made, with_joined, split_off, newcomer, StandsIn};
ghost use Rattle.jr_turn.specs.Passes.{kept_ticket};

use crate::annal::Annal;
use crate::lock::Lock;
use crate::pass::Pass;
use jr_base::Memory;
use std::alloc::Global;
use std::marker::{Brand, Model};
use std::sync::Wait;

/// A ticket lock (Mellor-Crummey and Scott, 1991) round a value of type V. Workers share it by `&`, and
/// each has a pass of its own. Contracts see which turn it is, and for how many passes it was made.
#[derive(Drop)]
pub struct Turn<V: Annal> {
    lock: Lock<V>,
    seats: u32,
}

impl<V: Annal> Model for Turn<V> {
    ghost use Rattle.jr_turn.specs.Passes.{Identity};

    ghost Value = { Identity };

    ghost view = { λ t. record { turn = t.lock.table.shared.table_id; seats = t.seats } };
}

impl<V: Annal> Turn<V> {
    /// A turn for at most `seats` passes, and the first pass, which has the number 1.
    pub fn new(alloc: Global, value: V, seats: u32) -> Result<(Turn<V>, Pass<V>), Memory>
        requires seats { 0 < seats }
        requires empty { (V.entries value ≡ []) × (open_tickets V.in_hand V.waiting value ≡ []) }
        ensures turn { IfOk result (λ t. (t.0.seats ≡ seats) × (t.1.turn ≡ t.0.turn)) }
        ensures pass { IfOk result (λ t. t.1.view ≡ newcomer 1 (Some (V.opening value)) []) }
    {
        let (lock, seat) = Lock::open(alloc, value)?;
        Ok((Turn { lock, seats }, Pass { seat }))
    }

    /// The pass with the next number, for another worker.
    pub fn split(&self, pass: &mut Pass<V>) -> Pass<V>
        requires turn { pass.old.turn ≡ self.now.turn }
        requires first { pass.old.view.number ≡ 1 }
        requires room { pass.old.view.made < self.now.seats }
        ensures turn { (pass.new.turn ≡ pass.old.turn) × (result.turn ≡ pass.old.turn) }
        ensures first { pass.new.view ≡ with_made pass.old.view }
        ensures new { result.view ≡ split_off pass.old.view }
    {
        let _seats = self.seats;
        let seat = self.lock.split(&mut pass.seat);
        Pass { seat }
    }

    /// Waits until all who asked before have given the turn back, and takes the value.
    ///
    /// While it waits it yields the processor, so that the holder can go on. Who is next in line spins
    /// for a while before that.
    pub fn take<R: Wait>(&self, rt: &R, pass: &mut Pass<V>) -> V
        requires turn { pass.old.turn ≡ self.now.turn }
        requires away { pass.old.view.out ≡ None }
        ensures turn { pass.new.turn ≡ pass.old.turn }
        ensures opening { pass.old.view.opening ≡ Some (V.opening result) }
        ensures seen { IsPrefix pass.old.view.seen (V.entries result) }
        ensures mine { pass.old.view.mine ≡ steps V.guest pass.old.view.number (V.entries result) }
        ensures ticket { ForSome pass.old.view.ticket (Contains (V.in_hand result)) }
        ensures uncounted { pass.new.view.flight ≡ None }
        // All else is as before: the opening, the steps and the ticket among it.
        ensures pass { pass.new.view
            ≡ with_taken pass.old.view (V.entries result) (V.face result) (V.in_hand result) }
    {
        self.lock.take(rt, &mut pass.seat)
    }

    /// Counts the one entry by which the value's list has grown since the turn was taken.
    pub fn count(&self, pass: &mut Pass<V>, value: &V)
        requires turn { pass.old.turn ≡ self.now.turn }
        requires holds { IsSome pass.old.view.out }
        requires once { pass.old.view.flight ≡ None }
        requires entry { (e : _) × (V.entries value.now ≡ pass.old.view.seen ++ e ∷ [])
            × ForSome (V.guest e) (λ m. m ≡ pass.old.view.number) }
        requires room { length (V.entries value.now) < 2 ^ 63 }
        ensures turn { pass.new.turn ≡ pass.old.turn }
        ensures seen { pass.new.view.seen ≡ V.entries value.now }
        ensures pass { (e : _) → V.entries value.now ≡ pass.old.view.seen ++ e ∷ []
            → pass.new.view ≡ with_entry V.guest pass.old.view e }
    {
        self.lock.count(&mut pass.seat, value);
    }

    /// Gives the value and the turn back, to whoever asked next. `ticket` is the ticket that the pass
    /// goes on with, or that it goes on with none; None is to keep the one that it has.
    pub fn give(&self, pass: &mut Pass<V>, value: V, ticket: Option<Option<&V::Ticket>>)
        requires turn { pass.old.turn ≡ self.now.turn }
        requires holds { IsSome pass.old.view.out }
        requires opening { pass.old.view.opening ≡ Some (V.opening value) }
        requires seen { V.entries value ≡ pass.old.view.seen }
        requires tickets { IsReplaced pass.old.view.ticket
            (kept_ticket pass.old.view.ticket ticket) (out_tickets pass.old.view) (V.in_hand value) }
        ensures turn { pass.new.turn ≡ pass.old.turn }
        ensures pass { pass.new.view
            ≡ with_back pass.old.view (kept_ticket pass.old.view.ticket ticket.entry) }
    {
        self.lock.give_as::<Brand>(&mut pass.seat, value, ticket);
    }

    /// Takes a pass back, and keeps what it has seen and done.
    pub fn join(&self, into: &mut Pass<V>, from: Pass<V>)
        requires turn { (into.old.turn ≡ self.now.turn) × (from.turn ≡ self.now.turn) }
        requires first { into.old.view.number ≡ 1 }
        requires from { (from.view.out ≡ None) × (from.view.ticket ≡ None) }
        ensures turn { into.new.turn ≡ into.old.turn }
        ensures pass { into.new.view ≡ with_joined into.old.view from.view }
    {
        let Pass { seat } = from;
        self.lock.join(&mut into.seat, seat);
    }

    /// How many entries there are, without a wait. Others may have counted more since.
    pub fn news(&self, pass: &mut Pass<V>) -> u64
        requires turn { pass.old.turn ≡ self.now.turn }
        ensures turn { pass.new.turn ≡ pass.old.turn }
        ensures pass { pass.new.view ≡ with_known pass.old.view result }
        ensures seen { length pass.old.view.seen ≤ result }
        ensures known { pass.old.view.known ≤ result }
    {
        self.lock.look(&mut pass.seat)
    }

    /// Hands the value out, once every other pass was joined into the first.
    pub fn close(self, pass: Pass<V>) -> V
        requires turn { pass.turn ≡ self.turn }
        requires first { pass.view.number ≡ 1 }
        requires away { pass.view.out ≡ None }
        requires all { pass.view.made ≡ pass.view.joined + 1 }
        ensures opening { pass.view.opening ≡ Some (V.opening result) }
        ensures seen { IsPrefix pass.view.seen (V.entries result) }
        ensures mine { pass.view.mine ≡ steps V.guest pass.view.number (V.entries result) }
        // The list begins with what each joined pass had seen, and has just its steps, in order.
        ensures past { All (StandsIn V.guest (V.entries result)) pass.view.past }
        // They are all the passes that were made but the first.
        ensures none_missing { (n : ℕ) → 1 < n → n ≤ pass.view.made → Any (λ p. p.number ≡ n) pass.view.past }
        ensures tickets { V.in_hand result ≡ as_list pass.view.ticket }
    {
        let Turn { lock, seats: _ } = self;
        let Pass { seat } = pass;
        lock.close(seat)
    }
}
