//! The atomic steps, over a seat of the table.
ghost use Rattle.std.specs.Prelude.{◌++◌, ◌≡◌, ◌%◌, ◌^◌, ℕ, false, None, Some};
ghost use Rattle.std.specs.Prelude.{[], ◌∷◌, true, IfOk, length, ◌+◌, ◌<◌, ◌≤◌};
ghost use Rattle.std.specs.Option.{ForSome};
ghost use Rattle.jr_turn.specs.Views.{with_drawn, with_taken, with_entry, with_given, with_served, with_known, with_made, with_joined, split_off, newcomer, holding, open_tickets};
ghost use Rattle.jr_turn.specs.Passes.{AtRest, knows};
ghost use Rattle.jr_turn.specs.Points.{IsIdle};
ghost use Rattle.jr_turn.specs.Tellings.{IsFound, Fits, IsLast};

use crate::annal::Annal;
use crate::law::{Counts, Draws, Entered, Gives, Handed, Law, Looks, Parts, Serves, Takes};
use crate::view::{SeatOf, ViewOf};
use atomic_table::Table;
use crossbeam_utils::Backoff;
use jr_base::Memory;
use std::alloc::Global;
use std::marker::Brand;
use std::snapshot::Snapshot;
use std::sync::Wait;
use std::thread;

/// The words ticket, serving and count, and the slot with the value.
#[derive(Drop)]
pub struct Lock<V: Annal> {
    pub table: Table<Option<V>, ViewOf<V>, Snapshot<V>, Law, Global>,
    ghost words: { table.shared.table_id.words ≡ 3 },
    ghost slots: { table.shared.table_id.slots ≡ 1 },
}

fn one_slot<V: Drop>(alloc: Global, value: V) -> Result<Vec<Option<V>>, Memory>
    ensures { IfOk result (λ v. v.items ≡ Some value ∷ []) }
{
    let mut slots = Vec::with_capacity(alloc, 1)?;
    slots.push(Some(value))?;
    Ok(slots)
}

impl<V: Annal> Lock<V> {
    pub fn open(alloc: Global, value: V) -> Result<(Lock<V>, SeatOf<V>), Memory>
        requires empty { (V.entries value ≡ []) × (open_tickets V.in_hand V.waiting value ≡ []) }
        ensures seat { IfOk result (λ t. (t.1.table_id ≡ t.0.table.shared.table_id)
            × (t.1.me ≡ (newcomer 1 (Some (V.opening value)) [], []))) }
    {
        let about = Snapshot::of(&value);
        let slots = one_slot(alloc, value)?;
        match Table::new(alloc, &[0, 0, 0], slots, &about) {
            Ok((table, seat)) => Ok((Lock { table }, seat)),
            Err(_) => Err(Memory),
        }
    }

    // Draws a number.
    fn draw(&self, seat: &mut SeatOf<V>) -> u64
        requires table { seat.old.table_id ≡ self.now.table.shared.table_id }
        requires idle { (seat.old.me.0.spent ≡ false) × (seat.old.me.0.drawn ≡ None) }
        ensures seat { (seat.new.table_id ≡ seat.old.table_id) × (seat.new.id ≡ seat.old.id) }
        ensures drawn { (d : ℕ) × (d % 2 ^ 64 ≡ result)
            × (seat.new.me ≡ (with_drawn seat.old.me.0 (Some d), seat.old.me.1)) }
    {
        self.table.shared.fetch_add::<Draws>(seat, 0, 1)
    }

    // Waits until the number is served, and takes the value. The next in line spins for a while before
    // it yields the processor; the others, who have longer to wait, yield it at once.
    fn wait_for<R: Wait>(&self, rt: &R, seat: &mut SeatOf<V>, number: u64) -> V
        requires table { seat.old.table_id ≡ self.now.table.shared.table_id }
        requires idle { (seat.old.me.0.spent ≡ false) × (seat.old.me.0.out ≡ None)
            × (seat.old.me.0.given ≡ false) × (seat.old.me.1 ≡ []) }
        requires drawn { (d : ℕ) × (seat.old.me.0.drawn ≡ Some d) × (d % 2 ^ 64 ≡ number) }
        ensures seat { (seat.new.table_id ≡ seat.old.table_id) × (seat.new.id ≡ seat.old.id) }
        ensures found { IsFound V.opening V.entries V.in_hand V.guest seat.old.me.0 result }
        ensures me { seat.new.me ≡ (
          with_taken seat.old.me.0
              (V.entries result) (V.face result) (V.in_hand result),
          (0, None) ∷ [],
        ) }
    {
        let backoff = Backoff::new();
        for _ in rt.forever() {
            let served = self.table.shared.load::<Takes>(seat, 1);
            if served == number {
                let Some(value) = self.table.shared.exchange(seat, 0, None) else {
                    unreachable!()
                };
                return value;
            }
            if number.wrapping_sub(served) == 1 {
                backoff.snooze();
            } else {
                thread::yield_now();
            }
        }
        unreachable!()
    }

    /// Draws a number, waits for it, and takes the value.
    pub fn take<R: Wait>(&self, rt: &R, seat: &mut SeatOf<V>) -> V
        requires table { seat.old.table_id ≡ self.now.table.shared.table_id }
        requires rest { AtRest seat.old.me }
        requires away { seat.old.me.0.out ≡ None }
        ensures seat { (seat.new.table_id ≡ seat.old.table_id) × (seat.new.id ≡ seat.old.id) }
        ensures rest { AtRest seat.new.me }
        ensures uncounted { (knows seat.new).flight ≡ None }
        ensures found { IsFound V.opening V.entries V.in_hand V.guest (knows seat.old) result }
        ensures view { knows seat.new
            ≡ with_taken (knows seat.old) (V.entries result) (V.face result) (V.in_hand result) }
    {
        let number = self.draw(seat);
        self.wait_for(rt, seat, number)
    }

    // Counts the entry that G names.
    fn count_as<G: Entered<V::Entry>>(&self, seat: &mut SeatOf<V>, value: &V)
        requires table { seat.old.table_id ≡ self.now.table.shared.table_id }
        requires holds { (seat.old.me.0.spent ≡ false) × (holding seat.old.me.0 ≡ true)
            × (seat.old.me.0.flight ≡ None) }
        requires entry { (e : _) × (G.entry ≡ Some e)
            × ForSome (V.guest e) (λ m. m ≡ seat.old.me.0.number) }
        requires room { length seat.old.me.0.seen + 1 < 2 ^ 63 }
        ensures seat { (seat.new.table_id ≡ seat.old.table_id) × (seat.new.id ≡ seat.old.id) }
        ensures counted { (e : _) → G.entry ≡ Some e
            → seat.new.me ≡ (with_entry V.guest seat.old.me.0 e, seat.old.me.1) }
    {
        let _ = value;
        self.table.shared.fetch_add::<Counts<G>>(seat, 2, 1);
    }

    /// Counts the last entry of the value.
    pub fn count(&self, seat: &mut SeatOf<V>, value: &V)
        requires table { seat.old.table_id ≡ self.now.table.shared.table_id }
        requires rest { AtRest seat.old.me }
        requires holds { (holding (knows seat.old) ≡ true) × ((knows seat.old).flight ≡ None) }
        requires entry { (e : _) × (V.entries value.now ≡ (knows seat.old).seen ++ e ∷ [])
            × ForSome (V.guest e) (λ m. m ≡ (knows seat.old).number) }
        requires room { length (V.entries value.now) < 2 ^ 63 }
        ensures seat { seat.new.table_id ≡ seat.old.table_id }
        ensures rest { AtRest seat.new.me }
        ensures counted { (e : _) → V.entries value.now ≡ (knows seat.old).seen ++ e ∷ []
            → knows seat.new ≡ with_entry V.guest (knows seat.old) e }
    {
        self.count_as::<Brand>(seat, value);
    }

    /// Gives the value back, and serves the next. The pass goes on with the ticket that G names.
    pub fn give_as<G: Handed<V::Ticket>>(
        &self,
        seat: &mut SeatOf<V>,
        value: V,
        ticket: Option<Option<&V::Ticket>>,
    )
        requires table { seat.old.table_id ≡ self.now.table.shared.table_id }
        requires holds { (seat.old.me.0.spent ≡ false) × (holding seat.old.me.0 ≡ true)
            × (seat.old.me.1 ≡ (0, None) ∷ []) }
        requires fits { Fits V.opening V.entries V.in_hand seat.old.me.0 G.ticket value }
        ensures seat { (seat.new.table_id ≡ seat.old.table_id) × (seat.new.id ≡ seat.old.id) }
        ensures me { seat.new.me ≡ (with_served (with_given seat.old.me.0 G.ticket), []) }
    {
        let _ = ticket;
        let None = self.table.shared.exchange(seat, 0, Some(value)) else {
            unreachable!()
        };
        self.table.shared.load::<Gives<G>>(seat, 1);
        self.table.shared.fetch_add::<Serves>(seat, 1, 1);
    }

    /// Splits a seat off the first one.
    pub fn split(&self, seat: &mut SeatOf<V>) -> SeatOf<V>
        requires table { seat.old.table_id ≡ self.now.table.shared.table_id }
        requires first { (seat.old.me.0.spent ≡ false) × (seat.old.me.0.number ≡ 1) }
        requires room { seat.old.me.0.made + 1 < 2 ^ 32 }
        ensures seat { (seat.new.table_id ≡ seat.old.table_id) × (seat.new.id ≡ seat.old.id)
            × (seat.new.me ≡ (with_made seat.old.me.0, seat.old.me.1)) }
        ensures new { (result.table_id ≡ seat.old.table_id)
            × (result.me ≡ (split_off seat.old.me.0, [])) }
    {
        self.table.shared.split_seat::<Parts>(seat)
    }

    /// Joins a seat into the first one.
    pub fn join(&self, seat: &mut SeatOf<V>, other: SeatOf<V>)
        requires table { (seat.old.table_id ≡ self.now.table.shared.table_id)
            × (other.table_id ≡ self.now.table.shared.table_id) }
        requires first { (seat.old.me.0.spent ≡ false) × (seat.old.me.0.number ≡ 1) }
        requires other { (other.me.0.spent ≡ false) × IsIdle other.me.0 × (other.me.1 ≡ []) }
        ensures seat { (seat.new.table_id ≡ seat.old.table_id) × (seat.new.id ≡ seat.old.id)
            × (seat.new.me ≡ (with_joined seat.old.me.0 other.me.0, seat.old.me.1)) }
    {
        self.table.shared.join_seat::<Parts>(seat, other);
    }

    /// Loads the count.
    pub fn look(&self, seat: &mut SeatOf<V>) -> u64
        requires table { seat.old.table_id ≡ self.now.table.shared.table_id }
        requires live { seat.old.me.0.spent ≡ false }
        ensures seat { (seat.new.table_id ≡ seat.old.table_id) × (seat.new.id ≡ seat.old.id) }
        ensures me { seat.new.me ≡ (with_known seat.old.me.0 result, seat.old.me.1) }
        ensures covers { (length seat.old.me.0.seen ≤ result) × (seat.old.me.0.known ≤ result) }
    {
        self.table.shared.load::<Looks>(seat, 2)
    }

    /// Takes the value out, when the first seat is the last.
    pub fn close(self, seat: SeatOf<V>) -> V
        requires table { seat.table_id ≡ self.table.shared.table_id }
        requires first { (seat.me.0.spent ≡ false) × (seat.me.0.number ≡ 1)
            × (seat.me.0.made ≡ seat.me.0.joined + 1) × (seat.me.0.out ≡ None) }
        ensures { IsLast V.opening V.entries V.in_hand V.guest seat.me.0 result }
    {
        let Lock { table } = self;
        let mut closed = table.close_with(seat);
        let Some(value) = closed.take(0) else {
            unreachable!()
        };
        closed.free();
        value
    }
}
