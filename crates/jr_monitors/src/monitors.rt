//! The monitors and the threads of a run.

ghost use Rattle.std.specs.Prelude.{◌≡◌, ◌↔◌, ◌+◌, ◌%◌, ◌<◌, ◌≤◌, ◌&&◌, Some, None, IsSome, IsTrue, OnOk, IfOk, IfSome, false, is_some, length, not, option_map, slice_get};
ghost use Rattle.jr_base.specs.Deed.{Deed, deed_of, Notify};
ghost use Rattle.jr_base.specs.declared.number.ObjId.{ObjId as Object};
ghost use Rattle.jr_base.specs.declared.number.GuestNo.{GuestNo as Number};
ghost use Rattle.jr_base.specs.declared.action.Reply.TheVariants.{Unit, Woke};
ghost use Rattle.jr_base.specs.declared.finish.LimitKind.TheVariants.{Held};
ghost use Rattle.jr_program.specs.Programs.{Program, numbered};
ghost use Rattle.jr_meaning.specs.Limits.{limit_of};
ghost use Rattle.jr_meaning.specs.World.{World, Waiter, start_world, is_live, guest_at, guest_of};
ghost use Rattle.jr_meaning.specs.Machine.{Allows, Answers, after, enter, exit, holds, is_ready, is_timed_waiter, is_waiting, locks_of, mark_ended, may_enter, may_join, may_resume, notify, notify_all, notify_answer, owner_reply, owns, resume, start, start_reply, wait, waits, waits_on, wake};
ghost use Rattle.jr_monitors.specs.declared.member.Owner.{Owner as OwnerOf};
ghost use Rattle.jr_monitors.specs.Roster.{world_of, parked_of, deed_at, depth_for, hold_in, kept_in, locks_in, monitor_in, owner_in, waiter_at, waiters_from, Fits, IsAwakeFor, MayEnter, MayStart, Owning, Owns, Stays};
ghost use Rattle.jr_monitors.specs.Stands.{StandsFor, Agree, EntersAnObject, AllStuck, IsStuck, IsPicked, KeepsRest, Parks, completed};

use crate::member::{Member, Owner, Parked, Stage, Stay};
use crate::members::Members;
use crate::owners::Owners;
use jr_base::{Action, GuestNo, Locks, Memory, ObjId, Reply};
use std::alloc::Global;
use std::marker::Model;

#[cfg(test)]
mod tests;

/// The monitors of a run, their wait sets, and the threads that were started (JLS 14.19, 17.1, 17.2).
///
/// It stands for the world of the definitions as far as monitors and threads go (`StandsFor`): an action is ready, is
/// replied, and changes what is kept as the machine has it. Only monitors that are owned are kept, and a wait set
/// is those threads that wait for its object. So no call takes time in the number of objects: a call looks up a monitor
/// by its hash, and passes over the threads, at most 16, or over the monitors that one of them owns, at most 64.
/// Only `new` and `reserve` take memory.
///
/// Contracts see the owners by object, the objects that each thread owns, the threads, and the room.
#[derive(Drop)]
pub struct Monitors {
    owned: Owners,
    members: Members,
}

impl Model for Monitors {
    ghost use Rattle.jr_monitors.specs.Roster.{Roster, AreApart};

    ghost Value = { Roster };

    ghost view = { λ m. record { owned = m.owned; members = m.members } };

    ghost invariant = { λ m. AreApart m.owned.owners m.members };
}

impl Monitors {
    /// As a run starts: thread 1 lives, no monitor is owned, and nobody waits.
    pub fn new(alloc: Global) -> Result<Monitors, Memory>
        ensures start { IfOk result (λ monitors. (program : Program) → StandsFor monitors (start_world program)) }
        ensures parked { IfOk result (λ monitors. (guest : Number) → parked_of monitors guest ≡ None) }
    {
        let mut members = Members::none();
        members.push(Member::default());
        Ok(Monitors {
            owned: Owners::new(alloc)?,
            members,
        })
    }

    /// Makes room for so many more monitors to be owned: a step needs room for one. `Memory` leaves all but the room as
    /// it was.
    pub fn reserve(&mut self, objects: u32) -> Result<(), Memory>
        ensures room { OnOk result (objects ≤ self.new.owned.spare) }
        ensures spare { self.old.owned.spare ≤ self.new.owned.spare }
        ensures same { self.new ≡ record self.old { owned = record self.old.owned { spare = self.new.owned.spare } } }
    {
        self.owned.reserve(objects)
    }

    /// Whether a thread's action may be made now.
    pub fn ready(&self, guest: GuestNo, action: &Action) -> bool
        ensures ready { (world : World) → StandsFor self.now world → result ≡ is_ready world guest (deed_of action.now) }
        ensures own { result ≡ is_ready (world_of self.now) guest (deed_of action.now) }
    {
        match action {
            Action::Enter(object, _) => self.may_enter(guest, *object),
            Action::Resume(object) => self.may_resume(guest, *object),
            Action::Join(object) => self.may_join(*object),
            _ => true,
        }
    }

    /// Makes a thread's step, and gives the machine's reply. A Notify wakes the waiter at index `pick`, modulo how many
    /// there are, in rising order. What the heap answers is replied `Unit`, and a thread that is started is given
    /// no body: the caller has both. The thread is no longer parked.
    pub fn apply(&mut self, guest: GuestNo, action: &Action, pick: u32) -> Reply
        requires live { IsTrue (is_live (world_of self.old) guest) }
        requires ready { IsTrue (is_ready (world_of self.old) guest (deed_of action.now)) }
        requires awake { IsAwakeFor (world_of self.old) guest (deed_of action.now) }
        requires fits { Fits self.old guest (deed_of action.now) }
        requires room { 0 < self.old.owned.spare }
        ensures answer { (program : Program) (world : World) → StandsFor self.old world → Answers program world guest (deed_of action.now) (completed program world (deed_of action.now) result) }
        ensures after { (program : Program) (world : World) → StandsFor self.old world → EntersAnObject world (deed_of action.now) → StandsFor self.new (after program world guest (deed_of action.now) (completed program world (deed_of action.now) result)) }
        ensures picked { (world : World) → StandsFor self.old world → (object : Object) (woken : Number) → deed_of action.now ≡ Notify object → result ≡ Woke woken → IsPicked pick (world.monitors object).waiting woken }
        ensures parked { Parks self.old guest None self.new }
        ensures spare { self.old.owned.spare ≤ self.new.owned.spare + 1 }
    {
        self.park_at(guest, None);
        self.step(guest, action, pick)
    }

    /// Whether each live thread is parked at an action that isn't ready, and none of them waits for some time only.
    pub fn all_stuck(&self) -> bool
        ensures { (world : World) → StandsFor self.now world → IsTrue result ↔ AllStuck self.now world }
    {
        let mut number = 0;
        for member in self.members.as_slice() {
            number += 1;
            if !self.rests(GuestNo(number), *member) {
                return false;
            }
        }
        true
    }

    /// The objects whose monitors a thread owns.
    pub fn locks(&self, guest: GuestNo) -> Locks
        ensures { (world : World) → StandsFor self.now world → result ≡ locks_of world guest }
    {
        self.owned.locks(guest)
    }

    /// Parks a thread at an action that isn't ready.
    pub fn park(&mut self, guest: GuestNo, action: &Action)
        requires live { IsTrue (is_live (world_of self.old) guest) }
        requires blocked { is_ready (world_of self.old) guest (deed_of action.now) ≡ false }
        ensures parked { Parks self.old guest (Some (deed_of action.now)) self.new }
        ensures same { (world : World) → StandsFor self.old world → StandsFor self.new world }
        ensures spare { self.new.owned ≡ self.old.owned }
    {
        self.park_at(guest, Parked::at(action));
    }

    /// Whether a thread is in a wait set for some time only.
    pub fn timed(&self, guest: GuestNo) -> bool
        ensures { (world : World) → StandsFor self.now world → result ≡ is_timed_waiter world guest }
    {
        match self.members.get(guest) {
            Some(member) => member.is_timed(),
            None => false,
        }
    }

    /// The object in whose wait set a thread is, if it is in one. It doesn't own the monitor.
    pub fn waits(&self, guest: GuestNo) -> Option<ObjId>
        ensures waits { (world : World) → StandsFor self.now world → result ≡ waits_on world guest }
        ensures owns_nothing { IfSome result (λ object. owns (world_of self.now) guest object ≡ false) }
    {
        match self.members.get(guest) {
            Some(member) => member.waits(),
            None => None,
        }
    }

    /// A thread leaves the wait set that it is in, though nobody notified it (JLS 17.2.1).
    pub fn wake(&mut self, guest: GuestNo)
        requires waits { (object : Object) × IsTrue (waits (world_of self.old) guest object) }
        ensures after { (world : World) → StandsFor self.old world → StandsFor self.new (wake world guest) }
        ensures parked { (other : Number) → parked_of self.new other ≡ parked_of self.old other }
        ensures spare { self.new.owned ≡ self.old.owned }
    {
        self.rouse(guest);
    }

    // ---- what is asked

    // Nobody owns the monitor, or that thread does.
    fn may_enter(&self, guest: GuestNo, object: ObjId) -> bool
        ensures { result ≡ may_enter guest (hold_in self.now.owned.owners object) }
    {
        match self.owned.owner(object) {
            Some(owner) => owner.guest == guest,
            None => true,
        }
    }

    // The thread has waited, was woken, and nobody owns the monitor.
    fn may_resume(&self, guest: GuestNo, object: ObjId) -> bool
        ensures { result ≡ may_resume guest (monitor_in self.now object) }
    {
        match self.owned.owner(object) {
            Some(_) => false,
            None => self.was_woken(guest, object),
        }
    }

    // The thread keeps a depth for the object, and is out of its wait set.
    fn was_woken(&self, guest: GuestNo, object: ObjId) -> bool
        ensures { result ≡ (is_some (kept_in self.now.members object guest) && not (is_waiting guest (waiters_from 1 object self.now.members))) }
    {
        match self.members.get(guest) {
            Some(member) => member.is_woken_on(object),
            None => false,
        }
    }

    // The Thread object was never started, or its thread has ended.
    fn may_join(&self, object: ObjId) -> bool
        ensures { result ≡ may_join (world_of self.now) object }
    {
        match self.members.run_of(object) {
            Some(member) => member.ended,
            None => true,
        }
    }

    // Whether the action at which a thread is parked may be made now.
    fn parked_ready(&self, guest: GuestNo, parked: Parked) -> bool
        ensures { result ≡ is_ready (world_of self.now) guest (deed_at parked) }
    {
        match parked {
            Parked::Enter(object, _) => self.may_enter(guest, object),
            Parked::Resume(object) => self.may_resume(guest, object),
            Parked::Join(object) => self.may_join(object),
        }
    }

    // Whether a thread has ended, or is stuck.
    fn rests(&self, guest: GuestNo, member: Member) -> bool
        requires { numbered self.now.members guest.0 ≡ Some member }
        ensures { (world : World) → StandsFor self.now world → IsTrue result ↔ (IsTrue (is_live world guest) → IsStuck self.now world guest) }
    {
        if member.ended {
            return true;
        }
        match member.parked {
            Some(parked) => !self.parked_ready(guest, parked) && !member.is_timed(),
            None => false,
        }
    }

    // How often a thread owns a monitor, if it does.
    fn depth(&self, guest: GuestNo, object: ObjId) -> Option<u32>
        ensures { Owning guest (owner_in self.now.owned.owners object) result }
    {
        match self.owned.owner(object) {
            Some(owner) if owner.guest == guest => Some(owner.depth),
            _ => None,
        }
    }

    // ---- what changes

    // A thread is parked so from now on.
    fn park_at(&mut self, guest: GuestNo, parked: Option<Parked>)
        requires { IsTrue (is_live (world_of self.old) guest) }
        ensures parked { Parks self.old guest (option_map deed_at parked) self.new }
        ensures owned { self.new.owned ≡ self.old.owned }
        ensures world { Agree (world_of self.new) (world_of self.old) }
        ensures few { length self.new.members ≤ 16 }
    {
        if let Some(member) = self.members.get(guest) {
            self.members.set(guest, Member { parked, ..member });
        }
    }

    // A step of a thread.
    fn step(&mut self, guest: GuestNo, action: &Action, pick: u32) -> Reply
        requires live { IsTrue (is_live (world_of self.old) guest) }
        requires ready { IsTrue (is_ready (world_of self.old) guest (deed_of action.now)) }
        requires awake { IsAwakeFor (world_of self.old) guest (deed_of action.now) }
        requires fits { Fits self.old guest (deed_of action.now) }
        requires room { 0 < self.old.owned.spare }
        requires few { length self.old.members ≤ 16 }
        ensures answer { (program : Program) → Answers program (world_of self.old) guest (deed_of action.now) (completed program (world_of self.old) (deed_of action.now) result) }
        ensures after { (program : Program) → Agree (world_of self.new) (after program (world_of self.old) guest (deed_of action.now) result) }
        ensures picked { (object : Object) (woken : Number) → deed_of action.now ≡ Notify object → result ≡ Woke woken → IsPicked pick (waiters_from 1 object self.old.members) woken }
        ensures rest { KeepsRest self.old self.new }
    {
        match action {
            Action::Enter(object, _) => self.enter(guest, *object),
            Action::Exit(object) => self.exit(guest, *object),
            Action::Wait(object) => self.wait(guest, *object, Stage::Waits),
            Action::TimedWait(object) => self.wait(guest, *object, Stage::WaitsForTime),
            Action::Resume(object) => self.resume(guest, *object),
            Action::Notify(object) => self.notify(guest, *object, pick),
            Action::NotifyAll(object) => self.notify_all(guest, *object),
            Action::Start(object) => self.start(*object),
            Action::End(_) => self.end(guest),
            _ => Reply::Unit,
        }
    }

    // A thread takes a monitor that nobody else owns.
    fn enter(&mut self, guest: GuestNo, object: ObjId) -> Reply
        requires live { IsTrue (is_live (world_of self.old) guest) }
        requires ready { IsTrue (may_enter guest (hold_in self.old.owned.owners object)) }
        requires awake { kept_in self.old.members object guest ≡ None }
        requires fits { MayEnter (locks_in self.old guest) (hold_in self.old.owned.owners object) }
        requires room { 0 < self.old.owned.spare }
        requires few { length self.old.members ≤ 16 }
        ensures reply { result ≡ Unit }
        ensures after { Agree (world_of self.new) (enter (world_of self.old) guest object (monitor_in self.old object)) }
        ensures rest { KeepsRest self.old self.new }
    {
        match self.depth(guest, object) {
            Some(depth) => {
                let depth = depth + 1;
                self.owned.own(object, Owner { guest, depth });
            }
            None => self.owned.take(guest, object, 1),
        }
        Reply::Unit
    }

    // A thread that owns a monitor has it once less.
    fn exit(&mut self, guest: GuestNo, object: ObjId) -> Reply
        ensures reply { result ≡ Unit }
        ensures after { Agree (world_of self.new) (exit (world_of self.old) guest object (monitor_in self.old object)) }
        ensures rest { KeepsRest self.old self.new }
    {
        match self.depth(guest, object) {
            Some(depth) if depth > 1 => {
                let depth = depth - 1;
                self.owned.own(object, Owner { guest, depth });
            }
            Some(_) => self.owned.leave(guest, object),
            None => {}
        }
        Reply::Unit
    }

    // The owner gives the monitor up, and is in the wait set.
    fn wait(&mut self, guest: GuestNo, object: ObjId, stage: Stage) -> Reply
        requires live { IsTrue (is_live (world_of self.old) guest) }
        requires awake { (o : Object) → kept_in self.old.members o guest ≡ None }
        requires stage { IsSome (waiter_at guest stage) }
        ensures reply { result ≡ owner_reply (owns (world_of self.old) guest object) }
        ensures after { (w : Waiter) → waiter_at guest stage ≡ Some w → Agree (world_of self.new) (wait (world_of self.old) w object (monitor_in self.old object) (hold_in self.old.owned.owners object) result) }
        ensures rest { KeepsRest self.old self.new }
    {
        let Some(depth) = self.depth(guest, object) else {
            return Reply::Illegal;
        };
        self.give_up(guest, object);
        let stay = Stay {
            object,
            depth,
            stage,
        };
        self.stay(guest, Some(stay));
        Reply::Unit
    }

    // The owner gives the monitor up, however often it has entered.
    fn give_up(&mut self, guest: GuestNo, object: ObjId)
        requires { (was : OwnerOf) × (owner_in self.old.owned.owners object ≡ Some was) × (was.guest ≡ guest) }
        ensures free { Owns self.old.owned.owners object None self.new.owned.owners }
        ensures members { self.new.members ≡ self.old.members }
        ensures spare { self.old.owned.spare ≤ self.new.owned.spare }
    {
        self.owned.leave(guest, object);
    }

    // A thread that was woken owns the monitor again, as often as before it waited.
    fn resume(&mut self, guest: GuestNo, object: ObjId) -> Reply
        requires live { IsTrue (is_live (world_of self.old) guest) }
        requires ready { IsTrue (may_resume guest (monitor_in self.old object)) }
        requires fits { length (locks_in self.old guest) < limit_of Held }
        requires room { 0 < self.old.owned.spare }
        requires few { length self.old.members ≤ 16 }
        ensures reply { result ≡ Unit }
        ensures after { Agree (world_of self.new) (resume (world_of self.old) guest object (monitor_in self.old object) (kept_in self.old.members object guest)) }
        ensures rest { KeepsRest self.old self.new }
    {
        if let Some(stay) = self.members.stay(guest) {
            self.stay(guest, None);
            self.owned.take(guest, object, stay.depth);
        }
        Reply::Unit
    }

    // A thread's stay is from now on so.
    fn stay(&mut self, guest: GuestNo, stay: Option<Stay>)
        requires there { IsSome (numbered self.old.members guest.0) }
        requires apart { (o : Object) → IsSome (depth_for o stay) → holds guest (hold_in self.old.owned.owners o) ≡ false }
        ensures stays { Stays self.old.members guest stay self.new.members }
        ensures owned { self.new.owned ≡ self.old.owned }
    {
        if let Some(member) = self.members.get(guest) {
            self.members.set(guest, Member { stay, ..member });
        }
    }

    // A thread leaves its wait set.
    fn rouse(&mut self, guest: GuestNo)
        ensures after { Agree (world_of self.new) (wake (world_of self.old) guest) }
        ensures owned { self.new.owned ≡ self.old.owned }
        ensures rest { KeepsRest self.old self.new }
    {
        if let Some(member) = self.members.get(guest) {
            if let Some(stay) = member.stay {
                self.stay(guest, Some(stay.woken()));
            }
        }
    }

    // The owner wakes one of the wait set, if there is one.
    fn notify(&mut self, guest: GuestNo, object: ObjId, pick: u32) -> Reply
        ensures answer { Allows (notify_answer (owns (world_of self.old) guest object) (waiters_from 1 object self.old.members)) result }
        ensures after { Agree (world_of self.new) (notify (world_of self.old) object (monitor_in self.old object) result) }
        ensures picked { (woken : Number) → result ≡ Woke woken → IsPicked pick (waiters_from 1 object self.old.members) woken }
        ensures rest { KeepsRest self.old self.new }
    {
        if self.depth(guest, object).is_none() {
            return Reply::Illegal;
        }
        let waiters = self.members.waiters(object);
        if waiters.is_empty() {
            return Reply::Nobody;
        }
        let woken = GuestNo(picked(waiters.as_slice(), pick));
        self.rouse(woken);
        Reply::Woke(woken)
    }

    // The owner empties the wait set.
    fn notify_all(&mut self, guest: GuestNo, object: ObjId) -> Reply
        ensures reply { result ≡ owner_reply (owns (world_of self.old) guest object) }
        ensures after { Agree (world_of self.new) (notify_all (world_of self.old) object (monitor_in self.old object) result) }
        ensures rest { KeepsRest self.old self.new }
    {
        if self.depth(guest, object).is_none() {
            return Reply::Illegal;
        }
        self.members.wake_all(object);
        Reply::Unit
    }

    // A thread more, unless the object was started before.
    fn start(&mut self, object: ObjId) -> Reply
        requires { MayStart (length self.old.members) (guest_of (world_of self.old) object) }
        ensures reply { (program : Program) → result ≡ start_reply program (world_of self.old) object }
        ensures after { Agree (world_of self.new) (start (world_of self.old) object result) }
        ensures rest { KeepsRest self.old self.new }
    {
        if self.members.run_of(object).is_some() {
            return Reply::Illegal;
        }
        let started = self.members.push(Member {
            object: Some(object),
            ended: false,
            parked: None,
            stay: None,
        });
        Reply::Started(started, None)
    }

    // A thread has ended.
    fn end(&mut self, guest: GuestNo) -> Reply
        ensures reply { result ≡ Unit }
        ensures after { Agree (world_of self.new) (mark_ended (world_of self.old) guest (guest_at (world_of self.old) guest)) }
        ensures rest { KeepsRest self.old self.new }
    {
        if let Some(member) = self.members.get(guest) {
            let ended = Member {
                ended: true,
                ..member
            };
            self.members.set(guest, ended);
        }
        Reply::Unit
    }
}

// The number at that index, modulo how many there are.
fn picked(numbers: &[u32], pick: u32) -> u32
    requires { 0 < length numbers.now }
    ensures { slice_get numbers.now (pick % length numbers.now) ≡ Some result }
{
    numbers[pick as usize % numbers.len()]
}
