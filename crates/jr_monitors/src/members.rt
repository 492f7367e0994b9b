//! The threads that were started.

ghost use Rattle.std.specs.Prelude.{◌≡◌, ◌-◌, ◌+◌, ◌<◌, ◌≤◌, ◌++◌, ◌∷◌, [], Some, None, IsSome, length, map, find, slice_set};
ghost use Rattle.jr_program.specs.Programs.{numbered};
ghost use Rattle.jr_meaning.specs.World.{Waiter as WaiterOf};
ghost use Rattle.jr_monitors.specs.declared.member.Member.{Member as MemberOf};
ghost use Rattle.jr_monitors.specs.Roster.{is_run_of, waiters_from, woken_on};

use crate::member::{Member, Stay};
use arrayvec::ArrayVec;
use jr_base::{GuestNo, ObjId};
use std::marker::Model;

/// The threads that were started, by their numbers: at most 16. A wait set is those of them that wait for its object.
///
/// Contracts see the list, number 1 first.
#[derive(Drop)]
pub struct Members {
    members: ArrayVec<Member, 16>,
}

impl Model for Members {
    ghost use Rattle.std.specs.Prelude.{◌≤◌, List, length};
    ghost use Rattle.jr_monitors.specs.declared.member.Member.{Member as MemberOf};

    ghost Value = { List MemberOf };

    ghost view = { λ m. m.members.items };

    ghost invariant = { λ m. length m.members.items ≤ 16 };
}

impl Members {
    /// No thread.
    pub fn none() -> Members
        ensures { result ≡ [] }
    {
        Members {
            members: ArrayVec::new(),
        }
    }

    /// The thread of that number, if it was started.
    pub fn get(&self, guest: GuestNo) -> Option<Member>
        ensures member { result ≡ numbered self.now guest.0 }
        ensures few { length self.now ≤ 16 }
    {
        match guest.0 {
            0 => None,
            number => self.members.get(number as usize - 1).copied(),
        }
    }

    /// The stay of a thread, if it was started and has one.
    pub fn stay(&self, guest: GuestNo) -> Option<Stay>
        ensures stay { (member : MemberOf) → numbered self.now guest.0 ≡ Some member → result ≡ member.stay }
        ensures none { numbered self.now guest.0 ≡ None → result ≡ None }
    {
        match self.get(guest) {
            Some(member) => member.stay,
            None => None,
        }
    }

    /// All of them, in order.
    pub fn as_slice(&self) -> &[Member]
        ensures members { result.now ≡ self.now }
        ensures few { length self.now ≤ 16 }
    {
        self.members.as_slice()
    }

    /// A thread is from now on as it is given.
    pub fn set(&mut self, guest: GuestNo, member: Member)
        requires { IsSome (numbered self.old guest.0) }
        ensures { self.new ≡ slice_set self.old (guest.0 - 1) member }
    {
        self.members[guest.0 as usize - 1] = member;
    }

    /// A thread more, which has the number behind all others.
    pub fn push(&mut self, member: Member) -> GuestNo
        requires { length self.old < 16 }
        ensures members { self.new ≡ self.old ++ member ∷ [] }
        ensures number { result.0 ≡ length self.old + 1 }
    {
        self.members.push(member);
        GuestNo(self.members.len() as u32)
    }

    /// The thread of a Thread object, if it was started.
    pub fn run_of(&self, object: ObjId) -> Option<Member>
        ensures { result ≡ find (is_run_of object) self.now }
    {
        for member in self.members.as_slice() {
            if member.object == Some(object) {
                return Some(*member);
            }
        }
        None
    }

    /// The numbers of the threads in the wait set of an object, in rising order.
    pub fn waiters(&self, object: ObjId) -> ArrayVec<u32, 16>
        ensures { result.items ≡ map (λ (w : WaiterOf). w.guest.0) (waiters_from 1 object self.now) }
    {
        let mut waiters = ArrayVec::new();
        let mut number = 0;
        for member in self.members.as_slice() {
            number += 1;
            if member.waits_on(object) {
                waiters.push(number);
            }
        }
        waiters
    }

    /// The wait set of an object is emptied.
    pub fn wake_all(&mut self, object: ObjId)
        ensures { self.new ≡ map (woken_on object) self.old }
    {
        for at in 0..self.members.len() {
            self.members[at] = self.members[at].woken_on(object);
        }
    }
}
