//! Who owns which monitor.

ghost use Rattle.std.specs.Prelude.{◌≡◌, ◌↔◌, ◌+◌, ◌<◌, ◌≤◌, Some, None, IsSome, IsTrue, OnOk, IfOk, Contains, length};
ghost use Rattle.indexmap.specs.IndexMap.{spare};
ghost use Rattle.jr_base.specs.Rising.{IsRising};
ghost use Rattle.jr_base.specs.declared.number.ObjId.{ObjId as Object};
ghost use Rattle.jr_meaning.specs.Machine.{holds};
ghost use Rattle.jr_monitors.specs.declared.member.Owner.{Owner as OwnerOf};
ghost use Rattle.jr_monitors.specs.Roster.{hold_in, owner_in, locks_at, Owns, Without};

use crate::member::Owner;
use indexmap::IndexMap;
use jr_base::{GuestNo, Locks, Memory, ObjId};
use std::alloc::Global;
use std::marker::Model;

/// The monitors that are owned (JLS 17.1): their owners by the object, and the objects by the owner. A monitor that
/// nobody owns is not kept.
#[derive(Drop)]
pub struct Owners {
    owners: IndexMap<u32, Owner>,
    locks: Vec<Locks>,
}

impl Model for Owners {
    ghost use Rattle.indexmap.specs.IndexMap.{spare};
    ghost use Rattle.jr_monitors.specs.Roster.{Owned, AreLocks};

    ghost Value = { Owned };

    ghost view = { λ o. record { owners = o.owners.entries; locks = o.locks.items; spare = spare o.owners } };

    ghost invariant = { λ o. AreLocks o.owners.entries o.locks.items };
}

// How many threads there may be.
const GUESTS: usize = 16;

impl Owners {
    /// Nobody owns a monitor.
    pub fn new(alloc: Global) -> Result<Owners, Memory>
        ensures { IfOk result (λ owners. (object : Object) → owner_in owners.owners object ≡ None) }
    {
        let mut locks = Vec::with_capacity(alloc, GUESTS)?;
        for _ in 0..GUESTS {
            locks.push_reserved(Locks::none());
        }
        Ok(Owners {
            owners: IndexMap::new(alloc),
            locks,
        })
    }

    /// Makes room for so many more monitors that are owned.
    pub fn reserve(&mut self, objects: u32) -> Result<(), Memory>
        ensures owners { self.new.owners ≡ self.old.owners }
        ensures locks { self.new.locks ≡ self.old.locks }
        ensures room { OnOk result (objects ≤ self.new.spare) }
        ensures spare { self.old.spare ≤ self.new.spare }
    {
        self.owners.reserve(objects as usize)?;
        Ok(())
    }

    /// Who owns a monitor, if anybody does.
    pub fn owner(&self, object: ObjId) -> Option<Owner>
        ensures { result ≡ owner_in self.now.owners object }
    {
        self.owners.get(&object.0).copied()
    }

    /// The objects whose monitors a thread owns.
    pub fn locks(&self, guest: GuestNo) -> Locks
        ensures locks { result ≡ locks_at self.now.locks guest }
        ensures rising { IsRising result }
        ensures owned { (object : Object) → Contains result object ↔ IsTrue (holds guest (hold_in self.now.owners object)) }
    {
        match guest.0 {
            1..=16 => copy(&self.locks[guest.0 as usize - 1]),
            _ => Locks::none(),
        }
    }

    /// A thread owns a monitor that nobody owned.
    pub fn take(&mut self, guest: GuestNo, object: ObjId, depth: u32)
        requires free { owner_in self.old.owners object ≡ None }
        requires first { 1 ≤ guest.0 }
        requires last { guest.0 ≤ 16 }
        requires few { length (locks_at self.old.locks guest) < 64 }
        requires spare { 0 < self.old.spare }
        ensures owner { Owns self.old.owners object (Some (record { guest = guest; depth = depth })) self.new.owners }
        ensures spare { self.old.spare ≤ self.new.spare + 1 }
    {
        match self.owners.insert(object.0, Owner { guest, depth }) {
            Ok(_) => {}
            Err(_) => unreachable!(),
        }
        self.locks[guest.0 as usize - 1].add(object);
    }

    /// The owner of a monitor owns it so many times from now on.
    pub fn own(&mut self, object: ObjId, owner: Owner)
        requires same { (was : OwnerOf) × (owner_in self.old.owners object ≡ Some was) × (was.guest ≡ owner.guest) }
        ensures owner { Owns self.old.owners object (Some owner) self.new.owners }
        ensures spare { self.new.spare ≡ self.old.spare }
    {
        put(&mut self.owners, object, owner);
    }

    /// The owner of a monitor gives it up.
    pub fn leave(&mut self, guest: GuestNo, object: ObjId)
        requires owned { (was : OwnerOf) × (owner_in self.old.owners object ≡ Some was) × (was.guest ≡ guest) }
        ensures owner { Owns self.old.owners object None self.new.owners }
        ensures spare { self.old.spare ≤ self.new.spare }
    {
        self.owners.swap_remove(&object.0);
        let at = guest.0 as usize - 1;
        self.locks[at] = without(&self.locks[at], object);
    }
}

// Puts an owner in the place of another.
fn put(owners: &mut IndexMap<u32, Owner>, object: ObjId, owner: Owner)
    requires { IsSome (owner_in owners.old.entries object) }
    ensures owner { Owns owners.old.entries object (Some owner) owners.new.entries }
    ensures spare { spare owners.new ≡ spare owners.old }
{
    if let Some(kept) = owners.get_mut(&object.0) {
        *kept = owner;
    }
}

// The same locks.
fn copy(locks: &Locks) -> Locks
    ensures { result ≡ locks.now }
{
    let mut copy = Locks::none();
    for object in locks.as_slice() {
        copy.add(*object);
    }
    copy
}

// The locks but for one object.
fn without(locks: &Locks, object: ObjId) -> Locks
    ensures { Without locks.now object result }
{
    let mut left = Locks::none();
    for other in locks.as_slice() {
        if *other != object {
            left.add(*other);
        }
    }
    left
}
