//! The locals of a call.

ghost use Rattle.std.specs.Prelude.{◌≡◌, ◌∷◌, ◌++◌, [], map, length, drop, take, slice_get, slice_set, OnOk, IfOk};
ghost use Rattle.jr_base.specs.Content.{Holds, unset};
ghost use Rattle.jr_base.specs.Threads.{fault_at, value_at};
ghost use Rattle.jr_code.specs.Machine.{content_in, this_local, value_of_content};

use crate::slot::{Slot, reference};
use jr_base::{Fault, Memory, ObjId, SlotKind, Value, Values};
use std::alloc::{AllocError, Global};
use std::marker::Model;

/// The locals of a call, which contracts see as a list.
#[derive(Drop)]
pub(crate) struct Locals {
    slots: Vec<Slot>,
}

impl Model for Locals {
    ghost use Rattle.std.specs.Prelude.{List};
    ghost use Rattle.jr_base.specs.Content.{Content};

    ghost Value = { List Content };

    ghost view = { λ l. l.slots.items };
}

impl Locals {
    /// No local. Takes no memory.
    pub(crate) fn new(alloc: Global) -> Locals
        ensures { result ≡ [] }
    {
        Locals {
            slots: Vec::new(alloc),
        }
    }

    pub(crate) fn get(&self, place: u32) -> Slot
        ensures { result ≡ content_in (slice_get self.now place) }
    {
        match self.slots.get(place as usize) {
            Some(slot) => *slot,
            None => Slot::of(Value::Int(0)),
        }
    }

    /// The exception that a local holds.
    pub(crate) fn fault(&self, place: u32) -> Fault
        ensures { result ≡ fault_at self.now place }
    {
        match self.slots.get(place as usize) {
            Some(slot) => slot.fault(),
            None => Fault::Exception,
        }
    }

    /// The value that a local holds.
    pub(crate) fn value(&self, place: u32) -> Value
        ensures { result ≡ value_at self.now place }
    {
        match self.slots.get(place as usize) {
            Some(slot) => slot.value(),
            None => Value::Int(0),
        }
    }

    pub(crate) fn set(&mut self, place: u32, slot: Slot)
        ensures { self.new ≡ slice_set self.old place slot }
    {
        if (place as usize) < self.slots.len() {
            self.slots[place as usize] = slot;
        }
    }

    /// Forgets the locals, and keeps their room.
    pub(crate) fn clear(&mut self)
        ensures { self.new ≡ [] }
    {
        self.slots.clear();
    }

    pub(crate) fn push(&mut self, slot: Slot) -> Result<(), AllocError>
        ensures { OnOk result (self.new ≡ self.old ++ slot ∷ []) }
    {
        self.slots.push(slot)?;
        Ok(())
    }

    /// Adds locals that hold the values of these operands.
    pub(crate) fn push_values(&mut self, slots: &[Slot]) -> Result<(), AllocError>
        ensures { OnOk result (self.new ≡ self.old ++ map Holds (map value_of_content slots.now)) }
    {
        for slot in slots {
            self.push(Slot::of(slot.value()))?;
        }
        Ok(())
    }

    /// Adds `this`, where a method isn't static, and answers how many locals that are.
    pub(crate) fn push_this(
        &mut self,
        is_static: bool,
        this: Option<ObjId>,
    ) -> Result<u32, AllocError>
        ensures locals { OnOk result (self.new ≡ self.old ++ this_local is_static this) }
        ensures count { IfOk result (λ count. count ≡ length (this_local is_static this)) }
    {
        if is_static {
            return Ok(0);
        }
        self.push(Slot::of(reference(this)))?;
        Ok(1)
    }

    /// Adds locals of these kinds that aren't set yet, from a place on.
    pub(crate) fn push_unset(&mut self, kinds: &[SlotKind], from: usize) -> Result<(), AllocError>
        ensures { OnOk result (self.new ≡ self.old ++ map unset (drop from kinds.now)) }
    {
        let from = from.min(kinds.len());
        for kind in &kinds[from..] {
            self.push(Slot::unset(*kind))?;
        }
        Ok(())
    }

    /// The values of so many locals, from a place on.
    pub(crate) fn values(&self, alloc: Global, first: u32, count: u32) -> Result<Values, Memory>
        ensures { IfOk result (λ values. values.items ≡ map value_of_content (take count (drop first self.now))) }
    {
        let slots = self.slots.as_slice();
        let first = (first as usize).min(slots.len());
        let last = (first + count as usize).min(slots.len());
        values_of(alloc, &slots[first..last])
    }
}

fn values_of(alloc: Global, slots: &[Slot]) -> Result<Values, Memory>
    ensures { IfOk result (λ values. values.items ≡ map value_of_content slots.now) }
{
    let mut values = Values::new(alloc);
    for slot in slots {
        values.reserve(1)?;
        values.push(slot.value());
    }
    Ok(values)
}
