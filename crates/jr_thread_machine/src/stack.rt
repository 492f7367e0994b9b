//! The operands of a call.

ghost use Rattle.std.specs.Prelude.{◌≡◌, ◌<◌, ◌≤◌, ◌+◌, ◌↔◌, [], ◌∷◌, drop, take, reverse, IsTrue, OnOk};
ghost use Rattle.jr_arith.specs.Operators.{binary_value};
ghost use Rattle.jr_code.specs.Machine.{top_content, under, value_of_content};

use crate::slot::Slot;
use jr_arith::Binary;
use jr_base::Value;
use std::alloc::{AllocError, Global};
use std::marker::Model;

/// The operands of a call.
///
/// Contracts see them topmost first, as `items`, and how many more may be pushed, as `spare`.
#[derive(Drop)]
pub(crate) struct Stack {
    slots: Vec<Slot>,
}

impl Model for Stack {
    ghost use Rattle.std.specs.Prelude.{◌-◌, ◌≤◌, length, reverse, vec_capacity};
    ghost use Rattle.jr_base.specs.Content.{Content};
    ghost use Rattle.jr_base.specs.Spare.{Spare};

    ghost Value = { Spare Content };

    ghost view = { λ s. record { items = reverse s.slots.items; spare = vec_capacity s.slots - length s.slots.items } };
}

impl Stack {
    /// No operand. Takes no memory.
    pub(crate) fn new(alloc: Global) -> Stack
        ensures { result.items ≡ [] }
    {
        Stack {
            slots: Vec::new(alloc),
        }
    }

    /// Makes room for `n` more operands.
    pub(crate) fn reserve(&mut self, n: usize) -> Result<(), AllocError>
        ensures items { self.new.items ≡ self.old.items }
        ensures room { OnOk result (n ≤ self.new.spare) }
    {
        self.slots.reserve(n)?;
        Ok(())
    }

    /// Whether there is room for `n` more operands.
    pub(crate) fn has_room(&self, n: usize) -> bool
        ensures { IsTrue result ↔ (n ≤ self.now.spare) }
    {
        n <= self.slots.capacity() - self.slots.len()
    }

    /// Puts an operand on top, into reserved room.
    pub(crate) fn push(&mut self, slot: Slot)
        requires { 0 < self.old.spare }
        ensures items { self.new.items ≡ slot ∷ self.old.items }
        ensures spare { self.new.spare + 1 ≡ self.old.spare }
    {
        self.slots.push_reserved(slot);
    }

    /// Takes the operand on top.
    pub(crate) fn pop(&mut self) -> Slot
        ensures value { result ≡ top_content self.old.items }
        ensures items { self.new.items ≡ under self.old.items }
        ensures spare { self.old.spare ≤ self.new.spare }
    {
        match self.slots.pop() {
            Some(slot) => slot,
            None => Slot::of(Value::Int(0)),
        }
    }

    /// The operand below the one on top.
    pub(crate) fn second(&self) -> Slot
        ensures { result ≡ top_content (under self.now.items) }
    {
        let slots = self.slots.as_slice();
        match slots {
            [.., second, _top] => *second,
            _ => Slot::of(Value::Int(0)),
        }
    }

    /// What an operator gives between the topmost operands, and none at a zero divisor. Two ints, as most are, are told
    /// apart first, so that what they give is found with no look at their kinds.
    pub(crate) fn apply(&self, operator: Binary) -> Option<Value>
        ensures { result ≡ binary_value operator (value_of_content (top_content (under self.now.items))) (value_of_content (top_content self.now.items)) }
    {
        let b = self.top();
        let a = self.second();
        match (a.int(), b.int()) {
            (Some(a), Some(b)) => operator.apply(Value::Int(a), Value::Int(b)),
            _ => apply_to(operator, a.value(), b.value()),
        }
    }

    /// The operand below the `n` topmost ones.
    pub(crate) fn nth(&self, n: usize) -> Slot
        ensures { result ≡ top_content (drop n self.now.items) }
    {
        let slots = self.slots.as_slice();
        top_of(&slots[..slots.len().saturating_sub(n)])
    }

    /// The operand on top.
    pub(crate) fn top(&self) -> Slot
        ensures { result ≡ top_content self.now.items }
    {
        match self.slots.last() {
            Some(slot) => *slot,
            None => Slot::of(Value::Int(0)),
        }
    }
}

impl Stack {
    /// Forgets the operands, and keeps their room.
    pub(crate) fn clear(&mut self)
        ensures { self.new.items ≡ [] }
    {
        self.slots.clear();
    }

    /// The last `n` operands, the last one on top; all where there are fewer.
    pub(crate) fn last(&self, n: usize) -> &[Slot]
        ensures { result.now ≡ reverse (take n self.now.items) }
    {
        let slots = self.slots.as_slice();
        &slots[slots.len().saturating_sub(n)..]
    }

    /// Takes `n` operands off; all where there are fewer.
    pub(crate) fn drop_last(&mut self, n: usize)
        ensures { self.new.items ≡ drop n self.old.items }
    {
        let slots = self.slots.as_slice();
        let kept = slots.len().saturating_sub(n);
        self.slots.truncate(kept);
    }
}

#[inline(never)]
fn apply_to(operator: Binary, a: Value, b: Value) -> Option<Value>
    ensures { result ≡ binary_value operator a b }
{
    operator.apply(a, b)
}

fn top_of(slots: &[Slot]) -> Slot
    ensures { result ≡ top_content (reverse slots.now) }
{
    match slots.last() {
        Some(slot) => *slot,
        None => Slot::of(Value::Int(0)),
    }
}
