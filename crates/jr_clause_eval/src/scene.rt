//! What an expression of a clause is judged on, besides the heaps, and what is read there.

ghost use Rattle.std.specs.Prelude.{◌≡◌, true, slice_get};
ghost use Rattle.jr_base.specs.Threads.{reference};
ghost use Rattle.jr_meaning.specs.Worth as worths;
ghost use Rattle.jr_clause_eval.specs.Outcomes.{worth_of};
ghost use Rattle.jr_clause_eval.specs.Scenes.{bindings, heap_of, owned_in};

use crate::heaps::Heaps;
use crate::outcome::{Outcome, Stuck};
use jr_base::{Ask, Cell, Env, Locks, ObjId, Seen, Value};
use jr_program::Mode;

/// The values of the variables of the quantifiers around an expression, the innermost one's first. Each stands in the call
/// that tries the instances of its quantifier, so that no instance copies what stands around it.
#[derive(Clone, Copy)]
pub enum Bindings<'a> {
    None,
    Inner(i32, &'a Bindings<'a>),
}

/// What an expression is judged on: how arithmetic is meant, the environment, the monitors owned, whether it is read on
/// the old heap, and the values of bound variables.
#[derive(Clone, Copy)]
pub struct Scene<'a> {
    pub mode: Mode,
    pub env: &'a Env,
    pub locks: &'a Locks,
    pub is_old: bool,
    pub bound: &'a Bindings<'a>,
}

impl Bindings<'_> {
    /// The value of the variable that so many quantifiers stand inside of.
    fn get(&self, depth: u32) -> Outcome
        ensures { worth_of result ≡ worths.bound_value (slice_get (bindings self.now) depth) }
    {
        let mut at = self;
        let mut left = depth;
        while let Bindings::Inner(value, outer) = at {
            if left == 0 {
                return Ok(Value::Int(*value));
            }
            left -= 1;
            at = outer;
        }
        Err(Stuck::Undefined)
    }
}

impl<'a> Scene<'a> {
    /// The same, read on the old heap.
    pub fn on_old(&self) -> Scene<'a>
        ensures { result ≡ record self.now { is_old = true } }
    {
        Scene {
            is_old: true,
            ..*self
        }
    }

    /// `this` (JLS 15.8.3), and null where there is none.
    pub fn this(&self) -> Value
        ensures { result ≡ reference self.now.env.now.this }
    {
        match self.env.this {
            Some(object) => Value::Ref(object),
            None => Value::Null,
        }
    }

    /// A formal, or a variable in scope of an `assert`, by its number.
    pub fn variable(&self, number: u32) -> Outcome
        ensures { worth_of result ≡ worths.defined (slice_get self.now.env.now.values.items number) }
    {
        if number < self.env.values.len() {
            Ok(*self.env.values.get(number))
        } else {
            Err(Stuck::Undefined)
        }
    }

    /// The variable of a quantifier, by how many quantifiers stand between.
    pub fn bound(&self, depth: u32) -> Outcome
        ensures { worth_of result ≡ worths.bound_value (slice_get (bindings self.now.bound.now) depth) }
    {
        self.bound.get(depth)
    }

    /// `\result` (JML Reference Manual, "\result"), where there is one.
    pub fn result(&self) -> Outcome
        ensures { worth_of result ≡ worths.defined self.now.env.now.result }
    {
        self.env.result.ok_or(Stuck::Undefined)
    }

    /// Whether the monitor of an object is owned: null's is by nobody.
    pub fn owns(&self, value: Value) -> bool
        ensures { result ≡ worths.owned_by (owned_in self.now.locks.now) value }
    {
        match value {
            Value::Ref(object) => self.locks.has(object),
            _ => false,
        }
    }

    /// Whether the monitor of the object that an outcome is is owned (JML thread clauses, `\lockset.has`).
    pub fn in_lockset(&self, object: Outcome) -> Outcome
        ensures { worth_of result ≡ worths.with_value (worth_of object) (λ o. worths.truth (worths.owned_by (owned_in self.now.locks.now) o)) }
    {
        Ok(Value::Bool(self.owns(object?)))
    }

    /// What the heap that is read has there. Undefined where it has nothing there.
    pub fn ask<H: Heaps>(&self, heaps: &mut H, what: Ask) -> Outcome
        ensures worth { worth_of result ≡ worths.worth_seen (heap_of self.now (H.shown heaps.old) what) }
        ensures same { H.shown heaps.new ≡ H.shown heaps.old }
        ensures follows { (start : H) → H.follows start heaps.old → H.follows start heaps.new }
    {
        let seen = if self.is_old {
            heaps.old(what)
        } else {
            heaps.now(what)
        };
        match seen {
            Seen::Value(value) => Ok(value),
            Seen::Absent => Err(Stuck::Undefined),
        }
    }

    /// The value in a slot of an object. Undefined at null.
    pub fn in_slot<H: Heaps>(&self, heaps: &mut H, object: Value, slot: u32) -> Outcome
        ensures worth { worth_of result ≡ worths.in_slot (heap_of self.now (H.shown heaps.old)) object slot }
        ensures same { H.shown heaps.new ≡ H.shown heaps.old }
        ensures follows { (start : H) → H.follows start heaps.old → H.follows start heaps.new }
    {
        match object {
            Value::Ref(obj) => self.ask(heaps, Ask::Cell(Cell { obj, slot })),
            _ => Err(Stuck::Undefined),
        }
    }

    /// An element of an array (JLS 15.10.4). Undefined at null and out of range.
    pub fn element<H: Heaps>(&self, heaps: &mut H, array: Value, index: Value) -> Outcome
        ensures worth { worth_of result ≡ worths.element_of (heap_of self.now (H.shown heaps.old)) array index }
        ensures same { H.shown heaps.new ≡ H.shown heaps.old }
        ensures follows { (start : H) → H.follows start heaps.old → H.follows start heaps.new }
    {
        match index {
            Value::Int(i) if i >= 0 => self.in_slot(heaps, array, i as u32),
            _ => Err(Stuck::Undefined),
        }
    }

    /// The length of an array (JLS 10.7). Undefined at null.
    pub fn length<H: Heaps>(&self, heaps: &mut H, array: Value) -> Outcome
        ensures worth { worth_of result ≡ worths.length_of (heap_of self.now (H.shown heaps.old)) array }
        ensures same { H.shown heaps.new ≡ H.shown heaps.old }
        ensures follows { (start : H) → H.follows start heaps.old → H.follows start heaps.new }
    {
        match array {
            Value::Ref(object) => self.ask(heaps, Ask::Length(object)),
            _ => Err(Stuck::Undefined),
        }
    }
}
