//! Prints and asserts, whose actions hold lists.

ghost use Rattle.std.specs.Prelude.{◌≡◌, ◌<◌, ◌≤◌, ◌+◌, ◌^◌, ◌∷◌, map, length, pos, slice_index_or, IfOk, OnErr};
ghost use Rattle.jr_base.specs.declared.value.Value.TheVariants as values;
ghost use Rattle.jr_base.specs.Threads.{reference as reference_of, value_at};
ghost use Rattle.jr_code.specs.Instructions.{Code as PlainCode, AssertThat, PrintAll};
ghost use Rattle.jr_code.specs.Machine.{filled, value_of_content, values_printed};
ghost use Rattle.jr_thread_machine.specs.Frames.{frame_of};
ghost use Rattle.jr_thread_machine.specs.Moves.{Steps};

use crate::flow::{Flow, Stop, Then};
use crate::frame::Frame;
use crate::locals::Locals;
use crate::slot::{Slot, reference};
use jr_base::{Action, Memory, ObjId, Parts, PrintPart, Reserved, TextId, Value, Values};
use jr_code::AssertCode;
use std::alloc::Global;

/// How many values are printed.
fn count_values(parts: &[Option<TextId>]) -> usize
    ensures { result ≡ values_printed parts.now }
{
    let mut values = 0;
    for part in parts {
        if part.is_none() {
            values += 1;
        }
    }
    values
}

/// The value of an operand. 0 where there is none.
fn value_or_zero(slots: &[Slot], number: usize) -> Value
    ensures { result ≡ slice_index_or (map value_of_content slots.now) number (values.Int (pos 0)) }
{
    match slots.get(number) {
        Some(slot) => slot.value(),
        None => Value::Int(0),
    }
}

/// The parts of a print, with these values.
fn fill(alloc: Global, parts: &Reserved<Option<TextId>>, slots: &[Slot]) -> Result<Parts, Memory>
    ensures { IfOk result (λ all. all.items ≡ filled parts.now.items (map value_of_content slots.now)) }
{
    let mut all = Parts::new(alloc);
    all.reserve(parts.len())?;
    let mut taken = 0;
    for part in parts.as_slice() {
        match part {
            Some(text) => all.push(PrintPart::Text(*text)),
            None => {
                all.push(PrintPart::Val(value_or_zero(slots, taken)));
                taken += 1;
            }
        }
    }
    Ok(all)
}

/// `this` or null, and the values of these locals.
fn environment(
    alloc: Global,
    this: Option<ObjId>,
    locals: &Locals,
    scope: &Reserved<u32>,
) -> Result<Values, Memory>
    ensures { IfOk result (λ env. env.items ≡ reference_of this ∷ map (value_at locals.now) scope.now.items) }
{
    let mut env = Values::new(alloc);
    env.reserve(1)?;
    env.push(reference(this));
    env.reserve(scope.len())?;
    for place in scope.as_slice() {
        env.push(locals.value(*place));
    }
    Ok(env)
}

impl Frame {
    /// Prints these parts, with the last operands as their values.
    pub(crate) fn print(
        &mut self,
        alloc: Global,
        parts: &Reserved<Option<TextId>>,
    ) -> Result<Flow, Memory>
        requires at { self.old.at + 1 < 2 ^ 32 }
        ensures ok { IfOk result (λ flow. (plain : PlainCode) → Steps plain (PrintAll parts.now.items) flow (frame_of self.old) (frame_of self.new)) }
        ensures err { OnErr result (frame_of self.new ≡ frame_of self.old) }
    {
        let n = count_values(parts.as_slice());
        let all = fill(alloc, parts, self.stack.last(n))?;
        self.stack.drop_last(n);
        self.at += 1;
        Ok(Flow::Stops(Stop::Asks(Action::Print(all), Then::Runs)))
    }

    /// Asserts a clause, over the locals in its scope.
    pub(crate) fn assert_clause(
        &mut self,
        alloc: Global,
        asserted: &AssertCode,
    ) -> Result<Flow, Memory>
        requires at { self.old.at + 1 < 2 ^ 32 }
        ensures ok { IfOk result (λ flow. (plain : PlainCode) → Steps plain (AssertThat asserted.now.clause asserted.now.scope.items) flow (frame_of self.old) (frame_of self.new)) }
        ensures err { OnErr result (frame_of self.new ≡ frame_of self.old) }
    {
        let env = environment(alloc, self.this, &self.locals, &asserted.scope)?;
        let clause = asserted.clause;
        self.at += 1;
        Ok(Flow::Stops(Stop::Asks(Action::Assert { clause, env }, Then::Runs)))
    }
}
