//! Instructions that ask for nothing: constants, locals, operands, operators, jumps and throws.

ghost use Rattle.std.specs.Prelude.{◌≡◌, ◌<◌, ◌≤◌, ◌+◌, ◌^◌, ◌∷◌, IfOk, OnErr, MatchBool};
ghost use Rattle.jr_code.specs.Instructions.{Code as PlainCode, Push, Load, Store, Pop, Dup, Dup2, DupX1, DupX2, OneOperand, TwoOperands, ConvertTo, Jump, JumpIf, JumpNot, ThrowLocal};
ghost use Rattle.jr_code.specs.Machine.{stack_frame};
ghost use Rattle.jr_arith.specs.Operators as spec;
ghost use Rattle.jr_base.specs.Content.{Holds};
ghost use Rattle.jr_base.specs.Threads.{class_object as class_object_of};
ghost use Rattle.jr_base.specs.declared.value.Value.TheVariants as values;
ghost use Rattle.jr_thread_machine.specs.Frames.{frame_of};
ghost use Rattle.jr_thread_machine.specs.Moves.{Steps};
ghost use Rattle.jr_thread_machine.specs.Stopping.{HasNoValue};
ghost use Rattle.jr_thread_machine.specs.declared.flow.Flow.TheVariants as flows;

use crate::flow::Flow;
use crate::frame::Frame;
use crate::slot::Slot;
use jr_arith::{Binary, Unary, Width};
use jr_base::{ClassId, Fault, Memory, ObjId, Value};

/// The truth that a value is.
pub(crate) fn truth_of(value: Value) -> bool
    ensures { result ≡ spec.truth_of value }
{
    match value {
        Value::Bool(b) => b,
        _ => false,
    }
}

/// The object of a class. `Memory` where its number doesn't fit.
pub(crate) fn class_object(class: ClassId) -> Result<ObjId, Memory>
    ensures { IfOk result (λ object. object ≡ class_object_of class) }
{
    if class.0 == u32::MAX {
        return Err(Memory);
    }
    Ok(ObjId(class.0 + 1))
}

impl Frame {
    /// Puts an operand on top, and goes on.
    fn push(&mut self, slot: Slot)
        requires at { self.old.at + 1 < 2 ^ 32 }
        requires room { 0 < self.old.stack.spare }
        ensures { frame_of self.new ≡ stack_frame self.old.method self.old.this (self.old.at + 1) (slot ∷ self.old.stack.items) self.old.locals }
    {
        self.stack.push(slot);
        self.at += 1;
    }

    pub(crate) fn constant(&mut self, value: Value)
        requires at { self.old.at + 1 < 2 ^ 32 }
        requires room { 4 ≤ self.old.stack.spare }
        ensures { (plain : PlainCode) → Steps plain (Push value) flows.Goes (frame_of self.old) (frame_of self.new) }
    {
        self.push(Slot::of(value));
    }

    pub(crate) fn int(&mut self, n: &i32)
        requires at { self.old.at + 1 < 2 ^ 32 }
        requires room { 4 ≤ self.old.stack.spare }
        ensures { frame_of self.new ≡ stack_frame self.old.method self.old.this (self.old.at + 1) (Holds (values.Int n.now) ∷ self.old.stack.items) self.old.locals }
    {
        self.push(Slot::of(Value::Int(*n)));
    }

    pub(crate) fn long(&mut self, n: &i64)
        requires at { self.old.at + 1 < 2 ^ 32 }
        requires room { 4 ≤ self.old.stack.spare }
        ensures { frame_of self.new ≡ stack_frame self.old.method self.old.this (self.old.at + 1) (Holds (values.Long n.now) ∷ self.old.stack.items) self.old.locals }
    {
        self.push(Slot::of(Value::Long(*n)));
    }

    /// Pushes the object of a class. `Memory` where its number doesn't fit.
    pub(crate) fn push_object(&mut self, class: ClassId) -> Result<Flow, Memory>
        requires at { self.old.at + 1 < 2 ^ 32 }
        requires room { 4 ≤ self.old.stack.spare }
        ensures ok { IfOk result (λ flow. (plain : PlainCode) → Steps plain (Push (values.Ref (class_object_of class))) flow (frame_of self.old) (frame_of self.new)) }
        ensures err { OnErr result (frame_of self.new ≡ frame_of self.old) }
    {
        let object = class_object(class)?;
        self.constant(Value::Ref(object));
        Ok(Flow::Goes)
    }

    pub(crate) fn load(&mut self, place: u32)
        requires at { self.old.at + 1 < 2 ^ 32 }
        requires room { 4 ≤ self.old.stack.spare }
        ensures { (plain : PlainCode) → Steps plain (Load place) flows.Goes (frame_of self.old) (frame_of self.new) }
    {
        let slot = self.locals.get(place);
        self.push(slot);
    }

    pub(crate) fn store(&mut self, place: u32)
        requires at { self.old.at + 1 < 2 ^ 32 }
        ensures { (plain : PlainCode) → Steps plain (Store place) flows.Goes (frame_of self.old) (frame_of self.new) }
    {
        let slot = self.stack.pop();
        self.locals.set(place, slot);
        self.at += 1;
    }

    pub(crate) fn pop(&mut self)
        requires at { self.old.at + 1 < 2 ^ 32 }
        ensures { (plain : PlainCode) → Steps plain Pop flows.Goes (frame_of self.old) (frame_of self.new) }
    {
        let _slot = self.stack.pop();
        self.at += 1;
    }

    pub(crate) fn dup(&mut self)
        requires at { self.old.at + 1 < 2 ^ 32 }
        requires room { 4 ≤ self.old.stack.spare }
        ensures { (plain : PlainCode) → Steps plain Dup flows.Goes (frame_of self.old) (frame_of self.new) }
    {
        let slot = self.stack.top();
        self.push(slot);
    }

    pub(crate) fn dup2(&mut self)
        requires at { self.old.at + 1 < 2 ^ 32 }
        requires room { 4 ≤ self.old.stack.spare }
        ensures { (plain : PlainCode) → Steps plain Dup2 flows.Goes (frame_of self.old) (frame_of self.new) }
    {
        let top = self.stack.top();
        let second = self.stack.second();
        self.stack.push(second);
        self.push(top);
    }

    pub(crate) fn dup_x1(&mut self)
        requires at { self.old.at + 1 < 2 ^ 32 }
        requires room { 4 ≤ self.old.stack.spare }
        ensures { (plain : PlainCode) → Steps plain DupX1 flows.Goes (frame_of self.old) (frame_of self.new) }
    {
        let top = self.stack.pop();
        let second = self.stack.pop();
        self.stack.push(top);
        self.stack.push(second);
        self.push(top);
    }

    pub(crate) fn dup_x2(&mut self)
        requires at { self.old.at + 1 < 2 ^ 32 }
        requires room { 4 ≤ self.old.stack.spare }
        ensures { (plain : PlainCode) → Steps plain DupX2 flows.Goes (frame_of self.old) (frame_of self.new) }
    {
        let top = self.stack.pop();
        let second = self.stack.pop();
        let third = self.stack.pop();
        self.stack.push(top);
        self.stack.push(third);
        self.stack.push(second);
        self.push(top);
    }

    pub(crate) fn one_operand(&mut self, operator: Unary)
        requires at { self.old.at + 1 < 2 ^ 32 }
        requires room { 4 ≤ self.old.stack.spare }
        ensures { (plain : PlainCode) → Steps plain (OneOperand operator) flows.Goes (frame_of self.old) (frame_of self.new) }
    {
        let a = self.stack.pop().value();
        self.push(Slot::of(operator.apply(a)));
    }

    /// Does an operator between two operands, and answers whether it gives a value. Nothing is done where it throws.
    pub(crate) fn two_operands(&mut self, operator: Binary) -> bool
        requires at { self.old.at + 1 < 2 ^ 32 }
        requires room { 4 ≤ self.old.stack.spare }
        ensures { MatchBool result ((plain : PlainCode) → Steps plain (TwoOperands operator) flows.Goes (frame_of self.old) (frame_of self.new))
            ((self.new ≡ self.old) × HasNoValue operator (frame_of self.old)) }
    {
        match self.stack.apply(operator) {
            Some(value) => {
                let _b = self.stack.pop();
                let _a = self.stack.pop();
                self.push(Slot::of(value));
                true
            }
            None => false,
        }
    }

    pub(crate) fn convert(&mut self, width: Width)
        requires at { self.old.at + 1 < 2 ^ 32 }
        requires room { 4 ≤ self.old.stack.spare }
        ensures { (plain : PlainCode) → Steps plain (ConvertTo width) flows.Goes (frame_of self.old) (frame_of self.new) }
    {
        let a = self.stack.pop().value();
        self.push(Slot::of(width.convert(a)));
    }

    pub(crate) fn jump(&mut self, to: u32)
        ensures { (plain : PlainCode) → Steps plain (Jump to) flows.Goes (frame_of self.old) (frame_of self.new) }
    {
        self.at = to;
    }

    pub(crate) fn jump_if(&mut self, to: u32)
        requires at { self.old.at + 1 < 2 ^ 32 }
        ensures { (plain : PlainCode) → Steps plain (JumpIf to) flows.Goes (frame_of self.old) (frame_of self.new) }
    {
        if truth_of(self.stack.pop().value()) {
            self.at = to;
        } else {
            self.at += 1;
        }
    }

    pub(crate) fn jump_not(&mut self, to: u32)
        requires at { self.old.at + 1 < 2 ^ 32 }
        ensures { (plain : PlainCode) → Steps plain (JumpNot to) flows.Goes (frame_of self.old) (frame_of self.new) }
    {
        if truth_of(self.stack.pop().value()) {
            self.at += 1;
        } else {
            self.at = to;
        }
    }

    pub(crate) fn throw_local(&mut self, place: u32) -> Flow
        ensures { (plain : PlainCode) → Steps plain (ThrowLocal place) result (frame_of self.old) (frame_of self.new) }
    {
        Flow::Throws(self.locals.fault(place))
    }
}
