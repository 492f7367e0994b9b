//! Instructions that ask for an action, and those that call a method or leave one.

ghost use Rattle.std.specs.Prelude.{◌≡◌, ◌<◌, ◌+◌, ◌^◌, IfOk, OnErr};
ghost use Rattle.jr_base.specs.declared.kind.SlotKind.{SlotKind};
ghost use Rattle.jr_base.specs.declared.action.Elem.{Elem as Element};
ghost use Rattle.jr_code.specs.Instructions.{Code as PlainCode, BackTo, GetField, PutField, GetStatic, PutStatic, GetElement, PutElement, ArrayLength, Make, MakeArray, EnterMonitor, ExitMonitor, OnObject, WaitForTime, SleepFor, YieldNow, CommitNow, CallStaticMethod, CallMethodOn, ReturnNothing, ReturnTop};
ghost use Rattle.jr_code.specs.Machine.{arity_of, top_content, under, value_of_content};
ghost use Rattle.jr_code.specs.Views.{plain_of};
ghost use Rattle.jr_arith.specs.Operators as spec;
ghost use Rattle.jr_thread_machine.specs.Frames.{frame_of};
ghost use Rattle.jr_thread_machine.specs.Moves.{Steps};
ghost use Rattle.jr_thread_machine.specs.declared.flow.Flow.TheVariants as flows;
ghost use Rattle.jr_base.specs.declared.action.Action.TheVariants as actions;
ghost use Rattle.jr_thread_machine.specs.declared.flow.Then.TheVariants as thens;
ghost use Rattle.jr_thread_machine.specs.declared.flow.Stop.TheVariants as stops;

use crate::flow::{Flow, Left, Stop, Then};
use crate::frame::Frame;
use crate::table::item_at;
use jr_base::{Action, Cell, Elem, Fault, Memory, MethodId, NewKind, ObjectCall, Value, Way};
use jr_code::Code;

/// The number that a value is.
fn number_of(value: Value) -> i64
    ensures { result ≡ spec.number_of value }
{
    match value {
        Value::Int(n) => n as i64,
        Value::Long(n) => n,
        _ => 0,
    }
}

/// The slot of an element. `Memory` at a long, whose number may not fit; no index is one.
fn index_slot(index: Value) -> Result<u32, Memory>
    ensures { IfOk result (λ slot. slot ≡ spec.index_slot index) }
{
    match index {
        Value::Int(n) => Ok(n.cast_unsigned()),
        Value::Long(_) => Err(Memory),
        _ => Ok(0),
    }
}

fn asks(action: Action, then: Then) -> Flow
    ensures { result ≡ flows.Stops (stops.Asks action then) }
{
    Flow::Stops(Stop::Asks(action, then))
}

impl Frame {
    /// Goes back to an instruction, which asks for a Back.
    pub(crate) fn jump_back(&mut self, to: u32)
        ensures { (plain : PlainCode) → Steps plain (BackTo to) (flows.Stops (stops.Asks actions.Back thens.Runs)) (frame_of self.old) (frame_of self.new) }
    {
        self.at = to;
    }

    pub(crate) fn back_to(&mut self, to: u32) -> Flow
        ensures { (plain : PlainCode) → Steps plain (BackTo to) result (frame_of self.old) (frame_of self.new) }
    {
        self.jump_back(to);
        asks(Action::Back, Then::Runs)
    }

    /// Asks for a field of the object on top.
    pub(crate) fn read_field(&mut self, slot: u32) -> Flow
        ensures { (plain : PlainCode) (kind : SlotKind) → Steps plain (GetField slot kind) result (frame_of self.old) (frame_of self.new) }
    {
        match self.stack.pop().value() {
            Value::Ref(obj) => asks(Action::Get(Cell { obj, slot }), Then::Reads),
            _ => Flow::Throws(Fault::NullPointerException),
        }
    }

    pub(crate) fn write_field(&mut self, slot: u32) -> Flow
        ensures { (plain : PlainCode) (kind : SlotKind) → Steps plain (PutField slot kind) result (frame_of self.old) (frame_of self.new) }
    {
        let value = self.stack.pop().value();
        match self.stack.pop().value() {
            Value::Ref(obj) => asks(Action::Put(Cell { obj, slot }, value), Then::Writes),
            _ => Flow::Throws(Fault::NullPointerException),
        }
    }

    pub(crate) fn read_static(&mut self, cell: Cell) -> Flow
        ensures { (plain : PlainCode) (kind : SlotKind) → Steps plain (GetStatic cell kind) result (frame_of self.old) (frame_of self.new) }
    {
        asks(Action::Get(cell), Then::Reads)
    }

    pub(crate) fn write_static(&mut self, cell: Cell) -> Flow
        ensures { (plain : PlainCode) (kind : SlotKind) → Steps plain (PutStatic cell kind) result (frame_of self.old) (frame_of self.new) }
    {
        let value = self.stack.pop().value();
        asks(Action::Put(cell, value), Then::Writes)
    }

    pub(crate) fn read_element(&mut self) -> Result<Flow, Memory>
        ensures ok { IfOk result (λ flow. (plain : PlainCode) (element : Element) → Steps plain (GetElement element) flow (frame_of self.old) (frame_of self.new)) }
        ensures err { OnErr result (frame_of self.new ≡ frame_of self.old) }
    {
        let slot = index_slot(self.stack.top().value())?;
        Ok(self.read_at(slot))
    }

    // With the slot of the index on top.
    fn read_at(&mut self, slot: u32) -> Flow
        requires { slot ≡ spec.index_slot (value_of_content (top_content self.old.stack.items)) }
        ensures { (plain : PlainCode) (element : Element) → Steps plain (GetElement element) result (frame_of self.old) (frame_of self.new) }
    {
        let _index = self.stack.pop();
        match self.stack.pop().value() {
            Value::Ref(obj) => asks(Action::Get(Cell { obj, slot }), Then::Reads),
            _ => Flow::Throws(Fault::NullPointerException),
        }
    }

    pub(crate) fn write_element(&mut self) -> Result<Flow, Memory>
        ensures ok { IfOk result (λ flow. (plain : PlainCode) (element : Element) → Steps plain (PutElement element) flow (frame_of self.old) (frame_of self.new)) }
        ensures err { OnErr result (frame_of self.new ≡ frame_of self.old) }
    {
        let slot = index_slot(self.stack.second().value())?;
        Ok(self.write_at(slot))
    }

    // With the slot of the index below the top.
    fn write_at(&mut self, slot: u32) -> Flow
        requires { slot ≡ spec.index_slot (value_of_content (top_content (under self.old.stack.items))) }
        ensures { (plain : PlainCode) (element : Element) → Steps plain (PutElement element) result (frame_of self.old) (frame_of self.new) }
    {
        let value = self.stack.pop().value();
        let _index = self.stack.pop();
        match self.stack.pop().value() {
            Value::Ref(obj) => asks(Action::Put(Cell { obj, slot }, value), Then::Writes),
            _ => Flow::Throws(Fault::NullPointerException),
        }
    }

    pub(crate) fn make_object(&mut self, kind: NewKind) -> Flow
        ensures { (plain : PlainCode) → Steps plain (Make kind) result (frame_of self.old) (frame_of self.new) }
    {
        asks(Action::New(kind), Then::Makes)
    }

    /// Asks for an array. `Memory` at a size that is a long, whose number may not fit; no size is one.
    pub(crate) fn make_elements(&mut self, element: Elem) -> Result<Flow, Memory>
        ensures ok { IfOk result (λ flow. (plain : PlainCode) → Steps plain (MakeArray element) flow (frame_of self.old) (frame_of self.new)) }
        ensures err { OnErr result (frame_of self.new ≡ frame_of self.old) }
    {
        match self.stack.top().value() {
            Value::Int(n) => Ok(self.make_sized(element, n)),
            Value::Long(_) => Err(Memory),
            _ => Ok(self.make_sized(element, 0)),
        }
    }

    // With the number on top.
    fn make_sized(&mut self, element: Elem, size: i32) -> Flow
        requires { size ≡ spec.number_of (value_of_content (top_content self.old.stack.items)) }
        ensures { (plain : PlainCode) → Steps plain (MakeArray element) result (frame_of self.old) (frame_of self.new) }
    {
        let _size = self.stack.pop();
        if size < 0 {
            return Flow::Throws(Fault::NegativeArraySizeException);
        }
        asks(
            Action::New(NewKind::Array(element, size as u32)),
            Then::Makes,
        )
    }

    pub(crate) fn array_length(&mut self) -> Flow
        ensures { (plain : PlainCode) → Steps plain ArrayLength result (frame_of self.old) (frame_of self.new) }
    {
        match self.stack.pop().value() {
            Value::Ref(object) => asks(Action::Len(object), Then::Reads),
            _ => Flow::Throws(Fault::NullPointerException),
        }
    }

    /// Takes a monitor.
    pub(crate) fn enter(&mut self) -> Flow
        requires at { self.old.at + 1 < 2 ^ 32 }
        ensures { (plain : PlainCode) → Steps plain EnterMonitor result (frame_of self.old) (frame_of self.new) }
    {
        match self.stack.pop().value() {
            Value::Ref(object) => {
                self.at += 1;
                asks(Action::Enter(object, Way::Block), Then::Runs)
            }
            _ => Flow::Throws(Fault::NullPointerException),
        }
    }

    /// Gives a monitor back.
    pub(crate) fn exit(&mut self) -> Flow
        requires at { self.old.at + 1 < 2 ^ 32 }
        ensures { (plain : PlainCode) → Steps plain ExitMonitor result (frame_of self.old) (frame_of self.new) }
    {
        match self.stack.pop().value() {
            Value::Ref(object) => {
                self.at += 1;
                asks(Action::Exit(object), Then::Runs)
            }
            _ => Flow::Throws(Fault::NullPointerException),
        }
    }

    pub(crate) fn on_object(&mut self, called: ObjectCall) -> Flow
        requires at { self.old.at + 1 < 2 ^ 32 }
        ensures { (plain : PlainCode) → Steps plain (OnObject called) result (frame_of self.old) (frame_of self.new) }
    {
        let Value::Ref(object) = self.stack.pop().value() else {
            return Flow::Throws(Fault::NullPointerException);
        };
        let no_owner = Then::Unless(Fault::IllegalMonitorStateException);
        match called {
            ObjectCall::Wait => asks(Action::Wait(object), Then::Waits(object)),
            ObjectCall::Notify => asks(Action::Notify(object), no_owner),
            ObjectCall::NotifyAll => asks(Action::NotifyAll(object), no_owner),
            ObjectCall::Start => asks(
                Action::Start(object),
                Then::Unless(Fault::IllegalThreadStateException),
            ),
            ObjectCall::Join => {
                self.at += 1;
                asks(Action::Join(object), Then::Runs)
            }
        }
    }

    pub(crate) fn wait_for(&mut self) -> Flow
        ensures { (plain : PlainCode) → Steps plain WaitForTime result (frame_of self.old) (frame_of self.new) }
    {
        let time = number_of(self.stack.pop().value());
        let Value::Ref(object) = self.stack.pop().value() else {
            return Flow::Throws(Fault::NullPointerException);
        };
        if time < 0 {
            return Flow::Throws(Fault::IllegalArgumentException);
        }
        if time == 0 {
            return asks(Action::Wait(object), Then::Waits(object));
        }
        asks(Action::TimedWait(object), Then::Waits(object))
    }

    pub(crate) fn sleep(&mut self) -> Flow
        requires at { self.old.at + 1 < 2 ^ 32 }
        ensures { (plain : PlainCode) → Steps plain SleepFor result (frame_of self.old) (frame_of self.new) }
    {
        let time = number_of(self.stack.pop().value());
        if time < 0 {
            return Flow::Throws(Fault::IllegalArgumentException);
        }
        self.at += 1;
        asks(Action::Back, Then::Runs)
    }

    pub(crate) fn yield_now(&mut self) -> Flow
        requires at { self.old.at + 1 < 2 ^ 32 }
        ensures { (plain : PlainCode) → Steps plain YieldNow result (frame_of self.old) (frame_of self.new) }
    {
        self.at += 1;
        asks(Action::Back, Then::Runs)
    }

    pub(crate) fn commit(&mut self) -> Flow
        requires at { self.old.at + 1 < 2 ^ 32 }
        ensures { (plain : PlainCode) → Steps plain CommitNow result (frame_of self.old) (frame_of self.new) }
    {
        self.at += 1;
        asks(
            Action::Commit {
                method: self.method,
            },
            Then::Runs,
        )
    }

    pub(crate) fn call_static(&mut self, method: MethodId) -> Flow
        ensures { (plain : PlainCode) → Steps plain (CallStaticMethod method) result (frame_of self.old) (frame_of self.new) }
    {
        Flow::Stops(Stop::Calls(method, None))
    }

    pub(crate) fn call_on(&mut self, code: &Code, method: MethodId) -> Flow
        ensures { Steps (plain_of code.now) (CallMethodOn method) result (frame_of self.old) (frame_of self.new) }
    {
        match self.stack.nth(arity(code, method)).value() {
            Value::Ref(object) => Flow::Stops(Stop::Calls(method, Some(object))),
            _ => Flow::Throws(Fault::NullPointerException),
        }
    }

    pub(crate) fn return_nothing(&mut self) -> Flow
        ensures { (plain : PlainCode) → Steps plain ReturnNothing result (frame_of self.old) (frame_of self.new) }
    {
        Flow::Stops(Stop::Leaves(Left::Returns(None)))
    }

    pub(crate) fn return_top(&mut self) -> Flow
        ensures { (plain : PlainCode) → Steps plain ReturnTop result (frame_of self.old) (frame_of self.new) }
    {
        let value = self.stack.top().value();
        Flow::Stops(Stop::Leaves(Left::Returns(Some(value))))
    }
}

/// How many arguments a method takes.
pub(crate) fn arity(code: &Code, method: MethodId) -> usize
    ensures { result ≡ arity_of (plain_of code.now) method }
{
    match item_at(&code.methods, method.0) {
        Some(callee) => callee.formals.as_slice().len(),
        None => 0,
    }
}
