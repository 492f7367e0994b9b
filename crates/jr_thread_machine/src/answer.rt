//! How a thread goes on once its action has a reply. None of it takes memory.

ghost use Rattle.std.specs.Prelude.{◌≡◌, ◌<◌, ◌+◌, ◌^◌, [], List};
ghost use Rattle.jr_base.specs.Threads.{object_made as object_of};
ghost use Rattle.jr_code.specs.Machine.{StackFrame, exit_then, stack_frame};
ghost use Rattle.jr_code.specs.Views.{plain_of};
ghost use Rattle.jr_thread_machine.specs.Frames.{frame_of};
ghost use Rattle.jr_thread_machine.specs.Moves.{goes_on, how_ended, left_to};
ghost use Rattle.jr_thread_machine.specs.Places.{ThenFits, MayGoOn, AllMayGoOn};
ghost use Rattle.jr_thread_machine.specs.Stages.{ComesTo};
ghost use Rattle.jr_thread_machine.specs.declared.stage.Stage.TheVariants as stages;
ghost use Rattle.jr_thread_machine.specs.declared.flow.Then.TheVariants as thens;

use crate::callers::Callers;
use crate::flow::{Left, Then};
use crate::frame::Frame;
use crate::stage::Stage;
use jr_base::{Action, EndHow, Fault, ObjId, Reply, Value};
use jr_code::Code;

/// The object that was made.
fn object_made(reply: Reply) -> ObjId
    ensures { result ≡ object_of reply }
{
    match reply {
        Reply::Made(object) => object,
        _ => ObjId(0),
    }
}

impl Frame {
    /// Goes on behind the instruction.
    fn go_on(&mut self) -> Stage
        requires { self.old.at + 1 < 2 ^ 32 }
        ensures stage { result ≡ stages.Runs }
        ensures frame { frame_of self.new ≡ stack_frame self.old.method self.old.this (self.old.at + 1) self.old.stack.items self.old.locals }
    {
        self.at += 1;
        Stage::Runs
    }

    /// Goes on behind the instruction, with a value that is to become an operand.
    fn take(&mut self, value: Value) -> Stage
        requires { self.old.at + 1 < 2 ^ 32 }
        ensures stage { result ≡ stages.Takes value }
        ensures frame { frame_of self.new ≡ stack_frame self.old.method self.old.this (self.old.at + 1) self.old.stack.items self.old.locals }
    {
        self.at += 1;
        Stage::Takes(value)
    }

    /// Throws at the instruction.
    fn throw(&mut self, fault: Fault) -> Stage
        ensures stage { result ≡ stages.Throws fault 0 }
        ensures frame { frame_of self.new ≡ stack_frame self.old.method self.old.this self.old.at [] self.old.locals }
    {
        self.stack.clear();
        Stage::Throws(fault, 0)
    }

    fn reads(&mut self, code: &Code, reply: Reply) -> Stage
        requires { MayGoOn (plain_of code.now) self.old.method self.old.at }
        ensures { (below : List StackFrame) → AllMayGoOn (plain_of code.now) below →
            ComesTo (plain_of code.now) (goes_on (plain_of code.now) thens.Reads below (frame_of self.old) reply) result (frame_of self.new) below }
    {
        match reply {
            Reply::Value(value) => self.take(value),
            Reply::Range => self.throw(Fault::ArrayIndexOutOfBoundsException),
            _ => self.take(Value::Int(0)),
        }
    }

    fn writes(&mut self, code: &Code, reply: Reply) -> Stage
        requires { MayGoOn (plain_of code.now) self.old.method self.old.at }
        ensures { (below : List StackFrame) → AllMayGoOn (plain_of code.now) below →
            ComesTo (plain_of code.now) (goes_on (plain_of code.now) thens.Writes below (frame_of self.old) reply) result (frame_of self.new) below }
    {
        match reply {
            Reply::Range => self.throw(Fault::ArrayIndexOutOfBoundsException),
            _ => self.go_on(),
        }
    }

    fn makes(&mut self, code: &Code, reply: Reply) -> Stage
        requires { MayGoOn (plain_of code.now) self.old.method self.old.at }
        ensures { (below : List StackFrame) → AllMayGoOn (plain_of code.now) below →
            ComesTo (plain_of code.now) (goes_on (plain_of code.now) thens.Makes below (frame_of self.old) reply) result (frame_of self.new) below }
    {
        self.take(Value::Ref(object_made(reply)))
    }

    fn unless_illegal(&mut self, code: &Code, fault: Fault, reply: Reply) -> Stage
        requires { MayGoOn (plain_of code.now) self.old.method self.old.at }
        ensures { (below : List StackFrame) → AllMayGoOn (plain_of code.now) below →
            ComesTo (plain_of code.now) (goes_on (plain_of code.now) (thens.Unless fault) below (frame_of self.old) reply) result (frame_of self.new) below }
    {
        match reply {
            Reply::Illegal => self.throw(fault),
            _ => self.go_on(),
        }
    }

    fn waits(&mut self, code: &Code, object: ObjId, reply: Reply) -> Stage
        requires { MayGoOn (plain_of code.now) self.old.method self.old.at }
        ensures { (below : List StackFrame) → AllMayGoOn (plain_of code.now) below →
            ComesTo (plain_of code.now) (goes_on (plain_of code.now) (thens.Waits object) below (frame_of self.old) reply) result (frame_of self.new) below }
    {
        match reply {
            Reply::Illegal => self.throw(Fault::IllegalMonitorStateException),
            _ => {
                self.at += 1;
                Stage::Asks(Action::Resume(object), Then::Runs)
            }
        }
    }
}

impl Left {
    fn end(self) -> EndHow
        ensures { result ≡ how_ended self }
    {
        match self {
            Left::Returns(_) => EndHow::Normal,
            Left::Fails(fault) => EndHow::Uncaught(fault),
        }
    }
}

/// Goes on in the caller, or ends the thread.
fn hand(code: &Code, top: &mut Frame, callers: &mut Callers, left: Left) -> Stage
    requires { AllMayGoOn (plain_of code.now) callers.old }
    ensures { ComesTo (plain_of code.now) (left_to (plain_of code.now) left callers.old) result (frame_of top.new) callers.new }
{
    if !callers.leave(top) {
        return Stage::Asks(Action::End(left.end()), Then::Ends);
    }
    match left {
        Left::Returns(Some(value)) => top.take(value),
        Left::Returns(None) => top.go_on(),
        Left::Fails(fault) => top.throw(fault),
    }
}

/// Gives the monitor of a call back, if it has one, and goes on in the caller.
fn exit(
    code: &Code,
    top: &mut Frame,
    callers: &mut Callers,
    monitor: Option<ObjId>,
    left: Left,
) -> Stage
    requires { AllMayGoOn (plain_of code.now) callers.old }
    ensures { ComesTo (plain_of code.now) (exit_then monitor (left_to (plain_of code.now) left callers.old)) result (frame_of top.new) callers.new }
{
    match monitor {
        Some(object) => Stage::Asks(Action::Exit(object), Then::Hands(left)),
        None => hand(code, top, callers, left),
    }
}

/// Goes on after the reply to an action.
pub(crate) fn after(
    code: &Code,
    top: &mut Frame,
    callers: &mut Callers,
    then: Then,
    reply: Reply,
) -> Stage
    requires fits { ThenFits (plain_of code.now) then (frame_of top.old) }
    requires below { AllMayGoOn (plain_of code.now) callers.old }
    ensures { ComesTo (plain_of code.now) (goes_on (plain_of code.now) then callers.old (frame_of top.old) reply) result (frame_of top.new) callers.new }
{
    match then {
        Then::Runs => Stage::Runs,
        Then::Reads => top.reads(code, reply),
        Then::Writes => top.writes(code, reply),
        Then::Makes => top.makes(code, reply),
        Then::Unless(fault) => top.unless_illegal(code, fault, reply),
        Then::Waits(object) => top.waits(code, object, reply),
        Then::Throws(fault, from) => Stage::Throws(fault, from),
        Then::Calls(arguments) => Stage::Calls(arguments),
        Then::Exits(monitor, left) => exit(code, top, callers, monitor, left),
        Then::Hands(left) => hand(code, top, callers, left),
        Then::Ends => Stage::Over,
    }
}
