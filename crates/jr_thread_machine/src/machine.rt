//! The machine that runs one thread.

ghost use Rattle.std.specs.Prelude.{◌≡◌, ◌<◌, ◌+◌, ◌↔◌, ◌++◌, ◌∷◌, [], ℕ, List, length, OnOk, IfOk, IsTrue, MatchBool, MatchOption, Option, Some, None, slice_get};
ghost use Rattle.jr_base.specs.Deed.{Deed};
ghost use Rattle.jr_base.specs.declared.action.Body.{Body as Started};
ghost use Rattle.jr_base.specs.declared.action.Reply.{Reply as Replied};
ghost use Rattle.jr_program.specs.UnitViews.{program_of};
ghost use Rattle.jr_program.specs.WellFormed.{StartFits};
ghost use Rattle.jr_meaning.specs.Next.{next as next_in};
ghost use Rattle.jr_code.specs.Checked.{CodeRight};
ghost use Rattle.jr_code.specs.Depth.{IsDepthOf};
ghost use Rattle.jr_code.specs.Sound.{StartRight};
ghost use Rattle.jr_code.specs.Machine.{monitor_in, method_code_at};
ghost use Rattle.jr_code.specs.Views.{plain_of};
ghost use Rattle.jr_lowering.specs.ProgramCode.{code_of};
ghost use Rattle.jr_thread_machine.specs.declared.machine.Next.{Next as Answer};
ghost use Rattle.jr_thread_machine.specs.declared.stage.Stage.TheVariants as stages;
ghost use Rattle.jr_thread_machine.specs.Frames.{frame_of};
ghost use Rattle.jr_thread_machine.specs.Moves.{how_left};
ghost use Rattle.jr_thread_machine.specs.Machines.{held_of};
ghost use Rattle.jr_thread_machine.specs.Places.{IsMethod};
ghost use Rattle.jr_thread_machine.specs.Saying.{Says};
ghost use Rattle.jr_thread_machine.specs.Standing.{StandsFor, RunsThreadOf, next_of};
ghost use Rattle.jr_thread_machine.specs.Stages.{HeldFits, held, stage_of as stage_of_stop, stage_of_ran, called_stage, IsAwake, HasStopped, IsSettled, HasTurned, IsAt, answered, ComesTo, HasStarted};

use crate::answer::after;
use crate::callers::Callers;
use crate::flow::{Arguments, Left, Stop, Then};
use crate::frame::Frame;
use crate::handlers::Ran;
use crate::local_rows::class_object;
use crate::slot::Slot;
use crate::stack::Stack;
use crate::stage::Stage;
use crate::table::item_at;
use jr_base::{Action, Body, EndHow, Fault, LeaveHow, Memory, MethodId, ObjId, Reply, Value, Way};
use jr_code::{Checked, MethodCode};
use jr_lowering::Program;
use std::alloc::Global;

/// What a thread does next.
#[derive(Debug, Drop)]
pub enum Next {
    /// It stands at this action, and goes on with the reply.
    Does(Action),
    /// The thread has ended: its End has had a reply.
    Ended,
}

/// Runs one thread, from its start to its end.
#[derive(Drop)]
pub struct Machine {
    stage: Stage,
    top: Frame,
    callers: Callers,
}

fn stage_of(stop: Stop) -> Stage
    ensures { result ≡ stage_of_stop stop }
{
    match stop {
        Stop::Asks(action, then) => Stage::Asks(action, then),
        Stop::Calls(method, this) => Stage::Begins(method, this),
        Stop::Leaves(left) => Stage::Leaves(left),
        Stop::Nothing => Stage::Over,
    }
}

/// The method of a number, if there is one.
fn method_of(code: &Checked, method: MethodId) -> Option<&MethodCode>
    ensures { MatchOption result (slice_get code.now.methods.items method.0 ≡ None) (λ m. slice_get code.now.methods.items method.0 ≡ Some m.now) }
{
    item_at(&code.parts().methods, method.0)
}

/// How many operands a call of the method takes room for: as many as ever stand there, and those that an instruction puts
/// there at most.
fn room_of(code: &Checked, method: MethodId) -> usize
    requires { method.0 < length code.now.methods.items }
    ensures { (depth : ℕ) × IsDepthOf (plain_of code.now) method depth × (result ≡ depth + 4) }
{
    code.depth(method) as usize + 4
}

/// The monitor that a call takes (JLS 8.4.3.6). `Memory` where the number of the class's object doesn't fit.
fn monitor(code: &Checked, method: MethodId, this: Option<ObjId>) -> Result<Option<ObjId>, Memory>
    ensures { IfOk result (λ monitor. monitor ≡ monitor_in (method_code_at (plain_of code.now) method) this) }
{
    match method_of(code, method) {
        Some(called) => if called.is_synchronized {
            if called.is_static {
                Ok(Some(class_object(called.class)?))
            } else {
                Ok(this)
            }
        } else {
            Ok(None)
        },
        None => Ok(None),
    }
}

impl Left {
    fn how(self) -> LeaveHow
        ensures { result ≡ how_left self }
    {
        match self {
            Left::Returns(value) => LeaveHow::Normal(value),
            Left::Fails(_) => LeaveHow::Abrupt,
        }
    }
}

impl Machine {
    /// A thread that is to run a method, or to end at once.
    fn start(alloc: Global, code: &Checked, start: Option<Body>) -> Result<Machine, Memory>
        requires { StartRight (plain_of code.now) start }
        ensures { IfOk result (λ machine. HasStarted (plain_of code.now) start (held_of machine)) }
    {
        match start {
            Some(body) => Machine::first_call(alloc, code, body.method, body.this),
            None => Ok(Machine {
                stage: Stage::Asks(Action::End(EndHow::Normal), Then::Ends),
                top: Frame::new(alloc),
                callers: Callers::new(alloc),
            }),
        }
    }

    fn first_call(
        alloc: Global,
        code: &Checked,
        method: MethodId,
        this: Option<ObjId>,
    ) -> Result<Machine, Memory>
        requires { IsMethod (plain_of code.now) method }
        ensures { IfOk result (λ machine. HasStarted (plain_of code.now) (Some (record { method = method; this = this })) (held_of machine)) }
    {
        let Some(callee) = method_of(code, method) else {
            unreachable!();
        };
        let mut top = Frame::new(alloc);
        let room = room_of(code, method);
        let arguments = top.begin(method, this, callee, room, &Stack::new(alloc))?;
        let stage = called(monitor(code, method, this)?, arguments);
        let callers = Callers::new(alloc);
        Ok(Machine {
            stage,
            top,
            callers,
        })
    }

    /// Gives the call the value that waits for it, or looks for what takes an exception of it.
    fn wake(&mut self, code: &Checked) -> Result<(), Memory>
        requires right { CodeRight (plain_of code.now) }
        requires fits { HeldFits (plain_of code.now) (held_of self.old) }
        ensures turned { HasTurned (plain_of code.now) (held_of self.old) (held_of self.new) }
        ensures awake { OnOk result (IsAwake self.new.stage) }
    {
        match self.stage {
            Stage::Takes(value) => {
                self.top.stack.reserve(1)?;
                self.top.stack.push(Slot::of(value));
                self.stage = Stage::Runs;
                Ok(())
            }
            Stage::Throws(fault, from) => self.catch(code, fault, from),
            _ => Ok(()),
        }
    }

    /// Looks for what takes an exception. `Memory` where there is no room to go on with it.
    fn catch(&mut self, code: &Checked, fault: Fault, from: u32) -> Result<(), Memory>
        requires right { CodeRight (plain_of code.now) }
        requires fits { HeldFits (plain_of code.now) (held_of self.old) }
        requires throws { self.old.stage ≡ stages.Throws fault from }
        ensures turned { HasTurned (plain_of code.now) (held_of self.old) (held_of self.new) }
        ensures awake { OnOk result (IsAwake self.new.stage) }
    {
        let Some(method) = method_of(code, self.top.method) else {
            unreachable!();
        };
        match self.top.handle(&method.regions, from, fault) {
            None => {
                self.stage = Stage::Runs;
                Ok(())
            }
            Some(ran) => self.come_to(ran),
        }
    }

    /// Runs the innermost call to where it doesn't go on by itself.
    fn run(&mut self, alloc: Global, code: &Checked) -> Result<(), Memory>
        requires right { CodeRight (plain_of code.now) }
        requires fits { HeldFits (plain_of code.now) (held_of self.old) }
        requires awake { IsAwake self.old.stage }
        ensures turned { HasTurned (plain_of code.now) (held_of self.old) (held_of self.new) }
        ensures stopped { OnOk result (HasStopped self.new.stage) }
    {
        match self.stage {
            Stage::Runs => if self.goes_back(code) {
                Ok(())
            } else {
                self.run_on(alloc, code)
            },
            _ => Ok(()),
        }
    }

    /// Runs the innermost call by instructions that ask for nothing, and to the Back of a loop where that comes next.
    /// Answers whether it does.
    fn goes_back(&mut self, code: &Checked) -> bool
        requires right { CodeRight (plain_of code.now) }
        requires fits { HeldFits (plain_of code.now) (held_of self.old) }
        requires runs { self.old.stage ≡ stages.Runs }
        ensures turned { HasTurned (plain_of code.now) (held_of self.old) (held_of self.new) }
        ensures stage { MatchBool result (HasStopped self.new.stage) (self.new.stage ≡ stages.Runs) }
    {
        if self.top.goes_back(code.parts()) {
            self.stage = Stage::Asks(Action::Back, Then::Runs);
            return true;
        }
        false
    }

    fn run_on(&mut self, alloc: Global, code: &Checked) -> Result<(), Memory>
        requires right { CodeRight (plain_of code.now) }
        requires fits { HeldFits (plain_of code.now) (held_of self.old) }
        requires runs { self.old.stage ≡ stages.Runs }
        ensures turned { HasTurned (plain_of code.now) (held_of self.old) (held_of self.new) }
        ensures stopped { OnOk result (HasStopped self.new.stage) }
    {
        let ran = self.top.run(alloc, code.parts())?;
        self.come_to(ran)
    }

    /// Takes on what the innermost call came to. `Memory` where it has no room to go on.
    fn come_to(&mut self, ran: Ran) -> Result<(), Memory>
        ensures stage { held_of self.new ≡ held (stage_of_ran ran) (frame_of self.old.top) self.old.callers }
        ensures stopped { OnOk result (HasStopped (stage_of_ran ran)) }
    {
        match ran {
            Ran::Stops(stop) => {
                self.stage = stage_of(stop);
                Ok(())
            }
            Ran::Throws(fault, from) => {
                self.stage = Stage::Throws(fault, from);
                Err(Memory)
            }
        }
    }

    /// Begins the call that is to be made, or leaves the innermost one.
    fn prepare(&mut self, alloc: Global, code: &Checked) -> Result<(), Memory>
        requires fits { HeldFits (plain_of code.now) (held_of self.old) }
        requires stopped { HasStopped self.old.stage }
        ensures turned { HasTurned (plain_of code.now) (held_of self.old) (held_of self.new) }
        ensures settled { OnOk result (IsSettled self.new.stage) }
    {
        match self.stage {
            Stage::Begins(method, this) => self.begin(alloc, code, method, this),
            Stage::Leaves(left) => self.leave(code, left),
            _ => Ok(()),
        }
    }

    fn begin(
        &mut self,
        alloc: Global,
        code: &Checked,
        method: MethodId,
        this: Option<ObjId>,
    ) -> Result<(), Memory>
        requires fits { HeldFits (plain_of code.now) (held_of self.old) }
        requires begins { self.old.stage ≡ stages.Begins method this }
        ensures turned { HasTurned (plain_of code.now) (held_of self.old) (held_of self.new) }
        ensures settled { OnOk result (IsSettled self.new.stage) }
    {
        let Some(callee) = method_of(code, method) else {
            unreachable!();
        };
        let monitor = monitor(code, method, this)?;
        let room = room_of(code, method);
        let arguments = self
            .callers
            .enter(alloc, &mut self.top, method, this, callee, room)?;
        self.stage = called(monitor, arguments);
        Ok(())
    }

    fn leave(&mut self, code: &Checked, left: Left) -> Result<(), Memory>
        requires fits { HeldFits (plain_of code.now) (held_of self.old) }
        requires leaves { self.old.stage ≡ stages.Leaves left }
        ensures turned { HasTurned (plain_of code.now) (held_of self.old) (held_of self.new) }
        ensures settled { OnOk result (IsSettled self.new.stage) }
    {
        let method = self.top.method;
        let monitor = monitor(code, method, self.top.this)?;
        let how = left.how();
        self.stage = Stage::Asks(Action::Leave { method, how }, Then::Exits(monitor, left));
        Ok(())
    }

    fn settle(&mut self, alloc: Global, code: &Checked) -> Result<(), Memory>
        requires right { CodeRight (plain_of code.now) }
        requires fits { HeldFits (plain_of code.now) (held_of self.old) }
        ensures turned { HasTurned (plain_of code.now) (held_of self.old) (held_of self.new) }
        ensures settled { OnOk result (IsSettled self.new.stage) }
    {
        self.wake(code)?;
        self.run(alloc, code)?;
        self.prepare(alloc, code)
    }

    fn is_settled(&self) -> bool
        ensures { IsTrue result ↔ IsSettled self.now.stage }
    {
        match self.stage {
            Stage::Calls(_) | Stage::Asks(_, _) | Stage::Over => true,
            _ => false,
        }
    }

    /// Runs the thread to its next action, unless it stands there.
    fn ready(&mut self, alloc: Global, code: &Checked) -> Result<(), Memory>
        requires right { CodeRight (plain_of code.now) }
        requires fits { HeldFits (plain_of code.now) (held_of self.old) }
        ensures turned { HasTurned (plain_of code.now) (held_of self.old) (held_of self.new) }
        ensures settled { OnOk result (IsSettled self.new.stage) }
        ensures same { IsSettled self.old.stage → self.new ≡ self.old }
    {
        if self.is_settled() {
            return Ok(());
        }
        self.settle(alloc, code)
    }

    /// The action that the thread stands at.
    fn action(&self, alloc: Global) -> Result<Next, Memory>
        requires { IsSettled self.now.stage }
        ensures { IfOk result (λ next. Says next (held_of self.now)) }
    {
        match &self.stage {
            Stage::Asks(action, _) => Ok(Next::Does(action.copy()?)),
            Stage::Calls(arguments) => Ok(Next::Does(self.top.call(alloc, *arguments)?)),
            Stage::Over => Ok(Next::Ended),
            _ => unreachable!(),
        }
    }
}

/// The stage of a call that is to be made: it takes its monitor first.
fn called(monitor: Option<ObjId>, arguments: Arguments) -> Stage
    ensures { result ≡ called_stage monitor arguments }
{
    match monitor {
        Some(object) => Stage::Asks(Action::Enter(object, Way::Method), Then::Calls(arguments)),
        None => Stage::Calls(arguments),
    }
}

impl Machine {
    /// Goes on with the reply to the action that the thread stands at.
    fn answer(&mut self, code: &Checked, reply: Reply)
        requires fits { HeldFits (plain_of code.now) (held_of self.old) }
        requires asked { (deed : Deed) × IsAt deed (held_of self.old) }
        ensures { ComesTo (plain_of code.now) (answered (plain_of code.now) self.old.stage (frame_of self.old.top) self.old.callers reply) self.new.stage (frame_of self.new.top) self.new.callers }
    {
        match self.stage {
            Stage::Calls(_) => self.stage = Stage::Runs,
            Stage::Asks(_, then) => {
                self.stage = after(code.parts(), &mut self.top, &mut self.callers, then, reply);
            }
            _ => unreachable!(),
        }
    }
}

impl Machine {
    /// The machine of a thread that is to run that method, or that is only to end. `Memory` where there is none for its
    /// first call.
    pub fn new(alloc: Global, program: &Program, start: Option<Body>) -> Result<Machine, Memory>
        requires { StartFits (program_of program.now) start }
        ensures { IfOk result (λ machine. StandsFor (program_of program.now) start [] machine) }
    {
        program.well_formed();
        Machine::start(alloc, program.code(), start)
    }

    /// Runs the thread to its next action, or to its end. Asked again, it answers the same, and runs nothing. `Memory`
    /// where there is none; the thread has then come no further than to its next action, and may be asked again.
    pub fn next(&mut self, alloc: Global, program: &Program) -> Result<Next, Memory>
        requires { RunsThreadOf (program_of program.now) self.old }
        ensures next { IfOk result (λ answer. (start : Option Started) (replies : List Replied) →
            StandsFor (program_of program.now) start replies self.old → next_in (program_of program.now) start replies ≡ next_of answer) }
        ensures says { IfOk result (λ answer. Says answer (held_of self.new)) }
        ensures stands { (start : Option Started) (replies : List Replied) →
            StandsFor (program_of program.now) start replies self.old → StandsFor (program_of program.now) start replies self.new }
        ensures same { (answer : Answer) → Says answer (held_of self.old) → self.new ≡ self.old }
    {
        program.well_formed();
        self.ready(alloc, program.code())?;
        self.action(alloc)
    }

    /// Goes on with the reply to the action that the thread stands at. Takes no memory.
    pub fn resume(&mut self, program: &Program, reply: &Reply)
        requires program { RunsThreadOf (program_of program.now) self.old }
        requires asked { (deed : Deed) × IsAt deed (held_of self.old) }
        ensures { (start : Option Started) (replies : List Replied) →
            StandsFor (program_of program.now) start replies self.old → StandsFor (program_of program.now) start (replies ++ reply.now ∷ []) self.new }
    {
        self.answer(program.code(), *reply);
    }
}
