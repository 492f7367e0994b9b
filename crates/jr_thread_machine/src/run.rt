//! Runs a call to where it doesn't go on by itself.

ghost use Rattle.std.specs.Prelude.{◌≡◌, ◌≤◌, IfOk, OnErr, MatchBool, MatchOption, Some, slice_get, length, map};
ghost use Rattle.jr_code.specs.Checked.{CodeRight};
ghost use Rattle.jr_code.specs.Machine.{regions_of};
ghost use Rattle.jr_code.specs.Views.{plain_of, region_of};
ghost use Rattle.jr_thread_machine.specs.Frames.{frame_of};
ghost use Rattle.jr_thread_machine.specs.Places.{IsReached};
ghost use Rattle.jr_thread_machine.specs.Halting.{Halts, HaltsAt};
ghost use Rattle.jr_base.specs.declared.action.Action.TheVariants as actions;
ghost use Rattle.jr_thread_machine.specs.declared.flow.Stop.TheVariants as stops;
ghost use Rattle.jr_thread_machine.specs.declared.flow.Then.TheVariants as thens;
ghost use Rattle.jr_thread_machine.specs.declared.handlers.Ran.TheVariants as rans;
ghost use Rattle.jr_thread_machine.specs.Steps.{RowAt, NoRowAt, WentOn, Stopped, Stays};

use crate::flow::{Flow, Stop};
use crate::frame::Frame;
use crate::handlers::Ran;
use crate::table::item_at;
use jr_base::Memory;
use jr_code::{Code, Instruction, MethodCode};
use std::alloc::Global;

/// The instruction at a place.
fn instruction_at(method: &MethodCode, at: u32) -> Option<Instruction>
    ensures { MatchOption result (NoRowAt method.now at) (RowAt method.now at) }
{
    match item_at(&method.instrs, at) {
        Some(instr) => instr.decode(),
        None => None,
    }
}

/// Where a call comes to by instructions that give operands and locals their values.
#[derive(Clone, Copy, Debug, PartialEq, Eq)]
pub(crate) enum Halt {
    /// An instruction that may stop the call or throw.
    At(Instruction),
    /// There is no instruction, which checked code never comes to.
    Nothing,
    /// There is no room for what an instruction may put on the stack.
    NoRoom,
}

impl Frame {
    /// Does instructions while they give operands and locals their values. None of it takes memory.
    #[inline(never)]
    fn advance(&mut self, code: &Code, method: &MethodCode) -> Halt
        requires right { CodeRight (plain_of code.now) }
        requires here { IsReached (plain_of code.now) self.old.method self.old.at }
        requires method { slice_get code.now.methods.items self.old.method.0 ≡ Some method.now }
        ensures stays { Stays (plain_of code.now) (frame_of self.old) (frame_of self.new) }
        ensures ahead { self.old.at ≤ self.new.at }
        ensures halts { Halts code.now method.now self.new result }
    {
        let _n = method.instrs.len();
        while self.stack.has_room(4) {
            let Some(instruction) = instruction_at(method, self.at) else {
                return Halt::Nothing;
            };
            if !self.go(instruction) {
                return Halt::At(instruction);
            }
        }
        Halt::NoRoom
    }

    /// Does an instruction that may stop the call, and goes on with an exception of it. None where the call goes on by
    /// itself.
    fn stop(
        &mut self,
        alloc: Global,
        code: &Code,
        method: &MethodCode,
        instruction: Instruction,
    ) -> Result<Option<Ran>, Memory>
        requires right { CodeRight (plain_of code.now) }
        requires here { IsReached (plain_of code.now) self.old.method self.old.at }
        requires at { HaltsAt code.now method.now instruction self.old }
        requires regions { regions_of (plain_of code.now) self.old.method ≡ map region_of method.now.regions.items }
        ensures ok { IfOk result (λ ran. MatchOption ran (WentOn (plain_of code.now) (length method.now.instrs.items) (frame_of self.old) (frame_of self.new))
            (λ ran. Stopped (plain_of code.now) ran (frame_of self.old) (frame_of self.new))) }
        ensures err { OnErr result (frame_of self.new ≡ frame_of self.old) }
    {
        match self.act(alloc, code, instruction)? {
            Flow::Goes => Ok(None),
            Flow::Throws(fault) => Ok(self.handle(&method.regions, 0, fault)),
            Flow::Stops(stop) => Ok(Some(Ran::Stops(stop))),
        }
    }

    /// Does instructions while they give operands and locals their values, and then the jump back of a loop, where the call
    /// stands before one. Answers whether it does that. None of it takes memory.
    pub(crate) fn goes_back(&mut self, code: &Code) -> bool
        requires right { CodeRight (plain_of code.now) }
        requires here { IsReached (plain_of code.now) self.old.method self.old.at }
        ensures { MatchBool result (Stopped (plain_of code.now) (rans.Stops (stops.Asks actions.Back thens.Runs)) (frame_of self.old) (frame_of self.new))
            (Stays (plain_of code.now) (frame_of self.old) (frame_of self.new)) }
    {
        let Some(method) = item_at(&code.methods, self.method.0) else {
            unreachable!();
        };
        match self.advance(code, method) {
            Halt::At(Instruction::BackTo(to)) => {
                self.jump_back(to);
                true
            }
            _ => false,
        }
    }

    /// Runs the call to where it doesn't go on by itself. `Memory` also where there is no room for its operands.
    #[inline(never)]
    pub(crate) fn run(&mut self, alloc: Global, code: &Code) -> Result<Ran, Memory>
        requires right { CodeRight (plain_of code.now) }
        requires here { IsReached (plain_of code.now) self.old.method self.old.at }
        ensures ok { IfOk result (λ ran. Stopped (plain_of code.now) ran (frame_of self.old) (frame_of self.new)) }
        ensures err { OnErr result (Stays (plain_of code.now) (frame_of self.old) (frame_of self.new)) }
    {
        let Some(method) = item_at(&code.methods, self.method.0) else {
            unreachable!();
        };
        loop {
            match self.advance(code, method) {
                Halt::At(instruction) => {
                    if let Some(ran) = self.stop(alloc, code, method, instruction)? {
                        return Ok(ran);
                    }
                }
                Halt::Nothing => return Ok(Ran::Stops(Stop::Nothing)),
                Halt::NoRoom => return Err(Memory),
            }
        }
    }
}
