//! What each instruction does to its call.

ghost use Rattle.std.specs.Prelude.{◌≡◌, ◌<◌, ◌≤◌, ◌+◌, ◌^◌, IfOk, OnErr, MatchBool};
ghost use Rattle.jr_code.specs.Coded.{Tables};
ghost use Rattle.jr_code.specs.Decoded.{meaning};
ghost use Rattle.jr_code.specs.Instructions.{Code as PlainCode};
ghost use Rattle.jr_code.specs.Views.{tables_of, plain_of};
ghost use Rattle.jr_thread_machine.specs.Frames.{frame_of};
ghost use Rattle.jr_thread_machine.specs.Moves.{Steps};
ghost use Rattle.jr_thread_machine.specs.Stopping.{MayStop};
ghost use Rattle.jr_thread_machine.specs.declared.flow.Flow.TheVariants as flows;

use crate::flow::Flow;
use crate::frame::Frame;
use jr_base::{Fault, Memory, Value};
use jr_code::{Code, Instruction};
use std::alloc::Global;

impl Frame {
    /// Does an instruction that works on operands and locals alone, and answers whether it is one that gives them values.
    /// Nothing is done of any other.
    pub(crate) fn go(&mut self, instruction: Instruction) -> bool
        requires at { self.old.at + 1 < 2 ^ 32 }
        requires room { 4 ≤ self.old.stack.spare }
        ensures { MatchBool result ((plain : PlainCode) (t : Tables) → Steps plain (meaning t instruction) flows.Goes (frame_of self.old) (frame_of self.new))
            ((self.new ≡ self.old) × MayStop instruction (frame_of self.old)) }
    {
        match instruction {
            Instruction::PushInt(n) => self.int(&n),
            Instruction::PushBool(b) => self.constant(Value::Bool(b)),
            Instruction::PushNull => self.constant(Value::Null),
            Instruction::Load(place) => self.load(place),
            Instruction::Store(place) => self.store(place),
            Instruction::Pop => self.pop(),
            Instruction::Dup => self.dup(),
            Instruction::Dup2 => self.dup2(),
            Instruction::DupX1 => self.dup_x1(),
            Instruction::DupX2 => self.dup_x2(),
            Instruction::OneOperand(operator) => self.one_operand(operator),
            Instruction::TwoOperands(operator) => return self.two_operands(operator),
            Instruction::ConvertTo(width) => self.convert(width),
            Instruction::Jump(to) => self.jump(to),
            Instruction::JumpIf(to) => self.jump_if(to),
            Instruction::JumpNot(to) => self.jump_not(to),
            _ => return false,
        }
        true
    }

    /// Does any other instruction, as far as that asks for nothing.
    pub(crate) fn act(
        &mut self,
        alloc: Global,
        code: &Code,
        instruction: Instruction,
    ) -> Result<Flow, Memory>
        requires at { self.old.at + 1 < 2 ^ 32 }
        requires room { 4 ≤ self.old.stack.spare }
        requires stops { MayStop instruction (frame_of self.old) }
        ensures ok { IfOk result (λ flow. Steps (plain_of code.now) (meaning (tables_of code.now) instruction) flow (frame_of self.old) (frame_of self.new)) }
        ensures err { OnErr result (frame_of self.new ≡ frame_of self.old) }
    {
        match instruction {
            Instruction::PushClass(class) => self.push_class(code, class),
            Instruction::PushLong(place) => Ok(self.push_long(code, place)),
            Instruction::TwoOperands(_) => Ok(Flow::Throws(Fault::ArithmeticException)),
            Instruction::BackTo(to) => Ok(self.back_to(to)),
            Instruction::GetField(place) => Ok(self.get_field(code, place)),
            Instruction::PutField(place) => Ok(self.put_field(code, place)),
            Instruction::GetStatic(place) => Ok(self.get_static(code, place)),
            Instruction::PutStatic(place) => Ok(self.put_static(code, place)),
            Instruction::GetElement(place) => self.get_element(code, place),
            Instruction::PutElement(place) => self.put_element(code, place),
            Instruction::ArrayLength => Ok(self.array_length()),
            Instruction::Make(place) => Ok(self.make(code, place)),
            Instruction::MakeArray(place) => self.make_array(code, place),
            Instruction::EnterMonitor => Ok(self.enter()),
            Instruction::ExitMonitor => Ok(self.exit()),
            Instruction::OnObject(called) => Ok(self.on_object(called)),
            Instruction::WaitForTime => Ok(self.wait_for()),
            Instruction::SleepFor => Ok(self.sleep()),
            Instruction::YieldNow => Ok(self.yield_now()),
            Instruction::CallStaticMethod(method) => Ok(self.call_static(method)),
            Instruction::CallMethodOn(method) => Ok(self.call_on(code, method)),
            Instruction::ReturnNothing => Ok(self.return_nothing()),
            Instruction::ReturnTop => Ok(self.return_top()),
            Instruction::CommitNow => Ok(self.commit()),
            Instruction::AssertThat(place) => self.assert_that(alloc, code, place),
            Instruction::PrintAll(place) => self.print_all(alloc, code, place),
            Instruction::ThrowNew(place) => Ok(self.throw_new(code, place)),
            Instruction::ThrowLocal(place) => Ok(self.throw_local(place)),
            _ => unreachable!(),
        }
    }
}
