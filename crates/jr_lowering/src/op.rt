//! Instructions as they are emitted, each with the thing itself.

ghost use Rattle.std.specs.Prelude.{◌≡◌, ◌+◌, List, [], ◌∷◌, ◌++◌, map, IfOk, OnOk};
ghost use Rattle.jr_code.specs.Instructions.{Instruction};
ghost use Rattle.jr_lowering.specs.Ops.{means};

use crate::size::sum;
use jr_arith::{Binary, Unary, Width};
use jr_base::{
    Cell, ClassId, Elem, Fault, Memory, MethodId, NewKind, ObjectCall, Reserved, SlotKind, TextId,
};
use jr_code::AssertCode;
use std::alloc::Global;
use std::marker::Model;

/// An instruction: what it pushes, which local, place or target it names, or what it does.
#[derive(Drop)]
pub enum Op {
    PushInt(i32),
    PushLong(i64),
    PushTruth(bool),
    PushNull,
    /// The class object of a class.
    PushClass(ClassId),
    Load(u32),
    Store(u32),
    Pop,
    Dup,
    Dup2,
    DupX1,
    DupX2,
    OneOperand(Unary),
    TwoOperands(Binary),
    ConvertTo(Width),
    Jump(u32),
    JumpNot(u32),
    BackTo(u32),
    GetField(u32, SlotKind),
    PutField(u32, SlotKind),
    GetStatic(Cell, SlotKind),
    PutStatic(Cell, SlotKind),
    GetElement(Elem),
    PutElement(Elem),
    ArrayLength,
    Make(NewKind),
    MakeArray(Elem),
    EnterMonitor,
    ExitMonitor,
    OnObject(ObjectCall),
    WaitForTime,
    SleepFor,
    YieldNow,
    CallStaticMethod(MethodId),
    CallMethodOn(MethodId),
    ReturnNothing,
    ReturnTop,
    CommitNow,
    AssertThat(AssertCode),
    PrintAll(Reserved<Option<TextId>>),
    ThrowNew(Fault),
    ThrowLocal(u32),
}

/// The instructions of a method, as far as they have been emitted.
#[derive(Drop)]
pub struct Emitted {
    ops: Vec<Op>,
}

impl Model for Emitted {
    ghost Value = { List Instruction };

    ghost view = { λ emitted. map means emitted.ops.items };
}

impl Emitted {
    /// Nothing so far.
    pub fn new(alloc: Global) -> Emitted
        ensures { result ≡ [] }
    {
        Emitted {
            ops: Vec::new(alloc),
        }
    }

    /// The instructions.
    pub fn ops(&self) -> &[Op]
        ensures { map means result.now ≡ self.now }
    {
        self.ops.as_slice()
    }

    /// The allocator that the instructions take their room from. It has no clause, since contracts don't tell allocators
    /// apart.
    pub fn allocator(&self) -> Global {
        *self.ops.allocator()
    }

    /// Adds an instruction at that place, and answers the place behind it.
    #[tactic(auto, using(crate::proofs::Emits::one_more))]
    pub fn put(&mut self, op: Op, at: u32) -> Result<u32, Memory>
        ensures code { OnOk result (self.new ≡ self.old ++ means op ∷ []) }
        ensures next { IfOk result (λ next. next ≡ at + 1) }
    {
        self.ops.push(op)?;
        sum(at, 1)
    }
}
