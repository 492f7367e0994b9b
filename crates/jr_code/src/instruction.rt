//! Instructions by their rows, as the verifier, the lowering and the machine match on them.

ghost use Rattle.std.specs.Prelude.{◌≡◌, ◌≤◌, ◌↔◌, IsSome, IfSome};
ghost use Rattle.jr_code.specs.Coded.{Tables, plain, row_of_binary, row_of_unary, row_of_conversion};
ghost use Rattle.jr_code.specs.Decoded.{meaning};
ghost use Rattle.jr_code.specs.Verifier.{flow_of_row};

use crate::instr::Instr;
use jr_arith::{Arithmetic, Binary, Bitwise, Comparison, Shift, Unary, Width};
use jr_base::{MethodId, ObjectCall};

/// An instruction: its row with the row's argument, a place in a list of the code unless it says something else. Rows
/// of one operator are one: `bxor` and `bne` are both [`Binary::Differ`].
#[derive(Clone, Copy, Debug, PartialEq, Eq)]
pub enum Instruction {
    PushInt(i32),
    PushBool(bool),
    PushNull,
    /// The class object of a class.
    PushClass(u32),
    PushLong(u32),
    /// A local.
    Load(u32),
    /// A local.
    Store(u32),
    Pop,
    Dup,
    Dup2,
    DupX1,
    DupX2,
    OneOperand(Unary),
    TwoOperands(Binary),
    ConvertTo(Width),
    /// An instruction of the method.
    Jump(u32),
    /// An instruction of the method.
    JumpIf(u32),
    /// An instruction of the method.
    JumpNot(u32),
    /// An instruction of the method.
    BackTo(u32),
    GetField(u32),
    PutField(u32),
    GetStatic(u32),
    PutStatic(u32),
    GetElement(u32),
    PutElement(u32),
    ArrayLength,
    Make(u32),
    MakeArray(u32),
    EnterMonitor,
    ExitMonitor,
    OnObject(ObjectCall),
    WaitForTime,
    SleepFor,
    YieldNow,
    CallStaticMethod(MethodId),
    CallMethodOn(MethodId),
    ReturnNothing,
    ReturnTop,
    CommitNow,
    AssertThat(u32),
    PrintAll(u32),
    ThrowNew(u32),
    /// A local.
    ThrowLocal(u32),
}

/// Where an instruction goes on: at the next one, at another, at either, at one that isn't further on, or at none of the
/// method.
#[derive(Clone, Copy, Debug, PartialEq, Eq)]
pub enum Flow {
    Next,
    Jump(u32),
    Branch(u32),
    Back(u32),
    Ends,
}

// The instruction of a row, from a part of the table.
macro_rules! instruction_of_part {
    ($code:expr, $($number:literal $instruction:expr),* $(,)?) => {
        match $code {
            $($number => $instruction,)*
            _ => unreachable!(),
        }
    };
}

impl Instr {
    /// The instruction that this is. None where the number is no row's.
    #[inline(always)]
    pub fn decode(self) -> Option<Instruction>
        ensures means { IfSome result (λ i. (t : Tables) → meaning t i ≡ plain t self) }
        ensures row { IsSome result ↔ ((1 ≤ self.code) × (self.code ≤ 93)) }
    {
        match self.code {
            1..=12 => Some(self.stack_row()),
            13..=39 => Some(self.operator_row()),
            40..=70 => Some(self.action_row()),
            71..=93 => Some(self.long_row()),
            _ => None,
        }
    }

    #[inline(always)]
    fn stack_row(self) -> Instruction
        requires first { 1 ≤ self.code }
        requires last { self.code ≤ 12 }
        ensures { (t : Tables) → meaning t result ≡ plain t self }
    {
        let arg = self.arg;
        instruction_of_part!(
            self.code,
            1 Instruction::PushInt(arg.cast_signed()),
            2 Instruction::PushBool(true),
            3 Instruction::PushBool(false),
            4 Instruction::PushNull,
            5 Instruction::PushClass(arg),
            6 Instruction::Load(arg),
            7 Instruction::Store(arg),
            8 Instruction::Pop,
            9 Instruction::Dup,
            10 Instruction::Dup2,
            11 Instruction::DupX1,
            12 Instruction::DupX2,
        )
    }

    #[inline(always)]
    fn operator_row(self) -> Instruction
        requires first { 13 ≤ self.code }
        requires last { self.code ≤ 39 }
        ensures { (t : Tables) → meaning t result ≡ plain t self }
    {
        instruction_of_part!(
            self.code,
            13 Instruction::TwoOperands(Binary::Arithmetic(Arithmetic::Add, Width::Int)),
            14 Instruction::TwoOperands(Binary::Arithmetic(Arithmetic::Subtract, Width::Int)),
            15 Instruction::TwoOperands(Binary::Arithmetic(Arithmetic::Multiply, Width::Int)),
            16 Instruction::TwoOperands(Binary::Arithmetic(Arithmetic::Divide, Width::Int)),
            17 Instruction::TwoOperands(Binary::Arithmetic(Arithmetic::Remainder, Width::Int)),
            18 Instruction::OneOperand(Unary::Negate(Width::Int)),
            19 Instruction::OneOperand(Unary::Complement(Width::Int)),
            20 Instruction::TwoOperands(Binary::Bitwise(Bitwise::And, Width::Int)),
            21 Instruction::TwoOperands(Binary::Bitwise(Bitwise::Or, Width::Int)),
            22 Instruction::TwoOperands(Binary::Bitwise(Bitwise::Xor, Width::Int)),
            23 Instruction::TwoOperands(Binary::Shift(Shift::Left, Width::Int)),
            24 Instruction::TwoOperands(Binary::Shift(Shift::Right, Width::Int)),
            25 Instruction::TwoOperands(Binary::Shift(Shift::RightUnsigned, Width::Int)),
            26 Instruction::OneOperand(Unary::Not),
            27 Instruction::TwoOperands(Binary::BothTrue),
            28 Instruction::TwoOperands(Binary::EitherTrue),
            29 Instruction::TwoOperands(Binary::Differ),
            30 Instruction::TwoOperands(Binary::Compare(Comparison::Less, Width::Int)),
            31 Instruction::TwoOperands(Binary::Compare(Comparison::LessEqual, Width::Int)),
            32 Instruction::TwoOperands(Binary::Compare(Comparison::Greater, Width::Int)),
            33 Instruction::TwoOperands(Binary::Compare(Comparison::GreaterEqual, Width::Int)),
            34 Instruction::TwoOperands(Binary::Compare(Comparison::Equal, Width::Int)),
            35 Instruction::TwoOperands(Binary::Compare(Comparison::NotEqual, Width::Int)),
            36 Instruction::TwoOperands(Binary::Agree),
            37 Instruction::TwoOperands(Binary::Differ),
            38 Instruction::TwoOperands(Binary::SameReference),
            39 Instruction::TwoOperands(Binary::OtherReference),
        )
    }

    #[inline(always)]
    fn action_row(self) -> Instruction
        requires first { 40 ≤ self.code }
        requires last { self.code ≤ 70 }
        ensures { (t : Tables) → meaning t result ≡ plain t self }
    {
        let arg = self.arg;
        instruction_of_part!(
            self.code,
            40 Instruction::Jump(arg),
            41 Instruction::JumpIf(arg),
            42 Instruction::JumpNot(arg),
            43 Instruction::BackTo(arg),
            44 Instruction::GetField(arg),
            45 Instruction::PutField(arg),
            46 Instruction::GetStatic(arg),
            47 Instruction::PutStatic(arg),
            48 Instruction::GetElement(arg),
            49 Instruction::PutElement(arg),
            50 Instruction::ArrayLength,
            51 Instruction::Make(arg),
            52 Instruction::MakeArray(arg),
            53 Instruction::EnterMonitor,
            54 Instruction::ExitMonitor,
            55 Instruction::OnObject(ObjectCall::Wait),
            56 Instruction::OnObject(ObjectCall::Notify),
            57 Instruction::OnObject(ObjectCall::NotifyAll),
            58 Instruction::OnObject(ObjectCall::Start),
            59 Instruction::OnObject(ObjectCall::Join),
            60 Instruction::SleepFor,
            61 Instruction::YieldNow,
            62 Instruction::CallStaticMethod(MethodId(arg)),
            63 Instruction::CallMethodOn(MethodId(arg)),
            64 Instruction::ReturnNothing,
            65 Instruction::ReturnTop,
            66 Instruction::CommitNow,
            67 Instruction::AssertThat(arg),
            68 Instruction::PrintAll(arg),
            69 Instruction::ThrowNew(arg),
            70 Instruction::ThrowLocal(arg),
        )
    }

    #[inline(always)]
    fn long_row(self) -> Instruction
        requires first { 71 ≤ self.code }
        requires last { self.code ≤ 93 }
        ensures { (t : Tables) → meaning t result ≡ plain t self }
    {
        instruction_of_part!(
            self.code,
            71 Instruction::PushLong(self.arg),
            72 Instruction::ConvertTo(Width::Long),
            73 Instruction::TwoOperands(Binary::Arithmetic(Arithmetic::Add, Width::Long)),
            74 Instruction::TwoOperands(Binary::Arithmetic(Arithmetic::Subtract, Width::Long)),
            75 Instruction::TwoOperands(Binary::Arithmetic(Arithmetic::Multiply, Width::Long)),
            76 Instruction::TwoOperands(Binary::Arithmetic(Arithmetic::Divide, Width::Long)),
            77 Instruction::TwoOperands(Binary::Arithmetic(Arithmetic::Remainder, Width::Long)),
            78 Instruction::OneOperand(Unary::Negate(Width::Long)),
            79 Instruction::OneOperand(Unary::Complement(Width::Long)),
            80 Instruction::TwoOperands(Binary::Bitwise(Bitwise::And, Width::Long)),
            81 Instruction::TwoOperands(Binary::Bitwise(Bitwise::Or, Width::Long)),
            82 Instruction::TwoOperands(Binary::Bitwise(Bitwise::Xor, Width::Long)),
            83 Instruction::TwoOperands(Binary::Shift(Shift::Left, Width::Long)),
            84 Instruction::TwoOperands(Binary::Shift(Shift::Right, Width::Long)),
            85 Instruction::TwoOperands(Binary::Shift(Shift::RightUnsigned, Width::Long)),
            86 Instruction::TwoOperands(Binary::Compare(Comparison::Less, Width::Long)),
            87 Instruction::TwoOperands(Binary::Compare(Comparison::LessEqual, Width::Long)),
            88 Instruction::TwoOperands(Binary::Compare(Comparison::Greater, Width::Long)),
            89 Instruction::TwoOperands(Binary::Compare(Comparison::GreaterEqual, Width::Long)),
            90 Instruction::TwoOperands(Binary::Compare(Comparison::Equal, Width::Long)),
            91 Instruction::TwoOperands(Binary::Compare(Comparison::NotEqual, Width::Long)),
            92 Instruction::ConvertTo(Width::Int),
            93 Instruction::WaitForTime,
        )
    }
}

// The number of an operator's row.
fn unary_row(operator: Unary) -> u8
    ensures { result ≡ row_of_unary operator }
{
    match operator {
        Unary::Negate(Width::Int) => 18,
        Unary::Complement(Width::Int) => 19,
        Unary::Negate(Width::Long) => 78,
        Unary::Complement(Width::Long) => 79,
        Unary::Not => 26,
    }
}

fn binary_row(operator: Binary) -> u8
    ensures { result ≡ row_of_binary operator }
{
    match operator {
        Binary::Arithmetic(Arithmetic::Add, Width::Int) => 13,
        Binary::Arithmetic(Arithmetic::Subtract, Width::Int) => 14,
        Binary::Arithmetic(Arithmetic::Multiply, Width::Int) => 15,
        Binary::Arithmetic(Arithmetic::Divide, Width::Int) => 16,
        Binary::Arithmetic(Arithmetic::Remainder, Width::Int) => 17,
        Binary::Arithmetic(Arithmetic::Add, Width::Long) => 73,
        Binary::Arithmetic(Arithmetic::Subtract, Width::Long) => 74,
        Binary::Arithmetic(Arithmetic::Multiply, Width::Long) => 75,
        Binary::Arithmetic(Arithmetic::Divide, Width::Long) => 76,
        Binary::Arithmetic(Arithmetic::Remainder, Width::Long) => 77,
        Binary::Bitwise(Bitwise::And, Width::Int) => 20,
        Binary::Bitwise(Bitwise::Or, Width::Int) => 21,
        Binary::Bitwise(Bitwise::Xor, Width::Int) => 22,
        Binary::Bitwise(Bitwise::And, Width::Long) => 80,
        Binary::Bitwise(Bitwise::Or, Width::Long) => 81,
        Binary::Bitwise(Bitwise::Xor, Width::Long) => 82,
        Binary::Shift(Shift::Left, Width::Int) => 23,
        Binary::Shift(Shift::Right, Width::Int) => 24,
        Binary::Shift(Shift::RightUnsigned, Width::Int) => 25,
        Binary::Shift(Shift::Left, Width::Long) => 83,
        Binary::Shift(Shift::Right, Width::Long) => 84,
        Binary::Shift(Shift::RightUnsigned, Width::Long) => 85,
        Binary::Compare(Comparison::Less, Width::Int) => 30,
        Binary::Compare(Comparison::LessEqual, Width::Int) => 31,
        Binary::Compare(Comparison::Greater, Width::Int) => 32,
        Binary::Compare(Comparison::GreaterEqual, Width::Int) => 33,
        Binary::Compare(Comparison::Equal, Width::Int) => 34,
        Binary::Compare(Comparison::NotEqual, Width::Int) => 35,
        Binary::Compare(Comparison::Less, Width::Long) => 86,
        Binary::Compare(Comparison::LessEqual, Width::Long) => 87,
        Binary::Compare(Comparison::Greater, Width::Long) => 88,
        Binary::Compare(Comparison::GreaterEqual, Width::Long) => 89,
        Binary::Compare(Comparison::Equal, Width::Long) => 90,
        Binary::Compare(Comparison::NotEqual, Width::Long) => 91,
        Binary::BothTrue => 27,
        Binary::EitherTrue => 28,
        Binary::Differ => 29,
        Binary::Agree => 36,
        Binary::SameReference => 38,
        Binary::OtherReference => 39,
    }
}

impl Instruction {
    /// The coded form.
    pub fn encode(self) -> Instr
        ensures { (t : Tables) → plain t result ≡ meaning t self }
    {
        match self {
            Instruction::PushInt(n) => Instr {
                code: 1,
                arg: n.cast_unsigned(),
            },
            Instruction::PushBool(true) => Instr { code: 2, arg: 0 },
            Instruction::PushBool(false) => Instr { code: 3, arg: 0 },
            Instruction::PushNull => Instr { code: 4, arg: 0 },
            Instruction::PushClass(arg) => Instr { code: 5, arg },
            Instruction::Load(arg) => Instr { code: 6, arg },
            Instruction::Store(arg) => Instr { code: 7, arg },
            Instruction::Pop => Instr { code: 8, arg: 0 },
            Instruction::Dup => Instr { code: 9, arg: 0 },
            Instruction::Dup2 => Instr { code: 10, arg: 0 },
            Instruction::DupX1 => Instr { code: 11, arg: 0 },
            Instruction::DupX2 => Instr { code: 12, arg: 0 },
            Instruction::OneOperand(operator) => Instr {
                code: unary_row(operator),
                arg: 0,
            },
            Instruction::TwoOperands(operator) => Instr {
                code: binary_row(operator),
                arg: 0,
            },
            Instruction::ConvertTo(Width::Long) => Instr { code: 72, arg: 0 },
            Instruction::ConvertTo(Width::Int) => Instr { code: 92, arg: 0 },
            Instruction::PushLong(arg) => Instr { code: 71, arg },
            Instruction::WaitForTime => Instr { code: 93, arg: 0 },
            Instruction::Jump(arg) => Instr { code: 40, arg },
            Instruction::JumpIf(arg) => Instr { code: 41, arg },
            Instruction::JumpNot(arg) => Instr { code: 42, arg },
            Instruction::BackTo(arg) => Instr { code: 43, arg },
            Instruction::GetField(arg) => Instr { code: 44, arg },
            Instruction::PutField(arg) => Instr { code: 45, arg },
            Instruction::GetStatic(arg) => Instr { code: 46, arg },
            Instruction::PutStatic(arg) => Instr { code: 47, arg },
            Instruction::GetElement(arg) => Instr { code: 48, arg },
            Instruction::PutElement(arg) => Instr { code: 49, arg },
            Instruction::ArrayLength => Instr { code: 50, arg: 0 },
            Instruction::Make(arg) => Instr { code: 51, arg },
            Instruction::MakeArray(arg) => Instr { code: 52, arg },
            Instruction::EnterMonitor => Instr { code: 53, arg: 0 },
            Instruction::ExitMonitor => Instr { code: 54, arg: 0 },
            Instruction::OnObject(ObjectCall::Wait) => Instr { code: 55, arg: 0 },
            Instruction::OnObject(ObjectCall::Notify) => Instr { code: 56, arg: 0 },
            Instruction::OnObject(ObjectCall::NotifyAll) => Instr { code: 57, arg: 0 },
            Instruction::OnObject(ObjectCall::Start) => Instr { code: 58, arg: 0 },
            Instruction::OnObject(ObjectCall::Join) => Instr { code: 59, arg: 0 },
            Instruction::SleepFor => Instr { code: 60, arg: 0 },
            Instruction::YieldNow => Instr { code: 61, arg: 0 },
            Instruction::CallStaticMethod(method) => Instr {
                code: 62,
                arg: method.0,
            },
            Instruction::CallMethodOn(method) => Instr {
                code: 63,
                arg: method.0,
            },
            Instruction::ReturnNothing => Instr { code: 64, arg: 0 },
            Instruction::ReturnTop => Instr { code: 65, arg: 0 },
            Instruction::CommitNow => Instr { code: 66, arg: 0 },
            Instruction::AssertThat(arg) => Instr { code: 67, arg },
            Instruction::PrintAll(arg) => Instr { code: 68, arg },
            Instruction::ThrowNew(arg) => Instr { code: 69, arg },
            Instruction::ThrowLocal(arg) => Instr { code: 70, arg },
        }
    }

    /// Where it goes on, if it throws nothing.
    pub fn flow(self) -> Flow
        ensures { result ≡ flow_of_row self }
    {
        match self {
            Instruction::Jump(to) => Flow::Jump(to),
            Instruction::JumpIf(to) | Instruction::JumpNot(to) => Flow::Branch(to),
            Instruction::BackTo(to) => Flow::Back(to),
            Instruction::ReturnNothing | Instruction::ReturnTop => Flow::Ends,
            Instruction::ThrowNew(_) | Instruction::ThrowLocal(_) => Flow::Ends,
            _ => Flow::Next,
        }
    }
}
