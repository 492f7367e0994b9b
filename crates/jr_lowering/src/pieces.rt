//! Pieces of the code of expressions that hold no expression, each at its place, behind what stands already.

ghost use Rattle.std.specs.Prelude.{◌≡◌, ◌+◌, [], ◌∷◌, ◌++◌, IfOk, OnOk};
ghost use Rattle.jr_arith.specs.Operators.{number as number_value};
ghost use Rattle.jr_arith.specs.declared.operator.Binary.TheVariants.{Arithmetic as ArithmeticOperator};
ghost use Rattle.jr_arith.specs.declared.operator.Arithmetic.TheVariants.{Add};
ghost use Rattle.jr_arith.specs.declared.operator.Width.TheVariants as width;
ghost use Rattle.jr_base.specs.Threads.{cell};
ghost use Rattle.jr_base.specs.declared.value.Value.TheVariants as values;
ghost use Rattle.jr_meaning.specs.Objects.{home_of};
ghost use Rattle.jr_program.specs.Slots.{slot_of};
ghost use Rattle.jr_program.specs.UnitViews.{program_of};
ghost use Rattle.jr_code.specs.Instructions.{Push, Load, Dup, TwoOperands, Jump, JumpNot, GetStatic, Make};
ghost use Rattle.jr_lowering.specs.ExprCode.{shift, kind_of_field, copies, copies_size, conversion, conversion_size, read_one, write_one, keep_one};
ghost use Rattle.jr_lowering.specs.Emitted.{setting_with, access_is};
ghost use Rattle.jr_lowering.specs.Ops.{means};

use crate::access::{Access, Locals, kind, static_place};
use crate::op::{Emitted, Op};
use crate::size::sum;
use jr_arith::{Arithmetic, Binary, Width};
use jr_base::{FieldId, Memory, NewKind};
use jr_program::TypedUnit;

/// Gives a number, as a value of that type.
pub fn number(width: Width, n: i32) -> Op
    ensures { means result ≡ Push (number_value width n) }
{
    match width {
        Width::Int => Op::PushInt(n),
        Width::Long => Op::PushLong(n as i64),
    }
}

/// A second copy of a variable's operands.
#[tactic(auto, using(crate::proofs::Suffixes::nothing_more))]
pub fn put_copies(code: &mut Emitted, access: Access, at: u32) -> Result<u32, Memory>
    ensures code { OnOk result (code.new ≡ code.old ++ copies (access_is access)) }
    ensures next { IfOk result (λ next. next ≡ at + copies_size (access_is access)) }
{
    match access {
        Access::OfLocal(_) | Access::OfStatic(_, _) => Ok(at),
        Access::OfField(_, _) => code.put(Op::Dup, at),
        Access::OfElement(_) => code.put(Op::Dup2, at),
    }
}

/// A conversion where there is one.
#[tactic(auto, using(crate::proofs::Suffixes::nothing_more))]
pub fn put_conversion(code: &mut Emitted, narrows: bool, to: Width, at: u32) -> Result<u32, Memory>
    ensures code { OnOk result (code.new ≡ code.old ++ conversion narrows to) }
    ensures next { IfOk result (λ next. next ≡ at + conversion_size narrows) }
{
    if narrows {
        code.put(Op::ConvertTo(to), at)
    } else {
        Ok(at)
    }
}

/// Reads a variable, and leaves its operands for a write.
#[tactic(auto, using(std::proofs::lemmas::List::append_assoc))]
pub fn put_read(
    code: &mut Emitted,
    unit: &TypedUnit,
    locals: Locals,
    access: Access,
    at: u32,
) -> Result<u32, Memory>
    ensures code { OnOk result (code.new ≡ code.old ++ (copies (access_is access) ++ read_one (setting_with (program_of unit.now) locals) (access_is access) ∷ [])) }
    ensures next { IfOk result (λ next. next ≡ at + copies_size (access_is access) + 1) }
{
    let read = access.read(unit, locals)?;
    let next = put_copies(code, access, at)?;
    let next = code.put(read, next)?;
    Ok(next)
}

/// Writes a variable, and leaves the value.
#[tactic(auto, using(std::proofs::lemmas::List::append_assoc))]
pub fn put_write(
    code: &mut Emitted,
    unit: &TypedUnit,
    locals: Locals,
    access: Access,
    at: u32,
) -> Result<u32, Memory>
    ensures code { OnOk result (code.new ≡ code.old ++ (keep_one (access_is access) ∷ write_one (setting_with (program_of unit.now) locals) (access_is access) ∷ [])) }
    ensures next { IfOk result (λ next. next ≡ at + 2) }
{
    let write = access.write(unit, locals)?;
    let next = code.put(access.keep(), at)?;
    let next = code.put(write, next)?;
    Ok(next)
}

/// Adds a number to the value on the stack.
#[tactic(auto, using(std::proofs::lemmas::List::append_assoc))]
pub fn put_sum(code: &mut Emitted, width: Width, by: i32, at: u32) -> Result<u32, Memory>
    ensures code { OnOk result (code.new ≡ code.old ++ (Push (number_value width by) ∷ TwoOperands (ArithmeticOperator Add width) ∷ [])) }
    ensures next { IfOk result (λ next. next ≡ at + 2) }
{
    let next = code.put(number(width, by), at)?;
    let next = code.put(
        Op::TwoOperands(Binary::Arithmetic(Arithmetic::Add, width)),
        next,
    )?;
    Ok(next)
}

/// Goes behind a piece of that size, and the jump behind it, where the value on the stack is false.
pub fn put_test(code: &mut Emitted, left: u32, at: u32) -> Result<u32, Memory>
    ensures code { OnOk result (code.new ≡ code.old ++ JumpNot (at + 1 + left + 1) ∷ []) }
    ensures next { IfOk result (λ next. next ≡ at + 1) }
{
    let behind = sum(sum(at, 1)?, left)?;
    let other = sum(behind, 1)?;
    code.put(Op::JumpNot(other), at)
}

/// Goes behind a piece of that size, which comes next.
pub fn put_skip(code: &mut Emitted, right: u32, at: u32) -> Result<u32, Memory>
    ensures code { OnOk result (code.new ≡ code.old ++ Jump (at + 1 + right) ∷ []) }
    ensures next { IfOk result (λ next. next ≡ at + 1) }
{
    let end = sum(sum(at, 1)?, right)?;
    code.put(Op::Jump(end), at)
}

/// Goes behind a truth, which the other way gives in place of what stands already.
#[tactic(auto, using(std::proofs::lemmas::List::append_assoc))]
pub fn put_otherwise(code: &mut Emitted, truth: bool, at: u32) -> Result<u32, Memory>
    ensures code { OnOk result (code.new ≡ code.old ++ (Jump (at + 1 + 1) ∷ Push (values.Bool truth) ∷ [])) }
    ensures next { IfOk result (λ next. next ≡ at + 1 + 1) }
{
    let next = put_skip(code, 1, at)?;
    let next = code.put(Op::PushTruth(truth), next)?;
    Ok(next)
}

/// Reads a variable of the method.
pub fn put_local(code: &mut Emitted, locals: Locals, number: u32, at: u32) -> Result<u32, Memory>
    ensures code { OnOk result (code.new ≡ code.old ++ Load (shift locals.is_static + number) ∷ []) }
    ensures next { IfOk result (λ next. next ≡ at + 1) }
{
    let local = locals.local(number)?;
    code.put(Op::Load(local), at)
}

/// Reads a static field.
pub fn put_static(code: &mut Emitted, unit: &TypedUnit, f: FieldId, at: u32) -> Result<u32, Memory>
    ensures code { OnOk result (code.new ≡ code.old ++ GetStatic (cell (home_of (program_of unit.now) f) (slot_of (program_of unit.now) f)) (kind_of_field (program_of unit.now) f) ∷ []) }
    ensures next { IfOk result (λ next. next ≡ at + 1) }
{
    let place = static_place(unit, f)?;
    code.put(Op::GetStatic(place, kind(unit, f)), at)
}

/// Makes an object, and keeps it under what is done with it.
#[tactic(auto, using(std::proofs::lemmas::List::append_assoc))]
pub fn put_made(code: &mut Emitted, made: NewKind, at: u32) -> Result<u32, Memory>
    ensures code { OnOk result (code.new ≡ code.old ++ (Make made ∷ Dup ∷ [])) }
    ensures next { IfOk result (λ next. next ≡ at + 1 + 1) }
{
    let next = code.put(Op::Make(made), at)?;
    let next = code.put(Op::Dup, next)?;
    Ok(next)
}

/// Reads a variable that a compound assignment changes, at the operator's width.
#[tactic(auto, using(std::proofs::lemmas::List::append_assoc))]
pub fn put_widened(
    code: &mut Emitted,
    unit: &TypedUnit,
    locals: Locals,
    access: Access,
    narrows: bool,
    at: u32,
) -> Result<u32, Memory>
    ensures code { OnOk result (code.new ≡ code.old ++ (copies (access_is access) ++ read_one (setting_with (program_of unit.now) locals) (access_is access) ∷ conversion narrows width.Long)) }
    ensures next { IfOk result (λ next. next ≡ at + copies_size (access_is access) + 1 + conversion_size narrows) }
{
    let next = put_read(code, unit, locals, access, at)?;
    let next = put_conversion(code, narrows, Width::Long, next)?;
    Ok(next)
}

/// Writes the result of a compound assignment, at the variable's width.
#[tactic(auto, using(std::proofs::lemmas::List::append_assoc))]
pub fn put_narrowed(
    code: &mut Emitted,
    unit: &TypedUnit,
    locals: Locals,
    access: Access,
    narrows: bool,
    at: u32,
) -> Result<u32, Memory>
    ensures code { OnOk result (code.new ≡ code.old ++ (conversion narrows width.Int ++ (keep_one (access_is access) ∷ write_one (setting_with (program_of unit.now) locals) (access_is access) ∷ []))) }
    ensures next { IfOk result (λ next. next ≡ at + conversion_size narrows + 2) }
{
    let next = put_conversion(code, narrows, Width::Int, at)?;
    let next = put_write(code, unit, locals, access, next)?;
    Ok(next)
}

/// Adds to a variable whose operands stand there, and leaves its new value.
#[tactic(auto, using(std::proofs::lemmas::List::append_assoc))]
pub fn put_prefix(
    code: &mut Emitted,
    unit: &TypedUnit,
    locals: Locals,
    access: Access,
    width: Width,
    by: i32,
    at: u32,
) -> Result<u32, Memory>
    ensures code { OnOk result (code.new ≡ code.old ++ (copies (access_is access) ++ (read_one (setting_with (program_of unit.now) locals) (access_is access) ∷ Push (number_value width by) ∷ TwoOperands (ArithmeticOperator Add width) ∷ keep_one (access_is access) ∷ write_one (setting_with (program_of unit.now) locals) (access_is access) ∷ []))) }
    ensures next { IfOk result (λ next. next ≡ at + copies_size (access_is access) + 5) }
{
    let next = put_read(code, unit, locals, access, at)?;
    let next = put_sum(code, width, by, next)?;
    let next = put_write(code, unit, locals, access, next)?;
    Ok(next)
}

/// Adds to a variable whose operands stand there, and leaves the value that it had.
#[tactic(auto, using(std::proofs::lemmas::List::append_assoc))]
pub fn put_postfix(
    code: &mut Emitted,
    unit: &TypedUnit,
    locals: Locals,
    access: Access,
    width: Width,
    by: i32,
    at: u32,
) -> Result<u32, Memory>
    ensures code { OnOk result (code.new ≡ code.old ++ (copies (access_is access) ++ (read_one (setting_with (program_of unit.now) locals) (access_is access) ∷ keep_one (access_is access) ∷ Push (number_value width by) ∷ TwoOperands (ArithmeticOperator Add width) ∷ write_one (setting_with (program_of unit.now) locals) (access_is access) ∷ []))) }
    ensures next { IfOk result (λ next. next ≡ at + copies_size (access_is access) + 5) }
{
    let write = access.write(unit, locals)?;
    let next = put_read(code, unit, locals, access, at)?;
    let next = code.put(access.keep(), next)?;
    let next = put_sum(code, width, by, next)?;
    let next = code.put(write, next)?;
    Ok(next)
}
