//! The code of expressions, each at its place, behind what stands already. A place past `u32::MAX` is answered `Memory`.

ghost use Rattle.std.specs.Prelude.{◌≡◌, ◌+◌, [], ◌∷◌, ◌++◌, map, IfOk, OnOk};
ghost use Rattle.jr_base.specs.declared.action.NewKind.TheVariants.{Object as ObjectOf};
ghost use Rattle.jr_program.specs.Programs.{constructor_of};
ghost use Rattle.jr_program.specs.ExprViews.{exprs, view_expr, view_shape, view_suffix, view_variable};
ghost use Rattle.jr_program.specs.UnitViews.{program_of};
ghost use Rattle.jr_code.specs.Instructions.{Make};
ghost use Rattle.jr_lowering.specs.ExprCode.{constructor_code, constructor_size, expr_code, expr_size, exprs_code, exprs_size, spot_code, spot_size};
ghost use Rattle.jr_lowering.specs.SuffixCode.{suffix_code, suffix_size, suffixes_code, suffixes_size};
ghost use Rattle.jr_lowering.specs.Emitted.{setting_with};
ghost use Rattle.jr_lowering.specs.Ops.{means};

use crate::access::{Locals, access_to, kind, slot};
use crate::op::{Emitted, Op};
use crate::pieces::{
    put_local, put_made, put_narrowed, put_otherwise, put_postfix, put_prefix, put_skip,
    put_static, put_test, put_widened, put_write,
};
use crate::size::{constructor, size_of_expr};
use jr_base::{ClassId, Memory, NewKind, SlotKind};
use jr_program::{TypedExpr, TypedShape, TypedSuffix, TypedUnit, TypedVariable};

/// The code of an expression.
#[cycle(put)]
pub fn put_expr(
    code: &mut Emitted,
    unit: &TypedUnit,
    locals: Locals,
    expr: &TypedExpr,
    at: u32,
) -> Result<u32, Memory>
    ensures code { OnOk result (code.new ≡ code.old ++ expr_code (setting_with (program_of unit.now) locals) (view_expr expr.now) at) }
    ensures next { IfOk result (λ next. next ≡ at + expr_size (program_of unit.now) (view_expr expr.now)) }
{
    put_shape(code, unit, locals, expr.shape.get(), at)
}

#[cycle(put)]
#[tactic(auto, using(std::proofs::lemmas::List::append_assoc, crate::proofs::Suffixes::onto_code, crate::proofs::Suffixes::onto_size, jr_program::proofs::ExprEquations::view_suffixed, jr_program::proofs::ExprEquations::view_call_static, jr_program::proofs::ExprEquations::view_new_object))]
fn put_shape(
    code: &mut Emitted,
    unit: &TypedUnit,
    locals: Locals,
    shape: &TypedShape,
    at: u32,
) -> Result<u32, Memory>
    ensures code { OnOk result (code.new ≡ code.old ++ expr_code (setting_with (program_of unit.now) locals) (view_shape shape.now) at) }
    ensures next { IfOk result (λ next. next ≡ at + expr_size (program_of unit.now) (view_shape shape.now)) }
{
    match shape {
        TypedShape::Int(n) => code.put(Op::PushInt(*n), at),
        TypedShape::Long(n) => code.put(Op::PushLong(*n), at),
        TypedShape::Truth(truth) => code.put(Op::PushTruth(*truth), at),
        TypedShape::Null => code.put(Op::PushNull, at),
        TypedShape::This => code.put(locals.this(), at),
        TypedShape::ClassObject(class) => code.put(Op::PushClass(*class), at),
        TypedShape::Local(number) => put_local(code, locals, *number, at),
        TypedShape::StaticField(f) => put_static(code, unit, *f, at),
        TypedShape::NewPlain => code.put(Op::Make(NewKind::Plain), at),
        TypedShape::CallStatic(m, arguments) => {
            let next = put_exprs(code, unit, locals, arguments.as_slice(), at)?;
            code.put(Op::CallStaticMethod(*m), next)
        }
        TypedShape::NewObject(class, arguments) => {
            put_new(code, unit, locals, *class, arguments.as_slice(), at)
        }
        TypedShape::NewThread(e) => {
            let next = put_made(code, NewKind::Thread, at)?;
            put_then(code, unit, locals, e, Op::PutField(0, SlotKind::Ref), next)
        }
        TypedShape::NewArray(element, e) => {
            put_then(code, unit, locals, e, Op::MakeArray(*element), at)
        }
        TypedShape::Suffixed(e, suffixes) => {
            let next = put_expr(code, unit, locals, e, at)?;
            put_suffixes(code, unit, locals, suffixes.as_slice(), next)
        }
        TypedShape::Convert(to, e) => put_then(code, unit, locals, e, Op::ConvertTo(*to), at),
        TypedShape::Unary(operator, e) => {
            put_then(code, unit, locals, e, Op::OneOperand(*operator), at)
        }
        TypedShape::Binary(operator, a, b) => {
            let next = put_expr(code, unit, locals, a, at)?;
            put_then(code, unit, locals, b, Op::TwoOperands(*operator), next)
        }
        TypedShape::And(a, b) => {
            let next = put_expr(code, unit, locals, a, at)?;
            let next = put_test(code, size_of_expr(unit, b)?, next)?;
            let next = put_expr(code, unit, locals, b, next)?;
            put_otherwise(code, false, next)
        }
        TypedShape::Or(a, b) => {
            let next = put_expr(code, unit, locals, a, at)?;
            let next = put_test(code, 1, next)?;
            let next = code.put(Op::PushTruth(true), next)?;
            let next = put_skip(code, size_of_expr(unit, b)?, next)?;
            put_expr(code, unit, locals, b, next)
        }
        TypedShape::Choice(c, a, b) => {
            let next = put_expr(code, unit, locals, c, at)?;
            let next = put_test(code, size_of_expr(unit, a)?, next)?;
            let next = put_expr(code, unit, locals, a, next)?;
            let next = put_skip(code, size_of_expr(unit, b)?, next)?;
            put_expr(code, unit, locals, b, next)
        }
        TypedShape::Assign(v, e) => {
            let access = access_to(unit, v)?;
            let next = put_spot(code, unit, locals, v, at)?;
            let next = put_expr(code, unit, locals, e, next)?;
            put_write(code, unit, locals, access, next)
        }
        TypedShape::Compound(operator, narrows, v, e) => {
            let access = access_to(unit, v)?;
            let next = put_spot(code, unit, locals, v, at)?;
            let next = put_widened(code, unit, locals, access, *narrows, next)?;
            let next = put_then(code, unit, locals, e, Op::TwoOperands(*operator), next)?;
            put_narrowed(code, unit, locals, access, *narrows, next)
        }
        TypedShape::PrefixIncrement(width, v, by) => {
            let access = access_to(unit, v)?;
            let next = put_spot(code, unit, locals, v, at)?;
            put_prefix(code, unit, locals, access, *width, *by, next)
        }
        TypedShape::PostfixIncrement(width, v, by) => {
            let access = access_to(unit, v)?;
            let next = put_spot(code, unit, locals, v, at)?;
            put_postfix(code, unit, locals, access, *width, *by, next)
        }
    }
}

/// The code of an expression, and an instruction behind it.
#[cycle(put)]
#[tactic(auto, using(std::proofs::lemmas::List::append_assoc))]
pub fn put_then(
    code: &mut Emitted,
    unit: &TypedUnit,
    locals: Locals,
    expr: &TypedExpr,
    op: Op,
    at: u32,
) -> Result<u32, Memory>
    ensures code { OnOk result (code.new ≡ code.old ++ (expr_code (setting_with (program_of unit.now) locals) (view_expr expr.now) at ++ means op ∷ [])) }
    ensures next { IfOk result (λ next. next ≡ at + expr_size (program_of unit.now) (view_expr expr.now) + 1) }
{
    let next = put_expr(code, unit, locals, expr, at)?;
    let next = code.put(op, next)?;
    Ok(next)
}

// `new` of a class of the program. A class without a constructor takes no arguments.
#[cycle(put)]
#[tactic(auto, using(std::proofs::lemmas::List::append_assoc))]
fn put_new(
    code: &mut Emitted,
    unit: &TypedUnit,
    locals: Locals,
    class: ClassId,
    arguments: &[TypedExpr],
    at: u32,
) -> Result<u32, Memory>
    ensures code { OnOk result (code.new ≡ code.old ++ (Make (ObjectOf class) ∷ constructor_code (constructor_of (program_of unit.now) class) (exprs_code (setting_with (program_of unit.now) locals) (exprs (map view_expr arguments.now)) (at + 1 + 1)))) }
    ensures next { IfOk result (λ next. next ≡ at + (1 + constructor_size (constructor_of (program_of unit.now) class) (exprs_size (program_of unit.now) (exprs (map view_expr arguments.now))))) }
{
    let made = NewKind::Object(class);
    match constructor(unit, class) {
        Some(m) => {
            let next = put_made(code, made, at)?;
            let next = put_exprs(code, unit, locals, arguments, next)?;
            let next = code.put(Op::CallMethodOn(m), next)?;
            Ok(next)
        }
        None => code.put(Op::Make(made), at),
    }
}

// The operands of a variable.
#[cycle(put)]
#[tactic(auto, using(std::proofs::lemmas::List::append_assoc, crate::proofs::Suffixes::nothing_more))]
fn put_spot(
    code: &mut Emitted,
    unit: &TypedUnit,
    locals: Locals,
    variable: &TypedVariable,
    at: u32,
) -> Result<u32, Memory>
    ensures code { OnOk result (code.new ≡ code.old ++ spot_code (setting_with (program_of unit.now) locals) (view_variable variable.now) at) }
    ensures next { IfOk result (λ next. next ≡ at + spot_size (program_of unit.now) (view_variable variable.now)) }
{
    match variable {
        TypedVariable::OfMethod(_) | TypedVariable::OfClass(_) => Ok(at),
        TypedVariable::OfObject(e, _) => put_expr(code, unit, locals, e, at),
        TypedVariable::OfArray(_, a, i) => {
            let next = put_expr(code, unit, locals, a, at)?;
            put_expr(code, unit, locals, i, next)
        }
    }
}

#[cycle(put)]
#[tactic(auto, using(std::proofs::lemmas::List::append_assoc, crate::proofs::Suffixes::nothing_more))]
fn put_suffixes(
    code: &mut Emitted,
    unit: &TypedUnit,
    locals: Locals,
    all: &[TypedSuffix],
    at: u32,
) -> Result<u32, Memory>
    ensures code { OnOk result (code.new ≡ code.old ++ suffixes_code (setting_with (program_of unit.now) locals) (map view_suffix all.now) at) }
    ensures next { IfOk result (λ next. next ≡ at + suffixes_size (program_of unit.now) (map view_suffix all.now)) }
{
    let mut next = at;
    for suffix in all {
        next = put_suffix(code, unit, locals, suffix, next)?;
    }
    Ok(next)
}

#[cycle(put)]
#[tactic(auto, using(std::proofs::lemmas::List::append_assoc, jr_program::proofs::ExprEquations::view_invocation))]
fn put_suffix(
    code: &mut Emitted,
    unit: &TypedUnit,
    locals: Locals,
    suffix: &TypedSuffix,
    at: u32,
) -> Result<u32, Memory>
    ensures code { OnOk result (code.new ≡ code.old ++ suffix_code (setting_with (program_of unit.now) locals) (view_suffix suffix.now) at) }
    ensures next { IfOk result (λ next. next ≡ at + suffix_size (program_of unit.now) (view_suffix suffix.now)) }
{
    match suffix {
        TypedSuffix::Field(f) => code.put(Op::GetField(slot(unit, *f), kind(unit, *f)), at),
        TypedSuffix::Invocation(m, arguments) => {
            let next = put_exprs(code, unit, locals, arguments.as_slice(), at)?;
            let next = code.put(Op::CallMethodOn(*m), next)?;
            Ok(next)
        }
        TypedSuffix::Element(element, e) => {
            put_then(code, unit, locals, e, Op::GetElement(*element), at)
        }
        TypedSuffix::Length => code.put(Op::ArrayLength, at),
    }
}

/// The code of arguments, from left to right.
#[cycle(put)]
#[tactic(auto, using(std::proofs::lemmas::List::append_assoc, crate::proofs::Suffixes::nothing_more))]
pub fn put_exprs(
    code: &mut Emitted,
    unit: &TypedUnit,
    locals: Locals,
    all: &[TypedExpr],
    at: u32,
) -> Result<u32, Memory>
    ensures code { OnOk result (code.new ≡ code.old ++ exprs_code (setting_with (program_of unit.now) locals) (exprs (map view_expr all.now)) at) }
    ensures next { IfOk result (λ next. next ≡ at + exprs_size (program_of unit.now) (exprs (map view_expr all.now))) }
{
    let mut next = at;
    for expr in all {
        next = put_expr(code, unit, locals, expr, next)?;
    }
    Ok(next)
}
