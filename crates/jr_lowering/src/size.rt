//! How many instructions the code of expressions has. A size past `u32::MAX` is answered `Memory`.

ghost use Rattle.std.specs.Prelude.{◌≡◌, ◌+◌, ◌≤◌, map, IfOk};
ghost use Rattle.jr_program.specs.Programs.{Program, constructor_of};
ghost use Rattle.jr_program.specs.ExprViews.{exprs, view_expr, view_shape, view_suffix, view_variable};
ghost use Rattle.jr_program.specs.UnitViews.{program_of};
ghost use Rattle.jr_lowering.specs.ExprCode.{access_of, copies_size, conversion_size, constructor_size, expr_size, spot_size, exprs_size};
ghost use Rattle.jr_lowering.specs.SuffixCode.{suffix_size, suffixes_size};

use jr_base::{ClassId, Memory, MethodId};
use jr_program::{TypedExpr, TypedShape, TypedSuffix, TypedUnit, TypedVariable};

/// The sum of two sizes.
pub fn sum(a: u32, b: u32) -> Result<u32, Memory>
    ensures { IfOk result (λ n. n ≡ a + b) }
{
    match a.checked_add(b) {
        Some(n) => Ok(n),
        None => Err(Memory),
    }
}

/// The constructor of a class of the unit, if it has one.
pub fn constructor(unit: &TypedUnit, class: ClassId) -> Option<MethodId>
    ensures { result ≡ constructor_of (program_of unit.now) class }
{
    if class.0 < unit.class_count() {
        unit.class(class).constructor
    } else {
        None
    }
}

/// How many instructions copy the operands of a variable.
pub fn size_of_copies(variable: &TypedVariable) -> u32
    ensures same { (program : Program) → result ≡ copies_size (access_of program (view_variable variable.now)) }
    ensures few { result ≤ 1 }
{
    match variable {
        TypedVariable::OfMethod(_) | TypedVariable::OfClass(_) => 0,
        TypedVariable::OfObject(_, _) | TypedVariable::OfArray(_, _, _) => 1,
    }
}

/// How many instructions the code of an expression has.
#[cycle(size)]
#[tactic(auto, using(crate::proofs::Suffixes::onto_size, jr_program::proofs::ExprEquations::view_suffixed, jr_program::proofs::ExprEquations::view_call_static, jr_program::proofs::ExprEquations::view_new_object, jr_program::proofs::ExprEquations::view_invocation))]
pub fn size_of_expr(unit: &TypedUnit, expr: &TypedExpr) -> Result<u32, Memory>
    ensures { IfOk result (λ n. n ≡ expr_size (program_of unit.now) (view_expr expr.now)) }
{
    size_of_shape(unit, expr.shape.get())
}

#[cycle(size)]
#[tactic(auto, using(crate::proofs::Suffixes::onto_size, jr_program::proofs::ExprEquations::view_suffixed, jr_program::proofs::ExprEquations::view_call_static, jr_program::proofs::ExprEquations::view_new_object, jr_program::proofs::ExprEquations::view_invocation))]
fn size_of_shape(unit: &TypedUnit, shape: &TypedShape) -> Result<u32, Memory>
    ensures { IfOk result (λ n. n ≡ expr_size (program_of unit.now) (view_shape shape.now)) }
{
    match shape {
        TypedShape::Int(_)
        | TypedShape::Long(_)
        | TypedShape::Truth(_)
        | TypedShape::Null
        | TypedShape::This
        | TypedShape::ClassObject(_)
        | TypedShape::Local(_)
        | TypedShape::StaticField(_)
        | TypedShape::NewPlain => Ok(1),
        TypedShape::CallStatic(_, arguments) => sum(size_of_exprs(unit, arguments.as_slice())?, 1),
        TypedShape::NewObject(class, arguments) => {
            let arguments = size_of_exprs(unit, arguments.as_slice())?;
            size_of_new(constructor(unit, *class), arguments)
        }
        TypedShape::NewThread(e) => sum(size_of_expr(unit, e)?, 3),
        TypedShape::NewArray(_, e) | TypedShape::Convert(_, e) | TypedShape::Unary(_, e) => {
            sum(size_of_expr(unit, e)?, 1)
        }
        TypedShape::Suffixed(e, suffixes) => {
            let primary = size_of_expr(unit, e)?;
            let rest = size_of_suffixes(unit, suffixes.as_slice())?;
            let whole = sum(primary, rest)?;
            Ok(whole)
        }
        TypedShape::Binary(_, a, b) => {
            let operands = sum(size_of_expr(unit, a)?, size_of_expr(unit, b)?)?;
            sum(operands, 1)
        }
        TypedShape::And(a, b) | TypedShape::Or(a, b) => {
            let operands = sum(size_of_expr(unit, a)?, size_of_expr(unit, b)?)?;
            sum(operands, 3)
        }
        TypedShape::Choice(c, a, b) => {
            let test = sum(size_of_expr(unit, c)?, size_of_expr(unit, a)?)?;
            let whole = sum(test, size_of_expr(unit, b)?)?;
            sum(whole, 2)
        }
        TypedShape::Assign(v, e) => {
            let both = sum(size_of_variable(unit, v)?, size_of_expr(unit, e)?)?;
            sum(both, 2)
        }
        TypedShape::Compound(_, narrows, v, e) => {
            let both = sum(size_of_variable(unit, v)?, size_of_expr(unit, e)?)?;
            let conversions = size_of_conversions(*narrows);
            sum(both, size_of_copies(v) + conversions + 4)
        }
        TypedShape::PrefixIncrement(_, v, _) | TypedShape::PostfixIncrement(_, v, _) => {
            sum(size_of_variable(unit, v)?, size_of_copies(v) + 5)
        }
    }
}

/// The two conversions of a compound assignment that narrows.
fn size_of_conversions(narrows: bool) -> u32
    ensures same { result ≡ conversion_size narrows + conversion_size narrows }
    ensures few { result ≤ 2 }
{
    if narrows { 2 } else { 0 }
}

/// `new` of a class with that constructor, where the code of its arguments has that size.
fn size_of_new(constructor: Option<MethodId>, arguments: u32) -> Result<u32, Memory>
    ensures { IfOk result (λ n. n ≡ 1 + constructor_size constructor arguments) }
{
    match constructor {
        Some(_) => sum(arguments, 3),
        None => Ok(1),
    }
}

/// How many instructions give the operands of a variable.
#[cycle(size)]
#[tactic(auto, using(crate::proofs::Suffixes::onto_size, jr_program::proofs::ExprEquations::view_suffixed, jr_program::proofs::ExprEquations::view_call_static, jr_program::proofs::ExprEquations::view_new_object, jr_program::proofs::ExprEquations::view_invocation))]
fn size_of_variable(unit: &TypedUnit, variable: &TypedVariable) -> Result<u32, Memory>
    ensures { IfOk result (λ n. n ≡ spot_size (program_of unit.now) (view_variable variable.now)) }
{
    match variable {
        TypedVariable::OfMethod(_) | TypedVariable::OfClass(_) => Ok(0),
        TypedVariable::OfObject(e, _) => size_of_expr(unit, e),
        TypedVariable::OfArray(_, a, i) => sum(size_of_expr(unit, a)?, size_of_expr(unit, i)?),
    }
}

#[cycle(size)]
#[tactic(auto, using(crate::proofs::Suffixes::onto_size, jr_program::proofs::ExprEquations::view_suffixed, jr_program::proofs::ExprEquations::view_call_static, jr_program::proofs::ExprEquations::view_new_object, jr_program::proofs::ExprEquations::view_invocation))]
fn size_of_suffixes(unit: &TypedUnit, all: &[TypedSuffix]) -> Result<u32, Memory>
    ensures { IfOk result (λ n. n ≡ suffixes_size (program_of unit.now) (map view_suffix all.now)) }
{
    let mut total = 0;
    for suffix in all {
        total = sum(total, size_of_suffix(unit, suffix)?)?;
    }
    Ok(total)
}

#[cycle(size)]
#[tactic(auto, using(crate::proofs::Suffixes::onto_size, jr_program::proofs::ExprEquations::view_suffixed, jr_program::proofs::ExprEquations::view_call_static, jr_program::proofs::ExprEquations::view_new_object, jr_program::proofs::ExprEquations::view_invocation))]
fn size_of_suffix(unit: &TypedUnit, suffix: &TypedSuffix) -> Result<u32, Memory>
    ensures { IfOk result (λ n. n ≡ suffix_size (program_of unit.now) (view_suffix suffix.now)) }
{
    match suffix {
        TypedSuffix::Field(_) | TypedSuffix::Length => Ok(1),
        TypedSuffix::Invocation(_, arguments) => sum(size_of_exprs(unit, arguments.as_slice())?, 1),
        TypedSuffix::Element(_, e) => sum(size_of_expr(unit, e)?, 1),
    }
}

/// How many instructions the code of arguments has.
#[cycle(size)]
#[tactic(auto, using(crate::proofs::Suffixes::onto_size, jr_program::proofs::ExprEquations::view_suffixed, jr_program::proofs::ExprEquations::view_call_static, jr_program::proofs::ExprEquations::view_new_object, jr_program::proofs::ExprEquations::view_invocation))]
pub fn size_of_exprs(unit: &TypedUnit, all: &[TypedExpr]) -> Result<u32, Memory>
    ensures { IfOk result (λ n. n ≡ exprs_size (program_of unit.now) (exprs (map view_expr all.now))) }
{
    let mut total = 0;
    for expr in all {
        total = sum(total, size_of_expr(unit, expr)?)?;
    }
    Ok(total)
}
