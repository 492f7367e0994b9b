//! The operators, above the values of their operands.

ghost use Rattle.std.specs.Prelude.{◌≡◌, option_map};
ghost use Rattle.jr_program.specs.ExprViews.{view_expr, view_shape};
ghost use Rattle.jr_names.specs.Answered.{Answers};
ghost use Rattle.jr_typing.specs.Operated.{operated_on as operated_on_spec};
ghost use Rattle.jr_typing.specs.Views.{view_denotation, view_held, view_target, view_value};
ghost use Rattle.jr_typing_rules.specs.Expressions as rules;
ghost use Rattle.jr_typing_rules.specs.Operators as spec;

use crate::conversion::brought;
use crate::denotation::{
    Denotation, Held, Target, Value, denoting, mismatch, value_held, variable_of,
};
use crate::operation::{is_of_jml, operation_on, single, wider};
use crate::types::{INT, LONG, width_of};
use jr_arith::Binary;
use jr_ast::{Infix, Postfix, Prefix};
use jr_base::{Fail, Refusal, Span};
use jr_names::{Names, is_same};
use jr_program::{TypedExpr, TypedShape};
use jr_typing_rules::{Joint, Operation, Single, ValueType};
use std::alloc::Global;

/// The refusal of a form of clauses alone.
pub fn not_here(at: Span) -> Fail
    ensures { result ≡ Fail.Refused (Refusal.NotHere at) }
{
    Fail::Refused(Refusal::NotHere(at))
}

/// An operator of JML has no place in code.
pub fn of_java(at: Span, operator: Infix) -> Result<(), Fail>
    ensures { Answers (λ u. u) (spec.is_of_java at operator) result }
{
    if is_of_jml(operator) {
        return Err(not_here(at));
    }
    Ok(())
}

/// Two operands that are joined; an implication stands in clauses alone.
fn joined(joint: Joint, a: TypedExpr, b: TypedExpr) -> Option<TypedShape>
    ensures { option_map view_shape result ≡ spec.joined joint (view_expr a) (view_expr b) }
{
    match joint {
        Joint::Strict(op) => Some(TypedShape::Binary(op, a, b)),
        Joint::And => Some(TypedShape::And(a, b)),
        Joint::Or => Some(TypedShape::Or(a, b)),
        Joint::Implies | Joint::ImpliedBy => None,
    }
}

fn operated_on(
    alloc: Global,
    at: Span,
    operation: Operation,
    a: Value,
    b: Value,
) -> Result<Denotation, Fail>
    ensures { Answers view_denotation (operated_on_spec at operation (view_value a) (view_value b)) result }
{
    let left = brought(alloc, a.of, operation.left, a.node)?;
    let right = brought(alloc, b.of, operation.right, b.node)?;
    match joined(operation.joint, left, right) {
        Some(shape) => Ok(denoting(alloc, operation.of, shape)?),
        None => Err(not_here(at)),
    }
}

/// The left operand and the right one (JLS 15.17 to 15.24). Operands that the operator doesn't take are refused.
pub fn infixed(
    alloc: Global,
    names: &Names<'_>,
    at: Span,
    operator: Infix,
    a: Value,
    b: Value,
) -> Result<Denotation, Fail>
    ensures { Answers view_denotation (spec.infixed names.now.names at operator (view_value a) (view_value b)) result }
{
    match operation_on(names, operator, a.of, b.of) {
        Some(operation) => operated_on(alloc, at, operation, a, b),
        None => Err(mismatch(at)),
    }
}

/// What `++` and `--` add (JLS 15.15.1, 15.15.2); none of other operators.
pub fn step_of(operator: Prefix) -> Option<i32>
    ensures { result ≡ spec.step_of operator }
{
    match operator {
        Prefix::Increment => Some(1),
        Prefix::Decrement => Some(-1),
        Prefix::Negate | Prefix::Plus | Prefix::Not | Prefix::Complement => None,
    }
}

/// What an operator behind an operand adds to it (JLS 15.14).
pub fn postfix_step(operator: Postfix) -> i32
    ensures { result ≡ spec.postfix_step operator }
{
    match operator {
        Postfix::Increment => 1,
        Postfix::Decrement => -1,
    }
}

fn operated(alloc: Global, at: Span, operator: Prefix, held: Held) -> Result<Denotation, Fail>
    ensures { Answers view_denotation (spec.operated at operator (view_held held)) result }
{
    let Held { of, chain } = held;
    match single(operator, of) {
        Some(Single::Kept) => Ok(Denotation::Value(of, chain)),
        Some(Single::Applied(op)) => {
            let node = chain.expr(alloc)?;
            Ok(denoting(alloc, of, TypedShape::Unary(op, node))?)
        }
        None => Err(mismatch(at)),
    }
}

fn stepped_before(alloc: Global, at: Span, by: i32, target: Target) -> Result<Denotation, Fail>
    ensures { Answers view_denotation (spec.stepped_before at by (view_target target)) result }
{
    match width_of(target.of) {
        Some(width) => {
            let shape = TypedShape::PrefixIncrement(width, target.node, by);
            Ok(denoting(alloc, target.of, shape)?)
        }
        None => Err(mismatch(at)),
    }
}

/// `++` or `--` behind a variable, which adds that number (JLS 15.14). What is no number is refused.
pub fn stepped_behind(alloc: Global, at: Span, by: i32, target: Target) -> Result<Denotation, Fail>
    ensures { Answers view_denotation (spec.stepped_behind at by (view_target target)) result }
{
    match width_of(target.of) {
        Some(width) => {
            let shape = TypedShape::PostfixIncrement(width, target.node, by);
            Ok(denoting(alloc, target.of, shape)?)
        }
        None => Err(mismatch(at)),
    }
}

/// An operator before an operand, which stands at the second place (JLS 15.15).
pub fn prefixed(
    alloc: Global,
    at: Span,
    operand: Span,
    operator: Prefix,
    denotation: Denotation,
) -> Result<Denotation, Fail>
    ensures { Answers view_denotation (rules.prefixed at operand operator (view_denotation denotation)) result }
{
    match step_of(operator) {
        Some(by) => {
            let target = variable_of(alloc, operand, denotation)?;
            stepped_before(alloc, at, by, target)
        }
        None => {
            let held = value_held(alloc, operand, denotation)?;
            operated(alloc, at, operator, held)
        }
    }
}

/// `condition ? a : b` (JLS 15.25).
pub fn conditional(
    alloc: Global,
    names: &Names<'_>,
    at: Span,
    condition: Value,
    a: Value,
    b: Value,
) -> Result<Denotation, Fail>
    ensures { Answers view_denotation (spec.conditional names.now.names at (view_value condition) (view_value a) (view_value b)) result }
{
    match wider(names, a.of, b.of) {
        Some(of) => {
            let one = brought(alloc, a.of, of, a.node)?;
            let other = brought(alloc, b.of, of, b.node)?;
            Ok(denoting(alloc, of, TypedShape::Choice(condition.node, one, other))?)
        }
        None => Err(mismatch(at)),
    }
}

fn is_long_to_int(from: ValueType, to: ValueType) -> bool
    ensures { result ≡ spec.is_long_to_int from to }
{
    is_same(from, LONG) && is_same(to, INT)
}

/// The operation of a compound assignment, whose result may go to a variable of that type (JLS 15.26.2).
#[tactic(auto, unfolding(jr_typing_rules::specs::Operators::compound))]
fn compound(
    names: &Names<'_>,
    at: Span,
    operator: Infix,
    target: ValueType,
    value: ValueType,
) -> Result<Operation, Fail>
    ensures { Answers (λ o. o) (spec.compound names.now.names at operator target value) result }
{
    let Some(operation) = operation_on(names, operator, target, value) else {
        return Err(mismatch(at));
    };
    if !(is_same(operation.of, target) || is_long_to_int(operation.of, target)) {
        return Err(mismatch(at));
    }
    Ok(operation)
}

/// Only an operator that evaluates both operands is there for an assignment.
fn strict(joint: Joint) -> Option<Binary>
    ensures { result ≡ spec.strict joint }
{
    match joint {
        Joint::Strict(op) => Some(op),
        Joint::And | Joint::Or | Joint::Implies | Joint::ImpliedBy => None,
    }
}

fn assigned_plainly(
    alloc: Global,
    names: &Names<'_>,
    value_at: Span,
    target: Target,
    value: Value,
) -> Result<Denotation, Fail>
    ensures { Answers view_denotation (spec.assigned_plainly names.now.names value_at (view_target target) (view_value value)) result }
{
    if !names.is_assignable(value.of, target.of) {
        return Err(mismatch(value_at));
    }
    let node = brought(alloc, value.of, target.of, value.node)?;
    Ok(denoting(alloc, target.of, TypedShape::Assign(target.node, node))?)
}

fn assigned_by(
    alloc: Global,
    names: &Names<'_>,
    at: Span,
    operator: Infix,
    target: Target,
    value: Value,
) -> Result<Denotation, Fail>
    ensures { Answers view_denotation (spec.assigned_by names.now.names at operator (view_target target) (view_value value)) result }
{
    let operation = compound(names, at, operator, target.of, value.of)?;
    match strict(operation.joint) {
        Some(op) => {
            let node = brought(alloc, value.of, operation.right, value.node)?;
            let narrows = is_long_to_int(operation.of, target.of);
            let shape = TypedShape::Compound(op, narrows, target.node, node);
            Ok(denoting(alloc, target.of, shape)?)
        }
        None => Err(mismatch(at)),
    }
}

/// An assignment, which stands at the first place, and its value at the second (JLS 15.26).
pub fn assigned(
    alloc: Global,
    names: &Names<'_>,
    at: Span,
    value_at: Span,
    operator: Option<Infix>,
    target: Target,
    value: Value,
) -> Result<Denotation, Fail>
    ensures { Answers view_denotation (spec.assigned names.now.names at value_at operator (view_target target) (view_value value)) result }
{
    match operator {
        None => assigned_plainly(alloc, names, value_at, target, value),
        Some(operator) => assigned_by(alloc, names, at, operator, target, value),
    }
}
