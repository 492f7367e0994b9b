//! Expressions: what each denotes, or which rule it breaks.

ghost use Rattle.std.specs.Prelude.{◌≡◌, map};
ghost use Rattle.jr_ast.specs.Expressions as source;
ghost use Rattle.jr_ast.specs.Expressions.{exprs, view_expr as view_source, view_shape as view_source_shape, view_suffix as view_source_suffix};
ghost use Rattle.jr_names.specs.Answered.{Answers};
ghost use Rattle.jr_typing.specs.Views.{view_arguments, view_denotation, view_scope, view_value};
ghost use Rattle.jr_typing_rules.specs.Answers.{one_by_one};
ghost use Rattle.jr_typing_rules.specs.Denotations as denotations;
ghost use Rattle.jr_typing_rules.specs.Expressions as spec;

use crate::access::{element, field_of, simple_name};
use crate::call::{called, newly_made};
use crate::callee::{callee_of, maker_of, own_callee};
use crate::denotation::{
    Arguments, Denotation, Value, denoting, face_of, in_brackets, value_held, value_of, variable_of,
};
use crate::literal::{negated_literal, of_literal, written_literal};
use crate::operation::operator_of;
use crate::operator::{
    assigned, conditional, infixed, not_here, of_java, postfix_step, prefixed, stepped_behind,
};
use crate::primary::{
    and_argument, as_boolean, as_int, class_literal, integer_under, new_array, own_this, this,
};
use crate::scope::Scope;
use crate::types::BOOLEAN;
use jr_ast::{Expr, Prefix, Shape, Suffix};
use jr_base::{Fail, Span};
use jr_program::TypedShape;
use jr_typing_rules::ValueType;
use sqlite_items::Items;
use std::alloc::Global;

/// What an expression denotes (JLS 15.1), or the refusal of the first rule that it breaks.
#[cycle(denoted)]
#[tactic(auto, using(jr_ast::proofs::Views::view_node))]
pub fn denotation_of(
    alloc: Global,
    scope: &Scope<'_, '_, '_>,
    expr: &Expr,
) -> Result<Denotation, Fail>
    ensures { Answers view_denotation (spec.denotes (view_scope scope.now) (view_source expr.now)) result }
{
    denotation_of_shape(alloc, scope, expr.place, expr.shape.get())
}

/// The value of an expression that has one.
#[cycle(denoted)]
pub fn value(alloc: Global, scope: &Scope<'_, '_, '_>, expr: &Expr) -> Result<Value, Fail>
    ensures { Answers view_value (spec.value (view_scope scope.now) (view_source expr.now)) result }
{
    let denotation = denotation_of(alloc, scope, expr)?;
    value_of(alloc, expr.place(), denotation)
}

#[cycle(denoted)]
#[tactic(auto, using(jr_ast::proofs::Views::view_call, jr_ast::proofs::Views::view_new_object, jr_ast::proofs::Views::view_suffixed, crate::proofs::Suffixes::denotes_onto))]
fn denotation_of_shape(
    alloc: Global,
    scope: &Scope<'_, '_, '_>,
    at: Span,
    shape: &Shape,
) -> Result<Denotation, Fail>
    ensures { Answers view_denotation (spec.denotes (view_scope scope.now) (view_source_shape shape.now at)) result }
{
    match shape {
        Shape::Null => Ok(denoting(alloc, ValueType::Null, TypedShape::Null)?),
        Shape::Boolean(truth) => Ok(denoting(alloc, BOOLEAN, TypedShape::Truth(*truth))?),
        Shape::Integer(written) => of_literal(alloc, written_literal(at, *written)?),
        Shape::This => this(alloc, scope, at),
        Shape::SimpleName(name) => simple_name(alloc, scope, at, name),
        Shape::ClassLiteral(name) => class_literal(alloc, scope, name),
        Shape::Brackets(inner) => in_brackets(inner.place(), denotation_of(alloc, scope, inner)?),
        Shape::Call(name, all) => {
            let callee = own_callee(scope, at, name)?;
            let given = arguments(alloc, scope, all.as_slice())?;
            called(
                alloc,
                scope.names,
                at,
                callee,
                own_this(alloc, scope)?,
                given,
            )
        }
        Shape::NewObject(name, all) => {
            let maker = maker_of(scope, at, name)?;
            let given = arguments(alloc, scope, all.as_slice())?;
            newly_made(alloc, scope.names, at, maker, given)
        }
        Shape::NewArray(written, size) => {
            let elem = scope.names.element_type(written)?;
            let size = as_int(size.place(), value(alloc, scope, size)?)?;
            new_array(alloc, elem, size)
        }
        Shape::Suffixed(primary, suffixes) => {
            let start = denotation_of_shape(alloc, scope, at, primary.get())?;
            with_suffixes(alloc, scope, at, start, suffixes.as_slice())
        }
        Shape::Prefix(operator, operand) => with_prefix(alloc, scope, at, *operator, operand),
        Shape::Postfix(operator, operand) => {
            let denotation = denotation_of(alloc, scope, operand)?;
            let target = variable_of(alloc, operand.place(), denotation)?;
            stepped_behind(alloc, at, postfix_step(*operator), target)
        }
        Shape::Infix(operator, left, right) => {
            of_java(at, *operator)?;
            let a = value(alloc, scope, left)?;
            let b = value(alloc, scope, right)?;
            infixed(alloc, scope.names, at, *operator, a, b)
        }
        Shape::Conditional(condition, left, right) => {
            let test = as_boolean(condition.place(), value(alloc, scope, condition)?)?;
            let a = value(alloc, scope, left)?;
            let b = value(alloc, scope, right)?;
            conditional(alloc, scope.names, at, test, a, b)
        }
        Shape::Assignment(operator, left, right) => {
            let denotation = denotation_of(alloc, scope, left)?;
            let target = variable_of(alloc, left.place(), denotation)?;
            let given = value(alloc, scope, right)?;
            let operation = operator_of(*operator);
            assigned(
                alloc,
                scope.names,
                at,
                right.place(),
                operation,
                target,
                given,
            )
        }
        Shape::Result | Shape::Old(_) | Shape::InLockset(_) | Shape::Quantified(_) => {
            Err(not_here(at))
        }
    }
}

/// An operator before its operand, or a literal with its minus (JLS 15.15, 3.10.1).
#[cycle(denoted)]
fn with_prefix(
    alloc: Global,
    scope: &Scope<'_, '_, '_>,
    at: Span,
    operator: Prefix,
    operand: &Expr,
) -> Result<Denotation, Fail>
    ensures { Answers view_denotation (spec.denotes (view_scope scope.now) (source.Prefixed at operator (view_source operand.now))) result }
{
    match integer_under(operator, operand) {
        Some(written) => of_literal(alloc, negated_literal(operand.place(), written)?),
        None => {
            let denotation = denotation_of(alloc, scope, operand)?;
            prefixed(alloc, at, operand.place(), operator, denotation)
        }
    }
}

/// Arguments, from left to right (JLS 15.7.4).
#[cycle(denoted)]
#[tactic(auto, using(crate::proofs::Suffixes::argument_fails, crate::proofs::Suffixes::argument_goes_on, crate::proofs::Suffixes::no_argument_left))]
fn arguments(alloc: Global, scope: &Scope<'_, '_, '_>, all: &[Expr]) -> Result<Arguments, Fail>
    ensures { Answers view_arguments (spec.arguments (view_scope scope.now) denotations.no_arguments (exprs (map view_source all.now))) result }
{
    let mut given = Arguments {
        heads: Items::new(alloc),
        nodes: Vec::new(alloc),
    };
    for expr in all {
        let found = value(alloc, scope, expr)?;
        and_argument(&mut given, expr.place(), found)?;
    }
    Ok(given)
}

/// What a primary denotes with what follows it, from left to right.
#[cycle(denoted)]
#[tactic(auto, using(jr_names::proofs::Turns::step_fails, jr_names::proofs::Turns::step_goes_on, jr_names::proofs::Turns::no_step_left))]
fn with_suffixes(
    alloc: Global,
    scope: &Scope<'_, '_, '_>,
    at: Span,
    primary: Denotation,
    all: &[Suffix],
) -> Result<Denotation, Fail>
    ensures { Answers view_denotation (one_by_one (spec.member (view_scope scope.now) at) (view_denotation primary) (map view_source_suffix all.now)) result }
{
    let mut denotation = primary;
    for suffix in all {
        denotation = member(alloc, scope, at, denotation, suffix)?;
    }
    Ok(denotation)
}

/// What stands before a suffix, with it.
#[cycle(denoted)]
#[tactic(auto, using(jr_ast::proofs::Views::view_invocation))]
fn member(
    alloc: Global,
    scope: &Scope<'_, '_, '_>,
    at: Span,
    denotation: Denotation,
    suffix: &Suffix,
) -> Result<Denotation, Fail>
    ensures { Answers view_denotation (spec.member (view_scope scope.now) at (view_denotation denotation) (view_source_suffix suffix.now)) result }
{
    match suffix {
        Suffix::Field(name) => field_of(alloc, scope, at, name, denotation),
        Suffix::Invocation(name, all) => {
            let callee = callee_of(scope, at, name, face_of(&denotation))?;
            let given = arguments(alloc, scope, all.as_slice())?;
            called(alloc, scope.names, at, callee, denotation, given)
        }
        Suffix::Index(index) => {
            let array = value_held(alloc, at, denotation)?;
            let index = as_int(index.place(), value(alloc, scope, index)?)?;
            element(at, index.node, array)
        }
    }
}
