//! Expressions as parts of statements.

ghost use Rattle.std.specs.Prelude.{◌≡◌, map, option_map};
ghost use Rattle.jr_ast.specs.Expressions.{applied, view_expr as view_source, view_shape as view_source_shape, view_suffix as view_source_suffix};
ghost use Rattle.jr_names.specs.Answered.{Answers};
ghost use Rattle.jr_program.specs.ExprViews.{view_effect, view_expr};
ghost use Rattle.jr_program.specs.StatementViews.{view_form};
ghost use Rattle.jr_typing.specs.Traces as traces;
ghost use Rattle.jr_typing.specs.Views.{view_denotation, view_scope, view_value};
ghost use Rattle.jr_typing_rules.specs.Answers.{each};
ghost use Rattle.jr_typing_rules.specs.Statements as spec;

use crate::conversion::brought;
use crate::denotation::{Denotation, Value, mismatch, value_of};
use crate::expression::{denotation_of, value};
use crate::primary::as_boolean;
use crate::scope::Scope;
use jr_ast::{Expr, Shape, Suffix};
use jr_base::{Fail, Span};
use jr_names::is_reference;
use jr_program::{Effect, TypedExpr, TypedForm, TypedShape};
use jr_typing_rules::{ValueType, VariableKind};
use std::alloc::Global;

/// A value where one of that type is asked for (JLS 5.2).
pub fn value_for(
    alloc: Global,
    scope: &Scope<'_, '_, '_>,
    of: ValueType,
    expr: &Expr,
) -> Result<TypedExpr, Fail>
    ensures { Answers view_expr (spec.value_for (view_scope scope.now) of (view_source expr.now)) result }
{
    let found = value(alloc, scope, expr)?;
    if !scope.names.is_assignable(found.of, of) {
        return Err(mismatch(expr.place()));
    }
    Ok(brought(alloc, found.of, of, found.node)?)
}

/// What is done for what it does, without its value (JLS 14.8).
fn effect_of(alloc: Global, at: Span, denotation: Denotation) -> Result<Effect, Fail>
    ensures { Answers view_effect (spec.effect_of at (view_denotation denotation)) result }
{
    match denotation {
        Denotation::Nothing(effect) => Ok(effect),
        denotation => Ok(Effect::Evaluate(value_of(alloc, at, denotation)?.node)),
    }
}

/// An expression that is done for what it does.
#[tactic(auto, unfolding(jr_typing_rules::specs::Statements::effect))]
pub fn effect(alloc: Global, scope: &Scope<'_, '_, '_>, expr: &Expr) -> Result<Effect, Fail>
    ensures { Answers view_effect (spec.effect (view_scope scope.now) (view_source expr.now)) result }
{
    effect_of(alloc, expr.place(), denotation_of(alloc, scope, expr)?)
}

/// Several of them, from left to right.
#[tactic(auto, using(crate::proofs::Lists::map_append, crate::proofs::Turns::effects_begin, crate::proofs::Turns::effect_fails, crate::proofs::Turns::effect_goes_on, crate::proofs::Turns::no_effect_left))]
pub fn effects(alloc: Global, scope: &Scope<'_, '_, '_>, all: &[Expr]) -> Result<Vec<Effect>, Fail>
    ensures { Answers (λ done. map view_effect done.items) (each (spec.effect (view_scope scope.now)) (map view_source all.now)) result }
{
    let mut done = Vec::new(alloc);
    for expr in all {
        done.push(effect(alloc, scope, expr)?)?;
    }
    Ok(done)
}

/// Whether it is the name of a catch variable.
#[tactic(auto, using(jr_ast::proofs::Views::view_suffixed, jr_ast::proofs::Views::view_call, jr_ast::proofs::Views::view_new_object, crate::proofs::Traces::no_name))]
fn names_caught(scope: &Scope<'_, '_, '_>, at: Span, shape: &Shape) -> bool
    ensures { result ≡ traces.is_caught_name (view_scope scope.now) (view_source_shape shape.now at) }
{
    match shape {
        Shape::SimpleName(name) => match scope.variable(name.text.as_slice()) {
            Some(variable) => matches!(variable.kind, VariableKind::Caught(_)),
            None => false,
        },
        Shape::Suffixed(primary, suffixes) => {
            suffixes.is_empty() && names_caught(scope, at, primary.get())
        }
        _ => false,
    }
}

/// Whether it is a call of `printStackTrace` without arguments.
#[tactic(auto, using(jr_ast::proofs::Views::view_invocation, crate::proofs::Traces::with_arguments))]
fn is_trace_call(suffix: &Suffix) -> bool
    ensures { result ≡ traces.is_trace_call (view_source_suffix suffix.now) }
{
    match suffix {
        Suffix::Invocation(method, arguments) => {
            arguments.is_empty() && method.text.as_slice() == b"printStackTrace".as_slice()
        }
        Suffix::Field(_) | Suffix::Index(_) => false,
    }
}

/// Whether a primary and a suffix are `x.printStackTrace()` of a catch variable.
#[tactic(auto, using(crate::proofs::Traces::trace_at_last))]
fn is_trace_of(scope: &Scope<'_, '_, '_>, at: Span, primary: &Shape, suffix: &Suffix) -> bool
    ensures { result ≡ spec.is_trace (view_scope scope.now) (applied at (view_source_shape primary.now at) (view_source_suffix suffix.now)) }
{
    is_trace_call(suffix) && names_caught(scope, at, primary)
}

/// Whether it is `x.printStackTrace()` of a catch variable, which does nothing.
#[tactic(auto, using(jr_ast::proofs::Views::view_suffixed, jr_ast::proofs::Views::view_call, jr_ast::proofs::Views::view_new_object, crate::proofs::Traces::no_suffix, crate::proofs::Traces::only_suffix, crate::proofs::Traces::several_suffixes))]
fn is_trace(scope: &Scope<'_, '_, '_>, at: Span, shape: &Shape) -> bool
    ensures { result ≡ spec.is_trace (view_scope scope.now) (view_source_shape shape.now at) }
{
    match shape {
        Shape::Suffixed(primary, suffixes) => match suffixes.get(0) {
            Some(first) => {
                if suffixes.len() != 1 {
                    return false;
                }
                is_trace_of(scope, at, primary.get(), first)
            }
            None => is_trace(scope, at, primary.get()),
        },
        _ => false,
    }
}

/// An expression as a statement (JLS 14.8).
#[tactic(auto, using(jr_ast::proofs::Views::view_node), unfolding(jr_typing_rules::specs::Statements::expression_statement))]
pub fn expression_statement(
    alloc: Global,
    scope: &Scope<'_, '_, '_>,
    expr: &Expr,
) -> Result<TypedForm, Fail>
    ensures { Answers view_form (spec.expression_statement (view_scope scope.now) (view_source expr.now)) result }
{
    if is_trace(scope, expr.place, expr.shape.get()) {
        return Ok(TypedForm::Skip);
    }
    Ok(TypedForm::Do(effect(alloc, scope, expr)?))
}

/// A condition, which is a `boolean`.
#[tactic(auto, unfolding(jr_typing_rules::specs::Statements::condition))]
pub fn condition(alloc: Global, scope: &Scope<'_, '_, '_>, expr: &Expr) -> Result<Value, Fail>
    ensures { Answers view_value (spec.condition (view_scope scope.now) (view_source expr.now)) result }
{
    as_boolean(expr.place(), value(alloc, scope, expr)?)
}

/// A condition, which is true where it is missing (JLS 14.14.1).
pub fn condition_or_true(
    alloc: Global,
    scope: &Scope<'_, '_, '_>,
    expr: &Option<Expr>,
) -> Result<TypedExpr, Fail>
    ensures { Answers view_expr (spec.condition_or_true (view_scope scope.now) (option_map view_source expr.now)) result }
{
    match expr {
        Some(expr) => Ok(condition(alloc, scope, expr)?.node),
        None => Ok(TypedExpr::new(alloc, TypedShape::Truth(true))?),
    }
}

/// What is locked, which is a reference (JLS 14.19).
#[tactic(auto, unfolding(jr_typing_rules::specs::Statements::reference))]
pub fn reference(alloc: Global, scope: &Scope<'_, '_, '_>, expr: &Expr) -> Result<Value, Fail>
    ensures { Answers view_value (spec.reference (view_scope scope.now) (view_source expr.now)) result }
{
    let found = value(alloc, scope, expr)?;
    if !is_reference(found.of) {
        return Err(mismatch(expr.place()));
    }
    Ok(found)
}

/// What is returned where there is a value. Refused where none is asked for (JLS 14.17).
fn returns_value(
    alloc: Global,
    scope: &Scope<'_, '_, '_>,
    asked: Option<ValueType>,
    expr: &Expr,
) -> Result<TypedForm, Fail>
    ensures { Answers view_form (spec.returns_value (view_scope scope.now) asked (view_source expr.now)) result }
{
    match asked {
        Some(of) => Ok(TypedForm::ReturnValue(value_for(alloc, scope, of, expr)?)),
        None => {
            value(alloc, scope, expr)?;
            Err(mismatch(expr.place()))
        }
    }
}

/// A `return`, which stands there (JLS 14.17).
#[tactic(auto, unfolding(jr_typing_rules::specs::Statements::returns))]
pub fn returns(
    alloc: Global,
    scope: &Scope<'_, '_, '_>,
    asked: Option<ValueType>,
    at: Span,
    returned: &Option<Expr>,
) -> Result<TypedForm, Fail>
    ensures { Answers view_form (spec.returns (view_scope scope.now) asked at (option_map view_source returned.now)) result }
{
    match returned {
        Some(expr) => returns_value(alloc, scope, asked, expr),
        None => {
            if asked.is_some() {
                return Err(mismatch(at));
            }
            Ok(TypedForm::Return)
        }
    }
}
