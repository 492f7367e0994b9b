//! Expressions of clauses: what each states, or which rule it breaks.

ghost use Rattle.std.specs.Prelude.{◌≡◌, None, map, option_map};
ghost use Rattle.jr_ast.specs.Expressions as source;
ghost use Rattle.jr_ast.specs.Expressions.{exprs, view_expr as view_source, view_shape as view_source_shape, view_suffix as view_source_suffix};
ghost use Rattle.jr_program.specs.ClauseViews.{view_expr};
ghost use Rattle.jr_names.specs.Answered.{Answers};
ghost use Rattle.jr_typing_rules.specs.Answers.{one_by_one};
ghost use Rattle.jr_typing_rules.specs.Predicates as spec;
ghost use Rattle.jr_spec_typing.specs.Parts as parts;
ghost use Rattle.jr_spec_typing.specs.Views.{view_stand, view_stated, view_term};

use crate::access::{element, field_of};
use crate::name::clause_name;
use crate::operator::{conditional, has_no_effect, infixed, of_literal, prefixed};
use crate::primary::{as_boolean, as_int, as_reference, class_literal, method_result, this};
use crate::quantifier::{all_conjoined, bound_of, conjoined, quantifier_of};
use crate::stand::Stand;
use crate::term::{Stated, Term, held_at, in_brackets, stated_at, stating};
use jr_ast::{Expr, Prefix, QuantifiedExpr, Shape, Suffix};
use jr_base::{Fail, Span};
use jr_program::{ClauseExpr, ClauseShape, QuantifiedExpr as QuantifiedClause};
use jr_typing::{BOOLEAN, integer_under, negated_literal, not_here, written_literal};
use jr_typing_rules::ValueType;
use sqlite_items::Boxed;
use std::alloc::Global;

/// What a clause states, which is a boolean: the expression of the typed program, or the refusal of the first rule
/// that it breaks.
#[tactic(auto, unfolding(jr_typing_rules::specs::Predicates::states_boolean))]
pub fn states_boolean<'q>(
    alloc: Global,
    stand: &Stand<'_, '_, '_, 'q>,
    expr: &'q Expr,
) -> Result<ClauseExpr, Fail>
    ensures { Answers view_expr (spec.states_boolean (view_stand stand.now) (view_source expr.now)) result }
{
    Ok(boolean_value(alloc, stand, expr)?.node)
}

/// A member of a `locks` or `monitors_for` clause, which is a reference: the expression of the typed program, or the
/// refusal of the first rule that it breaks.
#[tactic(auto, unfolding(jr_typing_rules::specs::Predicates::states_reference))]
pub fn states_reference<'q>(
    alloc: Global,
    stand: &Stand<'_, '_, '_, 'q>,
    expr: &'q Expr,
) -> Result<ClauseExpr, Fail>
    ensures { Answers view_expr (spec.states_reference (view_stand stand.now) (view_source expr.now)) result }
{
    Ok(reference_value(alloc, stand, expr)?.node)
}

#[cycle(states)]
#[tactic(auto, using(jr_ast::proofs::Views::view_node))]
fn term_of<'q>(alloc: Global, stand: &Stand<'_, '_, '_, 'q>, expr: &'q Expr) -> Result<Term, Fail>
    ensures { Answers view_term (spec.states (view_stand stand.now) (view_source expr.now)) result }
{
    term_of_shape(alloc, stand, expr.place, expr.shape.get())
}

#[cycle(states)]
fn value<'q>(alloc: Global, stand: &Stand<'_, '_, '_, 'q>, expr: &'q Expr) -> Result<Stated, Fail>
    ensures { Answers view_stated (parts.value (view_stand stand.now) (view_source expr.now)) result }
{
    let term = term_of(alloc, stand, expr)?;
    stated_at(alloc, expr.place(), term)
}

#[cycle(states)]
fn int_value<'q>(
    alloc: Global,
    stand: &Stand<'_, '_, '_, 'q>,
    expr: &'q Expr,
) -> Result<Stated, Fail>
    ensures { Answers view_stated (parts.int_value (view_stand stand.now) (view_source expr.now)) result }
{
    as_int(expr.place(), value(alloc, stand, expr)?)
}

#[cycle(states)]
fn boolean_value<'q>(
    alloc: Global,
    stand: &Stand<'_, '_, '_, 'q>,
    expr: &'q Expr,
) -> Result<Stated, Fail>
    ensures { Answers view_stated (parts.boolean_value (view_stand stand.now) (view_source expr.now)) result }
{
    as_boolean(expr.place(), value(alloc, stand, expr)?)
}

#[cycle(states)]
fn reference_value<'q>(
    alloc: Global,
    stand: &Stand<'_, '_, '_, 'q>,
    expr: &'q Expr,
) -> Result<Stated, Fail>
    ensures { Answers view_stated (parts.reference_value (view_stand stand.now) (view_source expr.now)) result }
{
    as_reference(expr.place(), value(alloc, stand, expr)?)
}

#[cycle(states)]
#[tactic(auto, using(jr_ast::proofs::Views::view_call, jr_ast::proofs::Views::view_new_object, jr_ast::proofs::Views::view_suffixed, crate::proofs::Suffixes::called, crate::proofs::Suffixes::states_onto))]
fn term_of_shape<'q>(
    alloc: Global,
    stand: &Stand<'_, '_, '_, 'q>,
    at: Span,
    shape: &'q Shape,
) -> Result<Term, Fail>
    ensures { Answers view_term (spec.states (view_stand stand.now) (view_source_shape shape.now at)) result }
{
    match shape {
        Shape::Null => Ok(stating(alloc, ValueType::Null, ClauseShape::Null)?),
        Shape::Boolean(truth) => Ok(stating(alloc, BOOLEAN, ClauseShape::Truth(*truth))?),
        Shape::Integer(written) => of_literal(alloc, written_literal(at, *written)?),
        Shape::This => this(alloc, stand, at),
        Shape::SimpleName(name) => clause_name(alloc, stand, name),
        Shape::ClassLiteral(name) => class_literal(alloc, stand, name),
        Shape::Brackets(inner) => in_brackets(inner.place(), term_of(alloc, stand, inner)?),
        Shape::Suffixed(primary, suffixes) => {
            if has_call(suffixes.as_slice()) {
                return Err(not_here(at));
            }
            let start = term_of_shape(alloc, stand, at, primary.get())?;
            with_suffixes(alloc, stand, at, start, suffixes.as_slice())
        }
        Shape::Prefix(operator, operand) => with_prefix(alloc, stand, at, *operator, operand),
        Shape::Infix(operator, left, right) => {
            let a = value(alloc, stand, left)?;
            let b = value(alloc, stand, right)?;
            infixed(alloc, stand, at, *operator, a, b)
        }
        Shape::Conditional(condition, left, right) => {
            let test = boolean_value(alloc, stand, condition)?;
            let a = value(alloc, stand, left)?;
            let b = value(alloc, stand, right)?;
            conditional(alloc, stand, at, test, a, b)
        }
        Shape::Result => method_result(alloc, stand, at),
        Shape::Old(inner) => old(alloc, stand, at, inner),
        Shape::InLockset(object) => in_lockset(alloc, stand, at, object),
        Shape::Quantified(quantified) => over_instances(alloc, stand, at, quantified.get()),
        Shape::Call(_, _)
        | Shape::NewObject(_, _)
        | Shape::NewArray(_, _)
        | Shape::Postfix(_, _)
        | Shape::Assignment(_, _, _) => Err(not_here(at)),
    }
}

/// An operator before its operand, or a literal with its minus (JLS 15.15, 3.10.1).
#[cycle(states)]
fn with_prefix<'q>(
    alloc: Global,
    stand: &Stand<'_, '_, '_, 'q>,
    at: Span,
    operator: Prefix,
    operand: &'q Expr,
) -> Result<Term, Fail>
    ensures { Answers view_term (spec.states (view_stand stand.now) (source.Prefixed at operator (view_source operand.now))) result }
{
    has_no_effect(at, operator)?;
    match integer_under(operator, operand) {
        Some(written) => of_literal(alloc, negated_literal(operand.place(), written)?),
        None => {
            let term = term_of(alloc, stand, operand)?;
            prefixed(alloc, at, operator, held_at(operand.place(), term)?)
        }
    }
}

/// `\old(e)` (JML Reference Manual, "\old and \pre").
#[cycle(states)]
fn old<'q>(
    alloc: Global,
    stand: &Stand<'_, '_, '_, 'q>,
    at: Span,
    expr: &'q Expr,
) -> Result<Term, Fail>
    ensures { Answers view_term (spec.states (view_stand stand.now) (source.Old at (view_source expr.now))) result }
{
    if !stand.looks_back || stand.is_in_old {
        return Err(not_here(at));
    }
    let before = Stand {
        is_in_old: true,
        ..*stand
    };
    let Stated { of, node } = value(alloc, &before, expr)?;
    Ok(stating(alloc, of, ClauseShape::Old(node))?)
}

/// `\lockset.has(e)` (JML Reference Manual, "\lockset and \max").
#[cycle(states)]
fn in_lockset<'q>(
    alloc: Global,
    stand: &Stand<'_, '_, '_, 'q>,
    at: Span,
    expr: &'q Expr,
) -> Result<Term, Fail>
    ensures { Answers view_term (spec.states (view_stand stand.now) (source.InLockset at (view_source expr.now))) result }
{
    if stand.is_in_old {
        return Err(not_here(at));
    }
    let object = reference_value(alloc, stand, expr)?;
    Ok(stating(alloc, BOOLEAN, ClauseShape::InLockset(object.node))?)
}

/// A quantifier over an `int` (JML Reference Manual, "Quantified Expressions"), in at most one other. Its name is no
/// other variable's.
#[cycle(states)]
#[tactic(auto, using(crate::proofs::Quantifiers::states_inside))]
fn over_instances<'q>(
    alloc: Global,
    stand: &Stand<'_, '_, '_, 'q>,
    at: Span,
    expr: &'q QuantifiedExpr,
) -> Result<Term, Fail>
    ensures { Answers view_term (spec.states (view_stand stand.now) (parts.view_quantified expr.now at)) result }
{
    let inner = stand.inside(at, &expr.variable)?;
    let low = int_value(alloc, stand, &expr.low)?;
    let high = int_value(alloc, stand, &expr.high)?;
    let range = conjuncts(alloc, &inner, expr.conjuncts.as_slice())?;
    let body = boolean_value(alloc, &inner, &expr.body)?;
    let whole = QuantifiedClause {
        quantifier: quantifier_of(expr.quantifier),
        low: low.node,
        low_bound: bound_of(expr.low_bound),
        high: high.node,
        high_bound: bound_of(expr.high_bound),
        conjuncts: all_conjoined(alloc, range)?,
        body: body.node,
    };
    let whole = Boxed::new(alloc, whole)?;
    Ok(stating(alloc, BOOLEAN, ClauseShape::Quantified(whole))?)
}

/// The further conjuncts of a range, from left to right.
#[cycle(states)]
#[tactic(auto, using(crate::proofs::Conjuncts::conjunct_fails, crate::proofs::Conjuncts::conjunct_goes_on, crate::proofs::Conjuncts::no_conjunct_left))]
fn conjuncts<'q>(
    alloc: Global,
    stand: &Stand<'_, '_, '_, 'q>,
    all: &'q [Expr],
) -> Result<Option<ClauseExpr>, Fail>
    ensures { Answers (option_map view_expr) (spec.conjuncts (view_stand stand.now) None (exprs (map view_source all.now))) result }
{
    let mut before = None;
    for expr in all {
        let conjunct = boolean_value(alloc, stand, expr)?;
        before = Some(conjoined(alloc, before, conjunct.node)?);
    }
    Ok(before)
}

fn is_call(suffix: &Suffix) -> bool
    ensures { result ≡ parts.is_call (view_source_suffix suffix.now) }
{
    match suffix {
        Suffix::Invocation(_, _) => true,
        Suffix::Field(_) | Suffix::Index(_) => false,
    }
}

/// Whether one of them is a call, which has no place in a clause.
fn has_call(all: &[Suffix]) -> bool
    ensures { result ≡ parts.has_call all.now }
{
    all.iter().any(|suffix| is_call(suffix))
}

/// What a primary states with what follows it, from left to right.
#[cycle(states)]
#[tactic(auto, using(jr_names::proofs::Turns::step_fails, jr_names::proofs::Turns::step_goes_on, jr_names::proofs::Turns::no_step_left))]
fn with_suffixes<'q>(
    alloc: Global,
    stand: &Stand<'_, '_, '_, 'q>,
    at: Span,
    primary: Term,
    all: &'q [Suffix],
) -> Result<Term, Fail>
    ensures { Answers view_term (one_by_one (parts.member (view_stand stand.now) at) (view_term primary) (map view_source_suffix all.now)) result }
{
    let mut term = primary;
    for suffix in all {
        term = member(alloc, stand, at, term, suffix)?;
    }
    Ok(term)
}

/// What stands before a suffix, with it.
#[cycle(states)]
#[tactic(auto, using(jr_ast::proofs::Views::view_invocation))]
fn member<'q>(
    alloc: Global,
    stand: &Stand<'_, '_, '_, 'q>,
    at: Span,
    term: Term,
    suffix: &'q Suffix,
) -> Result<Term, Fail>
    ensures { Answers view_term (parts.member (view_stand stand.now) at (view_term term) (view_source_suffix suffix.now)) result }
{
    match suffix {
        Suffix::Field(name) => field_of(alloc, stand, at, name, term),
        Suffix::Invocation(_, _) => Err(not_here(at)),
        Suffix::Index(index) => {
            let array = held_at(at, term)?;
            let index = int_value(alloc, stand, index)?;
            element(at, array, index)
        }
    }
}
