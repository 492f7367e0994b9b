//! The operators, above the values of their operands.

ghost use Rattle.std.specs.Prelude.{◌≡◌, IfOk, option_map};
ghost use Rattle.jr_program.specs.ClauseViews.{view_expr, view_shape};
ghost use Rattle.jr_names.specs.Answered.{Answers};
ghost use Rattle.jr_typing.specs.Views.{view_literal};
ghost use Rattle.jr_spec_typing.specs.Views.{view_held, view_stand, view_stated, view_term};
ghost use Rattle.jr_typing_rules.specs.Predicates as spec;

use crate::stand::Stand;
use crate::term::{Held, Stated, Term, stating};
use jr_ast::{Infix, Prefix};
use jr_base::{Fail, Memory, Span};
use jr_program::{ClauseExpr, ClauseShape};
use jr_typing::{
    INT, LONG, Literal, mismatch, not_here, operation_on, single, step_of, wider, width_to,
};
use jr_typing_rules::{Joint, Operation, Single, ValueType};
use std::alloc::Global;

/// A number of the first type, brought to the second (JLS 5.1.2, 5.1.3).
fn brought(
    alloc: Global,
    from: ValueType,
    to: ValueType,
    node: ClauseExpr,
) -> Result<ClauseExpr, Memory>
    ensures { IfOk result (λ expr. view_expr expr ≡ spec.brought from to (view_expr node)) }
{
    match width_to(from, to) {
        Some(width) => ClauseExpr::new(alloc, ClauseShape::Convert(width, node)),
        None => Ok(node),
    }
}

/// What a literal states (JLS 3.10.1).
pub fn of_literal(alloc: Global, literal: Literal) -> Result<Term, Fail>
    ensures { Answers view_term (spec.of_literal (view_literal literal)) result }
{
    match literal {
        Literal::Int(n) => Ok(stating(alloc, INT, ClauseShape::Int(n))?),
        Literal::Long(n) => Ok(stating(alloc, LONG, ClauseShape::Long(n))?),
    }
}

/// What has an effect has no place in a clause (JML Reference Manual, "Purity").
pub fn has_no_effect(at: Span, operator: Prefix) -> Result<(), Fail>
    ensures { Answers (λ u. u) (spec.has_no_effect at operator) result }
{
    if step_of(operator).is_some() {
        return Err(not_here(at));
    }
    Ok(())
}

/// An operator before an operand (JLS 15.15).
pub fn prefixed(alloc: Global, at: Span, operator: Prefix, operand: Held) -> Result<Term, Fail>
    ensures { Answers view_term (spec.prefixed at operator (view_held operand)) result }
{
    let Held { of, chain } = operand;
    match single(operator, of) {
        Some(Single::Kept) => Ok(Term::Value(of, chain)),
        Some(Single::Applied(op)) => {
            let node = chain.expr(alloc)?;
            Ok(stating(alloc, of, ClauseShape::Unary(op, node))?)
        }
        None => Err(mismatch(at)),
    }
}

/// Two operands that are joined.
fn joined(joint: Joint, a: ClauseExpr, b: ClauseExpr) -> ClauseShape
    ensures { view_shape result ≡ spec.joined joint (view_expr a) (view_expr b) }
{
    match joint {
        Joint::Strict(op) => ClauseShape::Binary(op, a, b),
        Joint::And => ClauseShape::And(a, b),
        Joint::Or => ClauseShape::Or(a, b),
        Joint::Implies => ClauseShape::Implies(a, b),
        Joint::ImpliedBy => ClauseShape::ImpliedBy(a, b),
    }
}

/// An operator whose operation is known, on its operands.
fn operated_on(alloc: Global, operation: Operation, a: Stated, b: Stated) -> Result<Term, Memory>
    ensures { IfOk result (λ term. view_term term ≡ spec.TheValue operation.of (spec.joined operation.joint (spec.brought a.of operation.left (view_expr a.node)) (spec.brought b.of operation.right (view_expr b.node)))) }
{
    let left = brought(alloc, a.of, operation.left, a.node)?;
    let right = brought(alloc, b.of, operation.right, b.node)?;
    stating(alloc, operation.of, joined(operation.joint, left, right))
}

/// The left operand and the right one (JLS 15.17 to 15.24; JML Reference Manual, "Forward and Reverse Implication",
/// "Equivalence and Inequivalence"). Operands that the operator doesn't take are refused.
pub fn infixed(
    alloc: Global,
    stand: &Stand<'_, '_, '_, '_>,
    at: Span,
    operator: Infix,
    a: Stated,
    b: Stated,
) -> Result<Term, Fail>
    ensures { Answers view_term (spec.infixed (view_stand stand.now) at operator (view_stated a) (view_stated b)) result }
{
    match operation_on(stand.scope.names, operator, a.of, b.of) {
        Some(operation) => Ok(operated_on(alloc, operation, a, b)?),
        None => Err(mismatch(at)),
    }
}

/// `condition ? a : b` (JLS 15.25).
pub fn conditional(
    alloc: Global,
    stand: &Stand<'_, '_, '_, '_>,
    at: Span,
    condition: Stated,
    a: Stated,
    b: Stated,
) -> Result<Term, Fail>
    ensures { Answers view_term (spec.conditional (view_stand stand.now) at (view_stated condition) (view_stated a) (view_stated b)) result }
{
    match wider(stand.scope.names, a.of, b.of) {
        Some(of) => {
            let one = brought(alloc, a.of, of, a.node)?;
            let other = brought(alloc, b.of, of, b.node)?;
            let shape = ClauseShape::Choice(condition.node, one, other);
            Ok(stating(alloc, of, shape)?)
        }
        None => Err(mismatch(at)),
    }
}
