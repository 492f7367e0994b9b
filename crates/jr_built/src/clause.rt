//! Whether clauses look at the moment alone.

ghost use Rattle.std.specs.Prelude.{◌≡◌, map};
ghost use Rattle.std.specs.List.{list_all};
ghost use Rattle.jr_program.specs.ClauseViews.{view_expr, view_shape, view_suffix, view_quantified, view_clause};
ghost use Rattle.jr_built.specs.Built.{looks_at_the_moment, kind_is_built, clause_is_built};
ghost use Rattle.jr_built.specs.Chains.{suffix_looks_at_the_moment};

use jr_program::{ClauseExpr, ClauseKind, ClauseShape, ClauseSuffix, QuantifiedExpr, TypedSpec};

#[cycle(built)]
#[tactic(auto, using(crate::proofs::Chains::onto_looks, jr_program::proofs::ClauseEquations::view_suffixed))]
fn is_expr_built(expr: &ClauseExpr) -> bool
    ensures { result ≡ looks_at_the_moment (view_expr expr.now) }
{
    is_shape_built(expr.shape.get())
}

#[cycle(built)]
#[tactic(auto, using(crate::proofs::Chains::onto_looks, jr_program::proofs::ClauseEquations::view_suffixed))]
fn is_shape_built(shape: &ClauseShape) -> bool
    ensures { result ≡ looks_at_the_moment (view_shape shape.now) }
{
    match shape {
        ClauseShape::Int(_)
        | ClauseShape::Long(_)
        | ClauseShape::Truth(_)
        | ClauseShape::Null
        | ClauseShape::This
        | ClauseShape::Variable(_)
        | ClauseShape::Bound(_)
        | ClauseShape::Result
        | ClauseShape::StaticField(_, _)
        | ClauseShape::ClassObject(_) => true,
        ClauseShape::Old(_) | ClauseShape::InLockset(_) => false,
        ClauseShape::Suffixed(e, suffixes) => {
            is_expr_built(e) && are_suffixes_built(suffixes.as_slice())
        }
        ClauseShape::Convert(_, e) | ClauseShape::Unary(_, e) => is_expr_built(e),
        ClauseShape::Binary(_, a, b)
        | ClauseShape::And(a, b)
        | ClauseShape::Or(a, b)
        | ClauseShape::Implies(a, b)
        | ClauseShape::ImpliedBy(a, b) => is_expr_built(a) && is_expr_built(b),
        ClauseShape::Choice(c, a, b) => is_expr_built(c) && is_expr_built(a) && is_expr_built(b),
        ClauseShape::Quantified(q) => is_quantified_built(q.get()),
    }
}

#[cycle(built)]
#[tactic(auto, using(crate::proofs::Chains::onto_looks, jr_program::proofs::ClauseEquations::view_suffixed))]
fn is_quantified_built(q: &QuantifiedExpr) -> bool
    ensures { result ≡ looks_at_the_moment (view_quantified q.now) }
{
    is_expr_built(&q.low)
        && is_expr_built(&q.high)
        && is_expr_built(&q.conjuncts)
        && is_expr_built(&q.body)
}

#[cycle(built)]
#[tactic(auto, using(crate::proofs::Chains::onto_looks, jr_program::proofs::ClauseEquations::view_suffixed))]
fn are_suffixes_built(all: &[ClauseSuffix]) -> bool
    ensures { result ≡ list_all suffix_looks_at_the_moment (map view_suffix all.now) }
{
    for suffix in all {
        if !is_suffix_built(suffix) {
            return false;
        }
    }
    true
}

#[cycle(built)]
#[tactic(auto, using(crate::proofs::Chains::onto_looks, jr_program::proofs::ClauseEquations::view_suffixed))]
fn is_suffix_built(suffix: &ClauseSuffix) -> bool
    ensures { result ≡ suffix_looks_at_the_moment (view_suffix suffix.now) }
{
    match suffix {
        ClauseSuffix::Field(_, _) | ClauseSuffix::Length => true,
        ClauseSuffix::Element(e) => is_expr_built(e),
    }
}

fn are_states_built(all: &[ClauseExpr]) -> bool
    ensures { result ≡ list_all looks_at_the_moment (map view_expr all.now) }
{
    for expr in all {
        if !is_expr_built(expr) {
            return false;
        }
    }
    true
}

fn is_kind_built(kind: ClauseKind) -> bool
    ensures { result ≡ kind_is_built kind }
{
    !matches!(
        kind,
        ClauseKind::Locks | ClauseKind::MonitorsFor | ClauseKind::Atomic
    )
}

/// Whether a clause is no `locks`, `monitors_for` or `atomic`, and there is no `\old` and no `\lockset` in it.
pub fn is_clause_built(clause: &TypedSpec) -> bool
    ensures { result ≡ clause_is_built (view_clause clause.now) }
{
    is_kind_built(clause.kind) && are_states_built(clause.states.as_slice())
}
