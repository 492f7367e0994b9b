//! Quantifiers, above what their parts state.

ghost use Rattle.std.specs.Prelude.{◌≡◌, IfOk, Some, option_map};
ghost use Rattle.jr_program.specs.ClauseViews.{view_expr};
ghost use Rattle.jr_typing_rules.specs.Predicates as spec;

use jr_ast::{Bound as SourceBound, Quantifier as SourceQuantifier};
use jr_base::Memory;
use jr_program::{Bound, ClauseExpr, ClauseShape, Quantifier};
use std::alloc::Global;

/// Which quantifier.
pub fn quantifier_of(written: SourceQuantifier) -> Quantifier
    ensures { result ≡ spec.quantifier written }
{
    match written {
        SourceQuantifier::ForAll => Quantifier::ForAll,
        SourceQuantifier::Exists => Quantifier::Exists,
    }
}

/// Whether a bound is itself in the range.
pub fn bound_of(written: SourceBound) -> Bound
    ensures { result ≡ spec.bound written }
{
    match written {
        SourceBound::Exclusive => Bound::Exclusive,
        SourceBound::Inclusive => Bound::Inclusive,
    }
}

/// One more conjunct, behind those that stand before it.
pub fn conjoined(
    alloc: Global,
    before: Option<ClauseExpr>,
    conjunct: ClauseExpr,
) -> Result<ClauseExpr, Memory>
    ensures { IfOk result (λ expr. view_expr expr ≡ spec.conjoined (option_map view_expr before) (view_expr conjunct)) }
{
    match before {
        Some(before) => ClauseExpr::new(alloc, ClauseShape::And(before, conjunct)),
        None => Ok(conjunct),
    }
}

/// What a range asks besides its bounds, which may be nothing.
pub fn all_conjoined(alloc: Global, range: Option<ClauseExpr>) -> Result<ClauseExpr, Memory>
    ensures { IfOk result (λ expr. view_expr expr ≡ spec.all_conjoined (option_map view_expr range)) }
{
    match range {
        Some(range) => Ok(range),
        None => ClauseExpr::new(alloc, ClauseShape::Truth(true)),
    }
}
