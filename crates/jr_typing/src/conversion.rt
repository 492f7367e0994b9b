//! Numbers where one of the other width is asked for.

ghost use Rattle.std.specs.Prelude.{◌≡◌, IfOk, map, option_map, slice_get};
ghost use Rattle.jr_program.specs.ExprViews.{view_expr};
ghost use Rattle.jr_typing.specs.Paired.{paired};
ghost use Rattle.jr_typing_rules.specs.Denotations as spec;

use crate::types::width_to;
use jr_base::Memory;
use jr_program::{TypedExpr, TypedShape};
use jr_typing_rules::{Head, ValueType};
use sqlite_items::{Items, at};
use std::alloc::Global;

/// A value of the first type, brought to the second, where it may stand for one of it (JLS 5.2).
pub fn brought(
    alloc: Global,
    from: ValueType,
    to: ValueType,
    node: TypedExpr,
) -> Result<TypedExpr, Memory>
    ensures { IfOk result (λ expr. view_expr expr ≡ spec.brought from to (view_expr node)) }
{
    match width_to(from, to) {
        Some(width) => TypedExpr::new(alloc, TypedShape::Convert(width, node)),
        None => Ok(node),
    }
}

/// An argument, brought to the type of its formal, where both are there at that place.
fn brought_at(
    alloc: Global,
    formals: &[ValueType],
    heads: &[Head],
    place: usize,
    node: TypedExpr,
) -> Result<Option<TypedExpr>, Memory>
    ensures { IfOk result (λ expr. option_map view_expr expr ≡ paired (slice_get formals.now place) (slice_get heads.now place) (view_expr node)) }
{
    let Some(formal) = at(formals, place) else {
        return Ok(None);
    };
    let Some(head) = at(heads, place) else {
        return Ok(None);
    };
    Ok(Some(brought(alloc, head.of, *formal, node)?))
}

/// Arguments, each brought to the type of its formal (JLS 15.12.4.5).
#[tactic(auto, using(crate::proofs::Brought::none_brought, crate::proofs::Brought::argument_brought, crate::proofs::Brought::argument_missing))]
pub fn all_brought(
    alloc: Global,
    formals: &[ValueType],
    heads: &[Head],
    nodes: Vec<TypedExpr>,
) -> Result<Items<TypedExpr>, Memory>
    ensures { IfOk result (λ exprs. map view_expr exprs ≡ spec.all_brought formals.now heads.now (map view_expr nodes.items)) }
{
    let mut exprs = Items::new(alloc);
    for node in nodes {
        if let Some(expr) = brought_at(alloc, formals, heads, exprs.len(), node)? {
            exprs.push(expr)?;
        }
    }
    Ok(exprs)
}
