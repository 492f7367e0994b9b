//! The instances of quantifiers, and quantifiers inside of others.

ghost use Rattle.std.specs.Prelude.{IfOk};
ghost use Rattle.jr_program.specs.ClauseViews.{view_expr};
ghost use Rattle.jr_clause_eval.specs.ClassObjects.{HasClassObjects};

use super::build::{Leaf, array_of, clause_of, environment, leaf_of, quantifier};
use crate::outcome::Stuck;
use crate::range::instances_between;
use crate::value;
use jr_arith::{Binary, Comparison, Width};
use jr_base::{Locks, Memory, Value, Verdict};
use jr_program::{Bound, ClauseExpr, ClauseKind, ClauseShape, Quantifier};
use std::alloc::Global;
use std::test::Fail;

/// The first instance and how many there are, at most 4,096: the range is computed exactly.
#[test]
fn instances_between_bounds(rt: HostRuntime) -> Result<(), Fail> {
    let (below, to) = (Bound::Exclusive, Bound::Inclusive);
    let least = -2147483648;
    let most = 2147483647;
    for (low, low_bound, high_bound, high, expected) in [
        (-2, to, below, 3, Ok((-2, 5))),
        (-2, to, to, 3, Ok((-2, 6))),
        (-2, below, below, 3, Ok((-1, 4))),
        (-2, below, to, 3, Ok((-1, 5))),
        (0, to, to, 4095, Ok((0, 4096))),
        (0, to, to, 4096, Err(Stuck::Wide)),
        (-1, below, below, 4096, Ok((0, 4096))),
        (-1, below, to, 4096, Err(Stuck::Wide)),
        (least, to, to, most, Err(Stuck::Wide)),
        (most, to, to, most, Ok((2147483647, 1))),
        (least, to, to, least, Ok((-2147483648, 1))),
    ] {
        let (low, high) = (Value::Int(low), Value::Int(high));
        let instances = instances_between(low_bound, high_bound, low, high);
        let given = instances.map(|found| (found.first, found.count));
        assert_eq!(rt; given, expected);
    }
    for (low, low_bound, high_bound, high) in [
        (3, to, below, 3),
        (3, below, to, 3),
        (3, below, below, 4),
        (3, to, to, -3),
        (most, below, to, most),
        (least, to, below, least),
        (most, to, to, least),
    ] {
        let (low, high) = (Value::Int(low), Value::Int(high));
        let instances = instances_between(low_bound, high_bound, low, high);
        assert_eq!(rt; instances.map(|found| found.count), Ok(0));
    }
    Ok(())
}

/// A quantifier over so many instances, from 0 on.
fn over_body(
    alloc: Global,
    word: Quantifier,
    count: i32,
    body: ClauseExpr,
) -> Result<ClauseExpr, Memory>
    requires { HasClassObjects (view_expr body) }
    ensures { IfOk result (λ e. HasClassObjects (view_expr e)) }
{
    let conjuncts = ClauseExpr::new(alloc, ClauseShape::Truth(true))?;
    quantifier(alloc, word, 0, count, conjuncts, body)
}

/// The verdict on that expression as an invariant.
fn verdict_on(alloc: Global, state: ClauseExpr) -> Result<Verdict, Memory>
    requires { HasClassObjects (view_expr state) }
{
    let clause = clause_of(alloc, ClauseKind::Invariant, state)?;
    let env = environment(alloc, None)?;
    let mut now = array_of(alloc, &[])?;
    let mut old = array_of(alloc, &[])?;
    Ok(value(&clause, &env, &mut now, &mut old, &Locks::none()))
}

/// 4,096 instances are tried, and one more is too many.
#[test]
fn tries_as_many_instances_as_there_may_be(rt: HostRuntime) -> Result<(), Fail> {
    let alloc = rt.alloc();
    for (count, expected) in [
        (4096, Verdict::True),
        (4097, Verdict::Wide),
        (0, Verdict::True),
        (-1, Verdict::True),
    ] {
        let body = ClauseExpr::new(alloc, ClauseShape::Truth(true))?;
        let state = over_body(alloc, Quantifier::ForAll, count, body)?;
        assert_eq!(rt; verdict_on(alloc, state)?, expected, "{count}");
    }
    Ok(())
}

/// A quantifier over two instances of one over three of `x == 1`, where x is the bound variable that so many
/// quantifiers stand inside of.
fn nested(
    alloc: Global,
    outer: Quantifier,
    inner: Quantifier,
    depth: u32,
) -> Result<ClauseExpr, Memory>
    ensures { IfOk result (λ e. HasClassObjects (view_expr e)) }
{
    let x = ClauseExpr::new(alloc, ClauseShape::Bound(depth))?;
    let one = ClauseExpr::new(alloc, ClauseShape::Int(1))?;
    let equal = Binary::Compare(Comparison::Equal, Width::Int);
    let body = ClauseExpr::new(alloc, ClauseShape::Binary(equal, x, one))?;
    let inside = over_body(alloc, inner, 3, body)?;
    over_body(alloc, outer, 2, inside)
}

/// The innermost variable is the inner quantifier's, and the next one the outer's. There is no third.
#[test]
fn nested_quantifiers(rt: HostRuntime) -> Result<(), Fail> {
    let alloc = rt.alloc();
    let (all, some) = (Quantifier::ForAll, Quantifier::Exists);
    for (outer, inner, depth, expected) in [
        (some, all, 0, Verdict::False),
        (some, all, 1, Verdict::True),
        (all, some, 0, Verdict::True),
        (all, some, 1, Verdict::False),
        (all, some, 2, Verdict::Undefined),
    ] {
        let state = nested(alloc, outer, inner, depth)?;
        assert_eq!(rt;
            verdict_on(alloc, state)?,
            expected,
            "{outer:?} {inner:?} {depth}"
        );
    }
    Ok(())
}

/// A quantifier over one instance, with what its range asks besides.
fn over_one(
    alloc: Global,
    word: Quantifier,
    conjuncts: Leaf,
    body: Leaf,
) -> Result<ClauseExpr, Memory>
    ensures { IfOk result (λ e. HasClassObjects (view_expr e)) }
{
    let conjuncts = leaf_of(alloc, conjuncts)?;
    let body = leaf_of(alloc, body)?;
    quantifier(alloc, word, 0, 1, conjuncts, body)
}

/// An instance out of the range leaves the quantifier open, and what it needn't is not read.
#[test]
fn instances_out_of_the_range(rt: HostRuntime) -> Result<(), Fail> {
    let alloc = rt.alloc();
    let (all, some) = (Quantifier::ForAll, Quantifier::Exists);
    let (t, f) = (Leaf::Truth(true), Leaf::Truth(false));
    for (word, conjuncts, body, expected) in [
        (all, f, Leaf::Undefined, Verdict::True),
        (some, f, Leaf::Undefined, Verdict::False),
        (all, t, f, Verdict::False),
        (some, t, t, Verdict::True),
        (all, Leaf::Undefined, Leaf::Wide, Verdict::Undefined),
        (some, t, Leaf::Wide, Verdict::Wide),
    ] {
        let state = over_one(alloc, word, conjuncts, body)?;
        assert_eq!(rt;
            verdict_on(alloc, state)?,
            expected,
            "{word:?} {conjuncts:?} {body:?}"
        );
    }
    Ok(())
}
