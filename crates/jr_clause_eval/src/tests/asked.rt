//! Which cells a clause asks for, in which order.

ghost use Rattle.std.specs.Prelude.{IfOk};
ghost use Rattle.jr_program.specs.ClauseViews.{view_expr};
ghost use Rattle.jr_clause_eval.specs.ClassObjects.{HasClassObjects};

use super::build::{Recorder, array_of, clause_of, environment, followed, quantifier};
use crate::value_over;
use jr_arith::{Arithmetic, Binary, Comparison, Width};
use jr_base::{Locks, Memory, Value, Verdict};
use jr_program::{ClauseExpr, ClauseKind, ClauseShape, ClauseSuffix, Quantifier};
use std::alloc::Global;
use std::test::Fail;

/// `a[i] <= a[i + 1]`, of the array in variable 0 and the innermost bound variable.
fn is_sorted_there(alloc: Global) -> Result<ClauseExpr, Memory>
    ensures { IfOk result (λ e. HasClassObjects (view_expr e)) }
{
    let i = ClauseExpr::new(alloc, ClauseShape::Bound(0))?;
    let one = ClauseExpr::new(alloc, ClauseShape::Int(1))?;
    let sum = Binary::Arithmetic(Arithmetic::Add, Width::Int);
    let next = ClauseExpr::new(alloc, ClauseShape::Binary(sum, i, one))?;
    let here = ClauseExpr::new(alloc, ClauseShape::Bound(0))?;
    let array = ClauseExpr::new(alloc, ClauseShape::Variable(0))?;
    let left = followed(alloc, array, ClauseSuffix::Element(here))?;
    let array = ClauseExpr::new(alloc, ClauseShape::Variable(0))?;
    let right = followed(alloc, array, ClauseSuffix::Element(next))?;
    let less = Binary::Compare(Comparison::LessEqual, Width::Int);
    ClauseExpr::new(alloc, ClauseShape::Binary(less, left, right))
}

/// The array in variable 0 has the elements 1, 2 and 0.
fn over_three_elements(alloc: Global) -> Result<Recorder, Memory> {
    let moment = array_of(alloc, &[Value::Int(1), Value::Int(2), Value::Int(0)])?;
    let before = array_of(alloc, &[Value::Int(1), Value::Int(2)])?;
    Ok(Recorder::new(moment, before))
}

/// Of `(\forall int i; 0 <= i && i < 9; a[i] <= a[i + 1])` over 1, 2, 0 the second instance decides: each instance asks
/// for its left element first, and none is asked for behind that.
#[test]
fn asks_for_what_it_needs_from_left_to_right(rt: HostRuntime) -> Result<(), Fail> {
    let alloc = rt.alloc();
    let body = is_sorted_there(alloc)?;
    let conjuncts = ClauseExpr::new(alloc, ClauseShape::Truth(true))?;
    let state = quantifier(alloc, Quantifier::ForAll, 0, 9, conjuncts, body)?;
    let clause = clause_of(alloc, ClauseKind::Requires, state)?;
    let env = environment(alloc, None)?;
    let mut heaps = over_three_elements(alloc)?;
    let verdict = value_over(&clause, &env, &mut heaps, &Locks::none());
    assert_eq!(rt; verdict, Verdict::False);
    assert_eq!(rt; heaps.asked.as_slice(), [0, 1, 1, 2].as_slice());
    Ok(())
}

/// An `\old` part is asked of the old heap, and an `\exists` stops at the instance that decides, before one that is
/// out of the array's range.
#[test]
fn asks_the_old_heap_until_an_instance_decides(rt: HostRuntime) -> Result<(), Fail> {
    let alloc = rt.alloc();
    let body = is_sorted_there(alloc)?;
    let body = ClauseExpr::new(alloc, ClauseShape::Old(body))?;
    let conjuncts = ClauseExpr::new(alloc, ClauseShape::Truth(true))?;
    let state = quantifier(alloc, Quantifier::Exists, 0, 9, conjuncts, body)?;
    let clause = clause_of(alloc, ClauseKind::Requires, state)?;
    let env = environment(alloc, None)?;
    let mut heaps = over_three_elements(alloc)?;
    let verdict = value_over(&clause, &env, &mut heaps, &Locks::none());
    assert_eq!(rt; verdict, Verdict::True);
    assert_eq!(rt; heaps.asked.as_slice(), [100, 101].as_slice());
    Ok(())
}
