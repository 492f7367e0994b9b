//! What an expression of each form is worth.

ghost use Rattle.std.specs.Prelude.{IfOk, map};
ghost use Rattle.jr_program.specs.ClauseViews.{view_expr, view_suffix};
ghost use Rattle.jr_clause_eval.specs.ClassObjects.{HasClassObjects};
ghost use Rattle.jr_clause_eval.specs.Suffixes.{SuffixesHaveClassObjects};

use super::build::{Around, Leaf, Recorder, array_of, environment, leaf_of, surrounded};
use crate::expr::value as value_of;
use crate::outcome::{Outcome, Stuck};
use crate::scene::{Bindings, Scene};
use jr_arith::{Binary, Width};
use jr_base::{FieldId, Locks, Memory, ObjId, Value};
use jr_program::{ClauseExpr, ClauseShape, ClauseSuffix, Mode};
use sqlite_items::Items;
use std::alloc::Global;
use std::test::Fail;

const UNDEFINED: Outcome = Err(Stuck::Undefined);

const WIDE: Outcome = Err(Stuck::Wide);

const YES: Outcome = Ok(Value::Bool(true));

const NO: Outcome = Ok(Value::Bool(false));

const OBJECT: Outcome = Ok(Value::Ref(ObjId(9)));

/// What the expression is worth where `this` and variable 0 are object 9, the one object owned: an array of itself, 5 and
/// null, and on the old heap of 4 alone.
fn worth(alloc: Global, expr: &ClauseExpr) -> Result<Outcome, Memory>
    requires { HasClassObjects (view_expr expr.now) }
{
    let env = environment(alloc, None)?;
    let mut locks = Locks::none();
    locks.add(ObjId(9));
    let moment = array_of(alloc, &[Value::Ref(ObjId(9)), Value::Int(5), Value::Null])?;
    let before = array_of(alloc, &[Value::Int(4)])?;
    let mut heaps = Recorder::new(moment, before);
    let bound = Bindings::None;
    let scene = Scene {
        mode: Mode::Java,
        env: &env,
        locks: &locks,
        is_old: false,
        bound: &bound,
    };
    Ok(value_of(expr, &scene, &mut heaps))
}

#[test]
fn values_of_parts(rt: HostRuntime) -> Result<(), Fail> {
    let alloc = rt.alloc();
    for (inside, outside, expected) in [
        (Leaf::Null, Around::Nothing, Ok(Value::Null)),
        (Leaf::Int(-3), Around::Nothing, Ok(Value::Int(-3))),
        (Leaf::Long(4), Around::Nothing, Ok(Value::Long(4))),
        (Leaf::Truth(true), Around::Nothing, YES),
        (Leaf::This, Around::Nothing, OBJECT),
        (Leaf::Variable(0), Around::Nothing, OBJECT),
        (Leaf::Variable(1), Around::Nothing, UNDEFINED),
        (Leaf::Bound(0), Around::Nothing, UNDEFINED),
        (Leaf::Result, Around::Nothing, Ok(Value::Int(7))),
        (Leaf::Static(1), Around::Nothing, Ok(Value::Int(5))),
        (Leaf::Class(3), Around::Nothing, Ok(Value::Ref(ObjId(4)))),
        (Leaf::This, Around::Field(1), Ok(Value::Int(5))),
        (Leaf::Null, Around::Field(0), UNDEFINED),
        (Leaf::This, Around::Element(Leaf::Int(2)), Ok(Value::Null)),
        (Leaf::This, Around::Element(Leaf::Int(3)), UNDEFINED),
        (Leaf::This, Around::Element(Leaf::Int(-1)), UNDEFINED),
        (Leaf::Null, Around::Element(Leaf::Int(0)), UNDEFINED),
        (Leaf::Null, Around::Element(Leaf::Wide), WIDE),
        (Leaf::Undefined, Around::Element(Leaf::Wide), UNDEFINED),
        (Leaf::This, Around::Length, Ok(Value::Int(3))),
        (Leaf::Null, Around::Length, UNDEFINED),
        (Leaf::Static(0), Around::Old, Ok(Value::Int(4))),
        (Leaf::Static(1), Around::Old, UNDEFINED),
        (Leaf::This, Around::InLockset, YES),
        (Leaf::Class(3), Around::InLockset, NO),
        (Leaf::Null, Around::InLockset, NO),
        (Leaf::Wide, Around::InLockset, WIDE),
    ] {
        let expr = surrounded(alloc, outside, inside)?;
        assert_eq!(rt; worth(alloc, &expr)?, expected, "{inside:?} {outside:?}");
    }
    Ok(())
}

/// So many suffixes `.g`, of slot 0.
fn links(alloc: Global, count: u32) -> Result<Items<ClauseSuffix>, Memory>
    ensures { IfOk result (λ suffixes. SuffixesHaveClassObjects (map view_suffix suffixes)) }
{
    let mut suffixes = Items::new(alloc);
    for _ in 0..count {
        suffixes.push(ClauseSuffix::Field(FieldId(0), 0))?;
    }
    Ok(suffixes)
}

/// `this.g.g..` with so many links.
fn chain(alloc: Global, count: u32) -> Result<ClauseExpr, Memory>
    ensures { IfOk result (λ e. HasClassObjects (view_expr e)) }
{
    let this = ClauseExpr::new(alloc, ClauseShape::This)?;
    let suffixes = links(alloc, count)?;
    ClauseExpr::suffixed(alloc, this, suffixes)
}

/// Half a million links are read by a loop.
#[test]
fn follows_a_long_chain(rt: HostRuntime) -> Result<(), Fail> {
    let expr = chain(rt.alloc(), 500_000)?;
    assert_eq!(rt; worth(rt.alloc(), &expr)?, OBJECT);
    Ok(())
}

/// An operator between two truths.
#[derive(Clone, Copy, Debug)]
enum Joined {
    And,
    Or,
    Implies,
    ImpliedBy,
    Agree,
    Differ,
}

fn join(alloc: Global, word: Joined, left: Leaf, right: Leaf) -> Result<ClauseExpr, Memory>
    ensures { IfOk result (λ e. HasClassObjects (view_expr e)) }
{
    let a = leaf_of(alloc, left)?;
    let b = leaf_of(alloc, right)?;
    match word {
        Joined::And => ClauseExpr::new(alloc, ClauseShape::And(a, b)),
        Joined::Or => ClauseExpr::new(alloc, ClauseShape::Or(a, b)),
        Joined::Implies => ClauseExpr::new(alloc, ClauseShape::Implies(a, b)),
        Joined::ImpliedBy => ClauseExpr::new(alloc, ClauseShape::ImpliedBy(a, b)),
        Joined::Agree => ClauseExpr::new(alloc, ClauseShape::Binary(Binary::Agree, a, b)),
        Joined::Differ => ClauseExpr::new(alloc, ClauseShape::Binary(Binary::Differ, a, b)),
    }
}

#[test]
fn truths_need_what_decides(rt: HostRuntime) -> Result<(), Fail> {
    let alloc = rt.alloc();
    let (t, f) = (Leaf::Truth(true), Leaf::Truth(false));
    for (word, left, right, expected) in [
        (Joined::And, t, t, YES),
        (Joined::And, t, f, NO),
        (Joined::And, f, Leaf::Undefined, NO),
        (Joined::And, t, Leaf::Wide, WIDE),
        (Joined::And, Leaf::Undefined, Leaf::Wide, UNDEFINED),
        (Joined::Or, f, t, YES),
        (Joined::Or, f, f, NO),
        (Joined::Or, t, Leaf::Undefined, YES),
        (Joined::Or, Leaf::Wide, t, WIDE),
        (Joined::Implies, t, f, NO),
        (Joined::Implies, t, t, YES),
        (Joined::Implies, f, Leaf::Undefined, YES),
        (Joined::Implies, t, Leaf::Undefined, UNDEFINED),
        (Joined::Implies, Leaf::Undefined, t, UNDEFINED),
        (Joined::ImpliedBy, t, Leaf::Undefined, YES),
        (Joined::ImpliedBy, f, t, NO),
        (Joined::ImpliedBy, f, f, YES),
        (Joined::ImpliedBy, f, Leaf::Wide, WIDE),
        (Joined::Agree, f, f, YES),
        (Joined::Agree, f, Leaf::Undefined, UNDEFINED),
        (Joined::Differ, t, f, YES),
        (Joined::Differ, Leaf::Wide, Leaf::Undefined, WIDE),
    ] {
        let expr = join(alloc, word, left, right)?;
        assert_eq!(rt;
            worth(alloc, &expr)?,
            expected,
            "{word:?} {left:?} {right:?}"
        );
    }
    Ok(())
}

fn choice(alloc: Global, of: Leaf, first: Leaf, second: Leaf) -> Result<ClauseExpr, Memory>
    ensures { IfOk result (λ e. HasClassObjects (view_expr e)) }
{
    let condition = leaf_of(alloc, of)?;
    let first = leaf_of(alloc, first)?;
    let second = leaf_of(alloc, second)?;
    ClauseExpr::new(alloc, ClauseShape::Choice(condition, first, second))
}

#[test]
fn choices_need_one_side(rt: HostRuntime) -> Result<(), Fail> {
    let alloc = rt.alloc();
    let one = Leaf::Int(1);
    for (condition, first, second, expected) in [
        (Leaf::Truth(true), one, Leaf::Undefined, Ok(Value::Int(1))),
        (Leaf::Truth(false), Leaf::Undefined, one, Ok(Value::Int(1))),
        (Leaf::Truth(false), one, Leaf::Wide, WIDE),
        (Leaf::Undefined, one, one, UNDEFINED),
    ] {
        let expr = choice(alloc, condition, first, second)?;
        assert_eq!(rt; worth(alloc, &expr)?, expected);
    }
    Ok(())
}

fn converted(alloc: Global, to: Width, operand: Leaf) -> Result<ClauseExpr, Memory>
    ensures { IfOk result (λ e. HasClassObjects (view_expr e)) }
{
    let operand = leaf_of(alloc, operand)?;
    ClauseExpr::new(alloc, ClauseShape::Convert(to, operand))
}

#[test]
fn converts_between_widths(rt: HostRuntime) -> Result<(), Fail> {
    let alloc = rt.alloc();
    for (to, operand, expected) in [
        (Width::Long, Leaf::Int(-2), Ok(Value::Long(-2))),
        (Width::Int, Leaf::Long(4294967297), Ok(Value::Int(1))),
        (Width::Int, Leaf::Undefined, UNDEFINED),
    ] {
        let expr = converted(alloc, to, operand)?;
        assert_eq!(rt; worth(alloc, &expr)?, expected);
    }
    Ok(())
}
