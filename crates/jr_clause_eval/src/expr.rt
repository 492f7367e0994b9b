//! What an expression of a clause is worth.

ghost use Rattle.std.specs.Prelude.{◌≡◌, map, cond};
ghost use Rattle.jr_program.specs.Clauses as specs;
ghost use Rattle.jr_program.specs.ClauseViews.{view_expr, view_shape, view_suffix, view_quantified};
ghost use Rattle.jr_meaning.specs.Worth as worths;
ghost use Rattle.jr_meaning.specs.Worth.{Worth, with_value};
ghost use Rattle.jr_clause_eval.specs.ClassObjects.{HasClassObjects};
ghost use Rattle.jr_clause_eval.specs.Instances.{instance_worth};
ghost use Rattle.jr_clause_eval.specs.Outcomes.{worth_of, with_right, and_right, or_right, implies_right, implied_by_right};
ghost use Rattle.jr_clause_eval.specs.Scenes.{setting_in};
ghost use Rattle.jr_clause_eval.specs.Suffixes.{suffix_worth, suffixes_worth, SuffixHasClassObjects, SuffixesHaveClassObjects};

use crate::heaps::Heaps;
use crate::outcome::{Outcome, binary, converted, truth_in_outcome, unary};
use crate::range::instances_between;
use crate::scene::{Bindings, Scene};
use jr_arith::{Binary, Unary, Width};
use jr_base::{Ask, ObjId, Value};
use jr_program::{ClauseExpr, ClauseShape, ClauseSuffix, QuantifiedExpr, Quantifier};

/// The value of an expression, or why it has none. What it needs is asked for from left to right, and nothing else.
#[cycle(evaluate)]
pub fn value<H: Heaps>(expr: &ClauseExpr, scene: &Scene<'_>, heaps: &mut H) -> Outcome
    requires { HasClassObjects (view_expr expr.now) }
    ensures worth { worth_of result ≡ worths.worth scene.now.mode (setting_in scene.now (H.shown heaps.old)) (view_expr expr.now) }
    ensures same { H.shown heaps.new ≡ H.shown heaps.old }
    ensures follows { (start : H) → H.follows start heaps.old → H.follows start heaps.new }
{
    value_of_shape(expr.shape.get(), scene, heaps)
}

#[cycle(evaluate)]
fn value_of_shape<H: Heaps>(shape: &ClauseShape, scene: &Scene<'_>, heaps: &mut H) -> Outcome
    requires { HasClassObjects (view_shape shape.now) }
    ensures worth { worth_of result ≡ worths.worth scene.now.mode (setting_in scene.now (H.shown heaps.old)) (view_shape shape.now) }
    ensures same { H.shown heaps.new ≡ H.shown heaps.old }
    ensures follows { (start : H) → H.follows start heaps.old → H.follows start heaps.new }
{
    match shape {
        ClauseShape::Int(n) => Ok(Value::Int(*n)),
        ClauseShape::Long(n) => Ok(Value::Long(*n)),
        ClauseShape::Truth(truth) => Ok(Value::Bool(*truth)),
        ClauseShape::Null => Ok(Value::Null),
        ClauseShape::This => Ok(scene.this()),
        ClauseShape::Variable(number) => scene.variable(*number),
        ClauseShape::Bound(depth) => scene.bound(*depth),
        ClauseShape::Result => scene.result(),
        ClauseShape::StaticField(_, at) => scene.ask(heaps, Ask::Cell(*at)),
        ClauseShape::ClassObject(class) => Ok(Value::Ref(ObjId(class.0 + 1))),
        ClauseShape::Suffixed(primary, suffixes) => {
            let start = value(primary, scene, heaps);
            value_behind(suffixes.as_slice(), start, scene, heaps)
        }
        ClauseShape::Convert(to, operand) => value_converted(*to, operand, scene, heaps),
        ClauseShape::Unary(operator, operand) => value_of_unary(*operator, operand, scene, heaps),
        ClauseShape::Binary(operator, left, right) => {
            let left = value(left, scene, heaps);
            value_with_right(*operator, left, right, scene, heaps)
        }
        ClauseShape::And(left, right) => {
            let left = value(left, scene, heaps);
            value_of_and(left, right, scene, heaps)
        }
        ClauseShape::Or(left, right) => {
            let left = value(left, scene, heaps);
            value_of_or(left, right, scene, heaps)
        }
        ClauseShape::Choice(condition, first, second) => {
            if truth_in_outcome(value(condition, scene, heaps))? {
                value(first, scene, heaps)
            } else {
                value(second, scene, heaps)
            }
        }
        ClauseShape::Implies(premise, conclusion) => {
            let premise = value(premise, scene, heaps);
            value_of_implies(premise, conclusion, scene, heaps)
        }
        ClauseShape::ImpliedBy(conclusion, premise) => {
            let conclusion = value(conclusion, scene, heaps);
            value_of_implied_by(conclusion, premise, scene, heaps)
        }
        ClauseShape::Old(operand) => value_of_old(operand, scene, heaps),
        ClauseShape::InLockset(object) => value_of_lockset(object, scene, heaps),
        ClauseShape::Quantified(quantified) => value_over_instances(quantified.get(), scene, heaps),
    }
}

// A number, brought to a width (JLS 5.1.2).
#[cycle(evaluate)]
fn value_converted<H: Heaps>(
    to: Width,
    operand: &ClauseExpr,
    scene: &Scene<'_>,
    heaps: &mut H,
) -> Outcome
    requires { HasClassObjects (view_expr operand.now) }
    ensures worth { worth_of result ≡ worths.worth scene.now.mode (setting_in scene.now (H.shown heaps.old)) (specs.Convert to (view_expr operand.now)) }
    ensures same { H.shown heaps.new ≡ H.shown heaps.old }
    ensures follows { (start : H) → H.follows start heaps.old → H.follows start heaps.new }
{
    converted(to, value(operand, scene, heaps))
}

// An operator before its operand.
#[cycle(evaluate)]
fn value_of_unary<H: Heaps>(
    operator: Unary,
    operand: &ClauseExpr,
    scene: &Scene<'_>,
    heaps: &mut H,
) -> Outcome
    requires { HasClassObjects (view_expr operand.now) }
    ensures worth { worth_of result ≡ worths.worth scene.now.mode (setting_in scene.now (H.shown heaps.old)) (specs.Unary operator (view_expr operand.now)) }
    ensures same { H.shown heaps.new ≡ H.shown heaps.old }
    ensures follows { (start : H) → H.follows start heaps.old → H.follows start heaps.new }
{
    unary(scene.mode, operator, value(operand, scene, heaps))
}

// `\old` (JML Reference Manual, "\old").
#[cycle(evaluate)]
fn value_of_old<H: Heaps>(operand: &ClauseExpr, scene: &Scene<'_>, heaps: &mut H) -> Outcome
    requires { HasClassObjects (view_expr operand.now) }
    ensures worth { worth_of result ≡ worths.worth scene.now.mode (setting_in scene.now (H.shown heaps.old)) (specs.Old (view_expr operand.now)) }
    ensures same { H.shown heaps.new ≡ H.shown heaps.old }
    ensures follows { (start : H) → H.follows start heaps.old → H.follows start heaps.new }
{
    value(operand, &scene.on_old(), heaps)
}

// `\lockset.has`, whether the monitor of an object is owned.
#[cycle(evaluate)]
fn value_of_lockset<H: Heaps>(object: &ClauseExpr, scene: &Scene<'_>, heaps: &mut H) -> Outcome
    requires { HasClassObjects (view_expr object.now) }
    ensures worth { worth_of result ≡ worths.worth scene.now.mode (setting_in scene.now (H.shown heaps.old)) (specs.InLockset (view_expr object.now)) }
    ensures same { H.shown heaps.new ≡ H.shown heaps.old }
    ensures follows { (start : H) → H.follows start heaps.old → H.follows start heaps.new }
{
    scene.in_lockset(value(object, scene, heaps))
}

// What an operator gives, where the left operand's outcome is there.
#[cycle(evaluate)]
fn value_with_right<H: Heaps>(
    operator: Binary,
    left: Outcome,
    right: &ClauseExpr,
    scene: &Scene<'_>,
    heaps: &mut H,
) -> Outcome
    requires { HasClassObjects (view_expr right.now) }
    ensures worth { worth_of result ≡ with_right scene.now.mode (setting_in scene.now (H.shown heaps.old)) operator (worth_of left) (view_expr right.now) }
    ensures same { H.shown heaps.new ≡ H.shown heaps.old }
    ensures follows { (start : H) → H.follows start heaps.old → H.follows start heaps.new }
{
    let a = left?;
    let b = value(right, scene, heaps)?;
    binary(scene.mode, operator, a, b)
}

// `&&` (JLS 15.23), where the left operand came out so.
#[cycle(evaluate)]
fn value_of_and<H: Heaps>(
    left: Outcome,
    right: &ClauseExpr,
    scene: &Scene<'_>,
    heaps: &mut H,
) -> Outcome
    requires { HasClassObjects (view_expr right.now) }
    ensures worth { worth_of result ≡ and_right scene.now.mode (setting_in scene.now (H.shown heaps.old)) (worth_of left) (view_expr right.now) }
    ensures same { H.shown heaps.new ≡ H.shown heaps.old }
    ensures follows { (start : H) → H.follows start heaps.old → H.follows start heaps.new }
{
    if truth_in_outcome(left)? {
        value(right, scene, heaps)
    } else {
        Ok(Value::Bool(false))
    }
}

// `||` (JLS 15.24), where the left operand came out so.
#[cycle(evaluate)]
fn value_of_or<H: Heaps>(
    left: Outcome,
    right: &ClauseExpr,
    scene: &Scene<'_>,
    heaps: &mut H,
) -> Outcome
    requires { HasClassObjects (view_expr right.now) }
    ensures worth { worth_of result ≡ or_right scene.now.mode (setting_in scene.now (H.shown heaps.old)) (worth_of left) (view_expr right.now) }
    ensures same { H.shown heaps.new ≡ H.shown heaps.old }
    ensures follows { (start : H) → H.follows start heaps.old → H.follows start heaps.new }
{
    if truth_in_outcome(left)? {
        Ok(Value::Bool(true))
    } else {
        value(right, scene, heaps)
    }
}

// `==>` (JML Reference Manual, "Predicates and Specification Expressions"), where the premise came out so.
#[cycle(evaluate)]
fn value_of_implies<H: Heaps>(
    premise: Outcome,
    conclusion: &ClauseExpr,
    scene: &Scene<'_>,
    heaps: &mut H,
) -> Outcome
    requires { HasClassObjects (view_expr conclusion.now) }
    ensures worth { worth_of result ≡ implies_right scene.now.mode (setting_in scene.now (H.shown heaps.old)) (worth_of premise) (view_expr conclusion.now) }
    ensures same { H.shown heaps.new ≡ H.shown heaps.old }
    ensures follows { (start : H) → H.follows start heaps.old → H.follows start heaps.new }
{
    if truth_in_outcome(premise)? {
        value(conclusion, scene, heaps)
    } else {
        Ok(Value::Bool(true))
    }
}

// `<==`, where the conclusion, which stands first, came out so.
#[cycle(evaluate)]
fn value_of_implied_by<H: Heaps>(
    conclusion: Outcome,
    premise: &ClauseExpr,
    scene: &Scene<'_>,
    heaps: &mut H,
) -> Outcome
    requires { HasClassObjects (view_expr premise.now) }
    ensures worth { worth_of result ≡ implied_by_right scene.now.mode (setting_in scene.now (H.shown heaps.old)) (worth_of conclusion) (view_expr premise.now) }
    ensures same { H.shown heaps.new ≡ H.shown heaps.old }
    ensures follows { (start : H) → H.follows start heaps.old → H.follows start heaps.new }
{
    if truth_in_outcome(conclusion)? {
        return Ok(Value::Bool(true));
    }
    let premise = truth_in_outcome(value(premise, scene, heaps))?;
    Ok(Value::Bool(!premise))
}

// What the suffixes make of what stands before them.
#[cycle(evaluate)]
fn value_behind<H: Heaps>(
    suffixes: &[ClauseSuffix],
    start: Outcome,
    scene: &Scene<'_>,
    heaps: &mut H,
) -> Outcome
    requires { SuffixesHaveClassObjects (map view_suffix suffixes.now) }
    ensures worth { worth_of result ≡ with_value (worth_of start) (suffixes_worth scene.now.mode (setting_in scene.now (H.shown heaps.old)) (map view_suffix suffixes.now)) }
    ensures same { H.shown heaps.new ≡ H.shown heaps.old }
    ensures follows { (start : H) → H.follows start heaps.old → H.follows start heaps.new }
{
    let mut reached = start?;
    for suffix in suffixes {
        reached = value_of_suffix(suffix, reached, scene, heaps)?;
    }
    Ok(reached)
}

#[cycle(evaluate)]
fn value_of_suffix<H: Heaps>(
    suffix: &ClauseSuffix,
    reached: Value,
    scene: &Scene<'_>,
    heaps: &mut H,
) -> Outcome
    requires { SuffixHasClassObjects (view_suffix suffix.now) }
    ensures worth { worth_of result ≡ suffix_worth scene.now.mode (setting_in scene.now (H.shown heaps.old)) (view_suffix suffix.now) reached }
    ensures same { H.shown heaps.new ≡ H.shown heaps.old }
    ensures follows { (start : H) → H.follows start heaps.old → H.follows start heaps.new }
{
    match suffix {
        ClauseSuffix::Field(_, slot) => scene.in_slot(heaps, reached, *slot),
        ClauseSuffix::Element(index) => {
            let index = value(index, scene, heaps)?;
            scene.element(heaps, reached, index)
        }
        ClauseSuffix::Length => scene.length(heaps, reached),
    }
}

#[cycle(evaluate)]
fn value_over_instances<H: Heaps>(
    quantified: &QuantifiedExpr,
    scene: &Scene<'_>,
    heaps: &mut H,
) -> Outcome
    requires { HasClassObjects (view_quantified quantified.now) }
    ensures worth { worth_of result ≡ worths.worth scene.now.mode (setting_in scene.now (H.shown heaps.old)) (view_quantified quantified.now) }
    ensures same { H.shown heaps.new ≡ H.shown heaps.old }
    ensures follows { (start : H) → H.follows start heaps.old → H.follows start heaps.new }
{
    let low = value(&quantified.low, scene, heaps)?;
    let high = value(&quantified.high, scene, heaps)?;
    let instances = instances_between(quantified.low_bound, quantified.high_bound, low, high)?;
    for k in 0..instances.count {
        let outcome = value_of_instance(quantified, instances.at(k), scene, heaps);
        if !leaves_open(quantified.quantifier, outcome) {
            return outcome;
        }
    }
    Ok(Value::Bool(goes_on(quantified.quantifier)))
}

// An instance outside the range leaves the quantifier open.
#[tactic(auto, using(crate::proofs::Lists::bindings_inner))]
#[cycle(evaluate)]
fn value_of_instance<H: Heaps>(
    quantified: &QuantifiedExpr,
    number: i32,
    scene: &Scene<'_>,
    heaps: &mut H,
) -> Outcome
    requires { HasClassObjects (view_quantified quantified.now) }
    ensures worth { worth_of result ≡ instance_worth scene.now.mode (setting_in scene.now (H.shown heaps.old)) quantified.now number }
    ensures same { H.shown heaps.new ≡ H.shown heaps.old }
    ensures follows { (start : H) → H.follows start heaps.old → H.follows start heaps.new }
{
    let bound = Bindings::Inner(number, scene.bound);
    let inner = Scene {
        bound: &bound,
        ..*scene
    };
    if truth_in_outcome(value(&quantified.conjuncts, &inner, heaps))? {
        value(&quantified.body, &inner, heaps)
    } else {
        Ok(Value::Bool(goes_on(quantified.quantifier)))
    }
}

// What a quantifier is where no instance decides.
fn goes_on(quantifier: Quantifier) -> bool
    ensures { result ≡ worths.goes_on quantifier }
{
    match quantifier {
        Quantifier::ForAll => true,
        Quantifier::Exists => false,
    }
}

// Whether the instances behind one that comes out so still matter.
fn leaves_open(quantifier: Quantifier, outcome: Outcome) -> bool
    ensures { (rest : Worth) → worths.decide quantifier (worth_of outcome) rest ≡ cond result rest (worth_of outcome) }
{
    match (quantifier, outcome) {
        (Quantifier::ForAll, Ok(Value::Bool(truth))) => truth,
        (Quantifier::Exists, Ok(Value::Bool(truth))) => !truth,
        _ => false,
    }
}
