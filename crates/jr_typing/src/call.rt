//! Calls and `new`, whose arguments are typed.

ghost use Rattle.std.specs.Prelude.{◌≡◌, map};
ghost use Rattle.jr_program.specs.ExprViews.{view_effect, view_expr};
ghost use Rattle.jr_names.specs.Answered.{Answers};
ghost use Rattle.jr_typing.specs.Views.{view_arguments, view_callee, view_denotation, view_maker};
ghost use Rattle.jr_typing_rules.specs.Denotations as spec;

use crate::conversion::all_brought;
use crate::denotation::{
    Arguments, Callee, Denotation, Held, Maker, denoting, mismatch, value_held,
};
use crate::types::{INT, LONG, OBJECT};
use jr_base::{Elem, Fail, ObjectCall, Span};
use jr_names::Names;
use jr_program::{Effect, TypedCall, TypedExpr, TypedShape, TypedSuffix};
use jr_typing_rules::{Head, MethodEntry, ValueType};
use sqlite_items::Items;
use std::alloc::Global;

const WAITS: [ValueType; 1] = [LONG];

const SLEEPS: [ValueType; 1] = [INT];

const RUNS: [ValueType; 1] = [ValueType::Single(Elem::Runnable)];

/// Whether each argument may stand where its formal is (JLS 15.12.2.3).
#[tactic(auto, using(crate::proofs::Fits::next_fits, crate::proofs::Fits::no_more_formals, crate::proofs::Fits::no_more_heads))]
fn all_fit(names: &Names<'_>, formals: &[ValueType], heads: &[Head]) -> Result<(), Fail>
    ensures { Answers (λ u. u) (spec.all_fit names.now.names formals.now heads.now) result }
{
    for (place, head) in heads.iter().enumerate() {
        match formals.get(place) {
            Some(formal) => {
                if !names.is_assignable(head.of, *formal) {
                    return Err(mismatch(head.place));
                }
            }
            None => return Ok(()),
        }
    }
    Ok(())
}

/// As many arguments as formals, each of which fits (JLS 15.12.2).
#[tactic(auto, unfolding(jr_typing_rules::specs::Denotations::fits))]
fn fits(names: &Names<'_>, at: Span, formals: &[ValueType], given: &Arguments) -> Result<(), Fail>
    ensures { Answers (λ u. u) (spec.fits names.now.names at formals.now (view_arguments given.now)) result }
{
    if given.heads.len() != formals.len() {
        return Err(mismatch(at));
    }
    all_fit(names, formals, given.heads.as_slice())
}

/// The arguments that fit, each as its formal asks for it.
fn passed(
    alloc: Global,
    names: &Names<'_>,
    at: Span,
    formals: &[ValueType],
    given: Arguments,
) -> Result<Items<TypedExpr>, Fail>
    ensures { Answers (map view_expr) (spec.passed names.now.names at formals.now (view_arguments given)) result }
{
    fits(names, at, formals, &given)?;
    let Arguments { heads, nodes } = given;
    Ok(all_brought(alloc, formals, heads.as_slice(), nodes)?)
}

/// A `wait` may be given how long it waits.
fn monitor_formals<'b>(count: usize, call: ObjectCall) -> &'b [ValueType]
    ensures { result.now ≡ spec.monitor_formals count call }
{
    match call {
        ObjectCall::Wait => { if count == 1 { &WAITS } else { &[] } }
        ObjectCall::Notify | ObjectCall::NotifyAll | ObjectCall::Start | ObjectCall::Join => &[],
    }
}

/// The formals of what is called, where so many arguments are given.
fn formals_of<'b>(count: usize, callee: Callee<'b>) -> &'b [ValueType]
    ensures { result.now ≡ spec.formals_of count (view_callee callee.entry) }
{
    match callee {
        Callee::OfClass(method) | Callee::OfObject(method) => method.formals.as_slice(),
        Callee::OfMonitor(call) => monitor_formals(count, call),
        Callee::OfYield => &[],
        Callee::OfSleep => &SLEEPS,
    }
}

fn made_of<'b>(maker: Maker<'b>) -> &'b [ValueType]
    ensures { result.now ≡ spec.made_of (view_maker maker.entry) }
{
    match maker {
        Maker::MakesObject(_, formals) => formals,
        Maker::MakesPlain => &[],
        Maker::MakesThread => &RUNS,
    }
}

/// The one argument.
fn only(at: Span, mut nodes: Items<TypedExpr>) -> Result<TypedExpr, Fail>
    ensures { Answers view_expr (spec.only at (map view_expr nodes)) result }
{
    match nodes.pop() {
        Some(node) => {
            if !nodes.is_empty() {
                return Err(mismatch(at));
            }
            Ok(node)
        }
        None => Err(mismatch(at)),
    }
}

#[tactic(auto, using(jr_program::proofs::ExprEquations::view_call_static))]
fn invoked_static(
    alloc: Global,
    method: &MethodEntry,
    nodes: Items<TypedExpr>,
) -> Result<Denotation, Fail>
    ensures { Answers view_denotation (spec.invoked_static method.now (map view_expr nodes)) result }
{
    match method.result {
        Some(of) => Ok(denoting(alloc, of, TypedShape::CallStatic(method.number, nodes))?),
        None => {
            let call = TypedCall::Static(method.number, nodes);
            Ok(Denotation::Nothing(Effect::Invoke(call)))
        }
    }
}

#[tactic(auto, using(jr_program::proofs::ExprEquations::view_invocation))]
fn invoked_on(
    alloc: Global,
    at: Span,
    method: &MethodEntry,
    receiver: Denotation,
    nodes: Items<TypedExpr>,
) -> Result<Denotation, Fail>
    ensures { Answers view_denotation (spec.invoked_on at method.now (view_denotation receiver) (map view_expr nodes)) result }
{
    let Held { of: _, chain } = value_held(alloc, at, receiver)?;
    match method.result {
        Some(of) => {
            let chain = chain.with(TypedSuffix::Invocation(method.number, nodes))?;
            Ok(Denotation::Value(of, chain))
        }
        None => {
            let call = TypedCall::On(chain.expr(alloc)?, method.number, nodes);
            Ok(Denotation::Nothing(Effect::Invoke(call)))
        }
    }
}

/// A call of an object's own methods: a `wait` may be given its time (JLS 17.2).
#[tactic(auto, using(crate::proofs::Waits::no_time, crate::proofs::Waits::some_time))]
fn monitor_invoked(call: ObjectCall, object: TypedExpr, mut nodes: Items<TypedExpr>) -> Effect
    ensures { view_effect result ≡ spec.monitor_invoked call (view_expr object) (map view_expr nodes) }
{
    if nodes.len() == 0 {
        return Effect::CallObject(call, object);
    }
    Effect::WaitFor(object, nodes.remove(0))
}

fn invoked_monitor(
    alloc: Global,
    at: Span,
    call: ObjectCall,
    receiver: Denotation,
    nodes: Items<TypedExpr>,
) -> Result<Denotation, Fail>
    ensures { Answers view_denotation (spec.invoked_monitor at call (view_denotation receiver) (map view_expr nodes)) result }
{
    let Held { of: _, chain } = value_held(alloc, at, receiver)?;
    Ok(Denotation::Nothing(monitor_invoked(call, chain.expr(alloc)?, nodes)))
}

fn invoked_sleep(at: Span, nodes: Items<TypedExpr>) -> Result<Denotation, Fail>
    ensures { Answers view_denotation (spec.invoked_sleep at (map view_expr nodes)) result }
{
    Ok(Denotation::Nothing(Effect::Sleep(only(at, nodes)?)))
}

fn invoked(
    alloc: Global,
    at: Span,
    callee: Callee<'_>,
    receiver: Denotation,
    nodes: Items<TypedExpr>,
) -> Result<Denotation, Fail>
    ensures { Answers view_denotation (spec.invoked at (view_callee callee.entry) (view_denotation receiver) (map view_expr nodes)) result }
{
    match callee {
        Callee::OfClass(method) => invoked_static(alloc, method, nodes),
        Callee::OfObject(method) => invoked_on(alloc, at, method, receiver, nodes),
        Callee::OfMonitor(call) => invoked_monitor(alloc, at, call, receiver, nodes),
        Callee::OfYield => Ok(Denotation::Nothing(Effect::Yield)),
        Callee::OfSleep => invoked_sleep(at, nodes),
    }
}

fn made_thread(alloc: Global, at: Span, nodes: Items<TypedExpr>) -> Result<Denotation, Fail>
    ensures { Answers view_denotation (spec.made_thread at (map view_expr nodes)) result }
{
    let node = only(at, nodes)?;
    Ok(denoting(
        alloc,
        ValueType::Single(Elem::Thread),
        TypedShape::NewThread(node),
    )?)
}

#[tactic(auto, using(jr_program::proofs::ExprEquations::view_new_object))]
fn made(
    alloc: Global,
    at: Span,
    maker: Maker<'_>,
    nodes: Items<TypedExpr>,
) -> Result<Denotation, Fail>
    ensures { Answers view_denotation (spec.made at (view_maker maker.entry) (map view_expr nodes)) result }
{
    match maker {
        Maker::MakesObject(class, _) => Ok(denoting(
            alloc,
            ValueType::Single(Elem::Class(class)),
            TypedShape::NewObject(class, nodes),
        )?),
        Maker::MakesPlain => Ok(denoting(alloc, OBJECT, TypedShape::NewPlain)?),
        Maker::MakesThread => made_thread(alloc, at, nodes),
    }
}

/// A call, on what stands before the dot (JLS 15.12).
pub fn called(
    alloc: Global,
    names: &Names<'_>,
    at: Span,
    callee: Callee<'_>,
    receiver: Denotation,
    given: Arguments,
) -> Result<Denotation, Fail>
    ensures { Answers view_denotation (spec.called names.now.names at (view_callee callee.entry) (view_denotation receiver) (view_arguments given)) result }
{
    let formals = formals_of(given.heads.len(), callee);
    let nodes = passed(alloc, names, at, formals, given)?;
    invoked(alloc, at, callee, receiver, nodes)
}

/// What `new` makes of its arguments (JLS 15.9).
pub fn newly_made(
    alloc: Global,
    names: &Names<'_>,
    at: Span,
    maker: Maker<'_>,
    given: Arguments,
) -> Result<Denotation, Fail>
    ensures { Answers view_denotation (spec.newly_made names.now.names at (view_maker maker.entry) (view_arguments given)) result }
{
    let nodes = passed(alloc, names, at, made_of(maker), given)?;
    made(alloc, at, maker, nodes)
}
