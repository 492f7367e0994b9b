//! What a clause is worth.

ghost use Rattle.std.specs.Prelude.{◌≡◌, map};
ghost use Rattle.std.specs.Option.{option_map_or};
ghost use Rattle.jr_base.specs.declared.finish.Verdict.{Verdict as VerdictWord};
ghost use Rattle.jr_base.specs.declared.value.Ask.{Ask as Question};
ghost use Rattle.jr_program.specs.ClauseViews.{view_clause, view_expr};
ghost use Rattle.jr_meaning.specs.Judge as judge;
ghost use Rattle.jr_clause_eval.specs.ClassObjects.{HaveClassObjects};
ghost use Rattle.jr_clause_eval.specs.Conditions.{condition_value};
ghost use Rattle.jr_clause_eval.specs.Outcomes.{stuck_worth, worth_of};
ghost use Rattle.jr_clause_eval.specs.Scenes.{owned_in, setting_in, setting_of};

use crate::expr::value as value_of;
use crate::heaps::Heaps;
use crate::outcome::{Outcome, Stuck};
use crate::scene::{Bindings, Scene};
use crate::snapshots::Snapshots;
use jr_base::{Env, Locks, ObjId, Value, Verdict};
use jr_heap::Snapshot;
use jr_program::{ClauseExpr, ClauseKind, TypedSpec};

/// What a clause is worth over two heaps: of every kind but `atomic`, which states nothing and is Undefined here. It takes
/// no memory. Each class that the clause names has an object, as in a program that passed the checks.
pub fn value_over<H: Heaps>(clause: &TypedSpec, env: &Env, heaps: &mut H, locks: &Locks) -> Verdict
    requires { HaveClassObjects (view_clause clause.now).states }
    ensures value { result ≡ judge.clause_value (setting_of env.now locks.now (H.shown heaps.old)) (view_clause clause.now) }
    ensures same { H.shown heaps.new ≡ H.shown heaps.old }
    ensures follows { (start : H) → H.follows start heaps.old → H.follows start heaps.new }
{
    let states = clause.states.as_slice();
    let bound = Bindings::None;
    let scene = Scene {
        mode: clause.mode,
        env,
        locks,
        is_old: false,
        bound: &bound,
    };
    match clause.kind {
        ClauseKind::MonitorsFor => all_owned(states, &scene, heaps),
        ClauseKind::Locks => some_entered(states, &scene.on_old(), heaps),
        _ => condition(states, &scene, heaps),
    }
}

fn condition<H: Heaps>(states: &[ClauseExpr], scene: &Scene<'_>, heaps: &mut H) -> Verdict
    requires { HaveClassObjects (map view_expr states.now) }
    ensures value { result ≡ condition_value scene.now.mode (setting_in scene.now (H.shown heaps.old)) (map view_expr states.now) }
    ensures same { H.shown heaps.new ≡ H.shown heaps.old }
    ensures follows { (start : H) → H.follows start heaps.old → H.follows start heaps.new }
{
    match states {
        [condition, ..] => verdict_on(value_of(condition, scene, heaps)),
        [] => Verdict::Undefined,
    }
}

fn all_owned<H: Heaps>(members: &[ClauseExpr], scene: &Scene<'_>, heaps: &mut H) -> Verdict
    requires { HaveClassObjects (map view_expr members.now) }
    ensures value { result ≡ judge.all_owned scene.now.mode (setting_in scene.now (H.shown heaps.old)) (map view_expr members.now) }
    ensures same { H.shown heaps.new ≡ H.shown heaps.old }
    ensures follows { (start : H) → H.follows start heaps.old → H.follows start heaps.new }
{
    for member in members {
        let outcome = value_of(member, scene, heaps);
        if let Some(verdict) = scene.unless_owned(outcome) {
            return verdict;
        }
    }
    Verdict::True
}

fn some_entered<H: Heaps>(members: &[ClauseExpr], scene: &Scene<'_>, heaps: &mut H) -> Verdict
    requires { HaveClassObjects (map view_expr members.now) }
    ensures value { result ≡ judge.some_entered scene.now.mode (setting_in scene.now (H.shown heaps.old)) (map view_expr members.now) }
    ensures same { H.shown heaps.new ≡ H.shown heaps.old }
    ensures follows { (start : H) → H.follows start heaps.old → H.follows start heaps.new }
{
    for member in members {
        let outcome = value_of(member, scene, heaps);
        if let Some(verdict) = if_entered(scene.env.entered, outcome) {
            return verdict;
        }
    }
    Verdict::False
}

fn stuck_verdict(why: Stuck) -> Verdict
    ensures { result ≡ judge.verdict_on (stuck_worth why) }
{
    match why {
        Stuck::Undefined => Verdict::Undefined,
        Stuck::Wide => Verdict::Wide,
    }
}

fn verdict_on(outcome: Outcome) -> Verdict
    ensures { result ≡ judge.verdict_on (worth_of outcome) }
{
    match outcome {
        Ok(Value::Bool(true)) => Verdict::True,
        Ok(Value::Bool(false)) => Verdict::False,
        Ok(_) => Verdict::Undefined,
        Err(why) => stuck_verdict(why),
    }
}

impl Scene<'_> {
    // What a member of `monitors_for` decides: nothing, where it is null or owned.
    fn unless_owned(&self, outcome: Outcome) -> Option<Verdict>
        ensures { (rest : VerdictWord) → judge.if_owned (owned_in self.now.locks.now) (worth_of outcome) rest ≡ option_map_or (λ (verdict : VerdictWord). verdict) result rest }
    {
        match outcome {
            Ok(Value::Ref(object)) => if self.owns(Value::Ref(object)) {
                None
            } else {
                Some(Verdict::False)
            },
            Ok(_) => None,
            Err(why) => Some(stuck_verdict(why)),
        }
    }
}

// What a member of `locks` decides: that the clause holds, where it is the entered object.
fn if_entered(entered: Option<ObjId>, outcome: Outcome) -> Option<Verdict>
    ensures { (rest : VerdictWord) → judge.if_entered entered (worth_of outcome) rest ≡ option_map_or (λ (verdict : VerdictWord). verdict) result rest }
{
    match outcome {
        Ok(Value::Ref(object)) => if entered == Some(object) {
            Some(Verdict::True)
        } else {
            None
        },
        Ok(_) => None,
        Err(why) => Some(stuck_verdict(why)),
    }
}

/// What a clause is worth over two snapshots: the heap of the moment, and the old one.
pub fn value<N: Snapshot, O: Snapshot>(
    clause: &TypedSpec,
    env: &Env,
    now: &mut N,
    old: &mut O,
    locks: &Locks,
) -> Verdict
    requires { HaveClassObjects (view_clause clause.now).states }
    ensures value { result ≡ judge.clause_value (setting_of env.now locks.now (record { now = N.shown now.old; old = O.shown old.old })) (view_clause clause.now) }
    ensures now { (what : Question) → N.shown now.new what ≡ N.shown now.old what }
    ensures old { (what : Question) → O.shown old.new what ≡ O.shown old.old what }
{
    let mut heaps = Snapshots {
        moment: now,
        before: old,
    };
    let verdict = over_snapshots(clause, env, &mut heaps, locks);
    let Snapshots {
        moment: _,
        before: _,
    } = heaps;
    verdict
}

// The references stay those that were lent.
fn over_snapshots<N: Snapshot, O: Snapshot>(
    clause: &TypedSpec,
    env: &Env,
    heaps: &mut Snapshots<'_, N, O>,
    locks: &Locks,
) -> Verdict
    requires { HaveClassObjects (view_clause clause.now).states }
    ensures value { result ≡ judge.clause_value (setting_of env.now locks.now (record { now = N.shown heaps.old.moment.now; old = O.shown heaps.old.before.now })) (view_clause clause.now) }
    ensures moment_reference { heaps.new.moment.ghost_name ≡ heaps.old.moment.ghost_name }
    ensures before_reference { heaps.new.before.ghost_name ≡ heaps.old.before.ghost_name }
    ensures now { (what : Question) → N.shown heaps.new.moment.now what ≡ N.shown heaps.old.moment.now what }
    ensures old { (what : Question) → O.shown heaps.new.before.now what ≡ O.shown heaps.old.before.now what }
{
    value_over(clause, env, heaps, locks)
}
