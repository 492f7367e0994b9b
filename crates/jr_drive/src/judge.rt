//! Judges the clauses that are due at a step.

ghost use Rattle.std.specs.Prelude.{◌≡◌, ◌≤◌, ◌++◌, true, List, map, drop, length, slice_get, IfOk, OnOk};
ghost use Rattle.std.specs.Option.{option_map};
ghost use Rattle.jr_base.specs.Deed.{deed_of};
ghost use Rattle.jr_base.specs.declared.number.GuestNo.{GuestNo};
ghost use Rattle.jr_program.specs.UnitViews.{program_of};
ghost use Rattle.jr_meaning.specs.Event.{Event};
ghost use Rattle.jr_meaning.specs.Due.{object_in, frame_environment, with_variables};
ghost use Rattle.jr_meaning.specs.Verdicts.{clause_values_at};
ghost use Rattle.jr_built.specs.Built.{is_built};
ghost use Rattle.jr_heap.specs.Plain.{seen_in};
ghost use Rattle.jr_clause_eval.specs.Scenes.{environment_of as environment_in};
ghost use Rattle.jr_drive.specs.DueThere.{numbers_in};
ghost use Rattle.jr_drive.specs.Moment.{moment_value, moment_values, site_of, environment_of};
ghost use Rattle.jr_drive.specs.StandsAt.{StandsAt};

use crate::due::{Due, due_at};
use crate::frames::{Frames, append};
use jr_base::{Action, ClauseId, Env, LeaveHow, Locks, Memory, Value, Values, Verdict};
use jr_built::laws::built_clauses_look_at_the_moment;
use jr_clause_eval::laws::clauses_name_class_objects;
use jr_clause_eval::value;
use jr_heap::{PlainHeap, PlainReader};
use jr_meaning::history_laws::old_heaps_are_unseen;
use jr_program::{Site, TypedUnit};
use std::alloc::Global;

/// Judges the clauses that are due at a step of a built program, just before it is made: `values` is then what they
/// are worth, in order. `Memory` says nothing of `values`.
pub fn judge(
    alloc: Global,
    unit: &TypedUnit,
    frames: &Frames,
    heap: &PlainHeap,
    action: &Action,
    values: &mut Vec<Verdict>,
) -> Result<(), Memory>
    requires { is_built (program_of unit.now) ≡ true }
    ensures values { OnOk result ((h : List Event) (g : GuestNo) → StandsAt (program_of unit.now) h g frames.now (seen_in heap.now) →
        values.new.items ≡ clause_values_at (program_of unit.now) (record { before = h; guest = g; deed = deed_of action.now })) }
    ensures few { OnOk result (length values.new.items ≤ 16) }
{
    built_clauses_look_at_the_moment();
    old_heaps_are_unseen();
    judge_at_moment(alloc, unit, frames, heap, action, values)
}

/// The same, of any program, for what passes no monitor and no field.
fn judge_at_moment(
    alloc: Global,
    unit: &TypedUnit,
    frames: &Frames,
    heap: &PlainHeap,
    action: &Action,
    values: &mut Vec<Verdict>,
) -> Result<(), Memory>
    ensures values { OnOk result (values.new.items ≡ moment_values (program_of unit.now) (seen_in heap.now) (slice_get frames.now 0) (deed_of action.now)) }
    ensures few { OnOk result (length values.new.items ≤ 16) }
{
    values.clear();
    let Some(site) = site_passed(action) else {
        return Ok(());
    };
    let due = due_at(unit, site);
    if due.len() == 0 {
        return Ok(());
    }
    let Some(env) = environment(alloc, frames, action)? else {
        return Ok(());
    };
    judge_each(unit, &due, &env, heap, values)
}

/// The site that a step passes, but for those at which nothing is due in a built program.
fn site_passed(action: &Action) -> Option<Site>
    ensures { result ≡ site_of (deed_of action.now) }
{
    match action {
        Action::Call { method, .. } => Some(Site::Entry(*method)),
        Action::Commit { method } => Some(Site::Commit(*method)),
        Action::Leave {
            method,
            how: LeaveHow::Normal(_),
        } => Some(Site::Return(*method)),
        Action::Assert { clause, .. } => Some(Site::Assert(*clause)),
        _ => None,
    }
}

/// On what the clauses at the site that a step passes are judged.
fn environment(alloc: Global, frames: &Frames, action: &Action) -> Result<Option<Env>, Memory>
    ensures { IfOk result (λ env. option_map environment_in env ≡ environment_of (slice_get frames.now 0) (deed_of action.now)) }
{
    match action {
        Action::Call { this, args, .. } => Ok(Some(Env {
            this: *this,
            values: args.copy()?,
            result: None,
            entered: None,
        })),
        Action::Commit { .. } => in_newest(frames, None),
        Action::Leave {
            how: LeaveHow::Normal(value),
            ..
        } => in_newest(frames, *value),
        Action::Assert { env, .. } => Ok(Some(in_scope(alloc, env)?)),
        _ => Ok(None),
    }
}

/// That of the newest frame, with the result that it is left with.
fn in_newest(frames: &Frames, returned: Option<Value>) -> Result<Option<Env>, Memory>
    ensures { IfOk result (λ env. option_map environment_in env ≡ option_map (λ frame. record (frame_environment frame) { result = returned }) (slice_get frames.now 0)) }
{
    let Some(call) = frames.newest() else {
        return Ok(None);
    };
    Ok(Some(Env {
        this: call.this,
        values: call.arguments.copy()?,
        result: returned,
        entered: None,
    }))
}

/// That of an `assert`: `this` or null comes first, and behind it the variables in scope.
fn in_scope(alloc: Global, values: &Values) -> Result<Env, Memory>
    ensures { IfOk result (λ env. environment_in env ≡ with_variables (object_in (slice_get values.now.items 0)) (drop 1 values.now.items)) }
{
    let (this, rest) = match values.as_slice() {
        [Value::Ref(object), rest @ ..] => (Some(*object), rest),
        [_, rest @ ..] => (None, rest),
        rest => (None, rest),
    };
    let mut variables = Values::new(alloc);
    append(&mut variables, rest)?;
    Ok(Env {
        this,
        values: variables,
        result: None,
        entered: None,
    })
}

/// Adds what the clauses due are worth, in order of place.
fn judge_each(
    unit: &TypedUnit,
    due: &Due<'_>,
    env: &Env,
    heap: &PlainHeap,
    values: &mut Vec<Verdict>,
) -> Result<(), Memory>
    ensures values { OnOk result (values.new.items ≡ values.old.items ++ map (moment_value (program_of unit.now) (seen_in heap.now) (environment_in env.now)) (numbers_in due.now)) }
{
    for place in 0..due.len() {
        values.push(value_of(unit, due.at(place), env, heap))?;
    }
    Ok(())
}

/// What the clause of that number is worth. No clause looks back, so the heap stands for the older one too.
fn value_of(unit: &TypedUnit, number: ClauseId, env: &Env, heap: &PlainHeap) -> Verdict
    ensures { result ≡ moment_value (program_of unit.now) (seen_in heap.now) (environment_in env.now) number }
{
    if number.0 == 0 || number.0 > unit.clause_count() {
        return Verdict::Undefined;
    }
    unit.well_formed();
    clauses_name_class_objects();
    let clause = unit.clause(number);
    value(
        clause,
        env,
        &mut PlainReader { heap },
        &mut PlainReader { heap },
        &Locks::none(),
    )
}
