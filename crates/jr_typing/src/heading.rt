//! What a method's declaration says before its body.

ghost use Rattle.std.specs.Prelude.{◌≡◌, ◌+◌, length, map, slice_get, IfOk};
ghost use Rattle.jr_ast.specs.Clauses.{view_method_clause};
ghost use Rattle.jr_ast.specs.Units.{view_class, view_method};
ghost use Rattle.jr_program.specs.WellFormed.{most_formals};
ghost use Rattle.jr_names.specs.Answered.{Answers};
ghost use Rattle.jr_typing_rules.specs.Declarations as spec;
ghost use Rattle.jr_typing_rules.specs.Modifiers.{is_atomic_kind, places_of};

use crate::counts::{counted, sum};
use crate::ends::body_ends;
use jr_ast::{Class, Formal, Method, MethodClause, MethodForm, MethodKind, Modifier, ModifierKind};
use jr_base::{Fail, Memory, Refusal};
use jr_names::{is_static, is_synchronized, is_void};
use sqlite_items::at;

/// How many formals a method may have.
const MOST_FORMALS: usize = 16;

/// Whether a clause is judged.
fn is_judged(clause: &MethodClause) -> bool
    ensures { result ≡ spec.is_judged (view_method_clause clause.now) }
{
    match clause.form {
        MethodForm::Assignable | MethodForm::Modifies => false,
        MethodForm::Requires(_)
        | MethodForm::Ensures(_)
        | MethodForm::When(_)
        | MethodForm::Locks(_) => true,
    }
}

/// How many clauses are judged.
#[tactic(auto, using(crate::proofs::Judged::judged_counted))]
fn count_judged(clauses: &[MethodClause]) -> usize
    ensures { result ≡ spec.count_judged (map view_method_clause clauses.now) }
{
    clauses.iter().filter(|clause| is_judged(clause)).count()
}

fn is_atomic(modifier: &Modifier) -> bool
    ensures { result ≡ is_atomic_kind modifier.now.kind }
{
    matches!(modifier.kind, ModifierKind::Atomic)
}

/// How many of the modifiers are `atomic`.
#[tactic(auto, using(crate::proofs::Judged::atomic_counted))]
fn count_atomic(modifiers: &[Modifier]) -> usize
    ensures { result ≡ length (places_of is_atomic_kind modifiers.now) }
{
    modifiers
        .iter()
        .filter(|modifier| is_atomic(modifier))
        .count()
}

/// The clauses that stand before the body of a method, where so many stand before the method: those that are judged, and
/// each `atomic`.
pub fn clauses_before_body(before: u32, method: &Method) -> Result<u32, Memory>
    ensures { IfOk result (λ n. n ≡ before + spec.clauses_before_body (view_method method.now)) }
{
    let judged = counted(count_judged(method.clauses.as_slice()))?;
    let atomic = counted(count_atomic(method.modifiers.as_slice()))?;
    sum(sum(before, judged)?, atomic)
}

/// Whether it is a constructor (JLS 8.8).
pub fn is_constructor(kind: &MethodKind) -> bool
    ensures { result ≡ spec.is_constructor kind.now }
{
    matches!(kind, MethodKind::Constructor)
}

/// A constructor has its class's name, and is neither static nor synchronized (JLS 8.8, 8.8.3).
fn is_right_constructor(class: &Class, method: &Method) -> bool
    ensures { result ≡ spec.is_right_constructor (view_class class.now) (view_method method.now) }
{
    method.name.text.as_slice() == class.name.text.as_slice()
        && !(is_static(method.modifiers.as_slice()) || is_synchronized(method.modifiers.as_slice()))
}

/// `run` of a thread, or of what it runs, is an instance method without formals and result (`java.lang.Runnable`).
fn is_right_run(method: &Method) -> bool
    ensures { result ≡ spec.is_right_run (view_method method.now) }
{
    is_void(&method.kind) && method.formals.is_empty() && !is_static(method.modifiers.as_slice())
}

/// Whether it is the `run` of a thread, or of what a thread runs.
fn is_run(class: &Class, method: &Method) -> bool
    ensures { result ≡ spec.is_run (view_class class.now) (view_method method.now) }
{
    method.name.text.as_slice() == b"run".as_slice()
        && (class.extends_thread || class.implements_runnable)
}

/// Whether a constructor, or a `run`, is declared as it must.
pub fn is_right_declaration(class: &Class, method: &Method) -> bool
    ensures { result ≡ spec.right_declaration (view_class class.now) (view_method method.now) method.now.kind }
{
    match method.kind {
        MethodKind::Constructor => is_right_constructor(class, method),
        MethodKind::Void | MethodKind::Valued(_) => !is_run(class, method) || is_right_run(method),
    }
}

/// Whether the body of a method with a result ends (JLS 8.4.7).
pub fn ends_if_asked(method: &Method) -> bool
    ensures { result ≡ spec.ends_if_asked (view_method method.now) method.now.kind }
{
    match method.kind {
        MethodKind::Valued(_) => body_ends(method.body.as_slice()),
        MethodKind::Void | MethodKind::Constructor => true,
    }
}

/// Refuses as `TooManyLocals` the formal behind the 16th.
pub fn few_formals(formals: &[Formal]) -> Result<(), Fail>
    ensures { Answers (λ u. u) (spec.few_formals (slice_get formals.now most_formals)) result }
{
    match at(formals, MOST_FORMALS) {
        Some(formal) => Err(Fail::Refused(Refusal::TooManyLocals(formal.name.place))),
        None => Ok(()),
    }
}
