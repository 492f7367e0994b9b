//! Whether the program of a unit can be run yet.

ghost use Rattle.std.specs.Prelude.{◌≡◌};
ghost use Rattle.std.specs.List.{list_all};
ghost use Rattle.jr_program.specs.UnitViews.{program_of, view_method};
ghost use Rattle.jr_built.specs.Built.{class_is_built, method_is_built, clause_is_built, is_built};

use crate::clause::is_clause_built;
use crate::stmt::is_stmt_built;
use jr_base::{ClassId, ClauseId, MethodId};
use jr_program::{TypedMethod, TypedUnit};

fn is_method_built(method: &TypedMethod) -> bool
    ensures { result ≡ method_is_built (view_method method.now) }
{
    !method.is_synchronized && is_stmt_built(&method.body)
}

#[tactic(auto, using(crate::proofs::Lists::walk_on, crate::proofs::Lists::walk_stops, crate::proofs::Lists::all_end))]
fn are_classes_built(unit: &TypedUnit) -> bool
    ensures { result ≡ list_all class_is_built (program_of unit.now).classes }
{
    for number in 0..unit.class_count() {
        if unit.class(ClassId(number)).extends_thread {
            return false;
        }
    }
    true
}

#[tactic(auto, using(crate::proofs::Lists::walk_on, crate::proofs::Lists::walk_stops, crate::proofs::Lists::all_end))]
fn are_methods_built(unit: &TypedUnit) -> bool
    ensures { result ≡ list_all method_is_built (program_of unit.now).methods }
{
    for number in 0..unit.method_count() {
        if !is_method_built(unit.method(MethodId(number))) {
            return false;
        }
    }
    true
}

#[tactic(auto, using(crate::proofs::Lists::walk_on, crate::proofs::Lists::walk_stops, crate::proofs::Lists::all_end))]
fn are_clauses_built(unit: &TypedUnit) -> bool
    ensures { result ≡ list_all clause_is_built (program_of unit.now).clauses }
{
    for number in 0..unit.clause_count() {
        if !is_clause_built(unit.clause(ClauseId(number + 1))) {
            return false;
        }
    }
    true
}

/// Whether the program of a unit can be run yet: one of one thread, whose clauses look at the moment alone. Its code has no
/// `synchronized` (JLS 8.4.3.6, 14.19), no `wait`, `notify`, `notifyAll`, `start`, `join` or `new Thread(..)`, and no class
/// that extends `Thread` (JLS 17; `java.lang.Thread`). Its clauses are no `locks`, `monitors_for` or `atomic`, and have no
/// `\old` and no `\lockset`.
pub fn is_built(unit: &TypedUnit) -> bool
    ensures { result ≡ is_built (program_of unit.now) }
{
    are_classes_built(unit) && are_methods_built(unit) && are_clauses_built(unit)
}
