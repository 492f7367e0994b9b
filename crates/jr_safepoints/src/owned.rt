//! The clauses of a source by what they belong to, and which of them are due where.

ghost use Rattle.std.specs.Prelude.{◌≡◌, ◌+◌, ◌<◌, ◌^◌, [], cond, length, map, IfOk};
ghost use Rattle.jr_names.specs.Answered.{Answers};
ghost use Rattle.jr_program.specs.ClauseViews.{view_clause};
ghost use Rattle.jr_program.specs.Clauses.{OfMethod};
ghost use Rattle.jr_program.specs.Sites as sites;
ghost use Rattle.jr_program.specs.Sites.{clauses_of};
ghost use Rattle.jr_safepoints.specs.Due.{clauses_in, due_at_field, dues_of, few_in, of_class, of_clauses, view_dues, SortsAll};
ghost use Rattle.jr_safepoints.specs.Few.{few};
ghost use Rattle.jr_typing.specs.MadeViews.{view_method};
ghost use Rattle.jr_typing_rules.specs.Whole.{program_method};

use crate::joined::due;
use crate::label::has_commit;
use crate::sorted::{Wanted, list_at, sorted};
use jr_base::{ClauseId, Fail, Memory};
use jr_names::is_helper;
use jr_program::{ClauseKind, DueList, TypedSpec};
use jr_typing::{MadeField, MadeMethod};
use sqlite_items::Items;
use std::alloc::Global;

/// The clauses of a source by what they belong to: of each kind that is due somewhere, those of each method, field or
/// class. Those of classes are there twice: the static ones, and all.
#[derive(Drop)]
pub struct Owned<'c> {
    pub clauses: &'c [TypedSpec],
    pub preconditions: Vec<Items<ClauseId>>,
    pub postconditions: Vec<Items<ClauseId>>,
    pub guards: Vec<Items<ClauseId>>,
    pub locks: Vec<Items<ClauseId>>,
    pub atomics: Vec<Items<ClauseId>>,
    pub monitors: Vec<Items<ClauseId>>,
    pub static_invariants: Vec<Items<ClauseId>>,
    pub invariants: Vec<Items<ClauseId>>,
    pub static_constraints: Vec<Items<ClauseId>>,
    pub constraints: Vec<Items<ClauseId>>,
}

/// What is due in a method: at its call, at its label `commit`, at its normal return, and where a `synchronized`
/// statement of its enters a monitor.
#[derive(Drop)]
pub struct MethodDues {
    pub at_call: DueList,
    pub at_commit: DueList,
    pub at_leave: DueList,
    pub at_enter: DueList,
}

/// Whether it is neither static nor a constructor.
fn is_instance(method: &MadeMethod<'_>) -> bool
    ensures { result ≡ sites.is_instance (program_method (view_method method.now)) }
{
    !method.is_static && !method.is_constructor
}

/// Whether its modifiers say that invariants and constraints aren't due there (JML Reference Manual, "Helper").
fn is_exempt(method: &MadeMethod<'_>) -> bool
    ensures { result ≡ (program_method (view_method method.now)).is_helper }
{
    is_helper(method.source.modifiers.as_slice())
}

impl<'c> Owned<'c> {
    /// Those clauses by what they belong to. Takes ten passes over them.
    pub fn new(alloc: Global, clauses: &'c [TypedSpec]) -> Result<Owned<'c>, Memory>
        requires { length clauses.now + 1 < 2 ^ 32 }
        ensures same { IfOk result (λ owned. clauses_in owned ≡ map view_clause clauses.now) }
        ensures sorted { IfOk result SortsAll }
    {
        Ok(Owned {
            clauses,
            preconditions: sorted(alloc, clauses, Wanted::OfMethod(ClauseKind::Requires))?,
            postconditions: sorted(alloc, clauses, Wanted::OfMethod(ClauseKind::Ensures))?,
            guards: sorted(alloc, clauses, Wanted::OfMethod(ClauseKind::When))?,
            locks: sorted(alloc, clauses, Wanted::OfMethod(ClauseKind::Locks))?,
            atomics: sorted(alloc, clauses, Wanted::OfMethod(ClauseKind::Atomic))?,
            monitors: sorted(alloc, clauses, Wanted::OfField(ClauseKind::MonitorsFor))?,
            static_invariants: sorted(
                alloc,
                clauses,
                Wanted::OfClass(ClauseKind::Invariant, false),
            )?,
            invariants: sorted(alloc, clauses, Wanted::OfClass(ClauseKind::Invariant, true))?,
            static_constraints: sorted(
                alloc,
                clauses,
                Wanted::OfClass(ClauseKind::Constraint, false),
            )?,
            constraints: sorted(
                alloc,
                clauses,
                Wanted::OfClass(ClauseKind::Constraint, true),
            )?,
        })
    }

    /// The invariants of a method's class, and whether with those that speak of an object; none for a helper.
    fn invariants_of(&self, method: &MadeMethod<'_>, with_objects: bool) -> &[ClauseId]
        requires { SortsAll self.now }
        ensures { result.now ≡ of_class (clauses_in self.now) (program_method (view_method method.now)) ClauseKind.Invariant with_objects }
    {
        if is_exempt(method) {
            &[]
        } else if with_objects {
            list_at(&self.invariants, method.class.0)
        } else {
            list_at(&self.static_invariants, method.class.0)
        }
    }

    /// The constraints of a method's class, in the same way.
    fn constraints_of(&self, method: &MadeMethod<'_>, with_objects: bool) -> &[ClauseId]
        requires { SortsAll self.now }
        ensures { result.now ≡ of_class (clauses_in self.now) (program_method (view_method method.now)) ClauseKind.Constraint with_objects }
    {
        if is_exempt(method) {
            &[]
        } else if with_objects {
            list_at(&self.constraints, method.class.0)
        } else {
            list_at(&self.static_constraints, method.class.0)
        }
    }

    /// The `when` clauses that are due at a method's return: all, where its body has no label `commit`.
    fn guards_at_leave(&self, method: &MadeMethod<'_>) -> &[ClauseId]
        requires { SortsAll self.now }
        ensures { result.now ≡ cond (sites.has_commit (program_method (view_method method.now)).body) [] (clauses_of (of_clauses (clauses_in self.now)) (OfMethod method.now.number) ClauseKind.When) }
    {
        if has_commit(&method.body) {
            &[]
        } else {
            list_at(&self.guards, method.number.0)
        }
    }

    /// What is due at the call of a method.
    #[tactic(auto, using(crate::proofs::Leaving::call_joined))]
    fn due_at_call(&self, alloc: Global, method: &MadeMethod<'_>) -> Result<DueList, Fail>
        requires { SortsAll self.now }
        ensures { Answers (λ due. due) (few method.now.source.now.name.place (sites.due_at_call (of_clauses (clauses_in self.now)) method.now.number (program_method (view_method method.now)))) result }
    {
        due(
            alloc,
            method.source.name.place,
            &[
                list_at(&self.preconditions, method.number.0),
                self.invariants_of(method, is_instance(method)),
            ],
        )
    }

    /// What is due at the normal return of a method.
    #[tactic(auto, using(crate::proofs::Leaving::leave_joined))]
    fn due_at_leave(&self, alloc: Global, method: &MadeMethod<'_>) -> Result<DueList, Fail>
        requires { SortsAll self.now }
        ensures { Answers (λ due. due) (few method.now.source.now.name.place (sites.due_at_leave (of_clauses (clauses_in self.now)) method.now.number (program_method (view_method method.now)))) result }
    {
        due(
            alloc,
            method.source.name.place,
            &[
                self.guards_at_leave(method),
                list_at(&self.postconditions, method.number.0),
                self.invariants_of(method, !method.is_static),
                self.constraints_of(method, is_instance(method)),
                list_at(&self.atomics, method.number.0),
            ],
        )
    }

    /// What is due in a method. Refused as `TooManyClauses`, at its name, where it is too much at one site.
    pub fn dues_of(&self, alloc: Global, method: &MadeMethod<'_>) -> Result<MethodDues, Fail>
        requires { SortsAll self.now }
        ensures { Answers view_dues (few_in method.now.source.now.name.place (dues_of (clauses_in self.now) method.now.number (program_method (view_method method.now)))) result }
    {
        let at = method.source.name.place;
        let at_call = self.due_at_call(alloc, method)?;
        let at_commit = due(alloc, at, &[list_at(&self.guards, method.number.0)])?;
        let at_leave = self.due_at_leave(alloc, method)?;
        let at_enter = due(alloc, at, &[list_at(&self.locks, method.number.0)])?;
        Ok(MethodDues {
            at_call,
            at_commit,
            at_leave,
            at_enter,
        })
    }

    /// What is due at each read and write of a field. Refused as `TooManyClauses`, at its name, where it is too much.
    pub fn due_at_field(&self, alloc: Global, field: &MadeField<'_>) -> Result<DueList, Fail>
        requires { SortsAll self.now }
        ensures { Answers (λ due. due) (few field.now.name.now.place (due_at_field (clauses_in self.now) field.now.number)) result }
    {
        due(
            alloc,
            field.name.place,
            &[list_at(&self.monitors, field.number.0)],
        )
    }
}
