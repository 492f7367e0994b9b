//! Clauses of methods and constructors.

ghost use Rattle.std.specs.Prelude.{◌≡◌, [], map, OnOk};
ghost use Rattle.jr_ast.specs.Clauses.{view_method_clause};
ghost use Rattle.jr_names.specs.Answered.{Answers, Moves};
ghost use Rattle.jr_spec_typing.specs.Clauses.{and_clauses, setting_of, view_written, with_clauses};
ghost use Rattle.jr_spec_typing.specs.Environments.{clauses_at, environment_behind};
ghost use Rattle.jr_spec_typing.specs.Views.{view_stand};
ghost use Rattle.jr_typing.specs.MadeViews.{view_method};
ghost use Rattle.jr_typing.specs.Scoped.{asserts_of};
ghost use Rattle.jr_typing.specs.Views.{view_variable};
ghost use Rattle.jr_typing_rules.specs.Answers.{all_hold, each, gather};
ghost use Rattle.jr_typing_rules.specs.Modifiers.{is_atomic_kind, places_of};
ghost use Rattle.jr_typing_rules.specs.Specifications as spec;

use crate::environment::Environment;
use crate::modifiers::{Holder, modifiers_stand};
use crate::stand::{Quantified, Stand};
use crate::written::{Head, Written};
use jr_ast::{Formal, MethodClause, MethodForm, Modifier, ModifierKind};
use jr_base::{Fail, Memory};
use jr_names::Names;
use jr_program::{ClauseKind, Mode, Owner};
use jr_typing::{MadeMethod, Scope, ScopeStep, Variable};
use sqlite_items::Items;
use std::alloc::Global;

/// A method, the names around it, and how its clauses are meant.
#[derive(Clone, Copy)]
pub struct Home<'a, 'b, 'm> {
    pub names: &'b Names<'a>,
    pub mode: Mode,
    pub method: &'m MadeMethod<'a>,
}

impl<'a, 'b, 'm> Home<'a, 'b, 'm> {
    /// What a clause of the method is, besides what it states.
    fn head(&self, kind: ClauseKind) -> Head
        ensures { result ≡ record { kind = kind; owner = Owner.Method self.now.method.now.number; mode = self.now.mode } }
    {
        Head {
            kind,
            owner: Owner::Method(self.method.number),
            mode: self.mode,
        }
    }

    /// Where a clause of the method stands that may name those variables.
    fn stand<'v, 'q>(&self, variables: &'v [Variable<'a>]) -> Stand<'a, 'b, 'v, 'q>
        ensures { view_stand result ≡ spec.stand_in (setting_of [] self.now.names.now.names) self.now.method.now.class self.now.method.now.is_static (map view_variable variables.now) }
    {
        Stand {
            scope: Scope {
                names: self.names,
                own: self.method.class,
                is_static: self.method.is_static,
                variables,
            },
            result: None,
            looks_back: false,
            is_in_old: false,
            quantified: Quantified::Nothing,
        }
    }

    /// Where an `ensures` of the method stands: it looks back, and may name the result.
    fn stand_at_return<'q>(&self) -> Stand<'a, 'b, 'm, 'q>
        ensures { view_stand result ≡ spec.stand_at_return (setting_of [] self.now.names.now.names) (view_method self.now.method.now) }
    {
        Stand {
            result: self.method.result,
            looks_back: true,
            ..self.stand(self.method.formals.as_slice())
        }
    }
}

fn is_atomic(modifier: Modifier) -> bool
    ensures { result ≡ is_atomic_kind modifier.kind }
{
    matches!(modifier.kind, ModifierKind::Atomic)
}

/// That the modifiers of formals may stand there.
#[tactic(auto, using(crate::proofs::Rules::rule_fails, crate::proofs::Rules::rule_holds, crate::proofs::Rules::no_rule_left))]
fn formals_stand(formals: &[Formal]) -> Result<(), Fail>
    ensures { Answers (λ u. u) (all_hold spec.formal_stands formals.now) result }
{
    for formal in formals {
        modifiers_stand(Holder::Other, formal.modifiers.as_slice())?;
    }
    Ok(())
}

impl<'s> Written<'s> {
    /// Adds a clause that stands before a method, if it is judged.
    #[tactic(auto, using(crate::proofs::Adding::one_clause, crate::proofs::Adding::no_clause))]
    fn add_before_method(
        &mut self,
        alloc: Global,
        home: &Home<'_, '_, '_>,
        clause: &MethodClause,
    ) -> Result<(), Fail>
        ensures { Moves view_written (and_clauses (view_written self.old) (spec.method_clause (setting_of self.old.places home.now.names.now.names) home.now.mode (view_method home.now.method.now) (view_method_clause clause.now))) result self.new }
    {
        let at = clause.place;
        let formals = home.method.formals.as_slice();
        match &clause.form {
            MethodForm::Requires(condition) => {
                let head = home.head(ClauseKind::Requires);
                self.add_condition(alloc, head, &home.stand(formals), at, condition)
            }
            MethodForm::Ensures(condition) => {
                let head = home.head(ClauseKind::Ensures);
                self.add_condition(alloc, head, &home.stand_at_return(), at, condition)
            }
            MethodForm::When(condition) => {
                let head = home.head(ClauseKind::When);
                self.add_condition(alloc, head, &home.stand(formals), at, condition)
            }
            MethodForm::Locks(objects) => {
                let head = home.head(ClauseKind::Locks);
                self.add_references(alloc, head, &home.stand(formals), at, objects.as_slice())
            }
            MethodForm::Assignable | MethodForm::Modifies => Ok(()),
        }
    }

    /// Adds the clauses that stand before a method, from the first to the last.
    fn add_all_before_method(
        &mut self,
        alloc: Global,
        home: &Home<'_, '_, '_>,
        all: &[MethodClause],
    ) -> Result<(), Fail>
        ensures { Moves view_written (and_clauses (view_written self.old) (gather (spec.method_clause (setting_of self.old.places home.now.names.now.names) home.now.mode (view_method home.now.method.now)) (map view_method_clause all.now))) result self.new }
    {
        for clause in all {
            self.add_before_method(alloc, home, clause)?;
        }
        Ok(())
    }

    /// Adds each `atomic` of a method.
    #[tactic(auto, using(crate::proofs::Adding::atomic_added, crate::proofs::Adding::atomic_passed, crate::proofs::Adding::no_atomic_left))]
    fn add_atomics(
        &mut self,
        alloc: Global,
        home: &Home<'_, '_, '_>,
        modifiers: &[Modifier],
    ) -> Result<(), Memory>
        ensures { OnOk result (view_written self.new ≡ with_clauses (view_written self.old) (map (spec.atomic (setting_of self.old.places home.now.names.now.names) home.now.mode (view_method home.now.method.now)) (places_of is_atomic_kind modifiers.now))) }
    {
        for modifier in modifiers {
            if is_atomic(*modifier) {
                self.push(
                    home.head(ClauseKind::Atomic),
                    home.method.is_static,
                    modifier.place,
                    Items::new(alloc),
                )?;
            }
        }
        Ok(())
    }

    /// Adds the clause that a step is, if it is an `assert`.
    #[tactic(auto, using(crate::proofs::Adding::one_clause, crate::proofs::Adding::no_clause))]
    fn add_assert<'a>(
        &mut self,
        alloc: Global,
        home: &Home<'a, '_, '_>,
        environment: &mut Environment<'a>,
        step: &ScopeStep<'a>,
    ) -> Result<(), Fail>
        ensures scope { OnOk result (environment.new ≡ environment_behind environment.old step.now) }
        ensures clauses { Moves view_written (and_clauses (view_written self.old) (clauses_at (setting_of self.old.places home.now.names.now.names) home.now.mode (view_method home.now.method.now) environment.old step.now)) result self.new }
    {
        match step {
            ScopeStep::Declares(variable) => environment.declare(*variable)?,
            ScopeStep::Leaves(count) => environment.leave(*count)?,
            ScopeStep::Asserts(at, condition) => {
                let head = home.head(ClauseKind::Assert);
                let stand = home.stand(environment.variables());
                self.add_condition(alloc, head, &stand, *at, condition)?;
            }
        }
        Ok(())
    }

    /// Adds the asserts of a method, from the first to the last.
    fn add_asserts<'a>(
        &mut self,
        alloc: Global,
        home: &Home<'a, '_, '_>,
        steps: &[ScopeStep<'a>],
    ) -> Result<(), Fail>
        ensures { Moves view_written (and_clauses (view_written self.old) (each (spec.assert (setting_of self.old.places home.now.names.now.names) home.now.mode (view_method home.now.method.now)) (asserts_of [] steps.now))) result self.new }
    {
        let mut environment = Environment::new(alloc);
        for step in steps {
            self.add_assert(alloc, home, &mut environment, step)?;
        }
        Ok(())
    }

    /// Adds the clauses of a method: those before it, each `atomic`, and its asserts. Refused are modifiers that may not
    /// stand where they do, too.
    #[tactic(auto, using(crate::proofs::Adding::before_fails, crate::proofs::Adding::modifiers_fail, crate::proofs::Adding::formals_fail))]
    pub fn add_method(&mut self, alloc: Global, home: &Home<'_, '_, '_>) -> Result<(), Fail>
        ensures { Moves view_written (and_clauses (view_written self.old) (spec.method_clauses (setting_of self.old.places home.now.names.now.names) home.now.mode (view_method home.now.method.now))) result self.new }
    {
        let source = home.method.source;
        let modifiers = source.modifiers.as_slice();
        let steps = home.method.scopes.steps.as_slice();
        self.add_all_before_method(alloc, home, source.clauses.as_slice())?;
        modifiers_stand(Holder::Method, modifiers)?;
        formals_stand(source.formals.as_slice())?;
        self.add_atomics(alloc, home, modifiers)?;
        self.add_asserts(alloc, home, steps)
    }
}
