//! Clauses in source order.

ghost use Rattle.std.specs.Prelude.{◌≡◌, [], ◌∷◌, map, IfOk, OnOk};
ghost use Rattle.jr_ast.specs.Expressions.{view_spec};
ghost use Rattle.jr_base.specs.Positions.{position_in};
ghost use Rattle.jr_names.specs.Answered.{Answers, Moves};
ghost use Rattle.jr_program.specs.ClauseViews.{view_expr, view_owner};
ghost use Rattle.jr_spec_typing.specs.Clauses.{and_clause, setting_of, view_written, with_clauses};
ghost use Rattle.jr_spec_typing.specs.Views.{view_stand};
ghost use Rattle.jr_typing_rules.specs.Answers.{each};
ghost use Rattle.jr_typing_rules.specs.Predicates as predicates;
ghost use Rattle.jr_typing_rules.specs.Specifications as spec;

use crate::predicate::{states_boolean, states_reference};
use crate::stand::Stand;
use jr_ast::SpecExpr;
use jr_base::{Fail, Memory, Places, Span};
use jr_program::{ClauseExpr, ClauseKind, Mode, Owner, TypedSpec};
use sqlite_items::Items;
use std::alloc::Global;

/// The clauses of a source so far, in source order, and the lines and columns of that source.
#[derive(Drop)]
pub struct Written<'s> {
    pub places: Places<'s>,
    pub clauses: Items<TypedSpec>,
}

/// What a clause is, besides what it states.
#[derive(Clone, Copy)]
pub struct Head {
    pub kind: ClauseKind,
    pub owner: Owner,
    pub mode: Mode,
}

/// The members of a `locks` or `monitors_for` clause, from left to right.
#[tactic(auto, using(crate::proofs::Members::member_fails, crate::proofs::Members::member_goes_on, crate::proofs::Members::no_member_left))]
fn references<'q>(
    alloc: Global,
    stand: &Stand<'_, '_, '_, 'q>,
    all: &'q [SpecExpr],
) -> Result<Items<ClauseExpr>, Fail>
    ensures { Answers (map view_expr) (each (predicates.states_reference (view_stand stand.now)) (map view_spec all.now)) result }
{
    let mut members = Items::new(alloc);
    for member in all {
        members.push(states_reference(alloc, stand, &member.expr)?)?;
    }
    Ok(members)
}

impl<'s> Written<'s> {
    /// Adds a clause, whose keyword stands there.
    pub fn push(
        &mut self,
        head: Head,
        is_static: bool,
        at: Span,
        states: Items<ClauseExpr>,
    ) -> Result<(), Memory>
        ensures { OnOk result (view_written self.new ≡ with_clauses (view_written self.old) (record { kind = head.kind; owner = view_owner head.owner; mode = head.mode; is_static = is_static; place = position_in self.old.places at.start; states = map view_expr states } ∷ [])) }
    {
        let place = self.places.find(at.start);
        self.clauses.push(TypedSpec {
            kind: head.kind,
            owner: head.owner,
            mode: head.mode,
            is_static,
            place,
            states,
        })?;
        Ok(())
    }

    /// Adds a clause that states one condition.
    pub fn add_condition<'q>(
        &mut self,
        alloc: Global,
        head: Head,
        stand: &Stand<'_, '_, '_, 'q>,
        at: Span,
        condition: &'q SpecExpr,
    ) -> Result<(), Fail>
        ensures { Moves view_written (and_clause (view_written self.old) (spec.one_condition (setting_of self.old.places stand.now.scope.names.now.names) (view_owner head.owner) head.kind head.mode (view_stand stand.now) at (view_spec condition.now))) result self.new }
    {
        let states = one(alloc, states_boolean(alloc, stand, &condition.expr)?)?;
        self.push(head, stand.scope.is_static, at, states)?;
        Ok(())
    }

    /// Adds a clause that names objects.
    pub fn add_references<'q>(
        &mut self,
        alloc: Global,
        head: Head,
        stand: &Stand<'_, '_, '_, 'q>,
        at: Span,
        all: &'q [SpecExpr],
    ) -> Result<(), Fail>
        ensures { Moves view_written (and_clause (view_written self.old) (spec.references (setting_of self.old.places stand.now.scope.names.now.names) (view_owner head.owner) head.kind head.mode (view_stand stand.now) at (map view_spec all.now))) result self.new }
    {
        let states = references(alloc, stand, all)?;
        self.push(head, stand.scope.is_static, at, states)?;
        Ok(())
    }
}

/// One item.
fn one(alloc: Global, expr: ClauseExpr) -> Result<Items<ClauseExpr>, Memory>
    ensures { IfOk result (λ items. items ≡ expr ∷ []) }
{
    let mut items = Items::new(alloc);
    items.push(expr)?;
    Ok(items)
}
