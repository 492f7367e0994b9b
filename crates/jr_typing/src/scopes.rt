//! The variables in scope from place to place of a method.

ghost use Rattle.std.specs.Prelude.{◌≡◌, ◌+◌, [], ◌∷◌, ◌++◌, map, take, IfOk, OnOk};
ghost use Rattle.jr_ast.specs.Expressions.{view_spec};
ghost use Rattle.jr_typing.specs.Scoped.{AreInScope, asserts_of};
ghost use Rattle.jr_typing.specs.Views.{view_variable};

use crate::scope::Variable;
use jr_ast::SpecExpr;
use jr_base::{Memory, Span};
use std::alloc::Global;

/// What happens to the variables in scope (JLS 6.3), and where a JML `assert` sees them.
#[derive(Clone, Copy)]
pub enum ScopeStep<'a> {
    /// One more is in scope, the last.
    Declares(Variable<'a>),
    /// So many of the first stay in scope.
    Leaves(usize),
    /// The place of an `assert`, and what it states.
    Asserts(Span, &'a SpecExpr),
}

/// The variables in scope, from the first that was declared to the last, and what happened to them. An assert copies no
/// variables: those in scope at it are known by the steps before it.
#[derive(Drop)]
pub struct Scopes<'a> {
    pub variables: Vec<Variable<'a>>,
    pub steps: Vec<ScopeStep<'a>>,
    /// How many steps are asserts.
    pub asserts: u32,
    ghost in_scope: { AreInScope variables.items steps.items asserts },
}

fn one_more(count: u32) -> Result<u32, Memory>
    ensures { IfOk result (λ more. more ≡ count + 1) }
{
    count.checked_add(1).ok_or(Memory)
}

impl<'a> Scopes<'a> {
    /// No variable. Takes no memory.
    pub fn new(alloc: Global) -> Scopes<'a>
        ensures variables { result.variables.items ≡ [] }
        ensures asserts { asserts_of [] result.steps.items ≡ [] }
    {
        Scopes {
            variables: Vec::new(alloc),
            steps: Vec::new(alloc),
            asserts: 0,
        }
    }

    /// Those variables are in scope.
    #[tactic(auto, using(crate::proofs::Scoping::next_variable, crate::proofs::Scoping::no_variable_left))]
    pub fn of(alloc: Global, variables: &[Variable<'a>]) -> Result<Scopes<'a>, Memory>
        ensures variables { IfOk result (λ scopes. scopes.variables.items ≡ variables.now) }
        ensures asserts { IfOk result (λ scopes. asserts_of [] scopes.steps.items ≡ []) }
    {
        let mut scopes = Scopes::new(alloc);
        for variable in variables {
            scopes.declare(*variable)?;
        }
        Ok(scopes)
    }

    /// One more variable is in scope.
    #[tactic(auto, using(crate::proofs::Scoping::declared, crate::proofs::Scoping::declares_no_assert))]
    pub fn declare(&mut self, variable: Variable<'a>) -> Result<(), Memory>
        ensures variables { OnOk result (self.new.variables.items ≡ self.old.variables.items ++ variable.entry ∷ []) }
        ensures asserts { OnOk result (asserts_of [] self.new.steps.items ≡ asserts_of [] self.old.steps.items) }
    {
        self.steps.reserve(1)?;
        self.variables.push(variable)?;
        self.steps.push_reserved(ScopeStep::Declares(variable));
        Ok(())
    }

    /// So many of the first variables stay in scope.
    #[tactic(auto, using(crate::proofs::Scoping::left, crate::proofs::Scoping::leaves_no_assert))]
    pub fn leave(&mut self, count: usize) -> Result<(), Memory>
        ensures variables { OnOk result (self.new.variables.items ≡ take count self.old.variables.items) }
        ensures asserts { OnOk result (asserts_of [] self.new.steps.items ≡ asserts_of [] self.old.steps.items) }
    {
        self.steps.push(ScopeStep::Leaves(count))?;
        self.variables.truncate(count);
        Ok(())
    }

    /// An `assert`, which stands there, and what it states.
    #[tactic(auto, using(crate::proofs::Scoping::asserted, crate::proofs::Scoping::one_assert))]
    pub fn assert(&mut self, place: Span, condition: &'a SpecExpr) -> Result<(), Memory>
        ensures variables { OnOk result (self.new.variables.items ≡ self.old.variables.items) }
        ensures asserts { OnOk result (asserts_of [] self.new.steps.items ≡ asserts_of [] self.old.steps.items ++ record { place = place; condition = view_spec condition.now; variables = map view_variable self.old.variables.items } ∷ []) }
    {
        let asserts = one_more(self.asserts)?;
        self.steps.push(ScopeStep::Asserts(place, condition))?;
        self.asserts = asserts;
        Ok(())
    }
}
