//! The environments of asserts (JML Reference Manual, "Assert Statements").

ghost use Rattle.std.specs.Prelude.{◌≡◌, [], map, take, IfOk, OnOk};
ghost use Rattle.jr_spec_typing.specs.Environments.{and_placed, last_place};
ghost use Rattle.jr_typing.specs.Views.{view_variable};
ghost use Rattle.jr_typing_rules.specs.Specifications as spec;

use jr_base::Memory;
use jr_typing::Variable;
use jr_typing_rules::VariableKind;
use std::alloc::Global;
use std::marker::Model;

/// The variables in scope at a place of a method, each that has a value by its place among those.
///
/// Contracts see the variables.
#[derive(Drop)]
pub struct Environment<'a> {
    variables: Vec<Variable<'a>>,
    next: u32,
}

impl<'a> Model for Environment<'a> {
    ghost use Rattle.std.specs.Prelude.{◌≡◌, List, map};
    ghost use Rattle.jr_spec_typing.specs.Environments.{last_place};
    ghost use Rattle.jr_typing.specs.Views.{view_variable};
    ghost use Rattle.jr_typing_rules.specs.Scopes.{Variable as Named};

    ghost Value = { List Named };

    ghost view = { λ e. map view_variable e.variables.items };

    ghost invariant = { λ e. e.next ≡ last_place 0 (map view_variable e.variables.items) };
}

impl<'a> Environment<'a> {
    /// No variable. Takes no memory.
    pub fn new(alloc: Global) -> Environment<'a>
        ensures { result ≡ [] }
    {
        Environment {
            variables: Vec::new(alloc),
            next: 0,
        }
    }

    /// The variables, from the first that was declared to the last.
    pub fn variables(&self) -> &[Variable<'a>]
        ensures { map view_variable result.now ≡ self.now }
    {
        self.variables.as_slice()
    }

    /// One more variable is in scope.
    #[tactic(auto, using(crate::proofs::Environing::placed_last, crate::proofs::Environing::place_behind))]
    pub fn declare(&mut self, variable: Variable<'a>) -> Result<(), Memory>
        ensures { OnOk result (self.new ≡ and_placed self.old (view_variable variable.entry)) }
    {
        let kind = placed(self.next, variable.kind);
        let next = place_after(self.next, variable.kind)?;
        self.variables.push(Variable {
            name: variable.name,
            kind,
        })?;
        self.next = next;
        Ok(())
    }

    /// So many of the first variables stay in scope.
    #[tactic(auto, using(crate::proofs::Environing::first_of_view))]
    pub fn leave(&mut self, count: usize) -> Result<(), Memory>
        ensures { OnOk result (self.new ≡ take count self.old) }
    {
        if count < self.variables.len() {
            let next = place_behind(&self.variables.as_slice()[..count])?;
            self.variables.truncate(count);
            self.next = next;
        }
        Ok(())
    }
}

/// The variable, at that place if it has a value.
fn placed(place: u32, kind: VariableKind) -> VariableKind
    ensures { result ≡ spec.placed place kind }
{
    match kind {
        VariableKind::Local(of, _) => VariableKind::Local(of, place),
        VariableKind::Caught(_) | VariableKind::Arguments => kind,
    }
}

/// The place behind the variable.
fn place_after(place: u32, kind: VariableKind) -> Result<u32, Memory>
    ensures { IfOk result (λ next. next ≡ spec.place_after place kind) }
{
    match kind {
        VariableKind::Local(_, _) => place.checked_add(1).ok_or(Memory),
        VariableKind::Caught(_) | VariableKind::Arguments => Ok(place),
    }
}

/// The place behind those variables.
#[tactic(auto, using(crate::proofs::Environing::next_place, crate::proofs::Environing::no_place_left))]
fn place_behind(variables: &[Variable<'_>]) -> Result<u32, Memory>
    ensures { IfOk result (λ next. next ≡ last_place 0 (map view_variable variables.now)) }
{
    let mut next = 0;
    for variable in variables {
        next = place_after(next, variable.kind)?;
    }
    Ok(next)
}
