//! What is known of a method while its body is typed.

ghost use Rattle.std.specs.Prelude.{◌≡◌, false, [], length, map, IfOk};
ghost use Rattle.std.specs.List.{list_any};
ghost use Rattle.std.specs.Str.{bytes_eq};
ghost use Rattle.jr_names.specs.Answered.{Moves};
ghost use Rattle.jr_typing.specs.declared.scope.Variable.{Variable as VariableTree};
ghost use Rattle.jr_typing.specs.StatementViews.{view_frame, view_state};
ghost use Rattle.jr_typing.specs.Views.{view_scope, view_variable};
ghost use Rattle.jr_typing_rules.specs.Statements as spec;

use crate::scope::{Scope, Variable};
use crate::scopes::Scopes;
use crate::types::kind_of;
use jr_ast::Name;
use jr_base::{ClassId, Fail, Memory, Refusal, SlotKind};
use jr_names::Names;
use jr_typing_rules::{ValueType, VariableKind};
use sqlite_items::Items;
use std::alloc::Global;

/// How many variables may be in scope, `this` among them.
const MOST_IN_SCOPE: usize = 256;

/// What is the same in a whole method.
#[derive(Clone, Copy)]
pub struct Frame<'a, 'b> {
    pub names: &'b Names<'a>,
    pub own: ClassId,
    pub is_static: bool,
    /// The type of what it returns, if it returns something.
    pub result: Option<ValueType>,
    /// How many clauses of the program stand before the body.
    pub clauses: u32,
    /// How many texts of the program stand before the body.
    pub texts: u32,
}

/// What changes from statement to statement.
#[derive(Drop)]
pub struct State<'a> {
    pub scopes: Scopes<'a>,
    /// Of all variables that the method has declared so far, by their places.
    pub kinds: Items<SlotKind>,
    pub has_commit: bool,
    /// The string literals that are printed.
    pub texts: Items<&'a [u8]>,
}

/// Whether a variable has that name.
fn is_declared(variables: &[Variable<'_>], name: &[u8]) -> bool
    ensures { result ≡ list_any (λ (v : VariableTree). bytes_eq name.now v.name.now) variables.now }
{
    variables.iter().any(|variable| name == variable.name)
}

impl<'a> State<'a> {
    /// What is known before a body whose formals are those, with what they hold by their places.
    pub fn new(
        alloc: Global,
        formals: &[Variable<'a>],
        kinds: Items<SlotKind>,
    ) -> Result<State<'a>, Memory>
        ensures { IfOk result (λ state. view_state state ≡ record { variables = map view_variable formals.now; kinds = kinds; has_commit = false; asserts = []; texts = [] }) }
    {
        Ok(State {
            scopes: Scopes::of(alloc, formals)?,
            kinds,
            has_commit: false,
            texts: Items::new(alloc),
        })
    }

    /// What may be named behind the statements so far.
    pub fn scope_in<'b, 'v>(&'v self, frame: &Frame<'a, 'b>) -> Scope<'a, 'b, 'v>
        ensures { view_scope result ≡ spec.scope_in (view_frame frame.now) (view_state self.now) }
    {
        Scope {
            names: frame.names,
            own: frame.own,
            is_static: frame.is_static,
            variables: self.scopes.variables.as_slice(),
        }
    }

    /// The place of the next variable in the frame.
    pub fn next_place(&self) -> Result<u32, Memory>
        ensures { IfOk result (λ place. place ≡ length self.now.kinds) }
    {
        u32::try_from(self.kinds.len()).map_err(|_| Memory)
    }

    /// Whether a variable in scope has that name.
    #[tactic(auto, using(crate::proofs::Lookups::any_declared))]
    fn has_variable(&self, name: &[u8]) -> bool
        ensures { result ≡ spec.has_variable (view_state self.now) name.now }
    {
        is_declared(self.scopes.variables.as_slice(), name)
    }

    /// How many variables are in scope, `this` among them.
    #[tactic(auto, using(crate::proofs::Lists::as_many))]
    fn count_in_scope(&self, is_static: bool) -> Result<usize, Memory>
        ensures { IfOk result (λ count. count ≡ spec.count_in_scope is_static (view_state self.now)) }
    {
        let count = self.scopes.variables.len();
        if is_static {
            return Ok(count);
        }
        count.checked_add(1).ok_or(Memory)
    }

    /// One more variable. Refused as `Duplicate` where one in scope has its name (JLS 6.4), and as `TooManyLocals` where
    /// 256 are in scope.
    #[tactic(auto, using(crate::proofs::Lists::map_append), unfolding(jr_typing_rules::specs::Statements::and_variable))]
    fn add(
        &mut self,
        frame: &Frame<'_, '_>,
        name: &'a Name,
        kind: VariableKind,
        slot: SlotKind,
    ) -> Result<(), Fail>
        ensures { Moves view_state (spec.and_variable (view_frame frame.now) (view_state self.old) name.now kind slot) result self.new }
    {
        if self.has_variable(name.text.as_slice()) {
            return Err(Fail::Refused(Refusal::Duplicate(name.place)));
        }
        if self.count_in_scope(frame.is_static)? >= MOST_IN_SCOPE {
            return Err(Fail::Refused(Refusal::TooManyLocals(name.place)));
        }
        self.scopes.declare(Variable {
            name: name.text.as_slice(),
            kind,
        })?;
        self.kinds.push(slot)?;
        Ok(())
    }

    /// One more local variable (JLS 14.4).
    pub fn add_local(
        &mut self,
        frame: &Frame<'_, '_>,
        name: &'a Name,
        of: ValueType,
    ) -> Result<(), Fail>
        ensures { Moves view_state (spec.and_local (view_frame frame.now) (view_state self.old) name.now of) result self.new }
    {
        let place = self.next_place()?;
        self.add(frame, name, VariableKind::Local(of, place), kind_of(of))
    }

    /// The variable of a catch (JLS 14.20).
    pub fn add_caught(&mut self, frame: &Frame<'_, '_>, name: &'a Name) -> Result<(), Fail>
        ensures { Moves view_state (spec.and_caught (view_frame frame.now) (view_state self.old) name.now) result self.new }
    {
        let place = self.next_place()?;
        self.add(frame, name, VariableKind::Caught(place), SlotKind::Caught)
    }
}
