//! What may be named at a place.

ghost use Rattle.std.specs.Prelude.{◌≡◌, find, option_copied, option_map};
ghost use Rattle.std.specs.Str.{bytes_eq};
ghost use Rattle.jr_typing.specs.declared.scope.Variable.{Variable as VariableTree};
ghost use Rattle.jr_typing.specs.Views.{view_scope, view_variable};
ghost use Rattle.jr_typing_rules.specs.Scopes as spec;

use jr_base::ClassId;
use jr_names::Names;
use jr_typing_rules::{FieldEntry, MethodEntry, VariableKind};

/// A variable in scope (JLS 6.3).
#[derive(Clone, Copy, Debug)]
pub struct Variable<'a> {
    pub name: &'a [u8],
    pub kind: VariableKind,
}

/// What may be named at a place (JLS 6.3): the class in which it is, whether there is no `this`, and the variables,
/// from the first that was declared to the last.
#[derive(Clone, Copy)]
pub struct Scope<'a, 'b, 'v> {
    pub names: &'b Names<'a>,
    pub own: ClassId,
    pub is_static: bool,
    pub variables: &'v [Variable<'a>],
}

/// The variable of that name: the rules keep at most 256 in scope.
fn variable_named<'a, 'b>(variables: &'b [Variable<'a>], name: &[u8]) -> Option<&'b Variable<'a>>
    ensures { option_copied result ≡ find (λ (v : VariableTree). bytes_eq name.now v.name.now) variables.now }
{
    variables.iter().find(|variable| name == variable.name)
}

impl<'a, 'b, 'v> Scope<'a, 'b, 'v> {
    /// What the variable of that name is.
    #[tactic(auto, using(crate::proofs::Lookups::variable_found))]
    pub fn variable(&self, name: &[u8]) -> Option<Variable<'a>>
        ensures { option_map view_variable result ≡ spec.variable_named (view_scope self.now) name.now }
    {
        variable_named(self.variables, name).copied()
    }

    /// The field of that name of the own class.
    pub fn field(&self, name: &[u8]) -> Option<FieldEntry>
        ensures { result ≡ spec.own_field (view_scope self.now) name.now }
    {
        self.names.field_in(self.own, name)
    }

    /// The method of that name of the own class.
    pub fn method(&self, name: &[u8]) -> Option<&'b MethodEntry>
        ensures { option_copied result ≡ spec.own_method (view_scope self.now) name.now }
    {
        self.names.method_in(self.own, name)
    }
}
