//! Exceptions that are thrown and caught.

ghost use Rattle.std.specs.Prelude.{◌≡◌};
ghost use Rattle.jr_names.specs.Answered.{Answers};
ghost use Rattle.jr_program.specs.StatementViews.{view_form};
ghost use Rattle.jr_typing.specs.Views.{view_scope};
ghost use Rattle.jr_typing_rules.specs.Statements as spec;

use crate::denotation::{mismatch, unknown};
use crate::scope::Scope;
use jr_ast::Name;
use jr_base::{Fail, Fault, Refusal};
use jr_names::fault_named;
use jr_program::TypedForm;
use jr_typing_rules::VariableKind;

/// The exception of that name (JLS 14.18, 14.20).
pub fn fault_of(name: &Name) -> Result<Fault, Fail>
    ensures { Answers (λ fault. fault) (spec.fault_of name.now) result }
{
    match fault_named(name.text.as_slice()) {
        Some(fault) => Ok(fault),
        None => Err(unknown(name.place)),
    }
}

/// `throw x;` of a variable, which is that of a catch (JLS 14.18).
#[tactic(auto, unfolding(jr_typing_rules::specs::Statements::throws_variable))]
pub fn throws_variable(scope: &Scope<'_, '_, '_>, name: &Name) -> Result<TypedForm, Fail>
    ensures { Answers view_form (spec.throws_variable (view_scope scope.now) name.now) result }
{
    match scope.variable(name.text.as_slice()) {
        Some(variable) => match variable.kind {
            VariableKind::Caught(place) => Ok(TypedForm::ThrowCaught(place)),
            VariableKind::Local(_, _) => Err(mismatch(name.place)),
            VariableKind::Arguments => Err(Fail::Refused(Refusal::NotInProfile(name.place))),
        },
        None => match scope.field(name.text.as_slice()) {
            Some(_) => Err(mismatch(name.place)),
            None => Err(unknown(name.place)),
        },
    }
}
