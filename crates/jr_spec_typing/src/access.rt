//! What stands behind a dot or in brackets.

ghost use Rattle.jr_names.specs.Answered.{Answers};
ghost use Rattle.jr_spec_typing.specs.Views.{view_held, view_stand, view_stated, view_term};
ghost use Rattle.jr_typing_rules.specs.Predicates as spec;

use crate::name::{field_of_object, static_field};
use crate::stand::Stand;
use crate::term::{Held, Stated, Term, face_of, held_at};
use jr_ast::Name;
use jr_base::{Fail, Span};
use jr_program::ClauseSuffix;
use jr_typing::{INT, field_access, members_of, mismatch};
use jr_typing_rules::{Access, FieldEntry, Members, ValueType};
use std::alloc::Global;

/// The length of an array (JLS 10.7).
fn length_of(at: Span, term: Term) -> Result<Term, Fail>
    ensures { Answers view_term (spec.accessed at Access.Length (view_term term)) result }
{
    let Held { of: _, chain } = held_at(at, term)?;
    let chain = chain.with(ClauseSuffix::Length)?;
    Ok(Term::Value(INT, chain))
}

/// A field of an object (JLS 15.11).
fn instance_field(at: Span, field: FieldEntry, term: Term) -> Result<Term, Fail>
    ensures { Answers view_term (spec.accessed at (Access.Field field) (view_term term)) result }
{
    let Held { of: _, chain } = held_at(at, term)?;
    Ok(field_of_object(chain, field)?)
}

/// The field that was found, of what stands before the dot.
fn accessed(alloc: Global, at: Span, access: Access, term: Term) -> Result<Term, Fail>
    ensures { Answers view_term (spec.accessed at access (view_term term)) result }
{
    match access {
        Access::Static(field) => Ok(static_field(alloc, field)?),
        Access::Out(system) => Ok(Term::Out(system)),
        Access::Length => length_of(at, term),
        Access::Field(field) => instance_field(at, field, term),
    }
}

/// The field of that name of what stands before the dot (JLS 15.11).
pub fn field_of(
    alloc: Global,
    stand: &Stand<'_, '_, '_, '_>,
    at: Span,
    name: &Name,
    term: Term,
) -> Result<Term, Fail>
    ensures { Answers view_term (spec.field_of (view_stand stand.now) at name.now (view_term term)) result }
{
    let access = field_access(&stand.scope, at, name, face_of(&term))?;
    accessed(alloc, at, access, term)
}

/// An array's element (JLS 15.10.3).
pub fn element(at: Span, array: Held, index: Stated) -> Result<Term, Fail>
    ensures { Answers view_term (spec.element at (view_held array) (view_stated index)) result }
{
    let Held { of, chain } = array;
    match members_of(of) {
        Members::OfArray(elem) => {
            let chain = chain.with(ClauseSuffix::Element(index.node))?;
            Ok(Term::Value(ValueType::Single(elem), chain))
        }
        _ => Err(mismatch(at)),
    }
}
