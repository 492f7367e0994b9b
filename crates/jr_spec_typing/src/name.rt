//! Names of clauses.

ghost use Rattle.std.specs.Prelude.{◌≡◌, option_map, IfOk};
ghost use Rattle.jr_names.specs.Answered.{Answers};
ghost use Rattle.jr_typing.specs.Views.{view_denotation, view_scope, view_variable};
ghost use Rattle.jr_spec_typing.specs.Views.{view_chain, view_stand, view_term};
ghost use Rattle.jr_typing_rules.specs.Predicates as spec;

use crate::chain::Chain;
use crate::stand::Stand;
use crate::term::{Term, stating};
use jr_ast::Name;
use jr_base::{Cell, Fail, Memory, ObjId, Refusal, Span};
use jr_program::{ClauseShape, ClauseSuffix};
use jr_typing::{Denotation, INT, Scope, Variable, class_denoted, mismatch, not_here};
use jr_typing_rules::{FieldEntry, VariableKind};
use std::alloc::Global;

fn of_variable(alloc: Global, name: &Name, kind: VariableKind) -> Result<Term, Fail>
    ensures { Answers view_term (spec.of_variable name.now kind) result }
{
    match kind {
        VariableKind::Local(of, place) => Ok(stating(alloc, of, ClauseShape::Variable(place))?),
        VariableKind::Caught(_) => Err(mismatch(name.place)),
        VariableKind::Arguments => Err(Fail::Refused(Refusal::NotInProfile(name.place))),
    }
}

/// Where a static field lies (JLS 8.3.1.1): on the object of its class. `Memory` where there are more classes than
/// objects.
fn cell_of(field: FieldEntry) -> Result<Cell, Memory>
    ensures { IfOk result (λ cell. cell ≡ spec.cell_of field) }
{
    if field.class.0 == u32::MAX {
        return Err(Memory);
    }
    Ok(Cell {
        obj: ObjId(field.class.0 + 1),
        slot: field.slot,
    })
}

/// A static field (JLS 8.3.1.1).
pub fn static_field(alloc: Global, field: FieldEntry) -> Result<Term, Memory>
    ensures { IfOk result (λ term. view_term term ≡ spec.static_field field) }
{
    let cell = cell_of(field)?;
    stating(
        alloc,
        field.of,
        ClauseShape::StaticField(field.number, cell),
    )
}

/// A field of an object (JLS 15.11).
pub fn field_of_object(object: Chain, field: FieldEntry) -> Result<Term, Memory>
    ensures { IfOk result (λ term. view_term term ≡ spec.field_of_object (view_chain object) field) }
{
    let chain = object.with(ClauseSuffix::Field(field.number, field.slot))?;
    Ok(Term::Value(field.of, chain))
}

/// A field of the own class: an instance field alone stands in no static clause.
fn of_own_field(
    alloc: Global,
    scope: &Scope<'_, '_, '_>,
    name: &Name,
    field: FieldEntry,
) -> Result<Term, Fail>
    ensures { Answers view_term (spec.of_own_field (view_scope scope.now) name.now field) result }
{
    if field.is_static {
        return Ok(static_field(alloc, field)?);
    }
    if scope.is_static {
        return Err(not_here(name.place));
    }
    let this = Chain::of_shape(alloc, ClauseShape::This)?;
    Ok(field_of_object(this, field)?)
}

/// What a name before a dot is, as in code (JLS 6.5.2).
fn of_meaning(at: Span, denotation: Denotation) -> Result<Term, Fail>
    ensures { Answers view_term (spec.of_meaning at (view_denotation denotation)) result }
{
    match denotation {
        Denotation::Class(class) => Ok(Term::Class(class)),
        Denotation::Library(library) => Ok(Term::Library(library)),
        Denotation::System(system) => Ok(Term::System(system)),
        Denotation::Out(system) => Ok(Term::Out(system)),
        Denotation::Variable(_, _) | Denotation::Value(_, _) | Denotation::Nothing(_) => {
            Err(not_here(at))
        }
    }
}

fn of_field_or_class(
    alloc: Global,
    scope: &Scope<'_, '_, '_>,
    name: &Name,
    field: Option<FieldEntry>,
) -> Result<Term, Fail>
    ensures { Answers view_term (spec.of_field_or_class (view_scope scope.now) name.now field) result }
{
    match field {
        Some(field) => of_own_field(alloc, scope, name, field),
        None => of_meaning(name.place, class_denoted(scope.names, name)?),
    }
}

fn of_any(
    alloc: Global,
    scope: &Scope<'_, '_, '_>,
    name: &Name,
    variable: Option<Variable<'_>>,
) -> Result<Term, Fail>
    ensures { Answers view_term (spec.of_any (view_scope scope.now) name.now (option_map view_variable variable.entry)) result }
{
    match variable {
        Some(variable) => of_variable(alloc, name, variable.kind),
        None => of_field_or_class(alloc, scope, name, scope.field(name.text.as_slice())),
    }
}

/// A quantified variable or another one, else a field of the own class, else a class.
#[tactic(auto, unfolding(jr_typing_rules::specs::Predicates::clause_name))]
pub fn clause_name(alloc: Global, stand: &Stand<'_, '_, '_, '_>, name: &Name) -> Result<Term, Fail>
    ensures { Answers view_term (spec.clause_name (view_stand stand.now) name.now) result }
{
    let text = name.text.as_slice();
    match stand.depth_of(text) {
        Some(depth) => Ok(stating(alloc, INT, ClauseShape::Bound(depth))?),
        None => of_any(alloc, &stand.scope, name, stand.scope.variable(text)),
    }
}
