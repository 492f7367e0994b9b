//! Names, and what stands behind a dot or in brackets.

ghost use Rattle.jr_program.specs.ExprViews.{view_expr};
ghost use Rattle.jr_names.specs.Answered.{Answers};
ghost use Rattle.jr_typing.specs.Views.{view_denotation, view_held, view_scope};
ghost use Rattle.jr_typing_rules.specs.Answers.{found};
ghost use Rattle.jr_typing_rules.specs.Denotations as spec;
ghost use Rattle.jr_typing_rules.specs.Names.{field_in, named};

use crate::chain::Chain;
use crate::denotation::{Denotation, Held, OpenVariable, face_of, mismatch, unknown, value_held};
use crate::scope::Scope;
use crate::types::{INT, members_of};
use jr_ast::Name;
use jr_base::{ClassId, Fail, Refusal, Span};
use jr_names::Names;
use jr_program::{TypedExpr, TypedShape, TypedSuffix};
use jr_typing_rules::{Access, Face, FieldEntry, Library, Members, ValueType, VariableKind};
use std::alloc::Global;

fn of_variable(at: Span, name: &Name, kind: VariableKind) -> Result<Denotation, Fail>
    ensures { Answers view_denotation (spec.of_variable at name.now kind) result }
{
    match kind {
        VariableKind::Local(of, place) => Ok(Denotation::Variable(of, OpenVariable::Local(place))),
        VariableKind::Caught(_) => Err(mismatch(at)),
        VariableKind::Arguments => Err(Fail::Refused(Refusal::NotInProfile(name.place))),
    }
}

/// A field of the own class: an instance field alone is one of `this` (JLS 6.5.6.1).
fn of_own_field(
    alloc: Global,
    scope: &Scope<'_, '_, '_>,
    at: Span,
    field: FieldEntry,
) -> Result<Denotation, Fail>
    ensures { Answers view_denotation (spec.of_own_field (view_scope scope.now) at field) result }
{
    if field.is_static {
        return Ok(Denotation::Variable(field.of, OpenVariable::StaticField(field.number)));
    }
    if scope.is_static {
        return Err(mismatch(at));
    }
    let this = Chain::of_shape(alloc, TypedShape::This)?;
    Ok(Denotation::Variable(field.of, OpenVariable::Field(this, field.number)))
}

fn of_library(name: &Name) -> Result<Denotation, Fail>
    ensures { Answers view_denotation (spec.of_library name.now) result }
{
    let text = name.text.as_slice();
    if text == b"Object".as_slice() {
        return Ok(Denotation::Library(Library::Object));
    }
    if text == b"Thread".as_slice() {
        return Ok(Denotation::Library(Library::Thread));
    }
    if text == b"Runnable".as_slice() {
        return Ok(Denotation::Library(Library::Runnable));
    }
    if text == b"System".as_slice() {
        return Ok(Denotation::System(name.place));
    }
    Err(unknown(name.place))
}

/// A class of the program, else one of the library (JLS 6.5.2).
pub fn class_denoted(names: &Names<'_>, name: &Name) -> Result<Denotation, Fail>
    ensures { Answers view_denotation (spec.of_class (named name.now.text names.now.names.numbers) name.now) result }
{
    match names.class_named(name.text.as_slice()) {
        Some(class) => Ok(Denotation::Class(class)),
        None => of_library(name),
    }
}

fn of_field_or_class(
    alloc: Global,
    scope: &Scope<'_, '_, '_>,
    at: Span,
    name: &Name,
    field: Option<FieldEntry>,
) -> Result<Denotation, Fail>
    ensures { Answers view_denotation (spec.of_field_or_class (view_scope scope.now) at name.now field) result }
{
    match field {
        Some(field) => of_own_field(alloc, scope, at, field),
        None => class_denoted(scope.names, name),
    }
}

/// A variable, else a field of the own class, else a class (JLS 6.4.2, 6.5.2).
#[tactic(auto, unfolding(jr_typing_rules::specs::Denotations::simple_name))]
pub fn simple_name(
    alloc: Global,
    scope: &Scope<'_, '_, '_>,
    at: Span,
    name: &Name,
) -> Result<Denotation, Fail>
    ensures { Answers view_denotation (spec.simple_name (view_scope scope.now) at name.now) result }
{
    match scope.variable(name.text.as_slice()) {
        Some(variable) => of_variable(at, name, variable.kind),
        None => of_field_or_class(alloc, scope, at, name, scope.field(name.text.as_slice())),
    }
}

fn field_found(scope: &Scope<'_, '_, '_>, name: &Name, class: ClassId) -> Result<FieldEntry, Fail>
    ensures { Answers (λ f. f) (found (field_in (view_scope scope.now).names class name.now.text) (Refusal.Unknown name.now.place)) result }
{
    match scope.names.field_in(class, name.text.as_slice()) {
        Some(field) => Ok(field),
        None => Err(unknown(name.place)),
    }
}

/// `length` of an array (JLS 10.7), or a field of an object (JLS 15.11).
fn member_access(
    scope: &Scope<'_, '_, '_>,
    at: Span,
    name: &Name,
    members: Members,
) -> Result<Access, Fail>
    ensures { Answers (λ a. a) (spec.member_access (view_scope scope.now) at name.now members) result }
{
    match members {
        Members::OfArray(_) => {
            if name.text.as_slice() != b"length".as_slice() {
                return Err(unknown(name.place));
            }
            Ok(Access::Length)
        }
        Members::OfClass(class) => {
            let field = field_found(scope, name, class)?;
            if field.is_static {
                return Err(mismatch(at));
            }
            Ok(Access::Field(field))
        }
        Members::OfLibrary => Err(unknown(name.place)),
        Members::Nothing => Err(mismatch(at)),
    }
}

/// A static field, by its class.
fn static_access(
    scope: &Scope<'_, '_, '_>,
    at: Span,
    name: &Name,
    class: ClassId,
) -> Result<Access, Fail>
    ensures { Answers (λ a. a) (spec.static_access (view_scope scope.now) at name.now class) result }
{
    let field = field_found(scope, name, class)?;
    if !field.is_static {
        return Err(mismatch(at));
    }
    Ok(Access::Static(field))
}

/// Which field a name behind a dot is.
#[tactic(auto, unfolding(jr_typing_rules::specs::Denotations::field_access))]
pub fn field_access(
    scope: &Scope<'_, '_, '_>,
    at: Span,
    name: &Name,
    face: Face,
) -> Result<Access, Fail>
    ensures { Answers (λ a. a) (spec.field_access (view_scope scope.now) at name.now face) result }
{
    match face {
        Face::Class(class) => static_access(scope, at, name, class),
        Face::Library(_) => Err(unknown(name.place)),
        Face::System(system) => {
            if name.text.as_slice() != b"out".as_slice() {
                return Err(unknown(system));
            }
            Ok(Access::Out(system))
        }
        Face::Out(system) => Err(unknown(system)),
        Face::Value(of) => member_access(scope, at, name, members_of(of)),
        Face::Nothing => Err(mismatch(at)),
    }
}

/// The length of an array (JLS 10.7).
fn length_of(alloc: Global, at: Span, denotation: Denotation) -> Result<Denotation, Fail>
    ensures { Answers view_denotation (spec.accessed at Access.Length (view_denotation denotation)) result }
{
    let Held { of: _, chain } = value_held(alloc, at, denotation)?;
    let chain = chain.with(TypedSuffix::Length)?;
    Ok(Denotation::Value(INT, chain))
}

/// A field of an object (JLS 15.11).
fn instance_field(
    alloc: Global,
    at: Span,
    field: FieldEntry,
    denotation: Denotation,
) -> Result<Denotation, Fail>
    ensures { Answers view_denotation (spec.accessed at (Access.Field field) (view_denotation denotation)) result }
{
    let Held { of: _, chain } = value_held(alloc, at, denotation)?;
    Ok(Denotation::Variable(field.of, OpenVariable::Field(chain, field.number)))
}

/// The field that was found, of what stands before the dot.
fn accessed(
    alloc: Global,
    at: Span,
    access: Access,
    denotation: Denotation,
) -> Result<Denotation, Fail>
    ensures { Answers view_denotation (spec.accessed at access (view_denotation denotation)) result }
{
    match access {
        Access::Static(field) => {
            Ok(Denotation::Variable(field.of, OpenVariable::StaticField(field.number)))
        }
        Access::Out(system) => Ok(Denotation::Out(system)),
        Access::Length => length_of(alloc, at, denotation),
        Access::Field(field) => instance_field(alloc, at, field, denotation),
    }
}

/// The field of that name of what stands before the dot (JLS 15.11).
pub fn field_of(
    alloc: Global,
    scope: &Scope<'_, '_, '_>,
    at: Span,
    name: &Name,
    denotation: Denotation,
) -> Result<Denotation, Fail>
    ensures { Answers view_denotation (spec.field_of (view_scope scope.now) at name.now (view_denotation denotation)) result }
{
    let access = field_access(scope, at, name, face_of(&denotation))?;
    accessed(alloc, at, access, denotation)
}

/// An array's element (JLS 15.10.3).
pub fn element(at: Span, index: TypedExpr, value: Held) -> Result<Denotation, Fail>
    ensures { Answers view_denotation (spec.element at (view_expr index) (view_held value)) result }
{
    let Held { of, chain } = value;
    match members_of(of) {
        Members::OfArray(elem) => Ok(Denotation::Variable(
            ValueType::Single(elem),
            OpenVariable::Element(elem, chain, index),
        )),
        _ => Err(mismatch(at)),
    }
}
