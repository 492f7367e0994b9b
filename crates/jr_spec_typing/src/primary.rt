//! Primaries without operands, and what is asked of a value.

ghost use Rattle.jr_names.specs.Answered.{Answers};
ghost use Rattle.jr_spec_typing.specs.Views.{view_stand, view_stated, view_term};
ghost use Rattle.jr_typing_rules.specs.Predicates as spec;

use crate::stand::Stand;
use crate::term::{Stated, Term, stating};
use jr_ast::Name;
use jr_base::{Elem, Fail, Span};
use jr_names::is_reference;
use jr_program::ClauseShape;
use jr_typing::{OBJECT, is_boolean, is_int, mismatch, not_here, unknown};
use jr_typing_rules::ValueType;
use std::alloc::Global;

/// `this`, which a static clause has not (JLS 15.8.3).
pub fn this(alloc: Global, stand: &Stand<'_, '_, '_, '_>, at: Span) -> Result<Term, Fail>
    ensures { Answers view_term (spec.this (view_stand stand.now) at) result }
{
    if stand.scope.is_static {
        return Err(not_here(at));
    }
    let own = ValueType::Single(Elem::Class(stand.scope.own));
    Ok(stating(alloc, own, ClauseShape::This)?)
}

/// `C.class` (JLS 15.8.2).
pub fn class_literal(
    alloc: Global,
    stand: &Stand<'_, '_, '_, '_>,
    name: &Name,
) -> Result<Term, Fail>
    ensures { Answers view_term (spec.class_literal (view_stand stand.now) name.now) result }
{
    match stand.scope.names.class_named(name.text.as_slice()) {
        Some(class) => Ok(stating(alloc, OBJECT, ClauseShape::ClassObject(class))?),
        None => Err(unknown(name.place)),
    }
}

/// `\result`, of a method that has one, and not in `\old` (JML Reference Manual, "\result").
pub fn method_result(alloc: Global, stand: &Stand<'_, '_, '_, '_>, at: Span) -> Result<Term, Fail>
    ensures { Answers view_term (spec.method_result (view_stand stand.now) at) result }
{
    if stand.is_in_old {
        return Err(not_here(at));
    }
    match stand.result {
        Some(of) => Ok(stating(alloc, of, ClauseShape::Result)?),
        None => Err(not_here(at)),
    }
}

/// An `int` is asked for, where its first token stands there.
pub fn as_int(at: Span, value: Stated) -> Result<Stated, Fail>
    ensures { Answers view_stated (spec.as_int at (view_stated value)) result }
{
    if !is_int(value.of) {
        return Err(mismatch(at));
    }
    Ok(value)
}

/// A `boolean` is asked for, where its first token stands there.
pub fn as_boolean(at: Span, value: Stated) -> Result<Stated, Fail>
    ensures { Answers view_stated (spec.as_boolean at (view_stated value)) result }
{
    if !is_boolean(value.of) {
        return Err(mismatch(at));
    }
    Ok(value)
}

/// A reference is asked for, where its first token stands there.
pub fn as_reference(at: Span, value: Stated) -> Result<Stated, Fail>
    ensures { Answers view_stated (spec.as_reference at (view_stated value)) result }
{
    if !is_reference(value.of) {
        return Err(mismatch(at));
    }
    Ok(value)
}
