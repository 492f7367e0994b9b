//! Primaries without operands, and what is asked of a value.

ghost use Rattle.std.specs.Prelude.{◌≡◌, option_map};
ghost use Rattle.jr_ast.specs.Expressions.{place_of, view_expr as view_source, view_shape as view_source_shape};
ghost use Rattle.jr_names.specs.Answered.{Answers, Moves};
ghost use Rattle.jr_typing.specs.Views.{view_arguments, view_denotation, view_scope, view_value};
ghost use Rattle.jr_typing_rules.specs.Answers.{Good};
ghost use Rattle.jr_typing_rules.specs.Denotations as denotations;
ghost use Rattle.jr_typing_rules.specs.Expressions as spec;
ghost use Rattle.jr_typing_rules.specs.Operators as operators;

use crate::denotation::{Arguments, Denotation, Value, denoting, mismatch, unknown};
use crate::scope::Scope;
use crate::types::{OBJECT, is_boolean, is_int};
use jr_ast::{Expr, IntegerLiteral, Name, Prefix, Shape};
use jr_base::{Elem, Fail, Span};
use jr_program::TypedShape;
use jr_typing_rules::{Head, ValueType};
use sqlite_items::Items;
use std::alloc::Global;

/// `this`, which is refused where there is none (JLS 15.8.3).
pub fn this(alloc: Global, scope: &Scope<'_, '_, '_>, at: Span) -> Result<Denotation, Fail>
    ensures { Answers view_denotation (spec.this (view_scope scope.now) at) result }
{
    if scope.is_static {
        return Err(mismatch(at));
    }
    own_this(alloc, scope)
}

/// `this`, as what an instance member alone is of.
pub fn own_this(alloc: Global, scope: &Scope<'_, '_, '_>) -> Result<Denotation, Fail>
    ensures { Answers view_denotation (Good (denotations.own_this (view_scope scope.now))) result }
{
    Ok(denoting(
        alloc,
        ValueType::Single(Elem::Class(scope.own)),
        TypedShape::This,
    )?)
}

/// `C.class` (JLS 15.8.2).
pub fn class_literal(
    alloc: Global,
    scope: &Scope<'_, '_, '_>,
    name: &Name,
) -> Result<Denotation, Fail>
    ensures { Answers view_denotation (spec.class_literal (view_scope scope.now) name.now) result }
{
    match scope.names.class_named(name.text.as_slice()) {
        Some(class) => Ok(denoting(alloc, OBJECT, TypedShape::ClassObject(class))?),
        None => Err(unknown(name.place)),
    }
}

/// `new T[size]` (JLS 15.10).
pub fn new_array(alloc: Global, elem: Elem, size: Value) -> Result<Denotation, Fail>
    ensures { Answers view_denotation (Good (spec.new_array elem (view_value size))) result }
{
    Ok(denoting(
        alloc,
        ValueType::ArrayOf(elem),
        TypedShape::NewArray(elem, size.node),
    )?)
}

/// An `int` is asked for, where its first token stands there.
pub fn as_int(at: Span, value: Value) -> Result<Value, Fail>
    ensures { Answers view_value (spec.as_int at (view_value value)) result }
{
    if !is_int(value.of) {
        return Err(mismatch(at));
    }
    Ok(value)
}

/// A `boolean` is asked for, where its first token stands there.
pub fn as_boolean(at: Span, value: Value) -> Result<Value, Fail>
    ensures { Answers view_value (spec.as_boolean at (view_value value)) result }
{
    if !is_boolean(value.of) {
        return Err(mismatch(at));
    }
    Ok(value)
}

/// One more argument, which stands there.
pub fn and_argument(given: &mut Arguments, at: Span, value: Value) -> Result<(), Fail>
    ensures { Moves view_arguments (Good (denotations.and_argument (view_arguments given.old) at (view_value value))) result given.new }
{
    let Value { of, node } = value;
    given.heads.push(Head { place: at, of })?;
    given.nodes.push(node)?;
    Ok(())
}

/// The integer literal that a shape is, which stands there, where it is nothing else.
#[tactic(auto, using(jr_ast::proofs::Views::view_suffixed, jr_ast::proofs::Views::view_call, jr_ast::proofs::Views::view_new_object, crate::proofs::Literals::never_with_suffixes))]
fn integer_in(at: Span, shape: &Shape) -> Option<IntegerLiteral>
    ensures { operators.literal_under Prefix.Negate (view_source_shape shape.now at) ≡ option_map (operators.negated_literal at) result }
{
    match shape {
        Shape::Integer(written) => Some(*written),
        Shape::Suffixed(primary, suffixes) => {
            if suffixes.is_empty() {
                integer_in(at, primary.get())
            } else {
                None
            }
        }
        _ => None,
    }
}

/// The integer literal that stands directly under a minus, with which it is one number (JLS 3.10.1).
#[tactic(auto, using(jr_ast::proofs::Views::view_node, jr_ast::proofs::Places::place_kept))]
pub fn integer_under(operator: Prefix, operand: &Expr) -> Option<IntegerLiteral>
    ensures { operators.literal_under operator (view_source operand.now) ≡ option_map (operators.negated_literal (place_of (view_source operand.now))) result }
{
    match operator {
        Prefix::Negate => integer_in(operand.place, operand.shape.get()),
        Prefix::Plus | Prefix::Not | Prefix::Complement | Prefix::Increment | Prefix::Decrement =>
            None,
    }
}
