//! Declared variables, and statements one after the other.

ghost use Rattle.std.specs.Prelude.{◌≡◌, [], map, option_map, IfOk};
ghost use Rattle.jr_ast.specs.Expressions.{view_expr as view_source};
ghost use Rattle.jr_ast.specs.Statements.{view_declarator};
ghost use Rattle.jr_names.specs.Answered.{Answers};
ghost use Rattle.jr_program.specs.ExprViews.{view_expr, view_shape};
ghost use Rattle.jr_program.specs.StatementViews.{view_stmt};
ghost use Rattle.jr_typing.specs.StatementViews.{AllSteps, Steps, declares_one, view_frame, view_state};
ghost use Rattle.jr_typing.specs.Views.{view_scope};
ghost use Rattle.jr_typing_rules.specs.Statements as spec;

use crate::effect::value_for;
use crate::scope::Scope;
use crate::state::{Frame, State};
use crate::types::kind_of;
use jr_ast::{Expr, LocalDeclaration, LocalDeclarator};
use jr_base::{Fail, Memory, SlotKind};
use jr_program::{TypedExpr, TypedForm, TypedShape, TypedStmt};
use jr_typing_rules::ValueType;
use sqlite_items::Items;
use std::alloc::Global;

/// The value of a variable without an initialiser (JLS 4.12.5).
fn default_of(kind: SlotKind) -> TypedShape
    ensures { view_shape result ≡ spec.default_of kind }
{
    match kind {
        SlotKind::Int => TypedShape::Int(0),
        SlotKind::Long => TypedShape::Long(0),
        SlotKind::Bool => TypedShape::Truth(false),
        SlotKind::Ref | SlotKind::Caught => TypedShape::Null,
    }
}

/// What a variable of that type begins with (JLS 14.4).
fn initial_value(
    alloc: Global,
    scope: &Scope<'_, '_, '_>,
    of: ValueType,
    initial: &Option<Expr>,
) -> Result<TypedExpr, Fail>
    ensures { Answers view_expr (spec.initial_value (view_scope scope.now) of (option_map view_source initial.now)) result }
{
    match initial {
        Some(expr) => value_for(alloc, scope, of, expr),
        None => Ok(TypedExpr::new(alloc, default_of(kind_of(of)))?),
    }
}

/// A variable, which its own initialiser doesn't see (JLS 6.3, cut to the profile).
fn declare<'a>(
    state: &mut State<'a>,
    alloc: Global,
    frame: &Frame<'a, '_>,
    of: ValueType,
    declarator: &'a LocalDeclarator,
) -> Result<TypedStmt, Fail>
    ensures { Steps (declares_one (view_frame frame.now) of (view_state state.old) (view_declarator declarator.now)) result state.new }
{
    let initial = initial_value(alloc, &state.scope_in(frame), of, &declarator.initial)?;
    let place = state.next_place()?;
    state.add_local(frame, &declarator.name, of)?;
    Ok(TypedStmt::new(alloc, TypedForm::Declare(place, initial))?)
}

/// Variables of one type, from left to right.
#[tactic(auto, using(crate::proofs::Turns::no_variable_left))]
fn declare_all<'a>(
    state: &mut State<'a>,
    alloc: Global,
    frame: &Frame<'a, '_>,
    of: ValueType,
    all: &'a [LocalDeclarator],
) -> Result<Items<TypedStmt>, Fail>
    ensures { AllSteps (spec.declares_all (view_frame frame.now) of (spec.starts (view_state state.old)) (map view_declarator all.now)) result state.new }
{
    let mut made = Items::new(alloc);
    for declarator in all {
        made.push(declare(state, alloc, frame, of, declarator)?)?;
    }
    Ok(made)
}

/// A declaration of variables (JLS 14.4).
#[tactic(auto, unfolding(jr_typing_rules::specs::Statements::local_variables))]
pub fn local_variables<'a>(
    state: &mut State<'a>,
    alloc: Global,
    frame: &Frame<'a, '_>,
    declaration: &'a LocalDeclaration,
) -> Result<Items<TypedStmt>, Fail>
    ensures { AllSteps (spec.local_variables (view_frame frame.now) (view_state state.old) declaration.now.type_name (map view_declarator declaration.now.declarators)) result state.new }
{
    let of = frame.names.type_of(&declaration.type_name)?;
    declare_all(state, alloc, frame, of, declaration.declarators.as_slice())
}

/// Statements, one after the other: one is itself, and several are a block.
#[tactic(auto, using(jr_program::proofs::StatementEquations::view_block, jr_program::proofs::StatementEquations::view_skip, crate::proofs::Lists::one_chained, crate::proofs::Lists::several_chained))]
pub fn chained(alloc: Global, all: Items<TypedStmt>) -> Result<TypedStmt, Memory>
    ensures { IfOk result (λ whole. view_stmt whole ≡ spec.chained (map view_stmt all)) }
{
    let mut all = all;
    let Some(last) = all.pop() else {
        return TypedStmt::new(alloc, TypedForm::Skip);
    };
    if all.is_empty() {
        return Ok(last);
    }
    all.push(last)?;
    TypedStmt::new(alloc, TypedForm::Block(all))
}
