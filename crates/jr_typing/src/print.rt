//! What is printed, and what is asserted.

ghost use Rattle.std.specs.Prelude.{◌≡◌, ℕ, ◌+◌, List, [], ◌++◌, map, IfOk, OnOk};
ghost use Rattle.jr_ast.specs.Expressions.{view_expr as view_source, view_spec};
ghost use Rattle.jr_ast.specs.Statements.{view_part as view_source_part};
ghost use Rattle.jr_names.specs.Answered.{Answers};
ghost use Rattle.jr_program.specs.StatementViews.{view_part};
ghost use Rattle.jr_typing.specs.StatementViews.{PrintsAll, PrintsOne, Steps, part_printed, parts_printed, view_frame, view_state};
ghost use Rattle.jr_typing.specs.Views.{view_scope, view_variable};
ghost use Rattle.jr_typing_rules.specs.Statements as spec;

use crate::denotation::mismatch;
use crate::expression::value;
use crate::scope::{Scope, Variable};
use crate::state::{Frame, State};
use crate::types::{is_boolean, is_number};
use jr_ast::{Expr, Part, SpecExpr};
use jr_base::{ClauseId, Fail, Memory, Span, TextId};
use jr_program::{TypedForm, TypedPart, TypedStmt};
use jr_typing_rules::VariableKind;
use sqlite_items::Items;
use std::alloc::Global;

/// How many parts a print may have.
const MOST_PARTS: usize = 8;

/// A number or a `boolean`, which is printed.
fn shown(alloc: Global, scope: &Scope<'_, '_, '_>, expr: &Expr) -> Result<TypedPart, Fail>
    ensures { Answers view_part (spec.shown (view_scope scope.now) (view_source expr.now)) result }
{
    let found = value(alloc, scope, expr)?;
    if !(is_number(found.of) || is_boolean(found.of)) {
        return Err(mismatch(expr.place()));
    }
    Ok(TypedPart::Shown(found.node))
}

/// The number of the next text, where so many stand before the body, and so many in it.
fn next_text(before: u32, own: usize) -> Result<TextId, Memory>
    ensures { IfOk result (λ text. text ≡ record { 0 = before + own }) }
{
    let own = u32::try_from(own).map_err(|_| Memory)?;
    Ok(TextId(before.checked_add(own).ok_or(Memory)?))
}

/// A part of what is printed; a string literal is one more text.
fn part<'a>(
    state: &mut State<'a>,
    alloc: Global,
    frame: &Frame<'a, '_>,
    part: &'a Part,
) -> Result<TypedPart, Fail>
    ensures { PrintsOne (part_printed (view_frame frame.now) (view_state state.old) (view_source_part part.now)) result state.new }
{
    match part {
        Part::Text(bytes) => {
            let text = next_text(frame.texts, state.texts.len())?;
            state.texts.push(bytes.as_slice())?;
            Ok(TypedPart::Literal(text))
        }
        Part::Value(expr) => shown(alloc, &state.scope_in(frame), expr),
    }
}

/// What is printed, from left to right.
#[tactic(auto, using(crate::proofs::Turns::no_part_left))]
fn parts<'a>(
    state: &mut State<'a>,
    alloc: Global,
    frame: &Frame<'a, '_>,
    all: &'a [Part],
) -> Result<Items<TypedPart>, Fail>
    ensures { PrintsAll (parts_printed (view_frame frame.now) (record { state = view_state state.old; parts = [] }) (map view_source_part all.now)) result state.new }
{
    let mut made = Items::new(alloc);
    for one in all {
        made.push(part(state, alloc, frame, one)?)?;
    }
    Ok(made)
}

/// `System.out.println(..);`, which stands there and has at most 8 parts.
#[tactic(auto, using(crate::proofs::Turns::too_many_parts, crate::proofs::Turns::parts_fail, crate::proofs::Turns::parts_print))]
pub fn printed<'a>(
    state: &mut State<'a>,
    alloc: Global,
    frame: &Frame<'a, '_>,
    at: Span,
    all: &'a [Part],
) -> Result<TypedStmt, Fail>
    ensures { Steps (spec.printed (view_frame frame.now) (view_state state.old) at (map view_source_part all.now)) result state.new }
{
    if all.len() > MOST_PARTS {
        return Err(mismatch(at));
    }
    let made = parts(state, alloc, frame, all)?;
    Ok(TypedStmt::new(alloc, TypedForm::Println(made))?)
}

/// Adds the place of a variable that has a value.
#[tactic(auto, using(std::proofs::lemmas::List::append_assoc))]
fn add_place(places: &mut Items<u32>, kind: VariableKind) -> Result<(), Memory>
    ensures { (rest : List ℕ) → OnOk result (places.new ++ rest ≡ places.old ++ spec.and_place kind rest) }
{
    if let VariableKind::Local(_, place) = kind {
        places.push(place)?;
    }
    Ok(())
}

/// The places of the variables that have a value.
#[tactic(auto, using(crate::proofs::Scoping::next_place, crate::proofs::Scoping::no_place_left))]
fn places_in(alloc: Global, variables: &[Variable<'_>]) -> Result<Items<u32>, Memory>
    ensures { IfOk result (λ places. places ≡ spec.places_in (map view_variable variables.now)) }
{
    let mut places = Items::new(alloc);
    for variable in variables {
        add_place(&mut places, variable.kind)?;
    }
    Ok(places)
}

/// The number of the next clause, where so many stand before the body, and so many in it.
fn next_clause(before: u32, own: u32) -> Result<ClauseId, Memory>
    ensures { IfOk result (λ clause. clause ≡ record { 0 = before + own + 1 }) }
{
    let count = before.checked_add(own).ok_or(Memory)?;
    Ok(ClauseId(count.checked_add(1).ok_or(Memory)?))
}

/// A JML `assert`, which stands there.
pub fn asserts<'a>(
    state: &mut State<'a>,
    alloc: Global,
    frame: &Frame<'a, '_>,
    at: Span,
    condition: &'a SpecExpr,
) -> Result<TypedStmt, Fail>
    ensures { Steps (spec.asserts (view_frame frame.now) (view_state state.old) at (view_spec condition.now)) result state.new }
{
    let clause = next_clause(frame.clauses, state.scopes.asserts)?;
    let places = places_in(alloc, state.scopes.variables.as_slice())?;
    state.scopes.assert(at, condition)?;
    Ok(TypedStmt::new(alloc, TypedForm::Assert(clause, places))?)
}
