//! The code of statements and their regions, each at its place, behind what stands already.

ghost use Rattle.std.specs.Prelude.{◌≡◌, ◌+◌, ◌++◌, map, IfOk, OnOk};
ghost use Rattle.jr_program.specs.StatementViews.{catches, chained, view_catch, view_form, view_stmt};
ghost use Rattle.jr_program.specs.UnitViews.{program_of};
ghost use Rattle.jr_lowering.specs.ExprCode.{Setting};
ghost use Rattle.jr_lowering.specs.StatementCode.{catch_regions, catches_code, catches_regions, catches_size, statement_code, statement_regions, statement_size};
ghost use Rattle.jr_lowering.specs.Emitted.{setting_with};

use crate::access::Locals;
use crate::effect::{put_effect, put_effects, put_parts};
use crate::exit::{Exits, put_assert, put_entered, put_exits, put_left, put_print};
use crate::expr::{put_expr, put_then};
use crate::op::{Emitted, Op};
use crate::pieces::{put_skip, put_test};
use crate::region::Regions;
use crate::size::sum;
use crate::statement_size::{Around, size_of_catches, size_of_statement};
use jr_base::Memory;
use jr_program::{TypedCatch, TypedForm, TypedStmt, TypedUnit};

/// The code of a statement, and its regions.
#[cycle(put)]
pub fn put_statement(
    code: &mut Emitted,
    regions: &mut Regions,
    unit: &TypedUnit,
    locals: Locals,
    stmt: &TypedStmt,
    exits: Exits,
    at: u32,
) -> Result<u32, Memory>
    ensures code { OnOk result (code.new ≡ code.old ++ statement_code (setting_with (program_of unit.now) locals) (view_stmt stmt.now) exits.around at exits.break_to exits.continue_to) }
    ensures regions { OnOk result (regions.new ≡ regions.old ++ statement_regions (setting_with (program_of unit.now) locals) (view_stmt stmt.now) exits.around at) }
    ensures next { IfOk result (λ next. next ≡ at + statement_size (program_of unit.now) (view_stmt stmt.now) exits.around) }
{
    put_form(code, regions, unit, locals, stmt.form.get(), exits, at)
}

#[cycle(put)]
#[tactic(auto, using(std::proofs::lemmas::List::append_assoc, crate::proofs::Suffixes::nothing_more, jr_program::proofs::StatementEquations::view_block, jr_program::proofs::StatementEquations::view_try, jr_program::proofs::StatementEquations::view_skip))]
fn put_form(
    code: &mut Emitted,
    regions: &mut Regions,
    unit: &TypedUnit,
    locals: Locals,
    form: &TypedForm,
    exits: Exits,
    at: u32,
) -> Result<u32, Memory>
    ensures code { OnOk result (code.new ≡ code.old ++ statement_code (setting_with (program_of unit.now) locals) (view_form form.now) exits.around at exits.break_to exits.continue_to) }
    ensures regions { OnOk result (regions.new ≡ regions.old ++ statement_regions (setting_with (program_of unit.now) locals) (view_form form.now) exits.around at) }
    ensures next { IfOk result (λ next. next ≡ at + statement_size (program_of unit.now) (view_form form.now) exits.around) }
{
    let around = exits.around;
    match form {
        TypedForm::Skip => Ok(at),
        TypedForm::Block(all) => {
            put_statements(code, regions, unit, locals, all.as_slice(), exits, at)
        }
        TypedForm::Declare(number, e) => {
            let local = locals.local(*number)?;
            put_then(code, unit, locals, e, Op::Store(local), at)
        }
        TypedForm::Do(effect) => put_effect(code, unit, locals, effect, at),
        TypedForm::If(e, a, b) => {
            let next = put_expr(code, unit, locals, e, at)?;
            let next = put_test(code, size_of_statement(unit, a, around)?, next)?;
            let next = put_statement(code, regions, unit, locals, a, exits, next)?;
            let next = put_skip(code, size_of_statement(unit, b, around)?, next)?;
            put_statement(code, regions, unit, locals, b, exits, next)
        }
        TypedForm::Loop(e, update, body) => {
            let test = put_expr(code, unit, locals, e, at)?;
            let turn = exits.of_loop(unit, body, update.as_slice(), test)?;
            let next = code.put(Op::JumpNot(turn.break_to), test)?;
            let next = put_statement(code, regions, unit, locals, body, turn, next)?;
            let next = put_effects(code, unit, locals, update.as_slice(), next)?;
            code.put(Op::BackTo(at), next)
        }
        TypedForm::DoLoop(body, e) => {
            let turn = exits.of_do(unit, body, e, at)?;
            let next = put_statement(code, regions, unit, locals, body, turn, at)?;
            let next = put_then(code, unit, locals, e, Op::JumpNot(turn.break_to), next)?;
            code.put(Op::BackTo(at), next)
        }
        TypedForm::Break => {
            let out = Op::Jump(exits.break_to);
            put_exits(code, unit, locals, around.in_all, around.in_loop, out, at)
        }
        TypedForm::Continue => {
            let out = Op::Jump(exits.continue_to);
            put_exits(code, unit, locals, around.in_all, around.in_loop, out, at)
        }
        TypedForm::Return => {
            let out = Op::ReturnNothing;
            put_exits(code, unit, locals, around.in_all, around.in_all, out, at)
        }
        TypedForm::ReturnValue(e) => {
            let next = put_expr(code, unit, locals, e, at)?;
            let out = Op::ReturnTop;
            put_exits(code, unit, locals, around.in_all, around.in_all, out, next)
        }
        TypedForm::Throw(fault) => code.put(Op::ThrowNew(*fault), at),
        TypedForm::ThrowCaught(number) => code.put(Op::ThrowLocal(locals.local(*number)?), at),
        TypedForm::Try(body, all) => {
            let past = put_statement(code, regions, unit, locals, body, exits, at)?;
            let handlers = sum(past, 1)?;
            let end = sum(handlers, size_of_catches(unit, all.as_slice(), around)?)?;
            let next = code.put(Op::Jump(end), past)?;
            put_catch_regions(regions, unit, all.as_slice(), around, at, past, next)?;
            put_catches(
                code,
                regions,
                unit,
                locals,
                all.as_slice(),
                end,
                exits,
                next,
            )
        }
        TypedForm::Synchronized(e, body) => {
            let local = locals.hidden(around.in_all)?;
            let inside = exits.inside_monitor()?;
            let next = put_expr(code, unit, locals, e, at)?;
            let first = put_entered(code, local, next)?;
            let past = put_statement(code, regions, unit, locals, body, inside, first)?;
            regions.put_exit(first, past, local)?;
            put_left(code, local, past)
        }
        TypedForm::Commit(labelled) => {
            let next = code.put(Op::CommitNow, at)?;
            put_statement(code, regions, unit, locals, labelled, exits, next)
        }
        TypedForm::Println(parts) => {
            let next = put_parts(code, unit, locals, parts.as_slice(), at)?;
            put_print(code, parts.as_slice(), next)
        }
        TypedForm::Assert(clause, numbers) => {
            put_assert(code, locals, *clause, numbers.as_slice(), at)
        }
    }
}

#[cycle(put)]
#[tactic(auto, using(std::proofs::lemmas::List::append_assoc, crate::proofs::Suffixes::nothing_more))]
fn put_statements(
    code: &mut Emitted,
    regions: &mut Regions,
    unit: &TypedUnit,
    locals: Locals,
    all: &[TypedStmt],
    exits: Exits,
    at: u32,
) -> Result<u32, Memory>
    ensures code { OnOk result (code.new ≡ code.old ++ statement_code (setting_with (program_of unit.now) locals) (chained (map view_stmt all.now)) exits.around at exits.break_to exits.continue_to) }
    ensures regions { OnOk result (regions.new ≡ regions.old ++ statement_regions (setting_with (program_of unit.now) locals) (chained (map view_stmt all.now)) exits.around at) }
    ensures next { IfOk result (λ next. next ≡ at + statement_size (program_of unit.now) (chained (map view_stmt all.now)) exits.around) }
{
    let mut next = at;
    for stmt in all {
        next = put_statement(code, regions, unit, locals, stmt, exits, next)?;
    }
    Ok(next)
}

// The handlers of a `try`, each of which goes to its end.
#[cycle(put)]
#[tactic(auto, using(std::proofs::lemmas::List::append_assoc, crate::proofs::Suffixes::nothing_more))]
fn put_catches(
    code: &mut Emitted,
    regions: &mut Regions,
    unit: &TypedUnit,
    locals: Locals,
    all: &[TypedCatch],
    end: u32,
    exits: Exits,
    at: u32,
) -> Result<u32, Memory>
    ensures code { OnOk result (code.new ≡ code.old ++ catches_code (setting_with (program_of unit.now) locals) (catches (map view_catch all.now)) exits.around at end exits.break_to exits.continue_to) }
    ensures regions { OnOk result (regions.new ≡ regions.old ++ catches_regions (setting_with (program_of unit.now) locals) (catches (map view_catch all.now)) exits.around at) }
    ensures next { IfOk result (λ next. next ≡ at + catches_size (program_of unit.now) (catches (map view_catch all.now)) exits.around) }
{
    let mut next = at;
    for one in all {
        let first = code.put(Op::Store(locals.local(one.number)?), next)?;
        let past = put_statement(code, regions, unit, locals, &one.handler, exits, first)?;
        next = code.put(Op::Jump(end), past)?;
    }
    Ok(next)
}

/// The regions of the catches of a block between two places, whose handlers begin at the third.
#[tactic(auto, using(std::proofs::lemmas::List::append_assoc, crate::proofs::Suffixes::nothing_more))]
pub fn put_catch_regions(
    regions: &mut Regions,
    unit: &TypedUnit,
    all: &[TypedCatch],
    around: Around,
    first: u32,
    past: u32,
    at: u32,
) -> Result<(), Memory>
    ensures { (s : Setting) → s.program ≡ program_of unit.now → OnOk result (regions.new ≡ regions.old ++ catch_regions s (catches (map view_catch all.now)) around first past at) }
{
    let mut target = at;
    for one in all {
        regions.put_catch(first, past, one.fault, target)?;
        let handler = size_of_statement(unit, &one.handler, around)?;
        target = sum(sum(target, handler)?, 2)?;
    }
    Ok(())
}
