//! How many instructions the code of statements has. A size past `u32::MAX` is answered `Memory`.

ghost use Rattle.std.specs.Prelude.{◌≡◌, [], ◌∷◌, map, IfOk};
ghost use Rattle.jr_program.specs.ExprViews.{exprs, view_expr, view_call, view_effect};
ghost use Rattle.jr_program.specs.StatementViews.{chained, catches, view_stmt, view_form, view_catch, view_part};
ghost use Rattle.jr_program.specs.UnitViews.{program_of};
ghost use Rattle.jr_lowering.specs.ExprCode.{call_size};
ghost use Rattle.jr_lowering.specs.StatementCode.{inside_loop, inside_monitor, exit_size, effect_size, effects_size, parts_size, statement_size, catches_size};

use crate::size::{size_of_expr, size_of_exprs, sum};
use jr_base::Memory;
use jr_program::{Effect, TypedCall, TypedCatch, TypedForm, TypedPart, TypedStmt, TypedUnit};

/// How many monitors stand around a statement in its method, and how many of these in the innermost loop.
#[derive(Clone, Copy, Debug, PartialEq, Eq)]
pub struct Around {
    pub in_all: u32,
    pub in_loop: u32,
}

impl Around {
    /// What stands around the body of a loop.
    pub fn inside_loop(self) -> Around
        ensures { result ≡ inside_loop self }
    {
        Around {
            in_all: self.in_all,
            in_loop: 0,
        }
    }

    /// What stands around the block of a `synchronized` statement.
    pub fn inside_monitor(self) -> Result<Around, Memory>
        ensures { IfOk result (λ around. around ≡ inside_monitor self) }
    {
        let in_all = sum(self.in_all, 1)?;
        let in_loop = sum(self.in_loop, 1)?;
        Ok(Around { in_all, in_loop })
    }
}

/// How many instructions leave `count` monitors of `depth` that stand around, with the one that goes out behind them.
#[tactic(auto, using(crate::proofs::Exits::few_exits, crate::proofs::Exits::many_exits))]
pub fn size_of_exit(depth: u32, count: u32) -> Result<u32, Memory>
    ensures { IfOk result (λ n. n ≡ exit_size depth count) }
{
    if count <= depth {
        let exits = sum(count, count)?;
        sum(exits, 1)
    } else {
        let exits = sum(depth, depth)?;
        sum(exits, 1)
    }
}

/// How many instructions the code of a call has.
pub fn size_of_call(unit: &TypedUnit, call: &TypedCall) -> Result<u32, Memory>
    ensures { IfOk result (λ n. n ≡ call_size (program_of unit.now) (view_call call.now)) }
{
    match call {
        TypedCall::Static(_, arguments) => sum(size_of_exprs(unit, arguments.as_slice())?, 1),
        TypedCall::On(e, _, arguments) => {
            let receiver = size_of_expr(unit, e)?;
            let operands = sum(receiver, size_of_exprs(unit, arguments.as_slice())?)?;
            sum(operands, 1)
        }
    }
}

/// How many instructions the code of an effect has.
pub fn size_of_effect(unit: &TypedUnit, effect: &Effect) -> Result<u32, Memory>
    ensures { IfOk result (λ n. n ≡ effect_size (program_of unit.now) (view_effect effect.now)) }
{
    match effect {
        Effect::Evaluate(e) | Effect::CallObject(_, e) | Effect::Sleep(e) => {
            sum(size_of_expr(unit, e)?, 1)
        }
        Effect::Invoke(call) => size_of_call(unit, call),
        Effect::WaitFor(e, time) => {
            let operands = sum(size_of_expr(unit, e)?, size_of_expr(unit, time)?)?;
            sum(operands, 1)
        }
        Effect::Yield => Ok(1),
    }
}

/// How many instructions the code of the update of a `for` has.
pub fn size_of_effects(unit: &TypedUnit, all: &[Effect]) -> Result<u32, Memory>
    ensures { IfOk result (λ n. n ≡ effects_size (program_of unit.now) (map view_effect all.now)) }
{
    let mut total = 0;
    for effect in all {
        total = sum(total, size_of_effect(unit, effect)?)?;
    }
    Ok(total)
}

/// How many instructions give what is printed.
pub fn size_of_parts(unit: &TypedUnit, all: &[TypedPart]) -> Result<u32, Memory>
    ensures { IfOk result (λ n. n ≡ parts_size (program_of unit.now) (map view_part all.now)) }
{
    let mut total = 0;
    for part in all {
        total = sum(total, size_of_part(unit, part)?)?;
    }
    Ok(total)
}

fn size_of_part(unit: &TypedUnit, part: &TypedPart) -> Result<u32, Memory>
    ensures { IfOk result (λ n. n ≡ parts_size (program_of unit.now) (view_part part.now ∷ [])) }
{
    match part {
        TypedPart::Literal(_) => Ok(0),
        TypedPart::Shown(e) => size_of_expr(unit, e),
    }
}

/// How many instructions the code of a statement has.
#[cycle(size)]
#[tactic(auto, using(jr_program::proofs::StatementEquations::view_block, jr_program::proofs::StatementEquations::view_try, jr_program::proofs::StatementEquations::view_skip))]
pub fn size_of_statement(unit: &TypedUnit, stmt: &TypedStmt, around: Around) -> Result<u32, Memory>
    ensures { IfOk result (λ n. n ≡ statement_size (program_of unit.now) (view_stmt stmt.now) around) }
{
    size_of_form(unit, stmt.form.get(), around)
}

#[cycle(size)]
#[tactic(auto, using(jr_program::proofs::StatementEquations::view_block, jr_program::proofs::StatementEquations::view_try, jr_program::proofs::StatementEquations::view_skip))]
fn size_of_form(unit: &TypedUnit, form: &TypedForm, around: Around) -> Result<u32, Memory>
    ensures { IfOk result (λ n. n ≡ statement_size (program_of unit.now) (view_form form.now) around) }
{
    match form {
        TypedForm::Skip => Ok(0),
        TypedForm::Block(all) => size_of_statements(unit, all.as_slice(), around),
        TypedForm::Declare(_, e) => sum(size_of_expr(unit, e)?, 1),
        TypedForm::Do(effect) => size_of_effect(unit, effect),
        TypedForm::If(e, a, b) => {
            let test = sum(size_of_expr(unit, e)?, size_of_statement(unit, a, around)?)?;
            let whole = sum(test, size_of_statement(unit, b, around)?)?;
            sum(whole, 2)
        }
        TypedForm::Loop(e, update, body) => {
            let body = size_of_statement(unit, body, around.inside_loop())?;
            let turn = sum(size_of_expr(unit, e)?, body)?;
            let whole = sum(turn, size_of_effects(unit, update.as_slice())?)?;
            sum(whole, 2)
        }
        TypedForm::DoLoop(body, e) => {
            let body = size_of_statement(unit, body, around.inside_loop())?;
            let turn = sum(body, size_of_expr(unit, e)?)?;
            sum(turn, 2)
        }
        TypedForm::Break | TypedForm::Continue => size_of_exit(around.in_all, around.in_loop),
        TypedForm::Return => size_of_exit(around.in_all, around.in_all),
        TypedForm::ReturnValue(e) => {
            let exit = size_of_exit(around.in_all, around.in_all)?;
            sum(size_of_expr(unit, e)?, exit)
        }
        TypedForm::Throw(_) | TypedForm::ThrowCaught(_) | TypedForm::Assert(_, _) => Ok(1),
        TypedForm::Try(body, all) => {
            let body = size_of_statement(unit, body, around)?;
            let whole = sum(body, size_of_catches(unit, all.as_slice(), around)?)?;
            sum(whole, 1)
        }
        TypedForm::Synchronized(e, body) => {
            let body = size_of_statement(unit, body, around.inside_monitor()?)?;
            let whole = sum(size_of_expr(unit, e)?, body)?;
            sum(whole, 5)
        }
        TypedForm::Commit(labelled) => sum(size_of_statement(unit, labelled, around)?, 1),
        TypedForm::Println(parts) => sum(size_of_parts(unit, parts.as_slice())?, 1),
    }
}

#[cycle(size)]
#[tactic(auto, using(jr_program::proofs::StatementEquations::view_block, jr_program::proofs::StatementEquations::view_try, jr_program::proofs::StatementEquations::view_skip))]
fn size_of_statements(unit: &TypedUnit, all: &[TypedStmt], around: Around) -> Result<u32, Memory>
    ensures { IfOk result (λ n. n ≡ statement_size (program_of unit.now) (chained (map view_stmt all.now)) around) }
{
    let mut total = 0;
    for stmt in all {
        total = sum(total, size_of_statement(unit, stmt, around)?)?;
    }
    Ok(total)
}

/// How many instructions the handlers of a `try` have.
#[cycle(size)]
#[tactic(auto, using(jr_program::proofs::StatementEquations::view_block, jr_program::proofs::StatementEquations::view_try, jr_program::proofs::StatementEquations::view_skip))]
pub fn size_of_catches(unit: &TypedUnit, all: &[TypedCatch], around: Around) -> Result<u32, Memory>
    ensures { IfOk result (λ n. n ≡ catches_size (program_of unit.now) (catches (map view_catch all.now)) around) }
{
    let mut total = 0;
    for one in all {
        let handler = sum(size_of_statement(unit, &one.handler, around)?, 2)?;
        total = sum(total, handler)?;
    }
    Ok(total)
}
