//! Whether statements take no monitor, make no thread and wait for none.

ghost use Rattle.std.specs.Prelude.{◌≡◌, map};
ghost use Rattle.std.specs.List.{list_all};
ghost use Rattle.jr_program.specs.ExprViews.{view_call, view_effect};
ghost use Rattle.jr_program.specs.StatementViews.{chained, catches, view_stmt, view_form, view_catch, view_part};
ghost use Rattle.jr_built.specs.Built.{call_is_built, effect_is_built, part_is_built, statement_is_built, catches_are_built};

use crate::expr::{are_exprs_built, is_expr_built};
use jr_program::{Effect, TypedCall, TypedCatch, TypedForm, TypedPart, TypedStmt};

fn is_call_built(call: &TypedCall) -> bool
    ensures { result ≡ call_is_built (view_call call.now) }
{
    match call {
        TypedCall::Static(_, arguments) => are_exprs_built(arguments.as_slice()),
        TypedCall::On(e, _, arguments) => is_expr_built(e) && are_exprs_built(arguments.as_slice()),
    }
}

fn is_effect_built(effect: &Effect) -> bool
    ensures { result ≡ effect_is_built (view_effect effect.now) }
{
    match effect {
        Effect::Evaluate(e) | Effect::Sleep(e) => is_expr_built(e),
        Effect::Invoke(call) => is_call_built(call),
        Effect::CallObject(_, _) | Effect::WaitFor(_, _) => false,
        Effect::Yield => true,
    }
}

fn are_effects_built(all: &[Effect]) -> bool
    ensures { result ≡ list_all effect_is_built (map view_effect all.now) }
{
    for effect in all {
        if !is_effect_built(effect) {
            return false;
        }
    }
    true
}

fn is_part_built(part: &TypedPart) -> bool
    ensures { result ≡ part_is_built (view_part part.now) }
{
    match part {
        TypedPart::Literal(_) => true,
        TypedPart::Shown(e) => is_expr_built(e),
    }
}

fn are_parts_built(all: &[TypedPart]) -> bool
    ensures { result ≡ list_all part_is_built (map view_part all.now) }
{
    for part in all {
        if !is_part_built(part) {
            return false;
        }
    }
    true
}

/// Whether there is no `synchronized` statement, no `wait`, `notify`, `notifyAll`, `start` or `join` and no
/// `new Thread(..)` in a statement.
#[cycle(built)]
#[tactic(auto, using(jr_program::proofs::StatementEquations::view_block, jr_program::proofs::StatementEquations::view_try, jr_program::proofs::StatementEquations::view_skip))]
pub fn is_stmt_built(stmt: &TypedStmt) -> bool
    ensures { result ≡ statement_is_built (view_stmt stmt.now) }
{
    is_form_built(stmt.form.get())
}

#[cycle(built)]
#[tactic(auto, using(jr_program::proofs::StatementEquations::view_block, jr_program::proofs::StatementEquations::view_try, jr_program::proofs::StatementEquations::view_skip))]
fn is_form_built(form: &TypedForm) -> bool
    ensures { result ≡ statement_is_built (view_form form.now) }
{
    match form {
        TypedForm::Skip
        | TypedForm::Break
        | TypedForm::Continue
        | TypedForm::Return
        | TypedForm::Throw(_)
        | TypedForm::ThrowCaught(_)
        | TypedForm::Assert(_, _) => true,
        TypedForm::Synchronized(_, _) => false,
        TypedForm::Block(all) => are_stmts_built(all.as_slice()),
        TypedForm::Declare(_, e) | TypedForm::ReturnValue(e) => is_expr_built(e),
        TypedForm::Do(effect) => is_effect_built(effect),
        TypedForm::If(e, a, b) => is_expr_built(e) && is_stmt_built(a) && is_stmt_built(b),
        TypedForm::Loop(e, update, body) => {
            is_expr_built(e) && are_effects_built(update.as_slice()) && is_stmt_built(body)
        }
        TypedForm::DoLoop(body, e) => is_stmt_built(body) && is_expr_built(e),
        TypedForm::Try(body, all) => is_stmt_built(body) && are_catches_built(all.as_slice()),
        TypedForm::Commit(labelled) => is_stmt_built(labelled),
        TypedForm::Println(parts) => are_parts_built(parts.as_slice()),
    }
}

#[cycle(built)]
#[tactic(auto, using(jr_program::proofs::StatementEquations::view_block, jr_program::proofs::StatementEquations::view_try, jr_program::proofs::StatementEquations::view_skip))]
fn are_stmts_built(all: &[TypedStmt]) -> bool
    ensures { result ≡ statement_is_built (chained (map view_stmt all.now)) }
{
    for stmt in all {
        if !is_stmt_built(stmt) {
            return false;
        }
    }
    true
}

#[cycle(built)]
#[tactic(auto, using(jr_program::proofs::StatementEquations::view_block, jr_program::proofs::StatementEquations::view_try, jr_program::proofs::StatementEquations::view_skip))]
fn are_catches_built(all: &[TypedCatch]) -> bool
    ensures { result ≡ catches_are_built (catches (map view_catch all.now)) }
{
    for one in all {
        if !is_stmt_built(&one.handler) {
            return false;
        }
    }
    true
}
