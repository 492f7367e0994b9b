//! How many monitors a method may hold at once by its `synchronized` statements.

ghost use Rattle.std.specs.Prelude.{◌≡◌, map, IfOk};
ghost use Rattle.jr_program.specs.StatementViews.{catches, chained, view_catch, view_form, view_stmt};
ghost use Rattle.jr_lowering.specs.StatementCode.{larger as larger_of, monitors_in, monitors_in_all};

use crate::size::sum;
use jr_base::Memory;
use jr_program::{TypedCatch, TypedForm, TypedStmt};

/// How many monitors of a statement stand in one another.
#[cycle(monitors)]
pub fn monitors_of(stmt: &TypedStmt) -> Result<u32, Memory>
    ensures { IfOk result (λ n. n ≡ monitors_in (view_stmt stmt.now)) }
{
    monitors_of_form(stmt.form.get())
}

#[cycle(monitors)]
#[tactic(auto, using(jr_program::proofs::StatementEquations::view_block, jr_program::proofs::StatementEquations::view_try, jr_program::proofs::StatementEquations::view_skip))]
fn monitors_of_form(form: &TypedForm) -> Result<u32, Memory>
    ensures { IfOk result (λ n. n ≡ monitors_in (view_form form.now)) }
{
    match form {
        TypedForm::Block(all) => monitors_of_statements(all.as_slice()),
        TypedForm::If(_, a, b) => {
            let when_true = monitors_of(a)?;
            Ok(larger(when_true, monitors_of(b)?))
        }
        TypedForm::Loop(_, _, body) | TypedForm::DoLoop(body, _) | TypedForm::Commit(body) => {
            monitors_of(body)
        }
        TypedForm::Try(body, all) => {
            let in_body = monitors_of(body)?;
            Ok(larger(in_body, monitors_of_catches(all.as_slice())?))
        }
        TypedForm::Synchronized(_, body) => sum(1, monitors_of(body)?),
        TypedForm::Skip
        | TypedForm::Declare(_, _)
        | TypedForm::Do(_)
        | TypedForm::Break
        | TypedForm::Continue
        | TypedForm::Return
        | TypedForm::ReturnValue(_)
        | TypedForm::Throw(_)
        | TypedForm::ThrowCaught(_)
        | TypedForm::Println(_)
        | TypedForm::Assert(_, _) => Ok(0),
    }
}

#[cycle(monitors)]
#[tactic(auto, using(crate::proofs::Larger::statements_on, crate::proofs::Larger::statements_end))]
fn monitors_of_statements(all: &[TypedStmt]) -> Result<u32, Memory>
    ensures { IfOk result (λ n. n ≡ monitors_in (chained (map view_stmt all.now))) }
{
    let mut most = 0;
    for stmt in all {
        most = larger(most, monitors_of(stmt)?);
    }
    Ok(most)
}

#[cycle(monitors)]
#[tactic(auto, using(crate::proofs::Larger::catches_on, crate::proofs::Larger::catches_end))]
fn monitors_of_catches(all: &[TypedCatch]) -> Result<u32, Memory>
    ensures { IfOk result (λ n. n ≡ monitors_in_all (catches (map view_catch all.now))) }
{
    let mut most = 0;
    for one in all {
        most = larger(most, monitors_of(&one.handler)?);
    }
    Ok(most)
}

#[tactic(auto, using(crate::proofs::Larger::larger_left, crate::proofs::Larger::larger_right))]
fn larger(a: u32, b: u32) -> u32
    ensures { result ≡ larger_of a b }
{
    if a < b { b } else { a }
}
