//! The label `commit` of a body.

ghost use Rattle.std.specs.Prelude.{◌≡◌, map};
ghost use Rattle.jr_program.specs.Sites as sites;
ghost use Rattle.jr_program.specs.StatementViews.{catches, chained, view_catch, view_form, view_stmt};

use jr_program::{TypedCatch, TypedForm, TypedStmt};

/// Whether the label `commit` stands in a statement.
#[cycle(label)]
#[tactic(auto, using(jr_program::proofs::StatementEquations::view_node))]
pub fn has_commit(stmt: &TypedStmt) -> bool
    ensures { result ≡ sites.has_commit (view_stmt stmt.now) }
{
    stands_in(stmt.form.get())
}

#[cycle(label)]
#[tactic(auto, using(jr_program::proofs::StatementEquations::view_block, jr_program::proofs::StatementEquations::view_try, jr_program::proofs::StatementEquations::view_skip))]
fn stands_in(form: &TypedForm) -> bool
    ensures { result ≡ sites.has_commit (view_form form.now) }
{
    match form {
        TypedForm::Commit(_) => true,
        TypedForm::Block(all) => some_has_commit(all.as_slice()),
        TypedForm::If(_, one, other) => has_commit(one) || has_commit(other),
        TypedForm::Loop(_, _, body) => has_commit(body),
        TypedForm::DoLoop(body, _) => has_commit(body),
        TypedForm::Synchronized(_, body) => has_commit(body),
        TypedForm::Try(body, handlers) => {
            has_commit(body) || some_handler_has_commit(handlers.as_slice())
        }
        TypedForm::Skip
        | TypedForm::Declare(_, _)
        | TypedForm::Do(_)
        | TypedForm::Break
        | TypedForm::Continue
        | TypedForm::Return
        | TypedForm::ReturnValue(_)
        | TypedForm::Throw(_)
        | TypedForm::ThrowCaught(_)
        | TypedForm::Println(_)
        | TypedForm::Assert(_, _) => false,
    }
}

#[cycle(label)]
#[tactic(auto, using(crate::proofs::Labels::stmt_next, crate::proofs::Labels::stmt_found, crate::proofs::Labels::no_stmt_left))]
fn some_has_commit(all: &[TypedStmt]) -> bool
    ensures { result ≡ sites.has_commit (chained (map view_stmt all.now)) }
{
    for stmt in all {
        if has_commit(stmt) {
            return true;
        }
    }
    false
}

#[cycle(label)]
#[tactic(auto, using(crate::proofs::Labels::handler_next, crate::proofs::Labels::handler_found, crate::proofs::Labels::no_handler_left))]
fn some_handler_has_commit(all: &[TypedCatch]) -> bool
    ensures { result ≡ sites.some_has_commit (catches (map view_catch all.now)) }
{
    for one in all {
        if has_commit(&one.handler) {
            return true;
        }
    }
    false
}
