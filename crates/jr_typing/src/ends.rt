//! Whether a method with a result ends: its last statement does (JLS 8.4.7, cut to the profile).

ghost use Rattle.std.specs.Prelude.{◌≡◌, false, map, option_map};
ghost use Rattle.jr_ast.specs.Expressions.{view_expr as view_source, view_shape as view_source_shape};
ghost use Rattle.jr_ast.specs.Statements.{catches, stmts, view_catch as view_source_catch, view_form as view_source_form, view_stmt as view_source_stmt};
ghost use Rattle.jr_typing_rules.specs.Ends as spec;

use jr_ast::{Catch, Expr, Form, Shape, Stmt};
use jr_base::Span;

/// Whether it is the literal `true`, without brackets.
#[tactic(auto, using(jr_ast::proofs::Views::view_suffixed, jr_ast::proofs::Views::view_call, jr_ast::proofs::Views::view_new_object, crate::proofs::Endings::not_true))]
fn is_true_shape(at: Span, shape: &Shape) -> bool
    ensures { result ≡ spec.is_true (view_source_shape shape.now at) }
{
    match shape {
        Shape::Boolean(truth) => *truth,
        Shape::Suffixed(primary, suffixes) => {
            suffixes.is_empty() && is_true_shape(at, primary.get())
        }
        _ => false,
    }
}

#[tactic(auto, using(jr_ast::proofs::Views::view_node))]
fn is_true(expr: &Expr) -> bool
    ensures { result ≡ spec.is_true (view_source expr.now) }
{
    is_true_shape(expr.place, expr.shape.get())
}

/// Whether a condition always holds, as one that is missing does (JLS 14.14.1).
fn is_missing_or_true(expr: &Option<Expr>) -> bool
    ensures { result ≡ spec.is_missing_or_true (option_map view_source expr.now) }
{
    match expr {
        Some(expr) => is_true(expr),
        None => true,
    }
}

/// Whether a `break` in a loop's body leaves that loop (JLS 14.15).
#[cycle(breaks)]
#[tactic(auto, using(jr_ast::proofs::Views::view_statement))]
fn breaks(stmt: &Stmt) -> bool
    ensures { result ≡ spec.breaks (view_source_stmt stmt.now) }
{
    form_breaks(stmt.form.get(), stmt.place)
}

#[cycle(breaks)]
#[tactic(auto, using(jr_ast::proofs::Views::view_block, jr_ast::proofs::Views::view_if, jr_ast::proofs::Views::view_try, jr_ast::proofs::Views::view_synchronized))]
fn form_breaks(form: &Form, at: Span) -> bool
    ensures { result ≡ spec.breaks (view_source_form form.now at) }
{
    match form {
        Form::Break => true,
        Form::Block(all) | Form::Synchronized(_, all) => any_breaks(all.as_slice()),
        Form::If(_, yes, None) => breaks(yes),
        Form::If(_, yes, Some(no)) => breaks(yes) || breaks(no),
        Form::Try(all, caught) => {
            any_breaks(all.as_slice()) || any_catch_breaks(caught.as_slice())
        }
        Form::Commit(labelled) => breaks(labelled),
        _ => false,
    }
}

#[cycle(breaks)]
#[tactic(auto, using(crate::proofs::Endings::one_breaks, crate::proofs::Endings::none_breaks_yet, crate::proofs::Endings::none_breaks))]
fn any_breaks(all: &[Stmt]) -> bool
    ensures { result ≡ spec.any_breaks false (stmts (map view_source_stmt all.now)) }
{
    for stmt in all {
        if breaks(stmt) {
            return true;
        }
    }
    false
}

#[cycle(breaks)]
#[tactic(auto, using(crate::proofs::Forms::catch_body, crate::proofs::Endings::one_catch_breaks, crate::proofs::Endings::no_catch_breaks_yet, crate::proofs::Endings::no_catch_breaks))]
fn any_catch_breaks(all: &[Catch]) -> bool
    ensures { result ≡ spec.any_catch_breaks (catches (map view_source_catch all.now)) }
{
    for catch in all {
        if any_breaks(catch.body.as_slice()) {
            return true;
        }
    }
    false
}

/// Whether a statement ends.
#[cycle(ends)]
#[tactic(auto, using(jr_ast::proofs::Views::view_statement))]
fn statement_ends(stmt: &Stmt) -> bool
    ensures { result ≡ spec.ends (view_source_stmt stmt.now) }
{
    form_ends(stmt.form.get(), stmt.place)
}

#[cycle(ends)]
#[tactic(auto, using(jr_ast::proofs::Views::view_block, jr_ast::proofs::Views::view_if, jr_ast::proofs::Views::view_try, jr_ast::proofs::Views::view_synchronized, crate::proofs::Forms::view_for))]
fn form_ends(form: &Form, at: Span) -> bool
    ensures { result ≡ spec.ends (view_source_form form.now at) }
{
    match form {
        Form::Return(_) | Form::ThrowNew(_) | Form::ThrowVariable(_) => true,
        Form::Block(all) | Form::Synchronized(_, all) => body_ends(all.as_slice()),
        Form::Commit(labelled) => statement_ends(labelled),
        Form::If(_, yes, Some(no)) => statement_ends(yes) && statement_ends(no),
        Form::Try(all, caught) => body_ends(all.as_slice()) && all_catches_end(caught.as_slice()),
        Form::While(test, body) | Form::Do(body, test) => is_true(test) && !breaks(body),
        Form::For(head) => {
            let head = head.get();
            is_missing_or_true(&head.condition) && !breaks(&head.body)
        }
        _ => false,
    }
}

/// Whether statements, one after the other, end: the last of them does.
#[cycle(ends)]
#[tactic(auto, using(crate::proofs::Endings::last_decides, crate::proofs::Endings::none_ends))]
pub fn body_ends(body: &[Stmt]) -> bool
    ensures { result ≡ spec.last_ends false (stmts (map view_source_stmt body.now)) }
{
    match body.last() {
        Some(last) => statement_ends(last),
        None => false,
    }
}

#[cycle(ends)]
#[tactic(auto, using(crate::proofs::Forms::catch_body, crate::proofs::Endings::one_catch_goes_on, crate::proofs::Endings::all_end_yet, crate::proofs::Endings::all_end))]
fn all_catches_end(all: &[Catch]) -> bool
    ensures { result ≡ spec.all_catches_end (catches (map view_source_catch all.now)) }
{
    for catch in all {
        if !body_ends(catch.body.as_slice()) {
            return false;
        }
    }
    true
}
