//! Statements: what each is made into, or which rule it breaks.

ghost use Rattle.std.specs.Prelude.{◌≡◌, [], ◌∷◌, ◌++◌, map, option_map, IfOk};
ghost use Rattle.jr_ast.specs.Expressions.{view_expr as view_source};
ghost use Rattle.jr_ast.specs.Statements.{Commit, catches, stmts, view_catch as view_source_catch, view_form as view_source_form, view_init, view_stmt as view_source_stmt};
ghost use Rattle.jr_names.specs.Answered.{Answers};
ghost use Rattle.jr_program.specs.ExprViews.{view_effect, view_expr};
ghost use Rattle.jr_program.specs.Programs.{Do, Loop};
ghost use Rattle.jr_program.specs.StatementViews.{view_stmt};
ghost use Rattle.jr_typing.specs.StatementViews.{AllSteps, CatchesAll, CatchesOne, Steps, all_within_typed, block_typed, body_typed, caught_one, do_typed, else_typed, for_rest_typed, for_typed, if_typed, part_typed, synchronized_typed, try_typed, view_frame, view_state, while_typed, within_typed};
ghost use Rattle.jr_typing_rules.specs.Answers.{require};
ghost use Rattle.jr_typing_rules.specs.Statements as spec;

use crate::effect::{
    condition, condition_or_true, effects, expression_statement, reference, returns,
};
use crate::fault::{fault_of, throws_variable};
use crate::local::{chained, local_variables};
use crate::print::{asserts, printed};
use crate::state::{Frame, State};
use jr_ast::{Catch, Expr, ForInit, ForLoop, Form, Stmt};
use jr_base::{Fail, Memory, Refusal, Span};
use jr_program::{Effect, TypedCatch, TypedExpr, TypedForm, TypedStmt};
use sqlite_items::Items;
use std::alloc::Global;

/// `break` and `continue`, which stand in a loop (JLS 14.15, 14.16).
fn right_in_loop(in_loop: bool, at: Span) -> Result<(), Fail>
    ensures { Answers (λ u. u) (require in_loop (Refusal.BadLabel at)) result }
{
    if !in_loop {
        return Err(Fail::Refused(Refusal::BadLabel(at)));
    }
    Ok(())
}

/// A statement of each, in their order.
#[tactic(auto, using(crate::proofs::Lists::map_append))]
fn each_done(alloc: Global, effects: Vec<Effect>) -> Result<Items<TypedStmt>, Memory>
    ensures { IfOk result (λ made. map view_stmt made ≡ map Do (map view_effect effects.items)) }
{
    let mut made = Items::new(alloc);
    for effect in effects {
        made.push(TypedStmt::new(alloc, TypedForm::Do(effect))?)?;
    }
    Ok(made)
}

/// What a `for` does first (JLS 14.14.1).
fn does_first<'a>(
    state: &mut State<'a>,
    alloc: Global,
    frame: &Frame<'a, '_>,
    init: &'a ForInit,
) -> Result<Items<TypedStmt>, Fail>
    ensures { AllSteps (spec.does_first (view_frame frame.now) (view_state state.old) (view_init init.now)) result state.new }
{
    match init {
        ForInit::Locals(declaration) => local_variables(state, alloc, frame, declaration),
        ForInit::Expressions(all) => {
            let done = effects(alloc, &state.scope_in(frame), all.as_slice())?;
            Ok(each_done(alloc, done)?)
        }
    }
}

/// A loop, behind what a `for` does first (JLS 14.14.1).
#[tactic(auto, using(crate::proofs::Lists::map_append))]
fn behind_first(
    alloc: Global,
    first: Items<TypedStmt>,
    test: TypedExpr,
    updates: Vec<Effect>,
    body: TypedStmt,
) -> Result<TypedStmt, Memory>
    ensures { IfOk result (λ whole. view_stmt whole ≡ spec.chained (map view_stmt first ++ Loop (view_expr test) (map view_effect updates.items) (view_stmt body) ∷ [])) }
{
    let mut all = first;
    let form = TypedForm::Loop(test, Items::from_vec(updates), body);
    all.push(TypedStmt::new(alloc, form)?)?;
    chained(alloc, all)
}

/// The types of a method's body, whose statements are one after the other.
pub fn body_of<'a>(
    alloc: Global,
    frame: &Frame<'a, '_>,
    state: &mut State<'a>,
    body: &'a [Stmt],
) -> Result<TypedStmt, Fail>
    ensures { Steps (body_typed (view_frame frame.now) (view_state state.old) (stmts (map view_source_stmt body.now))) result state.new }
{
    let made = all_typed(state, alloc, frame, false, body)?;
    Ok(chained(alloc, made)?)
}

/// A statement (JLS 14.5).
#[cycle(typed)]
#[tactic(auto, using(jr_ast::proofs::Views::view_statement))]
fn typed<'a>(
    state: &mut State<'a>,
    alloc: Global,
    frame: &Frame<'a, '_>,
    in_loop: bool,
    stmt: &'a Stmt,
) -> Result<TypedStmt, Fail>
    ensures { Steps (spec.typed (view_frame frame.now) in_loop (view_state state.old) (view_source_stmt stmt.now)) result state.new }
{
    typed_form(state, alloc, frame, in_loop, stmt.place, stmt.form.get())
}

#[cycle(typed)]
#[tactic(auto, using(jr_ast::proofs::Views::view_block, jr_ast::proofs::Views::view_if, jr_ast::proofs::Views::view_try, jr_ast::proofs::Views::view_synchronized, crate::proofs::Forms::view_for))]
fn typed_form<'a>(
    state: &mut State<'a>,
    alloc: Global,
    frame: &Frame<'a, '_>,
    in_loop: bool,
    at: Span,
    form: &'a Form,
) -> Result<TypedStmt, Fail>
    ensures { Steps (spec.typed (view_frame frame.now) in_loop (view_state state.old) (view_source_form form.now at)) result state.new }
{
    match form {
        Form::Empty => Ok(TypedStmt::new(alloc, TypedForm::Skip)?),
        Form::Block(all) => block(state, alloc, frame, in_loop, all.as_slice()),
        Form::Locals(declaration) => {
            let made = local_variables(state, alloc, frame, declaration)?;
            Ok(chained(alloc, made)?)
        }
        Form::Expression(expr) => {
            let form = expression_statement(alloc, &state.scope_in(frame), expr)?;
            Ok(TypedStmt::new(alloc, form)?)
        }
        Form::If(test, yes, None) => if_alone(state, alloc, frame, in_loop, yes, test),
        Form::If(test, yes, Some(no)) => {
            let test = condition(alloc, &state.scope_in(frame), test)?;
            let yes = part(state, alloc, frame, in_loop, yes)?;
            if_else(state, alloc, frame, in_loop, no, test.node, yes)
        }
        Form::While(test, body) => while_loop(state, alloc, frame, body, test),
        Form::Do(body, test) => do_loop(state, alloc, frame, body, test),
        Form::For(head) => for_loop(state, alloc, frame, head.get()),
        Form::Return(returned) => {
            let form = returns(alloc, &state.scope_in(frame), frame.result, at, returned)?;
            Ok(TypedStmt::new(alloc, form)?)
        }
        Form::Break => {
            right_in_loop(in_loop, at)?;
            Ok(TypedStmt::new(alloc, TypedForm::Break)?)
        }
        Form::Continue => {
            right_in_loop(in_loop, at)?;
            Ok(TypedStmt::new(alloc, TypedForm::Continue)?)
        }
        Form::ThrowNew(class) => {
            let fault = fault_of(class)?;
            Ok(TypedStmt::new(alloc, TypedForm::Throw(fault))?)
        }
        Form::ThrowVariable(name) => {
            let form = throws_variable(&state.scope_in(frame), name)?;
            Ok(TypedStmt::new(alloc, form)?)
        }
        Form::Try(all, caught) => {
            let body = block(state, alloc, frame, in_loop, all.as_slice())?;
            with_catches(state, alloc, frame, in_loop, caught.as_slice(), body)
        }
        Form::Synchronized(owner, all) => {
            synchronized(state, alloc, frame, in_loop, all.as_slice(), owner)
        }
        Form::Commit(labelled) => commit(state, alloc, frame, in_loop, at, labelled),
        Form::Print(all) => printed(state, alloc, frame, at, all.as_slice()),
        Form::Assert(stated) => asserts(state, alloc, frame, at, stated),
    }
}

/// An `if` without an `else` (JLS 14.9.1).
#[cycle(typed)]
fn if_alone<'a>(
    state: &mut State<'a>,
    alloc: Global,
    frame: &Frame<'a, '_>,
    in_loop: bool,
    yes: &'a Stmt,
    test: &Expr,
) -> Result<TypedStmt, Fail>
    ensures { Steps (if_typed (view_frame frame.now) in_loop (view_state state.old) (view_source test.now) (view_source_stmt yes.now)) result state.new }
{
    let test = condition(alloc, &state.scope_in(frame), test)?;
    let yes = part(state, alloc, frame, in_loop, yes)?;
    let no = TypedStmt::new(alloc, TypedForm::Skip)?;
    Ok(TypedStmt::new(alloc, TypedForm::If(test.node, yes, no))?)
}

/// The `else` of an `if` (JLS 14.9.2).
#[cycle(typed)]
fn if_else<'a>(
    state: &mut State<'a>,
    alloc: Global,
    frame: &Frame<'a, '_>,
    in_loop: bool,
    no: &'a Stmt,
    test: TypedExpr,
    yes: TypedStmt,
) -> Result<TypedStmt, Fail>
    ensures { Steps (else_typed (view_frame frame.now) in_loop (view_state state.old) (view_expr test) (view_stmt yes) (view_source_stmt no.now)) result state.new }
{
    let no = part(state, alloc, frame, in_loop, no)?;
    Ok(TypedStmt::new(alloc, TypedForm::If(test, yes, no))?)
}

/// A `while` (JLS 14.12).
#[cycle(typed)]
fn while_loop<'a>(
    state: &mut State<'a>,
    alloc: Global,
    frame: &Frame<'a, '_>,
    body: &'a Stmt,
    test: &Expr,
) -> Result<TypedStmt, Fail>
    ensures { Steps (while_typed (view_frame frame.now) (view_state state.old) (view_source test.now) (view_source_stmt body.now)) result state.new }
{
    let test = condition(alloc, &state.scope_in(frame), test)?;
    let body = part(state, alloc, frame, true, body)?;
    let form = TypedForm::Loop(test.node, Items::new(alloc), body);
    Ok(TypedStmt::new(alloc, form)?)
}

/// A `do` (JLS 14.13).
#[cycle(typed)]
fn do_loop<'a>(
    state: &mut State<'a>,
    alloc: Global,
    frame: &Frame<'a, '_>,
    body: &'a Stmt,
    test: &Expr,
) -> Result<TypedStmt, Fail>
    ensures { Steps (do_typed (view_frame frame.now) (view_state state.old) (view_source_stmt body.now) (view_source test.now)) result state.new }
{
    let body = part(state, alloc, frame, true, body)?;
    let test = condition(alloc, &state.scope_in(frame), test)?;
    Ok(TypedStmt::new(alloc, TypedForm::DoLoop(body, test.node))?)
}

/// The catches of a `try` (JLS 14.20).
#[cycle(typed)]
#[tactic(auto, using(jr_program::proofs::StatementEquations::view_try))]
fn with_catches<'a>(
    state: &mut State<'a>,
    alloc: Global,
    frame: &Frame<'a, '_>,
    in_loop: bool,
    all: &'a [Catch],
    body: TypedStmt,
) -> Result<TypedStmt, Fail>
    ensures { Steps (try_typed (view_frame frame.now) in_loop (view_state state.old) (view_stmt body) (catches (map view_source_catch all.now))) result state.new }
{
    let caught = all_caught(state, alloc, frame, in_loop, all)?;
    Ok(TypedStmt::new(alloc, TypedForm::Try(body, caught))?)
}

/// A `synchronized` (JLS 14.19).
#[cycle(typed)]
fn synchronized<'a>(
    state: &mut State<'a>,
    alloc: Global,
    frame: &Frame<'a, '_>,
    in_loop: bool,
    all: &'a [Stmt],
    owner: &Expr,
) -> Result<TypedStmt, Fail>
    ensures { Steps (synchronized_typed (view_frame frame.now) in_loop (view_state state.old) (view_source owner.now) (stmts (map view_source_stmt all.now))) result state.new }
{
    let owner = reference(alloc, &state.scope_in(frame), owner)?;
    let body = block(state, alloc, frame, in_loop, all)?;
    Ok(TypedStmt::new(alloc, TypedForm::Synchronized(owner.node, body))?)
}

/// A statement with the label of the commit, of which a method has one at most.
#[cycle(typed)]
fn commit<'a>(
    state: &mut State<'a>,
    alloc: Global,
    frame: &Frame<'a, '_>,
    in_loop: bool,
    at: Span,
    labelled: &'a Stmt,
) -> Result<TypedStmt, Fail>
    ensures { Steps (spec.typed (view_frame frame.now) in_loop (view_state state.old) (Commit at (view_source_stmt labelled.now))) result state.new }
{
    if state.has_commit {
        return Err(Fail::Refused(Refusal::BadLabel(at)));
    }
    state.has_commit = true;
    let labelled = part(state, alloc, frame, in_loop, labelled)?;
    Ok(TypedStmt::new(alloc, TypedForm::Commit(labelled))?)
}

/// A `for`: what it declares is in scope in it alone (JLS 6.3, 14.14.1).
#[cycle(typed)]
#[tactic(auto, using(crate::proofs::Lists::as_many))]
fn for_loop<'a>(
    state: &mut State<'a>,
    alloc: Global,
    frame: &Frame<'a, '_>,
    head: &'a ForLoop,
) -> Result<TypedStmt, Fail>
    ensures { Steps (for_typed (view_frame frame.now) (view_state state.old) (view_init head.now.init) (option_map view_source head.now.condition) (map view_source head.now.updates) (view_source_stmt head.now.body)) result state.new }
{
    let outer = state.scopes.variables.len();
    let first = does_first(state, alloc, frame, &head.init)?;
    for_rest(state, alloc, frame, outer, head, first)
}

/// The rest of a `for`, behind what it does first: so many variables stay in scope behind it.
#[cycle(typed)]
fn for_rest<'a>(
    state: &mut State<'a>,
    alloc: Global,
    frame: &Frame<'a, '_>,
    outer: usize,
    head: &'a ForLoop,
    first: Items<TypedStmt>,
) -> Result<TypedStmt, Fail>
    ensures { Steps (for_rest_typed (view_frame frame.now) outer (view_state state.old) (map view_stmt first) (option_map view_source head.now.condition) (map view_source head.now.updates) (view_source_stmt head.now.body)) result state.new }
{
    let test = condition_or_true(alloc, &state.scope_in(frame), &head.condition)?;
    let updates = effects(alloc, &state.scope_in(frame), head.updates.as_slice())?;
    let body = within(state, alloc, frame, true, outer, &head.body)?;
    Ok(behind_first(alloc, first, test, updates, body)?)
}

/// A statement, behind which so many variables stay in scope (JLS 6.3).
#[cycle(typed)]
#[tactic(auto, using(crate::proofs::Scoping::first_of_view))]
fn within<'a>(
    state: &mut State<'a>,
    alloc: Global,
    frame: &Frame<'a, '_>,
    in_loop: bool,
    outer: usize,
    stmt: &'a Stmt,
) -> Result<TypedStmt, Fail>
    ensures { Steps (within_typed (view_frame frame.now) in_loop outer (view_state state.old) (view_source_stmt stmt.now)) result state.new }
{
    let made = typed(state, alloc, frame, in_loop, stmt)?;
    state.scopes.leave(outer)?;
    Ok(made)
}

/// A statement that is part of another: what it declares is in scope in it alone (JLS 6.3).
#[cycle(typed)]
#[tactic(auto, using(crate::proofs::Lists::as_many))]
fn part<'a>(
    state: &mut State<'a>,
    alloc: Global,
    frame: &Frame<'a, '_>,
    in_loop: bool,
    stmt: &'a Stmt,
) -> Result<TypedStmt, Fail>
    ensures { Steps (part_typed (view_frame frame.now) in_loop (view_state state.old) (view_source_stmt stmt.now)) result state.new }
{
    let outer = state.scopes.variables.len();
    within(state, alloc, frame, in_loop, outer, stmt)
}

/// The statements of a block, behind which so many variables stay in scope (JLS 6.3).
#[cycle(typed)]
#[tactic(auto, using(crate::proofs::Scoping::first_of_view))]
fn all_within<'a>(
    state: &mut State<'a>,
    alloc: Global,
    frame: &Frame<'a, '_>,
    in_loop: bool,
    outer: usize,
    all: &'a [Stmt],
) -> Result<TypedStmt, Fail>
    ensures { Steps (all_within_typed (view_frame frame.now) in_loop outer (view_state state.old) (stmts (map view_source_stmt all.now))) result state.new }
{
    let made = all_typed(state, alloc, frame, in_loop, all)?;
    state.scopes.leave(outer)?;
    Ok(chained(alloc, made)?)
}

/// A block: what it declares is in scope up to its end (JLS 6.3, 14.2).
#[cycle(typed)]
#[tactic(auto, using(crate::proofs::Lists::as_many))]
fn block<'a>(
    state: &mut State<'a>,
    alloc: Global,
    frame: &Frame<'a, '_>,
    in_loop: bool,
    all: &'a [Stmt],
) -> Result<TypedStmt, Fail>
    ensures { Steps (block_typed (view_frame frame.now) in_loop (view_state state.old) (stmts (map view_source_stmt all.now))) result state.new }
{
    let outer = state.scopes.variables.len();
    all_within(state, alloc, frame, in_loop, outer, all)
}

/// Statements, one after the other.
#[cycle(typed)]
#[tactic(auto, using(crate::proofs::Lists::map_append, crate::proofs::Turns::statement_fails, crate::proofs::Turns::statement_goes_on, crate::proofs::Turns::no_statement_left))]
fn all_typed<'a>(
    state: &mut State<'a>,
    alloc: Global,
    frame: &Frame<'a, '_>,
    in_loop: bool,
    all: &'a [Stmt],
) -> Result<Items<TypedStmt>, Fail>
    ensures { AllSteps (spec.all_typed (view_frame frame.now) in_loop (spec.starts (view_state state.old)) (stmts (map view_source_stmt all.now))) result state.new }
{
    let mut made = Items::new(alloc);
    for stmt in all {
        made.push(typed(state, alloc, frame, in_loop, stmt)?)?;
    }
    Ok(made)
}

/// A catch (JLS 14.20).
#[cycle(typed)]
#[tactic(auto, using(crate::proofs::Forms::view_catch_parts, crate::proofs::Lists::as_many))]
fn caught<'a>(
    state: &mut State<'a>,
    alloc: Global,
    frame: &Frame<'a, '_>,
    in_loop: bool,
    catch: &'a Catch,
) -> Result<TypedCatch, Fail>
    ensures { CatchesOne (caught_one (view_frame frame.now) in_loop (view_state state.old) (view_source_catch catch.now)) result state.new }
{
    let fault = fault_of(&catch.class)?;
    let number = state.next_place()?;
    let outer = state.scopes.variables.len();
    state.add_caught(frame, &catch.variable)?;
    let handler = all_within(state, alloc, frame, in_loop, outer, catch.body.as_slice())?;
    Ok(TypedCatch {
        fault,
        number,
        handler,
    })
}

/// The catches of a `try`, from left to right.
#[cycle(typed)]
#[tactic(auto, using(crate::proofs::Lists::map_append, crate::proofs::Turns::catches_begin, crate::proofs::Turns::catch_fails, crate::proofs::Turns::catch_goes_on, crate::proofs::Turns::no_catch_left))]
fn all_caught<'a>(
    state: &mut State<'a>,
    alloc: Global,
    frame: &Frame<'a, '_>,
    in_loop: bool,
    all: &'a [Catch],
) -> Result<Items<TypedCatch>, Fail>
    ensures { CatchesAll (spec.all_caught (view_frame frame.now) in_loop (view_state state.old) (catches (map view_source_catch all.now))) result state.new }
{
    let mut made = Items::new(alloc);
    for catch in all {
        made.push(caught(state, alloc, frame, in_loop, catch)?)?;
    }
    Ok(made)
}
