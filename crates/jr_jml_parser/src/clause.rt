//! Clauses where they stand.

ghost use Rattle.std.specs.Prelude.{◌≡◌, ◌<◌, ◌≤◌, false, true};
ghost use Rattle.jr_reading.specs.Limits.{nesting_limit};
ghost use Rattle.jr_reading.specs.Seen as spec;
ghost use Rattle.jr_jml_parser.specs.Answers.{
  AnswersAssert,
  AnswersClass,
  AnswersClause,
  AnswersMethod,
  OneClause,
};
ghost use Rattle.jr_jml_parser.specs.Parts.{AnswersClassForm, AnswersMethodForm};

use crate::annotations::{refusal, seen, take};
use crate::parts::{anything, condition, modifiers, objects, tie};
use jr_ast::{ClassClause, ClassForm, Clause, MethodClause, MethodForm, Name, SpecExpr};
use jr_base::{Fail, Refusal};
use jr_lexer::{Kind, Tokens};
use jr_reading::NESTING_LIMIT;
use std::alloc::Global;

/// The clause that stands at an index, and the index behind it. The depth is the nesting of what stands there.
#[tactic(auto, using(crate::proofs::Asserts::clause_steps))]
pub fn parse_clause(
    alloc: Global,
    tokens: &Tokens,
    at: u32,
    depth: u8,
) -> Result<(Clause, u32), Fail>
    requires { depth ≤ nesting_limit }
    ensures { AnswersClause tokens.now at depth result }
{
    match seen(tokens, at) {
        Kind::Requires
        | Kind::Ensures
        | Kind::When
        | Kind::Locks
        | Kind::Assignable
        | Kind::Modifies => {
            let (clause, behind) = parse_method_clause(alloc, tokens, at, depth)?;
            Ok((Clause::Method(clause), behind))
        }
        Kind::Assert => {
            let (condition, behind) = parse_assert(alloc, tokens, at, depth)?;
            Ok((Clause::Assert(tokens.span(at), condition), behind))
        }
        _ => {
            let (clause, behind) = parse_class_clause(alloc, tokens, at, depth)?;
            Ok((Clause::Class(clause), behind))
        }
    }
}

/// At most one clause stands at an index.
#[tactic(auto, using(crate::proofs::Whole::one_clause))]
pub fn one_clause()
    ensures { OneClause }
{}

/// The clause of a method or constructor that stands at an index, and the index behind it (JML Reference
/// Manual, "Method Specification Clauses"). The depth is the nesting of what stands there.
pub fn parse_method_clause(
    alloc: Global,
    tokens: &Tokens,
    at: u32,
    depth: u8,
) -> Result<(MethodClause, u32), Fail>
    requires { depth ≤ nesting_limit }
    ensures { AnswersMethod tokens.now at depth result }
{
    let (form, behind) = method_form(alloc, tokens, at, depth)?;
    let place = tokens.span(at);
    Ok((MethodClause { place, form }, behind))
}

/// The clause of a class that stands at an index, and the index behind it (JML Reference Manual, "Type
/// Specifications"). The depth is the nesting of what stands there.
#[tactic(auto, using(crate::proofs::Classes::class_failed))]
pub fn parse_class_clause(
    alloc: Global,
    tokens: &Tokens,
    at: u32,
    depth: u8,
) -> Result<(ClassClause, u32), Fail>
    requires { depth ≤ nesting_limit }
    ensures { AnswersClass tokens.now at depth result }
{
    let (is_static, keyword) = modifiers(tokens, at);
    let (form, behind) = class_form(alloc, tokens, keyword, is_static, depth)?;
    let place = tokens.span(keyword);
    Ok((ClassClause { place, form }, behind))
}

/// What an `assert` that stands at an index says holds there, and the index behind its `;` (JML Reference
/// Manual, "Assert Statements"). The depth is the nesting of the statement, which counts one above what
/// it holds.
#[tactic(auto, using(crate::proofs::Asserts::assert_steps))]
pub fn parse_assert(
    alloc: Global,
    tokens: &Tokens,
    at: u32,
    depth: u8,
) -> Result<(SpecExpr, u32), Fail>
    requires { depth ≤ nesting_limit }
    ensures { AnswersAssert tokens.now at depth result }
{
    let start = take(tokens, at, Kind::Assert)?;
    if depth == NESTING_LIMIT {
        return Err(Fail::Refused(Refusal::TooDeep(tokens.span(start))));
    }
    condition(alloc, tokens, start, depth + 1)
}

/// What a clause of a method asks, whose keyword stands at an index.
#[tactic(auto, using(crate::proofs::Methods::method_steps))]
fn method_form(
    alloc: Global,
    tokens: &Tokens,
    at: u32,
    depth: u8,
) -> Result<(MethodForm, u32), Fail>
    requires { depth ≤ nesting_limit }
    ensures { AnswersMethodForm tokens.now at depth result }
{
    match seen(tokens, at) {
        Kind::Requires => {
            let (condition, behind) = condition(alloc, tokens, at + 1, depth)?;
            Ok((MethodForm::Requires(condition), behind))
        }
        Kind::Ensures => {
            let (condition, behind) = condition(alloc, tokens, at + 1, depth)?;
            Ok((MethodForm::Ensures(condition), behind))
        }
        Kind::When => {
            let (condition, behind) = condition(alloc, tokens, at + 1, depth)?;
            Ok((MethodForm::When(condition), behind))
        }
        Kind::Locks => {
            let (owned, behind) = objects(alloc, tokens, at + 1, depth)?;
            Ok((MethodForm::Locks(owned), behind))
        }
        Kind::Assignable => {
            let behind = anything(tokens, at + 1)?;
            Ok((MethodForm::Assignable, behind))
        }
        Kind::Modifies => {
            let behind = anything(tokens, at + 1)?;
            Ok((MethodForm::Modifies, behind))
        }
        _ => Err(Fail::Refused(refusal(tokens, at))),
    }
}

/// What a clause of a class asks, whose keyword stands at an index.
#[tactic(auto, using(crate::proofs::Classes::class_steps))]
fn class_form(
    alloc: Global,
    tokens: &Tokens,
    at: u32,
    is_static: bool,
    depth: u8,
) -> Result<(ClassForm, u32), Fail>
    requires { depth ≤ nesting_limit }
    ensures { AnswersClassForm tokens.now is_static at depth result }
{
    match seen(tokens, at) {
        Kind::Invariant => {
            let (condition, behind) = condition(alloc, tokens, at + 1, depth)?;
            Ok((
                ClassForm::Invariant {
                    is_static,
                    condition,
                },
                behind,
            ))
        }
        Kind::Constraint => {
            let (condition, behind) = condition(alloc, tokens, at + 1, depth)?;
            Ok((
                ClassForm::Constraint {
                    is_static,
                    condition,
                },
                behind,
            ))
        }
        Kind::MonitorsFor => {
            if is_static {
                return Err(Fail::Refused(refusal(tokens, at)));
            }
            monitors_for(alloc, tokens, at, depth)
        }
        _ => Err(Fail::Refused(refusal(tokens, at))),
    }
}

/// A `monitors_for`, whose keyword stands at an index.
#[tactic(auto, using(crate::proofs::Classes::monitors_steps))]
fn monitors_for(
    alloc: Global,
    tokens: &Tokens,
    at: u32,
    depth: u8,
) -> Result<(ClassForm, u32), Fail>
    requires depth { depth ≤ nesting_limit }
    requires keyword { spec.seen true tokens.now at ≡ Kind.MonitorsFor }
    requires inside { at < 1048576 }
    ensures { AnswersClassForm tokens.now false at depth result }
{
    let sign = take(tokens, at + 1, Kind::Name)?;
    let start = tie(tokens, sign)?;
    let field = Name::new(alloc, tokens.text(at + 1), tokens.span(at + 1))?;
    let (owned, behind) = objects(alloc, tokens, start, depth)?;
    Ok((ClassForm::MonitorsFor { field, owned }, behind))
}
