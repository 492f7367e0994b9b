//! What clauses are made of.

ghost use Rattle.std.specs.Prelude.{◌≡◌, ◌≤◌};
ghost use Rattle.jr_reading.specs.Limits.{nesting_limit};
ghost use Rattle.jr_jml_parser.specs.Grammar.{Anything, Tie};
ghost use Rattle.jr_jml_parser.specs.Parts.{
  AllModified,
  AnswersCondition,
  AnswersObjects,
  AnswersPlace,
  Starts,
};

use crate::annotations::{refusal, seen, take};
use jr_ast::SpecExpr;
use jr_base::{Fail, Refusal};
use jr_expr_parser::parse_spec_expr;
use jr_lexer::{Kind, Tokens};
use sqlite_items::Items;
use std::alloc::Global;

/// An expression and the `;` behind it.
#[tactic(auto, using(crate::proofs::Pieces::condition_steps))]
pub fn condition(
    alloc: Global,
    tokens: &Tokens,
    at: u32,
    depth: u8,
) -> Result<(SpecExpr, u32), Fail>
    requires depth { depth ≤ nesting_limit }
    requires start { Starts tokens.now at }
    ensures { AnswersCondition tokens.now at depth result }
{
    let (condition, end) = parse_spec_expr(alloc, tokens, at, depth)?;
    let behind = take(tokens, end, Kind::Semicolon)?;
    Ok((condition, behind))
}

/// Expressions with commas between, and the `;` behind them.
#[tactic(auto, using(crate::proofs::Pieces::object_steps))]
pub fn objects(
    alloc: Global,
    tokens: &Tokens,
    at: u32,
    depth: u8,
) -> Result<(Items<SpecExpr>, u32), Fail>
    requires depth { depth ≤ nesting_limit }
    requires start { Starts tokens.now at }
    ensures { AnswersObjects tokens.now at depth result }
{
    let mut found = Items::new(alloc);
    let mut next = at;
    loop {
        let (object, end) = parse_spec_expr(alloc, tokens, next, depth)?;
        found.push(object)?;
        match seen(tokens, end) {
            Kind::Semicolon => return Ok((found, end + 1)),
            Kind::Comma => next = end + 1,
            _ => return Err(Fail::Refused(refusal(tokens, end))),
        }
    }
}

/// The index behind the next `;`, where all tokens up to it are of annotations.
#[tactic(auto, using(crate::proofs::Pieces::anything_steps))]
pub fn anything(tokens: &Tokens, at: u32) -> Result<u32, Fail>
    ensures { AnswersPlace (Anything tokens.now at) tokens.now at result }
{
    let end = tokens.len();
    for next in at..end {
        if let Kind::Semicolon = seen(tokens, next) {
            return Ok(next + 1);
        }
        if !tokens.is_jml(next) {
            return Err(Fail::Refused(refusal(tokens, next)));
        }
    }
    Err(Fail::Refused(Refusal::Syntax(tokens.span(end))))
}

/// Whether one of the modifiers at an index is `static`, and the index behind them all.
#[tactic(auto, using(crate::proofs::Modifiers::none_passed))]
pub fn modifiers(tokens: &Tokens, at: u32) -> (bool, u32)
    ensures { AllModified tokens.now at result.0 result.1 }
{
    let mut is_static = false;
    let mut next = at;
    loop {
        match seen(tokens, next) {
            Kind::Public | Kind::Private | Kind::Protected => next += 1,
            Kind::Static => {
                is_static = true;
                next += 1;
            }
            _ => return (is_static, next),
        }
    }
}

/// The index behind the `=` or `<-` of `monitors_for`.
pub fn tie(tokens: &Tokens, at: u32) -> Result<u32, Fail>
    ensures { AnswersPlace (Tie tokens.now at) tokens.now at result }
{
    match seen(tokens, at) {
        Kind::Equal => Ok(at + 1),
        Kind::Less => take(tokens, at + 1, Kind::Minus),
        _ => Err(Fail::Refused(refusal(tokens, at))),
    }
}
