//! Expressions where they stand.

ghost use Rattle.std.specs.Prelude.{◌≡◌, ◌≤◌, ◌+◌};
ghost use Rattle.jr_reading.specs.Limits.{nesting_limit};
ghost use Rattle.jr_expr_parser.specs.Answers.{Answers, AnswersSpec, OneTree, level_of};
ghost use Rattle.jr_expr_parser.specs.Nests.{Fitting, Reads};
ghost use Rattle.jr_expr_parser.specs.Reader as reader;

use crate::operators::reach;
use crate::parser::{ANY, Parser};
use crate::read::Read;
use jr_ast::{Expr, SpecExpr};
use jr_base::{Fail, Refusal};
use jr_lexer::Tokens;
use jr_reading::{NESTING_LIMIT, View};
use std::alloc::Global;

/// How deep quantifiers may nest.
const QUANTIFIERS: u8 = 2;
/// The level of `*`, `/` and `%`.
const PRODUCT: u8 = 15;
/// The level of an expression of a clause.
const CLAUSE: u8 = 2;

/// Which operators an expression may have outside brackets.
#[derive(Clone, Copy, Debug, PartialEq, Eq)]
pub enum Level {
    /// Any.
    Any,
    /// No looser ones than `*`, `/` and `%`, as of what stands between the signs of a sum.
    Product,
}

/// An expression of a level, nested less than `room` deep.
#[tactic(auto, using(crate::proofs::Unrolled::no_room, crate::proofs::Unrolled::some_room))]
fn nested(
    alloc: Global,
    tokens: &Tokens,
    jml: bool,
    room: u8,
    quantifiers: u8,
    level: u8,
    at: u32,
) -> Result<(Read, u32), Fail>
    requires level { level ≤ 16 }
    requires room { room ≤ nesting_limit + 1 }
    ensures { Reads (reader.nested jml tokens.now room quantifiers level at) result }
{
    if room == 0 {
        return Err(Fail::Refused(Refusal::TooDeep(tokens.span(at))));
    }
    let parser = Parser {
        alloc,
        view: View { tokens, jml },
        room: room - 1,
        quantifiers,
        nested,
    };
    parser.level(level, at)
}

/// The expression of a level that ends where it was read to.
#[tactic(auto, unfolding(crate::specs::Reader::standing))]
fn standing(
    alloc: Global,
    view: &View<'_>,
    room: u8,
    level: u8,
    at: u32,
) -> Result<(Read, u32), Fail>
    requires level { level ≤ 16 }
    requires room { room ≤ nesting_limit + 1 }
    ensures { Reads (reader.standing view.now.jml view.now.tokens.now room level at) result }
{
    let (read, behind) = nested(alloc, view.tokens, view.jml, room, QUANTIFIERS, level, at)?;
    if reach(view.seen(behind)) < level {
        Ok((read, behind))
    } else {
        Err(Fail::Refused(view.refusal(behind)))
    }
}

/// The expression of a level that stands at an index, below so many constructs.
#[tactic(auto, using(crate::proofs::Whole::reads_fit))]
fn fitting(
    alloc: Global,
    view: &View<'_>,
    at: u32,
    level: u8,
    depth: u8,
) -> Result<(Read, u32), Fail>
    requires level { level ≤ 16 }
    requires depth { depth ≤ nesting_limit }
    ensures { Fitting view.now.jml view.now.tokens.now level at depth result }
{
    standing(alloc, view, NESTING_LIMIT - depth + 1, level, at)
}

/// Its number in the tables of operators.
fn level_of(level: Level) -> u8
    ensures value { result ≡ level_of level }
    ensures low { result ≤ 16 }
{
    match level {
        Level::Any => ANY,
        Level::Product => PRODUCT,
    }
}

/// The expression of code that stands at an index, and the index behind it (JLS 15). The depth is the number of
/// constructs above it. `NotInProfile` names a word or sign that is left out, also behind a dot, `BigLiteral` the
/// big literal of a type that isn't itself the operand of a unary minus, `Syntax` the token that doesn't go on,
/// and `TooDeep` where the reader stopped: what would be read is refused for its nesting alone.
pub fn parse_expr(
    alloc: Global,
    tokens: &Tokens,
    at: u32,
    level: Level,
    depth: u8,
) -> Result<(Expr, u32), Fail>
    requires depth { depth ≤ nesting_limit }
    ensures { Answers tokens.now level at depth result }
{
    let view = View { tokens, jml: false };
    let (read, behind) = fitting(alloc, &view, at, level_of(level), depth)?;
    Ok((read.tree, behind))
}

/// The expression of a clause that stands at an index, and the index behind it (JML Reference Manual,
/// "Expressions"). The depth is the number of constructs above it. The refusals are those of [`parse_expr`].
pub fn parse_spec_expr(
    alloc: Global,
    tokens: &Tokens,
    at: u32,
    depth: u8,
) -> Result<(SpecExpr, u32), Fail>
    requires { depth ≤ nesting_limit }
    ensures { AnswersSpec tokens.now at depth result }
{
    let view = View { tokens, jml: true };
    let (read, behind) = fitting(alloc, &view, at, CLAUSE, depth)?;
    Ok((SpecExpr { expr: read.tree }, behind))
}

/// No two expressions of a level stand at an index.
pub fn one_tree()
    ensures { OneTree }
{}
