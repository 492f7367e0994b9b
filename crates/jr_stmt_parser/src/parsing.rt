//! Blocks where they stand.

ghost use Rattle.std.specs.Prelude.{◌≡◌, ◌≤◌, suc};
ghost use Rattle.jr_ast.specs.Statements.{view_stmt};
ghost use Rattle.jr_reading.specs.Limits.{nesting_limit};
ghost use Rattle.jr_stmt_parser.specs.Answers.{Answers, OneBlock};
ghost use Rattle.jr_stmt_parser.specs.Gives.{GivesStatement};
ghost use Rattle.jr_stmt_parser.specs.Pieces.{MayBegin};
ghost use Rattle.jr_stmt_parser.specs.Pieces as pieces;

use crate::code::Code;
use crate::reader::Reader;
use jr_ast::Stmt;
use jr_base::Fail;
use jr_lexer::Tokens;
use sqlite_items::Items;
use std::alloc::Global;

/// A statement with so many constructs above it, and the index behind it.
fn statement(alloc: Global, tokens: &Tokens, at: u32, depth: u8) -> Result<(Stmt, u32), Fail>
    requires depth { depth ≤ nesting_limit }
    requires begins { MayBegin tokens.now at }
    ensures { GivesStatement view_stmt tokens.now (suc depth) (pieces.Inner tokens.now depth) at result }
{
    let code = Code {
        alloc,
        tokens,
        depth: depth + 1,
    };
    let reader = Reader {
        code,
        inner: statement,
    };
    let (form, next) = reader.form(at)?;
    let statement = Stmt::new(alloc, tokens.span(at), form)?;
    Ok((statement, next))
}

/// The statements of the block that stands at an index, and the index behind it (JLS 14.2). The depth is the
/// number of constructs above its statements: none for a method's body. `NotInProfile` names a word or sign that
/// is left out, or a label other than `commit`, `BigLiteral` the big literal of a type that isn't itself the
/// operand of a unary minus, `Syntax` the token that doesn't go on, and `TooDeep` where the reader stopped.
pub fn parse_block(
    alloc: Global,
    tokens: &Tokens,
    at: u32,
    depth: u8,
) -> Result<(Items<Stmt>, u32), Fail>
    requires { depth ≤ nesting_limit }
    ensures { Answers tokens.now at depth result }
{
    let code = Code {
        alloc,
        tokens,
        depth,
    };
    let reader = Reader {
        code,
        inner: statement,
    };
    reader.block(at)
}

/// No two blocks stand at an index.
pub fn one_block()
    ensures { OneBlock }
{}
