//! Sources.

ghost use Rattle.jr_unit_parser.specs.Answers.{Answers, OneUnit};

use crate::reader::UnitReader;
use jr_ast::Unit;
use jr_base::Fail;
use jr_lexer::Tokens;
use std::alloc::Global;

/// The classes of a source (JLS 7.3). Packages, imports and `throws` are read, and leave nothing. `TooDeep` is
/// the refusal of a source that is refused for its nesting alone; `BigLiteral` names the big literal of a type
/// without its `-`, `NotInProfile` a word of a form that is left out, and `Syntax` the token that doesn't go on.
pub fn parse(alloc: Global, tokens: &Tokens) -> Result<Unit, Fail>
    ensures { Answers tokens.now result }
{
    let reader = UnitReader { alloc, tokens };
    let first = reader.imports()?;
    let (classes, _) = reader.classes(first)?;
    Ok(Unit { classes })
}

/// Tokens spell one unit at most.
#[tactic(auto, using(crate::proofs::OfUnits::one_unit))]
pub fn one_unit(tokens: &Tokens)
    ensures { OneUnit tokens.now }
{}
