//! From the bytes of a source to the program that they spell.

ghost use Rattle.std.specs.Prelude.{ℕ, ◌≤◌, List, length};
ghost use Rattle.jr_cli.specs.Sources.{Reads, IsOneMeaning};

use jr_base::Fail;
use jr_lexer::lex;
use jr_program::TypedUnit;
use jr_safepoints::typed;
use jr_unit_parser::parse;
use std::alloc::Global;

/// The program that a source spells, or why it is refused.
#[tactic(auto, using(crate::proofs::SourceAnswers::refused_tokens, crate::proofs::SourceAnswers::refused_unit, crate::proofs::SourceAnswers::refused_rules, crate::proofs::SourceAnswers::accepted))]
pub fn program_of_source(alloc: Global, bytes: &[u8]) -> Result<TypedUnit, Fail>
    requires { length bytes.now ≤ 1048576 }
    ensures { Reads bytes.now result }
{
    let tokens = lex(alloc, bytes)?;
    let unit = parse(alloc, &tokens)?;
    let program = typed(alloc, bytes, &unit)?;
    Ok(program)
}

/// Bytes spell at most one program, and are refused where they spell none alone.
#[tactic(auto, using(crate::proofs::SourceAnswers::one_meaning))]
pub fn one_meaning()
    ensures { (bytes : List ℕ) → IsOneMeaning bytes }
{}
