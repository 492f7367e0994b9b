//! Types.

ghost use Rattle.std.specs.Prelude.{◌≡◌, ◌<◌, IfOk};
ghost use Rattle.jr_lexer.specs.Answers.{Answers as Finds};
ghost use Rattle.jr_reading.specs.Steps as steps;

use crate::view::View;
use jr_ast::{ElementType, TypeName};
use jr_base::Fail;
use jr_lexer::Kind;
use std::alloc::Global;

impl<'a> View<'a> {
    /// A type of no array, of one token (JLS 4.1).
    #[tactic(auto, unfolding(crate::specs::Steps::element))]
    pub fn element(&self, alloc: Global, at: u32) -> Result<ElementType, Fail>
        ensures value { Finds (steps.element self.now.jml self.now.tokens.now at) result }
        ensures within { IfOk result (λ _. at < 1048576) }
    {
        match self.seen(at) {
            Kind::Int => Ok(ElementType::Int),
            Kind::Long => Ok(ElementType::Long),
            Kind::Boolean => Ok(ElementType::Boolean),
            Kind::Name => Ok(ElementType::Class(self.name(alloc, at)?)),
            _ => Err(Fail::Refused(self.refusal(at))),
        }
    }

    /// Whether `[]` follows an element.
    #[tactic(auto, unfolding(crate::specs::Steps::is_array))]
    fn is_array(&self, at: u32) -> bool
        requires { at < 1048576 }
        ensures { result ≡ steps.is_array self.now.jml self.now.tokens.now at }
    {
        self.sees(at + 1, Kind::OpenBracket) && self.sees(at + 2, Kind::CloseBracket)
    }

    /// A type (JLS 4.1, 10.1), and the index behind it. A `[` that no `]` follows isn't read.
    #[tactic(auto, unfolding(crate::specs::Steps::type_name))]
    pub fn type_name(&self, alloc: Global, at: u32) -> Result<(TypeName, u32), Fail>
        ensures { Finds (steps.type_name self.now.jml self.now.tokens.now at) result }
    {
        let element = self.element(alloc, at)?;
        if self.is_array(at) {
            return Ok((TypeName::ArrayOf(element), at + 3));
        }
        Ok((TypeName::Single(element), at + 1))
    }
}
