//! Fields (JLS 8.3).

ghost use Rattle.std.specs.Prelude.{◌≡◌, ◌<◌, ◌+◌, [], length, false};
ghost use Rattle.jr_lexer.specs.Answers.{Answers as Reads};
ghost use Rattle.jr_reading.specs.Steps as common;
ghost use Rattle.jr_unit_parser.specs.Steps as steps;

use crate::head::Declared;
use crate::reader::UnitReader;
use jr_ast::{Constant, ConstantValue, Field, FieldDeclarator, MethodKind, Modifier, TypeName};
use jr_base::{Fail, Refusal};
use jr_lexer::Kind;
use jr_reading::View;
use sqlite_items::Items;

impl<'a> UnitReader<'a> {
    /// An integer literal without a sign, which is not the big one of its type.
    #[tactic(auto, unfolding(crate::specs::Steps::integer))]
    fn integer(&self, at: u32) -> Result<(Constant, u32), Fail>
        requires { at < 1048576 }
        ensures { Reads (steps.integer self.now.tokens.now at) result }
    {
        let view = View {
            tokens: self.tokens,
            jml: false,
        };
        let place = view.span(at);
        let literal = view.literal(at);
        let big = view.big(at);
        if literal.number < big {
            let value = ConstantValue::Integer(literal);
            return Ok((Constant { place, value }, at + 1));
        }
        if literal.number == big {
            return Err(Fail::Refused(Refusal::BigLiteral(place)));
        }
        Err(Fail::Refused(self.refusal(at)))
    }

    /// `-` and an integer literal.
    #[tactic(auto, unfolding(crate::specs::Steps::negated))]
    fn negated(&self, at: u32) -> Result<(Constant, u32), Fail>
        requires { at < 1048576 }
        ensures { Reads (steps.negated self.now.tokens.now at) result }
    {
        let view = View {
            tokens: self.tokens,
            jml: false,
        };
        view.expect(at + 1, Kind::Integer)?;
        let literal = view.literal(at + 1);
        if literal.number > view.big(at + 1) {
            return Err(Fail::Refused(view.refusal(at + 1)));
        }
        let place = view.span(at);
        let value = ConstantValue::Negated(literal);
        Ok((Constant { place, value }, at + 2))
    }

    /// A constant of one word.
    fn literal(&self, at: u32, value: ConstantValue) -> (Constant, u32)
        requires { at < 1048576 }
        ensures { result ≡ (steps.constant_at self.now.tokens.now at value, at + 1) }
    {
        let place = self.tokens.span(at);
        (Constant { place, value }, at + 1)
    }

    /// What a field begins with, and the index behind it.
    #[tactic(auto, unfolding(crate::specs::Steps::constant))]
    fn constant(&self, at: u32) -> Result<(Constant, u32), Fail>
        ensures { Reads (steps.constant self.now.tokens.now at) result }
    {
        match self.seen(at) {
            Kind::Integer => self.integer(at),
            Kind::Minus => self.negated(at),
            Kind::True => Ok(self.literal(at, ConstantValue::Boolean(true))),
            Kind::False => Ok(self.literal(at, ConstantValue::Boolean(false))),
            Kind::Null => Ok(self.literal(at, ConstantValue::Null)),
            _ => Err(Fail::Refused(self.refusal(at))),
        }
    }

    /// A field's name and constant, and the index behind them.
    #[tactic(auto, unfolding(crate::specs::Steps::declarator))]
    fn declarator(&self, at: u32) -> Result<(FieldDeclarator, u32), Fail>
        ensures { Reads (steps.declarator self.now.tokens.now at) result }
    {
        self.expect(at, Kind::Name)?;
        let name = self.name(at)?;
        if !self.sees(at + 1, Kind::Equal) {
            let constant = None;
            return Ok((FieldDeclarator { name, constant }, at + 1));
        }
        let (constant, behind) = self.constant(at + 2)?;
        let constant = Some(constant);
        Ok((FieldDeclarator { name, constant }, behind))
    }

    /// One or more fields with commas between, and the index behind them.
    #[tactic(auto, using(jr_reading::proofs::Turns::turn_left, jr_reading::proofs::Turns::no_turn_left), unfolding(jr_reading::specs::Steps::listed))]
    fn declarators(&self, at: u32) -> Result<(Items<FieldDeclarator>, u32), Fail>
        ensures { Reads (common.listed false self.now.tokens.now (steps.declarator self.now.tokens.now) (length self.now.tokens.now) [] at) result }
    {
        let mut found = Items::new(self.alloc);
        let mut at = at;
        for _turn in 0..self.tokens.len() {
            let (declarator, behind) = self.declarator(at)?;
            found.push(declarator)?;
            if !self.sees(behind, Kind::Comma) {
                return Ok((found, behind));
            }
            at = behind + 1;
        }
        Err(Fail::Refused(self.refusal(at)))
    }

    /// The fields of a type from their first name on, and the index behind their `;`. The first token is
    /// that of the modifiers or of the type.
    #[tactic(auto, unfolding(crate::specs::Steps::field))]
    pub fn field(
        &self,
        first: u32,
        modifiers: Items<Modifier>,
        type_name: TypeName,
        at: u32,
    ) -> Result<(Declared, u32), Fail>
        ensures { Reads (steps.field self.now.tokens.now first modifiers type_name at) result }
    {
        let (declarators, end) = self.declarators(at)?;
        self.expect(end, Kind::Semicolon)?;
        let place = self.tokens.span(first);
        let field = Field {
            place,
            modifiers,
            type_name,
            declarators,
        };
        Ok((Declared::Field(field), end + 1))
    }
}
