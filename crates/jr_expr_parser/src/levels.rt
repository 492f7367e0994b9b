//! Operators, level by level. The operators of one level stand in a loop; what stands behind one that groups
//! to the right is read as what stands inside one construct more.

ghost use Rattle.std.specs.Prelude.{◌≡◌, ◌≤◌, ◌<◌, ◌-◌, suc, length};
ghost use Rattle.jr_reading.specs.Limits.{nesting_limit};
ghost use Rattle.jr_expr_parser.specs.Reader as reader;
ghost use Rattle.jr_expr_parser.specs.Nests.{Makes, Nests, Reads, inside, view_read};

use crate::operators::{Grouping, PREFIX, grouping_of};
use crate::parser::{ANY, Parser};
use crate::read::Read;
use crate::{nodes, signs};
use jr_ast::Infix;
use jr_base::Fail;
use jr_lexer::{Kind, Tokens};
use std::alloc::Global;

/// The level of `? :`.
const CHOICE: u8 = 2;
/// The level of `||`, next to that of `<==`.
const DISJUNCTION: u8 = 6;

impl<'a, F: Fn(Global, &Tokens, bool, u8, u8, u8, u32) -> Result<(Read, u32), Fail>> Parser<'a, F> {
    /// A primary with what follows it and the operators behind.
    #[tactic(auto, using(jr_reading::proofs::Turns::turn_left, jr_reading::proofs::Turns::no_turn_left), unfolding(crate::specs::Reader::postfixed, crate::specs::Reader::behind))]
    fn postfixed(&self, start: u32) -> Result<(Read, u32), Fail>
        requires nests { Nests self.now.room (F.pre self.now.nested) (F.post self.now.nested) }
        ensures { Reads (inside reader.postfixed self.now.view self.now.room self.now.quantifiers start) result }
    {
        let (mut read, mut at) = self.suffixed(start)?;
        let place = self.view.span(start);
        for _turn in 0..self.view.tokens.len() {
            let Some(op) = signs::postfix(&self.view, at) else {
                return Ok((read, at));
            };
            read = nodes::postfixed(self.alloc, place, op, read, self.room)?;
            at += 1;
        }
        Ok((read, at))
    }

    /// Operators and their operand.
    #[tactic(auto, unfolding(crate::specs::Reader::unary))]
    fn unary(&self, at: u32) -> Result<(Read, u32), Fail>
        requires nests { Nests self.now.room (F.pre self.now.nested) (F.post self.now.nested) }
        ensures { Reads (inside reader.unary self.now.view self.now.room self.now.quantifiers at) result }
    {
        let place = self.view.span(at);
        if signs::is_least(&self.view, at) {
            let literal = self.view.literal(at + 1);
            let read = nodes::least(
                self.alloc,
                place,
                self.view.span(at + 1),
                literal,
                self.room,
            )?;
            return Ok((read, at + 2));
        }
        let Some(op) = signs::prefix(&self.view, at) else {
            return self.postfixed(at);
        };
        let (operand, behind) = self.nested(self.quantifiers, PREFIX, at + 1)?;
        let read = nodes::prefixed(self.alloc, place, op, operand)?;
        Ok((read, behind))
    }

    /// The refusal of a chain of `<==` behind `==>`, which names the first `<==`.
    #[tactic(auto, unfolding(crate::specs::Reader::chain_behind))]
    fn chain_behind(&self, at: u32) -> Result<(Read, u32), Fail>
        requires nests { Nests self.now.room (F.pre self.now.nested) (F.post self.now.nested) }
        requires within { at < 1048576 }
        ensures { Reads (inside reader.chain_behind self.now.view self.now.room self.now.quantifiers at) result }
    {
        let (_, chain) = self.nested(self.quantifiers, DISJUNCTION, at + 1)?;
        Err(Fail::Refused(self.view.refusal(chain)))
    }

    /// The right side of `==>`.
    #[tactic(auto, unfolding(crate::specs::Reader::implied_by))]
    fn implied_by(
        &self,
        level: u8,
        start: u32,
        op: Infix,
        left: Read,
        at: u32,
    ) -> Result<(Read, u32), Fail>
        requires nests { Nests self.now.room (F.pre self.now.nested) (F.post self.now.nested) }
        requires level { level ≤ 16 }
        requires within { at < 1048576 }
        ensures { Reads (inside reader.implied_by self.now.view self.now.room self.now.quantifiers level start op (view_read left) at) result }
    {
        let (right, behind) = self.nested(self.quantifiers, level, at + 1)?;
        if right.implied_by {
            return self.chain_behind(at);
        }
        let read = self.infixed(start, op, left, right)?;
        Ok((read, behind))
    }

    /// What stands behind the left side of `==>`.
    #[tactic(auto, unfolding(crate::specs::Reader::implied))]
    fn implied(&self, level: u8, start: u32, left: Read, at: u32) -> Result<(Read, u32), Fail>
        requires nests { Nests self.now.room (F.pre self.now.nested) (F.post self.now.nested) }
        requires level { level ≤ 16 }
        ensures { Reads (inside reader.implied self.now.view self.now.room self.now.quantifiers level start (view_read left) at) result }
    {
        let Some(op) = signs::operator(&self.view, level, at) else {
            return Ok((left, at));
        };
        if left.implied_by {
            return Ok((left, at));
        }
        self.implied_by(level, start, op, left, at)
    }

    /// The two sides of `? :`.
    #[tactic(auto, unfolding(crate::specs::Reader::alternatives))]
    fn alternatives(&self, start: u32, condition: Read, at: u32) -> Result<(Read, u32), Fail>
        requires nests { Nests self.now.room (F.pre self.now.nested) (F.post self.now.nested) }
        requires within { at < 1048576 }
        ensures { Reads (inside reader.alternatives self.now.view self.now.room self.now.quantifiers start (view_read condition) at) result }
    {
        let (one, behind) = self.nested(self.quantifiers, ANY, at + 1)?;
        self.view.expect(behind, Kind::Colon)?;
        let (other, behind) = self.nested(self.quantifiers, CHOICE, behind + 1)?;
        let place = self.view.span(start);
        let read = nodes::conditional(self.alloc, place, condition, one, other, self.room)?;
        Ok((read, behind))
    }

    /// What stands behind a condition.
    #[tactic(auto, unfolding(crate::specs::Reader::chosen))]
    fn chosen(&self, start: u32, condition: Read, at: u32) -> Result<(Read, u32), Fail>
        requires nests { Nests self.now.room (F.pre self.now.nested) (F.post self.now.nested) }
        ensures { Reads (inside reader.chosen self.now.view self.now.room self.now.quantifiers start (view_read condition) at) result }
    {
        if self.view.sees(at, Kind::Question) {
            self.alternatives(start, condition, at)
        } else {
            Ok((condition, at))
        }
    }

    /// What stands behind what is assigned to.
    #[tactic(auto, unfolding(crate::specs::Reader::assigned))]
    fn assigned(&self, start: u32, target: Read, at: u32) -> Result<(Read, u32), Fail>
        requires nests { Nests self.now.room (F.pre self.now.nested) (F.post self.now.nested) }
        ensures { Reads (inside reader.assigned self.now.view self.now.room self.now.quantifiers start (view_read target) at) result }
    {
        let Some(op) = signs::assignment(&self.view, at) else {
            return Ok((target, at));
        };
        let (value, behind) = self.nested(self.quantifiers, ANY, at + 1)?;
        let place = self.view.span(start);
        let read = nodes::assignment(self.alloc, place, op, target, value, self.room)?;
        Ok((read, behind))
    }

    /// An operator between its operands.
    #[tactic(auto, unfolding(crate::specs::Reader::infixed))]
    fn infixed(&self, start: u32, op: Infix, left: Read, right: Read) -> Result<Read, Fail>
        requires room { self.now.room ≤ nesting_limit }
        ensures { Makes (inside reader.infixed self.now.view self.now.room start op (view_read left) (view_read right)) result }
    {
        nodes::infixed(
            self.alloc,
            self.view.span(start),
            op,
            left,
            right,
            self.room,
        )
    }

    #[cycle(level)]
    #[tactic(auto, using(jr_reading::proofs::Turns::turn_left, jr_reading::proofs::Turns::no_turn_left), unfolding(crate::specs::Reader::to_the_left, crate::specs::Reader::climb))]
    fn to_the_left(&self, level: u8, start: u32) -> Result<(Read, u32), Fail>
        requires nests { Nests self.now.room (F.pre self.now.nested) (F.post self.now.nested) }
        requires level { level < 16 }
        ensures { Reads (inside reader.to_the_left self.now.view self.now.room (λ i. inside reader.levels self.now.view self.now.room self.now.quantifiers (15 - level) (suc level) i) level start) result }
    {
        let (mut left, mut at) = self.level(level + 1, start)?;
        for _turn in 0..self.view.tokens.len() {
            let Some(op) = signs::operator(&self.view, level, at) else {
                return Ok((left, at));
            };
            let (right, behind) = self.level(level + 1, at + 1)?;
            left = self.infixed(start, op, left, right)?;
            at = behind;
        }
        Ok((left, at))
    }

    #[cycle(level)]
    #[tactic(auto, unfolding(crate::specs::Reader::once))]
    fn once(&self, level: u8, start: u32) -> Result<(Read, u32), Fail>
        requires nests { Nests self.now.room (F.pre self.now.nested) (F.post self.now.nested) }
        requires level { level < 16 }
        ensures { Reads (inside reader.once self.now.view self.now.room (λ i. inside reader.levels self.now.view self.now.room self.now.quantifiers (15 - level) (suc level) i) level start) result }
    {
        let (left, at) = self.level(level + 1, start)?;
        let Some(op) = signs::operator(&self.view, level, at) else {
            return Ok((left, at));
        };
        let (right, behind) = self.level(level + 1, at + 1)?;
        let read = self.infixed(start, op, left, right)?;
        Ok((read, behind))
    }

    #[cycle(level)]
    #[tactic(auto, unfolding(crate::specs::Reader::implies))]
    fn implies(&self, level: u8, start: u32) -> Result<(Read, u32), Fail>
        requires nests { Nests self.now.room (F.pre self.now.nested) (F.post self.now.nested) }
        requires level { level < 16 }
        ensures { Reads (inside reader.implies self.now.view self.now.room (λ i. inside reader.levels self.now.view self.now.room self.now.quantifiers (15 - level) (suc level) i) self.now.quantifiers level start) result }
    {
        let (left, at) = self.level(level + 1, start)?;
        self.implied(level, start, left, at)
    }

    #[cycle(level)]
    #[tactic(auto, unfolding(crate::specs::Reader::chooses))]
    fn chooses(&self, level: u8, start: u32) -> Result<(Read, u32), Fail>
        requires nests { Nests self.now.room (F.pre self.now.nested) (F.post self.now.nested) }
        requires level { level < 16 }
        ensures { Reads (inside reader.chooses self.now.view self.now.room (λ i. inside reader.levels self.now.view self.now.room self.now.quantifiers (15 - level) (suc level) i) self.now.quantifiers start) result }
    {
        let (condition, at) = self.level(level + 1, start)?;
        self.chosen(start, condition, at)
    }

    #[cycle(level)]
    #[tactic(auto, unfolding(crate::specs::Reader::assigns))]
    fn assigns(&self, level: u8, start: u32) -> Result<(Read, u32), Fail>
        requires nests { Nests self.now.room (F.pre self.now.nested) (F.post self.now.nested) }
        requires level { level < 16 }
        ensures { Reads (inside reader.assigns self.now.view self.now.room (λ i. inside reader.levels self.now.view self.now.room self.now.quantifiers (15 - level) (suc level) i) self.now.quantifiers start) result }
    {
        let (target, at) = self.level(level + 1, start)?;
        self.assigned(start, target, at)
    }

    /// An expression of a level.
    #[cycle(level)]
    #[tactic(auto, unfolding(crate::specs::Reader::levels))]
    pub fn level(&self, level: u8, at: u32) -> Result<(Read, u32), Fail>
        requires nests { Nests self.now.room (F.pre self.now.nested) (F.post self.now.nested) }
        requires level { level ≤ 16 }
        ensures { Reads (inside reader.levels self.now.view self.now.room self.now.quantifiers (16 - level) level at) result }
    {
        if level >= PREFIX {
            return self.unary(at);
        }
        match grouping_of(level) {
            Grouping::Assigns => self.assigns(level, at),
            Grouping::Chooses => self.chooses(level, at),
            Grouping::Implies => self.implies(level, at),
            Grouping::Once => self.once(level, at),
            Grouping::ToTheLeft => self.to_the_left(level, at),
        }
    }
}
