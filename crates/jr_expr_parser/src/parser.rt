//! Primaries and what follows them. What stands inside one construct is read by a function that the parser
//! is given, so a construct is opened only where one more may be.

ghost use Rattle.std.specs.Prelude.{◌≡◌, ◌≤◌, ◌<◌, ◌≢◌, ◌-◌, ℕ, length, [], IfOk, IsTrue};
ghost use Rattle.jr_lexer.specs.Reading.{span_at};
ghost use Rattle.jr_expr_parser.specs.Nesting.{nesting};
ghost use Rattle.jr_expr_parser.specs.Reader as reader;
ghost use Rattle.jr_reading.specs.Within.{Within};
ghost use Rattle.jr_expr_parser.specs.Nests.{Nests, Reads, ReadsPrimary, ReadsList, inside, view_read, view_primary};

use crate::listing::Listing;
use crate::primary::Primary;
use crate::read::Read;
use crate::{nodes, signs};
use jr_ast::{Quantifier, Shape};
use jr_base::{Fail, Refusal};
use jr_lexer::{Kind, Tokens};
use jr_reading::View;
use std::alloc::Global;

/// The level of any expression.
pub const ANY: u8 = 1;
/// The level of the operands of `&&`.
const CONJUNCT: u8 = 8;
/// The level of a quantifier's bounds.
const BOUND: u8 = 13;

/// A reader at one depth: how many constructs may still be open in what it opens, and how many quantifiers.
#[derive(Clone, Copy)]
pub struct Parser<'a, F> {
    pub alloc: Global,
    pub view: View<'a>,
    pub room: u8,
    pub quantifiers: u8,
    pub nested: F,
}

impl<'a, F: Fn(Global, &Tokens, bool, u8, u8, u8, u32) -> Result<(Read, u32), Fail>> Parser<'a, F> {
    #[tactic(auto, using(crate::proofs::Shallow::shallow))]
    pub fn nested(&self, quantifiers: u8, level: u8, at: u32) -> Result<(Read, u32), Fail>
        requires nests { Nests self.now.room (F.pre self.now.nested) (F.post self.now.nested) }
        requires level { level ≤ 16 }
        ensures value { Reads (reader.nested self.now.view.jml self.now.view.tokens.now self.now.room quantifiers level at) result }
        ensures shallow { IfOk result (λ r. nesting (view_read r.0) < self.now.room) }
    {
        let view = self.view;
        (self.nested)(
            self.alloc,
            view.tokens,
            view.jml,
            self.room,
            quantifiers,
            level,
            at,
        )
    }

    /// An expression up to a closing token.
    #[tactic(auto, unfolding(crate::specs::Reader::enclosed))]
    fn enclosed(&self, quantifiers: u8, close: Kind, at: u32) -> Result<(Read, u32), Fail>
        requires nests { Nests self.now.room (F.pre self.now.nested) (F.post self.now.nested) }
        requires close { (at : ℕ) → Within close at → at < 1048576 }
        ensures value { Reads (inside reader.enclosed self.now.view self.now.room quantifiers close at) result }
        ensures shallow { IfOk result (λ r. nesting (view_read r.0) < self.now.room) }
    {
        let (read, at) = self.nested(quantifiers, ANY, at)?;
        self.view.expect(at, close)?;
        Ok((read, at + 1))
    }

    /// One expression or more, with commas between.
    #[tactic(auto, using(jr_reading::proofs::Turns::turn_left, jr_reading::proofs::Turns::no_turn_left), unfolding(jr_reading::specs::Steps::listed))]
    fn listed(&self, start: u32) -> Result<(Listing, u32), Fail>
        requires nests { Nests self.now.room (F.pre self.now.nested) (F.post self.now.nested) }
        ensures { ReadsList (inside reader.expressions self.now.view self.now.room self.now.quantifiers (length self.now.view.tokens.now) [] start) result }
    {
        let mut at = start;
        let mut list = nodes::no_expr(self.alloc);
        for _turn in 0..self.view.tokens.len() {
            let (read, behind) = self.nested(self.quantifiers, ANY, at)?;
            list = nodes::and_expr(list, read)?;
            if !self.view.sees(behind, Kind::Comma) {
                return Ok((list, behind));
            }
            at = behind + 1;
        }
        Err(Fail::Refused(self.view.refusal(at)))
    }

    /// What stands behind the opening bracket of a call, up to behind the closing one.
    #[tactic(auto, unfolding(crate::specs::Reader::arguments))]
    fn arguments(&self, at: u32) -> Result<(Listing, u32), Fail>
        requires nests { Nests self.now.room (F.pre self.now.nested) (F.post self.now.nested) }
        ensures { ReadsList (inside reader.arguments self.now.view self.now.room self.now.quantifiers at) result }
    {
        if self.view.sees(at, Kind::CloseParen) {
            return Ok((nodes::no_expr(self.alloc), at + 1));
        }
        let (list, at) = self.listed(at)?;
        self.view.expect(at, Kind::CloseParen)?;
        Ok((list, at + 1))
    }

    /// What the range of a quantifier asks besides its bounds.
    #[tactic(auto, using(jr_reading::proofs::Turns::turn_left, jr_reading::proofs::Turns::no_turn_left), unfolding(crate::specs::Reader::conjuncts))]
    fn conjuncts(&self, quantifiers: u8, start: u32) -> Result<(Listing, u32), Fail>
        requires nests { Nests self.now.room (F.pre self.now.nested) (F.post self.now.nested) }
        ensures { ReadsList (inside reader.conjuncts self.now.view self.now.room quantifiers (length self.now.view.tokens.now) [] start) result }
    {
        let mut at = start;
        let mut list = nodes::no_expr(self.alloc);
        for _turn in 0..self.view.tokens.len() {
            if !self.view.sees(at, Kind::AndAnd) {
                return Ok((list, at));
            }
            let (read, behind) = self.nested(quantifiers, CONJUNCT, at + 1)?;
            list = nodes::and_expr(list, read)?;
            at = behind;
        }
        Ok((list, at))
    }

    #[tactic(auto, unfolding(crate::specs::Reader::bracketed))]
    fn bracketed(&self, at: u32) -> Result<(Primary, u32), Fail>
        requires nests { Nests self.now.room (F.pre self.now.nested) (F.post self.now.nested) }
        requires within { at < 1048576 }
        ensures { ReadsPrimary (inside reader.bracketed self.now.view self.now.room self.now.quantifiers at) result }
    {
        let (inner, behind) = self.enclosed(self.quantifiers, Kind::CloseParen, at + 1)?;
        Ok((
            nodes::bracketed(self.alloc, self.view.span(at), inner),
            behind,
        ))
    }

    /// A quantifier, in which so many more may nest.
    #[tactic(auto, unfolding(crate::specs::Reader::quantified_in))]
    fn quantified_in(
        &self,
        quantifiers: u8,
        quantifier: Quantifier,
        at: u32,
    ) -> Result<(Primary, u32), Fail>
        requires nests { Nests self.now.room (F.pre self.now.nested) (F.post self.now.nested) }
        requires within { at < 1048576 }
        ensures { ReadsPrimary (inside reader.quantified_in self.now.view self.now.room quantifiers quantifier at) result }
    {
        self.view.expect(at + 2, Kind::Int)?;
        self.view.expect(at + 3, Kind::Name)?;
        self.view.expect(at + 4, Kind::Semicolon)?;
        let (low, behind) = self.nested(quantifiers, BOUND, at + 5)?;
        let (bounds, behind) = signs::between(&self.view, at + 3, behind)?;
        let (high, behind) = self.nested(quantifiers, BOUND, behind)?;
        let (conjuncts, behind) = self.conjuncts(quantifiers, behind)?;
        self.view.expect(behind, Kind::Semicolon)?;
        let (body, behind) = self.enclosed(quantifiers, Kind::CloseParen, behind + 1)?;
        let parts = nodes::Quantification {
            quantifier,
            variable: self.view.name(self.alloc, at + 3)?,
            low,
            bounds,
            high,
            conjuncts,
            body,
        };
        let whole = nodes::quantified(self.alloc, self.view.span(at), parts)?;
        Ok((whole, behind))
    }

    #[tactic(auto, using(crate::proofs::Unrolled::no_quantifier, crate::proofs::Unrolled::a_quantifier))]
    fn quantified(&self, quantifier: Quantifier, at: u32) -> Result<(Primary, u32), Fail>
        requires nests { Nests self.now.room (F.pre self.now.nested) (F.post self.now.nested) }
        requires within { at < 1048576 }
        ensures { ReadsPrimary (inside reader.quantified self.now.view self.now.room self.now.quantifiers quantifier at) result }
    {
        if self.quantifiers == 0 {
            return Err(Fail::Refused(self.view.refusal(at + 1)));
        }
        self.quantified_in(self.quantifiers - 1, quantifier, at)
    }

    /// Brackets, or a quantifier in some.
    #[tactic(auto, unfolding(crate::specs::Reader::opened))]
    fn opened(&self, at: u32) -> Result<(Primary, u32), Fail>
        requires nests { Nests self.now.room (F.pre self.now.nested) (F.post self.now.nested) }
        requires within { at < 1048576 }
        ensures { ReadsPrimary (inside reader.opened self.now.view self.now.room self.now.quantifiers at) result }
    {
        match signs::quantifier(&self.view, at + 1) {
            None => self.bracketed(at),
            Some(quantifier) => self.quantified(quantifier, at),
        }
    }

    #[tactic(auto, unfolding(crate::specs::Reader::called))]
    fn called(&self, at: u32) -> Result<(Primary, u32), Fail>
        requires nests { Nests self.now.room (F.pre self.now.nested) (F.post self.now.nested) }
        requires within { at < 1048576 }
        ensures { ReadsPrimary (inside reader.called self.now.view self.now.room self.now.quantifiers at) result }
    {
        let (arguments, behind) = self.arguments(at + 2)?;
        let name = self.view.name(self.alloc, at)?;
        Ok((
            nodes::call(self.alloc, self.view.span(at), name, arguments),
            behind,
        ))
    }

    /// What begins with a name.
    #[tactic(auto, unfolding(crate::specs::Reader::named))]
    fn named(&self, at: u32) -> Result<(Primary, u32), Fail>
        requires nests { Nests self.now.room (F.pre self.now.nested) (F.post self.now.nested) }
        requires within { at < 1048576 }
        ensures { ReadsPrimary (inside reader.named self.now.view self.now.room self.now.quantifiers at) result }
    {
        if signs::is_call(&self.view, at + 1) {
            return self.called(at);
        }
        let name = self.view.name(self.alloc, at)?;
        let place = self.view.span(at);
        if signs::is_class(&self.view, at + 1) {
            return Ok((
                nodes::leaf(self.alloc, place, Shape::ClassLiteral(name)),
                at + 3,
            ));
        }
        Ok((
            nodes::leaf(self.alloc, place, Shape::SimpleName(name)),
            at + 1,
        ))
    }

    #[tactic(auto, unfolding(crate::specs::Reader::new_object))]
    fn new_object(&self, at: u32) -> Result<(Primary, u32), Fail>
        requires nests { Nests self.now.room (F.pre self.now.nested) (F.post self.now.nested) }
        requires within { at < 1048576 }
        ensures { ReadsPrimary (inside reader.new_object self.now.view self.now.room self.now.quantifiers at) result }
    {
        self.view.expect(at + 1, Kind::Name)?;
        let (arguments, behind) = self.arguments(at + 3)?;
        let name = self.view.name(self.alloc, at + 1)?;
        Ok((
            nodes::new_object(self.alloc, self.view.span(at), name, arguments),
            behind,
        ))
    }

    #[tactic(auto, unfolding(crate::specs::Reader::new_array))]
    fn new_array(&self, at: u32) -> Result<(Primary, u32), Fail>
        requires nests { Nests self.now.room (F.pre self.now.nested) (F.post self.now.nested) }
        requires within { at < 1048576 }
        ensures { ReadsPrimary (inside reader.new_array self.now.view self.now.room self.now.quantifiers at) result }
    {
        let element = self.view.element(self.alloc, at + 1)?;
        self.view.expect(at + 2, Kind::OpenBracket)?;
        let (size, behind) = self.enclosed(self.quantifiers, Kind::CloseBracket, at + 3)?;
        Ok((
            nodes::new_array(self.alloc, self.view.span(at), element, size),
            behind,
        ))
    }

    /// What begins with `new`.
    #[tactic(auto, unfolding(crate::specs::Reader::made))]
    fn made(&self, at: u32) -> Result<(Primary, u32), Fail>
        requires nests { Nests self.now.room (F.pre self.now.nested) (F.post self.now.nested) }
        requires within { at < 1048576 }
        ensures { ReadsPrimary (inside reader.made self.now.view self.now.room self.now.quantifiers at) result }
    {
        if self.view.jml {
            return Err(Fail::Refused(self.view.refusal(at)));
        }
        if self.view.sees(at + 2, Kind::OpenParen) {
            self.new_object(at)
        } else {
            self.new_array(at)
        }
    }

    #[tactic(auto, unfolding(crate::specs::Reader::old))]
    fn old(&self, at: u32) -> Result<(Primary, u32), Fail>
        requires nests { Nests self.now.room (F.pre self.now.nested) (F.post self.now.nested) }
        requires within { at < 1048576 }
        ensures { ReadsPrimary (inside reader.old self.now.view self.now.room self.now.quantifiers at) result }
    {
        if !self.view.jml {
            return Err(Fail::Refused(self.view.refusal(at)));
        }
        self.view.expect(at + 1, Kind::OpenParen)?;
        let (inner, behind) = self.enclosed(self.quantifiers, Kind::CloseParen, at + 2)?;
        Ok((nodes::old(self.alloc, self.view.span(at), inner), behind))
    }

    #[tactic(auto, unfolding(crate::specs::Reader::lockset_has))]
    fn lockset_has(&self, at: u32) -> Result<(Primary, u32), Fail>
        requires nests { Nests self.now.room (F.pre self.now.nested) (F.post self.now.nested) }
        requires within { at < 1048576 }
        ensures { ReadsPrimary (inside reader.lockset_has self.now.view self.now.room self.now.quantifiers at) result }
    {
        signs::has(&self.view, at + 1)?;
        let (inner, behind) = self.enclosed(self.quantifiers, Kind::CloseParen, at + 4)?;
        Ok((
            nodes::in_lockset(self.alloc, self.view.span(at), inner),
            behind,
        ))
    }

    #[tactic(auto, unfolding(crate::specs::Reader::lockset))]
    fn lockset(&self, at: u32) -> Result<(Primary, u32), Fail>
        requires nests { Nests self.now.room (F.pre self.now.nested) (F.post self.now.nested) }
        requires within { at < 1048576 }
        ensures { ReadsPrimary (inside reader.lockset self.now.view self.now.room self.now.quantifiers at) result }
    {
        if !self.view.jml {
            return Err(Fail::Refused(self.view.refusal(at)));
        }
        if !self.view.sees(at + 1, Kind::OpenBracket) {
            return self.lockset_has(at);
        }
        let (inner, behind) = self.enclosed(self.quantifiers, Kind::CloseBracket, at + 2)?;
        Ok((
            nodes::in_lockset(self.alloc, self.view.span(at), inner),
            behind,
        ))
    }

    #[tactic(auto, unfolding(crate::specs::Reader::integer))]
    fn integer(&self, at: u32) -> Result<(Primary, u32), Fail>
        requires within { at < 1048576 }
        ensures { ReadsPrimary (reader.integer self.now.view.jml self.now.view.tokens.now at) result }
    {
        let literal = self.view.literal(at);
        let big = self.view.big(at);
        let place = self.view.span(at);
        if literal.number < big {
            return Ok((
                nodes::leaf(self.alloc, place, Shape::Integer(literal)),
                at + 1,
            ));
        }
        if literal.number == big {
            return Err(Fail::Refused(Refusal::BigLiteral(place)));
        }
        Err(Fail::Refused(self.view.refusal(at)))
    }

    #[tactic(auto, unfolding(crate::specs::Reader::result_word))]
    fn result_word(&self, at: u32) -> Result<(Primary, u32), Fail>
        requires within { at < 1048576 }
        ensures { ReadsPrimary (reader.result_word self.now.view.jml self.now.view.tokens.now at) result }
    {
        if !self.view.jml {
            return Err(Fail::Refused(self.view.refusal(at)));
        }
        Ok((
            nodes::leaf(self.alloc, self.view.span(at), Shape::Result),
            at + 1,
        ))
    }

    #[tactic(auto, unfolding(crate::specs::Reader::primary))]
    fn primary(&self, at: u32) -> Result<(Primary, u32), Fail>
        requires nests { Nests self.now.room (F.pre self.now.nested) (F.post self.now.nested) }
        ensures { ReadsPrimary (inside reader.primary self.now.view self.now.room self.now.quantifiers at) result }
    {
        let place = self.view.span(at);
        match self.view.seen(at) {
            Kind::Null => Ok((nodes::leaf(self.alloc, place, Shape::Null), at + 1)),
            Kind::True => Ok((nodes::leaf(self.alloc, place, Shape::Boolean(true)), at + 1)),
            Kind::False => Ok((
                nodes::leaf(self.alloc, place, Shape::Boolean(false)),
                at + 1,
            )),
            Kind::Integer => self.integer(at),
            Kind::This => Ok((nodes::leaf(self.alloc, place, Shape::This), at + 1)),
            Kind::Name => self.named(at),
            Kind::OpenParen => self.opened(at),
            Kind::New => self.made(at),
            Kind::BackslashResult => self.result_word(at),
            Kind::BackslashOld => self.old(at),
            Kind::BackslashLockset => self.lockset(at),
            _ => Err(Fail::Refused(self.view.refusal(at))),
        }
    }

    /// Whether a suffix stands there.
    #[tactic(auto, unfolding(crate::specs::Reader::goes_on))]
    fn goes_on(&self, primary: &Primary, at: u32) -> bool
        ensures value { result ≡ reader.goes_on self.now.view.jml self.now.view.tokens.now (view_primary primary.now) at }
        ensures within { IsTrue result → at < 1048576 }
    {
        match self.view.seen(at) {
            Kind::Dot => true,
            Kind::OpenBracket => !primary.new_array,
            _ => false,
        }
    }

    #[tactic(auto, unfolding(crate::specs::Reader::invoked))]
    fn invoked(&self, primary: Primary, at: u32) -> Result<(Primary, u32), Fail>
        requires nests { Nests self.now.room (F.pre self.now.nested) (F.post self.now.nested) }
        requires within { at < 1048576 }
        ensures { ReadsPrimary (inside reader.invoked self.now.view self.now.room self.now.quantifiers (view_primary primary) at) result }
    {
        if signs::prints_string(&self.view, at) {
            return Err(Fail::Refused(Refusal::NotInProfile(self.view.span(at + 1))));
        }
        let (arguments, behind) = self.arguments(at + 3)?;
        let name = self.view.name(self.alloc, at + 1)?;
        let primary = nodes::invocation(primary, name, arguments, self.room)?;
        Ok((primary, behind))
    }

    #[tactic(auto, unfolding(crate::specs::Reader::indexed))]
    fn indexed(&self, primary: Primary, at: u32) -> Result<(Primary, u32), Fail>
        requires nests { Nests self.now.room (F.pre self.now.nested) (F.post self.now.nested) }
        requires within { at < 1048576 }
        ensures { ReadsPrimary (inside reader.indexed self.now.view self.now.room self.now.quantifiers (view_primary primary) at) result }
    {
        let (index, behind) = self.enclosed(self.quantifiers, Kind::CloseBracket, at + 1)?;
        let primary = nodes::index(primary, index, self.room)?;
        Ok((primary, behind))
    }

    /// A field or a method of a primary. What stands behind the dot is named where it is no name.
    #[tactic(auto, unfolding(crate::specs::Reader::member))]
    fn member(&self, primary: Primary, at: u32) -> Result<(Primary, u32), Fail>
        requires nests { Nests self.now.room (F.pre self.now.nested) (F.post self.now.nested) }
        requires within { at < 1048576 }
        ensures { ReadsPrimary (inside reader.member self.now.view self.now.room self.now.quantifiers (view_primary primary) at) result }
    {
        self.view.expect(at + 1, Kind::Name)?;
        if signs::is_call(&self.view, at + 2) {
            return self.invoked(primary, at);
        }
        let name = self.view.name(self.alloc, at + 1)?;
        Ok((nodes::field(primary, name)?, at + 2))
    }

    /// One suffix.
    #[tactic(auto, unfolding(crate::specs::Reader::suffix))]
    fn suffix(&self, primary: Primary, at: u32) -> Result<(Primary, u32), Fail>
        requires nests { Nests self.now.room (F.pre self.now.nested) (F.post self.now.nested) }
        requires within { at < 1048576 }
        ensures { ReadsPrimary (inside reader.suffix self.now.view self.now.room self.now.quantifiers (view_primary primary) at) result }
    {
        if self.view.sees(at, Kind::OpenBracket) {
            self.indexed(primary, at)
        } else {
            self.member(primary, at)
        }
    }

    /// A primary with what follows it.
    #[tactic(auto, using(jr_reading::proofs::Turns::turn_left, jr_reading::proofs::Turns::no_turn_left), unfolding(crate::specs::Reader::suffixed, crate::specs::Reader::trail))]
    pub fn suffixed(&self, start: u32) -> Result<(Read, u32), Fail>
        requires nests { Nests self.now.room (F.pre self.now.nested) (F.post self.now.nested) }
        ensures { Reads (inside reader.suffixed self.now.view self.now.room self.now.quantifiers start) result }
    {
        let (mut primary, mut at) = self.primary(start)?;
        for _turn in 0..self.view.tokens.len() {
            if !self.goes_on(&primary, at) {
                break;
            }
            (primary, at) = self.suffix(primary, at)?;
        }
        Ok((nodes::suffixed(self.alloc, primary)?, at))
    }
}
