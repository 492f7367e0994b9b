//! The tokens that a reader sees.

ghost use Rattle.std.specs.Prelude.{◌≡◌, ◌<◌, IsTrue, IfOk};
ghost use Rattle.jr_lexer.specs.Answers.{Answers as Finds};
ghost use Rattle.jr_lexer.specs.Reading.{big_at, span_at};
ghost use Rattle.jr_reading.specs.Seen as spec;
ghost use Rattle.jr_reading.specs.Steps as steps;
ghost use Rattle.jr_reading.specs.Within.{Within};

use crate::words::left_out;
use jr_ast::{IntegerLiteral, Name};
use jr_base::{Fail, Memory, Refusal, Span};
use jr_lexer::{Kind, Tokens, big_literal};
use std::alloc::Global;

/// The tokens of code, or those of annotations where `jml` is true. An index counts all tokens.
#[derive(Clone, Copy)]
pub struct View<'a> {
    pub tokens: &'a Tokens,
    pub jml: bool,
}

impl<'a> View<'a> {
    /// The kind of the token at an index, `End` where it is of the other sort or behind the last.
    #[tactic(auto, using(crate::proofs::Places::within_any), unfolding(crate::specs::Seen::seen))]
    pub fn seen(&self, at: u32) -> Kind
        ensures value { result ≡ spec.seen self.now.jml self.now.tokens.now at }
        ensures within { Within result at }
    {
        if at < self.tokens.len() && self.tokens.is_jml(at) == self.jml {
            self.tokens.kind(at)
        } else {
            Kind::End
        }
    }

    /// Whether a token of the kind is seen at an index.
    #[tactic(auto, unfolding(crate::specs::Steps::sees))]
    pub fn sees(&self, at: u32, kind: Kind) -> bool
        ensures value { result ≡ steps.sees self.now.jml self.now.tokens.now at kind }
        ensures within { IsTrue result → Within kind at }
    {
        same_kind(self.seen(at), kind)
    }

    /// The bytes of the source that the token at an index takes.
    pub fn span(&self, at: u32) -> Span
        ensures { result ≡ span_at self.now.tokens.now at }
    {
        self.tokens.span(at)
    }

    /// The integer literal at an index.
    pub fn literal(&self, at: u32) -> IntegerLiteral
        ensures { result ≡ spec.literal_at self.now.tokens.now at }
    {
        let number = self.tokens.number(at);
        IntegerLiteral {
            number: number.value,
            is_long: number.is_long,
        }
    }

    /// The big literal of the type of the one at an index.
    pub fn big(&self, at: u32) -> u64
        ensures { result ≡ big_at self.now.tokens.now at }
    {
        big_literal(self.tokens.number(at).is_long)
    }

    /// The name at an index.
    pub fn name(&self, alloc: Global, at: u32) -> Result<Name, Memory>
        ensures { IfOk result (λ name. name ≡ spec.name_at self.now.tokens.now at) }
    {
        Name::new(alloc, self.tokens.text(at), self.tokens.span(at))
    }

    /// Whether a word or sign that is left out stands at an index.
    fn is_left_out(&self, at: u32) -> bool
        ensures { result ≡ steps.is_left_out self.now.tokens.now at }
    {
        left_out(self.tokens.is_jml(at), self.tokens.kind(at))
    }

    /// The token at fault where nothing is read that goes on with the one at an index: what is left out behind a dot
    /// that stands there, else that one.
    #[tactic(auto, using(crate::proofs::Places::no_dot_past), unfolding(crate::specs::Steps::at_fault))]
    fn at_fault(&self, at: u32) -> u32
        ensures { result ≡ steps.at_fault self.now.tokens.now at }
    {
        if at >= self.tokens.len() {
            return at;
        }
        if same_kind(self.tokens.kind(at), Kind::Dot) && self.is_left_out(at + 1) {
            at + 1
        } else {
            at
        }
    }

    /// Why nothing is read that goes on with the token at an index: `NotInProfile` where a form begins there, or behind
    /// a dot there, that is left out, else `Syntax`.
    #[tactic(auto, unfolding(crate::specs::Steps::refusal_at))]
    pub fn refusal(&self, at: u32) -> Refusal
        ensures { result ≡ steps.refusal_at self.now.tokens.now at }
    {
        let fault = self.at_fault(at);
        let span = self.tokens.span(fault);
        if self.is_left_out(fault) {
            Refusal::NotInProfile(span)
        } else {
            Refusal::Syntax(span)
        }
    }

    /// A token of that kind, or the refusal of the one that stands there.
    #[tactic(auto, unfolding(crate::specs::Steps::expect))]
    pub fn expect(&self, at: u32, kind: Kind) -> Result<(), Fail>
        ensures value { Finds (steps.expect self.now.jml self.now.tokens.now at kind) result }
        ensures within { IfOk result (λ _. Within kind at) }
    {
        if self.sees(at, kind) {
            Ok(())
        } else {
            Err(Fail::Refused(self.refusal(at)))
        }
    }

    /// A token with that text, or the refusal of the one that stands there.
    #[tactic(auto, unfolding(crate::specs::Steps::expect_text))]
    pub fn expect_text(&self, at: u32, text: &[u8]) -> Result<(), Fail>
        ensures { Finds (steps.expect_text self.now.tokens.now at text.now) result }
    {
        if self.tokens.text(at) == text {
            Ok(())
        } else {
            Err(Fail::Refused(self.refusal(at)))
        }
    }
}

#[tactic(auto, unfolding(crate::specs::Steps::same_kind))]
fn same_kind(a: Kind, b: Kind) -> bool
    ensures { result ≡ steps.same_kind a b }
{
    a == b
}
