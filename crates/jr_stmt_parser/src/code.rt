//! The tokens of code that the reader sees.

ghost use Rattle.std.specs.Prelude.{◌≡◌, ◌<◌, ◌+◌, ◌↔◌, false, IsTrue};
ghost use Rattle.jr_reading.specs.Seen.{seen};
ghost use Rattle.jr_stmt_parser.specs.Gives.{Passes, Gives, Blames};
ghost use Rattle.jr_stmt_parser.specs.Pieces.{Closes, Token, Named, Typed};

use jr_ast::{Name, TypeName};
use jr_base::{Fail, Refusal};
use jr_lexer::{Kind, Tokens};
use jr_reading::View;
use std::alloc::Global;

/// The tokens of code, and how many constructs are above what is read from them.
#[derive(Clone, Copy)]
pub struct Code<'a> {
    pub alloc: Global,
    pub tokens: &'a Tokens,
    pub depth: u8,
}

impl<'a> Code<'a> {
    /// The kind of the token at an index, `End` where none of code stands there.
    pub fn seen(&self, at: u32) -> Kind
        ensures { result ≡ seen false self.now.tokens.now at }
    {
        let view = View {
            tokens: self.tokens,
            jml: false,
        };
        view.seen(at)
    }

    pub fn sees(&self, at: u32, kind: Kind) -> bool
        ensures { IsTrue result ↔ (seen false self.now.tokens.now at ≡ kind) }
    {
        same_kind(self.seen(at), kind)
    }

    /// Whether a block has no more statements there.
    pub fn closes(&self, at: u32) -> bool
        ensures { IsTrue result ↔ Closes self.now.tokens.now at }
    {
        at >= self.tokens.len() || self.sees(at, Kind::CloseBrace)
    }

    /// Why the tokens don't go on with the one at an index.
    #[tactic(auto, using(crate::proofs::Begins::blames))]
    pub fn refusal(&self, at: u32) -> Refusal
        ensures { Blames self.now.tokens.now at result }
    {
        let view = View {
            tokens: self.tokens,
            jml: false,
        };
        view.refusal(at)
    }

    /// The index behind a token of that kind.
    pub fn expect(&self, at: u32, kind: Kind) -> Result<u32, Fail>
        ensures { Passes self.now.tokens.now self.now.depth (Token self.now.tokens.now kind) at result }
    {
        if at < self.tokens.len() && self.sees(at, kind) {
            Ok(at + 1)
        } else {
            Err(Fail::Refused(self.refusal(at)))
        }
    }

    pub fn name(&self, at: u32) -> Result<(Name, u32), Fail>
        ensures { Gives (λ x. x) self.now.tokens.now self.now.depth (Named self.now.tokens.now) at result }
    {
        let next = self.expect(at, Kind::Name)?;
        let name = Name::new(self.alloc, self.tokens.text(at), self.tokens.span(at))?;
        Ok((name, next))
    }

    /// A type (JLS 4.1, 10.1).
    #[tactic(auto, using(crate::proofs::Types::type_gives))]
    pub fn type_name(&self, at: u32) -> Result<(TypeName, u32), Fail>
        ensures { Gives (λ t. t) self.now.tokens.now self.now.depth (Typed self.now.tokens.now) at result }
    {
        let view = View {
            tokens: self.tokens,
            jml: false,
        };
        view.type_name(self.alloc, at)
    }
}

fn same_kind(a: Kind, b: Kind) -> bool
    ensures { IsTrue result ↔ (a ≡ b) }
{
    a == b
}
