//! What a source is read from.

ghost use Rattle.std.specs.Prelude.{◌≡◌, false, true, IsTrue, IfOk};
ghost use Rattle.jr_lexer.specs.Answers.{Answers as Reads};
ghost use Rattle.jr_reading.specs.Seen as spec;
ghost use Rattle.jr_reading.specs.Steps as common;
ghost use Rattle.jr_reading.specs.Within.{Within};

use jr_ast::{Name, TypeName};
use jr_base::{Fail, Memory, Refusal};
use jr_lexer::{Kind, Tokens};
use jr_reading::View;
use std::alloc::Global;

/// The tokens of a source, of which those of code are read but where annotations are named.
#[derive(Clone, Copy)]
pub struct UnitReader<'a> {
    pub alloc: Global,
    pub tokens: &'a Tokens,
}

impl<'a> UnitReader<'a> {
    /// The kind of the token of an annotation at an index, `End` where none stands there.
    pub fn seen_in_annotation(&self, at: u32) -> Kind
        ensures { result ≡ spec.seen true self.now.tokens.now at }
    {
        let view = View {
            tokens: self.tokens,
            jml: true,
        };
        view.seen(at)
    }

    /// The kind of the token of code at an index, `End` where none stands there.
    pub fn seen(&self, at: u32) -> Kind
        ensures value { result ≡ spec.seen false self.now.tokens.now at }
        ensures within { Within result at }
    {
        let view = View {
            tokens: self.tokens,
            jml: false,
        };
        view.seen(at)
    }

    /// Whether a token of code of the kind stands at an index.
    pub fn sees(&self, at: u32, kind: Kind) -> bool
        ensures value { result ≡ common.sees false self.now.tokens.now at kind }
        ensures within { IsTrue result → Within kind at }
    {
        let view = View {
            tokens: self.tokens,
            jml: false,
        };
        view.sees(at, kind)
    }

    /// The name at an index.
    pub fn name(&self, at: u32) -> Result<Name, Memory>
        ensures { IfOk result (λ name. name ≡ spec.name_at self.now.tokens.now at) }
    {
        let view = View {
            tokens: self.tokens,
            jml: false,
        };
        view.name(self.alloc, at)
    }

    /// A type (JLS 4.1, 10.1), and the index behind it.
    pub fn type_name(&self, at: u32) -> Result<(TypeName, u32), Fail>
        ensures { Reads (common.type_name false self.now.tokens.now at) result }
    {
        let view = View {
            tokens: self.tokens,
            jml: false,
        };
        view.type_name(self.alloc, at)
    }

    /// Why nothing is read that goes on with the token at an index.
    pub fn refusal(&self, at: u32) -> Refusal
        ensures { result ≡ common.refusal_at self.now.tokens.now at }
    {
        let view = View {
            tokens: self.tokens,
            jml: false,
        };
        view.refusal(at)
    }

    /// A token of code of that kind, or the refusal of the one that stands there.
    pub fn expect(&self, at: u32, kind: Kind) -> Result<(), Fail>
        ensures value { Reads (common.expect false self.now.tokens.now at kind) result }
        ensures within { IfOk result (λ _. Within kind at) }
    {
        let view = View {
            tokens: self.tokens,
            jml: false,
        };
        view.expect(at, kind)
    }
}
