//! The forms of statements that hold no others.

ghost use Rattle.std.specs.Prelude.{◌≡◌, ◌<◌, ◌≤◌, ◌+◌, ◌-◌, ◌↔◌, false, IsTrue};
ghost use Rattle.jr_ast.specs.Statements.{view_form};
ghost use Rattle.jr_lexer.specs.Reading.{span_at, text_at};
ghost use Rattle.jr_base.specs.declared.refusal.Fail.TheVariants as fails;
ghost use Rattle.jr_base.specs.declared.refusal.Refusal.TheVariants as refusals;
ghost use Rattle.jr_lexer.specs.declared.kind.Kind.TheVariants as k;
ghost use Rattle.jr_reading.specs.Limits.{nesting_limit};
ghost use Rattle.jr_reading.specs.Seen.{seen};
ghost use Rattle.jr_stmt_parser.specs.Grammar.{BeginsPrint, Label};
ghost use Rattle.jr_stmt_parser.specs.Gives.{Gives, Passes};
ghost use Rattle.jr_stmt_parser.specs.Pieces as pieces;

use crate::code::Code;
use jr_ast::{Form, Name};
use jr_base::{Fail, Refusal};
use jr_jml_parser::parse_assert;
use jr_lexer::Kind;

/// The most parts of a print.
const MAX_PARTS: usize = 8;

impl<'a> Code<'a> {
    /// `;` (JLS 14.6).
    pub fn empty(&self, at: u32) -> Result<(Form, u32), Fail>
        ensures { Gives (λ f. view_form f (span_at self.now.tokens.now at)) self.now.tokens.now self.now.depth (pieces.Empties self.now.tokens.now self.now.depth at) at result }
    {
        let next = self.expect(at, Kind::Semicolon)?;
        Ok((Form::Empty, next))
    }

    /// Declared variables (JLS 14.4).
    pub fn declaration(&self, at: u32) -> Result<(Form, u32), Fail>
        ensures { Gives (λ f. view_form f (span_at self.now.tokens.now at)) self.now.tokens.now self.now.depth (pieces.Declarations self.now.tokens.now self.now.depth at) at result }
    {
        let (locals, next) = self.locals(at)?;
        let behind = self.expect(next, Kind::Semicolon)?;
        Ok((Form::Locals(locals), behind))
    }

    /// Declared variables that are `final`, which has no effect here.
    pub fn final_declaration(&self, at: u32) -> Result<(Form, u32), Fail>
        ensures { Gives (λ f. view_form f (span_at self.now.tokens.now at)) self.now.tokens.now self.now.depth (pieces.Finals self.now.tokens.now self.now.depth at) at result }
    {
        let start = self.expect(at, Kind::Final)?;
        let (locals, next) = self.locals(start)?;
        let behind = self.expect(next, Kind::Semicolon)?;
        Ok((Form::Locals(locals), behind))
    }

    /// An expression that is evaluated for its effect (JLS 14.8).
    pub fn evaluation(&self, at: u32) -> Result<(Form, u32), Fail>
        requires { pieces.Fronts self.now.tokens.now at }
        ensures { Gives (λ f. view_form f (span_at self.now.tokens.now at)) self.now.tokens.now self.now.depth (pieces.Evaluations self.now.tokens.now self.now.depth at) at result }
    {
        let (value, next) = self.effect(at)?;
        let behind = self.expect(next, Kind::Semicolon)?;
        Ok((Form::Expression(value), behind))
    }

    /// JLS 14.17.
    pub fn returns(&self, at: u32) -> Result<(Form, u32), Fail>
        ensures { Gives (λ f. view_form f (span_at self.now.tokens.now at)) self.now.tokens.now self.now.depth (pieces.Returns self.now.tokens.now self.now.depth at) at result }
    {
        let start = self.expect(at, Kind::Return)?;
        let (value, next) = self.optional(start)?;
        let behind = self.expect(next, Kind::Semicolon)?;
        Ok((Form::Return(value), behind))
    }

    /// JLS 14.15.
    pub fn breaks(&self, at: u32) -> Result<(Form, u32), Fail>
        ensures { Gives (λ f. view_form f (span_at self.now.tokens.now at)) self.now.tokens.now self.now.depth (pieces.Breaks self.now.tokens.now self.now.depth at) at result }
    {
        let next = self.expect(at, Kind::Break)?;
        let behind = self.expect(next, Kind::Semicolon)?;
        Ok((Form::Break, behind))
    }

    /// JLS 14.16.
    pub fn continues(&self, at: u32) -> Result<(Form, u32), Fail>
        ensures { Gives (λ f. view_form f (span_at self.now.tokens.now at)) self.now.tokens.now self.now.depth (pieces.Continues self.now.tokens.now self.now.depth at) at result }
    {
        let next = self.expect(at, Kind::Continue)?;
        let behind = self.expect(next, Kind::Semicolon)?;
        Ok((Form::Continue, behind))
    }

    /// What stands behind `throw new`.
    fn made(&self, at: u32) -> Result<(Name, u32), Fail>
        ensures { Gives (λ x. x) self.now.tokens.now self.now.depth (pieces.Made self.now.tokens.now self.now.depth) at result }
    {
        let (class, next) = self.name(at)?;
        let inside = self.expect(next, Kind::OpenParen)?;
        if self.sees(inside, Kind::Text) {
            let close = self.expect(inside, Kind::Text)?;
            let end = self.expect(close, Kind::CloseParen)?;
            return Ok((class, end));
        }
        let behind = self.expect(inside, Kind::CloseParen)?;
        Ok((class, behind))
    }

    /// JLS 14.18.
    pub fn throws(&self, at: u32) -> Result<(Form, u32), Fail>
        ensures { Gives (λ f. view_form f (span_at self.now.tokens.now at)) self.now.tokens.now self.now.depth (pieces.Throws self.now.tokens.now self.now.depth at) at result }
    {
        let start = self.expect(at, Kind::Throw)?;
        if self.sees(start, Kind::New) {
            let inside = self.expect(start, Kind::New)?;
            let (class, next) = self.made(inside)?;
            let end = self.expect(next, Kind::Semicolon)?;
            return Ok((Form::ThrowNew(class), end));
        }
        let (variable, close) = self.name(start)?;
        let behind = self.expect(close, Kind::Semicolon)?;
        Ok((Form::ThrowVariable(variable), behind))
    }

    /// `assert` of JML (JML Reference Manual, "Assert Statements").
    pub fn asserts(&self, at: u32) -> Result<(Form, u32), Fail>
        requires above { 0 < self.now.depth }
        requires depth { self.now.depth ≤ nesting_limit + 1 }
        ensures { Gives (λ f. view_form f (span_at self.now.tokens.now at)) self.now.tokens.now self.now.depth (pieces.Asserts self.now.tokens.now self.now.depth at) at result }
    {
        let (condition, behind) = parse_assert(self.alloc, self.tokens, at, self.depth - 1)?;
        Ok((Form::Assert(condition), behind))
    }

    fn names(&self, at: u32, text: &[u8]) -> bool
        ensures { IsTrue result ↔ ((seen false self.now.tokens.now at ≡ k.Name) × (text_at self.now.tokens.now at ≡ text.now)) }
    {
        self.sees(at, Kind::Name) && self.tokens.text(at) == text
    }

    /// Whether the tokens there are `System . out . println (`.
    pub fn begins_print(&self, at: u32) -> bool
        ensures value { IsTrue result ↔ BeginsPrint self.now.tokens.now at }
        ensures within { IsTrue result → at < 1048576 }
    {
        at < self.tokens.len()
            && self.names(at, b"System")
            && self.sees(at + 1, Kind::Dot)
            && self.names(at + 2, b"out")
            && self.sees(at + 3, Kind::Dot)
            && self.names(at + 4, b"println")
            && self.sees(at + 5, Kind::OpenParen)
    }

    /// The index behind `System . out . println (`.
    fn opened(&self, at: u32) -> Result<u32, Fail>
        ensures { Passes self.now.tokens.now self.now.depth (pieces.Opened self.now.tokens.now self.now.depth) at result }
    {
        if self.begins_print(at) {
            return Ok(at + 6);
        }
        Err(Fail::Refused(self.refusal(at)))
    }

    /// `System.out.println(..);`.
    pub fn print(&self, at: u32) -> Result<(Form, u32), Fail>
        ensures { Gives (λ f. view_form f (span_at self.now.tokens.now at)) self.now.tokens.now self.now.depth (pieces.Prints self.now.tokens.now self.now.depth at) at result }
    {
        let start = self.opened(at)?;
        let (parts, next) = self.parts(start)?;
        if parts.len() > MAX_PARTS {
            return Err(Fail::Refused(self.refusal(next)));
        }
        let close = self.expect(next, Kind::CloseParen)?;
        let behind = self.expect(close, Kind::Semicolon)?;
        Ok((Form::Print(parts), behind))
    }

    /// Whether the label `commit` stands there (JLS 14.7).
    pub fn is_label(&self, at: u32) -> bool
        ensures value { IsTrue result ↔ Label self.now.tokens.now at }
        ensures within { IsTrue result → at < 1048576 }
    {
        at < self.tokens.len() && self.names(at, b"commit") && self.sees(at + 1, Kind::Colon)
    }

    /// Whether a colon stands behind the token there.
    pub fn colon_behind(&self, at: u32) -> bool
        ensures { IsTrue result ↔ (seen false self.now.tokens.now (at + 1) ≡ k.Colon) }
    {
        if at >= self.tokens.len() {
            return false;
        }
        self.sees(at + 1, Kind::Colon)
    }

    /// Why a label that isn't `commit` is refused.
    pub fn other_label(&self, at: u32) -> Fail
        ensures { result ≡ fails.Refused (refusals.NotInProfile (span_at self.now.tokens.now at)) }
    {
        Fail::Refused(Refusal::NotInProfile(self.tokens.span(at)))
    }

    /// The index behind the label `commit`.
    pub fn label(&self, at: u32) -> Result<u32, Fail>
        ensures { Passes self.now.tokens.now self.now.depth (pieces.Labelled self.now.tokens.now self.now.depth) at result }
    {
        if self.is_label(at) {
            return Ok(at + 2);
        }
        Err(Fail::Refused(self.refusal(at)))
    }
}
