//! The forms of statements that hold others.

ghost use Rattle.std.specs.Prelude.{◌≡◌, ◌≤◌, ◌<◌, ◌+◌, ◌-◌, suc, true, false, map};
ghost use Rattle.jr_ast.specs.Statements.{view_catch, view_form, view_stmt};
ghost use Rattle.jr_lexer.specs.Reading.{span_at};
ghost use Rattle.jr_lexer.specs.declared.kind.Kind.TheVariants as k;
ghost use Rattle.jr_reading.specs.Limits.{nesting_limit};
ghost use Rattle.jr_reading.specs.Seen.{seen};
ghost use Rattle.jr_base.specs.declared.number.Span.{Span};
ghost use Rattle.jr_stmt_parser.specs.Grammar as grammar;
ghost use Rattle.jr_stmt_parser.specs.Nests.{Nests};
ghost use Rattle.jr_stmt_parser.specs.Labels.{Inside, Tried};
ghost use Rattle.jr_stmt_parser.specs.Gives.{BeginsBehind, Catching, GivesIn, GivesStatement, OpensIn};
ghost use Rattle.jr_stmt_parser.specs.Pieces.{MayBegin, opens};
ghost use Rattle.jr_stmt_parser.specs.Pieces as pieces;

use crate::code::Code;
use jr_ast::{Catch, ForLoop, Form, Stmt};
use jr_base::Fail;
use jr_lexer::{Kind, Tokens};
use sqlite_items::{Boxed, Items};
use std::alloc::Global;

/// A reader of what stands in a statement. The statements in it are read by a function that it is given, so
/// that each method is proved by itself.
#[derive(Clone, Copy)]
pub struct Reader<'a, F> {
    pub code: Code<'a>,
    pub inner: F,
}

impl<'a, F: Fn(Global, &Tokens, u32, u8) -> Result<(Stmt, u32), Fail>> Reader<'a, F> {
    /// A statement in a statement.
    fn inner(&self, at: u32) -> Result<(Stmt, u32), Fail>
        requires nests { Nests self.now.code.depth (F.pre self.now.inner) (F.post self.now.inner) }
        requires begins { MayBegin self.now.code.tokens.now at }
        ensures { GivesStatement view_stmt self.now.code.tokens.now (suc self.now.code.depth) (pieces.Inner self.now.code.tokens.now self.now.code.depth) at result }
    {
        if self.code.is_too_deep() {
            return Err(self.code.too_deep(at));
        }
        (self.inner)(self.code.alloc, self.code.tokens, at, self.code.depth)
    }

    /// A statement behind a token of the kind.
    fn inner_after(&self, at: u32, kind: Kind) -> Result<(Stmt, u32), Fail>
        requires nests { Nests self.now.code.depth (F.pre self.now.inner) (F.post self.now.inner) }
        requires opens { opens kind ≡ true }
        ensures { GivesIn (BeginsBehind kind self.now.code.tokens.now at) view_stmt self.now.code.tokens.now (self.now.code.depth) (pieces.After self.now.code.tokens.now kind (pieces.Inner self.now.code.tokens.now self.now.code.depth)) at result }
    {
        let next = self.code.expect(at, kind)?;
        self.inner(next)
    }

    /// The statements of a block, from behind its `{` on.
    fn statements(&self, start: u32) -> Result<(Items<Stmt>, u32), Fail>
        requires nests { Nests self.now.code.depth (F.pre self.now.inner) (F.post self.now.inner) }
        requires begins { MayBegin self.now.code.tokens.now start }
        ensures { GivesIn (λ o. Inside self.now.code.tokens.now o start) (map view_stmt) self.now.code.tokens.now (suc self.now.code.depth) (pieces.Statements self.now.code.tokens.now self.now.code.depth) start result }
    {
        let mut found = Items::new(self.code.alloc);
        let mut at = start;
        while !self.code.closes(at) {
            let (statement, behind) = self.inner(at)?;
            found.push(statement)?;
            at = behind;
        }
        Ok((found, at))
    }

    /// `{ .. }` (JLS 14.2).
    pub fn block(&self, at: u32) -> Result<(Items<Stmt>, u32), Fail>
        requires nests { Nests self.now.code.depth (F.pre self.now.inner) (F.post self.now.inner) }
        ensures { GivesIn (OpensIn self.now.code.tokens.now at) (map view_stmt) self.now.code.tokens.now (self.now.code.depth) (pieces.Block self.now.code.tokens.now self.now.code.depth) at result }
    {
        let start = self.code.expect(at, Kind::OpenBrace)?;
        let (statements, next) = self.statements(start)?;
        let behind = self.code.expect(next, Kind::CloseBrace)?;
        Ok((statements, behind))
    }

    /// What stands behind `catch`.
    fn handler(&self, at: u32) -> Result<(Catch, u32), Fail>
        requires nests { Nests self.now.code.depth (F.pre self.now.inner) (F.post self.now.inner) }
        ensures { GivesIn (Catching self.now.code.tokens.now at) view_catch self.now.code.tokens.now (self.now.code.depth) (pieces.Handler self.now.code.tokens.now self.now.code.depth) at result }
    {
        let open = self.code.expect(at, Kind::OpenParen)?;
        let (class, second) = self.code.name(open)?;
        let (variable, close) = self.code.name(second)?;
        let next = self.code.expect(close, Kind::CloseParen)?;
        let (body, behind) = self.block(next)?;
        let catch = Catch {
            class,
            variable,
            body,
        };
        Ok((catch, behind))
    }

    fn catches(&self, start: u32) -> Result<(Items<Catch>, u32), Fail>
        requires nests { Nests self.now.code.depth (F.pre self.now.inner) (F.post self.now.inner) }
        ensures { GivesIn (λ o. Tried self.now.code.tokens.now o start) (map view_catch) self.now.code.tokens.now (self.now.code.depth) (pieces.Catches self.now.code.tokens.now self.now.code.depth) start result }
    {
        let mut found = Items::new(self.code.alloc);
        let open = self.code.expect(start, Kind::Catch)?;
        let (first, mut at) = self.handler(open)?;
        found.push(first)?;
        while self.code.sees(at, Kind::Catch) {
            let next = self.code.expect(at, Kind::Catch)?;
            let (catch, behind) = self.handler(next)?;
            found.push(catch)?;
            at = behind;
        }
        Ok((found, at))
    }

    fn blocks(&self, at: u32) -> Result<(Form, u32), Fail>
        requires nests { Nests self.now.code.depth (F.pre self.now.inner) (F.post self.now.inner) }
        ensures { GivesStatement (λ f. view_form f (span_at self.now.code.tokens.now at)) self.now.code.tokens.now (self.now.code.depth) (pieces.Blocks self.now.code.tokens.now self.now.code.depth at) at result }
    {
        let (statements, next) = self.block(at)?;
        Ok((Form::Block(statements), next))
    }

    /// JLS 14.9.
    fn ifs(&self, at: u32) -> Result<(Form, u32), Fail>
        requires nests { Nests self.now.code.depth (F.pre self.now.inner) (F.post self.now.inner) }
        ensures { GivesStatement (λ f. view_form f (span_at self.now.code.tokens.now at)) self.now.code.tokens.now (self.now.code.depth) (pieces.Ifs self.now.code.tokens.now self.now.code.depth at) at result }
    {
        let start = self.code.expect(at, Kind::If)?;
        let (condition, close) = self.code.value_after(start, Kind::OpenParen)?;
        let (then, next) = self.inner_after(close, Kind::CloseParen)?;
        if self.code.sees(next, Kind::Else) {
            let (other, end) = self.inner_after(next, Kind::Else)?;
            return Ok((Form::If(condition, then, Some(other)), end));
        }
        Ok((Form::If(condition, then, None), next))
    }

    /// JLS 14.12.
    fn whiles(&self, at: u32) -> Result<(Form, u32), Fail>
        requires nests { Nests self.now.code.depth (F.pre self.now.inner) (F.post self.now.inner) }
        ensures { GivesStatement (λ f. view_form f (span_at self.now.code.tokens.now at)) self.now.code.tokens.now (self.now.code.depth) (pieces.Whiles self.now.code.tokens.now self.now.code.depth at) at result }
    {
        let start = self.code.expect(at, Kind::While)?;
        let (condition, close) = self.code.value_after(start, Kind::OpenParen)?;
        let (body, next) = self.inner_after(close, Kind::CloseParen)?;
        Ok((Form::While(condition, body), next))
    }

    /// JLS 14.13.
    fn dos(&self, at: u32) -> Result<(Form, u32), Fail>
        requires nests { Nests self.now.code.depth (F.pre self.now.inner) (F.post self.now.inner) }
        ensures { GivesStatement (λ f. view_form f (span_at self.now.code.tokens.now at)) self.now.code.tokens.now (self.now.code.depth) (pieces.Dos self.now.code.tokens.now self.now.code.depth at) at result }
    {
        let (body, start) = self.inner_after(at, Kind::Do)?;
        let open = self.code.expect(start, Kind::While)?;
        let (condition, close) = self.code.value_after(open, Kind::OpenParen)?;
        let next = self.code.expect(close, Kind::CloseParen)?;
        let behind = self.code.expect(next, Kind::Semicolon)?;
        Ok((Form::Do(body, condition), behind))
    }

    /// JLS 14.14.1.
    fn fors(&self, at: u32) -> Result<(Form, u32), Fail>
        requires above { 0 < self.now.code.depth }
        requires depth { self.now.code.depth ≤ nesting_limit + 1 }
        requires nests { Nests self.now.code.depth (F.pre self.now.inner) (F.post self.now.inner) }
        ensures { GivesStatement (λ f. view_form f (span_at self.now.code.tokens.now at)) self.now.code.tokens.now (self.now.code.depth) (pieces.Fors self.now.code.tokens.now self.now.code.depth at) at result }
    {
        let open = self.code.expect(at, Kind::For)?;
        let start = self.code.expect(open, Kind::OpenParen)?;
        let (init, first) = self.code.init(start)?;
        let middle = self.code.expect(first, Kind::Semicolon)?;
        let (condition, second) = self.code.optional(middle)?;
        let last = self.code.expect(second, Kind::Semicolon)?;
        let (updates, close) = self.code.updates(last)?;
        let (body, behind) = self.inner_after(close, Kind::CloseParen)?;
        let turn = ForLoop {
            init,
            condition,
            updates,
            body,
        };
        let turn = Boxed::new(self.code.alloc, turn)?;
        Ok((Form::For(turn), behind))
    }

    /// JLS 14.20.
    fn tries(&self, at: u32) -> Result<(Form, u32), Fail>
        requires nests { Nests self.now.code.depth (F.pre self.now.inner) (F.post self.now.inner) }
        ensures { GivesStatement (λ f. view_form f (span_at self.now.code.tokens.now at)) self.now.code.tokens.now (self.now.code.depth) (pieces.Tries self.now.code.tokens.now self.now.code.depth at) at result }
    {
        let start = self.code.expect(at, Kind::Try)?;
        let (body, next) = self.block(start)?;
        let (catches, behind) = self.catches(next)?;
        Ok((Form::Try(body, catches), behind))
    }

    /// JLS 14.19.
    fn synchronizeds(&self, at: u32) -> Result<(Form, u32), Fail>
        requires nests { Nests self.now.code.depth (F.pre self.now.inner) (F.post self.now.inner) }
        ensures { GivesStatement (λ f. view_form f (span_at self.now.code.tokens.now at)) self.now.code.tokens.now (self.now.code.depth) (pieces.Synchronizeds self.now.code.tokens.now self.now.code.depth at) at result }
    {
        let start = self.code.expect(at, Kind::Synchronized)?;
        let (value, close) = self.code.value_after(start, Kind::OpenParen)?;
        let next = self.code.expect(close, Kind::CloseParen)?;
        let (body, behind) = self.block(next)?;
        Ok((Form::Synchronized(value, body), behind))
    }

    /// The statement under the label `commit` (JLS 14.7).
    fn commits(&self, at: u32) -> Result<(Form, u32), Fail>
        requires nests { Nests self.now.code.depth (F.pre self.now.inner) (F.post self.now.inner) }
        requires begins { MayBegin self.now.code.tokens.now at }
        requires name { seen false self.now.code.tokens.now at ≡ k.Name }
        requires colon { seen false self.now.code.tokens.now (at + 1) ≡ k.Colon }
        ensures { GivesStatement (λ f. view_form f (span_at self.now.code.tokens.now at)) self.now.code.tokens.now (self.now.code.depth) (pieces.Commits self.now.code.tokens.now self.now.code.depth at) at result }
    {
        if !self.code.is_label(at) {
            return Err(self.code.other_label(at));
        }
        let start = self.code.label(at)?;
        let (statement, next) = self.inner(start)?;
        if is_locals(&statement) {
            return Err(Fail::Refused(self.code.refusal(start)));
        }
        Ok((Form::Commit(statement), next))
    }

    /// What begins with a name.
    fn names(&self, at: u32) -> Result<(Form, u32), Fail>
        requires nests { Nests self.now.code.depth (F.pre self.now.inner) (F.post self.now.inner) }
        requires begins { MayBegin self.now.code.tokens.now at }
        requires name { seen false self.now.code.tokens.now at ≡ k.Name }
        ensures { GivesStatement (λ f. view_form f (span_at self.now.code.tokens.now at)) self.now.code.tokens.now (self.now.code.depth) (pieces.Names self.now.code.tokens.now self.now.code.depth at) at result }
    {
        if self.code.begins_print(at) {
            return self.code.print(at);
        }
        if self.code.colon_behind(at) {
            return self.commits(at);
        }
        if self.code.begins_locals(at) {
            return self.code.declaration(at);
        }
        self.code.evaluation(at)
    }

    /// What a statement is made of.
    pub fn form(&self, at: u32) -> Result<(Form, u32), Fail>
        requires above { 0 < self.now.code.depth }
        requires depth { self.now.code.depth ≤ nesting_limit + 1 }
        requires nests { Nests self.now.code.depth (F.pre self.now.inner) (F.post self.now.inner) }
        requires begins { MayBegin self.now.code.tokens.now at }
        ensures { GivesStatement (λ f. view_form f (span_at self.now.code.tokens.now at)) self.now.code.tokens.now (self.now.code.depth) (pieces.FormBy self.now.code.tokens.now self.now.code.depth (seen false self.now.code.tokens.now at) at) at result }
    {
        match self.code.seen(at) {
            Kind::Semicolon => self.code.empty(at),
            Kind::OpenBrace => self.blocks(at),
            Kind::Int => self.code.declaration(at),
            Kind::Long => self.code.declaration(at),
            Kind::Boolean => self.code.declaration(at),
            Kind::Final => self.code.final_declaration(at),
            Kind::If => self.ifs(at),
            Kind::While => self.whiles(at),
            Kind::Do => self.dos(at),
            Kind::For => self.fors(at),
            Kind::Return => self.code.returns(at),
            Kind::Break => self.code.breaks(at),
            Kind::Continue => self.code.continues(at),
            Kind::Throw => self.code.throws(at),
            Kind::Try => self.tries(at),
            Kind::Synchronized => self.synchronizeds(at),
            Kind::Name => self.names(at),
            Kind::End => self.code.asserts(at),
            _ => self.code.evaluation(at),
        }
    }
}

fn is_locals(stmt: &Stmt) -> bool
    ensures { result ≡ grammar.is_locals (view_stmt stmt.now) }
{
    is_locals_form(stmt.form.get())
}

fn is_locals_form(form: &Form) -> bool
    ensures { (at : Span) → result ≡ grammar.is_locals (view_form form.now at) }
{
    matches!(form, Form::Locals(_))
}
