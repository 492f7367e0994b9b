//! What holds no statements: types, expressions, declarations and the parts of a print.

ghost use Rattle.std.specs.Prelude.{◌≡◌, ◌<◌, ◌+◌, ◌-◌, ◌↔◌, true, false, option_map, map, IsTrue};
ghost use Rattle.jr_ast.specs.Expressions.{view_expr};
ghost use Rattle.jr_ast.specs.Statements.{view_declarator, view_init, view_part};
ghost use Rattle.jr_reading.specs.Seen.{seen};
ghost use Rattle.jr_stmt_parser.specs.Gives.{Gives};
ghost use Rattle.jr_base.specs.declared.refusal.Fail.TheVariants as fails;
ghost use Rattle.jr_base.specs.declared.refusal.Refusal.TheVariants as refusals;
ghost use Rattle.jr_lexer.specs.Reading.{span_at};
ghost use Rattle.jr_stmt_parser.specs.Gives.{view_locals};
ghost use Rattle.jr_reading.specs.Limits.{nesting_limit};
ghost use Rattle.jr_expr_parser.specs.BigLiteral.{frees};
ghost use Rattle.jr_stmt_parser.specs.Pieces as pieces;

use crate::code::Code;
use crate::effects::has_effect;
use jr_ast::{Expr, ForInit, LocalDeclaration, LocalDeclarator, Part};
use jr_base::{Fail, Refusal};
use jr_expr_parser::{Level, parse_expr};
use jr_lexer::Kind;
use jr_reading::NESTING_LIMIT;
use sqlite_items::Items;

impl<'a> Code<'a> {
    /// Whether more constructs are above what stands here than may be.
    pub fn is_too_deep(&self) -> bool
        ensures { IsTrue result ↔ (nesting_limit < self.now.depth) }
    {
        self.depth > NESTING_LIMIT
    }

    /// Why a node that is too deep is refused.
    pub fn too_deep(&self, at: u32) -> Fail
        ensures { result ≡ fails.Refused (refusals.TooDeep (span_at self.now.tokens.now at)) }
    {
        Fail::Refused(Refusal::TooDeep(self.tokens.span(at)))
    }

    /// An expression (JLS 15).
    pub fn value(&self, at: u32) -> Result<(Expr, u32), Fail>
        requires { pieces.Fronts self.now.tokens.now at }
        ensures { Gives view_expr self.now.tokens.now self.now.depth (pieces.Value self.now.tokens.now self.now.depth) at result }
    {
        if self.is_too_deep() {
            return Err(self.too_deep(at));
        }
        parse_expr(self.alloc, self.tokens, at, Level::Any, self.depth)
    }

    /// An expression of which the loosest operators are `*`, `/` and `%`.
    fn factor(&self, at: u32) -> Result<(Expr, u32), Fail>
        requires { pieces.Fronts self.now.tokens.now at }
        ensures { Gives view_expr self.now.tokens.now self.now.depth (pieces.Factor self.now.tokens.now self.now.depth) at result }
    {
        if self.is_too_deep() {
            return Err(self.too_deep(at));
        }
        parse_expr(self.alloc, self.tokens, at, Level::Product, self.depth)
    }

    /// An expression behind a token of the kind.
    pub fn value_after(&self, at: u32, kind: Kind) -> Result<(Expr, u32), Fail>
        requires { frees kind ≡ true }
        ensures { Gives view_expr self.now.tokens.now self.now.depth (pieces.After self.now.tokens.now kind (pieces.Value self.now.tokens.now self.now.depth)) at result }
    {
        let next = self.expect(at, kind)?;
        self.value(next)
    }

    /// An expression that is evaluated for its effect (JLS 14.8).
    pub fn effect(&self, at: u32) -> Result<(Expr, u32), Fail>
        requires { pieces.Fronts self.now.tokens.now at }
        ensures { Gives view_expr self.now.tokens.now self.now.depth (pieces.Effect self.now.tokens.now self.now.depth) at result }
    {
        let (value, next) = self.value(at)?;
        if has_effect(&value) {
            return Ok((value, next));
        }
        Err(Fail::Refused(self.refusal(at)))
    }

    fn effects(&self, start: u32) -> Result<(Items<Expr>, u32), Fail>
        requires { pieces.Fronts self.now.tokens.now start }
        ensures { Gives (map view_expr) self.now.tokens.now self.now.depth (pieces.Effects self.now.tokens.now self.now.depth) start result }
    {
        let mut found = Items::new(self.alloc);
        let (first, mut at) = self.effect(start)?;
        found.push(first)?;
        while self.sees(at, Kind::Comma) {
            let next = self.expect(at, Kind::Comma)?;
            let (value, behind) = self.effect(next)?;
            found.push(value)?;
            at = behind;
        }
        Ok((found, at))
    }

    /// A declared variable (JLS 14.4.1).
    fn declared(&self, at: u32) -> Result<(LocalDeclarator, u32), Fail>
        ensures { Gives view_declarator self.now.tokens.now self.now.depth (pieces.Declared self.now.tokens.now self.now.depth) at result }
    {
        let (name, next) = self.name(at)?;
        if self.sees(next, Kind::Equal) {
            let (value, behind) = self.value_after(next, Kind::Equal)?;
            let initial = Some(value);
            return Ok((LocalDeclarator { name, initial }, behind));
        }
        let initial = None;
        Ok((LocalDeclarator { name, initial }, next))
    }

    fn declarators(&self, start: u32) -> Result<(Items<LocalDeclarator>, u32), Fail>
        ensures { Gives (map view_declarator) self.now.tokens.now self.now.depth (pieces.Declarators self.now.tokens.now self.now.depth) start result }
    {
        let mut found = Items::new(self.alloc);
        let (first, mut at) = self.declared(start)?;
        found.push(first)?;
        while self.sees(at, Kind::Comma) {
            let next = self.expect(at, Kind::Comma)?;
            let (declarator, behind) = self.declared(next)?;
            found.push(declarator)?;
            at = behind;
        }
        Ok((found, at))
    }

    /// Variables of one type (JLS 14.4).
    pub fn locals(&self, at: u32) -> Result<(LocalDeclaration, u32), Fail>
        ensures { Gives view_locals self.now.tokens.now self.now.depth (pieces.Locals self.now.tokens.now self.now.depth) at result }
    {
        let (type_name, next) = self.type_name(at)?;
        let (declarators, behind) = self.declarators(next)?;
        let declaration = LocalDeclaration {
            type_name,
            declarators,
        };
        Ok((declaration, behind))
    }

    /// An expression, unless a `;` stands there.
    pub fn optional(&self, at: u32) -> Result<(Option<Expr>, u32), Fail>
        requires { pieces.Fronts self.now.tokens.now at }
        ensures { Gives (option_map view_expr) self.now.tokens.now self.now.depth (pieces.Optional self.now.tokens.now self.now.depth) at result }
    {
        if self.sees(at, Kind::Semicolon) {
            return Ok((None, at));
        }
        let (value, next) = self.value(at)?;
        Ok((Some(value), next))
    }

    /// Whether variables are declared there.
    pub fn begins_locals(&self, at: u32) -> bool
        ensures { IsTrue result ↔ pieces.BeginsLocals self.now.tokens.now at }
    {
        if at >= self.tokens.len() {
            return false;
        }
        declares(self.seen(at), self.seen(at + 1), self.seen(at + 2))
    }

    /// What a `for` does first (JLS 14.14.1).
    pub fn init(&self, at: u32) -> Result<(ForInit, u32), Fail>
        requires { pieces.Fronts self.now.tokens.now at }
        ensures { Gives view_init self.now.tokens.now self.now.depth (pieces.Init self.now.tokens.now self.now.depth) at result }
    {
        if self.sees(at, Kind::Semicolon) {
            return Ok((ForInit::Expressions(Items::new(self.alloc)), at));
        }
        if self.begins_locals(at) {
            let (declaration, next) = self.locals(at)?;
            return Ok((ForInit::Locals(declaration), next));
        }
        let (effects, behind) = self.effects(at)?;
        Ok((ForInit::Expressions(effects), behind))
    }

    /// What a `for` does after each turn (JLS 14.14.1).
    pub fn updates(&self, at: u32) -> Result<(Items<Expr>, u32), Fail>
        requires { pieces.Fronts self.now.tokens.now at }
        ensures { Gives (map view_expr) self.now.tokens.now self.now.depth (pieces.Updates self.now.tokens.now self.now.depth) at result }
    {
        if self.sees(at, Kind::CloseParen) {
            return Ok((Items::new(self.alloc), at));
        }
        self.effects(at)
    }

    /// A string, which is a node as any other.
    fn string(&self, at: u32) -> Result<(Part, u32), Fail>
        ensures { Gives view_part self.now.tokens.now self.now.depth (pieces.String self.now.tokens.now self.now.depth) at result }
    {
        if self.is_too_deep() {
            return Err(self.too_deep(at));
        }
        let next = self.expect(at, Kind::Text)?;
        let text = Items::from_slice(self.alloc, self.tokens.text(at))?;
        Ok((Part::Text(text), next))
    }

    /// What is added to a string.
    fn term(&self, at: u32) -> Result<(Part, u32), Fail>
        requires { pieces.Fronts self.now.tokens.now at }
        ensures { Gives view_part self.now.tokens.now self.now.depth (pieces.Term self.now.tokens.now self.now.depth) at result }
    {
        if self.sees(at, Kind::Text) {
            let (part, end) = self.string(at)?;
            return Ok((part, end));
        }
        let (value, behind) = self.factor(at)?;
        Ok((Part::Value(value), behind))
    }

    /// A string, and what is added to it.
    fn sum(&self, start: u32) -> Result<(Items<Part>, u32), Fail>
        ensures { Gives (map view_part) self.now.tokens.now self.now.depth (pieces.Sum self.now.tokens.now self.now.depth) start result }
    {
        let mut found = Items::new(self.alloc);
        let (first, mut at) = self.string(start)?;
        found.push(first)?;
        while self.sees(at, Kind::Plus) {
            let next = self.expect(at, Kind::Plus)?;
            let (part, behind) = self.term(next)?;
            found.push(part)?;
            at = behind;
        }
        Ok((found, at))
    }

    /// What stands between the brackets of a print.
    pub fn parts(&self, at: u32) -> Result<(Items<Part>, u32), Fail>
        requires { pieces.Fronts self.now.tokens.now at }
        ensures { Gives (map view_part) self.now.tokens.now self.now.depth (pieces.Parts self.now.tokens.now self.now.depth) at result }
    {
        let mut found = Items::new(self.alloc);
        if self.sees(at, Kind::CloseParen) {
            return Ok((found, at));
        }
        if self.sees(at, Kind::Text) {
            return self.sum(at);
        }
        let (value, next) = self.value(at)?;
        found.push(Part::Value(value))?;
        Ok((found, next))
    }
}

fn declares(a: Kind, b: Kind, c: Kind) -> bool
    ensures { result ≡ pieces.declares a b c }
{
    match a {
        Kind::Int | Kind::Long | Kind::Boolean => true,
        Kind::Name => match b {
            Kind::Name => true,
            Kind::OpenBracket => matches!(c, Kind::CloseBracket),
            _ => false,
        },
        _ => false,
    }
}
