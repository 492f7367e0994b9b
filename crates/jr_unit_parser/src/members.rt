//! The members of a class (JLS 8.1.6).

ghost use Rattle.std.specs.Prelude.{◌≡◌, ◌<◌, map, true, All, IsTrue, IfOk};
ghost use Rattle.jr_ast.specs.Clauses.{view_method_clause};
ghost use Rattle.jr_ast.specs.Units.{view_member, view_method};
ghost use Rattle.jr_reading.specs.Seen.{seen};
ghost use Rattle.jr_jml_parser.specs.Grammar.{SpellsMethod};
ghost use Rattle.jr_unit_parser.specs.Begins.{BodyBegins, MemberBegins};
ghost use Rattle.jr_unit_parser.specs.Finds.{Finds, AllOf, BodyAt, ShallowBody};
ghost use Rattle.jr_unit_parser.specs.Grammar.{MemberAt};
ghost use Rattle.jr_unit_parser.specs.Nesting.{ShallowClause, ShallowMember};
ghost use Rattle.jr_unit_parser.specs.Plain.{IsPlain};
ghost use Rattle.jr_unit_parser.specs.Steps as steps;

use crate::head::{Declared, Signature};
use crate::reader::UnitReader;
use crate::words::{begins_class_clause, begins_method_clause};
use jr_ast::{Member, Method, MethodClause};
use jr_base::Fail;
use jr_jml_parser::{parse_class_clause, parse_method_clause};
use jr_lexer::Kind;
use jr_stmt_parser::parse_block;
use sqlite_items::Items;

impl<'a> UnitReader<'a> {
    /// Whether a clause of a method or constructor begins there.
    #[tactic(auto, unfolding(crate::specs::Steps::clause_begins))]
    fn clause_begins(&self, at: u32) -> bool
        ensures { result ≡ steps.clause_begins self.now.tokens.now at }
    {
        begins_method_clause(self.seen_in_annotation(at))
    }

    /// The clauses before a method or constructor (JML Reference Manual, "Method Specifications"), and the
    /// index behind them.
    fn clauses(&self, first: u32) -> Result<(Items<MethodClause>, u32), Fail>
        ensures { Finds self.now.tokens.now (map view_method_clause) (AllOf (SpellsMethod self.now.tokens.now) (steps.clause_begins self.now.tokens.now)) (All ShallowClause) first result }
    {
        let mut found = Items::new(self.alloc);
        let mut at = first;
        while self.clause_begins(at) {
            let (clause, behind) = parse_method_clause(self.alloc, self.tokens, at, 0)?;
            found.push(clause)?;
            at = behind;
        }
        Ok((found, at))
    }

    /// A method or constructor from its block on, and the index behind it. The first token is that of the
    /// clauses, the modifiers or what follows them.
    fn method(
        &self,
        first: u32,
        clauses: Items<MethodClause>,
        signature: Signature,
        at: u32,
    ) -> Result<(Method, u32), Fail>
        requires { BodyBegins self.now.tokens.now at }
        ensures { Finds self.now.tokens.now view_method (BodyAt self.now.tokens.now first (map view_method_clause clauses) signature) ShallowBody at result }
    {
        let (body, end) = parse_block(self.alloc, self.tokens, at, 0)?;
        let Signature {
            modifiers,
            kind,
            name,
            formals,
        } = signature;
        let place = self.tokens.span(first);
        let method = Method {
            place,
            clauses,
            modifiers,
            kind,
            name,
            formals,
            body,
        };
        Ok((method, end))
    }

    /// A field, a method or a constructor, and the index behind it.
    fn declaration(&self, first: u32) -> Result<(Member, u32), Fail>
        requires plain { IsPlain self.now.tokens.now first }
        requires begins { MemberBegins self.now.tokens.now first }
        ensures { Finds self.now.tokens.now view_member (MemberAt self.now.tokens.now) ShallowMember first result }
    {
        let (clauses, at) = self.clauses(first)?;
        let (declared, at) = self.declared(at)?;
        match declared {
            Declared::Field(field) => {
                if !clauses.is_empty() {
                    return Err(Fail::Refused(self.refusal(first)));
                }
                Ok((Member::Field(field), at))
            }
            Declared::Routine(signature) => {
                let (method, end) = self.method(first, clauses, signature, at)?;
                Ok((Member::Method(method), end))
            }
        }
    }

    /// A clause of a class, and the index behind it.
    fn class_clause(&self, at: u32) -> Result<(Member, u32), Fail>
        requires { IsTrue (steps.begins_class_clause (seen true self.now.tokens.now at)) }
        ensures { Finds self.now.tokens.now view_member (MemberAt self.now.tokens.now) ShallowMember at result }
    {
        let (clause, end) = parse_class_clause(self.alloc, self.tokens, at, 0)?;
        Ok((Member::Clause(clause), end))
    }

    /// A member, and the index behind it.
    fn member(&self, at: u32) -> Result<(Member, u32), Fail>
        requires { MemberBegins self.now.tokens.now at }
        ensures { Finds self.now.tokens.now view_member (MemberAt self.now.tokens.now) ShallowMember at result }
    {
        if self.sees(at, Kind::Semicolon) {
            return Ok((Member::Empty, at + 1));
        }
        if begins_class_clause(self.seen_in_annotation(at)) {
            return self.class_clause(at);
        }
        self.declaration(at)
    }

    /// The members of a class, and the index of the brace behind them.
    pub fn members(&self, first: u32) -> Result<(Items<Member>, u32), Fail>
        requires { MemberBegins self.now.tokens.now first }
        ensures found { Finds self.now.tokens.now (map view_member) (AllOf (MemberAt self.now.tokens.now) (steps.member_begins self.now.tokens.now)) (All ShallowMember) first result }
        ensures within { IfOk result (λ r. r.1 < 1048576) }
    {
        let mut found = Items::new(self.alloc);
        let mut at = first;
        while !self.sees(at, Kind::CloseBrace) {
            let (member, behind) = self.member(at)?;
            found.push(member)?;
            at = behind;
        }
        Ok((found, at))
    }
}
