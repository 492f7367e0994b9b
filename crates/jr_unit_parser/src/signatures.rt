//! What stands before a block or the members of a class.

ghost use Rattle.std.specs.Prelude.{◌≡◌, ◌<◌, [], length, false};
ghost use Rattle.jr_lexer.specs.Answers.{Answers as Reads};
ghost use Rattle.jr_reading.specs.Steps as common;
ghost use Rattle.jr_unit_parser.specs.Steps as steps;
ghost use Rattle.jr_reading.specs.Within.{Within};

use crate::head::{ClassHead, Declared, Signature};
use crate::reader::UnitReader;
use jr_ast::{Formal, MethodKind, Modifier};
use jr_base::Fail;
use jr_lexer::Kind;
use jr_reading::View;
use sqlite_items::Items;

impl<'a> UnitReader<'a> {
    /// A formal (JLS 8.4.1), and the index behind it.
    #[tactic(auto, unfolding(crate::specs::Steps::formal))]
    fn formal(&self, at: u32) -> Result<(Formal, u32), Fail>
        ensures { Reads (steps.formal self.now.tokens.now at) result }
    {
        let (modifiers, at) = self.modifiers(at)?;
        let (type_name, at) = self.type_name(at)?;
        self.expect(at, Kind::Name)?;
        let name = self.name(at)?;
        let formal = Formal {
            modifiers,
            type_name,
            name,
        };
        Ok((formal, at + 1))
    }

    /// One or more formals with commas between, and the index behind them.
    #[tactic(auto, using(jr_reading::proofs::Turns::turn_left, jr_reading::proofs::Turns::no_turn_left), unfolding(jr_reading::specs::Steps::listed))]
    fn listed(&self, at: u32) -> Result<(Items<Formal>, u32), Fail>
        ensures { Reads (common.listed false self.now.tokens.now (steps.formal self.now.tokens.now) (length self.now.tokens.now) [] at) result }
    {
        let mut found = Items::new(self.alloc);
        let mut at = at;
        for _turn in 0..self.tokens.len() {
            let (formal, behind) = self.formal(at)?;
            found.push(formal)?;
            if !self.sees(behind, Kind::Comma) {
                return Ok((found, behind));
            }
            at = behind + 1;
        }
        Err(Fail::Refused(self.refusal(at)))
    }

    /// The formals from behind the opening bracket, and the index behind the closing one.
    #[tactic(auto, unfolding(crate::specs::Steps::formals))]
    fn formals(&self, at: u32) -> Result<(Items<Formal>, u32), Fail>
        ensures { Reads (steps.formals self.now.tokens.now at) result }
    {
        if self.sees(at, Kind::CloseParen) {
            return Ok((Items::new(self.alloc), at + 1));
        }
        let (formals, end) = self.listed(at)?;
        self.expect(end, Kind::CloseParen)?;
        Ok((formals, end + 1))
    }

    /// What stands between the clauses of a method or constructor and its block, from the name on, and the
    /// index behind it.
    #[tactic(auto, unfolding(crate::specs::Steps::signature))]
    fn signature(
        &self,
        modifiers: Items<Modifier>,
        kind: MethodKind,
        at: u32,
    ) -> Result<(Declared, u32), Fail>
        requires { at < 1048576 }
        ensures { Reads (steps.signature self.now.tokens.now modifiers kind at) result }
    {
        let name = self.name(at)?;
        let (formals, end) = self.formals(at + 2)?;
        let end = self.throws(end)?;
        let signature = Signature {
            modifiers,
            kind,
            name,
            formals,
        };
        Ok((Declared::Routine(signature), end))
    }

    /// Whether the name of a constructor stands there.
    #[tactic(auto, unfolding(crate::specs::Steps::is_constructor))]
    fn is_constructor(&self, at: u32) -> bool
        ensures { result ≡ steps.is_constructor self.now.tokens.now at }
    {
        self.sees(at, Kind::Name) && self.sees(at + 1, Kind::OpenParen)
    }

    /// What stands between the modifiers of a member and its name, and the index of the name.
    #[tactic(auto, unfolding(crate::specs::Steps::method_kind))]
    fn method_kind(&self, at: u32) -> Result<(MethodKind, u32), Fail>
        ensures { Reads (steps.method_kind self.now.tokens.now at) result }
    {
        if self.sees(at, Kind::Void) {
            return Ok((MethodKind::Void, at + 1));
        }
        if self.is_constructor(at) {
            return Ok((MethodKind::Constructor, at));
        }
        let (type_name, name) = self.type_name(at)?;
        Ok((MethodKind::Valued(type_name), name))
    }

    /// A field, or what stands before the block of a method or constructor, and the index behind it.
    #[tactic(auto, unfolding(crate::specs::Steps::declared_at))]
    pub fn declared(&self, first: u32) -> Result<(Declared, u32), Fail>
        ensures { Reads (steps.declared_at self.now.tokens.now first) result }
    {
        let (modifiers, at) = self.modifiers(first)?;
        let (kind, at) = self.method_kind(at)?;
        self.expect(at, Kind::Name)?;
        if self.sees(at + 1, Kind::OpenParen) {
            return self.signature(modifiers, kind, at);
        }
        match kind {
            MethodKind::Valued(type_name) => self.field(first, modifiers, type_name, at),
            _ => Err(Fail::Refused(self.refusal(at + 1))),
        }
    }

    /// Whether a word of a class's head stands there with the one class that may follow it, and the index
    /// behind (JLS 8.1.4, 8.1.5).
    #[tactic(auto, unfolding(crate::specs::Steps::above))]
    fn above(&self, word: Kind, class: &[u8], at: u32) -> Result<(bool, u32), Fail>
        requires { Within word at → at < 1048576 }
        ensures { Reads (steps.above self.now.tokens.now word class.now at) result }
    {
        if !self.sees(at, word) {
            return Ok((false, at));
        }
        let view = View {
            tokens: self.tokens,
            jml: false,
        };
        view.expect(at + 1, Kind::Name)?;
        view.expect_text(at + 1, class)?;
        Ok((true, at + 2))
    }

    /// What stands before the members of a class, and the index behind it.
    #[tactic(auto, unfolding(crate::specs::Steps::class_head))]
    pub fn class_head(&self, at: u32) -> Result<(ClassHead, u32), Fail>
        ensures { Reads (steps.class_head self.now.tokens.now at) result }
    {
        let (modifiers, at) = self.modifiers(at)?;
        self.expect(at, Kind::Class)?;
        self.expect(at + 1, Kind::Name)?;
        let name = self.name(at + 1)?;
        let (extends_thread, at) = self.above(Kind::Extends, b"Thread", at + 2)?;
        let (implements_runnable, at) = self.above(Kind::Implements, b"Runnable", at)?;
        self.expect(at, Kind::OpenBrace)?;
        let head = ClassHead {
            modifiers,
            name,
            extends_thread,
            implements_runnable,
        };
        Ok((head, at + 1))
    }
}
