//! Packages and imports, modifiers and what a method throws.

ghost use Rattle.std.specs.Prelude.{◌≡◌, ◌<◌, [], length, IfSome};
ghost use Rattle.jr_lexer.specs.Answers.{Answers as Reads};
ghost use Rattle.jr_lexer.specs.Reading.{jml_at, kind_at};
ghost use Rattle.jr_unit_parser.specs.Grammar as grammar;
ghost use Rattle.jr_unit_parser.specs.Steps as steps;

use crate::reader::UnitReader;
use crate::words::{begins_import, is_part, modifier_of};
use jr_ast::{Modifier, ModifierKind};
use jr_base::Fail;
use jr_lexer::Kind;
use sqlite_items::Items;

impl<'a> UnitReader<'a> {
    /// What follows the first name of a package or an import, up to its `;`.
    #[tactic(auto, using(jr_reading::proofs::Turns::turn_left, jr_reading::proofs::Turns::no_turn_left), unfolding(crate::specs::Steps::dotted))]
    fn dotted(&self, at: u32) -> Result<u32, Fail>
        ensures { Reads (steps.dotted self.now.tokens.now (length self.now.tokens.now) at) result }
    {
        let mut at = at;
        for _turn in 0..self.tokens.len() {
            if !self.sees(at, Kind::Dot) {
                return Ok(at);
            }
            if !is_part(self.seen(at + 1)) {
                return Err(Fail::Refused(self.refusal(at + 1)));
            }
            at += 2;
        }
        Ok(at)
    }

    /// A package or an import from its keyword on (JLS 7.4, 7.5).
    #[tactic(auto, unfolding(crate::specs::Steps::import_at))]
    fn import(&self, at: u32) -> Result<u32, Fail>
        requires { at < 1048576 }
        ensures { Reads (steps.import_at self.now.tokens.now at) result }
    {
        self.expect(at + 1, Kind::Name)?;
        let end = self.dotted(at + 2)?;
        self.expect(end, Kind::Semicolon)?;
        Ok(end + 1)
    }

    /// The packages and imports at the front, and the index behind them.
    #[tactic(auto, using(jr_reading::proofs::Turns::turn_left, jr_reading::proofs::Turns::no_turn_left), unfolding(crate::specs::Steps::imports))]
    pub fn imports(&self) -> Result<u32, Fail>
        ensures { Reads (steps.imports self.now.tokens.now (length self.now.tokens.now) 0) result }
    {
        let mut at = 0;
        for _turn in 0..self.tokens.len() {
            if !begins_import(self.seen(at)) {
                return Ok(at);
            }
            at = self.import(at)?;
        }
        Ok(at)
    }

    /// `@ Name`, and the index behind it.
    #[tactic(auto, unfolding(crate::specs::Steps::mark))]
    fn mark(&self, at: u32) -> Option<(Modifier, u32)>
        ensures { result ≡ steps.mark self.now.tokens.now at }
    {
        if !self.sees(at, Kind::At) || !self.sees(at + 1, Kind::Name) {
            return None;
        }
        let place = self.tokens.span(at);
        let kind = ModifierKind::Mark;
        Some((Modifier { place, kind }, at + 2))
    }

    /// The modifier at an index, and the index behind it.
    #[tactic(auto, unfolding(crate::specs::Steps::one_modifier))]
    fn modifier(&self, at: u32) -> Option<(Modifier, u32)>
        ensures { result ≡ steps.one_modifier self.now.tokens.now at }
    {
        match self.word(at) {
            Some(kind) => {
                let place = self.tokens.span(at);
                Some((Modifier { place, kind }, at + 1))
            }
            None => self.mark(at),
        }
    }

    /// The modifier of one word.
    #[tactic(auto, using(crate::proofs::Past::no_word_behind))]
    fn word(&self, at: u32) -> Option<ModifierKind>
        ensures value { result ≡ grammar.modifier_of (jml_at self.now.tokens.now at) (kind_at self.now.tokens.now at) }
        ensures within { IfSome result (λ _. at < 1048576) }
    {
        if at >= self.tokens.len() {
            return None;
        }
        modifier_of(self.tokens.is_jml(at), self.tokens.kind(at))
    }

    /// The modifiers at an index, and the index behind them.
    #[tactic(auto, using(jr_reading::proofs::Turns::turn_left, jr_reading::proofs::Turns::no_turn_left), unfolding(crate::specs::Steps::modifiers))]
    pub fn modifiers(&self, at: u32) -> Result<(Items<Modifier>, u32), Fail>
        ensures { Reads (steps.modifiers self.now.tokens.now (length self.now.tokens.now) [] at) result }
    {
        let mut found = Items::new(self.alloc);
        let mut at = at;
        for _turn in 0..self.tokens.len() {
            let Some((modifier, behind)) = self.modifier(at) else {
                return Ok((found, at));
            };
            found.push(modifier)?;
            at = behind;
        }
        Ok((found, at))
    }

    /// The names behind `throws`, with commas between, and the index behind them.
    #[tactic(auto, using(jr_reading::proofs::Turns::turn_left, jr_reading::proofs::Turns::no_turn_left), unfolding(crate::specs::Steps::names))]
    fn names(&self, at: u32) -> Result<u32, Fail>
        ensures { Reads (steps.names self.now.tokens.now (length self.now.tokens.now) at) result }
    {
        let mut at = at;
        for _turn in 0..self.tokens.len() {
            self.expect(at, Kind::Name)?;
            let behind = at + 1;
            if !self.sees(behind, Kind::Comma) {
                return Ok(behind);
            }
            at = behind + 1;
        }
        Err(Fail::Refused(self.refusal(at)))
    }

    /// What a method throws, which leaves nothing (JLS 8.4.4), and the index behind it.
    #[tactic(auto, unfolding(crate::specs::Steps::throws))]
    pub fn throws(&self, at: u32) -> Result<u32, Fail>
        ensures { Reads (steps.throws self.now.tokens.now at) result }
    {
        if self.sees(at, Kind::Throws) {
            self.names(at + 1)
        } else {
            Ok(at)
        }
    }
}
