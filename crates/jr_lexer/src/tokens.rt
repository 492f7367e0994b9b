//! The list of tokens.

ghost use Rattle.std.specs.Prelude.{◌≡◌, ◌+◌, ◌<◌, ◌≤◌, [], ◌∷◌, ◌++◌, length, take, drop, OnOk};
ghost use Rattle.jr_lexer.specs.Reading as spec;
ghost use Rattle.jr_lexer.specs.Token.{tokens_of, AllWithin};

use crate::kind::Kind;
use crate::number::{NO_NUMBER, Number};
use crate::stored::Stored;
use jr_base::{Memory, Span};
use std::alloc::Global;
use std::marker::Model;

/// The tokens of a source, from left to right. Contracts see the list of them, each with its kind, its
/// text, the number that it writes, its span, and whether it stands in an annotation.
///
/// A token is reached by its place in the list, from 0. Behind the last one stands none: its kind is
/// `End`, and its span is empty and stands where the last token ends.
#[derive(Drop)]
pub struct Tokens {
    stored: Vec<Stored>,
    /// The texts of all tokens, one behind the other.
    texts: Vec<u8>,
}

impl Model for Tokens {
    ghost use Rattle.std.specs.Prelude.{List, length, ◌≤◌};
    ghost use Rattle.jr_lexer.specs.Token.{Token, tokens_of, AllWithin};

    ghost Value = { List Token };

    ghost view = { λ t. tokens_of t.texts.items t.stored.items };

    ghost invariant = { λ t. AllWithin (length t.texts.items) t.stored.items × (length t.stored.items ≤ 1048576) };
}

impl Tokens {
    pub(crate) fn new(alloc: Global) -> Tokens
        ensures { result ≡ [] }
    {
        Tokens {
            stored: Vec::new(alloc),
            texts: Vec::new(alloc),
        }
    }

    pub(crate) fn push(
        &mut self,
        kind: Kind,
        jml: bool,
        text: &[u8],
        number: Number,
        span: Span,
    ) -> Result<(), Memory>
        requires room { length self.old < 1048576 }
        requires short { length text.now ≤ 1048576 }
        ensures { OnOk result (self.new ≡ self.old ++ record { kind = kind; text = text.now; number = number; span = span; jml = jml } ∷ []) }
    {
        let stored = Stored {
            kind,
            jml,
            number,
            span,
            start: self.texts.len(),
            len: text.len() as u32,
        };
        self.texts.extend_from_slice(text)?;
        self.stored.push(stored)?;
        Ok(())
    }

    /// How many tokens there are: no more than a source has bytes.
    pub fn len(&self) -> u32
        ensures value { result ≡ length self.now }
        ensures bound { result ≤ 1048576 }
    {
        self.stored.len() as u32
    }

    /// The kind of the token at a place.
    pub fn kind(&self, at: u32) -> Kind
        ensures { result ≡ spec.kind_at self.now at }
    {
        match self.stored.get(at as usize) {
            None => Kind::End,
            Some(token) => token.kind,
        }
    }

    /// Whether the token at a place stands in an annotation.
    pub fn is_jml(&self, at: u32) -> bool
        ensures { result ≡ spec.jml_at self.now at }
    {
        match self.stored.get(at as usize) {
            None => false,
            Some(token) => token.jml,
        }
    }

    /// The text of the token at a place: what a string literal stands for, or else the spelling.
    pub fn text(&self, at: u32) -> &[u8]
        ensures { result.now ≡ spec.text_at self.now at }
    {
        text_in(&self.stored, &self.texts, at as usize)
    }

    /// The number that the token at a place writes: that of an integer literal, or else the `int` 0.
    pub fn number(&self, at: u32) -> Number
        ensures { result ≡ spec.number_at self.now at }
    {
        match self.stored.get(at as usize) {
            None => NO_NUMBER,
            Some(token) => token.number,
        }
    }

    /// The bytes of the source that the token at a place takes.
    pub fn span(&self, at: u32) -> Span
        ensures { result ≡ spec.span_at self.now at }
    {
        match self.stored.get(at as usize) {
            None => {
                let end = self.end();
                Span { start: end, end }
            }
            Some(token) => token.span,
        }
    }

    /// The place in the source behind the last token, 0 where there is none.
    pub fn end(&self) -> u32
        ensures { result ≡ spec.last_end self.now }
    {
        match self.stored.get(self.stored.len().saturating_sub(1)) {
            None => 0,
            Some(token) => token.span.end,
        }
    }
}

fn text_in<'a>(stored: &[Stored], texts: &'a [u8], at: usize) -> &'a [u8]
    requires { AllWithin (length texts.now) stored.now }
    ensures { result.now ≡ spec.text_at (tokens_of texts.now stored.now) at }
{
    match stored.get(at) {
        None => &[],
        Some(token) => part(texts, token.start, token.len as usize),
    }
}

fn part(texts: &[u8], start: usize, len: usize) -> &[u8]
    requires { start + len ≤ length texts.now }
    ensures { result.now ≡ take len (drop start texts.now) }
{
    &texts[start..][..len]
}
