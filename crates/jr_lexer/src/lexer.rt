//! Reads a source piece by piece: blanks, comments, annotations and tokens.

ghost use Rattle.std.specs.Prelude.{◌≡◌, ◌<◌, ◌≤◌, ◌+◌, ℕ, List, true, false, [], length, slice_index, OnOk};
ghost use Rattle.std.specs.Char.{is_ascii_digit};
ghost use Rattle.jr_lexer.specs.Lexical as spec;
ghost use Rattle.jr_lexer.specs.Answers.{Answers};
ghost use Rattle.jr_lexer.specs.Refusals.{RefusesLexically};
ghost use Rattle.jr_lexer.specs.Adds.{joined, Adds, AddsAll, Moves};

use crate::kind::Kind;
use crate::literal::{digits, is_long, number_of, quoted};
use crate::number::{NO_NUMBER, Number, big_literal};
use crate::place::Place;
use crate::scan::{Class, before_close, begins_name, byte, is_blank, is_in, run, without_last_ats};
use crate::sign::longest_sign;
use crate::tokens::Tokens;
use crate::words::{backslash_kind, word_kind};
use jr_base::{Fail, Refusal, Span};
use std::alloc::Global;

/// The most bytes that a string literal may stand for.
const MAX_TEXT: usize = 256;

/// The tokens of a source, or the first place from the left at which it is refused, as `BadUtf8`,
/// `OpenComment`, `BigLiteral`, `LongText` or `BadToken`. The span of a refusal is the one byte at that
/// place.
pub fn lex(alloc: Global, bytes: &[u8]) -> Result<Tokens, Fail>
    requires { length bytes.now ≤ 1048576 }
    ensures { Answers (spec.tokens bytes.now) result }
{
    match str::from_utf8(bytes) {
        Err(error) => Err(Fail::Refused(Refusal::BadUtf8(here(error.valid_up_to())))),
        Ok(_) => java_tokens(alloc, bytes),
    }
}

/// Whatever its bytes are, a source is refused for its tokens as one of these five alone.
pub fn refusals_are_lexical()
    ensures { (bytes : List ℕ) → RefusesLexically (spec.tokens bytes) }
{}

fn java_tokens(alloc: Global, bytes: &[u8]) -> Result<Tokens, Fail>
    requires { length bytes.now ≤ 1048576 }
    ensures { Answers (spec.java bytes.now) result }
{
    let mut tokens = Tokens::new(alloc);
    java(alloc, &mut tokens, bytes)?;
    Ok(tokens)
}

fn here(at: usize) -> Span
    requires { at ≤ 1048576 }
    ensures { result ≡ spec.here at }
{
    Span {
        start: at as u32,
        end: at as u32 + 1,
    }
}

/// Adds a token of so many bytes.
fn one(
    tokens: &mut Tokens,
    place: Place,
    kind: Kind,
    text: &[u8],
    number: Number,
    len: usize,
) -> Result<usize, Fail>
    requires room { length tokens.old ≤ place.at }
    requires some { 1 ≤ len }
    requires within { len ≤ length place.text.now }
    requires short { length text.now ≤ 1048576 }
    ensures value { Adds (joined tokens.old (spec.one place.entry.jml place.entry.at kind text.now number len)) result tokens.new }
    ensures moves { Moves place.entry result tokens.new }
{
    let span = Span {
        start: place.at as u32,
        end: (place.at + len) as u32,
    };
    tokens.push(kind, place.jml, text, number, span)?;
    Ok(len)
}

#[tactic(auto, unfolding(crate::specs::Lexical::word))]
fn word(tokens: &mut Tokens, place: Place) -> Result<usize, Fail>
    requires room { length tokens.old ≤ place.at }
    requires begins { spec.begins_name (slice_index place.text.now 0) ≡ true }
    ensures value { Adds (joined tokens.old (spec.word place.entry.jml place.entry.at place.entry.text.now)) result tokens.new }
    ensures moves { Moves place.entry result tokens.new }
{
    let len = run(Class::Name, place.text);
    let text = &place.text[..len];
    one(
        tokens,
        place,
        word_kind(place.jml, text),
        text,
        NO_NUMBER,
        len,
    )
}

#[tactic(auto, unfolding(crate::specs::Lexical::backslash_word))]
fn backslash_word(tokens: &mut Tokens, place: Place) -> Result<usize, Fail>
    requires room { length tokens.old ≤ place.at }
    requires begins { 0 < length place.text.now }
    ensures value { Adds (joined tokens.old (spec.backslash_word place.entry.jml place.entry.at place.entry.text.now)) result tokens.new }
    ensures moves { Moves place.entry result tokens.new }
{
    let len = run(Class::Backslash, &place.text[1..]);
    if len == 0 {
        return Err(Fail::Refused(Refusal::BadToken(here(place.at))));
    }
    let kind = backslash_kind(&place.text[1..][..len]);
    one(
        tokens,
        place,
        kind,
        &place.text[..len + 1],
        NO_NUMBER,
        len + 1,
    )
}

/// Adds a literal, unless a letter, digit, `_` or `$` follows at once.
fn literal(
    tokens: &mut Tokens,
    place: Place,
    kind: Kind,
    text: &[u8],
    number: Number,
    len: usize,
) -> Result<usize, Fail>
    requires room { length tokens.old ≤ place.at }
    requires some { 1 ≤ len }
    requires within { len ≤ length place.text.now }
    requires short { length text.now ≤ 1048576 }
    ensures value { Adds (joined tokens.old (spec.literal place.entry.jml place.entry.at place.entry.text.now kind text.now number len)) result tokens.new }
    ensures moves { Moves place.entry result tokens.new }
{
    if is_in(Class::Name, byte(place.text, len)) {
        return Err(Fail::Refused(Refusal::BadToken(here(place.at))));
    }
    one(tokens, place, kind, text, number, len)
}

#[tactic(auto, unfolding(crate::specs::Lexical::integer))]
fn integer(tokens: &mut Tokens, place: Place) -> Result<usize, Fail>
    requires room { length tokens.old ≤ place.at }
    requires begins { is_ascii_digit (slice_index place.text.now 0) ≡ true }
    ensures value { Adds (joined tokens.old (spec.integer place.entry.jml place.entry.at place.entry.text.now)) result tokens.new }
    ensures moves { Moves place.entry result tokens.new }
{
    let count = digits(place.text);
    let is_long = is_long(place.text, count);
    let value = number_of(&place.text[..count]);
    if value > big_literal(is_long) {
        return Err(Fail::Refused(Refusal::BigLiteral(here(place.at))));
    }
    let len = if is_long { count + 1 } else { count };
    let number = Number { value, is_long };
    literal(
        tokens,
        place,
        Kind::Integer,
        &place.text[..len],
        number,
        len,
    )
}

#[tactic(auto, unfolding(crate::specs::Lexical::string))]
fn string(alloc: Global, tokens: &mut Tokens, place: Place) -> Result<usize, Fail>
    requires room { length tokens.old ≤ place.at }
    requires begins { 0 < length place.text.now }
    ensures value { Adds (joined tokens.old (spec.string place.entry.jml place.entry.at place.entry.text.now)) result tokens.new }
    ensures moves { Moves place.entry result tokens.new }
{
    match quoted(alloc, &place.text[1..])? {
        None => Err(Fail::Refused(Refusal::BadToken(here(place.at)))),
        Some((text, _)) if text.len() > MAX_TEXT => {
            Err(Fail::Refused(Refusal::LongText(here(place.at))))
        }
        Some((text, len)) => literal(tokens, place, Kind::Text, &text, NO_NUMBER, len + 1),
    }
}

#[tactic(auto, unfolding(crate::specs::Lexical::sign))]
fn sign(tokens: &mut Tokens, place: Place) -> Result<usize, Fail>
    requires room { length tokens.old ≤ place.at }
    ensures value { Adds (joined tokens.old (spec.sign place.entry.jml place.entry.at place.entry.text.now)) result tokens.new }
    ensures moves { Moves place.entry result tokens.new }
{
    match longest_sign(place.jml, place.text) {
        None => Err(Fail::Refused(Refusal::BadToken(here(place.at)))),
        Some((kind, len)) => one(tokens, place, kind, &place.text[..len], NO_NUMBER, len),
    }
}

/// Adds the longest token at the place.
#[tactic(auto, unfolding(crate::specs::Lexical::token))]
fn token(alloc: Global, tokens: &mut Tokens, place: Place) -> Result<usize, Fail>
    requires room { length tokens.old ≤ place.at }
    requires begins { 0 < length place.text.now }
    ensures value { Adds (joined tokens.old (spec.token place.entry.jml place.entry.at place.entry.text.now)) result tokens.new }
    ensures moves { Moves place.entry result tokens.new }
{
    let b = place.text[0];
    if begins_name(b) {
        word(tokens, place)
    } else if b.is_ascii_digit() {
        integer(tokens, place)
    } else if b == b'"' {
        string(alloc, tokens, place)
    } else if b == b'\\' && place.jml {
        backslash_word(tokens, place)
    } else {
        sign(tokens, place)
    }
}

fn begins_line_comment(z: &[u8]) -> bool
    ensures { result ≡ spec.begins_line_comment z.now }
{
    byte(z, 0) == b'/' && byte(z, 1) == b'/'
}

fn begins_block_comment(z: &[u8]) -> bool
    ensures value { result ≡ spec.begins_block_comment z.now }
    ensures within { result ≡ true → 2 ≤ length z.now }
{
    byte(z, 0) == b'/' && byte(z, 1) == b'*'
}

/// Reads a piece of an annotation, where `fresh` says whether only blanks stand before it on its line.
#[tactic(auto, unfolding(crate::specs::Lexical::jml_piece))]
fn jml_piece(alloc: Global, tokens: &mut Tokens, place: Place, fresh: bool) -> Result<usize, Fail>
    requires jml { place.jml ≡ true }
    requires room { length tokens.old ≤ place.at }
    requires begins { 0 < length place.text.now }
    ensures value { Adds (joined tokens.old (spec.jml_piece fresh place.entry.at place.entry.text.now)) result tokens.new }
    ensures moves { Moves place.entry result tokens.new }
{
    let b = place.text[0];
    if is_blank(b) {
        Ok(1)
    } else if b == b'@' && fresh {
        Ok(run(Class::At, place.text))
    } else if begins_line_comment(place.text) {
        Ok(run(Class::Line, place.text))
    } else {
        token(alloc, tokens, place)
    }
}

/// Whether only blanks stand before what follows a piece on its line. `b` is the first byte of the piece.
fn is_fresh(b: u8, fresh: bool) -> bool
    ensures { result ≡ spec.is_fresh b fresh }
{
    b == b'\n' || (fresh && is_blank(b))
}

/// Reads the text of an annotation, from a place in the source on.
fn annotation(alloc: Global, tokens: &mut Tokens, text: &[u8], start: usize) -> Result<(), Fail>
    requires within { start + length text.now ≤ 1048576 }
    requires room { length tokens.old ≤ start }
    ensures value { AddsAll (spec.after tokens.old (spec.annotation start text.now)) result tokens.new }
    ensures count { OnOk result (length tokens.new ≤ start + length text.now) }
{
    let mut rest = text;
    let mut at = start;
    let mut fresh = true;
    while let [b, ..] = rest {
        let place = Place {
            text: rest,
            at,
            jml: true,
        };
        let len = jml_piece(alloc, tokens, place, fresh)?;
        fresh = is_fresh(*b, fresh);
        at += len;
        rest = &rest[len..];
    }
    Ok(())
}

/// Reads a comment up to the end of the line.
#[tactic(auto, unfolding(crate::specs::Lexical::line_comment))]
fn line_comment(alloc: Global, tokens: &mut Tokens, place: Place) -> Result<usize, Fail>
    requires room { length tokens.old ≤ place.at }
    requires begins { spec.begins_line_comment place.text.now ≡ true }
    ensures value { Adds (joined tokens.old (spec.line_comment place.entry.at place.entry.text.now)) result tokens.new }
    ensures moves { Moves place.entry result tokens.new }
{
    let len = run(Class::Line, place.text);
    if byte(place.text, 2) == b'@' {
        annotation(alloc, tokens, &place.text[..len][2..], place.at + 2)?;
    }
    Ok(len)
}

/// Reads a comment up to its `*/`.
#[tactic(auto, unfolding(crate::specs::Lexical::block_comment))]
fn block_comment(alloc: Global, tokens: &mut Tokens, place: Place) -> Result<usize, Fail>
    requires room { length tokens.old ≤ place.at }
    requires begins { 2 ≤ length place.text.now }
    ensures value { Adds (joined tokens.old (spec.block_comment place.entry.at place.entry.text.now)) result tokens.new }
    ensures moves { Moves place.entry result tokens.new }
{
    let Some(len) = before_close(&place.text[2..]) else {
        return Err(Fail::Refused(Refusal::OpenComment(here(place.at))));
    };
    if byte(place.text, 2) == b'@' {
        let text = without_last_ats(&place.text[2..][..len]);
        annotation(alloc, tokens, text, place.at + 2)?;
    }
    Ok(len + 4)
}

/// Reads a piece outside annotations.
#[tactic(auto, unfolding(crate::specs::Lexical::java_piece))]
fn java_piece(alloc: Global, tokens: &mut Tokens, place: Place) -> Result<usize, Fail>
    requires java { place.jml ≡ false }
    requires room { length tokens.old ≤ place.at }
    requires begins { 0 < length place.text.now }
    ensures value { Adds (joined tokens.old (spec.java_piece place.entry.at place.entry.text.now)) result tokens.new }
    ensures moves { Moves place.entry result tokens.new }
{
    if is_blank(place.text[0]) {
        Ok(1)
    } else if begins_line_comment(place.text) {
        line_comment(alloc, tokens, place)
    } else if begins_block_comment(place.text) {
        block_comment(alloc, tokens, place)
    } else {
        token(alloc, tokens, place)
    }
}

/// Reads a source.
fn java(alloc: Global, tokens: &mut Tokens, bytes: &[u8]) -> Result<(), Fail>
    requires within { length bytes.now ≤ 1048576 }
    requires room { tokens.old ≡ [] }
    ensures { AddsAll (spec.java bytes.now) result tokens.new }
{
    let mut rest = bytes;
    let mut at = 0;
    while let [_, ..] = rest {
        let place = Place {
            text: rest,
            at,
            jml: false,
        };
        let len = java_piece(alloc, tokens, place)?;
        at += len;
        rest = &rest[len..];
    }
    Ok(())
}
