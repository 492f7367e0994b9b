//! The kinds of words.

ghost use Rattle.std.specs.Prelude.{◌≡◌, slice_index_or};
ghost use Rattle.jr_lexer.specs.Lexical as spec;

use crate::kind::{KEYWORD_KINDS, Kind};
use jr_ops::keyword;

/// The kind of a word: a keyword's, or that of a name.
#[tactic(auto, unfolding(crate::specs::Lexical::word_kind))]
pub(crate) fn word_kind(jml: bool, word: &[u8]) -> Kind
    ensures { result ≡ spec.word_kind jml word.now }
{
    match keyword(word, jml) {
        None => Kind::Name,
        Some(row) => keyword_kind(usize::from(row)),
    }
}

fn keyword_kind(row: usize) -> Kind
    ensures { result ≡ spec.keyword_kind row }
{
    kind_in(&KEYWORD_KINDS, row)
}

fn kind_in(kinds: &[Kind], row: usize) -> Kind
    ensures { result ≡ slice_index_or kinds.now row Kind.Name }
{
    if row < kinds.len() {
        kinds[row]
    } else {
        Kind::Name
    }
}

/// The kind of a word with a backslash, which is left out.
#[tactic(auto, unfolding(crate::specs::Lexical::backslash_kind))]
pub(crate) fn backslash_kind(word: &[u8]) -> Kind
    ensures { result ≡ spec.backslash_kind word.now }
{
    if word == b"result".as_slice() {
        Kind::BackslashResult
    } else if word == b"old".as_slice() {
        Kind::BackslashOld
    } else if word == b"lockset".as_slice() {
        Kind::BackslashLockset
    } else if word == b"forall".as_slice() {
        Kind::BackslashForall
    } else if word == b"exists".as_slice() {
        Kind::BackslashExists
    } else if word == b"max".as_slice() {
        Kind::BackslashMax
    } else if word == b"sum".as_slice() {
        Kind::BackslashSum
    } else if word == b"num_of".as_slice() {
        Kind::BackslashNumOf
    } else {
        Kind::BackslashOther
    }
}
