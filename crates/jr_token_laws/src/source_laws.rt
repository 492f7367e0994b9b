//! Laws of the tokens of a source, each a function with no work to do: its contract is the law.

ghost use Rattle.std.specs.Prelude.{◌≡◌, ◌↔◌, ℕ, List, length, IfOk, Ok, IsUtf8};
ghost use Rattle.jr_lexer.specs.Lexical.{tokens};
ghost use Rattle.jr_lexer.specs.Token.{Token};
ghost use Rattle.jr_token_laws.specs.Elements.{HasTokens};
ghost use Rattle.jr_token_laws.specs.Gaps.{GapsStand};
ghost use Rattle.jr_token_laws.specs.Spans.{Rise, AreSpelled};

/// A source has these tokens exactly where it is UTF-8 and is made of blanks, comments, annotations and these tokens, in
/// this order and with nothing between them (JLS 3.5), each token going as far as it can (JLS 3.2). An annotation is made
/// of its marks, of blanks, comments, tokens, and `@` at the start of a line.
pub fn sources_are_made_of_elements()
    ensures { (source : List ℕ) (found : List Token) → (tokens source ≡ Ok found) ↔ (IsUtf8 source × HasTokens source found) }
{}

/// No source is made of elements with other tokens too.
pub fn elements_leave_no_choice()
    ensures { (source : List ℕ) (one other : List Token) → HasTokens source one → HasTokens source other → one ≡ other }
{}

/// Each token of a source takes some bytes of it, behind those of the token before it.
pub fn spans_rise_within_the_source()
    ensures { (source : List ℕ) → IfOk (tokens source) (λ found. Rise 0 found (length source)) }
{}

/// The text of each token is the source at its span, but for string literals.
pub fn texts_are_the_source()
    ensures { (source : List ℕ) → IfOk (tokens source) (λ found. AreSpelled source found) }
{}

/// What stands between two tokens, before the first and behind the last, is blanks, comments and the marks of
/// annotations, and nothing else.
pub fn only_gaps_stand_between_tokens()
    ensures { (source : List ℕ) → IfOk (tokens source) (λ found. GapsStand source 0 found) }
{}
