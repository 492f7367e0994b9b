//! The numbers that integer literals write.

ghost use Rattle.std.specs.Prelude.{◌≡◌, ◌≤◌};
ghost use Rattle.jr_lexer.specs.Numbers as spec;

/// What an integer literal writes (JLS 3.10.1).
#[derive(Clone, Copy, Debug, PartialEq, Eq)]
pub struct Number {
    /// The number of its digits, at most `big_literal` of its type.
    pub value: u64,
    /// Whether its type is `long`: it ends in `L` or `l`. If not, its type is `int`.
    pub is_long: bool,
}

/// What a token writes that is no integer literal.
pub(crate) const NO_NUMBER: Number = Number {
    value: 0,
    is_long: false,
};

/// The big literal of `int`.
const BIG_INT: u64 = 2_147_483_648;

/// The big literal of `long`.
pub(crate) const BIG_LONG: u64 = 9_223_372_036_854_775_808;

/// The big literal of `long`, where that is asked for, or of `int`: one more than the greatest number of
/// the type. It is the greatest literal that there is, and stands only under a unary minus (JLS 3.10.1).
#[tactic(auto, unfolding(crate::specs::Numbers::big_literal))]
pub fn big_literal(is_long: bool) -> u64
    ensures value { result ≡ spec.big_literal is_long }
    ensures bound { result ≤ spec.big_long }
{
    if is_long { BIG_LONG } else { BIG_INT }
}
