//! The operators and their levels.

ghost use Rattle.std.specs.Prelude.{◌≡◌};
ghost use Rattle.jr_expr_parser.specs.Operators as table;

use jr_ast::{AssignOp, Bound, Infix, Postfix, Prefix, Quantifier};
use jr_lexer::Kind;

/// How the operators of a level stand between their operands.
#[derive(Clone, Copy, Debug, PartialEq, Eq)]
pub enum Grouping {
    /// Assignments, which group to the right.
    Assigns,
    /// `? :`, which groups to the right.
    Chooses,
    /// `==>`, which groups to the right.
    Implies,
    /// At most one.
    Once,
    ToTheLeft,
}

/// The level of prefixes, the last one of operators between operands and the next.
pub const PREFIX: u8 = 16;

#[tactic(auto, unfolding(crate::specs::Operators::grouping_of))]
pub fn grouping_of(level: u8) -> Grouping
    ensures { result ≡ table.grouping_of level }
{
    match level {
        1 => Grouping::Assigns,
        2 => Grouping::Chooses,
        4 => Grouping::Implies,
        12 => Grouping::Once,
        _ => Grouping::ToTheLeft,
    }
}

/// The operator before an operand.
pub fn prefix_of(jml: bool, kind: Kind) -> Option<Prefix>
    ensures { result ≡ table.prefix_of jml kind }
{
    match kind {
        Kind::Minus => Some(Prefix::Negate),
        Kind::Plus => Some(Prefix::Plus),
        Kind::Not => Some(Prefix::Not),
        Kind::Tilde => Some(Prefix::Complement),
        Kind::PlusPlus if !jml => Some(Prefix::Increment),
        Kind::MinusMinus if !jml => Some(Prefix::Decrement),
        _ => None,
    }
}

/// The operator behind an operand.
pub fn postfix_of(jml: bool, kind: Kind) -> Option<Postfix>
    ensures { result ≡ table.postfix_of jml kind }
{
    match kind {
        Kind::PlusPlus if !jml => Some(Postfix::Increment),
        Kind::MinusMinus if !jml => Some(Postfix::Decrement),
        _ => None,
    }
}

/// The operator between two operands, with its level.
pub fn infix_of(jml: bool, kind: Kind) -> Option<(u8, Infix)>
    ensures { result ≡ table.infix_of jml kind }
{
    match kind {
        Kind::Equivalent if jml => Some((3, Infix::Equivalent)),
        Kind::NotEquivalent if jml => Some((3, Infix::NotEquivalent)),
        Kind::Implies if jml => Some((4, Infix::Implies)),
        Kind::ImpliedBy if jml => Some((5, Infix::ImpliedBy)),
        Kind::OrOr => Some((6, Infix::Or)),
        Kind::AndAnd => Some((7, Infix::And)),
        Kind::Or => Some((8, Infix::BitOr)),
        Kind::Caret => Some((9, Infix::BitXor)),
        Kind::And => Some((10, Infix::BitAnd)),
        Kind::EqualEqual => Some((11, Infix::Equal)),
        Kind::NotEqual => Some((11, Infix::NotEqual)),
        Kind::Less => Some((12, Infix::Less)),
        Kind::LessEqual => Some((12, Infix::LessEqual)),
        Kind::Greater => Some((12, Infix::Greater)),
        Kind::GreaterEqual => Some((12, Infix::GreaterEqual)),
        Kind::ShiftLeft => Some((13, Infix::ShiftLeft)),
        Kind::ShiftRight => Some((13, Infix::ShiftRight)),
        Kind::ShiftRightUnsigned => Some((13, Infix::ShiftRightUnsigned)),
        Kind::Plus => Some((14, Infix::Add)),
        Kind::Minus => Some((14, Infix::Subtract)),
        Kind::Star => Some((15, Infix::Multiply)),
        Kind::Slash => Some((15, Infix::Divide)),
        Kind::Percent => Some((15, Infix::Remainder)),
        _ => None,
    }
}

/// The operator that assigns.
pub fn assignment_of(jml: bool, kind: Kind) -> Option<AssignOp>
    ensures { result ≡ table.assignment_of jml kind }
{
    match kind {
        Kind::Equal if !jml => Some(AssignOp::Assign),
        Kind::PlusEqual if !jml => Some(AssignOp::Add),
        Kind::MinusEqual if !jml => Some(AssignOp::Subtract),
        Kind::StarEqual if !jml => Some(AssignOp::Multiply),
        Kind::SlashEqual if !jml => Some(AssignOp::Divide),
        Kind::PercentEqual if !jml => Some(AssignOp::Remainder),
        Kind::AndEqual if !jml => Some(AssignOp::BitAnd),
        Kind::OrEqual if !jml => Some(AssignOp::BitOr),
        Kind::CaretEqual if !jml => Some(AssignOp::BitXor),
        Kind::ShiftLeftEqual if !jml => Some(AssignOp::ShiftLeft),
        Kind::ShiftRightEqual if !jml => Some(AssignOp::ShiftRight),
        Kind::ShiftRightUnsignedEqual if !jml => Some(AssignOp::ShiftRightUnsigned),
        _ => None,
    }
}

/// The level of a token as an operator that has an operand on its left; 18 for what may follow a primary.
pub fn reach(kind: Kind) -> u8
    ensures { result ≡ table.reach kind }
{
    match kind {
        Kind::Equal
        | Kind::PlusEqual
        | Kind::MinusEqual
        | Kind::StarEqual
        | Kind::SlashEqual
        | Kind::PercentEqual
        | Kind::AndEqual
        | Kind::OrEqual
        | Kind::CaretEqual
        | Kind::ShiftLeftEqual
        | Kind::ShiftRightEqual
        | Kind::ShiftRightUnsignedEqual => 1,
        Kind::Question => 2,
        Kind::Equivalent | Kind::NotEquivalent => 3,
        Kind::Implies => 4,
        Kind::ImpliedBy => 5,
        Kind::OrOr => 6,
        Kind::AndAnd => 7,
        Kind::Or => 8,
        Kind::Caret => 9,
        Kind::And => 10,
        Kind::EqualEqual | Kind::NotEqual => 11,
        Kind::Less | Kind::LessEqual | Kind::Greater | Kind::GreaterEqual => 12,
        Kind::ShiftLeft | Kind::ShiftRight | Kind::ShiftRightUnsigned => 13,
        Kind::Plus | Kind::Minus => 14,
        Kind::Star | Kind::Slash | Kind::Percent => 15,
        Kind::PlusPlus | Kind::MinusMinus => 17,
        Kind::Dot | Kind::OpenBracket | Kind::OpenParen => 18,
        _ => 0,
    }
}

/// The sign of a bound.
pub fn bound_of(kind: Kind) -> Option<Bound>
    ensures { result ≡ table.bound_of kind }
{
    match kind {
        Kind::Less => Some(Bound::Exclusive),
        Kind::LessEqual => Some(Bound::Inclusive),
        _ => None,
    }
}

pub fn quantifier_of(kind: Kind) -> Option<Quantifier>
    ensures { result ≡ table.quantifier_of kind }
{
    match kind {
        Kind::BackslashForall => Some(Quantifier::ForAll),
        Kind::BackslashExists => Some(Quantifier::Exists),
        _ => None,
    }
}

/// Whether a token makes what stands before it the operand of another than the `-` in front: `++` and `--` of
/// code, `.` and `[`.
pub fn extends(jml: bool, kind: Kind) -> bool
    ensures { result ≡ table.extends jml kind }
{
    match kind {
        Kind::PlusPlus | Kind::MinusMinus => !jml,
        Kind::Dot | Kind::OpenBracket => true,
        _ => false,
    }
}
