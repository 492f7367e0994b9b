//! The longest sign at the front of a text.

ghost use Rattle.std.specs.Prelude.{ℕ, Bool, true, ◌≡◌, ◌≤◌, ◌+◌, ◌==◌, ◌∷◌, if◌then◌else◌, length, slice_index, IfSome, Some};
ghost use Rattle.jr_lexer.specs.Signs as spec;
ghost use Rattle.jr_lexer.specs.Found.{found, IsWithin};

use crate::kind::Kind;
use crate::scan::byte;

/// A sign's kind, and its length in bytes.
pub(crate) type Sign = (Kind, usize);

#[tactic(auto, unfolding(crate::specs::Signs::longest_sign))]
pub(crate) fn longest_sign(jml: bool, z: &[u8]) -> Option<Sign>
    ensures value { result ≡ found (spec.longest_sign jml z.now) }
    ensures within { IfSome result (IsWithin z.now) }
{
    let [first, rest @ ..] = z else {
        return None;
    };
    match *first {
        b'.' => Some((Kind::Dot, 1)),
        b';' => Some((Kind::Semicolon, 1)),
        b',' => Some((Kind::Comma, 1)),
        b'(' => Some((Kind::OpenParen, 1)),
        b')' => Some((Kind::CloseParen, 1)),
        b'[' => Some((Kind::OpenBracket, 1)),
        b']' => Some((Kind::CloseBracket, 1)),
        b'{' => Some((Kind::OpenBrace, 1)),
        b'}' => Some((Kind::CloseBrace, 1)),
        b'@' => Some((Kind::At, 1)),
        b'?' => Some((Kind::Question, 1)),
        b':' => Some((Kind::Colon, 1)),
        b'~' => Some((Kind::Tilde, 1)),
        b'=' => Some(equal(jml, rest)),
        b'+' => Some(plus(rest)),
        b'-' => Some(minus(rest)),
        b'*' => Some(one_or_two(rest, Kind::Star, Kind::StarEqual)),
        b'/' => Some(one_or_two(rest, Kind::Slash, Kind::SlashEqual)),
        b'%' => Some(one_or_two(rest, Kind::Percent, Kind::PercentEqual)),
        b'^' => Some(one_or_two(rest, Kind::Caret, Kind::CaretEqual)),
        b'&' => Some(and(rest)),
        b'|' => Some(or(rest)),
        b'!' => Some(one_or_two(rest, Kind::Not, Kind::NotEqual)),
        b'<' => Some(less(jml, rest)),
        b'>' => Some(greater(rest)),
        _ => None,
    }
}

/// A sign of one byte, or of that byte and `=`.
fn one_or_two(rest: &[u8], one: Kind, two: Kind) -> Sign
    ensures value { result ≡ (if slice_index rest.now 0 == 61 then (two, 2) else (one, 1)) }
    ensures within { (1 ≤ result.1) × (result.1 ≤ length rest.now + 1) }
{
    if byte(rest, 0) == b'=' {
        (two, 2)
    } else {
        (one, 1)
    }
}

#[tactic(auto, unfolding(crate::specs::Signs::longest_sign))]
fn equal(jml: bool, rest: &[u8]) -> Sign
    ensures value { Some result ≡ found (spec.longest_sign jml (61 ∷ rest.now)) }
    ensures within { (1 ≤ result.1) × (result.1 ≤ length rest.now + 1) }
{
    if byte(rest, 0) != b'=' {
        (Kind::Equal, 1)
    } else if jml && byte(rest, 1) == b'>' {
        (Kind::Implies, 3)
    } else {
        (Kind::EqualEqual, 2)
    }
}

#[tactic(auto, unfolding(crate::specs::Signs::longest_sign))]
fn plus(rest: &[u8]) -> Sign
    ensures value { (jml : Bool) → Some result ≡ found (spec.longest_sign jml (43 ∷ rest.now)) }
    ensures within { (1 ≤ result.1) × (result.1 ≤ length rest.now + 1) }
{
    match byte(rest, 0) {
        b'+' => (Kind::PlusPlus, 2),
        b'=' => (Kind::PlusEqual, 2),
        _ => (Kind::Plus, 1),
    }
}

#[tactic(auto, unfolding(crate::specs::Signs::longest_sign))]
fn minus(rest: &[u8]) -> Sign
    ensures value { (jml : Bool) → Some result ≡ found (spec.longest_sign jml (45 ∷ rest.now)) }
    ensures within { (1 ≤ result.1) × (result.1 ≤ length rest.now + 1) }
{
    match byte(rest, 0) {
        b'-' => (Kind::MinusMinus, 2),
        b'=' => (Kind::MinusEqual, 2),
        b'>' => (Kind::Arrow, 2),
        _ => (Kind::Minus, 1),
    }
}

#[tactic(auto, unfolding(crate::specs::Signs::longest_sign))]
fn and(rest: &[u8]) -> Sign
    ensures value { (jml : Bool) → Some result ≡ found (spec.longest_sign jml (38 ∷ rest.now)) }
    ensures within { (1 ≤ result.1) × (result.1 ≤ length rest.now + 1) }
{
    match byte(rest, 0) {
        b'&' => (Kind::AndAnd, 2),
        b'=' => (Kind::AndEqual, 2),
        _ => (Kind::And, 1),
    }
}

#[tactic(auto, unfolding(crate::specs::Signs::longest_sign))]
fn or(rest: &[u8]) -> Sign
    ensures value { (jml : Bool) → Some result ≡ found (spec.longest_sign jml (124 ∷ rest.now)) }
    ensures within { (1 ≤ result.1) × (result.1 ≤ length rest.now + 1) }
{
    match byte(rest, 0) {
        b'|' => (Kind::OrOr, 2),
        b'=' => (Kind::OrEqual, 2),
        _ => (Kind::Or, 1),
    }
}

#[tactic(auto, unfolding(crate::specs::Signs::longest_sign))]
fn less(jml: bool, rest: &[u8]) -> Sign
    ensures value { Some result ≡ found (spec.longest_sign jml (60 ∷ rest.now)) }
    ensures within { (1 ≤ result.1) × (result.1 ≤ length rest.now + 1) }
{
    match byte(rest, 0) {
        b'=' if jml => less_equal(rest),
        b'=' => (Kind::LessEqual, 2),
        b'<' if byte(rest, 1) == b'=' => (Kind::ShiftLeftEqual, 3),
        b'<' => (Kind::ShiftLeft, 2),
        _ => (Kind::Less, 1),
    }
}

/// A sign of JML that begins with `<=`, which is at the front.
#[tactic(auto, unfolding(crate::specs::Signs::longest_sign))]
fn less_equal(rest: &[u8]) -> Sign
    requires { slice_index rest.now 0 ≡ 61 }
    ensures value { Some result ≡ found (spec.longest_sign true (60 ∷ rest.now)) }
    ensures within { (1 ≤ result.1) × (result.1 ≤ length rest.now + 1) }
{
    let (second, third) = (byte(rest, 1), byte(rest, 2));
    if second == b'!' && third == b'=' && byte(rest, 3) == b'>' {
        (Kind::NotEquivalent, 5)
    } else if second == b'=' && third == b'>' {
        (Kind::Equivalent, 4)
    } else if second == b'=' {
        (Kind::ImpliedBy, 3)
    } else {
        (Kind::LessEqual, 2)
    }
}

#[tactic(auto, unfolding(crate::specs::Signs::longest_sign))]
fn greater(rest: &[u8]) -> Sign
    ensures value { (jml : Bool) → Some result ≡ found (spec.longest_sign jml (62 ∷ rest.now)) }
    ensures within { (1 ≤ result.1) × (result.1 ≤ length rest.now + 1) }
{
    match byte(rest, 0) {
        b'=' => (Kind::GreaterEqual, 2),
        b'>' => shift_right(rest),
        _ => (Kind::Greater, 1),
    }
}

/// A sign that begins with `>>`, which is at the front.
#[tactic(auto, unfolding(crate::specs::Signs::longest_sign))]
fn shift_right(rest: &[u8]) -> Sign
    requires { slice_index rest.now 0 ≡ 62 }
    ensures value { (jml : Bool) → Some result ≡ found (spec.longest_sign jml (62 ∷ rest.now)) }
    ensures within { (1 ≤ result.1) × (result.1 ≤ length rest.now + 1) }
{
    match byte(rest, 1) {
        b'=' => (Kind::ShiftRightEqual, 3),
        b'>' if byte(rest, 2) == b'=' => (Kind::ShiftRightUnsignedEqual, 4),
        b'>' => (Kind::ShiftRightUnsigned, 3),
        _ => (Kind::ShiftRight, 2),
    }
}
