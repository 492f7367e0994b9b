//! Operators by the types of their operands.

ghost use Rattle.std.specs.Prelude.{◌≡◌};
ghost use Rattle.jr_typing_rules.specs.Operators as spec;

use crate::types::{BOOLEAN, INT, is_boolean, is_number, number, width_of};
use jr_arith::{Arithmetic, Binary, Bitwise, Comparison, Shift, Unary, Width};
use jr_ast::{AssignOp, Infix, Prefix};
use jr_names::{Names, is_reference};
use jr_typing_rules::{Joint, Operation, Single, ValueType};

fn are_booleans(a: ValueType, b: ValueType) -> bool
    ensures { result ≡ spec.booleans a b }
{
    is_boolean(a) && is_boolean(b)
}

/// Two references, of which one may stand for the other (JLS 15.21.3).
fn are_references(names: &Names<'_>, a: ValueType, b: ValueType) -> bool
    ensures { result ≡ spec.references names.now.names a b }
{
    is_reference(a) && is_reference(b) && (names.is_assignable(a, b) || names.is_assignable(b, a))
}

fn wider_width(a: Width, b: Width) -> Width
    ensures { result ≡ spec.wider_width a b }
{
    match a {
        Width::Int => b,
        Width::Long => Width::Long,
    }
}

/// The width that both operands are brought to (JLS 5.6.2).
fn promoted(a: ValueType, b: ValueType) -> Option<Width>
    ensures { result ≡ spec.promoted a b }
{
    match width_of(a) {
        Some(left) => match width_of(b) {
            Some(right) => Some(wider_width(left, right)),
            None => None,
        },
        None => None,
    }
}

/// `+`, `-`, `*`, `/` and `%` (JLS 15.17, 15.18).
fn calculates(op: Arithmetic, a: ValueType, b: ValueType) -> Option<Operation>
    ensures { result ≡ spec.calculates op a b }
{
    match promoted(a, b) {
        Some(width) => Some(Operation {
            joint: Joint::Strict(Binary::Arithmetic(op, width)),
            left: number(width),
            right: number(width),
            of: number(width),
        }),
        None => None,
    }
}

/// `<`, `<=`, `>`, `>=`, and `==` and `!=` of numbers (JLS 15.20.1, 15.21.1).
fn compares(op: Comparison, a: ValueType, b: ValueType) -> Option<Operation>
    ensures { result ≡ spec.compares op a b }
{
    match promoted(a, b) {
        Some(width) => Some(Operation {
            joint: Joint::Strict(Binary::Compare(op, width)),
            left: number(width),
            right: number(width),
            of: BOOLEAN,
        }),
        None => None,
    }
}

/// A shift is of its left operand's width, by an `int` distance (JLS 15.19).
fn shifts(op: Shift, a: ValueType, b: ValueType) -> Option<Operation>
    ensures { result ≡ spec.shifts op a b }
{
    if !is_number(b) {
        return None;
    }
    match width_of(a) {
        Some(width) => Some(Operation {
            joint: Joint::Strict(Binary::Shift(op, width)),
            left: number(width),
            right: INT,
            of: number(width),
        }),
        None => None,
    }
}

fn on_booleans(joint: Joint, a: ValueType, b: ValueType) -> Option<Operation>
    ensures { result ≡ spec.on_booleans joint a b }
{
    if !are_booleans(a, b) {
        return None;
    }
    Some(Operation {
        joint,
        left: BOOLEAN,
        right: BOOLEAN,
        of: BOOLEAN,
    })
}

/// Two numbers or two booleans (JLS 15.22).
fn on_bits(op: Bitwise, on_boolean: Binary, a: ValueType, b: ValueType) -> Option<Operation>
    ensures { result ≡ spec.on_bits op on_boolean a b }
{
    match promoted(a, b) {
        Some(width) => Some(Operation {
            joint: Joint::Strict(Binary::Bitwise(op, width)),
            left: number(width),
            right: number(width),
            of: number(width),
        }),
        None => on_booleans(Joint::Strict(on_boolean), a, b),
    }
}

fn on_references(names: &Names<'_>, op: Binary, a: ValueType, b: ValueType) -> Option<Operation>
    ensures { result ≡ spec.on_references names.now.names op a b }
{
    if !are_references(names, a, b) {
        return None;
    }
    Some(Operation {
        joint: Joint::Strict(op),
        left: a,
        right: b,
        of: BOOLEAN,
    })
}

/// Two numbers, two booleans or two references (JLS 15.21).
fn on_equals(
    names: &Names<'_>,
    op: Comparison,
    on_boolean: Binary,
    on_reference: Binary,
    a: ValueType,
    b: ValueType,
) -> Option<Operation>
    ensures { result ≡ spec.on_equals names.now.names op on_boolean on_reference a b }
{
    if let Some(operation) = compares(op, a, b) {
        return Some(operation);
    }
    if let Some(operation) = on_booleans(Joint::Strict(on_boolean), a, b) {
        return Some(operation);
    }
    on_references(names, on_reference, a, b)
}

/// What an operator between two operands of these types does; none where it takes no such operands (JLS 15.17 to
/// 15.24).
#[tactic(auto, unfolding(jr_typing_rules::specs::Operators::operation))]
pub fn operation_on(
    names: &Names<'_>,
    operator: Infix,
    a: ValueType,
    b: ValueType,
) -> Option<Operation>
    ensures { result ≡ spec.operation names.now.names operator a b }
{
    match operator {
        Infix::Add => calculates(Arithmetic::Add, a, b),
        Infix::Subtract => calculates(Arithmetic::Subtract, a, b),
        Infix::Multiply => calculates(Arithmetic::Multiply, a, b),
        Infix::Divide => calculates(Arithmetic::Divide, a, b),
        Infix::Remainder => calculates(Arithmetic::Remainder, a, b),
        Infix::ShiftLeft => shifts(Shift::Left, a, b),
        Infix::ShiftRight => shifts(Shift::Right, a, b),
        Infix::ShiftRightUnsigned => shifts(Shift::RightUnsigned, a, b),
        Infix::Less => compares(Comparison::Less, a, b),
        Infix::LessEqual => compares(Comparison::LessEqual, a, b),
        Infix::Greater => compares(Comparison::Greater, a, b),
        Infix::GreaterEqual => compares(Comparison::GreaterEqual, a, b),
        Infix::BitAnd => on_bits(Bitwise::And, Binary::BothTrue, a, b),
        Infix::BitXor => on_bits(Bitwise::Xor, Binary::Differ, a, b),
        Infix::BitOr => on_bits(Bitwise::Or, Binary::EitherTrue, a, b),
        Infix::Equal => {
            on_equals(
                names,
                Comparison::Equal,
                Binary::Agree,
                Binary::SameReference,
                a,
                b,
            )
        }
        Infix::NotEqual => {
            on_equals(
                names,
                Comparison::NotEqual,
                Binary::Differ,
                Binary::OtherReference,
                a,
                b,
            )
        }
        Infix::And => on_booleans(Joint::And, a, b),
        Infix::Or => on_booleans(Joint::Or, a, b),
        Infix::Implies => on_booleans(Joint::Implies, a, b),
        Infix::ImpliedBy => on_booleans(Joint::ImpliedBy, a, b),
        Infix::Equivalent => on_booleans(Joint::Strict(Binary::Agree), a, b),
        Infix::NotEquivalent => on_booleans(Joint::Strict(Binary::Differ), a, b),
    }
}

/// Whether it is `==>`, `<==`, `<==>` or `<=!=>`.
pub fn is_of_jml(operator: Infix) -> bool
    ensures { result ≡ spec.is_of_jml operator }
{
    matches!(
        operator,
        Infix::Equivalent | Infix::NotEquivalent | Infix::Implies | Infix::ImpliedBy
    )
}

/// What an operator without effect does to an operand of that type; none where it takes no such operand (JLS 15.15).
#[tactic(auto, unfolding(jr_typing_rules::specs::Operators::single))]
pub fn single(operator: Prefix, of: ValueType) -> Option<Single>
    ensures { result ≡ spec.single operator of }
{
    match operator {
        Prefix::Negate => match width_of(of) {
            Some(width) => Some(Single::Applied(Unary::Negate(width))),
            None => None,
        },
        Prefix::Plus => match width_of(of) {
            Some(_) => Some(Single::Kept),
            None => None,
        },
        Prefix::Complement => match width_of(of) {
            Some(width) => Some(Single::Applied(Unary::Complement(width))),
            None => None,
        },
        Prefix::Not => {
            if is_boolean(of) {
                Some(Single::Applied(Unary::Not))
            } else {
                None
            }
        }
        Prefix::Increment | Prefix::Decrement => None,
    }
}

fn wider_reference(names: &Names<'_>, a: ValueType, b: ValueType) -> Option<ValueType>
    ensures { result ≡ spec.wider_reference names.now.names a b }
{
    if names.is_assignable(b, a) {
        return Some(a);
    }
    if names.is_assignable(a, b) {
        return Some(b);
    }
    None
}

/// The type of a conditional, by those of its operands; none where they don't go together (JLS 15.25).
#[tactic(auto, unfolding(jr_typing_rules::specs::Operators::wider))]
pub fn wider(names: &Names<'_>, a: ValueType, b: ValueType) -> Option<ValueType>
    ensures { result ≡ spec.wider names.now.names a b }
{
    if let Some(width) = promoted(a, b) {
        return Some(number(width));
    }
    if are_booleans(a, b) {
        return Some(BOOLEAN);
    }
    if is_reference(a) && is_reference(b) {
        return wider_reference(names, a, b);
    }
    None
}

/// The operator of a compound assignment (JLS 15.26.2); none of `=`.
pub fn operator_of(operator: AssignOp) -> Option<Infix>
    ensures { result ≡ spec.operator_of operator }
{
    match operator {
        AssignOp::Assign => None,
        AssignOp::Add => Some(Infix::Add),
        AssignOp::Subtract => Some(Infix::Subtract),
        AssignOp::Multiply => Some(Infix::Multiply),
        AssignOp::Divide => Some(Infix::Divide),
        AssignOp::Remainder => Some(Infix::Remainder),
        AssignOp::BitAnd => Some(Infix::BitAnd),
        AssignOp::BitOr => Some(Infix::BitOr),
        AssignOp::BitXor => Some(Infix::BitXor),
        AssignOp::ShiftLeft => Some(Infix::ShiftLeft),
        AssignOp::ShiftRight => Some(Infix::ShiftRight),
        AssignOp::ShiftRightUnsigned => Some(Infix::ShiftRightUnsigned),
    }
}
