//! What each operator gives in both modes of arithmetic, and where it is stuck.

use crate::outcome::{Stuck, binary, unary};
use jr_arith::{Arithmetic, Binary, Bitwise, Comparison, Shift, Unary, Width};
use jr_base::{ObjId, Value};
use jr_program::Mode;
use std::test::Fail;

const INT_LEAST: i32 = -2147483648;

const INT_MOST: i32 = 2147483647;

const LONG_LEAST: i64 = -9223372036854775808;

const LONG_MOST: i64 = 9223372036854775807;

/// In Java's mode results wrap, in safe mathematics they are Undefined; by zero both are.
#[test]
fn arithmetic_of_ints_in_both_modes(rt: HostRuntime) -> Result<(), Fail> {
    for (word, a, b, java, safe) in [
        (Arithmetic::Add, 2, 3, Some(5), Some(5)),
        (Arithmetic::Add, INT_MOST, 1, Some(INT_LEAST), None),
        (Arithmetic::Subtract, INT_LEAST, 1, Some(INT_MOST), None),
        (Arithmetic::Multiply, 65536, 65536, Some(0), None),
        (Arithmetic::Divide, -7, 2, Some(-3), Some(-3)),
        (Arithmetic::Divide, INT_LEAST, -1, Some(INT_LEAST), None),
        (Arithmetic::Divide, 1, 0, None, None),
        (Arithmetic::Remainder, -7, 2, Some(-1), Some(-1)),
        (Arithmetic::Remainder, INT_LEAST, -1, Some(0), Some(0)),
        (Arithmetic::Remainder, 1, 0, None, None),
    ] {
        let operator = Binary::Arithmetic(word, Width::Int);
        let (a, b) = (Value::Int(a), Value::Int(b));
        let in_java = java.map(Value::Int).ok_or(Stuck::Undefined);
        let in_safe = safe.map(Value::Int).ok_or(Stuck::Undefined);
        assert_eq!(rt; binary(Mode::Java, operator, a, b), in_java);
        assert_eq!(rt; binary(Mode::Safe, operator, a, b), in_safe);
    }
    Ok(())
}

#[test]
fn arithmetic_of_longs_in_both_modes(rt: HostRuntime) -> Result<(), Fail> {
    for (word, a, b, java, safe) in [
        (Arithmetic::Add, LONG_MOST, 1, Some(LONG_LEAST), None),
        (Arithmetic::Subtract, LONG_LEAST, 1, Some(LONG_MOST), None),
        (Arithmetic::Multiply, 4294967296, 4294967296, Some(0), None),
        (
            Arithmetic::Multiply,
            65536,
            65536,
            Some(4294967296),
            Some(4294967296),
        ),
        (Arithmetic::Divide, LONG_LEAST, -1, Some(LONG_LEAST), None),
        (Arithmetic::Divide, 1, 0, None, None),
        (Arithmetic::Remainder, LONG_LEAST, -1, Some(0), Some(0)),
        (Arithmetic::Remainder, 1, 0, None, None),
    ] {
        let operator = Binary::Arithmetic(word, Width::Long);
        let (a, b) = (Value::Long(a), Value::Long(b));
        let in_java = java.map(Value::Long).ok_or(Stuck::Undefined);
        let in_safe = safe.map(Value::Long).ok_or(Stuck::Undefined);
        assert_eq!(rt; binary(Mode::Java, operator, a, b), in_java);
        assert_eq!(rt; binary(Mode::Safe, operator, a, b), in_safe);
    }
    Ok(())
}

/// A unary minus of the least number is stuck in safe mathematics alone.
#[test]
fn unary_operators_in_both_modes(rt: HostRuntime) -> Result<(), Fail> {
    let int_least = Value::Int(INT_LEAST);
    let long_least = Value::Long(LONG_LEAST);
    let stuck = Err(Stuck::Undefined);
    for (operator, a, java, safe) in [
        (
            Unary::Negate(Width::Int),
            Value::Int(5),
            Ok(Value::Int(-5)),
            Ok(Value::Int(-5)),
        ),
        (Unary::Negate(Width::Int), int_least, Ok(int_least), stuck),
        (
            Unary::Negate(Width::Long),
            long_least,
            Ok(long_least),
            stuck,
        ),
        (
            Unary::Complement(Width::Int),
            Value::Int(5),
            Ok(Value::Int(-6)),
            Ok(Value::Int(-6)),
        ),
        (
            Unary::Complement(Width::Long),
            Value::Long(-1),
            Ok(Value::Long(0)),
            Ok(Value::Long(0)),
        ),
        (
            Unary::Not,
            Value::Bool(true),
            Ok(Value::Bool(false)),
            Ok(Value::Bool(false)),
        ),
    ] {
        assert_eq!(rt; unary(Mode::Java, operator, Ok(a)), java);
        assert_eq!(rt; unary(Mode::Safe, operator, Ok(a)), safe);
    }
    Ok(())
}

/// The other operators have a result in either mode.
#[test]
fn other_operators_in_both_modes(rt: HostRuntime) -> Result<(), Fail> {
    let (one, two) = (Value::Int(1), Value::Int(2));
    let (twelve, ten) = (Value::Int(12), Value::Int(10));
    let (yes, no) = (Value::Bool(true), Value::Bool(false));
    let object = Value::Ref(ObjId(9));
    for (operator, a, b, result) in [
        (
            Binary::Bitwise(Bitwise::And, Width::Int),
            twelve,
            ten,
            Value::Int(8),
        ),
        (
            Binary::Bitwise(Bitwise::Or, Width::Int),
            twelve,
            ten,
            Value::Int(14),
        ),
        (
            Binary::Bitwise(Bitwise::Xor, Width::Int),
            twelve,
            ten,
            Value::Int(6),
        ),
        (
            Binary::Bitwise(Bitwise::And, Width::Long),
            Value::Long(-1),
            Value::Long(5),
            Value::Long(5),
        ),
        (
            Binary::Shift(Shift::Left, Width::Int),
            one,
            Value::Int(31),
            Value::Int(INT_LEAST),
        ),
        (
            Binary::Shift(Shift::Right, Width::Int),
            Value::Int(-16),
            two,
            Value::Int(-4),
        ),
        (
            Binary::Shift(Shift::RightUnsigned, Width::Int),
            Value::Int(-1),
            Value::Int(28),
            Value::Int(15),
        ),
        (
            Binary::Shift(Shift::Left, Width::Long),
            Value::Long(1),
            Value::Int(63),
            Value::Long(LONG_LEAST),
        ),
        (Binary::Compare(Comparison::Less, Width::Int), one, two, yes),
        (
            Binary::Compare(Comparison::LessEqual, Width::Int),
            two,
            one,
            no,
        ),
        (
            Binary::Compare(Comparison::Greater, Width::Int),
            one,
            two,
            no,
        ),
        (
            Binary::Compare(Comparison::GreaterEqual, Width::Int),
            two,
            two,
            yes,
        ),
        (Binary::Compare(Comparison::Equal, Width::Int), one, two, no),
        (
            Binary::Compare(Comparison::NotEqual, Width::Int),
            one,
            two,
            yes,
        ),
        (
            Binary::Compare(Comparison::Less, Width::Long),
            Value::Long(LONG_LEAST),
            Value::Long(LONG_MOST),
            yes,
        ),
        (Binary::BothTrue, yes, no, no),
        (Binary::EitherTrue, yes, no, yes),
        (Binary::Differ, yes, no, yes),
        (Binary::Agree, yes, no, no),
        (Binary::SameReference, Value::Null, Value::Null, yes),
        (Binary::OtherReference, object, Value::Null, yes),
    ] {
        assert_eq!(rt;
            binary(Mode::Java, operator, a, b),
            Ok(result),
            "{operator:?}"
        );
        assert_eq!(rt;
            binary(Mode::Safe, operator, a, b),
            Ok(result),
            "{operator:?}"
        );
    }
    Ok(())
}
