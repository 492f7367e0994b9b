use super::*;
use jr_base::{ObjId, Value};
use std::test::Fail;

// The borders of each operation, as the Java Language Specification has them.

const INT_LEAST: i32 = -2147483648;

const INT_MOST: i32 = 2147483647;

const LONG_LEAST: i64 = -9223372036854775808;

const LONG_MOST: i64 = 9223372036854775807;

fn between(operator: Binary, a: Value, b: Value) -> Option<Value> {
    operator.apply(a, b)
}

#[test]
fn arithmetic_of_ints(rt: HostRuntime) -> Result<(), Fail> {
    // operands, the result, and whether the exact result fits
    let rows = [
        (Arithmetic::Add, INT_MOST, 1, Some(INT_LEAST), false),
        (Arithmetic::Add, INT_LEAST, -1, Some(INT_MOST), false),
        (Arithmetic::Add, INT_MOST, INT_LEAST, Some(-1), true),
        (Arithmetic::Subtract, INT_LEAST, 1, Some(INT_MOST), false),
        (Arithmetic::Subtract, 0, INT_LEAST, Some(INT_LEAST), false),
        (Arithmetic::Subtract, -1, INT_LEAST, Some(INT_MOST), true),
        (Arithmetic::Multiply, 46341, 46341, Some(-2147479015), false),
        (Arithmetic::Multiply, INT_LEAST, -1, Some(INT_LEAST), false),
        (Arithmetic::Multiply, 65536, -32768, Some(INT_LEAST), true),
        (Arithmetic::Divide, INT_LEAST, -1, Some(INT_LEAST), false),
        (Arithmetic::Divide, -7, 2, Some(-3), true),
        (Arithmetic::Divide, 7, -2, Some(-3), true),
        (Arithmetic::Divide, 1, 0, None, true),
        (Arithmetic::Remainder, INT_LEAST, -1, Some(0), true),
        (Arithmetic::Remainder, -7, 2, Some(-1), true),
        (Arithmetic::Remainder, 7, -2, Some(1), true),
        (Arithmetic::Remainder, 1, 0, None, true),
    ];
    for (operator, a, b, result, fits) in rows {
        let binary = Binary::Arithmetic(operator, Width::Int);
        assert_eq!(rt;
            binary.apply(Value::Int(a), Value::Int(b)),
            result.map(Value::Int)
        );
        assert_eq!(rt; binary.fits(Value::Int(a), Value::Int(b)), fits);
    }
    Ok(())
}

#[test]
fn arithmetic_of_longs(rt: HostRuntime) -> Result<(), Fail> {
    let rows = [
        (Arithmetic::Add, LONG_MOST, 1, Some(LONG_LEAST), false),
        (Arithmetic::Add, LONG_MOST, LONG_LEAST, Some(-1), true),
        (Arithmetic::Subtract, LONG_LEAST, 1, Some(LONG_MOST), false),
        (
            Arithmetic::Multiply,
            3037000500,
            3037000500,
            Some(-9223372036709301616),
            false,
        ),
        (
            Arithmetic::Multiply,
            LONG_LEAST,
            -1,
            Some(LONG_LEAST),
            false,
        ),
        (Arithmetic::Divide, LONG_LEAST, -1, Some(LONG_LEAST), false),
        (Arithmetic::Divide, -7, 2, Some(-3), true),
        (Arithmetic::Divide, 7, -2, Some(-3), true),
        (Arithmetic::Divide, 1, 0, None, true),
        (Arithmetic::Remainder, LONG_LEAST, -1, Some(0), true),
        (Arithmetic::Remainder, -7, 2, Some(-1), true),
        (Arithmetic::Remainder, 7, -2, Some(1), true),
        (Arithmetic::Remainder, 1, 0, None, true),
    ];
    for (operator, a, b, result, fits) in rows {
        let binary = Binary::Arithmetic(operator, Width::Long);
        assert_eq!(rt;
            binary.apply(Value::Long(a), Value::Long(b)),
            result.map(Value::Long)
        );
        assert_eq!(rt; binary.fits(Value::Long(a), Value::Long(b)), fits);
    }
    Ok(())
}

#[test]
fn shifts(rt: HostRuntime) -> Result<(), Fail> {
    let ints = [
        (Shift::Left, 1, 31, INT_LEAST),
        (Shift::Left, 1, 32, 1),
        (Shift::Left, 1, 33, 2),
        (Shift::Left, 1, -1, INT_LEAST),
        (Shift::Right, INT_LEAST, 31, -1),
        (Shift::Right, -16, 34, -4),
        (Shift::Right, -16, -30, -4),
        (Shift::RightUnsigned, -1, 28, 15),
        (Shift::RightUnsigned, -1, -1, 1),
        (Shift::RightUnsigned, -1, 32, -1),
    ];
    for (operator, a, distance, result) in ints {
        let given = between(
            Binary::Shift(operator, Width::Int),
            Value::Int(a),
            Value::Int(distance),
        );
        assert_eq!(rt; given, Some(Value::Int(result)));
    }
    let longs = [
        (Shift::Left, 1, 32, 4294967296),
        (Shift::Left, 1, 63, LONG_LEAST),
        (Shift::Left, 1, 64, 1),
        (Shift::Left, 1, -1, LONG_LEAST),
        (Shift::Right, LONG_LEAST, 63, -1),
        (Shift::Right, -16, 66, -4),
        (Shift::RightUnsigned, -1, 60, 15),
        (Shift::RightUnsigned, -1, -1, 1),
        (Shift::RightUnsigned, -1, 64, -1),
    ];
    for (operator, a, distance, result) in longs {
        let given = between(
            Binary::Shift(operator, Width::Long),
            Value::Long(a),
            Value::Int(distance),
        );
        assert_eq!(rt; given, Some(Value::Long(result)));
    }
    Ok(())
}

#[test]
fn others(rt: HostRuntime) -> Result<(), Fail> {
    let one = Value::Ref(ObjId(1));
    let rows = [
        (
            Binary::Bitwise(Bitwise::And, Width::Int),
            Value::Int(-4),
            Value::Int(7),
            Value::Int(4),
        ),
        (
            Binary::Bitwise(Bitwise::Or, Width::Int),
            Value::Int(-4),
            Value::Int(1),
            Value::Int(-3),
        ),
        (
            Binary::Bitwise(Bitwise::Xor, Width::Long),
            Value::Long(-1),
            Value::Long(5),
            Value::Long(-6),
        ),
        (
            Binary::Compare(Comparison::Less, Width::Int),
            Value::Int(INT_LEAST),
            Value::Int(0),
            Value::Bool(true),
        ),
        (
            Binary::Compare(Comparison::GreaterEqual, Width::Long),
            Value::Long(LONG_LEAST),
            Value::Long(LONG_MOST),
            Value::Bool(false),
        ),
        (
            Binary::EitherTrue,
            Value::Bool(false),
            Value::Bool(true),
            Value::Bool(true),
        ),
        (
            Binary::Differ,
            Value::Bool(true),
            Value::Bool(true),
            Value::Bool(false),
        ),
        (
            Binary::SameReference,
            Value::Null,
            Value::Null,
            Value::Bool(true),
        ),
        (Binary::SameReference, one, Value::Null, Value::Bool(false)),
        (
            Binary::OtherReference,
            one,
            Value::Ref(ObjId(2)),
            Value::Bool(true),
        ),
    ];
    for (operator, a, b, result) in rows {
        assert_eq!(rt; between(operator, a, b), Some(result));
    }
    let before = [
        (
            Unary::Negate(Width::Int),
            Value::Int(INT_LEAST),
            Value::Int(INT_LEAST),
            false,
        ),
        (
            Unary::Negate(Width::Int),
            Value::Int(INT_MOST),
            Value::Int(-2147483647),
            true,
        ),
        (
            Unary::Negate(Width::Long),
            Value::Long(LONG_LEAST),
            Value::Long(LONG_LEAST),
            false,
        ),
        (
            Unary::Complement(Width::Int),
            Value::Int(INT_LEAST),
            Value::Int(INT_MOST),
            true,
        ),
        (
            Unary::Complement(Width::Long),
            Value::Long(0),
            Value::Long(-1),
            true,
        ),
        (Unary::Not, Value::Bool(false), Value::Bool(true), true),
    ];
    for (operator, a, result, fits) in before {
        assert_eq!(rt; operator.apply(a), result);
        assert_eq!(rt; operator.fits(a), fits);
    }
    let conversions = [
        (Width::Long, Value::Int(INT_LEAST), Value::Long(-2147483648)),
        (Width::Int, Value::Long(4294967299), Value::Int(3)),
        (Width::Int, Value::Long(2147483648), Value::Int(INT_LEAST)),
        (Width::Int, Value::Long(LONG_LEAST), Value::Int(0)),
        (Width::Int, Value::Long(-2147483649), Value::Int(INT_MOST)),
    ];
    for (width, value, result) in conversions {
        assert_eq!(rt; width.convert(value), result);
    }
    Ok(())
}
