//! Operators on values. No caller needs to know what a value is: what is no operand of an operator counts as
//! 0 or false, as the definitions have it.

ghost use Rattle.std.specs.Prelude.{◌≡◌, true};
ghost use Rattle.std.specs.Option.{option_map, option_map_or};
ghost use Rattle.jr_arith.specs.Arithmetic.{bitwise, compared, exact, fits, shifted, wrapped};
ghost use Rattle.jr_arith.specs.Operators as spec;

use crate::operator::{Arithmetic, Binary, Bitwise, Comparison, Shift, Unary, Width};
use crate::{int, long};
use jr_base::Value;

fn int_of(value: Value) -> i32
    ensures { result ≡ spec.number_in Width.Int value }
{
    match value {
        Value::Int(n) => n,
        _ => 0,
    }
}

fn long_of(value: Value) -> i64
    ensures { result ≡ spec.number_in Width.Long value }
{
    match value {
        Value::Long(n) => n,
        _ => 0,
    }
}

fn truth_of(value: Value) -> bool
    ensures { result ≡ spec.truth_of value }
{
    match value {
        Value::Bool(b) => b,
        _ => false,
    }
}

fn same_reference(a: Value, b: Value) -> bool
    ensures { result ≡ spec.same_reference a b }
{
    match (a, b) {
        (Value::Null, Value::Null) => true,
        (Value::Ref(a), Value::Ref(b)) => a.0 == b.0,
        _ => false,
    }
}

impl Width {
    /// A number of the other type as one of this: an int as a long is the same number (JLS 5.1.2), and of
    /// a long the low 32 bits are left (JLS 5.1.3). A number of this type stays, and what is none is 0.
    pub fn convert(self, value: Value) -> Value
        ensures { result ≡ spec.converted self value }
    {
        match (self, value) {
            (Width::Int, Value::Int(n)) => Value::Int(n),
            (Width::Int, Value::Long(n)) => Value::Int(low(n)),
            (Width::Int, _) => Value::Int(0),
            (Width::Long, Value::Int(n)) => Value::Long(n as i64),
            (Width::Long, Value::Long(n)) => Value::Long(n),
            (Width::Long, _) => Value::Long(0),
        }
    }
}

// The low 32 bits.
fn low(n: i64) -> i32
    ensures { result ≡ wrapped Width.Int n }
{
    (n.rem_euclid(1 << 32) as u32).cast_signed()
}

impl Arithmetic {
    fn of_ints(self, a: i32, b: i32) -> Option<i32>
        ensures { result ≡ option_map (wrapped Width.Int) (exact self a b) }
    {
        match self {
            Arithmetic::Add => Some(int::add(a, b)),
            Arithmetic::Subtract => Some(int::sub(a, b)),
            Arithmetic::Multiply => Some(int::mul(a, b)),
            Arithmetic::Divide => if b == 0 { None } else { Some(int::div(a, b)) },
            Arithmetic::Remainder => if b == 0 { None } else { Some(int::rem(a, b)) },
        }
    }

    fn of_longs(self, a: i64, b: i64) -> Option<i64>
        ensures { result ≡ option_map (wrapped Width.Long) (exact self a b) }
    {
        match self {
            Arithmetic::Add => Some(long::add_long(a, b)),
            Arithmetic::Subtract => Some(long::sub_long(a, b)),
            Arithmetic::Multiply => Some(long::mul_long(a, b)),
            Arithmetic::Divide => if b == 0 {
                None
            } else {
                Some(long::div_long(a, b))
            },
            Arithmetic::Remainder => if b == 0 {
                None
            } else {
                Some(long::rem_long(a, b))
            },
        }
    }

    // A zero divisor gives no result, which passes.
    fn fits_ints(self, a: i32, b: i32) -> bool
        ensures { result ≡ option_map_or (fits Width.Int) (exact self a b) true }
    {
        match self {
            Arithmetic::Add => int::add_checked(a, b).is_some(),
            Arithmetic::Subtract => int::sub_checked(a, b).is_some(),
            Arithmetic::Multiply => int::mul_checked(a, b).is_some(),
            Arithmetic::Divide => b == 0 || int::div_checked(a, b).is_some(),
            Arithmetic::Remainder => b == 0 || int::rem_checked(a, b).is_some(),
        }
    }

    // A zero divisor gives no result, which passes.
    fn fits_longs(self, a: i64, b: i64) -> bool
        ensures { result ≡ option_map_or (fits Width.Long) (exact self a b) true }
    {
        match self {
            Arithmetic::Add => long::add_checked_long(a, b).is_some(),
            Arithmetic::Subtract => long::sub_checked_long(a, b).is_some(),
            Arithmetic::Multiply => long::mul_checked_long(a, b).is_some(),
            Arithmetic::Divide => b == 0 || long::div_checked_long(a, b).is_some(),
            Arithmetic::Remainder => b == 0 || long::rem_checked_long(a, b).is_some(),
        }
    }

    fn apply(self, width: Width, a: Value, b: Value) -> Option<Value>
        ensures { result ≡ spec.binary_value (Binary.Arithmetic self width) a b }
    {
        match width {
            Width::Int => self.of_ints(int_of(a), int_of(b)).map(Value::Int),
            Width::Long => self.of_longs(long_of(a), long_of(b)).map(Value::Long),
        }
    }
}

impl Bitwise {
    fn of_ints(self, a: i32, b: i32) -> i32
        ensures { result ≡ bitwise self Width.Int a b }
    {
        match self {
            Bitwise::And => a & b,
            Bitwise::Or => a | b,
            Bitwise::Xor => a ^ b,
        }
    }

    fn of_longs(self, a: i64, b: i64) -> i64
        ensures { result ≡ bitwise self Width.Long a b }
    {
        match self {
            Bitwise::And => a & b,
            Bitwise::Or => a | b,
            Bitwise::Xor => a ^ b,
        }
    }

    fn apply(self, width: Width, a: Value, b: Value) -> Value
        ensures { result ≡ spec.number width (bitwise self width (spec.number_in width a) (spec.number_in width b)) }
    {
        match width {
            Width::Int => Value::Int(self.of_ints(int_of(a), int_of(b))),
            Width::Long => Value::Long(self.of_longs(long_of(a), long_of(b))),
        }
    }
}

impl Shift {
    fn of_int(self, a: i32, distance: i32) -> i32
        ensures { result ≡ shifted self Width.Int a distance }
    {
        match self {
            Shift::Left => int::shl(a, distance),
            Shift::Right => int::shr(a, distance),
            Shift::RightUnsigned => int::ushr(a, distance),
        }
    }

    fn of_long(self, a: i64, distance: i32) -> i64
        ensures { result ≡ shifted self Width.Long a distance }
    {
        match self {
            Shift::Left => long::shl_long(a, distance),
            Shift::Right => long::shr_long(a, distance),
            Shift::RightUnsigned => long::ushr_long(a, distance),
        }
    }

    fn apply(self, width: Width, a: Value, b: Value) -> Value
        ensures { result ≡ spec.number width (shifted self width (spec.number_in width a) (spec.number_in Width.Int b)) }
    {
        match width {
            Width::Int => Value::Int(self.of_int(int_of(a), int_of(b))),
            Width::Long => Value::Long(self.of_long(long_of(a), int_of(b))),
        }
    }
}

impl Comparison {
    fn of_ints(self, a: i32, b: i32) -> bool
        ensures { result ≡ compared self a b }
    {
        match self {
            Comparison::Less => a < b,
            Comparison::LessEqual => a <= b,
            Comparison::Greater => b < a,
            Comparison::GreaterEqual => b <= a,
            Comparison::Equal => a == b,
            Comparison::NotEqual => a != b,
        }
    }

    fn of_longs(self, a: i64, b: i64) -> bool
        ensures { result ≡ compared self a b }
    {
        match self {
            Comparison::Less => a < b,
            Comparison::LessEqual => a <= b,
            Comparison::Greater => b < a,
            Comparison::GreaterEqual => b <= a,
            Comparison::Equal => a == b,
            Comparison::NotEqual => a != b,
        }
    }

    fn apply(self, width: Width, a: Value, b: Value) -> bool
        ensures { result ≡ compared self (spec.number_in width a) (spec.number_in width b) }
    {
        match width {
            Width::Int => self.of_ints(int_of(a), int_of(b)),
            Width::Long => self.of_longs(long_of(a), long_of(b)),
        }
    }
}

impl Unary {
    /// What the operator gives before that operand (JLS 15.15).
    pub fn apply(self, a: Value) -> Value
        ensures { result ≡ spec.unary_value self a }
    {
        match self {
            Unary::Negate(Width::Int) => Value::Int(int::neg(int_of(a))),
            Unary::Negate(Width::Long) => Value::Long(long::neg_long(long_of(a))),
            Unary::Complement(Width::Int) => Value::Int(!int_of(a)),
            Unary::Complement(Width::Long) => Value::Long(!long_of(a)),
            Unary::Not => Value::Bool(!truth_of(a)),
        }
    }

    /// Whether the exact result is a value of its type: what safe mathematics asks of a unary minus (JML
    /// Reference Manual, `spec_safe_math`). All other operators pass.
    pub fn fits(self, a: Value) -> bool
        ensures { result ≡ spec.unary_fits self a }
    {
        match self {
            Unary::Negate(Width::Int) => int::neg_checked(int_of(a)).is_some(),
            Unary::Negate(Width::Long) => long::neg_checked_long(long_of(a)).is_some(),
            _ => true,
        }
    }
}

impl Binary {
    /// What the operator gives between those operands (JLS 15.17 to 15.22), and none at a zero divisor.
    pub fn apply(self, a: Value, b: Value) -> Option<Value>
        ensures { result ≡ spec.binary_value self a b }
    {
        match self {
            Binary::Arithmetic(operator, width) => operator.apply(width, a, b),
            Binary::Bitwise(operator, width) => Some(operator.apply(width, a, b)),
            Binary::Shift(operator, width) => Some(operator.apply(width, a, b)),
            Binary::Compare(operator, width) => Some(Value::Bool(operator.apply(width, a, b))),
            Binary::BothTrue => Some(Value::Bool(truth_of(a) & truth_of(b))),
            Binary::EitherTrue => Some(Value::Bool(truth_of(a) | truth_of(b))),
            Binary::Differ => Some(Value::Bool(truth_of(a) != truth_of(b))),
            Binary::Agree => Some(Value::Bool(truth_of(a) == truth_of(b))),
            Binary::SameReference => Some(Value::Bool(same_reference(a, b))),
            Binary::OtherReference => Some(Value::Bool(!same_reference(a, b))),
        }
    }

    /// Whether the exact result is a value of its type: what safe mathematics asks of `+`, `-`, `*`, `/` and
    /// `%` (JML Reference Manual, `spec_safe_math`). A zero divisor gives no result and passes, as do all
    /// other operators.
    pub fn fits(self, a: Value, b: Value) -> bool
        ensures { result ≡ spec.binary_fits self a b }
    {
        match self {
            Binary::Arithmetic(operator, Width::Int) => operator.fits_ints(int_of(a), int_of(b)),
            Binary::Arithmetic(operator, Width::Long) => operator.fits_longs(
                long_of(a),
                long_of(b),
            ),
            _ => true,
        }
    }
}
