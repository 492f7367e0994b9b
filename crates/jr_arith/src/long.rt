//! Results of `long` (JLS 15.15 to 15.19).

ghost use Rattle.std.specs.Prelude.{Some, ◌≡◌, ◌≢◌, pos, ◌+ℤ◌, ◌-ℤ◌, ◌*ℤ◌, neg_ℤ, int_div, int_rem};
ghost use Rattle.jr_arith.specs.Arithmetic.{fitting, shifted, wrapped};

use crate::operator::{Shift, Width};

/// The sum, at 64 bits.
pub fn add_long(a: i64, b: i64) -> i64
    ensures { result ≡ wrapped Width.Long (a +ℤ b) }
{
    a.wrapping_add(b)
}

/// The difference, at 64 bits.
pub fn sub_long(a: i64, b: i64) -> i64
    ensures { result ≡ wrapped Width.Long (a -ℤ b) }
{
    a.wrapping_sub(b)
}

/// The product, at 64 bits.
pub fn mul_long(a: i64, b: i64) -> i64
    ensures { result ≡ wrapped Width.Long (a *ℤ b) }
{
    a.wrapping_mul(b)
}

/// The quotient, rounded toward zero. The least value by -1 is itself.
pub fn div_long(a: i64, b: i64) -> i64
    requires { b ≢ pos 0 }
    ensures { result ≡ wrapped Width.Long (int_div a b) }
{
    if b == -1 { neg_long(a) } else { a / b }
}

/// The remainder, with the dividend's sign. Each is a `long`.
pub fn rem_long(a: i64, b: i64) -> i64
    requires { b ≢ pos 0 }
    ensures { result ≡ int_rem a b }
{
    a.wrapping_rem(b)
}

/// The opposite number, at 64 bits. The least value's is itself.
pub fn neg_long(a: i64) -> i64
    ensures { result ≡ wrapped Width.Long (neg_ℤ a) }
{
    a.wrapping_neg()
}

/// The sum, and none where it is past the type's range.
pub fn add_checked_long(a: i64, b: i64) -> Option<i64>
    ensures { result ≡ fitting Width.Long (a +ℤ b) }
{
    a.checked_add(b)
}

/// The difference, and none where it is past the type's range.
pub fn sub_checked_long(a: i64, b: i64) -> Option<i64>
    ensures { result ≡ fitting Width.Long (a -ℤ b) }
{
    a.checked_sub(b)
}

/// The product, and none where it is past the type's range.
pub fn mul_checked_long(a: i64, b: i64) -> Option<i64>
    ensures { result ≡ fitting Width.Long (a *ℤ b) }
{
    a.checked_mul(b)
}

/// The quotient, rounded toward zero, and none for the least value by -1.
pub fn div_checked_long(a: i64, b: i64) -> Option<i64>
    requires { b ≢ pos 0 }
    ensures { result ≡ fitting Width.Long (int_div a b) }
{
    a.checked_div(b)
}

/// The remainder, with the dividend's sign: no remainder is past the type's range, nor that of the least value by -1.
pub fn rem_checked_long(a: i64, b: i64) -> Option<i64>
    requires { b ≢ pos 0 }
    ensures { result ≡ Some (int_rem a b) }
{
    Some(rem_long(a, b))
}

/// The opposite number, and none for the least value.
pub fn neg_checked_long(a: i64) -> Option<i64>
    ensures { result ≡ fitting Width.Long (neg_ℤ a) }
{
    a.checked_neg()
}

/// The bits moved to the left, by a distance that counts modulo 64.
pub fn shl_long(a: i64, distance: i32) -> i64
    ensures { result ≡ shifted Shift.Left Width.Long a distance }
{
    a.wrapping_shl(distance.rem_euclid(64) as u32)
}

/// The bits moved to the right, the sign kept, by a distance that counts modulo 64.
pub fn shr_long(a: i64, distance: i32) -> i64
    ensures { result ≡ shifted Shift.Right Width.Long a distance }
{
    a.wrapping_shr(distance.rem_euclid(64) as u32)
}

/// The bits moved to the right, with zeros behind them, by a distance that counts modulo 64.
pub fn ushr_long(a: i64, distance: i32) -> i64
    ensures { result ≡ shifted Shift.RightUnsigned Width.Long a distance }
{
    (a.cast_unsigned() >> (distance.rem_euclid(64) as u32)).cast_signed()
}
