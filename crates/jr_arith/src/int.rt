//! Results of `int` (JLS 15.15 to 15.19).

ghost use Rattle.std.specs.Prelude.{Some, ◌≡◌, ◌≢◌, pos, ◌+ℤ◌, ◌-ℤ◌, ◌*ℤ◌, neg_ℤ, int_div, int_rem};
ghost use Rattle.jr_arith.specs.Arithmetic.{fitting, shifted, wrapped};

use crate::operator::{Shift, Width};

/// The sum, at 32 bits.
pub fn add(a: i32, b: i32) -> i32
    ensures { result ≡ wrapped Width.Int (a +ℤ b) }
{
    a.wrapping_add(b)
}

/// The difference, at 32 bits.
pub fn sub(a: i32, b: i32) -> i32
    ensures { result ≡ wrapped Width.Int (a -ℤ b) }
{
    a.wrapping_sub(b)
}

/// The product, at 32 bits.
pub fn mul(a: i32, b: i32) -> i32
    ensures { result ≡ wrapped Width.Int (a *ℤ b) }
{
    a.wrapping_mul(b)
}

/// The quotient, rounded toward zero. The least value by -1 is itself.
pub fn div(a: i32, b: i32) -> i32
    requires { b ≢ pos 0 }
    ensures { result ≡ wrapped Width.Int (int_div a b) }
{
    if b == -1 { neg(a) } else { a / b }
}

/// The remainder, with the dividend's sign. Each is an `int`.
pub fn rem(a: i32, b: i32) -> i32
    requires { b ≢ pos 0 }
    ensures { result ≡ int_rem a b }
{
    a.wrapping_rem(b)
}

/// The opposite number, at 32 bits. The least value's is itself.
pub fn neg(a: i32) -> i32
    ensures { result ≡ wrapped Width.Int (neg_ℤ a) }
{
    a.wrapping_neg()
}

/// The sum, and none where it is past the type's range.
pub fn add_checked(a: i32, b: i32) -> Option<i32>
    ensures { result ≡ fitting Width.Int (a +ℤ b) }
{
    a.checked_add(b)
}

/// The difference, and none where it is past the type's range.
pub fn sub_checked(a: i32, b: i32) -> Option<i32>
    ensures { result ≡ fitting Width.Int (a -ℤ b) }
{
    a.checked_sub(b)
}

/// The product, and none where it is past the type's range.
pub fn mul_checked(a: i32, b: i32) -> Option<i32>
    ensures { result ≡ fitting Width.Int (a *ℤ b) }
{
    a.checked_mul(b)
}

/// The quotient, rounded toward zero, and none for the least value by -1.
pub fn div_checked(a: i32, b: i32) -> Option<i32>
    requires { b ≢ pos 0 }
    ensures { result ≡ fitting Width.Int (int_div a b) }
{
    a.checked_div(b)
}

/// The remainder, with the dividend's sign: no remainder is past the type's range, nor that of the least value by -1.
pub fn rem_checked(a: i32, b: i32) -> Option<i32>
    requires { b ≢ pos 0 }
    ensures { result ≡ Some (int_rem a b) }
{
    Some(rem(a, b))
}

/// The opposite number, and none for the least value.
pub fn neg_checked(a: i32) -> Option<i32>
    ensures { result ≡ fitting Width.Int (neg_ℤ a) }
{
    a.checked_neg()
}

/// The bits moved to the left, by a distance that counts modulo 32.
pub fn shl(a: i32, distance: i32) -> i32
    ensures { result ≡ shifted Shift.Left Width.Int a distance }
{
    a.wrapping_shl(distance.rem_euclid(32) as u32)
}

/// The bits moved to the right, the sign kept, by a distance that counts modulo 32.
pub fn shr(a: i32, distance: i32) -> i32
    ensures { result ≡ shifted Shift.Right Width.Int a distance }
{
    a.wrapping_shr(distance.rem_euclid(32) as u32)
}

/// The bits moved to the right, with zeros behind them, by a distance that counts modulo 32.
pub fn ushr(a: i32, distance: i32) -> i32
    ensures { result ≡ shifted Shift.RightUnsigned Width.Int a distance }
{
    (a.cast_unsigned() >> (distance.rem_euclid(32) as u32)).cast_signed()
}
