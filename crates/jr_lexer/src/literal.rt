//! What literals stand for.

ghost use Rattle.std.specs.Prelude.{◌≡◌, ◌<◌, ◌≤◌, ◌+◌, false, length, min, slice_index, true, All};
ghost use Rattle.std.specs.Char.{is_ascii_digit};
ghost use Rattle.jr_lexer.specs.Lexical as spec;
ghost use Rattle.jr_lexer.specs.Literals.{Quotes};
ghost use Rattle.jr_lexer.specs.Numbers.{big_long};

use crate::number::BIG_LONG;
use crate::scan::{Class, byte, run};
use jr_base::Memory;
use std::alloc::Global;

/// How many digits the literal at the front has.
pub(crate) fn digits(z: &[u8]) -> usize
    requires { is_ascii_digit (slice_index z.now 0) ≡ true }
    ensures value { result ≡ spec.digits z.now }
    ensures within { (1 ≤ result) × (result ≤ length z.now) }
{
    if byte(z, 0) == b'0' {
        1
    } else {
        run(Class::Digit, z)
    }
}

/// Whether the letter of `long` stands behind that many digits at the front.
pub(crate) fn is_long(z: &[u8], digits: usize) -> bool
    requires { digits ≡ spec.digits z.now }
    ensures value { result ≡ spec.is_long z.now }
    ensures within { result ≡ true → digits < length z.now }
{
    let b = byte(z, digits);
    b == b'L' || b == b'l'
}

/// The number that decimal digits write, or one more than the greatest literal where it is greater.
pub(crate) fn number_of(digits: &[u8]) -> u64
    ensures { result ≡ min (spec.number_of digits.now) (big_long + 1) }
{
    let mut number: u128 = 0;
    for digit in digits {
        let next = number * 10 + u128::from(digit.saturating_sub(b'0'));
        number = next.min(u128::from(BIG_LONG) + 1);
    }
    number as u64
}

/// Reads a string from behind its opening quote on. Gives what it stands for, and how many bytes it takes
/// with its closing quote; nothing where it doesn't end on its line, or has another escape.
pub(crate) fn quoted(alloc: Global, z: &[u8]) -> Result<Option<(Vec<u8>, usize)>, Memory>
    ensures { Quotes (spec.quoted false z.now) result (length z.now) }
{
    let mut text = Vec::new(alloc);
    let mut escaped = false;
    for (at, b) in z.iter().enumerate() {
        if escaped {
            match escape(*b) {
                None => return Ok(None),
                Some(c) => text.push(c)?,
            }
            escaped = false;
        } else if *b == b'"' {
            return Ok(Some((text, at + 1)));
        } else if *b == b'\n' {
            return Ok(None);
        } else if *b == b'\\' {
            escaped = true;
        } else {
            text.push(*b)?;
        }
    }
    Ok(None)
}

fn escape(b: u8) -> Option<u8>
    ensures { result ≡ spec.escape b }
{
    match b {
        b'n' => Some(b'\n'),
        b't' => Some(b'\t'),
        b'"' => Some(b'"'),
        b'\\' => Some(b'\\'),
        _ => None,
    }
}
