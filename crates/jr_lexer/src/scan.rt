//! Bytes of a text, and how far a run of them goes.

ghost use Rattle.std.specs.Prelude.{◌≡◌, ◌≢◌, ◌<◌, ◌≤◌, ◌+◌, length, slice_index, IfSome, true};
ghost use Rattle.std.specs.List.{prefix_len};
ghost use Rattle.jr_lexer.specs.Lexical as spec;
ghost use Rattle.jr_lexer.specs.Classes.{is_in};

/// What a run of bytes is made of.
#[derive(Clone, Copy)]
pub(crate) enum Class {
    /// Letters, digits, `_` and `$`.
    Name,
    /// Letters and `_`.
    Backslash,
    /// Digits.
    Digit,
    /// `@`.
    At,
    /// All but a line feed.
    Line,
}

pub(crate) fn is_blank(b: u8) -> bool
    ensures { result ≡ spec.is_blank b }
{
    b == b' ' || b == b'\t' || b == b'\n' || b == b'\r' || b == 12
}

pub(crate) fn begins_name(b: u8) -> bool
    ensures { result ≡ spec.begins_name b }
{
    b.is_ascii_alphabetic() || b == b'_' || b == b'$'
}

pub(crate) fn is_in(class: Class, b: u8) -> bool
    ensures { result ≡ is_in class b }
{
    match class {
        Class::Name => begins_name(b) || b.is_ascii_digit(),
        Class::Backslash => b.is_ascii_alphabetic() || b == b'_',
        Class::Digit => b.is_ascii_digit(),
        Class::At => b == b'@',
        Class::Line => b != b'\n',
    }
}

/// The byte at a place, or 0 past the end.
pub(crate) fn byte(z: &[u8], at: usize) -> u8
    ensures value { result ≡ slice_index z.now at }
    ensures within { result ≢ 0 → at < length z.now }
{
    if at < z.len() { z[at] } else { 0 }
}

/// How many bytes at the front are of the class.
pub(crate) fn run(class: Class, z: &[u8]) -> usize
    ensures value { result ≡ prefix_len (is_in class) z.now }
    ensures within { result ≤ length z.now }
    ensures moves { 0 < length z.now → is_in class (slice_index z.now 0) ≡ true → 0 < result }
{
    let mut end = 0;
    while end < z.len() && is_in(class, z[end]) {
        end += 1;
    }
    end
}

/// How many bytes stand before the next `*/`.
pub(crate) fn before_close(z: &[u8]) -> Option<usize>
    ensures value { result ≡ spec.before_close z.now }
    ensures within { IfSome result (λ n. n + 2 ≤ length z.now) }
{
    for (at, b) in z.iter().enumerate() {
        if *b == b'*' && byte(z, at + 1) == b'/' {
            return Some(at);
        }
    }
    None
}

/// The text without the `@` at its end.
pub(crate) fn without_last_ats(mut z: &[u8]) -> &[u8]
    ensures value { result.now ≡ spec.without_last_ats z.entry.now }
    ensures within { length result.now ≤ length z.entry.now }
{
    while let [front @ .., last] = z {
        if *last != b'@' {
            return z;
        }
        z = front;
    }
    z
}
