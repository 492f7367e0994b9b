//! Integer literals.

/// An integer literal (JLS 3.10.1): the number that its digits write, and its type.
#[derive(Clone, Copy, Debug, PartialEq, Eq)]
pub struct IntegerLiteral {
    /// At most 2147483648, or 9223372036854775808 where the type is `long`.
    pub number: u64,
    /// Whether its type is `long`: it ends in `L` or `l`. If not, its type is `int`.
    pub is_long: bool,
}
