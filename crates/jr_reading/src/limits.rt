//! Limits of a source.

/// The most constructs above a node: statements, operators, brackets, calls, `new`, indexes, `\old`,
/// `\lockset` and quantifiers. A source that nests deeper is refused as `TooDeep`.
pub const NESTING_LIMIT: u8 = 128;
