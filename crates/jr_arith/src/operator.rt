//! The operators of code and of clauses, each typed by what it takes.

/// A type of numbers (JLS 4.2.1).
#[derive(Clone, Copy, Debug, PartialEq, Eq)]
pub enum Width {
    /// `int`, of 32 bits.
    Int,
    /// `long`, of 64 bits.
    Long,
}

/// An operator before its operand (JLS 15.15). A unary `+` leaves nothing.
#[derive(Clone, Copy, Debug, PartialEq, Eq)]
pub enum Unary {
    /// `-`.
    Negate(Width),
    /// `~`.
    Complement(Width),
    /// `!`.
    Not,
}

/// `+`, `-`, `*`, `/` and `%` (JLS 15.17, 15.18).
#[derive(Clone, Copy, Debug, PartialEq, Eq)]
pub enum Arithmetic {
    Add,
    Subtract,
    Multiply,
    Divide,
    Remainder,
}

/// `&`, `|` and `^` of numbers (JLS 15.22.1).
#[derive(Clone, Copy, Debug, PartialEq, Eq)]
pub enum Bitwise {
    And,
    Or,
    Xor,
}

/// `<<`, `>>` and `>>>` (JLS 15.19).
#[derive(Clone, Copy, Debug, PartialEq, Eq)]
pub enum Shift {
    Left,
    Right,
    RightUnsigned,
}

/// `<`, `<=`, `>`, `>=`, `==` and `!=` of numbers (JLS 15.20.1, 15.21.1).
#[derive(Clone, Copy, Debug, PartialEq, Eq)]
pub enum Comparison {
    Less,
    LessEqual,
    Greater,
    GreaterEqual,
    Equal,
    NotEqual,
}

/// An operator between two operands that are both evaluated, typed by their kind (JLS 15.17 to 15.22).
#[derive(Clone, Copy, Debug, PartialEq, Eq)]
pub enum Binary {
    /// Of two numbers of that type, and so is the result.
    Arithmetic(Arithmetic, Width),
    /// Of two numbers of that type, and so is the result.
    Bitwise(Bitwise, Width),
    /// Of a number of that type by an int distance, and the result is of that type.
    Shift(Shift, Width),
    /// Of two numbers of that type.
    Compare(Comparison, Width),
    /// `&` of booleans.
    BothTrue,
    /// `|` of booleans.
    EitherTrue,
    /// `^` and `!=` of booleans, and `<=!=>` of JML.
    Differ,
    /// `==` of booleans, and `<==>` of JML.
    Agree,
    /// `==` of references.
    SameReference,
    /// `!=` of references.
    OtherReference,
}
