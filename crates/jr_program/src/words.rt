//! The small words of a typed program: kinds and modes of clauses, quantifiers, sites.

use jr_base::{ClassId, ClauseId, FieldId, MethodId};

/// Which clause (JML Reference Manual, "Method Specification Clauses", "Type Specifications").
#[derive(Clone, Copy, Debug, PartialEq, Eq)]
pub enum ClauseKind {
    Requires,
    Ensures,
    When,
    Locks,
    MonitorsFor,
    Invariant,
    Constraint,
    Assert,
    Atomic,
}

/// What a clause belongs to: `invariant` and `constraint` to a class, `monitors_for` to a field, and each other
/// kind to a method or constructor.
#[derive(Clone, Copy, Debug, PartialEq, Eq)]
pub enum Owner {
    Method(MethodId),
    Class(ClassId),
    Field(FieldId),
}

/// How the arithmetic of a clause is meant (JML Reference Manual, "Arithmetic Modes").
#[derive(Clone, Copy, Debug, PartialEq, Eq)]
pub enum Mode {
    /// `spec_java_math`: results wrap, as in code.
    Java,
    /// `spec_safe_math`: a result that its type doesn't have is Undefined.
    Safe,
}

/// Whether a bound is itself in the range.
#[derive(Clone, Copy, Debug, PartialEq, Eq)]
pub enum Bound {
    /// `<`.
    Exclusive,
    /// `<=`.
    Inclusive,
}

/// Which quantifier (JML Reference Manual, "Universal and Existential Quantifiers").
#[derive(Clone, Copy, Debug, PartialEq, Eq)]
pub enum Quantifier {
    /// `\forall`.
    ForAll,
    /// `\exists`.
    Exists,
}

/// A place of the program at which clauses may be due.
#[derive(Clone, Copy, Debug, PartialEq, Eq)]
pub enum Site {
    /// The Call of a method.
    Entry(MethodId),
    /// The label `commit` in a method.
    Commit(MethodId),
    /// The normal Leave of a method.
    Return(MethodId),
    /// A read or write of a field.
    Access(FieldId),
    /// A `synchronized` statement in a method, where it enters a monitor that its thread doesn't own.
    Edge(MethodId),
    /// A JML `assert`.
    Assert(ClauseId),
}
