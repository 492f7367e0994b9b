//! What a variable, a field, an element or a result can hold, and what is called on any object.

/// The kind of what stands in a variable, a field, an element or a result (JLS 4.1). All references are of
/// one kind: their classes matter to the typing of a source alone.
#[derive(Clone, Copy, Debug, PartialEq, Eq)]
pub enum SlotKind {
    Int,
    Long,
    Bool,
    Ref,
    /// Of the variable of a `catch` alone: it holds an exception, which is no value.
    Caught,
}

/// What is called on an object and has no result (JLS 17.2; `java.lang.Object`, `java.lang.Thread`).
#[derive(Clone, Copy, Debug, PartialEq, Eq)]
pub enum ObjectCall {
    Wait,
    Notify,
    NotifyAll,
    Start,
    Join,
}
