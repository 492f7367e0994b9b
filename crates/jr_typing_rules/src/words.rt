//! The small words of names and types: what their rules decide on, without trees.

use jr_arith::{Binary, Unary};
use jr_base::{ClassId, Elem, FieldId, MethodId, Span};
use sqlite_items::Items;

/// The type of a value (JLS 4.1).
#[derive(Clone, Copy, Debug, PartialEq, Eq)]
pub enum ValueType {
    /// The type of `null` (JLS 4.1).
    Null,
    Single(Elem),
    ArrayOf(Elem),
}

/// Which members a value has.
#[derive(Clone, Copy, Debug, PartialEq, Eq)]
pub enum Members {
    /// `length`, and those of each reference.
    OfArray(Elem),
    /// Those of the class, and those of each reference.
    OfClass(ClassId),
    /// Those of each reference.
    OfLibrary,
    /// It is no reference.
    Nothing,
}

/// A field (JLS 8.3).
#[derive(Clone, Copy, Debug, PartialEq, Eq)]
pub struct FieldEntry {
    pub number: FieldId,
    /// The class that declares it.
    pub class: ClassId,
    pub is_static: bool,
    /// Its place among the static or among the other fields of its class.
    pub slot: u32,
    pub of: ValueType,
}

/// A method or constructor (JLS 8.4, 8.8).
#[derive(Drop)]
pub struct MethodEntry {
    pub number: MethodId,
    pub is_static: bool,
    /// It is where the program begins (JLS 12.1.4).
    pub is_main: bool,
    pub result: Option<ValueType>,
    /// The types of its formals; that of `main` has none.
    pub formals: Items<ValueType>,
}

/// What a variable is.
#[derive(Clone, Copy, Debug, PartialEq, Eq)]
pub enum VariableKind {
    /// A formal or local variable, with its place in the frame.
    Local(ValueType, u32),
    /// The variable of a catch, with its place.
    Caught(u32),
    /// The formal of `main`.
    Arguments,
}

/// The classes of the library that may stand before a dot (JLS 6.5.2).
#[derive(Clone, Copy, Debug, PartialEq, Eq)]
pub enum Library {
    Object,
    Thread,
    Runnable,
}

/// What stands before a dot (JLS 6.5.2, 15.11, 15.12), without its tree.
#[derive(Clone, Copy, Debug, PartialEq, Eq)]
pub enum Face {
    Class(ClassId),
    Library(Library),
    /// `System`, with its place.
    System(Span),
    /// `System.out`, with the place of `System`.
    Out(Span),
    Value(ValueType),
    /// A call without a result.
    Nothing,
}

/// What a name behind a dot is (JLS 6.5.6, 10.7, 15.11).
#[derive(Clone, Copy, Debug, PartialEq, Eq)]
pub enum Access {
    Static(FieldEntry),
    /// `System.out`, with the place of `System`.
    Out(Span),
    /// The length of an array.
    Length,
    Field(FieldEntry),
}

/// An argument (JLS 15.12.2): where it stands, and its type.
#[derive(Clone, Copy, Debug, PartialEq, Eq)]
pub struct Head {
    pub place: Span,
    pub of: ValueType,
}

/// How two operands are joined (JLS 15.17 to 15.24).
#[derive(Clone, Copy, Debug, PartialEq, Eq)]
pub enum Joint {
    /// Both are evaluated.
    Strict(Binary),
    /// `&&` (JLS 15.23).
    And,
    /// `||` (JLS 15.24).
    Or,
    /// `==>` of JML.
    Implies,
    /// `<==` of JML.
    ImpliedBy,
}

/// An operator whose operands' types are known: which types its operands are brought to, and the type of
/// its value.
#[derive(Clone, Copy, Debug, PartialEq, Eq)]
pub struct Operation {
    pub joint: Joint,
    pub left: ValueType,
    pub right: ValueType,
    pub of: ValueType,
}

/// An operator before an operand whose type is known, and which has no effect (JLS 15.15).
#[derive(Clone, Copy, Debug, PartialEq, Eq)]
pub enum Single {
    /// `+` leaves the operand.
    Kept,
    Applied(Unary),
}
