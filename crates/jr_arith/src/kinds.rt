//! What operators take and give.

ghost use Rattle.std.specs.Prelude.{◌≡◌};
ghost use Rattle.jr_arith.specs.Kinds as spec;

use crate::operator::{Binary, Unary, Width};
use jr_base::{Elem, SlotKind};

/// The kind of an array's elements.
pub fn kind_of_element(element: &Elem) -> SlotKind
    ensures { result ≡ spec.kind_of_element element.now }
{
    match element {
        Elem::Int => SlotKind::Int,
        Elem::Long => SlotKind::Long,
        Elem::Bool => SlotKind::Bool,
        _ => SlotKind::Ref,
    }
}

impl Width {
    /// The kind of a number of that type.
    pub fn kind(self) -> SlotKind
        ensures { result ≡ spec.kind_of_width self }
    {
        match self {
            Width::Int => SlotKind::Int,
            Width::Long => SlotKind::Long,
        }
    }

    /// The kind of what is converted to that type.
    pub fn kind_converted(self) -> SlotKind
        ensures { result ≡ spec.kind_converted self }
    {
        match self {
            Width::Int => SlotKind::Long,
            Width::Long => SlotKind::Int,
        }
    }
}

impl Unary {
    /// The kind of its operand, and of its result.
    pub fn kind(self) -> SlotKind
        ensures { result ≡ spec.unary_kind self }
    {
        match self {
            Unary::Negate(width) | Unary::Complement(width) => width.kind(),
            Unary::Not => SlotKind::Bool,
        }
    }
}

impl Binary {
    /// The kind of its left operand.
    pub fn left_kind(self) -> SlotKind
        ensures { result ≡ spec.left_kind self }
    {
        match self {
            Binary::Arithmetic(_, width) => width.kind(),
            Binary::Bitwise(_, width) => width.kind(),
            Binary::Shift(_, width) => width.kind(),
            Binary::Compare(_, width) => width.kind(),
            Binary::SameReference | Binary::OtherReference => SlotKind::Ref,
            _ => SlotKind::Bool,
        }
    }

    /// The kind of its right operand: a shift's distance is an int.
    pub fn right_kind(self) -> SlotKind
        ensures { result ≡ spec.right_kind self }
    {
        match self {
            Binary::Shift(_, _) => SlotKind::Int,
            _ => self.left_kind(),
        }
    }

    /// The kind of its result.
    pub fn result_kind(self) -> SlotKind
        ensures { result ≡ spec.result_kind self }
    {
        match self {
            Binary::Arithmetic(_, width) => width.kind(),
            Binary::Bitwise(_, width) => width.kind(),
            Binary::Shift(_, width) => width.kind(),
            _ => SlotKind::Bool,
        }
    }
}
