//! Types, and what their values are.

ghost use Rattle.std.specs.Prelude.{◌≡◌};
ghost use Rattle.jr_typing_rules.specs.Types as spec;

use jr_arith::Width;
use jr_base::{Elem, SlotKind};
use jr_typing_rules::{Members, ValueType};

pub const INT: ValueType = ValueType::Single(Elem::Int);

pub const LONG: ValueType = ValueType::Single(Elem::Long);

pub const BOOLEAN: ValueType = ValueType::Single(Elem::Bool);

pub const OBJECT: ValueType = ValueType::Single(Elem::Object);

/// The width of a number (JLS 4.2.1); none where it is no number.
pub fn width_of(of: ValueType) -> Option<Width>
    ensures { result ≡ spec.width_of of }
{
    match of {
        ValueType::Single(Elem::Int) => Some(Width::Int),
        ValueType::Single(Elem::Long) => Some(Width::Long),
        _ => None,
    }
}

/// The type of numbers of a width.
pub fn number(width: Width) -> ValueType
    ensures { result ≡ spec.number width }
{
    match width {
        Width::Int => INT,
        Width::Long => LONG,
    }
}

/// Whether it is `int`.
pub fn is_int(of: ValueType) -> bool
    ensures { result ≡ spec.is_int of }
{
    matches!(of, ValueType::Single(Elem::Int))
}

/// Whether it is `int` or `long`.
pub fn is_number(of: ValueType) -> bool
    ensures { result ≡ spec.is_number of }
{
    matches!(
        of,
        ValueType::Single(Elem::Int) | ValueType::Single(Elem::Long)
    )
}

/// Whether it is `boolean`.
pub fn is_boolean(of: ValueType) -> bool
    ensures { result ≡ spec.is_boolean of }
{
    matches!(of, ValueType::Single(Elem::Bool))
}

/// The width that a number of the first type is brought to where one of the second is asked for (JLS 5.1.2,
/// 5.1.3); none where it is of that type, or is no number.
pub fn width_to(from: ValueType, to: ValueType) -> Option<Width>
    ensures { result ≡ spec.width_to from to }
{
    match from {
        ValueType::Single(Elem::Int) => match to {
            ValueType::Single(Elem::Long) => Some(Width::Long),
            _ => None,
        },
        ValueType::Single(Elem::Long) => match to {
            ValueType::Single(Elem::Int) => Some(Width::Int),
            _ => None,
        },
        _ => None,
    }
}

/// What a variable of that type holds.
pub fn kind_of(of: ValueType) -> SlotKind
    ensures { result ≡ spec.kind_of of }
{
    match of {
        ValueType::Single(Elem::Int) => SlotKind::Int,
        ValueType::Single(Elem::Long) => SlotKind::Long,
        ValueType::Single(Elem::Bool) => SlotKind::Bool,
        _ => SlotKind::Ref,
    }
}

/// Which members a value of that type has (JLS 10.7, 15.11, 15.12).
pub fn members_of(of: ValueType) -> Members
    ensures { result ≡ spec.members_of of }
{
    match of {
        ValueType::Null => Members::OfLibrary,
        ValueType::ArrayOf(elem) => Members::OfArray(elem),
        ValueType::Single(elem) => match elem {
            Elem::Int | Elem::Long | Elem::Bool => Members::Nothing,
            Elem::Object | Elem::Thread | Elem::Runnable => Members::OfLibrary,
            Elem::Class(class) => Members::OfClass(class),
        },
    }
}
