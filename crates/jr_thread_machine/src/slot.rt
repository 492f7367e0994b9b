//! What a local or an operand holds.

ghost use Rattle.std.specs.Prelude.{◌≡◌, Some, IfSome};
ghost use Rattle.jr_base.specs.declared.value.Value.TheVariants as values;
ghost use Rattle.jr_base.specs.Content.{Holds, Caught, unset, fault_in};
ghost use Rattle.jr_base.specs.Threads.{reference as reference_of};
ghost use Rattle.jr_code.specs.Machine.{value_of_content};

use jr_base::{Fault, ObjId, SlotKind, Value};
use std::marker::Model;

/// A value or an exception, in the room of a value.
#[derive(Clone, Copy, Debug, PartialEq, Eq)]
pub(crate) enum Kept {
    Null,
    Ref(ObjId),
    Int(i32),
    Long(i64),
    Bool(bool),
    Caught(Fault),
}

/// What a local or an operand holds, which contracts see as a content.
#[derive(Clone, Copy)]
pub(crate) struct Slot {
    kept: Kept,
}

impl Model for Slot {
    ghost use Rattle.std.proofs.Common.{ap};
    ghost use Rattle.jr_base.specs.Content.{Content};
    ghost use Rattle.jr_thread_machine.specs.Slots.{content_of, kept_of, kept_again};
    ghost use Rattle.jr_thread_machine.specs.declared.slot.Kept.{Kept};
    ghost use Rattle.jr_thread_machine.specs.declared.slot.Slot.TheInside.{Inside};

    ghost Value = { Content };

    ghost view = { λ s. content_of s.kept };

    ghost inverse = { λ c. record { kept = kept_of c } };

    ghost inverse_ok = { λ s h. ap (λ (k : Kept). let i : Inside = record { kept = k } in i) (kept_again s.kept) };
}

impl Slot {
    pub(crate) fn of(value: Value) -> Slot
        ensures { result ≡ Holds value }
    {
        let kept = match value {
            Value::Null => Kept::Null,
            Value::Ref(object) => Kept::Ref(object),
            Value::Int(n) => Kept::Int(n),
            Value::Long(n) => Kept::Long(n),
            Value::Bool(b) => Kept::Bool(b),
        };
        Slot { kept }
    }

    pub(crate) fn caught(fault: Fault) -> Slot
        ensures { result ≡ Caught fault }
    {
        Slot {
            kept: Kept::Caught(fault),
        }
    }

    /// What a local of that kind holds before it is set.
    pub(crate) fn unset(kind: SlotKind) -> Slot
        ensures { result ≡ unset kind }
    {
        let kept = match kind {
            SlotKind::Int => Kept::Int(0),
            SlotKind::Long => Kept::Long(0),
            SlotKind::Bool => Kept::Bool(false),
            SlotKind::Ref => Kept::Null,
            SlotKind::Caught => Kept::Caught(Fault::Exception),
        };
        Slot { kept }
    }

    pub(crate) fn value(self) -> Value
        ensures { result ≡ value_of_content self }
    {
        match self.kept {
            Kept::Null => Value::Null,
            Kept::Ref(object) => Value::Ref(object),
            Kept::Int(n) => Value::Int(n),
            Kept::Long(n) => Value::Long(n),
            Kept::Bool(b) => Value::Bool(b),
            Kept::Caught(_) => Value::Int(0),
        }
    }

    /// The int that this is, if it is one.
    pub(crate) fn int(self) -> Option<i32>
        ensures { IfSome result (λ n. value_of_content self ≡ values.Int n) }
    {
        match self.kept {
            Kept::Int(n) => Some(n),
            _ => None,
        }
    }

    pub(crate) fn fault(self) -> Fault
        ensures { result ≡ fault_in (Some self) }
    {
        match self.kept {
            Kept::Caught(fault) => fault,
            _ => Fault::Exception,
        }
    }
}

/// An object, or null.
pub(crate) fn reference(object: Option<ObjId>) -> Value
    ensures { result ≡ reference_of object }
{
    match object {
        Some(object) => Value::Ref(object),
        None => Value::Null,
    }
}
