//! Types, and which of them declarations name.

ghost use Rattle.std.specs.Prelude.{◌≡◌, Err};
ghost use Rattle.jr_base.specs.declared.refusal.Fail.TheVariants as fails;
ghost use Rattle.jr_typing_rules.specs.Types as spec;
ghost use Rattle.jr_typing_rules.specs.Names as names;
ghost use Rattle.jr_typing_rules.specs.Expressions as expressions;
ghost use Rattle.jr_typing_rules.specs.Statements as statements;
ghost use Rattle.jr_names.specs.Answered.{Answers};
ghost use Rattle.jr_names.specs.Tables.{names_alone};

use crate::numbers::Numbers;
use jr_ast::{ElementType, Name, TypeName};
use jr_base::{Elem, Fail, Refusal};
use jr_typing_rules::ValueType;

/// Whether two types without arrays are the same.
fn is_same_elem(left: Elem, right: Elem) -> bool
    ensures { result ≡ spec.is_same_elem left right }
{
    match (left, right) {
        (Elem::Int, Elem::Int)
        | (Elem::Long, Elem::Long)
        | (Elem::Bool, Elem::Bool)
        | (Elem::Object, Elem::Object)
        | (Elem::Thread, Elem::Thread)
        | (Elem::Runnable, Elem::Runnable) => true,
        (Elem::Class(left), Elem::Class(right)) => left.0 == right.0,
        _ => false,
    }
}

/// Whether two types are the same.
pub fn is_same(left: ValueType, right: ValueType) -> bool
    ensures { result ≡ spec.is_same left right }
{
    match (left, right) {
        (ValueType::Null, ValueType::Null) => true,
        (ValueType::Single(left), ValueType::Single(right))
        | (ValueType::ArrayOf(left), ValueType::ArrayOf(right)) => is_same_elem(left, right),
        _ => false,
    }
}

/// Whether it is a reference type (JLS 4.3), or that of `null`.
pub fn is_reference(of: ValueType) -> bool
    ensures { result ≡ spec.is_reference of }
{
    !matches!(of, ValueType::Single(Elem::Int | Elem::Long | Elem::Bool))
}

/// Whether it is the type of `null` (JLS 4.1).
pub fn is_null(of: ValueType) -> bool
    ensures { result ≡ names.is_null of }
{
    matches!(of, ValueType::Null)
}

/// Whether an `int` is brought to a `long` (JLS 5.1.2).
pub fn is_int_to_long(from: ValueType, to: ValueType) -> bool
    ensures { result ≡ names.is_int_to_long from to }
{
    matches!(
        (from, to),
        (ValueType::Single(Elem::Int), ValueType::Single(Elem::Long))
    )
}

impl<'a> Numbers<'a> {
    #[tactic(auto, unfolding(jr_typing_rules::specs::Expressions::element_type))]
    fn class_type(&self, name: &Name) -> Result<Elem, Fail>
        ensures typed { Answers (λ t. t) (expressions.element_type (names_alone self.now) (ElementType.Class name.now)) result }
        ensures memory { ¬ (result ≡ Err fails.Memory) }
    {
        let text = name.text.as_slice();
        if text == b"Object".as_slice() {
            Ok(Elem::Object)
        } else if text == b"Thread".as_slice() {
            Ok(Elem::Thread)
        } else if text == b"Runnable".as_slice() {
            Ok(Elem::Runnable)
        } else {
            match self.get(text) {
                Some(class) => Ok(Elem::Class(class)),
                None => Err(Fail::Refused(Refusal::Unknown(name.place))),
            }
        }
    }

    /// The type that is written there, without an array.
    #[tactic(auto, unfolding(jr_typing_rules::specs::Expressions::element_type))]
    pub fn element_type(&self, of: &ElementType) -> Result<Elem, Fail>
        ensures typed { Answers (λ t. t) (expressions.element_type (names_alone self.now) of.now) result }
        ensures memory { ¬ (result ≡ Err fails.Memory) }
    {
        match of {
            ElementType::Int => Ok(Elem::Int),
            ElementType::Long => Ok(Elem::Long),
            ElementType::Boolean => Ok(Elem::Bool),
            ElementType::Class(name) => self.class_type(name),
        }
    }

    /// The type that is written there.
    pub fn type_of(&self, of: &TypeName) -> Result<ValueType, Fail>
        ensures typed { Answers (λ t. t) (statements.type_of (names_alone self.now) of.now) result }
        ensures memory { ¬ (result ≡ Err fails.Memory) }
    {
        match of {
            TypeName::Single(of) => Ok(ValueType::Single(self.element_type(of)?)),
            TypeName::ArrayOf(of) => Ok(ValueType::ArrayOf(self.element_type(of)?)),
        }
    }
}
