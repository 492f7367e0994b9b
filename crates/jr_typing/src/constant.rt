//! Constants of fields.

ghost use Rattle.std.specs.Prelude.{◌≡◌, true};
ghost use Rattle.jr_names.specs.Answered.{Answers};
ghost use Rattle.jr_typing.specs.MadeViews.{view_written};
ghost use Rattle.jr_typing_rules.specs.Declarations as spec;
ghost use Rattle.jr_typing_rules.specs.Names as naming;
ghost use Rattle.jr_typing_rules.specs.Types as types;

use crate::denotation::mismatch;
use crate::literal::{Literal, negated_literal, written_literal};
use crate::types::{BOOLEAN, INT, LONG, kind_of};
use jr_ast::{Constant, ConstantValue};
use jr_base::{Fail, SlotKind, Span, Value};
use jr_names::Names;
use jr_typing_rules::ValueType;

/// A constant, whose numbers are known to be in the range of their type (JLS 15.28).
#[derive(Clone, Copy, Debug, PartialEq, Eq)]
pub enum Written {
    Null,
    Boolean(bool),
    Number(Literal),
}

/// What a field of that kind holds where it has no constant (JLS 4.12.5).
fn default_value(kind: SlotKind) -> Value
    ensures { result ≡ spec.default_value kind }
{
    match kind {
        SlotKind::Int => Value::Int(0),
        SlotKind::Long => Value::Long(0),
        SlotKind::Bool => Value::Bool(false),
        SlotKind::Ref | SlotKind::Caught => Value::Null,
    }
}

/// The constant that stands there. Refused as `BigLiteral` where its number is too big for its type.
fn constant_of(at: Span, value: ConstantValue) -> Result<Written, Fail>
    ensures { Answers view_written (spec.constant_of at value) result }
{
    Ok(match value {
        ConstantValue::Null => Written::Null,
        ConstantValue::Boolean(truth) => Written::Boolean(truth),
        ConstantValue::Integer(written) => Written::Number(written_literal(at, written)?),
        ConstantValue::Negated(written) => Written::Number(negated_literal(at, written)?),
    })
}

impl Written {
    /// The type of the constant (JLS 3.10).
    fn of(self) -> ValueType
        ensures { result ≡ (view_written self).of }
    {
        match self {
            Written::Null => ValueType::Null,
            Written::Boolean(_) => BOOLEAN,
            Written::Number(Literal::Int(_)) => INT,
            Written::Number(Literal::Long(_)) => LONG,
        }
    }

    /// What a field holds that begins with the constant, where it may (JLS 5.1.2, 5.2).
    #[tactic(auto, using(crate::proofs::Constants::long_alone))]
    fn value(self, names: &Names<'_>, to: ValueType) -> Value
        requires { naming.is_assignable names.now.names (view_written self).of to ≡ true }
        ensures { result ≡ (view_written self).value (types.kind_of to) }
    {
        match self {
            Written::Null => Value::Null,
            Written::Boolean(truth) => Value::Bool(truth),
            Written::Number(Literal::Long(number)) => Value::Long(number),
            Written::Number(Literal::Int(number)) => match kind_of(to) {
                SlotKind::Long => Value::Long(number as i64),
                SlotKind::Int | SlotKind::Bool | SlotKind::Ref | SlotKind::Caught => {
                    Value::Int(number)
                }
            },
        }
    }
}

/// What a field of that type holds at first: its constant, or 0, false or null. Refused as `Mismatch` where a constant
/// of its type may not stand there, and as `BigLiteral` where its number is too big for its type (JLS 5.2, 8.3.2).
pub fn initial_constant(
    names: &Names<'_>,
    of: ValueType,
    constant: Option<Constant>,
) -> Result<Value, Fail>
    ensures { Answers (λ value. value) (spec.initial_constant names.now.names of constant) result }
{
    let Some(constant) = constant else {
        return Ok(default_value(kind_of(of)));
    };
    let written = constant_of(constant.place, constant.value)?;
    if !names.is_assignable(written.of(), of) {
        return Err(mismatch(constant.place));
    }
    Ok(written.value(names, of))
}
