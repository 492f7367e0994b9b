//! How an expression of a clause comes out, and what operators make of outcomes.

ghost use Rattle.std.specs.Prelude.{◌≡◌};
ghost use Rattle.jr_arith.specs.Operators.{converted as converted_value};
ghost use Rattle.jr_meaning.specs.Worth.{Has, with_value, unary_worth, binary_worth};
ghost use Rattle.jr_clause_eval.specs.Outcomes.{worth_of, truth_of};

use jr_arith::{Binary, Unary, Width};
use jr_base::Value;
use jr_program::Mode;

/// Why an expression has no value. The first stuck part that is needed decides.
#[derive(Clone, Copy, Debug, PartialEq, Eq)]
pub enum Stuck {
    /// Null is dereferenced, a divisor is zero or an index is out of range, and in safe mathematics a result
    /// is past its type's range.
    Undefined,
    /// A quantifier has too many instances.
    Wide,
}

/// An expression's value, where it has one.
pub type Outcome = Result<Value, Stuck>;

/// The truth that an outcome is. No other value stands where one is asked for.
pub fn truth_in_outcome(outcome: Outcome) -> Result<bool, Stuck>
    ensures { result ≡ truth_of outcome }
{
    match outcome? {
        Value::Bool(truth) => Ok(truth),
        _ => Err(Stuck::Undefined),
    }
}

/// A number, brought to a width (JLS 5.1.2).
pub fn converted(to: Width, operand: Outcome) -> Outcome
    ensures { worth_of result ≡ with_value (worth_of operand) (λ a. Has (converted_value to a)) }
{
    Ok(to.convert(operand?))
}

/// What the operator gives before that operand.
pub fn unary(mode: Mode, operator: Unary, operand: Outcome) -> Outcome
    ensures { worth_of result ≡ with_value (worth_of operand) (unary_worth mode operator) }
{
    let a = operand?;
    match mode {
        Mode::Safe if !operator.fits(a) => Err(Stuck::Undefined),
        _ => Ok(operator.apply(a)),
    }
}

/// What the operator gives between those operands.
pub fn binary(mode: Mode, operator: Binary, a: Value, b: Value) -> Outcome
    ensures { worth_of result ≡ binary_worth mode operator a b }
{
    match mode {
        Mode::Safe if !operator.fits(a, b) => Err(Stuck::Undefined),
        _ => operator.apply(a, b).ok_or(Stuck::Undefined),
    }
}
