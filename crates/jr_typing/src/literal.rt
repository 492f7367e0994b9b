//! Integer literals.

ghost use Rattle.std.specs.Prelude.{◌≡◌, IfOk};
ghost use Rattle.jr_program.specs.ExprViews.{view_shape};
ghost use Rattle.jr_names.specs.Answered.{Answers};
ghost use Rattle.jr_typing.specs.Views.{view_denotation, view_literal};
ghost use Rattle.jr_typing_rules.specs.Expressions as rules;
ghost use Rattle.jr_typing_rules.specs.Operators as spec;

use crate::denotation::{Denotation, denoting};
use crate::types::{INT, LONG};
use jr_ast::IntegerLiteral;
use jr_base::{Fail, Memory, Refusal, Span};
use jr_program::TypedShape;
use std::alloc::Global;

/// One more than the greatest `int`, and than the greatest `long` (JLS 4.2.1).
const INTS: u64 = 2_147_483_648;

const LONGS: u64 = 9_223_372_036_854_775_808;

/// A number as it is written, with its minus where it stands directly under one (JLS 3.10.1).
#[derive(Clone, Copy, Debug, PartialEq, Eq)]
pub enum Literal {
    Int(i32),
    Long(i64),
}

fn too_big(at: Span) -> Fail
    ensures { result ≡ Fail.Refused (Refusal.BigLiteral at) }
{
    Fail::Refused(Refusal::BigLiteral(at))
}

/// A literal is at most the greatest number of its type (JLS 3.10.1). One past it is refused.
pub fn written_literal(at: Span, written: IntegerLiteral) -> Result<Literal, Fail>
    ensures { Answers view_literal (spec.literal at written) result }
{
    if written.is_long {
        if written.number >= LONGS {
            return Err(too_big(at));
        }
        return Ok(Literal::Long(written.number as i64));
    }
    if written.number >= INTS {
        return Err(too_big(at));
    }
    Ok(Literal::Int(written.number as i32))
}

/// A literal directly under a minus, with which it is one number: it is at most one more than the greatest number of
/// its type (JLS 3.10.1). One past it is refused.
pub fn negated_literal(at: Span, written: IntegerLiteral) -> Result<Literal, Fail>
    ensures { Answers view_literal (spec.negated_literal at written) result }
{
    if written.is_long {
        if written.number > LONGS {
            return Err(too_big(at));
        }
        if written.number == LONGS {
            return Ok(Literal::Long(i64::MIN));
        }
        return Ok(Literal::Long(-(written.number as i64)));
    }
    if written.number > INTS {
        return Err(too_big(at));
    }
    if written.number == INTS {
        return Ok(Literal::Int(i32::MIN));
    }
    Ok(Literal::Int(-(written.number as i32)))
}

/// What a literal denotes.
pub fn of_literal(alloc: Global, literal: Literal) -> Result<Denotation, Fail>
    ensures { Answers view_denotation (rules.of_literal (view_literal literal)) result }
{
    match literal {
        Literal::Int(n) => Ok(denoting(alloc, INT, TypedShape::Int(n))?),
        Literal::Long(n) => Ok(denoting(alloc, LONG, TypedShape::Long(n))?),
    }
}
