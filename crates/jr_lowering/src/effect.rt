//! The code of what stands as a statement by itself, and of what is printed.

ghost use Rattle.std.specs.Prelude.{◌≡◌, ◌+◌, [], ◌∷◌, ◌++◌, map, IfOk, OnOk};
ghost use Rattle.jr_program.specs.ExprViews.{view_call, view_effect};
ghost use Rattle.jr_program.specs.StatementViews.{view_part};
ghost use Rattle.jr_program.specs.UnitViews.{program_of};
ghost use Rattle.jr_lowering.specs.ExprCode.{call_code, call_size};
ghost use Rattle.jr_lowering.specs.StatementCode.{effect_code, effect_size, effects_code, effects_size, parts_code, parts_size};
ghost use Rattle.jr_lowering.specs.Emitted.{setting_with};

use crate::access::Locals;
use crate::expr::{put_expr, put_exprs, put_then};
use crate::op::{Emitted, Op};
use jr_base::Memory;
use jr_program::{Effect, TypedCall, TypedPart, TypedUnit};

/// The code of a call.
#[tactic(auto, using(std::proofs::lemmas::List::append_assoc))]
pub fn put_call(
    code: &mut Emitted,
    unit: &TypedUnit,
    locals: Locals,
    call: &TypedCall,
    at: u32,
) -> Result<u32, Memory>
    ensures code { OnOk result (code.new ≡ code.old ++ call_code (setting_with (program_of unit.now) locals) (view_call call.now) at) }
    ensures next { IfOk result (λ next. next ≡ at + call_size (program_of unit.now) (view_call call.now)) }
{
    match call {
        TypedCall::Static(m, arguments) => {
            let next = put_exprs(code, unit, locals, arguments.as_slice(), at)?;
            let next = code.put(Op::CallStaticMethod(*m), next)?;
            Ok(next)
        }
        TypedCall::On(e, m, arguments) => {
            let next = put_expr(code, unit, locals, e, at)?;
            let next = put_exprs(code, unit, locals, arguments.as_slice(), next)?;
            let next = code.put(Op::CallMethodOn(*m), next)?;
            Ok(next)
        }
    }
}

/// The code of an effect.
#[tactic(auto, using(std::proofs::lemmas::List::append_assoc))]
pub fn put_effect(
    code: &mut Emitted,
    unit: &TypedUnit,
    locals: Locals,
    effect: &Effect,
    at: u32,
) -> Result<u32, Memory>
    ensures code { OnOk result (code.new ≡ code.old ++ effect_code (setting_with (program_of unit.now) locals) (view_effect effect.now) at) }
    ensures next { IfOk result (λ next. next ≡ at + effect_size (program_of unit.now) (view_effect effect.now)) }
{
    match effect {
        Effect::Evaluate(e) => put_then(code, unit, locals, e, Op::Pop, at),
        Effect::Invoke(call) => put_call(code, unit, locals, call, at),
        Effect::CallObject(called, e) => {
            put_then(code, unit, locals, e, Op::OnObject(*called), at)
        }
        Effect::WaitFor(e, time) => {
            let next = put_expr(code, unit, locals, e, at)?;
            put_then(code, unit, locals, time, Op::WaitForTime, next)
        }
        Effect::Yield => code.put(Op::YieldNow, at),
        Effect::Sleep(time) => put_then(code, unit, locals, time, Op::SleepFor, at),
    }
}

/// The code of the update of a `for`.
#[tactic(auto, using(std::proofs::lemmas::List::append_assoc, crate::proofs::Suffixes::nothing_more))]
pub fn put_effects(
    code: &mut Emitted,
    unit: &TypedUnit,
    locals: Locals,
    all: &[Effect],
    at: u32,
) -> Result<u32, Memory>
    ensures code { OnOk result (code.new ≡ code.old ++ effects_code (setting_with (program_of unit.now) locals) (map view_effect all.now) at) }
    ensures next { IfOk result (λ next. next ≡ at + effects_size (program_of unit.now) (map view_effect all.now)) }
{
    let mut next = at;
    for effect in all {
        next = put_effect(code, unit, locals, effect, next)?;
    }
    Ok(next)
}

/// The values that a print takes, from left to right.
#[tactic(auto, using(std::proofs::lemmas::List::append_assoc, crate::proofs::Suffixes::nothing_more, crate::proofs::Parts::more_code, crate::proofs::Parts::more_size))]
pub fn put_parts(
    code: &mut Emitted,
    unit: &TypedUnit,
    locals: Locals,
    all: &[TypedPart],
    at: u32,
) -> Result<u32, Memory>
    ensures code { OnOk result (code.new ≡ code.old ++ parts_code (setting_with (program_of unit.now) locals) (map view_part all.now) at) }
    ensures next { IfOk result (λ next. next ≡ at + parts_size (program_of unit.now) (map view_part all.now)) }
{
    let mut next = at;
    for part in all {
        next = put_part(code, unit, locals, part, next)?;
    }
    Ok(next)
}

#[tactic(auto, using(crate::proofs::Suffixes::nothing_more))]
fn put_part(
    code: &mut Emitted,
    unit: &TypedUnit,
    locals: Locals,
    part: &TypedPart,
    at: u32,
) -> Result<u32, Memory>
    ensures code { OnOk result (code.new ≡ code.old ++ parts_code (setting_with (program_of unit.now) locals) (view_part part.now ∷ []) at) }
    ensures next { IfOk result (λ next. next ≡ at + parts_size (program_of unit.now) (view_part part.now ∷ [])) }
{
    match part {
        TypedPart::Literal(_) => Ok(at),
        TypedPart::Shown(e) => put_expr(code, unit, locals, e, at),
    }
}
