//! From a typed unit to a program that can be run.

ghost use Rattle.std.specs.Prelude.{◌≡◌, ◌∷◌, map, IfOk};
ghost use Rattle.jr_program.specs.UnitViews.{program_of};
ghost use Rattle.jr_code.specs.Views.{plain_of};
ghost use Rattle.jr_code.specs.WellFormed.{WellFormedCode};
ghost use Rattle.jr_lowering.specs.ProgramCode.{code_of};

use crate::method::lower_method;
use crate::program::Program;
use crate::tables::{add, no_code};
use jr_base::{Memory, MethodId};
use jr_code::{CheckFail, Checked, Code, check};
use jr_program::TypedUnit;
use std::alloc::Global;

/// The code of a unit's program.
#[tactic(auto, using(crate::proofs::Methods::no_methods, crate::proofs::Methods::whole))]
fn code_of_unit(alloc: Global, unit: &TypedUnit) -> Result<Code, Memory>
    ensures same { IfOk result (λ code. plain_of code ≡ code_of (program_of unit.now)) }
    ensures well_formed { IfOk result WellFormedCode }
{
    unit.well_formed();
    let mut code = no_code(alloc);
    for number in 0..unit.method_count() {
        let method = lower_method(alloc, &mut code, unit, unit.method(MethodId(number)))?;
        add(&mut code.methods, method)?;
    }
    Ok(code)
}

/// Code that keeps the rules, as checked code.
#[tactic(auto, using(jr_code::proofs::WellFormed::unbroken))]
fn checked(alloc: Global, code: Code) -> Result<Checked, Memory>
    requires { WellFormedCode code }
    ensures { IfOk result (λ checked. checked ≡ code) }
{
    match check(alloc, code) {
        Ok(checked) => Ok(checked),
        Err(CheckFail::Memory) => Err(Memory),
        Err(CheckFail::Bad { .. }) => unreachable!(),
    }
}

/// The program of a typed unit, with its code. `Memory` comes where there is none, or where a method's code would have more
/// than `u32::MAX` instructions.
pub fn lower(alloc: Global, unit: TypedUnit) -> Result<Program, Memory>
    ensures { IfOk result (λ program. program ≡ unit) }
{
    let code = code_of_unit(alloc, &unit)?;
    let checked = checked(alloc, code)?;
    Ok(Program::new(unit, checked))
}
