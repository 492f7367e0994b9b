//! A program as it is run: the typed unit with its code.

ghost use Rattle.std.specs.Prelude.{◌≡◌};
ghost use Rattle.jr_program.specs.UnitViews.{program_of};
ghost use Rattle.jr_program.specs.WellFormed.{WellFormed};
ghost use Rattle.jr_code.specs.Views.{plain_of};
ghost use Rattle.jr_lowering.specs.ProgramCode.{code_of};

use jr_code::Checked;
use jr_program::TypedUnit;
use std::marker::Model;

/// A typed unit with the code of its program. Contracts see it as the unit's parts, as they see the unit itself, since
/// these determine what the code is.
#[derive(Drop)]
pub struct Program {
    unit: TypedUnit,
    code: Checked,
}

impl Model for Program {
    ghost use Rattle.std.specs.Prelude.{◌≡◌};
    ghost use Rattle.std.specs.Coded.{codes};
    ghost use Rattle.jr_program.specs.declared.parts.UnitParts.{UnitParts};
    ghost use Rattle.jr_program.specs.contracts.parts.UnitParts as parts_row;
    ghost use Rattle.jr_program.specs.UnitViews.{program_of};
    ghost use Rattle.jr_code.specs.Views.{plain_of};
    ghost use Rattle.jr_lowering.specs.ProgramCode.{code_of};

    ghost Value = { UnitParts };

    ghost coded = { Prim.hlevel (codes, parts_row.the_row.coded) };

    ghost view = { λ p. p.unit };

    ghost invariant = { λ p. plain_of p.code ≡ code_of (program_of p.unit) };
}

impl Program {
    /// The unit with the code of its program.
    pub(crate) fn new(unit: TypedUnit, code: Checked) -> Program
        requires { plain_of code ≡ code_of (program_of unit) }
        ensures { result ≡ unit }
    {
        Program { unit, code }
    }

    /// The typed unit. Takes no memory.
    pub fn unit(&self) -> &TypedUnit
        ensures { result.now ≡ self.now }
    {
        &self.unit
    }

    /// The typed unit alone. Takes no memory.
    pub fn into_unit(self) -> TypedUnit
        ensures { result ≡ self }
    {
        self.unit
    }

    /// The code, whose instructions are those of the program. Takes no memory.
    pub fn code(&self) -> &Checked
        ensures { plain_of result.now ≡ code_of (program_of self.now) }
    {
        &self.code
    }

    /// A law: what holds of each program that can be run.
    pub fn well_formed(&self)
        ensures { WellFormed (program_of self.now) }
    {
        self.unit.well_formed();
    }
}
