//! Formals as variables.

ghost use Rattle.std.specs.Prelude.{◌≡◌, map, slice_get, IfOk};
ghost use Rattle.jr_typing.specs.Headed as headed;
ghost use Rattle.jr_typing.specs.Views.{view_variable};
ghost use Rattle.jr_typing_rules.specs.Declarations as spec;
ghost use Rattle.jr_typing_rules.specs.Types as spec_types;

use crate::counts::counted;
use crate::scope::Variable;
use crate::types::kind_of;
use jr_ast::Formal;
use jr_base::{Memory, SlotKind};
use jr_typing_rules::{ValueType, VariableKind};
use sqlite_items::{Items, at};
use std::alloc::Global;

/// What the formal at that place is: that of `main` has no type.
fn formal_kind(types: &[ValueType], place: usize) -> Result<VariableKind, Memory>
    ensures { IfOk result (λ kind. kind ≡ headed.formal_kind place (slice_get types.now place)) }
{
    match at(types, place) {
        Some(of) => Ok(VariableKind::Local(*of, counted(place)?)),
        None => Ok(VariableKind::Arguments),
    }
}

/// Formals as variables, whose places count from 0; that of `main` has no type (JLS 8.4.1, 12.1.4).
#[tactic(auto, using(crate::proofs::Formals::formal_more, crate::proofs::Formals::all_formals))]
pub fn formal_variables<'a>(
    alloc: Global,
    formals: &'a [Formal],
    types: &[ValueType],
) -> Result<Items<Variable<'a>>, Memory>
    ensures { IfOk result (λ variables. map view_variable variables ≡ spec.formal_variables 0 formals.now types.now) }
{
    let mut variables = Items::new(alloc);
    for formal in formals {
        let kind = formal_kind(types, variables.len())?;
        variables.push(Variable {
            name: formal.name.text.as_slice(),
            kind,
        })?;
    }
    Ok(variables)
}

/// What variables of those types hold.
pub fn kinds_of(alloc: Global, types: &[ValueType]) -> Result<Items<SlotKind>, Memory>
    ensures { IfOk result (λ kinds. kinds ≡ map spec_types.kind_of types.now) }
{
    let mut kinds = Items::new(alloc);
    for of in types {
        kinds.push(kind_of(*of))?;
    }
    Ok(kinds)
}
