//! What the fields of objects hold at first.

ghost use Rattle.std.specs.Prelude.{◌≡◌, IfOk};
ghost use Rattle.jr_program.specs.Slots.{is_of as field_is_of};
ghost use Rattle.jr_program.specs.UnitViews.{program_of, view_field};
ghost use Rattle.jr_drive.specs.Blanks.{IsBlank, AreBlanks};

use jr_base::{ClassId, FieldId, Memory, Value};
use jr_program::{TypedField, TypedUnit};
use sqlite_items::Items;
use std::alloc::Global;

fn is_of(field: &TypedField, class: ClassId, is_static: bool) -> bool
    ensures { result ≡ field_is_of class is_static (view_field field.now) }
{
    field.class.0 == class.0 && field.is_static == is_static
}

/// What the static fields of a class, or its other fields, hold at first, by slot (JLS 4.12.5, 8.3.2).
pub fn blank(
    alloc: Global,
    unit: &TypedUnit,
    class: ClassId,
    is_static: bool,
) -> Result<Items<Value>, Memory>
    ensures { IfOk result (IsBlank (program_of unit.now) class is_static) }
{
    let mut values = Items::new(alloc);
    for number in 0..unit.field_count() {
        let field = unit.field(FieldId(number));
        if is_of(field, class, is_static) {
            values.push(field.constant)?;
        }
    }
    Ok(values)
}

/// The same of each class, for the objects of it (JLS 12.5).
pub fn blanks(alloc: Global, unit: &TypedUnit) -> Result<Items<Items<Value>>, Memory>
    ensures { IfOk result (AreBlanks (program_of unit.now)) }
{
    let mut blanks = Items::new(alloc);
    for number in 0..unit.class_count() {
        blanks.push(blank(alloc, unit, ClassId(number), false)?)?;
    }
    unit.well_formed();
    Ok(blanks)
}
