//! How variables are read and written.

ghost use Rattle.std.specs.Prelude.{◌≡◌, ◌+◌, IfOk};
ghost use Rattle.jr_base.specs.Threads.{class_object as object_of, cell};
ghost use Rattle.jr_meaning.specs.Objects.{home_of};
ghost use Rattle.jr_program.specs.Slots.{slot_of};
ghost use Rattle.jr_program.specs.ExprViews.{view_variable};
ghost use Rattle.jr_program.specs.UnitViews.{program_of};
ghost use Rattle.jr_lowering.specs.ExprCode.{shift, kind_of_field, access_of, read_one, write_one, keep_one, this_one};
ghost use Rattle.jr_lowering.specs.Ops.{means};
ghost use Rattle.jr_lowering.specs.Emitted.{setting_with, access_is};

use crate::op::Op;
use crate::size::sum;
use jr_base::{Cell, ClassId, Elem, FieldId, Memory, ObjId, SlotKind};
use jr_program::{TypedUnit, TypedVariable};

/// The locals of a method's variables: whether it is static, and how many variables it has.
#[derive(Clone, Copy, Debug, PartialEq, Eq)]
pub struct Locals {
    pub is_static: bool,
    pub variables: u32,
}

/// How a variable is read and written: a local, a static field, a field of an object, or an element.
#[derive(Clone, Copy, Debug, PartialEq, Eq)]
pub enum Access {
    OfLocal(u32),
    OfStatic(Cell, SlotKind),
    OfField(u32, SlotKind),
    OfElement(Elem),
}

impl Locals {
    /// The local of a variable.
    pub fn local(self, number: u32) -> Result<u32, Memory>
        ensures { IfOk result (λ local. local ≡ shift self.is_static + number) }
    {
        if self.is_static {
            Ok(number)
        } else {
            sum(1, number)
        }
    }

    /// The local that holds the object of the monitor at that depth, behind the variables.
    pub fn hidden(self, depth: u32) -> Result<u32, Memory>
        ensures { IfOk result (λ local. local ≡ shift self.is_static + (self.variables + depth)) }
    {
        let behind = sum(self.variables, depth)?;
        self.local(behind)
    }

    /// `this`.
    pub fn this(self) -> Op
        ensures { means result ≡ this_one self.is_static }
    {
        if self.is_static {
            Op::PushNull
        } else {
            Op::Load(0)
        }
    }
}

/// The object of a class.
pub fn class_object(class: ClassId) -> Result<ObjId, Memory>
    ensures { IfOk result (λ object. object ≡ object_of class) }
{
    let number = sum(class.0, 1)?;
    Ok(ObjId(number))
}

/// Where a static field lies.
pub fn static_place(unit: &TypedUnit, f: FieldId) -> Result<Cell, Memory>
    ensures { IfOk result (λ place. place ≡ cell (home_of (program_of unit.now) f) (slot_of (program_of unit.now) f)) }
{
    if f.0 < unit.field_count() {
        let field = unit.field(f);
        let obj = class_object(field.class)?;
        let slot = field.slot;
        Ok(Cell { obj, slot })
    } else {
        let obj = ObjId(0);
        Ok(Cell { obj, slot: 0 })
    }
}

/// The slot of a field.
pub fn slot(unit: &TypedUnit, f: FieldId) -> u32
    ensures { result ≡ slot_of (program_of unit.now) f }
{
    if f.0 < unit.field_count() {
        unit.field(f).slot
    } else {
        0
    }
}

/// The kind of a field's values.
pub fn kind(unit: &TypedUnit, f: FieldId) -> SlotKind
    ensures { result ≡ kind_of_field (program_of unit.now) f }
{
    if f.0 < unit.field_count() {
        unit.field(f).kind
    } else {
        SlotKind::Int
    }
}

/// How a variable is read and written.
pub fn access_to(unit: &TypedUnit, variable: &TypedVariable) -> Result<Access, Memory>
    ensures { IfOk result (λ access. access_is access ≡ access_of (program_of unit.now) (view_variable variable.now)) }
{
    match variable {
        TypedVariable::OfMethod(number) => Ok(Access::OfLocal(*number)),
        TypedVariable::OfClass(f) => {
            let place = static_place(unit, *f)?;
            Ok(Access::OfStatic(place, kind(unit, *f)))
        }
        TypedVariable::OfObject(_, f) => Ok(Access::OfField(slot(unit, *f), kind(unit, *f))),
        TypedVariable::OfArray(element, _, _) => Ok(Access::OfElement(*element)),
    }
}

impl Access {
    /// The instruction that reads.
    pub fn read(self, unit: &TypedUnit, locals: Locals) -> Result<Op, Memory>
        ensures { IfOk result (λ op. means op ≡ read_one (setting_with (program_of unit.now) locals) (access_is self)) }
    {
        match self {
            Access::OfLocal(number) => {
                let local = locals.local(number)?;
                Ok(Op::Load(local))
            }
            Access::OfStatic(place, kind) => Ok(Op::GetStatic(place, kind)),
            Access::OfField(slot, kind) => Ok(Op::GetField(slot, kind)),
            Access::OfElement(element) => Ok(Op::GetElement(element)),
        }
    }

    /// The instruction that writes.
    pub fn write(self, unit: &TypedUnit, locals: Locals) -> Result<Op, Memory>
        ensures { IfOk result (λ op. means op ≡ write_one (setting_with (program_of unit.now) locals) (access_is self)) }
    {
        match self {
            Access::OfLocal(number) => {
                let local = locals.local(number)?;
                Ok(Op::Store(local))
            }
            Access::OfStatic(place, kind) => Ok(Op::PutStatic(place, kind)),
            Access::OfField(slot, kind) => Ok(Op::PutField(slot, kind)),
            Access::OfElement(element) => Ok(Op::PutElement(element)),
        }
    }

    /// The instruction that keeps a copy of the value under the variable's operands.
    pub fn keep(self) -> Op
        ensures { means result ≡ keep_one (access_is self) }
    {
        match self {
            Access::OfLocal(_) | Access::OfStatic(_, _) => Op::Dup,
            Access::OfField(_, _) => Op::DupX1,
            Access::OfElement(_) => Op::DupX2,
        }
    }
}
