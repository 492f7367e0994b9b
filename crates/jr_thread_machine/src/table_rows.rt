//! Instructions that name what stands in a list of the code.

ghost use Rattle.std.specs.Prelude.{◌≡◌, ◌<◌, ◌≤◌, ◌+◌, ◌^◌, IfOk, OnErr, MatchOption, Some, None, slice_get};
ghost use Rattle.jr_code.specs.Instructions.{Code as PlainCode};
ghost use Rattle.jr_code.specs.Decoded.{meaning};
ghost use Rattle.jr_code.specs.Views.{tables_of, field_of};
ghost use Rattle.jr_code.specs.declared.instruction.Instruction.TheVariants as rows;
ghost use Rattle.jr_thread_machine.specs.Frames.{frame_of};
ghost use Rattle.jr_thread_machine.specs.Moves.{Steps};
ghost use Rattle.jr_thread_machine.specs.Fields.{NoInstanceField, InstanceField, NoStaticField, StaticField, IsNoInstanceField, IsInstanceField, IsNoStaticField, IsStaticField};

use crate::flow::{Flow, Stop};
use crate::frame::Frame;
use crate::local_rows::class_object;
use crate::table::item_at;
use jr_base::{Cell, Memory};
use jr_code::{Code, FieldCode};
use std::alloc::Global;

/// The slot of an instance field.
fn instance_field(code: &Code, place: u32) -> Option<u32>
    ensures { MatchOption result (NoInstanceField (tables_of code.now) place) (InstanceField (tables_of code.now) place) }
{
    match item_at(&code.fields, place) {
        Some(field) => instance_slot(field),
        None => None,
    }
}

fn instance_slot(field: &FieldCode) -> Option<u32>
    ensures { MatchOption result (IsNoInstanceField (field_of field.now)) (IsInstanceField (field_of field.now)) }
{
    match field.home {
        Some(_) => None,
        None => Some(field.slot),
    }
}

/// The cell of a static field.
fn static_field(code: &Code, place: u32) -> Option<Cell>
    ensures { MatchOption result (NoStaticField (tables_of code.now) place) (StaticField (tables_of code.now) place) }
{
    match item_at(&code.fields, place) {
        Some(field) => static_cell(field),
        None => None,
    }
}

fn static_cell(field: &FieldCode) -> Option<Cell>
    ensures { MatchOption result (IsNoStaticField (field_of field.now)) (IsStaticField (field_of field.now)) }
{
    match field.home {
        Some(obj) => Some(Cell {
            obj,
            slot: field.slot,
        }),
        None => None,
    }
}

impl Frame {
    /// Pushes the object of a class.
    pub(crate) fn push_class(&mut self, code: &Code, place: u32) -> Result<Flow, Memory>
        requires at { self.old.at + 1 < 2 ^ 32 }
        requires room { 4 ≤ self.old.stack.spare }
        ensures ok { IfOk result (λ flow. (plain : PlainCode) → Steps plain (meaning (tables_of code.now) (rows.PushClass place)) flow (frame_of self.old) (frame_of self.new)) }
        ensures err { OnErr result (frame_of self.new ≡ frame_of self.old) }
    {
        match item_at(&code.classes, place) {
            Some(class) => self.push_object(*class),
            None => Ok(Flow::Stops(Stop::Nothing)),
        }
    }

    pub(crate) fn push_long(&mut self, code: &Code, place: u32) -> Flow
        requires at { self.old.at + 1 < 2 ^ 32 }
        requires room { 4 ≤ self.old.stack.spare }
        ensures { (plain : PlainCode) → Steps plain (meaning (tables_of code.now) (rows.PushLong place)) result (frame_of self.old) (frame_of self.new) }
    {
        match item_at(&code.longs, place) {
            Some(n) => {
                self.long(n);
                Flow::Goes
            }
            None => Flow::Stops(Stop::Nothing),
        }
    }

    pub(crate) fn get_field(&mut self, code: &Code, place: u32) -> Flow
        ensures { (plain : PlainCode) → Steps plain (meaning (tables_of code.now) (rows.GetField place)) result (frame_of self.old) (frame_of self.new) }
    {
        match instance_field(code, place) {
            Some(slot) => self.read_field(slot),
            None => Flow::Stops(Stop::Nothing),
        }
    }

    pub(crate) fn put_field(&mut self, code: &Code, place: u32) -> Flow
        ensures { (plain : PlainCode) → Steps plain (meaning (tables_of code.now) (rows.PutField place)) result (frame_of self.old) (frame_of self.new) }
    {
        match instance_field(code, place) {
            Some(slot) => self.write_field(slot),
            None => Flow::Stops(Stop::Nothing),
        }
    }

    pub(crate) fn get_static(&mut self, code: &Code, place: u32) -> Flow
        ensures { (plain : PlainCode) → Steps plain (meaning (tables_of code.now) (rows.GetStatic place)) result (frame_of self.old) (frame_of self.new) }
    {
        match static_field(code, place) {
            Some(cell) => self.read_static(cell),
            None => Flow::Stops(Stop::Nothing),
        }
    }

    pub(crate) fn put_static(&mut self, code: &Code, place: u32) -> Flow
        ensures { (plain : PlainCode) → Steps plain (meaning (tables_of code.now) (rows.PutStatic place)) result (frame_of self.old) (frame_of self.new) }
    {
        match static_field(code, place) {
            Some(cell) => self.write_static(cell),
            None => Flow::Stops(Stop::Nothing),
        }
    }

    pub(crate) fn get_element(&mut self, code: &Code, place: u32) -> Result<Flow, Memory>
        ensures ok { IfOk result (λ flow. (plain : PlainCode) → Steps plain (meaning (tables_of code.now) (rows.GetElement place)) flow (frame_of self.old) (frame_of self.new)) }
        ensures err { OnErr result (frame_of self.new ≡ frame_of self.old) }
    {
        match item_at(&code.elems, place) {
            Some(_element) => self.read_element(),
            None => Ok(Flow::Stops(Stop::Nothing)),
        }
    }

    pub(crate) fn put_element(&mut self, code: &Code, place: u32) -> Result<Flow, Memory>
        ensures ok { IfOk result (λ flow. (plain : PlainCode) → Steps plain (meaning (tables_of code.now) (rows.PutElement place)) flow (frame_of self.old) (frame_of self.new)) }
        ensures err { OnErr result (frame_of self.new ≡ frame_of self.old) }
    {
        match item_at(&code.elems, place) {
            Some(_element) => self.write_element(),
            None => Ok(Flow::Stops(Stop::Nothing)),
        }
    }

    pub(crate) fn make(&mut self, code: &Code, place: u32) -> Flow
        ensures { (plain : PlainCode) → Steps plain (meaning (tables_of code.now) (rows.Make place)) result (frame_of self.old) (frame_of self.new) }
    {
        match item_at(&code.makes, place) {
            Some(kind) => self.make_object(*kind),
            None => Flow::Stops(Stop::Nothing),
        }
    }

    pub(crate) fn make_array(&mut self, code: &Code, place: u32) -> Result<Flow, Memory>
        ensures ok { IfOk result (λ flow. (plain : PlainCode) → Steps plain (meaning (tables_of code.now) (rows.MakeArray place)) flow (frame_of self.old) (frame_of self.new)) }
        ensures err { OnErr result (frame_of self.new ≡ frame_of self.old) }
    {
        match item_at(&code.elems, place) {
            Some(element) => self.make_elements(*element),
            None => Ok(Flow::Stops(Stop::Nothing)),
        }
    }

    pub(crate) fn assert_that(
        &mut self,
        alloc: Global,
        code: &Code,
        place: u32,
    ) -> Result<Flow, Memory>
        requires at { self.old.at + 1 < 2 ^ 32 }
        ensures ok { IfOk result (λ flow. (plain : PlainCode) → Steps plain (meaning (tables_of code.now) (rows.AssertThat place)) flow (frame_of self.old) (frame_of self.new)) }
        ensures err { OnErr result (frame_of self.new ≡ frame_of self.old) }
    {
        match item_at(&code.asserts, place) {
            Some(asserted) => self.assert_clause(alloc, asserted),
            None => Ok(Flow::Stops(Stop::Nothing)),
        }
    }

    pub(crate) fn print_all(
        &mut self,
        alloc: Global,
        code: &Code,
        place: u32,
    ) -> Result<Flow, Memory>
        requires at { self.old.at + 1 < 2 ^ 32 }
        ensures ok { IfOk result (λ flow. (plain : PlainCode) → Steps plain (meaning (tables_of code.now) (rows.PrintAll place)) flow (frame_of self.old) (frame_of self.new)) }
        ensures err { OnErr result (frame_of self.new ≡ frame_of self.old) }
    {
        match item_at(&code.prints, place) {
            Some(parts) => self.print(alloc, parts),
            None => Ok(Flow::Stops(Stop::Nothing)),
        }
    }

    pub(crate) fn throw_new(&mut self, code: &Code, place: u32) -> Flow
        ensures { (plain : PlainCode) → Steps plain (meaning (tables_of code.now) (rows.ThrowNew place)) result (frame_of self.old) (frame_of self.new) }
    {
        match item_at(&code.faults, place) {
            Some(fault) => Flow::Throws(*fault),
            None => Flow::Stops(Stop::Nothing),
        }
    }
}
