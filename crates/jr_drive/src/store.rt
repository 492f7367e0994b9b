//! The objects of a run.

ghost use Rattle.std.specs.Prelude.{◌≡◌, ◌<◌, ◌^◌, IfOk, OnErr, option_map};
ghost use Rattle.std.proofs.Math.ListN.{replicate};
ghost use Rattle.jr_arith.specs.Kinds.{kind_of_element as element_kind};
ghost use Rattle.jr_base.specs.Content.{default_value};
ghost use Rattle.jr_base.specs.Deed.{deed_of};
ghost use Rattle.jr_base.specs.declared.number.GuestNo.{GuestNo as Number};
ghost use Rattle.jr_base.specs.declared.value.Ask.{Ask as Question};
ghost use Rattle.jr_heap.specs.Plain.{seen_in};
ghost use Rattle.jr_program.specs.Programs.{Program};
ghost use Rattle.jr_program.specs.UnitViews.{program_of};
ghost use Rattle.jr_meaning.specs.World.{World, Made, start_world, next_object, size_of};
ghost use Rattle.jr_meaning.specs.Machine.{Only, answer, after};
ghost use Rattle.jr_meaning.specs.Heap.{heap_of};
ghost use Rattle.jr_meaning.specs.Limits.{past_limit as limit_past};
ghost use Rattle.jr_built.specs.OneThread.{IsPlain};
ghost use Rattle.jr_drive.specs.Blanks.{blank_of};
ghost use Rattle.jr_drive.specs.Counted.{StandsFor, with_object, count_of};
ghost use Rattle.jr_drive.specs.Stored.{Stored};

use crate::blanks::{blank, blanks};
use crate::counted::{CountedHeap, Excess, past};
use jr_arith::kind_of_element;
use jr_base::{Action, ClassId, Elem, LimitKind, Memory, NewKind, ObjId, Reply, SlotKind, Value};
use jr_heap::PlainHeap;
use jr_program::TypedUnit;
use sqlite_items::Items;
use std::alloc::Global;
use std::marker::Model;

#[cfg(test)]
mod tests;

/// The objects of a run, and what those that are made hold at first.
///
/// It stands for the world of the definitions as far as objects and cells go (`Stored`). A call looks one object up by
/// its hash at most twice, and one that makes an object also copies its values.
///
/// Contracts see the objects, and for each class what the fields of its objects hold at first.
#[derive(Drop)]
pub struct Store {
    made: CountedHeap,
    blanks: Items<Items<Value>>,
}

impl Model for Store {
    ghost use Rattle.jr_drive.specs.Stored.{StoreOf};

    ghost Value = { StoreOf };

    ghost view = { λ s. record { made = s.made; blanks = s.blanks } };
}

/// The objects of the classes, with their static fields (JLS 8.3.2, 12.4).
fn class_objects(alloc: Global, unit: &TypedUnit) -> Result<CountedHeap, Memory>
    ensures { IfOk result (λ made. StandsFor (program_of unit.now) made (start_world (program_of unit.now))) }
{
    let mut made = CountedHeap::new(alloc);
    for number in 0..unit.class_count() {
        let values = blank(alloc, unit, ClassId(number), true)?;
        made.add(false, values.as_slice())?;
    }
    unit.well_formed();
    Ok(made)
}

/// The value that an element holds at first (JLS 4.12.5).
fn default_of(element: &Elem) -> Value
    ensures { result ≡ default_value (element_kind element.now) }
{
    match kind_of_element(element) {
        SlotKind::Int => Value::Int(0),
        SlotKind::Long => Value::Long(0),
        SlotKind::Bool => Value::Bool(false),
        SlotKind::Ref | SlotKind::Caught => Value::Null,
    }
}

/// The elements of an array that is made.
fn elements(alloc: Global, element: &Elem, length: u32) -> Result<Vec<Value>, Memory>
    ensures { IfOk result (λ values. values.items ≡ replicate length (default_value (element_kind element.now))) }
{
    Ok(vec![in alloc; default_of(element); length as usize]?)
}

/// What the fields of an object of a class hold at first.
fn blank_in(blanks: &[Items<Value>], class: ClassId) -> &[Value]
    ensures { result.now ≡ blank_of blanks.now class }
{
    match blanks.get(class.0 as usize) {
        Some(blank) => blank.as_slice(),
        None => &[],
    }
}

impl Store {
    /// As a run of a program starts: the class objects stand with their constants.
    pub fn new(alloc: Global, unit: &TypedUnit) -> Result<Store, Memory>
        ensures { IfOk result (λ store. Stored (program_of unit.now) store (start_world (program_of unit.now))) }
    {
        let made = class_objects(alloc, unit)?;
        let blanks = blanks(alloc, unit)?;
        Ok(Store { made, blanks })
    }

    /// The first kind that a thread's step would bring past its limit, and to how many; the thread has so many frames.
    pub fn past_limit(&self, frames: u32, action: &Action) -> Option<Excess>
        requires { IsPlain (deed_of action.now) }
        ensures { (program : Program) (world : World) (g : Number) → Stored program self.now world → option_map count_of result ≡ limit_past program world frames g (deed_of action.now) }
    {
        match action {
            Action::Call { .. } => past(LimitKind::Frames, u64::from(frames) + 1),
            Action::New(kind) => self.made.past_limit(self.size(*kind)),
            _ => None,
        }
    }

    /// How many cells an object has that is made.
    fn size(&self, kind: NewKind) -> u64
        ensures size { (program : Program) (world : World) → Stored program self.now world → result ≡ size_of program kind }
        ensures bound { result < 2 ^ 63 }
    {
        match kind {
            NewKind::Object(class) => blank_in(self.blanks.as_slice(), class).len() as u64,
            NewKind::Thread => 1,
            NewKind::Plain => 0,
            NewKind::Array(_, length) => u64::from(length),
        }
    }

    /// Makes an object, with its cells as they are at first. `Memory` leaves all as it was.
    fn make(&mut self, alloc: Global, kind: NewKind) -> Result<ObjId, Memory>
        ensures object { IfOk result (λ object. (program : Program) (world : World) → Stored program self.old world → object ≡ next_object world) }
        ensures stands { IfOk result (λ object. (program : Program) (world : World) → Stored program self.old world → Stored program self.new (with_object program world (Made kind))) }
        ensures memory { OnErr result ((program : Program) (world : World) → Stored program self.old world → Stored program self.new world) }
    {
        match kind {
            NewKind::Object(class) => self
                .made
                .add(false, blank_in(self.blanks.as_slice(), class)),
            NewKind::Thread => self.made.add(false, &[Value::Null]),
            NewKind::Plain => self.made.add(false, &[]),
            NewKind::Array(element, length) => {
                let values = elements(alloc, &element, length)?;
                Ok(self.made.add(true, values.as_slice())?)
            }
        }
    }

    /// Makes a thread's step, and gives the machine's reply. `Memory` comes where there is none, and where the cells or
    /// the numbers of objects end; it leaves all as it was.
    pub fn perform(&mut self, alloc: Global, action: &Action) -> Result<Reply, Memory>
        requires { IsPlain (deed_of action.now) }
        ensures reply { IfOk result (λ reply. (program : Program) (world : World) (g : Number) → Stored program self.old world → answer program world g (deed_of action.now) ≡ Only reply) }
        ensures stands { IfOk result (λ reply. (program : Program) (world : World) (g : Number) → Stored program self.old world → Stored program self.new (after program world g (deed_of action.now) reply)) }
        ensures memory { OnErr result ((program : Program) (world : World) → Stored program self.old world → Stored program self.new world) }
    {
        Ok(match action {
            Action::Get(cell) => self.made.get(*cell),
            Action::Put(cell, value) => self.made.put(*cell, *value),
            Action::New(kind) => Reply::Made(self.make(alloc, *kind)?),
            Action::Len(object) => self.made.length(*object),
            _ => Reply::Unit,
        })
    }

    /// The heap, to be read: what a step is judged on. It shows what the world has.
    pub fn heap(&self) -> &PlainHeap
        ensures heap { result.now ≡ self.now.made.heap }
        ensures shown { (program : Program) (world : World) → Stored program self.now world → (what : Question) → seen_in result.now what ≡ heap_of world what }
    {
        self.made.heap()
    }
}
