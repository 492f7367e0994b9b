//! The plain heap.

ghost use Rattle.std.specs.Prelude.{◌≡◌, ◌≢◌, ◌+◌, ◌<◌, ◌≤◌, Some, None, [], IsSome, OnOk, OnErr, length, slice_get, pos};
ghost use Rattle.jr_base.specs.declared.number.ObjId.{ObjId as ObjectNumber};
ghost use Rattle.jr_base.specs.declared.value.Cell.{Cell as CellOf};
ghost use Rattle.jr_base.specs.declared.value.Ask.{Ask as Question};
ghost use Rattle.jr_base.specs.declared.value.Ask.TheVariants as asks;
ghost use Rattle.jr_base.specs.declared.value.Seen.TheVariants as answers;
ghost use Rattle.jr_heap.specs.Layout.{object_at, cell_at, Adds};
ghost use Rattle.jr_heap.specs.Plain.{seen_in, seen_value, seen_length};

use crate::layout::Layout;
use crate::snapshot::Snapshot;
use jr_base::{Ask, Cell, Memory, ObjId, Seen, Value};
use std::alloc::Global;
use std::marker::Model;

/// A heap of which each cell has its newest value alone, as when a journal is gone through step by step.
///
/// Contracts see its objects with their places, and the value of each place. Each call looks one object up by its
/// hash, and `add` also copies the object's values.
#[derive(Drop)]
pub struct PlainHeap {
    layout: Layout,
    values: Vec<Value>,
}

impl Model for PlainHeap {
    ghost use Rattle.std.specs.Prelude.{◌≡◌, length};
    ghost use Rattle.jr_heap.specs.Plain.{Plain};

    ghost Value = { Plain };

    ghost view = { λ h. record { layout = h.layout; values = h.values.items } };

    ghost invariant = { λ h. length h.values.items ≡ h.layout.cells };
}

impl PlainHeap {
    /// No object. Takes no memory.
    pub fn new(alloc: Global) -> PlainHeap
        ensures objects { result.layout.objects ≡ [] }
        ensures empty { (what : Question) → seen_in result what ≡ answers.Absent }
    {
        PlainHeap {
            layout: Layout::new(alloc),
            values: Vec::new(alloc),
        }
    }

    /// Makes an object with these cells. `Memory` comes where there is none, and where all cells together would be
    /// more than `i32::MAX`; it leaves the heap as it was.
    pub fn add(&mut self, object: ObjId, array: bool, values: &[Value]) -> Result<(), Memory>
        requires { object_at self.old.layout object ≡ None }
        ensures made { OnOk result (Adds self.old.layout object (record { array = array; start = self.old.layout.cells; len = length values.now; since = 0 }) self.new.layout) }
        ensures cells { OnOk result ((cell : CellOf) → cell.obj.0 ≡ object.0 → seen_in self.new (asks.Cell cell) ≡ seen_value (slice_get values.now cell.slot)) }
        ensures elements { OnOk result (seen_in self.new (asks.Length object) ≡ seen_length (Some (record { array = array; start = 0; len = length values.now; since = 0 }))) }
        ensures other_cells { (cell : CellOf) → cell.obj.0 ≢ object.0 → seen_in self.new (asks.Cell cell) ≡ seen_in self.old (asks.Cell cell) }
        ensures other_lengths { (other : ObjectNumber) → other.0 ≢ object.0 → seen_in self.new (asks.Length other) ≡ seen_in self.old (asks.Length other) }
        ensures memory { OnErr result ((what : Question) → seen_in self.new what ≡ seen_in self.old what) }
        ensures memory_objects { OnErr result (self.new.layout.objects ≡ self.old.layout.objects) }
    {
        let cells = self.layout.cells();
        if values.len() > (i32::MAX as u32 - cells) as usize {
            return Err(Memory);
        }
        self.layout.reserve(1)?;
        self.values.extend_from_slice(values)?;
        self.layout.add(object, array, values.len() as u32, 0);
        Ok(())
    }

    /// Writes a cell that is there. Takes no memory.
    pub fn put(&mut self, cell: Cell, value: Value)
        requires { IsSome (cell_at self.old.layout cell) }
        ensures written { seen_in self.new (asks.Cell cell) ≡ answers.Value value }
        ensures other_cells { (other : CellOf) → other ≢ cell → seen_in self.new (asks.Cell other) ≡ seen_in self.old (asks.Cell other) }
        ensures lengths { (object : ObjectNumber) → seen_in self.new (asks.Length object) ≡ seen_in self.old (asks.Length object) }
        ensures layout { self.new.layout ≡ self.old.layout }
    {
        if let Some(at) = self.layout.cell(cell) {
            self.values[at as usize] = value;
        }
    }

    /// What the heap has there, as `ask` answers it, of a heap that is lent to be read. Takes no memory.
    pub fn see(&self, what: Ask) -> Seen
        ensures { result ≡ seen_in self.now what }
    {
        match what {
            Ask::Cell(cell) => match self.layout.cell(cell) {
                Some(at) => Seen::Value(self.values[at as usize]),
                None => Seen::Absent,
            },
            Ask::Length(object) => match self.layout.object(object) {
                Some(place) if place.array => Seen::Value(Value::Int(place.len as i32)),
                _ => Seen::Absent,
            },
        }
    }
}

impl Snapshot for PlainHeap {
    ghost use Rattle.jr_heap.specs.Lengths.{lengths};

    ghost shown = { seen_in };

    ghost lengths = { lengths };

    fn ask(&mut self, what: Ask) -> Seen {
        self.see(what)
    }
}

/// A plain heap that is lent to be read: several readers may read one heap, and it stays as it is.
#[derive(Clone, Copy)]
pub struct PlainReader<'a> {
    pub heap: &'a PlainHeap,
}

impl Snapshot for PlainReader<'_> {
    ghost use Rattle.jr_heap.specs.Lengths.{lengths};

    ghost shown = { λ reader. seen_in reader.heap.now };

    ghost lengths = { λ reader. lengths reader.heap.now };

    fn ask(&mut self, what: Ask) -> Seen {
        self.heap.see(what)
    }
}
