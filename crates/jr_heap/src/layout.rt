//! Where the cells of objects stand.

ghost use Rattle.std.specs.Prelude.{◌≡◌, ◌+◌, ◌<◌, ◌≤◌, ◌^◌, Some, None, [], OnOk, IfSome, option_copied};
ghost use Rattle.jr_heap.specs.Layout.{object_at, cell_at, Adds, HasOwnPlaces, MAX_CELLS};

use indexmap::IndexMap;
use jr_base::{Cell, Memory, ObjId};
use std::alloc::Global;
use std::marker::Model;

/// Where the cells of an object stand: as many as `len`, from `start` on.
#[derive(Clone, Copy, Debug, PartialEq, Eq)]
pub struct Place {
    /// Whether it is an array, whose length is `len`.
    pub array: bool,
    pub start: u32,
    pub len: u32,
    /// The first step that finds the object made: 0 for one that stands before step 0.
    pub since: u64,
}

/// Gives each cell of each object a place of its own, from 0 without a gap, in the order in which the objects are
/// made. So a heap keeps what it knows of its cells in a `Vec`, by place. There are at most `i32::MAX` cells, since an
/// `int` counts the elements of an array.
///
/// Contracts see the objects with their places, how many cells there are, and for how many more objects
/// there is room. Each call looks up one object by its hash at most.
#[derive(Drop)]
pub struct Layout {
    objects: IndexMap<u32, Place>,
    cells: u32,
}

impl Model for Layout {
    ghost use Rattle.std.specs.Prelude.{◌≤◌};
    ghost use Rattle.indexmap.specs.IndexMap.{spare};
    ghost use Rattle.jr_heap.specs.Layout.{LayoutOf, IsLaidOut, MAX_CELLS};

    ghost Value = { LayoutOf };

    ghost view = { λ l. record { objects = l.objects.entries; cells = l.cells; spare = spare l.objects } };

    ghost invariant = { λ l. IsLaidOut l.objects.entries l.cells };
}

impl Layout {
    /// No object. Takes no memory.
    pub fn new(alloc: Global) -> Layout
        ensures objects { result.objects ≡ [] }
        ensures cells { result.cells ≡ 0 }
    {
        Layout {
            objects: IndexMap::new(alloc),
            cells: 0,
        }
    }

    /// Makes room for so many more objects. `Memory` leaves the objects as they are.
    pub fn reserve(&mut self, objects: u32) -> Result<(), Memory>
        ensures objects { self.new.objects ≡ self.old.objects }
        ensures cells { self.new.cells ≡ self.old.cells }
        ensures room { OnOk result (objects ≤ self.new.spare) }
        ensures spare { self.old.spare ≤ self.new.spare }
    {
        self.objects.reserve(objects as usize)?;
        Ok(())
    }

    /// Adds an object with so many cells, behind all others, which the steps from `since` on find. Takes no memory.
    pub fn add(&mut self, object: ObjId, array: bool, len: u32, since: u64)
        requires absent { object_at self.old object ≡ None }
        requires spare { 0 < self.old.spare }
        requires room { self.old.cells + len ≤ MAX_CELLS }
        ensures added { Adds self.old object (record { array = array; start = self.old.cells; len = len; since = since }) self.new }
        ensures cells { self.new.cells ≡ self.old.cells + len }
        ensures spare { self.old.spare ≤ self.new.spare + 1 }
    {
        let place = Place {
            array,
            start: self.cells,
            len,
            since,
        };
        match self.objects.insert(object.0, place) {
            Ok(_) => {}
            Err(_) => unreachable!(),
        }
        self.cells += len;
    }

    /// The place of an object, if it is there.
    pub fn object(&self, object: ObjId) -> Option<Place>
        ensures place { result ≡ object_at self.now object }
        ensures within { IfSome result (λ place. place.start + place.len ≤ self.now.cells) }
        ensures few { self.now.cells ≤ MAX_CELLS }
    {
        self.objects.get(&object.0).copied()
    }

    /// The place of a cell, if it is there. Each cell has a place below the number of cells, which no other cell has.
    #[tactic(auto, using(crate::proofs::Places::own_places))]
    pub fn cell(&self, cell: Cell) -> Option<u32>
        ensures place { result ≡ cell_at self.now cell }
        ensures within { IfSome result (λ at. at < self.now.cells) }
        ensures places { HasOwnPlaces self.now }
    {
        match self.objects.get(&cell.obj.0) {
            Some(place) if cell.slot < place.len => Some(place.start + cell.slot),
            _ => None,
        }
    }

    /// How many cells there are. Each has a place below that number, which no other cell has.
    #[tactic(auto, using(crate::proofs::Places::own_places))]
    pub fn cells(&self) -> u32
        ensures count { result ≡ self.now.cells }
        ensures bound { result ≤ MAX_CELLS }
        ensures places { HasOwnPlaces self.now }
    {
        self.cells
    }
}
