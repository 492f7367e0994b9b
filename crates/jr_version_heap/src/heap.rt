//! The heap with versions.

ghost use Rattle.std.specs.Prelude.{◌≡◌, ◌≢◌, ◌+◌, ◌<◌, ◌≤◌, ◌⊎◌, ◌++◌, ◌∷◌, [], ℕ, List, Some, None, IsSome, IfOk, OnOk, length, min};
ghost use Rattle.jr_base.specs.declared.value.Ask.TheVariants as asks;
ghost use Rattle.jr_base.specs.declared.value.Seen.{Seen as Answer};
ghost use Rattle.jr_heap.specs.Layout.{object_at, cell_at, Adds};
ghost use Rattle.jr_stamps.specs.Pins.{IsPinned, Changes, pin_at};
ghost use Rattle.jr_version_heap.specs.Needs.{SameStamps, LosesPin};
ghost use Rattle.jr_version_heap.specs.Histories.{Change, Made, Wrote, IsReadable, KeepsWhatIsRead, Shows, StandsFor, HasFirstObjects, first_objects, seen_before, spare_versions, version_count};

use crate::cells::add_cells;
use crate::chain::{advance, find};
use crate::needs::{free, settle, settle_all};
use crate::version::{Past, Version};
use jr_base::{Ask, Cell, Memory, ObjId, Seen, Stamp, Value, Values};
use jr_heap::Layout;
use jr_stamps::{PinId, Pins};
use slab::Slab;
use std::alloc::Global;
use std::marker::Model;

/// A heap of which each cell has its newest value, and those older ones that a pinned stamp shows. A stamp is the
/// number of a step, and shows the heap as it stood before that step.
///
/// What a stamp shows is told by the list of makes and writes alone (`StandsFor`): it is what a plain heap would
/// have shown before that step, whatever was written, pinned, unpinned and freed since. A stamp may be read while it
/// is pinned, or where it is past the last write. A version that was replaced and that no pinned stamp needs is
/// pending, and `sweep` frees it (`KeepsWhatIsRead`). Only `new`, `reserve` and `reserve_pins` take memory.
///
/// Nothing that a call costs grows with the number of steps or of cells. The versions of a cell that are not pending
/// stand in a chain, from the newest backwards: there is one newest, and no more others than pinned stamps. A version
/// that a pinned stamp needs stands in the dead list of the pin of the greatest such stamp. Objects are looked up by
/// their hash, and pins by halves.
///
/// Contracts see the objects with their places, the versions, the pins, which versions are pending, how far the
/// history goes, and the room.
#[derive(Drop)]
pub struct VersionHeap {
    layout: Layout,
    newest: Vec<usize>,
    versions: Slab<Version>,
    pending: Vec<usize>,
    pins: Pins,
    past: Past,
}

impl Model for VersionHeap {
    ghost use Rattle.std.specs.Prelude.{◌-◌, min, vec_capacity, length};
    ghost use Rattle.jr_heap.specs.Layout.{MAX_CELLS};
    ghost use Rattle.jr_version_heap.specs.Histories.{VersionsOf, IsHeap, room_of};

    ghost Value = { VersionsOf };

    ghost view = { λ h. record {
      layout = h.layout;
      versions = h.versions.slots;
      pins = h.pins;
      pending = h.pending.items;
      past = h.past;
      spare_cells = min (vec_capacity h.newest - length h.newest.items) (MAX_CELLS - h.layout.cells);
      room = room_of h.versions.capacity (vec_capacity h.pending);
    } };

    ghost invariant = { λ h. IsHeap h.layout h.newest.items h.versions.slots h.pins.pins h.pending.items h.past (vec_capacity h.pending) };
}

impl VersionHeap {
    // No object. Takes no memory.
    fn empty(alloc: Global) -> VersionHeap
        ensures history { StandsFor result [] }
        ensures objects { result.layout.objects ≡ [] }
        ensures pins { (p : ℕ) → pin_at result.pins p ≡ None }
        ensures pending { result.pending ≡ [] }
        ensures past { result.past ≡ record { changes = 0; writes = 0 } }
    {
        VersionHeap {
            layout: Layout::new(alloc),
            newest: Vec::new(alloc),
            versions: Slab::new(alloc),
            pending: Vec::new(alloc),
            pins: Pins::new(alloc),
            past: Past {
                changes: 0,
                writes: 0,
            },
        }
    }

    /// The objects with the numbers from 1 on, with these cells, none an array, as they stand before step 0. No stamp
    /// is pinned. `Memory` comes where there is none, and where the objects would be more than `u32::MAX` or their
    /// cells more than `i32::MAX`. Costs as much as there are cells.
    pub fn new(alloc: Global, first: &[Values]) -> Result<VersionHeap, Memory>
        ensures history { IfOk result (λ heap. StandsFor heap (first_objects 1 first.now)) }
        ensures layout { IfOk result (λ heap. HasFirstObjects heap.layout first.now) }
        ensures pins { IfOk result (λ heap. (p : ℕ) → pin_at heap.pins p ≡ None) }
        ensures pending { IfOk result (λ heap. heap.pending ≡ []) }
        ensures past { IfOk result (λ heap. heap.past ≡ record { changes = 0; writes = 0 }) }
    {
        let mut heap = VersionHeap::empty(alloc);
        if first.len() > u32::MAX as usize {
            return Err(Memory);
        }
        let mut number = 0;
        for values in first {
            number += 1;
            heap.reserve(1, values.len(), values.len())?;
            heap.add(ObjId(number), false, values.as_slice(), 0);
        }
        Ok(heap)
    }

    /// Makes room for so many more objects, cells and versions: the next makes and writes of so many take no memory. A
    /// make takes a version for each cell, and a write takes one. `Memory` comes where there is none, where all cells
    /// together would be more than `i32::MAX`, and where the versions might be more than `u32::MAX`. It leaves
    /// everything but the room as it was; there may be room for no version then until a call succeeds. Where there is
    /// room already this costs a few comparisons.
    pub fn reserve(&mut self, objects: u32, cells: u32, versions: u32) -> Result<(), Memory>
        ensures objects { OnOk result (objects ≤ self.new.layout.spare) }
        ensures cells { OnOk result (cells ≤ self.new.spare_cells) }
        ensures versions { OnOk result (versions ≤ spare_versions self.new) }
        ensures room { OnOk result (self.old.room ≤ self.new.room) }
        ensures spare_objects { self.old.layout.spare ≤ self.new.layout.spare }
        ensures spare_cells { self.old.spare_cells ≤ self.new.spare_cells }
        ensures layout_objects { self.new.layout.objects ≡ self.old.layout.objects }
        ensures layout_cells { self.new.layout.cells ≡ self.old.layout.cells }
        ensures same { self.new ≡ record self.old { layout = self.new.layout; spare_cells = self.new.spare_cells; room = self.new.room } }
        ensures history { (h : List Change) → StandsFor self.old h → StandsFor self.new h }
    {
        if cells > i32::MAX as u32 - self.layout.cells() {
            return Err(Memory);
        }
        self.layout.reserve(objects)?;
        self.newest.reserve(cells as usize)?;
        self.versions.reserve(versions as usize)?;
        let capacity = self.versions.capacity();
        if capacity > u32::MAX as usize {
            return Err(Memory);
        }
        // Each version may be pending.
        let pending = self.pending.len();
        if pending < capacity {
            self.pending.reserve(capacity - pending)?;
        }
        Ok(())
    }

    /// Makes an object with these cells, in step `at`: the steps behind it find it. Takes no memory, and costs as much
    /// as there are values.
    pub fn make(&mut self, object: ObjId, array: bool, values: &[Value], at: Stamp)
        requires absent { object_at self.old.layout object ≡ None }
        requires objects { 0 < self.old.layout.spare }
        requires cells { length values.now ≤ self.old.spare_cells }
        requires versions { length values.now ≤ spare_versions self.old }
        requires later { self.old.past.changes ≤ at.0 }
        ensures history { (h : List Change) → StandsFor self.old h → StandsFor self.new (h ++ Made object array values.now (at.0 + 1) ∷ []) }
        ensures layout { Adds self.old.layout object (record { array = array; start = self.old.layout.cells; len = length values.now; since = at.0 + 1 }) self.new.layout }
        ensures past { self.new.past ≡ record self.old.past { changes = at.0 + 1 } }
        ensures pins { self.new.pins ≡ self.old.pins }
        ensures pending { self.new.pending ≡ self.old.pending }
        ensures count { version_count self.new ≡ version_count self.old + length values.now }
        ensures room { self.new.room ≡ self.old.room }
        ensures spare_cells { self.new.spare_cells + length values.now ≡ self.old.spare_cells }
        ensures spare_objects { self.old.layout.spare ≤ self.new.layout.spare + 1 }
    {
        self.add(object, array, values, at.0 as u64 + 1);
    }

    // Makes an object that the steps from `since` on find.
    fn add(&mut self, object: ObjId, array: bool, values: &[Value], since: u64)
        requires absent { object_at self.old.layout object ≡ None }
        requires objects { 0 < self.old.layout.spare }
        requires cells { length values.now ≤ self.old.spare_cells }
        requires versions { length values.now ≤ spare_versions self.old }
        requires later { self.old.past.changes ≤ since }
        requires short { since ≤ 4294967296 }
        ensures history { (h : List Change) → StandsFor self.old h → StandsFor self.new (h ++ Made object array values.now since ∷ []) }
        ensures layout { Adds self.old.layout object (record { array = array; start = self.old.layout.cells; len = length values.now; since = since }) self.new.layout }
        ensures past { self.new.past ≡ record self.old.past { changes = since } }
        ensures pins { self.new.pins ≡ self.old.pins }
        ensures pending { self.new.pending ≡ self.old.pending }
        ensures count { version_count self.new ≡ version_count self.old + length values.now }
        ensures room { self.new.room ≡ self.old.room }
        ensures spare_cells { self.new.spare_cells + length values.now ≡ self.old.spare_cells }
        ensures spare_objects { self.old.layout.spare ≤ self.new.layout.spare + 1 }
    {
        // The layout says that there are few.
        let _cells = self.layout.cells();
        self.layout.add(object, array, values.len() as u32, since);
        add_cells(&mut self.versions, &mut self.newest, values, since);
        self.past.changes = since;
    }

    /// Writes a cell that is there, in step `at`: the steps behind it find the value. The version that was the newest
    /// serves the stamps up to `at`, and is pending where none of them is pinned that finds it. Takes no memory. Costs a
    /// search of the pins.
    pub fn write(&mut self, cell: Cell, value: Value, at: Stamp)
        requires there { IsSome (cell_at self.old.layout cell) }
        requires versions { 0 < spare_versions self.old }
        requires later { self.old.past.changes ≤ at.0 }
        requires pinned { (k : ℕ) → IsPinned self.old.pins k → k ≤ at.0 }
        ensures history { (h : List Change) → StandsFor self.old h → StandsFor self.new (h ++ Wrote cell value (at.0 + 1) ∷ []) }
        ensures layout { self.new.layout ≡ self.old.layout }
        ensures past { self.new.past ≡ record { changes = at.0 + 1; writes = at.0 + 1 } }
        ensures pins { SameStamps self.old.pins.pins self.new.pins.pins }
        ensures count { version_count self.new ≡ version_count self.old + 1 }
        ensures room { self.new.room ≡ self.old.room }
        ensures spare_cells { self.new.spare_cells ≡ self.old.spare_cells }
        ensures spare_pins { self.new.pins.spare ≡ self.old.pins.spare }
    {
        let place = match self.layout.cell(cell) {
            Some(place) => place,
            None => unreachable!(),
        };
        let replaced = advance(&mut self.versions, &mut self.newest, place, value, at.0);
        self.past = Past {
            changes: at.0 as u64 + 1,
            writes: at.0 as u64 + 1,
        };
        let latest = self.pins.latest(at);
        settle(
            &mut self.versions,
            &mut self.pins,
            &mut self.pending,
            replaced,
            latest,
        );
    }

    /// What the heap showed before step `s`. Takes no memory. A cell costs a walk over those of its versions that are
    /// newer and that pinned stamps need.
    pub fn read_at(&self, what: Ask, s: Stamp) -> Seen
        requires { IsReadable self.now s.0 }
        ensures { (h : List Change) → StandsFor self.now h → result ≡ seen_before h what s.0 }
    {
        let step = s.0 as u64;
        match what {
            Ask::Cell(cell) => self.value_before(cell, step),
            Ask::Length(object) => self.length_before(object, step),
        }
    }

    // The value of a cell before a step.
    fn value_before(&self, cell: Cell, step: u64) -> Seen
        requires { IsReadable self.now step }
        ensures { (seen : Answer) → Shows self.now (asks.Cell cell) step seen → result ≡ seen }
    {
        match self.layout.object(cell.obj) {
            Some(object) if object.since <= step && cell.slot < object.len => {
                let place = object.start + cell.slot;
                match find(&self.versions, &self.newest, place, step) {
                    Some(value) => Seen::Value(value),
                    None => Seen::Absent,
                }
            }
            _ => Seen::Absent,
        }
    }

    // The length of an array before a step.
    fn length_before(&self, object: ObjId, step: u64) -> Seen
        ensures { (seen : Answer) → Shows self.now (asks.Length object) step seen → result ≡ seen }
    {
        match self.layout.object(object) {
            Some(object) if object.since <= step && object.array => {
                Seen::Value(Value::Int(object.len as i32))
            }
            _ => Seen::Absent,
        }
    }

    /// Makes room for so many more pins, which are then set without memory. `Memory` leaves all as it was.
    pub fn reserve_pins(&mut self, n: u32) -> Result<(), Memory>
        ensures room { OnOk result (n ≤ self.new.pins.spare) }
        ensures spare { self.old.pins.spare ≤ self.new.pins.spare }
        ensures pins { self.new.pins.pins ≡ self.old.pins.pins }
        ensures same { self.new ≡ record self.old { pins = self.new.pins } }
        ensures history { (h : List Change) → StandsFor self.old h → StandsFor self.new h }
    {
        self.pins.reserve(n)
    }

    /// Pins a stamp, so that it may be read until the pin is taken away. Takes no memory. Costs a search of the pins, and
    /// moves those of later stamps by a place.
    pub fn pin(&mut self, s: Stamp) -> PinId
        requires spare { 0 < self.old.pins.spare }
        requires allowed { IsReadable self.old s.0 }
        ensures fresh { pin_at self.old.pins result.0 ≡ None }
        ensures pinned { Changes self.old.pins result.0 (Some (record { stamp = s; head = None })) self.new.pins }
        ensures same { self.new ≡ record self.old { pins = self.new.pins } }
        ensures history { (h : List Change) → StandsFor self.old h → StandsFor self.new h }
        ensures spare { self.new.pins.spare + 1 ≡ self.old.pins.spare }
    {
        self.pins.pin(s)
    }

    /// Takes a pin away. The versions of its dead list that an earlier pinned stamp needs go to the dead list of the
    /// greatest such stamp, and the others are pending then. Takes no memory. Costs a search of the pins and as much as
    /// the dead list is long, and moves the pins of later stamps by one place.
    pub fn unpin(&mut self, pin: PinId)
        requires { IsSome (pin_at self.old.pins pin.0) }
        ensures unpinned { LosesPin self.old.pins.pins pin.0 self.new.pins.pins }
        ensures history { (h : List Change) → StandsFor self.old h → StandsFor self.new h }
        ensures layout { self.new.layout ≡ self.old.layout }
        ensures past { self.new.past ≡ self.old.past }
        ensures count { version_count self.new ≡ version_count self.old }
        ensures room { self.new.room ≡ self.old.room }
        ensures spare_cells { self.new.spare_cells ≡ self.old.spare_cells }
        ensures spare_pins { self.new.pins.spare ≡ self.old.pins.spare + 1 }
    {
        let stamp = self.pins.stamp(pin);
        let first = self.pins.head(pin);
        self.pins.unpin(pin);
        let latest = self.pins.latest(stamp);
        settle_all(
            &mut self.versions,
            &mut self.pins,
            &mut self.pending,
            first,
            latest,
        );
    }

    /// Frees 32 of the pending versions, or all where there are fewer, and answers how many. The room that they took is
    /// that of later versions. Takes no memory. Costs as much as it frees.
    pub fn sweep(&mut self) -> u32
        ensures freed { result ≡ min 32 (length self.old.pending) }
        ensures pending { length self.new.pending + result ≡ length self.old.pending }
        ensures count { version_count self.new + result ≡ version_count self.old }
        ensures room { self.new.room ≡ self.old.room }
        ensures history { (h : List Change) → StandsFor self.old h → StandsFor self.new h }
        ensures layout { self.new.layout ≡ self.old.layout }
        ensures pins { self.new.pins ≡ self.old.pins }
        ensures past { self.new.past ≡ self.old.past }
        ensures spare_cells { self.new.spare_cells ≡ self.old.spare_cells }
    {
        free(&mut self.versions, &mut self.pending)
    }

    /// How many versions are pending: those that were replaced, that no pinned stamp needs, and that `sweep` has not
    /// freed. Costs nothing.
    pub fn pending(&self) -> u32
        ensures count { result ≡ length self.now.pending }
        ensures kept { KeepsWhatIsRead self.now }
    {
        self.pending.len() as u32
    }
}
