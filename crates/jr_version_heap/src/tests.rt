//! What a heap with versions shows, and what it frees, on small histories.

ghost use Rattle.std.specs.Prelude.{◌≡◌, ◌≢◌, ◌+◌, ◌<◌, ◌≤◌, ℕ, Some, None, IsSome, IfOk};
ghost use Rattle.jr_heap.specs.Layout.{cell_at};
ghost use Rattle.jr_stamps.specs.Pins.{IsPinned, pin_at};
ghost use Rattle.jr_version_heap.specs.Needs.{stamp_of};
ghost use Rattle.jr_version_heap.specs.Histories.{spare_versions};

use super::*;
use jr_base::{Ask, Cell, Memory, ObjId, Seen, Stamp, Value};
use jr_stamps::PinId;
use std::alloc::Global;
use std::process::Abort;
use std::test::Fail;

const CELL: Cell = Cell {
    obj: ObjId(5),
    slot: 0,
};

fn int(n: i32) -> Seen {
    Seen::Value(Value::Int(n))
}

// A heap with object 5, which step `at` made with one cell of value 0, and room for so many versions and pins.
fn made(alloc: Global, at: u32, versions: u32, pins: u32) -> Result<VersionHeap, Memory>
    requires { 0 < versions }
    ensures there { IfOk result (λ heap. IsSome (cell_at heap.layout (record { obj = record { 0 = 5 }; slot = 0 }))) }
    ensures versions { IfOk result (λ heap. versions ≤ spare_versions heap + 1) }
    ensures pins { IfOk result (λ heap. pins ≤ heap.pins.spare) }
    ensures past { IfOk result (λ heap. heap.past ≡ record { changes = at + 1; writes = 0 }) }
    ensures none { IfOk result (λ heap. (p : ℕ) → pin_at heap.pins p ≡ None) }
{
    let mut heap = VersionHeap::new(alloc, &[])?;
    heap.reserve(1, 1, versions)?;
    heap.reserve_pins(pins)?;
    heap.make(ObjId(5), false, &[Value::Int(0)], Stamp(at));
    Ok(heap)
}

// Pins a stamp that no other pin is past, and writes a cell in step `at`.
fn pin_and_write(heap: &mut VersionHeap, stamp: u32, cell: Cell, value: i32, at: u32) -> PinId
    requires there { IsSome (cell_at heap.old.layout cell) }
    requires versions { 0 < spare_versions heap.old }
    requires pins { 0 < heap.old.pins.spare }
    requires pinned { (k : ℕ) → IsPinned heap.old.pins k → k ≤ stamp }
    requires writes { heap.old.past.writes ≤ stamp }
    requires changes { heap.old.past.changes ≤ at }
    requires order { stamp ≤ at }
    ensures layout { heap.new.layout ≡ heap.old.layout }
    ensures versions { spare_versions heap.new + 1 ≡ spare_versions heap.old }
    ensures pins { heap.new.pins.spare + 1 ≡ heap.old.pins.spare }
    ensures past { heap.new.past ≡ record { changes = at + 1; writes = at + 1 } }
    ensures upto { (k : ℕ) → IsPinned heap.new.pins k → k ≤ stamp }
    ensures pinned { stamp_of (pin_at heap.new.pins result.0) ≡ Some stamp }
    ensures others { (p k : ℕ) → stamp_of (pin_at heap.old.pins p) ≡ Some k → stamp_of (pin_at heap.new.pins p) ≡ Some k }
{
    let pin = heap.pin(Stamp(stamp));
    heap.write(cell, Value::Int(value), Stamp(at));
    pin
}

#[test]
fn shows_the_step_that_is_next(rt: HostRuntime) -> Result<(), Fail> {
    let mut heap = made(rt.alloc(), 2, 4, 0)?;
    assert_eq!(rt; heap.read_at(Ask::Cell(CELL), Stamp(2)), Seen::Absent);
    assert_eq!(rt; heap.read_at(Ask::Cell(CELL), Stamp(3)), int(0));
    heap.write(CELL, Value::Int(10), Stamp(3));
    assert_eq!(rt; heap.read_at(Ask::Cell(CELL), Stamp(7)), int(10));
    heap.write(CELL, Value::Int(20), Stamp(7));
    assert_eq!(rt; heap.read_at(Ask::Cell(CELL), Stamp(8)), int(20));
    heap.write(CELL, Value::Int(30), Stamp(9));
    assert_eq!(rt; heap.read_at(Ask::Cell(CELL), Stamp(10)), int(30));
    assert_eq!(rt; heap.pending(), 3);
    Ok(())
}

#[test]
fn shows_each_pinned_step(rt: HostRuntime) -> Result<(), Fail> {
    let mut heap = made(rt.alloc(), 2, 4, 4)?;
    heap.pin(Stamp(2));
    pin_and_write(&mut heap, 3, CELL, 10, 3);
    pin_and_write(&mut heap, 7, CELL, 20, 7);
    pin_and_write(&mut heap, 8, CELL, 30, 9);
    assert_eq!(rt; heap.read_at(Ask::Cell(CELL), Stamp(2)), Seen::Absent);
    assert_eq!(rt; heap.read_at(Ask::Cell(CELL), Stamp(3)), int(0));
    assert_eq!(rt; heap.read_at(Ask::Cell(CELL), Stamp(7)), int(10));
    assert_eq!(rt; heap.read_at(Ask::Cell(CELL), Stamp(8)), int(20));
    assert_eq!(rt; heap.read_at(Ask::Cell(CELL), Stamp(10)), int(30));
    assert_eq!(rt; heap.pending(), 0);
    Ok(())
}

// The cell is written in the steps 3, 7 and 9, and the stamps 7 and 8 are pinned.
fn pinned_twice(alloc: Global) -> Result<(VersionHeap, PinId, PinId), Memory>
    ensures seven { IfOk result (λ made. stamp_of (pin_at made.0.pins made.1.0) ≡ Some 7) }
    ensures eight { IfOk result (λ made. stamp_of (pin_at made.0.pins made.2.0) ≡ Some 8) }
    ensures writes { IfOk result (λ made. made.0.past.writes ≤ 10) }
{
    let mut heap = made(alloc, 2, 4, 2)?;
    heap.write(CELL, Value::Int(10), Stamp(3));
    let seven = pin_and_write(&mut heap, 7, CELL, 20, 7);
    let eight = pin_and_write(&mut heap, 8, CELL, 30, 9);
    Ok((heap, seven, eight))
}

// Takes two pins away, and then frees every version but the newest. Meanwhile the second pin's stamp shows what it did.
fn unpin_both(
    rt: &impl Abort,
    heap: &mut VersionHeap,
    first: PinId,
    second: PinId,
    stamp: u32,
    seen: Seen,
)
    requires first { IsSome (pin_at heap.old.pins first.0) }
    requires second { stamp_of (pin_at heap.old.pins second.0) ≡ Some stamp }
    requires apart { second.0 ≢ first.0 }
    requires writes { heap.old.past.writes ≤ 10 }
{
    assert_eq!(rt; heap.pending(), 1);
    heap.unpin(first);
    assert_eq!(rt; heap.pending(), 2);
    assert_eq!(rt; heap.read_at(Ask::Cell(CELL), Stamp(stamp)), seen);
    heap.unpin(second);
    assert_eq!(rt; heap.pending(), 3);
    assert_eq!(rt; heap.sweep(), 3);
    assert_eq!(rt; heap.pending(), 0);
    assert_eq!(rt; heap.read_at(Ask::Cell(CELL), Stamp(10)), int(30));
}

#[test]
fn frees_what_the_earlier_pin_needed(rt: HostRuntime) -> Result<(), Fail> {
    let (mut heap, seven, eight) = pinned_twice(rt.alloc())?;
    assert_eq!(rt; heap.read_at(Ask::Cell(CELL), Stamp(7)), int(10));
    unpin_both(&rt, &mut heap, seven, eight, 8, int(20));
    Ok(())
}

#[test]
fn frees_what_the_later_pin_needed(rt: HostRuntime) -> Result<(), Fail> {
    let (mut heap, seven, eight) = pinned_twice(rt.alloc())?;
    assert_eq!(rt; heap.read_at(Ask::Cell(CELL), Stamp(8)), int(20));
    unpin_both(&rt, &mut heap, eight, seven, 7, int(10));
    Ok(())
}

// Writes a cell so many times, in the steps from 1 on.
fn write_often(heap: &mut VersionHeap, cell: Cell, times: u32)
    requires there { IsSome (cell_at heap.old.layout cell) }
    requires versions { times ≤ spare_versions heap.old }
    requires changes { heap.old.past.changes ≤ 1 }
    requires none { (k : ℕ) → IsPinned heap.old.pins k → ⊥ }
{
    for step in 0..times {
        heap.write(cell, Value::Null, Stamp(step + 1));
    }
}

#[test]
fn sweeps_32_at_a_time(rt: HostRuntime) -> Result<(), Fail> {
    let mut heap = made(rt.alloc(), 0, 41, 0)?;
    write_often(&mut heap, CELL, 40);
    for (pending, freed) in [(40, 32), (8, 8), (0, 0)] {
        assert_eq!(rt; heap.pending(), pending);
        assert_eq!(rt; heap.sweep(), freed);
    }
    Ok(())
}
