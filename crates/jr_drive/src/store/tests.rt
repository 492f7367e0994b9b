//! What a store replies, and where limits are.

use super::*;
use jr_base::Cell;
use std::test::Fail;

/// The objects of one class are those with a field that holds 7 at first, and one that holds null.
fn store(alloc: Global) -> Result<Store, Memory> {
    let mut blank = Items::new(alloc);
    blank.push(Value::Int(7))?;
    blank.push(Value::Null)?;
    let mut blanks = Items::new(alloc);
    blanks.push(blank)?;
    let made = CountedHeap::new(alloc);
    Ok(Store { made, blanks })
}

fn cell(object: u32, slot: u32) -> Cell {
    Cell {
        obj: ObjId(object),
        slot,
    }
}

#[test]
fn replies_in_turn(rt: HostRuntime) -> Result<(), Fail> {
    let alloc = rt.alloc();
    let mut store = store(alloc)?;
    let object = store.perform(alloc, &Action::New(NewKind::Object(ClassId(0))))?;
    assert_eq!(rt; object, Reply::Made(ObjId(1)));
    let array = store.perform(alloc, &Action::New(NewKind::Array(Elem::Long, 2)))?;
    assert_eq!(rt; array, Reply::Made(ObjId(2)));
    let length = store.perform(alloc, &Action::Len(ObjId(2)))?;
    assert_eq!(rt; length, Reply::Value(Value::Int(2)));
    let put = store.perform(alloc, &Action::Put(cell(2, 1), Value::Long(5)))?;
    assert_eq!(rt; put, Reply::Unit);
    let past = store.perform(alloc, &Action::Put(cell(2, 2), Value::Long(6)))?;
    assert_eq!(rt; past, Reply::Range);
    for (at, reply) in [
        (cell(1, 0), Reply::Value(Value::Int(7))),
        (cell(1, 1), Reply::Value(Value::Null)),
        (cell(1, 2), Reply::Range),
        (cell(2, 0), Reply::Value(Value::Long(0))),
        (cell(2, 1), Reply::Value(Value::Long(5))),
        (cell(3, 0), Reply::Range),
    ] {
        assert_eq!(rt; store.perform(alloc, &Action::Get(at))?, reply, "{at:?}");
    }
    Ok(())
}

#[test]
fn counts_cells(rt: HostRuntime) -> Result<(), Fail> {
    let mut store = store(rt.alloc())?;
    store.perform(rt.alloc(), &Action::New(NewKind::Object(ClassId(0))))?;
    let fits = Action::New(NewKind::Array(Elem::Int, 1_048_574));
    assert_eq!(rt; store.past_limit(1, &fits), None);
    let large = Action::New(NewKind::Array(Elem::Int, 1_048_575));
    let excess = Excess {
        kind: LimitKind::Cells,
        count: 1_048_577,
    };
    assert_eq!(rt; store.past_limit(1, &large), Some(excess));
    Ok(())
}
