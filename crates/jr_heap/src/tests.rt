//! What the plain heap shows of two objects.

use super::*;
use jr_base::{Ask, Cell, ObjId, Seen, Value};
use std::test::Fail;

fn cell(object: u32, slot: u32) -> Ask {
    Ask::Cell(Cell {
        obj: ObjId(object),
        slot,
    })
}

#[test]
fn shows_newest_values(rt: HostRuntime) -> Result<(), Fail> {
    let mut heap = PlainHeap::new(rt.alloc());
    heap.add(ObjId(5), false, &[Value::Int(7)])?;
    heap.add(ObjId(6), true, &[Value::Null, Value::Bool(true)])?;
    heap.put(
        Cell {
            obj: ObjId(6),
            slot: 1,
        },
        Value::Ref(ObjId(5)),
    );
    for (what, seen) in [
        (cell(5, 0), Seen::Value(Value::Int(7))),
        (cell(5, 1), Seen::Absent),
        (cell(6, 0), Seen::Value(Value::Null)),
        (cell(6, 1), Seen::Value(Value::Ref(ObjId(5)))),
        (cell(6, 2), Seen::Absent),
        (cell(7, 0), Seen::Absent),
        (Ask::Length(ObjId(5)), Seen::Absent),
        (Ask::Length(ObjId(6)), Seen::Value(Value::Int(2))),
        (Ask::Length(ObjId(7)), Seen::Absent),
    ] {
        assert_eq!(rt; heap.ask(what), seen, "{what:?}");
    }
    Ok(())
}
