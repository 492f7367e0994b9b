//! Calls that nest, and one that takes the room of another.

use super::*;
use jr_base::LeaveHow;
use std::test::Fail;

fn call(alloc: Global, method: u32, arguments: &[Value]) -> Result<Action, Memory> {
    let mut args = Values::new(alloc);
    append(&mut args, arguments)?;
    Ok(Action::Call {
        method: MethodId(method),
        this: Some(ObjId(9)),
        args,
    })
}

#[test]
fn calls_nest(rt: HostRuntime) -> Result<(), Fail> {
    let alloc = rt.alloc();
    let mut frames = Frames::new(alloc);
    let leave = Action::Leave {
        method: MethodId(4),
        how: LeaveHow::Abrupt,
    };
    frames.step(alloc, &call(alloc, 3, &[Value::Int(30)])?, Stamp(0))?;
    frames.step(
        alloc,
        &call(alloc, 4, &[Value::Int(40), Value::Null])?,
        Stamp(2),
    )?;
    frames.step(alloc, &leave, Stamp(5))?;
    frames.step(alloc, &Action::Back, Stamp(6))?;
    frames.step(alloc, &call(alloc, 5, &[Value::Bool(true)])?, Stamp(7))?;
    assert_eq!(rt; frames.len(), 2);
    let newest = frames.newest().ok_or("no frame")?;
    assert_eq!(rt; newest.method, MethodId(5));
    assert_eq!(rt; newest.this, Some(ObjId(9)));
    assert_eq!(rt; newest.arguments.as_slice(), [Value::Bool(true)].as_slice());
    assert_eq!(rt; newest.call, Stamp(7));
    Ok(())
}
