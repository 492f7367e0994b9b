//! What a clause of each kind is worth, over two snapshots.

ghost use Rattle.std.specs.Prelude.{IfOk};
ghost use Rattle.jr_program.specs.ClauseViews.{view_clause};
ghost use Rattle.jr_clause_eval.specs.ClassObjects.{HaveClassObjects};

use super::build::{Leaf, array_of, environment, leaf_of};
use crate::value;
use jr_base::{ClassId, Locks, Memory, ObjId, Position, Value, Verdict};
use jr_program::{ClauseKind, Mode, Owner, TypedSpec};
use sqlite_items::Items;
use std::alloc::Global;
use std::test::Fail;

/// A clause with two members.
fn of_two(alloc: Global, kind: ClauseKind, first: Leaf, second: Leaf) -> Result<TypedSpec, Memory>
    ensures { IfOk result (λ clause. HaveClassObjects (view_clause clause).states) }
{
    let mut states = Items::new(alloc);
    states.push(leaf_of(alloc, first)?)?;
    states.push(leaf_of(alloc, second)?)?;
    Ok(TypedSpec {
        kind,
        owner: Owner::Class(ClassId(0)),
        mode: Mode::Java,
        is_static: false,
        place: Position { line: 1, column: 1 },
        states,
    })
}

/// Over two heaps in which object 9 is an array, of object 4 now and of object 3 before. Object 9 is owned, and object 3
/// is entered.
#[test]
fn members_are_read_until_one_decides(rt: HostRuntime) -> Result<(), Fail> {
    let alloc = rt.alloc();
    let mut now = array_of(alloc, &[Value::Ref(ObjId(4))])?;
    let mut old = array_of(alloc, &[Value::Ref(ObjId(3))])?;
    let env = environment(alloc, Some(ObjId(3)))?;
    let mut locks = Locks::none();
    locks.add(ObjId(9));
    let (monitors_for, are_locked) = (ClauseKind::MonitorsFor, ClauseKind::Locks);
    for (kind, first, second, expected) in [
        (monitors_for, Leaf::This, Leaf::Null, Verdict::True),
        (monitors_for, Leaf::This, Leaf::Static(0), Verdict::False),
        (
            monitors_for,
            Leaf::Static(0),
            Leaf::Undefined,
            Verdict::False,
        ),
        (
            monitors_for,
            Leaf::Undefined,
            Leaf::Static(0),
            Verdict::Undefined,
        ),
        (monitors_for, Leaf::This, Leaf::Wide, Verdict::Wide),
        (are_locked, Leaf::This, Leaf::Null, Verdict::False),
        (are_locked, Leaf::Null, Leaf::Static(0), Verdict::True),
        (are_locked, Leaf::Static(0), Leaf::Undefined, Verdict::True),
        (
            are_locked,
            Leaf::Undefined,
            Leaf::Static(0),
            Verdict::Undefined,
        ),
        (are_locked, Leaf::This, Leaf::Wide, Verdict::Wide),
        (
            ClauseKind::Requires,
            Leaf::Truth(true),
            Leaf::Null,
            Verdict::True,
        ),
    ] {
        let clause = of_two(alloc, kind, first, second)?;
        let verdict = value(&clause, &env, &mut now, &mut old, &locks);
        assert_eq!(rt; verdict, expected, "{kind:?} {first:?} {second:?}");
    }
    Ok(())
}
