//! What no clause says: that right code is taken, and that the place told of a broken rule is the one that is meant.

ghost use Rattle.std.specs.Prelude.{◌≡◌};

use super::*;
use jr_base::SlotKind::{Caught, Int, Ref};
use jr_base::{
    ClassId, ClauseId, Elem, Fault, Memory, MethodId, NewKind, ObjId, Reserved, SlotKind, TextId,
};
use std::alloc::Global;
use std::sync::Arc;
use std::test::Fail;

/// Instructions, each by its row's number and its argument.
type Rows<'a> = &'a [(u8, u32)];

/// What a row of a table says of its method beside the instructions.
#[derive(Clone, Copy)]
struct Frame<'a> {
    is_static: bool,
    formals: &'a [SlotKind],
    result: Option<SlotKind>,
    locals: &'a [SlotKind],
    regions: &'a [Region],
}

/// The method of the tables that say no more of it: it is static, and its locals hold a number, a reference and an
/// exception.
static PLAIN: Frame<'static> = Frame {
    is_static: true,
    formals: &[],
    result: None,
    locals: &[SlotKind::Int, SlotKind::Ref, SlotKind::Caught],
    regions: &[],
};

fn list<T: Copy>(alloc: Global, items: &[T]) -> Result<Reserved<T>, Memory> {
    let mut all = Reserved::new(alloc);
    for item in items {
        all.reserve(1)?;
        all.push(*item);
    }
    Ok(all)
}

fn instructions(alloc: Global, rows: Rows<'_>) -> Result<Reserved<Instr>, Memory> {
    let mut all = Reserved::new(alloc);
    for (code, arg) in rows {
        all.reserve(1)?;
        all.push(Instr {
            code: *code,
            arg: *arg,
        });
    }
    Ok(all)
}

fn method(alloc: Global, frame: &Frame<'_>, rows: Rows<'_>) -> Result<MethodCode, Memory> {
    Ok(MethodCode {
        class: ClassId(0),
        formals: list(alloc, frame.formals)?,
        result: frame.result,
        is_static: frame.is_static,
        is_synchronized: false,
        instrs: instructions(alloc, rows)?,
        regions: list(alloc, frame.regions)?,
        locals: list(alloc, frame.locals)?,
    })
}

/// `static int m(int x) { return x; }`, `void m() {}`, and the method of a row.
fn methods(
    alloc: Global,
    frame: &Frame<'_>,
    rows: Rows<'_>,
) -> Result<Reserved<MethodCode>, Memory> {
    let same = Frame {
        is_static: true,
        formals: &[SlotKind::Int],
        result: Some(SlotKind::Int),
        locals: &[SlotKind::Int],
        regions: &[],
    };
    let nothing = Frame {
        is_static: false,
        formals: &[],
        result: None,
        locals: &[SlotKind::Ref],
        regions: &[],
    };
    let mut all = Reserved::new(alloc);
    all.reserve(3)?;
    all.push(method(alloc, &same, &[(6, 0), (65, 0)])?);
    all.push(method(alloc, &nothing, &[(64, 0)])?);
    all.push(method(alloc, frame, rows)?);
    Ok(all)
}

/// An instance field and a static one of numbers, and the same of exceptions.
fn fields(alloc: Global) -> Result<Reserved<FieldCode>, Memory> {
    let field = |home, kind| FieldCode {
        home,
        slot: 0,
        kind,
    };
    list(
        alloc,
        &[
            field(None, SlotKind::Int),
            field(Some(ObjId(1)), SlotKind::Int),
            field(None, SlotKind::Caught),
            field(Some(ObjId(1)), SlotKind::Caught),
        ],
    )
}

/// A text and a value.
fn prints(alloc: Global) -> Result<Reserved<Reserved<Option<TextId>>>, Memory> {
    let mut all = Reserved::new(alloc);
    all.reserve(1)?;
    all.push(list(alloc, &[Some(TextId(0)), None])?);
    Ok(all)
}

/// One whose scope holds the local 0, and one whose scope holds the local 2.
fn asserts(alloc: Global) -> Result<Reserved<AssertCode>, Memory> {
    let mut all = Reserved::new(alloc);
    for place in [0, 2] {
        all.reserve(1)?;
        all.push(AssertCode {
            clause: ClauseId(0),
            scope: list(alloc, &[place])?,
        });
    }
    Ok(all)
}

/// Code with the method of a row.
fn code(alloc: Global, frame: &Frame<'_>, rows: Rows<'_>) -> Result<Code, Memory> {
    Ok(Code {
        methods: methods(alloc, frame, rows)?,
        fields: fields(alloc)?,
        longs: list(alloc, &[7])?,
        classes: list(alloc, &[ClassId(0)])?,
        makes: list(alloc, &[NewKind::Object(ClassId(0))])?,
        elems: list(alloc, &[Elem::Int])?,
        faults: list(alloc, &[Fault::Exception])?,
        prints: prints(alloc)?,
        asserts: asserts(alloc)?,
    })
}

/// What `check` says of code with the method of a row: nothing where it is taken.
fn told(alloc: Global, frame: &Frame<'_>, rows: Rows<'_>) -> Result<Option<CheckFail>, Memory> {
    match check(alloc, code(alloc, frame, rows)?) {
        Ok(_) => Ok(None),
        Err(fail) => Ok(Some(fail)),
    }
}

/// Instructions of the plain method that break one rule, and the place at which it is broken.
static BROKEN: [(Rows<'static>, u32); 51] = [
    // no path runs off the end
    (&[], 0),
    (&[(61, 0)], 0),
    (&[(40, 1)], 0),
    (&[(40, 9), (64, 0)], 0),
    (&[(2, 0), (41, 3), (64, 0)], 1),
    (&[(2, 0), (42, 2)], 1),
    // each number names something
    (&[(0, 0), (64, 0)], 0),
    (&[(94, 0), (64, 0)], 0),
    (&[(5, 1), (8, 0), (64, 0)], 0),
    (&[(6, 3), (8, 0), (64, 0)], 0),
    (&[(1, 0), (7, 3), (64, 0)], 1),
    (&[(71, 1), (8, 0), (64, 0)], 0),
    (&[(4, 0), (44, 4), (8, 0), (64, 0)], 1),
    (&[(1, 0), (47, 4), (64, 0)], 1),
    (&[(4, 0), (1, 0), (48, 1), (8, 0), (64, 0)], 2),
    (&[(51, 1), (8, 0), (64, 0)], 0),
    (&[(1, 0), (52, 1), (8, 0), (64, 0)], 1),
    (&[(1, 0), (62, 3), (8, 0), (64, 0)], 1),
    (&[(4, 0), (63, 3), (64, 0)], 1),
    (&[(67, 2), (64, 0)], 0),
    (&[(68, 1), (64, 0)], 0),
    (&[(69, 1)], 0),
    (&[(70, 3)], 0),
    // operands of the right kinds are there
    (&[(8, 0), (64, 0)], 0),
    (&[(1, 0), (13, 0), (8, 0), (64, 0)], 1),
    (&[(1, 0), (71, 0), (13, 0), (8, 0), (64, 0)], 2),
    (&[(1, 0), (26, 0), (8, 0), (64, 0)], 1),
    (&[(1, 0), (7, 1), (64, 0)], 1),
    (&[(4, 0), (1, 0), (93, 0), (64, 0)], 2),
    (&[(4, 0), (2, 0), (45, 0), (64, 0)], 2),
    (&[(4, 0), (1, 0), (2, 0), (49, 0), (64, 0)], 3),
    (&[(2, 0), (62, 0), (8, 0), (64, 0)], 1),
    (&[(68, 0), (64, 0)], 0),
    // every path to an instruction brings the same kinds
    (&[(2, 0), (41, 3), (1, 0), (64, 0)], 3),
    (&[(1, 0), (43, 0)], 0),
    (
        &[(2, 0), (42, 4), (4, 0), (40, 5), (1, 3), (8, 0), (64, 0)],
        5,
    ),
    // a jump goes forward, and `back` does not
    (&[(40, 0)], 0),
    (&[(61, 0), (40, 0)], 1),
    (&[(2, 0), (41, 1), (64, 0)], 1),
    (&[(2, 0), (42, 0), (64, 0)], 1),
    (&[(43, 1), (64, 0)], 0),
    // what a row names is static, or isn't
    (&[(4, 0), (44, 1), (8, 0), (64, 0)], 1),
    (&[(4, 0), (1, 0), (45, 1), (64, 0)], 2),
    (&[(46, 0), (8, 0), (64, 0)], 0),
    (&[(4, 0), (62, 1), (64, 0)], 1),
    (&[(4, 0), (1, 0), (63, 0), (8, 0), (64, 0)], 2),
    // an exception is no value
    (&[(4, 0), (44, 2), (8, 0), (64, 0)], 1),
    (&[(46, 3), (8, 0), (64, 0)], 0),
    (&[(6, 2), (68, 0), (64, 0)], 1),
    (&[(67, 1), (64, 0)], 0),
    // an exception is thrown again from where it was kept
    (&[(70, 1)], 0),
];

/// Instructions of the plain method that break no rule.
static KEPT: [Rows<'static>; 10] = [
    &[(64, 0)],
    &[(69, 0)],
    &[(43, 0)],
    // two paths bring the same two operands
    &[
        (1, 1),
        (2, 0),
        (42, 5),
        (1, 2),
        (40, 6),
        (1, 3),
        (13, 0),
        (8, 0),
        (64, 0),
    ],
    // what no path reaches is not looked at
    &[(64, 0), (13, 0)],
    // `back` to an instruction that was not reached before
    &[(40, 2), (64, 0), (43, 1)],
    &[(1, 5), (62, 0), (68, 0), (6, 1), (63, 1), (64, 0)],
    &[(6, 1), (1, 5), (45, 0), (46, 1), (47, 1), (67, 0), (64, 0)],
    &[
        (1, 5),
        (52, 0),
        (1, 0),
        (48, 0),
        (72, 0),
        (71, 0),
        (73, 0),
        (92, 0),
        (60, 0),
        (64, 0),
    ],
    &[(6, 1), (71, 0), (93, 0), (6, 2), (7, 2), (70, 2)],
];

#[test]
fn tells_where_a_rule_is_broken(rt: HostRuntime) -> Result<(), Fail> {
    for (rows, at) in &BROKEN {
        let method = MethodId(2);
        assert_eq!(rt;
            told(rt.alloc(), &PLAIN, rows)?,
            Some(CheckFail::Bad { method, at: *at }),
            "{rows:?}"
        );
    }
    Ok(())
}

#[test]
fn takes_code_that_keeps_the_rules(rt: HostRuntime) -> Result<(), Fail> {
    for rows in &KEPT {
        assert_eq!(rt; told(rt.alloc(), &PLAIN, rows)?, None, "{rows:?}");
    }
    Ok(())
}

/// Whether a method is static, its formals, its result, its locals, its instructions, and where it breaks a rule.
type Declared<'a> = (
    bool,
    &'a [SlotKind],
    Option<SlotKind>,
    &'a [SlotKind],
    Rows<'a>,
    Option<u32>,
);

static DECLARED: [Declared<'static>; 19] = [
    // the locals begin with `this`, where there is one, and then the formals
    (true, &[], None, &[], &[(64, 0)], None),
    (true, &[Int, Ref], None, &[Int, Ref, Int], &[(64, 0)], None),
    (false, &[], None, &[Ref], &[(64, 0)], None),
    (false, &[Int], None, &[Ref, Int, Caught], &[(64, 0)], None),
    (true, &[Int], None, &[], &[(64, 0)], Some(0)),
    (true, &[Int, Ref], None, &[Ref, Int], &[(64, 0)], Some(0)),
    (false, &[], None, &[], &[(64, 0)], Some(0)),
    (false, &[], None, &[Int], &[(64, 0)], Some(0)),
    (false, &[Int], None, &[Ref], &[(64, 0)], Some(0)),
    (false, &[Int], None, &[Int, Ref], &[(64, 0)], Some(0)),
    // no formal is an exception, and no result
    (true, &[Caught], None, &[Caught], &[(64, 0)], Some(0)),
    (true, &[], Some(Caught), &[Caught], &[(69, 0)], Some(0)),
    // a method with a result returns one of its kind, and another returns none
    (true, &[], Some(Int), &[], &[(1, 5), (65, 0)], None),
    (true, &[], Some(Int), &[], &[(69, 0)], None),
    (true, &[], Some(Int), &[], &[(64, 0)], Some(0)),
    (true, &[], Some(Int), &[], &[(61, 0), (64, 0)], Some(1)),
    (true, &[], Some(Ref), &[], &[(1, 5), (65, 0)], Some(1)),
    (true, &[], None, &[], &[(1, 5), (65, 0)], Some(1)),
    (true, &[], Some(Int), &[], &[(65, 0)], Some(0)),
];

#[test]
fn looks_at_formals_result_and_locals(rt: HostRuntime) -> Result<(), Fail> {
    for (is_static, formals, result, locals, rows, at) in &DECLARED {
        let frame = Frame {
            is_static: *is_static,
            formals,
            result: *result,
            locals,
            regions: &[],
        };
        let method = MethodId(2);
        assert_eq!(rt;
            told(rt.alloc(), &frame, rows)?,
            at.map(|at| CheckFail::Bad { method, at }),
            "{formals:?} {result:?} {locals:?} {rows:?}"
        );
    }
    Ok(())
}

/// `while (x > 0) { x = x - 1; }`, `new Object()` with a notify under its monitor, and a catch around both.
static LOOP_AND_MONITOR: [(u8, u32); 23] = [
    (1, 10),
    (7, 0),
    (6, 0),
    (1, 0),
    (32, 0),
    (42, 12),
    (6, 0),
    (1, 1),
    (14, 0),
    (7, 0),
    (66, 0),
    (43, 2),
    (51, 0),
    (7, 1),
    (6, 1),
    (53, 0),
    (6, 1),
    (56, 0),
    (6, 1),
    (54, 0),
    (64, 0),
    (7, 2),
    (70, 2),
];

fn caught(first: u32, past: u32, target: u32) -> Region {
    let kind = RegionKind::Catch(Fault::Exception);
    Region {
        first,
        past,
        kind,
        target,
    }
}

fn held(first: u32, past: u32, local: u32) -> Region {
    let kind = RegionKind::Exit(local);
    Region {
        first,
        past,
        kind,
        target: 0,
    }
}

#[test]
fn follows_exceptions_to_their_handlers(rt: HostRuntime) -> Result<(), Fail> {
    let stores: Rows<'_> = &[(61, 0), (64, 0), (7, 2), (64, 0)];
    let rows: [([Region; 2], Rows<'_>, Option<u32>); 11] = [
        (
            [caught(0, 20, 21), held(16, 20, 1)],
            &LOOP_AND_MONITOR,
            None,
        ),
        // a handler begins with the exception alone
        ([caught(0, 2, 2), held(0, 2, 1)], stores, None),
        (
            [caught(0, 2, 2), held(0, 2, 1)],
            &[(61, 0), (64, 0), (64, 0)],
            None,
        ),
        (
            [caught(0, 2, 2), held(0, 2, 1)],
            &[(61, 0), (64, 0), (7, 0), (64, 0)],
            Some(2),
        ),
        (
            [caught(0, 2, 2), held(0, 2, 1)],
            &[(61, 0), (61, 0), (64, 0)],
            Some(2),
        ),
        // a handler stands further on than what it handles, and in the method
        ([caught(0, 3, 2), held(0, 2, 1)], stores, Some(0)),
        ([caught(1, 2, 0), held(0, 2, 1)], stores, Some(0)),
        ([caught(0, 2, 4), held(0, 2, 1)], stores, Some(0)),
        // a region that no path reaches has none
        (
            [caught(2, 3, 9), held(0, 2, 1)],
            &[(61, 0), (64, 0), (61, 0)],
            None,
        ),
        // the local of an exit holds a reference
        ([caught(0, 2, 2), held(0, 2, 0)], stores, Some(0)),
        ([caught(0, 2, 2), held(0, 2, 3)], stores, Some(0)),
    ];
    for (regions, rows, at) in &rows {
        let frame = Frame { regions, ..PLAIN };
        let method = MethodId(2);
        assert_eq!(rt;
            told(rt.alloc(), &frame, rows)?,
            at.map(|at| CheckFail::Bad { method, at }),
            "{regions:?} {rows:?}"
        );
    }
    Ok(())
}

#[test]
fn numbers_each_row(rt: HostRuntime) {
    for code in 0..95 {
        let decoded = Instr { code, arg: 5 }.decode();
        assert_eq!(rt; decoded.is_some(), code != 0 && code != 94, "{code}");
        if let Some(instruction) = decoded {
            // `bne` and `bxor` are one operator
            let first = if code == 37 { 29 } else { code };
            assert_eq!(rt; instruction.encode().code, first);
        }
    }
}

/// What threads may share.
fn shared<T: Send + Sync>(value: T) -> T
    ensures { result ≡ value }
{
    value
}

/// How deep the stack of a method gets that adds two numbers, where threads share its code.
fn depth_of_shared(alloc: Global) -> Result<u32, Memory> {
    let rows: Rows<'_> = &[(1, 5), (1, 5), (13, 0), (8, 0), (64, 0)];
    let checked = match check(alloc, code(alloc, &PLAIN, rows)?) {
        Ok(checked) => shared(Arc::new(alloc, checked)?),
        Err(_) => return Err(Memory),
    };
    if checked.parts().methods.len() <= 2 {
        return Err(Memory);
    }
    Ok(checked.depth(MethodId(2)))
}

#[test]
fn is_shared_by_threads(rt: HostRuntime) {
    assert!(rt; depth_of_shared(rt.alloc()) == Ok(2));
}
