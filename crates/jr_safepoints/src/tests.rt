//! What no clause says: that a small source gets its program, and which rule is named first.

use crate::typed;
use jr_ast::{
    Class, ElementType, Expr, Formal, Member, Method, MethodClause, MethodForm, MethodKind,
    Modifier, ModifierKind, Name, Shape, SpecExpr, TypeName, Unit,
};
use jr_base::{Fail, Memory, MethodId, Refusal, Span};
use jr_program::Site;
use sqlite_items::Items;
use std::alloc::Global;
use std::process::Abort;

const CLAUSE: Span = Span { start: 3, end: 11 };

const STATED: Span = Span { start: 12, end: 16 };

const ARGUMENT_TYPE: Span = Span { start: 30, end: 36 };

const ELSEWHERE: Span = Span { start: 0, end: 0 };

fn arguments(alloc: Global) -> Result<Items<Formal>, Memory> {
    let of = ElementType::Class(Name::new(alloc, b"String", ARGUMENT_TYPE)?);
    let mut formals = Items::new(alloc);
    formals.push(Formal {
        modifiers: Items::new(alloc),
        type_name: TypeName::ArrayOf(of),
        name: Name::new(alloc, b"args", ELSEWHERE)?,
    })?;
    Ok(formals)
}

/// `requires` of that form.
fn precondition(alloc: Global, shape: Shape) -> Result<Items<MethodClause>, Memory> {
    let mut clauses = Items::new(alloc);
    clauses.push(MethodClause {
        place: CLAUSE,
        form: MethodForm::Requires(SpecExpr {
            expr: Expr::new(alloc, STATED, shape)?,
        }),
    })?;
    Ok(clauses)
}

/// A class with a `main` of that name, and a `requires` of that form before it.
fn unit(alloc: Global, main: &[u8], shape: Shape) -> Result<Unit, Memory> {
    let mut modifiers = Items::new(alloc);
    modifiers.push(Modifier {
        place: ELSEWHERE,
        kind: ModifierKind::Static,
    })?;
    let mut members = Items::new(alloc);
    members.push(Member::Method(Method {
        place: ELSEWHERE,
        clauses: precondition(alloc, shape)?,
        modifiers,
        kind: MethodKind::Void,
        name: Name::new(alloc, main, ELSEWHERE)?,
        formals: arguments(alloc)?,
        body: Items::new(alloc),
    }))?;
    let mut classes = Items::new(alloc);
    classes.push(Class {
        place: ELSEWHERE,
        modifiers: Items::new(alloc),
        name: Name::new(alloc, b"A", ELSEWHERE)?,
        extends_thread: false,
        implements_runnable: false,
        members,
    })?;
    Ok(Unit { classes })
}

/// How many clauses are due at the call of the first method, or what refuses the unit.
fn due_at_call(alloc: Global, unit: &Unit) -> Result<u32, Fail> {
    let program = typed(alloc, b"//@requires true;", unit)?;
    Ok(program.due(Site::Entry(MethodId(0))).len())
}

#[test]
fn has_what_is_due(rt: HostRuntime) {
    let alloc = rt.alloc();
    let Ok(unit) = unit(alloc, b"main", Shape::Boolean(true)) else {
        assert!(&rt; false, "no memory");
        return;
    };
    assert_eq!(&rt; due_at_call(alloc, &unit), Ok(1));
}

#[test]
fn refuses_names_before_clauses(rt: HostRuntime) {
    let alloc = rt.alloc();
    for (main, refusal) in [
        (b"main".as_slice(), Refusal::Mismatch(STATED)),
        (b"other".as_slice(), Refusal::Unknown(ARGUMENT_TYPE)),
    ] {
        let Ok(unit) = unit(alloc, main, Shape::Null) else {
            assert!(&rt; false, "no memory");
            return;
        };
        assert_eq!(&rt; due_at_call(alloc, &unit), Err(Fail::Refused(refusal)));
    }
}
