ghost use Rattle.std.specs.Prelude.{◌≤◌};

use super::*;
use jr_ast::{ClassForm, Clause, Expr, MethodForm, Shape, SpecExpr};
use jr_base::{Fail as Refused, Refusal, Span};
use jr_lexer::lex;
use std::alloc::Global;
use std::fmt::Write;
use std::process::Abort;
use std::test;

fn name(out: &mut String, text: &[u8]) -> Result<(), test::Fail> {
    if let Ok(text) = str::from_utf8(text) {
        out.push_str(text)?;
    }
    Ok(())
}

/// Writes a name, and of any other expression which it is.
fn tell(out: &mut String, expr: &Expr) -> Result<(), test::Fail> {
    match expr.shape.get() {
        Shape::SimpleName(x) => name(out, x.text.as_slice()),
        Shape::Integer(literal) => {
            let number = literal.number;
            write!(out, "{number}")?;
            Ok(())
        }
        Shape::Prefix(op, _) => {
            write!(out, "{op:?}")?;
            Ok(())
        }
        Shape::Infix(op, _, _) => {
            write!(out, "{op:?}")?;
            Ok(())
        }
        _ => {
            out.push_str("another")?;
            Ok(())
        }
    }
}

fn tell_one(out: &mut String, word: &str, spec: &SpecExpr) -> Result<(), test::Fail> {
    write!(out, "{word} ")?;
    tell(out, &spec.expr)
}

/// Writes expressions, each behind a blank.
fn tell_all(out: &mut String, specs: &[SpecExpr]) -> Result<(), test::Fail> {
    for spec in specs {
        out.push_str(" ")?;
        tell(out, &spec.expr)?;
    }
    Ok(())
}

fn tell_method(out: &mut String, form: &MethodForm) -> Result<(), test::Fail> {
    match form {
        MethodForm::Requires(e) => tell_one(out, "requires", e),
        MethodForm::Ensures(e) => tell_one(out, "ensures", e),
        MethodForm::When(e) => tell_one(out, "when", e),
        MethodForm::Locks(es) => {
            out.push_str("locks")?;
            tell_all(out, es.as_slice())
        }
        MethodForm::Assignable => {
            out.push_str("assignable")?;
            Ok(())
        }
        MethodForm::Modifies => {
            out.push_str("modifies")?;
            Ok(())
        }
    }
}

fn tell_class(out: &mut String, form: &ClassForm) -> Result<(), test::Fail> {
    match form {
        ClassForm::Invariant {
            is_static,
            condition,
        } => {
            write!(out, "{is_static} ")?;
            tell_one(out, "invariant", condition)
        }
        ClassForm::Constraint {
            is_static,
            condition,
        } => {
            write!(out, "{is_static} ")?;
            tell_one(out, "constraint", condition)
        }
        ClassForm::MonitorsFor { field, owned } => {
            out.push_str("monitors_for ")?;
            name(out, field.text.as_slice())?;
            out.push_str(" by")?;
            tell_all(out, owned.as_slice())
        }
    }
}

/// Writes the clause behind the byte at which it stands.
fn tell_clause(out: &mut String, clause: &Clause) -> Result<(), test::Fail> {
    let (place, is_assert) = match clause {
        Clause::Method(clause) => (clause.place, false),
        Clause::Class(clause) => (clause.place, false),
        Clause::Assert(place, _) => (*place, true),
    };
    let start = place.start;
    write!(out, "{start} ")?;
    if is_assert {
        out.push_str("assert ")?;
    }
    match clause {
        Clause::Method(clause) => tell_method(out, &clause.form),
        Clause::Class(clause) => tell_class(out, &clause.form),
        Clause::Assert(_, spec) => tell(out, &spec.expr),
    }
}

fn named(refusal: Refusal) -> (&'static str, Span) {
    match refusal {
        Refusal::Syntax(span) => ("Syntax", span),
        Refusal::NotInProfile(span) => ("NotInProfile", span),
        Refusal::BigLiteral(span) => ("BigLiteral", span),
        Refusal::TooDeep(span) => ("TooDeep", span),
        _ => ("another", Span { start: 0, end: 0 }),
    }
}

fn tell_refused(out: &mut String, refused: Refused) -> Result<(), test::Fail> {
    match refused {
        Refused::Memory => out.push_str("no memory")?,
        Refused::Refused(refusal) => {
            let (name, span) = named(refusal);
            let start = span.start;
            write!(out, "{name} {start}")?;
        }
    }
    Ok(())
}

/// The clause that stands first in a text, and the index behind it, or the refusal and the byte at which it
/// stands.
fn told(alloc: Global, text: &[u8], depth: u8) -> Result<String, test::Fail>
    requires { depth ≤ 128 }
{
    let mut out = String::new(alloc);
    if text.len() > 1_048_576 {
        return Ok(out);
    }
    let tokens = match lex(alloc, text) {
        Ok(tokens) => tokens,
        Err(refused) => {
            tell_refused(&mut out, refused)?;
            return Ok(out);
        }
    };
    match parse_clause(alloc, &tokens, 0, depth) {
        Err(refused) => tell_refused(&mut out, refused)?,
        Ok((clause, behind)) => {
            tell_clause(&mut out, &clause)?;
            write!(out, ", {behind}")?;
        }
    }
    Ok(out)
}

/// Each row is a text, the nesting of where it stands, and what `told` says of it.
fn check(rt: &impl Abort, alloc: Global, rows: &[(&[u8], u8, &[u8])]) -> Result<(), test::Fail> {
    for (text, depth, want) in rows {
        if *depth > 128 {
            return Err("row".into());
        }
        let got = told(alloc, text, *depth)?;
        assert!(rt; got.as_bytes() == *want, "{got}");
    }
    Ok(())
}

static CLAUSES: [(&[u8], u8, &[u8]); 25] = [
    (b"//@ requires a;", 0, b"4 requires a, 3"),
    (b"//@ ensures a == \\old(b);", 0, b"4 ensures Equal, 8"),
    (b"//@ when a;", 0, b"4 when a, 3"),
    (b"//@ locks a;", 0, b"4 locks a, 3"),
    (b"//@ locks a, b, this;", 0, b"4 locks a b another, 7"),
    (b"//@ assignable \\nothing;", 0, b"4 assignable, 3"),
    (b"//@ assignable ;", 0, b"4 assignable, 2"),
    (b"//@ modifies a[*], requires . ;", 0, b"4 modifies, 9"),
    (b"//@ invariant a;", 0, b"4 false invariant a, 3"),
    (b"//@ constraint a;", 0, b"4 false constraint a, 3"),
    (
        b"//@ public static invariant a;",
        0,
        b"18 true invariant a, 5",
    ),
    (
        b"//@ static private constraint a;",
        0,
        b"19 true constraint a, 5",
    ),
    (b"//@ monitors_for x = a;", 0, b"4 monitors_for x by a, 5"),
    (
        b"//@ protected monitors_for x <- a, b;",
        0,
        b"14 monitors_for x by a b, 9",
    ),
    (b"//@ assert a;", 0, b"4 assert a, 3"),
    (b"//@ requires a; ensures b;", 0, b"4 requires a, 3"),
    (
        b"//@ requires a\n//@ && b;\n//@ ensures c;",
        0,
        b"4 requires And, 5",
    ),
    (b"/*@ locks a,\n @ b @*/ //@ , c;", 0, b"4 locks a b c, 7"),
    (b"//@ requires -2147483648 < a;", 0, b"4 requires Less, 6"),
    (
        b"//@ requires -9223372036854775808L < a + 1L;",
        0,
        b"4 requires Less, 8",
    ),
    (b"//@ requires a;", 128, b"4 requires a, 3"),
    (b"//@ locks a, -b;", 127, b"4 locks a Negate, 6"),
    (b"//@ assert a;", 127, b"4 assert a, 3"),
    (
        b"//@ requires (\\forall int i; -1 < i && i < n; b);",
        126,
        b"4 requires another, 18",
    ),
    (
        b"//@ requires (\\forall int i; 0 < i && i < n && a && b; c);",
        127,
        b"4 requires another, 21",
    ),
];

#[test]
fn reads_clauses(rt: HostRuntime) -> Result<(), test::Fail> {
    check(&rt, rt.alloc(), &CLAUSES)
}

static REFUSED: [(&[u8], u8, &[u8]); 42] = [
    (b"", 0, b"Syntax 0"),
    (b"requires a;", 0, b"Syntax 0"),
    (b"//@ a;", 0, b"Syntax 4"),
    (b"//@ requires;", 0, b"Syntax 12"),
    (b"//@ requires a", 0, b"Syntax 14"),
    (b"//@ requires a\nint b;", 0, b"Syntax 15"),
    (b"//@ requires a, b;", 0, b"Syntax 14"),
    (b"//@ requires a = b;", 0, b"Syntax 15"),
    (b"//@ requires a //@ ;\n;", 0, b"Syntax 21"),
    (b"//@ locks;", 0, b"Syntax 9"),
    (b"//@ locks a,;", 0, b"Syntax 12"),
    (b"//@ locks a b;", 0, b"Syntax 12"),
    (b"//@ assignable a\n;", 0, b"Syntax 17"),
    (b"//@ modifies a", 0, b"Syntax 14"),
    (b"//@ pure invariant a;", 0, b"Syntax 4"),
    (b"public //@ invariant a;", 0, b"Syntax 0"),
    (b"//@ public requires a;", 0, b"Syntax 11"),
    (b"//@ static monitors_for x = a;", 0, b"Syntax 11"),
    (b"//@ monitors_for = a;", 0, b"Syntax 17"),
    (b"//@ monitors_for x a;", 0, b"Syntax 19"),
    (b"//@ monitors_for x < a;", 0, b"Syntax 21"),
    (b"//@ monitors_for x = ;", 0, b"Syntax 21"),
    (b"assert a;", 0, b"NotInProfile 0"),
    (b"//@ signals (E) a;", 0, b"NotInProfile 4"),
    (b"//@ also requires a;", 0, b"NotInProfile 4"),
    (b"//@ public model int a;", 0, b"NotInProfile 11"),
    (b"//@ requires a && \\max(b);", 0, b"NotInProfile 18"),
    (b"//@ ensures 2147483648 > a;", 0, b"BigLiteral 12"),
    (
        b"//@ ensures 9223372036854775808L > a;",
        0,
        b"BigLiteral 12",
    ),
    (b"//@ ensures a > long;", 0, b"Syntax 16"),
    (b"//@ monitors_for x <- 2147483648;", 0, b"BigLiteral 22"),
    (b"//@ requires -a;", 128, b"TooDeep 14"),
    (b"//@ locks a, -b;", 128, b"TooDeep 14"),
    (b"//@ assert a;", 128, b"TooDeep 11"),
    (b"//@ assert -a;", 127, b"TooDeep 12"),
    (
        b"//@ requires (\\forall int i; -1 < i && i < n; b);",
        127,
        b"TooDeep 30",
    ),
    (b"//@ requires x.super;", 0, b"NotInProfile 15"),
    (b"//@ locks a, x.y.goto;", 0, b"NotInProfile 17"),
    (b"//@ assert x.\\max;", 0, b"NotInProfile 13"),
    (b"//@ ensures -2147483648.f > a;", 0, b"BigLiteral 13"),
    (b"//@ locks -2147483648[0];", 0, b"BigLiteral 11"),
    (b"//@ requires a ==> b <== c;", 0, b"Syntax 21"),
];

#[test]
fn refuses_what_is_no_clause(rt: HostRuntime) -> Result<(), test::Fail> {
    check(&rt, rt.alloc(), &REFUSED)
}

#[test]
fn reads_the_clauses_of_one_kind(rt: HostRuntime) -> Result<(), test::Fail> {
    let tokens = lex(rt.alloc(), b"//@ requires a; static invariant b; assert c;")?;
    let method = parse_method_clause(rt.alloc(), &tokens, 0, 0);
    let class = parse_class_clause(rt.alloc(), &tokens, 3, 0);
    let assertion = parse_assert(rt.alloc(), &tokens, 7, 0);
    assert!(rt; matches!(method, Ok((_, 3))));
    assert!(rt; matches!(class, Ok((_, 7))));
    assert!(rt; matches!(assertion, Ok((_, 10))));
    Ok(())
}
