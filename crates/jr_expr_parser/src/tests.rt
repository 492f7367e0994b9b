ghost use Rattle.std.specs.Prelude.{◌≤◌};

use super::*;
use jr_ast::{
    AssignOp, Bound, Expr, Infix, IntegerLiteral, Name, Postfix, Prefix, QuantifiedExpr,
    Quantifier, Shape, Suffix,
};
use jr_base::{Fail as Refused, Refusal, Span};
use jr_lexer::lex;
use std::alloc::Global;
use std::fmt::Write;
use std::process::Abort;
use std::test;

/// What is still to be written of a tree.
#[derive(Clone, Copy)]
enum Todo<'a> {
    Word(&'a str),
    Text(&'a Name),
    Number(IntegerLiteral),
    Node(&'a Expr),
    Form(&'a Shape),
    /// Each behind a blank.
    All(&'a [Expr]),
    /// Each behind what it follows.
    Suffixes(&'a [Suffix]),
    Operator(Infix),
    Before(Prefix),
    Behind(Postfix),
    Assigns(AssignOp),
    Sign(Bound),
    Quantifies(Quantifier),
}

/// Puts what is to be written onto the stack, so that the first comes first.
fn put<'a>(stack: &mut Vec<Todo<'a>>, items: &[Todo<'a>]) -> Result<(), test::Fail> {
    for item in items.iter().rev() {
        stack.push(*item)?;
    }
    Ok(())
}

/// A shape: each operator before its operands, in braces.
fn put_shape<'a>(stack: &mut Vec<Todo<'a>>, shape: &'a Shape) -> Result<(), test::Fail> {
    match shape {
        Shape::Null => put(stack, &[Todo::Word("null")]),
        Shape::Boolean(true) => put(stack, &[Todo::Word("true")]),
        Shape::Boolean(false) => put(stack, &[Todo::Word("false")]),
        Shape::Integer(n) => put(stack, &[Todo::Number(*n)]),
        Shape::This => put(stack, &[Todo::Word("this")]),
        Shape::SimpleName(x) => put(stack, &[Todo::Text(x)]),
        Shape::ClassLiteral(x) => put(stack, &[Todo::Text(x), Todo::Word(".class")]),
        Shape::Brackets(e) => put(stack, &[Todo::Word("("), Todo::Node(e), Todo::Word(")")]),
        Shape::Result => put(stack, &[Todo::Word("\\result")]),
        Shape::Old(e) => put(
            stack,
            &[Todo::Word("\\old("), Todo::Node(e), Todo::Word(")")],
        ),
        Shape::InLockset(e) => put(
            stack,
            &[Todo::Word("\\lockset("), Todo::Node(e), Todo::Word(")")],
        ),
        Shape::Suffixed(primary, suffixes) => put(
            stack,
            &[
                Todo::Form(primary.get()),
                Todo::Suffixes(suffixes.as_slice()),
            ],
        ),
        Shape::Quantified(q) => put_quantified(stack, q.get()),
        _ => put_operator(stack, shape),
    }
}

fn put_operator<'a>(stack: &mut Vec<Todo<'a>>, shape: &'a Shape) -> Result<(), test::Fail> {
    let (open, blank, close) = (Todo::Word("{"), Todo::Word(" "), Todo::Word("}"));
    match shape {
        Shape::Call(m, es) => put(
            stack,
            &[
                Todo::Text(m),
                Todo::Word("("),
                Todo::All(es.as_slice()),
                Todo::Word(")"),
            ],
        ),
        Shape::NewObject(c, es) => put(
            stack,
            &[
                Todo::Word("new "),
                Todo::Text(c),
                Todo::Word("("),
                Todo::All(es.as_slice()),
                Todo::Word(")"),
            ],
        ),
        Shape::NewArray(_, e) => put(stack, &[Todo::Word("new["), Todo::Node(e), Todo::Word("]")]),
        Shape::Prefix(op, e) => put(
            stack,
            &[open, Todo::Before(*op), blank, Todo::Node(e), close],
        ),
        Shape::Postfix(op, e) => put(
            stack,
            &[open, Todo::Node(e), blank, Todo::Behind(*op), close],
        ),
        Shape::Infix(op, a, b) => put(
            stack,
            &[
                open,
                Todo::Operator(*op),
                blank,
                Todo::Node(a),
                blank,
                Todo::Node(b),
                close,
            ],
        ),
        Shape::Conditional(c, a, b) => put(
            stack,
            &[
                Todo::Word("{? "),
                Todo::Node(c),
                blank,
                Todo::Node(a),
                blank,
                Todo::Node(b),
                close,
            ],
        ),
        Shape::Assignment(op, a, b) => put(
            stack,
            &[
                open,
                Todo::Assigns(*op),
                Todo::Word("= "),
                Todo::Node(a),
                blank,
                Todo::Node(b),
                close,
            ],
        ),
        _ => Ok(()),
    }
}

fn put_quantified<'a>(stack: &mut Vec<Todo<'a>>, q: &'a QuantifiedExpr) -> Result<(), test::Fail> {
    let blank = Todo::Word(" ");
    put(
        stack,
        &[
            Todo::Word("("),
            Todo::Quantifies(q.quantifier),
            blank,
            Todo::Text(&q.variable),
            blank,
            Todo::Node(&q.low),
            blank,
            Todo::Sign(q.low_bound),
            blank,
            Todo::Sign(q.high_bound),
            blank,
            Todo::Node(&q.high),
            Todo::Word(" ("),
            Todo::All(q.conjuncts.as_slice()),
            Todo::Word(") "),
            Todo::Node(&q.body),
            Todo::Word(")"),
        ],
    )
}

fn put_suffix<'a>(stack: &mut Vec<Todo<'a>>, suffix: &'a Suffix) -> Result<(), test::Fail> {
    match suffix {
        Suffix::Field(x) => put(stack, &[Todo::Word("."), Todo::Text(x)]),
        Suffix::Invocation(m, es) => put(
            stack,
            &[
                Todo::Word("."),
                Todo::Text(m),
                Todo::Word("("),
                Todo::All(es.as_slice()),
                Todo::Word(")"),
            ],
        ),
        Suffix::Index(e) => put(stack, &[Todo::Word(".["), Todo::Node(e), Todo::Word("]")]),
    }
}

/// Writes what comes next, or puts its parts onto the stack.
fn step<'a>(out: &mut String, stack: &mut Vec<Todo<'a>>, next: Todo<'a>) -> Result<(), test::Fail> {
    match next {
        Todo::Word(text) => out.push_str(text)?,
        Todo::Text(name) => {
            if let Ok(text) = str::from_utf8(name.text.as_slice()) {
                out.push_str(text)?;
            }
        }
        Todo::Number(literal) => {
            let number = literal.number;
            write!(out, "{number}{}", if literal.is_long { "L" } else { "" })?;
        }
        Todo::Node(expr) => put_shape(stack, expr.shape.get())?,
        Todo::Form(shape) => put_shape(stack, shape)?,
        Todo::All([first, rest @ ..]) => {
            put(
                stack,
                &[Todo::Word(" "), Todo::Node(first), Todo::All(rest)],
            )?;
        }
        Todo::All([]) | Todo::Suffixes([]) => {}
        Todo::Suffixes([first, rest @ ..]) => {
            stack.push(Todo::Suffixes(rest))?;
            put_suffix(stack, first)?;
        }
        Todo::Operator(op) => write!(out, "{op:?}")?,
        Todo::Before(op) => write!(out, "{op:?}")?,
        Todo::Behind(op) => write!(out, "{op:?}")?,
        Todo::Assigns(op) => write!(out, "{op:?}")?,
        Todo::Sign(bound) => write!(out, "{bound:?}")?,
        Todo::Quantifies(quantifier) => write!(out, "{quantifier:?}")?,
    }
    Ok(())
}

/// Writes an expression.
fn tell(alloc: Global, out: &mut String, expr: &Expr) -> Result<(), test::Fail> {
    let mut stack = Vec::new(alloc);
    stack.push(Todo::Node(expr))?;
    for _turn in 0..10_000 {
        let Some(next) = stack.pop() else {
            return Ok(());
        };
        step(out, &mut stack, next)?;
    }
    Ok(())
}

fn named(refusal: Refusal) -> (&'static str, Span) {
    match refusal {
        Refusal::Syntax(span) => ("Syntax", span),
        Refusal::NotInProfile(span) => ("NotInProfile", span),
        Refusal::BigLiteral(span) => ("BigLiteral", span),
        Refusal::TooDeep(span) => ("TooDeep", span),
        _ => ("another", Span { start: 0, end: 0 }),
    }
}

fn tell_refused(out: &mut String, refused: Refused) -> Result<(), test::Fail> {
    match refused {
        Refused::Memory => out.push_str("no memory")?,
        Refused::Refused(refusal) => {
            let (name, span) = named(refusal);
            let start = span.start;
            write!(out, "{name} {start}")?;
        }
    }
    Ok(())
}

/// The expression that stands first in a text, and the index behind it, or the refusal and the byte at which
/// it stands. A text that begins `//@` is a clause.
fn told(alloc: Global, text: &[u8], level: Level, depth: u8) -> Result<String, test::Fail>
    requires depth { depth ≤ 128 }
{
    let mut out = String::new(alloc);
    if text.len() > 1_048_576 {
        return Ok(out);
    }
    let tokens = match lex(alloc, text) {
        Ok(tokens) => tokens,
        Err(refused) => {
            tell_refused(&mut out, refused)?;
            return Ok(out);
        }
    };
    if tokens.is_jml(0) {
        match parse_spec_expr(alloc, &tokens, 0, depth) {
            Err(refused) => tell_refused(&mut out, refused)?,
            Ok((spec, behind)) => {
                tell(alloc, &mut out, &spec.expr)?;
                write!(out, " {behind}")?;
            }
        }
    } else {
        match parse_expr(alloc, &tokens, 0, level, depth) {
            Err(refused) => tell_refused(&mut out, refused)?,
            Ok((expr, behind)) => {
                tell(alloc, &mut out, &expr)?;
                write!(out, " {behind}")?;
            }
        }
    }
    Ok(out)
}

/// Each row is a text, and what `told` says of it.
fn check(rt: &impl Abort, alloc: Global, rows: &[(&[u8], &[u8])]) -> Result<(), test::Fail> {
    for (text, want) in rows {
        let got = told(alloc, text, Level::Any, 0)?;
        assert!(rt; got.as_bytes() == *want, "{got}");
    }
    Ok(())
}

static CODE: [(&[u8], &[u8]); 45] = [
    (
        b"1 - 2 * a() + 8",
        b"{Add {Subtract 1 {Multiply 2 a()}} 8} 9",
    ),
    (b"a = b += c;", b"{Assign= a {Add= b c}} 5"),
    (b"a ? b : c ? d : e", b"{? a b {? c d e}} 9"),
    (b"a ? b = c : d", b"{? a {Assign= b c} d} 7"),
    (
        b"a || b && c | d ^ e & f == g",
        b"{Or a {And b {BitOr c {BitXor d {BitAnd e {Equal f g}}}}}} 13",
    ),
    (b"a - b - c", b"{Subtract {Subtract a b} c} 5"),
    (
        b"a << b >> c >>> d",
        b"{ShiftRightUnsigned {ShiftRight {ShiftLeft a b} c} d} 7",
    ),
    (b"a % b / c", b"{Divide {Remainder a b} c} 5"),
    (
        b"a < b == c >= d",
        b"{Equal {Less a b} {GreaterEqual c d}} 7",
    ),
    (b"a < b < c", b"Syntax 6"),
    (b"(a < b) < c", b"{Less ({Less a b}) c} 7"),
    (
        b"-+!~a++ --",
        b"{Negate {Plus {Not {Complement {{a Increment} Decrement}}}}} 7",
    ),
    (b"++a + --b", b"{Add {Increment a} {Decrement b}} 5"),
    (b"(a) = 1", b"{Assign= (a) 1} 5"),
    (
        b"a.b(c, d)[e].f = new C()",
        b"{Assign= a.b( c d).[e].f new C()} 18",
    ),
    (b"new int[3].length", b"new[3].length 7"),
    (b"new int[3][0]", b"Syntax 10"),
    (b"new A[2] != null", b"{NotEqual new[2] null} 7"),
    (b"new boolean(1)", b"Syntax 4"),
    (b"C.class.x", b"C.class.x 5"),
    (b"this.a", b"this.a 3"),
    (b"a.", b"Syntax 2"),
    (b"1 (", b"Syntax 2"),
    (b"a b", b"a 1"),
    (b"a //@ + b", b"a 1"),
    (b"", b"Syntax 0"),
    (b"a +", b"Syntax 3"),
    (b"f(a,)", b"Syntax 4"),
    (b"a instanceof", b"a 1"),
    (b"(a instanceof B)", b"NotInProfile 3"),
    (b"a -> b", b"a 1"),
    (b"1 + super.x", b"NotInProfile 4"),
    (b"-2147483648", b"{Negate 2147483648} 2"),
    (b"2147483648", b"BigLiteral 0"),
    (b"1 - 2147483648", b"BigLiteral 4"),
    (b"-(2147483648)", b"BigLiteral 2"),
    (b"1L + 2147483648l", b"{Add 1L 2147483648L} 3"),
    (b"-9223372036854775808L", b"{Negate 9223372036854775808L} 2"),
    (b"9223372036854775808L", b"BigLiteral 0"),
    (b"+9223372036854775808l", b"BigLiteral 1"),
    (b"1 - 9223372036854775808L", b"BigLiteral 4"),
    (b"-(9223372036854775808L)", b"BigLiteral 2"),
    (b"new long[1L]", b"new[1L] 5"),
    (b"new long(1)", b"Syntax 4"),
    (b"1 + long", b"Syntax 4"),
];

#[test]
fn reads_code(rt: HostRuntime) -> Result<(), test::Fail> {
    check(&rt, rt.alloc(), &CODE)
}

/// What stands behind a dot, and a chain of `<==` behind `==>`: the token at fault is named, and as left out
/// where it is.
static NAMED: [(&[u8], &[u8]); 15] = [
    (b"x.super", b"NotInProfile 2"),
    (b"f(y.goto + 1)", b"NotInProfile 4"),
    (b"a.b().switch", b"NotInProfile 6"),
    (b"a.(b)", b"Syntax 2"),
    (b"a[0].1", b"Syntax 5"),
    (b"new A.super()", b"NotInProfile 6"),
    (b"new A.B()", b"Syntax 5"),
    (b"x.print", b"x.print 3"),
    (b"System.out.print(1)", b"System.out.print( 1) 8"),
    (b"System.out.print(\"1\")", b"NotInProfile 11"),
    (b"System.out.printf(\"1\")", b"Syntax 18"),
    (b"//@ x.assume", b"NotInProfile 6"),
    (b"//@ a ==> b <== c <== d", b"Syntax 12"),
    (b"//@ a ==> b ==> c || d <== e", b"Syntax 23"),
    (b"//@ (a ==> b.c <== d) && e", b"Syntax 15"),
];

#[test]
fn names_the_token_at_fault(rt: HostRuntime) -> Result<(), test::Fail> {
    check(&rt, rt.alloc(), &NAMED)
}

/// The big literal of a type, which is itself the operand of a unary minus or not.
static BIG: [(&[u8], &[u8]); 14] = [
    (b"-2147483648++", b"BigLiteral 1"),
    (b"-2147483648--", b"BigLiteral 1"),
    (b"-2147483648.f", b"BigLiteral 1"),
    (b"-2147483648[0]", b"BigLiteral 1"),
    (b"f(-9223372036854775808L.g())", b"BigLiteral 3"),
    (b"- -2147483648", b"{Negate {Negate 2147483648}} 3"),
    (
        b"-2147483648 - -2147483648",
        b"{Subtract {Negate 2147483648} {Negate 2147483648}} 5",
    ),
    (b"-2147483648 - 2147483648", b"BigLiteral 14"),
    (b"(a) - 2147483648", b"BigLiteral 6"),
    (b"a++ - 2147483648", b"BigLiteral 6"),
    (b"-2147483648(", b"Syntax 11"),
    (b"-2147483648L", b"{Negate 2147483648L} 2"),
    (b"//@ -2147483648++", b"Syntax 15"),
    (b"//@ -2147483648[0] == 1", b"BigLiteral 5"),
];

#[test]
fn reads_big_literals(rt: HostRuntime) -> Result<(), test::Fail> {
    check(&rt, rt.alloc(), &BIG)
}

static CLAUSES: [(&[u8], &[u8]); 32] = [
    (
        b"//@ a <==> b <=!=> c",
        b"{NotEquivalent {Equivalent a b} c} 5",
    ),
    (b"//@ a ==> b ==> c", b"{Implies a {Implies b c}} 5"),
    (b"//@ a <== b <== c", b"{ImpliedBy {ImpliedBy a b} c} 5"),
    (b"//@ a ==> b <== c", b"Syntax 12"),
    (b"//@ a <== b ==> c", b"Syntax 12"),
    (b"//@ a ==> (b <== c)", b"{Implies a ({ImpliedBy b c})} 7"),
    (b"//@ (a <== b) ==> c", b"{Implies ({ImpliedBy a b}) c} 7"),
    (
        b"//@ a ? b ==> c : d <==> e",
        b"{? a {Implies b c} {Equivalent d e}} 9",
    ),
    (
        b"//@ a <==> b ==> c || d",
        b"{Equivalent a {Implies b {Or c d}}} 7",
    ),
    (
        b"//@ \\result == \\old(x.y)",
        b"{Equal \\result \\old(x.y)} 8",
    ),
    (b"//@ \\lockset.has(this)", b"\\lockset(this) 6"),
    (b"//@ \\lockset[a[i]]", b"\\lockset(a.[i]) 7"),
    (b"//@ \\lockset.is(this)", b"Syntax 13"),
    (
        b"//@ (\\forall int x; 0 <= x && x < n; a[x] == 0)",
        b"(ForAll x 0 Inclusive Exclusive n () {Equal a.[x] 0}) 20",
    ),
    (
        b"//@ (\\exists int x; a < x && x <= b << 1 && c && d | e; f)",
        b"(Exists x a Exclusive Inclusive {ShiftLeft b 1} ( c {BitOr d e}) f) 23",
    ),
    (b"//@ (\\forall int x; 0 < x && y < n; b)", b"Syntax 29"),
    (
        b"//@ (\\forall int x; 0 < x && x < 9; (\\forall int y; 0 < y && y < 9; (\\forall int z; 0 < z && z < 9; b)))",
        b"Syntax 69",
    ),
    (b"//@ a = b", b"a 1"),
    (b"//@ a++", b"Syntax 5"),
    (b"//@ ++a", b"Syntax 4"),
    (b"//@ f(x)", b"Syntax 5"),
    (b"//@ a.f(x)", b"Syntax 7"),
    (b"//@ new C()", b"Syntax 4"),
    (b"//@ -2147483648 < 0", b"{Less {Negate 2147483648} 0} 4"),
    (
        b"//@ -9223372036854775808L < 0L",
        b"{Less {Negate 9223372036854775808L} 0L} 4",
    ),
    (b"//@ 0 < 9223372036854775808L", b"BigLiteral 8"),
    (b"//@ (\\forall long x; 0 < x && x < 9; b)", b"Syntax 13"),
    (b"//@ \\max(a)", b"NotInProfile 4"),
    (b"//@ a + assume", b"NotInProfile 8"),
    (b"//@ a + assert", b"Syntax 8"),
    (b"//@ null != this ;", b"{NotEqual null this} 3"),
    (b"//@ true && false", b"{And true false} 3"),
];

#[test]
fn reads_clauses(rt: HostRuntime) -> Result<(), test::Fail> {
    check(&rt, rt.alloc(), &CLAUSES)
}

#[test]
fn reads_the_part_of_a_sum(rt: HostRuntime) -> Result<(), test::Fail> {
    let got = told(rt.alloc(), b"a * b % c + d", Level::Product, 0)?;
    assert_eq!(rt; got.as_str(), "{Remainder {Multiply a b} c} 5");
    Ok(())
}

/// So many pieces, between a front and a back.
fn repeated(
    alloc: Global,
    front: &[u8],
    piece: &[u8],
    count: u32,
    back: &[u8],
) -> Result<Vec<u8>, test::Fail> {
    let mut text = Vec::new(alloc);
    text.extend_from_slice(front)?;
    for _ in 0..count {
        text.extend_from_slice(piece)?;
    }
    text.extend_from_slice(back)?;
    Ok(text)
}

/// Whether a text of code at a depth is refused as TooDeep; if not, whether all of it is read.
fn is_deep(alloc: Global, text: &[u8], depth: u8) -> Result<Option<bool>, test::Fail>
    requires { depth ≤ 128 }
{
    if text.len() > 1_048_576 {
        return Err("long".into());
    }
    let tokens = lex(alloc, text)?;
    match parse_expr(alloc, &tokens, 0, Level::Any, depth) {
        Err(Refused::Refused(Refusal::TooDeep(_))) => Ok(Some(true)),
        Ok((_, behind)) if behind == tokens.len() => Ok(Some(false)),
        _ => Ok(None),
    }
}

/// A front, a piece, how many of them, a back, the depth, and whether it is refused as TooDeep.
static DEEP: [(&[u8], &[u8], u32, &[u8], u8, bool); 14] = [
    (b"", b"- ", 1_000, b"", 0, true),
    (b"", b"f(", 1_000, b"", 0, true),
    (b"", b"a=", 1_000, b"", 0, true),
    (b"a", b"[a", 1_000, b"", 0, true),
    (b"", b"- ", 128, b"a", 0, false),
    (b"", b"- ", 129, b"a", 0, true),
    (b"", b"- ", 1, b"a", 127, false),
    (b"", b"- ", 1, b"a", 128, true),
    (b"a", b"+a", 128, b"", 0, false),
    (b"a", b"+a", 129, b"", 0, true),
    (b"a", b".f()", 128, b"", 0, false),
    (b"a", b".f()", 129, b"", 0, true),
    (b"f()", b"", 0, b"", 128, false),
    (b"f(a)", b"", 0, b"", 128, true),
];

#[test]
fn keeps_the_limit(rt: HostRuntime) -> Result<(), test::Fail> {
    for (front, piece, count, back, depth, deep) in &DEEP {
        let text = repeated(rt.alloc(), front, piece, *count, back)?;
        if *depth > 128 {
            return Err("row".into());
        }
        let got = is_deep(rt.alloc(), text.as_slice(), *depth)?;
        assert_eq!(rt; got, Some(*deep), "{front:?} {count}");
    }
    Ok(())
}

#[test]
fn refuses_a_source_of_brackets_at_once(rt: HostRuntime) -> Result<(), test::Fail> {
    let text = repeated(rt.alloc(), b"", b"(", 1_048_576, b"")?;
    assert_eq!(rt; is_deep(rt.alloc(), text.as_slice(), 0)?, Some(true));
    Ok(())
}

#[test]
fn reads_a_long_chain(rt: HostRuntime) -> Result<(), test::Fail> {
    let text = repeated(rt.alloc(), b"this", b".g", 500_000, b"")?;
    assert_eq!(rt; is_deep(rt.alloc(), text.as_slice(), 128)?, Some(false));
    Ok(())
}
