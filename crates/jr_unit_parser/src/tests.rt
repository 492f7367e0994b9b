use super::*;
use jr_ast::{
    Class, Constant, ConstantValue, ElementType, Field, Formal, IntegerLiteral, Member, Method,
    MethodKind, Modifier, Name, TypeName,
};
use jr_base::{Fail as Refused, Refusal, Span};
use jr_lexer::lex;
use std::alloc::Global;
use std::fmt::Write;
use std::process::Abort;
use std::test;

fn tell_name(out: &mut String, name: &Name) -> Result<(), test::Fail> {
    if let Ok(text) = str::from_utf8(name.text.as_slice()) {
        out.push_str(text)?;
    }
    Ok(())
}

/// Writes each modifier's place and kind.
fn tell_modifiers(out: &mut String, modifiers: &[Modifier]) -> Result<(), test::Fail> {
    for modifier in modifiers {
        let start = modifier.place.start;
        let kind = modifier.kind;
        write!(out, "{start}:{kind:?} ")?;
    }
    Ok(())
}

fn tell_element(out: &mut String, element: &ElementType) -> Result<(), test::Fail> {
    match element {
        ElementType::Int => out.push_str("int")?,
        ElementType::Long => out.push_str("long")?,
        ElementType::Boolean => out.push_str("boolean")?,
        ElementType::Class(name) => tell_name(out, name)?,
    }
    Ok(())
}

fn tell_type(out: &mut String, type_name: &TypeName) -> Result<(), test::Fail> {
    match type_name {
        TypeName::Single(element) => tell_element(out, element)?,
        TypeName::ArrayOf(element) => {
            tell_element(out, element)?;
            out.push_str("[]")?;
        }
    }
    out.push_str(" ")?;
    Ok(())
}

fn letter(literal: IntegerLiteral) -> &'static str {
    if literal.is_long { "L" } else { "" }
}

fn tell_constant(out: &mut String, constant: Constant) -> Result<(), test::Fail> {
    let start = constant.place.start;
    match constant.value {
        ConstantValue::Null => write!(out, "={start}:null")?,
        ConstantValue::Boolean(b) => write!(out, "={start}:{b}")?,
        ConstantValue::Integer(literal) => {
            let number = literal.number;
            write!(out, "={start}:{number}{}", letter(literal))?;
        }
        ConstantValue::Negated(literal) => {
            let number = literal.number;
            write!(out, "={start}:-{number}{}", letter(literal))?;
        }
    }
    Ok(())
}

fn tell_field(out: &mut String, field: &Field) -> Result<(), test::Fail> {
    let start = field.place.start;
    write!(out, "{start}:field ")?;
    tell_modifiers(out, field.modifiers.as_slice())?;
    tell_type(out, &field.type_name)?;
    for declarator in field.declarators.as_slice() {
        tell_name(out, &declarator.name)?;
        if let Some(constant) = declarator.constant {
            tell_constant(out, constant)?;
        }
        out.push_str(";")?;
    }
    Ok(())
}

fn tell_formal(out: &mut String, formal: &Formal) -> Result<(), test::Fail> {
    tell_modifiers(out, formal.modifiers.as_slice())?;
    tell_type(out, &formal.type_name)?;
    tell_name(out, &formal.name)?;
    out.push_str(";")?;
    Ok(())
}

/// Writes a method with the numbers of its clauses and statements.
fn tell_method(out: &mut String, method: &Method) -> Result<(), test::Fail> {
    let start = method.place.start;
    let clauses = method.clauses.len();
    let statements = method.body.len();
    write!(out, "{start}:method {clauses} {statements} ")?;
    tell_modifiers(out, method.modifiers.as_slice())?;
    match &method.kind {
        MethodKind::Constructor => out.push_str("new ")?,
        MethodKind::Void => out.push_str("void ")?,
        MethodKind::Valued(type_name) => tell_type(out, type_name)?,
    }
    tell_name(out, &method.name)?;
    out.push_str("(")?;
    for formal in method.formals.as_slice() {
        tell_formal(out, formal)?;
    }
    out.push_str(")")?;
    Ok(())
}

fn tell_member(out: &mut String, member: &Member) -> Result<(), test::Fail> {
    match member {
        Member::Empty => out.push_str(";")?,
        Member::Field(field) => tell_field(out, field)?,
        Member::Method(method) => tell_method(out, method)?,
        Member::Clause(clause) => {
            let start = clause.place.start;
            write!(out, "{start}:clause")?;
        }
    }
    out.push_str(" ")?;
    Ok(())
}

fn tell_class(out: &mut String, class: &Class) -> Result<(), test::Fail> {
    let start = class.place.start;
    write!(out, "{start}:class ")?;
    tell_modifiers(out, class.modifiers.as_slice())?;
    tell_name(out, &class.name)?;
    if class.extends_thread {
        out.push_str(" Thread")?;
    }
    if class.implements_runnable {
        out.push_str(" Runnable")?;
    }
    out.push_str(" { ")?;
    for member in class.members.as_slice() {
        tell_member(out, member)?;
    }
    out.push_str("}")?;
    Ok(())
}

fn named(refusal: Refusal) -> (&'static str, Span) {
    match refusal {
        Refusal::Syntax(span) => ("Syntax", span),
        Refusal::NotInProfile(span) => ("NotInProfile", span),
        Refusal::BigLiteral(span) => ("BigLiteral", span),
        Refusal::TooDeep(span) => ("TooDeep", span),
        _ => ("another", Span { start: 0, end: 0 }),
    }
}

fn tell_refused(out: &mut String, refused: Refused) -> Result<(), test::Fail> {
    match refused {
        Refused::Memory => out.push_str("no memory")?,
        Refused::Refused(refusal) => {
            let (name, span) = named(refusal);
            let start = span.start;
            write!(out, "{name} {start}")?;
        }
    }
    Ok(())
}

/// The classes of a source, or the refusal and the byte at which it stands.
fn told(alloc: Global, text: &[u8]) -> Result<String, test::Fail> {
    let mut out = String::new(alloc);
    if text.len() > 1_048_576 {
        return Ok(out);
    }
    let tokens = match lex(alloc, text) {
        Ok(tokens) => tokens,
        Err(refused) => {
            tell_refused(&mut out, refused)?;
            return Ok(out);
        }
    };
    match parse(alloc, &tokens) {
        Err(refused) => tell_refused(&mut out, refused)?,
        Ok(unit) => {
            for class in unit.classes.as_slice() {
                tell_class(&mut out, class)?;
            }
        }
    }
    Ok(out)
}

/// Each row is a source, and what `told` says of it.
fn check(rt: &impl Abort, alloc: Global, rows: &[(&[u8], &[u8])]) -> Result<(), test::Fail> {
    for (text, want) in rows {
        let got = told(alloc, text)?;
        assert!(rt; got.as_bytes() == *want, "{got}");
    }
    Ok(())
}

static CLASSES: [(&[u8], &[u8]); 15] = [
    (b"", b""),
    (b"package a.b; import c.*; import d;", b""),
    (b"class A { }", b"0:class A { }"),
    (
        b"public final class B extends Thread implements Runnable { ; }class C{}",
        b"0:class 0:Public 7:Final B Thread Runnable { ; }61:class C { }",
    ),
    (
        b"class A implements Runnable extends Thread { }",
        b"Syntax 28",
    ),
    (b"class A extends B { }", b"Syntax 16"),
    (b"class A { } import b;", b"Syntax 12"),
    (b"import a.; class A { }", b"Syntax 9"),
    (b"class A {", b"Syntax 9"),
    (b"class A { } }", b"Syntax 12"),
    (
        b"/*@ spec_safe_math @*/ class A { }",
        b"4:class 4:SpecSafeMath A { }",
    ),
    (
        b"class A { } /*@ spec_java_math spec_safe_math @*/ public class B { }",
        b"0:class A { }16:class 16:SpecJavaMath 31:SpecSafeMath 50:Public B { }",
    ),
    (b"spec_safe_math class A { }", b"Syntax 0"),
    (b"interface A { }", b"NotInProfile 0"),
    (b"class A { native void f(); }", b"NotInProfile 10"),
];

static FIELDS: [(&[u8], &[u8]); 14] = [
    (
        b"class A { /*@ spec_public @*/ @Deprecated private static int n = 5, m, k = -2147483648; boolean[] b = null; A a; boolean c = true; }",
        b"0:class A { 14:field 14:SpecPublic 30:Mark 42:Private 50:Static int n=65:5;m;k=75:-2147483648; 88:field boolean[] b=102:null; 108:field A a; 113:field boolean c=125:true; }",
    ),
    (b"class A { int x = 2147483648; }", b"BigLiteral 18"),
    (b"class A { int x = 1 + 2; }", b"Syntax 20"),
    (b"class A { int x }", b"Syntax 16"),
    (b"class A { int[ x; }", b"Syntax 13"),
    (b"class A { void x; }", b"Syntax 16"),
    (b"class A { float x; }", b"NotInProfile 10"),
    (
        b"class A { long x = 1L, y = -9223372036854775808L, z = 2147483648l; static long[] a; }",
        b"0:class A { 10:field long x=19:1L;y=27:-9223372036854775808L;z=54:2147483648L; 67:field 67:Static long[] a; }",
    ),
    (
        b"class A { long x = 9223372036854775808L; }",
        b"BigLiteral 19",
    ),
    (b"class A { long x = 2147483648; }", b"BigLiteral 19"),
    (
        b"class A { spec_safe_math x; }",
        b"0:class A { 10:field spec_safe_math x; }",
    ),
    (
        b"class A { /*@ spec_safe_math @*/ int x; }",
        b"0:class A { 14:field 14:SpecSafeMath int x; }",
    ),
    (b"class A { long[ x; }", b"Syntax 14"),
    (b"class A { //@ requires true;\n int x; }", b"Syntax 14"),
];

static METHODS: [(&[u8], &[u8]); 17] = [
    (
        b"class A { A(int n) { } void f() { ; ; } synchronized int[] g(final int a, B[] b) throws E, F { return null; } }",
        b"0:class A { 10:method 0 0 new A(int n;) 23:method 0 2 void f() 40:method 0 1 40:Synchronized int[] g(61:Final int a;B[] b;) }",
    ),
    (
        b"class A {\n //@ requires a > 0;\n /*@ ensures \\result > 0;\n   @ assignable a, b; @*/\n public /*@ pure @*/ int f(int a) { return a; }\n //@ static invariant true;\n //@ private monitors_for n = this;\n int n; }",
        b"0:class A { 15:method 3 1 84:Public 95:Pure int f(int a;) 143:clause 172:clause 196:field int n; }",
    ),
    (b"class A { void f(int) { } }", b"Syntax 20"),
    (b"class A { void f(int a,) { } }", b"Syntax 23"),
    (b"class A { void f() throws { } }", b"Syntax 26"),
    (b"class A { f { } }", b"Syntax 12"),
    (
        b"class A { //@ static monitors_for n = this;\n int n; }",
        b"Syntax 21",
    ),
    (
        b"class A { public //@ invariant true;\n int n; }",
        b"Syntax 21",
    ),
    (
        b"class A { /*@ spec_java_math @*/ A() { } long f(final long a, /*@ spec_safe_math */ long[] b) { long c = 1L; return c; } }",
        b"0:class A { 14:method 0 0 14:SpecJavaMath new A() 41:method 0 2 long f(48:Final long a;66:SpecSafeMath long[] b;) }",
    ),
    (b"class A { spec_java_math void f() { } }", b"Syntax 25"),
    (
        b"class A { //@ requires spec_safe_math;\n void f() { } }",
        b"Syntax 23",
    ),
    (b"class A { void f() { x: ; } }", b"NotInProfile 21"),
    (
        b"class A { void f() { if (b) { x: ; } } }",
        b"NotInProfile 30",
    ),
    (b"class A { b : }", b"Syntax 12"),
    (b"class A { ; b : }", b"Syntax 14"),
    (b"class A { void f() { } ; b : }", b"Syntax 27"),
    (b"class A { void f() { x = p ? (q) r : s; } }", b"Syntax 33"),
];

/// Words that are left out, behind dots.
static DOTTED: [(&[u8], &[u8]); 7] = [
    (b"import a.super; class A { }", b"NotInProfile 9"),
    (b"class A { a.super x; }", b"NotInProfile 12"),
    (b"class A { int x = 1.super; }", b"NotInProfile 20"),
    (
        b"class A { void f() throws E.goto { } }",
        b"NotInProfile 28",
    ),
    (b"class A { void f() { x.super = 1; } }", b"NotInProfile 23"),
    (
        b"class A { void f() { System.out.print(\"x\"); } }",
        b"NotInProfile 32",
    ),
    (
        b"class A { //@ requires x.goto;\n void f() { } }",
        b"NotInProfile 25",
    ),
];

#[test]
fn classes_are_read(rt: HostRuntime) -> Result<(), test::Fail> {
    check(&rt, rt.alloc(), &CLASSES)
}

#[test]
fn fields_are_read(rt: HostRuntime) -> Result<(), test::Fail> {
    check(&rt, rt.alloc(), &FIELDS)
}

#[test]
fn methods_are_read(rt: HostRuntime) -> Result<(), test::Fail> {
    check(&rt, rt.alloc(), &METHODS)?;
    check(&rt, rt.alloc(), &DOTTED)
}

/// Programs that use most forms, and the names of their classes.
static PROGRAMS: [(&[u8], &[u8]); 14] = [
    (
        b"class A {\n  static int n = 2;\n  //@ requires x > 0;\n  static int twice(int x) { return x + x; }\n  public static void main(String[] args) {\n    System.out.println(twice(n));\n  }\n}",
        b"A ",
    ),
    (
        b"class C extends Thread {\n  static int c;\n  public void run() { c = c + 1; }\n  //@ ensures c == \\old(c) + 1;\n  static void up(C t) {\n    t.start();\n    c = c + 1;\n    try { t.join(); } catch (InterruptedException e) { }\n  }\n  public static void main(String[] args) { up(new C()); }\n}",
        b"C ",
    ),
    (
        b"class C extends Thread {\n  static int c;\n  public void run() { up(); }\n  //@ ensures c == \\old(c) + 1;\n  static synchronized void up() { c = c + 1; }\n  public static void main(String[] args) { C t = new C(); t.start(); up(); }\n}",
        b"C ",
    ),
    (
        b"class P {\n  int n;\n  //@ requires p != null && p.n > 0;\n  static void f(P p) { }\n  public static void main(String[] args) { f(null); }\n}",
        b"P ",
    ),
    (
        b"class Buffer {\n  private int[] items;\n  private int count, in, out;\n  //@ monitors_for count = this;\n  //@ invariant 0 <= count && count <= items.length;\n  Buffer(int size) { items = new int[size]; }\n  //@ when count < items.length;\n  //@ ensures count >= 1;\n  public synchronized void put(int x) {\n    while (count == items.length) {\n      try { wait(); } catch (InterruptedException e) { }\n    }\n    commit: items[in] = x;\n    in = (in + 1) % items.length;\n    count++;\n    notifyAll();\n  }\n  //@ when count > 0;\n  public synchronized int take() {\n    int x = 0;\n    while (count == 0) {\n      try { wait(); } catch (InterruptedException e) { }\n    }\n    commit: x = items[out];\n    out = (out + 1) % items.length;\n    count--;\n    notifyAll();\n    return x;\n  }\n}\nclass Producer extends Thread {\n  private Buffer b;\n  Producer(Buffer b) { this.b = b; }\n  public void run() { for (int i = 1; i <= 3; i++) b.put(i); }\n}\nclass Main {\n  public static void main(String[] args) {\n    Buffer b = new Buffer(2);\n    Producer p = new Producer(b);\n    p.start();\n    for (int i = 0; i < 3; i++) System.out.println(b.take());\n  }\n}",
        b"Buffer Producer Main ",
    ),
    (
        b"class Box {\n  int count;\n  //@ when count > 0;\n  synchronized void take() {\n    if (count == 0) { try { wait(); } catch (InterruptedException e) { } }\n    commit: count--;\n  }\n  synchronized void put() { count++; notifyAll(); }\n}\nclass Taker extends Thread {\n  Box b;\n  Taker(Box b) { this.b = b; }\n  public void run() { b.take(); }\n}\nclass Putter extends Thread {\n  Box b;\n  Putter(Box b) { this.b = b; }\n  public void run() { b.put(); }\n}\nclass Main {\n  public static void main(String[] args) {\n    Box b = new Box();\n    new Taker(b).start();\n    new Putter(b).start();\n    b.take();\n  }\n}",
        b"Box Taker Putter Main ",
    ),
    (
        b"class D {\n  int v;\n  Object a, b;\n  //@ monitors_for v <- a, b;\n  D() { a = new Object(); b = new Object(); }\n  void set() { synchronized (a) { v = 1; } }\n  public static void main(String[] args) { new D().set(); }\n}",
        b"D ",
    ),
    (
        b"class W extends Thread {\n  Object o;\n  W(Object o) { this.o = o; }\n  public void run() { synchronized (o) { o.notify(); } }\n  public static void main(String[] args) throws InterruptedException {\n    Object o = new Object();\n    synchronized (o) { synchronized (o) { synchronized (o) {\n      new W(o).start();\n      o.wait();\n      //@ assert \\lockset.has(o);\n      System.out.println(\"back\");\n    } } }\n  }\n}",
        b"W ",
    ),
    (
        b"class N extends Thread {\n  static Object a, b;\n  public void run() { synchronized (a) { b.notify(); } }\n  public static void main(String[] args) throws InterruptedException {\n    a = new Object();\n    b = new Object();\n    N t = new N();\n    t.start();\n    t.join();\n    synchronized (a) { System.out.println(\"free\"); }\n  }\n}",
        b"N ",
    ),
    (
        b"class K extends Thread {\n  static Object a, b, c;\n  public void run() {\n    synchronized (b) {\n      synchronized (c) { c.notify(); }\n      synchronized (a) { }\n    }\n  }\n  public static void main(String[] args) throws InterruptedException {\n    a = new Object(); b = new Object(); c = new Object();\n    synchronized (a) {\n      synchronized (c) { new K().start(); c.wait(); }\n      synchronized (b) { }\n    }\n  }\n}",
        b"K ",
    ),
    (
        b"class J extends Thread {\n  static int a, b;\n  public void run() { b = 7; }\n  //@ requires a == 0 && b == 0;\n  static void f() { }\n  public static void main(String[] args) { new J().start(); f(); }\n}",
        b"J ",
    ),
    (
        b"class M {\n  //@ requires x / -1 == x;\n  static void f(int x) { System.out.println(x / -1); }\n  public static void main(String[] args) { f(-2147483648); }\n}",
        b"M ",
    ),
    (
        b"class G {\n  //@ requires (\\forall int i; 0 <= i && i < n; i >= 0);\n  static void f(int n) { }\n  public static void main(String[] args) { f(4096); f(4097); f(-1); }\n}",
        b"G ",
    ),
    (
        b"class Q {\n  Object a;\n  Q() { a = new Object(); }\n  //@ locks a;\n  void f() { synchronized (a) { synchronized (this) { } } }\n  public static void main(String[] args) { new Q().f(); }\n}",
        b"Q ",
    ),
];

fn tell_names(out: &mut String, classes: &[Class]) -> Result<(), test::Fail> {
    for class in classes {
        tell_name(out, &class.name)?;
        out.push_str(" ")?;
    }
    Ok(())
}

/// The names of the classes of a source, or its refusal.
fn names(alloc: Global, text: &[u8]) -> Result<String, test::Fail> {
    let mut out = String::new(alloc);
    if text.len() > 1_048_576 {
        return Ok(out);
    }
    let tokens = lex(alloc, text)?;
    match parse(alloc, &tokens) {
        Err(refused) => tell_refused(&mut out, refused)?,
        Ok(unit) => tell_names(&mut out, unit.classes.as_slice())?,
    }
    Ok(out)
}

#[test]
fn programs_are_read(rt: HostRuntime) -> Result<(), test::Fail> {
    for (text, want) in &PROGRAMS {
        let got = names(rt.alloc(), text)?;
        assert!(&rt; got.as_bytes() == *want, "{got}");
    }
    Ok(())
}

/// So many pieces, between a front and a back.
fn repeated(
    alloc: Global,
    front: &[u8],
    piece: &[u8],
    count: u32,
    back: &[u8],
) -> Result<Vec<u8>, test::Fail> {
    let mut text = Vec::new(alloc);
    text.extend_from_slice(front)?;
    for _ in 0..count {
        text.extend_from_slice(piece)?;
    }
    text.extend_from_slice(back)?;
    Ok(text)
}

/// Long sequences: a front, a piece, how often it stands there, and a back.
static LONG: [(&[u8], &[u8], u32, &[u8]); 8] = [
    (b"", b"import a; ", 20_000, b""),
    (b"import a", b".b", 100_000, b";"),
    (b"", b"class A {} ", 20_000, b""),
    (b"class A {", b";", 1_000_000, b"}"),
    (b"class A {", b"int a; ", 30_000, b"}"),
    (b"class A { int a", b",a", 100_000, b"; }"),
    (b"class A { void f(int a", b",int a", 30_000, b") { } }"),
    (b"class A { ", b"final ", 30_000, b"int a; }"),
];

#[test]
fn long_sequences_are_read(rt: HostRuntime) -> Result<(), test::Fail> {
    for (front, piece, count, back) in &LONG {
        let text = repeated(rt.alloc(), front, piece, *count, back)?;
        let got = names(rt.alloc(), text.as_slice())?;
        assert!(&rt;
            got.as_str() == "A " || got.len() == 40_000 || got.is_empty(),
            "{got}"
        );
    }
    Ok(())
}
