ghost use Rattle.std.specs.Prelude.{◌≤◌};

use super::*;
use jr_base::{Fail as Refused, Refusal};
use jr_lexer::lex;
use std::alloc::Global;
use std::process::Abort;
use std::test;

/// How many statements a block has, and how many tokens it takes; or the place of its refusal.
#[derive(Clone, Copy, Debug, PartialEq, Eq)]
enum Told {
    Block(usize, u32),
    Syntax(u32),
    NotInProfile(u32),
    BigLiteral(u32),
    TooDeep,
    Other,
}

fn block_told(alloc: Global, text: &[u8]) -> Result<Told, test::Fail> {
    if text.len() > 1_048_576 {
        return Err("long".into());
    }
    let Ok(tokens) = lex(alloc, text) else {
        return Err("tokens".into());
    };
    match parse_block(alloc, &tokens, 0, 0) {
        Ok((statements, behind)) => Ok(Told::Block(statements.len(), behind)),
        Err(Refused::Refused(Refusal::Syntax(span))) => Ok(Told::Syntax(span.start)),
        Err(Refused::Refused(Refusal::NotInProfile(span))) => Ok(Told::NotInProfile(span.start)),
        Err(Refused::Refused(Refusal::BigLiteral(span))) => Ok(Told::BigLiteral(span.start)),
        Err(Refused::Refused(Refusal::TooDeep(_))) => Ok(Told::TooDeep),
        Err(_) => Ok(Told::Other),
    }
}

static BLOCKS: [(&[u8], Told); 66] = [
    (b"{}", Told::Block(0, 2)),
    (b"{ ; {} ; } x", Told::Block(3, 6)),
    (b"{ int x = 1, y; }", Told::Block(1, 9)),
    (b"{ final int[] x; }", Told::Block(1, 8)),
    (b"{ A b = c; A[] d; a[0] = b; }", Told::Block(3, 19)),
    (b"{ if (a) if (b) x(); else y(); }", Told::Block(1, 19)),
    (b"{ if (c) int x = 1; }", Told::Block(1, 11)),
    (b"{ while (a < b) a++; }", Told::Block(1, 11)),
    (b"{ do { a(); } while (b); }", Told::Block(1, 14)),
    (b"{ for (;;) ; }", Told::Block(1, 8)),
    (
        b"{ for (int i = 0; i < 3; i++, j--) a[i] = 0; }",
        Told::Block(1, 26),
    ),
    (b"{ for (i = 0, j = 1; ; ) {} }", Told::Block(1, 16)),
    (b"{ for (i < 1;;) {} }", Told::Syntax(7)),
    (
        b"{ return; return 1; break; continue; }",
        Told::Block(4, 11),
    ),
    (
        b"{ throw new E(); throw new E(\"m\"); throw e; }",
        Told::Block(3, 18),
    ),
    (
        b"{ try { a(); } catch (E e) { } catch (F f) { } }",
        Told::Block(1, 23),
    ),
    (b"{ try { a(); } }", Told::Syntax(15)),
    (b"{ try { a(); } finally { } }", Told::NotInProfile(15)),
    (b"{ synchronized (this) { a(); } }", Told::Block(1, 12)),
    (b"{ commit: x = 1; }", Told::Block(1, 8)),
    (b"{ commit: int x = 1; }", Told::Syntax(10)),
    (b"{ again: x = 1; }", Told::NotInProfile(2)),
    (b"{ x = c ? a : b; }", Told::Block(1, 10)),
    (b"{ commit = 1; }", Told::Block(1, 6)),
    (b"{ x + 1; }", Told::Syntax(2)),
    (b"{ (x = 1); }", Told::Syntax(2)),
    (b"{ new int[3]; new A(); -x; }", Told::Syntax(23)),
    (b"{ System.out.println(); }", Told::Block(1, 10)),
    (b"{ System.out.println(a + b); }", Told::Block(1, 13)),
    (
        b"{ System.out.println(\"a\" + b * c + \"d\"); }",
        Told::Block(1, 17),
    ),
    (b"{ System.out.println(\"a\" + b < c); }", Told::Syntax(29)),
    (b"{ System.out.println(a, b); }", Told::Syntax(22)),
    (
        b"{ System.out.println(\"1\"+\"2\"+\"3\"+\"4\"+\"5\"+\"6\"+\"7\"+\"8\"); }",
        Told::Block(1, 25),
    ),
    (
        b"{ System.out.println(\"1\"+\"2\"+\"3\"+\"4\"+\"5\"+\"6\"+\"7\"+\"8\"+9); }",
        Told::Syntax(54),
    ),
    (b"{ System.out.print(1); }", Told::Block(1, 11)),
    (b"{ System.out.print(\"a\"); }", Told::NotInProfile(13)),
    (b"{ System.out.print(a, 1) }", Told::Syntax(25)),
    (b"{ x = System.out.print(1, \"a\"); }", Told::Syntax(26)),
    (b"{ x.super = 1; }", Told::NotInProfile(4)),
    (b"{ x.y.goto(); }", Told::NotInProfile(6)),
    (b"{ x. = 1; }", Told::Syntax(5)),
    (b"{ x = p ? (q) r : s; }", Told::Syntax(14)),
    (b"{ for (; r : s;) ; }", Told::Syntax(11)),
    (b"{ do a(); r : while (b); }", Told::Syntax(10)),
    (b"{ if (a) r : x = 1; }", Told::NotInProfile(9)),
    (b"{ if (a) ; else r : x = 1; }", Told::NotInProfile(16)),
    (
        b"{ try { a(); } catch (E e) { ; r : ; } }",
        Told::NotInProfile(31),
    ),
    (b"{ commit: r : ; }", Told::NotInProfile(10)),
    (b"{ if (a) -2147483648; }", Told::Syntax(9)),
    (b"{ while (a) -2147483648; }", Told::Syntax(12)),
    (b"{ x = (a) -2147483648; }", Told::BigLiteral(11)),
    (b"{ assert x; }", Told::NotInProfile(2)),
    (b"{ //@ assert x ==> y;\n x = 1; }", Told::Block(2, 11)),
    (b"{ //@ ghost int x;\n }", Told::NotInProfile(6)),
    (b"{ x = 2147483648; }", Told::BigLiteral(6)),
    (b"{ x = -2147483648; }", Told::Block(1, 7)),
    (b"{ x = 9223372036854775808L; }", Told::BigLiteral(6)),
    (b"{ x = -9223372036854775808L; }", Told::Block(1, 7)),
    (b"{ long x = 1L, y; }", Told::Block(1, 9)),
    (b"{ final long[] x; }", Told::Block(1, 8)),
    (b"{ if (c) long x = 1; }", Told::Block(1, 11)),
    (b"{ for (long i = 0; ; ) {} }", Told::Block(1, 13)),
    (b"{ x = new long[3]; }", Told::Block(1, 10)),
    (b"{ commit: long x = 1; }", Told::Syntax(10)),
    (b"{ long; }", Told::Syntax(6)),
    (b"{ long = 1; }", Told::Syntax(7)),
];

#[test]
fn reads_blocks(rt: HostRuntime) -> Result<(), test::Fail> {
    for (text, wanted) in &BLOCKS {
        assert_eq!(rt; block_told(rt.alloc(), text)?, *wanted, "{text:?}");
    }
    Ok(())
}

/// So many pieces, between a front and a back.
fn repeated(
    alloc: Global,
    front: &[u8],
    piece: &[u8],
    count: u32,
    back: &[u8],
) -> Result<Vec<u8>, test::Fail> {
    let mut text = Vec::new(alloc);
    text.extend_from_slice(front)?;
    for _ in 0..count {
        text.extend_from_slice(piece)?;
    }
    text.extend_from_slice(back)?;
    Ok(text)
}

/// The deepest node is the empty statement, the condition of the last `if`, or a part of a print.
static DEEP: [(&[u8], &[u8], u32, &[u8], bool); 10] = [
    (b"{", b"while (a) ", 128, b"; }", false),
    (b"{", b"while (a) ", 129, b"; }", true),
    (b"{", b"{", 200, b"", true),
    (b"{", b"if (a) ; else ", 128, b"; }", false),
    (b"{", b"if (a) ; else ", 129, b"; }", true),
    (b"{", b";", 100_000, b"}", false),
    (
        b"{",
        b"while (a) ",
        127,
        b"System.out.println(\"a\" + 1 + \"b\");}",
        false,
    ),
    (b"{", b"while (a) ", 128, b"System.out.println();}", false),
    (b"{", b"while (a) ", 128, b"System.out.println(1);}", true),
    (
        b"{",
        b"while (a) ",
        128,
        b"System.out.println(\"a\");}",
        true,
    ),
];

#[test]
fn keeps_the_limit(rt: HostRuntime) -> Result<(), test::Fail> {
    for (front, piece, count, back, deep) in &DEEP {
        let text = repeated(rt.alloc(), front, piece, *count, back)?;
        let got = block_told(rt.alloc(), text.as_slice())?;
        assert_eq!(rt; got == Told::TooDeep, *deep, "{front:?} {count}");
    }
    Ok(())
}
