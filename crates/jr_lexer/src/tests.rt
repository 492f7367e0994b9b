use super::*;
use jr_base::{Fail, Refusal, Span};
use jr_ops::KEYWORDS;
use std::alloc::Global;
use std::fmt::Write;
use std::process::Abort;
use std::test;

/// The tokens by kind, names and literals with their text, each behind a `'` where it stands in an
/// annotation. Or the refusal, and the byte at which it stands.
fn told(alloc: Global, source: &[u8]) -> Result<String, test::Fail> {
    let mut all = String::new(alloc);
    if source.len() > 1_048_576 {
        return Ok(all);
    }
    match lex(alloc, source) {
        Err(Fail::Memory) => all.push_str("no memory")?,
        Err(Fail::Refused(refusal)) => {
            let (name, span) = named(refusal);
            let start = span.start;
            write!(all, "{name} {start}")?;
        }
        Ok(tokens) => {
            for at in 0..tokens.len() {
                if at > 0 {
                    all.push_str(" ")?;
                }
                tell(&mut all, &tokens, at)?;
            }
        }
    }
    Ok(all)
}

fn tell(all: &mut String, tokens: &Tokens, at: u32) -> Result<(), test::Fail> {
    if tokens.is_jml(at) {
        all.push_str("'")?;
    }
    let kind = tokens.kind(at);
    write!(all, "{kind:?}")?;
    if matches!(
        kind,
        Kind::Name | Kind::Integer | Kind::Text | Kind::BackslashOther
    ) {
        if let Ok(text) = str::from_utf8(tokens.text(at)) {
            write!(all, "({text})")?;
        }
    }
    Ok(())
}

fn named(refusal: Refusal) -> (&'static str, Span) {
    match refusal {
        Refusal::BadUtf8(span) => ("BadUtf8", span),
        Refusal::OpenComment(span) => ("OpenComment", span),
        Refusal::BigLiteral(span) => ("BigLiteral", span),
        Refusal::LongText(span) => ("LongText", span),
        Refusal::BadToken(span) => ("BadToken", span),
        _ => ("another", Span { start: 0, end: 0 }),
    }
}

/// Each row is a source, and what `told` says of it.
fn check(rt: &impl Abort, alloc: Global, rows: &[(&[u8], &[u8])]) -> Result<(), test::Fail> {
    for (source, want) in rows {
        let got = told(alloc, source)?;
        assert!(rt; got.as_bytes() == *want, "{got}");
    }
    Ok(())
}

static WORDS: [(&[u8], &[u8]); 20] = [
    // Blanks, and what is none.
    (b"", b""),
    (
        b" a\tb\nc\rd\x0ce ",
        b"Name(a) Name(b) Name(c) Name(d) Name(e)",
    ),
    (b"a\x0bb", b"BadToken 1"),
    (b"a\x00", b"BadToken 1"),
    // Names and keywords.
    (b"_a$1 $ _ A9", b"Name(_a$1) Name($) Name(_) Name(A9)"),
    (
        b"commit System println Thread",
        b"Name(commit) Name(System) Name(println) Name(Thread)",
    ),
    (b"class classes goto", b"Class Name(classes) Goto"),
    (b"pure requires set", b"Name(pure) Name(requires) Name(set)"),
    (
        b"spec_safe_math spec_java_math long",
        b"Name(spec_safe_math) Name(spec_java_math) Long",
    ),
    (
        b"/*@ spec_safe_math spec_java_math long @*/",
        b"'SpecSafeMath 'SpecJavaMath 'Long",
    ),
    (b"//@ pure requires set", b"'Pure 'Requires 'Set"),
    (b"/*@ class commit */", b"'Class 'Name(commit)"),
    // Words with a backslash.
    (b"\\old", b"BadToken 0"),
    (
        b"//@ \\old(\\result)",
        b"'BackslashOld 'OpenParen 'BackslashResult 'CloseParen",
    ),
    (
        b"//@ \\forall \\exists \\lockset.has",
        b"'BackslashForall 'BackslashExists 'BackslashLockset 'Dot 'Name(has)",
    ),
    (
        b"//@ \\max \\sum \\num_of \\Not_one",
        b"'BackslashMax 'BackslashSum 'BackslashNumOf 'BackslashOther(\\Not_one)",
    ),
    (b"//@ \\old1", b"'BackslashOld 'Integer(1)"),
    (b"//@ \\_a$", b"'BackslashOther(\\_a) 'Name($)"),
    (b"//@ \\", b"BadToken 4"),
    (b"//@ \\1", b"BadToken 4"),
];

#[test]
fn reads_words(rt: HostRuntime) -> Result<(), test::Fail> {
    check(&rt, rt.alloc(), &WORDS)
}

static SIGNS: [(&[u8], &[u8]); 19] = [
    // Signs.
    (
        b". ; , ( ) [ ] { } @ ? : ~",
        b"Dot Semicolon Comma OpenParen CloseParen OpenBracket CloseBracket OpenBrace CloseBrace At Question Colon Tilde",
    ),
    (
        b"= == + ++ += - -- -= ->",
        b"Equal EqualEqual Plus PlusPlus PlusEqual Minus MinusMinus MinusEqual Arrow",
    ),
    (
        b"* *= / /= % %= ^ ^=",
        b"Star StarEqual Slash SlashEqual Percent PercentEqual Caret CaretEqual",
    ),
    (
        b"& && &= | || |= ! !=",
        b"And AndAnd AndEqual Or OrOr OrEqual Not NotEqual",
    ),
    (b"< <= << <<=", b"Less LessEqual ShiftLeft ShiftLeftEqual"),
    (
        b"> >= >> >>= >>> >>>=",
        b"Greater GreaterEqual ShiftRight ShiftRightEqual ShiftRightUnsigned ShiftRightUnsignedEqual",
    ),
    (
        b"//@ ==> <== <==> <=!=>",
        b"'Implies 'ImpliedBy 'Equivalent 'NotEquivalent",
    ),
    (b"==>", b"EqualEqual Greater"),
    (b"<==", b"LessEqual Equal"),
    (b"<==>", b"LessEqual Equal Greater"),
    (b"<=!=>", b"LessEqual NotEqual Greater"),
    // The longest token.
    (b"a+++b", b"Name(a) PlusPlus Plus Name(b)"),
    (b">>>>=", b"ShiftRightUnsigned GreaterEqual"),
    (b"--->", b"MinusMinus Arrow"),
    (b"x<-1", b"Name(x) Less Minus Integer(1)"),
    (
        b"//@ <=!= ===> <===>",
        b"'LessEqual 'NotEqual 'EqualEqual 'Equal 'Greater 'ImpliedBy 'Equal 'Greater",
    ),
    (b"# a", b"BadToken 0"),
    (b"a `", b"BadToken 2"),
    (b"'a'", b"BadToken 0"),
];

#[test]
fn reads_signs(rt: HostRuntime) -> Result<(), test::Fail> {
    check(&rt, rt.alloc(), &SIGNS)
}

static COMMENTS: [(&[u8], &[u8]); 15] = [
    // Comments.
    (b"a//b \"\nc", b"Name(a) Name(c)"),
    (b"a/*b \"\n*/c", b"Name(a) Name(c)"),
    (b"a//b\rc", b"Name(a)"),
    (b"//", b""),
    (b"/**/a", b"Name(a)"),
    (b"/*/ a */b", b"Name(b)"),
    (b"/* // */b", b"Name(b)"),
    (b"// /* a\nb", b"Name(b)"),
    (b"// @ a\nb", b"Name(b)"),
    (b"/* @ a */b", b"Name(b)"),
    // Comments without an end.
    (b"/* x", b"OpenComment 0"),
    (b"a /*", b"OpenComment 2"),
    (b"a /*/", b"OpenComment 2"),
    (b"/*@ 1a", b"OpenComment 0"),
    (b"/*@/", b"OpenComment 0"),
];

#[test]
fn reads_comments(rt: HostRuntime) -> Result<(), test::Fail> {
    check(&rt, rt.alloc(), &COMMENTS)
}

static ANNOTATIONS: [(&[u8], &[u8]); 25] = [
    // Annotations.
    (b"//@ a\nb", b"'Name(a) Name(b)"),
    (b"/*@ a */b", b"'Name(a) Name(b)"),
    (b"//@", b""),
    (b"/*@*/b", b"Name(b)"),
    (
        b"//@ requires a\n//@ && b;",
        b"'Requires 'Name(a) 'AndAnd 'Name(b) 'Semicolon",
    ),
    (
        b"/*@ requires a */ /*@ && b; @*/",
        b"'Requires 'Name(a) 'AndAnd 'Name(b) 'Semicolon",
    ),
    // A run of `@` behind the opening, at the start of a line, before the end, and elsewhere.
    (b"//@@@ a", b"'Name(a)"),
    (b"/*@@@a*/", b"'Name(a)"),
    (b"/*@ a\n \t\r\x0c@@b\n@c*/", b"'Name(a) 'Name(b) 'Name(c)"),
    (b"/*@ a @@@*/", b"'Name(a)"),
    (b"/*@@*/", b""),
    (b"/*@ a @ b*/", b"'Name(a) 'At 'Name(b)"),
    (b"/*@ @ a*/", b"'At 'Name(a)"),
    (b"/*@ a\n@ @b*/", b"'Name(a) 'At 'Name(b)"),
    (b"/*@ a @ */", b"'Name(a) 'At"),
    (b"//@ a @", b"'Name(a) 'At"),
    (b"//@ a @*/", b"'Name(a) 'At 'Star 'Slash"),
    // Comments in annotations.
    (b"/*@ a // b ==>\n c */", b"'Name(a) 'Name(c)"),
    (b"/*@ a // b */ c", b"'Name(a) Name(c)"),
    (b"/*@ a // b\n@ c @*/", b"'Name(a) 'Name(c)"),
    (b"//@ a // b \\\nc", b"'Name(a) Name(c)"),
    (b"//@ a /* b", b"'Name(a) 'Slash 'Star 'Name(b)"),
    (b"/*@ a /* b */", b"'Name(a) 'Slash 'Star 'Name(b)"),
    (b"/*@ a **/", b"'Name(a) 'Star"),
    (b"/*@ a /*/ b", b"'Name(a) 'Slash Name(b)"),
];

#[test]
fn reads_annotations(rt: HostRuntime) -> Result<(), test::Fail> {
    check(&rt, rt.alloc(), &ANNOTATIONS)
}

static INTEGERS: [(&[u8], &[u8]); 29] = [
    // Integers.
    (
        b"0 7 10 2147483647",
        b"Integer(0) Integer(7) Integer(10) Integer(2147483647)",
    ),
    (b"2147483648", b"Integer(2147483648)"),
    (b"2147483649", b"BigLiteral 0"),
    (b"a 3000000000x", b"BigLiteral 2"),
    (
        b"99999999999999999999999999999999999999999999",
        b"BigLiteral 0",
    ),
    (b"01", b"BadToken 0"),
    (b"00", b"BadToken 0"),
    (b"09999999999", b"BadToken 0"),
    (b"class A { int x = 1a; }", b"BadToken 18"),
    (b"1_ ", b"BadToken 0"),
    (b"1$", b"BadToken 0"),
    (b"0x1", b"BadToken 0"),
    (b"1.5", b"Integer(1) Dot Integer(5)"),
    (b"1\"a\"", b"Integer(1) Text(a)"),
    (b"//@ 1\\old", b"'Integer(1) 'BackslashOld"),
    (b"1\xc3\xa9", b"BadToken 1"),
    // With a letter.
    (b"1L 1l 0L", b"Integer(1L) Integer(1l) Integer(0L)"),
    (
        b"2147483648L 9223372036854775807l 9223372036854775808L",
        b"Integer(2147483648L) Integer(9223372036854775807l) Integer(9223372036854775808L)",
    ),
    (
        b"-9223372036854775808L",
        b"Minus Integer(9223372036854775808L)",
    ),
    (b"9223372036854775809L", b"BigLiteral 0"),
    (b"9223372036854775808", b"BigLiteral 0"),
    (b"9223372036854775809Lx", b"BigLiteral 0"),
    (
        b"99999999999999999999999999999999999999999999L",
        b"BigLiteral 0",
    ),
    (b"1LL", b"BadToken 0"),
    (b"1lL", b"BadToken 0"),
    (b"01L", b"BadToken 0"),
    (b"1L2", b"BadToken 0"),
    (b"1 L", b"Integer(1) Name(L)"),
    (b"//@ 1L\\old", b"'Integer(1L) 'BackslashOld"),
];

#[test]
fn reads_integers(rt: HostRuntime) -> Result<(), test::Fail> {
    check(&rt, rt.alloc(), &INTEGERS)
}

static STRINGS: [(&[u8], &[u8]); 16] = [
    // Strings.
    (
        b"\"\" \"a b\" \"//\" \"/*\"",
        b"Text() Text(a b) Text(//) Text(/*)",
    ),
    (b"\"\\n|\\t|\\\"|\\\\\"", b"Text(\n|\t|\"|\\)"),
    (b"a \"\\r\"", b"BadToken 2"),
    (b"\"a\\u0041\"", b"BadToken 0"),
    (b"\"a", b"BadToken 0"),
    (b"\"a\nb\"", b"BadToken 0"),
    (b"\"a\\", b"BadToken 0"),
    (b"\"a\rb\"", b"Text(a\rb)"),
    (b"\"x\"y", b"BadToken 0"),
    (b"\"x\"1", b"BadToken 0"),
    (b"\"x\"\"y\"+", b"Text(x) Text(y) Plus"),
    (b"//@ \"a\"", b"'Text(a)"),
    (b"/*@ \"*/ \"", b"BadToken 4"),
    // Characters past ASCII.
    (
        b"\"\xc3\xa9\" // \xe2\x82\xac\n/* \xf0\x9f\x98\x80 */ a",
        b"Text(\xc3\xa9) Name(a)",
    ),
    (b"a \xc3\xa9", b"BadToken 2"),
    (b"//@ \xc3\xa9", b"BadToken 4"),
];

#[test]
fn reads_strings(rt: HostRuntime) -> Result<(), test::Fail> {
    check(&rt, rt.alloc(), &STRINGS)
}

static PLACES: [(&[u8], &[u8]); 8] = [
    // What isn't UTF-8, wherever it stands.
    (b"\xff", b"BadUtf8 0"),
    (b"1a /* \xff", b"BadUtf8 6"),
    (b"// \xc0\x80", b"BadUtf8 3"),
    (b"\"\xed\xa0\x80\"", b"BadUtf8 1"),
    (b"\xc3\xa9\xe2\x82", b"BadUtf8 2"),
    // The first place from the left.
    (b"1a /*", b"BadToken 0"),
    (b"/*@ a */ 2147483649 \"", b"BigLiteral 9"),
    (b"//@ \"\n2147483649", b"BadToken 4"),
];

#[test]
fn reads_places(rt: HostRuntime) -> Result<(), test::Fail> {
    check(&rt, rt.alloc(), &PLACES)
}

/// Strings with that many letters between front and back, and how they are refused, if they are.
static LONG_TEXTS: [(&[u8], usize, &[u8], &[u8]); 9] = [
    (b"\"", 256, b"\"", b""),
    (b"\"", 257, b"\"", b"LongText 0"),
    (b"\"\\n", 255, b"\"", b""),
    (b"\"\\n", 256, b"\"", b"LongText 0"),
    (b"\"\xc3\xa9", 254, b"\"", b""),
    (b"\"\xc3\xa9", 255, b"\"", b"LongText 0"),
    (b"\"", 257, b"\"x", b"LongText 0"),
    (b"\"\\r", 257, b"\"", b"BadToken 0"),
    (b"\"", 257, b"", b"BadToken 0"),
];

#[test]
fn counts_bytes_of_texts(rt: HostRuntime) -> Result<(), test::Fail> {
    for (front, count, back, want) in &LONG_TEXTS {
        let mut source = Vec::new(rt.alloc());
        source.extend_from_slice(front)?;
        for _ in 0..*count {
            source.push(b'a')?;
        }
        source.extend_from_slice(back)?;
        let got = told(rt.alloc(), &source)?;
        let refused = if got.len() > 256 { b"" } else { got.as_bytes() };
        assert!(rt; refused == *want, "{got}");
    }
    Ok(())
}

#[test]
fn knows_keywords(rt: HostRuntime) -> Result<(), test::Fail> {
    for word in &KEYWORDS.words {
        let mut source = String::from_str(rt.alloc(), "//@ ")?;
        source.push_str(str::from_utf8(word).ok().ok_or("text")?)?;
        let got = told(rt.alloc(), source.as_bytes())?;
        let mut plain = String::from_str(rt.alloc(), "'")?;
        for c in source.as_str().chars().skip(4) {
            if c != '_' {
                plain.push(c)?;
            }
        }
        assert!(rt; got.as_str().eq_ignore_ascii_case(plain.as_str()), "{got}");
    }
    Ok(())
}

/// Each row is a source, and what its first token writes.
static NUMBERS: [(&[u8], u64, bool); 6] = [
    (b"7", 7, false),
    (b"7L", 7, true),
    (b"2147483648", 2_147_483_648, false),
    (b"2147483648l", 2_147_483_648, true),
    (b"9223372036854775808L", 9_223_372_036_854_775_808, true),
    (b"\"7\"", 0, false),
];

#[test]
fn tells_numbers(rt: HostRuntime) -> Result<(), test::Fail> {
    for (source, value, is_long) in NUMBERS {
        let number = lex(rt.alloc(), source)?.number(0);
        assert_eq!(rt; number, Number { value, is_long });
    }
    Ok(())
}

#[test]
fn gives_places(rt: HostRuntime) -> Result<(), test::Fail> {
    let tokens = lex(rt.alloc(), b"ab \"c\\n\"\n//@ 12 ")?;
    assert_eq!(rt; tokens.len(), 3);
    assert_eq!(rt; tokens.span(0), Span { start: 0, end: 2 });
    assert_eq!(rt; tokens.span(1), Span { start: 3, end: 8 });
    assert_eq!(rt; tokens.text(1), b"c\n".as_slice());
    assert_eq!(rt; tokens.span(2), Span { start: 13, end: 15 });
    assert_eq!(rt;
        tokens.number(2),
        Number {
            value: 12,
            is_long: false
        }
    );
    assert!(rt; tokens.is_jml(2) && !tokens.is_jml(1));
    assert_eq!(rt; tokens.end(), 15);
    assert_eq!(rt; tokens.kind(3), Kind::End);
    assert_eq!(rt; tokens.span(3), Span { start: 15, end: 15 });
    assert_eq!(rt; tokens.text(3), b"".as_slice());
    assert_eq!(rt; lex(rt.alloc(), b"// x")?.end(), 0);
    Ok(())
}
