use super::*;
use jr_ast::{ElementType, TypeName};
use jr_base::{Fail, Refusal};
use jr_lexer::lex;
use std::alloc::Global;
use std::fmt::Write;
use std::process::Abort;
use std::test;

fn tell_element(out: &mut String, element: &ElementType) -> Result<(), test::Fail> {
    match element {
        ElementType::Int => out.push_str("int")?,
        ElementType::Long => out.push_str("long")?,
        ElementType::Boolean => out.push_str("boolean")?,
        ElementType::Class(name) => {
            if let Ok(text) = str::from_utf8(name.text.as_slice()) {
                out.push_str(text)?;
            }
        }
    }
    Ok(())
}

fn tell_type(out: &mut String, type_name: &TypeName) -> Result<(), test::Fail> {
    match type_name {
        TypeName::Single(element) => tell_element(out, element),
        TypeName::ArrayOf(element) => {
            tell_element(out, element)?;
            out.push_str("[]")?;
            Ok(())
        }
    }
}

fn tell_refused(out: &mut String, fail: Fail) -> Result<(), test::Fail> {
    match fail {
        Fail::Refused(Refusal::NotInProfile(span)) => write!(out, "NotInProfile {}", span.start)?,
        Fail::Refused(Refusal::Syntax(span)) => write!(out, "Syntax {}", span.start)?,
        _ => out.push_str("another")?,
    }
    Ok(())
}

/// The type that stands first in a text, and the index behind it, or the refusal and the byte at which it stands.
fn told(alloc: Global, text: &[u8], jml: bool) -> Result<String, test::Fail> {
    let mut out = String::new(alloc);
    if text.len() > 1_048_576 {
        return Ok(out);
    }
    let tokens = lex(alloc, text)?;
    let view = View {
        tokens: &tokens,
        jml,
    };
    match view.type_name(alloc, 0) {
        Err(fail) => tell_refused(&mut out, fail)?,
        Ok((type_name, behind)) => {
            tell_type(&mut out, &type_name)?;
            write!(out, " {behind}")?;
        }
    }
    Ok(out)
}

/// A text, whether annotations are read, and what `told` says.
static TYPES: [(&[u8], bool, &[u8]); 10] = [
    (b"int x", false, b"int 1"),
    (b"long[] x", false, b"long[] 3"),
    (b"boolean", false, b"boolean 1"),
    (b"A[]", false, b"A[] 3"),
    (b"int[ x", false, b"int 1"),
    (b"float x", false, b"NotInProfile 0"),
    (b"1", false, b"Syntax 0"),
    (b"", false, b"Syntax 0"),
    (b"//@ A", false, b"Syntax 4"),
    (b"//@ A", true, b"A 1"),
];

#[test]
fn reads_types(rt: HostRuntime) -> Result<(), test::Fail> {
    for (text, jml, want) in &TYPES {
        let got = told(rt.alloc(), text, *jml)?;
        assert!(rt; got.as_bytes() == *want, "{got}");
    }
    Ok(())
}
