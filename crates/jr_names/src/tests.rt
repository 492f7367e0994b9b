use super::*;
use jr_ast::{
    Class, ElementType, Field, FieldDeclarator, Formal, Member, Method, MethodKind, Modifier,
    ModifierKind, Name, TypeName,
};
use jr_base::{ClassId, Elem, Fault, FieldId, Memory, MethodId, Span};
use jr_typing_rules::{FieldEntry, ValueType};
use sqlite_items::Items;
use std::process::Abort;

// Sources are told in words: classes stand between `/`, the members of a class between `;` behind its name, and the
// words of a member between blanks. `fields int x y` are fields, `statics ..` static ones, `method int f int x` is a
// method, `function ..` a static one, `maker A int x` a constructor, and `main` the method where a program begins. The
// word behind `!` stands at the place `MARKED`, each other one at 0.

const MARKED: Span = Span { start: 1, end: 2 };

const ELSEWHERE: Span = Span { start: 0, end: 0 };

const DUPLICATE: Option<Refusal> = Some(Refusal::Duplicate(MARKED));

const UNKNOWN: Option<Refusal> = Some(Refusal::Unknown(MARKED));

const NO_MAIN: Option<Refusal> = Some(Refusal::NoMain);

fn name(alloc: Global, word: &[u8]) -> Result<Name, Memory> {
    match word.strip_prefix(b"!".as_slice()) {
        Some(text) => Name::new(alloc, text, MARKED),
        None => Name::new(alloc, word, ELSEWHERE),
    }
}

fn element_type(alloc: Global, word: &[u8]) -> Result<ElementType, Memory> {
    if word == b"int".as_slice() {
        return Ok(ElementType::Int);
    }
    if word == b"long".as_slice() {
        return Ok(ElementType::Long);
    }
    Ok(ElementType::Class(name(alloc, word)?))
}

fn type_name(alloc: Global, word: &[u8]) -> Result<TypeName, Memory> {
    match word.strip_suffix(b"[]".as_slice()) {
        Some(of) => Ok(TypeName::ArrayOf(element_type(alloc, of)?)),
        None => Ok(TypeName::Single(element_type(alloc, word)?)),
    }
}

fn modifiers(alloc: Global, is_static: bool) -> Result<Items<Modifier>, Memory> {
    let mut all = Items::new(alloc);
    if is_static {
        all.push(Modifier {
            place: MARKED,
            kind: ModifierKind::Static,
        })?;
    }
    Ok(all)
}

fn fields(alloc: Global, is_static: bool, of: &[u8], names: &[&[u8]]) -> Result<Member, Memory> {
    let mut declarators = Items::new(alloc);
    for word in names {
        declarators.push(FieldDeclarator {
            name: name(alloc, word)?,
            constant: None,
        })?;
    }
    Ok(Member::Field(Field {
        place: MARKED,
        modifiers: modifiers(alloc, is_static)?,
        type_name: type_name(alloc, of)?,
        declarators,
    }))
}

fn formals(alloc: Global, words: &[&[u8]]) -> Result<Items<Formal>, Memory> {
    let mut all = Items::new(alloc);
    for pair in words.chunks_exact(2) {
        all.push(Formal {
            modifiers: Items::new(alloc),
            type_name: type_name(alloc, pair[0])?,
            name: name(alloc, pair[1])?,
        })?;
    }
    Ok(all)
}

fn method(
    alloc: Global,
    is_static: bool,
    kind: MethodKind,
    word: &[u8],
    words: &[&[u8]],
) -> Result<Member, Memory> {
    Ok(Member::Method(Method {
        place: MARKED,
        clauses: Items::new(alloc),
        modifiers: modifiers(alloc, is_static)?,
        kind,
        name: name(alloc, word)?,
        formals: formals(alloc, words)?,
        body: Items::new(alloc),
    }))
}

fn method_kind(alloc: Global, of: &[u8]) -> Result<MethodKind, Memory> {
    if of == b"void".as_slice() {
        return Ok(MethodKind::Void);
    }
    Ok(MethodKind::Valued(type_name(alloc, of)?))
}

fn member(alloc: Global, text: &[u8]) -> Result<Member, Memory> {
    let written = if text == b"main".as_slice() {
        b"function void !main !String[] a".as_slice()
    } else {
        text
    };
    let mut words = Vec::new(alloc);
    for word in written.split(|byte| *byte == b' ') {
        words.push(word)?;
    }
    match words.as_slice() {
        [first, of, names @ ..] if *first == b"fields".as_slice() => {
            fields(alloc, false, of, names)
        }
        [first, of, names @ ..] if *first == b"statics".as_slice() => {
            fields(alloc, true, of, names)
        }
        [first, of, name, formals @ ..] if *first == b"method".as_slice() => {
            method(alloc, false, method_kind(alloc, of)?, name, formals)
        }
        [first, of, name, formals @ ..] if *first == b"function".as_slice() => {
            method(alloc, true, method_kind(alloc, of)?, name, formals)
        }
        [_, name, formals @ ..] => { method(alloc, false, MethodKind::Constructor, name, formals) }
        _ => Ok(Member::Empty),
    }
}

fn class(alloc: Global, text: &[u8]) -> Result<Class, Memory> {
    let mut members = Items::new(alloc);
    let mut parts = text.split(|byte| *byte == b';');
    let head = parts.next().unwrap_or(text);
    for part in parts {
        members.push(member(alloc, part)?)?;
    }
    let of_thread = head.strip_prefix(b"thread ".as_slice());
    Ok(Class {
        place: MARKED,
        modifiers: Items::new(alloc),
        name: name(alloc, of_thread.unwrap_or(head))?,
        extends_thread: of_thread.is_some(),
        implements_runnable: false,
        members,
    })
}

fn unit(alloc: Global, text: &[u8]) -> Result<Unit, Memory> {
    let mut classes = Items::new(alloc);
    for part in text.split(|byte| *byte == b'/') {
        classes.push(class(alloc, part)?)?;
    }
    Ok(Unit { classes })
}

/// What refuses a source, if anything does.
fn refusal(alloc: Global, text: &[u8]) -> Result<Option<Refusal>, Memory> {
    let unit = unit(alloc, text)?;
    match resolve(alloc, &unit) {
        Ok(_) => Ok(None),
        Err(Fail::Refused(refusal)) => Ok(Some(refusal)),
        Err(Fail::Memory) => Err(Memory),
    }
}

fn check(rt: &impl Abort, alloc: Global, rows: &[(&[u8], Option<Refusal>)]) {
    for (place, (text, want)) in rows.iter().enumerate() {
        match refusal(alloc, text) {
            Ok(is) => assert_eq!(rt; is, *want, "row {place}"),
            Err(Memory) => assert!(rt; false, "no memory"),
        }
    }
}

#[test]
fn refuses_what_is_taken(rt: HostRuntime) {
    check(
        &rt,
        rt.alloc(),
        &[
            // Classes.
            (b"A;main/!A", DUPLICATE),
            (b"A;main/B/!B;fields C x", DUPLICATE),
            (b"A;main/B/a", None),
            (b"A;main/!Object", DUPLICATE),
            (b"A;main/!Thread", DUPLICATE),
            (b"A;main/!Runnable", DUPLICATE),
            (b"A;main/!String", DUPLICATE),
            (b"A;main/!System", DUPLICATE),
            (b"A;main/!Exception", DUPLICATE),
            (b"A;main/!IllegalThreadStateException", DUPLICATE),
            (b"A;main/Objects/Error", None),
            // Fields, static or not.
            (b"A;main;fields int x;statics int !x", DUPLICATE),
            (b"A;main;fields long x y !x", DUPLICATE),
            (b"A;main;fields int x/B;fields int x", None),
            // Methods, whatever their formals and results are.
            (b"A;main;method void f;function int !f int x", DUPLICATE),
            (b"A;main;method void f;fields int f/B;method void f", None),
            // Constructors.
            (b"A;main;maker A;maker !A int x", DUPLICATE),
            (b"A;main;maker A int x;", None),
            // Methods of the library.
            (b"A;main;method void !wait", DUPLICATE),
            (b"A;main;method int !notify", DUPLICATE),
            (b"A;main;function int !notifyAll", DUPLICATE),
            (
                b"A;main/thread B;method void run;method void !start",
                DUPLICATE,
            ),
            (b"A;main/thread B;method void !join", DUPLICATE),
            (
                b"A;main;method void start;method void join;fields int wait",
                None,
            ),
            // Formals.
            (b"A;main;method int f int x long !x", DUPLICATE),
            (b"A;main;maker A int x int y int !y", DUPLICATE),
            (b"A;main;fields int x;method int f int x int y", None),
        ],
    );
}

#[test]
fn refuses_what_is_not_declared(rt: HostRuntime) {
    check(
        &rt,
        rt.alloc(),
        &[
            (b"A;main;fields !B x", UNKNOWN),
            (b"A;main;fields B x/B", None),
            (b"A;main;method !B[] f", UNKNOWN),
            (b"A;main;method B[] f/B", None),
            (b"A;main;method int f !B x", UNKNOWN),
            (b"A;main;maker A !B[] x", UNKNOWN),
            (b"B/A;main;maker A B[] x;method int f B x", None),
            (b"A;main;fields !String x", UNKNOWN),
            (b"A;main;fields !Exception[] x", UNKNOWN),
            (
                b"A;main;fields Object x;fields Thread[] t;fields Runnable r",
                None,
            ),
            // What stands first decides.
            (b"A;main;fields !B x/A", UNKNOWN),
            // `main`, of which the first alone takes strings.
            (b"A", NO_MAIN),
            (b"A;function void main", NO_MAIN),
            (b"A;function void main int a", NO_MAIN),
            (b"A;method void main !String[] a", UNKNOWN),
            (b"A;function int main !String[] a", UNKNOWN),
            (b"A;function void main !String a", UNKNOWN),
            (b"A;function void Main !String[] a", UNKNOWN),
            (b"A;main", None),
            (b"A;main/B;main", UNKNOWN),
            (b"A;main;main", DUPLICATE),
            // It is looked for behind all else.
            (b"A/!A", DUPLICATE),
        ],
    );
}

#[test]
fn gives_the_names(rt: HostRuntime) {
    let text =
        b"A;main/thread W;fields A own;statics int s t;fields W[] all;maker W long n;method int get";
    let Ok(unit) = unit(rt.alloc(), text) else {
        assert!(rt; false, "no memory");
        return;
    };
    let Ok(names) = resolve(rt.alloc(), &unit) else {
        assert!(rt; false, "no names");
        return;
    };
    let worker = ClassId(1);
    let is_worker = ValueType::Single(Elem::Class(worker));
    let is_thread = ValueType::Single(Elem::Thread);
    assert_eq!(rt; names.main(), MethodId(0));
    assert_eq!(rt; names.class_named(b"W"), Some(worker));
    assert_eq!(rt; names.class_named(b"Object"), None);
    let all = FieldEntry {
        number: FieldId(3),
        class: worker,
        is_static: false,
        slot: 1,
        of: ValueType::ArrayOf(Elem::Class(worker)),
    };
    assert_eq!(rt; names.field_in(worker, b"all"), Some(all));
    assert_eq!(rt; names.field_in(ClassId(2), b"all"), None);
    match (names.method_in(worker, b"get"), names.constructor(worker)) {
        (Some(get), Some(maker)) => {
            assert_eq!(rt; (get.number, maker.number), (MethodId(2), MethodId(1)));
            assert_eq!(rt; (get.formals.len(), maker.formals.len()), (0, 1));
        }
        _ => assert!(rt; false, "no methods"),
    }
    assert!(rt; names.is_thread(is_worker) && !names.is_runnable(is_worker));
    assert!(rt; names.is_assignable(is_worker, is_thread));
    assert!(rt; !names.is_assignable(is_thread, is_worker));
    assert_eq!(rt;
        names.type_of(&TypeName::Single(ElementType::Long)),
        Ok(ValueType::Single(Elem::Long))
    );
    assert_eq!(rt; fault_named(b"Exception"), Some(Fault::Exception));
}

/// How many types formals have, or what refuses them.
fn types_of_formals(alloc: Global, is_main: bool, words: &[&[u8]]) -> Result<usize, Fail> {
    let unit = unit(alloc, b"A;main")?;
    let names = resolve(alloc, &unit)?;
    let formals = formals(alloc, words)?;
    Ok(
        names
            .formal_types(alloc, is_main, formals.as_slice())?
            .len(),
    )
}

#[test]
fn gives_the_types_of_headings(rt: HostRuntime) {
    let alloc = rt.alloc();
    let rows = [
        (false, [b"int".as_slice(), b"x", b"A[]", b"y"], Ok(2)),
        (true, [b"String[]".as_slice(), b"x", b"int", b"y"], Ok(0)),
        (
            false,
            [b"String[]".as_slice(), b"x", b"!B", b"y"],
            Err(Fail::Refused(Refusal::Unknown(ELSEWHERE))),
        ),
        (
            false,
            [b"int".as_slice(), b"x", b"int", b"!x"],
            Err(Fail::Refused(Refusal::Duplicate(MARKED))),
        ),
    ];
    for (is_main, words, want) in rows {
        assert_eq!(rt; types_of_formals(alloc, is_main, words.as_slice()), want);
    }
    let unit = unit(alloc, b"A;main").expect(&rt, "memory");
    let names = resolve(alloc, &unit).expect(&rt, "names");
    let long = TypeName::Single(ElementType::Long);
    assert_eq!(rt;
        names.result_type(&MethodKind::Valued(long)),
        Ok(Some(ValueType::Single(Elem::Long)))
    );
    assert_eq!(rt; names.result_type(&MethodKind::Void), Ok(None));
}
