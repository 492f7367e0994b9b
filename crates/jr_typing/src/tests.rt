use crate::expression::value;
use crate::scope::{Scope, Variable};
use jr_ast::{
    AssignOp, Class, ElementType, Expr, Field, FieldDeclarator, Formal, Infix, IntegerLiteral,
    Member, Method, MethodKind, Modifier, ModifierKind, Name, Postfix, Prefix, Shape, Suffix,
    TypeName, Unit,
};
use jr_base::{ClassId, Elem, Fail, Memory, Refusal, Span};
use jr_names::{Names, resolve};
use jr_typing_rules::{ValueType, VariableKind};
use sqlite_items::Items;
use std::alloc::Global;

fn at(start: u32) -> Span {
    Span { start, end: start }
}

fn name(alloc: Global, text: &[u8], place: u32) -> Result<Name, Memory> {
    Name::new(alloc, text, at(place))
}

fn of_class(alloc: Global, text: &[u8]) -> Result<TypeName, Memory> {
    Ok(TypeName::Single(ElementType::Class(name(alloc, text, 0)?)))
}

fn modifiers(alloc: Global, is_static: bool) -> Result<Items<Modifier>, Memory> {
    let mut all = Items::new(alloc);
    if is_static {
        all.push(Modifier {
            place: at(0),
            kind: ModifierKind::Static,
        })?;
    }
    Ok(all)
}

fn field(
    alloc: Global,
    is_static: bool,
    type_name: TypeName,
    text: &[u8],
) -> Result<Member, Memory> {
    let mut declarators = Items::new(alloc);
    declarators.push(FieldDeclarator {
        name: name(alloc, text, 0)?,
        constant: None,
    })?;
    Ok(Member::Field(Field {
        place: at(0),
        modifiers: modifiers(alloc, is_static)?,
        type_name,
        declarators,
    }))
}

fn method(
    alloc: Global,
    is_static: bool,
    kind: MethodKind,
    text: &[u8],
    formal: Option<TypeName>,
) -> Result<Member, Memory> {
    let mut formals = Items::new(alloc);
    if let Some(type_name) = formal {
        formals.push(Formal {
            modifiers: Items::new(alloc),
            type_name,
            name: name(alloc, b"p", 0)?,
        })?;
    }
    Ok(Member::Method(Method {
        place: at(0),
        clauses: Items::new(alloc),
        modifiers: modifiers(alloc, is_static)?,
        kind,
        name: name(alloc, text, 0)?,
        formals,
        body: Items::new(alloc),
    }))
}

fn class(
    alloc: Global,
    text: &[u8],
    extends_thread: bool,
    members: Items<Member>,
) -> Result<Class, Memory> {
    Ok(Class {
        place: at(0),
        modifiers: Items::new(alloc),
        name: name(alloc, text, 0)?,
        extends_thread,
        implements_runnable: false,
        members,
    })
}

/// `class C { int i; static long l; boolean b; C f; int[] a; int m(int p); void v(); static int g(); static void
/// main(String[] p); } class T extends Thread { }`.
fn unit(alloc: Global) -> Result<Unit, Memory> {
    let mut members = Items::new(alloc);
    members.push(field(alloc, false, TypeName::Single(ElementType::Int), b"i")?)?;
    members.push(field(alloc, true, TypeName::Single(ElementType::Long), b"l")?)?;
    members.push(field(alloc, false, TypeName::Single(ElementType::Boolean), b"b")?)?;
    members.push(field(alloc, false, of_class(alloc, b"C")?, b"f")?)?;
    members.push(field(alloc, false, TypeName::ArrayOf(ElementType::Int), b"a")?)?;
    let int = TypeName::Single(ElementType::Int);
    members.push(method(
        alloc,
        false,
        MethodKind::Valued(int),
        b"m",
        Some(TypeName::Single(ElementType::Int)),
    )?)?;
    members.push(method(alloc, false, MethodKind::Void, b"v", None)?)?;
    members.push(method(
        alloc,
        true,
        MethodKind::Valued(TypeName::Single(ElementType::Int)),
        b"g",
        None,
    )?)?;
    let strings = TypeName::ArrayOf(ElementType::Class(name(alloc, b"String", 0)?));
    members.push(method(alloc, true, MethodKind::Void, b"main", Some(strings))?)?;
    let mut classes = Items::new(alloc);
    classes.push(class(alloc, b"C", false, members)?)?;
    classes.push(class(alloc, b"T", true, Items::new(alloc))?)?;
    Ok(Unit { classes })
}

/// Expressions of a source whose operators stand behind their operands: one letter a token, whose place it is.
#[derive(Drop)]
struct Reader {
    alloc: Global,
    made: Vec<Expr>,
}

impl Reader {
    fn pop(&mut self) -> Result<Expr, Memory> {
        self.made.pop().ok_or(Memory)
    }

    fn push(&mut self, place: Span, shape: Shape) -> Result<(), Memory> {
        let expr = Expr::new(self.alloc, place, shape)?;
        self.made.push(expr)?;
        Ok(())
    }

    fn infix(&mut self, operator: Infix) -> Result<(), Memory> {
        let right = self.pop()?;
        let left = self.pop()?;
        self.push(left.place, Shape::Infix(operator, left, right))
    }

    fn assign(&mut self, operator: AssignOp) -> Result<(), Memory> {
        let right = self.pop()?;
        let left = self.pop()?;
        self.push(left.place, Shape::Assignment(operator, left, right))
    }

    fn prefix(&mut self, operator: Prefix, place: u32) -> Result<(), Memory> {
        let operand = self.pop()?;
        self.push(at(place), Shape::Prefix(operator, operand))
    }

    fn suffix(&mut self, suffix: Suffix) -> Result<(), Memory> {
        let before = self.pop()?;
        let mut suffixes = Items::new(self.alloc);
        suffixes.push(suffix)?;
        self.push(before.place, Shape::Suffixed(before.shape, suffixes))
    }

    fn arguments(&mut self, count: u8) -> Result<Items<Expr>, Memory> {
        let mut all = Items::new(self.alloc);
        if count > 0 {
            all.push(self.pop()?)?;
        }
        Ok(all)
    }

    /// A token, with the letter behind it, which some of them read as a name.
    fn read(&mut self, token: u8, letter: &[u8], place: u32) -> Result<(), Memory> {
        let here = at(place);
        let named = name(self.alloc, letter, place)?;
        match token {
            b'5' => self.push(
                here,
                Shape::Integer(IntegerLiteral {
                    number: 5,
                    is_long: false,
                }),
            ),
            b'6' => self.push(
                here,
                Shape::Integer(IntegerLiteral {
                    number: 6,
                    is_long: true,
                }),
            ),
            b'8' => {
                let number = 2_147_483_648;
                self.push(
                    here,
                    Shape::Integer(IntegerLiteral {
                        number,
                        is_long: false,
                    }),
                )
            }
            b'0' => self.push(here, Shape::Null),
            b'1' => self.push(here, Shape::Boolean(true)),
            b't' => self.push(here, Shape::This),
            b'_' => self.push(here, Shape::SimpleName(named)),
            b'#' => self.push(here, Shape::ClassLiteral(named)),
            b'$' => self.push(here, Shape::Result),
            b'(' => {
                let inner = self.pop()?;
                self.push(here, Shape::Brackets(inner))
            }
            b'.' => self.suffix(Suffix::Field(named)),
            b'c' => self.suffix(Suffix::Invocation(named, Items::new(self.alloc))),
            b'd' => {
                let all = self.arguments(1)?;
                self.suffix(Suffix::Invocation(named, all))
            }
            b'[' => {
                let index = self.pop()?;
                self.suffix(Suffix::Index(index))
            }
            b'k' => self.push(here, Shape::Call(named, Items::new(self.alloc))),
            b'K' => {
                let all = self.arguments(1)?;
                self.push(here, Shape::Call(named, all))
            }
            b'n' => self.push(here, Shape::NewObject(named, Items::new(self.alloc))),
            b'N' => {
                let all = self.arguments(1)?;
                self.push(here, Shape::NewObject(named, all))
            }
            b'w' => {
                let size = self.pop()?;
                self.push(here, Shape::NewArray(ElementType::Int, size))
            }
            b'-' => self.prefix(Prefix::Negate, place),
            b'!' => self.prefix(Prefix::Not, place),
            b'~' => self.prefix(Prefix::Complement, place),
            b'p' => self.prefix(Prefix::Increment, place),
            b'q' => {
                let operand = self.pop()?;
                self.push(operand.place, Shape::Postfix(Postfix::Decrement, operand))
            }
            b'+' => self.infix(Infix::Add),
            b'<' => self.infix(Infix::Less),
            b'>' => self.infix(Infix::ShiftRight),
            b'&' => self.infix(Infix::BitAnd),
            b'A' => self.infix(Infix::And),
            b'=' => self.infix(Infix::Equal),
            b'I' => self.infix(Infix::Implies),
            b':' => self.assign(AssignOp::Assign),
            b';' => self.assign(AssignOp::Add),
            b'?' => {
                let other = self.pop()?;
                let one = self.pop()?;
                let condition = self.pop()?;
                self.push(condition.place, Shape::Conditional(condition, one, other))
            }
            _ => Ok(()),
        }
    }
}

/// The name that a letter stands for.
fn spelled(letter: &[u8]) -> &[u8] {
    match letter {
        b"G" => b"length",
        b"H" => b"Thread",
        b"M" => b"main",
        b"P" => b"print",
        b"Q" => b"System",
        b"R" => b"Runnable",
        b"S" => b"start",
        b"U" => b"out",
        b"W" => b"wait",
        _ => letter,
    }
}

fn expr_of(alloc: Global, source: &[u8]) -> Result<Expr, Memory> {
    let mut reader = Reader {
        alloc,
        made: Vec::new(alloc),
    };
    for (place, token) in source.iter().enumerate() {
        let letter = match source.get(place..) {
            Some([_, letter, ..]) => *letter,
            _ => b' ',
        };
        reader.read(
            *token,
            spelled(&[letter]),
            place.min(u32::MAX as usize) as u32,
        )?;
    }
    reader.pop()
}

/// The type of a source's value, in a method of the class C with a variable x, a catch variable e and the formal y of main.
fn typed(
    alloc: Global,
    names: &Names<'_>,
    is_static: bool,
    source: &[u8],
) -> Result<ValueType, Fail> {
    let variables = [
        Variable {
            name: b"x".as_slice(),
            kind: VariableKind::Local(ValueType::Single(Elem::Int), 0),
        },
        Variable {
            name: b"e".as_slice(),
            kind: VariableKind::Caught(1),
        },
        Variable {
            name: b"y".as_slice(),
            kind: VariableKind::Arguments,
        },
    ];
    let scope = Scope {
        names,
        own: ClassId(0),
        is_static,
        variables: variables.as_slice(),
    };
    let expr = expr_of(alloc, source)?;
    Ok(value(alloc, &scope, &expr)?.of)
}

#[test]
fn types_expressions(rt: HostRuntime) {
    let alloc = rt.alloc();
    let unit = unit(alloc).expect(&rt, "memory");
    let names = resolve(alloc, &unit).expect(&rt, "names");
    let int = ValueType::Single(Elem::Int);
    let long = ValueType::Single(Elem::Long);
    let boolean = ValueType::Single(Elem::Bool);
    let rows = [
        (b"_i5+".as_slice(), int),
        (b"_l5+".as_slice(), long),
        (b"6_i<".as_slice(), boolean),
        (b"_b1&".as_slice(), boolean),
        (b"11A".as_slice(), boolean),
        (b"5_l>".as_slice(), int),
        (b"_x5:".as_slice(), int),
        (b"_l5:".as_slice(), long),
        (b"_i6;".as_slice(), int),
        (b"_xq".as_slice(), int),
        (b"_x(p".as_slice(), int),
        (b"8-".as_slice(), int),
        (b"_f.f.i".as_slice(), int),
        (b"_a.G".as_slice(), int),
        (b"_a5[".as_slice(), int),
        (b"_C.l".as_slice(), long),
        (b"5w".as_slice(), ValueType::ArrayOf(Elem::Int)),
        (b"#C".as_slice(), ValueType::Single(Elem::Object)),
        (b"nC".as_slice(), ValueType::Single(Elem::Class(ClassId(0)))),
        (b"0NH".as_slice(), ValueType::Single(Elem::Thread)),
        (b"5Km".as_slice(), int),
        (b"_f5dm".as_slice(), int),
        (b"_Ccg".as_slice(), int),
        (b"1_i_l?".as_slice(), long),
        (b"_f0=".as_slice(), boolean),
        (b"t_f=".as_slice(), boolean),
    ];
    for (source, of) in rows {
        assert_eq!(rt; typed(alloc, &names, false, source), Ok(of));
    }
}

#[test]
fn refuses_expressions(rt: HostRuntime) {
    let alloc = rt.alloc();
    let unit = unit(alloc).expect(&rt, "memory");
    let names = resolve(alloc, &unit).expect(&rt, "names");
    let rows = [
        (b"5_b+".as_slice(), Refusal::Mismatch(at(0))),
        (b"5!".as_slice(), Refusal::Mismatch(at(1))),
        (b"1-".as_slice(), Refusal::Mismatch(at(1))),
        (b"1~".as_slice(), Refusal::Mismatch(at(1))),
        (b"15A".as_slice(), Refusal::Mismatch(at(0))),
        (b"5p".as_slice(), Refusal::Mismatch(at(0))),
        (b"6w".as_slice(), Refusal::Mismatch(at(0))),
        (b"_x1:".as_slice(), Refusal::Mismatch(at(2))),
        (b"_i6:".as_slice(), Refusal::Mismatch(at(2))),
        (b"_i1;".as_slice(), Refusal::Mismatch(at(0))),
        (b"5_x:".as_slice(), Refusal::Mismatch(at(0))),
        (b"_a.G5:".as_slice(), Refusal::Mismatch(at(0))),
        (b"8".as_slice(), Refusal::BigLiteral(at(0))),
        (b"_z".as_slice(), Refusal::Unknown(at(0))),
        (b"_e".as_slice(), Refusal::Mismatch(at(0))),
        (b"_y".as_slice(), Refusal::NotInProfile(at(0))),
        (b"_f.z".as_slice(), Refusal::Unknown(at(2))),
        (b"_x.i".as_slice(), Refusal::Mismatch(at(0))),
        (b"_a.z".as_slice(), Refusal::Unknown(at(2))),
        (b"_f.l".as_slice(), Refusal::Mismatch(at(0))),
        (b"_C.i".as_slice(), Refusal::Mismatch(at(0))),
        (b"_C.z".as_slice(), Refusal::Unknown(at(2))),
        (b"_C".as_slice(), Refusal::Unknown(at(0))),
        (b"_Q.U".as_slice(), Refusal::Unknown(at(0))),
        (b"_Q.UcP".as_slice(), Refusal::NotInProfile(at(4))),
        (b"_x5[".as_slice(), Refusal::Mismatch(at(0))),
        (b"_a1[".as_slice(), Refusal::Mismatch(at(2))),
        (b"km".as_slice(), Refusal::Mismatch(at(0))),
        (b"1Km".as_slice(), Refusal::Mismatch(at(0))),
        (b"kz".as_slice(), Refusal::Unknown(at(0))),
        (b"_fcz".as_slice(), Refusal::Unknown(at(2))),
        (b"_fcg".as_slice(), Refusal::Mismatch(at(0))),
        (b"_Ccm".as_slice(), Refusal::Mismatch(at(0))),
        (b"_CcM".as_slice(), Refusal::Mismatch(at(0))),
        (b"kM".as_slice(), Refusal::Mismatch(at(0))),
        (b"kv".as_slice(), Refusal::Mismatch(at(0))),
        (b"_fcW".as_slice(), Refusal::Mismatch(at(0))),
        (b"_fcS".as_slice(), Refusal::Unknown(at(2))),
        (b"nR".as_slice(), Refusal::Mismatch(at(0))),
        (b"nz".as_slice(), Refusal::Unknown(at(0))),
        (b"5NC".as_slice(), Refusal::Mismatch(at(1))),
        (b"nTNH".as_slice(), Refusal::Mismatch(at(0))),
        (b"1_b_i?".as_slice(), Refusal::Mismatch(at(0))),
        (b"5_i_i?".as_slice(), Refusal::Mismatch(at(0))),
        (b"_f5=".as_slice(), Refusal::Mismatch(at(0))),
        (b"_fnT=".as_slice(), Refusal::Mismatch(at(0))),
        (b"1_bI".as_slice(), Refusal::NotHere(at(0))),
        (b"$".as_slice(), Refusal::NotHere(at(0))),
    ];
    for (source, refusal) in rows {
        assert_eq!(rt;
            typed(alloc, &names, false, source),
            Err(Fail::Refused(refusal))
        );
    }
}

#[test]
fn has_no_this_in_static_methods(rt: HostRuntime) {
    let alloc = rt.alloc();
    let unit = unit(alloc).expect(&rt, "memory");
    let names = resolve(alloc, &unit).expect(&rt, "names");
    let long = ValueType::Single(Elem::Long);
    let mismatch = Refusal::Mismatch;
    assert_eq!(rt; typed(alloc, &names, true, b"_l"), Ok(long));
    assert_eq!(rt;
        typed(alloc, &names, true, b"t"),
        Err(Fail::Refused(mismatch(at(0))))
    );
    assert_eq!(rt;
        typed(alloc, &names, true, b"_i"),
        Err(Fail::Refused(mismatch(at(0))))
    );
    assert_eq!(rt;
        typed(alloc, &names, true, b"5Km"),
        Err(Fail::Refused(mismatch(at(1))))
    );
    assert_eq!(rt;
        typed(alloc, &names, true, b"kW"),
        Err(Fail::Refused(mismatch(at(0))))
    );
}

/// `f.f.f..` of so many links, and a name at its end.
fn linked(alloc: Global, links: u32, last: &[u8]) -> Result<ValueType, Fail> {
    let unit = unit(alloc)?;
    let names = resolve(alloc, &unit)?;
    let mut suffixes = Items::new(alloc);
    for i in 0..links {
        suffixes.push(Suffix::Field(name(alloc, b"f", i)?))?;
    }
    suffixes.push(Suffix::Field(name(alloc, last, links)?))?;
    let expr = Expr::suffixed(alloc, at(0), Shape::This, suffixes)?;
    let scope = Scope {
        names: &names,
        own: ClassId(0),
        is_static: false,
        variables: &[],
    };
    Ok(value(alloc, &scope, &expr)?.of)
}

#[test]
fn types_long_chains(rt: HostRuntime) {
    let alloc = rt.alloc();
    assert_eq!(rt;
        linked(alloc, 100_000, b"i"),
        Ok(ValueType::Single(Elem::Int))
    );
    assert_eq!(rt;
        linked(alloc, 5, b"z"),
        Err(Fail::Refused(Refusal::Unknown(at(5))))
    );
}
