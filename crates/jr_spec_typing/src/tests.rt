use crate::{Quantified, Stand, states_boolean, states_reference};
use jr_arith::{Binary, Comparison, Unary};
use jr_ast::{
    AssignOp, Bound as SourceBound, Class, ElementType, Expr, Field, FieldDeclarator, Formal,
    Infix, IntegerLiteral, Member, Method, MethodKind, Modifier, ModifierKind, Name, Postfix,
    Prefix, QuantifiedExpr, Quantifier as SourceQuantifier, Shape, Suffix, TypeName, Unit,
};
use jr_base::{ClassId, Elem, Fail, Memory, Refusal, Span};
use jr_names::{Names, resolve};
use jr_program::{
    Bound, ClauseExpr, ClauseShape, ClauseSuffix, QuantifiedExpr as QuantifiedClause, Quantifier,
};
use jr_typing::{Scope, Variable};
use jr_typing_rules::{ValueType, VariableKind};
use sqlite_items::{Boxed, Items};
use std::alloc::Global;

const INT: ValueType = ValueType::Single(Elem::Int);

fn at(place: u32) -> Span {
    Span {
        start: place,
        end: place,
    }
}

fn name(alloc: Global, text: &[u8], place: u32) -> Result<Name, Memory> {
    Name::new(alloc, text, at(place))
}

fn modifiers(alloc: Global, is_static: bool) -> Result<Items<Modifier>, Memory> {
    let mut all = Items::new(alloc);
    if is_static {
        all.push(Modifier {
            place: at(0),
            kind: ModifierKind::Static,
        })?;
    }
    Ok(all)
}

fn field(alloc: Global, is_static: bool, of: TypeName, text: &[u8]) -> Result<Member, Memory> {
    let mut declarators = Items::new(alloc);
    declarators.push(FieldDeclarator {
        name: name(alloc, text, 0)?,
        constant: None,
    })?;
    Ok(Member::Field(Field {
        place: at(0),
        modifiers: modifiers(alloc, is_static)?,
        type_name: of,
        declarators,
    }))
}

fn main_method(alloc: Global) -> Result<Member, Memory> {
    let mut formals = Items::new(alloc);
    formals.push(Formal {
        modifiers: Items::new(alloc),
        type_name: TypeName::ArrayOf(ElementType::Class(name(alloc, b"String", 0)?)),
        name: name(alloc, b"args", 0)?,
    })?;
    Ok(Member::Method(Method {
        place: at(0),
        clauses: Items::new(alloc),
        modifiers: modifiers(alloc, true)?,
        kind: MethodKind::Void,
        name: name(alloc, b"main", 0)?,
        formals,
        body: Items::new(alloc),
    }))
}

fn class(alloc: Global, text: &[u8], members: Items<Member>) -> Result<Class, Memory> {
    Ok(Class {
        place: at(0),
        modifiers: Items::new(alloc),
        name: name(alloc, text, 0)?,
        extends_thread: false,
        implements_runnable: false,
        members,
    })
}

/// `class D { } class C { int i; static long l; boolean b; C f; int[] a; static void main(String[] args) }`: the fields
/// have the numbers 0 to 4, and those that aren't static the slots 0 to 3.
fn unit(alloc: Global) -> Result<Unit, Memory> {
    let own = TypeName::Single(ElementType::Class(name(alloc, b"C", 0)?));
    let mut members = Items::new(alloc);
    members.push(field(alloc, false, TypeName::Single(ElementType::Int), b"i")?)?;
    members.push(field(alloc, true, TypeName::Single(ElementType::Long), b"l")?)?;
    members.push(field(alloc, false, TypeName::Single(ElementType::Boolean), b"b")?)?;
    members.push(field(alloc, false, own, b"f")?)?;
    members.push(field(alloc, false, TypeName::ArrayOf(ElementType::Int), b"a")?)?;
    members.push(main_method(alloc)?)?;
    let mut classes = Items::new(alloc);
    classes.push(class(alloc, b"D", Items::new(alloc))?)?;
    classes.push(class(alloc, b"C", members)?)?;
    Ok(Unit { classes })
}

// Expressions are told in words, operators behind their operands. The place of a word is its number, and that of an
// expression the one of its first token in a source: an operator's between operands is the left operand's.

/// The expressions that are read so far.
#[derive(Drop)]
struct Reader {
    alloc: Global,
    made: Vec<Expr>,
}

impl Reader {
    fn pop(&mut self) -> Result<Expr, Memory> {
        self.made.pop().ok_or(Memory)
    }

    fn push(&mut self, place: Span, shape: Shape) -> Result<(), Memory> {
        let expr = Expr::new(self.alloc, place, shape)?;
        self.made.push(expr)?;
        Ok(())
    }

    fn integer(&mut self, place: u32, number: u64, is_long: bool) -> Result<(), Memory> {
        self.push(
            at(place),
            Shape::Integer(IntegerLiteral { number, is_long }),
        )
    }

    fn infix(&mut self, operator: Infix) -> Result<(), Memory> {
        let right = self.pop()?;
        let left = self.pop()?;
        self.push(left.place, Shape::Infix(operator, left, right))
    }

    fn prefix(&mut self, place: u32, operator: Prefix) -> Result<(), Memory> {
        let operand = self.pop()?;
        self.push(at(place), Shape::Prefix(operator, operand))
    }

    fn suffix(&mut self, suffix: Suffix) -> Result<(), Memory> {
        let before = self.pop()?;
        let mut suffixes = Items::new(self.alloc);
        suffixes.push(suffix)?;
        self.push(before.place, Shape::Suffixed(before.shape, suffixes))
    }

    /// A quantifier, whose low bound, high bound, one conjunct and body are read.
    fn quantified(
        &mut self,
        place: u32,
        kind: SourceQuantifier,
        text: &[u8],
    ) -> Result<(), Memory> {
        let body = self.pop()?;
        let mut conjuncts = Items::new(self.alloc);
        if matches!(kind, SourceQuantifier::Exists) {
            conjuncts.push(self.pop()?)?;
        }
        let high = self.pop()?;
        let low = self.pop()?;
        let whole = QuantifiedExpr {
            quantifier: kind,
            variable: name(self.alloc, text, place)?,
            low,
            low_bound: SourceBound::Inclusive,
            high,
            high_bound: SourceBound::Exclusive,
            conjuncts,
            body,
        };
        let whole = Boxed::new(self.alloc, whole)?;
        self.push(at(place), Shape::Quantified(whole))
    }

    fn read_leaf(&mut self, place: u32, word: &[u8]) -> Result<(), Memory> {
        match word {
            b"0" => self.integer(place, 0, false),
            b"5" => self.integer(place, 5, false),
            b"6L" => self.integer(place, 6, true),
            b"2147483648" => self.integer(place, 2_147_483_648, false),
            b"null" => self.push(at(place), Shape::Null),
            b"true" => self.push(at(place), Shape::Boolean(true)),
            b"this" => self.push(at(place), Shape::This),
            b"result" => self.push(at(place), Shape::Result),
            _ => self.read_named(place, word),
        }
    }

    fn read_named(&mut self, place: u32, word: &[u8]) -> Result<(), Memory> {
        let alloc = self.alloc;
        match word {
            [b'.', text @ ..] => self.suffix(Suffix::Field(name(alloc, text, place)?)),
            [b'@', text @ ..] => {
                let called = name(alloc, text, place)?;
                self.suffix(Suffix::Invocation(called, Items::new(alloc)))
            }
            [b'#', text @ ..] => {
                self.push(at(place), Shape::ClassLiteral(name(alloc, text, place)?))
            }
            [b'(', text @ ..] => {
                let called = name(alloc, text, place)?;
                self.push(at(place), Shape::Call(called, Items::new(alloc)))
            }
            [b'*', text @ ..] => {
                let made = name(alloc, text, place)?;
                self.push(at(place), Shape::NewObject(made, Items::new(alloc)))
            }
            [b'A', text @ ..] => self.quantified(place, SourceQuantifier::ForAll, text),
            [b'E', text @ ..] => self.quantified(place, SourceQuantifier::Exists, text),
            _ => self.push(at(place), Shape::SimpleName(name(alloc, word, place)?)),
        }
    }

    fn read_around(&mut self, place: u32, word: &[u8]) -> Result<(), Memory> {
        match word {
            b"()" => {
                let inner = self.pop()?;
                self.push(at(place), Shape::Brackets(inner))
            }
            b"old" => {
                let inner = self.pop()?;
                self.push(at(place), Shape::Old(inner))
            }
            b"has" => {
                let object = self.pop()?;
                self.push(at(place), Shape::InLockset(object))
            }
            b"new[]" => {
                let size = self.pop()?;
                self.push(at(place), Shape::NewArray(ElementType::Int, size))
            }
            b"--" => {
                let operand = self.pop()?;
                self.push(operand.place, Shape::Postfix(Postfix::Decrement, operand))
            }
            b"=" => {
                let right = self.pop()?;
                let left = self.pop()?;
                self.push(left.place, Shape::Assignment(AssignOp::Assign, left, right))
            }
            b"?" => {
                let other = self.pop()?;
                let one = self.pop()?;
                let condition = self.pop()?;
                self.push(condition.place, Shape::Conditional(condition, one, other))
            }
            b"[]" => {
                let index = self.pop()?;
                self.suffix(Suffix::Index(index))
            }
            _ => self.read_leaf(place, word),
        }
    }

    fn read(&mut self, place: u32, word: &[u8]) -> Result<(), Memory> {
        match word {
            b"+" => self.infix(Infix::Add),
            b"<" => self.infix(Infix::Less),
            b"==" => self.infix(Infix::Equal),
            b"&&" => self.infix(Infix::And),
            b"==>" => self.infix(Infix::Implies),
            b"<==" => self.infix(Infix::ImpliedBy),
            b"<==>" => self.infix(Infix::Equivalent),
            b"-" => self.prefix(place, Prefix::Negate),
            b"+_" => self.prefix(place, Prefix::Plus),
            b"!" => self.prefix(place, Prefix::Not),
            b"++" => self.prefix(place, Prefix::Increment),
            _ => self.read_around(place, word),
        }
    }
}

fn expr_of(alloc: Global, source: &[u8]) -> Result<Expr, Memory> {
    let mut reader = Reader {
        alloc,
        made: Vec::new(alloc),
    };
    for (place, word) in source.split(|byte| *byte == b' ').enumerate() {
        reader.read(place.min(u32::MAX as usize) as u32, word)?;
    }
    reader.pop()
}

fn put(out: &mut Vec<u8>, text: &[u8]) -> Result<(), Memory> {
    out.extend_from_slice(text)?;
    Ok(())
}

fn put_digit(out: &mut Vec<u8>, number: u32) -> Result<(), Memory> {
    out.push(b'0' + (number % 10) as u8)?;
    Ok(())
}

fn spelled(operator: Binary) -> &'static [u8] {
    match operator {
        Binary::Arithmetic(_, _) => b"+",
        Binary::Compare(Comparison::Less, _) => b"<",
        Binary::Compare(_, _) => b"==",
        Binary::Agree => b"<==>",
        Binary::SameReference => b"=",
        _ => b"other",
    }
}

/// What stands between two operands.
fn between(shape: &ClauseShape) -> &'static [u8] {
    match shape {
        ClauseShape::Binary(operator, _, _) => spelled(*operator),
        ClauseShape::And(_, _) => b"&&",
        ClauseShape::Or(_, _) => b"||",
        ClauseShape::Implies(_, _) => b"==>",
        _ => b"<==",
    }
}

/// What stands before one operand.
fn before(shape: &ClauseShape) -> &'static [u8] {
    match shape {
        ClauseShape::Convert(_, _) => b"long(",
        ClauseShape::Unary(Unary::Not, _) => b"!(",
        ClauseShape::Unary(_, _) => b"-(",
        ClauseShape::Old(_) => b"old(",
        _ => b"has(",
    }
}

fn show_leaf(shape: &ClauseShape, out: &mut Vec<u8>) -> Result<(), Memory> {
    match shape {
        ClauseShape::Int(n) => put_digit(out, n.unsigned_abs()),
        ClauseShape::Long(n) => {
            put_digit(out, (n.unsigned_abs() % 10) as u32)?;
            put(out, b"L")
        }
        ClauseShape::Truth(true) => put(out, b"true"),
        ClauseShape::Truth(false) => put(out, b"false"),
        ClauseShape::Null => put(out, b"null"),
        ClauseShape::This => put(out, b"this"),
        ClauseShape::Variable(n) => {
            put(out, b"variable")?;
            put_digit(out, *n)
        }
        ClauseShape::Bound(n) => {
            put(out, b"bound")?;
            put_digit(out, *n)
        }
        ClauseShape::Result => put(out, b"result"),
        ClauseShape::ClassObject(class) => {
            put(out, b"class")?;
            put_digit(out, class.0)
        }
        ClauseShape::StaticField(field, cell) => {
            put(out, b"static")?;
            put_digit(out, field.0)?;
            put(out, b"@")?;
            put_digit(out, cell.obj.0)?;
            put(out, b":")?;
            put_digit(out, cell.slot)
        }
        _ => put(out, b"other"),
    }
}

/// Writes an expression of the typed program: `.F:S` is the field F in the slot S, `staticF@O:S` the static field F in the
/// slot S of the object O.
#[cycle(show)]
fn show(expr: &ClauseExpr, out: &mut Vec<u8>) -> Result<(), Memory> {
    show_shape(expr.shape.get(), out)
}

#[cycle(show)]
fn show_shape(shape: &ClauseShape, out: &mut Vec<u8>) -> Result<(), Memory> {
    match shape {
        ClauseShape::Suffixed(primary, suffixes) => {
            show(primary, out)?;
            for suffix in suffixes.as_slice() {
                show_suffix(suffix, out)?;
            }
            Ok(())
        }
        ClauseShape::Convert(_, e)
        | ClauseShape::Unary(_, e)
        | ClauseShape::Old(e)
        | ClauseShape::InLockset(e) => {
            put(out, before(shape))?;
            show(e, out)?;
            put(out, b")")
        }
        ClauseShape::Binary(_, a, b)
        | ClauseShape::And(a, b)
        | ClauseShape::Or(a, b)
        | ClauseShape::Implies(a, b)
        | ClauseShape::ImpliedBy(a, b) => {
            put(out, b"(")?;
            show(a, out)?;
            put(out, between(shape))?;
            show(b, out)?;
            put(out, b")")
        }
        ClauseShape::Choice(c, a, b) => {
            put(out, b"(")?;
            show(c, out)?;
            put(out, b"?")?;
            show(a, out)?;
            put(out, b":")?;
            show(b, out)?;
            put(out, b")")
        }
        ClauseShape::Quantified(quantified) => show_quantified(quantified.get(), out),
        _ => show_leaf(shape, out),
    }
}

#[cycle(show)]
fn show_suffix(suffix: &ClauseSuffix, out: &mut Vec<u8>) -> Result<(), Memory> {
    match suffix {
        ClauseSuffix::Field(field, slot) => {
            put(out, b".")?;
            put_digit(out, field.0)?;
            put(out, b":")?;
            put_digit(out, *slot)
        }
        ClauseSuffix::Element(index) => {
            put(out, b"[")?;
            show(index, out)?;
            put(out, b"]")
        }
        ClauseSuffix::Length => put(out, b".length"),
    }
}

fn bound_sign(bound: Bound) -> &'static [u8] {
    match bound {
        Bound::Exclusive => b"<",
        Bound::Inclusive => b"<=",
    }
}

#[cycle(show)]
fn show_quantified(quantified: &QuantifiedClause, out: &mut Vec<u8>) -> Result<(), Memory> {
    match quantified.quantifier {
        Quantifier::ForAll => put(out, b"forall(")?,
        Quantifier::Exists => put(out, b"exists(")?,
    }
    show(&quantified.low, out)?;
    put(out, bound_sign(quantified.low_bound))?;
    put(out, bound_sign(quantified.high_bound))?;
    show(&quantified.high, out)?;
    put(out, b";")?;
    show(&quantified.conjuncts, out)?;
    put(out, b";")?;
    show(&quantified.body, out)?;
    put(out, b")")
}

/// Where a clause of C stands.
#[derive(Clone, Copy, Debug)]
enum Place {
    /// `requires`, with the variables x, an int, e of a catch, and args of `main`.
    Before,
    /// The same in a static method.
    Static,
    /// `ensures` of a method with an int result.
    Behind,
    /// `constraint`: no result, but `\old`.
    Between,
}

fn stated(
    alloc: Global,
    names: &Names<'_>,
    place: Place,
    is_reference: bool,
    source: &[u8],
) -> Result<Vec<u8>, Fail> {
    let variables = [
        Variable {
            name: b"x".as_slice(),
            kind: VariableKind::Local(INT, 0),
        },
        Variable {
            name: b"e".as_slice(),
            kind: VariableKind::Caught(1),
        },
        Variable {
            name: b"args".as_slice(),
            kind: VariableKind::Arguments,
        },
    ];
    let scope = Scope {
        names,
        own: ClassId(1),
        is_static: matches!(place, Place::Static),
        variables: variables.as_slice(),
    };
    let stand = Stand {
        scope,
        result: if matches!(place, Place::Behind) {
            Some(INT)
        } else {
            None
        },
        looks_back: matches!(place, Place::Behind | Place::Between),
        is_in_old: false,
        quantified: Quantified::Nothing,
    };
    let expr = expr_of(alloc, source)?;
    let typed = if is_reference {
        states_reference(alloc, &stand, &expr)?
    } else {
        states_boolean(alloc, &stand, &expr)?
    };
    let mut out = Vec::new(alloc);
    show(&typed, &mut out)?;
    Ok(out)
}

#[test]
fn states_conditions(rt: HostRuntime) {
    let alloc = rt.alloc();
    let unit = unit(alloc).expect(&rt, "memory");
    let names = resolve(alloc, &unit).expect(&rt, "names");
    let rows: [(Place, &[u8], &[u8]); 24] = [
        // Names, literals and what follows them.
        (Place::Before, b"i 5 <", b"(this.0:0<5)"),
        (
            Place::Before,
            b"this .f .i x ==",
            b"(this.3:2.0:0==variable0)",
        ),
        (
            Place::Before,
            b"f () .f .i x ==",
            b"(this.3:2.3:2.0:0==variable0)",
        ),
        (
            Place::Before,
            b"a x [] a .length <",
            b"(this.4:3[variable0]<this.4:3.length)",
        ),
        (Place::Static, b"l 6L <", b"(static1@2:0<6L)"),
        (Place::Static, b"C .l 5 <", b"(static1@2:0<long(5))"),
        (Place::Static, b"#C #D ==", b"(class1=class0)"),
        (Place::Before, b"null this ==", b"(null=this)"),
        // Operators.
        (Place::Before, b"2147483648 - i <", b"(8<this.0:0)"),
        (
            Place::Before,
            b"i - l +_ ==",
            b"(long(-(this.0:0))==static1@2:0)",
        ),
        (Place::Before, b"b ! b ==>", b"(!(this.2:1)==>this.2:1)"),
        (Place::Before, b"b true <==", b"(this.2:1<==true)"),
        (Place::Before, b"b true <==>", b"(this.2:1<==>true)"),
        (Place::Before, b"b true &&", b"(this.2:1&&true)"),
        (
            Place::Before,
            b"b i l ? 5 <",
            b"((this.2:1?long(this.0:0):static1@2:0)<long(5))",
        ),
        // What clauses alone have.
        (Place::Behind, b"result i old <", b"(result<old(this.0:0))"),
        (
            Place::Between,
            b"f old .i i <",
            b"(old(this.3:2).0:0<this.0:0)",
        ),
        (Place::Before, b"f has", b"has(this.3:2)"),
        (
            Place::Before,
            b"0 5 i 5 < Ai",
            b"forall(0<=<5;true;(bound0<5))",
        ),
        (
            Place::Before,
            b"0 x b b Ey",
            b"exists(0<=<variable0;this.2:1;this.2:1)",
        ),
        (
            Place::Before,
            b"0 5 0 y y z < a z [] y == Ez Ay",
            b"forall(0<=<5;true;exists(0<=<bound0;(bound1<bound0);(this.4:3[bound0]==bound1)))",
        ),
        // Quantifiers side by side are in no other.
        (
            Place::Before,
            b"0 5 b Ay 0 5 b Ay &&",
            b"(forall(0<=<5;true;this.2:1)&&forall(0<=<5;true;this.2:1))",
        ),
        (
            Place::Behind,
            b"0 5 i y == Ay old",
            b"old(forall(0<=<5;true;(this.0:0==bound0)))",
        ),
        (
            Place::Behind,
            b"0 5 i old y == Ay",
            b"forall(0<=<5;true;(old(this.0:0)==bound0))",
        ),
    ];
    for (place, source, want) in rows {
        match stated(alloc, &names, place, false, source) {
            Ok(is) => assert!(rt; is.as_slice() == want),
            Err(_) => assert!(rt; false, "refused"),
        }
    }
}

#[test]
fn refuses_conditions(rt: HostRuntime) {
    let alloc = rt.alloc();
    let unit = unit(alloc).expect(&rt, "memory");
    let names = resolve(alloc, &unit).expect(&rt, "names");
    let rows: [(Place, &[u8], Refusal); 39] = [
        // What may not stand there.
        (Place::Before, b"result 5 <", Refusal::NotHere(at(0))),
        (Place::Between, b"result 5 <", Refusal::NotHere(at(0))),
        (Place::Behind, b"result old 5 <", Refusal::NotHere(at(0))),
        (Place::Before, b"i old 5 <", Refusal::NotHere(at(1))),
        (Place::Behind, b"i old old 5 <", Refusal::NotHere(at(1))),
        (Place::Behind, b"f has old", Refusal::NotHere(at(1))),
        (Place::Static, b"this null ==", Refusal::NotHere(at(0))),
        (Place::Static, b"5 i <", Refusal::NotHere(at(1))),
        (
            Place::Before,
            b"0 5 0 5 0 5 true Az Ay Aw",
            Refusal::NotHere(at(7)),
        ),
        // Forms of code, whatever stands before them.
        (Place::Before, b"i ++ 5 <", Refusal::NotHere(at(1))),
        (Place::Before, b"z ++ 5 <", Refusal::NotHere(at(1))),
        (Place::Before, b"i -- 5 <", Refusal::NotHere(at(0))),
        (Place::Before, b"b true =", Refusal::NotHere(at(0))),
        (Place::Before, b"5 (m <", Refusal::NotHere(at(1))),
        (Place::Before, b"5 f @m <", Refusal::NotHere(at(1))),
        (Place::Before, b"5 z @m .i <", Refusal::NotHere(at(1))),
        (Place::Before, b"f *C ==", Refusal::NotHere(at(1))),
        (Place::Before, b"a 5 new[] ==", Refusal::NotHere(at(2))),
        // Names.
        (Place::Before, b"0 5 true Ax", Refusal::Duplicate(at(3))),
        (
            Place::Before,
            b"0 5 0 5 true Ay Ay",
            Refusal::Duplicate(at(5)),
        ),
        (Place::Before, b"z 5 true Ax", Refusal::Duplicate(at(3))),
        (Place::Before, b"0 y true Ay", Refusal::Unknown(at(1))),
        (Place::Before, b"z 5 <", Refusal::Unknown(at(0))),
        (Place::Before, b"5 f .z <", Refusal::Unknown(at(2))),
        (Place::Before, b"5 C <", Refusal::Unknown(at(1))),
        (Place::Before, b"5 C () <", Refusal::Unknown(at(1))),
        (Place::Before, b"5 System .out <", Refusal::Unknown(at(1))),
        (Place::Before, b"#Object null ==", Refusal::Unknown(at(0))),
        (Place::Before, b"5 e <", Refusal::Mismatch(at(1))),
        (Place::Before, b"5 args <", Refusal::NotInProfile(at(1))),
        // Types.
        (Place::Before, b"i 5 +", Refusal::Mismatch(at(0))),
        (Place::Before, b"true 5 &&", Refusal::Mismatch(at(0))),
        (Place::Before, b"5 true - <", Refusal::Mismatch(at(2))),
        (Place::Before, b"true x .z ==>", Refusal::Mismatch(at(1))),
        (Place::Before, b"5 a l [] <", Refusal::Mismatch(at(2))),
        (Place::Before, b"i has", Refusal::Mismatch(at(0))),
        (Place::Before, b"0 l true Ay", Refusal::Mismatch(at(1))),
        (Place::Before, b"0 5 y true Ey", Refusal::Mismatch(at(2))),
        (Place::Before, b"2147483648 i <", Refusal::BigLiteral(at(0))),
    ];
    for (place, source, want) in rows {
        match stated(alloc, &names, place, false, source) {
            Err(Fail::Refused(refusal)) => assert_eq!(rt; refusal, want),
            _ => assert!(rt; false, "not refused"),
        }
    }
}

#[test]
fn states_members_of_lists(rt: HostRuntime) {
    let alloc = rt.alloc();
    let unit = unit(alloc).expect(&rt, "memory");
    let names = resolve(alloc, &unit).expect(&rt, "names");
    let rows: [(&[u8], &[u8]); 4] = [
        (b"f .f", b"this.3:2.3:2"),
        (b"a", b"this.4:3"),
        (b"#D", b"class0"),
        (b"null", b"null"),
    ];
    for (source, want) in rows {
        match stated(alloc, &names, Place::Before, true, source) {
            Ok(is) => assert!(rt; is.as_slice() == want),
            Err(_) => assert!(rt; false, "refused"),
        }
    }
    match stated(alloc, &names, Place::Before, true, b"i") {
        Err(Fail::Refused(refusal)) => assert_eq!(rt; refusal, Refusal::Mismatch(at(0))),
        _ => assert!(rt; false, "not refused"),
    }
}

/// `this.f.f..` of so many links, and a name at its end.
fn linked(alloc: Global, links: u32, last: &[u8]) -> Result<(), Fail> {
    let unit = unit(alloc)?;
    let names = resolve(alloc, &unit)?;
    let mut suffixes = Items::new(alloc);
    for i in 0..links {
        suffixes.push(Suffix::Field(name(alloc, b"f", i)?))?;
    }
    suffixes.push(Suffix::Field(name(alloc, last, links)?))?;
    let expr = Expr::suffixed(alloc, at(0), Shape::This, suffixes)?;
    let stand = Stand {
        scope: Scope {
            names: &names,
            own: ClassId(1),
            is_static: false,
            variables: &[],
        },
        result: None,
        looks_back: false,
        is_in_old: false,
        quantified: Quantified::Nothing,
    };
    let _typed = states_boolean(alloc, &stand, &expr)?;
    Ok(())
}

#[test]
fn states_long_chains(rt: HostRuntime) {
    let alloc = rt.alloc();
    assert_eq!(rt; linked(alloc, 100_000, b"b"), Ok(()));
    assert_eq!(rt;
        linked(alloc, 5, b"z"),
        Err(Fail::Refused(Refusal::Unknown(at(5))))
    );
}
