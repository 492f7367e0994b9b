//! Expressions of code.

ghost use Rattle.std.specs.Prelude.{◌≡◌, IfOk, map};
ghost use Rattle.jr_program.specs.ExprViews.{onto, view_expr, view_shape, view_suffix};

use crate::copied::Copied;
use jr_arith::{Binary, Unary, Width};
use jr_base::{ClassId, Elem, FieldId, Memory, MethodId, ObjectCall};
use sqlite_items::{Boxed, Items};
use std::alloc::Global;

/// An expression that has a value (JLS 15).
#[cycle(typed_expr)]
#[derive(Drop)]
pub struct TypedExpr {
    pub shape: Boxed<TypedShape>,
}

/// What an expression is made of.
#[cycle(typed_expr)]
#[derive(Drop)]
pub enum TypedShape {
    /// A literal, with its minus where it has one (JLS 3.10.1).
    Int(i32),
    /// The same with an `L` behind it.
    Long(i64),
    /// `true` or `false` (JLS 3.10.3).
    Truth(bool),
    /// `null` (JLS 3.10.7).
    Null,
    /// `this` (JLS 15.8.3).
    This,
    /// `C.class` (JLS 15.8.2).
    ClassObject(ClassId),
    /// A formal or a local, by its number in the method.
    Local(u32),
    /// A static field.
    StaticField(FieldId),
    /// A call of a static method (JLS 15.12).
    CallStatic(MethodId, Items<TypedExpr>),
    /// `new C(..)` (JLS 15.9).
    NewObject(ClassId, Items<TypedExpr>),
    /// `new Object()`.
    NewPlain,
    /// `new Thread(e)`.
    NewThread(TypedExpr),
    /// `new T[size]` (JLS 15.10).
    NewArray(Elem, TypedExpr),
    /// A primary, and what follows it, from left to right.
    Suffixed(TypedExpr, Items<TypedSuffix>),
    /// An int as a long (JLS 5.1.2), or of a long its low 32 bits, where it is a shift's distance (JLS 5.1.3).
    Convert(Width, TypedExpr),
    /// An operator before its operand (JLS 15.15).
    Unary(Unary, TypedExpr),
    /// An operator between its operands, which are both evaluated (JLS 15.17 to 15.22).
    Binary(Binary, TypedExpr, TypedExpr),
    /// `&&` (JLS 15.23).
    And(TypedExpr, TypedExpr),
    /// `||` (JLS 15.24).
    Or(TypedExpr, TypedExpr),
    /// `condition ? one : other` (JLS 15.25).
    Choice(TypedExpr, TypedExpr, TypedExpr),
    /// `v = e` (JLS 15.26.1).
    Assign(TypedVariable, TypedExpr),
    /// `v += e` and the like, and whether the result is narrowed to an `int` (JLS 15.26.2).
    Compound(Binary, bool, TypedVariable, TypedExpr),
    /// `++v` and `--v`, which add that number (JLS 15.15.1, 15.15.2).
    PrefixIncrement(Width, TypedVariable, i32),
    /// `v++` and `v--`, which add that number (JLS 15.14).
    PostfixIncrement(Width, TypedVariable, i32),
}

/// What follows a primary.
#[cycle(typed_expr)]
#[derive(Drop)]
pub enum TypedSuffix {
    /// `.x` of an instance field (JLS 15.11).
    Field(FieldId),
    /// `.m(..)` of an instance method (JLS 15.12).
    Invocation(MethodId, Items<TypedExpr>),
    /// `[e]` (JLS 15.10.3).
    Element(Elem, TypedExpr),
    /// `.length` of an array (JLS 10.7).
    Length,
}

/// What is assigned to (JLS 4.12.3).
#[cycle(typed_expr)]
#[derive(Drop)]
pub enum TypedVariable {
    /// A formal or a local, by its number in the method.
    OfMethod(u32),
    /// A static field.
    OfClass(FieldId),
    /// A field of an object.
    OfObject(TypedExpr, FieldId),
    /// An element: of which kind, the array and the index.
    OfArray(Elem, TypedExpr, TypedExpr),
}

/// A call (JLS 15.12).
#[derive(Drop)]
pub enum TypedCall {
    /// Of a static method.
    Static(MethodId, Items<TypedExpr>),
    /// Of an instance method, on a receiver.
    On(TypedExpr, MethodId, Items<TypedExpr>),
}

/// What may stand as a statement by itself, and in the update of a `for` (JLS 14.8).
#[derive(Drop)]
pub enum Effect {
    /// An expression whose value isn't used.
    Evaluate(TypedExpr),
    /// A call of a method without a result.
    Invoke(TypedCall),
    /// `wait()`, `notify()`, `notifyAll()`, `start()` and `join()` of an object.
    CallObject(ObjectCall, TypedExpr),
    /// `wait(e)` of an object: it, and the time.
    WaitFor(TypedExpr, TypedExpr),
    /// `Thread.yield()`.
    Yield,
    /// `Thread.sleep(e)`.
    Sleep(TypedExpr),
}

impl TypedExpr {
    /// The expression of that shape.
    #[tactic(auto, using(crate::proofs::ExprEquations::view_node))]
    pub fn new(alloc: Global, shape: TypedShape) -> Result<TypedExpr, Memory>
        ensures { IfOk result (λ expr. view_expr expr ≡ view_shape shape) }
    {
        let shape = Boxed::new(alloc, shape)?;
        Ok(TypedExpr { shape })
    }

    /// A primary with what follows it; where nothing does, the primary itself.
    #[tactic(auto, using(crate::proofs::ExprEquations::view_suffixed))]
    pub fn suffixed(
        alloc: Global,
        primary: TypedExpr,
        suffixes: Items<TypedSuffix>,
    ) -> Result<TypedExpr, Memory>
        ensures { IfOk result (λ expr. view_expr expr ≡ onto (view_expr primary) (map view_suffix suffixes)) }
    {
        if suffixes.is_empty() {
            return Ok(primary);
        }
        TypedExpr::new(alloc, TypedShape::Suffixed(primary, suffixes))
    }

    /// An equal expression, with memory of its own.
    #[cycle(copy_expr)]
    pub fn copy(&self, alloc: Global) -> Result<TypedExpr, Memory>
        ensures { IfOk result (λ copy. copy ≡ self.now) }
    {
        let shape = self.shape.get().copy(alloc)?;
        let shape = Boxed::new(alloc, shape)?;
        Ok(TypedExpr { shape })
    }
}

impl TypedShape {
    #[cycle(copy_expr)]
    fn copy(&self, alloc: Global) -> Result<TypedShape, Memory>
        ensures { IfOk result (λ copy. copy ≡ self.now) }
    {
        Ok(match self {
            Self::Int(n) => Self::Int(*n),
            Self::Long(n) => Self::Long(*n),
            Self::Truth(truth) => Self::Truth(*truth),
            Self::Null => Self::Null,
            Self::This => Self::This,
            Self::ClassObject(class) => Self::ClassObject(*class),
            Self::Local(number) => Self::Local(*number),
            Self::StaticField(field) => Self::StaticField(*field),
            Self::CallStatic(m, es) => Self::CallStatic(*m, copy_exprs(es.as_slice(), alloc)?),
            Self::NewObject(c, es) => Self::NewObject(*c, copy_exprs(es.as_slice(), alloc)?),
            Self::NewPlain => Self::NewPlain,
            Self::NewThread(e) => Self::NewThread(e.copy(alloc)?),
            Self::NewArray(element, e) => Self::NewArray(*element, e.copy(alloc)?),
            Self::Suffixed(e, suffixes) => {
                Self::Suffixed(e.copy(alloc)?, copy_suffixes(suffixes.as_slice(), alloc)?)
            }
            Self::Convert(to, e) => Self::Convert(*to, e.copy(alloc)?),
            Self::Unary(op, e) => Self::Unary(*op, e.copy(alloc)?),
            Self::Binary(op, a, b) => Self::Binary(*op, a.copy(alloc)?, b.copy(alloc)?),
            Self::And(a, b) => Self::And(a.copy(alloc)?, b.copy(alloc)?),
            Self::Or(a, b) => Self::Or(a.copy(alloc)?, b.copy(alloc)?),
            Self::Choice(c, a, b) => Self::Choice(c.copy(alloc)?, a.copy(alloc)?, b.copy(alloc)?),
            Self::Assign(v, e) => Self::Assign(v.copy(alloc)?, e.copy(alloc)?),
            Self::Compound(op, n, v, e) => Self::Compound(*op, *n, v.copy(alloc)?, e.copy(alloc)?),
            Self::PrefixIncrement(w, v, by) => Self::PrefixIncrement(*w, v.copy(alloc)?, *by),
            Self::PostfixIncrement(w, v, by) => Self::PostfixIncrement(*w, v.copy(alloc)?, *by),
        })
    }
}

impl TypedSuffix {
    #[cycle(copy_expr)]
    fn copy(&self, alloc: Global) -> Result<TypedSuffix, Memory>
        ensures { IfOk result (λ copy. copy ≡ self.now) }
    {
        Ok(match self {
            TypedSuffix::Field(field) => TypedSuffix::Field(*field),
            TypedSuffix::Invocation(m, arguments) => {
                TypedSuffix::Invocation(*m, copy_exprs(arguments.as_slice(), alloc)?)
            }
            TypedSuffix::Element(element, e) => TypedSuffix::Element(*element, e.copy(alloc)?),
            TypedSuffix::Length => TypedSuffix::Length,
        })
    }
}

impl TypedVariable {
    #[cycle(copy_expr)]
    fn copy(&self, alloc: Global) -> Result<TypedVariable, Memory>
        ensures { IfOk result (λ copy. copy ≡ self.now) }
    {
        Ok(match self {
            TypedVariable::OfMethod(number) => TypedVariable::OfMethod(*number),
            TypedVariable::OfClass(field) => TypedVariable::OfClass(*field),
            TypedVariable::OfObject(e, field) => TypedVariable::OfObject(e.copy(alloc)?, *field),
            TypedVariable::OfArray(element, a, i) => {
                TypedVariable::OfArray(*element, a.copy(alloc)?, i.copy(alloc)?)
            }
        })
    }
}

#[cycle(copy_expr)]
fn copy_exprs(all: &[TypedExpr], alloc: Global) -> Result<Items<TypedExpr>, Memory>
    ensures { IfOk result (λ copies. copies ≡ all.now) }
{
    let mut copies = Items::new(alloc);
    for expr in all {
        copies.push(expr.copy(alloc)?)?;
    }
    Ok(copies)
}

#[cycle(copy_expr)]
fn copy_suffixes(all: &[TypedSuffix], alloc: Global) -> Result<Items<TypedSuffix>, Memory>
    ensures { IfOk result (λ copies. copies ≡ all.now) }
{
    let mut copies = Items::new(alloc);
    for suffix in all {
        copies.push(suffix.copy(alloc)?)?;
    }
    Ok(copies)
}

impl TypedCall {
    fn copy(&self, alloc: Global) -> Result<TypedCall, Memory>
        ensures { IfOk result (λ copy. copy ≡ self.now) }
    {
        Ok(match self {
            TypedCall::Static(m, arguments) => {
                TypedCall::Static(*m, copy_exprs(arguments.as_slice(), alloc)?)
            }
            TypedCall::On(e, m, arguments) => {
                TypedCall::On(e.copy(alloc)?, *m, copy_exprs(arguments.as_slice(), alloc)?)
            }
        })
    }
}

impl Copied for Effect {
    fn copied(&self, alloc: Global) -> Result<Effect, Memory> {
        Ok(match self {
            Effect::Evaluate(e) => Effect::Evaluate(e.copy(alloc)?),
            Effect::Invoke(call) => Effect::Invoke(call.copy(alloc)?),
            Effect::CallObject(called, e) => Effect::CallObject(*called, e.copy(alloc)?),
            Effect::WaitFor(e, time) => Effect::WaitFor(e.copy(alloc)?, time.copy(alloc)?),
            Effect::Yield => Effect::Yield,
            Effect::Sleep(time) => Effect::Sleep(time.copy(alloc)?),
        })
    }
}
