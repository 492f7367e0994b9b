//! What expressions denote.

ghost use Rattle.std.specs.Prelude.{◌≡◌, IfOk};
ghost use Rattle.jr_program.specs.ExprViews.{view_expr, view_shape, view_variable as view_target_variable};
ghost use Rattle.jr_program.specs.Programs.{Read};
ghost use Rattle.jr_names.specs.Answered.{Answers};
ghost use Rattle.jr_typing.specs.Views.{view_chain, view_denotation, view_held, view_open, view_target, view_value};
ghost use Rattle.jr_typing_rules.specs.Denotations as spec;

use crate::chain::Chain;
use jr_base::{ClassId, Elem, Fail, FieldId, Memory, ObjectCall, Refusal, Span};
use jr_program::{Effect, TypedExpr, TypedShape, TypedSuffix, TypedVariable};
use jr_typing_rules::{Face, Head, Library, MethodEntry, ValueType};
use sqlite_items::Items;
use std::alloc::Global;

/// A variable, whose object or array may have suffixes (JLS 4.12.3).
#[derive(Drop)]
pub enum OpenVariable {
    Local(u32),
    StaticField(FieldId),
    Field(Chain, FieldId),
    Element(Elem, Chain, TypedExpr),
}

/// What an expression, or a name before a dot, denotes (JLS 6.5, 15.1).
#[derive(Drop)]
pub enum Denotation {
    Class(ClassId),
    Library(Library),
    /// `System`, with its place.
    System(Span),
    /// `System.out`, with the place of `System`.
    Out(Span),
    Variable(ValueType, OpenVariable),
    Value(ValueType, Chain),
    /// A call without a result.
    Nothing(Effect),
}

/// A variable that is assigned to.
#[derive(Drop)]
pub struct Target {
    pub of: ValueType,
    pub node: TypedVariable,
}

/// A value whose suffixes may still grow.
#[derive(Drop)]
pub struct Held {
    pub of: ValueType,
    pub chain: Chain,
}

/// A value.
#[derive(Drop)]
pub struct Value {
    pub of: ValueType,
    pub node: TypedExpr,
}

/// Arguments, from left to right.
#[derive(Drop)]
pub struct Arguments {
    pub heads: Items<Head>,
    pub nodes: Vec<TypedExpr>,
}

/// What is called.
#[derive(Clone, Copy)]
pub enum Callee<'b> {
    OfClass(&'b MethodEntry),
    OfObject(&'b MethodEntry),
    OfMonitor(ObjectCall),
    OfYield,
    OfSleep,
}

/// What is made.
#[derive(Clone, Copy)]
pub enum Maker<'b> {
    MakesObject(ClassId, &'b [ValueType]),
    MakesPlain,
    MakesThread,
}

/// The refusal of a type that isn't asked for.
pub fn mismatch(at: Span) -> Fail
    ensures { result ≡ Fail.Refused (Refusal.Mismatch at) }
{
    Fail::Refused(Refusal::Mismatch(at))
}

/// The refusal of a name that isn't there.
pub fn unknown(at: Span) -> Fail
    ensures { result ≡ Fail.Refused (Refusal.Unknown at) }
{
    Fail::Refused(Refusal::Unknown(at))
}

/// What stands before a dot, without its tree.
pub fn face_of(denotation: &Denotation) -> Face
    ensures { result ≡ spec.face_of (view_denotation denotation.now) }
{
    match denotation {
        Denotation::Class(class) => Face::Class(*class),
        Denotation::Library(library) => Face::Library(*library),
        Denotation::System(system) => Face::System(*system),
        Denotation::Out(system) => Face::Out(*system),
        Denotation::Variable(of, _) | Denotation::Value(of, _) => Face::Value(*of),
        Denotation::Nothing(_) => Face::Nothing,
    }
}

/// A value that no suffix follows yet.
pub fn denoting(alloc: Global, of: ValueType, node: TypedShape) -> Result<Denotation, Memory>
    ensures { IfOk result (λ denotation. view_denotation denotation ≡ spec.AValue of (view_shape node)) }
{
    Ok(Denotation::Value(of, Chain::of_shape(alloc, node)?))
}

impl OpenVariable {
    /// The value of the variable.
    fn read(self, alloc: Global) -> Result<Chain, Memory>
        ensures { IfOk result (λ chain. view_chain chain ≡ Read (view_open self)) }
    {
        match self {
            OpenVariable::Local(place) => Chain::of_shape(alloc, TypedShape::Local(place)),
            OpenVariable::StaticField(field) => Chain::of_shape(
                alloc,
                TypedShape::StaticField(field),
            ),
            OpenVariable::Field(chain, field) => chain.with(TypedSuffix::Field(field)),
            OpenVariable::Element(elem, chain, index) => chain.with(TypedSuffix::Element(
                elem, index,
            )),
        }
    }

    /// The variable as what is assigned to.
    fn target(self, alloc: Global) -> Result<TypedVariable, Memory>
        ensures { IfOk result (λ variable. view_target_variable variable ≡ view_open self) }
    {
        Ok(match self {
            OpenVariable::Local(place) => TypedVariable::OfMethod(place),
            OpenVariable::StaticField(field) => TypedVariable::OfClass(field),
            OpenVariable::Field(chain, field) => TypedVariable::OfObject(chain.expr(alloc)?, field),
            OpenVariable::Element(elem, chain, index) => {
                TypedVariable::OfArray(elem, chain.expr(alloc)?, index)
            }
        })
    }
}

/// The value that is asked for, where its first token stands there. Refused are a call without a result and, as
/// unknown, a name that is one before a dot alone.
#[tactic(auto, unfolding(jr_typing_rules::specs::Denotations::value_of))]
pub fn value_held(alloc: Global, at: Span, denotation: Denotation) -> Result<Held, Fail>
    ensures { Answers view_held (spec.value_of at (view_denotation denotation)) result }
{
    match denotation {
        Denotation::Value(of, chain) => Ok(Held { of, chain }),
        Denotation::Variable(of, open) => {
            let chain = open.read(alloc)?;
            Ok(Held { of, chain })
        }
        Denotation::Nothing(_) => Err(mismatch(at)),
        Denotation::Class(_) | Denotation::Library(_) => Err(unknown(at)),
        Denotation::System(system) | Denotation::Out(system) => Err(unknown(system)),
    }
}

/// The same as one expression.
pub fn value_of(alloc: Global, at: Span, denotation: Denotation) -> Result<Value, Fail>
    ensures { Answers view_value (spec.value_of at (view_denotation denotation)) result }
{
    let Held { of, chain } = value_held(alloc, at, denotation)?;
    let node = chain.expr(alloc)?;
    Ok(Value { of, node })
}

/// The variable that is asked for. Refused are values and calls without a result too (JLS 15.26).
#[tactic(auto, unfolding(jr_typing_rules::specs::Denotations::variable_of))]
pub fn variable_of(alloc: Global, at: Span, denotation: Denotation) -> Result<Target, Fail>
    ensures { Answers view_target (spec.variable_of at (view_denotation denotation)) result }
{
    match denotation {
        Denotation::Variable(of, open) => {
            let node = open.target(alloc)?;
            Ok(Target { of, node })
        }
        Denotation::Value(_, _) | Denotation::Nothing(_) => Err(mismatch(at)),
        Denotation::Class(_) | Denotation::Library(_) => Err(unknown(at)),
        Denotation::System(system) | Denotation::Out(system) => Err(unknown(system)),
    }
}

/// What stands in brackets, of which a variable stays one (JLS 15.8.5).
#[tactic(auto, unfolding(jr_typing_rules::specs::Denotations::in_brackets))]
pub fn in_brackets(at: Span, denotation: Denotation) -> Result<Denotation, Fail>
    ensures { Answers view_denotation (spec.in_brackets at (view_denotation denotation)) result }
{
    match denotation {
        Denotation::Variable(of, open) => Ok(Denotation::Variable(of, open)),
        Denotation::Value(of, chain) => Ok(Denotation::Value(of, chain)),
        Denotation::Nothing(_) => Err(mismatch(at)),
        Denotation::Class(_) | Denotation::Library(_) => Err(unknown(at)),
        Denotation::System(system) | Denotation::Out(system) => Err(unknown(system)),
    }
}
