//! Clauses, and their expressions.

ghost use Rattle.std.specs.Prelude.{◌≡◌, IfOk, map};
ghost use Rattle.jr_program.specs.ClauseViews.{onto, view_expr, view_shape, view_suffix};

use crate::copied::{Copied, copy_all};
use crate::words::{Bound, ClauseKind, Mode, Owner, Quantifier};
use jr_arith::{Binary, Unary, Width};
use jr_base::{Cell, ClassId, FieldId, Memory, Position};
use sqlite_items::{Boxed, Items};
use std::alloc::Global;

/// A clause (JML Reference Manual, "Method Specification Clauses", "Type Specifications").
#[derive(Drop)]
pub struct TypedSpec {
    pub kind: ClauseKind,
    pub owner: Owner,
    pub mode: Mode,
    /// Whether it speaks of no object.
    pub is_static: bool,
    /// Where its keyword stands.
    pub place: Position,
    /// One condition, the members of a `locks` or `monitors_for` clause, and nothing for `atomic`.
    pub states: Items<ClauseExpr>,
}

/// An expression of a clause, which has no effect (JML Reference Manual, "Predicates and Specification
/// Expressions").
#[cycle(clause_expr)]
#[derive(Drop)]
pub struct ClauseExpr {
    pub shape: Boxed<ClauseShape>,
}

/// What an expression of a clause is made of.
#[cycle(clause_expr)]
#[derive(Drop)]
pub enum ClauseShape {
    /// A literal, with its minus where it has one (JLS 3.10.1).
    Int(i32),
    /// The same with an `L` behind it.
    Long(i64),
    /// `true` or `false` (JLS 3.10.3).
    Truth(bool),
    /// `null` (JLS 3.10.7).
    Null,
    /// `this` (JLS 15.8.3).
    This,
    /// A formal, by its number; in an `assert` a variable in scope, by its number in the assert's list.
    Variable(u32),
    /// The variable of a quantifier, by how many quantifiers stand between: the innermost one's is 0.
    Bound(u32),
    /// `\result` (JML Reference Manual, "\result").
    Result,
    /// A static field, and the cell in which it lies.
    StaticField(FieldId, Cell),
    /// `C.class` (JLS 15.8.2).
    ClassObject(ClassId),
    /// A primary, and what follows it, from left to right.
    Suffixed(ClauseExpr, Items<ClauseSuffix>),
    /// An int as a long (JLS 5.1.2), or of a long its low 32 bits, where it is a shift's distance (JLS 5.1.3).
    Convert(Width, ClauseExpr),
    /// An operator before its operand (JLS 15.15).
    Unary(Unary, ClauseExpr),
    /// An operator between its operands, which are both evaluated (JLS 15.17 to 15.22).
    Binary(Binary, ClauseExpr, ClauseExpr),
    /// `&&` (JLS 15.23).
    And(ClauseExpr, ClauseExpr),
    /// `||` (JLS 15.24).
    Or(ClauseExpr, ClauseExpr),
    /// `condition ? one : other` (JLS 15.25).
    Choice(ClauseExpr, ClauseExpr, ClauseExpr),
    /// `==>` (JML Reference Manual, "Forward and Reverse Implication").
    Implies(ClauseExpr, ClauseExpr),
    /// `<==`.
    ImpliedBy(ClauseExpr, ClauseExpr),
    /// `\old(e)` (JML Reference Manual, "\old and \pre").
    Old(ClauseExpr),
    /// `\lockset.has(e)`, `\lockset[e]` (JML Reference Manual, "\lockset and \max").
    InLockset(ClauseExpr),
    /// A quantifier over the ints between two bounds.
    Quantified(Boxed<QuantifiedExpr>),
}

/// What follows a primary.
#[cycle(clause_expr)]
#[derive(Drop)]
pub enum ClauseSuffix {
    /// `.x` of an instance field, and the slot in which it lies (JLS 15.11).
    Field(FieldId, u32),
    /// `[e]` (JLS 15.10.3).
    Element(ClauseExpr),
    /// `.length` of an array (JLS 10.7).
    Length,
}

/// A quantifier (JML Reference Manual, "Quantified Expressions").
#[cycle(clause_expr)]
#[derive(Drop)]
pub struct QuantifiedExpr {
    pub quantifier: Quantifier,
    pub low: ClauseExpr,
    pub low_bound: Bound,
    pub high: ClauseExpr,
    pub high_bound: Bound,
    /// What the range asks besides, joined by `&&`, and `true` where it asks nothing.
    pub conjuncts: ClauseExpr,
    pub body: ClauseExpr,
}

impl ClauseExpr {
    /// The expression of that shape.
    #[tactic(auto, using(crate::proofs::ClauseEquations::view_node))]
    pub fn new(alloc: Global, shape: ClauseShape) -> Result<ClauseExpr, Memory>
        ensures { IfOk result (λ expr. view_expr expr ≡ view_shape shape) }
    {
        let shape = Boxed::new(alloc, shape)?;
        Ok(ClauseExpr { shape })
    }

    /// A primary with what follows it; where nothing does, the primary itself.
    #[tactic(auto, using(crate::proofs::ClauseEquations::view_suffixed))]
    pub fn suffixed(
        alloc: Global,
        primary: ClauseExpr,
        suffixes: Items<ClauseSuffix>,
    ) -> Result<ClauseExpr, Memory>
        ensures { IfOk result (λ expr. view_expr expr ≡ onto (view_expr primary) (map view_suffix suffixes)) }
    {
        if suffixes.is_empty() {
            return Ok(primary);
        }
        ClauseExpr::new(alloc, ClauseShape::Suffixed(primary, suffixes))
    }

    /// An equal expression, with memory of its own.
    #[cycle(copy_clause)]
    pub fn copy(&self, alloc: Global) -> Result<ClauseExpr, Memory>
        ensures { IfOk result (λ copy. copy ≡ self.now) }
    {
        let shape = self.shape.get().copy(alloc)?;
        let shape = Boxed::new(alloc, shape)?;
        Ok(ClauseExpr { shape })
    }
}

impl ClauseShape {
    #[cycle(copy_clause)]
    fn copy(&self, alloc: Global) -> Result<ClauseShape, Memory>
        ensures { IfOk result (λ copy. copy ≡ self.now) }
    {
        Ok(match self {
            ClauseShape::Int(n) => ClauseShape::Int(*n),
            ClauseShape::Long(n) => ClauseShape::Long(*n),
            ClauseShape::Truth(truth) => ClauseShape::Truth(*truth),
            ClauseShape::Null => ClauseShape::Null,
            ClauseShape::This => ClauseShape::This,
            ClauseShape::Variable(number) => ClauseShape::Variable(*number),
            ClauseShape::Bound(depth) => ClauseShape::Bound(*depth),
            ClauseShape::Result => ClauseShape::Result,
            ClauseShape::StaticField(field, at) => ClauseShape::StaticField(*field, *at),
            ClauseShape::ClassObject(class) => ClauseShape::ClassObject(*class),
            ClauseShape::Suffixed(e, suffixes) => {
                ClauseShape::Suffixed(e.copy(alloc)?, copy_suffixes(suffixes.as_slice(), alloc)?)
            }
            ClauseShape::Convert(to, e) => ClauseShape::Convert(*to, e.copy(alloc)?),
            ClauseShape::Unary(op, e) => ClauseShape::Unary(*op, e.copy(alloc)?),
            ClauseShape::Binary(op, a, b) => ClauseShape::Binary(
                *op,
                a.copy(alloc)?,
                b.copy(alloc)?,
            ),
            ClauseShape::And(a, b) => ClauseShape::And(a.copy(alloc)?, b.copy(alloc)?),
            ClauseShape::Or(a, b) => ClauseShape::Or(a.copy(alloc)?, b.copy(alloc)?),
            ClauseShape::Choice(c, a, b) => {
                ClauseShape::Choice(c.copy(alloc)?, a.copy(alloc)?, b.copy(alloc)?)
            }
            ClauseShape::Implies(a, b) => ClauseShape::Implies(a.copy(alloc)?, b.copy(alloc)?),
            ClauseShape::ImpliedBy(a, b) => ClauseShape::ImpliedBy(a.copy(alloc)?, b.copy(alloc)?),
            ClauseShape::Old(e) => ClauseShape::Old(e.copy(alloc)?),
            ClauseShape::InLockset(e) => ClauseShape::InLockset(e.copy(alloc)?),
            ClauseShape::Quantified(q) => {
                ClauseShape::Quantified(Boxed::new(alloc, q.get().copy(alloc)?)?)
            }
        })
    }
}

impl ClauseSuffix {
    #[cycle(copy_clause)]
    fn copy(&self, alloc: Global) -> Result<ClauseSuffix, Memory>
        ensures { IfOk result (λ copy. copy ≡ self.now) }
    {
        Ok(match self {
            ClauseSuffix::Field(field, slot) => ClauseSuffix::Field(*field, *slot),
            ClauseSuffix::Element(e) => ClauseSuffix::Element(e.copy(alloc)?),
            ClauseSuffix::Length => ClauseSuffix::Length,
        })
    }
}

impl QuantifiedExpr {
    #[cycle(copy_clause)]
    fn copy(&self, alloc: Global) -> Result<QuantifiedExpr, Memory>
        ensures { IfOk result (λ copy. copy ≡ self.now) }
    {
        let low = self.low.copy(alloc)?;
        let high = self.high.copy(alloc)?;
        let conjuncts = self.conjuncts.copy(alloc)?;
        let body = self.body.copy(alloc)?;
        Ok(QuantifiedExpr {
            quantifier: self.quantifier,
            low,
            low_bound: self.low_bound,
            high,
            high_bound: self.high_bound,
            conjuncts,
            body,
        })
    }
}

#[cycle(copy_clause)]
fn copy_suffixes(all: &[ClauseSuffix], alloc: Global) -> Result<Items<ClauseSuffix>, Memory>
    ensures { IfOk result (λ copies. copies ≡ all.now) }
{
    let mut copies = Items::new(alloc);
    for suffix in all {
        copies.push(suffix.copy(alloc)?)?;
    }
    Ok(copies)
}

impl Copied for ClauseExpr {
    fn copied(&self, alloc: Global) -> Result<ClauseExpr, Memory> {
        self.copy(alloc)
    }
}

impl Copied for TypedSpec {
    fn copied(&self, alloc: Global) -> Result<TypedSpec, Memory> {
        let states = copy_all(self.states.as_slice(), alloc)?;
        Ok(TypedSpec {
            kind: self.kind,
            owner: self.owner,
            mode: self.mode,
            is_static: self.is_static,
            place: self.place,
            states,
        })
    }
}
