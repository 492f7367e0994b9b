//! What the expressions of clauses state.

ghost use Rattle.std.specs.Prelude.{◌≡◌, IfOk};
ghost use Rattle.jr_program.specs.ClauseViews.{view_shape};
ghost use Rattle.jr_names.specs.Answered.{Answers};
ghost use Rattle.jr_spec_typing.specs.Views.{view_held, view_stated, view_term};
ghost use Rattle.jr_typing_rules.specs.Predicates as spec;

use crate::chain::Chain;
use jr_base::{ClassId, Fail, Memory, Span};
use jr_program::{ClauseExpr, ClauseShape};
use jr_typing::unknown;
use jr_typing_rules::{Face, Library, ValueType};
use std::alloc::Global;

/// What an expression of a clause, or a name before a dot, stands for (JLS 6.5, 15.1). A clause assigns nothing, so a
/// variable is its value.
#[derive(Drop)]
pub enum Term {
    Class(ClassId),
    Library(Library),
    /// `System`, with its place.
    System(Span),
    /// `System.out`, with the place of `System`.
    Out(Span),
    Value(ValueType, Chain),
}

/// A value whose suffixes may still grow.
#[derive(Drop)]
pub struct Held {
    pub of: ValueType,
    pub chain: Chain,
}

/// A value.
#[derive(Drop)]
pub struct Stated {
    pub of: ValueType,
    pub node: ClauseExpr,
}

/// What stands before a dot, without its tree.
pub fn face_of(term: &Term) -> Face
    ensures { result ≡ spec.face_of (view_term term.now) }
{
    match term {
        Term::Class(class) => Face::Class(*class),
        Term::Library(library) => Face::Library(*library),
        Term::System(system) => Face::System(*system),
        Term::Out(system) => Face::Out(*system),
        Term::Value(of, _) => Face::Value(*of),
    }
}

/// A value that no suffix follows yet.
pub fn stating(alloc: Global, of: ValueType, node: ClauseShape) -> Result<Term, Memory>
    ensures { IfOk result (λ term. view_term term ≡ spec.TheValue of (view_shape node)) }
{
    Ok(Term::Value(of, Chain::of_shape(alloc, node)?))
}

/// The value that is asked for, where its first token stands there. Refused, as unknown, is a name that is one before
/// a dot alone.
#[tactic(auto, unfolding(jr_typing_rules::specs::Predicates::stated))]
pub fn held_at(at: Span, term: Term) -> Result<Held, Fail>
    ensures { Answers view_held (spec.stated at (view_term term)) result }
{
    match term {
        Term::Value(of, chain) => Ok(Held { of, chain }),
        Term::Class(_) | Term::Library(_) => Err(unknown(at)),
        Term::System(system) | Term::Out(system) => Err(unknown(system)),
    }
}

/// The same as one expression.
pub fn stated_at(alloc: Global, at: Span, term: Term) -> Result<Stated, Fail>
    ensures { Answers view_stated (spec.stated at (view_term term)) result }
{
    let Held { of, chain } = held_at(at, term)?;
    let node = chain.expr(alloc)?;
    Ok(Stated { of, node })
}

/// What stands in brackets, which is a value (JLS 15.8.5).
pub fn in_brackets(at: Span, term: Term) -> Result<Term, Fail>
    ensures { Answers view_term (spec.in_brackets at (view_term term)) result }
{
    let Held { of, chain } = held_at(at, term)?;
    Ok(Term::Value(of, chain))
}
