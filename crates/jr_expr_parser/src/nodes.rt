//! The nodes of a tree, each with how deep it nests.

ghost use Rattle.std.specs.Prelude.{◌≡◌, ◌≤◌, ◌<◌, ◌++◌, ◌∷◌, [], true, false, Ok, IfOk};
ghost use Rattle.jr_ast.specs.Expressions.{exprs, view_expr, view_shape};
ghost use Rattle.jr_ast.specs.Expressions as e;
ghost use Rattle.jr_reading.specs.Limits.{nesting_limit};
ghost use Rattle.jr_expr_parser.specs.Nesting.{nesting, nesting_in, is_implied_by, is_new_array};
ghost use Rattle.jr_expr_parser.specs.Reader as reader;
ghost use Rattle.jr_expr_parser.specs.Nests.{Makes, MakesAs, view_list, view_primary, view_read};

use crate::listing::Listing;
use crate::primary::Primary;
use crate::read::Read;
use jr_ast::{
    AssignOp, Bound, ElementType, Expr, Infix, IntegerLiteral, Name, Postfix, Prefix,
    QuantifiedExpr, Quantifier, Shape, Suffix,
};
use jr_base::{Fail, Memory, Refusal, Span};
use sqlite_items::{Boxed, Items};
use std::alloc::Global;

/// No expression.
pub fn no_expr(alloc: Global) -> Listing
    ensures { view_list result ≡ [] }
{
    Listing {
        items: Items::new(alloc),
        height: 0,
    }
}

/// The list with one expression more.
#[tactic(auto, using(crate::proofs::More::nesting_more, crate::proofs::More::view_more))]
pub fn and_expr(list: Listing, read: Read) -> Result<Listing, Memory>
    requires { nesting (view_read read) < nesting_limit }
    ensures { IfOk result (λ all. view_list all ≡ view_list list ++ view_read read ∷ []) }
{
    let height = list.height.max(read.height + 1);
    let mut items = list.items;
    items.push(read.tree)?;
    Ok(Listing { items, height })
}

/// A primary of one or two words.
pub fn leaf(alloc: Global, place: Span, shape: Shape) -> Primary
    requires placed { e.place_of (view_shape shape place) ≡ place }
    requires flat { nesting (view_shape shape place) ≡ 0 }
    requires array { is_new_array (view_shape shape place) ≡ false }
    requires chain { is_implied_by (view_shape shape place) ≡ false }
    ensures { view_primary result ≡ view_shape shape place }
{
    Primary {
        place,
        shape,
        suffixes: Items::new(alloc),
        height: 0,
        new_array: false,
    }
}

/// A primary with an expression in it.
fn over(alloc: Global, place: Span, shape: Shape, height: u8) -> Primary
    requires placed { e.place_of (view_shape shape place) ≡ place }
    requires tall { height ≡ nesting (view_shape shape place) }
    requires low { height ≤ nesting_limit }
    requires array { is_new_array (view_shape shape place) ≡ false }
    requires chain { is_implied_by (view_shape shape place) ≡ false }
    ensures { view_primary result ≡ view_shape shape place }
{
    Primary {
        place,
        shape,
        suffixes: Items::new(alloc),
        height,
        new_array: false,
    }
}

pub fn bracketed(alloc: Global, place: Span, a: Read) -> Primary
    requires { nesting (view_read a) < nesting_limit }
    ensures { view_primary result ≡ e.Brackets place (view_read a) }
{
    let height = a.height + 1;
    over(alloc, place, Shape::Brackets(a.tree), height)
}

pub fn old(alloc: Global, place: Span, a: Read) -> Primary
    requires { nesting (view_read a) < nesting_limit }
    ensures { view_primary result ≡ e.Old place (view_read a) }
{
    let height = a.height + 1;
    over(alloc, place, Shape::Old(a.tree), height)
}

pub fn in_lockset(alloc: Global, place: Span, a: Read) -> Primary
    requires { nesting (view_read a) < nesting_limit }
    ensures { view_primary result ≡ e.InLockset place (view_read a) }
{
    let height = a.height + 1;
    over(alloc, place, Shape::InLockset(a.tree), height)
}

#[tactic(auto, using(jr_ast::proofs::Views::view_call))]
pub fn call(alloc: Global, place: Span, method: Name, arguments: Listing) -> Primary
    ensures { view_primary result ≡ e.Call place method (exprs (view_list arguments)) }
{
    over(
        alloc,
        place,
        Shape::Call(method, arguments.items),
        arguments.height,
    )
}

#[tactic(auto, using(jr_ast::proofs::Views::view_new_object))]
pub fn new_object(alloc: Global, place: Span, class: Name, arguments: Listing) -> Primary
    ensures { view_primary result ≡ e.NewObject place class (exprs (view_list arguments)) }
{
    over(
        alloc,
        place,
        Shape::NewObject(class, arguments.items),
        arguments.height,
    )
}

pub fn new_array(alloc: Global, place: Span, element: ElementType, size: Read) -> Primary
    requires { nesting (view_read size) < nesting_limit }
    ensures { view_primary result ≡ e.NewArray place element (view_read size) }
{
    let height = size.height + 1;
    Primary {
        place,
        shape: Shape::NewArray(element, size.tree),
        suffixes: Items::new(alloc),
        height,
        new_array: true,
    }
}

/// What a quantifier is made of.
#[derive(Drop)]
pub struct Quantification {
    pub quantifier: Quantifier,
    pub variable: Name,
    pub low: Read,
    pub bounds: (Bound, Bound),
    pub high: Read,
    pub conjuncts: Listing,
    pub body: Read,
}

pub fn quantified(alloc: Global, place: Span, parts: Quantification) -> Result<Primary, Memory>
    requires low { nesting (view_read parts.low) < nesting_limit }
    requires high { nesting (view_read parts.high) < nesting_limit }
    requires body { nesting (view_read parts.body) < nesting_limit }
    ensures { IfOk result (λ p. view_primary p ≡ e.Quantified place parts.quantifier parts.variable (view_read parts.low) parts.bounds.0 (view_read parts.high) parts.bounds.1 (exprs (view_list parts.conjuncts)) (view_read parts.body)) }
{
    let inner = parts
        .low
        .height
        .max(parts.high.height.max(parts.body.height));
    let height = (inner + 1).max(parts.conjuncts.height);
    let whole = QuantifiedExpr {
        quantifier: parts.quantifier,
        variable: parts.variable,
        low: parts.low.tree,
        low_bound: parts.bounds.0,
        high: parts.high.tree,
        high_bound: parts.bounds.1,
        conjuncts: parts.conjuncts.items,
        body: parts.body.tree,
    };
    let shape = Shape::Quantified(Boxed::new(alloc, whole)?);
    Ok(over(alloc, place, shape, height))
}

/// `.name` behind a primary.
#[tactic(auto, using(crate::proofs::More::field_more))]
pub fn field(primary: Primary, name: Name) -> Result<Primary, Memory>
    ensures { IfOk result (λ p. view_primary p ≡ e.FieldOf (e.place_of (view_primary primary)) (view_primary primary) name) }
{
    let Primary {
        place,
        shape,
        mut suffixes,
        height,
        new_array: _,
    } = primary;
    suffixes.push(Suffix::Field(name))?;
    Ok(Primary {
        place,
        shape,
        suffixes,
        height,
        new_array: false,
    })
}

/// `.name(..)` behind a primary.
#[tactic(auto, using(crate::proofs::More::invocation_more), unfolding(crate::specs::Reader::fits))]
pub fn invocation(
    primary: Primary,
    name: Name,
    arguments: Listing,
    room: u8,
) -> Result<Primary, Fail>
    requires { room ≤ nesting_limit }
    ensures { MakesAs view_primary (reader.fits room (e.place_of (view_primary primary)) (e.CallOf (e.place_of (view_primary primary)) (view_primary primary) name (exprs (view_list arguments)))) result }
{
    let Primary {
        place,
        shape,
        mut suffixes,
        height,
        new_array: _,
    } = primary;
    let height = (height + 1).max(arguments.height);
    if height > room {
        return Err(Fail::Refused(Refusal::TooDeep(place)));
    }
    suffixes.push(Suffix::Invocation(name, arguments.items))?;
    Ok(Primary {
        place,
        shape,
        suffixes,
        height,
        new_array: false,
    })
}

/// `[e]` behind a primary.
#[tactic(auto, using(crate::proofs::More::index_more), unfolding(crate::specs::Reader::fits))]
pub fn index(primary: Primary, index: Read, room: u8) -> Result<Primary, Fail>
    requires { room ≤ nesting_limit }
    ensures { MakesAs view_primary (reader.fits room (e.place_of (view_primary primary)) (e.ElementOf (e.place_of (view_primary primary)) (view_primary primary) (view_read index))) result }
{
    let Primary {
        place,
        shape,
        mut suffixes,
        height,
        new_array: _,
    } = primary;
    let height = height.max(index.height) + 1;
    if height > room {
        return Err(Fail::Refused(Refusal::TooDeep(place)));
    }
    suffixes.push(Suffix::Index(index.tree))?;
    Ok(Primary {
        place,
        shape,
        suffixes,
        height,
        new_array: false,
    })
}

/// The expression that a primary is.
pub fn suffixed(alloc: Global, primary: Primary) -> Result<Read, Memory>
    ensures { IfOk result (λ a. view_read a ≡ view_primary primary) }
{
    let height = primary.height;
    let tree = Expr::suffixed(alloc, primary.place, primary.shape, primary.suffixes)?;
    Ok(Read {
        tree,
        height,
        implied_by: false,
    })
}

/// The node, where it nests within the room.
#[tactic(auto, unfolding(crate::specs::Reader::fits))]
fn within(
    alloc: Global,
    place: Span,
    shape: Shape,
    height: u8,
    implied_by: bool,
    room: u8,
) -> Result<Read, Fail>
    requires tall { height ≡ nesting (view_shape shape place) }
    requires chain { implied_by ≡ is_implied_by (view_shape shape place) }
    requires room { room ≤ nesting_limit }
    ensures { Makes (reader.fits room place (view_shape shape place)) result }
{
    if height > room {
        return Err(Fail::Refused(Refusal::TooDeep(place)));
    }
    let tree = Expr::new(alloc, place, shape)?;
    Ok(Read {
        tree,
        height,
        implied_by,
    })
}

/// An operator behind its operand.
pub fn postfixed(alloc: Global, place: Span, op: Postfix, a: Read, room: u8) -> Result<Read, Fail>
    requires { room ≤ nesting_limit }
    ensures { Makes (reader.fits room place (e.Postfixed place op (view_read a))) result }
{
    let height = a.height + 1;
    within(
        alloc,
        place,
        Shape::Postfix(op, a.tree),
        height,
        false,
        room,
    )
}

/// An operator before its operand.
pub fn prefixed(alloc: Global, place: Span, op: Prefix, a: Read) -> Result<Read, Memory>
    requires { nesting (view_read a) < nesting_limit }
    ensures { IfOk result (λ r. view_read r ≡ e.Prefixed place op (view_read a)) }
{
    let height = a.height + 1;
    let tree = Expr::new(alloc, place, Shape::Prefix(op, a.tree))?;
    Ok(Read {
        tree,
        height,
        implied_by: false,
    })
}

/// `-`, and an integer literal with its place.
pub fn least(
    alloc: Global,
    place: Span,
    behind: Span,
    literal: IntegerLiteral,
    room: u8,
) -> Result<Read, Fail>
    requires { room ≤ nesting_limit }
    ensures { Makes (reader.fits room place (e.Prefixed place Prefix.Negate (e.Integer behind literal))) result }
{
    let integer = Expr::new(alloc, behind, Shape::Integer(literal))?;
    within(
        alloc,
        place,
        Shape::Prefix(Prefix::Negate, integer),
        1,
        false,
        room,
    )
}

/// An operator between its operands.
pub fn infixed(
    alloc: Global,
    place: Span,
    op: Infix,
    a: Read,
    b: Read,
    room: u8,
) -> Result<Read, Fail>
    requires { room ≤ nesting_limit }
    ensures { Makes (reader.fits room place (e.Infixed place op (view_read a) (view_read b))) result }
{
    let height = a.height.max(b.height) + 1;
    let implied_by = matches!(op, Infix::ImpliedBy);
    within(
        alloc,
        place,
        Shape::Infix(op, a.tree, b.tree),
        height,
        implied_by,
        room,
    )
}

/// `condition ? one : other`.
pub fn conditional(
    alloc: Global,
    place: Span,
    condition: Read,
    one: Read,
    other: Read,
    room: u8,
) -> Result<Read, Fail>
    requires { room ≤ nesting_limit }
    ensures { Makes (reader.fits room place (e.Conditional place (view_read condition) (view_read one) (view_read other))) result }
{
    let height = condition.height.max(one.height.max(other.height)) + 1;
    let shape = Shape::Conditional(condition.tree, one.tree, other.tree);
    within(alloc, place, shape, height, false, room)
}

/// An operator that assigns, between what is assigned to and the value.
pub fn assignment(
    alloc: Global,
    place: Span,
    op: AssignOp,
    target: Read,
    value: Read,
    room: u8,
) -> Result<Read, Fail>
    requires { room ≤ nesting_limit }
    ensures { Makes (reader.fits room place (e.Assignment place op (view_read target) (view_read value))) result }
{
    let height = target.height.max(value.height) + 1;
    let shape = Shape::Assignment(op, target.tree, value.tree);
    within(alloc, place, shape, height, false, room)
}
