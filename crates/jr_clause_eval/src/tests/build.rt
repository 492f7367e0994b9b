//! Small trees, heaps and environments.

ghost use Rattle.std.specs.Prelude.{◌<◌, IfOk};
ghost use Rattle.jr_program.specs.ClauseViews.{view_clause, view_expr, view_suffix};
ghost use Rattle.jr_heap.specs.Plain.{seen_in};
ghost use Rattle.jr_clause_eval.specs.ClassObjects.{HasClassObjects, HaveClassObjects};
ghost use Rattle.jr_clause_eval.specs.Suffixes.{SuffixHasClassObjects};

use crate::Heaps;
use arrayvec::ArrayVec;
use jr_base::{Ask, Cell, ClassId, Env, FieldId, Memory, ObjId, Position, Seen, Value, Values};
use jr_heap::{PlainHeap, Snapshot};
use jr_program::{
    Bound, ClauseExpr, ClauseKind, ClauseShape, ClauseSuffix, Mode, Owner, QuantifiedExpr,
    Quantifier, TypedSpec,
};
use sqlite_items::{Boxed, Items};
use std::alloc::Global;

/// An expression without operands, and two that are stuck.
#[derive(Clone, Copy, Debug)]
pub enum Leaf {
    Null,
    This,
    Int(i32),
    Long(i64),
    Truth(bool),
    Variable(u32),
    Bound(u32),
    Result,
    /// The static field in a slot of object 9.
    Static(u32),
    /// The object of a class.
    Class(u8),
    /// `null.length`, which is Undefined.
    Undefined,
    /// A quantifier over 4,097 instances, which is Wide.
    Wide,
}

/// What stands around an operand.
#[derive(Clone, Copy, Debug)]
pub enum Around {
    Nothing,
    Field(u32),
    Element(Leaf),
    Length,
    Old,
    InLockset,
}

/// The heap of the moment and the old one, and the slots that were asked for: those of the old heap with 100 added, and 99
/// for a length.
#[derive(Drop)]
pub struct Recorder {
    moment: PlainHeap,
    before: PlainHeap,
    pub asked: ArrayVec<u32, 16>,
}

impl Recorder {
    pub fn new(moment: PlainHeap, before: PlainHeap) -> Recorder {
        Recorder {
            moment,
            before,
            asked: ArrayVec::new(),
        }
    }
}

fn slot_of(what: Ask) -> u32
    ensures { result < 100 }
{
    match what {
        Ask::Cell(cell) => cell.slot.min(99),
        Ask::Length(_) => 99,
    }
}

impl Heaps for Recorder {
    ghost shown = { λ r. record { now = seen_in r.moment; old = seen_in r.before } };

    ghost follows = { λ start r. Unit {0} };

    fn now(&mut self, what: Ask) -> Seen {
        let _full = self.asked.try_push(slot_of(what));
        self.moment.ask(what)
    }

    fn old(&mut self, what: Ask) -> Seen {
        let _full = self.asked.try_push(slot_of(what) + 100);
        self.before.ask(what)
    }
}

/// The expression with one suffix.
pub fn followed(
    alloc: Global,
    primary: ClauseExpr,
    suffix: ClauseSuffix,
) -> Result<ClauseExpr, Memory>
    requires primary { HasClassObjects (view_expr primary) }
    requires suffix { SuffixHasClassObjects (view_suffix suffix) }
    ensures { IfOk result (λ e. HasClassObjects (view_expr e)) }
{
    let mut suffixes = Items::new(alloc);
    suffixes.push(suffix)?;
    ClauseExpr::suffixed(alloc, primary, suffixes)
}

/// A quantifier from one int on and before another, with what its range asks besides.
pub fn quantifier(
    alloc: Global,
    quantifier: Quantifier,
    low: i32,
    high: i32,
    conjuncts: ClauseExpr,
    body: ClauseExpr,
) -> Result<ClauseExpr, Memory>
    requires conjuncts { HasClassObjects (view_expr conjuncts) }
    requires body { HasClassObjects (view_expr body) }
    ensures { IfOk result (λ e. HasClassObjects (view_expr e)) }
{
    let low = ClauseExpr::new(alloc, ClauseShape::Int(low))?;
    let high = ClauseExpr::new(alloc, ClauseShape::Int(high))?;
    let quantified = Boxed::new(
        alloc,
        QuantifiedExpr {
            quantifier,
            low,
            low_bound: Bound::Inclusive,
            high,
            high_bound: Bound::Exclusive,
            conjuncts,
            body,
        },
    )?;
    ClauseExpr::new(alloc, ClauseShape::Quantified(quantified))
}

/// The expression of that leaf.
pub fn leaf_of(alloc: Global, leaf: Leaf) -> Result<ClauseExpr, Memory>
    ensures { IfOk result (λ e. HasClassObjects (view_expr e)) }
{
    match leaf {
        Leaf::Null => ClauseExpr::new(alloc, ClauseShape::Null),
        Leaf::This => ClauseExpr::new(alloc, ClauseShape::This),
        Leaf::Int(n) => ClauseExpr::new(alloc, ClauseShape::Int(n)),
        Leaf::Long(n) => ClauseExpr::new(alloc, ClauseShape::Long(n)),
        Leaf::Truth(truth) => ClauseExpr::new(alloc, ClauseShape::Truth(truth)),
        Leaf::Variable(number) => ClauseExpr::new(alloc, ClauseShape::Variable(number)),
        Leaf::Bound(depth) => ClauseExpr::new(alloc, ClauseShape::Bound(depth)),
        Leaf::Result => ClauseExpr::new(alloc, ClauseShape::Result),
        Leaf::Static(slot) => ClauseExpr::new(
            alloc,
            ClauseShape::StaticField(
                FieldId(0),
                Cell {
                    obj: ObjId(9),
                    slot,
                },
            ),
        ),
        Leaf::Class(class) => ClauseExpr::new(
            alloc,
            ClauseShape::ClassObject(ClassId(class.into())),
        ),
        Leaf::Undefined => {
            let null = ClauseExpr::new(alloc, ClauseShape::Null)?;
            followed(alloc, null, ClauseSuffix::Length)
        }
        Leaf::Wide => {
            let conjuncts = ClauseExpr::new(alloc, ClauseShape::Truth(true))?;
            let body = ClauseExpr::new(alloc, ClauseShape::Truth(true))?;
            quantifier(alloc, Quantifier::ForAll, 0, 4097, conjuncts, body)
        }
    }
}

/// That leaf, in what stands around it.
pub fn surrounded(alloc: Global, outside: Around, inside: Leaf) -> Result<ClauseExpr, Memory>
    ensures { IfOk result (λ e. HasClassObjects (view_expr e)) }
{
    let operand = leaf_of(alloc, inside)?;
    match outside {
        Around::Nothing => Ok(operand),
        Around::Field(slot) => followed(alloc, operand, ClauseSuffix::Field(FieldId(0), slot)),
        Around::Element(index) => {
            let index = leaf_of(alloc, index)?;
            followed(alloc, operand, ClauseSuffix::Element(index))
        }
        Around::Length => followed(alloc, operand, ClauseSuffix::Length),
        Around::Old => ClauseExpr::new(alloc, ClauseShape::Old(operand)),
        Around::InLockset => ClauseExpr::new(alloc, ClauseShape::InLockset(operand)),
    }
}

/// A clause of that kind, which states one expression.
pub fn clause_of(alloc: Global, kind: ClauseKind, state: ClauseExpr) -> Result<TypedSpec, Memory>
    requires { HasClassObjects (view_expr state) }
    ensures { IfOk result (λ clause. HaveClassObjects (view_clause clause).states) }
{
    let mut states = Items::new(alloc);
    states.push(state)?;
    Ok(TypedSpec {
        kind,
        owner: Owner::Class(ClassId(0)),
        mode: Mode::Java,
        is_static: false,
        place: Position { line: 1, column: 1 },
        states,
    })
}

/// A heap in which object 9 is an array of these elements.
pub fn array_of(alloc: Global, elements: &[Value]) -> Result<PlainHeap, Memory> {
    let mut heap = PlainHeap::new(alloc);
    heap.add(ObjId(9), true, elements)?;
    Ok(heap)
}

/// An environment in which `this` and variable 0 are object 9, and `\result` is 7.
pub fn environment(alloc: Global, entered: Option<ObjId>) -> Result<Env, Memory> {
    let mut values = Values::new(alloc);
    values.reserve(1)?;
    values.push(Value::Ref(ObjId(9)));
    Ok(Env {
        this: Some(ObjId(9)),
        values,
        result: Some(Value::Int(7)),
        entered,
    })
}
