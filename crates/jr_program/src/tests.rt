ghost use Rattle.std.specs.Prelude.{◌≡◌, [], ◌∷◌, pos, true, false, IfOk};
ghost use Rattle.jr_program.specs.UnitViews.{program_of, PartsKeep};
ghost use Rattle.jr_program.specs.WellFormed.{WellFormed};

use super::*;
use jr_base::{ClassId, ClauseId, FieldId, Memory, MethodId, Position, SlotKind, Value};
use sqlite_items::Items;
use std::alloc::Global;
use std::sync::Arc;

/// `this` with so many `.g` behind it.
fn chain(alloc: Global, links: u32) -> Result<TypedExpr, Memory> {
    let mut suffixes = Items::new(alloc);
    for _ in 0..links {
        suffixes.push(TypedSuffix::Field(FieldId(0)))?;
    }
    let primary = TypedExpr::new(alloc, TypedShape::This)?;
    TypedExpr::suffixed(alloc, primary, suffixes)
}

/// The same in a clause.
fn clause_chain(alloc: Global, links: u32) -> Result<ClauseExpr, Memory> {
    let mut suffixes = Items::new(alloc);
    for _ in 0..links {
        suffixes.push(ClauseSuffix::Field(FieldId(0), 0))?;
    }
    let primary = ClauseExpr::new(alloc, ClauseShape::This)?;
    ClauseExpr::suffixed(alloc, primary, suffixes)
}

/// A block of so many `break;`.
fn block(alloc: Global, count: u32) -> Result<TypedStmt, Memory> {
    let mut all = Items::new(alloc);
    for _ in 0..count {
        all.push(TypedStmt::new(alloc, TypedForm::Break)?)?;
    }
    TypedStmt::new(alloc, TypedForm::Block(all))
}

fn links_of(expr: &TypedExpr) -> usize {
    match expr.shape.get() {
        TypedShape::Suffixed(_, suffixes) => suffixes.len(),
        _ => 0,
    }
}

fn clause_links_of(expr: &ClauseExpr) -> usize {
    match expr.shape.get() {
        ClauseShape::Suffixed(_, suffixes) => suffixes.len(),
        _ => 0,
    }
}

fn count_of(stmt: &TypedStmt) -> usize {
    match stmt.form.get() {
        TypedForm::Block(all) => all.len(),
        _ => 0,
    }
}

/// The lengths of copies of a long chain of code, of one of a clause and of a long block.
fn copied_lengths(alloc: Global) -> Result<(usize, usize, usize), Memory> {
    let code = chain(alloc, 500_000)?.copy(alloc)?;
    let clause = clause_chain(alloc, 500_000)?.copy(alloc)?;
    let block = block(alloc, 100_000)?.copy(alloc)?;
    Ok((links_of(&code), clause_links_of(&clause), count_of(&block)))
}

#[test]
fn copies_and_drops_long_sequences(rt: HostRuntime) {
    match copied_lengths(rt.alloc()) {
        Ok(lengths) => assert_eq!(rt; lengths, (500_000, 500_000, 100_000)),
        Err(Memory) => assert!(rt; false, "no memory"),
    }
}

fn one_number(alloc: Global) -> Result<Items<ClauseId>, Memory>
    ensures { IfOk result (λ numbers. numbers ≡ record { 0 = 1 } ∷ []) }
{
    let mut numbers = Items::new(alloc);
    numbers.push(ClauseId(1))?;
    Ok(numbers)
}

fn one_class(alloc: Global) -> Result<Items<TypedClass>, Memory>
    ensures { IfOk result (λ classes. classes ≡ record { name = []; extends_thread = false; implements_runnable = false; run = None; constructor = None } ∷ []) }
{
    let mut classes = Items::new(alloc);
    classes.push(TypedClass {
        name: Items::new(alloc),
        extends_thread: false,
        implements_runnable: false,
        run: None,
        constructor: None,
    })?;
    Ok(classes)
}

fn one_field(alloc: Global) -> Result<Items<TypedField>, Memory>
    ensures { IfOk result (λ fields. fields ≡ record { class = record { 0 = 0 }; is_static = true; is_volatile = false; kind = SlotKind.Int; constant = Value.Int (pos 0); slot = 0; due_at_access = [] } ∷ []) }
{
    let mut fields = Items::new(alloc);
    fields.push(TypedField {
        class: ClassId(0),
        is_static: true,
        is_volatile: false,
        kind: SlotKind::Int,
        constant: Value::Int(0),
        slot: 0,
        due_at_access: DueList::new(Items::new(alloc)),
    })?;
    Ok(fields)
}

fn static_method(
    alloc: Global,
    formals: Items<SlotKind>,
    due_at_call: DueList,
    body: TypedStmt,
) -> TypedMethod
    ensures { result ≡ record {
      name = [];
      class = record { 0 = 0 };
      is_static = true;
      is_constructor = false;
      is_synchronized = false;
      is_helper = false;
      formals = formals;
      locals = [];
      result = None;
      body = body;
      due_at_call = due_at_call;
      due_at_commit = [];
      due_at_leave = [];
      due_at_enter = [];
    } }
{
    TypedMethod {
        name: Items::new(alloc),
        class: ClassId(0),
        is_static: true,
        is_constructor: false,
        is_synchronized: false,
        is_helper: false,
        formals,
        locals: Items::new(alloc),
        result: None,
        body,
        due_at_call,
        due_at_commit: DueList::new(Items::new(alloc)),
        due_at_leave: DueList::new(Items::new(alloc)),
        due_at_enter: DueList::new(Items::new(alloc)),
    }
}

fn two_methods(
    alloc: Global,
    first: TypedStmt,
    second: TypedStmt,
) -> Result<Items<TypedMethod>, Memory>
    ensures { IfOk result (λ methods. methods ≡
        record {
          name = [];
          class = record { 0 = 0 };
          is_static = true;
          is_constructor = false;
          is_synchronized = false;
          is_helper = false;
          formals = SlotKind.Int ∷ [];
          locals = [];
          result = None;
          body = first;
          due_at_call = record { 0 = 1 } ∷ [];
          due_at_commit = [];
          due_at_leave = [];
          due_at_enter = [];
        }
        ∷ record {
          name = [];
          class = record { 0 = 0 };
          is_static = true;
          is_constructor = false;
          is_synchronized = false;
          is_helper = false;
          formals = [];
          locals = [];
          result = None;
          body = second;
          due_at_call = [];
          due_at_commit = [];
          due_at_leave = [];
          due_at_enter = [];
        } ∷ []) }
{
    let mut formals = Items::new(alloc);
    formals.push(SlotKind::Int)?;
    let due = DueList::new(one_number(alloc)?);
    let mut methods = Items::new(alloc);
    methods.push(static_method(alloc, formals, due, first))?;
    let none = DueList::new(Items::new(alloc));
    methods.push(static_method(alloc, Items::new(alloc), none, second))?;
    Ok(methods)
}

fn one_clause(alloc: Global, condition: ClauseExpr) -> Result<Items<TypedSpec>, Memory>
    ensures { IfOk result (λ clauses. clauses ≡ record {
      kind = ClauseKind.Requires;
      owner = Owner.Method (record { 0 = 0 });
      mode = Mode.Java;
      is_static = true;
      place = record { line = 1; column = 30 };
      states = condition ∷ [];
    } ∷ []) }
{
    let mut states = Items::new(alloc);
    states.push(condition)?;
    let mut clauses = Items::new(alloc);
    clauses.push(TypedSpec {
        kind: ClauseKind::Requires,
        owner: Owner::Method(MethodId(0)),
        mode: Mode::Java,
        is_static: true,
        place: Position {
            line: 1,
            column: 30,
        },
        states,
    })?;
    Ok(clauses)
}

/// `class A { static int g; /*@ requires true; @*/ static void f(int x) { } public static void main(String[] a) { } }`.
fn small(alloc: Global) -> Result<UnitParts, Memory>
    ensures { IfOk result (λ parts. WellFormed (program_of parts) × PartsKeep parts) }
{
    let first = TypedStmt::new(alloc, TypedForm::Skip)?;
    let second = TypedStmt::new(alloc, TypedForm::Skip)?;
    let condition = ClauseExpr::new(alloc, ClauseShape::Truth(true))?;
    let methods = two_methods(alloc, first, second)?;
    let clauses = one_clause(alloc, condition)?;
    Ok(UnitParts {
        classes: one_class(alloc)?,
        fields: one_field(alloc)?,
        methods,
        clauses,
        notes: Items::new(alloc),
        texts: Items::new(alloc),
        main: MethodId(1),
    })
}

/// The clause that is due first where a method is called.
fn first_at_call(unit: &TypedUnit, method: u32) -> Option<ClauseId> {
    if method >= unit.method_count() {
        return None;
    }
    let due = unit.due(Site::Entry(MethodId(method)));
    if due.is_empty() {
        return None;
    }
    Some(due.at(0))
}

/// The numbers of the clauses due at an assert, and the kind of that clause.
fn at_assert(unit: &TypedUnit, clause: u32) -> Option<(u32, ClauseKind)> {
    if clause == 0 || clause > unit.clause_count() {
        return None;
    }
    let due = unit.due(Site::Assert(ClauseId(clause)));
    Some((due.len(), unit.clause(ClauseId(clause)).kind))
}

/// A small unit, and a copy of it.
fn two_units(alloc: Global) -> Result<(TypedUnit, TypedUnit), Memory> {
    let unit = TypedUnit::new(alloc, small(alloc)?)?;
    let copy = unit.copy(alloc)?;
    Ok((unit, copy))
}

/// What is due at the calls of the methods 0 to 2, and at the asserts 0 to 2.
fn all_due(unit: &TypedUnit) -> ([Option<ClauseId>; 3], [Option<(u32, ClauseKind)>; 3]) {
    (
        [
            first_at_call(unit, 0),
            first_at_call(unit, 1),
            first_at_call(unit, 2),
        ],
        [at_assert(unit, 0), at_assert(unit, 1), at_assert(unit, 2)],
    )
}

#[test]
fn finds_what_is_due(rt: HostRuntime) {
    match two_units(rt.alloc()) {
        Ok((unit, copy)) => {
            let at_calls = [Some(ClauseId(1)), None, None];
            let at_asserts = [None, Some((1, ClauseKind::Requires)), None];
            assert_eq!(rt; all_due(&unit), (at_calls, at_asserts));
            assert_eq!(rt; all_due(&copy), (at_calls, at_asserts));
            assert_eq!(rt; (copy.main(), copy.field_count()), (MethodId(1), 1));
        }
        Err(Memory) => assert!(rt; false, "no memory"),
    }
}

/// What threads may share.
fn shared<T: Send + Sync>(value: T) -> T
    ensures { result ≡ value }
{
    value
}

fn main_of_shared(alloc: Global) -> Result<MethodId, Memory> {
    let unit = TypedUnit::new(alloc, small(alloc)?)?;
    let unit = shared(Arc::new(alloc, unit)?);
    Ok(unit.main())
}

#[test]
fn is_shared_by_threads(rt: HostRuntime) {
    assert!(rt; main_of_shared(rt.alloc()) == Ok(MethodId(1)));
}
