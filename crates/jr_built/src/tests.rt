ghost use Rattle.std.specs.Prelude.{◌≡◌, [], ◌∷◌, true, false, IfOk};
ghost use Rattle.jr_program.specs.UnitViews.{program_of, PartsKeep};
ghost use Rattle.jr_program.specs.WellFormed.{WellFormed};

use crate::clause::is_clause_built;
use crate::is_built;
use crate::stmt::is_stmt_built;
use jr_base::{ClassId, Memory, MethodId, ObjectCall, Position};
use jr_program::{
    ClauseExpr, ClauseKind, ClauseShape, ClauseSuffix, DueList, Effect, Mode, Owner, TypedClass,
    TypedExpr, TypedForm, TypedMethod, TypedShape, TypedSpec, TypedStmt, TypedUnit, UnitParts,
};
use sqlite_items::Items;
use std::alloc::Global;

// ---- units

fn one_class(alloc: Global, extends_thread: bool) -> Result<Items<TypedClass>, Memory>
    ensures { IfOk result (λ classes. classes ≡ record { name = []; extends_thread = extends_thread; implements_runnable = false; run = None; constructor = None } ∷ []) }
{
    let mut classes = Items::new(alloc);
    classes.push(TypedClass {
        name: Items::new(alloc),
        extends_thread,
        implements_runnable: false,
        run: None,
        constructor: None,
    })?;
    Ok(classes)
}

fn one_method(
    alloc: Global,
    is_synchronized: bool,
    body: TypedStmt,
) -> Result<Items<TypedMethod>, Memory>
    ensures { IfOk result (λ methods. methods ≡ record {
      name = [];
      class = record { 0 = 0 };
      is_static = true;
      is_constructor = false;
      is_synchronized = is_synchronized;
      is_helper = false;
      formals = [];
      locals = [];
      result = None;
      body = body;
      due_at_call = [];
      due_at_commit = [];
      due_at_leave = [];
      due_at_enter = [];
    } ∷ []) }
{
    let mut methods = Items::new(alloc);
    methods.push(TypedMethod {
        name: Items::new(alloc),
        class: ClassId(0),
        is_static: true,
        is_constructor: false,
        is_synchronized,
        is_helper: false,
        formals: Items::new(alloc),
        locals: Items::new(alloc),
        result: None,
        body,
        due_at_call: DueList::new(Items::new(alloc)),
        due_at_commit: DueList::new(Items::new(alloc)),
        due_at_leave: DueList::new(Items::new(alloc)),
        due_at_enter: DueList::new(Items::new(alloc)),
    })?;
    Ok(methods)
}

/// `class A { public static void main(String[] a) { } }`, where the class may extend `Thread`, and the method be
/// `synchronized`.
fn small(alloc: Global, extends_thread: bool, is_synchronized: bool) -> Result<UnitParts, Memory>
    ensures { IfOk result (λ parts. WellFormed (program_of parts) × PartsKeep parts) }
{
    let body = TypedStmt::new(alloc, TypedForm::Skip)?;
    let classes = one_class(alloc, extends_thread)?;
    let methods = one_method(alloc, is_synchronized, body)?;
    Ok(UnitParts {
        classes,
        fields: Items::new(alloc),
        methods,
        clauses: Items::new(alloc),
        notes: Items::new(alloc),
        texts: Items::new(alloc),
        main: MethodId(0),
    })
}

fn is_small_built(
    alloc: Global,
    extends_thread: bool,
    is_synchronized: bool,
) -> Result<bool, Memory> {
    let unit = TypedUnit::new(alloc, small(alloc, extends_thread, is_synchronized)?)?;
    Ok(is_built(&unit))
}

#[test]
fn tells_whether_units_are_built(rt: HostRuntime) {
    let alloc = rt.alloc();
    assert!(rt; is_small_built(alloc, false, false) == Ok(true));
    assert!(rt; is_small_built(alloc, true, false) == Ok(false));
    assert!(rt; is_small_built(alloc, false, true) == Ok(false));
}

// ---- statements

fn is_form_built(alloc: Global, form: TypedForm) -> Result<bool, Memory> {
    Ok(is_stmt_built(&TypedStmt::new(alloc, form)?))
}

/// `for (; true; ..) ;` with those updates.
fn loop_with(alloc: Global, update: Items<Effect>) -> Result<bool, Memory> {
    let condition = TypedExpr::new(alloc, TypedShape::Truth(true))?;
    let body = TypedStmt::new(alloc, TypedForm::Skip)?;
    is_form_built(alloc, TypedForm::Loop(condition, update, body))
}

/// `for (; true; Thread.yield()) ;`
fn yielding_loop(alloc: Global) -> Result<bool, Memory> {
    let mut update = Items::new(alloc);
    update.push(Effect::Yield)?;
    loop_with(alloc, update)
}

/// `for (; true; Thread.yield(), this.join()) ;`
fn joining_loop(alloc: Global) -> Result<bool, Memory> {
    let mut update = Items::new(alloc);
    update.push(Effect::Yield)?;
    let this = TypedExpr::new(alloc, TypedShape::This)?;
    update.push(Effect::CallObject(ObjectCall::Join, this))?;
    loop_with(alloc, update)
}

/// A block of so many `;`.
fn long_block(alloc: Global, count: u32) -> Result<bool, Memory> {
    let mut all = Items::new(alloc);
    for _ in 0..count {
        all.push(TypedStmt::new(alloc, TypedForm::Skip)?)?;
    }
    is_form_built(alloc, TypedForm::Block(all))
}

/// `return new Thread(this);`
fn thread_returned(alloc: Global) -> Result<bool, Memory> {
    let this = TypedExpr::new(alloc, TypedShape::This)?;
    let thread = TypedExpr::new(alloc, TypedShape::NewThread(this))?;
    is_form_built(alloc, TypedForm::ReturnValue(thread))
}

#[test]
fn tells_whether_statements_are_built(rt: HostRuntime) {
    let alloc = rt.alloc();
    assert!(rt; yielding_loop(alloc) == Ok(true));
    assert!(rt; joining_loop(alloc) == Ok(false));
    assert!(rt; long_block(alloc, 100_000) == Ok(true));
    assert!(rt; thread_returned(alloc) == Ok(false));
}

// ---- clauses

fn is_predicate_built(alloc: Global, kind: ClauseKind, shape: ClauseShape) -> Result<bool, Memory> {
    let mut states = Items::new(alloc);
    states.push(ClauseExpr::new(alloc, shape)?)?;
    let place = Position { line: 1, column: 1 };
    Ok(is_clause_built(&TypedSpec {
        kind,
        owner: Owner::Method(MethodId(0)),
        mode: Mode::Java,
        is_static: false,
        place,
        states,
    }))
}

/// `this.length[\old(this)]`, and without the `\old`: types play no part here.
fn with_index(alloc: Global, is_old: bool) -> Result<bool, Memory> {
    let mut index = ClauseExpr::new(alloc, ClauseShape::This)?;
    if is_old {
        index = ClauseExpr::new(alloc, ClauseShape::Old(index))?;
    }
    let mut suffixes = Items::new(alloc);
    suffixes.push(ClauseSuffix::Length)?;
    suffixes.push(ClauseSuffix::Element(index))?;
    let this = ClauseExpr::new(alloc, ClauseShape::This)?;
    is_predicate_built(
        alloc,
        ClauseKind::Ensures,
        ClauseShape::Suffixed(this, suffixes),
    )
}

/// `\lockset.has(this)`.
fn lockset(alloc: Global) -> Result<bool, Memory> {
    let this = ClauseExpr::new(alloc, ClauseShape::This)?;
    is_predicate_built(alloc, ClauseKind::Requires, ClauseShape::InLockset(this))
}

#[test]
fn tells_whether_clauses_are_built(rt: HostRuntime) {
    let alloc = rt.alloc();
    assert!(rt; with_index(alloc, false) == Ok(true));
    assert!(rt; with_index(alloc, true) == Ok(false));
    assert!(rt; lockset(alloc) == Ok(false));
    assert!(rt; is_predicate_built(alloc, ClauseKind::When, ClauseShape::Truth(true)) == Ok(true));
    assert!(rt; is_predicate_built(alloc, ClauseKind::Locks, ClauseShape::This) == Ok(false));
}
