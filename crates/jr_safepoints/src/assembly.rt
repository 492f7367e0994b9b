//! The parts of a typed program, put together from what is made of its source.

ghost use Rattle.std.specs.Prelude.{◌≡◌, drop, length, map, option_map, IfOk, OnOk};
ghost use Rattle.jr_names.specs.Answered.{Moves};
ghost use Rattle.jr_program.specs.UnitViews as unit;
ghost use Rattle.jr_safepoints.specs.Assembled.{and_class, and_field, and_member, and_method, nothing, view_assembly};
ghost use Rattle.jr_safepoints.specs.Due.{clauses_in, SortsAll};
ghost use Rattle.jr_safepoints.specs.Slotted.{CountsAll};
ghost use Rattle.jr_typing.specs.MadeViews.{view_class, view_field, view_member, view_method};
ghost use Rattle.jr_typing_rules.specs.Answers.{one_by_one};
ghost use Rattle.jr_typing_rules.specs.Types as types;
ghost use Rattle.jr_typing_rules.specs.Whole as rules;

use crate::owned::{MethodDues, Owned};
use crate::slots::Slots;
use jr_base::{Fail, Memory, MethodId, SlotKind};
use jr_names::{Names, is_helper, is_synchronized};
use jr_program::{TypedClass, TypedField, TypedMethod};
use jr_typing::{MadeClass, MadeField, MadeMember, MadeMethod, kind_of};
use jr_typing_rules::{MethodEntry, ValueType};
use sqlite_items::Items;
use std::alloc::Global;

/// The classes, fields and methods so far, in source order, with what is due where.
#[derive(Drop)]
pub struct Assembly {
    pub classes: Items<TypedClass>,
    pub fields: Items<TypedField>,
    pub methods: Items<TypedMethod>,
    pub slots: Slots,
}

/// What a thread runs is an instance method without formals.
fn run_of(entry: &MethodEntry) -> Option<MethodId>
    ensures { result ≡ rules.runs entry.now }
{
    if !entry.is_static && entry.formals.is_empty() {
        Some(entry.number)
    } else {
        None
    }
}

fn class_run(names: &Names<'_>, class: &MadeClass<'_>) -> Option<MethodId>
    ensures { result ≡ (rules.program_class names.now.names (view_class class.now)).run }
{
    match names.method_in(class.number, b"run".as_slice()) {
        Some(entry) => run_of(entry),
        None => None,
    }
}

fn class_constructor(names: &Names<'_>, class: &MadeClass<'_>) -> Option<MethodId>
    ensures { result ≡ (rules.program_class names.now.names (view_class class.now)).constructor }
{
    match names.constructor(class.number) {
        Some(entry) => Some(entry.number),
        None => None,
    }
}

/// The class of the program.
fn typed_class(
    alloc: Global,
    names: &Names<'_>,
    class: &MadeClass<'_>,
) -> Result<TypedClass, Memory>
    ensures { IfOk result (λ typed. unit.view_class typed ≡ rules.program_class names.now.names (view_class class.now)) }
{
    let name = Items::from_slice(alloc, class.source.name.text.as_slice())?;
    Ok(TypedClass {
        name,
        extends_thread: class.source.extends_thread,
        implements_runnable: class.source.implements_runnable,
        run: class_run(names, class),
        constructor: class_constructor(names, class),
    })
}

/// The name of a method; a constructor's is `new`.
fn method_name(alloc: Global, method: &MadeMethod<'_>) -> Result<Items<u8>, Memory>
    ensures { IfOk result (λ name. name ≡ rules.method_name (view_method method.now)) }
{
    let name = if method.is_constructor {
        b"new".as_slice()
    } else {
        method.source.name.text.as_slice()
    };
    Ok(Items::from_slice(alloc, name)?)
}

/// The kinds of its variables behind its formals.
fn locals_of(alloc: Global, method: &MadeMethod<'_>) -> Result<Items<SlotKind>, Memory>
    ensures { IfOk result (λ kinds. kinds ≡ drop (length method.now.formal_kinds) method.now.kinds) }
{
    let kinds = method.kinds.as_slice();
    let first = method.formal_kinds.len().min(kinds.len());
    Ok(Items::from_slice(alloc, &kinds[first..])?)
}

fn result_kind(of: Option<ValueType>) -> Option<SlotKind>
    ensures { result ≡ option_map types.kind_of of }
{
    match of {
        Some(of) => Some(kind_of(of)),
        None => None,
    }
}

impl Assembly {
    /// Nothing. Takes no memory.
    pub fn new(alloc: Global) -> Assembly
        ensures empty { view_assembly result ≡ nothing }
        ensures counted { CountsAll (map unit.view_field result.fields) result.slots }
    {
        Assembly {
            classes: Items::new(alloc),
            fields: Items::new(alloc),
            methods: Items::new(alloc),
            slots: Slots::new(alloc),
        }
    }

    /// Adds a field. Refused where too much is due at it.
    fn add_field(
        &mut self,
        alloc: Global,
        owned: &Owned<'_>,
        field: &MadeField<'_>,
    ) -> Result<(), Fail>
        requires sorted { SortsAll owned.now }
        requires counts { CountsAll (map unit.view_field self.old.fields) self.old.slots }
        ensures added { Moves view_assembly (and_field (clauses_in owned.now) (view_assembly self.old) (view_field field.now)) result self.new }
        ensures counted { OnOk result (CountsAll (map unit.view_field self.new.fields) self.new.slots) }
    {
        let due_at_access = owned.due_at_field(alloc, field)?;
        let slot = self.slots.take(field.class, field.is_static)?;
        self.fields.push(TypedField {
            class: field.class,
            is_static: field.is_static,
            is_volatile: field.is_volatile,
            kind: kind_of(field.of),
            constant: field.constant,
            slot,
            due_at_access,
        })?;
        Ok(())
    }

    /// Adds fields, from the first to the last.
    #[tactic(auto, using(jr_names::proofs::Turns::step_fails, jr_names::proofs::Turns::step_goes_on, jr_names::proofs::Turns::no_step_left))]
    fn add_fields(
        &mut self,
        alloc: Global,
        owned: &Owned<'_>,
        all: &[MadeField<'_>],
    ) -> Result<(), Fail>
        requires sorted { SortsAll owned.now }
        requires counts { CountsAll (map unit.view_field self.old.fields) self.old.slots }
        ensures added { Moves view_assembly (one_by_one (and_field (clauses_in owned.now)) (view_assembly self.old) (map view_field all.now)) result self.new }
        ensures counted { OnOk result (CountsAll (map unit.view_field self.new.fields) self.new.slots) }
    {
        for field in all {
            self.add_field(alloc, owned, field)?;
        }
        Ok(())
    }

    /// Adds a method, whose body moves. Refused where too much is due in it.
    fn add_method(
        &mut self,
        alloc: Global,
        owned: &Owned<'_>,
        method: MadeMethod<'_>,
    ) -> Result<(), Fail>
        requires sorted { SortsAll owned.now }
        ensures added { Moves view_assembly (and_method (clauses_in owned.now) (view_assembly self.old) (view_method method.entry)) result self.new }
        ensures fields { OnOk result (self.new.fields ≡ self.old.fields) }
        ensures slots { OnOk result (self.new.slots ≡ self.old.slots) }
    {
        let dues = owned.dues_of(alloc, &method)?;
        let name = method_name(alloc, &method)?;
        let locals = locals_of(alloc, &method)?;
        let is_synchronized = is_synchronized(method.source.modifiers.as_slice());
        let is_helper = is_helper(method.source.modifiers.as_slice());
        let result = result_kind(method.result);
        let MethodDues {
            at_call,
            at_commit,
            at_leave,
            at_enter,
        } = dues;
        self.methods.push(TypedMethod {
            name,
            class: method.class,
            is_static: method.is_static,
            is_constructor: method.is_constructor,
            is_synchronized,
            is_helper,
            formals: method.formal_kinds,
            locals,
            result,
            body: method.body,
            due_at_call: at_call,
            due_at_commit: at_commit,
            due_at_leave: at_leave,
            due_at_enter: at_enter,
        })?;
        Ok(())
    }

    /// Adds what a member declares.
    fn add_member(
        &mut self,
        alloc: Global,
        owned: &Owned<'_>,
        member: MadeMember<'_>,
    ) -> Result<(), Fail>
        requires sorted { SortsAll owned.now }
        requires counts { CountsAll (map unit.view_field self.old.fields) self.old.slots }
        ensures added { Moves view_assembly (and_member (clauses_in owned.now) (view_assembly self.old) (view_member member.entry)) result self.new }
        ensures counted { OnOk result (CountsAll (map unit.view_field self.new.fields) self.new.slots) }
    {
        match member {
            MadeMember::Fields(_, fields) => self.add_fields(alloc, owned, fields.as_slice()),
            MadeMember::Method(method) => self.add_method(alloc, owned, method),
            MadeMember::Clause(_) => Ok(()),
        }
    }

    /// Adds what members declare, from the first to the last.
    #[tactic(auto, using(crate::proofs::Moving::step_fails, crate::proofs::Moving::step_goes_on, crate::proofs::Moving::no_step_left))]
    fn add_members(
        &mut self,
        alloc: Global,
        owned: &Owned<'_>,
        members: Vec<MadeMember<'_>>,
    ) -> Result<(), Fail>
        requires sorted { SortsAll owned.now }
        requires counts { CountsAll (map unit.view_field self.old.fields) self.old.slots }
        ensures added { Moves view_assembly (one_by_one (and_member (clauses_in owned.now)) (view_assembly self.old) (map view_member members.entry.items)) result self.new }
        ensures counted { OnOk result (CountsAll (map unit.view_field self.new.fields) self.new.slots) }
    {
        for member in members {
            self.add_member(alloc, owned, member)?;
        }
        Ok(())
    }

    /// Adds a class and what its members declare.
    fn add_class(
        &mut self,
        alloc: Global,
        names: &Names<'_>,
        owned: &Owned<'_>,
        class: MadeClass<'_>,
    ) -> Result<(), Fail>
        requires sorted { SortsAll owned.now }
        requires counts { CountsAll (map unit.view_field self.old.fields) self.old.slots }
        ensures added { Moves view_assembly (and_class names.now.names (clauses_in owned.now) (view_assembly self.old) (view_class class.entry)) result self.new }
        ensures counted { OnOk result (CountsAll (map unit.view_field self.new.fields) self.new.slots) }
    {
        let typed = typed_class(alloc, names, &class)?;
        self.classes.push(typed)?;
        self.add_members(alloc, owned, class.members)
    }

    /// Adds classes and what their members declare, from the first to the last. Refused as `TooManyClauses`, at its name,
    /// is the first field or method at which more than 16 clauses are due.
    #[tactic(auto, using(crate::proofs::Moving::step_fails, crate::proofs::Moving::step_goes_on, crate::proofs::Moving::no_step_left))]
    pub fn add_classes(
        &mut self,
        alloc: Global,
        names: &Names<'_>,
        owned: &Owned<'_>,
        classes: Vec<MadeClass<'_>>,
    ) -> Result<(), Fail>
        requires sorted { SortsAll owned.now }
        requires counts { CountsAll (map unit.view_field self.old.fields) self.old.slots }
        ensures added { Moves view_assembly (one_by_one (and_class names.now.names (clauses_in owned.now)) (view_assembly self.old) (map view_class classes.entry.items)) result self.new }
        ensures counted { OnOk result (CountsAll (map unit.view_field self.new.fields) self.new.slots) }
    {
        for class in classes {
            self.add_class(alloc, names, owned, class)?;
        }
        Ok(())
    }
}
