//! The whole typed program.

ghost use Rattle.std.specs.Prelude.{◌≡◌, ◌<◌, ◌≤◌, ◌+◌, ◌^◌, length, slice_get, IfOk};
ghost use Rattle.jr_program.specs.Programs.{class_at, field_at, method_at, clause_at};
ghost use Rattle.jr_program.specs.Sites.{due_at_site};
ghost use Rattle.jr_program.specs.ClauseViews.{view_clause};
ghost use Rattle.jr_program.specs.UnitViews.{view_class, view_field, view_method, program_of};
ghost use Rattle.jr_program.specs.UnitViews.{IsSite, FieldKeeps, MethodKeeps, PartsKeep, AreAlone};
ghost use Rattle.jr_program.specs.WellFormed.{WellFormed};

use crate::clause::TypedSpec;
use crate::copied::{Copied, copy_all};
use crate::due::DueList;
use crate::parts::{TypedClass, TypedField, TypedMethod, TypedNote, UnitParts};
use crate::words::Site;
use jr_base::{ClassId, ClauseId, FieldId, Memory, MethodId, TextId};
use sqlite_items::Items;
use std::alloc::Global;
use std::marker::Model;

/// A typed program (JLS 7.3). It is well formed, and looked up by number: no call here takes more than a
/// step, and none takes memory but `new` and `copy`.
///
/// Contracts see its parts, and through `program_of` the program as plain data.
#[derive(Drop)]
pub struct TypedUnit {
    parts: UnitParts,
    /// By number of the clause, from 1: that clause alone, as it is due at an `assert`.
    alone: Items<DueList>,
}

impl Model for TypedUnit {
    ghost use Rattle.std.specs.Coded.{codes};
    ghost use Rattle.jr_program.specs.declared.parts.UnitParts.{UnitParts};
    ghost use Rattle.jr_program.specs.UnitViews.{IsUnit};
    ghost use Rattle.jr_program.specs.contracts.parts.UnitParts as parts_row;

    ghost Value = { UnitParts };

    ghost coded = { Prim.hlevel (codes, parts_row.the_row.coded) };

    ghost view = { λ u. u.parts };

    ghost invariant = { λ u. IsUnit u.parts u.alone };
}

impl TypedUnit {
    /// The program of those parts.
    pub fn new(alloc: Global, parts: UnitParts) -> Result<TypedUnit, Memory>
        requires well_formed { WellFormed (program_of parts) }
        requires kept { PartsKeep parts }
        ensures { IfOk result (λ unit. unit ≡ parts) }
    {
        let alone = each_alone(alloc, parts.clauses.len())?;
        Ok(TypedUnit { parts, alone })
    }

    /// An equal unit, with memory of its own.
    pub fn copy(&self, alloc: Global) -> Result<TypedUnit, Memory>
        ensures { IfOk result (λ copy. copy ≡ self.now) }
    {
        let parts = self.parts.copied(alloc)?;
        let alone = copy_all(self.alone.as_slice(), alloc)?;
        Ok(TypedUnit { parts, alone })
    }

    /// A law: what holds of each typed program.
    pub fn well_formed(&self)
        ensures { WellFormed (program_of self.now) }
    {
        let _ = &self.parts;
    }

    /// The clauses that are due at a site.
    pub fn due(&self, site: Site) -> &DueList
        requires { IsSite (program_of self.now) site }
        ensures { result.now ≡ due_at_site (program_of self.now) site }
    {
        match site {
            Site::Entry(m) => &self.method(m).due_at_call,
            Site::Commit(m) => &self.method(m).due_at_commit,
            Site::Return(m) => &self.method(m).due_at_leave,
            Site::Access(f) => &self.field(f).due_at_access,
            Site::Edge(m) => &self.method(m).due_at_enter,
            Site::Assert(c) => numbered(&self.alone, c.0 - 1),
        }
    }

    pub fn clause(&self, c: ClauseId) -> &TypedSpec
        requires first { 0 < c.0 }
        requires last { c.0 ≤ length self.now.clauses }
        ensures { clause_at (program_of self.now) c ≡ Some (view_clause result.now) }
    {
        numbered(&self.parts.clauses, c.0 - 1)
    }

    pub fn class(&self, c: ClassId) -> &TypedClass
        requires { c.0 < length self.now.classes }
        ensures { class_at (program_of self.now) c ≡ Some (view_class result.now) }
    {
        numbered(&self.parts.classes, c.0)
    }

    pub fn field(&self, f: FieldId) -> &TypedField
        requires { f.0 < length self.now.fields }
        ensures named { field_at (program_of self.now) f ≡ Some (view_field result.now) }
        ensures kept { FieldKeeps (program_of self.now) f result.now }
    {
        numbered(&self.parts.fields, f.0)
    }

    pub fn method(&self, m: MethodId) -> &TypedMethod
        requires { m.0 < length self.now.methods }
        ensures named { method_at (program_of self.now) m ≡ Some (view_method result.now) }
        ensures kept { MethodKeeps (program_of self.now) m result.now }
    {
        numbered(&self.parts.methods, m.0)
    }

    /// The bytes that a string literal stands for.
    pub fn text(&self, text: TextId) -> &[u8]
        requires { text.0 < length self.now.texts }
        ensures { slice_get self.now.texts text.0 ≡ Some result.now }
    {
        numbered(&self.parts.texts, text.0).as_slice()
    }

    /// The words of JML that are read and not judged, in source order.
    pub fn notes(&self) -> &[TypedNote]
        ensures { result.now ≡ self.now.notes }
    {
        self.parts.notes.as_slice()
    }

    /// The method that the first thread runs (JLS 12.1.4).
    pub fn main(&self) -> MethodId
        ensures { result ≡ self.now.main }
    {
        self.parts.main
    }

    pub fn class_count(&self) -> u32
        ensures { result ≡ length self.now.classes }
    {
        self.parts.classes.len() as u32
    }

    pub fn field_count(&self) -> u32
        ensures { result ≡ length self.now.fields }
    {
        self.parts.fields.len() as u32
    }

    pub fn method_count(&self) -> u32
        ensures { result ≡ length self.now.methods }
    {
        self.parts.methods.len() as u32
    }

    pub fn clause_count(&self) -> u32
        ensures { result ≡ length self.now.clauses }
    {
        self.parts.clauses.len() as u32
    }

    pub fn text_count(&self) -> u32
        ensures { result ≡ length self.now.texts }
    {
        self.parts.texts.len() as u32
    }
}

/// The item of that number, from 0.
fn numbered<T>(items: &Items<T>, number: u32) -> &T
    requires { number < length items.now }
    ensures { slice_get items.now number ≡ Some result.now }
{
    &items.as_slice()[number as usize]
}

/// For each of so many clauses, that clause alone.
#[tactic(auto, using(crate::proofs::Alone::alone_none, crate::proofs::Alone::alone_more))]
fn each_alone(alloc: Global, count: usize) -> Result<Items<DueList>, Memory>
    requires { count + 1 < 2 ^ 32 }
    ensures { IfOk result (AreAlone count) }
{
    let mut lists = Items::new(alloc);
    for number in 0..count {
        let mut numbers = Items::new(alloc);
        numbers.push(ClauseId(number as u32 + 1))?;
        lists.push(DueList::new(numbers))?;
    }
    Ok(lists)
}
