//! What a typed program is made of.

use crate::clause::TypedSpec;
use crate::copied::{Copied, copy_all};
use crate::due::DueList;
use crate::stmt::TypedStmt;
use jr_base::{ClassId, Memory, MethodId, Position, SlotKind, Value};
use sqlite_items::Items;
use std::alloc::Global;

/// A class: its name, what it extends and implements, its method `run`, if that is one which a thread runs,
/// and its constructor (JLS 8.1, 8.8; `java.lang.Thread`, `java.lang.Runnable`).
#[derive(Drop)]
pub struct TypedClass {
    pub name: Items<u8>,
    pub extends_thread: bool,
    pub implements_runnable: bool,
    pub run: Option<MethodId>,
    pub constructor: Option<MethodId>,
}

/// A field (JLS 8.3).
#[derive(Drop)]
pub struct TypedField {
    pub class: ClassId,
    pub is_static: bool,
    pub is_volatile: bool,
    pub kind: SlotKind,
    /// What it holds at first: its constant, or 0, false or null.
    pub constant: Value,
    /// Its place among the static or among the other fields of its class.
    pub slot: u32,
    /// Due at each read and write of it.
    pub due_at_access: DueList,
}

/// A method or constructor, whose name is `new` (JLS 8.4, 8.8). Its variables are its formals and then its
/// locals, from 0 on; `main` has no formal that is used.
#[derive(Drop)]
pub struct TypedMethod {
    pub name: Items<u8>,
    pub class: ClassId,
    pub is_static: bool,
    pub is_constructor: bool,
    pub is_synchronized: bool,
    pub is_helper: bool,
    pub formals: Items<SlotKind>,
    pub locals: Items<SlotKind>,
    /// Of what it gives back, where it isn't `void`.
    pub result: Option<SlotKind>,
    pub body: TypedStmt,
    pub due_at_call: DueList,
    pub due_at_commit: DueList,
    pub due_at_leave: DueList,
    /// Due where a `synchronized` statement of its enters a monitor.
    pub due_at_enter: DueList,
}

/// A word of JML that is read and not judged, as `pure`, and where it stands.
#[derive(Drop)]
pub struct TypedNote {
    pub word: Items<u8>,
    pub place: Position,
}

/// What a typed program is made of. Classes, fields, methods with constructors, and string literals count
/// from 0 in source order, clauses from 1.
#[derive(Drop)]
pub struct UnitParts {
    pub classes: Items<TypedClass>,
    pub fields: Items<TypedField>,
    pub methods: Items<TypedMethod>,
    pub clauses: Items<TypedSpec>,
    pub notes: Items<TypedNote>,
    /// The bytes that each string literal stands for (JLS 3.10.5).
    pub texts: Items<Items<u8>>,
    pub main: MethodId,
}

impl Copied for TypedClass {
    fn copied(&self, alloc: Global) -> Result<TypedClass, Memory> {
        let name = Items::from_slice(alloc, self.name.as_slice())?;
        Ok(TypedClass {
            name,
            extends_thread: self.extends_thread,
            implements_runnable: self.implements_runnable,
            run: self.run,
            constructor: self.constructor,
        })
    }
}

impl Copied for TypedField {
    fn copied(&self, alloc: Global) -> Result<TypedField, Memory> {
        let due_at_access = self.due_at_access.copied(alloc)?;
        Ok(TypedField {
            class: self.class,
            is_static: self.is_static,
            is_volatile: self.is_volatile,
            kind: self.kind,
            constant: self.constant,
            slot: self.slot,
            due_at_access,
        })
    }
}

impl Copied for TypedMethod {
    fn copied(&self, alloc: Global) -> Result<TypedMethod, Memory> {
        let name = Items::from_slice(alloc, self.name.as_slice())?;
        let formals = Items::from_slice(alloc, self.formals.as_slice())?;
        let locals = Items::from_slice(alloc, self.locals.as_slice())?;
        let body = self.body.copy(alloc)?;
        let due_at_call = self.due_at_call.copied(alloc)?;
        let due_at_commit = self.due_at_commit.copied(alloc)?;
        let due_at_leave = self.due_at_leave.copied(alloc)?;
        let due_at_enter = self.due_at_enter.copied(alloc)?;
        Ok(TypedMethod {
            name,
            class: self.class,
            is_static: self.is_static,
            is_constructor: self.is_constructor,
            is_synchronized: self.is_synchronized,
            is_helper: self.is_helper,
            formals,
            locals,
            result: self.result,
            body,
            due_at_call,
            due_at_commit,
            due_at_leave,
            due_at_enter,
        })
    }
}

impl Copied for TypedNote {
    fn copied(&self, alloc: Global) -> Result<TypedNote, Memory> {
        let word = Items::from_slice(alloc, self.word.as_slice())?;
        Ok(TypedNote {
            word,
            place: self.place,
        })
    }
}

impl Copied for UnitParts {
    fn copied(&self, alloc: Global) -> Result<UnitParts, Memory> {
        let classes = copy_all(self.classes.as_slice(), alloc)?;
        let fields = copy_all(self.fields.as_slice(), alloc)?;
        let methods = copy_all(self.methods.as_slice(), alloc)?;
        let clauses = copy_all(self.clauses.as_slice(), alloc)?;
        let notes = copy_all(self.notes.as_slice(), alloc)?;
        let texts = copy_all(self.texts.as_slice(), alloc)?;
        Ok(UnitParts {
            classes,
            fields,
            methods,
            clauses,
            notes,
            texts,
            main: self.main,
        })
    }
}
