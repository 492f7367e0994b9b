//! What is made of a source: its classes, and their members.

use crate::scope::Variable;
use crate::scopes::Scopes;
use jr_ast::{Class, ClassClause, Method, Modifier, Name};
use jr_base::{ClassId, FieldId, MethodId, SlotKind, Value};
use jr_program::TypedStmt;
use jr_typing_rules::ValueType;
use sqlite_items::Items;

/// A field (JLS 8.3).
#[derive(Clone, Copy, Debug)]
pub struct MadeField<'a> {
    pub name: &'a Name,
    pub number: FieldId,
    pub class: ClassId,
    pub is_static: bool,
    pub is_volatile: bool,
    pub of: ValueType,
    /// What it holds at first: its constant, or 0, false or null (JLS 4.12.5).
    pub constant: Value,
}

/// A method or constructor (JLS 8.4, 8.8).
#[derive(Drop)]
pub struct MadeMethod<'a> {
    pub source: &'a Method,
    pub number: MethodId,
    pub class: ClassId,
    pub is_static: bool,
    pub is_constructor: bool,
    pub result: Option<ValueType>,
    /// Its formals as variables.
    pub formals: Items<Variable<'a>>,
    pub formal_kinds: Items<SlotKind>,
    /// Of all its variables, its formals first.
    pub kinds: Items<SlotKind>,
    pub has_commit: bool,
    pub body: TypedStmt,
    /// Its asserts, each with the variables that are in scope there.
    pub scopes: Scopes<'a>,
}

/// A member of a class (JLS 8.1.6).
#[derive(Drop)]
pub enum MadeMember<'a> {
    /// Fields of one declaration, with its modifiers.
    Fields(&'a [Modifier], Items<MadeField<'a>>),
    Method(MadeMethod<'a>),
    Clause(&'a ClassClause),
}

/// A class, and its members in source order (JLS 8.1).
#[derive(Drop)]
pub struct MadeClass<'a> {
    pub source: &'a Class,
    pub number: ClassId,
    pub members: Vec<MadeMember<'a>>,
}
