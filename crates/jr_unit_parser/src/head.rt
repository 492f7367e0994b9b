//! What stands before a block or the members of a class.

use jr_ast::{Field, Formal, MethodKind, Modifier, Name};
use sqlite_items::Items;

/// What stands between the clauses of a method or constructor and its block.
#[derive(Drop)]
pub struct Signature {
    pub modifiers: Items<Modifier>,
    pub kind: MethodKind,
    pub name: Name,
    pub formals: Items<Formal>,
}

/// A field, or a method or constructor without its clauses and block.
#[derive(Drop)]
pub enum Declared {
    Field(Field),
    Routine(Signature),
}

/// What stands before the members of a class.
#[derive(Drop)]
pub struct ClassHead {
    pub modifiers: Items<Modifier>,
    pub name: Name,
    pub extends_thread: bool,
    pub implements_runnable: bool,
}
