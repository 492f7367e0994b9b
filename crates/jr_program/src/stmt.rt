//! Statements.

ghost use Rattle.std.specs.Prelude.{◌≡◌, IfOk};
ghost use Rattle.jr_program.specs.StatementViews.{view_form, view_stmt};

use crate::copied::{Copied, copy_all};
use crate::expr::{Effect, TypedExpr};
use jr_base::{ClauseId, Fault, Memory, TextId};
use sqlite_items::{Boxed, Items};
use std::alloc::Global;

/// A statement (JLS 14.5).
#[cycle(typed_stmt)]
#[derive(Drop)]
pub struct TypedStmt {
    pub form: Boxed<TypedForm>,
}

/// What a statement is made of.
#[cycle(typed_stmt)]
#[derive(Drop)]
pub enum TypedForm {
    /// `;`, and what stands where an `if` has no `else` (JLS 14.6).
    Skip,
    /// Statements one after the other: a block, several variables of one declaration, or a `for` behind
    /// its first part (JLS 14.2, 14.4, 14.14).
    Block(Items<TypedStmt>),
    /// A variable, by its number in the method, and the value that it begins with (JLS 14.4).
    Declare(u32, TypedExpr),
    /// An expression statement (JLS 14.8).
    Do(Effect),
    /// The condition, what is done where it holds, and what else (JLS 14.9).
    If(TypedExpr, TypedStmt, TypedStmt),
    /// `while`, and `for` without its first part: the condition, the update and the body (JLS 14.12, 14.14).
    Loop(TypedExpr, Items<Effect>, TypedStmt),
    /// The body and the condition (JLS 14.13).
    DoLoop(TypedStmt, TypedExpr),
    /// `break;` (JLS 14.15).
    Break,
    /// `continue;` (JLS 14.16).
    Continue,
    /// `return;` (JLS 14.17).
    Return,
    /// `return e;` (JLS 14.17).
    ReturnValue(TypedExpr),
    /// `throw new X(..);` (JLS 14.18).
    Throw(Fault),
    /// `throw x;` of the variable of a catch, by its number in the method (JLS 14.18).
    ThrowCaught(u32),
    /// The block and its catches (JLS 14.20).
    Try(TypedStmt, Items<TypedCatch>),
    /// Whose monitor is taken, and the block (JLS 14.19).
    Synchronized(TypedExpr, TypedStmt),
    /// The statement under the label `commit`, where the method's `when` is to hold.
    Commit(TypedStmt),
    /// `System.out.println(..);`.
    Println(Items<TypedPart>),
    /// `assert e;` of JML: its clause, and the numbers of the variables in scope, in order of declaration.
    Assert(ClauseId, Items<u32>),
}

/// A catch: its exception, the number of its variable in the method, and its block (JLS 14.20).
#[cycle(typed_stmt)]
#[derive(Drop)]
pub struct TypedCatch {
    pub fault: Fault,
    pub number: u32,
    pub handler: TypedStmt,
}

/// A part of what is printed.
#[derive(Drop)]
pub enum TypedPart {
    /// A string literal.
    Literal(TextId),
    /// A value, printed as a string conversion gives it (JLS 5.1.11).
    Shown(TypedExpr),
}

impl TypedStmt {
    /// The statement of that form.
    #[tactic(auto, using(crate::proofs::StatementEquations::view_node))]
    pub fn new(alloc: Global, form: TypedForm) -> Result<TypedStmt, Memory>
        ensures { IfOk result (λ stmt. view_stmt stmt ≡ view_form form) }
    {
        let form = Boxed::new(alloc, form)?;
        Ok(TypedStmt { form })
    }

    /// An equal statement, with memory of its own.
    #[cycle(copy_stmt)]
    pub fn copy(&self, alloc: Global) -> Result<TypedStmt, Memory>
        ensures { IfOk result (λ copy. copy ≡ self.now) }
    {
        let form = self.form.get().copy(alloc)?;
        let form = Boxed::new(alloc, form)?;
        Ok(TypedStmt { form })
    }
}

impl TypedForm {
    #[cycle(copy_stmt)]
    fn copy(&self, alloc: Global) -> Result<TypedForm, Memory>
        ensures { IfOk result (λ copy. copy ≡ self.now) }
    {
        Ok(match self {
            TypedForm::Skip => TypedForm::Skip,
            TypedForm::Block(all) => TypedForm::Block(copy_stmts(all.as_slice(), alloc)?),
            TypedForm::Declare(number, e) => TypedForm::Declare(*number, e.copy(alloc)?),
            TypedForm::Do(effect) => TypedForm::Do(effect.copied(alloc)?),
            TypedForm::If(e, a, b) => TypedForm::If(e.copy(alloc)?, a.copy(alloc)?, b.copy(alloc)?),
            TypedForm::Loop(e, update, body) => {
                let update = copy_all(update.as_slice(), alloc)?;
                TypedForm::Loop(e.copy(alloc)?, update, body.copy(alloc)?)
            }
            TypedForm::DoLoop(body, e) => TypedForm::DoLoop(body.copy(alloc)?, e.copy(alloc)?),
            TypedForm::Break => TypedForm::Break,
            TypedForm::Continue => TypedForm::Continue,
            TypedForm::Return => TypedForm::Return,
            TypedForm::ReturnValue(e) => TypedForm::ReturnValue(e.copy(alloc)?),
            TypedForm::Throw(fault) => TypedForm::Throw(*fault),
            TypedForm::ThrowCaught(number) => TypedForm::ThrowCaught(*number),
            TypedForm::Try(body, catches) => {
                TypedForm::Try(body.copy(alloc)?, copy_catches(catches.as_slice(), alloc)?)
            }
            TypedForm::Synchronized(e, body) => {
                TypedForm::Synchronized(e.copy(alloc)?, body.copy(alloc)?)
            }
            TypedForm::Commit(labelled) => TypedForm::Commit(labelled.copy(alloc)?),
            TypedForm::Println(parts) => TypedForm::Println(copy_all(parts.as_slice(), alloc)?),
            TypedForm::Assert(clause, numbers) => {
                TypedForm::Assert(*clause, Items::from_slice(alloc, numbers.as_slice())?)
            }
        })
    }
}

#[cycle(copy_stmt)]
fn copy_stmts(all: &[TypedStmt], alloc: Global) -> Result<Items<TypedStmt>, Memory>
    ensures { IfOk result (λ copies. copies ≡ all.now) }
{
    let mut copies = Items::new(alloc);
    for stmt in all {
        copies.push(stmt.copy(alloc)?)?;
    }
    Ok(copies)
}

#[cycle(copy_stmt)]
fn copy_catches(all: &[TypedCatch], alloc: Global) -> Result<Items<TypedCatch>, Memory>
    ensures { IfOk result (λ copies. copies ≡ all.now) }
{
    let mut copies = Items::new(alloc);
    for catch in all {
        copies.push(catch.copy(alloc)?)?;
    }
    Ok(copies)
}

impl TypedCatch {
    #[cycle(copy_stmt)]
    fn copy(&self, alloc: Global) -> Result<TypedCatch, Memory>
        ensures { IfOk result (λ copy. copy ≡ self.now) }
    {
        let handler = self.handler.copy(alloc)?;
        Ok(TypedCatch {
            fault: self.fault,
            number: self.number,
            handler,
        })
    }
}

impl Copied for TypedPart {
    fn copied(&self, alloc: Global) -> Result<TypedPart, Memory> {
        Ok(match self {
            TypedPart::Literal(text) => TypedPart::Literal(*text),
            TypedPart::Shown(e) => TypedPart::Shown(e.copy(alloc)?),
        })
    }
}
