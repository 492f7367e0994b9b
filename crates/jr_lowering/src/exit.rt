//! The ways out of a statement: what stands around it, and the pieces of code that take and give back monitors.

ghost use Rattle.std.specs.Prelude.{◌≡◌, ◌+◌, [], ◌∷◌, ◌++◌, map, IfOk, OnOk};
ghost use Rattle.jr_program.specs.ExprViews.{view_expr, view_effect};
ghost use Rattle.jr_program.specs.StatementViews.{view_part, view_stmt};
ghost use Rattle.jr_program.specs.UnitViews.{program_of};
ghost use Rattle.jr_code.specs.Instructions.{AssertThat, Dup, EnterMonitor, ExitMonitor, Load, PrintAll, Store};
ghost use Rattle.jr_lowering.specs.ExprCode.{expr_size, shift};
ghost use Rattle.jr_lowering.specs.StatementCode.{effects_size, exit_code, exit_size, inside_loop, inside_monitor, statement_size, text_of_part};
ghost use Rattle.jr_lowering.specs.Emitted.{setting_with};
ghost use Rattle.jr_lowering.specs.Ops.{means};

use crate::access::Locals;
use crate::op::{Emitted, Op};
use crate::size::{size_of_expr, sum};
use crate::statement_size::{Around, size_of_effects, size_of_statement};
use jr_base::{ClauseId, Memory, Reserved, TextId};
use jr_code::AssertCode;
use jr_program::{Effect, TypedExpr, TypedPart, TypedStmt, TypedUnit};

/// What stands around a statement, and the places where `break` and `continue` go.
#[derive(Clone, Copy, Debug, PartialEq, Eq)]
pub struct Exits {
    pub around: Around,
    pub break_to: u32,
    pub continue_to: u32,
}

impl Exits {
    /// Those of the block of a `synchronized` statement.
    pub fn inside_monitor(self) -> Result<Exits, Memory>
        ensures { IfOk result (λ exits. exits ≡ record self { around = inside_monitor self.around }) }
    {
        let around = self.around.inside_monitor()?;
        Ok(Exits {
            around,
            break_to: self.break_to,
            continue_to: self.continue_to,
        })
    }

    /// Those of the body of a loop whose condition stands before it and ends at that place.
    pub fn of_loop(
        self,
        unit: &TypedUnit,
        body: &TypedStmt,
        update: &[Effect],
        test: u32,
    ) -> Result<Exits, Memory>
        ensures around { IfOk result (λ exits. exits.around ≡ inside_loop self.around) }
        ensures continues { IfOk result (λ exits. exits.continue_to ≡ test + 1 + statement_size (program_of unit.now) (view_stmt body.now) (inside_loop self.around)) }
        ensures breaks { IfOk result (λ exits. exits.break_to ≡ test + 1 + statement_size (program_of unit.now) (view_stmt body.now) (inside_loop self.around) + effects_size (program_of unit.now) (map view_effect update.now) + 1) }
    {
        let around = self.around.inside_loop();
        let body = size_of_statement(unit, body, around)?;
        let continue_to = sum(sum(test, 1)?, body)?;
        let back = sum(continue_to, size_of_effects(unit, update)?)?;
        let break_to = sum(back, 1)?;
        Ok(Exits {
            around,
            break_to,
            continue_to,
        })
    }

    /// Those of the body of a `do`, which begins at that place and stands before its condition.
    pub fn of_do(
        self,
        unit: &TypedUnit,
        body: &TypedStmt,
        condition: &TypedExpr,
        at: u32,
    ) -> Result<Exits, Memory>
        ensures around { IfOk result (λ exits. exits.around ≡ inside_loop self.around) }
        ensures continues { IfOk result (λ exits. exits.continue_to ≡ at + statement_size (program_of unit.now) (view_stmt body.now) (inside_loop self.around)) }
        ensures breaks { IfOk result (λ exits. exits.break_to ≡ at + statement_size (program_of unit.now) (view_stmt body.now) (inside_loop self.around) + expr_size (program_of unit.now) (view_expr condition.now) + 1 + 1) }
    {
        let around = self.around.inside_loop();
        let body = size_of_statement(unit, body, around)?;
        let continue_to = sum(at, body)?;
        let test = sum(continue_to, size_of_expr(unit, condition)?)?;
        let break_to = sum(sum(test, 1)?, 1)?;
        Ok(Exits {
            around,
            break_to,
            continue_to,
        })
    }
}

/// Takes the monitor of the object on the stack, and keeps the object in that local.
#[tactic(auto, using(std::proofs::lemmas::List::append_assoc))]
pub fn put_entered(code: &mut Emitted, local: u32, at: u32) -> Result<u32, Memory>
    ensures code { OnOk result (code.new ≡ code.old ++ (Dup ∷ Store local ∷ EnterMonitor ∷ [])) }
    ensures next { IfOk result (λ next. next ≡ at + 1 + 1 + 1) }
{
    let next = code.put(Op::Dup, at)?;
    let next = code.put(Op::Store(local), next)?;
    let next = code.put(Op::EnterMonitor, next)?;
    Ok(next)
}

/// Gives back the monitor of the object in that local.
#[tactic(auto, using(std::proofs::lemmas::List::append_assoc))]
pub fn put_left(code: &mut Emitted, local: u32, at: u32) -> Result<u32, Memory>
    ensures code { OnOk result (code.new ≡ code.old ++ (Load local ∷ ExitMonitor ∷ [])) }
    ensures next { IfOk result (λ next. next ≡ at + 1 + 1) }
{
    let next = code.put(Op::Load(local), at)?;
    let next = code.put(Op::ExitMonitor, next)?;
    Ok(next)
}

/// Gives back so many of the monitors that stand around, the innermost first, and goes out by that instruction.
#[tactic(auto, using(std::proofs::lemmas::List::append_assoc, crate::proofs::Exits::one_exit_code, crate::proofs::Exits::one_exit_size, crate::proofs::Exits::no_depth_code, crate::proofs::Exits::no_count_code, crate::proofs::Exits::no_depth_size, crate::proofs::Exits::no_count_size))]
pub fn put_exits(
    code: &mut Emitted,
    unit: &TypedUnit,
    locals: Locals,
    around: u32,
    count: u32,
    op: Op,
    at: u32,
) -> Result<u32, Memory>
    ensures code { OnOk result (code.new ≡ code.old ++ exit_code (setting_with (program_of unit.now) locals) around count (means op)) }
    ensures next { IfOk result (λ next. next ≡ at + exit_size around count) }
{
    let mut depth = around;
    let mut left = count;
    let mut next = at;
    while depth > 0 && left > 0 {
        depth -= 1;
        left -= 1;
        next = put_left(code, locals.hidden(depth)?, next)?;
    }
    let next = code.put(op, next)?;
    Ok(next)
}

/// Prints, where the values to print are on the stack.
pub fn put_print(code: &mut Emitted, parts: &[TypedPart], at: u32) -> Result<u32, Memory>
    ensures code { OnOk result (code.new ≡ code.old ++ PrintAll (map text_of_part (map view_part parts.now)) ∷ []) }
    ensures next { IfOk result (λ next. next ≡ at + 1) }
{
    let mut texts = Reserved::new(code.allocator());
    for part in parts {
        texts.reserve(1)?;
        texts.push(text_of(part));
    }
    code.put(Op::PrintAll(texts), at)
}

// The text of a part, or none where a value is printed.
fn text_of(part: &TypedPart) -> Option<TextId>
    ensures { result ≡ text_of_part (view_part part.now) }
{
    match part {
        TypedPart::Literal(text) => Some(*text),
        TypedPart::Shown(_) => None,
    }
}

/// A JML `assert`, with the locals of the variables in scope.
pub fn put_assert(
    code: &mut Emitted,
    locals: Locals,
    clause: ClauseId,
    numbers: &[u32],
    at: u32,
) -> Result<u32, Memory>
    ensures code { OnOk result (code.new ≡ code.old ++ AssertThat clause (map (λ number. shift locals.is_static + number) numbers.now) ∷ []) }
    ensures next { IfOk result (λ next. next ≡ at + 1) }
{
    let mut scope = Reserved::new(code.allocator());
    for number in numbers {
        let local = locals.local(*number)?;
        scope.reserve(1)?;
        scope.push(local);
    }
    code.put(Op::AssertThat(AssertCode { clause, scope }), at)
}
