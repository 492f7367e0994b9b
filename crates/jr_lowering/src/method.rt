//! The code of one method.

ghost use Rattle.std.specs.Prelude.{◌≡◌, ◌++◌, [], ◌∷◌, length, map, IfOk, OnOk};
ghost use Rattle.std.specs.List.{repeat};
ghost use Rattle.jr_base.specs.declared.kind.SlotKind.TheVariants.{Ref as Reference};
ghost use Rattle.jr_program.specs.UnitViews.{program_of, view_method};
ghost use Rattle.jr_program.specs.StatementViews.{view_stmt};
ghost use Rattle.jr_base.specs.Content.{default_value};
ghost use Rattle.jr_code.specs.Instructions.{Push};
ghost use Rattle.jr_code.specs.Checked.{this_kind};
ghost use Rattle.jr_code.specs.Views.{tables_of, method_of};
ghost use Rattle.jr_code.specs.WellFormed.{LocalsBegin};
ghost use Rattle.jr_lowering.specs.StatementCode.{monitors_in, no_monitors, statement_regions};
ghost use Rattle.jr_lowering.specs.ProgramCode.{body_code, end_code, method_code, setting_of};
ghost use Rattle.jr_lowering.specs.Encoded.{AreCoded, KeepsMethods, NoneUnknown};
ghost use Rattle.jr_lowering.specs.Ops.{means};

use crate::access::Locals;
use crate::exit::Exits;
use crate::monitors::monitors_of;
use crate::op::{Emitted, Op};
use crate::region::Regions;
use crate::size::sum;
use crate::statement_size::{Around, size_of_statement};
use crate::stmt::put_statement;
use crate::tables::{add, row_of};
use jr_base::{Memory, Reserved, SlotKind};
use jr_code::{Code, Instr, MethodCode};
use jr_program::{TypedMethod, TypedUnit};
use std::alloc::Global;

// A length, as a number of locals.
fn counted(length: usize) -> Result<u32, Memory>
    ensures { IfOk result (λ n. n ≡ length) }
{
    if length > u32::MAX as usize {
        return Err(Memory);
    }
    Ok(length as u32)
}

/// The locals of a method's variables.
fn locals_of(method: &TypedMethod) -> Result<Locals, Memory>
    ensures is_static { IfOk result (λ locals. locals.is_static ≡ method.now.is_static) }
    ensures variables { IfOk result (λ locals. locals.variables ≡ length (method.now.formals ++ method.now.locals)) }
{
    let formals = counted(method.formals.len())?;
    let others = counted(method.locals.len())?;
    let variables = sum(formals, others)?;
    Ok(Locals {
        is_static: method.is_static,
        variables,
    })
}

// The value that stands where a method with a result would run off its end.
fn default(kind: SlotKind) -> Op
    ensures { means result ≡ Push (default_value kind) }
{
    match kind {
        SlotKind::Int => Op::PushInt(0),
        SlotKind::Long => Op::PushLong(0),
        SlotKind::Bool => Op::PushTruth(false),
        SlotKind::Ref | SlotKind::Caught => Op::PushNull,
    }
}

/// The end of a body, which is never reached where the method has a result.
#[tactic(auto, using(std::proofs::lemmas::List::append_assoc))]
fn put_end(code: &mut Emitted, gives: Option<SlotKind>, at: u32) -> Result<(), Memory>
    ensures { OnOk result (code.new ≡ code.old ++ end_code gives) }
{
    match gives {
        None => {
            code.put(Op::ReturnNothing, at)?;
            Ok(())
        }
        Some(kind) => {
            let next = code.put(default(kind), at)?;
            code.put(Op::ReturnTop, next)?;
            Ok(())
        }
    }
}

/// The code of a body, and its regions.
fn put_body(
    code: &mut Emitted,
    regions: &mut Regions,
    unit: &TypedUnit,
    method: &TypedMethod,
) -> Result<(), Memory>
    ensures code { OnOk result (code.new ≡ code.old ++ body_code (program_of unit.now) (view_method method.now)) }
    ensures regions { OnOk result (regions.new ≡ regions.old ++ statement_regions (setting_of (program_of unit.now) (view_method method.now)) (view_stmt method.now.body) no_monitors 0) }
{
    let around = Around {
        in_all: 0,
        in_loop: 0,
    };
    let end = size_of_statement(unit, &method.body, around)?;
    let exits = Exits {
        around,
        break_to: end,
        continue_to: end,
    };
    let locals = locals_of(method)?;
    let next = put_statement(code, regions, unit, locals, &method.body, exits, 0)?;
    put_end(code, method.result, next)
}

/// The rows of instructions.
#[tactic(auto, using(crate::proofs::Growing::keeps_all, crate::proofs::Encodes::none_coded, crate::proofs::Encodes::all_coded))]
fn encode(alloc: Global, code: &mut Code, ops: &[Op]) -> Result<Reserved<Instr>, Memory>
    ensures keeps { OnOk result (KeepsMethods code.old code.new) }
    ensures coded { IfOk result (λ instrs. AreCoded (tables_of code.new) instrs.items (map means ops.now)) }
{
    let mut instrs = Reserved::new(alloc);
    for op in ops {
        let row = row_of(code, op)?;
        add(&mut instrs, row.encode())?;
    }
    Ok(instrs)
}

fn add_kinds(list: &mut Reserved<SlotKind>, kinds: &[SlotKind]) -> Result<(), Memory>
    ensures { OnOk result (list.new.items ≡ list.old.items ++ kinds.now) }
{
    for kind in kinds {
        add(list, *kind)?;
    }
    Ok(())
}

#[tactic(auto, using(std::proofs::lemmas::List::append_assoc, crate::proofs::Methods::one_again))]
fn add_references(list: &mut Reserved<SlotKind>, count: u32) -> Result<(), Memory>
    ensures { OnOk result (list.new.items ≡ list.old.items ++ repeat count (Reference ∷ [])) }
{
    for _ in 0..count {
        add(list, SlotKind::Ref)?;
    }
    Ok(())
}

/// The kinds of a method's locals: `this`, its formals, its other variables, and the objects of the monitors that its body
/// may hold.
#[tactic(auto, using(std::proofs::lemmas::List::append_assoc))]
fn kinds_of_locals(alloc: Global, method: &TypedMethod) -> Result<Reserved<SlotKind>, Memory>
    ensures { IfOk result (λ kinds. kinds.items ≡ (this_kind method.now.is_static ++ method.now.formals) ++ (method.now.locals ++ repeat (monitors_in (view_stmt method.now.body)) (Reference ∷ []))) }
{
    let mut kinds = Reserved::new(alloc);
    if !method.is_static {
        add(&mut kinds, SlotKind::Ref)?;
    }
    add_kinds(&mut kinds, method.formals.as_slice())?;
    add_kinds(&mut kinds, method.locals.as_slice())?;
    add_references(&mut kinds, monitors_of(&method.body)?)?;
    Ok(kinds)
}

/// The code of a method. Its instructions name places of the lists of the code, which grow.
#[tactic(auto, using(crate::proofs::Methods::method_is))]
pub fn lower_method(
    alloc: Global,
    code: &mut Code,
    unit: &TypedUnit,
    method: &TypedMethod,
) -> Result<MethodCode, Memory>
    ensures keeps { OnOk result (KeepsMethods code.old code.new) }
    ensures known { OnOk result (NoneUnknown (body_code (program_of unit.now) (view_method method.now))) }
    ensures locals { IfOk result LocalsBegin }
    ensures method { IfOk result (λ m. method_of (tables_of code.new) m ≡ method_code (program_of unit.now) (view_method method.now)) }
{
    let mut emitted = Emitted::new(alloc);
    let mut regions = Regions::new(alloc);
    put_body(&mut emitted, &mut regions, unit, method)?;
    let instrs = encode(alloc, code, emitted.ops())?;
    let mut formals = Reserved::new(alloc);
    add_kinds(&mut formals, method.formals.as_slice())?;
    let locals = kinds_of_locals(alloc, method)?;
    Ok(MethodCode {
        class: method.class,
        formals,
        result: method.result,
        is_static: method.is_static,
        is_synchronized: method.is_synchronized,
        instrs,
        regions: regions.into_regions(),
        locals,
    })
}
