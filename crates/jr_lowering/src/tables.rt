//! The lists of a program's code whose places instructions name. They only grow, at their ends.

ghost use Rattle.std.specs.Prelude.{◌≡◌, [], ◌∷◌, ◌++◌, length, slice_get, None, Some, IfOk, OnOk};
ghost use Rattle.jr_code.specs.Decoded.{meaning};
ghost use Rattle.jr_code.specs.Views.{tables_of, assert_of, field_of};
ghost use Rattle.jr_lowering.specs.Encoded.{KeepsMethods};
ghost use Rattle.jr_lowering.specs.Ops.{means};

use crate::op::Op;
use jr_base::{Cell, ClassId, Elem, Fault, Memory, NewKind, Reserved, SlotKind, TextId};
use jr_code::{AssertCode, Code, FieldCode, Instruction};
use std::alloc::Global;

/// No methods, and nothing to name.
pub fn no_code(alloc: Global) -> Code
    ensures { result.methods.items ≡ [] }
{
    Code {
        methods: Reserved::new(alloc),
        fields: Reserved::new(alloc),
        longs: Reserved::new(alloc),
        classes: Reserved::new(alloc),
        makes: Reserved::new(alloc),
        elems: Reserved::new(alloc),
        faults: Reserved::new(alloc),
        prints: Reserved::new(alloc),
        asserts: Reserved::new(alloc),
    }
}

/// Adds an item at the end of a list, and answers its place.
pub fn add<T: Drop>(list: &mut Reserved<T>, item: T) -> Result<u32, Memory>
    ensures items { OnOk result (list.new.items ≡ list.old.items ++ item ∷ []) }
    ensures place { IfOk result (λ place. place ≡ length list.old.items) }
{
    let place = list.len();
    list.reserve(1)?;
    list.push(item);
    Ok(place)
}

// ---- the place of what an instruction names

#[tactic(auto, using(crate::proofs::Growing::field_keeps, crate::proofs::Growing::last_mapped))]
fn add_field(code: &mut Code, field: FieldCode) -> Result<u32, Memory>
    ensures keeps { OnOk result (KeepsMethods code.old code.new) }
    ensures place { IfOk result (λ place. slice_get (tables_of code.new).fields place ≡ Some (field_of field)) }
{
    let place = add(&mut code.fields, field)?;
    Ok(place)
}

#[tactic(auto, using(crate::proofs::Growing::long_keeps, crate::proofs::Growing::last))]
fn add_long(code: &mut Code, long: i64) -> Result<u32, Memory>
    ensures keeps { OnOk result (KeepsMethods code.old code.new) }
    ensures place { IfOk result (λ place. slice_get (tables_of code.new).longs place ≡ Some (long)) }
{
    let place = add(&mut code.longs, long)?;
    Ok(place)
}

#[tactic(auto, using(crate::proofs::Growing::class_keeps, crate::proofs::Growing::last))]
fn add_class(code: &mut Code, class: ClassId) -> Result<u32, Memory>
    ensures keeps { OnOk result (KeepsMethods code.old code.new) }
    ensures place { IfOk result (λ place. slice_get (tables_of code.new).classes place ≡ Some (class)) }
{
    let place = add(&mut code.classes, class)?;
    Ok(place)
}

#[tactic(auto, using(crate::proofs::Growing::made_keeps, crate::proofs::Growing::last))]
fn add_made(code: &mut Code, made: NewKind) -> Result<u32, Memory>
    ensures keeps { OnOk result (KeepsMethods code.old code.new) }
    ensures place { IfOk result (λ place. slice_get (tables_of code.new).makes place ≡ Some (made)) }
{
    let place = add(&mut code.makes, made)?;
    Ok(place)
}

#[tactic(auto, using(crate::proofs::Growing::elem_keeps, crate::proofs::Growing::last))]
fn add_elem(code: &mut Code, elem: Elem) -> Result<u32, Memory>
    ensures keeps { OnOk result (KeepsMethods code.old code.new) }
    ensures place { IfOk result (λ place. slice_get (tables_of code.new).elems place ≡ Some (elem)) }
{
    let place = add(&mut code.elems, elem)?;
    Ok(place)
}

#[tactic(auto, using(crate::proofs::Growing::fault_keeps, crate::proofs::Growing::last))]
fn add_fault(code: &mut Code, fault: Fault) -> Result<u32, Memory>
    ensures keeps { OnOk result (KeepsMethods code.old code.new) }
    ensures place { IfOk result (λ place. slice_get (tables_of code.new).faults place ≡ Some (fault)) }
{
    let place = add(&mut code.faults, fault)?;
    Ok(place)
}

#[tactic(auto, using(crate::proofs::Growing::print_keeps, crate::proofs::Growing::last_mapped))]
fn add_print(code: &mut Code, print: Reserved<Option<TextId>>) -> Result<u32, Memory>
    ensures keeps { OnOk result (KeepsMethods code.old code.new) }
    ensures place { IfOk result (λ place. slice_get (tables_of code.new).prints place ≡ Some (print.items)) }
{
    let place = add(&mut code.prints, print)?;
    Ok(place)
}

#[tactic(auto, using(crate::proofs::Growing::assert_keeps, crate::proofs::Growing::last_mapped))]
fn add_assert(code: &mut Code, assert: AssertCode) -> Result<u32, Memory>
    ensures keeps { OnOk result (KeepsMethods code.old code.new) }
    ensures place { IfOk result (λ place. slice_get (tables_of code.new).asserts place ≡ Some (assert_of assert)) }
{
    let place = add(&mut code.asserts, assert)?;
    Ok(place)
}

// An `assert` with memory of its own.
fn copy_of(stated: &AssertCode) -> Result<AssertCode, Memory>
    ensures { IfOk result (λ copy. assert_of copy ≡ assert_of stated.now) }
{
    let scope = stated.scope.copy()?;
    Ok(AssertCode {
        clause: stated.clause,
        scope,
    })
}

// The entry of a field of an object.
fn of_object(slot: u32, kind: SlotKind) -> FieldCode
    ensures { result ≡ record { home = None; slot = slot; kind = kind } }
{
    FieldCode {
        home: None,
        slot,
        kind,
    }
}

// The entry of a static field.
fn of_class(place: Cell, kind: SlotKind) -> FieldCode
    ensures { result ≡ record { home = Some place.obj; slot = place.slot; kind = kind } }
{
    FieldCode {
        home: Some(place.obj),
        slot: place.slot,
        kind,
    }
}

/// The row of an instruction, with the place of what it names.
#[tactic(auto, using(crate::proofs::Growing::keeps_all))]
pub fn row_of(code: &mut Code, op: &Op) -> Result<Instruction, Memory>
    ensures keeps { OnOk result (KeepsMethods code.old code.new) }
    ensures row { IfOk result (λ row. meaning (tables_of code.new) row ≡ means op.now) }
{
    match op {
        Op::PushInt(n) => Ok(Instruction::PushInt(*n)),
        Op::PushLong(n) => Ok(Instruction::PushLong(add_long(code, *n)?)),
        Op::PushTruth(truth) => Ok(Instruction::PushBool(*truth)),
        Op::PushNull => Ok(Instruction::PushNull),
        Op::PushClass(class) => Ok(Instruction::PushClass(add_class(code, *class)?)),
        Op::Load(local) => Ok(Instruction::Load(*local)),
        Op::Store(local) => Ok(Instruction::Store(*local)),
        Op::Pop => Ok(Instruction::Pop),
        Op::Dup => Ok(Instruction::Dup),
        Op::Dup2 => Ok(Instruction::Dup2),
        Op::DupX1 => Ok(Instruction::DupX1),
        Op::DupX2 => Ok(Instruction::DupX2),
        Op::OneOperand(operator) => Ok(Instruction::OneOperand(*operator)),
        Op::TwoOperands(operator) => Ok(Instruction::TwoOperands(*operator)),
        Op::ConvertTo(width) => Ok(Instruction::ConvertTo(*width)),
        Op::Jump(to) => Ok(Instruction::Jump(*to)),
        Op::JumpNot(to) => Ok(Instruction::JumpNot(*to)),
        Op::BackTo(to) => Ok(Instruction::BackTo(*to)),
        Op::GetField(slot, kind) => {
            Ok(Instruction::GetField(add_field(code, of_object(*slot, *kind))?))
        }
        Op::PutField(slot, kind) => {
            Ok(Instruction::PutField(add_field(code, of_object(*slot, *kind))?))
        }
        Op::GetStatic(cell, kind) => {
            Ok(Instruction::GetStatic(add_field(code, of_class(*cell, *kind))?))
        }
        Op::PutStatic(cell, kind) => {
            Ok(Instruction::PutStatic(add_field(code, of_class(*cell, *kind))?))
        }
        Op::GetElement(element) => Ok(Instruction::GetElement(add_elem(code, *element)?)),
        Op::PutElement(element) => Ok(Instruction::PutElement(add_elem(code, *element)?)),
        Op::ArrayLength => Ok(Instruction::ArrayLength),
        Op::Make(made) => Ok(Instruction::Make(add_made(code, *made)?)),
        Op::MakeArray(element) => Ok(Instruction::MakeArray(add_elem(code, *element)?)),
        Op::EnterMonitor => Ok(Instruction::EnterMonitor),
        Op::ExitMonitor => Ok(Instruction::ExitMonitor),
        Op::OnObject(called) => Ok(Instruction::OnObject(*called)),
        Op::WaitForTime => Ok(Instruction::WaitForTime),
        Op::SleepFor => Ok(Instruction::SleepFor),
        Op::YieldNow => Ok(Instruction::YieldNow),
        Op::CallStaticMethod(m) => Ok(Instruction::CallStaticMethod(*m)),
        Op::CallMethodOn(m) => Ok(Instruction::CallMethodOn(*m)),
        Op::ReturnNothing => Ok(Instruction::ReturnNothing),
        Op::ReturnTop => Ok(Instruction::ReturnTop),
        Op::CommitNow => Ok(Instruction::CommitNow),
        Op::AssertThat(stated) => Ok(Instruction::AssertThat(add_assert(code, copy_of(stated)?)?)),
        Op::PrintAll(parts) => Ok(Instruction::PrintAll(add_print(code, parts.copy()?)?)),
        Op::ThrowNew(fault) => Ok(Instruction::ThrowNew(add_fault(code, *fault)?)),
        Op::ThrowLocal(local) => Ok(Instruction::ThrowLocal(*local)),
    }
}
