//! The kinds of the operands after an instruction.

ghost use Rattle.std.specs.Prelude.{◌≡◌, ◌↔◌, ◌≢◌, [], Some, None, IfOk, OnOk, MatchOption, IsTrue, ◌++◌, slice_get};
ghost use Rattle.std.specs.Option.{option_map, option_map_or};
ghost use Rattle.jr_base.specs.declared.kind.SlotKind.TheVariants.{Caught};
ghost use Rattle.jr_arith.specs.Kinds as kinds_of;
ghost use Rattle.jr_code.specs.Instructions.{Load, Store, ThrowLocal, ReturnTop, ReturnNothing, Unknown, GetField, PutField, GetStatic, PutStatic, CallStaticMethod, CallMethodOn, AssertThat, PrintAll, Pop, Dup, Dup2, DupX1, DupX2};
ghost use Rattle.jr_code.specs.Decoded.{meaning};
ghost use Rattle.jr_code.specs.Coded.{entry, instance_field, static_field};
ghost use Rattle.jr_code.specs.Checked.{kinds_of_locals, kinds_with, this_kind, AreVariables};
ghost use Rattle.jr_code.specs.Machine.{values_printed};
ghost use Rattle.jr_code.specs.Verifier.{HasChanged, HasCalled, HasEffect, instance_kind, static_kind};
ghost use Rattle.jr_code.specs.Views.{tables_of, plain_of};
ghost use Rattle.jr_code.specs.WellFormed.{LocalsBegin, plain_method};
ghost use Rattle.jr_code.specs.declared.instruction.Instruction.TheVariants as rows;

use crate::code::{Code, MethodCode};
use crate::instruction::Instruction as Row;
use crate::kinds::{Kinds, are_values};
use jr_arith::{Binary, Unary, Width, kind_of_element};
use jr_base::{MethodId, SlotKind, TextId};
use std::alloc::AllocError;

// The kind of a local.
fn local_kind(code: &Code, method: &MethodCode, place: u32) -> Option<SlotKind>
    requires { LocalsBegin method.now }
    ensures { result ≡ slice_get (kinds_of_locals (plain_method code.now method.now)) place }
{
    method.locals.as_slice().get(place as usize).copied()
}

fn load(code: &Code, method: &MethodCode, place: u32, kinds: &mut Kinds) -> Result<bool, AllocError>
    requires { LocalsBegin method.now }
    ensures { IfOk result (HasEffect (plain_of code.now) (plain_method code.now method.now) (Load place) kinds.old kinds.new) }
{
    match local_kind(code, method, place) {
        Some(kind) => kinds.change(&[], kind),
        None => Ok(false),
    }
}

fn store(code: &Code, method: &MethodCode, place: u32, kinds: &mut Kinds) -> bool
    requires { LocalsBegin method.now }
    ensures { HasEffect (plain_of code.now) (plain_method code.now method.now) (Store place) kinds.old kinds.new result }
{
    match local_kind(code, method, place) {
        Some(kind) => kinds.take(&[kind]),
        None => false,
    }
}

fn throw_local(code: &Code, method: &MethodCode, place: u32, kinds: &Kinds) -> bool
    requires { LocalsBegin method.now }
    ensures { HasEffect (plain_of code.now) (plain_method code.now method.now) (ThrowLocal place) kinds.now kinds.now result }
{
    match local_kind(code, method, place) {
        Some(SlotKind::Caught) => true,
        _ => false,
    }
}

fn return_top(code: &Code, method: &MethodCode, kinds: &mut Kinds) -> bool
    ensures { HasEffect (plain_of code.now) (plain_method code.now method.now) ReturnTop kinds.old kinds.new result }
{
    match method.result {
        Some(kind) => kinds.take(&[kind]),
        None => false,
    }
}

// The kind of an instance field that may be read and written.
fn instance_field_kind(code: &Code, field: u32) -> Option<SlotKind>
    ensures { result ≡ instance_kind (slice_get (tables_of code.now).fields field) }
{
    match code.fields.as_slice().get(field as usize) {
        Some(field) if field.home.is_none() && field.kind != SlotKind::Caught => Some(field.kind),
        _ => None,
    }
}

// The kind of a static field that may be read and written.
fn static_field_kind(code: &Code, field: u32) -> Option<SlotKind>
    ensures { result ≡ static_kind (slice_get (tables_of code.now).fields field) }
{
    match code.fields.as_slice().get(field as usize) {
        Some(field) if field.home.is_some() && field.kind != SlotKind::Caught => Some(field.kind),
        _ => None,
    }
}

fn get_field(
    code: &Code,
    method: &MethodCode,
    field: u32,
    kinds: &mut Kinds,
) -> Result<bool, AllocError>
    ensures { IfOk result (HasEffect (plain_of code.now) (plain_method code.now method.now) (meaning (tables_of code.now) (rows.GetField field)) kinds.old kinds.new) }
{
    match instance_field_kind(code, field) {
        Some(kind) => kinds.change(&[SlotKind::Ref], kind),
        None => Ok(false),
    }
}

fn put_field(code: &Code, method: &MethodCode, field: u32, kinds: &mut Kinds) -> bool
    ensures { HasEffect (plain_of code.now) (plain_method code.now method.now) (meaning (tables_of code.now) (rows.PutField field)) kinds.old kinds.new result }
{
    match instance_field_kind(code, field) {
        Some(kind) => kinds.take(&[SlotKind::Ref, kind]),
        None => false,
    }
}

fn get_static(
    code: &Code,
    method: &MethodCode,
    field: u32,
    kinds: &mut Kinds,
) -> Result<bool, AllocError>
    ensures { IfOk result (HasEffect (plain_of code.now) (plain_method code.now method.now) (meaning (tables_of code.now) (rows.GetStatic field)) kinds.old kinds.new) }
{
    match static_field_kind(code, field) {
        Some(kind) => kinds.change(&[], kind),
        None => Ok(false),
    }
}

fn put_static(code: &Code, method: &MethodCode, field: u32, kinds: &mut Kinds) -> bool
    ensures { HasEffect (plain_of code.now) (plain_method code.now method.now) (meaning (tables_of code.now) (rows.PutStatic field)) kinds.old kinds.new result }
{
    match static_field_kind(code, field) {
        Some(kind) => kinds.take(&[kind]),
        None => false,
    }
}

// The number of values that a print takes.
fn count_values(parts: &[Option<TextId>]) -> usize
    ensures { result ≡ values_printed parts.now }
{
    let mut values = 0;
    for part in parts {
        if part.is_none() {
            values += 1;
        }
    }
    values
}

// How many values a print takes.
fn values_of(code: &Code, print: u32) -> Option<usize>
    ensures { result ≡ option_map values_printed (slice_get (tables_of code.now).prints print) }
{
    if print >= code.prints.len() {
        return None;
    }
    Some(count_values(code.prints.get(print).as_slice()))
}

fn print_all(code: &Code, method: &MethodCode, print: u32, kinds: &mut Kinds) -> bool
    ensures { HasEffect (plain_of code.now) (plain_method code.now method.now) (meaning (tables_of code.now) (rows.PrintAll print)) kinds.old kinds.new result }
{
    match values_of(code, print) {
        Some(n) => kinds.take_values(n),
        None => false,
    }
}

// Whether the locals are there, and hold values.
fn are_variables(code: &Code, method: &MethodCode, places: &[u32]) -> bool
    requires { LocalsBegin method.now }
    ensures { IsTrue result ↔ AreVariables (kinds_of_locals (plain_method code.now method.now)) places.now }
{
    for place in places {
        match local_kind(code, method, *place) {
            Some(SlotKind::Caught) | None => return false,
            Some(_) => {}
        }
    }
    true
}

fn assert_that(code: &Code, method: &MethodCode, asserted: u32, kinds: &Kinds) -> bool
    requires { LocalsBegin method.now }
    ensures { HasEffect (plain_of code.now) (plain_method code.now method.now) (meaning (tables_of code.now) (rows.AssertThat asserted)) kinds.now kinds.now result }
{
    match code.asserts.as_slice().get(asserted as usize) {
        Some(asserted) => are_variables(code, method, asserted.scope.as_slice()),
        None => false,
    }
}

// Gives the result of a call, if it has one.
fn give_result(outcome: Option<SlotKind>, kinds: &mut Kinds) -> Result<(), AllocError>
    ensures { OnOk result (kinds.new ≡ kinds_with outcome kinds.old) }
{
    match outcome {
        Some(kind) => kinds.push(kind),
        None => Ok(()),
    }
}

// Takes the object of a call on one, and the arguments.
fn take_arguments(callee: &MethodCode, kinds: &mut Kinds) -> bool
    ensures { HasChanged (this_kind callee.now.is_static ++ callee.now.formals.items) None kinds.old kinds.new result }
{
    if !kinds.take(callee.formals.as_slice()) {
        return false;
    }
    callee.is_static || kinds.take(&[SlotKind::Ref])
}

fn call(callee: &MethodCode, kinds: &mut Kinds) -> Result<bool, AllocError>
    ensures { IfOk result (HasCalled (this_kind callee.now.is_static ++ callee.now.formals.items) callee.now.result kinds.old kinds.new) }
{
    if !take_arguments(callee, kinds) {
        return Ok(false);
    }
    give_result(callee.result, kinds)?;
    Ok(true)
}

fn callee(code: &Code, called: MethodId) -> Option<&MethodCode>
    ensures { MatchOption result (slice_get code.now.methods.items called.0 ≡ None) (λ callee. slice_get code.now.methods.items called.0 ≡ Some callee.now) }
{
    if called.0 >= code.methods.len() {
        return None;
    }
    Some(code.methods.get(called.0))
}

fn call_static(
    code: &Code,
    method: &MethodCode,
    called: MethodId,
    kinds: &mut Kinds,
) -> Result<bool, AllocError>
    ensures { IfOk result (HasEffect (plain_of code.now) (plain_method code.now method.now) (CallStaticMethod called) kinds.old kinds.new) }
{
    match callee(code, called) {
        Some(callee) => {
            if callee.is_static {
                call(callee, kinds)
            } else {
                Ok(false)
            }
        }
        None => Ok(false),
    }
}

fn call_on(
    code: &Code,
    method: &MethodCode,
    called: MethodId,
    kinds: &mut Kinds,
) -> Result<bool, AllocError>
    ensures { IfOk result (HasEffect (plain_of code.now) (plain_method code.now method.now) (CallMethodOn called) kinds.old kinds.new) }
{
    match callee(code, called) {
        Some(callee) => {
            if callee.is_static {
                Ok(false)
            } else {
                call(callee, kinds)
            }
        }
        None => Ok(false),
    }
}

fn dup(code: &Code, method: &MethodCode, kinds: &mut Kinds) -> Result<bool, AllocError>
    ensures { IfOk result (HasEffect (plain_of code.now) (plain_method code.now method.now) Dup kinds.old kinds.new) }
{
    match kinds.pop() {
        Some(x) => {
            kinds.push(x)?;
            kinds.push(x)?;
            Ok(true)
        }
        None => Ok(false),
    }
}

fn dup2(code: &Code, method: &MethodCode, kinds: &mut Kinds) -> Result<bool, AllocError>
    ensures { IfOk result (HasEffect (plain_of code.now) (plain_method code.now method.now) Dup2 kinds.old kinds.new) }
{
    let Some(y) = kinds.pop() else {
        return Ok(false);
    };
    let Some(x) = kinds.pop() else {
        return Ok(false);
    };
    kinds.push(x)?;
    kinds.push(y)?;
    kinds.push(x)?;
    kinds.push(y)?;
    Ok(true)
}

fn dup_x1(code: &Code, method: &MethodCode, kinds: &mut Kinds) -> Result<bool, AllocError>
    ensures { IfOk result (HasEffect (plain_of code.now) (plain_method code.now method.now) DupX1 kinds.old kinds.new) }
{
    let Some(y) = kinds.pop() else {
        return Ok(false);
    };
    let Some(x) = kinds.pop() else {
        return Ok(false);
    };
    kinds.push(y)?;
    kinds.push(x)?;
    kinds.push(y)?;
    Ok(true)
}

fn dup_x2(code: &Code, method: &MethodCode, kinds: &mut Kinds) -> Result<bool, AllocError>
    ensures { IfOk result (HasEffect (plain_of code.now) (plain_method code.now method.now) DupX2 kinds.old kinds.new) }
{
    let Some(z) = kinds.pop() else {
        return Ok(false);
    };
    let Some(y) = kinds.pop() else {
        return Ok(false);
    };
    let Some(x) = kinds.pop() else {
        return Ok(false);
    };
    kinds.push(z)?;
    kinds.push(x)?;
    kinds.push(y)?;
    kinds.push(z)?;
    Ok(true)
}

// The kind of elements that a place names.
fn element_kind(code: &Code, element: u32) -> Option<SlotKind>
    ensures { result ≡ option_map kinds_of.kind_of_element (slice_get code.now.elems.items element) }
{
    if element >= code.elems.len() {
        return None;
    }
    Some(kind_of_element(code.elems.get(element)))
}

fn get_element(
    code: &Code,
    method: &MethodCode,
    element: u32,
    kinds: &mut Kinds,
) -> Result<bool, AllocError>
    ensures { IfOk result (HasEffect (plain_of code.now) (plain_method code.now method.now) (meaning (tables_of code.now) (rows.GetElement element)) kinds.old kinds.new) }
{
    match element_kind(code, element) {
        Some(kind) => kinds.change(&[SlotKind::Ref, SlotKind::Int], kind),
        None => Ok(false),
    }
}

fn put_element(code: &Code, method: &MethodCode, element: u32, kinds: &mut Kinds) -> bool
    ensures { HasEffect (plain_of code.now) (plain_method code.now method.now) (meaning (tables_of code.now) (rows.PutElement element)) kinds.old kinds.new result }
{
    match element_kind(code, element) {
        Some(kind) => kinds.take(&[SlotKind::Ref, SlotKind::Int, kind]),
        None => false,
    }
}

fn make_array(
    code: &Code,
    method: &MethodCode,
    element: u32,
    kinds: &mut Kinds,
) -> Result<bool, AllocError>
    ensures { IfOk result (HasEffect (plain_of code.now) (plain_method code.now method.now) (meaning (tables_of code.now) (rows.MakeArray element)) kinds.old kinds.new) }
{
    if element >= code.elems.len() {
        return Ok(false);
    }
    kinds.change(&[SlotKind::Int], SlotKind::Ref)
}

fn push_class(
    code: &Code,
    method: &MethodCode,
    class: u32,
    kinds: &mut Kinds,
) -> Result<bool, AllocError>
    ensures { IfOk result (HasEffect (plain_of code.now) (plain_method code.now method.now) (meaning (tables_of code.now) (rows.PushClass class)) kinds.old kinds.new) }
{
    if class >= code.classes.len() {
        return Ok(false);
    }
    kinds.change(&[], SlotKind::Ref)
}

fn push_long(
    code: &Code,
    method: &MethodCode,
    place: u32,
    kinds: &mut Kinds,
) -> Result<bool, AllocError>
    ensures { IfOk result (HasEffect (plain_of code.now) (plain_method code.now method.now) (meaning (tables_of code.now) (rows.PushLong place)) kinds.old kinds.new) }
{
    if place >= code.longs.len() {
        return Ok(false);
    }
    kinds.change(&[], SlotKind::Long)
}

fn make(code: &Code, method: &MethodCode, made: u32, kinds: &mut Kinds) -> Result<bool, AllocError>
    ensures { IfOk result (HasEffect (plain_of code.now) (plain_method code.now method.now) (meaning (tables_of code.now) (rows.Make made)) kinds.old kinds.new) }
{
    if made >= code.makes.len() {
        return Ok(false);
    }
    kinds.change(&[], SlotKind::Ref)
}

fn throw_new(code: &Code, method: &MethodCode, fault: u32, kinds: &Kinds) -> bool
    ensures { HasEffect (plain_of code.now) (plain_method code.now method.now) (meaning (tables_of code.now) (rows.ThrowNew fault)) kinds.now kinds.now result }
{
    fault < code.faults.len()
}

fn two_operands(
    code: &Code,
    method: &MethodCode,
    operator: Binary,
    kinds: &mut Kinds,
) -> Result<bool, AllocError>
    ensures { IfOk result (HasEffect (plain_of code.now) (plain_method code.now method.now) (meaning (tables_of code.now) (rows.TwoOperands operator)) kinds.old kinds.new) }
{
    kinds.change(
        &[operator.left_kind(), operator.right_kind()],
        operator.result_kind(),
    )
}

/// The kinds after an instruction. False where the operands aren't there, or where it names what isn't.
pub(crate) fn apply(
    code: &Code,
    method: &MethodCode,
    instruction: Row,
    kinds: &mut Kinds,
) -> Result<bool, AllocError>
    requires { LocalsBegin method.now }
    ensures { IfOk result (HasEffect (plain_of code.now) (plain_method code.now method.now) (meaning (tables_of code.now) instruction) kinds.old kinds.new) }
{
    match instruction {
        Row::PushInt(_) => kinds.change(&[], SlotKind::Int),
        Row::PushBool(_) => kinds.change(&[], SlotKind::Bool),
        Row::PushNull => kinds.change(&[], SlotKind::Ref),
        Row::PushClass(class) => push_class(code, method, class, kinds),
        Row::PushLong(place) => push_long(code, method, place, kinds),
        Row::Make(made) => make(code, method, made, kinds),
        Row::Load(place) => load(code, method, place, kinds),
        Row::Store(place) => Ok(store(code, method, place, kinds)),
        Row::Pop => Ok(kinds.pop().is_some()),
        Row::Dup => dup(code, method, kinds),
        Row::Dup2 => dup2(code, method, kinds),
        Row::DupX1 => dup_x1(code, method, kinds),
        Row::DupX2 => dup_x2(code, method, kinds),
        Row::OneOperand(operator) => kinds.change(&[operator.kind()], operator.kind()),
        Row::TwoOperands(operator) => two_operands(code, method, operator, kinds),
        Row::ConvertTo(width) => kinds.change(&[width.kind_converted()], width.kind()),
        Row::Jump(_) | Row::BackTo(_) | Row::YieldNow | Row::CommitNow => Ok(true),
        Row::JumpIf(_) | Row::JumpNot(_) => Ok(kinds.take(&[SlotKind::Bool])),
        Row::GetField(field) => get_field(code, method, field, kinds),
        Row::PutField(field) => Ok(put_field(code, method, field, kinds)),
        Row::GetStatic(field) => get_static(code, method, field, kinds),
        Row::PutStatic(field) => Ok(put_static(code, method, field, kinds)),
        Row::GetElement(element) => get_element(code, method, element, kinds),
        Row::PutElement(element) => Ok(put_element(code, method, element, kinds)),
        Row::ArrayLength => kinds.change(&[SlotKind::Ref], SlotKind::Int),
        Row::MakeArray(element) => make_array(code, method, element, kinds),
        Row::EnterMonitor | Row::ExitMonitor | Row::OnObject(_) => Ok(kinds.take(&[SlotKind::Ref])),
        Row::WaitForTime => Ok(kinds.take(&[SlotKind::Ref, SlotKind::Long])),
        Row::SleepFor => Ok(kinds.take(&[SlotKind::Int])),
        Row::CallStaticMethod(called) => call_static(code, method, called, kinds),
        Row::CallMethodOn(called) => call_on(code, method, called, kinds),
        Row::ReturnNothing => Ok(method.result.is_none()),
        Row::ReturnTop => Ok(return_top(code, method, kinds)),
        Row::AssertThat(asserted) => Ok(assert_that(code, method, asserted, kinds)),
        Row::PrintAll(print) => Ok(print_all(code, method, print, kinds)),
        Row::ThrowNew(fault) => Ok(throw_new(code, method, fault, kinds)),
        Row::ThrowLocal(place) => Ok(throw_local(code, method, place, kinds)),
    }
}
