//! The verifier of code.

ghost use Rattle.std.specs.Prelude.{◌≡◌, ◌≢◌, ◌<◌, ◌↔◌, ℕ, [], IsTrue, IfOk, IfErr, OnOk, MatchOption, Some, length, slice_get};
ghost use Rattle.jr_base.specs.declared.kind.SlotKind.TheVariants.{Ref as Reference, Caught};
ghost use Rattle.jr_code.specs.Depth.{IsDepth, IsDepthOf};
ghost use Rattle.jr_code.specs.Verifier.{OnPaths, ExitsRight, ExitWrong, Tells};
ghost use Rattle.jr_code.specs.Told.{Told, fail_of};
ghost use Rattle.jr_code.specs.Views.{plain_of};
ghost use Rattle.jr_code.specs.WellFormed.{LocalsBegin, WellFormedMethod, WellFormedCode, plain_method};

use crate::code::{Code, MethodCode, RegionKind};
use crate::kinds::{Kinds, are_values};
use crate::shapes::{Shapes, Stop};
use crate::verifier::{reach, settle};
use jr_base::{MethodId, SlotKind};
use std::alloc::{AllocError, Global};
use std::marker::Model;

// Whether the locals begin with `this`, where the method isn't static, and then its formals.
fn locals_begin(method: &MethodCode) -> bool
    ensures { IsTrue result ↔ LocalsBegin method.now }
{
    let formals = method.formals.as_slice();
    let locals = method.locals.as_slice();
    if method.is_static {
        return locals.starts_with(formals);
    }
    if !is_reference(method, 0) {
        return false;
    }
    locals[1..].starts_with(formals)
}

fn is_reference(method: &MethodCode, place: u32) -> bool
    ensures { IsTrue result ↔ (slice_get method.now.locals.items place ≡ Some Reference) }
{
    match method.locals.as_slice().get(place as usize) {
        Some(SlotKind::Ref) => true,
        _ => false,
    }
}

// The number of an exit whose local is no reference.
fn wrong_exit(method: &MethodCode) -> Option<u32>
    ensures { MatchOption result (ExitsRight method.now (length method.now.regions.items)) (ExitWrong method.now) }
{
    for number in 0..method.regions.len() {
        if let RegionKind::Exit(place) = method.regions.get(number).kind {
            if !is_reference(method, place) {
                return Some(number);
            }
        }
    }
    None
}

// No operand stands at the first instruction, and no path is known to the others.
fn first_shapes(alloc: Global, code: &Code, method: &MethodCode) -> Result<Shapes, Stop>
    requires { 0 < length method.now.instrs.items }
    ensures sound { IfOk result (OnPaths (plain_of code.now) (plain_method code.now method.now)) }
    ensures size { IfOk result (λ shapes. length shapes ≡ length method.now.instrs.items) }
    ensures begins { IfOk result (λ shapes. slice_get shapes 0 ≡ Some (Some [])) }
    ensures err { IfErr result (Tells code.now method.now) }
{
    let mut shapes = Shapes::new(alloc, method.instrs.len())?;
    let nothing = Kinds::new(alloc);
    reach(code, method, &mut shapes, 0, &nothing)?;
    Ok(shapes)
}

fn gives_caught(method: &MethodCode) -> bool
    ensures { IsTrue result ↔ (method.now.result ≡ Some Caught) }
{
    match method.result {
        Some(SlotKind::Caught) => true,
        _ => false,
    }
}

// How many operands a method needs room for, if it keeps the rules.
fn check_method(alloc: Global, code: &Code, method: &MethodCode) -> Result<u32, Stop>
    ensures ok { OnOk result (WellFormedMethod code.now method.now) }
    ensures depth { IfOk result (IsDepth (plain_of code.now) (plain_method code.now method.now)) }
    ensures err { IfErr result (Tells code.now method.now) }
{
    if !locals_begin(method) {
        return Err(Stop::Broken(0));
    }
    if !are_values(method.formals.as_slice()) {
        return Err(Stop::Broken(0));
    }
    if gives_caught(method) {
        return Err(Stop::Broken(0));
    }
    if let Some(_number) = wrong_exit(method) {
        return Err(Stop::Broken(0));
    }
    let length = method.instrs.len();
    if length == 0 {
        return Err(Stop::Broken(0));
    }
    let mut shapes = first_shapes(alloc, code, method)?;
    settle(alloc, code, method, &mut shapes)?;
    Ok(shapes.deepest())
}

/// Why code isn't taken.
#[derive(Clone, Copy, Debug, PartialEq, Eq)]
pub enum CheckFail {
    /// A rule is broken at that instruction of that method, or at its place 0 where the rule is one on its formals, its
    /// result, its locals or its regions.
    Bad { method: MethodId, at: u32 },
    /// There was no memory, or the operands at all places of a method are together more than `u32::MAX`.
    Memory,
}

/// Code that keeps the rules, with the room that its calls need.
#[derive(Drop)]
pub struct Checked {
    code: Code,
    depths: Vec<u32>,
}

impl Model for Checked {
    ghost use Rattle.jr_code.specs.declared.code.Code.{Code};
    ghost use Rattle.jr_code.specs.Depth.{AreDepths};
    ghost use Rattle.jr_code.specs.WellFormed.{WellFormedCode};

    ghost Value = { Code };

    ghost view = { λ c. c.code };

    ghost invariant = { λ c. WellFormedCode c.code × AreDepths c.code c.depths.items };
}

impl Checked {
    /// The code that was checked. Takes no memory.
    pub fn parts(&self) -> &Code
        ensures same { result.now ≡ self.now }
        ensures well_formed { WellFormedCode result.now }
    {
        &self.code
    }

    /// How many operands a call of that method needs room for: whatever it does, no more stand on its stack at once. Takes
    /// no memory.
    pub fn depth(&self, method: MethodId) -> u32
        requires { method.0 < length self.now.methods.items }
        ensures { IsDepthOf (plain_of self.now) method result }
    {
        self.depths[method.0 as usize]
    }
}

impl From<AllocError> for CheckFail {
    ghost use Rattle.std.specs.Prelude.{◌≡◌};
    ghost use Rattle.jr_code.specs.declared.checking.CheckFail.TheVariants as fails;

    ghost from_gives = { λ _ e. e ≡ fails.Memory };

    fn from(_e: AllocError) -> CheckFail {
        CheckFail::Memory
    }
}

fn fail(method: MethodId, stop: Stop) -> CheckFail
    ensures { result ≡ fail_of method stop }
{
    match stop {
        Stop::Broken(at) => CheckFail::Bad { method, at },
        Stop::Memory => CheckFail::Memory,
    }
}

/// Checks code. With enough memory it is taken exactly where it keeps the rules.
pub fn check(alloc: Global, code: Code) -> Result<Checked, CheckFail>
    ensures checked { IfOk result (λ checked. checked ≡ code) }
    ensures bad { IfErr result (Told code) }
{
    let mut depths = Vec::new(alloc);
    for number in 0..code.methods.len() {
        match check_method(alloc, &code, code.methods.get(number)) {
            Ok(depth) => depths.push(depth).map_err(AllocError::from)?,
            Err(stop) => return Err(fail(MethodId(number), stop)),
        }
    }
    Ok(Checked { code, depths })
}
