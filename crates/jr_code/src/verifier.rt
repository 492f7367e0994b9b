//! Follows the paths of a method, and finds the kinds that they bring to each instruction.

ghost use Rattle.std.specs.Prelude.{◌≡◌, ◌<◌, ◌≤◌, IfOk, IfErr, OnOk, MatchOption, ℕ, length, min, slice_get, Some};
ghost use Rattle.jr_code.specs.declared.instruction.Flow.TheVariants as flows;
ghost use Rattle.jr_code.specs.Decoded.{meaning};
ghost use Rattle.jr_code.specs.Paths.{Reaches};
ghost use Rattle.jr_code.specs.Verifier.{OnPaths, CatchDone, Caught, Extends, lower_of, Reached, LeavesBy, Leads, SettledBelow, SweptTo, Untouched, IsTouched, Visited, Woken, Tells};
ghost use Rattle.jr_code.specs.Handlers.{AreNumbers};
ghost use Rattle.jr_code.specs.Views.{tables_of, plain_of};
ghost use Rattle.jr_code.specs.WellFormed.{LocalsBegin, plain_method};

use crate::code::{Code, MethodCode, RegionKind};
use crate::effects::apply;
use crate::handler::{Handler, handlers_of};
use crate::instruction::Flow;
use crate::kinds::Kinds;
use crate::shapes::{Arrival, Shapes, Stop};
use jr_base::SlotKind;
use std::alloc::Global;

/// Lets kinds that a path brings come to a place, and says whether they are the first there.
pub(crate) fn reach(
    code: &Code,
    method: &MethodCode,
    shapes: &mut Shapes,
    at: u32,
    kinds: &Kinds,
) -> Result<bool, Stop>
    requires path { Reaches (plain_of code.now) (plain_method code.now method.now) at kinds.now }
    requires sound { OnPaths (plain_of code.now) (plain_method code.now method.now) shapes.old }
    requires inside { at < length shapes.old }
    ensures ok { IfOk result (Reached (plain_of code.now) (plain_method code.now method.now) shapes.old at kinds.now shapes.new) }
    ensures err { IfErr result (Tells code.now method.now) }
{
    let arrival = shapes.arrive(at, kinds)?;
    match arrival {
        Arrival::First => Ok(true),
        Arrival::Same => Ok(false),
        Arrival::Other => Err(Stop::Broken(at)),
    }
}

// Goes on from an instruction to a place.
fn advance(
    code: &Code,
    method: &MethodCode,
    shapes: &mut Shapes,
    at: u32,
    to: u32,
    kinds: &Kinds,
) -> Result<bool, Stop>
    requires leads { Leads (plain_of code.now) (plain_method code.now method.now) shapes.old at to kinds.now }
    requires sound { OnPaths (plain_of code.now) (plain_method code.now method.now) shapes.old }
    requires size { length shapes.old ≡ length method.now.instrs.items }
    ensures ok { IfOk result (Reached (plain_of code.now) (plain_method code.now method.now) shapes.old to kinds.now shapes.new) }
    ensures err { IfErr result (Tells code.now method.now) }
{
    if to >= method.instrs.len() {
        return Err(Stop::Broken(at));
    }
    reach(code, method, shapes, to, kinds)
}

// Goes on behind an instruction.
fn go_next(
    code: &Code,
    method: &MethodCode,
    shapes: &mut Shapes,
    at: u32,
    kinds: &Kinds,
) -> Result<u32, Stop>
    requires leaves { LeavesBy (plain_of code.now) (plain_method code.now method.now) shapes.old at flows.Next kinds.now }
    requires sound { OnPaths (plain_of code.now) (plain_method code.now method.now) shapes.old }
    requires size { length shapes.old ≡ length method.now.instrs.items }
    requires inside { at < length method.now.instrs.items }
    ensures ok { IfOk result (Visited (plain_of code.now) (plain_method code.now method.now) shapes.old at shapes.new) }
    ensures err { IfErr result (Tells code.now method.now) }
{
    let _n = method.instrs.len();
    advance(code, method, shapes, at, at + 1, kinds)?;
    Ok(at + 1)
}

fn jump(
    code: &Code,
    method: &MethodCode,
    shapes: &mut Shapes,
    at: u32,
    to: u32,
    kinds: &Kinds,
) -> Result<u32, Stop>
    requires leaves { LeavesBy (plain_of code.now) (plain_method code.now method.now) shapes.old at (flows.Jump to) kinds.now }
    requires sound { OnPaths (plain_of code.now) (plain_method code.now method.now) shapes.old }
    requires size { length shapes.old ≡ length method.now.instrs.items }
    requires inside { at < length method.now.instrs.items }
    ensures ok { IfOk result (Visited (plain_of code.now) (plain_method code.now method.now) shapes.old at shapes.new) }
    ensures err { IfErr result (Tells code.now method.now) }
{
    if to <= at {
        return Err(Stop::Broken(at));
    }
    advance(code, method, shapes, at, to, kinds)?;
    Ok(at + 1)
}

fn branch(
    code: &Code,
    method: &MethodCode,
    shapes: &mut Shapes,
    at: u32,
    to: u32,
    kinds: &Kinds,
) -> Result<u32, Stop>
    requires leaves { LeavesBy (plain_of code.now) (plain_method code.now method.now) shapes.old at (flows.Branch to) kinds.now }
    requires sound { OnPaths (plain_of code.now) (plain_method code.now method.now) shapes.old }
    requires size { length shapes.old ≡ length method.now.instrs.items }
    requires inside { at < length method.now.instrs.items }
    ensures ok { IfOk result (Visited (plain_of code.now) (plain_method code.now method.now) shapes.old at shapes.new) }
    ensures err { IfErr result (Tells code.now method.now) }
{
    if to <= at {
        return Err(Stop::Broken(at));
    }
    advance(code, method, shapes, at, to, kinds)?;
    advance(code, method, shapes, at, at + 1, kinds)?;
    Ok(at + 1)
}

fn back(
    code: &Code,
    method: &MethodCode,
    shapes: &mut Shapes,
    at: u32,
    to: u32,
    kinds: &Kinds,
) -> Result<u32, Stop>
    requires leaves { LeavesBy (plain_of code.now) (plain_method code.now method.now) shapes.old at (flows.Back to) kinds.now }
    requires sound { OnPaths (plain_of code.now) (plain_method code.now method.now) shapes.old }
    requires size { length shapes.old ≡ length method.now.instrs.items }
    requires inside { at < length method.now.instrs.items }
    ensures ok { IfOk result (Visited (plain_of code.now) (plain_method code.now method.now) shapes.old at shapes.new) }
    ensures err { IfErr result (Tells code.now method.now) }
{
    let _n = method.instrs.len();
    if to > at {
        return Err(Stop::Broken(at));
    }
    if advance(code, method, shapes, at, to, kinds)? {
        Ok(to)
    } else {
        Ok(at + 1)
    }
}

// The kinds after the instruction at a place, and where it goes on.
fn leave(
    code: &Code,
    method: &MethodCode,
    shapes: &Shapes,
    at: u32,
    kinds: &mut Kinds,
) -> Result<Flow, Stop>
    requires locals { LocalsBegin method.now }
    requires there { slice_get shapes.now at ≡ Some (Some kinds.old) }
    requires sound { OnPaths (plain_of code.now) (plain_method code.now method.now) shapes.now }
    requires inside { at < length method.now.instrs.items }
    ensures ok { IfOk result (λ flow. LeavesBy (plain_of code.now) (plain_method code.now method.now) shapes.now at flow kinds.new) }
    ensures err { IfErr result (Tells code.now method.now) }
{
    let Some(instruction) = method.instrs.get(at).decode() else {
        return Err(Stop::Broken(at));
    };
    if !apply(code, method, instruction, kinds)? {
        return Err(Stop::Broken(at));
    }
    Ok(instruction.flow())
}

fn go_on(
    code: &Code,
    method: &MethodCode,
    shapes: &mut Shapes,
    at: u32,
    flow: Flow,
    kinds: &Kinds,
) -> Result<u32, Stop>
    requires leaves { LeavesBy (plain_of code.now) (plain_method code.now method.now) shapes.old at flow kinds.now }
    requires sound { OnPaths (plain_of code.now) (plain_method code.now method.now) shapes.old }
    requires size { length shapes.old ≡ length method.now.instrs.items }
    requires inside { at < length method.now.instrs.items }
    ensures ok { IfOk result (Visited (plain_of code.now) (plain_method code.now method.now) shapes.old at shapes.new) }
    ensures err { IfErr result (Tells code.now method.now) }
{
    let _n = method.instrs.len();
    match flow {
        Flow::Next => go_next(code, method, shapes, at, kinds),
        Flow::Jump(to) => jump(code, method, shapes, at, to, kinds),
        Flow::Branch(to) => branch(code, method, shapes, at, to, kinds),
        Flow::Back(to) => back(code, method, shapes, at, to, kinds),
        Flow::Ends => Ok(at + 1),
    }
}

// Settles the instruction at a place, if a path reaches it, and answers where to go on.
fn visit(
    code: &Code,
    method: &MethodCode,
    shapes: &mut Shapes,
    at: u32,
    kinds: &mut Kinds,
) -> Result<u32, Stop>
    requires locals { LocalsBegin method.now }
    requires sound { OnPaths (plain_of code.now) (plain_method code.now method.now) shapes.old }
    requires size { length shapes.old ≡ length method.now.instrs.items }
    requires inside { at < length method.now.instrs.items }
    ensures ok { IfOk result (Visited (plain_of code.now) (plain_method code.now method.now) shapes.old at shapes.new) }
    ensures err { IfErr result (Tells code.now method.now) }
{
    let _n = method.instrs.len();
    if !shapes.read(at, kinds)? {
        return Ok(at + 1);
    }
    let flow = leave(code, method, shapes, at, kinds)?;
    go_on(code, method, shapes, at, flow, kinds)
}

// Settles the instructions from a place on up to another, those before it being settled, and answers where it stopped.
fn sweep_to(
    code: &Code,
    method: &MethodCode,
    shapes: &mut Shapes,
    start: u32,
    end: u32,
    kinds: &mut Kinds,
) -> Result<u32, Stop>
    requires locals { LocalsBegin method.now }
    requires sound { OnPaths (plain_of code.now) (plain_method code.now method.now) shapes.old }
    requires size { length shapes.old ≡ length method.now.instrs.items }
    requires settled { SettledBelow (plain_of code.now) (plain_method code.now method.now) shapes.old start }
    requires inside { start ≤ length method.now.instrs.items }
    ensures ok { IfOk result (SweptTo (plain_of code.now) (plain_method code.now method.now) shapes.old shapes.new (min end (length method.now.instrs.items))) }
    ensures err { IfErr result (Tells code.now method.now) }
{
    let end = end.min(method.instrs.len());
    let mut at = start;
    while at < end {
        at = visit(code, method, shapes, at, kinds)?;
    }
    Ok(at)
}

// Lets an exception come to the handler of a region that a path reaches, the instructions before a place being settled,
// and answers before which place they are then.
fn wake(
    code: &Code,
    method: &MethodCode,
    shapes: &mut Shapes,
    number: u32,
    at: u32,
    kinds: &mut Kinds,
) -> Result<u32, Stop>
    requires sound { OnPaths (plain_of code.now) (plain_method code.now method.now) shapes.old }
    requires size { length shapes.old ≡ length method.now.instrs.items }
    requires settled { SettledBelow (plain_of code.now) (plain_method code.now method.now) shapes.old at }
    requires inside { at ≤ length method.now.instrs.items }
    requires region { number < length method.now.regions.items }
    ensures ok { IfOk result (SweptTo (plain_of code.now) (plain_method code.now method.now) shapes.old shapes.new 0) }
    ensures err { IfErr result (Tells code.now method.now) }
{
    match catch(code, method, shapes, number, kinds)? {
        Some(place) => Ok(at.min(place)),
        None => Ok(at),
    }
}

// Settles the instructions from a place on, those before it being settled. Where it comes to a handler, exceptions come
// there too.
fn sweep(
    code: &Code,
    method: &MethodCode,
    shapes: &mut Shapes,
    handlers: &[Handler],
    start: u32,
    kinds: &mut Kinds,
) -> Result<(), Stop>
    requires locals { LocalsBegin method.now }
    requires sound { OnPaths (plain_of code.now) (plain_method code.now method.now) shapes.old }
    requires size { length shapes.old ≡ length method.now.instrs.items }
    requires settled { SettledBelow (plain_of code.now) (plain_method code.now method.now) shapes.old start }
    requires inside { start ≤ length method.now.instrs.items }
    requires numbers { AreNumbers (length method.now.regions.items) handlers.now }
    ensures ok { OnOk result (Extends (plain_of code.now) (plain_method code.now method.now) shapes.old shapes.new 0) }
    ensures settled { OnOk result (SettledBelow (plain_of code.now) (plain_method code.now method.now) shapes.new (length method.now.instrs.items)) }
    ensures err { IfErr result (Tells code.now method.now) }
{
    let mut at = start;
    for handler in handlers {
        at = sweep_to(code, method, shapes, at, handler.place, kinds)?;
        at = wake(code, method, shapes, handler.region, at, kinds)?;
    }
    sweep_to(code, method, shapes, at, method.instrs.len(), kinds)?;
    Ok(())
}

// A place from one to another that a path is known to reach.
fn touched(shapes: &Shapes, from: u32, to: u32) -> Option<u32>
    requires { to ≤ length shapes.now }
    ensures { MatchOption result (Untouched shapes.now from to) (IsTouched shapes.now from to) }
{
    for at in from..to {
        if shapes.is_known(at) {
            return Some(at);
        }
    }
    None
}

// Lets an exception come to the handler of a region that a path reaches. Answers its place if that is the first path there.
fn catch(
    code: &Code,
    method: &MethodCode,
    shapes: &mut Shapes,
    number: u32,
    kinds: &mut Kinds,
) -> Result<Option<u32>, Stop>
    requires sound { OnPaths (plain_of code.now) (plain_method code.now method.now) shapes.old }
    requires size { length shapes.old ≡ length method.now.instrs.items }
    requires inside { number < length method.now.regions.items }
    ensures ok { IfOk result (λ low. MatchOption low ((shapes.new ≡ shapes.old) × CatchDone (plain_method code.now method.now) shapes.new number)
        (Woken (plain_of code.now) (plain_method code.now method.now) shapes.old shapes.new)) }
    ensures err { IfErr result (Tells code.now method.now) }
{
    let region = method.regions.get(number);
    let RegionKind::Catch(_fault) = region.kind else {
        return Ok(None);
    };
    let n = method.instrs.len();
    let past = region.past.min(n);
    let Some(_at) = touched(shapes, region.first, past) else {
        return Ok(None);
    };
    if region.target >= n {
        return Err(Stop::Broken(0));
    }
    if let Some(_behind) = touched(shapes, region.first.max(region.target), past) {
        return Err(Stop::Broken(0));
    }
    kinds.set(&[SlotKind::Caught])?;
    if reach(code, method, shapes, region.target, kinds)? {
        Ok(Some(region.target))
    } else {
        Ok(None)
    }
}

// Lets exceptions come to the handlers of all regions. Answers the first place of those that are reached first now.
fn catches(
    code: &Code,
    method: &MethodCode,
    shapes: &mut Shapes,
    kinds: &mut Kinds,
) -> Result<Option<u32>, Stop>
    requires sound { OnPaths (plain_of code.now) (plain_method code.now method.now) shapes.old }
    requires size { length shapes.old ≡ length method.now.instrs.items }
    ensures ok { IfOk result (Caught (plain_of code.now) (plain_method code.now method.now) shapes.old shapes.new (length method.now.regions.items)) }
    ensures err { IfErr result (Tells code.now method.now) }
{
    let mut low = None;
    for number in 0..method.regions.len() {
        let woken = catch(code, method, shapes, number, kinds)?;
        low = lower(low, woken);
    }
    Ok(low)
}

fn lower(low: Option<u32>, other: Option<u32>) -> Option<u32>
    ensures { result ≡ lower_of low other }
{
    match (low, other) {
        (Some(a), Some(b)) => Some(a.min(b)),
        (Some(a), None) => Some(a),
        (None, b) => b,
    }
}

/// Settles all instructions that a path reaches, and all handlers.
pub(crate) fn settle(
    alloc: Global,
    code: &Code,
    method: &MethodCode,
    shapes: &mut Shapes,
) -> Result<(), Stop>
    requires locals { LocalsBegin method.now }
    requires sound { OnPaths (plain_of code.now) (plain_method code.now method.now) shapes.old }
    requires size { length shapes.old ≡ length method.now.instrs.items }
    ensures ok { OnOk result (Extends (plain_of code.now) (plain_method code.now method.now) shapes.old shapes.new 0) }
    ensures settled { OnOk result (SettledBelow (plain_of code.now) (plain_method code.now method.now) shapes.new (length method.now.instrs.items)) }
    ensures caught { OnOk result ((k : ℕ) → k < length method.now.regions.items → CatchDone (plain_method code.now method.now) shapes.new k) }
    ensures err { IfErr result (Tells code.now method.now) }
{
    let handlers = handlers_of(alloc, method)?;
    let mut kinds = Kinds::new(alloc);
    let mut start = Some(0);
    while let Some(at) = start {
        sweep(code, method, shapes, handlers.as_slice(), at, &mut kinds)?;
        start = catches(code, method, shapes, &mut kinds)?;
    }
    Ok(())
}
