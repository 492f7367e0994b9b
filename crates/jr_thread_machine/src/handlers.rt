//! Exceptions: the regions of a method that take one, or give a monitor back on its way.

ghost use Rattle.std.specs.Prelude.{◌≡◌, ◌<◌, ◌+◌, ◌^◌, [], List, map, drop};
ghost use Rattle.jr_base.specs.Faults as taking;
ghost use Rattle.jr_code.specs.Instructions.{Code as PlainCode};
ghost use Rattle.jr_code.specs.Machine.{StackFrame, stack_frame, regions_of, Throws, Goes};
ghost use Rattle.jr_code.specs.Views.{region_of};
ghost use Rattle.jr_thread_machine.specs.Frames.{frame_of};
ghost use Rattle.jr_thread_machine.specs.Handlers.{Takes, TakenFits, found_move, FoundFits, handled_move, HandledFits};
ghost use Rattle.jr_thread_machine.specs.Runs.{Becomes};

use crate::flow::{Left, Stop, Then};
use crate::frame::Frame;
use crate::slot::Slot;
use jr_base::{Action, Fault, ObjId, Reserved, Value};
use jr_code::{Region, RegionKind};

/// What takes an exception: a catch, by its handler's place; the exit of a monitor, with the number of the region behind
/// it; or nothing of the method.
#[derive(Clone, Copy, Debug, PartialEq, Eq)]
pub(crate) enum Found {
    Catch(u32),
    Exit(ObjId, u32),
    Nothing,
}

/// Whether a catch of the first class takes an exception of the second (JLS 11.1.1, 11.3).
fn catches(caught: Fault, fault: Fault) -> bool
    ensures { result ≡ taking.catches caught fault }
{
    match caught {
        Fault::Exception => true,
        Fault::RuntimeException => match fault {
            Fault::Exception | Fault::InterruptedException => false,
            _ => true,
        },
        Fault::IndexOutOfBoundsException => match fault {
            Fault::IndexOutOfBoundsException | Fault::ArrayIndexOutOfBoundsException => true,
            _ => false,
        },
        Fault::IllegalArgumentException => match fault {
            Fault::IllegalArgumentException | Fault::IllegalThreadStateException => true,
            _ => false,
        },
        _ => caught == fault,
    }
}

/// What the region does with an exception of the call; none where it goes on to the next region.
fn taken_by(region: &Region, number: u32, frame: &Frame, fault: Fault) -> Option<Found>
    requires { number + 1 < 2 ^ 32 }
    ensures takes { Takes (region_of region.now) fault (frame_of frame.now) result }
    ensures fits { TakenFits (region_of region.now) number frame.now.at result }
{
    if frame.at < region.first || region.past <= frame.at {
        return None;
    }
    match region.kind {
        RegionKind::Catch(caught) => {
            if catches(caught, fault) {
                Some(Found::Catch(region.target))
            } else {
                None
            }
        }
        RegionKind::Exit(place) => match frame.locals.value(place) {
            Value::Ref(object) => Some(Found::Exit(object, number + 1)),
            _ => None,
        },
    }
}

/// Looks through the regions from a number on.
fn find(regions: &Reserved<Region>, from: u32, frame: &Frame, fault: Fault) -> Found
    ensures found { (code : PlainCode) → regions_of code frame.now.method ≡ map region_of regions.now.items → (below : List StackFrame) →
        Becomes code (Goes (Throws fault (drop from (map region_of regions.now.items)) (frame_of frame.now) below)) (found_move code fault (frame_of frame.now) below result) }
    ensures fits { FoundFits (map region_of regions.now.items) frame.now.at result }
{
    for number in from..regions.len() {
        let region = regions.get(number);
        if let Some(found) = taken_by(region, number, frame, fault) {
            return found;
        }
    }
    Found::Nothing
}

/// How a call comes not to go on by itself: it stops, or there is no room for an exception to go on to its regions, from
/// that one on.
#[derive(Debug, Drop)]
pub(crate) enum Ran {
    Stops(Stop),
    Throws(Fault, u32),
}

impl Frame {
    /// Goes on with an exception at the regions from a number on. None where a handler takes it, and the call goes on there.
    pub(crate) fn handle(
        &mut self,
        regions: &Reserved<Region>,
        from: u32,
        fault: Fault,
    ) -> Option<Ran>
        ensures does { (code : PlainCode) → regions_of code self.old.method ≡ map region_of regions.now.items → (below : List StackFrame) →
            Becomes code (Goes (Throws fault (drop from (map region_of regions.now.items)) (stack_frame self.old.method self.old.this self.old.at [] self.old.locals) below))
            (handled_move code result below (frame_of self.new)) }
        ensures fits { HandledFits (map region_of regions.now.items) (frame_of self.old) (frame_of self.new) result }
    {
        self.stack.clear();
        let Ok(()) = self.stack.reserve(1) else {
            return Some(Ran::Throws(fault, from));
        };
        match find(regions, from, self, fault) {
            Found::Catch(target) => {
                self.stack.push(Slot::caught(fault));
                self.at = target;
                None
            }
            Found::Exit(object, behind) => Some(Ran::Stops(Stop::Asks(
                Action::Exit(object),
                Then::Throws(fault, behind),
            ))),
            Found::Nothing => Some(Ran::Stops(Stop::Leaves(Left::Fails(fault)))),
        }
    }
}
