//! The kinds of the operands at each place of a method, so far as paths are known to bring them.

ghost use Rattle.std.specs.Prelude.{◌≡◌, ◌+◌, ◌<◌, ◌≤◌, ◌↔◌, [], IfOk, IsTrue, length, take, drop, replicate, None, Some, slice_get};
ghost use Rattle.jr_code.specs.Shapes.{BeginsEmpty, IsLongest, IsShared};
ghost use Rattle.jr_code.specs.Verifier.{HasArrived, HasRead, IsDeepest, IsKnown};

use crate::kinds::Kinds;
use jr_base::SlotKind;
use std::alloc::{AllocError, Global};
use std::marker::Model;

/// Why a method isn't found right: a rule is broken at that instruction, or there was no memory.
#[derive(Clone, Copy, Debug)]
pub(crate) enum Stop {
    Broken(u32),
    Memory,
}

impl From<AllocError> for Stop {
    ghost use Rattle.std.specs.Prelude.{◌≡◌};
    ghost use Rattle.jr_code.specs.declared.shapes.Stop.TheVariants as stops;

    ghost from_gives = { λ _ e. e ≡ stops.Memory };

    fn from(_e: AllocError) -> Stop {
        Stop::Memory
    }
}

/// What is found where kinds come to a place: it had none, the same, or others.
#[derive(Clone, Copy, Debug)]
pub(crate) enum Arrival {
    First,
    Same,
    Other,
}

/// Where the kinds of a place stand among those of all places.
#[derive(Clone, Copy, Debug)]
pub(crate) struct Span {
    first: u32,
    count: u32,
}

// The kinds of a place, topmost last.
fn part(kinds: &[SlotKind], span: Span) -> &[SlotKind]
    requires { span.first + span.count ≤ length kinds.now }
    ensures { result.now ≡ take span.count (drop span.first kinds.now) }
{
    let first = span.first as usize;
    &kinds[first..first + span.count as usize]
}

// How many of some kinds, from the first one on, a list ends with: all of them, all but the last one, or none.
fn shared(all: &[SlotKind], kinds: &[SlotKind]) -> usize
    ensures { IsShared all.now kinds.now result }
{
    if all.ends_with(kinds) {
        kinds.len()
    } else {
        shared_front(all, kinds)
    }
}

fn shared_front(all: &[SlotKind], kinds: &[SlotKind]) -> usize
    ensures { IsShared all.now kinds.now result }
{
    let Some((_last, front)) = kinds.split_last() else {
        return 0;
    };
    if !all.ends_with(front) {
        return 0;
    }
    front.len()
}

// How many kinds the place has that has most of them.
fn longest(places: &[Option<Span>]) -> u32
    requires { BeginsEmpty places.now }
    ensures { IsLongest places.now result }
{
    let mut most = 0;
    for place in places {
        if let Some(span) = place {
            most = most.max(span.count);
        }
    }
    most
}

/// The kinds at the places of a method, which contracts see as a list: at each place none, or the kinds there, topmost
/// first. Those of all places stand in one list, so that no place takes memory of its own, and the kinds of a place may be
/// part of those of another.
#[derive(Drop)]
pub(crate) struct Shapes {
    places: Vec<Option<Span>>,
    kinds: Vec<SlotKind>,
}

impl Model for Shapes {
    ghost use Rattle.std.specs.Prelude.{List, Option, length, map};
    ghost use Rattle.jr_base.specs.declared.kind.SlotKind.{SlotKind};
    ghost use Rattle.jr_code.specs.Shapes.{shape_of, AreWithin};

    ghost Value = { List (Option (List SlotKind)) };

    ghost view = { λ s. map (shape_of s.kinds.items) s.places.items };

    ghost invariant = { λ s. AreWithin (length s.kinds.items) s.places.items };
}

impl Shapes {
    /// So many places without kinds.
    pub(crate) fn new(alloc: Global, n: u32) -> Result<Shapes, AllocError>
        ensures { IfOk result (λ shapes. shapes ≡ replicate n None) }
    {
        let kinds = Vec::new(alloc);
        let mut places = Vec::with_capacity(alloc, n as usize)?;
        for _ in 0..n {
            places.push(None)?;
        }
        Ok(Shapes { places, kinds })
    }

    /// Whether a path is known to reach a place.
    pub(crate) fn is_known(&self, at: u32) -> bool
        requires { at < length self.now }
        ensures { IsTrue result ↔ IsKnown self.now at }
    {
        self.places[at as usize].is_some()
    }

    /// Sets `kinds` to those at a place, if it has any.
    pub(crate) fn read(&self, at: u32, kinds: &mut Kinds) -> Result<bool, AllocError>
        requires { at < length self.now }
        ensures { IfOk result (HasRead self.now at kinds.new) }
    {
        match self.places[at as usize] {
            Some(span) => {
                kinds.set(part(self.kinds.as_slice(), span))?;
                Ok(true)
            }
            None => Ok(false),
        }
    }

    /// Lets kinds come to a place. There is no memory for more than `u32::MAX` kinds at all places together.
    pub(crate) fn arrive(&mut self, at: u32, kinds: &Kinds) -> Result<Arrival, AllocError>
        requires { at < length self.old }
        ensures { IfOk result (HasArrived self.old at kinds.now self.new) }
    {
        if let Some(span) = self.places[at as usize] {
            if kinds.are(part(self.kinds.as_slice(), span)) {
                return Ok(Arrival::Same);
            }
            return Ok(Arrival::Other);
        }
        let more = kinds.as_slice();
        let known = shared(self.kinds.as_slice(), more);
        let first = self.kinds.len() - known;
        let count = more.len();
        if first + count > u32::MAX as usize {
            return Err(AllocError);
        }
        self.kinds.extend_from_slice(&more[known..])?;
        self.places[at as usize] = Some(Span {
            first: first as u32,
            count: count as u32,
        });
        Ok(Arrival::First)
    }

    /// How many operands stand at the place that has most of them.
    pub(crate) fn deepest(&self) -> u32
        requires { slice_get self.now 0 ≡ Some (Some []) }
        ensures { IsDeepest self.now result }
    {
        longest(self.places.as_slice())
    }
}
