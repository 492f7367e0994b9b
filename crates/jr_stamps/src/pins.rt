//! Pinned stamps, in order.

ghost use Rattle.std.specs.Prelude.{◌≡◌, ◌+◌, ◌<◌, ◌≤◌, ◌↔◌, ℕ, Some, None, IsSome, IsTrue, OnOk};
ghost use Rattle.std.specs.Prelude.{length, slice_index_or};
ghost use Rattle.slab.specs.Slab.{ContainsKey, Updates, slab_len};
ghost use Rattle.jr_stamps.specs.declared.pins.Pin.{Pin as PinOf};
ghost use Rattle.jr_stamps.specs.Order.{IsBefore, Pairwise, IsBelow, IsNotBelow, HasFrom};
ghost use Rattle.jr_stamps.specs.declared.pins.Placed.{Placed as PlacedOf};
ghost use Rattle.jr_stamps.specs.Pins.{pin_at, IsPinned, Changes, IsLatest};

use jr_base::{Memory, Stamp};
use slab::Slab;
use std::alloc::Global;
use std::marker::Model;

/// A pin that was set, until it is taken away. Its number may be that of a later pin then.
#[derive(Clone, Copy, Debug, PartialEq, Eq)]
pub struct PinId(usize);

/// What is kept of a pin: its stamp, and the first version of its dead list, by key. The dead list has the versions of
/// cells that were replaced, and of which this pin's stamp is the greatest pinned one that needs them.
#[derive(Clone, Copy, Debug, PartialEq, Eq)]
pub struct Pin {
    pub stamp: Stamp,
    pub head: Option<u32>,
}

// A pin's stamp and its key.
#[derive(Clone, Copy)]
struct Placed {
    stamp: u32,
    key: usize,
}

/// The pins that are set. A stamp may have several. Only `reserve` takes memory.
///
/// `latest` and `pinned` search the pins by halves. `pin` and `unpin` do too, and then move the pins of later stamps
/// by one place; `unpin` passes over the other pins of its stamp. `stamp`, `head` and `set_head` look one pin up by
/// its number.
///
/// Contracts see the pin of each number, and how many more may be set.
#[derive(Drop)]
pub struct Pins {
    pins: Slab<Pin>,
    order: Vec<Placed>,
}

impl Model for Pins {
    ghost use Rattle.std.specs.Prelude.{◌-◌, min, vec_capacity, length};
    ghost use Rattle.slab.specs.Slab.{slab_len};
    ghost use Rattle.jr_stamps.specs.Pins.{PinsOf};
    ghost use Rattle.jr_stamps.specs.Order.{IsInOrder};

    ghost Value = { PinsOf };

    ghost view = { λ p. record { pins = p.pins.slots; spare = min (p.pins.capacity - slab_len p.pins) (vec_capacity p.order - length p.order.items) } };

    ghost invariant = { λ p. IsInOrder p.pins.slots p.order.items };
}

impl Pins {
    /// No pin. Takes no memory.
    pub fn new(alloc: Global) -> Pins
        ensures { (p : ℕ) → pin_at result p ≡ None }
    {
        Pins {
            pins: Slab::new(alloc),
            order: Vec::new(alloc),
        }
    }

    /// Makes room for so many more pins. `Memory` leaves the pins as they are.
    pub fn reserve(&mut self, n: u32) -> Result<(), Memory>
        ensures pins { self.new.pins ≡ self.old.pins }
        ensures room { OnOk result (n ≤ self.new.spare) }
        ensures spare { self.old.spare ≤ self.new.spare }
    {
        self.pins.reserve(n as usize)?;
        self.order.reserve(n as usize)?;
        Ok(())
    }

    /// Pins a stamp, which may be pinned already. The new pin has an empty dead list.
    pub fn pin(&mut self, stamp: Stamp) -> PinId
        requires { 0 < self.old.spare }
        ensures fresh { pin_at self.old result.0 ≡ None }
        ensures pinned { Changes self.old result.0 (Some (record { stamp = stamp; head = None })) self.new }
        ensures spare { self.new.spare + 1 ≡ self.old.spare }
    {
        let key = self.pins.insert_reserved(Pin { stamp, head: None });
        let at = count_below(&self.order, stamp.0 as u64 + 1);
        let placed = Placed {
            stamp: stamp.0,
            key,
        };
        match self.order.insert(at, placed) {
            Ok(()) => {}
            Err(_) => unreachable!(),
        }
        PinId(key)
    }

    /// Takes a pin away. Its stamp stays pinned where it has another.
    pub fn unpin(&mut self, pin: PinId)
        requires { IsSome (pin_at self.old pin.0) }
        ensures unpinned { Changes self.old pin.0 None self.new }
        ensures spare { self.new.spare ≡ self.old.spare + 1 }
    {
        let stamp = self.pins.remove(pin.0).stamp;
        let first = count_below(&self.order, stamp.0 as u64);
        let at = place_of(&self.order, first, pin.0);
        self.order.remove(at);
    }

    /// Whether a stamp has a pin.
    pub fn pinned(&self, stamp: Stamp) -> bool
        ensures { IsTrue result ↔ IsPinned self.now stamp.0 }
    {
        match self.latest(stamp) {
            Some((_, greatest)) => greatest == stamp,
            None => false,
        }
    }

    /// A pin of the greatest pinned stamp that is at most `upto`.
    pub fn latest(&self, upto: Stamp) -> Option<(PinId, Stamp)>
        ensures { IsLatest self.now.pins upto.0 result }
    {
        let behind = count_below(&self.order, upto.0 as u64 + 1);
        if behind == 0 {
            return None;
        }
        let placed = self.order[behind - 1];
        Some((PinId(placed.key), Stamp(placed.stamp)))
    }

    /// The stamp of a pin.
    pub fn stamp(&self, pin: PinId) -> Stamp
        requires { IsSome (pin_at self.now pin.0) }
        ensures { (kept : PinOf) × (pin_at self.now pin.0 ≡ Some kept) × (result ≡ kept.stamp) }
    {
        self.pins[pin.0].stamp
    }

    /// The first version of a pin's dead list.
    pub fn head(&self, pin: PinId) -> Option<u32>
        requires { IsSome (pin_at self.now pin.0) }
        ensures { (kept : PinOf) × (pin_at self.now pin.0 ≡ Some kept) × (result ≡ kept.head) }
    {
        self.pins[pin.0].head
    }

    /// Sets the first version of a pin's dead list.
    pub fn set_head(&mut self, pin: PinId, head: Option<u32>)
        requires { IsSome (pin_at self.old pin.0) }
        ensures head { (kept : PinOf) × (pin_at self.old pin.0 ≡ Some kept) × Changes self.old pin.0 (Some (record kept { head = head })) self.new }
        ensures spare { self.new.spare ≡ self.old.spare }
    {
        let stamp = self.pins[pin.0].stamp;
        put(&mut self.pins, pin.0, Pin { stamp, head });
    }
}

// Puts a pin in the place of another.
fn put(pins: &mut Slab<Pin>, key: usize, pin: Pin)
    requires { ContainsKey pins.old key }
    ensures updates { Updates pins.old pins.new key (Some pin) }
    ensures len { slab_len pins.new ≡ slab_len pins.old }
    ensures capacity { pins.new.capacity ≡ pins.old.capacity }
{
    if let Some(kept) = pins.get_mut(key) {
        *kept = pin;
    }
}

// How many pins have a stamp below the bound: they stand before all others.
fn count_below(order: &[Placed], bound: u64) -> usize
    requires { Pairwise IsBefore order.now }
    ensures within { result ≤ length order.now }
    ensures below { IsBelow order.now bound result }
    ensures behind { IsNotBelow order.now bound result }
{
    order.partition_point(|placed| (placed.stamp as u64) < bound)
}

// The place of a key that stands there or behind.
fn place_of(order: &[Placed], first: usize, key: usize) -> usize
    requires { HasFrom order.now first key }
    ensures within { result < length order.now }
    ensures key { (d : PlacedOf) → (slice_index_or order.now result d).key ≡ key }
{
    for at in first..order.len() {
        if order[at].key == key {
            return at;
        }
    }
    unreachable!()
}
