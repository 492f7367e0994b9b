//! Where versions go that are no longer the newest of their cells.

ghost use Rattle.std.specs.Prelude.{◌≡◌, ◌+◌, ◌≤◌, ◌<◌, ℕ, List, ◌∷◌, ◌++◌, Option, Some, None, length, vec_len, vec_capacity, min, [], false};
ghost use Rattle.slab.specs.Slab.{slab_len};
ghost use Rattle.jr_base.specs.declared.number.Stamp.{Stamp as StampOf};
ghost use Rattle.jr_stamps.specs.declared.pins.Pin.{Pin};
ghost use Rattle.jr_stamps.specs.declared.pins.PinId.{PinId as PinOf};
ghost use Rattle.jr_version_heap.specs.Needs.{Placing, IsToPlace, IsPlacedSo, IsPlaced, IsUnneeded, BeginsBy, Body, SameStamps, IsListToPlace, IsAllPlaced, IsKept, AllLast, body_in};
ghost use Rattle.jr_version_heap.specs.Versions.{IsChained, is_pending, since_of, version_in};
ghost use Rattle.jr_version_heap.specs.declared.version.Home.TheVariants.{Loose};
ghost use Rattle.jr_version_heap.specs.declared.version.Past.{Past};

use crate::chain::{put, unlink};
use crate::version::{Home, Version};
use jr_base::Stamp;
use jr_stamps::{PinId, Pins};
use slab::Slab;

/// Puts a loose version into the dead list of the pin whose stamp is the greatest that it serves.
pub fn attach(versions: &mut Slab<Version>, pins: &mut Pins, key: usize, pin: PinId)
    requires { (g : Placing) × (limit : ℕ) × (stamp : StampOf) × IsToPlace versions.old.slots pins.old.pins (Some (pin, stamp)) key limit g × BeginsBy versions.old.slots key stamp.0 }
    ensures so { (g : Placing) (limit : ℕ) (stamp : StampOf) → IsToPlace versions.old.slots pins.old.pins (Some (pin, stamp)) key limit g → BeginsBy versions.old.slots key stamp.0 → IsPlacedSo versions.old.slots versions.new.slots pins.new.pins g.pending key limit g }
    ensures placed { IsPlaced versions.old.slots versions.new.slots key }
    ensures stamps { SameStamps pins.old.pins pins.new.pins }
    ensures spare { pins.new.spare ≡ pins.old.spare }
    ensures len { slab_len versions.new ≡ slab_len versions.old }
    ensures capacity { versions.new.capacity ≡ versions.old.capacity }
{
    let version = versions[key];
    let next = pins.head(pin);
    let placed = Version {
        home: Home::Dead(pin),
        next,
        ..version
    };
    put(versions, key, placed);
    pins.set_head(pin, Some(key as u32));
}

/// Takes a loose version that no pin needs out of its chain, and has it wait to be freed.
pub fn retire(versions: &mut Slab<Version>, pending: &mut Vec<usize>, key: usize)
    requires { (g : Placing) × (pins : List (Option Pin)) × (latest : Option (PinOf × StampOf)) × IsToPlace versions.old.slots pins latest key (vec_capacity pending.old) g × (g.pending ≡ pending.old.items) }
    ensures so { (g : Placing) (pins : List (Option Pin)) (latest : Option (PinOf × StampOf)) → IsToPlace versions.old.slots pins latest key (vec_capacity pending.old) g → g.pending ≡ pending.old.items → ((b : Body) → body_in versions.old.slots key ≡ Some b → IsUnneeded pins b) → IsPlacedSo versions.old.slots versions.new.slots pins pending.new.items key (vec_capacity pending.old) g }
    ensures waits { pending.new.items ≡ pending.old.items ++ key ∷ [] }
    ensures placed { IsPlaced versions.old.slots versions.new.slots key }
    ensures room { vec_capacity pending.new ≡ vec_capacity pending.old }
    ensures len { slab_len versions.new ≡ slab_len versions.old }
    ensures capacity { versions.new.capacity ≡ versions.old.capacity }
{
    unlink(versions, key);
    wait(pending, key);
}

// Has a version wait behind all others.
fn wait(pending: &mut Vec<usize>, key: usize)
    requires { vec_len pending.old < vec_capacity pending.old }
    ensures waits { pending.new.items ≡ pending.old.items ++ key ∷ [] }
    ensures room { vec_capacity pending.new ≡ vec_capacity pending.old }
{
    pending.push_reserved(key);
}

/// Places a loose version: in the dead list of the pin of the greatest stamp that it serves, or among those
/// that wait to be freed.
pub fn settle(
    versions: &mut Slab<Version>,
    pins: &mut Pins,
    pending: &mut Vec<usize>,
    key: usize,
    latest: Option<(PinId, Stamp)>,
)
    requires { (g : Placing) × IsToPlace versions.old.slots pins.old.pins latest key (vec_capacity pending.old) g × (g.pending ≡ pending.old.items) }
    ensures so { (g : Placing) → IsToPlace versions.old.slots pins.old.pins latest key (vec_capacity pending.old) g → g.pending ≡ pending.old.items → IsPlacedSo versions.old.slots versions.new.slots pins.new.pins pending.new.items key (vec_capacity pending.old) g }
    ensures needed { (pin : PinOf) (stamp : StampOf) → latest ≡ Some (pin, stamp) → since_of (version_in versions.old.slots key) ≤ stamp.0 → pending.new.items ≡ pending.old.items }
    ensures placed { IsPlaced versions.old.slots versions.new.slots key }
    ensures stamps { SameStamps pins.old.pins pins.new.pins }
    ensures spare { pins.new.spare ≡ pins.old.spare }
    ensures room { vec_capacity pending.new ≡ vec_capacity pending.old }
    ensures len { slab_len versions.new ≡ slab_len versions.old }
    ensures capacity { versions.new.capacity ≡ versions.old.capacity }
{
    let since = versions[key].since;
    match latest {
        Some((pin, stamp)) if since <= stamp.0 as u64 => attach(versions, pins, key, pin),
        _ => retire(versions, pending, key),
    }
}

/// Places each version of a list of loose ones.
pub fn settle_all(
    versions: &mut Slab<Version>,
    pins: &mut Pins,
    pending: &mut Vec<usize>,
    first: Option<u32>,
    latest: Option<(PinId, Stamp)>,
)
    requires { (g : Placing) × IsListToPlace versions.old.slots pins.old.pins latest (vec_capacity pending.old) g × (g.pending ≡ pending.old.items) × (g.first ≡ first) }
    ensures so { (g : Placing) → IsListToPlace versions.old.slots pins.old.pins latest (vec_capacity pending.old) g → g.pending ≡ pending.old.items → g.first ≡ first → IsAllPlaced versions.new.slots pins.new.pins pending.new.items (vec_capacity pending.old) g }
    ensures last { AllLast versions.old.slots versions.new.slots }
    ensures stamps { SameStamps pins.old.pins pins.new.pins }
    ensures spare { pins.new.spare ≡ pins.old.spare }
    ensures room { vec_capacity pending.new ≡ vec_capacity pending.old }
    ensures len { slab_len versions.new ≡ slab_len versions.old }
    ensures capacity { versions.new.capacity ≡ versions.old.capacity }
{
    let mut first = first;
    // No key stands twice in the list, so there are no more than fit.
    for _placed in 0..pending.capacity() {
        let key = match first {
            Some(key) => key as usize,
            None => return,
        };
        first = versions[key].next;
        settle(versions, pins, pending, key, latest);
    }
}

/// Frees up to 32 of the versions that wait for it, and answers how many.
pub fn free(versions: &mut Slab<Version>, pending: &mut Vec<usize>) -> u32
    requires { (newest : List ℕ) × (past : Past) × (pins : List (Option Pin)) × IsChained newest versions.old.slots past × IsKept (body_in versions.old.slots) pins pending.old.items Loose None [] 0 (vec_capacity pending.old) }
    ensures so { (newest : List ℕ) (past : Past) (pins : List (Option Pin)) → IsChained newest versions.old.slots past → IsKept (body_in versions.old.slots) pins pending.old.items Loose None [] 0 (vec_capacity pending.old) → IsChained newest versions.new.slots past × IsKept (body_in versions.new.slots) pins pending.new.items Loose None [] 0 (vec_capacity pending.old) }
    ensures kept { (k : ℕ) (b : Body) → body_in versions.old.slots k ≡ Some b → is_pending b.home ≡ false → body_in versions.new.slots k ≡ Some b }
    ensures freed { result ≡ min 32 (vec_len pending.old) }
    ensures pending { vec_len pending.new + result ≡ vec_len pending.old }
    ensures len { slab_len versions.new + result ≡ slab_len versions.old }
    ensures capacity { versions.new.capacity ≡ versions.old.capacity }
    ensures room { vec_capacity pending.new ≡ vec_capacity pending.old }
{
    for freed in 0..32 {
        match pending.pop() {
            Some(key) => {
                versions.remove(key);
            }
            None => return freed,
        }
    }
    32
}
