//! New cells.

ghost use Rattle.std.specs.Prelude.{◌≡◌, ◌+◌, ◌<◌, ◌≤◌, ℕ, List, [], Option, None, length, vec_len, vec_capacity};
ghost use Rattle.slab.specs.Slab.{HasRoomFor, slab_len};
ghost use Rattle.jr_stamps.specs.declared.pins.Pin.{Pin};
ghost use Rattle.jr_version_heap.specs.declared.version.Home.TheVariants.{Loose};
ghost use Rattle.jr_version_heap.specs.declared.version.Past.{Past};
ghost use Rattle.jr_version_heap.specs.Versions.{IsChained, HasFirst, HasFirsts};
ghost use Rattle.jr_version_heap.specs.Needs.{IsKept, body_in};

use crate::version::{FOREVER, Home, Version};
use jr_base::Value;
use slab::Slab;

/// Adds a cell behind the others, with its first version.
fn add_cell(versions: &mut Slab<Version>, newest: &mut Vec<usize>, value: Value, since: u64)
    requires chained { (past : Past) × (since ≤ past.changes) × IsChained newest.old.items versions.old.slots past }
    requires room { HasRoomFor versions.old 1 }
    requires few { vec_len newest.old < 4294967296 }
    requires cells { vec_len newest.old < vec_capacity newest.old }
    ensures chained { (past : Past) → since ≤ past.changes → IsChained newest.old.items versions.old.slots past → IsChained newest.new.items versions.new.slots past }
    ensures added { (key : ℕ) × (key < versions.new.capacity) × HasFirst versions.old.slots versions.new.slots key (vec_len newest.old) value since }
    ensures count { vec_len newest.new ≡ vec_len newest.old + 1 }
    ensures cells { vec_capacity newest.new ≡ vec_capacity newest.old }
    ensures len { slab_len versions.new ≡ slab_len versions.old + 1 }
    ensures capacity { versions.new.capacity ≡ versions.old.capacity }
{
    let key = versions.insert_reserved(Version {
        place: newest.len() as u32,
        value,
        since,
        upto: FOREVER,
        home: Home::Newest,
        older: None,
        newer: None,
        next: None,
    });
    newest.push_reserved(key);
}

/// Adds cells behind the others, with their first versions.
pub fn add_cells(
    versions: &mut Slab<Version>,
    newest: &mut Vec<usize>,
    values: &[Value],
    since: u64,
)
    requires chained { (past : Past) × (since ≤ past.changes) × IsChained newest.old.items versions.old.slots past }
    requires room { 0 < length values.now → HasRoomFor versions.old (length values.now) }
    requires few { vec_len newest.old + length values.now < 4294967296 }
    requires cells { vec_len newest.old + length values.now ≤ vec_capacity newest.old }
    ensures chained { (past : Past) → since ≤ past.changes → IsChained newest.old.items versions.old.slots past → IsChained newest.new.items versions.new.slots past }
    ensures firsts { HasFirsts versions.old.slots versions.new.slots (vec_len newest.old) values.now since (length values.now) }
    ensures kept { (pins : List (Option Pin)) (pending : List ℕ) (limit : ℕ) → (0 < length values.now → (versions.old.capacity ≤ limit) × (versions.old.capacity < 4294967296)) → IsKept (body_in versions.old.slots) pins pending Loose None [] 0 limit → IsKept (body_in versions.new.slots) pins pending Loose None [] 0 limit }
    ensures count { vec_len newest.new ≡ vec_len newest.old + length values.now }
    ensures cells { vec_capacity newest.new ≡ vec_capacity newest.old }
    ensures len { slab_len versions.new ≡ slab_len versions.old + length values.now }
    ensures capacity { versions.new.capacity ≡ versions.old.capacity }
{
    for value in values {
        add_cell(versions, newest, *value, since);
    }
}
