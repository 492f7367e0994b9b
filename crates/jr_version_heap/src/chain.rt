//! The chain of a cell's versions, from the newest backwards.

ghost use Rattle.std.specs.Prelude.{◌≡◌, ◌≢◌, ◌+◌, ◌<◌, ◌≤◌, ℕ, List, Some, None, false, length, vec_len, vec_capacity};
ghost use Rattle.slab.specs.Slab.{ContainsKey, HasRoomFor, Updates, slab_len};
ghost use Rattle.jr_version_heap.specs.declared.version.Past.{Past};
ghost use Rattle.jr_version_heap.specs.declared.version.Version.{Version as VersionOf};
ghost use Rattle.jr_version_heap.specs.Versions.{IsChained, IsAdvanced, IsUnlinked, IsRelinked, IsBehind, version_in, is_pending, Serves};

use crate::version::{FOREVER, Home, Version};
use jr_base::Value;
use slab::Slab;

/// The value of a cell that a stamp shows: that of the first version from the newest backwards which was there.
pub fn find(versions: &Slab<Version>, newest: &[usize], place: u32, stamp: u64) -> Option<Value>
    requires chained { (past : Past) × IsChained newest.now versions.now.slots past }
    requires place { place < length newest.now }
    ensures { (k : ℕ) (v : VersionOf) → version_in versions.now.slots k ≡ Some v → v.place ≡ place → is_pending v.home ≡ false → Serves v stamp → result ≡ Some v.value }
{
    let mut at = newest[place as usize];
    loop {
        let version = versions[at];
        if version.since <= stamp {
            return Some(version.value);
        }
        match version.older {
            Some(older) => at = older,
            None => return None,
        }
    }
}

/// Puts a new version in front of a cell's chain, and answers the key of the one that it replaces, which
/// is loose then.
pub fn advance(
    versions: &mut Slab<Version>,
    newest: &mut Vec<usize>,
    place: u32,
    value: Value,
    at: u32,
) -> usize
    requires chained { (past : Past) × (past.changes ≤ at) × IsChained newest.old.items versions.old.slots past }
    requires place { place < vec_len newest.old }
    requires room { HasRoomFor versions.old 1 }
    ensures chained { IsChained newest.new.items versions.new.slots (record { changes = at + 1; writes = at + 1 }) }
    ensures advanced { (key : ℕ) × (key < versions.new.capacity) × IsAdvanced versions.old.slots versions.new.slots result key place at value }
    ensures count { vec_len newest.new ≡ vec_len newest.old }
    ensures cells { vec_capacity newest.new ≡ vec_capacity newest.old }
    ensures len { slab_len versions.new ≡ slab_len versions.old + 1 }
    ensures capacity { versions.new.capacity ≡ versions.old.capacity }
{
    let replaced = newest[place as usize];
    let was = versions[replaced];
    let key = versions.insert_reserved(Version {
        place,
        value,
        since: at as u64 + 1,
        upto: FOREVER,
        home: Home::Newest,
        older: Some(replaced),
        newer: None,
        next: None,
    });
    let now = Version {
        upto: at as u64,
        home: Home::Loose,
        newer: Some(key),
        next: None,
        ..was
    };
    put(versions, replaced, now);
    newest[place as usize] = key;
    replaced
}

/// Takes a version that stands behind the front out of its chain. It is pending then.
pub fn unlink(versions: &mut Slab<Version>, key: usize)
    requires chained { (newest : List ℕ) × (past : Past) × IsChained newest versions.old.slots past }
    requires behind { IsBehind versions.old.slots key }
    ensures chained { (newest : List ℕ) (past : Past) → IsChained newest versions.old.slots past → IsChained newest versions.new.slots past }
    ensures unlinked { IsUnlinked versions.old.slots versions.new.slots key }
    ensures len { slab_len versions.new ≡ slab_len versions.old }
    ensures capacity { versions.new.capacity ≡ versions.old.capacity }
{
    let version = versions[key];
    let behind = match version.newer {
        Some(behind) => behind,
        None => unreachable!(),
    };
    let pending = Version {
        home: Home::Pending,
        ..version
    };
    put(versions, key, pending);
    let newer = versions[behind];
    let linked = Version {
        older: version.older,
        ..newer
    };
    put(versions, behind, linked);
    set_newer(versions, version.older, version.newer);
}

// Links the version before, if there is one, to the one behind it.
fn set_newer(versions: &mut Slab<Version>, before: Option<usize>, newer: Option<usize>)
    requires { (j : ℕ) → before ≡ Some j → ContainsKey versions.old j }
    ensures linked { (j : ℕ) → before ≡ Some j → IsRelinked versions.old.slots versions.new.slots newer j }
    ensures others { (k : ℕ) → (before ≡ Some k → ⊥) → version_in versions.new.slots k ≡ version_in versions.old.slots k }
    ensures len { slab_len versions.new ≡ slab_len versions.old }
    ensures capacity { versions.new.capacity ≡ versions.old.capacity }
{
    if let Some(key) = before {
        let older = versions[key];
        put(versions, key, Version { newer, ..older });
    }
}

/// Puts a version in the place of another.
pub fn put(versions: &mut Slab<Version>, key: usize, version: Version)
    requires { ContainsKey versions.old key }
    ensures updates { Updates versions.old versions.new key (Some version) }
    ensures len { slab_len versions.new ≡ slab_len versions.old }
    ensures capacity { versions.new.capacity ≡ versions.old.capacity }
{
    if let Some(kept) = versions.get_mut(key) {
        *kept = version;
    }
}
