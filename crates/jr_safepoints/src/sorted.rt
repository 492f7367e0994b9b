//! Clauses by what they belong to.

ghost use Rattle.std.specs.Prelude.{◌≡◌, ℕ, ◌==◌, ◌+◌, ◌<◌, ◌≤◌, ◌^◌, false, [], length, map, slice_index_or, IfOk, OnOk};
ghost use Rattle.std.specs.Option.{option_map_or};
ghost use Rattle.jr_program.specs.ClauseViews.{view_clause};
ghost use Rattle.jr_program.specs.Sites as sites;
ghost use Rattle.jr_safepoints.specs.Sorted.{is_wanted, AreSorted, Notes};

use jr_base::{ClauseId, Memory};
use jr_program::{ClauseKind, Owner, TypedSpec};
use sqlite_items::Items;
use std::alloc::Global;

/// Which clauses are sorted: those of one kind that belong to methods, to fields or to classes.
#[derive(Clone, Copy, Debug, PartialEq, Eq)]
pub enum Wanted {
    OfMethod(ClauseKind),
    OfField(ClauseKind),
    /// Of a class, and whether those that aren't static are among them.
    OfClass(ClauseKind, bool),
}

fn same_kind(one: ClauseKind, other: ClauseKind) -> bool
    ensures { result ≡ sites.same_kind one other }
{
    match (one, other) {
        (ClauseKind::Requires, ClauseKind::Requires)
        | (ClauseKind::Ensures, ClauseKind::Ensures)
        | (ClauseKind::When, ClauseKind::When)
        | (ClauseKind::Locks, ClauseKind::Locks)
        | (ClauseKind::MonitorsFor, ClauseKind::MonitorsFor)
        | (ClauseKind::Invariant, ClauseKind::Invariant)
        | (ClauseKind::Constraint, ClauseKind::Constraint)
        | (ClauseKind::Assert, ClauseKind::Assert)
        | (ClauseKind::Atomic, ClauseKind::Atomic) => true,
        _ => false,
    }
}

/// The number of what the clause belongs to, where it is one that is wanted.
fn owner_of(wanted: Wanted, clause: &TypedSpec) -> Option<u32>
    ensures { (n : ℕ) → is_wanted wanted n (view_clause clause.now) ≡ option_map_or (λ k. k == n) result false }
{
    match (wanted, clause.owner) {
        (Wanted::OfMethod(kind), Owner::Method(method)) if same_kind(clause.kind, kind) => {
            Some(method.0)
        }
        (Wanted::OfField(kind), Owner::Field(field)) if same_kind(clause.kind, kind) => {
            Some(field.0)
        }
        (Wanted::OfClass(kind, with_objects), Owner::Class(class))
            if same_kind(clause.kind, kind) && (clause.is_static || with_objects) => {
            Some(class.0)
        }
        _ => None,
    }
}

/// Makes the lists at least so many.
fn reach(alloc: Global, lists: &mut Vec<Items<ClauseId>>, count: usize) -> Result<(), Memory>
    ensures within { OnOk result (count ≤ length lists.new.items) }
    ensures same { (n : ℕ) → slice_index_or lists.new.items n [] ≡ slice_index_or lists.old.items n [] }
{
    for _ in lists.len()..count {
        lists.push(Items::new(alloc))?;
    }
    Ok(())
}

/// Adds the clause to the list of that owner, if there is one.
fn note(
    alloc: Global,
    lists: &mut Vec<Items<ClauseId>>,
    owner: Option<u32>,
    clause: ClauseId,
) -> Result<(), Memory>
    ensures { OnOk result (Notes owner clause lists.old.items lists.new.items) }
{
    if let Some(owner) = owner {
        let owner = owner as usize;
        reach(alloc, lists, owner + 1)?;
        lists[owner].push(clause)?;
    }
    Ok(())
}

/// The clauses that are wanted, by the numbers of what they belong to, in source order. Takes one pass over the clauses.
pub fn sorted(
    alloc: Global,
    clauses: &[TypedSpec],
    wanted: Wanted,
) -> Result<Vec<Items<ClauseId>>, Memory>
    requires { length clauses.now + 1 < 2 ^ 32 }
    ensures { IfOk result (λ lists. AreSorted wanted (map view_clause clauses.now) lists.items) }
{
    let mut lists = Vec::new(alloc);
    for (place, clause) in clauses.iter().enumerate() {
        let number = ClauseId(place as u32 + 1);
        note(alloc, &mut lists, owner_of(wanted, clause), number)?;
    }
    Ok(lists)
}

/// The list of that owner.
pub fn list_at(lists: &Vec<Items<ClauseId>>, owner: u32) -> &[ClauseId]
    ensures { result.now ≡ slice_index_or lists.now.items owner [] }
{
    match lists.get(owner as usize) {
        Some(list) => list.as_slice(),
        None => &[],
    }
}
