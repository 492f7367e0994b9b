//! The journal of a run: every step and every verdict, in the order in which they were made.

ghost use Rattle.std.specs.Prelude.{◌≡◌, ◌==◌, ◌+◌, ◌<◌, ◌≤◌, [], ◌∷◌, ◌++◌, length, map, OnOk, slice_get, Some};
ghost use Rattle.jr_meaning.specs.Verdicts.{verdict_of};
ghost use Rattle.jr_journal.specs.Entries.{event_of, place_of, make_place_of};

use crate::index::Index;
use jr_base::{Action, Finish, GuestNo, Memory, Reply, Reserved, Stamp, Verdict};
use jr_program::TypedUnit;
use std::alloc::Global;
use std::marker::Model;

/// One entry of a journal.
#[derive(Debug, Drop)]
pub enum Entry {
    /// A thread made an action, and the machine replied. Steps alone are numbered, from 0.
    Step {
        guest: GuestNo,
        action: Action,
        reply: Reply,
    },
    /// The clause at that place, from 0, of those due at that step has that value.
    Verdict {
        step: Stamp,
        place: u8,
        value: Verdict,
    },
    /// A thread left its wait set though nobody notified it (JLS 17.2.1).
    Wake {
        guest: GuestNo,
    },
}

/// What a run began with: the program, and how many steps it may make.
#[derive(Drop)]
pub struct Opening {
    pub unit: TypedUnit,
    pub budget: u32,
}

/// The entries of a run, which grow only into room that was reserved. Beside them it keeps where each step stands, so
/// that a step, an object's `new` and a verdict are each found at once.
///
/// Contracts see the list of entries as plain data, as `entries`, and how many may be pushed, as `spare`.
#[derive(Debug, Drop)]
pub struct Journal {
    entries: Reserved<Entry>,
    index: Index,
    spare: u32,
}

impl Model for Journal {
    ghost use Rattle.std.specs.Prelude.{◌≤◌, map};
    ghost use Rattle.jr_journal.specs.Entries.{event_of, Entries};
    ghost use Rattle.jr_journal.specs.Indexed.{IsIndexed};

    ghost Value = { Entries };

    ghost view = { λ j. record { entries = map event_of j.entries.items; spare = j.spare } };

    ghost invariant = { λ j. IsIndexed (map event_of j.entries.items) j.index × (j.spare ≤ j.entries.spare) × (j.spare ≤ j.index.marks.spare) × (j.spare ≤ j.index.makes.spare) };
}

impl Journal {
    /// An empty journal. Takes no memory.
    pub fn new(alloc: Global) -> Self
        ensures { result.entries ≡ [] }
    {
        Journal {
            entries: Reserved::new(alloc),
            index: Index::new(alloc),
            spare: 0,
        }
    }

    /// Makes room for `n` more entries.
    pub fn reserve(&mut self, n: u32) -> Result<(), Memory>
        ensures entries { self.new.entries ≡ self.old.entries }
        ensures room { OnOk result (n ≤ self.new.spare) }
        ensures spare { self.old.spare ≤ self.new.spare }
    {
        if n <= self.spare {
            return Ok(());
        }
        self.entries.reserve(n)?;
        self.index.reserve(n)?;
        self.spare = n;
        Ok(())
    }

    /// Adds an entry at the end, into reserved room.
    pub fn push(&mut self, entry: Entry)
        requires { 0 < self.old.spare }
        ensures entries { self.new.entries ≡ self.old.entries ++ event_of entry ∷ [] }
        ensures spare { self.new.spare + 1 ≡ self.old.spare }
    {
        self.index.add(self.entries.len(), &entry);
        self.entries.push(entry);
        self.spare -= 1;
    }

    /// How many entries there are.
    pub fn len(&self) -> u32
        ensures { result ≡ length self.now.entries }
    {
        self.entries.len()
    }

    pub fn is_empty(&self) -> bool
        ensures { result ≡ (length self.now.entries == 0) }
    {
        self.entries.is_empty()
    }

    /// The entry at a place, from 0.
    pub fn entry(&self, at: u32) -> &Entry
        requires { at < length self.now.entries }
        ensures { slice_get self.now.entries at ≡ Some (event_of result.now) }
    {
        self.entries.get(at)
    }

    /// The place of a step among the entries, if it was made.
    pub fn place_of(&self, step: Stamp) -> Option<u32>
        ensures { result ≡ place_of self.now.entries step.0 }
    {
        self.index.marks.place(step)
    }

    /// The place of the step that made the n-th object, from 0; class objects, which stand from the start, aren't
    /// counted.
    pub fn make_place_of(&self, n: u32) -> Option<u32>
        ensures { result ≡ make_place_of self.now.entries n }
    {
        self.index.makes.as_slice().get(n as usize).copied()
    }

    /// The first verdict on the clause at a place of those due at a step. It is found at once, but for a journal in
    /// which some verdict stands before its step or has a place past 15: there the entries are searched.
    pub fn verdict(&self, step: Stamp, place: u8) -> Option<Verdict>
        ensures { result ≡ verdict_of self.now.entries step.0 place }
    {
        if self.index.is_complete {
            return self.index.marks.verdict(step, place);
        }
        search(self.entries.as_slice(), step, place)
    }
}

/// The first verdict on a clause, searched from the first entry on.
fn search(entries: &[Entry], step: Stamp, place: u8) -> Option<Verdict>
    ensures { result ≡ verdict_of (map event_of entries.now) step.0 place }
{
    for entry in entries {
        let verdict = verdict_in(entry, step, place);
        if verdict.is_some() {
            return verdict;
        }
    }
    None
}

/// The verdict on that clause, if the entry is one.
fn verdict_in(entry: &Entry, step: Stamp, place: u8) -> Option<Verdict>
    ensures { result ≡ verdict_of (event_of entry.now ∷ []) step.0 place }
{
    match entry {
        Entry::Verdict {
            step: other,
            place: at,
            value,
        } if other.0 == step.0 && *at == place => Some(*value),
        _ => None,
    }
}

/// A run that has ended: what it began with, all its entries, and how it ended.
#[derive(Drop)]
pub struct RunRecord {
    pub opening: Opening,
    pub journal: Journal,
    pub finish: Finish,
}
