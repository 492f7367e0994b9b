//! Where the entries of a journal are found.

ghost use Rattle.std.specs.Prelude.{◌≡◌, ◌+◌, ◌<◌, ◌≤◌, ◌++◌, ◌∷◌, [], List, map, ℕ, length, OnOk};
ghost use Rattle.jr_meaning.specs.Event.{Event};
ghost use Rattle.jr_journal.specs.Entries.{event_of, made_at};
ghost use Rattle.jr_journal.specs.Marks.{place_in, kept};
ghost use Rattle.jr_journal.specs.Indexed.{IsIndexed};

use crate::journal::Entry;
use crate::marks::Marks;
use jr_base::{Memory, Reply, Reserved};
use std::alloc::Global;

/// Where the steps stand, those at which an object was made, and the verdicts.
#[derive(Debug, Drop)]
pub struct Index {
    pub marks: Marks,
    pub makes: Reserved<u32>,
    /// Whether each verdict is kept. One that stands before its step, or of a place past those that may be due, isn't:
    /// no right run has one.
    pub is_complete: bool,
}

impl Index {
    /// Of no entries. Takes no memory.
    pub fn new(alloc: Global) -> Index
        ensures { IsIndexed [] result }
    {
        Index {
            marks: Marks::new(alloc),
            makes: Reserved::new(alloc),
            is_complete: true,
        }
    }

    /// Makes room for so many more entries.
    pub fn reserve(&mut self, n: u32) -> Result<(), Memory>
        ensures indexed { (h : List Event) → IsIndexed h self.old → IsIndexed h self.new }
        ensures room { OnOk result ((n ≤ self.new.marks.spare) × (n ≤ self.new.makes.spare)) }
        ensures marks { self.old.marks.spare ≤ self.new.marks.spare }
        ensures makes { self.old.makes.spare ≤ self.new.makes.spare }
    {
        self.marks.reserve(n)?;
        self.makes.reserve(n)
    }

    /// Adds an entry that stands behind all others, at that place.
    pub fn add(&mut self, at: u32, entry: &Entry)
        requires marks_room { 0 < self.old.marks.spare }
        requires makes_room { 0 < self.old.makes.spare }
        ensures indexed { (h : List Event) → at ≡ length h → IsIndexed h self.old → IsIndexed (h ++ event_of entry.now ∷ []) self.new }
        ensures marks { self.old.marks.spare ≤ self.new.marks.spare + 1 }
        ensures makes { self.old.makes.spare ≤ self.new.makes.spare + 1 }
    {
        match entry {
            Entry::Step {
                guest: _,
                action: _,
                reply,
            } => self.add_step(at, *reply),
            Entry::Verdict { step, place, value } => {
                if !self.marks.keep(*step, *place, *value) {
                    self.is_complete = false;
                }
            }
            Entry::Wake { guest: _ } => {}
        }
    }

    fn add_step(&mut self, at: u32, reply: Reply)
        requires marks_room { 0 < self.old.marks.spare }
        requires makes_room { 0 < self.old.makes.spare }
        ensures steps { map place_in self.new.marks.marks ≡ map place_in self.old.marks.marks ++ at ∷ [] }
        ensures makes { self.new.makes.items ≡ self.old.makes.items ++ made_at at reply }
        ensures kept { (k place : ℕ) → kept self.new.marks.marks k place ≡ kept self.old.marks.marks k place }
        ensures complete { self.new.is_complete ≡ self.old.is_complete }
        ensures marks_spare { self.old.marks.spare ≤ self.new.marks.spare + 1 }
        ensures makes_spare { self.old.makes.spare ≤ self.new.makes.spare + 1 }
    {
        self.marks.push(at);
        if let Reply::Made(_) = reply {
            self.makes.push(at);
        }
    }
}
