//! Where steps stand, and the verdicts on their clauses.

ghost use Rattle.std.specs.Prelude.{◌≡◌, ◌==◌, ◌+◌, ◌<◌, ◌≤◌, ◌++◌, ◌∷◌, [], ℕ, IsTrue, false, cond, Option, Some, None, map, OnOk, IfSome, length, slice_get};
ghost use Rattle.jr_journal.specs.Marks.{place_in, kept, held, first_of};

use jr_base::{Memory, Stamp, Verdict};
use std::alloc::Global;
use std::marker::Model;

/// As many clauses are due at a step at most.
const PLACES: usize = 16;

/// What is kept of a step.
#[derive(Clone, Copy, Debug)]
pub struct Mark {
    /// Its place among the entries.
    pub at: u32,
    /// The first verdict on each of the clauses due there.
    pub verdicts: [Option<Verdict>; PLACES],
}

/// The verdict that a place holds, if there is such a place.
fn item(verdicts: &[Option<Verdict>], place: usize) -> Option<Option<Verdict>>
    ensures { result ≡ slice_get verdicts.now place }
{
    verdicts.get(place).copied()
}

impl Mark {
    /// The same with that verdict, unless one is kept of that place already; none where there is no such place.
    fn and(mut self, place: usize, value: Verdict) -> Option<Mark>
        ensures at { IfSome result (λ mark. mark.at ≡ self.at) }
        ensures verdicts { IfSome result (λ mark. (other : ℕ) → held (slice_get mark.verdicts other) ≡ first_of (held (slice_get self.verdicts other)) (cond (place == other) (Some value) None)) }
    {
        match item(&self.verdicts, place) {
            None => None,
            Some(Some(_)) => Some(self),
            Some(None) => {
                self.verdicts[place] = Some(value);
                Some(self)
            }
        }
    }
}

/// The marks of the steps, by number.
///
/// Contracts see their list, and for how many more there is room.
#[derive(Debug, Drop)]
pub struct Marks {
    marks: Vec<Mark>,
}

impl Model for Marks {
    ghost use Rattle.std.specs.Prelude.{◌-◌, ◌≡◌, List, All, vec_capacity, length};
    ghost use Rattle.jr_journal.specs.Marks.{MarksOf};

    ghost Value = { MarksOf };

    ghost view = { λ m. record { marks = m.marks.items; spare = vec_capacity m.marks - length m.marks.items } };
}

impl Marks {
    /// No step. Takes no memory.
    pub fn new(alloc: Global) -> Marks
        ensures { result.marks ≡ [] }
    {
        Marks {
            marks: Vec::new(alloc),
        }
    }

    /// Makes room for so many more steps.
    pub fn reserve(&mut self, n: u32) -> Result<(), Memory>
        ensures marks { self.new.marks ≡ self.old.marks }
        ensures room { OnOk result (n ≤ self.new.spare) }
        ensures spare { self.old.spare ≤ self.new.spare }
    {
        self.marks.reserve(n as usize)?;
        Ok(())
    }

    /// Adds a step that stands at that place, into reserved room.
    pub fn push(&mut self, at: u32)
        requires { 0 < self.old.spare }
        ensures places { map place_in self.new.marks ≡ map place_in self.old.marks ++ at ∷ [] }
        ensures kept { (k place : ℕ) → kept self.new.marks k place ≡ kept self.old.marks k place }
        ensures spare { self.new.spare + 1 ≡ self.old.spare }
    {
        let verdicts = [None; PLACES];
        self.marks.push_reserved(Mark { at, verdicts });
    }

    /// Keeps a verdict, unless one is kept of that place already; says whether there is such a place.
    pub fn keep(&mut self, step: Stamp, place: u8, value: Verdict) -> bool
        ensures places { map place_in self.new.marks ≡ map place_in self.old.marks }
        ensures kept { IsTrue result → (k other : ℕ) → kept self.new.marks k other ≡ first_of (kept self.old.marks k other) (cond (step.0 == k) (cond (place == other) (Some value) None) None) }
        ensures spare { self.new.spare ≡ self.old.spare }
    {
        let Some(mark) = self.find(step) else {
            return false;
        };
        match mark.and(place as usize, value) {
            Some(mark) => {
                self.marks[step.0 as usize] = mark;
                true
            }
            None => false,
        }
    }

    fn find(&self, step: Stamp) -> Option<Mark>
        ensures { result ≡ slice_get self.now.marks step.0 }
    {
        self.marks.as_slice().get(step.0 as usize).copied()
    }

    /// The place of a step, if it was made.
    pub fn place(&self, step: Stamp) -> Option<u32>
        ensures { result ≡ slice_get (map place_in self.now.marks) step.0 }
    {
        match self.marks.get(step.0 as usize) {
            Some(mark) => Some(mark.at),
            None => None,
        }
    }

    /// The verdict that is kept of a place of a step.
    pub fn verdict(&self, step: Stamp, place: u8) -> Option<Verdict>
        ensures { result ≡ kept self.now.marks step.0 place }
    {
        match self.marks.get(step.0 as usize) {
            Some(mark) => match mark.verdicts.get(place as usize) {
                Some(verdict) => *verdict,
                None => None,
            },
            None => None,
        }
    }

    /// How many steps there are.
    pub fn len(&self) -> u32
        requires { length self.now.marks < 4294967296 }
        ensures { result ≡ length self.now.marks }
    {
        self.marks.len() as u32
    }
}
