//! The slots of fields.

ghost use Rattle.std.specs.Prelude.{◌≡◌, ℕ, ◌==◌, ◌+◌, ◌≤◌, [], ◌∷◌, ◌++◌, List, cond, length, slice_index_or, IfOk, OnOk};
ghost use Rattle.std.specs.List.{count_by};
ghost use Rattle.jr_program.specs.Programs.{Field};
ghost use Rattle.jr_program.specs.Slots.{is_of};
ghost use Rattle.jr_safepoints.specs.Slotted.{CountsAll};

use jr_base::{ClassId, Memory};
use std::alloc::Global;

/// How many fields of each class were given slots: so the next slot takes no walk.
#[derive(Drop)]
pub struct Slots {
    pub statics: Vec<u32>,
    pub others: Vec<u32>,
}

/// Makes the counts at least so many.
#[tactic(auto, using(crate::proofs::Slotting::still_same))]
fn reach(counts: &mut Vec<u32>, count: usize) -> Result<(), Memory>
    ensures within { OnOk result (count ≤ length counts.new.items) }
    ensures same { (n : ℕ) → slice_index_or counts.new.items n 0 ≡ slice_index_or counts.old.items n 0 }
{
    for _ in counts.len()..count {
        counts.push(0)?;
    }
    Ok(())
}

/// Counts one more of that class, and answers how many there were.
#[tactic(auto, using(crate::proofs::Slotting::one_more, crate::proofs::Slotting::first_count))]
fn next(counts: &mut Vec<u32>, class: u32) -> Result<u32, Memory>
    ensures before { IfOk result (λ n. n ≡ slice_index_or counts.old.items class 0) }
    ensures after { OnOk result ((n : ℕ) → slice_index_or counts.new.items n 0 ≡ slice_index_or counts.old.items n 0 + cond (class == n) 1 0) }
{
    let class = class as usize;
    reach(counts, class + 1)?;
    let before = counts[class];
    counts[class] = before.checked_add(1).ok_or(Memory)?;
    Ok(before)
}

impl Slots {
    /// Before all fields. Takes no memory.
    pub fn new(alloc: Global) -> Slots
        ensures { CountsAll [] result }
    {
        Slots {
            statics: Vec::new(alloc),
            others: Vec::new(alloc),
        }
    }

    /// The slot of the next field: how many before it lie on the class's object, or on each object of the class, where it
    /// lies too.
    #[tactic(auto, using(crate::proofs::Slotting::static_counted, crate::proofs::Slotting::other_counted))]
    pub fn take(&mut self, class: ClassId, is_static: bool) -> Result<u32, Memory>
        ensures slot { (fields : List Field) → CountsAll fields self.old → IfOk result (λ slot. slot ≡ count_by (is_of class is_static) fields) }
        ensures counted { (fields : List Field) (field : Field) → field.class ≡ class → field.is_static ≡ is_static → CountsAll fields self.old → OnOk result (CountsAll (fields ++ field ∷ []) self.new) }
    {
        if is_static {
            next(&mut self.statics, class.0)
        } else {
            next(&mut self.others, class.0)
        }
    }
}
