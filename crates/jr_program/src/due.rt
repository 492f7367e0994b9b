//! The clauses that are due at a site.

ghost use Rattle.std.specs.Prelude.{◌≡◌, ◌==◌, ◌<◌, ◌≤◌, length, slice_get};

use crate::copied::Copied;
use jr_base::{ClauseId, Memory};
use sqlite_items::Items;
use std::alloc::Global;
use std::marker::Model;

/// The clauses that are due at one site, in order: at most 16.
///
/// Contracts see the list of their numbers.
#[derive(Drop)]
pub struct DueList {
    numbers: Items<ClauseId>,
}

impl Model for DueList {
    ghost use Rattle.std.specs.Prelude.{◌≤◌, List, length};
    ghost use Rattle.jr_base.specs.declared.number.ClauseId.{ClauseId};

    ghost Value = { List ClauseId };

    ghost view = { λ d. d.numbers };

    ghost invariant = { λ d. length d.numbers ≤ 16 };
}

impl DueList {
    pub fn new(numbers: Items<ClauseId>) -> DueList
        requires { length numbers ≤ 16 }
        ensures { result ≡ numbers }
    {
        DueList { numbers }
    }

    /// How many clauses are due.
    pub fn len(&self) -> u32
        ensures count { result ≡ length self.now }
        ensures few { result ≤ 16 }
    {
        self.numbers.len() as u32
    }

    pub fn is_empty(&self) -> bool
        ensures { result ≡ (length self.now == 0) }
    {
        self.numbers.len() == 0
    }

    /// The clause at a place of the order, from 0.
    pub fn at(&self, i: u32) -> ClauseId
        requires { i < length self.now }
        ensures { slice_get self.now i ≡ Some result }
    {
        self.numbers.as_slice()[i as usize]
    }
}

impl Copied for DueList {
    fn copied(&self, alloc: Global) -> Result<DueList, Memory> {
        let numbers = Items::from_slice(alloc, self.numbers.as_slice())?;
        Ok(DueList { numbers })
    }
}
