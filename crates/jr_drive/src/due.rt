//! The clauses that are due at a site.

ghost use Rattle.std.specs.Prelude.{◌≡◌, ◌<◌, ◌≤◌, ◌↔◌, IsTrue, length, slice_get, Some};
ghost use Rattle.jr_program.specs.Sites.{due_at_site};
ghost use Rattle.jr_program.specs.UnitViews.{IsSite, program_of};
ghost use Rattle.jr_drive.specs.DueThere.{numbers_in};

use jr_base::ClauseId;
use jr_program::{DueList, Site, TypedUnit};

/// The clauses due at a site.
#[derive(Clone, Copy)]
pub enum Due<'a> {
    Listed(&'a DueList),
    Alone(ClauseId),
    Nothing,
}

impl Due<'_> {
    /// How many clauses are due.
    pub fn len(&self) -> u32
        ensures count { result ≡ length (numbers_in self.now) }
        ensures few { result ≤ 16 }
    {
        match self {
            Due::Listed(list) => list.len(),
            Due::Alone(_) => 1,
            Due::Nothing => 0,
        }
    }

    /// The clause at a place of the order, from 0.
    pub fn at(&self, place: u32) -> ClauseId
        requires { place < length (numbers_in self.now) }
        ensures { slice_get (numbers_in self.now) place ≡ Some result }
    {
        match self {
            Due::Listed(list) => list.at(place),
            Due::Alone(clause) => *clause,
            Due::Nothing => unreachable!(),
        }
    }
}

/// The clauses that are due at a site, whatever its number.
#[tactic(auto, using(crate::proofs::NothingDue::nothing_elsewhere))]
pub fn due_at(unit: &TypedUnit, site: Site) -> Due<'_>
    ensures { numbers_in result ≡ due_at_site (program_of unit.now) site }
{
    unit.well_formed();
    match site {
        Site::Assert(clause) => Due::Alone(clause),
        _ if is_site(unit, site) => Due::Listed(unit.due(site)),
        _ => Due::Nothing,
    }
}

fn is_site(unit: &TypedUnit, site: Site) -> bool
    ensures { IsTrue result ↔ IsSite (program_of unit.now) site }
{
    match site {
        Site::Entry(m) | Site::Commit(m) | Site::Return(m) | Site::Edge(m) => m.0
            < unit.method_count(),
        Site::Access(f) => f.0 < unit.field_count(),
        Site::Assert(c) => 0 < c.0 && c.0 <= unit.clause_count(),
    }
}
