//! Which clauses are due at a step, found again from the journal.

ghost use Rattle.std.specs.Prelude.{◌≡◌, ◌≤◌, ◌<◌, ◌+◌, ◌↔◌, ℕ, List, Some, IsTrue, length, slice_get, take};
ghost use Rattle.std.specs.Option.{option_map};
ghost use Rattle.jr_base.specs.Deed.{deed_of};
ghost use Rattle.jr_program.specs.UnitViews.{program_of, IsSite};
ghost use Rattle.jr_program.specs.Sites.{due_at_site};
ghost use Rattle.jr_program.specs.Programs.{Program, Field, field_at};
ghost use Rattle.jr_program.specs.Slots.{class_count, field_in, is_of};
ghost use Rattle.jr_meaning.specs.Due.{Passing, field_of_kind, field_at_cell};
ghost use Rattle.jr_meaning.specs.History.{world_after};
ghost use Rattle.jr_meaning.specs.World.{kind_of};
ghost use Rattle.jr_meaning.specs.Event.{Event};
ghost use Rattle.jr_journal.specs.Entries.{event_of};
ghost use Rattle.jr_report.specs.OpenCalls.{AreOpen, Stands, open_methods};
ghost use Rattle.jr_report.specs.Sites.{passed, due_where, field_of_home, home_made, IsLegalSomehow};

use crate::pass::Pass;
use jr_base::{Action, Cell, ClassId, ClauseId, FieldId, GuestNo, LeaveHow, NewKind, ObjId, Way};
use jr_journal::{Entry, Journal};
use jr_program::{Site, TypedUnit};

/// A class, and whether its static fields are meant or its other ones.
#[derive(Clone, Copy)]
pub struct Home {
    pub class: ClassId,
    pub is_static: bool,
}

/// The site that the next step of a pass passes, where it passes one: else any, or none.
pub fn site_of(
    unit: &TypedUnit,
    journal: &Journal,
    pass: &Pass,
    guest: GuestNo,
    action: &Action,
) -> Option<Site>
    requires stands { Stands journal.now.entries pass.now }
    requires legal { IsLegalSomehow (program_of unit.now) journal.now.entries }
    requires first { 1 ≤ guest.0 }
    requires last { guest.0 ≤ 16 }
    ensures { (p : Passing) → passed (program_of unit.now) (take pass.now.at journal.now.entries) guest (deed_of action.now) ≡ Some p → result ≡ Some p.site }
{
    match action {
        Action::Call { method, .. } => Some(Site::Entry(*method)),
        Action::Commit { method } => Some(Site::Commit(*method)),
        Action::Leave {
            method,
            how: LeaveHow::Normal(_),
        } => Some(Site::Return(*method)),
        Action::Get(cell) => access(unit, journal, pass, *cell),
        Action::Put(cell, _) => access(unit, journal, pass, *cell),
        Action::Enter(_, Way::Block) => edge(pass, guest),
        Action::Assert { clause, .. } => Some(Site::Assert(*clause)),
        _ => None,
    }
}

// The site of a read or write of a cell.
fn access(unit: &TypedUnit, journal: &Journal, pass: &Pass, cell: Cell) -> Option<Site>
    requires stands { Stands journal.now.entries pass.now }
    requires legal { IsLegalSomehow (program_of unit.now) journal.now.entries }
    ensures { result ≡ option_map Site.Access (field_at_cell (program_of unit.now) (world_after (program_of unit.now) (take pass.now.at journal.now.entries)) cell) }
{
    let home = home_of(unit, journal, pass, cell.obj)?;
    let field = find_field(unit, home, cell.slot)?;
    Some(Site::Access(field))
}

// The site of a `synchronized` statement.
fn edge(pass: &Pass, guest: GuestNo) -> Option<Site>
    requires first { 1 ≤ guest.0 }
    requires last { guest.0 ≤ 16 }
    ensures { (h : List Event) → AreOpen h pass.now.calls → result ≡ option_map Site.Edge (slice_get (open_methods h guest) 0) }
{
    let method = pass.calls.newest(guest)?;
    Some(Site::Edge(method))
}

// Which fields lie on an object: a class object has the static ones of its class. Arrays and other objects have none.
fn home_of(unit: &TypedUnit, journal: &Journal, pass: &Pass, object: ObjId) -> Option<Home>
    requires stands { Stands journal.now.entries pass.now }
    requires legal { IsLegalSomehow (program_of unit.now) journal.now.entries }
    ensures { (slot : ℕ) → field_of_home (program_of unit.now) slot result
        ≡ field_of_kind (program_of unit.now) (kind_of (world_after (program_of unit.now) (take pass.now.at journal.now.entries)) object) slot }
{
    let number = object.0.checked_sub(1)?;
    let classes = unit.class_count();
    if number < classes {
        return Some(Home {
            class: ClassId(number),
            is_static: true,
        });
    }
    made_home(journal, pass, number - classes)
}

// The same of the object that was made as that one, from 0.
fn made_home(journal: &Journal, pass: &Pass, n: u32) -> Option<Home>
    requires { Stands journal.now.entries pass.now }
    ensures { (program : Program) → IsLegalSomehow program journal.now.entries → (slot : ℕ) → field_of_home program slot result
        ≡ field_of_kind program (slice_get (world_after program (take pass.now.at journal.now.entries)).objects (class_count program + n)) slot }
{
    let place = journal.make_place_of(n)?;
    if place >= pass.at {
        return None;
    }
    class_made(journal.entry(place))
}

// The class of which an entry makes an object.
fn class_made(entry: &Entry) -> Option<Home>
    ensures { result ≡ home_made (event_of entry.now) }
{
    match entry {
        Entry::Step {
            guest: _,
            action: Action::New(NewKind::Object(class)),
            reply: _,
        } => Some(Home {
            class: *class,
            is_static: false,
        }),
        _ => None,
    }
}

// The field in a slot.
fn find_field(unit: &TypedUnit, home: Home, slot: u32) -> Option<FieldId>
    ensures { result ≡ field_in (program_of unit.now) home.class home.is_static slot }
{
    let mut left = slot;
    for number in 0..unit.field_count() {
        if lies_there(unit, FieldId(number), home) {
            if left == 0 {
                return Some(FieldId(number));
            }
            left -= 1;
        }
    }
    None
}

// Whether a field lies there.
fn lies_there(unit: &TypedUnit, field: FieldId, home: Home) -> bool
    requires { field.0 < length unit.now.fields }
    ensures { (f : Field) → field_at (program_of unit.now) field ≡ Some f → result ≡ is_of home.class home.is_static f }
{
    let field = unit.field(field);
    field.class.0 == home.class.0 && field.is_static == home.is_static
}

/// The clause at a place of those due at a site.
pub fn clause_due(unit: &TypedUnit, site: Option<Site>, place: u8) -> Option<ClauseId>
    ensures { result ≡ slice_get (due_where (program_of unit.now) site) place }
{
    unit.well_formed();
    match site? {
        Site::Assert(clause) if place == 0 => Some(clause),
        Site::Assert(_) => None,
        site if is_site(unit, site) => clause_at_site(unit, site, place),
        _ => None,
    }
}

// Whether a site is one of the unit's.
fn is_site(unit: &TypedUnit, site: Site) -> bool
    ensures { IsTrue result ↔ IsSite (program_of unit.now) site }
{
    match site {
        Site::Entry(m) | Site::Commit(m) | Site::Return(m) | Site::Edge(m) => {
            m.0 < unit.method_count()
        }
        Site::Access(f) => f.0 < unit.field_count(),
        Site::Assert(c) => 0 < c.0 && c.0 <= unit.clause_count(),
    }
}

// The clause at a place of those due at a site of the unit.
fn clause_at_site(unit: &TypedUnit, site: Site, place: u8) -> Option<ClauseId>
    requires { IsSite (program_of unit.now) site }
    ensures { result ≡ slice_get (due_at_site (program_of unit.now) site) place }
{
    let due = unit.due(site);
    if u32::from(place) < due.len() {
        Some(due.at(u32::from(place)))
    } else {
        None
    }
}
