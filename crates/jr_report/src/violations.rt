//! The lines that say which clauses were violated.

ghost use Rattle.std.specs.Prelude.{◌≡◌, ◌+◌, ◌≤◌, ◌<◌, ◌^◌, ℕ, [], ◌∷◌, ◌++◌, List, Some, length, slice_get};
ghost use Rattle.jr_base.specs.declared.number.ClauseId.{ClauseId as Clause};
ghost use Rattle.jr_base.specs.declared.number.GuestNo.{GuestNo as Guest};
ghost use Rattle.jr_io.specs.Writes.{WritesPiece, CountsPieceFault};
ghost use Rattle.jr_program.specs.UnitViews.{program_of};
ghost use Rattle.jr_program.specs.ClauseViews.{view_clause};
ghost use Rattle.jr_program.specs.Programs.{clause_at};
ghost use Rattle.jr_meaning.specs.Event.{Event};
ghost use Rattle.jr_meaning.specs.Verdicts.{IsRight, OwesNothing};
ghost use Rattle.jr_report.specs.Judged.{AreJudged, AreJudgedAt, IsGivenAt, violations_of, violations_by};
ghost use Rattle.jr_report.specs.OpenCalls.{Stands};
ghost use Rattle.jr_report.specs.Report.{violation_lines, violation_line, violations_from, violation_in, numbered_lines, clause_text, position_text, bytes_of_lines};
ghost use Rattle.jr_report.specs.Sites.{due_where, IsLegalSomehow};

use crate::line::Line;
use crate::pass::Pass;
use crate::sites::{clause_due, site_of};
use crate::words::{name_of_clause_kind, name_of_verdict};
use jr_base::{ClauseId, GuestNo, Position, Stamp, Verdict};
use jr_io::{Piece, Sink, write_piece};
use jr_journal::{Entry, Journal};
use jr_program::{Site, TypedSpec, TypedUnit};

/// As many clauses are due at a step at most.
const PLACES: u8 = 16;

/// A step: who made it, and which site it passed.
#[derive(Clone, Copy)]
pub struct Passage {
    pub guest: GuestNo,
    pub step: Stamp,
    pub site: Option<Site>,
}

/// A clause that was due at a step, with its verdict.
#[derive(Clone, Copy)]
pub struct Given {
    pub clause: ClauseId,
    pub value: Verdict,
    pub guest: GuestNo,
    pub step: Stamp,
}

/// Writes the line of each violation, by step and place, in whatever order they were judged.
pub fn write_violation_lines<K: Sink>(
    unit: &TypedUnit,
    journal: &Journal,
    line: &mut Line,
    sink: &mut K,
) -> Piece
    requires legal { IsLegalSomehow (program_of unit.now) journal.now.entries }
    requires right { IsRight (program_of unit.now) journal.now.entries }
    requires nothing_owed { OwesNothing (program_of unit.now) journal.now.entries }
    ensures bytes { WritesPiece (K.written sink.old) (K.written sink.new) result
        (bytes_of_lines (violation_lines (program_of unit.now) journal.now.entries)) }
    ensures never_falls { K.faults sink.old ≤ K.faults sink.new }
    ensures faults { CountsPieceFault (K.faults sink.old) (K.faults sink.new) result }
{
    unit.well_formed();
    let mut pass = Pass::new();
    let mut written: u64 = 0;
    for at in 0..journal.len() {
        match write_violations(unit, journal, &pass, written + 1, line, sink) {
            Piece::Whole => {}
            Piece::WriteFault => return Piece::WriteFault,
        }
        written += count_violations(journal, &pass);
        pass.go_on(journal.entry(at));
    }
    Piece::Whole
}

// How many violations the next entry of a pass has: none, if it isn't a step.
fn count_violations(journal: &Journal, pass: &Pass) -> u64
    requires { pass.now.at < length journal.now.entries }
    ensures count { (e : Event) (guest : Guest) (clauses : List Clause) → slice_get journal.now.entries pass.now.at ≡ Some e
        → AreJudgedAt journal.now.entries pass.now.step clauses e → result ≡ length (violations_by journal.now.entries guest pass.now.step clauses e) }
    ensures few { result ≤ 16 }
{
    match journal.entry(pass.at) {
        Entry::Step { .. } => count_failed(journal, Stamp(pass.step)),
        _ => 0,
    }
}

// How many verdicts of a step aren't True, up to the first place that has none.
fn count_failed(journal: &Journal, step: Stamp) -> u64
    ensures count { (guest : Guest) (clauses : List Clause) → AreJudged journal.now.entries step.0 clauses
        → result ≡ length (violations_from journal.now.entries guest step.0 0 clauses) }
    ensures few { result ≤ 16 }
{
    let mut failed = 0;
    for place in 0..PLACES {
        let Some(value) = journal.verdict(step, place) else {
            return failed;
        };
        failed += failing(value);
    }
    failed
}

// 1 for a violation, else 0.
fn failing(value: Verdict) -> u64
    ensures count { (clause : Clause) (guest : Guest) (k : ℕ) → result ≡ length (violation_in clause guest k (Some value)) }
    ensures few { result ≤ 1 }
{
    match value {
        Verdict::True => 0,
        _ => 1,
    }
}

// Writes the lines of the next entry of a pass, if it is a step: the first has that number.
fn write_violations<K: Sink>(
    unit: &TypedUnit,
    journal: &Journal,
    pass: &Pass,
    number: u64,
    line: &mut Line,
    sink: &mut K,
) -> Piece
    requires legal { IsLegalSomehow (program_of unit.now) journal.now.entries }
    requires right { IsRight (program_of unit.now) journal.now.entries }
    requires nothing_owed { OwesNothing (program_of unit.now) journal.now.entries }
    requires stands { Stands journal.now.entries pass.now }
    requires next { pass.now.at < length journal.now.entries }
    requires few { number < 2 ^ 63 }
    ensures bytes { (e : Event) → slice_get journal.now.entries pass.now.at ≡ Some e → WritesPiece (K.written sink.old) (K.written sink.new) result
        (bytes_of_lines (numbered_lines (program_of unit.now) number (violations_of (program_of unit.now) journal.now.entries pass.now.step e))) }
    ensures never_falls { K.faults sink.old ≤ K.faults sink.new }
    ensures faults { CountsPieceFault (K.faults sink.old) (K.faults sink.new) result }
{
    unit.well_formed();
    let Entry::Step {
        guest,
        action,
        reply: _,
    } = journal.entry(pass.at)
    else {
        return Piece::Whole;
    };
    if count_failed(journal, Stamp(pass.step)) == 0 {
        return Piece::Whole;
    }
    let passage = Passage {
        guest: *guest,
        step: Stamp(pass.step),
        site: site_of(unit, journal, pass, *guest, action),
    };
    write_passage(unit, journal, passage, number, line, sink)
}

// Writes the lines of a step, on clauses due at its site.
fn write_passage<K: Sink>(
    unit: &TypedUnit,
    journal: &Journal,
    passage: Passage,
    number: u64,
    line: &mut Line,
    sink: &mut K,
) -> Piece
    requires judged { AreJudged journal.now.entries passage.step.0 (due_where (program_of unit.now) passage.site) }
    requires few { number < 2 ^ 63 }
    ensures bytes { WritesPiece (K.written sink.old) (K.written sink.new) result
        (bytes_of_lines (numbered_lines (program_of unit.now) number (violations_from journal.now.entries passage.guest passage.step.0 0 (due_where (program_of unit.now) passage.site)))) }
    ensures never_falls { K.faults sink.old ≤ K.faults sink.new }
    ensures faults { CountsPieceFault (K.faults sink.old) (K.faults sink.new) result }
{
    let mut written = 0;
    for place in 0..PLACES {
        let Some(given) = given_at(unit, journal, passage, place) else {
            return Piece::Whole;
        };
        match write_given(unit, given, number + written, line, sink) {
            Piece::Whole => {}
            Piece::WriteFault => return Piece::WriteFault,
        }
        written += failing(given.value);
    }
    Piece::Whole
}

// The clause at a place of those due at a step, with its verdict.
fn given_at(unit: &TypedUnit, journal: &Journal, passage: Passage, place: u8) -> Option<Given>
    requires { AreJudged journal.now.entries passage.step.0 (due_where (program_of unit.now) passage.site) }
    ensures { IsGivenAt journal.now.entries passage (due_where (program_of unit.now) passage.site) place result }
{
    let clause = clause_due(unit, passage.site, place)?;
    let value = journal.verdict(passage.step, place)?;
    Some(Given {
        clause,
        value,
        guest: passage.guest,
        step: passage.step,
    })
}

// Writes the line of a clause with its verdict, if it is a violation.
fn write_given<K: Sink>(
    unit: &TypedUnit,
    given: Given,
    number: u64,
    line: &mut Line,
    sink: &mut K,
) -> Piece
    ensures bytes { WritesPiece (K.written sink.old) (K.written sink.new) result
        (bytes_of_lines (numbered_lines (program_of unit.now) number (violation_in given.clause given.guest given.step.0 (Some given.value)))) }
    ensures never_falls { K.faults sink.old ≤ K.faults sink.new }
    ensures faults { CountsPieceFault (K.faults sink.old) (K.faults sink.new) result }
{
    if let Verdict::True = given.value {
        return Piece::Whole;
    }
    put_violation_line(line, unit, number, given);
    write_piece(sink, line.as_bytes())
}

// The line of a violation.
fn put_violation_line(line: &mut Line, unit: &TypedUnit, number: u64, given: Given)
    ensures { line.new ≡ violation_line (program_of unit.now) number
        (record { clause = given.clause; value = given.value; guest = given.guest; step = given.step.0 }) ++ 10 ∷ [] }
{
    line.clear();
    line.text("violation ");
    line.long_number(number);
    line.text(": ");
    put_clause(line, unit, given.clause, given.value);
    line.text(", guest ");
    line.number(given.guest.0);
    line.text(", step ");
    line.number(given.step.0);
    line.text("\n");
}

// A clause by its number, with its value; nothing where there is no such clause.
fn put_clause(line: &mut Line, unit: &TypedUnit, clause: ClauseId, value: Verdict)
    requires { length line.old ≤ 100 }
    ensures bytes { line.new ≡ line.old ++ clause_text (clause_at (program_of unit.now) clause) value }
    ensures len { length line.new ≤ length line.old + 60 }
{
    if clause.0 == 0 || clause.0 > unit.clause_count() {
        return;
    }
    put_known_clause(line, unit.clause(clause), value);
}

// A clause with its value, and where its keyword stands.
fn put_known_clause(line: &mut Line, clause: &TypedSpec, value: Verdict)
    requires { length line.old ≤ 100 }
    ensures bytes { line.new ≡ line.old ++ clause_text (Some (view_clause clause.now)) value }
    ensures len { length line.new ≤ length line.old + 60 }
{
    line.text(name_of_clause_kind(clause.kind));
    line.text(" ");
    line.text(name_of_verdict(value));
    line.text(" at ");
    put_position(line, clause.place);
}

/// A place in the source.
pub fn put_position(line: &mut Line, place: Position)
    requires { length line.old ≤ 1000 }
    ensures bytes { line.new ≡ line.old ++ position_text place }
    ensures len { length line.new ≤ length line.old + 21 }
{
    line.number(place.line);
    line.text(":");
    line.number(place.column);
}
