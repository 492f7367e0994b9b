//! What is told of a source without a run: how much it has, and its clauses.

ghost use Rattle.std.specs.Prelude.{◌≡◌, ◌+◌, ◌-◌, ◌≤◌, ◌<◌, [], ◌∷◌, ◌++◌, map, length, take, drop};
ghost use Rattle.jr_io.specs.Writes.{WritesPiece, CountsPieceFault};
ghost use Rattle.jr_program.specs.UnitViews.{program_of, view_note};
ghost use Rattle.jr_program.specs.ClauseViews.{view_clause};
ghost use Rattle.jr_report.specs.Report.{bytes_of_lines};
ghost use Rattle.jr_report.specs.Listing.{check_line, clause_line, note_line, note_end, count_line, is_before, notes_before, notes_behind, in_source_order, listing};

use crate::line::Line;
use crate::prints::end_line;
use crate::violations::put_position;
use crate::words::name_of_clause_kind;
use jr_base::{ClauseId, Position};
use jr_io::{Piece, Sink, write_piece};
use jr_program::{TypedNote, TypedSpec, TypedUnit};

/// Writes how many classes, methods and clauses an accepted source has.
pub fn write_check<K: Sink>(unit: &TypedUnit, sink: &mut K) -> Piece
    ensures bytes { WritesPiece (K.written sink.old) (K.written sink.new) result (check_line (program_of unit.now) ++ 10 ∷ []) }
    ensures never_falls { K.faults sink.old ≤ K.faults sink.new }
    ensures faults { CountsPieceFault (K.faults sink.old) (K.faults sink.new) result }
{
    let mut line = Line::new();
    put_check_line(&mut line, unit);
    write_piece(sink, line.as_bytes())
}

// That line.
fn put_check_line(line: &mut Line, unit: &TypedUnit)
    requires { line.old ≡ [] }
    ensures { line.new ≡ check_line (program_of unit.now) ++ 10 ∷ [] }
{
    line.text("accepted: classes ");
    line.number(unit.class_count());
    line.text(", methods ");
    line.number(unit.method_count());
    line.text(", clauses ");
    line.number(unit.clause_count());
    line.text("\n");
}

/// Writes the clauses that are judged, and the words of JML that aren't, in source order, and how many there are.
pub fn write_clauses<K: Sink>(unit: &TypedUnit, sink: &mut K) -> Piece
    ensures bytes { WritesPiece (K.written sink.old) (K.written sink.new) result (listing (program_of unit.now)) }
    ensures never_falls { K.faults sink.old ≤ K.faults sink.new }
    ensures faults { CountsPieceFault (K.faults sink.old) (K.faults sink.new) result }
{
    let mut line = Line::new();
    match write_in_order(unit, &mut line, sink) {
        Piece::Whole => write_count(unit, &mut line, sink),
        Piece::WriteFault => Piece::WriteFault,
    }
}

// Writes the last line.
fn write_count<K: Sink>(unit: &TypedUnit, line: &mut Line, sink: &mut K) -> Piece
    ensures bytes { WritesPiece (K.written sink.old) (K.written sink.new) result (count_line (program_of unit.now) ++ 10 ∷ []) }
    ensures never_falls { K.faults sink.old ≤ K.faults sink.new }
    ensures faults { CountsPieceFault (K.faults sink.old) (K.faults sink.new) result }
{
    line.clear();
    line.text("clauses ");
    line.number(unit.clause_count());
    line.text(", notes ");
    line.long_number(unit.notes().len() as u64);
    line.text("\n");
    write_piece(sink, line.as_bytes())
}

// Writes a line for each clause and note.
fn write_in_order<K: Sink>(unit: &TypedUnit, line: &mut Line, sink: &mut K) -> Piece
    ensures bytes { WritesPiece (K.written sink.old) (K.written sink.new) result
        (bytes_of_lines (in_source_order 1 (program_of unit.now).clauses (program_of unit.now).notes)) }
    ensures never_falls { K.faults sink.old ≤ K.faults sink.new }
    ensures faults { CountsPieceFault (K.faults sink.old) (K.faults sink.new) result }
{
    let mut notes = unit.notes();
    for at in 0..unit.clause_count() {
        let clause = unit.clause(ClauseId(at + 1));
        let (before, behind) = notes.split_at(count_before(clause.place, notes));
        match write_clause(clause, at + 1, before, line, sink) {
            Piece::Whole => {}
            Piece::WriteFault => return Piece::WriteFault,
        }
        notes = behind;
    }
    write_notes(notes, line, sink)
}

// How many notes at the front stand before a place.
fn count_before(place: Position, notes: &[TypedNote]) -> usize
    ensures within { result ≤ length notes.now }
    ensures before { take result (map view_note notes.now) ≡ notes_before place (map view_note notes.now) }
    ensures behind { drop result (map view_note notes.now) ≡ notes_behind place (map view_note notes.now) }
{
    for (at, note) in notes.iter().enumerate() {
        if !is_before(place, note) {
            return at;
        }
    }
    notes.len()
}

// Whether a note stands before a place.
fn is_before(place: Position, note: &TypedNote) -> bool
    ensures { result ≡ is_before place (view_note note.now) }
{
    note.place.line < place.line
        || (note.place.line == place.line && note.place.column < place.column)
}

// Writes the lines of some notes and, behind them, of a clause.
fn write_clause<K: Sink>(
    clause: &TypedSpec,
    number: u32,
    notes: &[TypedNote],
    line: &mut Line,
    sink: &mut K,
) -> Piece
    ensures bytes { WritesPiece (K.written sink.old) (K.written sink.new) result
        (bytes_of_lines (map note_line (map view_note notes.now) ++ clause_line number (view_clause clause.now) ∷ [])) }
    ensures never_falls { K.faults sink.old ≤ K.faults sink.new }
    ensures faults { CountsPieceFault (K.faults sink.old) (K.faults sink.new) result }
{
    match write_notes(notes, line, sink) {
        Piece::Whole => {
            put_clause_line(line, clause, number);
            write_piece(sink, line.as_bytes())
        }
        Piece::WriteFault => Piece::WriteFault,
    }
}

// The line of a clause.
fn put_clause_line(line: &mut Line, clause: &TypedSpec, number: u32)
    ensures { line.new ≡ clause_line number (view_clause clause.now) ++ 10 ∷ [] }
{
    line.clear();
    line.text("clause ");
    line.number(number);
    line.text(": ");
    line.text(name_of_clause_kind(clause.kind));
    line.text(" at ");
    put_position(line, clause.place);
    line.text("\n");
}

// Writes a line for each note.
fn write_notes<K: Sink>(notes: &[TypedNote], line: &mut Line, sink: &mut K) -> Piece
    ensures bytes { WritesPiece (K.written sink.old) (K.written sink.new) result (bytes_of_lines (map note_line (map view_note notes.now))) }
    ensures never_falls { K.faults sink.old ≤ K.faults sink.new }
    ensures faults { CountsPieceFault (K.faults sink.old) (K.faults sink.new) result }
{
    for note in notes {
        match write_note(note, line, sink) {
            Piece::Whole => {}
            Piece::WriteFault => return Piece::WriteFault,
        }
    }
    Piece::Whole
}

// Writes the line of a note.
fn write_note<K: Sink>(note: &TypedNote, line: &mut Line, sink: &mut K) -> Piece
    ensures bytes { WritesPiece (K.written sink.old) (K.written sink.new) result (note_line (view_note note.now) ++ 10 ∷ []) }
    ensures never_falls { K.faults sink.old ≤ K.faults sink.new }
    ensures faults { CountsPieceFault (K.faults sink.old) (K.faults sink.new) result }
{
    line.clear();
    line.text("note: ");
    match line.add(note.word.as_slice(), sink) {
        Piece::Whole => write_note_end(note.place, line, sink),
        Piece::WriteFault => Piece::WriteFault,
    }
}

// Writes what stands in the line, and the end of a note's.
fn write_note_end<K: Sink>(place: Position, line: &mut Line, sink: &mut K) -> Piece
    ensures bytes { WritesPiece (K.written sink.old) (K.written sink.new) result (line.old ++ note_end place ++ 10 ∷ []) }
    ensures never_falls { K.faults sink.old ≤ K.faults sink.new }
    ensures faults { CountsPieceFault (K.faults sink.old) (K.faults sink.new) result }
{
    let mut end = Line::new();
    put_note_end(&mut end, place);
    match line.add(end.as_bytes(), sink) {
        Piece::Whole => end_line(line, sink),
        Piece::WriteFault => Piece::WriteFault,
    }
}

// The end of a note's line.
fn put_note_end(line: &mut Line, place: Position)
    requires { line.old ≡ [] }
    ensures { line.new ≡ note_end place }
{
    line.text(" at ");
    put_position(line, place);
    line.text(" is not judged");
}
