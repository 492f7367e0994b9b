//! The lines that a program prints.

ghost use Rattle.std.specs.Prelude.{◌≡◌, ◌+◌, ◌≤◌, [], ◌∷◌, ◌++◌, length, codes, decimal, flat_map};
ghost use Rattle.jr_io.specs.Writes.{WritesPiece, CountsPieceFault};
ghost use Rattle.jr_program.specs.UnitViews.{program_of};
ghost use Rattle.jr_journal.specs.Entries.{event_of};
ghost use Rattle.jr_report.specs.Adding.{Adds};
ghost use Rattle.jr_report.specs.Report.{part_text, out_line, out_lines, out_lines_of, bytes_of_lines};

use crate::line::Line;
use itoa::Buffer;
use jr_base::{Action, GuestNo, PrintPart, Value};
use jr_io::{Piece, Sink, write_piece};
use jr_journal::{Entry, Journal};
use jr_program::TypedUnit;

/// Writes the line of each print.
pub fn write_out_lines<K: Sink>(
    unit: &TypedUnit,
    journal: &Journal,
    line: &mut Line,
    sink: &mut K,
) -> Piece
    ensures bytes { WritesPiece (K.written sink.old) (K.written sink.new) result (bytes_of_lines (out_lines (program_of unit.now) journal.now.entries)) }
    ensures never_falls { K.faults sink.old ≤ K.faults sink.new }
    ensures faults { CountsPieceFault (K.faults sink.old) (K.faults sink.new) result }
{
    for at in 0..journal.len() {
        match write_out_line(unit, journal.entry(at), line, sink) {
            Piece::Whole => {}
            Piece::WriteFault => return Piece::WriteFault,
        }
    }
    Piece::Whole
}

// Writes the line of an entry, where it is a print.
fn write_out_line<K: Sink>(unit: &TypedUnit, entry: &Entry, line: &mut Line, sink: &mut K) -> Piece
    ensures bytes { WritesPiece (K.written sink.old) (K.written sink.new) result (bytes_of_lines (out_lines_of (program_of unit.now) (event_of entry.now))) }
    ensures never_falls { K.faults sink.old ≤ K.faults sink.new }
    ensures faults { CountsPieceFault (K.faults sink.old) (K.faults sink.new) result }
{
    match entry {
        Entry::Step {
            guest,
            action: Action::Print(parts),
            reply: _,
        } => {
            begin_out_line(line, *guest);
            write_parts(unit, parts.as_slice(), line, sink)
        }
        _ => Piece::Whole,
    }
}

// What stands before the parts.
fn begin_out_line(line: &mut Line, guest: GuestNo)
    ensures { line.new ≡ codes "out " ++ decimal guest.0 ++ codes ": " }
{
    line.clear();
    line.text("out ");
    line.number(guest.0);
    line.text(": ");
}

// Writes a line that has begun already, with these parts behind it.
fn write_parts<K: Sink>(
    unit: &TypedUnit,
    parts: &[PrintPart],
    line: &mut Line,
    sink: &mut K,
) -> Piece
    ensures bytes { WritesPiece (K.written sink.old) (K.written sink.new) result (line.old ++ flat_map (part_text (program_of unit.now)) parts.now ++ 10 ∷ []) }
    ensures never_falls { K.faults sink.old ≤ K.faults sink.new }
    ensures faults { CountsPieceFault (K.faults sink.old) (K.faults sink.new) result }
{
    for part in parts {
        match add_part(unit, *part, line, sink) {
            Piece::Whole => {}
            Piece::WriteFault => return Piece::WriteFault,
        }
    }
    end_line(line, sink)
}

/// Writes a line to its end.
pub fn end_line<K: Sink>(line: &mut Line, sink: &mut K) -> Piece
    ensures bytes { WritesPiece (K.written sink.old) (K.written sink.new) result (line.old ++ 10 ∷ []) }
    ensures never_falls { K.faults sink.old ≤ K.faults sink.new }
    ensures faults { CountsPieceFault (K.faults sink.old) (K.faults sink.new) result }
{
    match line.add(b"\n", sink) {
        Piece::Whole => write_piece(sink, line.as_bytes()),
        Piece::WriteFault => Piece::WriteFault,
    }
}

// Adds a part of a print.
fn add_part<K: Sink>(unit: &TypedUnit, part: PrintPart, line: &mut Line, sink: &mut K) -> Piece
    ensures bytes { Adds (K.written sink.old) (K.written sink.new) line.old line.new result (part_text (program_of unit.now) part) }
    ensures never_falls { K.faults sink.old ≤ K.faults sink.new }
    ensures faults { CountsPieceFault (K.faults sink.old) (K.faults sink.new) result }
{
    let mut digits = Buffer::new();
    match part {
        PrintPart::Text(text) if text.0 < unit.text_count() => line.add(unit.text(text), sink),
        PrintPart::Val(Value::Int(n)) => line.add(digits.format(n).as_bytes(), sink),
        PrintPart::Val(Value::Long(n)) => line.add(digits.format(n).as_bytes(), sink),
        PrintPart::Val(Value::Bool(true)) => line.add(b"true", sink),
        PrintPart::Val(Value::Bool(false)) => line.add(b"false", sink),
        PrintPart::Val(Value::Null | Value::Ref(_)) | PrintPart::Text(_) => line.add(b"", sink),
    }
}
