//! The lines of threads that an exception ended.

ghost use Rattle.std.specs.Prelude.{◌≡◌, ◌+◌, ◌≤◌, [], ◌∷◌, ◌++◌, length};
ghost use Rattle.jr_io.specs.Writes.{WritesPiece, CountsPieceFault};
ghost use Rattle.jr_journal.specs.Entries.{event_of};
ghost use Rattle.jr_report.specs.Report.{uncaught_line, uncaught_lines, uncaught_lines_of, bytes_of_lines};

use crate::count::count_of;
use crate::line::Line;
use crate::words::name_of_fault;
use jr_base::{Action, EndHow, Fault, GuestNo};
use jr_io::{Piece, Sink, write_piece};
use jr_journal::{Entry, Journal};

/// Writes the line of each thread that an exception ended.
pub fn write_uncaught_lines<K: Sink>(journal: &Journal, line: &mut Line, sink: &mut K) -> Piece
    ensures bytes { WritesPiece (K.written sink.old) (K.written sink.new) result (bytes_of_lines (uncaught_lines 0 journal.now.entries)) }
    ensures never_falls { K.faults sink.old ≤ K.faults sink.new }
    ensures faults { CountsPieceFault (K.faults sink.old) (K.faults sink.new) result }
{
    let mut step = 0;
    for at in 0..journal.len() {
        let entry = journal.entry(at);
        match write_uncaught_line(entry, step, line, sink) {
            Piece::Whole => {}
            Piece::WriteFault => return Piece::WriteFault,
        }
        step += count_of(entry).steps;
    }
    Piece::Whole
}

// Writes the line of an entry, where it is an end by an exception.
fn write_uncaught_line<K: Sink>(entry: &Entry, step: u32, line: &mut Line, sink: &mut K) -> Piece
    ensures bytes { WritesPiece (K.written sink.old) (K.written sink.new) result (bytes_of_lines (uncaught_lines_of step (event_of entry.now))) }
    ensures never_falls { K.faults sink.old ≤ K.faults sink.new }
    ensures faults { CountsPieceFault (K.faults sink.old) (K.faults sink.new) result }
{
    match entry {
        Entry::Step {
            guest,
            action: Action::End(EndHow::Uncaught(fault)),
            reply: _,
        } => {
            put_uncaught_line(line, *fault, *guest, step);
            write_piece(sink, line.as_bytes())
        }
        _ => Piece::Whole,
    }
}

// The line of an end by an exception.
fn put_uncaught_line(line: &mut Line, fault: Fault, guest: GuestNo, step: u32)
    ensures { line.new ≡ uncaught_line fault guest step ++ 10 ∷ [] }
{
    line.clear();
    line.text("uncaught ");
    line.text(name_of_fault(fault));
    line.text(", guest ");
    line.number(guest.0);
    line.text(", step ");
    line.number(step);
    line.text("\n");
}
