//! The report of a run.

ghost use Rattle.std.specs.Prelude.{◌≡◌, ◌+◌, ◌≤◌, [], ◌∷◌, ◌++◌, length};
ghost use Rattle.jr_base.specs.declared.finish.Finish.TheVariants as finishes;
ghost use Rattle.jr_io.specs.Writes.{WritesPiece, CountsPieceFault};
ghost use Rattle.jr_program.specs.UnitViews.{program_of};
ghost use Rattle.jr_meaning.specs.Right.{IsRightRun};
ghost use Rattle.jr_report.specs.Report.{finish_line, summary_line, summary_text, report};

use crate::count::{Count, count_all};
use crate::line::Line;
use crate::prints::write_out_lines;
use crate::uncaught::write_uncaught_lines;
use crate::violations::write_violation_lines;
use crate::words::name_of_kind;
use jr_base::{Finish, GuestNo, LimitKind};
use jr_io::{Piece, Sink, write_piece};
use jr_journal::RunRecord;

/// Writes the report of a run, a line a piece. What is due at a read or write is found by a pass over the fields, and
/// only where a clause was violated there.
pub fn write_report<K: Sink>(run: &RunRecord, sink: &mut K) -> Piece
    requires { IsRightRun (program_of run.now.opening.unit) run.now.opening.budget (record { history = run.now.journal.entries; finish = run.now.finish }) }
    ensures bytes { WritesPiece (K.written sink.old) (K.written sink.new) result (report (program_of run.now.opening.unit) run.now.journal.entries run.now.finish) }
    ensures never_falls { K.faults sink.old ≤ K.faults sink.new }
    ensures faults { CountsPieceFault (K.faults sink.old) (K.faults sink.new) result }
{
    let mut line = Line::new();
    match write_out_lines(&run.opening.unit, &run.journal, &mut line, sink) {
        Piece::Whole => {}
        Piece::WriteFault => return Piece::WriteFault,
    }
    match write_violation_lines(&run.opening.unit, &run.journal, &mut line, sink) {
        Piece::Whole => {}
        Piece::WriteFault => return Piece::WriteFault,
    }
    match write_uncaught_lines(&run.journal, &mut line, sink) {
        Piece::Whole => {}
        Piece::WriteFault => return Piece::WriteFault,
    }
    match write_finish_line(run.finish, &mut line, sink) {
        Piece::Whole => {}
        Piece::WriteFault => return Piece::WriteFault,
    }
    write_summary_line(run, &mut line, sink)
}

// Writes the line that says how the run ended.
fn write_finish_line<K: Sink>(finish: Finish, line: &mut Line, sink: &mut K) -> Piece
    ensures bytes { WritesPiece (K.written sink.old) (K.written sink.new) result (finish_line finish ++ 10 ∷ []) }
    ensures never_falls { K.faults sink.old ≤ K.faults sink.new }
    ensures faults { CountsPieceFault (K.faults sink.old) (K.faults sink.new) result }
{
    put_finish_line(line, finish);
    write_piece(sink, line.as_bytes())
}

// The line that says how the run ended.
fn put_finish_line(line: &mut Line, finish: Finish)
    ensures { line.new ≡ finish_line finish ++ 10 ∷ [] }
{
    line.clear();
    match finish {
        Finish::Finished => line.text("finish Finished"),
        Finish::Deadlock => line.text("finish Deadlock"),
        Finish::Budget(n) => {
            line.text("finish Budget ");
            line.number(n);
        }
        Finish::Limit { kind, guest, count } => put_limit(line, kind, guest, count),
        Finish::Memory => line.text("finish Memory"),
    }
    line.text("\n");
}

// What a limit is said by.
fn put_limit(line: &mut Line, kind: LimitKind, guest: GuestNo, count: u32)
    requires { line.old ≡ [] }
    ensures bytes { line.new ≡ finish_line (Finish.Limit kind guest count) }
    ensures len { length line.new ≤ 100 }
{
    line.text("finish Limit ");
    line.text(name_of_kind(kind));
    line.text(", guest ");
    line.number(guest.0);
    line.text(", count ");
    line.number(count);
}

// Writes the last line.
fn write_summary_line<K: Sink>(run: &RunRecord, line: &mut Line, sink: &mut K) -> Piece
    ensures bytes { WritesPiece (K.written sink.old) (K.written sink.new) result
        (summary_line (program_of run.now.opening.unit) run.now.journal.entries ++ 10 ∷ []) }
    ensures never_falls { K.faults sink.old ≤ K.faults sink.new }
    ensures faults { CountsPieceFault (K.faults sink.old) (K.faults sink.new) result }
{
    let count = count_all(&run.journal);
    put_summary_line(line, &count, u64::from(count.guests) + 1);
    write_piece(sink, line.as_bytes())
}

// The last line. Main is a thread more than those that entries start.
fn put_summary_line(line: &mut Line, count: &Count, guests: u64)
    ensures { line.new ≡ summary_text count.now.steps guests count.now.verdicts count.now.violations count.now.uncaught ++ 10 ∷ [] }
{
    line.clear();
    line.text("steps ");
    line.number(count.steps);
    line.text(", guests ");
    line.long_number(guests);
    line.text(", verdicts ");
    line.number(count.verdicts);
    line.text(", violations ");
    line.number(count.violations);
    line.text(", uncaught ");
    line.number(count.uncaught);
    line.text("\n");
}
