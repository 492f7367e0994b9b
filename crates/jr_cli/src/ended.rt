//! How a call ends, and what it writes.

ghost use Rattle.std.specs.Prelude.{◌≡◌, ◌≤◌, None};
ghost use Rattle.jr_io.specs.Writes.{WritesPiece, CountsPieceFault};
ghost use Rattle.jr_cli.specs.Texts.{IsTellable, IsTellableWork, text_of, text_of_work, status_of, status_of_work, run_status, run_of_work, Tells};

use crate::outcome::{Outcome, Work};
use jr_base::{Finish, Refusal};
use jr_io::{Piece, Sink, write_piece};
use jr_journal::RunRecord;
use jr_report::{count_all, write_check, write_clauses, write_refusal, write_report};

/// How a call ended.
#[derive(Drop)]
pub struct Ended {
    /// From 0 to 9, as `docs/OUTPUT.md` lists them.
    pub status: u8,
    /// Why the source was refused, if it was.
    pub refusal: Option<Refusal>,
    /// The run, if there was one.
    pub run: Option<RunRecord>,
}

/// What a status says.
#[derive(Clone, Copy)]
enum Status {
    Clean = 0,
    Violated = 1,
    Usage = 2,
    Refused = 3,
    ReadFault = 4,
    WriteFault = 5,
    Budget = 6,
    Memory = 7,
    Deadlock = 8,
    Limit = 9,
}

/// What is written where the words are no command.
const USAGE: &str = "usage: jmlrac run --serial SEED [--budget N] < SOURCE
       jmlrac check < SOURCE
       jmlrac clauses < SOURCE
";

/// Writes what came of a call, and says how it ended. A write that failed goes before all else.
pub fn tell<K: Sink>(outcome: Outcome, sink: &mut K) -> Ended
    requires { IsTellable outcome }
    ensures { Tells (K.written sink.old) (K.written sink.new) (K.faults sink.old) (K.faults sink.new) outcome result }
{
    let status = match write_outcome(&outcome, sink) {
        Piece::Whole => status_of_outcome(&outcome),
        Piece::WriteFault => Status::WriteFault as u8,
    };
    match outcome {
        Outcome::Refused(refusal, _source) => Ended {
            status,
            refusal: Some(refusal),
            run: None,
        },
        Outcome::Done(work) => done(work, status),
        Outcome::Usage | Outcome::ReadFault | Outcome::OutOfMemory => plain(status),
    }
}

// The end of a command's work, with that status.
fn done(work: Work, status: u8) -> Ended
    ensures { result ≡ record { status = status; refusal = None; run = run_of_work work } }
{
    match work {
        Work::Ran(run) => Ended {
            status,
            refusal: None,
            run: Some(run),
        },
        Work::Checked(_unit) | Work::Listed(_unit) => plain(status),
    }
}

// An end with that status, without a run and a refusal.
fn plain(status: u8) -> Ended
    ensures { result ≡ record { status = status; refusal = None; run = None } }
{
    Ended {
        status,
        refusal: None,
        run: None,
    }
}

// Writes the text of what came of a call.
fn write_outcome<K: Sink>(outcome: &Outcome, sink: &mut K) -> Piece
    requires { IsTellable outcome.now }
    ensures bytes { WritesPiece (K.written sink.old) (K.written sink.new) result (text_of outcome.now) }
    ensures never_falls { K.faults sink.old ≤ K.faults sink.new }
    ensures faults { CountsPieceFault (K.faults sink.old) (K.faults sink.new) result }
{
    match outcome {
        Outcome::Usage => write_piece(sink, USAGE.as_bytes()),
        Outcome::ReadFault => write_piece(sink, b"read fault\n"),
        Outcome::Refused(refusal, source) => write_refusal(source.as_slice(), *refusal, sink),
        Outcome::OutOfMemory => write_piece(sink, b"out of memory\n"),
        Outcome::Done(work) => write_work(work, sink),
    }
}

// Writes what is told of a command's work.
fn write_work<K: Sink>(work: &Work, sink: &mut K) -> Piece
    requires { IsTellableWork work.now }
    ensures bytes { WritesPiece (K.written sink.old) (K.written sink.new) result (text_of_work work.now) }
    ensures never_falls { K.faults sink.old ≤ K.faults sink.new }
    ensures faults { CountsPieceFault (K.faults sink.old) (K.faults sink.new) result }
{
    match work {
        Work::Checked(unit) => write_check(unit, sink),
        Work::Listed(unit) => write_clauses(unit, sink),
        Work::Ran(run) => write_report(run, sink),
    }
}

// The status of what came of a call, where all was written.
fn status_of_outcome(outcome: &Outcome) -> u8
    ensures { result ≡ status_of outcome.now }
{
    let status = match outcome {
        Outcome::Usage => Status::Usage,
        Outcome::ReadFault => Status::ReadFault,
        Outcome::Refused(..) => Status::Refused,
        Outcome::OutOfMemory => Status::Memory,
        Outcome::Done(work) => return status_of_work(work),
    };
    status as u8
}

// The status of a command's work.
fn status_of_work(work: &Work) -> u8
    ensures { result ≡ status_of_work work.now }
{
    match work {
        Work::Checked(_) | Work::Listed(_) => Status::Clean as u8,
        Work::Ran(run) => status_of_run(run),
    }
}

// The status of a run: its finish, and where it finished, whether all went well.
fn status_of_run(run: &RunRecord) -> u8
    ensures { result ≡ run_status run.now.finish run.now.journal.entries }
{
    let status = match run.finish {
        Finish::Finished => {
            let count = count_all(&run.journal);
            if count.violations == 0 && count.uncaught == 0 {
                Status::Clean
            } else {
                Status::Violated
            }
        }
        Finish::Deadlock => Status::Deadlock,
        Finish::Budget(_) => Status::Budget,
        Finish::Limit { .. } => Status::Limit,
        Finish::Memory => Status::Memory,
    };
    status as u8
}
