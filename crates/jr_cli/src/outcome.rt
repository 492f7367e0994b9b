//! From the words and the source to what came of them.

ghost use Rattle.std.specs.Prelude.{◌≡◌, ◌≤◌, Some, IsNone, length};
ghost use Rattle.jr_program.specs.UnitViews.{program_of};
ghost use Rattle.jr_command.specs.Command.{line};
ghost use Rattle.jr_cli.specs.Causes.{HasCause, RefusesTooLong, CountsReading};
ghost use Rattle.jr_cli.specs.Works.{WorksOn, RunsOrRefuses};

use crate::source::program_of_source;
use jr_base::{Fail, Refusal};
use jr_built::is_built;
use jr_command::{Command, Words};
use jr_drive::drive_serial;
use jr_io::{ReadFail, Source, read_all};
use jr_journal::RunRecord;
use jr_lowering::lower;
use jr_meaning::history_laws::{serial_prefixes_are_right, serial_runs_are_right};
use jr_program::TypedUnit;
use std::alloc::Global;

/// The most bytes that a source may have.
pub const SOURCE_LIMIT: u32 = 1_048_576;

/// What came of the words and the source.
#[derive(Drop)]
pub enum Outcome {
    /// The words are no command.
    Usage,
    /// The source could not be read.
    ReadFault,
    /// The source is refused, and these are its bytes; none where it is too long.
    Refused(Refusal, Vec<u8>),
    /// There was no memory for the command's work to begin.
    OutOfMemory,
    /// The command did its work on the program that the source spells.
    Done(Work),
}

/// What a command makes of a program.
#[derive(Drop)]
pub enum Work {
    /// How much the program has is to be told.
    Checked(TypedUnit),
    /// Its clauses and notes are to be listed.
    Listed(TypedUnit),
    /// It ran.
    Ran(RunRecord),
}

/// Does what the words ask for, over a source.
pub fn outcome_of<S: Source>(alloc: Global, words: &Words, source: &mut S) -> Outcome
    ensures cause { HasCause (line words.now)
        (record { left = S.left source.old; taken_before = S.taken source.old; taken = S.taken source.new; ended = S.ended source.new })
        result }
    ensures too_long { RefusesTooLong
        (record { left = S.left source.old; taken_before = S.taken source.old; taken = S.taken source.new; ended = S.ended source.new })
        result }
    ensures faults { CountsReading (S.faults source.old) (S.faults source.new) result }
    ensures unread { IsNone (line words.now) → source.new ≡ source.old }
{
    match words.command() {
        Some(command) => read_and_work(alloc, command, source),
        None => Outcome::Usage,
    }
}

// Does a command's work on a source, which is read to its end first.
fn read_and_work<S: Source>(alloc: Global, command: Command, source: &mut S) -> Outcome
    ensures cause { HasCause (Some command)
        (record { left = S.left source.old; taken_before = S.taken source.old; taken = S.taken source.new; ended = S.ended source.new })
        result }
    ensures too_long { RefusesTooLong
        (record { left = S.left source.old; taken_before = S.taken source.old; taken = S.taken source.new; ended = S.ended source.new })
        result }
    ensures faults { CountsReading (S.faults source.old) (S.faults source.new) result }
{
    let bytes = match read_all(alloc, source, SOURCE_LIMIT) {
        Ok(bytes) => bytes,
        Err(ReadFail::ReadFault) => return Outcome::ReadFault,
        Err(ReadFail::TooLong) => return Outcome::Refused(Refusal::TooLong, Vec::new(alloc)),
        Err(ReadFail::Memory) => return Outcome::OutOfMemory,
    };
    match work_on(alloc, command, bytes.as_slice()) {
        Ok(work) => Outcome::Done(work),
        Err(Fail::Refused(refusal)) => Outcome::Refused(refusal, bytes),
        Err(Fail::Memory) => Outcome::OutOfMemory,
    }
}

// Does a command's work on the bytes of a source.
fn work_on(alloc: Global, command: Command, bytes: &[u8]) -> Result<Work, Fail>
    requires { length bytes.now ≤ 1048576 }
    ensures { WorksOn command bytes.now result }
{
    let unit = program_of_source(alloc, bytes)?;
    match command {
        Command::RunSerial { seed: _, budget } => Ok(Work::Ran(run(alloc, unit, budget)?)),
        Command::Check => Ok(Work::Checked(unit)),
        Command::Clauses => Ok(Work::Listed(unit)),
    }
}

// Runs a program, if it is one that can be run yet. Such programs have one thread, so a run is that of every seed.
fn run(alloc: Global, unit: TypedUnit, budget: u32) -> Result<RunRecord, Fail>
    ensures { RunsOrRefuses (program_of unit) budget result }
{
    if !is_built(&unit) {
        return Err(Fail::Refused(Refusal::NotBuilt));
    }
    serial_runs_are_right();
    serial_prefixes_are_right();
    let program = lower(alloc, unit)?;
    Ok(drive_serial(alloc, program, budget))
}
