//! Runs a program of one thread to its finish.

ghost use Rattle.std.specs.Prelude.{◌≡◌, ◌≢◌, [], ℕ, true, IfOk, OnErr};
ghost use Rattle.jr_base.specs.declared.finish.Finish.TheVariants as finishes;
ghost use Rattle.jr_program.specs.UnitViews.{program_of};
ghost use Rattle.jr_meaning.specs.Serial.{serial, IsSerialPrefix};
ghost use Rattle.jr_built.specs.Built.{is_built};
ghost use Rattle.jr_drive.specs.Reached.{RunsTo, IsCutOff};

use crate::laws::{runs_begin, runs_keep_the_rules};
use crate::turn::SerialRun;
use jr_base::{Finish, Memory};
use jr_journal::{Journal, Opening, RunRecord};
use jr_lowering::Program;
use std::alloc::Global;

/// Runs a program by the serial rule, until it finishes by itself or there is no memory to go on. In a run of one thread
/// there is nothing to choose, so it is the run of every seed.
pub fn drive_serial(alloc: Global, program: Program, budget: u32) -> RunRecord
    requires { is_built (program_of program) ≡ true }
    ensures run { result.finish ≢ finishes.Memory → (seed : ℕ) → record { history = result.journal.entries; finish = result.finish } ≡ serial (program_of program) budget seed 0 }
    ensures cut_off { result.finish ≡ finishes.Memory → (seed : ℕ) → IsSerialPrefix (program_of program) budget seed 0 result.journal.entries }
    ensures unit { result.opening.unit ≡ program }
    ensures budget { result.opening.budget ≡ budget }
{
    let mut journal = Journal::new(alloc);
    let finish = match run(alloc, &program, budget, &mut journal) {
        Ok(finish) => finish,
        Err(Memory) => Finish::Memory,
    };
    RunRecord {
        opening: Opening {
            unit: program.into_unit(),
            budget,
        },
        journal,
        finish,
    }
}

/// Makes turns until the run ends.
fn run(
    alloc: Global,
    program: &Program,
    budget: u32,
    journal: &mut Journal,
) -> Result<Finish, Memory>
    requires built { is_built (program_of program.now) ≡ true }
    requires empty { journal.old.entries ≡ [] }
    ensures ok { IfOk result (λ finish. RunsTo (program_of program.now) budget journal.new.entries finish) }
    ensures memory { OnErr result (IsCutOff (program_of program.now) budget journal.new.entries) }
{
    runs_begin();
    runs_keep_the_rules();
    let mut run = SerialRun::new(alloc, program)?;
    loop {
        if let Some(finish) = run.turn(alloc, program, budget, journal)? {
            return Ok(finish);
        }
    }
}
