//! A run of one thread, turn by turn.

ghost use Rattle.std.specs.Prelude.{◌≡◌, ◌<◌, ◌≤◌, ◌+◌, ◌^◌, ◌++◌, ◌∷◌, [], ℕ, true, cond, Some, None, List, length, IfOk, OnOk, OnErr, MatchOption};
ghost use Rattle.jr_base.specs.Deed.{deed_of};
ghost use Rattle.jr_base.specs.declared.action.Reply.{Reply as ReplyWord};
ghost use Rattle.jr_base.specs.declared.finish.Finish.TheVariants.{Finished, Limit};
ghost use Rattle.jr_program.specs.Programs.{Program as PlainProgram};
ghost use Rattle.jr_program.specs.UnitViews.{program_of};
ghost use Rattle.jr_meaning.specs.Event.{Event, Step};
ghost use Rattle.jr_meaning.specs.Machine.{Only, answer};
ghost use Rattle.jr_meaning.specs.History.{world_after, step_count, limit_met};
ghost use Rattle.jr_meaning.specs.Verdicts.{clause_values_at, judged_from, step_judged};
ghost use Rattle.jr_built.specs.Built.{is_built};
ghost use Rattle.jr_built.specs.OneThread.{IsPlain, HasOneThread};
ghost use Rattle.jr_thread_machine.specs.Machines.{held_of};
ghost use Rattle.jr_thread_machine.specs.Stages.{IsAt};
ghost use Rattle.jr_drive.specs.Reached.{first_guest, IsUnderWay, IsNext, is_end, RunsTo, IsCutOff};
ghost use Rattle.jr_drive.specs.Runs.{Keeps, GoesOn, HasTurned, Makes};

use crate::counted::Excess;
use crate::frames::Frames;
use crate::judge::judge;
use crate::laws::{
    actions_are_plain, runs_begin, runs_end_before_a_step, runs_go_on_by_a_step,
    runs_keep_the_rules,
};
use crate::store::Store;
use jr_base::{Action, Body, Finish, GuestNo, Memory, Reply, Stamp, Verdict};
use jr_journal::{Entry, Journal};
use jr_lowering::Program;
use jr_program::TypedUnit;
use jr_thread_machine::{Machine, Next};
use std::alloc::Global;

/// The thread that runs main.
const MAIN: GuestNo = GuestNo(1);

/// A run of main's thread between two turns: what it does next, its frames and its objects.
#[derive(Drop)]
pub struct SerialRun {
    machine: Machine,
    store: Store,
    frames: Frames,
    /// What the clauses due at a step are worth, in room that each step uses again.
    values: Vec<Verdict>,
    /// How many steps were made.
    steps: u32,
}

/// The end of a run behind that action of its only thread, if that is the thread's last (JLS 12.8).
fn finish_behind(action: &Action) -> Option<Finish>
    ensures { result ≡ cond (is_end (deed_of action.now)) (Some Finished) None }
{
    match action {
        Action::End(_) => Some(Finish::Finished),
        _ => None,
    }
}

/// The end of a run at a limit. `Memory` where the count is past 32 bits.
fn finish_at(excess: Excess) -> Result<Finish, Memory>
    ensures { IfOk result (λ finish. finish ≡ Limit excess.kind first_guest excess.count) }
{
    let count = u32::try_from(excess.count).map_err(|_| Memory)?;
    Ok(Finish::Limit {
        kind: excess.kind,
        guest: MAIN,
        count,
    })
}

/// Enters a step and the verdicts on its clauses, into reserved room.
fn enter(journal: &mut Journal, step: Stamp, action: Action, reply: Reply, values: &[Verdict])
    requires few { length values.now ≤ 16 }
    requires room { 1 + length values.now ≤ journal.old.spare }
    ensures { journal.new.entries ≡ journal.old.entries ++ Step first_guest (deed_of action) reply ∷ judged_from step 0 values.now }
{
    journal.push(Entry::Step {
        guest: MAIN,
        action,
        reply,
    });
    for place in 0..values.len() {
        journal.push(Entry::Verdict {
            step,
            place: place as u8,
            value: values[place],
        });
    }
}

impl SerialRun {
    /// A run that has made no step.
    pub fn new(alloc: Global, program: &Program) -> Result<SerialRun, Memory>
        ensures { IfOk result (λ run. (budget : ℕ) → GoesOn (program_of program.now) budget [] run) }
    {
        program.well_formed();
        runs_begin();
        let main = Body {
            method: program.unit().main(),
            this: None,
        };
        Ok(SerialRun {
            machine: Machine::new(alloc, program, Some(main))?,
            store: Store::new(alloc, program.unit())?,
            frames: Frames::new(alloc),
            values: Vec::new(alloc),
            steps: 0,
        })
    }

    /// The thread's next action.
    fn next(&mut self, alloc: Global, program: &Program) -> Result<Action, Memory>
        requires built { is_built (program_of program.now) ≡ true }
        requires goes_on { (budget : ℕ) × (h : List Event) × GoesOn (program_of program.now) budget h self.old }
        ensures next { IfOk result (λ action. (budget : ℕ) (h : List Event) → GoesOn (program_of program.now) budget h self.old → IsNext (program_of program.now) budget h (deed_of action)) }
        ensures keeps { (h : List Event) → Keeps (program_of program.now) h self.old → Keeps (program_of program.now) h self.new }
        ensures asked { IfOk result (λ action. IsAt (deed_of action) (held_of self.new.machine)) }
        ensures plain { IfOk result (λ action. IsPlain (deed_of action)) }
        ensures steps { self.new.steps ≡ self.old.steps }
    {
        runs_begin();
        runs_keep_the_rules();
        actions_are_plain();
        match self.machine.next(alloc, program)? {
            Next::Does(action) => Ok(action),
            Next::Ended => unreachable!(),
        }
    }

    /// How the run ends before that step of the thread, if it does. `Memory` comes where it ends at a limit, and the
    /// count is past 32 bits.
    fn finish_before(&self, action: &Action, budget: u32) -> Result<Option<Finish>, Memory>
        requires { IsPlain (deed_of action.now) }
        ensures { IfOk result (λ finish. (program : PlainProgram) (h : List Event) → is_built program ≡ true → IsNext program budget h (deed_of action.now) → Keeps program h self.now →
            MatchOption finish ((step_count h < budget) × (limit_met program h first_guest (deed_of action.now) ≡ None)) (RunsTo program budget h)) }
    {
        runs_end_before_a_step();
        if self.steps >= budget {
            return Ok(Some(Finish::Budget(budget)));
        }
        match self.store.past_limit(self.frames.len(), action) {
            None => Ok(None),
            Some(excess) => Ok(Some(finish_at(excess)?)),
        }
    }

    /// Finds out what the clauses due at the thread's next step are worth.
    fn judge(&mut self, alloc: Global, unit: &TypedUnit, action: &Action) -> Result<(), Memory>
        requires { is_built (program_of unit.now) ≡ true }
        ensures values { OnOk result ((h : List Event) → Keeps (program_of unit.now) h self.old → HasOneThread (program_of unit.now) (world_after (program_of unit.now) h) →
            self.new.values.items ≡ clause_values_at (program_of unit.now) (record { before = h; guest = first_guest; deed = deed_of action.now })) }
        ensures few { OnOk result (length self.new.values.items ≤ 16) }
        ensures same { self.new ≡ record self.old { values = self.new.values } }
    {
        let heap = self.store.heap();
        judge(alloc, unit, &self.frames, heap, action, &mut self.values)
    }

    /// Makes the thread's next step, and gives the machine's reply.
    fn make(&mut self, alloc: Global, program: &Program, action: &Action) -> Result<Reply, Memory>
        requires plain { IsPlain (deed_of action.now) }
        requires asked { IsAt (deed_of action.now) (held_of self.old.machine) }
        requires keeps { (h : List Event) × Keeps (program_of program.now) h self.old }
        requires steps { self.old.steps + 1 < 2 ^ 32 }
        ensures makes { IfOk result (λ reply. (h : List Event) → Keeps (program_of program.now) h self.old → Makes (program_of program.now) h (deed_of action.now) reply self.new) }
        ensures values { self.new.values ≡ self.old.values }
    {
        let reply = self.store.perform(alloc, action)?;
        self.frames.step(alloc, action, Stamp(self.steps))?;
        self.machine.resume(program, &reply);
        self.steps += 1;
        Ok(reply)
    }
}

impl SerialRun {
    /// Makes the thread's next step and enters it with its verdicts. `Memory` enters nothing.
    fn step(
        &mut self,
        alloc: Global,
        program: &Program,
        action: Action,
        journal: &mut Journal,
    ) -> Result<(), Memory>
        requires built { is_built (program_of program.now) ≡ true }
        requires plain { IsPlain (deed_of action) }
        requires asked { IsAt (deed_of action) (held_of self.old.machine) }
        requires keeps { Keeps (program_of program.now) journal.old.entries self.old }
        requires alone { HasOneThread (program_of program.now) (world_after (program_of program.now) journal.old.entries) }
        requires steps { self.old.steps + 1 < 2 ^ 32 }
        ensures ok { OnOk result ((reply : ReplyWord) × Makes (program_of program.now) journal.old.entries (deed_of action) reply self.new
            × (journal.new.entries ≡ journal.old.entries ++ step_judged (program_of program.now) journal.old.entries first_guest (deed_of action) reply)) }
        ensures memory { OnErr result (journal.new.entries ≡ journal.old.entries) }
    {
        let step = Stamp(self.steps);
        self.judge(alloc, program.unit(), &action)?;
        journal.reserve(1 + self.values.len() as u32)?;
        let reply = self.make(alloc, program, &action)?;
        enter(journal, step, action, reply, self.values.as_slice());
        Ok(())
    }

    /// Makes the next turn: the thread's next step, with the verdicts on the clauses that are due at it. Answers how the
    /// run ends, where it ends before that step or behind it. `Memory` enters nothing.
    pub fn turn(
        &mut self,
        alloc: Global,
        program: &Program,
        budget: u32,
        journal: &mut Journal,
    ) -> Result<Option<Finish>, Memory>
        requires built { is_built (program_of program.now) ≡ true }
        requires goes_on { GoesOn (program_of program.now) budget journal.old.entries self.old }
        ensures ok { IfOk result (λ finish. MatchOption finish (HasTurned (program_of program.now) budget journal.new.entries self.old self.new) (RunsTo (program_of program.now) budget journal.new.entries)) }
        ensures memory { OnErr result (IsCutOff (program_of program.now) budget journal.new.entries) }
    {
        runs_keep_the_rules();
        runs_go_on_by_a_step();
        let action = self.next(alloc, program)?;
        if let Some(finish) = self.finish_before(&action, budget)? {
            return Ok(Some(finish));
        }
        let finish = finish_behind(&action);
        self.step(alloc, program, action, journal)?;
        Ok(finish)
    }
}
