//! Laws of the runs of one thread, each a function with no work to do: its contract is the law.

ghost use Rattle.std.specs.Prelude.{ℕ, ◌≡◌, ◌≤◌, ◌<◌, ◌++◌, [], true, false, List, Some, None};
ghost use Rattle.jr_base.specs.Deed.{Deed};
ghost use Rattle.jr_base.specs.declared.action.Reply.{Reply};
ghost use Rattle.jr_base.specs.declared.finish.Finish.TheVariants.{Finished, Budget, Limit};
ghost use Rattle.jr_program.specs.Programs.{Program};
ghost use Rattle.jr_meaning.specs.Next.{Ended};
ghost use Rattle.jr_meaning.specs.Event.{Event};
ghost use Rattle.jr_meaning.specs.Machine.{Only, answer};
ghost use Rattle.jr_meaning.specs.Limits.{Count};
ghost use Rattle.jr_meaning.specs.History.{IsLegal, world_after, step_count, next_of, limit_met};
ghost use Rattle.jr_meaning.specs.Verdicts.{step_judged};
ghost use Rattle.jr_built.specs.Built.{is_built};
ghost use Rattle.jr_built.specs.OneThread.{IsPlain, HasOneThread};
ghost use Rattle.jr_drive.specs.Reached.{first_guest, HasReached, IsUnderWay, IsNext, is_end, RunsTo, IsCutOff};

use jr_built::laws::{built_programs_ask_plainly, built_runs_have_one_thread};
use jr_meaning::history_laws::{
    budgets_hold, live_guests_want_something, serial_prefixes_are_right,
};

/// What a run has come to is a legal history with main's thread alone. It may be cut off there.
pub fn runs_keep_the_rules()
    ensures legal { (program : Program) (budget : ℕ) (h : List Event) → HasReached program budget h → IsLegal program budget h }
    ensures one { (program : Program) → is_built program ≡ true → (budget : ℕ) (h : List Event) → HasReached program budget h → HasOneThread program (world_after program h) }
    ensures few { (program : Program) (budget : ℕ) (h : List Event) → HasReached program budget h → step_count h ≤ budget }
    ensures cut_off { (program : Program) (budget : ℕ) (h : List Event) → HasReached program budget h → IsCutOff program budget h }
{
    serial_prefixes_are_right();
    built_runs_have_one_thread();
    budgets_hold();
}

/// A run is under way at its start, and main's thread never wants nothing while it is.
pub fn runs_begin()
    ensures start { (program : Program) (budget : ℕ) → IsUnderWay program budget [] }
    ensures wants { (program : Program) (budget : ℕ) (h : List Event) → IsUnderWay program budget h → next_of program h first_guest ≡ Ended → ⊥ }
{
    runs_keep_the_rules();
    live_guests_want_something();
}

/// What main's thread wants has to do with no monitor and no other thread.
pub fn actions_are_plain()
    ensures { (program : Program) → is_built program ≡ true → (budget : ℕ) (h : List Event) (deed : Deed) → IsNext program budget h deed → IsPlain deed }
{
    built_programs_ask_plainly();
}

/// A run ends where its budget is spent, or where the thread's next step would bring something past its limit.
pub fn runs_end_before_a_step()
    ensures spent { (program : Program) → is_built program ≡ true → (budget : ℕ) (h : List Event) (deed : Deed) → IsNext program budget h deed → budget ≤ step_count h →
        RunsTo program budget h (Budget budget) }
    ensures limit { (program : Program) → is_built program ≡ true → (budget : ℕ) (h : List Event) (deed : Deed) → IsNext program budget h deed → step_count h < budget →
        (count : Count) → limit_met program h first_guest deed ≡ Some count → RunsTo program budget h (Limit count.kind first_guest count.count) }
{
    runs_keep_the_rules();
    actions_are_plain();
}

/// Else the thread makes its step. With an End the run ends behind it.
pub fn runs_go_on_by_a_step()
    ensures reaches { (program : Program) → is_built program ≡ true → (budget : ℕ) (h : List Event) (deed : Deed) → IsNext program budget h deed → step_count h < budget →
        limit_met program h first_guest deed ≡ None → (reply : Reply) → answer program (world_after program h) first_guest deed ≡ Only reply →
        HasReached program budget (h ++ step_judged program h first_guest deed reply) }
    ensures goes { (program : Program) → is_built program ≡ true → (budget : ℕ) (h : List Event) (deed : Deed) → IsNext program budget h deed → step_count h < budget →
        limit_met program h first_guest deed ≡ None → (reply : Reply) → answer program (world_after program h) first_guest deed ≡ Only reply →
        is_end deed ≡ false → IsUnderWay program budget (h ++ step_judged program h first_guest deed reply) }
    ensures ends { (program : Program) → is_built program ≡ true → (budget : ℕ) (h : List Event) (deed : Deed) → IsNext program budget h deed → step_count h < budget →
        limit_met program h first_guest deed ≡ None → (reply : Reply) → answer program (world_after program h) first_guest deed ≡ Only reply →
        is_end deed ≡ true → RunsTo program budget (h ++ step_judged program h first_guest deed reply) Finished }
{
    runs_keep_the_rules();
    actions_are_plain();
}
