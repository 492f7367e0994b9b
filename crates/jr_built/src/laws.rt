//! Laws of programs that are built, each a function with no work to do: its contract is the law.

ghost use Rattle.std.specs.Prelude.{ℕ, ◌≡◌, true, List, Option, Some};
ghost use Rattle.jr_base.specs.Deed.{Deed};
ghost use Rattle.jr_base.specs.Threads.{Wants};
ghost use Rattle.jr_base.specs.declared.number.ClauseId.{ClauseId};
ghost use Rattle.jr_base.specs.declared.action.Body.{Body};
ghost use Rattle.jr_base.specs.declared.action.Reply.{Reply};
ghost use Rattle.jr_program.specs.Programs.{Program, clause_at};
ghost use Rattle.jr_program.specs.Clauses.{Clause};
ghost use Rattle.jr_meaning.specs.Event.{Event};
ghost use Rattle.jr_meaning.specs.Next.{next};
ghost use Rattle.jr_meaning.specs.History.{IsLegal, world_after};
ghost use Rattle.jr_built.specs.Built.{is_built};
ghost use Rattle.jr_built.specs.OneThread.{IsPlain, HasOneThread, LooksAtTheMoment};

/// A thread of a built program asks for no monitor and no other thread, whatever it runs and is replied.
pub fn built_programs_ask_plainly()
    ensures { (program : Program) → is_built program ≡ true → (start : Option Body) (replies : List Reply) (deed : Deed) →
        next program start replies ≡ Wants deed → IsPlain deed }
{}

/// In each run of a built program there is main's thread alone, nobody owns a monitor or waits, and the thread can do at
/// once what it wants next.
pub fn built_runs_have_one_thread()
    ensures { (program : Program) → is_built program ≡ true → (budget : ℕ) (h : List Event) → IsLegal program budget h →
        HasOneThread program (world_after program h) }
{}

/// What a clause of a built program is worth depends on no earlier step, no older heap and no lockset.
pub fn built_clauses_look_at_the_moment()
    ensures { (program : Program) → is_built program ≡ true → (c : ClauseId) (clause : Clause) → clause_at program c ≡ Some clause →
        LooksAtTheMoment clause }
{}
