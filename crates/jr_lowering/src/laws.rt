//! Laws of the definitions, each a function with no work to do: its contract is the law.

ghost use Rattle.std.specs.Prelude.{◌≡◌, List, Option};
ghost use Rattle.jr_base.specs.Deed.{Deed};
ghost use Rattle.jr_base.specs.declared.action.Body.{Body};
ghost use Rattle.jr_base.specs.declared.action.Reply.{Reply};
ghost use Rattle.jr_base.specs.Threads.{Wants, Ended};
ghost use Rattle.jr_program.specs.Programs.{Program};
ghost use Rattle.jr_program.specs.WellFormed.{WellFormed, StartFits};
ghost use Rattle.jr_meaning.specs.Next.{next};
ghost use Rattle.jr_code.specs.Checked.{CodeRight};
ghost use Rattle.jr_code.specs.Machine.{State, start_state, step, DoesNext};
ghost use Rattle.jr_code.specs.Sound.{StartRight};
ghost use Rattle.jr_code.specs.Resumed.{After, IsAsking, IsEnding};
ghost use Rattle.jr_lowering.specs.ProgramCode.{code_of};

/// What the code of a program does next is what the program does next, after every list of replies.
pub fn code_does_what_the_program_does()
    ensures { (program : Program) → WellFormed program → (start : Option Body) → StartFits program start → (replies : List Reply) →
        DoesNext (code_of program) (start_state (code_of program) start) replies (next program start replies) }
{}

/// A thread that keeps a state of its code, as the laws of code let it, stops at an action or ends where the program
/// does.
pub fn code_stops_where_the_program_does()
    ensures asks { (program : Program) → WellFormed program → (start : Option Body) → StartFits program start → (replies : List Reply) (s : State) (deed : Deed) →
        After (code_of program) (start_state (code_of program) start) replies s → IsAsking deed (step (code_of program) s) →
        next program start replies ≡ Wants deed }
    ensures ends { (program : Program) → WellFormed program → (start : Option Body) → StartFits program start → (replies : List Reply) (s : State) →
        After (code_of program) (start_state (code_of program) start) replies s → IsEnding (step (code_of program) s) →
        next program start replies ≡ Ended }
{}

/// The code of a program keeps the rules of checked code.
pub fn code_keeps_the_rules()
    ensures { (program : Program) → WellFormed program → CodeRight (code_of program) }
{}

/// A start that fits the program fits its code.
pub fn starts_fit_the_code()
    ensures { (program : Program) → WellFormed program → (start : Option Body) → StartFits program start → StartRight (code_of program) start }
{}
