//! Laws of what a thread does, each a function with no work to do: its contract is the law.

ghost use Rattle.std.specs.Prelude.{ℕ, ◌≡◌, ◌≢◌, ◌≤◌, ◌<◌, List, length, Option, Some};
ghost use Rattle.jr_base.specs.declared.number.MethodId.{MethodId};
ghost use Rattle.jr_base.specs.declared.number.ObjId.{ObjId};
ghost use Rattle.jr_base.specs.declared.action.Body.{Body};
ghost use Rattle.jr_base.specs.declared.action.Reply.{Reply};
ghost use Rattle.jr_base.specs.declared.value.Value.{Value};
ghost use Rattle.jr_base.specs.declared.kind.SlotKind.{SlotKind};
ghost use Rattle.jr_program.specs.Programs.{Program, Method, method_at, Expr, Effect, Statement, Loop, DoLoop};
ghost use Rattle.jr_program.specs.WellFormed.{WellFormed, AlwaysEnds};
ghost use Rattle.jr_meaning.specs.Next.{Tape, Variables, Got, NoTurns, Ended, Context, Completion, Falls, Returns, run_body, HasEnded, bounded_call, call, call_with, running, eval, perform_all, exec, one_turn, one_do_turn, thread_run, next};

/// A thread is never out of turns: the bound on turns and calls is never met.
pub fn threads_have_turns()
    ensures { (program : Program) (start : Option Body) (tape : Tape) → thread_run program start tape ≢ NoTurns }
{}

/// All bounds past the number of replies give the same.
pub fn bounds_agree()
    ensures { (program : Program) (a b : ℕ) (m : MethodId) (this : Option ObjId) (arguments : List Value) (vs : Variables) (tape : Tape) →
        length tape < a → length tape < b → bounded_call program a m this arguments vs tape ≡ bounded_call program b m this arguments vs tape }
{}

/// A call is its monitor, Call, the body, Leave and the monitor, with no bound on the calls in the body.
pub fn calls_unfold()
    ensures { (program : Program) (n : ℕ) (m : MethodId) (this : Option ObjId) (arguments : List Value) (vs : Variables) (tape : Tape) →
        length tape ≤ n → call program m this arguments vs tape ≡ call_with program (call program) n m this arguments vs tape }
{}

/// A `for` or `while` is a turn, and then the whole loop again.
pub fn loops_unfold()
    ensures { (program : Program) (m : MethodId) (this : Option ObjId) (n : ℕ) (c : Expr) (u : List Effect) (b : Statement) (vs : Variables) (tape : Tape) →
        length tape < n →
        exec (running program m this n) (Loop c u b) vs tape
        ≡ one_turn (eval (running program m this n) c) (exec (running program m this n) b) (perform_all (running program m this n) u) (exec (running program m this n) (Loop c u b)) vs tape }
{}

/// A `do` is a turn, and then the whole loop again.
pub fn do_loops_unfold()
    ensures { (program : Program) (m : MethodId) (this : Option ObjId) (n : ℕ) (c : Expr) (b : Statement) (vs : Variables) (tape : Tape) →
        length tape < n →
        exec (running program m this n) (DoLoop b c) vs tape
        ≡ one_do_turn (eval (running program m this n) c) (exec (running program m this n) b) (exec (running program m this n) (DoLoop b c)) vs tape }
{}

/// A thread that wants nothing more has made its End.
pub fn ends_are_made()
    ensures { (program : Program) (start : Option Body) (replies : List Reply) → next program start replies ≡ Ended → HasEnded program start replies }
{}

/// A statement that always ends never completes normally.
pub fn ending_statements_never_fall_through()
    ensures { (context : Context) (statement : Statement) → AlwaysEnds statement → (vs rest : Variables) (tape left : Tape) →
        exec context statement vs tape ≢ Got Falls rest left }
{}

/// In a well-formed program the body of a method with a result completes by returning a value, or not at all: so the
/// default that stands for its end is never given back.
pub fn bodies_with_results_return_values()
    ensures { (program : Program) → WellFormed program → (m : MethodId) (method : Method) (kind : SlotKind) →
        method_at program m ≡ Some method → method.result ≡ Some kind →
        (context : Context) (arguments : List Value) (tape : Tape) (way : Completion) (vs : Variables) (rest : Tape) →
        run_body context (Some method) arguments tape ≡ Got way vs rest → (value : Value) × (way ≡ Returns (Some value)) }
{}
