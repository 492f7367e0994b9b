//! Laws of histories, each a function with no work to do: its contract is the law.

ghost use Rattle.std.specs.Prelude.{ℕ, ◌≡◌, ◌≢◌, ◌≤◌, ◌<◌, ◌↔◌, ◌+◌, max, Some, ◌∷◌, ◌++◌, [], false, List, IsTrue, Option, length, is_some};
ghost use Rattle.jr_base.specs.Deed.{Deed, New, Notify, Leave, Commit, Wait, TimedWait, Resume};
ghost use Rattle.jr_base.specs.declared.action.Body.{Body};
ghost use Rattle.jr_base.specs.declared.action.LeaveHow.{LeaveHow};
ghost use Rattle.jr_base.specs.declared.action.LeaveHow.TheVariants.{Normal};
ghost use Rattle.jr_base.specs.declared.value.Value.{Value};
ghost use Rattle.jr_base.specs.declared.value.Cell.{Cell};
ghost use Rattle.jr_base.specs.declared.number.MethodId.{MethodId};
ghost use Rattle.jr_base.specs.declared.number.GuestNo.{GuestNo};
ghost use Rattle.jr_base.specs.declared.number.ObjId.{ObjId};
ghost use Rattle.jr_base.specs.declared.number.Stamp.{Stamp};
ghost use Rattle.jr_base.specs.declared.action.NewKind.{NewKind};
ghost use Rattle.jr_base.specs.declared.action.Reply.{Reply};
ghost use Rattle.jr_base.specs.declared.action.Reply.TheVariants.{Unit};
ghost use Rattle.jr_base.specs.declared.finish.Finish.{Finish};
ghost use Rattle.jr_base.specs.declared.finish.Finish.TheVariants.{Memory};
ghost use Rattle.jr_base.specs.declared.finish.LimitKind.TheVariants.{Objects};
ghost use Rattle.jr_base.specs.declared.finish.Verdict.{Verdict};
ghost use Rattle.jr_program.specs.Clauses.{Clause};
ghost use Rattle.jr_program.specs.Programs.{Program, method_at};
ghost use Rattle.jr_meaning.specs.Next.{Wants, next, result_kind};
ghost use Rattle.jr_meaning.specs.Event.{Event, Step, Judged, Wake, moves_of, heard};
ghost use Rattle.jr_meaning.specs.World.{World, is_live, start_world};
ghost use Rattle.jr_meaning.specs.Machine.{Answers, owns, waits, after, wake};
ghost use Rattle.jr_meaning.specs.Frames.{Frame, frames_of, needs_frame};
ghost use Rattle.jr_program.specs.Slots.{class_count};
ghost use Rattle.jr_program.specs.WellFormed.{WellFormed};
ghost use Rattle.jr_meaning.specs.Limits.{past_limit, cell_count};
ghost use Rattle.jr_meaning.specs.Heap.{Heap};
ghost use Rattle.jr_meaning.specs.Cells.{has_cell};
ghost use Rattle.jr_meaning.specs.Worth.{Setting};
ghost use Rattle.jr_meaning.specs.Due.{due_of, looks_back, old_place, has_old_place};
ghost use Rattle.jr_meaning.specs.Judge.{clause_value};
ghost use Rattle.jr_meaning.specs.History.{IsLegal, MayStep, WakesAreTimed, world_after, next_of, step_count};
ghost use Rattle.jr_meaning.specs.Verdicts.{Moment, moment_of, before_step, IsRight, OwesNothing, owed, verdict_of, value_of};
ghost use Rattle.jr_meaning.specs.Finish.{IsTrueFinish, GoesOnOrEnds, kind_of_finish};
ghost use Rattle.jr_meaning.specs.Right.{IsRightRun};
ghost use Rattle.jr_meaning.specs.Serial.{serial, IsSerialPrefix};

/// What a legal history begins with is a legal history.
pub fn prefixes_are_legal()
    ensures { (program : Program) (budget : ℕ) (h more : List Event) → IsLegal program budget (h ++ more) → IsLegal program budget h }
{}

/// What a rightly judged history begins with is rightly judged.
pub fn prefixes_are_right()
    ensures { (program : Program) (h more : List Event) → IsRight program (h ++ more) → IsRight program h }
{}

/// A legal history has at most as many steps as its budget.
pub fn budgets_hold()
    ensures { (program : Program) (budget : ℕ) (h : List Event) → IsLegal program budget h → step_count h ≤ budget }
{}

/// The world after a step more is the one that the step leads to from the world before it.
pub fn worlds_go_on()
    ensures { (program : Program) (h : List Event) (g : GuestNo) (deed : Deed) (reply : Reply) →
        world_after program (h ++ Step g deed reply ∷ []) ≡ after program (world_after program h) g deed reply }
{}

/// The world after a wake-up more is the one in which that guest waits no longer.
pub fn worlds_go_on_by_wakes()
    ensures { (program : Program) (h : List Event) (g : GuestNo) → world_after program (h ++ Wake g ∷ []) ≡ wake (world_after program h) g }
{}

/// In a rightly judged history the verdicts of one step come in order of place: so no place has two.
pub fn verdicts_rise()
    ensures { (program : Program) (a b c : List Event) (s t : Stamp) (p q : ℕ) (v w : Verdict) →
        IsRight program (a ++ (Judged s p v ∷ (b ++ (Judged t q w ∷ c)))) → s.0 ≡ t.0 → p < q }
{}

/// Where nothing is owed, the verdict of each place of each step is what the clause there is worth, and
/// nothing else has a verdict.
pub fn verdicts_are_values()
    ensures { (program : Program) (h : List Event) → IsRight program h → OwesNothing program h → (k place : ℕ) →
        verdict_of h k place ≡ value_of program h k place }
{}

/// A history has one kind of true finish at most, want of memory left aside.
pub fn finishes_exclude_each_other()
    ensures { (program : Program) (budget : ℕ) (h : List Event) (f g : Finish) →
        IsTrueFinish program budget h f → IsTrueFinish program budget h g → f ≢ Memory → g ≢ Memory → kind_of_finish f ≡ kind_of_finish g }
{}

/// A legal history can go on, or has a true finish.
pub fn histories_go_on_or_end()
    ensures { (program : Program) (budget : ℕ) (h : List Event) → IsLegal program budget h → GoesOnOrEnds program budget h }
{}

/// A live guest wants to do something.
pub fn live_guests_want_something()
    ensures { (program : Program) (budget : ℕ) (h : List Event) → IsLegal program budget h → (g : GuestNo) →
        IsTrue (is_live (world_after program h) g) → (deed : Deed) × (next_of program h g ≡ Wants deed) }
{}

/// A monitor has one owner at most.
pub fn monitors_have_one_owner()
    ensures { (world : World) (object : ObjId) (g other : GuestNo) →
        IsTrue (owns world g object) → IsTrue (owns world other object) → g ≡ other }
{}

/// After a Wait that is answered Unit the thread's next action is to take that monitor again.
pub fn waits_are_resumed()
    ensures { (program : Program) (start : Option Body) (replied : List Reply) (object : ObjId) →
        next program start replied ≡ Wants (Wait object) → next program start (replied ++ Unit ∷ []) ≡ Wants (Resume object) }
{}

/// And so after a wait for some time.
pub fn timed_waits_are_resumed()
    ensures { (program : Program) (start : Option Body) (replied : List Reply) (object : ObjId) →
        next program start replied ≡ Wants (TimedWait object) → next program start (replied ++ Unit ∷ []) ≡ Wants (Resume object) }
{}

/// A guest that is in a wait set doesn't own the monitor.
pub fn waiting_guests_own_nothing()
    ensures { (program : Program) (budget : ℕ) (h : List Event) → IsLegal program budget h → (g : GuestNo) (object : ObjId) →
        IsTrue (waits (world_after program h) g object) → owns (world_after program h) g object ≡ false }
{}

/// At most 16 guests are started.
pub fn guests_are_few()
    ensures { (program : Program) (budget : ℕ) (h : List Event) → IsLegal program budget h → length (world_after program h).guests ≤ 16 }
{}

/// No guest has more than 256 frames.
pub fn frames_are_few()
    ensures { (program : Program) (budget : ℕ) (h : List Event) → IsLegal program budget h → (g : GuestNo) → length (frames_of h g) ≤ 256 }
{}

/// Each Leave closes the newest frame of its guest, which is one of the method that is left.
pub fn leaves_close_the_newest_frame()
    ensures { (program : Program) (budget : ℕ) (h : List Event) (g : GuestNo) (method : MethodId) (how : LeaveHow) (reply : Reply) → IsLegal program budget h →
        MayStep program budget h g (Leave method how) reply → (frame : Frame) × (below : List Frame) × (frames_of h g ≡ frame ∷ below) × (frame.method ≡ method) }
{}

/// A normal Leave has a value exactly where its method has a result.
pub fn leaves_have_their_results()
    ensures { (program : Program) (budget : ℕ) (h : List Event) (g : GuestNo) (method : MethodId) (result : Option Value) (reply : Reply) → IsLegal program budget h →
        MayStep program budget h g (Leave method (Normal result)) reply → is_some result ≡ is_some (result_kind (method_at program method)) }
{}

/// A Commit is of the method of its guest's newest frame.
pub fn commits_are_of_the_newest_frame()
    ensures { (program : Program) (budget : ℕ) (h : List Event) (g : GuestNo) (method : MethodId) (reply : Reply) → IsLegal program budget h →
        MayStep program budget h g (Commit method) reply → (frame : Frame) × (below : List Frame) × (frames_of h g ≡ frame ∷ below) × (frame.method ≡ method) }
{}

/// Cells are read and written, blocks entered, asserts and commits made, and methods left, in some frame: so it is
/// known what is due there.
pub fn steps_stand_in_frames()
    ensures { (program : Program) (budget : ℕ) (h : List Event) (g : GuestNo) (deed : Deed) (reply : Reply) → IsLegal program budget h →
        MayStep program budget h g deed reply → IsTrue (needs_frame deed) → (frame : Frame) × (below : List Frame) × (frames_of h g ≡ frame ∷ below) }
{}

/// A clause that doesn't look back is worth the same whatever the old heap is.
pub fn old_heaps_are_unseen()
    ensures { (other : Heap) (setting : Setting) (clause : Clause) → looks_back clause ≡ false →
        clause_value (record setting { old = other }) clause ≡ clause_value setting clause }
{}

/// A run by the serial rule is right.
pub fn serial_runs_are_right()
    ensures { (program : Program) (budget seed spurious : ℕ) → IsRightRun program budget (serial program budget seed spurious) }
{}

/// In a run by the serial rule without spurious wake-ups those alone wake that waited for some time only.
pub fn serial_wakes_are_timed()
    ensures { (program : Program) (budget seed : ℕ) → WakesAreTimed program (serial program budget seed 0).history }
{}

/// A run by the serial rule ends by itself.
pub fn serial_runs_end()
    ensures { (program : Program) (budget seed spurious : ℕ) → (serial program budget seed spurious).finish ≢ Memory }
{}

/// Only a notification leaves the machine a choice: all other actions have one reply.
pub fn only_notifications_choose()
    ensures { (program : Program) (world : World) (g : GuestNo) (deed : Deed) (a b : Reply) →
        Answers program world g deed a → Answers program world g deed b → a ≢ b → (object : ObjId) × (deed ≡ Notify object) }
{}

/// The world depends on steps and wake-ups alone, not on verdicts.
pub fn verdicts_change_nothing()
    ensures { (program : Program) (h : List Event) → world_after program h ≡ world_after program (moves_of h) }
{}

/// Each reply fixes the machine's choice: legal histories in which the guests are replied the same, and wake alike, in
/// the same order, are the same but for their verdicts.
pub fn replies_fix_the_history()
    ensures { (program : Program) (budget other : ℕ) (h k : List Event) → IsLegal program budget h → IsLegal program other k →
        heard h ≡ heard k → moves_of h ≡ moves_of k }
{}

/// What stands before the moment of a step is all that was entered before that step.
pub fn moments_are_of_their_steps()
    ensures { (h : List Event) (k : ℕ) (moment : Moment) → moment_of h k ≡ Some moment → moment.before ≡ before_step h k }
{}

/// No more objects are made than may be. The objects of classes are there from the start, however many.
pub fn objects_are_few()
    ensures { (program : Program) (budget : ℕ) (h : List Event) → IsLegal program budget h →
        length (world_after program h).objects ≤ max 65536 (class_count program) }
{}

/// Nor are more cells.
pub fn cells_are_few()
    ensures { (program : Program) (budget : ℕ) (h : List Event) → IsLegal program budget h →
        cell_count program (world_after program h) ≤ max 1048576 (cell_count program (start_world program)) }
{}

/// The heap of a well-formed program has exactly the cells of the objects that were made: of a class object one for each
/// static field, of another object one for each field, of a Thread one, and of an array one for each element.
pub fn cells_belong_to_objects()
    ensures { (program : Program) → WellFormed program → (budget : ℕ) (h : List Event) → IsLegal program budget h → (cell : Cell) →
        is_some ((world_after program h).cells cell) ≡ has_cell program (world_after program h) cell }
{}

/// Where an object more would pass the limit of objects, that is the limit which is named.
pub fn objects_come_before_cells()
    ensures { (program : Program) (world : World) (frames : ℕ) (g : GuestNo) (kind : NewKind) → 65536 < length world.objects + 1 →
        past_limit program world frames g (New kind) ≡ Some (record { kind = Objects; count = length world.objects + 1 }) }
{}

/// A step has an old place only where it is a return or enters a block.
pub fn only_returns_and_blocks_look_back()
    ensures { (program : Program) (world : World) (frame : Option Frame) (g : GuestNo) (deed : Deed) (call : ℕ) →
        old_place program (due_of program world frame g deed) ≡ Some call → IsTrue (has_old_place deed) }
{}

/// Nothing is owed exactly where the list of what is owed is empty.
pub fn owed_lists_tell()
    ensures { (program : Program) (h : List Event) → OwesNothing program h ↔ (owed program h ≡ []) }
{}

/// A run by the serial rule that is cut off for want of memory has made what the whole run begins with.
pub fn serial_prefixes_begin_the_run()
    ensures { (program : Program) (budget seed spurious : ℕ) (h : List Event) → IsSerialPrefix program budget seed spurious h →
        (rest : List Event) × (h ++ rest ≡ (serial program budget seed spurious).history) }
{}

/// And it is a right run of its own.
pub fn serial_prefixes_are_right()
    ensures { (program : Program) (budget seed spurious : ℕ) (h : List Event) → IsSerialPrefix program budget seed spurious h →
        IsRightRun program budget (record { history = h; finish = Memory }) }
{}
