//! Laws of the definitions, each a function with no work to do: its contract is the law.

ghost use Rattle.std.specs.Prelude.{◌≡◌, ◌≢◌, ◌+◌, ◌≤◌, ℕ, length, Some, slice_get, List, ◌++◌, ◌∷◌, [], Option};
ghost use Rattle.jr_base.specs.Deed.{Deed};
ghost use Rattle.jr_base.specs.Threads.{Next, Wants, Ended};
ghost use Rattle.jr_base.specs.declared.action.Body.{Body};
ghost use Rattle.jr_base.specs.declared.action.Reply.{Reply};
ghost use Rattle.jr_base.specs.declared.kind.SlotKind.{SlotKind};
ghost use Rattle.jr_arith.specs.declared.operator.Width.{Width};
ghost use Rattle.jr_arith.specs.declared.operator.Unary.{Unary};
ghost use Rattle.jr_arith.specs.declared.operator.Binary.{Binary};
ghost use Rattle.jr_code.specs.Instructions.{Code, Instruction, OneOperand, TwoOperands, ConvertTo, Unknown, MethodCode};
ghost use Rattle.jr_code.specs.Coded.{Tables, Grows, plain, row_of_binary, row_of_unary, row_of_conversion};
ghost use Rattle.jr_code.specs.Depth.{IsDepthOf};
ghost use Rattle.jr_code.specs.Machine.{StackFrame, State, start_state, step, DoesNext};
ghost use Rattle.jr_ops.specs.Instructions.{Row, Letters, instruction_rows, kinds_taken, kinds_given};
ghost use Rattle.jr_code.specs.Checked.{CodeRight, MethodRight, Effect, GoesTo, kinds_pushed};
ghost use Rattle.jr_code.specs.Letters.{LettersFit};
ghost use Rattle.jr_code.specs.Sound.{RunsAt, WaitsAt, Sound, SoundMove, ReplyFits, GoesOn, StartRight};
ghost use Rattle.jr_code.specs.Resumed.{After, IsAsking, IsEnding, IsGoing, Answered};
ghost use Rattle.jr_code.specs.declared.instr.Instr.{Instr};
ghost use Rattle.jr_base.specs.declared.number.MethodId.{MethodId};
ghost use Rattle.jr_code.specs.declared.code.Code.{Code as CodeOfLists};
ghost use Rattle.jr_code.specs.Paths.{Reaches};
ghost use Rattle.jr_code.specs.Views.{plain_of};
ghost use Rattle.jr_code.specs.declared.code.MethodCode.{MethodCode as MethodOfLists};
ghost use Rattle.jr_code.specs.WellFormed.{LocalsBegin, WellFormedCode, BadAt};

/// Code does one thing next at most.
pub fn code_does_one_thing()
    ensures { (code : Code) (s : State) (replies : List Reply) (a b : Next) → DoesNext code s replies a → DoesNext code s replies b → a ≡ b }
{}

/// A thread that stops at an action, or at its end, does that next after the replies that it had.
pub fn stopping_changes_nothing()
    ensures asks { (code : Code) (start s : State) (replies : List Reply) (deed : Deed) →
        After code start replies s → IsAsking deed (step code s) → DoesNext code start replies (Wants deed) }
    ensures ends { (code : Code) (start s : State) (replies : List Reply) →
        After code start replies s → IsEnding (step code s) → DoesNext code start replies Ended }
{}

/// A state that is kept, and taken on by a step or by a reply, is the one that all replies at once lead to.
pub fn steps_and_replies_go_on()
    ensures begins { (code : Code) (start : State) → After code start [] start }
    ensures step { (code : Code) (start s next : State) (replies : List Reply) →
        After code start replies s → IsGoing (step code s) next → After code start replies next }
    ensures reply { (code : Code) (start s next : State) (replies : List Reply) (r : Reply) →
        After code start replies s → Answered (step code s) r next → After code start (replies ++ r ∷ []) next }
{}

/// Checked code begins with locals of the right kinds.
pub fn checked_code_begins()
    ensures { (code : Code) → CodeRight code → (start : Option Body) → StartRight code start → Sound code (start_state code start) }
{}

/// Checked code never meets a missing operand, an operand of a wrong kind, or an end of its instructions.
pub fn checked_code_goes_on()
    ensures { (code : Code) → CodeRight code → (s : State) → Sound code s → GoesOn s → SoundMove code (ReplyFits code s) (step code s) }
{}

/// The operands of a frame that runs checked code, or waits there at a call, find room in the depth of its method.
pub fn operands_find_room()
    ensures runs { (code : Code) (f : StackFrame) (depth : ℕ) → RunsAt code f → IsDepthOf code f.method depth → length f.stack ≤ depth }
    ensures waits { (code : Code) (r : Option SlotKind) (f : StackFrame) (depth : ℕ) →
        WaitsAt code r f → IsDepthOf code f.method depth → length f.stack ≤ depth }
{}

/// Kinds that are found along a path stand in every list of kinds with which the method is right.
pub fn kinds_are_forced()
    ensures { (code : Code) (c : MethodCode) (right : MethodRight code c) (at : ℕ) (ks after : List SlotKind) (i : Instruction) →
        slice_get right.shapes at ≡ Some (Some ks) → slice_get c.instructions at ≡ Some i → Effect code c i ks after → GoesTo right.shapes at i after }
{}

/// What a coded instruction is stays so when the tables grow at their ends.
pub fn tables_may_grow()
    ensures { (t u : Tables) → Grows t u → (i : Instr) → plain t i ≢ Unknown → plain t i ≡ plain u i }
{}

/// An instruction takes and gives the kinds that its row says, wherever it may stand.
pub fn rows_state_their_kinds()
    ensures { (code : Code) (c : MethodCode) (t : Tables) (before : ℕ) (row : Row) → slice_get instruction_rows before ≡ Some row →
        (arg : ℕ) (l : Letters) (ks : List SlotKind) →
        LettersFit code c (plain t (record { code = before + 1; arg = arg })) l →
        Effect code c (plain t (record { code = before + 1; arg = arg })) (kinds_pushed (kinds_taken l row) ks) (kinds_pushed (kinds_given l row) ks) }
{}

/// Each operator of both widths, and each conversion, has its row.
pub fn operators_have_rows()
    ensures between { (t : Tables) (arg : ℕ) (o : Binary) → plain t (record { code = row_of_binary o; arg = arg }) ≡ TwoOperands o }
    ensures before { (t : Tables) (arg : ℕ) (o : Unary) → plain t (record { code = row_of_unary o; arg = arg }) ≡ OneOperand o }
    ensures converts { (t : Tables) (arg : ℕ) (w : Width) → plain t (record { code = row_of_conversion w; arg = arg }) ≡ ConvertTo w }
{}

/// Code that keeps the rules is right in the sense of the laws above, and no rule is broken in it: what [`check`] says
/// of code that it refuses cannot be said of code that keeps them.
///
/// [`check`]: crate::checking::check
pub fn well_formed_code_breaks_no_rule()
    ensures right { (code : CodeOfLists) → WellFormedCode code → CodeRight (plain_of code) }
    ensures unbroken { (code : CodeOfLists) → WellFormedCode code → (m : MethodId) (at : ℕ) → BadAt code m at → ⊥ }
    ensures forced { (code : Code) (c : MethodCode) (right : MethodRight code c) (at : ℕ) (ks : List SlotKind) →
        Reaches code c at ks → slice_get right.shapes at ≡ Some (Some ks) }
{}

/// Right code whose methods' locals begin with `this` and the formals keeps the rules, and so [`check`] takes it where
/// there is memory.
///
/// [`check`]: crate::checking::check
pub fn right_code_is_well_formed()
    ensures { (code : CodeOfLists) → ((at : ℕ) (m : MethodOfLists) → slice_get code.methods.items at ≡ Some m → LocalsBegin m) →
        CodeRight (plain_of code) → WellFormedCode code }
{}
