//! Laws of what clauses ask for, each a function with no work to do: its contract is the law.

ghost use Rattle.std.specs.Prelude.{◌≡◌, Some};
ghost use Rattle.jr_base.specs.declared.number.ClauseId.{ClauseId};
ghost use Rattle.jr_program.specs.Clauses.{Clause};
ghost use Rattle.jr_program.specs.Programs.{Program, clause_at};
ghost use Rattle.jr_program.specs.WellFormed.{WellFormed};
ghost use Rattle.jr_clause_eval.specs.ClassObjects.{HaveClassObjects};

/// A clause of a well-formed program names classes that have objects, as `value` asks.
pub fn clauses_name_class_objects()
    ensures { (program : Program) → WellFormed program → (c : ClauseId) (clause : Clause) → clause_at program c ≡ Some clause → HaveClassObjects clause.states }
{}
