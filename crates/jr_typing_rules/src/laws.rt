//! Laws of the definition, each a function with no work to do: its contract is the law.

ghost use Rattle.std.specs.Prelude.{◌≡◌, ◌≤◌, List, length, map, Some};
ghost use Rattle.std.specs.List.{flat_map};
ghost use Rattle.jr_base.specs.declared.number.Span.{Span};
ghost use Rattle.jr_base.specs.declared.number.Position.{Position};
ghost use Rattle.jr_base.specs.declared.number.ClassId.{ClassId};
ghost use Rattle.jr_base.specs.declared.number.FieldId.{FieldId};
ghost use Rattle.jr_base.specs.declared.number.MethodId.{MethodId};
ghost use Rattle.jr_base.specs.declared.number.ClauseId.{ClauseId};
ghost use Rattle.jr_program.specs.declared.words.Site.{Site};
ghost use Rattle.jr_program.specs.Clauses.{Clause};
ghost use Rattle.jr_program.specs.Programs as parts;
ghost use Rattle.jr_program.specs.Programs.{Program, Field, Method, class_at, field_at, method_at, clause_at};
ghost use Rattle.jr_program.specs.Sites.{due_at_site};
ghost use Rattle.jr_program.specs.WellFormed.{MainFits, ClassFits, FieldFits, EndsAsItMust, Fits, FitsOwner, IsNumbered, WellFormed, scope_of, most_due};
ghost use Rattle.jr_ast.specs.Units.{Class};
ghost use Rattle.jr_typing_rules.specs.Answers.{Good};
ghost use Rattle.jr_typing_rules.specs.Resolution.{Resolution, resolve};
ghost use Rattle.jr_typing_rules.specs.Agreement.{AgreesWith};
ghost use Rattle.jr_typing_rules.specs.Headers.{HeaderFits};
ghost use Rattle.jr_typing_rules.specs.Owners.{MayOwn};
ghost use Rattle.jr_typing_rules.specs.Counts.{IsCounted};
ghost use Rattle.jr_typing_rules.specs.Whole.{typing};
ghost use Rattle.jr_typing_rules.specs.Written.{keywords_in};

/// An accepted source has its `main`: a static method without a result, whose formal is no variable (JLS 12.1.4).
pub fn main_is_there()
    ensures { (position : Span → Position) (classes : List Class) (program : Program) → typing position classes ≡ Good program → MainFits program }
{}

/// At most 16 clauses are due at each site of an accepted source.
pub fn few_are_due()
    ensures { (position : Span → Position) (classes : List Class) (program : Program) → typing position classes ≡ Good program →
        (site : Site) → length (due_at_site program site) ≤ most_due }
{}

/// The clauses of an accepted source are those that are written and judged, in source order: each stands where its
/// keyword does.
pub fn clauses_are_in_order()
    ensures { (position : Span → Position) (classes : List Class) (program : Program) → typing position classes ≡ Good program →
        map (λ (c : Clause). c.place) program.clauses ≡ map position (flat_map keywords_in classes) }
{}

/// A body of an accepted source that has to give a result never comes to its end (JLS 8.4.7, 14.21).
pub fn bodies_end()
    ensures { (position : Span → Position) (classes : List Class) (program : Program) → typing position classes ≡ Good program →
        (m : MethodId) (method : Method) → method_at program m ≡ Some method → EndsAsItMust method.body method.result }
{}

/// The names of an accepted source agree with its program: each entry of a class's tables is the field, the method or
/// the constructor of its number, with its class, a field's slot, whether it is static, and the kinds of its types, which
/// speak of classes of the program.
pub fn names_agree()
    ensures { (position : Span → Position) (classes : List Class) (names : Resolution) (program : Program) →
        resolve classes ≡ Good names → typing position classes ≡ Good program → AgreesWith names.names program }
{}

/// A field of an accepted source is one of its classes', and its constant has the kind of its type (JLS 8.3, 15.28).
pub fn fields_fit()
    ensures { (position : Span → Position) (classes : List Class) (program : Program) → typing position classes ≡ Good program →
        (f : FieldId) (field : Field) → field_at program f ≡ Some field → FieldFits program field }
{}

/// A class of an accepted source has the `run` that a thread runs, where one does, and a constructor of its own, if any
/// (JLS 8.8, 17.1).
pub fn classes_fit()
    ensures { (position : Span → Position) (classes : List Class) (program : Program) → typing position classes ≡ Good program →
        (c : ClassId) (class : parts.Class) → class_at program c ≡ Some class → ClassFits program c class }
{}

/// What a method of an accepted source declares fits the program: its class, its formals, its result, and whether it
/// constructs (JLS 8.4, 8.8).
pub fn headers_fit()
    ensures { (position : Span → Position) (classes : List Class) (program : Program) → typing position classes ≡ Good program →
        (m : MethodId) (method : Method) → method_at program m ≡ Some method → HeaderFits program m method }
{}

/// What a clause of an accepted source belongs to is in the program, of the sort that its kind asks, and static where the
/// clause is.
pub fn clauses_are_owned()
    ensures { (position : Span → Position) (classes : List Class) (program : Program) → typing position classes ≡ Good program →
        (c : ClauseId) (clause : Clause) → clause_at program c ≡ Some clause → MayOwn program clause.kind clause.is_static clause.owner }
{}

/// A program has as many classes, fields, methods and clauses as its source writes.
pub fn members_are_counted()
    ensures { (position : Span → Position) (classes : List Class) (program : Program) → typing position classes ≡ Good program → IsCounted classes program }
{}

/// The body of a method of an accepted source fits its program: each operand has the kind that its operator takes, each
/// number names something, and each jump has its loop (JLS 14, 15).
pub fn bodies_fit()
    ensures { (position : Span → Position) (classes : List Class) (program : Program) → typing position classes ≡ Good program →
        (m : MethodId) (method : Method) → method_at program m ≡ Some method → Fits (scope_of program m method) method.body }
{}

/// What a clause of an accepted source states has its kinds where its owner stands: a method's clauses name its formals,
/// an `assert` the variables in scope (JML Reference Manual, "Predicates and Specification Expressions").
pub fn clauses_fit()
    ensures { (position : Span → Position) (classes : List Class) (program : Program) → typing position classes ≡ Good program →
        (c : ClauseId) (clause : Clause) → clause_at program c ≡ Some clause → FitsOwner program clause clause.owner }
{}

/// An accepted source is a well-formed program, where its numbers have 32 bits.
pub fn typed_is_well_formed()
    ensures { (position : Span → Position) (classes : List Class) (program : Program) → typing position classes ≡ Good program → IsNumbered program → WellFormed program }
{}
