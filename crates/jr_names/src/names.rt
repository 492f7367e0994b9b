//! What the classes of a source declare.

ghost use Rattle.std.specs.Prelude.{◌≡◌, Err, map, option_map};
ghost use Rattle.std.specs.Option.{option_copied};
ghost use Rattle.jr_base.specs.declared.refusal.Fail.TheVariants as fails;
ghost use Rattle.jr_typing_rules.specs.Names as spec;
ghost use Rattle.jr_typing_rules.specs.Names.{Class as ClassOfRules};
ghost use Rattle.jr_typing_rules.specs.Expressions as expressions;
ghost use Rattle.jr_typing_rules.specs.Resolution as resolution;
ghost use Rattle.jr_typing_rules.specs.Statements as statements;
ghost use Rattle.jr_names.specs.Answered.{Answers};
ghost use Rattle.jr_names.specs.Views.{view_class};

use crate::class::ClassEntry;
use crate::heading;
use crate::numbers::Numbers;
use crate::types::{is_int_to_long, is_null, is_reference, is_same};
use jr_ast::{ElementType, Formal, MethodKind, TypeName};
use jr_base::{ClassId, Elem, Fail, MethodId};
use jr_typing_rules::{FieldEntry, MethodEntry, ValueType};
use sqlite_items::Items;
use std::alloc::Global;
use std::marker::Model;

/// The names of a source: its classes, their members, and which method is `main` (JLS 6, 12.1.4). Each look-up takes
/// one step, whatever the size of the source, and no memory.
///
/// Contracts see them as the rules do.
#[derive(Drop)]
pub struct Names<'a> {
    numbers: Numbers<'a>,
    classes: Items<ClassEntry<'a>>,
    main: MethodId,
}

impl<'a> Model for Names<'a> {
    ghost use Rattle.std.specs.Prelude.{map};
    ghost use Rattle.jr_typing_rules.specs.Resolution.{Resolution};

    ghost Value = { Resolution };

    ghost use Rattle.jr_names.specs.Views.{view_class};

    ghost view = { λ n. record { names = record { numbers = n.numbers; classes = map view_class n.classes }; main = n.main } };
}

impl<'a> Names<'a> {
    /// The names of those classes.
    pub fn new(numbers: Numbers<'a>, classes: Items<ClassEntry<'a>>, main: MethodId) -> Names<'a>
        ensures numbers { result.names.numbers ≡ numbers.entry }
        ensures classes { result.names.classes ≡ map view_class classes.entry }
        ensures main { result.main ≡ main }
    {
        Names {
            numbers,
            classes,
            main,
        }
    }

    /// The method where the program begins (JLS 12.1.4).
    pub fn main(&self) -> MethodId
        ensures { result ≡ self.now.main }
    {
        self.main
    }

    /// The class of that name.
    pub fn class_named(&self, text: &[u8]) -> Option<ClassId>
        ensures { result ≡ spec.named text.now self.now.names.numbers }
    {
        self.numbers.get(text)
    }

    #[tactic(auto, using(crate::proofs::Entries::get_in_map), unfolding(jr_typing_rules::specs::Names::class_at))]
    fn class(&self, number: ClassId) -> Option<&ClassEntry<'a>>
        ensures { option_map view_class (option_copied result) ≡ spec.class_at self.now.names number }
    {
        self.classes.get(number.0 as usize)
    }

    /// The field of that name in a class (JLS 8.3).
    #[tactic(auto, unfolding(jr_typing_rules::specs::Names::field_in))]
    pub fn field_in(&self, class: ClassId, text: &[u8]) -> Option<FieldEntry>
        ensures { result ≡ spec.field_in self.now.names class text.now }
    {
        match self.class(class) {
            Some(class) => class.fields.get(text),
            None => None,
        }
    }

    /// The method of that name in a class (JLS 8.4).
    #[tactic(auto, unfolding(jr_typing_rules::specs::Names::method_in))]
    pub fn method_in(&self, class: ClassId, text: &[u8]) -> Option<&MethodEntry>
        ensures { option_copied result ≡ spec.method_in self.now.names class text.now }
    {
        match self.class(class) {
            Some(class) => class.methods.get(text),
            None => None,
        }
    }

    /// The constructor of a class, which may have none (JLS 8.8).
    pub fn constructor(&self, class: ClassId) -> Option<&MethodEntry>
        ensures { option_copied result ≡ spec.and_then (spec.class_at self.now.names class) (λ (k : ClassOfRules). k.constructor) }
    {
        match self.class(class) {
            Some(class) => class.constructor.as_ref(),
            None => None,
        }
    }

    #[tactic(auto, unfolding(jr_typing_rules::specs::Names::is_thread))]
    fn extends_thread(&self, class: ClassId) -> bool
        ensures { result ≡ spec.is_thread self.now.names (ValueType.Single (Elem.Class class)) }
    {
        match self.class(class) {
            Some(class) => class.extends_thread,
            None => false,
        }
    }

    #[tactic(auto, unfolding(jr_typing_rules::specs::Names::is_runnable))]
    fn implements_runnable(&self, class: ClassId) -> bool
        ensures { result ≡ spec.is_runnable self.now.names (ValueType.Single (Elem.Class class)) }
    {
        match self.class(class) {
            Some(class) => class.implements_runnable,
            None => false,
        }
    }

    /// Whether values of that type are threads.
    #[tactic(auto, unfolding(jr_typing_rules::specs::Names::is_thread))]
    pub fn is_thread(&self, of: ValueType) -> bool
        ensures { result ≡ spec.is_thread self.now.names of }
    {
        match of {
            ValueType::Single(Elem::Thread) => true,
            ValueType::Single(Elem::Class(class)) => self.extends_thread(class),
            _ => false,
        }
    }

    /// Whether values of that type may be run by a thread.
    #[tactic(auto, unfolding(jr_typing_rules::specs::Names::is_runnable))]
    pub fn is_runnable(&self, of: ValueType) -> bool
        ensures { result ≡ spec.is_runnable self.now.names of }
    {
        match of {
            ValueType::Single(Elem::Runnable) => true,
            ValueType::Single(Elem::Class(class)) => self.implements_runnable(class),
            _ => false,
        }
    }

    fn widens(&self, from: ValueType, to: ValueType) -> bool
        ensures { result ≡ spec.widens self.now.names from to }
    {
        match to {
            ValueType::Single(Elem::Object) => is_reference(from),
            ValueType::Single(Elem::Thread) => self.is_thread(from),
            ValueType::Single(Elem::Runnable) => self.is_runnable(from),
            _ => false,
        }
    }

    /// Whether a value of the first type may stand where one of the second is asked for (JLS 5.2).
    #[tactic(auto, unfolding(jr_typing_rules::specs::Names::is_assignable))]
    pub fn is_assignable(&self, from: ValueType, to: ValueType) -> bool
        ensures { result ≡ spec.is_assignable self.now.names from to }
    {
        is_same(from, to)
            || is_int_to_long(from, to)
            || is_null(from) && is_reference(to)
            || self.widens(from, to)
    }

    /// The type that is written there, without an array (JLS 4.2, 4.3, 6.5.5). Refused as `Unknown` where it is a name
    /// that no class has. Takes no memory.
    #[tactic(auto, using(crate::proofs::ByNumbers::element_by_numbers))]
    pub fn element_type(&self, of: &ElementType) -> Result<Elem, Fail>
        ensures typed { Answers (λ t. t) (expressions.element_type self.now.names of.now) result }
        ensures memory { ¬ (result ≡ Err fails.Memory) }
    {
        self.numbers.element_type(of)
    }

    /// The type that is written there (JLS 4.1, 10.1). Refused as `Unknown` where it is a name that no class has. Takes no
    /// memory.
    #[tactic(auto, using(crate::proofs::ByNumbers::type_by_numbers))]
    pub fn type_of(&self, of: &TypeName) -> Result<ValueType, Fail>
        ensures typed { Answers (λ t. t) (statements.type_of self.now.names of.now) result }
        ensures memory { ¬ (result ≡ Err fails.Memory) }
    {
        self.numbers.type_of(of)
    }

    /// The type of a method's result, if it has one (JLS 8.4.5). Refused as `Unknown` where it is a name that no class
    /// has. Takes no memory.
    #[tactic(auto, using(crate::proofs::ByNumbers::result_by_numbers))]
    pub fn result_type(&self, kind: &MethodKind) -> Result<Option<ValueType>, Fail>
        ensures typed { Answers (λ t. t) (resolution.result_type self.now.names kind.now) result }
        ensures memory { ¬ (result ≡ Err fails.Memory) }
    {
        heading::result_type(&self.numbers, kind)
    }

    /// The types of a method's formals; that of `main` has none. Refused as `Unknown` where one names no type, and as
    /// `Duplicate` where one has the name of an earlier one (JLS 8.4.1).
    #[tactic(auto, using(crate::proofs::ByNumbers::formals_by_numbers))]
    pub fn formal_types(
        &self,
        alloc: Global,
        is_main: bool,
        formals: &[Formal],
    ) -> Result<Items<ValueType>, Fail>
        ensures { Answers (λ ts. ts) (resolution.formal_types self.now.names is_main formals.now) result }
    {
        heading::formal_types(alloc, &self.numbers, is_main, formals)
    }
}
