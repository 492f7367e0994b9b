//! The classes of a source, in source order.

ghost use Rattle.std.specs.Prelude.{◌≡◌, [], ◌∷◌, ◌++◌, None, length, map, IfOk, OnOk};
ghost use Rattle.jr_ast.specs.Units as unit;
ghost use Rattle.jr_typing_rules.specs.Answers.{one_by_one};
ghost use Rattle.jr_typing_rules.specs.Resolution as spec;
ghost use Rattle.jr_names.specs.Answered.{Moves};
ghost use Rattle.jr_names.specs.Views.{view_class, view_known, view_resolved};

use crate::class::ClassEntry;
use crate::known::Known;
use crate::numbers::{Numbers, number};
use jr_ast::Class;
use jr_base::{ClassId, Fail, Memory, MethodId, Refusal};
use sqlite_items::Items;
use std::alloc::Global;

/// The classes that are read so far, and what is counted over them.
#[derive(Drop)]
pub struct Resolved<'a> {
    pub classes: Items<ClassEntry<'a>>,
    /// The number of the next field of the source.
    pub fields: u32,
    /// The number of the next method of the source.
    pub methods: u32,
    pub main: Option<MethodId>,
}

impl<'a> Resolved<'a> {
    /// No class.
    pub fn new(alloc: Global) -> Resolved<'a>
        ensures { view_resolved result ≡ record { classes = []; fields = 0; methods = 0; main = None } }
    {
        Resolved {
            classes: Items::new(alloc),
            fields: 0,
            methods: 0,
            main: None,
        }
    }

    /// What is known of a class before its members are read.
    fn first_known(&self, alloc: Global, own: ClassId, class: &'a Class) -> Known<'a>
        requires { own.0 ≡ length (view_resolved self.now).classes }
        ensures { view_known result ≡ spec.first_known (view_resolved self.now) (unit.view_class class.now) }
    {
        Known {
            own,
            class: ClassEntry::new(alloc, class.extends_thread, class.implements_runnable),
            fields: self.fields,
            methods: self.methods,
            main: self.main,
        }
    }

    fn next_class(&self) -> Result<ClassId, Memory>
        ensures { IfOk result (λ own. own.0 ≡ length (view_resolved self.now).classes) }
    {
        Ok(ClassId(number(self.classes.len())?))
    }

    /// Adds the class that was read.
    fn push(&mut self, known: Known<'a>) -> Result<(), Memory>
        ensures { OnOk result (view_resolved self.new ≡ record { classes = (view_resolved self.old).classes ++ (view_known known.entry).class ∷ []; fields = known.entry.fields; methods = known.entry.methods; main = known.entry.main }) }
    {
        let Known {
            class,
            fields,
            methods,
            main,
            ..
        } = known;
        self.classes.push(class)?;
        self.fields = fields;
        self.methods = methods;
        self.main = main;
        Ok(())
    }

    /// Adds a class and its members. The class is refused where its name is reserved, or an earlier class has it.
    fn add_class(
        &mut self,
        alloc: Global,
        numbers: &Numbers<'_>,
        class: &'a Class,
    ) -> Result<(), Fail>
        ensures { Moves view_resolved (spec.and_class numbers.now (view_resolved self.old) (unit.view_class class.now)) result self.new }
    {
        let own = self.next_class()?;
        if !numbers.has_own_name(own, &class.name) {
            return Err(Fail::Refused(Refusal::Duplicate(class.name.place)));
        }
        let mut known = self.first_known(alloc, own, class);
        known.add_members(alloc, numbers, class.members.as_slice())?;
        self.push(known)?;
        Ok(())
    }

    /// Adds the classes, one by one.
    #[tactic(auto, using(crate::proofs::Turns::step_fails, crate::proofs::Turns::step_goes_on, crate::proofs::Turns::no_step_left))]
    pub fn add_classes(
        &mut self,
        alloc: Global,
        numbers: &Numbers<'_>,
        all: &'a [Class],
    ) -> Result<(), Fail>
        ensures { Moves view_resolved (one_by_one (spec.and_class numbers.now) (view_resolved self.old) (map unit.view_class all.now)) result self.new }
    {
        for class in all {
            self.add_class(alloc, numbers, class)?;
        }
        Ok(())
    }
}
