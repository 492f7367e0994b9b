//! The classes of a source.

ghost use Rattle.std.specs.Prelude.{◌≡◌, length, map, IfOk};
ghost use Rattle.jr_ast.specs.Units as unit;
ghost use Rattle.jr_ast.specs.Units.{view_unit};
ghost use Rattle.jr_names.specs.Answered.{Answers, Moves};
ghost use Rattle.jr_typing.specs.MadeViews.{view_code};
ghost use Rattle.jr_typing_rules.specs.Answers.{one_by_one};
ghost use Rattle.jr_typing_rules.specs.Declarations as spec;

use crate::coded::{Coded, Home};
use crate::counts::{Counts, counted};
use crate::denotation::mismatch;
use crate::made::MadeClass;
use jr_ast::{Class, Unit};
use jr_base::{ClassId, Fail, Memory};
use jr_names::Names;
use std::alloc::Global;
use std::mem;

/// The classes of a source in source order, and what stands before its end.
#[derive(Drop)]
pub struct CodeMade<'a> {
    pub counts: Counts<'a>,
    pub classes: Vec<MadeClass<'a>>,
}

/// A class that implements Runnable declares `run` (`java.lang.Runnable`).
fn declares_run(names: &Names<'_>, own: ClassId, class: &Class) -> bool
    ensures { result ≡ spec.declares_run names.now.names own (unit.view_class class.now) }
{
    !class.implements_runnable || names.method_in(own, b"run".as_slice()).is_some()
}

impl<'a> CodeMade<'a> {
    /// The number of the next class.
    fn next_class(&self) -> Result<ClassId, Memory>
        ensures { IfOk result (λ own. own ≡ record { 0 = length (view_code self.now).made }) }
    {
        Ok(ClassId(counted(self.classes.len())?))
    }

    /// Adds a class and its members. Refused is one that implements Runnable and has no `run`, and what a member breaks.
    fn add_class(&mut self, alloc: Global, names: &Names<'a>, class: &'a Class) -> Result<(), Fail>
        ensures { Moves view_code (spec.makes_class names.now (view_code self.old) (unit.view_class class.now)) result self.new }
    {
        let own = self.next_class()?;
        if !declares_run(names, own, class) {
            return Err(mismatch(class.place));
        }
        let mut coded = Coded {
            counts: mem::replace(&mut self.counts, Counts::new(alloc)),
            members: Vec::new(alloc),
        };
        let home = Home { names, class, own };
        coded.add_members(alloc, &home, class.members.as_slice())?;
        let Coded { counts, members } = coded;
        self.counts = counts;
        self.classes.push(MadeClass {
            source: class,
            number: own,
            members,
        })?;
        Ok(())
    }

    /// Adds the classes, one by one.
    #[tactic(auto, using(jr_names::proofs::Turns::step_fails, jr_names::proofs::Turns::step_goes_on, jr_names::proofs::Turns::no_step_left))]
    fn add_classes(
        &mut self,
        alloc: Global,
        names: &Names<'a>,
        all: &'a [Class],
    ) -> Result<(), Fail>
        ensures { Moves view_code (one_by_one (spec.makes_class names.now) (view_code self.old) (map unit.view_class all.now)) result self.new }
    {
        for class in all {
            self.add_class(alloc, names, class)?;
        }
        Ok(())
    }
}

/// The classes of a source with their members, whose names are those, or the refusal of the first rule that their code
/// breaks, in source order (JLS 8, 14, 15): of a class, `Mismatch` where it implements Runnable and has no `run`; of a
/// field, what its type and its constant break; of a method, in this order, `Mismatch` where it is a constructor or a
/// `run` that isn't declared as it must, `MissingReturn` where it may end without its result, `TooManyLocals` at a 17th
/// formal, and what its body breaks. The names of the source itself refuse nothing here.
#[tactic(auto, unfolding(jr_typing_rules::specs::Declarations::code))]
pub fn type_code<'a>(alloc: Global, names: &Names<'a>, unit: &'a Unit) -> Result<CodeMade<'a>, Fail>
    ensures { Answers view_code (spec.code names.now (view_unit unit.now)) result }
{
    let mut code = CodeMade {
        counts: Counts::new(alloc),
        classes: Vec::new(alloc),
    };
    code.add_classes(alloc, names, unit.classes.as_slice())?;
    Ok(code)
}
