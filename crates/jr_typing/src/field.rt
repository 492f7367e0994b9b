//! Fields.

ghost use Rattle.jr_names.specs.Answered.{Answers, Moves};
ghost use Rattle.jr_typing.specs.MadeViews.{view_counts, view_fields};
ghost use Rattle.jr_typing_rules.specs.Answers.{one_by_one};
ghost use Rattle.jr_typing_rules.specs.Declarations as spec;

use crate::constant::initial_constant;
use crate::counts::{Counts, sum};
use crate::made::MadeField;
use jr_ast::{Field, FieldDeclarator};
use jr_base::{ClassId, Fail, FieldId};
use jr_names::{Names, is_static, is_volatile};
use jr_typing_rules::ValueType;
use sqlite_items::Items;
use std::alloc::Global;

/// What the fields of one declaration have in common.
#[derive(Clone, Copy)]
struct Common {
    class: ClassId,
    is_static: bool,
    is_volatile: bool,
    of: ValueType,
}

/// The fields of one declaration so far, and what stands before the next one.
#[derive(Drop)]
pub struct FieldsMade<'a> {
    pub counts: Counts<'a>,
    pub made: Items<MadeField<'a>>,
}

impl<'a> FieldsMade<'a> {
    /// Adds a field. Its constant is refused where it may not stand there.
    fn add_field(
        &mut self,
        names: &Names<'a>,
        common: Common,
        declarator: &'a FieldDeclarator,
    ) -> Result<(), Fail>
        ensures { Moves view_fields (spec.makes_field names.now.names common.class common.is_static common.is_volatile common.of (view_fields self.old) declarator.now) result self.new }
    {
        let Common {
            class,
            is_static,
            is_volatile,
            of,
        } = common;
        let constant = initial_constant(names, of, declarator.constant)?;
        let next = sum(self.counts.fields, 1)?;
        self.made.push(MadeField {
            name: &declarator.name,
            number: FieldId(self.counts.fields),
            class,
            is_static,
            is_volatile,
            of,
            constant,
        })?;
        self.counts.fields = next;
        Ok(())
    }

    /// Adds fields, from left to right.
    #[tactic(auto, using(jr_names::proofs::Turns::step_fails, jr_names::proofs::Turns::step_goes_on, jr_names::proofs::Turns::no_step_left))]
    fn add_declared(
        &mut self,
        names: &Names<'a>,
        common: Common,
        all: &'a [FieldDeclarator],
    ) -> Result<(), Fail>
        ensures { Moves view_fields (one_by_one (spec.makes_field names.now.names common.class common.is_static common.is_volatile common.of) (view_fields self.old) all.now) result self.new }
    {
        for declarator in all {
            self.add_field(names, common, declarator)?;
        }
        Ok(())
    }
}

/// The fields of a declaration, behind what stands before them. Refused are a type that isn't there, and the first
/// constant that may not stand where it does (JLS 8.3).
pub fn fields_made<'a>(
    alloc: Global,
    names: &Names<'a>,
    class: ClassId,
    counts: Counts<'a>,
    field: &'a Field,
) -> Result<FieldsMade<'a>, Fail>
    ensures { Answers view_fields (spec.makes_fields names.now.names class (view_counts counts.entry) field.now) result }
{
    let of = names.type_of(&field.type_name)?;
    let mut fields = FieldsMade {
        counts,
        made: Items::new(alloc),
    };
    let common = Common {
        class,
        is_static: is_static(field.modifiers.as_slice()),
        is_volatile: is_volatile(field.modifiers.as_slice()),
        of,
    };
    fields.add_declared(names, common, field.declarators.as_slice())?;
    Ok(fields)
}
