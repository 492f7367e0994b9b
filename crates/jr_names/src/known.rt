//! The members of a class, in source order.

ghost use Rattle.std.specs.Prelude.{map};
ghost use Rattle.jr_ast.specs.Units.{view_member, view_method};
ghost use Rattle.jr_typing_rules.specs.Answers.{one_by_one};
ghost use Rattle.jr_typing_rules.specs.Resolution as spec;
ghost use Rattle.jr_names.specs.Answered.{Moves};
ghost use Rattle.jr_names.specs.Tables.{names_alone};
ghost use Rattle.jr_names.specs.Views.{view_known};

use crate::class::ClassEntry;
use crate::heading::{formal_types, looks_like_main, result_type};
use crate::modifiers::is_static;
use crate::numbers::Numbers;
use crate::words::is_library_method;
use jr_ast::{Field, FieldDeclarator, Member, Method, MethodKind};
use jr_base::{ClassId, Fail, FieldId, Memory, MethodId, Refusal};
use jr_typing_rules::{MethodEntry, ValueType};
use std::alloc::Global;

/// What is known of a class that is read, and of the source before it.
#[derive(Drop)]
pub struct Known<'a> {
    pub own: ClassId,
    pub class: ClassEntry<'a>,
    /// The number of the next field of the source.
    pub fields: u32,
    /// The number of the next method of the source.
    pub methods: u32,
    pub main: Option<MethodId>,
}

impl<'a> Known<'a> {
    /// Adds a field, which is refused where the class has one of its name (JLS 8.3).
    fn add_field(
        &mut self,
        is_static: bool,
        of: ValueType,
        declarator: &'a FieldDeclarator,
    ) -> Result<(), Fail>
        ensures { Moves view_known (spec.and_field is_static of (view_known self.old) declarator.now) result self.new }
    {
        let number = FieldId(self.fields);
        let next = self.fields.checked_add(1).ok_or(Memory)?;
        self.class
            .fields
            .add(&declarator.name, number, self.own, is_static, of)?;
        self.fields = next;
        Ok(())
    }

    /// Adds fields of one type, from left to right.
    #[tactic(auto, using(crate::proofs::Turns::step_fails, crate::proofs::Turns::step_goes_on, crate::proofs::Turns::no_step_left))]
    fn add_declared(
        &mut self,
        is_static: bool,
        of: ValueType,
        all: &'a [FieldDeclarator],
    ) -> Result<(), Fail>
        ensures { Moves view_known (one_by_one (spec.and_field is_static of) (view_known self.old) all.now) result self.new }
    {
        for declarator in all {
            self.add_field(is_static, of, declarator)?;
        }
        Ok(())
    }

    fn add_fields(&mut self, numbers: &Numbers<'_>, field: &'a Field) -> Result<(), Fail>
        ensures { Moves view_known (spec.and_fields (names_alone numbers.now) (view_known self.old) field.now) result self.new }
    {
        let of = numbers.type_of(&field.type_name)?;
        self.add_declared(
            is_static(field.modifiers.as_slice()),
            of,
            field.declarators.as_slice(),
        )
    }

    /// Adds the constructor, which is refused where the class has one (JLS 8.8).
    fn add_constructor(
        &mut self,
        alloc: Global,
        numbers: &Numbers<'_>,
        method: &'a Method,
    ) -> Result<(), Fail>
        ensures { Moves view_known (spec.and_constructor (names_alone numbers.now) (view_known self.old) (view_method method.now)) result self.new }
    {
        if self.class.constructor.is_some() {
            return Err(Fail::Refused(Refusal::Duplicate(method.name.place)));
        }
        let formals = formal_types(alloc, numbers, false, method.formals.as_slice())?;
        let next = self.methods.checked_add(1).ok_or(Memory)?;
        self.class.constructor = Some(MethodEntry {
            number: MethodId(self.methods),
            is_static: false,
            is_main: false,
            result: None,
            formals,
        });
        self.methods = next;
        Ok(())
    }

    /// Adds a method, which is refused where each object has one of its name, and where the class has (JLS 8.4.2).
    fn add_named_method(
        &mut self,
        alloc: Global,
        numbers: &Numbers<'_>,
        method: &'a Method,
    ) -> Result<(), Fail>
        ensures { Moves view_known (spec.and_named_method (names_alone numbers.now) (view_known self.old) (view_method method.now) (spec.is_first_main (view_known self.old) (view_method method.now))) result self.new }
    {
        let is_main = self.main.is_none() && looks_like_main(method);
        let result = result_type(numbers, &method.kind)?;
        let text = method.name.text.as_slice();
        if is_library_method(self.class.extends_thread, text) || self.class.methods.has(text) {
            return Err(Fail::Refused(Refusal::Duplicate(method.name.place)));
        }
        let formals = formal_types(alloc, numbers, is_main, method.formals.as_slice())?;
        let number = MethodId(self.methods);
        let next = self.methods.checked_add(1).ok_or(Memory)?;
        self.class.methods.put(
            text,
            MethodEntry {
                number,
                is_static: is_static(method.modifiers.as_slice()),
                is_main,
                result,
                formals,
            },
        )?;
        self.methods = next;
        if is_main {
            self.main = Some(number);
        }
        Ok(())
    }

    fn add_method(
        &mut self,
        alloc: Global,
        numbers: &Numbers<'_>,
        method: &'a Method,
    ) -> Result<(), Fail>
        ensures { Moves view_known (spec.and_method (names_alone numbers.now) (view_known self.old) (view_method method.now) method.now.kind) result self.new }
    {
        match method.kind {
            MethodKind::Constructor => self.add_constructor(alloc, numbers, method),
            MethodKind::Void | MethodKind::Valued(_) => {
                self.add_named_method(alloc, numbers, method)
            }
        }
    }

    fn add_member(
        &mut self,
        alloc: Global,
        numbers: &Numbers<'_>,
        member: &'a Member,
    ) -> Result<(), Fail>
        ensures { Moves view_known (spec.and_member (names_alone numbers.now) (view_known self.old) (view_member member.now)) result self.new }
    {
        match member {
            Member::Field(field) => self.add_fields(numbers, field),
            Member::Method(method) => self.add_method(alloc, numbers, method),
            Member::Empty | Member::Clause(_) => Ok(()),
        }
    }

    /// Adds the members, one by one.
    #[tactic(auto, using(crate::proofs::Turns::step_fails, crate::proofs::Turns::step_goes_on, crate::proofs::Turns::no_step_left))]
    pub fn add_members(
        &mut self,
        alloc: Global,
        numbers: &Numbers<'_>,
        all: &'a [Member],
    ) -> Result<(), Fail>
        ensures { Moves view_known (one_by_one (spec.and_member (names_alone numbers.now)) (view_known self.old) (map view_member all.now)) result self.new }
    {
        for member in all {
            self.add_member(alloc, numbers, member)?;
        }
        Ok(())
    }
}
