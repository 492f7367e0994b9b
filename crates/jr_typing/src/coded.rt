//! The members of a class.

ghost use Rattle.std.specs.Prelude.{map, IfOk, ◌≡◌};
ghost use Rattle.jr_ast.specs.Clauses.{view_class_clause};
ghost use Rattle.jr_ast.specs.Units as unit;
ghost use Rattle.jr_names.specs.Answered.{Answers, Moves};
ghost use Rattle.jr_typing.specs.Headed as headed;
ghost use Rattle.jr_typing.specs.MadeViews.{view_coded, view_counts, view_typed};
ghost use Rattle.jr_typing.specs.StatementViews.{view_frame};
ghost use Rattle.jr_typing_rules.specs.Answers.{one_by_one};
ghost use Rattle.jr_typing_rules.specs.Declarations as spec;

use crate::counts::{Counts, counted, sum};
use crate::denotation::mismatch;
use crate::field::{FieldsMade, fields_made};
use crate::formal::{formal_variables, kinds_of};
use crate::heading::{
    clauses_before_body, ends_if_asked, few_formals, is_constructor, is_right_declaration,
};
use crate::made::{MadeMember, MadeMethod};
use crate::state::{Frame, State};
use crate::statement::body_of;
use jr_ast::{Class, ClassClause, Field, Member, Method};
use jr_base::{ClassId, Fail, Memory, MethodId, Refusal};
use jr_names::{Names, is_static};
use jr_typing_rules::ValueType;
use sqlite_items::Items;
use std::alloc::Global;
use std::mem;

/// The class whose members are made.
#[derive(Clone, Copy)]
pub struct Home<'a, 'b> {
    pub names: &'b Names<'a>,
    pub class: &'a Class,
    pub own: ClassId,
}

/// A method that was made, and the texts that it prints.
#[derive(Drop)]
pub struct MethodTyped<'a> {
    pub method: MadeMethod<'a>,
    pub texts: Items<&'a [u8]>,
}

/// The members of a class so far, and what stands before the next one.
#[derive(Drop)]
pub struct Coded<'a> {
    pub counts: Counts<'a>,
    pub members: Vec<MadeMember<'a>>,
}

impl<'a> Coded<'a> {
    /// Adds the fields of a declaration.
    fn add_fields(
        &mut self,
        alloc: Global,
        home: &Home<'a, '_>,
        field: &'a Field,
    ) -> Result<(), Fail>
        ensures { Moves view_coded (spec.makes_member home.now.names.now (unit.view_class home.now.class.now) home.now.own (view_coded self.old) (unit.OfField field.now)) result self.new }
    {
        let before = mem::replace(&mut self.counts, Counts::new(alloc));
        let FieldsMade { counts, made } = fields_made(alloc, home.names, home.own, before, field)?;
        self.counts = counts;
        self.members
            .push(MadeMember::Fields(field.modifiers.as_slice(), made))?;
        Ok(())
    }

    /// What is the same in the whole body of a method.
    fn frame<'b>(
        &self,
        home: &Home<'a, 'b>,
        method: &Method,
        of: Option<ValueType>,
    ) -> Result<Frame<'a, 'b>, Memory>
        ensures { IfOk result (λ frame. view_frame frame ≡ spec.frame_of home.now.names.now.names home.now.own (view_counts self.now.counts) (unit.view_method method.now) of) }
    {
        Ok(Frame {
            names: home.names,
            own: home.own,
            is_static: is_static(method.modifiers.as_slice()),
            result: of,
            clauses: clauses_before_body(self.counts.clauses, method)?,
            texts: counted(self.counts.texts.len())?,
        })
    }

    /// A method, of which the types of the result and of the formals are known.
    #[tactic(auto, using(crate::proofs::Headings::typed_fails))]
    fn typed_method(
        &self,
        alloc: Global,
        home: &Home<'a, '_>,
        method: &'a Method,
        of: Option<ValueType>,
        types: &[ValueType],
    ) -> Result<MethodTyped<'a>, Fail>
        ensures { Answers view_typed (headed.typed_method home.now.names.now.names home.now.own (view_counts self.now.counts) (unit.view_method method.now) of types.now) result }
    {
        let formals = formal_variables(alloc, method.formals.as_slice(), types)?;
        let formal_kinds = kinds_of(alloc, types)?;
        let frame = self.frame(home, method, of)?;
        let mut state = State::new(alloc, formals.as_slice(), kinds_of(alloc, types)?)?;
        let body = body_of(alloc, &frame, &mut state, method.body.as_slice())?;
        let State {
            scopes,
            kinds,
            has_commit,
            texts,
        } = state;
        let made = MadeMethod {
            source: method,
            number: MethodId(self.counts.methods),
            class: home.own,
            is_static: frame.is_static,
            is_constructor: is_constructor(&method.kind),
            result: of,
            formals,
            formal_kinds,
            kinds,
            has_commit,
            body,
            scopes,
        };
        Ok(MethodTyped {
            method: made,
            texts,
        })
    }

    /// Adds a method, of which the types of the result and of the formals are known.
    #[tactic(auto, using(crate::proofs::Headings::headed_fails))]
    fn add_headed(
        &mut self,
        alloc: Global,
        home: &Home<'a, '_>,
        method: &'a Method,
        of: Option<ValueType>,
        types: &[ValueType],
    ) -> Result<(), Fail>
        ensures { Moves view_coded (headed.and_headed home.now.names.now.names home.now.own (view_coded self.old) (unit.view_method method.now) of types.now) result self.new }
    {
        let typed = self.typed_method(alloc, home, method, of, types)?;
        let before_body = clauses_before_body(self.counts.clauses, method)?;
        let MethodTyped {
            method: made,
            texts,
        } = typed;
        self.counts.clauses = sum(before_body, made.scopes.asserts)?;
        self.counts.methods = sum(self.counts.methods, 1)?;
        self.counts.texts.append(texts)?;
        self.members.push(MadeMember::Method(made))?;
        Ok(())
    }

    /// Adds a method or constructor. Refused are, in this order, a `run` or constructor that isn't declared as it must,
    /// a body that doesn't give the result that it must, a 17th formal, what its heading names, and what its body breaks.
    fn add_method(
        &mut self,
        alloc: Global,
        home: &Home<'a, '_>,
        method: &'a Method,
    ) -> Result<(), Fail>
        ensures { Moves view_coded (spec.makes_method home.now.names.now (unit.view_class home.now.class.now) home.now.own (view_coded self.old) (unit.view_method method.now)) result self.new }
    {
        if !is_right_declaration(home.class, method) {
            return Err(mismatch(method.place));
        }
        if !ends_if_asked(method) {
            return Err(Fail::Refused(Refusal::MissingReturn(method.name.place)));
        }
        few_formals(method.formals.as_slice())?;
        let of = home.names.result_type(&method.kind)?;
        let is_main = home.names.main().0 == self.counts.methods;
        let types = home
            .names
            .formal_types(alloc, is_main, method.formals.as_slice())?;
        self.add_headed(alloc, home, method, of, types.as_slice())
    }

    /// Adds a clause.
    fn add_clause(&mut self, home: &Home<'a, '_>, clause: &'a ClassClause) -> Result<(), Fail>
        ensures { Moves view_coded (spec.makes_member home.now.names.now (unit.view_class home.now.class.now) home.now.own (view_coded self.old) (unit.OfClause (view_class_clause clause.now))) result self.new }
    {
        let clauses = sum(self.counts.clauses, 1)?;
        self.members.push(MadeMember::Clause(clause))?;
        self.counts.clauses = clauses;
        Ok(())
    }

    fn add_member(
        &mut self,
        alloc: Global,
        home: &Home<'a, '_>,
        member: &'a Member,
    ) -> Result<(), Fail>
        ensures { Moves view_coded (spec.makes_member home.now.names.now (unit.view_class home.now.class.now) home.now.own (view_coded self.old) (unit.view_member member.now)) result self.new }
    {
        match member {
            Member::Empty => Ok(()),
            Member::Field(field) => self.add_fields(alloc, home, field),
            Member::Method(method) => self.add_method(alloc, home, method),
            Member::Clause(clause) => self.add_clause(home, clause),
        }
    }

    /// Adds the members, one by one.
    #[tactic(auto, using(jr_names::proofs::Turns::step_fails, jr_names::proofs::Turns::step_goes_on, jr_names::proofs::Turns::no_step_left))]
    pub fn add_members(
        &mut self,
        alloc: Global,
        home: &Home<'a, '_>,
        all: &'a [Member],
    ) -> Result<(), Fail>
        ensures { Moves view_coded (one_by_one (spec.makes_member home.now.names.now (unit.view_class home.now.class.now) home.now.own) (view_coded self.old) (map unit.view_member all.now)) result self.new }
    {
        for member in all {
            self.add_member(alloc, home, member)?;
        }
        Ok(())
    }
}
