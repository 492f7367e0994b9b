//! Clauses of classes, and all clauses of a source.

ghost use Rattle.std.specs.Prelude.{◌≡◌, [], map};
ghost use Rattle.jr_ast.specs.Clauses as source;
ghost use Rattle.jr_ast.specs.Clauses.{view_class_clause};
ghost use Rattle.jr_ast.specs.Expressions.{view_spec};
ghost use Rattle.jr_names.specs.Answered.{Answers, Moves};
ghost use Rattle.jr_program.specs.ClauseViews.{view_clause};
ghost use Rattle.jr_spec_typing.specs.Clauses.{and_clause, and_clauses, setting_of, view_written};
ghost use Rattle.jr_spec_typing.specs.Views.{view_stand};
ghost use Rattle.jr_typing.specs.MadeViews.{view_class, view_member};
ghost use Rattle.jr_typing_rules.specs.Answers.{gather};
ghost use Rattle.jr_typing_rules.specs.Specifications as spec;

use crate::method_clauses::Home;
use crate::modifiers::{Holder, mode_in, modifiers_stand};
use crate::stand::{Quantified, Stand};
use crate::written::{Head, Written};
use jr_ast::{ClassClause, ClassForm, Name, SpecExpr};
use jr_base::{ClassId, Fail, Places, Refusal, Span};
use jr_names::Names;
use jr_program::{ClauseKind, Mode, Owner, TypedSpec};
use jr_typing::{MadeClass, MadeMember, Scope};
use sqlite_items::Items;
use std::alloc::Global;

/// A class, the names around it, and how its clauses are meant.
#[derive(Clone, Copy)]
struct ClassHome<'a, 'b> {
    names: &'b Names<'a>,
    mode: Mode,
    own: ClassId,
}

impl<'a, 'b> ClassHome<'a, 'b> {
    /// What a clause of the class is, besides what it states.
    fn head(&self, kind: ClauseKind) -> Head
        ensures { result ≡ record { kind = kind; owner = Owner.Class self.now.own; mode = self.now.mode } }
    {
        Head {
            kind,
            owner: Owner::Class(self.own),
            mode: self.mode,
        }
    }

    /// Where a clause of the class stands, which may name no variable.
    fn stand<'v, 'q>(&self, is_static: bool) -> Stand<'a, 'b, 'v, 'q>
        ensures { view_stand result ≡ spec.stand_in (setting_of [] self.now.names.now.names) self.now.own is_static [] }
    {
        Stand {
            scope: Scope {
                names: self.names,
                own: self.own,
                is_static,
                variables: &[],
            },
            result: None,
            looks_back: false,
            is_in_old: false,
            quantified: Quantified::Nothing,
        }
    }
}

impl<'s> Written<'s> {
    /// Adds a `monitors_for` clause. Refused as `Unknown` where the class has no such field.
    fn add_monitors_for(
        &mut self,
        alloc: Global,
        home: &ClassHome<'_, '_>,
        at: Span,
        field: &Name,
        owned: &[SpecExpr],
    ) -> Result<(), Fail>
        ensures { Moves view_written (and_clause (view_written self.old) (spec.class_clause (setting_of self.old.places home.now.names.now.names) home.now.mode home.now.own (source.MonitorsFor at field.now (map view_spec owned.now)))) result self.new }
    {
        match home.names.field_in(home.own, field.text.as_slice()) {
            Some(entry) => {
                let head = Head {
                    kind: ClauseKind::MonitorsFor,
                    owner: Owner::Field(entry.number),
                    mode: home.mode,
                };
                self.add_references(alloc, head, &home.stand(entry.is_static), at, owned)
            }
            None => Err(Fail::Refused(Refusal::Unknown(field.place))),
        }
    }

    /// Adds a clause of a class.
    fn add_of_class(
        &mut self,
        alloc: Global,
        home: &ClassHome<'_, '_>,
        clause: &ClassClause,
    ) -> Result<(), Fail>
        ensures { Moves view_written (and_clause (view_written self.old) (spec.class_clause (setting_of self.old.places home.now.names.now.names) home.now.mode home.now.own (view_class_clause clause.now))) result self.new }
    {
        let at = clause.place;
        match &clause.form {
            ClassForm::Invariant {
                is_static,
                condition,
            } => {
                let head = home.head(ClauseKind::Invariant);
                self.add_condition(alloc, head, &home.stand(*is_static), at, condition)
            }
            ClassForm::Constraint {
                is_static,
                condition,
            } => {
                let head = home.head(ClauseKind::Constraint);
                let stand = Stand {
                    looks_back: true,
                    ..home.stand(*is_static)
                };
                self.add_condition(alloc, head, &stand, at, condition)
            }
            ClassForm::MonitorsFor { field, owned } => {
                self.add_monitors_for(alloc, home, at, field, owned.as_slice())
            }
        }
    }

    /// Adds the clauses of a member.
    #[tactic(auto, using(crate::proofs::Adding::one_clause, crate::proofs::Adding::no_clause))]
    fn add_member<'a>(
        &mut self,
        alloc: Global,
        home: &ClassHome<'a, '_>,
        member: &MadeMember<'a>,
    ) -> Result<(), Fail>
        ensures { Moves view_written (and_clauses (view_written self.old) (spec.member_clauses (setting_of self.old.places home.now.names.now.names) home.now.mode home.now.own (view_member member.now))) result self.new }
    {
        match member {
            MadeMember::Fields(modifiers, _) => modifiers_stand(Holder::Other, modifiers),
            MadeMember::Method(method) => {
                let mode = mode_in(home.mode, method.source.modifiers.as_slice());
                let names = home.names;
                self.add_method(
                    alloc,
                    &Home {
                        names,
                        mode,
                        method,
                    },
                )
            }
            MadeMember::Clause(clause) => self.add_of_class(alloc, home, clause),
        }
    }

    /// Adds the clauses of members, from the first to the last.
    fn add_members<'a>(
        &mut self,
        alloc: Global,
        home: &ClassHome<'a, '_>,
        all: &[MadeMember<'a>],
    ) -> Result<(), Fail>
        ensures { Moves view_written (and_clauses (view_written self.old) (gather (spec.member_clauses (setting_of self.old.places home.now.names.now.names) home.now.mode home.now.own) (map view_member all.now))) result self.new }
    {
        for member in all {
            self.add_member(alloc, home, member)?;
        }
        Ok(())
    }

    /// Adds the clauses of a class and its members. Clauses are meant as Java's arithmetic where nothing else is said.
    fn add_class<'a>(
        &mut self,
        alloc: Global,
        names: &Names<'a>,
        class: &MadeClass<'a>,
    ) -> Result<(), Fail>
        ensures { Moves view_written (and_clauses (view_written self.old) (spec.class_clauses (setting_of self.old.places names.now.names) (view_class class.now))) result self.new }
    {
        let modifiers = class.source.modifiers.as_slice();
        modifiers_stand(Holder::Class, modifiers)?;
        let home = ClassHome {
            names,
            mode: mode_in(Mode::Java, modifiers),
            own: class.number,
        };
        self.add_members(alloc, &home, class.members.as_slice())
    }

    /// Adds the clauses of classes, from the first to the last.
    fn add_classes<'a>(
        &mut self,
        alloc: Global,
        names: &Names<'a>,
        all: &[MadeClass<'a>],
    ) -> Result<(), Fail>
        ensures { Moves view_written (and_clauses (view_written self.old) (gather (spec.class_clauses (setting_of self.old.places names.now.names)) (map view_class all.now))) result self.new }
    {
        for class in all {
            self.add_class(alloc, names, class)?;
        }
        Ok(())
    }
}

/// The clauses of a source in source order, each judged by the rules of clauses (JML Reference Manual, "Type
/// Specifications", "Method Specifications"); or the refusal of the first rule that a clause or a modifier breaks. Their
/// places are those of the bytes of that source.
#[tactic(auto, using(crate::proofs::Adding::all_clauses, crate::proofs::Adding::clauses_fail), unfolding(jr_typing_rules::specs::Specifications::clauses))]
pub fn clauses<'a>(
    alloc: Global,
    places: Places<'_>,
    names: &Names<'a>,
    classes: &[MadeClass<'a>],
) -> Result<Items<TypedSpec>, Fail>
    ensures { Answers (map view_clause) (spec.clauses (setting_of places.entry names.now.names) (map view_class classes.now)) result }
{
    let mut written = Written {
        places,
        clauses: Items::new(alloc),
    };
    written.add_classes(alloc, names, classes)?;
    Ok(written.clauses)
}
