//! The words of JML that are read and not judged.

ghost use Rattle.std.specs.Prelude.{◌≡◌, map, IfOk, OnOk};
ghost use Rattle.std.specs.List.{flat_map};
ghost use Rattle.jr_ast.specs.Units as trees;
ghost use Rattle.jr_ast.specs.Clauses.{view_method_clause};
ghost use Rattle.jr_spec_typing.specs.Noted.{and_words, notes_in, view_noted};
ghost use Rattle.jr_program.specs.UnitViews.{view_note};
ghost use Rattle.jr_typing_rules.specs.Notes as spec;

use jr_ast::{
    Class, Formal, Member, Method, MethodClause, MethodForm, Modifier, ModifierKind, Unit,
};
use jr_base::{Memory, Places, Span};
use jr_program::TypedNote;
use sqlite_items::Items;
use std::alloc::Global;

/// The notes of a source so far, in source order, and the lines and columns of that source.
#[derive(Drop)]
pub struct Noted<'s> {
    pub places: Places<'s>,
    pub notes: Items<TypedNote>,
}

impl<'s> Noted<'s> {
    /// Adds a word, which stands there.
    fn add(&mut self, alloc: Global, word: &[u8], at: Span) -> Result<(), Memory>
        ensures { OnOk result (view_noted self.new ≡ and_words (view_noted self.old) (spec.unjudged word.now at)) }
    {
        let place = self.places.find(at.start);
        let word = Items::from_slice(alloc, word)?;
        self.notes.push(TypedNote { word, place })?;
        Ok(())
    }

    /// Adds a modifier, if it is one that is not judged.
    #[tactic(auto, using(crate::proofs::Noting::no_word))]
    fn add_modifier(&mut self, alloc: Global, modifier: &Modifier) -> Result<(), Memory>
        ensures { OnOk result (view_noted self.new ≡ and_words (view_noted self.old) (spec.in_modifier modifier.now.place modifier.now.kind)) }
    {
        let at = modifier.place;
        match modifier.kind {
            ModifierKind::Pure => self.add(alloc, b"pure".as_slice(), at),
            ModifierKind::Nullable => self.add(alloc, b"nullable".as_slice(), at),
            ModifierKind::NonNull => self.add(alloc, b"non_null".as_slice(), at),
            ModifierKind::SpecPublic => self.add(alloc, b"spec_public".as_slice(), at),
            ModifierKind::SpecProtected => self.add(alloc, b"spec_protected".as_slice(), at),
            _ => Ok(()),
        }
    }

    /// Adds a clause, if it is one that is not judged.
    #[tactic(auto, using(crate::proofs::Noting::no_word))]
    fn add_clause(&mut self, alloc: Global, clause: &MethodClause) -> Result<(), Memory>
        ensures { OnOk result (view_noted self.new ≡ and_words (view_noted self.old) (spec.in_clause (view_method_clause clause.now))) }
    {
        let at = clause.place;
        match &clause.form {
            MethodForm::Assignable => self.add(alloc, b"assignable".as_slice(), at),
            MethodForm::Modifies => self.add(alloc, b"modifies".as_slice(), at),
            MethodForm::Requires(_)
            | MethodForm::Ensures(_)
            | MethodForm::When(_)
            | MethodForm::Locks(_) => Ok(()),
        }
    }

    #[tactic(auto, using(crate::proofs::Noting::modifiers_next))]
    fn add_modifiers(&mut self, alloc: Global, all: &[Modifier]) -> Result<(), Memory>
        ensures { OnOk result (view_noted self.new ≡ and_words (view_noted self.old) (spec.in_modifiers all.now)) }
    {
        for modifier in all {
            self.add_modifier(alloc, modifier)?;
        }
        Ok(())
    }

    fn add_clauses(&mut self, alloc: Global, all: &[MethodClause]) -> Result<(), Memory>
        ensures { OnOk result (view_noted self.new ≡ and_words (view_noted self.old) (flat_map spec.in_clause (map view_method_clause all.now))) }
    {
        for clause in all {
            self.add_clause(alloc, clause)?;
        }
        Ok(())
    }

    fn add_formals(&mut self, alloc: Global, all: &[Formal]) -> Result<(), Memory>
        ensures { OnOk result (view_noted self.new ≡ and_words (view_noted self.old) (flat_map spec.in_formal all.now)) }
    {
        for formal in all {
            self.add_modifiers(alloc, formal.modifiers.as_slice())?;
        }
        Ok(())
    }

    #[tactic(auto, using(crate::proofs::Noting::words_joined))]
    fn add_method(&mut self, alloc: Global, method: &Method) -> Result<(), Memory>
        ensures { OnOk result (view_noted self.new ≡ and_words (view_noted self.old) (spec.in_method (trees.view_method method.now))) }
    {
        self.add_clauses(alloc, method.clauses.as_slice())?;
        self.add_modifiers(alloc, method.modifiers.as_slice())?;
        self.add_formals(alloc, method.formals.as_slice())
    }

    #[tactic(auto, using(crate::proofs::Noting::no_word))]
    fn add_member(&mut self, alloc: Global, member: &Member) -> Result<(), Memory>
        ensures { OnOk result (view_noted self.new ≡ and_words (view_noted self.old) (spec.in_member (trees.view_member member.now))) }
    {
        match member {
            Member::Field(field) => self.add_modifiers(alloc, field.modifiers.as_slice()),
            Member::Method(method) => self.add_method(alloc, method),
            Member::Empty | Member::Clause(_) => Ok(()),
        }
    }

    fn add_members(&mut self, alloc: Global, all: &[Member]) -> Result<(), Memory>
        ensures { OnOk result (view_noted self.new ≡ and_words (view_noted self.old) (flat_map spec.in_member (map trees.view_member all.now))) }
    {
        for member in all {
            self.add_member(alloc, member)?;
        }
        Ok(())
    }

    #[tactic(auto, using(crate::proofs::Noting::words_joined))]
    fn add_class(&mut self, alloc: Global, class: &Class) -> Result<(), Memory>
        ensures { OnOk result (view_noted self.new ≡ and_words (view_noted self.old) (spec.in_class (trees.view_class class.now))) }
    {
        self.add_modifiers(alloc, class.modifiers.as_slice())?;
        self.add_members(alloc, class.members.as_slice())
    }

    fn add_classes(&mut self, alloc: Global, all: &[Class]) -> Result<(), Memory>
        ensures { OnOk result (view_noted self.new ≡ and_words (view_noted self.old) (flat_map spec.in_class (map trees.view_class all.now))) }
    {
        for class in all {
            self.add_class(alloc, class)?;
        }
        Ok(())
    }
}

/// The words of JML that are read and not judged, in source order: `assignable` and `modifies`, and the modifiers `pure`,
/// `nullable`, `non_null`, `spec_public` and `spec_protected` (JML Reference Manual, "Assignable Clauses", "Modifiers").
/// Their places are those of the bytes of that source.
pub fn notes(alloc: Global, places: Places<'_>, unit: &Unit) -> Result<Items<TypedNote>, Memory>
    ensures { IfOk result (λ notes. map view_note notes ≡ notes_in places.entry (trees.view_unit unit.now)) }
{
    let mut noted = Noted {
        places,
        notes: Items::new(alloc),
    };
    noted.add_classes(alloc, unit.classes.as_slice())?;
    Ok(noted.notes)
}
