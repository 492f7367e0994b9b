//! The fields of a class.

ghost use Rattle.std.specs.Prelude.{◌≡◌, []};
ghost use Rattle.jr_typing_rules.specs.Names.{named};
ghost use Rattle.jr_typing_rules.specs.Resolution.{and_entry, count_fields};
ghost use Rattle.jr_names.specs.Answered.{Moves};

use crate::counts::Counts;
use crate::table::Table;
use jr_ast::Name;
use jr_base::{ClassId, Fail, FieldId};
use jr_typing_rules::{FieldEntry, ValueType};
use std::alloc::Global;
use std::marker::Model;

/// The fields of a class by name, and how many of them are static and how many are not: so the slot of the next one
/// takes no walk.
///
/// Contracts see the list of the names and their fields.
#[derive(Drop)]
pub struct Fields<'a> {
    table: Table<'a, FieldEntry>,
    counts: Counts,
}

impl<'a> Model for Fields<'a> {
    ghost use Rattle.std.specs.Prelude.{ℕ, List};
    ghost use Rattle.jr_typing_rules.specs.declared.words.FieldEntry.{FieldEntry as Entry};
    ghost use Rattle.jr_names.specs.Tables.{CountsFields};

    ghost Value = { List (List ℕ × Entry) };

    ghost view = { λ f. f.table };

    ghost invariant = { λ f. CountsFields f.counts f.table };
}

impl<'a> Fields<'a> {
    /// No field. Takes no memory.
    pub fn new(alloc: Global) -> Fields<'a>
        ensures { result ≡ [] }
    {
        Fields {
            table: Table::new(alloc),
            counts: Counts {
                statics: 0,
                others: 0,
            },
        }
    }

    /// The field of that name.
    pub fn get(&self, name: &[u8]) -> Option<FieldEntry>
        ensures { result ≡ named name.now self.now }
    {
        self.table.get(name).copied()
    }

    /// Adds a field, whose slot is the next one among the static or among the other fields. Refused as `Duplicate` where
    /// its name is there already.
    #[tactic(auto, using(crate::proofs::Counting::entry_is_last, crate::proofs::Counting::counts_more))]
    pub fn add(
        &mut self,
        name: &'a Name,
        number: FieldId,
        class: ClassId,
        is_static: bool,
        of: ValueType,
    ) -> Result<(), Fail>
        ensures { Moves (λ fields. fields) (and_entry self.old name.now (record { number = number; class = class; is_static = is_static; slot = count_fields is_static self.old; of = of })) result self.new }
    {
        let slot = self.counts.count(is_static);
        let counts = self.counts.and_one(is_static)?;
        let entry = FieldEntry {
            number,
            class,
            is_static,
            slot,
            of,
        };
        self.table.add(name, entry)?;
        self.counts = counts;
        Ok(())
    }
}
