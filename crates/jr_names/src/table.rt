//! Tables by name.

ghost use Rattle.std.specs.Prelude.{◌≡◌, [], ◌∷◌, ◌++◌, None, is_some, OnOk, OnErr};
ghost use Rattle.std.specs.Option.{option_copied};
ghost use Rattle.jr_typing_rules.specs.Names.{named};
ghost use Rattle.jr_typing_rules.specs.Resolution.{and_entry};
ghost use Rattle.jr_names.specs.Answered.{Moves};

use indexmap::IndexMap;
use jr_ast::Name;
use jr_base::{Fail, Memory, Refusal};
use std::alloc::Global;
use std::marker::Model;

/// What names stand for, in the order in which they were added. A name is found in one step, whatever the number of
/// the others.
///
/// Contracts see the list of the names and what they stand for.
#[derive(Drop)]
pub struct Table<'a, A> {
    entries: IndexMap<&'a [u8], A>,
}

impl<'a, A> Model for Table<'a, A> {
    ghost use Rattle.std.specs.Prelude.{ℕ, List};
    ghost use Rattle.std.specs.Coded.{coded_list, coded_ℕ, coded×};
    ghost use Rattle.jr_names.specs.Tables.{entries_of};

    ghost Value = { List (List ℕ × A) };

    ghost coded = { coded_list (coded× (coded_list coded_ℕ) A.code) };

    ghost view = { λ t. entries_of t.entries.entries };
}

impl<'a, A> Table<'a, A> {
    /// A table without names. Takes no memory.
    pub fn new(alloc: Global) -> Table<'a, A>
        ensures { result ≡ [] }
    {
        Table {
            entries: IndexMap::new(alloc),
        }
    }

    /// What a name stands for.
    #[tactic(auto, using(crate::proofs::Entries::named_in_entries))]
    pub fn get(&self, name: &[u8]) -> Option<&A>
        ensures { option_copied result ≡ named name.now self.now }
    {
        self.entries.get(name)
    }

    /// Whether a name is there.
    #[tactic(auto, using(crate::proofs::Entries::named_in_entries))]
    pub fn has(&self, name: &[u8]) -> bool
        ensures { result ≡ is_some (named name.now self.now) }
    {
        self.entries.contains_key(name)
    }
}

impl<'a, A: Drop> Table<'a, A> {
    /// Adds a name that isn't there yet.
    #[tactic(auto, using(crate::proofs::Entries::entry_put))]
    pub fn put(&mut self, name: &'a [u8], entry: A) -> Result<(), Memory>
        requires { named name.now self.old ≡ None }
        ensures ok { OnOk result (self.new ≡ self.old ++ (name.now, entry) ∷ []) }
        ensures err { OnErr result (self.new ≡ self.old) }
    {
        self.entries.insert(name, entry)?;
        Ok(())
    }

    /// Adds a name, which is refused as `Duplicate` where it is there already.
    #[tactic(auto, using(crate::proofs::Entries::is_absent), unfolding(jr_typing_rules::specs::Resolution::and_entry))]
    pub fn add(&mut self, name: &'a Name, entry: A) -> Result<(), Fail>
        ensures added { Moves (λ table. table) (and_entry self.old name.now entry) result self.new }
        ensures err { OnErr result (self.new ≡ self.old) }
    {
        if self.has(name.text.as_slice()) {
            return Err(Fail::Refused(Refusal::Duplicate(name.place)));
        }
        self.put(name.text.as_slice(), entry)?;
        Ok(())
    }
}
