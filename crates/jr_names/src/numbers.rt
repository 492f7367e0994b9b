//! The classes of a source by name.

ghost use Rattle.std.specs.Prelude.{◌≡◌, ℕ, List, [], ◌∷◌, ◌++◌, IfOk, OnOk};
ghost use Rattle.jr_base.specs.declared.number.ClassId.{ClassId as Number};
ghost use Rattle.jr_typing_rules.specs.Names.{named};
ghost use Rattle.jr_typing_rules.specs.Resolution as spec;
ghost use Rattle.jr_names.specs.Tables.{numbers_of, AreAlike};

use crate::table::Table;
use crate::words::is_reserved;
use jr_ast::{Class, Name};
use jr_base::{ClassId, Memory};
use std::alloc::Global;
use std::marker::Model;

/// The classes of a source, each with its number. A name that several classes have stands for the first of them.
///
/// Contracts see the list of all classes' names and numbers, in source order.
#[derive(Drop)]
pub struct Numbers<'a> {
    classes: &'a [Class],
    first: Table<'a, ClassId>,
}

impl<'a> Model for Numbers<'a> {
    ghost use Rattle.std.specs.Prelude.{ℕ, List};
    ghost use Rattle.jr_base.specs.declared.number.ClassId.{ClassId as Number};
    ghost use Rattle.jr_names.specs.Tables.{numbers_of, AreAlike};

    ghost Value = { List (List ℕ × Number) };

    ghost view = { λ n. numbers_of n.classes.now };

    ghost invariant = { λ n. AreAlike n.first (numbers_of n.classes.now) };
}

impl<'a> Numbers<'a> {
    /// The numbers of those classes.
    pub fn new(alloc: Global, classes: &'a [Class]) -> Result<Numbers<'a>, Memory>
        ensures { IfOk result (λ numbers. numbers ≡ numbers_of classes.now) }
    {
        let first = first_of_each(alloc, classes)?;
        Ok(Numbers { classes, first })
    }

    /// The number of the class of that name.
    pub fn get(&self, name: &[u8]) -> Option<ClassId>
        ensures { result ≡ named name.now self.now }
    {
        self.first.get(name).copied()
    }

    /// Whether the class of that number has a name that isn't reserved, and that no class before it has.
    pub fn has_own_name(&self, class: ClassId, name: &Name) -> bool
        ensures { result ≡ spec.has_own_name self.now class.0 name.now }
    {
        let text = name.text.as_slice();
        !is_reserved(text)
            && match self.get(text) {
                Some(first) => first.0 == class.0,
                None => false,
            }
    }
}

/// The first class of each name.
fn first_of_each<'a>(alloc: Global, classes: &'a [Class]) -> Result<Table<'a, ClassId>, Memory>
    ensures { IfOk result (λ first. AreAlike first (numbers_of classes.now)) }
{
    let mut first = Table::new(alloc);
    for (place, class) in classes.iter().enumerate() {
        note(&mut first, place, class)?;
    }
    Ok(first)
}

/// Notes the class at that place, if it is the first of its name.
fn note<'a>(first: &mut Table<'a, ClassId>, place: usize, class: &'a Class) -> Result<(), Memory>
    ensures { (all : List (List ℕ × Number)) → AreAlike first.old all → OnOk result (AreAlike first.new (all ++ (class.now.name.text, record { 0 = place }) ∷ [])) }
{
    let text = class.name.text.as_slice();
    if first.has(text) {
        return Ok(());
    }
    let number = number(place)?;
    first.put(text, ClassId(number))?;
    Ok(())
}

/// A place as a number: there is no memory for 2^32 of them.
pub fn number(place: usize) -> Result<u32, Memory>
    ensures { IfOk result (λ n. n ≡ place) }
{
    u32::try_from(place).map_err(|_| Memory)
}
