//! The typed program of a source.

ghost use Rattle.std.specs.Prelude.{◌≡◌, ◌<◌, length, map, IfOk, OnOk};
ghost use Rattle.jr_ast.specs.Units.{view_unit};
ghost use Rattle.jr_names.specs.Answered.{Answers};
ghost use Rattle.jr_program.specs.ClauseViews.{view_clause};
ghost use Rattle.jr_program.specs.UnitViews.{program_of, view_note};
ghost use Rattle.jr_program.specs.WellFormed.{IsNumbered};
ghost use Rattle.jr_safepoints.specs.Assembled.{assembled, view_assembly};
ghost use Rattle.jr_safepoints.specs.Whole.{position, MakesParts};
ghost use Rattle.jr_spec_typing.specs.Clauses.{setting_of};
ghost use Rattle.jr_typing.specs.MadeViews.{view_class, view_code};
ghost use Rattle.jr_typing_rules.specs.Notes as notes_of_rules;
ghost use Rattle.jr_typing_rules.specs.Specifications as spec;
ghost use Rattle.jr_typing_rules.specs.Whole.{typing};

use crate::assembly::Assembly;
use crate::owned::Owned;
use jr_ast::Unit;
use jr_base::{Fail, Memory, Places};
use jr_names::{Names, resolve};
use jr_program::{TypedNote, TypedSpec, TypedUnit, UnitParts};
use jr_spec_typing::{clauses, notes};
use jr_typing::{CodeMade, MadeClass, type_code};
use jr_typing_rules::laws::typed_is_well_formed;
use sqlite_items::Items;
use std::alloc::Global;

/// How many numbers of 32 bits there are.
const NUMBERS: usize = 4294967296;

/// The clauses of a source whose code is typed.
fn clauses_of<'a>(
    alloc: Global,
    source: &[u8],
    names: &Names<'a>,
    code: &CodeMade<'a>,
) -> Result<Items<TypedSpec>, Fail>
    requires { length source.now < 4294967295 }
    ensures { Answers (map view_clause) (spec.clauses (setting_of source.now names.now.names) (view_code code.now).made) result }
{
    clauses(alloc, Places::new(source), names, code.classes.as_slice())
}

/// The words of a source that are read and not judged.
fn notes_of(alloc: Global, source: &[u8], unit: &Unit) -> Result<Items<TypedNote>, Memory>
    requires { length source.now < 4294967295 }
    ensures { IfOk result (λ notes. map view_note notes ≡ notes_of_rules.notes (position source.now) (view_unit unit.now)) }
{
    notes(alloc, Places::new(source), unit)
}

/// The texts that a source prints, with memory of their own.
fn texts_of(alloc: Global, texts: &[&[u8]]) -> Result<Items<Items<u8>>, Memory>
    ensures { IfOk result (λ owned. owned ≡ map (λ t. t.now) texts.now) }
{
    let mut owned = Items::new(alloc);
    for text in texts {
        owned.push(Items::from_slice(alloc, text)?)?;
    }
    Ok(owned)
}

/// The classes, fields and methods of a program whose clauses are known.
fn assembly_of(
    alloc: Global,
    names: &Names<'_>,
    clauses: &Items<TypedSpec>,
    classes: Vec<MadeClass<'_>>,
) -> Result<Assembly, Fail>
    ensures { Answers view_assembly (assembled names.now.names (map view_clause clauses.now) (map view_class classes.entry.items)) result }
{
    below(clauses.len(), NUMBERS - 1)?;
    let owned = Owned::new(alloc, clauses.as_slice())?;
    let mut assembly = Assembly::new(alloc);
    assembly.add_classes(alloc, names, &owned, classes)?;
    Ok(assembly)
}

/// The parts of the typed program of a source, or the refusal of the first rule that it breaks.
#[tactic(auto, using(crate::proofs::Wholes::resolve_fails, crate::proofs::Wholes::code_fails, crate::proofs::Wholes::clauses_fail, crate::proofs::Wholes::sites_fail))]
fn parts_of(alloc: Global, source: &[u8], unit: &Unit) -> Result<UnitParts, Fail>
    requires { length source.now < 4294967295 }
    ensures { MakesParts source.now (view_unit unit.now) result }
{
    let names = resolve(alloc, unit)?;
    let code = type_code(alloc, &names, unit)?;
    let stated = clauses_of(alloc, source, &names, &code)?;
    let unjudged = notes_of(alloc, source, unit)?;
    let texts = texts_of(alloc, code.counts.texts.as_slice())?;
    let first = names.main();
    let assembly = assembly_of(alloc, &names, &stated, code.classes)?;
    Ok(UnitParts {
        classes: assembly.classes,
        fields: assembly.fields,
        methods: assembly.methods,
        clauses: stated,
        notes: unjudged,
        texts,
        main: first,
    })
}

/// That there are fewer than so many; else there is no memory for them.
fn below(count: usize, bound: usize) -> Result<(), Memory>
    ensures { OnOk result (count < bound) }
{
    if count < bound { Ok(()) } else { Err(Memory) }
}

/// That numbers have 32 bits.
#[tactic(auto, using(crate::proofs::Wholes::is_numbered))]
fn numbered(parts: &UnitParts) -> Result<(), Memory>
    ensures { OnOk result (IsNumbered (program_of parts.now)) }
{
    below(parts.classes.len(), NUMBERS - 1)?;
    below(parts.fields.len(), NUMBERS)?;
    below(parts.methods.len(), NUMBERS)?;
    below(parts.clauses.len(), NUMBERS - 1)?;
    below(parts.texts.len(), NUMBERS)
}

/// The typed program of a source, or the refusal of the first rule of names, types, clauses or sites that it breaks (JLS
/// 4 to 6, 8, 14, 15; JML Reference Manual). The unit is what that source parses to: places are lines and columns of its
/// bytes. A number past 32 bits is want of memory.
#[tactic(auto, using(crate::proofs::Wholes::fits, crate::proofs::Wholes::keeps, crate::proofs::Wholes::is_that))]
pub fn typed(alloc: Global, source: &[u8], unit: &Unit) -> Result<TypedUnit, Fail>
    requires { length source.now < 4294967295 }
    ensures { Answers program_of (typing (position source.now) (view_unit unit.now)) result }
{
    typed_is_well_formed();
    let parts = parts_of(alloc, source, unit)?;
    numbered(&parts)?;
    Ok(TypedUnit::new(alloc, parts)?)
}
