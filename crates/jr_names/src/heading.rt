//! What stands before the body of a method.

ghost use Rattle.std.specs.Prelude.{◌≡◌, [], Err};
ghost use Rattle.jr_base.specs.declared.refusal.Fail.TheVariants as fails;
ghost use Rattle.jr_ast.specs.Units.{view_method};
ghost use Rattle.jr_typing_rules.specs.Resolution as spec;
ghost use Rattle.jr_names.specs.Answered.{Answers};
ghost use Rattle.jr_names.specs.Tables.{names_alone};

use crate::modifiers::is_static;
use crate::numbers::Numbers;
use crate::table::Table;
use jr_ast::{ElementType, Formal, Method, MethodKind, TypeName};
use jr_base::Fail;
use jr_typing_rules::ValueType;
use sqlite_items::Items;
use std::alloc::Global;

fn is_string(of: &ElementType) -> bool
    ensures { result ≡ spec.is_string of.now }
{
    match of {
        ElementType::Class(name) => name.text.as_slice() == b"String".as_slice(),
        ElementType::Int | ElementType::Long | ElementType::Boolean => false,
    }
}

fn is_strings(of: &TypeName) -> bool
    ensures { result ≡ spec.is_strings of.now }
{
    match of {
        TypeName::ArrayOf(of) => is_string(of),
        TypeName::Single(_) => false,
    }
}

fn takes_strings(formals: &[Formal]) -> bool
    ensures { result ≡ spec.takes_strings formals.now }
{
    match formals {
        [formal] => is_strings(&formal.type_name),
        _ => false,
    }
}

/// Whether it is `void`.
pub fn is_void(kind: &MethodKind) -> bool
    ensures { result ≡ spec.is_void kind.now }
{
    matches!(kind, MethodKind::Void)
}

/// Whether it is `static void main` with one formal of type `String[]` (JLS 12.1.4).
#[tactic(auto, unfolding(jr_typing_rules::specs::Resolution::looks_like_main))]
pub fn looks_like_main(method: &Method) -> bool
    ensures { result ≡ spec.looks_like_main (view_method method.now) }
{
    method.name.text.as_slice() == b"main".as_slice()
        && is_void(&method.kind)
        && is_static(method.modifiers.as_slice())
        && takes_strings(method.formals.as_slice())
}

/// The type of a method's result, if it has one. Refused as `Unknown` where it names no type. Takes no memory.
pub fn result_type(numbers: &Numbers<'_>, kind: &MethodKind) -> Result<Option<ValueType>, Fail>
    ensures typed { Answers (λ t. t) (spec.result_type (names_alone numbers.now) kind.now) result }
    ensures memory { ¬ (result ≡ Err fails.Memory) }
{
    match kind {
        MethodKind::Valued(of) => Ok(Some(numbers.type_of(of)?)),
        MethodKind::Void | MethodKind::Constructor => Ok(None),
    }
}

/// The types of formals. Refused as `Unknown` where one names no type, and as `Duplicate` where one has the name of an
/// earlier one (JLS 8.4.1).
#[tactic(auto, using(crate::proofs::Formals::type_fails, crate::proofs::Formals::name_fails, crate::proofs::Formals::formal_goes_on, crate::proofs::Formals::no_formal_left, crate::proofs::Formals::first_of_all))]
fn distinct_formals(
    alloc: Global,
    numbers: &Numbers<'_>,
    formals: &[Formal],
) -> Result<Items<ValueType>, Fail>
    ensures { Answers (λ ts. ts) (spec.distinct_formals [] formals.now (names_alone numbers.now)) result }
{
    let mut before: Table<'_, ()> = Table::new(alloc);
    let mut types = Items::new(alloc);
    for formal in formals {
        let of = numbers.type_of(&formal.type_name)?;
        before.add(&formal.name, ())?;
        types.push(of)?;
    }
    Ok(types)
}

/// The types of a method's formals; that of `main` has none.
pub fn formal_types(
    alloc: Global,
    numbers: &Numbers<'_>,
    is_main: bool,
    formals: &[Formal],
) -> Result<Items<ValueType>, Fail>
    ensures { Answers (λ ts. ts) (spec.formal_types (names_alone numbers.now) is_main formals.now) result }
{
    if is_main {
        return Ok(Items::new(alloc));
    }
    distinct_formals(alloc, numbers, formals)
}
