//! Tables of words.

ghost use Rattle.std.specs.Prelude.{◌≡◌};
ghost use Rattle.jr_unit_parser.specs.Grammar as grammar;
ghost use Rattle.jr_unit_parser.specs.Steps as steps;

use jr_ast::ModifierKind;
use jr_lexer::Kind;

/// The modifier of one word: of Java, or of JML in an annotation.
pub fn modifier_of(jml: bool, kind: Kind) -> Option<ModifierKind>
    ensures { result ≡ grammar.modifier_of jml kind }
{
    match kind {
        Kind::Public if !jml => Some(ModifierKind::Public),
        Kind::Private if !jml => Some(ModifierKind::Private),
        Kind::Protected if !jml => Some(ModifierKind::Protected),
        Kind::Static if !jml => Some(ModifierKind::Static),
        Kind::Final if !jml => Some(ModifierKind::Final),
        Kind::Synchronized if !jml => Some(ModifierKind::Synchronized),
        Kind::Volatile if !jml => Some(ModifierKind::Volatile),
        Kind::Pure if jml => Some(ModifierKind::Pure),
        Kind::Helper if jml => Some(ModifierKind::Helper),
        Kind::Atomic if jml => Some(ModifierKind::Atomic),
        Kind::Nullable if jml => Some(ModifierKind::Nullable),
        Kind::NonNull if jml => Some(ModifierKind::NonNull),
        Kind::SpecPublic if jml => Some(ModifierKind::SpecPublic),
        Kind::SpecProtected if jml => Some(ModifierKind::SpecProtected),
        Kind::SpecSafeMath if jml => Some(ModifierKind::SpecSafeMath),
        Kind::SpecJavaMath if jml => Some(ModifierKind::SpecJavaMath),
        _ => None,
    }
}

/// Whether a word begins a package or an import.
pub fn begins_import(kind: Kind) -> bool
    ensures { result ≡ grammar.begins_import kind }
{
    matches!(kind, Kind::Package | Kind::Import)
}

/// Whether a token stands behind a dot of a package or an import.
pub fn is_part(kind: Kind) -> bool
    ensures { result ≡ grammar.is_part kind }
{
    matches!(kind, Kind::Name | Kind::Star)
}

/// Whether a word of an annotation begins a clause of a method or constructor.
pub fn begins_method_clause(kind: Kind) -> bool
    ensures { result ≡ steps.begins_method_clause kind }
{
    matches!(
        kind,
        Kind::Requires
            | Kind::Ensures
            | Kind::When
            | Kind::Locks
            | Kind::Assignable
            | Kind::Modifies
    )
}

/// Whether a word of an annotation begins a clause of a class.
pub fn begins_class_clause(kind: Kind) -> bool
    ensures { result ≡ steps.begins_class_clause kind }
{
    matches!(
        kind,
        Kind::Public
            | Kind::Private
            | Kind::Protected
            | Kind::Static
            | Kind::Invariant
            | Kind::Constraint
            | Kind::MonitorsFor
    )
}
