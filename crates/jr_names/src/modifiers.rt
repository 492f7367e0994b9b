//! What modifiers say.

ghost use Rattle.std.specs.Prelude.{◌≡◌, length};
ghost use Rattle.jr_typing_rules.specs.Modifiers as spec;

use jr_ast::{Modifier, ModifierKind};

fn is_static_kind(kind: ModifierKind) -> bool
    ensures { result ≡ spec.is_static_kind kind }
{
    matches!(kind, ModifierKind::Static)
}

fn is_synchronized_kind(kind: ModifierKind) -> bool
    ensures { result ≡ spec.is_synchronized_kind kind }
{
    matches!(kind, ModifierKind::Synchronized)
}

fn is_volatile_kind(kind: ModifierKind) -> bool
    ensures { result ≡ spec.is_volatile_kind kind }
{
    matches!(kind, ModifierKind::Volatile)
}

fn is_helper_kind(kind: ModifierKind) -> bool
    ensures { result ≡ spec.is_helper_kind kind }
{
    matches!(kind, ModifierKind::Helper)
}

/// Whether `static` is among the modifiers (JLS 8.3.1.1, 8.4.3.2).
pub fn is_static(modifiers: &[Modifier]) -> bool
    ensures { result ≡ spec.has spec.is_static_kind modifiers.now }
{
    modifiers
        .iter()
        .any(|modifier| is_static_kind(modifier.kind))
}

/// Whether `synchronized` is among the modifiers (JLS 8.4.3.6).
pub fn is_synchronized(modifiers: &[Modifier]) -> bool
    ensures { result ≡ spec.has spec.is_synchronized_kind modifiers.now }
{
    modifiers
        .iter()
        .any(|modifier| is_synchronized_kind(modifier.kind))
}

/// Whether `volatile` is among the modifiers (JLS 8.3.1.4).
pub fn is_volatile(modifiers: &[Modifier]) -> bool
    ensures { result ≡ spec.has spec.is_volatile_kind modifiers.now }
{
    modifiers
        .iter()
        .any(|modifier| is_volatile_kind(modifier.kind))
}

/// Whether `helper` is among the modifiers (JML Reference Manual, "Helper").
pub fn is_helper(modifiers: &[Modifier]) -> bool
    ensures { result ≡ spec.has spec.is_helper_kind modifiers.now }
{
    modifiers
        .iter()
        .any(|modifier| is_helper_kind(modifier.kind))
}
