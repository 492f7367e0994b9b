//! Modifiers of JML (JML Reference Manual, "Modifiers").

ghost use Rattle.std.specs.Prelude.{◌≡◌};
ghost use Rattle.jr_names.specs.Answered.{Answers};
ghost use Rattle.jr_spec_typing.specs.Holders.{view_holder};
ghost use Rattle.jr_typing_rules.specs.Modifiers as spec;

use jr_ast::{Modifier, ModifierKind};
use jr_base::{Fail, Refusal};
use jr_program::Mode;

/// A declaration of which something is a modifier.
#[derive(Clone, Copy, Debug, PartialEq, Eq)]
pub enum Holder {
    Class,
    /// A method or constructor.
    Method,
    /// Fields or a formal.
    Other,
}

fn mode_of_kind(kind: ModifierKind) -> Option<Mode>
    ensures { result ≡ spec.mode_of_kind kind }
{
    match kind {
        ModifierKind::SpecSafeMath => Some(Mode::Safe),
        ModifierKind::SpecJavaMath => Some(Mode::Java),
        _ => None,
    }
}

fn first_of(before: Option<Mode>, later: Option<Mode>) -> Option<Mode>
    ensures { result ≡ spec.first_of before later }
{
    match before {
        Some(mode) => Some(mode),
        None => later,
    }
}

/// The first mode that modifiers say, if they say one (JML Reference Manual, "Arithmetic Modes").
#[tactic(auto, using(crate::proofs::Modes::said_next, crate::proofs::Modes::none_said))]
fn said_mode(modifiers: &[Modifier]) -> Option<Mode>
    ensures { result ≡ spec.said_mode modifiers.now }
{
    let mut said = None;
    for modifier in modifiers {
        said = first_of(said, mode_of_kind(modifier.kind));
    }
    said
}

/// The mode that modifiers say, else that of what stands around.
pub fn mode_in(around: Mode, modifiers: &[Modifier]) -> Mode
    ensures { result ≡ spec.mode_in around (spec.said_mode modifiers.now) }
{
    said_mode(modifiers).unwrap_or(around)
}

fn may_stand(holder: Holder, kind: ModifierKind) -> bool
    ensures { result ≡ spec.may_stand (view_holder holder) kind }
{
    match holder {
        Holder::Method => true,
        Holder::Class => !matches!(kind, ModifierKind::Helper | ModifierKind::Atomic),
        Holder::Other => !matches!(
            kind,
            ModifierKind::Helper
                | ModifierKind::Atomic
                | ModifierKind::SpecSafeMath
                | ModifierKind::SpecJavaMath
        ),
    }
}

fn differ(before: Option<Mode>, later: Option<Mode>) -> bool
    ensures { result ≡ spec.differ before later }
{
    matches!(
        (before, later),
        (Some(Mode::Safe), Some(Mode::Java)) | (Some(Mode::Java), Some(Mode::Safe))
    )
}

/// That modifiers may stand there. Refused is `NotHere` one that may not, and as `Duplicate` a mode behind the other one.
#[tactic(auto, using(crate::proofs::Placing::placed_next, crate::proofs::Placing::misplaced, crate::proofs::Placing::unclear, crate::proofs::Placing::all_placed), unfolding(jr_typing_rules::specs::Modifiers::modifiers_stand))]
pub fn modifiers_stand(holder: Holder, modifiers: &[Modifier]) -> Result<(), Fail>
    ensures { Answers (λ u. u) (spec.modifiers_stand (view_holder holder) modifiers.now) result }
{
    let mut before = None;
    for modifier in modifiers {
        if !may_stand(holder, modifier.kind) {
            return Err(Fail::Refused(Refusal::NotHere(modifier.place)));
        }
        let mode = mode_of_kind(modifier.kind);
        if differ(before, mode) {
            return Err(Fail::Refused(Refusal::Duplicate(modifier.place)));
        }
        before = first_of(before, mode);
    }
    Ok(())
}
