//! The kinds of the operands at a place.

ghost use Rattle.std.specs.Prelude.{◌≡◌, ◌↔◌, ◌∷◌, [], IfOk, OnOk, MatchOption, IsTrue, reverse};
ghost use Rattle.jr_code.specs.Checked.{NoneCaught};
ghost use Rattle.jr_code.specs.Verifier.{Changes, HasChanged, HasTakenValues};

use jr_base::SlotKind;
use std::alloc::{AllocError, Global};
use std::marker::Model;

/// The kinds of operands, which contracts see as a list, topmost first.
#[derive(Drop)]
pub(crate) struct Kinds {
    kinds: Vec<SlotKind>,
}

impl Model for Kinds {
    ghost use Rattle.std.specs.Prelude.{List, reverse};
    ghost use Rattle.jr_base.specs.declared.kind.SlotKind.{SlotKind};

    ghost Value = { List SlotKind };

    ghost view = { λ k. reverse k.kinds.items };
}

impl Kinds {
    pub(crate) fn new(alloc: Global) -> Kinds
        ensures { result ≡ [] }
    {
        Kinds {
            kinds: Vec::new(alloc),
        }
    }

    pub(crate) fn push(&mut self, kind: SlotKind) -> Result<(), AllocError>
        ensures { OnOk result (self.new ≡ kind ∷ self.old) }
    {
        self.kinds.push(kind)?;
        Ok(())
    }

    pub(crate) fn pop(&mut self) -> Option<SlotKind>
        ensures { MatchOption result (self.old ≡ []) (λ kind. self.old ≡ kind ∷ self.new) }
    {
        self.kinds.pop()
    }

    /// Takes these kinds, topmost last, in place of those that it has.
    pub(crate) fn set(&mut self, kinds: &[SlotKind]) -> Result<(), AllocError>
        ensures { OnOk result (self.new ≡ reverse kinds.now) }
    {
        self.kinds.clear();
        self.kinds.extend_from_slice(kinds)?;
        Ok(())
    }

    /// The kinds, topmost last.
    pub(crate) fn as_slice(&self) -> &[SlotKind]
        ensures { reverse result.now ≡ self.now }
    {
        self.kinds.as_slice()
    }

    /// Whether these are the kinds, topmost last.
    pub(crate) fn are(&self, kinds: &[SlotKind]) -> bool
        ensures { IsTrue result ↔ (self.now ≡ reverse kinds.now) }
    {
        self.kinds.as_slice() == kinds
    }

    /// Takes operands of these kinds, topmost last, if they are there.
    pub(crate) fn take(&mut self, kinds: &[SlotKind]) -> bool
        ensures { HasChanged kinds.now None self.old self.new result }
    {
        if !self.kinds.as_slice().ends_with(kinds) {
            return false;
        }
        self.kinds.truncate(self.kinds.len() - kinds.len());
        true
    }

    /// Takes operands of these kinds, topmost last, if they are there, and gives one.
    pub(crate) fn change(&mut self, takes: &[SlotKind], gives: SlotKind) -> Result<bool, AllocError>
        ensures { IfOk result (HasChanged takes.now (Some gives) self.old self.new) }
    {
        if !self.take(takes) {
            return Ok(false);
        }
        self.push(gives)?;
        Ok(true)
    }

    /// Takes so many values, if they are there.
    pub(crate) fn take_values(&mut self, n: usize) -> bool
        ensures { HasTakenValues n self.old self.new result }
    {
        if n > self.kinds.len() {
            return false;
        }
        let rest = self.kinds.len() - n;
        if !are_values(&self.kinds[rest..]) {
            return false;
        }
        self.kinds.truncate(rest);
        true
    }
}

/// Whether none of the kinds is that of an exception.
pub(crate) fn are_values(kinds: &[SlotKind]) -> bool
    ensures { IsTrue result ↔ NoneCaught kinds.now }
{
    for kind in kinds {
        if *kind == SlotKind::Caught {
            return false;
        }
    }
    true
}
