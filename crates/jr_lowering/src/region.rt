//! The regions of a method, inner ones first.

ghost use Rattle.std.specs.Prelude.{◌≡◌, [], ◌∷◌, ◌++◌, map, OnOk};
ghost use Rattle.jr_code.specs.Instructions.{CatchAt, ExitLocal};
ghost use Rattle.jr_code.specs.Views.{region_of};

use jr_base::{Fault, Memory, Reserved};
use jr_code::{Region, RegionKind};
use std::alloc::Global;
use std::marker::Model;

/// The regions of a method, as far as they are known.
#[derive(Drop)]
pub struct Regions {
    all: Reserved<Region>,
}

impl Model for Regions {
    ghost use Rattle.std.specs.Prelude.{List, map};
    ghost use Rattle.jr_code.specs.Instructions.{Region};
    ghost use Rattle.jr_code.specs.Views.{region_of};

    ghost Value = { List Region };

    ghost view = { λ r. map region_of r.all.items };
}

impl Regions {
    /// None so far.
    pub fn new(alloc: Global) -> Regions
        ensures { result ≡ [] }
    {
        Regions {
            all: Reserved::new(alloc),
        }
    }

    /// Adds a region.
    #[tactic(auto, using(crate::proofs::Emits::region_more))]
    fn put(&mut self, region: Region) -> Result<(), Memory>
        ensures { OnOk result (self.new ≡ self.old ++ region_of region ∷ []) }
    {
        self.all.reserve(1)?;
        self.all.push(region);
        Ok(())
    }

    /// Adds a catch, whose handler begins at the target.
    pub fn put_catch(
        &mut self,
        first: u32,
        past: u32,
        fault: Fault,
        target: u32,
    ) -> Result<(), Memory>
        ensures { OnOk result (self.new ≡ self.old ++ record { first = first; past = past; kind = CatchAt fault target } ∷ []) }
    {
        let kind = RegionKind::Catch(fault);
        self.put(Region {
            first,
            past,
            kind,
            target,
        })
    }

    /// Adds a monitor that is given back, of the object in that local.
    pub fn put_exit(&mut self, first: u32, past: u32, local: u32) -> Result<(), Memory>
        ensures { OnOk result (self.new ≡ self.old ++ record { first = first; past = past; kind = ExitLocal local } ∷ []) }
    {
        let kind = RegionKind::Exit(local);
        self.put(Region {
            first,
            past,
            kind,
            target: 0,
        })
    }

    /// The regions, in order.
    pub fn into_regions(self) -> Reserved<Region>
        ensures { map region_of result.items ≡ self }
    {
        self.all
    }
}
