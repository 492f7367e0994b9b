//! How many fields a class has.

ghost use Rattle.std.specs.Prelude.{◌≡◌, IfOk};
ghost use Rattle.jr_names.specs.Tables.{count_in, and_one};

use jr_base::Memory;

/// How many fields of a class are static, and how many are not.
#[derive(Clone, Copy, Debug, PartialEq, Eq)]
pub struct Counts {
    pub statics: u32,
    pub others: u32,
}

impl Counts {
    /// How many are static, or how many are not.
    pub fn count(self, is_static: bool) -> u32
        ensures { result ≡ count_in is_static self }
    {
        if is_static { self.statics } else { self.others }
    }

    /// The counts with one field more.
    pub fn and_one(self, is_static: bool) -> Result<Counts, Memory>
        ensures { IfOk result (λ more. more ≡ and_one is_static self) }
    {
        let next = self.count(is_static).checked_add(1).ok_or(Memory)?;
        Ok(if is_static {
            Counts {
                statics: next,
                others: self.others,
            }
        } else {
            Counts {
                statics: self.statics,
                others: next,
            }
        })
    }
}
