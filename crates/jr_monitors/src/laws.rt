//! Laws of what is kept of a thread that waits, each a function with no work to do: its contract is the law.

ghost use Rattle.std.specs.Prelude.{ℕ, ◌≡◌, List, [], Some};
ghost use Rattle.jr_base.specs.Deed.{Wait, TimedWait, Resume};
ghost use Rattle.jr_base.specs.declared.number.ObjId.{ObjId};
ghost use Rattle.jr_base.specs.declared.number.GuestNo.{GuestNo};
ghost use Rattle.jr_base.specs.declared.action.Reply.TheVariants.{Unit};
ghost use Rattle.jr_program.specs.Programs.{Program};
ghost use Rattle.jr_meaning.specs.Event.{Event};
ghost use Rattle.jr_meaning.specs.History.{replies_of, world_from};
ghost use Rattle.jr_meaning.specs.Machine.{after};
ghost use Rattle.jr_meaning.specs.World.{World};

/// A Resume gives back the depth that the Wait took, whatever other threads do and whoever wakes in between
/// (JLS 17.2.1).
pub fn depths_are_given_back()
    ensures wait { (program : Program) (world : World) (g : GuestNo) (object : ObjId) (depth : ℕ) (h : List Event) →
        (world.monitors object).hold ≡ Some (record { guest = g; depth = depth }) → replies_of g h ≡ [] →
        ((after program (world_from program (after program world g (Wait object) Unit) h) g (Resume object) Unit).monitors object).hold ≡ Some (record { guest = g; depth = depth }) }
    ensures timed_wait { (program : Program) (world : World) (g : GuestNo) (object : ObjId) (depth : ℕ) (h : List Event) →
        (world.monitors object).hold ≡ Some (record { guest = g; depth = depth }) → replies_of g h ≡ [] →
        ((after program (world_from program (after program world g (TimedWait object) Unit) h) g (Resume object) Unit).monitors object).hold ≡ Some (record { guest = g; depth = depth }) }
{}
