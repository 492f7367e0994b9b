//! The monitor steps of two programs, by hand.

ghost use Rattle.std.specs.Prelude.{◌≡◌, IsTrue};
ghost use Rattle.jr_base.specs.Deed.{deed_of};
ghost use Rattle.jr_meaning.specs.World.{is_live};
ghost use Rattle.jr_monitors.specs.Roster.{world_of, locks_in, hold_in, Fits, MayEnter, IsAwakeFor};

use super::*;
use jr_base::{EndHow, Fault, Way};
use std::test::Fail;

impl Monitors {
    // Whether a thread was started, and hasn't ended.
    fn is_live(&self, guest: GuestNo) -> bool
        ensures { result ≡ is_live (world_of self.now) guest }
    {
        match self.members.get(guest) {
            Some(member) => !member.ended,
            None => false,
        }
    }

    // Whether a thread keeps no depth, or takes that monitor back now.
    fn is_awake_for(&self, guest: GuestNo, action: &Action) -> bool
        ensures { IsTrue result → IsAwakeFor (world_of self.now) guest (deed_of action.now) }
    {
        match self.members.stay(guest) {
            Some(stay) => match action {
                Action::Resume(object) => *object == stay.object,
                _ => false,
            },
            None => true,
        }
    }

    // Whether a step stays within what may be owned and started.
    fn fits(&self, guest: GuestNo, action: &Action) -> bool
        ensures { IsTrue result → Fits self.now guest (deed_of action.now) }
    {
        match action {
            Action::Enter(object, _) => self.fits_enter(guest, *object),
            Action::Resume(_) => self.owned.locks(guest).as_slice().len() < 64,
            Action::Start(_) => self.members.as_slice().len() < 16,
            _ => true,
        }
    }

    // Whether a thread may own a monitor once more.
    fn fits_enter(&self, guest: GuestNo, object: ObjId) -> bool
        ensures { IsTrue result → MayEnter (locks_in self.now guest) (hold_in self.now.owned.owners object) }
    {
        match self.owned.owner(object) {
            Some(owner) => owner.depth < u32::MAX,
            None => self.owned.locks(guest).as_slice().len() < 64,
        }
    }

    // Makes a step, if it may be made.
    fn made(&mut self, guest: GuestNo, action: &Action) -> Result<Option<Reply>, Memory> {
        self.reserve(1)?;
        if !self.is_live(guest) || !self.ready(guest, action) {
            return Ok(None);
        }
        if !self.is_awake_for(guest, action) || !self.fits(guest, action) {
            return Ok(None);
        }
        Ok(Some(self.apply(guest, action, 0)))
    }
}

const LOCK: ObjId = ObjId(2);

const OTHER: ObjId = ObjId(3);

const THREAD: ObjId = ObjId(4);

// A monitor that is held three times is free while its owner waits, and is held three times again after it.
#[test]
fn waits_with_a_monitor_held_three_times(rt: HostRuntime) -> Result<(), Fail> {
    let mut monitors = Monitors::new(rt.alloc())?;
    for (guest, action, reply) in [
        (1, Action::Enter(LOCK, Way::Block), Some(Reply::Unit)),
        (1, Action::Enter(LOCK, Way::Block), Some(Reply::Unit)),
        (1, Action::Enter(LOCK, Way::Block), Some(Reply::Unit)),
        (
            1,
            Action::Start(THREAD),
            Some(Reply::Started(GuestNo(2), None)),
        ),
        (2, Action::Enter(LOCK, Way::Block), None),
        (1, Action::Wait(LOCK), Some(Reply::Unit)),
        (1, Action::Resume(LOCK), None),
        (2, Action::Enter(LOCK, Way::Block), Some(Reply::Unit)),
        (2, Action::Notify(LOCK), Some(Reply::Woke(GuestNo(1)))),
        (1, Action::Resume(LOCK), None),
        (2, Action::Exit(LOCK), Some(Reply::Unit)),
        (1, Action::Resume(LOCK), Some(Reply::Unit)),
        (1, Action::Exit(LOCK), Some(Reply::Unit)),
        (1, Action::Exit(LOCK), Some(Reply::Unit)),
        (2, Action::Enter(LOCK, Way::Block), None),
        (1, Action::Exit(LOCK), Some(Reply::Unit)),
        (2, Action::Enter(LOCK, Way::Block), Some(Reply::Unit)),
    ] {
        assert_eq!(rt;
            monitors.made(GuestNo(guest), &action)?,
            reply,
            "{guest} {action:?}"
        );
    }
    Ok(())
}

// Only the owner may notify; the monitor that the thread did own is free once it has ended.
#[test]
fn notifies_without_the_monitor(rt: HostRuntime) -> Result<(), Fail> {
    let mut monitors = Monitors::new(rt.alloc())?;
    for (guest, action, reply) in [
        (
            1,
            Action::Start(THREAD),
            Some(Reply::Started(GuestNo(2), None)),
        ),
        (1, Action::Join(THREAD), None),
        (2, Action::Enter(LOCK, Way::Block), Some(Reply::Unit)),
        (2, Action::Notify(OTHER), Some(Reply::Illegal)),
        (2, Action::Exit(LOCK), Some(Reply::Unit)),
        (
            2,
            Action::End(EndHow::Uncaught(Fault::IllegalMonitorStateException)),
            Some(Reply::Unit),
        ),
        (1, Action::Join(THREAD), Some(Reply::Unit)),
        (1, Action::Enter(LOCK, Way::Block), Some(Reply::Unit)),
        (1, Action::Exit(LOCK), Some(Reply::Unit)),
    ] {
        assert_eq!(rt;
            monitors.made(GuestNo(guest), &action)?,
            reply,
            "{guest} {action:?}"
        );
    }
    Ok(())
}
