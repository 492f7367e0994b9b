//! What is kept of a thread.

ghost use Rattle.std.specs.Prelude.{◌≡◌, is_some, Some, option_map};
ghost use Rattle.jr_base.specs.Deed.{deed_of};
ghost use Rattle.jr_base.specs.declared.number.GuestNo.{GuestNo as Number};
ghost use Rattle.jr_monitors.specs.Roster.{deed_at, is_timed_stay, is_woken_on, parkable, waiter_of, waits_for, woken, woken_on};

use jr_base::{Action, GuestNo, ObjId, Way};

/// Who owns a monitor, and how often it has entered.
#[derive(Clone, Copy, Debug, PartialEq, Eq)]
pub struct Owner {
    pub guest: GuestNo,
    pub depth: u32,
}

/// How far a thread is between its Wait and its Resume (JLS 17.2.1).
#[derive(Clone, Copy, Debug, PartialEq, Eq)]
pub enum Stage {
    /// It is in the wait set.
    Waits,
    /// It is in the wait set for some time only.
    WaitsForTime,
    /// It has left the wait set.
    Woken,
}

/// What a thread keeps from its Wait to its Resume: the object, and how often it owned the monitor.
#[derive(Clone, Copy, Debug, PartialEq, Eq)]
pub struct Stay {
    pub object: ObjId,
    pub depth: u32,
    pub stage: Stage,
}

/// The action at which a thread was parked. All other actions are always ready.
#[derive(Clone, Copy, Debug, PartialEq, Eq)]
pub enum Parked {
    Enter(ObjId, Way),
    Resume(ObjId),
    Join(ObjId),
}

/// A thread that was started.
#[derive(Clone, Copy, Debug, Default, PartialEq, Eq)]
pub struct Member {
    /// Its Thread object, which main has not.
    pub object: Option<ObjId>,
    pub ended: bool,
    pub parked: Option<Parked>,
    pub stay: Option<Stay>,
}

impl Stay {
    /// The same stay, out of the wait set.
    pub fn woken(self) -> Stay
        ensures { result ≡ woken self }
    {
        Stay {
            stage: Stage::Woken,
            ..self
        }
    }

    /// Whether the thread is in the object's wait set.
    pub fn is_on(self, object: ObjId) -> bool
        ensures { (g : Number) → result ≡ is_some (waiter_of object g (Some self)) }
    {
        self.object == object && self.stage != Stage::Woken
    }
}

impl Member {
    /// Whether the thread is in the object's wait set.
    pub fn waits_on(&self, object: ObjId) -> bool
        ensures { (g : Number) → result ≡ is_some (waiter_of object g self.now.stay) }
    {
        match self.stay {
            Some(stay) => stay.is_on(object),
            None => false,
        }
    }

    /// The object in whose wait set the thread is, if it is in one.
    pub fn waits(&self) -> Option<ObjId>
        ensures { result ≡ waits_for self.now.stay }
    {
        match self.stay {
            Some(stay) if stay.stage != Stage::Woken => Some(stay.object),
            _ => None,
        }
    }

    /// Whether the thread is in a wait set for some time only.
    pub fn is_timed(&self) -> bool
        ensures { result ≡ is_timed_stay self.now.stay }
    {
        match self.stay {
            Some(stay) => stay.stage == Stage::WaitsForTime,
            None => false,
        }
    }

    /// Whether the thread was in the object's wait set, and has left it.
    pub fn is_woken_on(&self, object: ObjId) -> bool
        ensures { result ≡ is_woken_on object self.now.stay }
    {
        match self.stay {
            Some(stay) => stay.object == object && stay.stage == Stage::Woken,
            None => false,
        }
    }

    /// The same thread, out of the object's wait set.
    pub fn woken_on(&self, object: ObjId) -> Member
        ensures { result ≡ woken_on object self.now }
    {
        match self.stay {
            Some(stay) if stay.object == object => Member {
                stay: Some(stay.woken()),
                ..*self
            },
            _ => *self,
        }
    }
}

impl Parked {
    /// What a thread is parked at by this action; an action that is always ready parks nobody.
    pub fn at(action: &Action) -> Option<Parked>
        ensures { option_map deed_at result ≡ parkable (deed_of action.now) }
    {
        match action {
            Action::Enter(object, way) => Some(Parked::Enter(*object, *way)),
            Action::Resume(object) => Some(Parked::Resume(*object)),
            Action::Join(object) => Some(Parked::Join(*object)),
            _ => None,
        }
    }
}
