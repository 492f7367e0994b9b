//! Which calls the threads of a run have open.

ghost use Rattle.std.specs.Prelude.{◌≡◌, ◌≤◌, ◌<◌, List, ◌∷◌, [], ◌++◌, drop, length, slice_get};
ghost use Rattle.jr_base.specs.Deed.{deed_of};
ghost use Rattle.jr_base.specs.declared.action.Reply.{Reply as AnyReply};
ghost use Rattle.jr_base.specs.declared.number.MethodId.{MethodId as Method};
ghost use Rattle.jr_meaning.specs.Event.{Event, Step};
ghost use Rattle.jr_report.specs.OpenCalls.{Holds, AreOpen, FramesFit, open_methods};

use jr_base::{Action, GuestNo, MethodId};

/// As many calls a thread may have open.
const CALLS: usize = 256;

/// As many threads there may be.
const GUESTS: usize = 16;

/// The methods of the calls that one thread has open, the oldest first.
#[derive(Clone, Copy)]
pub struct CallStack {
    pub methods: [MethodId; CALLS],
    pub depth: usize,
}

impl CallStack {
    fn new() -> CallStack
        ensures { Holds [] result }
    {
        CallStack {
            methods: [MethodId(0); CALLS],
            depth: 0,
        }
    }

    fn push(&mut self, method: MethodId)
        ensures { (methods : List Method) → Holds methods self.old → length methods < 256 → Holds (method ∷ methods) self.new }
    {
        if self.depth < CALLS {
            self.methods[self.depth] = method;
            self.depth += 1;
        }
    }

    fn pop(&mut self)
        ensures { (methods : List Method) → Holds methods self.old → Holds (drop 1 methods) self.new }
    {
        self.depth = self.depth.saturating_sub(1);
    }

    fn newest(&self) -> Option<MethodId>
        ensures { (methods : List Method) → Holds methods self.now → result ≡ slice_get methods 0 }
    {
        if self.depth == 0 {
            return None;
        }
        self.methods.get(self.depth - 1).copied()
    }
}

/// The methods of the calls that each thread has open: room for as many as there may be.
#[derive(Clone, Copy)]
pub struct OpenCalls {
    pub guests: [CallStack; GUESTS],
}

impl OpenCalls {
    /// No calls.
    pub fn new() -> OpenCalls
        ensures { AreOpen [] result }
    {
        OpenCalls {
            guests: [CallStack::new(); GUESTS],
        }
    }

    /// A step opens a call, or closes the newest one of its thread, or does neither.
    pub fn pass(&mut self, guest: GuestNo, action: &Action)
        ensures { (h : List Event) (reply : AnyReply) → AreOpen h self.old → FramesFit (h ++ Step guest (deed_of action.now) reply ∷ [])
            → AreOpen (h ++ Step guest (deed_of action.now) reply ∷ []) self.new }
    {
        if guest.0 == 0 || guest.0 > GUESTS as u32 {
            return;
        }
        let at = guest.0 as usize - 1;
        match action {
            Action::Call { method, .. } => self.guests[at].push(*method),
            Action::Leave { .. } => self.guests[at].pop(),
            _ => {}
        }
    }

    /// The method of the newest call that a thread has open.
    pub fn newest(&self, guest: GuestNo) -> Option<MethodId>
        ensures { (h : List Event) → AreOpen h self.now → 1 ≤ guest.0 → guest.0 ≤ 16 → result ≡ slice_get (open_methods h guest) 0 }
    {
        match guest.0 {
            1..=16 => self.guests[guest.0 as usize - 1].newest(),
            _ => None,
        }
    }
}
