//! A call that hasn't been left.

ghost use Rattle.std.specs.Prelude.{◌≡◌, ◌<◌, ◌+◌, ◌^◌, ◌∷◌};
ghost use Rattle.jr_code.specs.Machine.{stack_frame};
ghost use Rattle.jr_thread_machine.specs.Frames.{frame_of};

use crate::locals::Locals;
use crate::slot::Slot;
use crate::stack::Stack;
use jr_base::{MethodId, ObjId};
use std::alloc::Global;

/// A call that hasn't been left: its method and its `this`, the place of the instruction that it is at, its operands and
/// its locals.
#[derive(Drop)]
pub(crate) struct Frame {
    pub(crate) method: MethodId,
    pub(crate) this: Option<ObjId>,
    pub(crate) at: u32,
    pub(crate) stack: Stack,
    pub(crate) locals: Locals,
}

impl Frame {
    /// A frame of no call, with no room. Takes no memory.
    pub(crate) fn new(alloc: Global) -> Frame {
        Frame {
            method: MethodId(0),
            this: None,
            at: 0,
            stack: Stack::new(alloc),
            locals: Locals::new(alloc),
        }
    }
}
