//! The calls that wait for another.

ghost use Rattle.std.specs.Prelude.{◌≡◌, ◌<◌, ◌≤◌, ◌∷◌, [], take, OnErr, OnOk, IfOk, MatchBool, length};
ghost use Rattle.jr_thread_machine.specs.Frames.{frame_of, without};
ghost use Rattle.jr_base.specs.Deed.{deed_of};
ghost use Rattle.jr_thread_machine.specs.Moves.{call_of};
ghost use Rattle.jr_thread_machine.specs.Calls.{HasBegun, HasEntered, IsKept};

use crate::flow::Arguments;
use crate::frame::Frame;
use crate::stack::Stack;
use jr_base::{Action, Memory, MethodId, ObjId};
use jr_code::MethodCode;
use std::alloc::{AllocError, Global};
use std::marker::Model;
use std::mem;

/// The calls that wait for another, with the frames of calls that were left, whose room serves later ones.
///
/// Contracts see those that wait, the innermost first.
#[derive(Drop)]
pub(crate) struct Callers {
    frames: Vec<Frame>,
    depth: usize,
}

impl Model for Callers {
    ghost use Rattle.std.specs.Prelude.{◌≤◌, List, map, reverse, take, length};
    ghost use Rattle.jr_code.specs.Machine.{StackFrame};
    ghost use Rattle.jr_thread_machine.specs.Frames.{frame_of};

    ghost Value = { List StackFrame };

    ghost view = { λ c. reverse (map frame_of (take c.depth c.frames.items)) };

    ghost invariant = { λ c. c.depth ≤ length c.frames.items };
}

impl Frame {
    /// Begins a call of a method, with the last operands of the caller as its arguments, and takes the room of its locals
    /// and of so many operands.
    pub(crate) fn begin(
        &mut self,
        method: MethodId,
        this: Option<ObjId>,
        callee: &MethodCode,
        room: usize,
        caller: &Stack,
    ) -> Result<Arguments, AllocError>
        ensures room { OnOk result (room ≤ self.new.stack.spare) }
        ensures begun { IfOk result (HasBegun method this callee.now caller.now.items (frame_of self.new)) }
    {
        self.method = method;
        self.this = this;
        self.at = 0;
        self.stack.clear();
        self.stack.reserve(room)?;
        self.locals.clear();
        let first = self.locals.push_this(callee.is_static, this)?;
        let formals = callee.formals.len();
        let passed = caller.last(formals as usize);
        self.locals.push_values(passed)?;
        self.locals.push_unset(callee.locals.as_slice(), first as usize + formals as usize)?;
        let count = passed.len() as u32;
        Ok(Arguments { first, count })
    }

    /// The Call of the method, which has these arguments.
    pub(crate) fn call(&self, alloc: Global, arguments: Arguments) -> Result<Action, Memory>
        ensures { IfOk result (λ action. deed_of action ≡ call_of arguments (frame_of self.now)) }
    {
        let args = self.locals.values(alloc, arguments.first, arguments.count)?;
        Ok(Action::Call {
            method: self.method,
            this: self.this,
            args,
        })
    }

    /// Takes the arguments of a call off, and the object that it is on.
    fn drop_arguments(&mut self, count: usize, this: Option<ObjId>)
        ensures { frame_of self.new ≡ without count this (frame_of self.old) }
    {
        self.stack.drop_last(count);
        if this.is_some() {
            let _object = self.stack.pop();
        }
    }
}

// Makes one frame more, where all are of calls that wait.
fn make_room(alloc: Global, frames: &mut Vec<Frame>, depth: usize) -> Result<(), AllocError>
    requires { depth ≤ length frames.old.items }
    ensures room { OnOk result (depth < length frames.new.items) }
    ensures within { depth ≤ length frames.new.items }
    ensures kept { take depth frames.new.items ≡ take depth frames.old.items }
{
    if depth == frames.len() {
        frames.push(Frame::new(alloc))?;
    }
    Ok(())
}

// Begins a call in the frame at a place, and lets it change places with the caller's.
fn switch(
    frames: &mut Vec<Frame>,
    at: usize,
    top: &mut Frame,
    method: MethodId,
    this: Option<ObjId>,
    callee: &MethodCode,
    room: usize,
) -> Result<Arguments, AllocError>
    requires { at < length frames.old.items }
    ensures ok { IfOk result (λ a. HasBegun method this callee.now top.old.stack.items (frame_of top.new) a) }
    ensures room { OnOk result (room ≤ top.new.stack.spare) }
    ensures frames { OnOk result (HasEntered at (without (length callee.now.formals.items) this (frame_of top.old)) frames.old.items frames.new.items) }
    ensures kept { IsKept at frames.old.items frames.new.items }
    ensures err { OnErr result (frame_of top.new ≡ frame_of top.old) }
{
    let frame = &mut frames[at];
    let arguments = frame.begin(method, this, callee, room, &top.stack)?;
    top.drop_arguments(callee.formals.as_slice().len(), this);
    mem::swap(top, frame);
    Ok(arguments)
}

impl Callers {
    /// No call. Takes no memory.
    pub(crate) fn new(alloc: Global) -> Callers
        ensures { result ≡ [] }
    {
        Callers {
            frames: Vec::new(alloc),
            depth: 0,
        }
    }

    /// Lets the innermost call wait for a call of that method, which begins with its last operands, and has room for so
    /// many of its own.
    pub(crate) fn enter(
        &mut self,
        alloc: Global,
        top: &mut Frame,
        method: MethodId,
        this: Option<ObjId>,
        callee: &MethodCode,
        room: usize,
    ) -> Result<Arguments, AllocError>
        ensures ok { IfOk result (HasBegun method this callee.now top.old.stack.items (frame_of top.new)) }
        ensures room { OnOk result (room ≤ top.new.stack.spare) }
        ensures callers { OnOk result (self.new ≡ without (length callee.now.formals.items) this (frame_of top.old) ∷ self.old) }
        ensures kept { OnErr result (self.new ≡ self.old) }
        ensures err { OnErr result (frame_of top.new ≡ frame_of top.old) }
    {
        make_room(alloc, &mut self.frames, self.depth)?;
        let arguments = switch(
            &mut self.frames,
            self.depth,
            top,
            method,
            this,
            callee,
            room,
        )?;
        self.depth += 1;
        Ok(arguments)
    }

    /// Goes back to the innermost call that waits, if there is one.
    pub(crate) fn leave(&mut self, top: &mut Frame) -> bool
        ensures { MatchBool result (self.old ≡ frame_of top.new ∷ self.new) ((self.old ≡ []) × (self.new ≡ [])) }
    {
        if self.depth == 0 {
            return false;
        }
        self.depth -= 1;
        let frame = &mut self.frames[self.depth];
        mem::swap(top, frame);
        true
    }
}
