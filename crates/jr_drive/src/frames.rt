//! The calls of the thread that haven't been left.

ghost use Rattle.std.specs.Prelude.{◌≡◌, [], ◌∷◌, ◌++◌, OnOk, OnErr, IfOk, length, drop, slice_get};
ghost use Rattle.std.specs.Option.{option_map};
ghost use Rattle.jr_base.specs.Deed.{deed_of};
ghost use Rattle.jr_meaning.specs.Frames.{frames_after};
ghost use Rattle.jr_drive.specs.OpenCalls.{frame_of};

use jr_base::{Action, Memory, MethodId, ObjId, Stamp, Value, Values};
use std::alloc::Global;
use std::marker::Model;

#[cfg(test)]
mod tests;

/// A call that hasn't been left: its method, receiver and arguments, and its step.
#[derive(Drop)]
pub struct OpenCall {
    pub method: MethodId,
    pub this: Option<ObjId>,
    pub arguments: Values,
    pub call: Stamp,
}

/// The frames of a thread. A call that is left leaves its room to the next one, so that calls take memory only where
/// they go deeper, or have more arguments, than any before.
///
/// Contracts see the frames as plain data, the newest first.
#[derive(Drop)]
pub struct Frames {
    open: Vec<OpenCall>,
    idle: Vec<Values>,
}

impl Model for Frames {
    ghost use Rattle.std.specs.Prelude.{◌<◌, ◌^◌, List, length};
    ghost use Rattle.jr_meaning.specs.Frames.{Frame};
    ghost use Rattle.jr_drive.specs.OpenCalls.{frames_open};

    ghost Value = { List Frame };

    ghost view = { λ f. frames_open f.open.items };

    ghost invariant = { λ f. length f.open.items < 2 ^ 32 };
}

impl Frames {
    /// No frame. Takes no memory.
    pub fn new(alloc: Global) -> Frames
        ensures { result ≡ [] }
    {
        Frames {
            open: Vec::new(alloc),
            idle: Vec::new(alloc),
        }
    }

    /// How many frames there are.
    pub fn len(&self) -> u32
        ensures { result ≡ length self.now }
    {
        self.open.len() as u32
    }

    /// The newest frame, if there is one.
    pub fn newest(&self) -> Option<&OpenCall>
        ensures { option_map (λ call. frame_of call.now) result ≡ slice_get self.now 0 }
    {
        self.open.last()
    }

    /// Goes on with a step of the thread: a Call opens a frame, and a Leave closes the newest. `Memory` leaves the
    /// frames as they are.
    pub fn step(&mut self, alloc: Global, action: &Action, step: Stamp) -> Result<(), Memory>
        ensures after { OnOk result (self.new ≡ frames_after step.0 self.old (deed_of action.now)) }
        ensures memory { OnErr result (self.new ≡ self.old) }
    {
        match action {
            Action::Call { method, this, args } => {
                let arguments = self.filled(alloc, args)?;
                self.open_call(OpenCall {
                    method: *method,
                    this: *this,
                    arguments,
                    call: step,
                })
            }
            Action::Leave { .. } => self.close_newest(),
            _ => Ok(()),
        }
    }

    // A list of the same values, in room that a call has left where there is some.
    fn filled(&mut self, alloc: Global, values: &Values) -> Result<Values, Memory>
        ensures filled { IfOk result (λ filled. filled.items ≡ values.now.items) }
        ensures same { self.new ≡ self.old }
    {
        let mut filled = self.idle.pop().unwrap_or(Values::new(alloc));
        filled.clear();
        append(&mut filled, values.as_slice())?;
        Ok(filled)
    }

    fn open_call(&mut self, call: OpenCall) -> Result<(), Memory>
        ensures opened { OnOk result (self.new ≡ frame_of call ∷ self.old) }
        ensures memory { OnErr result (self.new ≡ self.old) }
    {
        if self.open.len() >= u32::MAX as usize {
            return Err(Memory);
        }
        self.open.push(call)?;
        Ok(())
    }

    // The room of its arguments is kept.
    fn close_newest(&mut self) -> Result<(), Memory>
        ensures closed { OnOk result (self.new ≡ drop 1 self.old) }
        ensures memory { OnErr result (self.new ≡ self.old) }
    {
        self.idle.reserve(1)?;
        if let Some(call) = self.open.pop() {
            let OpenCall { arguments, .. } = call;
            self.idle.push_reserved(arguments);
        }
        Ok(())
    }
}

/// Adds values to a list. `Memory` leaves it as it was.
pub fn append(list: &mut Values, values: &[Value]) -> Result<(), Memory>
    ensures added { OnOk result (list.new.items ≡ list.old.items ++ values.now) }
    ensures memory { OnErr result (list.new.items ≡ list.old.items) }
{
    let Ok(room) = u32::try_from(values.len()) else {
        return Err(Memory);
    };
    list.reserve(room)?;
    for value in values {
        list.push(*value);
    }
    Ok(())
}
