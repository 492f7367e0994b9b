//! What a call comes to by its own instructions, and how it goes on after a reply.

use jr_base::{Action, Fault, MethodId, ObjId, Value};

/// How a call is left: with a value, if it has one, or by an exception.
#[derive(Clone, Copy, Debug, PartialEq, Eq)]
pub enum Left {
    Returns(Option<Value>),
    Fails(Fault),
}

/// Where the arguments of a call that begins stand among its locals.
#[derive(Clone, Copy, Debug, PartialEq, Eq)]
pub struct Arguments {
    pub first: u32,
    pub count: u32,
}

/// How a thread goes on once its action has a reply.
#[derive(Clone, Copy, Debug, PartialEq, Eq)]
pub enum Then {
    /// The call goes on where it is.
    Runs,
    /// The value that was read becomes an operand.
    Reads,
    /// The call goes on behind a write.
    Writes,
    /// The object that was made becomes an operand.
    Makes,
    /// The call goes on, but for an exception where the reply is Illegal.
    Unless(Fault),
    /// The monitor of the object is taken again, but for an exception where the reply is Illegal.
    Waits(ObjId),
    /// The exception goes on to the regions from that one on.
    Throws(Fault, u32),
    /// The call is made.
    Calls(Arguments),
    /// The monitor, if the call has one, is given back.
    Exits(Option<ObjId>, Left),
    /// The caller goes on.
    Hands(Left),
    /// The thread has ended.
    Ends,
}

/// Why a call doesn't go on by itself.
#[derive(Debug, Drop)]
pub(crate) enum Stop {
    Asks(Action, Then),
    Calls(MethodId, Option<ObjId>),
    Leaves(Left),
    /// There is no instruction, which checked code never comes to.
    Nothing,
}

/// What an instruction comes to.
#[derive(Debug, Drop)]
pub(crate) enum Flow {
    Goes,
    Throws(Fault),
    Stops(Stop),
}
