//! How far a thread has come with what it does next.

use crate::flow::{Arguments, Left, Then};
use jr_base::{Action, Fault, MethodId, ObjId, Value};

/// How far a thread has come with what it does next.
#[derive(Debug, Drop)]
pub enum Stage {
    /// The innermost call runs.
    Runs,
    /// It runs, once the value is an operand of it.
    Takes(Value),
    /// An exception goes on to its regions, from that one on.
    Throws(Fault, u32),
    /// It is to call that method, on the object if there is one.
    Begins(MethodId, Option<ObjId>),
    /// It is to be left.
    Leaves(Left),
    /// It is to be made: the thread stands at its Call.
    Calls(Arguments),
    /// The thread stands at that action.
    Asks(Action, Then),
    /// The thread has ended.
    Over,
}
