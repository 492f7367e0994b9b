//! The coded form of an instruction.

/// An instruction: the number of its row, and its argument: 32 bits of a number, a place in a list of the
/// code, a local, or the place that a jump goes to.
#[derive(Clone, Copy, Debug, PartialEq, Eq)]
pub struct Instr {
    pub code: u8,
    pub arg: u32,
}
