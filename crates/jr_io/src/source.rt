//! Sources of bytes, and a source read to its end.

ghost use Rattle.std.specs.Prelude.{◌≡◌, ◌≢◌, ◌↔◌, ℕ, ◌+◌, ◌<◌, ◌≤◌, Bool, List, Option, length, is_ok, IfOk, IsErrOf, IfSome, vec_len};
ghost use Rattle.jr_io.specs.Faults.{Rose};
ghost use Rattle.jr_io.specs.Reads.{GivesAtMost, TakesBytes, taken_by, answers_end, CountsReadFault, TookFront, GaveAll};

use std::alloc::Global;
use thiserror::Error;

/// What one read gave.
#[derive(Clone, Copy, Debug, PartialEq, Eq)]
pub enum ReadOut {
    /// So many bytes, at the front of the slice. None into a slice that has room is the end of input.
    Read(usize),
    /// The source met a fault, and nothing was taken.
    Failed,
}

/// What bytes are read from. A fault is counted where a read fails, and nowhere else.
pub trait Source {
    // The bytes that are left, where the source tells them.
    ghost left: { Self → Option (List ℕ) };

    // How many bytes were taken so far.
    ghost taken: { Self → ℕ };

    // Whether the last read answered the end of input.
    ghost ended: { Self → Bool };

    // How many faults the source met so far, up to the last value of a u64.
    ghost faults: { Self → ℕ };

    /// Reads some bytes into the front of `into`.
    fn read(&mut self, into: &mut [u8]) -> ReadOut
        ensures within { GivesAtMost result into.new }
        ensures bytes { TakesBytes (left self.old) (left self.new) result into.new }
        ensures taken { taken self.new ≡ taken self.old + taken_by result }
        ensures ended { ended self.new ≡ answers_end result (length into.new) }
        ensures never_falls { faults self.old ≤ faults self.new }
        ensures faults { CountsReadFault (faults self.old) (faults self.new) result };
}

/// Why a source was not read to its end.
#[derive(Clone, Copy, Debug, PartialEq, Eq, Error)]
pub enum ReadFail {
    #[error("the source cannot be read")]
    ReadFault,
    #[error("the source is too long")]
    TooLong,
    #[error("out of memory")]
    Memory,
}

// How many bytes one read asks for.
const READ_LENGTH: usize = 65_536;

/// Reads a source to its end.
///
/// `TooLong` comes as soon as more than `limit` bytes were read. After an error the bytes that were read
/// are lost.
pub fn read_all<S: Source>(alloc: Global, source: &mut S, limit: u32) -> Result<Vec<u8>, ReadFail>
    ensures bytes { IfOk result (λ bytes. GaveAll (S.left source.old) (S.left source.new) bytes.items) }
    ensures count { IfOk result (λ bytes. S.taken source.new ≡ S.taken source.old + vec_len bytes) }
    ensures within { IfOk result (λ bytes. vec_len bytes ≤ limit) }

    // The last read answered the end of input exactly where all was read.
    ensures ended { S.ended source.new ≡ is_ok result }

    ensures too_long { IsErrOf result ReadFail.TooLong ↔ (S.taken source.old + limit < S.taken source.new) }
    ensures too_long_told { IsErrOf result ReadFail.TooLong → IfSome (S.left source.old) (λ bytes. limit < length bytes) }

    // Only a fault of the source is reported as one, and none is passed over.
    ensures read_fault { IsErrOf result ReadFail.ReadFault → Rose (S.faults source.old) (S.faults source.new) }
    ensures no_fault { result ≢ Err ReadFail.ReadFault → S.faults source.new ≡ S.faults source.old }
    ensures never_falls { S.faults source.old ≤ S.faults source.new }

    // Whatever the answer, what was taken is the front of what was left.
    ensures front { TookFront (S.left source.old) (S.left source.new) (S.taken source.old) (S.taken source.new) }
{
    let mut bytes = Vec::new(alloc);
    let mut piece = [0u8; READ_LENGTH];
    loop {
        match source.read(&mut piece) {
            ReadOut::Failed => return Err(ReadFail::ReadFault),
            ReadOut::Read(0) => return Ok(bytes),
            ReadOut::Read(count) => {
                if count > limit as usize - bytes.len() {
                    return Err(ReadFail::TooLong);
                }
                if bytes.extend_from_slice(&piece[..count]).is_err() {
                    return Err(ReadFail::Memory);
                }
            }
        }
    }
}
