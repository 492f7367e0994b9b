//! Sinks for bytes, and a piece written whole.

ghost use Rattle.std.specs.Prelude.{◌≡◌, ℕ, ◌≤◌, List, Option};
ghost use Rattle.jr_io.specs.Writes.{TakesAtMost, TakesSome, AppendsTaken, CountsWriteFault, WritesPiece, CountsPieceFault};

/// What one write did.
#[derive(Clone, Copy, Debug, PartialEq, Eq)]
pub enum WriteOut {
    /// So many bytes, from the front of the slice, were written.
    Wrote(usize),
    /// The sink met a fault, and nothing was written.
    Failed,
}

/// What bytes are written to. A fault is counted where a write fails, and nowhere else.
pub trait Sink {
    // The bytes written so far, where the sink tells them.
    ghost written: { Self → Option (List ℕ) };

    // How many faults the sink met so far, up to the last value of a u64.
    ghost faults: { Self → ℕ };

    /// Writes some bytes from the front of `from`, at least one where it isn't empty.
    fn write(&mut self, from: &[u8]) -> WriteOut
        ensures within { TakesAtMost result from.now }
        ensures some { TakesSome result from.now }
        ensures bytes { AppendsTaken (written self.old) (written self.new) result from.now }
        ensures never_falls { faults self.old ≤ faults self.new }
        ensures faults { CountsWriteFault (faults self.old) (faults self.new) result };
}

/// How the writing of a piece ended.
#[derive(Clone, Copy, Debug, PartialEq, Eq)]
pub enum Piece {
    Whole,
    /// The sink met a fault, and only a prefix was written.
    WriteFault,
}

/// Writes a piece whole, in as many writes as the sink needs. Takes no memory.
pub fn write_piece<K: Sink>(sink: &mut K, piece: &[u8]) -> Piece
    ensures bytes { WritesPiece (K.written sink.old) (K.written sink.new) result piece.now }
    ensures never_falls { K.faults sink.old ≤ K.faults sink.new }
    ensures faults { CountsPieceFault (K.faults sink.old) (K.faults sink.new) result }
{
    let mut done = 0;
    while done < piece.len() {
        match sink.write(&piece[done..]) {
            WriteOut::Wrote(count) => done += count,
            WriteOut::Failed => return Piece::WriteFault,
        }
    }
    Piece::Whole
}
