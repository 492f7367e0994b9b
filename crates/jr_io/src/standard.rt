//! A source and a sink over std's readers and writers, as standard input and standard output.

ghost use Rattle.std.specs.Prelude.{◌≡◌, ◌≤◌, [], false, IfOk};
ghost use Rattle.std.specs.Io.KnownBytes.{Keeps};
ghost use Rattle.jr_io.specs.Writes.{CountsPieceFault};

use crate::sink::{Piece, Sink, WriteOut};
use crate::source::{ReadOut, Source};
use jr_base::Memory;
use std::alloc::Global;
use std::io::{BufWriter, Read, Write};

/// A source over a reader of std. It tells as much of its bytes as the reader does: standard input tells
/// nothing.
///
/// Each error of the reader is a fault. A source that gave nearly 2^64 bytes fails before it would give
/// more.
#[derive(Drop)]
pub struct StdSource<R> {
    reader: R,
    taken: u64,
    faults: u64,
    ended: bool,
}

impl<R: Read> StdSource<R> {
    pub fn new(reader: R) -> Self
        ensures left { ⟦<StdSource<R> as Source>⟧.left result ≡ R.remaining reader }
        ensures taken { ⟦<StdSource<R> as Source>⟧.taken result ≡ 0 }
        ensures ended { ⟦<StdSource<R> as Source>⟧.ended result ≡ false }
        ensures faults { ⟦<StdSource<R> as Source>⟧.faults result ≡ 0 }
    {
        StdSource {
            reader,
            taken: 0,
            faults: 0,
            ended: false,
        }
    }
}

impl<R: Read> Source for StdSource<R> {
    ghost left = { λ s. R.remaining s.reader };

    ghost taken = { λ s. s.taken };

    ghost ended = { λ s. s.ended };

    ghost faults = { λ s. s.faults };

    fn read(&mut self, into: &mut [u8]) -> ReadOut {
        self.ended = false;
        if into.len() as u64 <= u64::MAX - self.taken {
            if let Ok(count) = self.reader.read(into) {
                self.taken += count as u64;
                self.ended = count == 0 && !into.is_empty();
                return ReadOut::Read(count);
            }
        }
        self.faults = self.faults.saturating_add(1);
        ReadOut::Failed
    }
}

/// A sink over a writer of std, with a buffer before it: a report is many short pieces. It tells as much
/// of its bytes as the writer does: standard output tells nothing.
///
/// Each error of the writer is a fault, and so is a write of nothing. What is written may stand in the
/// buffer until [`StdSink::finish`].
#[derive(Drop)]
pub struct StdSink<W: Write + Drop> {
    writer: BufWriter<W>,
    faults: u64,
}

impl<W: Write + Drop> StdSink<W> {
    ghost use Rattle.jr_io.specs.StdSink.{held_back};

    /// Takes memory for the buffer, and none later.
    pub fn new(alloc: Global, writer: W) -> Result<Self, Memory>
        ensures written { IfOk result (λ sink. Keeps (W.contents writer) (⟦<StdSink<W> as Sink>⟧.written sink)) }
        ensures faults { IfOk result (λ sink. ⟦<StdSink<W> as Sink>⟧.faults sink ≡ 0) }
        ensures held_back { IfOk result (λ sink. held_back sink ≡ []) }
    {
        match BufWriter::new(alloc, writer) {
            Ok(writer) => Ok(StdSink { writer, faults: 0 }),
            Err(_) => Err(Memory),
        }
    }

    /// Hands on what the buffer still holds back. A program calls it last, and has written everything only
    /// where it answers `Whole`.
    pub fn finish(&mut self) -> Piece
        ensures whole { result ≡ Piece.Whole → held_back self.new ≡ [] }
        ensures bytes { Keeps (⟦<StdSink<W> as Sink>⟧.written self.old) (⟦<StdSink<W> as Sink>⟧.written self.new) }
        ensures never_falls { ⟦<StdSink<W> as Sink>⟧.faults self.old ≤ ⟦<StdSink<W> as Sink>⟧.faults self.new }
        ensures faults { CountsPieceFault (⟦<StdSink<W> as Sink>⟧.faults self.old) (⟦<StdSink<W> as Sink>⟧.faults self.new) result }
    {
        match self.writer.flush() {
            Ok(()) => Piece::Whole,
            Err(_) => {
                self.faults = self.faults.saturating_add(1);
                Piece::WriteFault
            }
        }
    }
}

impl<W: Write + Drop> Sink for StdSink<W> {
    ghost use Rattle.std.specs.Io.Buffered.{writer_contents};

    ghost written = { λ s. writer_contents W.contents s.writer };

    ghost faults = { λ s. s.faults };

    fn write(&mut self, from: &[u8]) -> WriteOut {
        match self.writer.write(from) {
            Ok(count) if count > 0 || from.is_empty() => WriteOut::Wrote(count),
            _ => {
                self.faults = self.faults.saturating_add(1);
                WriteOut::Failed
            }
        }
    }
}
