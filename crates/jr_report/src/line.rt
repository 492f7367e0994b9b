//! One line of a report, in a buffer of its own: writing a report takes no memory.

ghost use Rattle.std.specs.Prelude.{◌≡◌, ◌+◌, ◌≤◌, [], ◌∷◌, ◌++◌, length, decimal};
ghost use Rattle.jr_io.specs.Writes.{CountsPieceFault};
ghost use Rattle.jr_report.specs.Adding.{Adds};

use arrayvec::ArrayVec;
use itoa::Buffer;
use jr_io::{Piece, Sink, write_piece};
use std::marker::Model;

/// A line up to this length is written in one piece: so each print of 8 parts of 256 bytes.
pub const LINE_LENGTH: usize = 2_304;

/// A line that is being put together. Contracts see its bytes.
#[derive(Drop)]
pub struct Line {
    bytes: ArrayVec<u8, LINE_LENGTH>,
}

impl Model for Line {
    ghost use Rattle.std.specs.Prelude.{List, ℕ};

    ghost Value = { List ℕ };

    ghost view = { λ l. l.bytes.items };
}

impl Line {
    pub fn new() -> Self
        ensures { result ≡ [] }
    {
        Line {
            bytes: ArrayVec::new(),
        }
    }

    pub fn clear(&mut self)
        ensures { self.new ≡ [] }
    {
        self.bytes.clear();
    }

    /// Adds a text.
    pub fn text(&mut self, text: &str)
        requires { length self.old + length text.now ≤ LINE_LENGTH }
        ensures bytes { self.new ≡ self.old ++ text.now }
        ensures len { length self.new ≡ length self.old + length text.now }
    {
        self.bytes.try_extend_from_slice(text.as_bytes()).unwrap();
    }

    /// Adds a number in decimal.
    pub fn number(&mut self, n: u32)
        requires { length self.old + 10 ≤ LINE_LENGTH }
        ensures bytes { self.new ≡ self.old ++ decimal n }
        ensures len { length self.new ≤ length self.old + 10 }
    {
        let mut digits = Buffer::new();
        self.text(digits.format(n));
    }

    /// Adds a number of 64 bits in decimal.
    pub fn long_number(&mut self, n: u64)
        requires { length self.old + 20 ≤ LINE_LENGTH }
        ensures bytes { self.new ≡ self.old ++ decimal n }
        ensures len { length self.new ≤ length self.old + 20 }
    {
        let mut digits = Buffer::new();
        self.text(digits.format(n));
    }

    pub fn as_bytes(&self) -> &[u8]
        ensures { result.now ≡ self.now }
    {
        self.bytes.as_slice()
    }

    /// Adds bytes of any number. Where there is no room for them, what the line has is written first, and then they.
    pub fn add<K: Sink>(&mut self, bytes: &[u8], sink: &mut K) -> Piece
        ensures bytes { Adds (K.written sink.old) (K.written sink.new) self.old self.new result bytes.now }
        ensures never_falls { K.faults sink.old ≤ K.faults sink.new }
        ensures faults { CountsPieceFault (K.faults sink.old) (K.faults sink.new) result }
    {
        if bytes.len() > self.bytes.remaining_capacity() {
            return self.write_out(bytes, sink);
        }
        self.bytes.try_extend_from_slice(bytes).unwrap();
        Piece::Whole
    }

    // Writes what the line has, and these bytes behind it.
    fn write_out<K: Sink>(&mut self, bytes: &[u8], sink: &mut K) -> Piece
        ensures bytes { Adds (K.written sink.old) (K.written sink.new) self.old self.new result bytes.now }
        ensures never_falls { K.faults sink.old ≤ K.faults sink.new }
        ensures faults { CountsPieceFault (K.faults sink.old) (K.faults sink.new) result }
    {
        match write_piece(sink, self.as_bytes()) {
            Piece::Whole => {
                self.clear();
                write_piece(sink, bytes)
            }
            Piece::WriteFault => Piece::WriteFault,
        }
    }
}
