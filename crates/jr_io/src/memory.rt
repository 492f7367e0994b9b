//! A source and a sink over memory, some of whose calls fail: for tests, and for texts that are there
//! already.

ghost use Rattle.std.specs.Prelude.{◌≡◌, ◌==◌, ◌+◌, ◌-◌, ◌≤◌, [], ◌++◌, false, Some, min, length, take, drop, vec_capacity};
ghost use Rattle.std.specs.List.{list_any};
ghost use Rattle.jr_io.specs.Memory.{read_answer, after_read, bytes_given, write_answer, after_write};
ghost use Rattle.jr_io.specs.Reads.{GivesAtMost, TakesBytes, taken_by, answers_end, CountsReadFault};
ghost use Rattle.jr_io.specs.Writes.{TakesAtMost, TakesSome, AppendsTaken, CountsWriteFault};

use crate::sink::{Sink, WriteOut};
use crate::source::{ReadOut, Source};
use std::marker::Model;

/// A source of bytes in memory. Contracts see it as a `Feed` of `specs/Memory.antt`.
#[derive(Debug, Drop)]
pub struct MemSource {
    bytes: Vec<u8>,
    taken: usize,
    failing: Vec<u32>,
    calls: u64,
    faults: u64,
    ended: bool,
}

impl Model for MemSource {
    ghost use Rattle.std.specs.Prelude.{◌≤◌, drop, vec_len};
    ghost use Rattle.jr_io.specs.Memory.{Feed};

    ghost Value = { Feed };

    ghost view = { λ s. record {
      left = drop s.taken s.bytes.items;
      taken = s.taken;
      failing = s.failing.items;
      calls = s.calls;
      faults = s.faults;
      ended = s.ended;
    } };

    ghost invariant = { λ s. s.taken ≤ vec_len s.bytes };
}

impl MemSource {
    /// A source of these bytes. The calls whose numbers stand in `failing` fail, counted from 1. Takes no
    /// memory.
    pub fn new(bytes: Vec<u8>, failing: Vec<u32>) -> MemSource
        ensures { result ≡ record { left = bytes.items; taken = 0; failing = failing.items; calls = 0; faults = 0; ended = false } }
    {
        MemSource {
            bytes,
            taken: 0,
            failing,
            calls: 0,
            faults: 0,
            ended: false,
        }
    }
}

impl Source for MemSource {
    ghost left = { λ s. Some s.left };

    ghost taken = { λ s. s.taken };

    ghost ended = { λ s. s.ended };

    ghost faults = { λ s. s.faults };

    /// Gives as many bytes as are left and have room.
    fn read(&mut self, into: &mut [u8]) -> ReadOut
        ensures answer { result ≡ read_answer self.old (length into.old) }
        ensures after { self.new ≡ after_read self.old (length into.old) }
        ensures given { into.new ≡ bytes_given self.old into.old }

        // Those of the trait.
        ensures within { GivesAtMost result into.new }
        ensures bytes { TakesBytes (Some self.old.left) (Some self.new.left) result into.new }
        ensures taken { self.new.taken ≡ self.old.taken + taken_by result }
        ensures ended { self.new.ended ≡ answers_end result (length into.new) }
        ensures never_falls { self.old.faults ≤ self.new.faults }
        ensures faults { CountsReadFault self.old.faults self.new.faults result }
    {
        self.calls = self.calls.saturating_add(1);
        if stands_in(self.failing.as_slice(), self.calls) {
            self.faults = self.faults.saturating_add(1);
            self.ended = false;
            return ReadOut::Failed;
        }
        let count = copy_front(&self.bytes[self.taken..], into);
        self.taken += count;
        self.ended = count == 0 && !into.is_empty();
        ReadOut::Read(count)
    }
}

/// A sink that keeps what is written. Contracts see it as a `Store` of `specs/Memory.antt`.
#[derive(Debug, Drop)]
pub struct MemSink {
    store: Vec<u8>,
    room: usize,
    failing: Vec<u32>,
    calls: u64,
    faults: u64,
}

impl Model for MemSink {
    ghost use Rattle.std.specs.Prelude.{◌≤◌, ◌+◌, vec_len, vec_capacity};
    ghost use Rattle.jr_io.specs.Memory.{Store};

    ghost Value = { Store };

    ghost view = { λ s. record {
      written = s.store.items;
      room = s.room;
      failing = s.failing.items;
      calls = s.calls;
      faults = s.faults;
    } };

    ghost invariant = { λ s. vec_len s.store + s.room ≤ vec_capacity s.store };
}

impl MemSink {
    /// A sink that appends to `store`, as long as its capacity lasts. The calls whose numbers stand in
    /// `failing` fail, counted from 1. Takes no memory, also not later.
    pub fn new(store: Vec<u8>, failing: Vec<u32>) -> MemSink
        ensures { result ≡ record { written = store.items; room = vec_capacity store - length store.items; failing = failing.items; calls = 0; faults = 0 } }
    {
        let room = store.capacity() - store.len();
        MemSink {
            store,
            room,
            failing,
            calls: 0,
            faults: 0,
        }
    }

    /// What was written, in order.
    pub fn written(&self) -> &[u8]
        ensures { result.now ≡ self.now.written }
    {
        self.store.as_slice()
    }
}

impl Sink for MemSink {
    ghost written = { λ s. Some s.written };

    ghost faults = { λ s. s.faults };

    /// Takes the whole piece, or fails.
    fn write(&mut self, from: &[u8]) -> WriteOut
        ensures answer { result ≡ write_answer self.old (length from.now) }
        ensures after { self.new ≡ after_write self.old from.now }

        // Those of the trait.
        ensures within { TakesAtMost result from.now }
        ensures some { TakesSome result from.now }
        ensures bytes { AppendsTaken (Some self.old.written) (Some self.new.written) result from.now }
        ensures never_falls { self.old.faults ≤ self.new.faults }
        ensures faults { CountsWriteFault self.old.faults self.new.faults result }
    {
        self.calls = self.calls.saturating_add(1);
        if self.room < from.len() || stands_in(self.failing.as_slice(), self.calls) {
            self.faults = self.faults.saturating_add(1);
            return WriteOut::Failed;
        }
        self.store.extend_from_slice(from).unwrap();
        self.room -= from.len();
        WriteOut::Wrote(from.len())
    }
}

// Copies as much as there is room for, and says how much.
fn copy_front(from: &[u8], into: &mut [u8]) -> usize
    ensures count { result ≡ min (length from.now) (length into.old) }
    ensures front { into.new ≡ take result from.now ++ drop result into.old }
{
    let count = from.len().min(into.len());
    into[..count].copy_from_slice(&from[..count]);
    count
}

// Whether a call's number stands in the list.
fn stands_in(failing: &[u32], call: u64) -> bool
    ensures { result ≡ list_any (λ number. number == call) failing.now }
{
    failing.iter().any(|number| u64::from(*number) == call)
}
