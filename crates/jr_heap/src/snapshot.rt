//! What a reader asks a heap.

ghost use Rattle.std.specs.Prelude.{◌≡◌};
ghost use Rattle.jr_base.specs.declared.number.ObjId.{ObjId as ObjectNumber};
ghost use Rattle.jr_base.specs.declared.value.Ask.{Ask as Question};
ghost use Rattle.jr_base.specs.declared.value.Ask.TheVariants as asks;
ghost use Rattle.jr_base.specs.declared.value.Seen.{Seen as Answer};
ghost use Rattle.jr_heap.specs.Plain.{IsLength};

use jr_base::{Ask, Seen};

/// One heap, which stays as it is while it is read: the heap before a step, say, whatever other threads do to
/// the running program's since. A reader may change what it reads through, such as a lock that it takes in turns.
pub trait Snapshot {
    // what that heap shows: an answer to each question
    ghost shown: { Self → Question → Answer };

    /// The value of a cell, or the length of an array as an `int` (JLS 10.7), in that heap; absent exactly where it
    /// has no such cell or array. Takes no memory.
    fn ask(&mut self, what: Ask) -> Seen
        ensures answer { result ≡ shown self.old what }
        ensures same { (other : Question) → shown self.new other ≡ shown self.old other };

    // the length of an array is an int, and no negative one
    ghost lengths: { (heap : Self) (object : ObjectNumber) → IsLength (shown heap (asks.Length object)) };
}
