//! A heap of which it is known how many objects and cells there are.

ghost use Rattle.std.specs.Prelude.{◌≡◌, ◌+◌, ◌<◌, ◌^◌, ◌∷◌, [], ℕ, find, IfOk, OnErr, option_map};
ghost use Rattle.jr_base.specs.declared.finish.LimitKind.TheVariants.{Objects, Cells};
ghost use Rattle.jr_base.specs.declared.value.Ask.{Ask as Question};
ghost use Rattle.jr_base.specs.declared.value.Seen.TheVariants as answers;
ghost use Rattle.jr_heap.specs.Plain.{seen_in};
ghost use Rattle.jr_program.specs.Programs.{Program};
ghost use Rattle.jr_meaning.specs.World.{World, ObjectKind, length_of, next_object};
ghost use Rattle.jr_meaning.specs.Machine.{get_reply, len_reply, put, put_reply};
ghost use Rattle.jr_meaning.specs.Limits.{is_past, limit_of};
ghost use Rattle.jr_drive.specs.Counted.{StandsFor, IsMadeOf, with_object, count_of};

use jr_base::{Ask, Cell, LimitKind, Memory, ObjId, Reply, Seen, Value};
use jr_heap::PlainHeap;
use std::alloc::Global;
use std::marker::Model;

/// A heap whose objects have the numbers from 1 on, with how many objects and cells there are.
///
/// Contracts see the heap and both numbers.
#[derive(Drop)]
pub struct CountedHeap {
    heap: PlainHeap,
    objects: u32,
    cells: u32,
}

impl Model for CountedHeap {
    ghost use Rattle.jr_drive.specs.Counted.{Counted, IsCounted};

    ghost Value = { Counted };

    ghost view = { λ h. record { heap = h.heap; objects = h.objects; cells = h.cells } };

    ghost invariant = { λ h. IsCounted h.heap h.objects };
}

/// What a step would bring past its limit, and to how many.
#[derive(Clone, Copy, Debug, PartialEq, Eq)]
pub struct Excess {
    pub kind: LimitKind,
    pub count: u64,
}

/// The most of a kind that there may be.
fn limit(kind: LimitKind) -> u64
    ensures { result ≡ limit_of kind }
{
    match kind {
        LimitKind::Guests => 16,
        LimitKind::Frames => 256,
        LimitKind::Objects => 65536,
        LimitKind::Cells => 1048576,
        LimitKind::Held => 64,
    }
}

/// That kind with its number, if so many are too many.
pub fn past(kind: LimitKind, count: u64) -> Option<Excess>
    ensures { option_map count_of result ≡ find is_past (record { kind = kind; count = count } ∷ []) }
{
    if count > limit(kind) {
        Some(Excess { kind, count })
    } else {
        None
    }
}

impl CountedHeap {
    /// No object. Takes no memory.
    pub fn new(alloc: Global) -> CountedHeap
        ensures objects { result.objects ≡ 0 }
        ensures cells { result.cells ≡ 0 }
        ensures layout { result.heap.layout.objects ≡ [] }
        ensures empty { (what : Question) → seen_in result.heap what ≡ answers.Absent }
    {
        CountedHeap {
            heap: PlainHeap::new(alloc),
            objects: 0,
            cells: 0,
        }
    }

    /// Makes the next object with these values. `Memory` comes where there is none, and where numbers of 32 bits end; it
    /// leaves all as it was.
    pub fn add(&mut self, array: bool, values: &[Value]) -> Result<ObjId, Memory>
        ensures object { IfOk result (λ object. (program : Program) (world : World) → StandsFor program self.old world → object ≡ next_object world) }
        ensures stands { IfOk result (λ object. (program : Program) (world : World) (kind : ObjectKind) → IsMadeOf program kind array values.now → StandsFor program self.old world →
            StandsFor program self.new (with_object program world kind)) }
        ensures memory { OnErr result ((program : Program) (world : World) → StandsFor program self.old world → StandsFor program self.new world) }
    {
        let next = self.objects + 1;
        if next == u32::MAX || values.len() > (u32::MAX - self.cells) as usize {
            return Err(Memory);
        }
        self.heap.add(ObjId(next), array, values)?;
        self.objects = next;
        self.cells += values.len() as u32;
        Ok(ObjId(next))
    }

    /// Reads a cell, as the machine replies.
    pub fn get(&self, cell: Cell) -> Reply
        ensures { (program : Program) (world : World) → StandsFor program self.now world → result ≡ get_reply (world.cells cell) }
    {
        match self.heap.see(Ask::Cell(cell)) {
            Seen::Value(value) => Reply::Value(value),
            Seen::Absent => Reply::Range,
        }
    }

    /// Writes a cell, if it is there, and says so as the machine replies. Takes no memory.
    pub fn put(&mut self, cell: Cell, value: Value) -> Reply
        ensures reply { (program : Program) (world : World) → StandsFor program self.old world → result ≡ put_reply (world.cells cell) }
        ensures stands { (program : Program) (world : World) → StandsFor program self.old world → StandsFor program self.new (put world cell value result) }
    {
        match self.heap.see(Ask::Cell(cell)) {
            Seen::Value(_) => {
                self.heap.put(cell, value);
                Reply::Unit
            }
            Seen::Absent => Reply::Range,
        }
    }

    /// The length of an array, as the machine replies.
    pub fn length(&self, object: ObjId) -> Reply
        ensures { (program : Program) (world : World) → StandsFor program self.now world → result ≡ len_reply (length_of world object) }
    {
        match self.heap.see(Ask::Length(object)) {
            Seen::Value(value) => Reply::Value(value),
            Seen::Absent => Reply::Value(Value::Int(0)),
        }
    }

    /// What objects or cells would be past their limit with an object more of so many cells.
    pub fn past_limit(&self, size: u64) -> Option<Excess>
        requires { size < 2 ^ 63 }
        ensures { option_map count_of result ≡ find is_past (record { kind = Objects; count = self.now.objects + 1 } ∷ record { kind = Cells; count = self.now.cells + size } ∷ []) }
    {
        let cells = self.cells;
        let objects = u64::from(self.objects) + 1;
        past(LimitKind::Objects, objects).or(past(LimitKind::Cells, u64::from(cells) + size))
    }

    /// The heap, to be read.
    pub fn heap(&self) -> &PlainHeap
        ensures { result.now ≡ self.now.heap }
    {
        &self.heap
    }
}
