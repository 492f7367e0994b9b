//! Two workers write into one diary, each on a thread of its own.
ghost use Rattle.std.specs.Prelude.{◌≡◌, ◌+◌, ◌<◌, ◌^◌, [], ◌∷◌, ◌++◌, length, Some, None, MatchBool};

use crate::annal::{Annal, Face};
use crate::pass::Pass;
use crate::turn::Turn;
use jr_base::Memory;
use std::alloc::Global;
use std::sync::Wait;
use std::test::Fail;
use std::thread;
use std::thread::Threads;

#[derive(Clone, Copy, Drop)]
struct Note {
    by: u32,
    number: u32,
}

/// A list of numbered notes. Nothing in it is ever opened.
#[derive(Drop)]
struct Diary {
    notes: Vec<Note>,
}

impl Annal for Diary {
    ghost use Rattle.std.specs.Prelude.{[], Some, None};

    type Opening = ();

    type Entry = Note;

    type Ticket = ();

    ghost opening = { λ _. tt };

    ghost entries = { λ d. d.notes.items };

    ghost in_hand = { λ _. [] };

    ghost waiting = { λ _. [] };

    ghost face = { λ _. record { finish = None; pending = 0; waiting = 0 } };

    ghost guest = { λ e. Some e.by };
}

impl Diary {
    fn new(alloc: Global) -> Diary
        ensures { result.notes.items ≡ [] }
    {
        Diary {
            notes: Vec::new(alloc),
        }
    }

    // Adds a note, where there is room.
    fn add(&mut self, note: Note) -> bool
        ensures { MatchBool result
            ((self.new.notes.items ≡ self.old.notes.items ++ note ∷ [])
            × (length self.new.notes.items < 2 ^ 63))
            (self.new.notes.items ≡ self.old.notes.items) }
    {
        self.notes.len() < 1 << 40 && self.notes.push(note).is_ok()
    }
}

// One turn, in which a note is added.
fn round<R: Wait>(rt: &R, turn: &Turn<Diary>, pass: &mut Pass<Diary>, note: Note) -> bool
    requires turn { pass.old.turn ≡ turn.now.turn }
    requires away { (pass.old.view.out ≡ None) × (pass.old.view.ticket ≡ None) }
    requires own { pass.old.view.number ≡ note.by }
    ensures turn { pass.new.turn ≡ pass.old.turn }
    ensures away { (pass.new.view.out ≡ None) × (pass.new.view.ticket ≡ None) }
    ensures counts { (pass.new.view.number ≡ pass.old.view.number)
        × (pass.new.view.made ≡ pass.old.view.made) × (pass.new.view.joined ≡ pass.old.view.joined) }
    ensures mine { MatchBool result
        (pass.new.view.mine ≡ pass.old.view.mine ++ note ∷ [])
        (pass.new.view.mine ≡ pass.old.view.mine) }
{
    let mut value = turn.take(rt, pass);
    let added = value.add(note);
    if added {
        turn.count(pass, &value);
    }
    turn.give(pass, value, None);
    added
}

// As many rounds, each with the next number.
fn work<R: Wait>(
    rt: &R,
    turn: &Turn<Diary>,
    mut pass: Pass<Diary>,
    by: u32,
    times: u32,
) -> Pass<Diary>
    requires turn { pass.turn ≡ turn.now.turn }
    requires away { (pass.view.out ≡ None) × (pass.view.ticket ≡ None) }
    requires own { pass.view.number ≡ by }
    ensures turn { result.turn ≡ pass.turn }
    ensures away { (result.view.out ≡ None) × (result.view.ticket ≡ None) }
    ensures counts { (result.view.number ≡ pass.view.number) × (result.view.made ≡ pass.view.made)
        × (result.view.joined ≡ pass.view.joined) }
{
    for number in 0..times {
        if !round(rt, turn, &mut pass, Note { by, number }) {
            break;
        }
    }
    pass
}

// Two passes on two threads, joined, and the diary that they leave.
fn two<R: Threads + Wait + Sync>(
    rt: &R,
    alloc: Global,
    times: u32,
) -> Result<(u64, Diary), Memory> {
    let (turn, mut first) = Turn::new(alloc, Diary::new(alloc), 2)?;
    let second = turn.split(&mut first);
    let shared = &turn;
    let (mut first, second) = thread::join(
        rt,
        move || -> Pass<Diary>
            requires { (first.turn ≡ shared.now.turn) × (first.view.out ≡ None)
                × (first.view.ticket ≡ None) × (first.view.number ≡ 1) }
            ensures { (result.turn ≡ first.turn) × (result.view.out ≡ None)
                × (result.view.ticket ≡ None) × (result.view.number ≡ 1)
                × (result.view.made ≡ first.view.made) × (result.view.joined ≡ first.view.joined) }
        { work(rt, shared, first, 1, times) },
        move || -> Pass<Diary>
            requires { (second.turn ≡ shared.now.turn) × (second.view.out ≡ None)
                × (second.view.ticket ≡ None) × (second.view.number ≡ 2) }
            ensures { (result.turn ≡ second.turn) × (result.view.out ≡ None)
                × (result.view.ticket ≡ None) }
        { work(rt, shared, second, 2, times) },
    );
    turn.join(&mut first, second);
    let news = turn.news(&mut first);
    Ok((news, turn.close(first)))
}

// Any value may be taken on two threads: a turn is shared, and its passes and its value are moved.
fn taken_by_two<V: Annal + Send, R: Threads + Wait + Sync>(
    rt: &R,
    turn: &Turn<V>,
    mut one: Pass<V>,
    mut two: Pass<V>,
) -> (Pass<V>, Pass<V>)
    requires turn { (one.turn ≡ turn.now.turn) × (two.turn ≡ turn.now.turn) }
    requires away { (one.view.out ≡ None) × (two.view.out ≡ None) }
{
    thread::join(
        rt,
        move || -> Pass<V>
            requires { (one.turn ≡ turn.now.turn) × (one.view.out ≡ None) }
        {
            turn.take(rt, &mut one);
            one
        },
        move || -> Pass<V>
            requires { (two.turn ≡ turn.now.turn) × (two.view.out ≡ None) }
        {
            turn.take(rt, &mut two);
            two
        },
    )
}

#[test]
fn each_of_two_threads_writes_its_notes_in_order(rt: HostRuntime) -> Result<(), Fail> {
    let Ok((news, diary)) = two(&rt, rt.alloc(), 1000) else {
        panic!(&rt; "memory")
    };
    let mut next = [0u32; 3];
    let mut in_order = true;
    for note in diary.notes.as_slice() {
        match next.get_mut(note.by as usize) {
            Some(number) => {
                in_order = in_order && *number == note.number;
                *number = note.number.wrapping_add(1);
            }
            None => in_order = false,
        }
    }
    assert!(rt; news == 2000 && diary.notes.len() == 2000 && in_order && next == [0, 1000, 1000]);
    Ok(())
}
