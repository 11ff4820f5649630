//! An owner and a mover at one table, each in a thread of its own.
ghost use Rattle.std.specs.Prelude.{◌≡◌, ◌<◌, ◌≤◌, ℕ, None, Some, MatchOption, length};
ghost use Rattle.pointer_word.specs.Asked.{HasNoFrame, HasNothing};
ghost use Rattle.pointer_word.specs.Hands.{claiming, listed};
ghost use Rattle.object_lock.specs.Seats.{Owns, note, with_hand};
ghost use Rattle.object_lock.specs.SeatViews.{IsSeat};
ghost use Rattle.object_lock_tests.specs.Standing.{IsIdle, IsOpen, IsShut};

use crate::fixtures::{fill_words, owner_and_mover};
use crate::standing::{bring_with, close, leave, move_out, read, release, write};
use crate::tape::Tape;
use cells::Piece;
use object_lock::{Begin, Held, MoverSeat, ObjectTable, OwnerSeat};
use remote_store::{FarHeap, MOST_CELLS, RawStore};
use std::alloc::Global;
use std::sync::Wait;
use std::thread;
use std::thread::Threads;

const ROUNDS: u64 = 200;

// Looks once at each frame, and claims one that is free for the object that is being brought in.
fn find_frame<S: RawStore>(
    table: &ObjectTable<S>,
    owner: &mut OwnerSeat<S>,
    obj: usize,
) -> Option<usize>
    requires table { IsSeat table.now owner.old }
    requires hands { Owns owner.old.view obj × (owner.old.view.hand.bringing ≡ Some obj) × (owner.old.view.hand.leaving ≡ None) × HasNoFrame owner.old.view.hand }
    ensures told { MatchOption result (owner.new ≡ owner.old) (λ frame. (frame < table.now.sizes.frames) × (owner.new ≡ record owner.old { view = with_hand owner.old.view (claiming owner.old.view.hand frame); log = owner.new.log })) }
{
    for frame in 0..table.frames() {
        if table.try_claim(owner, frame, obj) {
            return Some(frame);
        }
    }
    None
}

// Claims a free frame for the object that is being brought in, and waits until there is one.
fn claim<R: Wait, S: RawStore>(
    rt: &R,
    table: &ObjectTable<S>,
    owner: &mut OwnerSeat<S>,
    obj: usize,
) -> usize
    requires table { IsSeat table.now owner.old }
    requires hands { Owns owner.old.view obj × (owner.old.view.hand.bringing ≡ Some obj) × (owner.old.view.hand.leaving ≡ None) × HasNoFrame owner.old.view.hand }
    ensures claimed { (result < table.now.sizes.frames) × (owner.new ≡ record owner.old { view = with_hand owner.old.view (claiming owner.old.view.hand result); log = owner.new.log }) }
{
    for _ in rt.forever() {
        if let Some(frame) = find_frame(table, owner, obj) {
            return frame;
        }
        thread::yield_now();
    }
    unreachable!()
}

// Reads the words that the berth of the object keeps that is being brought in over zeros, which stay where nothing was put there.
fn read_words<R: Wait, S: RawStore>(rt: &R, owner: &mut OwnerSeat<S>, obj: usize, words: &mut [u64])
    requires brings { owner.old.view.hand.bringing ≡ Some obj }
    requires words { (length words.old ≡ owner.old.view.sizes.cells) × (length words.old ≤ MOST_CELLS) }
    requires zeros { (i : ℕ) → listed words.old i ≡ 0 }
    ensures length { length words.new ≡ length words.old }
    ensures same { owner.new ≡ record owner.old { store = owner.new.store; refusals = owner.new.refusals } }
    ensures got { S.honest → (i : ℕ) → i < length words.old → listed words.new i ≡ listed owner.old.view.hand.promised i }
{
    if !owner.stored(obj) {
        return;
    }
    for _ in rt.forever() {
        if owner.get(obj, &mut *words).is_ok() {
            return;
        }
    }
    unreachable!()
}

// Brings in the object that was begun: the frame that it is in then.
fn bring_begun<R: Wait, S: RawStore>(
    rt: &R,
    table: &ObjectTable<S>,
    owner: &mut OwnerSeat<S>,
    obj: usize,
) -> usize
    requires table { IsSeat table.now owner.old }
    requires hold { Owns owner.old.view obj × ((note owner.old.view obj).count ≡ 1) }
    requires hands { (owner.old.view.hand.bringing ≡ Some obj) × (owner.old.view.hand.leaving ≡ None) × HasNoFrame owner.old.view.hand }
    ensures table { IsSeat table.now owner.new × (result < table.now.sizes.frames) }
    ensures here { Owns owner.new.view obj × ((note owner.new.view obj).count ≡ 1) × ((note owner.new.view obj).frame ≡ Some result) × HasNothing owner.new.view.hand }
{
    let frame = claim(rt, table, owner, obj);
    let mut buffer = [0; MOST_CELLS];
    let cells = table.cells();
    let words = &mut buffer[..cells];
    read_words(rt, owner, obj, &mut *words);
    fill_words(table, owner, frame, &*words);
    table.arrive(owner, obj, frame);
    frame
}

// Opens the object, and brings it in where it is away: the frame that it is in then.
fn take<R: Wait, S: RawStore>(
    rt: &R,
    table: &ObjectTable<S>,
    owner: &mut OwnerSeat<S>,
    obj: usize,
) -> usize
    requires shut { IsShut table.now owner.old obj }
    ensures { IsOpen table.now owner.new obj result }
{
    if let Held::Here(frame) = table.open(owner, obj) {
        return frame;
    }
    for _ in rt.forever() {
        match table.try_begin(owner, obj, 1) {
            Begin::Taken => return bring_begun(rt, table, owner, obj),
            Begin::Here(frame) => return frame,
            Begin::Busy => thread::yield_now(),
        }
    }
    unreachable!()
}

// Adds one to the object's cell 0, in each round: what that is in the end.
fn count_up<R: Wait, S: RawStore>(
    rt: &R,
    table: &ObjectTable<S>,
    mut owner: OwnerSeat<S>,
    obj: usize,
) -> u64
    requires shut { IsShut table.now owner obj }
{
    for _round in 0..ROUNDS {
        let frame = take(rt, table, &mut owner, obj);
        let count = read(table, &mut owner, obj, frame, 0);
        write(table, &mut owner, obj, frame, 0, count.wrapping_add(1));
        close(table, &mut owner, obj, frame);
        thread::yield_now();
    }
    let frame = take(rt, table, &mut owner, obj);
    read(table, &mut owner, obj, frame, 0)
}

// Loads the object's cell 0, in each round: in how many it was `value`.
fn count_reads<R: Wait, S: RawStore>(
    rt: &R,
    table: &ObjectTable<S>,
    mut owner: OwnerSeat<S>,
    obj: usize,
    value: u64,
) -> u64
    requires shut { IsShut table.now owner obj }
{
    let mut same = 0u64;
    for _round in 0..ROUNDS {
        let frame = take(rt, table, &mut owner, obj);
        if read(table, &mut owner, obj, frame, 0) == value {
            same = same.wrapping_add(1);
        }
        close(table, &mut owner, obj, frame);
        thread::yield_now();
    }
    same
}

// Has the object leave that a frame's word names, where it is clean, else tries to move it out, for each frame.
fn move_each<S: RawStore>(table: &ObjectTable<S>, mover: &mut MoverSeat<S>)
    requires idle { IsIdle table.now mover.old }
    ensures { IsIdle table.now mover.new }
{
    for frame in 0..table.frames() {
        if let Some(obj) = table.look(mover, frame) {
            if leave(table, mover, obj, frame) {
                release(table, mover, frame);
            } else {
                move_out(table, mover, obj, frame);
            }
        }
    }
}

// Tries to move out what is in the frames, in each round.
fn move_often<S: RawStore>(table: &ObjectTable<S>, mut mover: MoverSeat<S>)
    requires idle { IsIdle table.now mover }
{
    for _round in 0..ROUNDS {
        move_each(table, &mut mover);
        thread::yield_now();
    }
}

// What the owner counts while the mover moves its object out.
fn write_beside<R: Threads + Wait + Sync>(
    rt: &R,
    table: &ObjectTable<FarHeap>,
    owner: OwnerSeat<FarHeap>,
    mover: MoverSeat<FarHeap>,
) -> u64
    requires owner { IsShut table.now owner 0 }
    requires mover { IsIdle table.now mover }
{
    let (count, ()) = thread::join(
        rt,
        move || -> u64
            requires { IsShut table.now owner 0 }
        { count_up(rt, table, owner, 0) },
        move ||
            requires { IsIdle table.now mover }
        { move_often(table, mover) },
    );
    count
}

// In how many rounds the owner reads 5 while the mover moves its object out.
fn read_beside<R: Threads + Wait + Sync>(
    rt: &R,
    table: &ObjectTable<FarHeap>,
    owner: OwnerSeat<FarHeap>,
    mover: MoverSeat<FarHeap>,
) -> u64
    requires owner { IsShut table.now owner 0 }
    requires mover { IsIdle table.now mover }
{
    let (same, ()) = thread::join(
        rt,
        move || -> u64
            requires { IsShut table.now owner 0 }
        { count_reads(rt, table, owner, 0, 5) },
        move ||
            requires { IsIdle table.now mover }
        { move_often(table, mover) },
    );
    same
}

/// What an owner counts in object 0 while a mover moves that out.
pub(crate) fn count_beside_a_mover<R: Threads + Wait + Sync>(
    alloc: Global,
    rt: &R,
    tape: &mut Tape,
) {
    let Some((table, owner, mover)) = owner_and_mover(alloc, 1, FarHeap::new(Piece::Cells64)) else {
        return;
    };
    if owner.low() == 0 && owner.high() == 1 {
        tape.number(write_beside(rt, &table, owner, mover));
    }
}

/// In how many rounds an owner reads 5 in object 0 while a mover moves that out.
pub(crate) fn read_beside_a_mover<R: Threads + Wait + Sync>(
    alloc: Global,
    rt: &R,
    tape: &mut Tape,
) {
    let Some((table, mut owner, mover)) = owner_and_mover(alloc, 1, FarHeap::new(Piece::Cells64))
    else {
        return;
    };
    if owner.low() != 0 || owner.high() != 1 {
        return;
    }
    if bring_with(&table, &mut owner, 0, 2, 5) {
        tape.number(read_beside(rt, &table, owner, mover));
    }
}
