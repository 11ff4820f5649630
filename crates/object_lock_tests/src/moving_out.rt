//! Movers that mark, give up, commit and look, while the owner works on the object.
ghost use Rattle.std.specs.Prelude.{◌≡◌, ◌<◌, true};
ghost use Rattle.object_lock_tests.specs.Standing.{IsFreeing, IsIdle, IsOpen, IsShut};

use crate::fixtures::bring_back;
use crate::standing::{
    bring, bring_with, close, commit, give_up, give_up_put, leave, mark, move_out, open, put,
    read_once, release, tell_word, write,
};
use crate::tape::Tape;
use object_lock::{Begin, Held, MoverSeat, ObjectTable, OwnerSeat};
use remote_store::RawStore;

/// Tries to mark object 0 while its owner has a hold of it, in another frame, and where it is: its word after each.
pub(crate) fn marks_only_the_unheld<S: RawStore>(
    table: &ObjectTable<S>,
    owner: &mut OwnerSeat<S>,
    mover: &mut MoverSeat<S>,
    tape: &mut Tape,
)
    requires low { (3 < table.now.sizes.frames) × (0 < table.now.sizes.objects) }
    requires seats { IsShut table.now owner.old 0 × IsIdle table.now mover.old }
{
    if !bring(table, owner, 0, 2) {
        return;
    }
    write(table, owner, 0, 2, 0, 5);
    if mark(table, mover, 0, 2) {
        return;
    }
    tell_word(table, mover, 0, tape);
    close(table, owner, 0, 2);
    if mark(table, mover, 0, 3) {
        return;
    }
    tell_word(table, mover, 0, tape);
    tape.did(mark(table, mover, 0, 2));
    tell_word(table, mover, 0, tape);
}

/// Marks object 0 in frame 2, and its owner tries to mark it there, too: its word after each.
pub(crate) fn is_marked_once<S: RawStore>(
    table: &ObjectTable<S>,
    owner: &mut OwnerSeat<S>,
    mover: &mut MoverSeat<S>,
    tape: &mut Tape,
)
    requires low { (3 < table.now.sizes.frames) × (0 < table.now.sizes.objects) }
    requires seats { IsShut table.now owner.old 0 × IsIdle table.now mover.old }
{
    if !bring_with(table, owner, 0, 2, 5) || !mark(table, mover, 0, 2) {
        return;
    }
    tell_word(table, mover, 0, tape);
    tape.did(mark(table, owner, 0, 2));
    tell_word(table, mover, 0, tape);
}

/// Marks object 0 in frame 2, gives it up, marks it again and moves it out: its word after each.
pub(crate) fn marks_again<S: RawStore>(
    table: &ObjectTable<S>,
    owner: &mut OwnerSeat<S>,
    mover: &mut MoverSeat<S>,
    tape: &mut Tape,
)
    requires low { (3 < table.now.sizes.frames) × (0 < table.now.sizes.objects) }
    requires seats { IsShut table.now owner.old 0 × IsIdle table.now mover.old }
{
    if !bring_with(table, owner, 0, 2, 5) || !mark(table, mover, 0, 2) {
        return;
    }
    give_up(table, mover, 0, 2);
    tell_word(table, mover, 0, tape);
    if !mark(table, mover, 0, 2) {
        return;
    }
    tell_word(table, mover, 0, tape);
    if put(table, mover, 0, 2) && commit(table, mover, 0, 2) {
        tell_word(table, mover, 0, tape);
    }
}

/// Opens object 0, which is away, begins it, and brings it into the frame: its word after each, and its cell 0. Whether it was brought in.
fn brings_back<S: RawStore>(
    table: &ObjectTable<S>,
    owner: &mut OwnerSeat<S>,
    frame: usize,
    tape: &mut Tape,
) -> bool
    requires shut { IsShut table.now owner.old 0 }
    requires low { (frame < table.now.sizes.frames) × (0 < table.now.sizes.objects) }
    ensures { result ≡ true → IsOpen table.now owner.new 0 frame }
{
    let Held::Away = table.open(owner, 0) else {
        return false;
    };
    tape.word(table.word(owner, 0));
    let Begin::Taken = table.try_begin(owner, 0, 1) else {
        return false;
    };
    tape.word(table.word(owner, 0));
    let Some(value) = bring_back(table, owner, 0, frame) else {
        return false;
    };
    tape.number(value);
    tape.word(table.word(owner, 0));
    true
}

/// Opens object 0, which is in a frame, stores the value in its cell 0, and closes it: its word after each. Whether it was in a frame.
fn writes_once<S: RawStore>(
    table: &ObjectTable<S>,
    owner: &mut OwnerSeat<S>,
    value: u64,
    tape: &mut Tape,
) -> bool
    requires shut { IsShut table.now owner.old 0 }
    requires low { 0 < table.now.sizes.objects }
    ensures { result ≡ true → IsShut table.now owner.new 0 }
{
    let Some(frame) = open(table, owner, 0, tape) else {
        return false;
    };
    tell_word(table, owner, 0, tape);
    write(table, owner, 0, frame, 0, value);
    tell_word(table, owner, 0, tape);
    close(table, owner, 0, frame);
    tell_word(table, owner, 0, tape);
    true
}

/// Puts object 0 and gives it up, which its owner writes then: the next mark copies what it wrote.
pub(crate) fn copies_anew<S: RawStore>(
    table: &ObjectTable<S>,
    owner: &mut OwnerSeat<S>,
    mover: &mut MoverSeat<S>,
    tape: &mut Tape,
)
    requires low { (3 < table.now.sizes.frames) × (0 < table.now.sizes.objects) }
    requires seats { IsShut table.now owner.old 0 × IsIdle table.now mover.old }
{
    if !bring_with(table, owner, 0, 2, 5) || !mark(table, mover, 0, 2) {
        return;
    }
    if !put(table, mover, 0, 2) {
        return;
    }
    give_up_put(table, mover, 0, 2);
    if !writes_once(table, owner, 9, tape) {
        return;
    }
    tape.did(move_out(table, mover, 0, 2));
    tell_word(table, mover, 0, tape);
    brings_back(table, owner, 3, tape);
}

/// Marks object 0 in frame 2, puts it and gives it up: whether it was put, how many puts and gets were refused then, and the object's word.
fn gives_up<S: RawStore>(table: &ObjectTable<S>, mover: &mut MoverSeat<S>, tape: &mut Tape)
    requires low { (3 < table.now.sizes.frames) × (0 < table.now.sizes.objects) }
    requires idle { IsIdle table.now mover.old }
    ensures { IsIdle table.now mover.new }
{
    tape.number(mover.refusals().count);
    if !mark(table, mover, 0, 2) {
        return;
    }
    let done = put(table, mover, 0, 2);
    tape.did(done);
    tape.number(mover.refusals().count);
    if done {
        give_up_put(table, mover, 0, 2);
    } else {
        give_up(table, mover, 0, 2);
    }
    tell_word(table, mover, 0, tape);
}

/// Object 0 is given up as its put fails, is read in its frame, and moved out by a put that doesn't fail.
pub(crate) fn survives_a_failed_put<S: RawStore>(
    table: &ObjectTable<S>,
    owner: &mut OwnerSeat<S>,
    mover: &mut MoverSeat<S>,
    tape: &mut Tape,
)
    requires low { (3 < table.now.sizes.frames) × (0 < table.now.sizes.objects) }
    requires seats { IsShut table.now owner.old 0 × IsIdle table.now mover.old }
{
    if !bring_with(table, owner, 0, 2, 5) {
        return;
    }
    gives_up(table, mover, tape);
    let done = read_once(table, owner, 0, tape);
    tape.did(done);
    tape.did(move_out(table, mover, 0, 2));
    tape.number(mover.refusals().count);
    tell_word(table, mover, 0, tape);
}

/// Object 0 is written while the mover has it marked, so that it is not moved out: its word after each call, and what its owner reads
/// then.
pub(crate) fn is_written_meanwhile<S: RawStore>(
    table: &ObjectTable<S>,
    owner: &mut OwnerSeat<S>,
    mover: &mut MoverSeat<S>,
    tape: &mut Tape,
)
    requires low { (3 < table.now.sizes.frames) × (0 < table.now.sizes.objects) }
    requires seats { IsShut table.now owner.old 0 × IsIdle table.now mover.old }
{
    if !bring_with(table, owner, 0, 2, 5) {
        return;
    }
    tell_word(table, owner, 0, tape);
    if !mark(table, mover, 0, 2) {
        return;
    }
    tell_word(table, owner, 0, tape);
    if !put(table, mover, 0, 2) || !writes_once(table, owner, 9, tape) {
        return;
    }
    if commit(table, mover, 0, 2) {
        return;
    }
    tell_word(table, owner, 0, tape);
    give_up(table, mover, 0, 2);
    tell_word(table, owner, 0, tape);
    let done = read_once(table, owner, 0, tape);
    tape.did(done);
}

/// Releases the frame out of which an object has left: what its word names before that and after.
fn releases<S: RawStore>(
    table: &ObjectTable<S>,
    mover: &mut MoverSeat<S>,
    frame: usize,
    tape: &mut Tape,
)
    requires freeing { IsFreeing table.now mover.old frame }
    ensures { IsIdle table.now mover.new }
{
    tape.names(table.look(mover, frame));
    release(table, mover, frame);
    tape.names(table.look(mover, frame));
}

/// Tries to mark object 0, which is clean in frame 2, and has it leave: whether each did, its word, and what the frame's word names before it is released
/// and after.
fn leaves_clean<S: RawStore>(table: &ObjectTable<S>, mover: &mut MoverSeat<S>, tape: &mut Tape)
    requires low { (3 < table.now.sizes.frames) × (0 < table.now.sizes.objects) }
    requires idle { IsIdle table.now mover.old }
{
    let marked = mark(table, mover, 0, 2);
    tape.did(marked);
    if marked {
        return;
    }
    let left = leave(table, mover, 0, 2);
    tape.did(left);
    if !left {
        return;
    }
    tell_word(table, mover, 0, tape);
    releases(table, mover, 2, tape);
}

/// Object 0, which was moved out and brought back, is clean, until its owner begins to write it: its word after each call, and whether it left while that
/// had a hold.
pub(crate) fn is_written_when_clean<S: RawStore>(
    table: &ObjectTable<S>,
    owner: &mut OwnerSeat<S>,
    mover: &mut MoverSeat<S>,
    tape: &mut Tape,
)
    requires low { (3 < table.now.sizes.frames) × (0 < table.now.sizes.objects) }
    requires seats { IsShut table.now owner.old 0 × IsIdle table.now mover.old }
{
    if !bring_with(table, owner, 0, 2, 5) || !move_out(table, mover, 0, 2) {
        return;
    }
    if !brings_back(table, owner, 2, tape) {
        return;
    }
    close(table, owner, 0, 2);
    tell_word(table, owner, 0, tape);
    let Some(frame) = open(table, owner, 0, tape) else {
        return;
    };
    tell_word(table, owner, 0, tape);
    let left = leave(table, mover, 0, frame);
    tape.did(left);
    if !left {
        table.begin_write(owner, 0);
        tell_word(table, owner, 0, tape);
    }
}

/// Object 0 is moved out of frame 2 while its owner reads it, brought back, and leaves as it was only read: its word after each call, what was read, what the
/// frame's word names before it is released and after, and how many puts and gets were refused.
pub(crate) fn is_moved_out_and_in<S: RawStore>(
    table: &ObjectTable<S>,
    owner: &mut OwnerSeat<S>,
    mover: &mut MoverSeat<S>,
    tape: &mut Tape,
)
    requires low { (3 < table.now.sizes.frames) × (0 < table.now.sizes.objects) }
    requires seats { IsShut table.now owner.old 0 × IsIdle table.now mover.old }
{
    if !bring_with(table, owner, 0, 2, 5) {
        return;
    }
    tell_word(table, owner, 0, tape);
    if !mark(table, mover, 0, 2) {
        return;
    }
    tell_word(table, owner, 0, tape);
    if !read_once(table, owner, 0, tape) {
        return;
    }
    tell_word(table, owner, 0, tape);
    if !put(table, mover, 0, 2) || !commit(table, mover, 0, 2) {
        return;
    }
    tell_word(table, owner, 0, tape);
    releases(table, mover, 2, tape);
    if !brings_back(table, owner, 2, tape) {
        return;
    }
    close(table, owner, 0, 2);
    tell_word(table, owner, 0, tape);
    leaves_clean(table, mover, tape);
    tape.number(owner.refusals().count);
    tape.number(mover.refusals().count);
}
