//! Calls of the table by where their seats stand between them.
ghost use Rattle.std.specs.Prelude.{◌≡◌, ◌<◌, true, IfSome, MatchBool};
ghost use Rattle.object_lock.specs.SeatViews.{IsSeat};
ghost use Rattle.object_lock_tests.specs.Standing.{IsFreeing, IsIdle, IsMoving, IsOpen, IsPut, IsShut};

use crate::fixtures::{bring_in, copy_and_put};
use crate::tape::Tape;
use object_lock::{Held, MoverSeat, ObjectTable, OwnerSeat};
use remote_store::RawStore;

/// Tells the object's word.
pub(crate) fn tell_word<S: RawStore>(
    table: &ObjectTable<S>,
    seat: &mut MoverSeat<S>,
    obj: usize,
    tape: &mut Tape,
)
    requires table { IsSeat table.now seat.old × (obj < table.now.sizes.objects) }
    ensures same { seat.new ≡ seat.old }
{
    tape.word(table.word(seat, obj));
}

/// Brings in an object that is away and into whose berth nothing was put, where the frame is free.
pub(crate) fn bring<S: RawStore>(
    table: &ObjectTable<S>,
    owner: &mut OwnerSeat<S>,
    obj: usize,
    frame: usize,
) -> bool
    requires shut { IsShut table.now owner.old obj }
    requires low { frame < table.now.sizes.frames }
    ensures { result ≡ true → IsOpen table.now owner.new obj frame }
{
    bring_in(table, owner, obj, frame)
}

/// Opens a hold of the object, where that is in a frame: which one.
pub(crate) fn open<S: RawStore>(
    table: &ObjectTable<S>,
    owner: &mut OwnerSeat<S>,
    obj: usize,
    tape: &mut Tape,
) -> Option<usize>
    requires shut { IsShut table.now owner.old obj }
    ensures { IfSome result (λ frame. IsOpen table.now owner.new obj frame) }
{
    let held = table.open(owner, obj);
    tape.opened(held);
    match held {
        Held::Here(frame) => Some(frame),
        Held::Away => None,
        Held::Coming => None,
    }
}

/// The cell `i` of the object, one of the first 16, which pieces of each size have.
pub(crate) fn read<S: RawStore>(
    table: &ObjectTable<S>,
    owner: &mut OwnerSeat<S>,
    obj: usize,
    frame: usize,
    i: usize,
) -> u64
    requires open { IsOpen table.now owner.old obj frame }
    requires low { i < 16 }
    ensures same { owner.new ≡ owner.old }
{
    table.load(owner, obj, frame, i)
}

/// Begins to write the object, and stores the value in its cell `i`, one of the first 16.
pub(crate) fn write<S: RawStore>(
    table: &ObjectTable<S>,
    owner: &mut OwnerSeat<S>,
    obj: usize,
    frame: usize,
    i: usize,
    value: u64,
)
    requires open { IsOpen table.now owner.old obj frame }
    requires low { i < 16 }
    ensures { IsOpen table.now owner.new obj frame }
{
    table.begin_write(owner, obj);
    table.store(owner, obj, frame, i, value);
}

/// Closes the object's only hold.
pub(crate) fn close<S: RawStore>(
    table: &ObjectTable<S>,
    owner: &mut OwnerSeat<S>,
    obj: usize,
    frame: usize,
)
    requires open { IsOpen table.now owner.old obj frame }
    ensures { IsShut table.now owner.new obj }
{
    // For the proof alone: the condition speaks of the frame.
    let _ = frame;
    table.close(owner, obj);
}

/// Has the object leave the frame, where it is clean there with no hold.
pub(crate) fn leave<S: RawStore>(
    table: &ObjectTable<S>,
    mover: &mut MoverSeat<S>,
    obj: usize,
    frame: usize,
) -> bool
    requires idle { IsIdle table.now mover.old }
    requires low { (obj < table.now.sizes.objects) × (frame < table.now.sizes.frames) }
    ensures { MatchBool result (IsFreeing table.now mover.new frame) (IsIdle table.now mover.new) }
{
    table.try_leave(mover, obj, frame)
}

/// Marks the object in the frame, where it is there with no hold and not clean.
pub(crate) fn mark<S: RawStore>(
    table: &ObjectTable<S>,
    mover: &mut MoverSeat<S>,
    obj: usize,
    frame: usize,
) -> bool
    requires idle { IsIdle table.now mover.old }
    requires low { (obj < table.now.sizes.objects) × (frame < table.now.sizes.frames) }
    ensures { MatchBool result (IsMoving table.now mover.new obj frame) (IsIdle table.now mover.new) }
{
    table.try_mark(mover, obj, frame)
}

/// Copies the object's cells and puts them into its berth.
pub(crate) fn put<S: RawStore>(
    table: &ObjectTable<S>,
    mover: &mut MoverSeat<S>,
    obj: usize,
    frame: usize,
) -> bool
    requires moving { IsMoving table.now mover.old obj frame }
    ensures { MatchBool result (IsPut S.fits S.content table.now mover.new obj frame) (IsMoving table.now mover.new obj frame) }
{
    copy_and_put(table, mover, obj, frame)
}

/// Tries to commit.
pub(crate) fn commit<S: RawStore>(
    table: &ObjectTable<S>,
    mover: &mut MoverSeat<S>,
    obj: usize,
    frame: usize,
) -> bool
    requires put { IsPut S.fits S.content table.now mover.old obj frame }
    ensures { MatchBool result (IsFreeing table.now mover.new frame) (IsMoving table.now mover.new obj frame) }
{
    // For the proof alone: the condition speaks of the frame.
    let _ = frame;
    table.try_commit(mover, obj)
}

/// Gives up an object that was put.
pub(crate) fn give_up_put<S: RawStore>(
    table: &ObjectTable<S>,
    mover: &mut MoverSeat<S>,
    obj: usize,
    frame: usize,
)
    requires put { IsPut S.fits S.content table.now mover.old obj frame }
    ensures { IsIdle table.now mover.new }
{
    give_up(table, mover, obj, frame);
}

/// Gives up the object that is being moved out.
pub(crate) fn give_up<S: RawStore>(
    table: &ObjectTable<S>,
    mover: &mut MoverSeat<S>,
    obj: usize,
    frame: usize,
)
    requires moving { IsMoving table.now mover.old obj frame }
    ensures { IsIdle table.now mover.new }
{
    // For the proof alone: the condition speaks of the frame.
    let _ = frame;
    table.abort(mover, obj);
}

/// Releases the frame.
pub(crate) fn release<S: RawStore>(table: &ObjectTable<S>, mover: &mut MoverSeat<S>, frame: usize)
    requires freeing { IsFreeing table.now mover.old frame }
    ensures { IsIdle table.now mover.new }
{
    table.release(mover, frame);
}

/// Moves the object out of the frame, where it is there with no hold and not clean, and still has none when it is away.
pub(crate) fn move_out<S: RawStore>(
    table: &ObjectTable<S>,
    mover: &mut MoverSeat<S>,
    obj: usize,
    frame: usize,
) -> bool
    requires idle { IsIdle table.now mover.old }
    requires low { (obj < table.now.sizes.objects) × (frame < table.now.sizes.frames) }
    ensures { IsIdle table.now mover.new }
{
    if !mark(table, mover, obj, frame) {
        return false;
    }
    if !put(table, mover, obj, frame) {
        give_up(table, mover, obj, frame);
        return false;
    }
    if !commit(table, mover, obj, frame) {
        give_up(table, mover, obj, frame);
        return false;
    }
    release(table, mover, frame);
    true
}

/// Brings the object into the frame, stores the value in its cell 0, and closes it.
pub(crate) fn bring_with<S: RawStore>(
    table: &ObjectTable<S>,
    owner: &mut OwnerSeat<S>,
    obj: usize,
    frame: usize,
    value: u64,
) -> bool
    requires shut { IsShut table.now owner.old obj }
    requires low { frame < table.now.sizes.frames }
    ensures { result ≡ true → IsShut table.now owner.new obj }
{
    if !bring(table, owner, obj, frame) {
        return false;
    }
    write(table, owner, obj, frame, 0, value);
    close(table, owner, obj, frame);
    true
}

/// Opens the object, which is in a frame, and closes it: its cell 0.
pub(crate) fn read_once<S: RawStore>(
    table: &ObjectTable<S>,
    owner: &mut OwnerSeat<S>,
    obj: usize,
    tape: &mut Tape,
) -> bool
    requires shut { IsShut table.now owner.old obj }
    ensures { result ≡ true → IsShut table.now owner.new obj }
{
    let Some(frame) = open(table, owner, obj, tape) else {
        return false;
    };
    tape.number(read(table, owner, obj, frame, 0));
    close(table, owner, obj, frame);
    true
}
