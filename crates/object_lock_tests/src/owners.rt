//! An owner brings in its objects and works on them.
ghost use Rattle.std.specs.Prelude.{◌≡◌, ◌<◌};
ghost use Rattle.object_lock_tests.specs.Standing.{IsShut};

use crate::standing::{bring, close, open, read, write};
use crate::tape::Tape;
use object_lock::{Held, ObjectTable, OwnerSeat};
use remote_store::RawStore;

/// Brings in object 0, and stores 7 and then 9 in its cell 5: what that is before and after each, and the cell 6. Then closes the object
/// and opens it again: its cell 5.
pub(crate) fn stores<S: RawStore>(table: &ObjectTable<S>, owner: &mut OwnerSeat<S>, tape: &mut Tape)
    requires low { 3 < table.now.sizes.frames }
    requires shut { IsShut table.now owner.old 0 }
{
    if !bring(table, owner, 0, 2) {
        return;
    }
    tape.number(read(table, owner, 0, 2, 5));
    write(table, owner, 0, 2, 5, 7);
    tape.number(read(table, owner, 0, 2, 5));
    write(table, owner, 0, 2, 5, 9);
    tape.number(read(table, owner, 0, 2, 5));
    tape.number(read(table, owner, 0, 2, 6));
    close(table, owner, 0, 2);
    if let Some(frame) = open(table, owner, 0, tape) {
        tape.number(read(table, owner, 0, frame, 5));
    }
}

/// Opens two holds of object 0, and begins it with both.
pub(crate) fn begins_with_two_holds<S: RawStore>(
    table: &ObjectTable<S>,
    owner: &mut OwnerSeat<S>,
    tape: &mut Tape,
)
    requires shut { IsShut table.now owner.old 0 }
{
    let Held::Away = table.open(owner, 0) else {
        return;
    };
    let Held::Away = table.open(owner, 0) else {
        return;
    };
    tape.begun(table.try_begin(owner, 0, 2));
}

/// Opens two holds of object 0, closes one, and begins it with the other.
pub(crate) fn begins_after_a_close<S: RawStore>(
    table: &ObjectTable<S>,
    owner: &mut OwnerSeat<S>,
    tape: &mut Tape,
)
    requires shut { IsShut table.now owner.old 0 }
{
    let Held::Away = table.open(owner, 0) else {
        return;
    };
    let Held::Away = table.open(owner, 0) else {
        return;
    };
    table.close(owner, 0);
    tape.begun(table.try_begin(owner, 0, 1));
}

/// Brings in object 0, opens a second hold of it, and tries to begin it.
pub(crate) fn holds_again<S: RawStore>(
    table: &ObjectTable<S>,
    owner: &mut OwnerSeat<S>,
    tape: &mut Tape,
)
    requires low { 3 < table.now.sizes.frames }
    requires shut { IsShut table.now owner.old 0 }
{
    if !bring(table, owner, 0, 2) {
        return;
    }
    let held = table.open(owner, 0);
    tape.opened(held);
    if let Held::Here(_frame) = held {
        tape.begun(table.try_begin(owner, 0, 2));
    }
}
