//! Fetchers, and the frames that movers claim, free and look at.
ghost use Rattle.std.specs.Prelude.{◌<◌};
ghost use Rattle.object_lock.specs.Plays.{IsUnheld};
ghost use Rattle.object_lock_tests.specs.Standing.{IsIdle, IsShut};

use crate::fixtures::fill_zeros;
use crate::standing::{bring, tell_word};
use crate::tape::Tape;
use object_lock::{Begin, MoverSeat, ObjectTable, OwnerSeat};
use remote_store::RawStore;

/// Begins an object into whose berth nothing was put, and brings it into the frame: its word after each.
fn fetch<S: RawStore>(
    table: &ObjectTable<S>,
    fetcher: &mut MoverSeat<S>,
    obj: usize,
    frame: usize,
    tape: &mut Tape,
)
    requires idle { IsIdle table.now fetcher.old }
    requires low { (obj < table.now.sizes.objects) × (frame < table.now.sizes.frames) }
    requires other { IsUnheld fetcher.old.view obj }
{
    let Begin::Taken = table.try_begin(fetcher, obj, 0) else {
        return;
    };
    tape.word(table.word(fetcher, obj));
    if fetcher.stored(obj) || !table.try_claim(fetcher, frame, obj) {
        return;
    }
    fill_zeros(table, fetcher, frame);
    table.arrive(fetcher, obj, frame);
    tape.word(table.word(fetcher, obj));
}

/// The fetcher brings in object 0, and its owner opens it.
pub(crate) fn brings_in<S: RawStore>(
    table: &ObjectTable<S>,
    owner: &mut OwnerSeat<S>,
    fetcher: &mut MoverSeat<S>,
    tape: &mut Tape,
)
    requires low { (3 < table.now.sizes.frames) × (1 < table.now.sizes.objects) }
    requires seats { IsShut table.now owner.old 0 × IsIdle table.now fetcher.old }
    requires other { IsUnheld fetcher.old.view 0 }
{
    fetch(table, fetcher, 0, 3, tape);
    tape.opened(table.open(owner, 0));
}

/// Begins the object, gives it up, and begins it again: the object's word after each.
pub(crate) fn begins_twice<S: RawStore>(
    table: &ObjectTable<S>,
    fetcher: &mut MoverSeat<S>,
    obj: usize,
    tape: &mut Tape,
)
    requires idle { IsIdle table.now fetcher.old }
    requires low { obj < table.now.sizes.objects }
{
    let Begin::Taken = table.try_begin(fetcher, obj, 0) else {
        return;
    };
    tape.word(table.word(fetcher, obj));
    table.retreat(fetcher, obj);
    tape.word(table.word(fetcher, obj));
    let Begin::Taken = table.try_begin(fetcher, obj, 0) else {
        return;
    };
    tape.word(table.word(fetcher, obj));
}

/// The owner opens object 0, which the fetcher then can't begin.
pub(crate) fn is_busy<S: RawStore>(
    table: &ObjectTable<S>,
    owner: &mut OwnerSeat<S>,
    fetcher: &mut MoverSeat<S>,
    tape: &mut Tape,
)
    requires low { (3 < table.now.sizes.frames) × (1 < table.now.sizes.objects) }
    requires seats { IsShut table.now owner.old 0 × IsIdle table.now fetcher.old }
{
    tape.opened(table.open(owner, 0));
    tape.begun(table.try_begin(fetcher, 0, 0));
    tape.word(table.word(owner, 0));
}

/// The owner brings in object 0, which the fetcher then can't begin.
pub(crate) fn is_here<S: RawStore>(
    table: &ObjectTable<S>,
    owner: &mut OwnerSeat<S>,
    fetcher: &mut MoverSeat<S>,
    tape: &mut Tape,
)
    requires low { (3 < table.now.sizes.frames) × (1 < table.now.sizes.objects) }
    requires seats { IsShut table.now owner.old 0 × IsIdle table.now fetcher.old }
{
    if !bring(table, owner, 0, 2) {
        return;
    }
    tape.begun(table.try_begin(fetcher, 0, 0));
    tell_word(table, owner, 0, tape);
}

/// The owner brings object 0 into frame 2, and the fetcher tries to claim that and then frame 3 for object 1.
pub(crate) fn claims_a_free_frame<S: RawStore>(
    table: &ObjectTable<S>,
    owner: &mut OwnerSeat<S>,
    fetcher: &mut MoverSeat<S>,
    tape: &mut Tape,
)
    requires low { (3 < table.now.sizes.frames) × (1 < table.now.sizes.objects) }
    requires seats { IsShut table.now owner.old 0 × IsIdle table.now fetcher.old }
{
    if !bring(table, owner, 0, 2) {
        return;
    }
    let Begin::Taken = table.try_begin(fetcher, 1, 0) else {
        return;
    };
    let first = table.try_claim(fetcher, 2, 1);
    tape.did(first);
    if !first {
        tape.did(table.try_claim(fetcher, 3, 1));
    }
}

/// Begins the object, claims the frame, frees it again, and gives the object up: what a look at the frame tells before the
/// claim, after it and after the release, and the object's word then.
fn claim_and_release<S: RawStore>(
    table: &ObjectTable<S>,
    fetcher: &mut MoverSeat<S>,
    obj: usize,
    frame: usize,
    tape: &mut Tape,
)
    requires idle { IsIdle table.now fetcher.old }
    requires low { (obj < table.now.sizes.objects) × (frame < table.now.sizes.frames) }
{
    tape.names(table.look(fetcher, frame));
    let Begin::Taken = table.try_begin(fetcher, obj, 0) else {
        return;
    };
    if !table.try_claim(fetcher, frame, obj) {
        return;
    }
    tape.names(table.look(fetcher, frame));
    table.release(fetcher, frame);
    tape.names(table.look(fetcher, frame));
    table.retreat(fetcher, obj);
    tape.word(table.word(fetcher, obj));
}

/// A frame that was claimed for object 1 and freed again takes object 0.
pub(crate) fn is_claimed_again<S: RawStore>(
    table: &ObjectTable<S>,
    owner: &mut OwnerSeat<S>,
    fetcher: &mut MoverSeat<S>,
    tape: &mut Tape,
)
    requires low { (3 < table.now.sizes.frames) × (1 < table.now.sizes.objects) }
    requires seats { IsShut table.now owner.old 0 × IsIdle table.now fetcher.old }
{
    claim_and_release(table, fetcher, 1, 2, tape);
    if bring(table, owner, 0, 2) {
        tell_word(table, owner, 0, tape);
    }
}
