//! What an owner does with an object of its own.
ghost use Rattle.object_lock.specs.SeatViews.{IsSeat};
ghost use Rattle.object_lock.specs.Seats.{Owns, note};
ghost use Rattle.std.specs.Prelude.{◌≡◌, true};

use object_lock::{Held, ObjectTable, OwnerSeat};
use remote_store::RawStore;

/// Stores the value in cell 0 of the object, where that is in a frame, and closes it again. Whether it did.
pub(crate) fn write<S: RawStore>(
    table: &ObjectTable<S>,
    owner: &mut OwnerSeat<S>,
    obj: usize,
    value: u64,
) -> bool
    requires table { IsSeat table.now owner.old }
    requires own { Owns owner.old.view obj × ((note owner.old.view obj).count ≡ 0) }
    ensures table { IsSeat table.now owner.new }
    ensures own { result ≡ true → Owns owner.new.view obj × ((note owner.new.view obj).count ≡ 0) }
{
    let Held::Here(frame) = table.open(owner, obj) else {
        return false;
    };
    table.begin_write(owner, obj);
    table.store(owner, obj, frame, 0, value);
    table.close(owner, obj);
    true
}

/// Opens the object: its frame and its cell 0, where it is in a frame.
pub(crate) fn read<S: RawStore>(
    table: &ObjectTable<S>,
    owner: &mut OwnerSeat<S>,
    obj: usize,
) -> Option<(usize, u64)>
    requires table { IsSeat table.now owner.old }
    requires own { Owns owner.old.view obj × ((note owner.old.view obj).count ≡ 0) }
{
    let Held::Here(frame) = table.open(owner, obj) else {
        return None;
    };
    Some((frame, table.load(owner, obj, frame, 0)))
}
