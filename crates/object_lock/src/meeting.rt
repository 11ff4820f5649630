//! Seats of a table that are joined, and looked through at once.
ghost use Rattle.std.specs.Prelude.{◌≡◌, ◌<◌, [], length, map};
ghost use Rattle.std.specs.List.{All};
ghost use Rattle.object_lock.specs.Kept.{slot_has, slot_keeps};
ghost use Rattle.object_lock.specs.Seats.{sizes};
ghost use Rattle.object_lock.specs.Seating.{IsToken};
ghost use Rattle.object_lock.specs.SeatViews.{HasNoBerth, IsSeat};
ghost use Rattle.object_lock.specs.Joining.{AreTogether, all_of, both, itself, seated_as};

use crate::plays::{Together, Unites};
use crate::seat::MoverSeat;
use crate::table::{LockWords, ObjectTable, Token};
use remote_store::RawStore;

impl<S: RawStore> LockWords<S> {
    /// The seat stands for the other too, and for all that were joined to either.
    pub(crate) fn join_token(&self, seat: &mut Token<S::Cell>, other: Token<S::Cell>)
        requires table { IsToken self.now.table.shared.table_id (sizes self.now.shape) seat.old.table_id seat.old.me.0.view }
        requires other { IsToken self.now.table.shared.table_id (sizes self.now.shape) other.table_id other.me.0.view × (other.me.1 ≡ []) }
        requires some { 0 < self.now.shape.objects }
        ensures { (seat.new.table_id ≡ seat.old.table_id) × (seat.new.id ≡ seat.old.id) × (seat.new.me ≡ (both seat.old.me.0 other.me.0, seat.old.me.1)) }
    {
        self.table.shared.join_seat::<Unites>(seat, other);
    }

    /// One state of the table has all seats for which this one stands, each as it was when it was joined.
    pub(crate) fn look_together(&self, seat: &mut Token<S::Cell>)
        requires table { IsToken self.now.table.shared.table_id (sizes self.now.shape) seat.old.table_id seat.old.me.0.view }
        requires some { 0 < self.now.shape.objects }
        ensures { AreTogether (slot_keeps S.fits S.content self.now.shape.cells) (slot_has S.fits self.now.shape.cells) S.honest (sizes self.now.shape) (all_of seat.old.me.0) }
    {
        self.table.shared.load::<Together<S>>(seat, 0);
    }
}

impl<S: RawStore> MoverSeat<S> {
    /// The seat without its port and its berths.
    fn into_token(self) -> Token<S::Cell>
        ensures same { (result.table_id ≡ self.table) × (itself result.me.0 ≡ seated_as self) }
        ensures slots { HasNoBerth self → result.me.1 ≡ [] }
    {
        self.seat
    }
}

impl<S: RawStore> ObjectTable<S> {
    /// Joins these seats, each of which has no berth in hand, and looks at the table once: there is one state of it in
    /// which each of them is as it was when it was given here, on whichever thread it was used before.
    pub fn meet(&self, mut seats: Vec<MoverSeat<S>>)
        requires table { All (IsSeat self.now) seats.items }
        requires empty { All HasNoBerth seats.items }
        requires some { (0 < self.now.sizes.objects) × (0 < length seats.items) }
        ensures { AreTogether (slot_keeps S.fits S.content self.now.sizes.cells) (slot_has S.fits self.now.sizes.cells) S.honest self.now.sizes (map seated_as seats.items) }
    {
        let Some(last) = seats.pop() else {
            unreachable!()
        };
        let mut seat = last.into_token();
        for other in seats {
            self.words.join_token(&mut seat, other.into_token());
        }
        self.words.look_together(&mut seat);
    }
}
