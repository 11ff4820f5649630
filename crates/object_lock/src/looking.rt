//! A look at an object's word.
ghost use Rattle.std.specs.Prelude.{◌≡◌, ◌<◌};
ghost use Rattle.pointer_word.specs.Words.{pack};
ghost use Rattle.object_lock.specs.Seats.{sizes};
ghost use Rattle.object_lock.specs.Seating.{IsToken};
ghost use Rattle.object_lock.specs.Plays.{IsLook};
ghost use Rattle.object_lock.specs.SeatViews.{IsSeat};

use crate::plays::Peeks;
use crate::seat::MoverSeat;
use crate::table::{LockWords, ObjectTable, Token};
use remote_store::RawStore;

impl<S: RawStore> LockWords<S> {
    /// The object's word.
    pub(crate) fn peek_word(&self, seat: &mut Token<S::Cell>, obj: usize) -> u64
        requires table { IsToken self.now.table.shared.table_id (sizes self.now.shape) seat.old.table_id seat.old.me.0.view }
        requires low { obj < self.now.shape.objects }
        ensures seat { (seat.new.table_id ≡ seat.old.table_id) × (seat.new.id ≡ seat.old.id) }
        ensures same { seat.new.me ≡ seat.old.me }
        ensures look { IsLook S.honest seat.old.me.0.view (λ x. result ≡ pack (x.word obj)) }
    {
        self.table.shared.load::<Peeks<S>>(seat, obj)
    }
}

impl<S: RawStore> ObjectTable<S> {
    /// The object's pointer word as it is now, its 64 bits. It is a hint where the object is another's: it may change at once.
    pub fn word(&self, seat: &mut MoverSeat<S>, obj: usize) -> u64
        requires table { IsSeat self.now seat.old }
        requires low { obj < self.now.sizes.objects }
        ensures same { seat.new ≡ seat.old }
        ensures step { IsLook S.honest seat.old.view (λ x. result ≡ pack (x.word obj)) }
    {
        self.words.peek_word(&mut seat.seat, obj)
    }
}
