//! The calls of an owner on its own objects.
ghost use Rattle.std.specs.Prelude.{◌≡◌, ℕ, ◌<◌, ◌-◌, true, Some};
ghost use Rattle.pointer_word.specs.Words.{cleared};
ghost use Rattle.pointer_word.specs.Hands.{closed, writable, added, latest_of};
ghost use Rattle.pointer_word.specs.Calls.{Opens, Closes, Clears, Stores};
ghost use Rattle.object_lock.specs.Seats.{Owns, cell_word, note, with_note};
ghost use Rattle.object_lock.specs.Logs.{Adds, AddsOne};
ghost use Rattle.object_lock.specs.Plays.{FoundWord, Steps, IsLook, LeavesWord, LeavesCell};
ghost use Rattle.object_lock.specs.SeatViews.{IsSeat};
ghost use Rattle.object_lock.specs.Telling.{held, Opened};

use crate::answers::Held;
use crate::found::held_of;
use crate::seat::OwnerSeat;
use crate::table::ObjectTable;
use remote_store::RawStore;

impl<S: RawStore> ObjectTable<S> {
    /// Opens a hold of the object, of which there may be four, and tells where the object is.
    #[inline(always)]
    pub fn open(&self, owner: &mut OwnerSeat<S>, obj: usize) -> Held
        requires table { IsSeat self.now owner.old }
        requires hold { Owns owner.old.view obj × ((note owner.old.view obj).count < 4) }
        ensures table { IsSeat self.now owner.new }
        ensures told { Opened obj owner.old owner.new result }
        ensures logged { Adds owner.old.log owner.new.log obj (Opens obj) (FoundWord owner.old.view.sizes (λ w. (w.count ≡ (note owner.old.view obj).count) × (result ≡ held w.place))) }
        ensures step { Steps S.honest (Opens obj) owner.old.view owner.new.view (λ x. result ≡ held (x.word obj).place) }
    {
        held_of(self.words.open_word(&mut owner.seat, obj))
    }

    /// Closes one hold of the object. With the last one goes what was told of its frame, and the right to write.
    #[inline(always)]
    pub fn close(&self, owner: &mut OwnerSeat<S>, obj: usize)
        requires table { IsSeat self.now owner.old }
        requires hold { Owns owner.old.view obj × (0 < (note owner.old.view obj).count) }
        ensures table { IsSeat self.now owner.new }
        ensures closed { owner.new ≡ record owner.old { view = with_note owner.old.view obj (closed (note owner.old.view obj)); log = owner.new.log } }
        ensures logged { AddsOne owner.old.log owner.new.log obj (Closes obj) }
        ensures step { Steps S.honest (Closes obj) owner.old.view owner.new.view (λ x. LeavesWord (Closes obj) obj ((note owner.old.view obj).count - 1) (x.word obj).place x) }
    {
        self.words.close_word(&mut owner.seat, obj);
    }

    /// Makes a hold of the object one for writing, where its frame was told: a mover that has marked the object can't commit, and one that was clean can't leave.
    #[inline(always)]
    pub fn begin_write(&self, owner: &mut OwnerSeat<S>, obj: usize)
        requires table { IsSeat self.now owner.old }
        requires hold { Owns owner.old.view obj × (0 < (note owner.old.view obj).count) }
        ensures table { IsSeat self.now owner.new }
        ensures writable { owner.new ≡ record owner.old { view = with_note owner.old.view obj (writable (note owner.old.view obj)); log = owner.new.log } }
        ensures logged { AddsOne owner.old.log owner.new.log obj (Clears obj) }
        ensures step { Steps S.honest (Clears obj) owner.old.view owner.new.view (λ x. LeavesWord (Clears obj) obj (note owner.old.view obj).count (cleared (x.word obj).place) x) }
    {
        self.words.clear_word(&mut owner.seat, obj);
    }

    /// The object's cell `i`, in the frame where it was told to be: what was stored there last, where the store is honest.
    #[inline(always)]
    pub fn load(&self, owner: &mut OwnerSeat<S>, obj: usize, frame: usize, i: usize) -> u64
        requires table { IsSeat self.now owner.old }
        requires low { (frame < self.now.sizes.frames) × (i < self.now.sizes.cells) }
        requires hold { Owns owner.old.view obj × ((note owner.old.view obj).frame ≡ Some frame) }
        ensures same { owner.new ≡ owner.old }
        ensures latest { S.honest → result ≡ latest_of (note owner.old.view obj).history i }
        ensures step { IsLook S.honest owner.old.view (λ x. result ≡ x.cell frame i) }
    {
        self.words.load_cell(&mut owner.seat, obj, frame, i)
    }

    /// Stores `v` in the object's cell `i`, in the frame where it was told to be. The hold is one for writing.
    #[inline(always)]
    pub fn store(&self, owner: &mut OwnerSeat<S>, obj: usize, frame: usize, i: usize, v: u64)
        requires table { IsSeat self.now owner.old }
        requires low { (frame < self.now.sizes.frames) × (i < self.now.sizes.cells) }
        requires hold { Owns owner.old.view obj × ((note owner.old.view obj).frame ≡ Some frame) × ((note owner.old.view obj).writing ≡ true) }
        ensures table { IsSeat self.now owner.new }
        ensures added { owner.new ≡ record owner.old { view = with_note owner.old.view obj (added (note owner.old.view obj) i v); log = owner.new.log } }
        ensures logged { AddsOne owner.old.log owner.new.log (cell_word self.now.sizes frame i) (Stores obj frame i v) }
        ensures step { Steps S.honest (Stores obj frame i v) owner.old.view owner.new.view (LeavesCell (Stores obj frame i v) frame i v) }
    {
        self.words.store_cell(&mut owner.seat, obj, frame, i, v);
    }
}
