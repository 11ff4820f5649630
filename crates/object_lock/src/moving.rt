//! The calls of a mover that moves an object out of a frame.
ghost use Rattle.std.specs.Prelude.{◌≡◌, ℕ, ◌<◌, ◌↔◌, true, false, Some, None, IfSome};
ghost use Rattle.pointer_word.specs.Words.{Here, Leaving, counted, face};
ghost use Rattle.pointer_word.specs.Hands.{copying, aborting, unclaiming, releasing};
ghost use Rattle.pointer_word.specs.Calls.{Marks, Copies, Commits, Aborts, Leaves, Unclaims, Releases};
ghost use Rattle.pointer_word.specs.Asked.{HasNoFrame};
ghost use Rattle.object_lock.specs.Seats.{Owns, cell_word, frame_word, with_hand};
ghost use Rattle.object_lock.specs.Seating.{HasFrame, IsMovingOut};
ghost use Rattle.object_lock.specs.Logs.{Adds, AddsOne, AddsTry};
ghost use Rattle.object_lock.specs.Plays.{Steps, IsLook, LeavesAt, LeavesFree};
ghost use Rattle.object_lock.specs.SeatViews.{IsSeat};
ghost use Rattle.object_lock.specs.Telling.{named, Marked, HasPut, Committed, Left};

use crate::found::named_by;
use crate::seat::MoverSeat;
use crate::table::ObjectTable;
use pointer_word::Word;
use remote_store::RawStore;

impl<S: RawStore> ObjectTable<S> {
    /// The object for which the frame was claimed last, where the frame is not free. It is a hint: it promises nothing of
    /// where that object is.
    pub fn look(&self, mover: &mut MoverSeat<S>, frame: usize) -> Option<usize>
        requires table { IsSeat self.now mover.old }
        requires low { frame < self.now.sizes.frames }
        ensures same { mover.new ≡ mover.old }
        ensures near { IfSome result (λ obj. obj < self.now.sizes.objects) }
        ensures step { IsLook S.honest mover.old.view (λ x. result ≡ named (x.frame frame)) }
    {
        named_by(self.words.look_word(&mut mover.seat, frame))
    }

    /// Marks the object, where it is in the frame with no hold, is not clean and is in no mover's hands, and takes its berth.
    pub fn try_mark(&self, mover: &mut MoverSeat<S>, obj: usize, frame: usize) -> bool
        requires table { IsSeat self.now mover.old }
        requires low { (obj < self.now.sizes.objects) × (frame < self.now.sizes.frames) }
        requires hands { (mover.old.view.hand.leaving ≡ None) × HasNoFrame mover.old.view.hand }
        requires own { (p : ℕ) → mover.old.view.hand.bringing ≡ Some p → Owns mover.old.view p }
        ensures table { IsSeat self.now mover.new }
        ensures told { Marked obj frame mover.old mover.new result }
        ensures logged { result ≡ true → Adds mover.old.log mover.new.log obj (Marks mover.old.view.number obj frame) (λ n. n ≡ face (Here frame false) 0) }
        ensures step { Steps S.honest (Marks mover.old.view.number obj frame) mover.old.view mover.new.view (λ x. result ≡ true ↔ x.word obj ≡ counted 0 (Here frame false)) }
    {
        let plain = Word::here(0, frame as u64);
        let marked = Word::leaving(frame as u64, mover.number);
        let found = self
            .words
            .mark_word(&mut mover.seat, obj, frame, plain.bits, marked.bits);
        if found == plain.bits {
            mover.taken = self.words.table.shared.exchange(&mut mover.seat, obj, None);
            mover.source = frame;
            true
        } else {
            false
        }
    }

    /// The object is in its store cell, where it was clean in the frame with no hold: nothing was stored in it since it was brought
    /// in, so nothing is copied or put. Its berth stays in its slot, and the frame is freed.
    pub fn try_leave(&self, mover: &mut MoverSeat<S>, obj: usize, frame: usize) -> bool
        requires table { IsSeat self.now mover.old }
        requires low { (obj < self.now.sizes.objects) × (frame < self.now.sizes.frames) }
        requires hands { (mover.old.view.hand.leaving ≡ None) × HasNoFrame mover.old.view.hand }
        requires own { (p : ℕ) → mover.old.view.hand.bringing ≡ Some p → Owns mover.old.view p }
        ensures table { IsSeat self.now mover.new }
        ensures told { Left frame mover.old mover.new result }
        ensures logged { result ≡ true → Adds mover.old.log mover.new.log obj (Leaves mover.old.view.number obj frame) (λ n. n ≡ face (Here frame true) 0) }
        ensures step { Steps S.honest (Leaves mover.old.view.number obj frame) mover.old.view mover.new.view (λ x. result ≡ true ↔ x.word obj ≡ counted 0 (Here frame true)) }
    {
        let clean = Word::clean_here(frame as u64);
        self.words
            .leave_word(&mut mover.seat, obj, frame, clean.bits)
            == clean.bits
    }

    /// The cell `i` of the frame out of which the mover is moving an object.
    pub fn copy_word(&self, mover: &mut MoverSeat<S>, frame: usize, i: usize) -> u64
        requires table { IsSeat self.now mover.old }
        requires low { (frame < self.now.sizes.frames) × (i < self.now.sizes.cells) }
        requires leaves { IsMovingOut mover.old.view.hand frame }
        ensures table { IsSeat self.now mover.new }
        ensures copied { mover.new ≡ record mover.old { view = with_hand mover.old.view (copying mover.old.view.hand i result); log = mover.new.log } }
        ensures logged { Adds mover.old.log mover.new.log (cell_word self.now.sizes frame i) (Copies mover.old.view.number frame i) (λ n. n ≡ result) }
        ensures step { Steps S.honest (Copies mover.old.view.number frame i) mover.old.view mover.new.view (λ x. result ≡ x.cell frame i) }
    {
        let first = self.first_cell(frame);
        self.copy_behind(mover, first, frame, i)
    }

    /// The cell `i` of the frame out of which the mover is moving an object, whose cells begin at this word (`first_cell`).
    pub fn copy_behind(&self, mover: &mut MoverSeat<S>, first: usize, frame: usize, i: usize) -> u64
        requires table { IsSeat self.now mover.old }
        requires low { (frame < self.now.sizes.frames) × (i < self.now.sizes.cells) }
        requires first { first ≡ cell_word self.now.sizes frame 0 }
        requires leaves { IsMovingOut mover.old.view.hand frame }
        ensures table { IsSeat self.now mover.new }
        ensures copied { mover.new ≡ record mover.old { view = with_hand mover.old.view (copying mover.old.view.hand i result); log = mover.new.log } }
        ensures logged { Adds mover.old.log mover.new.log (cell_word self.now.sizes frame i) (Copies mover.old.view.number frame i) (λ n. n ≡ result) }
        ensures step { Steps S.honest (Copies mover.old.view.number frame i) mover.old.view mover.new.view (λ x. result ≡ x.cell frame i) }
    {
        self.words.copy_cell(&mut mover.seat, first, frame, i)
    }

    /// The object, all of whose cells were copied and put into its berth, is in its store cell, where it still has no hold
    /// and its mark. Its berth is back in its slot then, and the frame is freed.
    pub fn try_commit(&self, mover: &mut MoverSeat<S>, obj: usize) -> bool
        requires table { IsSeat self.now mover.old }
        requires low { obj < self.now.sizes.objects }
        requires hands { (mover.old.view.hand.leaving ≡ Some obj) × HasNoFrame mover.old.view.hand }
        requires put { HasPut S.fits S.content self.now.sizes.cells obj mover.old }
        ensures table { IsSeat self.now mover.new }
        ensures told { Committed mover.old mover.new result }
        ensures logged { (n : ℕ) × AddsTry self.now.sizes.cells mover.old.view mover.old.log mover.new.log obj n × (result ≡ true ↔ n ≡ face (Leaving mover.old.view.hand.source mover.old.view.number true) 0) }
        ensures step { Steps S.honest (Commits mover.old.view.number obj mover.old.view.hand.source) mover.old.view mover.new.view
            (λ x. result ≡ true ↔ x.word obj ≡ counted 0 (Leaving mover.old.view.hand.source mover.old.view.number true)) }
    {
        let marked = Word::leaving(mover.source as u64, mover.number);
        let berth = mover.taken.take();
        self.words
            .table
            .shared
            .exchange(&mut mover.seat, obj, berth);
        let found = self.words.commit_word(&mut mover.seat, obj, marked.bits);
        if found != marked.bits {
            mover.taken = self.words.table.shared.exchange(&mut mover.seat, obj, None);
            return false;
        }
        true
    }

    /// Gives up the object that the mover is moving out: it stays in its frame, and its berth is back in its slot.
    pub fn abort(&self, mover: &mut MoverSeat<S>, obj: usize)
        requires table { IsSeat self.now mover.old }
        requires low { obj < self.now.sizes.objects }
        requires hands { mover.old.view.hand.leaving ≡ Some obj }
        ensures table { IsSeat self.now mover.new }
        ensures aborted { mover.new ≡ record mover.old { view = with_hand mover.old.view (aborting mover.old.view.hand); taken = None; log = mover.new.log } }
        ensures logged { AddsOne mover.old.log mover.new.log obj (Aborts mover.old.view.number obj mover.old.view.hand.source) }
        ensures step { Steps S.honest (Aborts mover.old.view.number obj mover.old.view.hand.source) mover.old.view mover.new.view (LeavesAt (Aborts mover.old.view.number obj mover.old.view.hand.source) obj (Here mover.old.view.hand.source false)) }
    {
        let berth = mover.taken.take();
        self.words
            .table
            .shared
            .exchange(&mut mover.seat, obj, berth);
        self.words.abort_word(&mut mover.seat, obj);
    }

    /// Frees the frame that the mover has claimed, or out of which it has moved an object.
    pub fn release(&self, mover: &mut MoverSeat<S>, frame: usize)
        requires table { IsSeat self.now mover.old }
        requires low { frame < self.now.sizes.frames }
        requires hands { HasFrame mover.old.view.hand frame }
        ensures table { IsSeat self.now mover.new }
        ensures unclaimed { mover.old.view.hand.claimed ≡ Some frame → mover.new ≡ record mover.old { view = with_hand mover.old.view (unclaiming mover.old.view.hand); log = mover.new.log } }
        ensures released { mover.old.view.hand.freed ≡ Some frame → mover.new ≡ record mover.old { view = with_hand mover.old.view (releasing mover.old.view.hand); log = mover.new.log } }
        ensures unclaim_log { mover.old.view.hand.claimed ≡ Some frame → AddsOne mover.old.log mover.new.log (frame_word self.now.sizes frame) (Unclaims mover.old.view.number frame) }
        ensures release_log { mover.old.view.hand.freed ≡ Some frame → AddsOne mover.old.log mover.new.log (frame_word self.now.sizes frame) (Releases mover.old.view.number frame) }
        ensures unclaim_step { mover.old.view.hand.claimed ≡ Some frame → Steps S.honest (Unclaims mover.old.view.number frame) mover.old.view mover.new.view (LeavesFree (Unclaims mover.old.view.number frame) frame) }
        ensures step { mover.old.view.hand.freed ≡ Some frame → Steps S.honest (Releases mover.old.view.number frame) mover.old.view mover.new.view (LeavesFree (Releases mover.old.view.number frame) frame) }
    {
        self.words.release_word(&mut mover.seat, frame);
    }
}
