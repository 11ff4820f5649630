//! The calls of a mover that brings an object into a frame.
ghost use Rattle.std.specs.Prelude.{◌≡◌, ℕ, ◌<◌, ◌≤◌, ◌==◌, ◌↔◌, not, true, false, Some, None};
ghost use Rattle.pointer_word.specs.Words.{Away, Here, framed};
ghost use Rattle.pointer_word.specs.Hands.{told, filling, arriving, retreating};
ghost use Rattle.pointer_word.specs.Calls.{Filled, Begins, Claims, Fills, Arrives, Retreats};
ghost use Rattle.pointer_word.specs.Asked.{HasNoFrame, HasNothing};
ghost use Rattle.object_lock.specs.Seats.{Owns, cell_word, frame_word, note, with_note, with_hand};
ghost use Rattle.object_lock.specs.Logs.{Adds, AddsOne};
ghost use Rattle.object_lock.specs.Plays.{FoundWord, Steps, Holds, IsUnheld, LeavesWord, LeavesAt, LeavesCell};
ghost use Rattle.object_lock.specs.SeatViews.{IsSeat};
ghost use Rattle.object_lock.specs.Telling.{tried, Begun, Fetched, Claimed};

use crate::answers::Begin;
use crate::found::begin_of;
use crate::seat::MoverSeat;
use crate::table::ObjectTable;
use pointer_word::Word;
use remote_store::RawStore;

impl<S: RawStore> ObjectTable<S> {
    /// Begins to bring in the object, where that is in its store cell and has `count` holds: those that its owner knows
    /// of, or none for a fetcher. Where it is in a frame its owner is told of that.
    pub fn try_begin(&self, mover: &mut MoverSeat<S>, obj: usize, count: u64) -> Begin
        requires table { IsSeat self.now mover.old }
        requires low { (obj < self.now.sizes.objects) × (count ≤ 4) }
        requires hold { 0 < count → Owns mover.old.view obj × (count ≡ (note mover.old.view obj).count) }
        requires empty { HasNothing mover.old.view.hand }
        ensures table { IsSeat self.now mover.new }
        ensures told { 0 < count → Begun S.fits S.content obj mover.old mover.new result }
        ensures fetched { count ≡ 0 → Fetched S.fits S.content obj mover.old mover.new result }
        ensures logged { result ≡ Begin.Taken → Adds mover.old.log mover.new.log obj (Begins mover.old.view.number obj count (not (count == 0))) (λ n. n ≡ count) }
        ensures noted { (f : ℕ) → 0 < count → result ≡ Begin.Here f → Adds mover.old.log mover.new.log obj (Begins mover.old.view.number obj count true) (FoundWord mover.old.view.sizes (λ w. framed w.place ≡ Some f)) }
        ensures step { Steps S.honest (Begins mover.old.view.number obj count (not (count == 0))) mover.old.view mover.new.view (λ x. result ≡ tried count (x.word obj)) }
    {
        let coming = Word::coming(count, mover.number);
        let found = self
            .words
            .begin_word(&mut mover.seat, obj, count, coming.bits);
        if found == count {
            mover.brought = self.words.table.shared.exchange(&mut mover.seat, obj, None);
            Begin::Taken
        } else {
            begin_of(found)
        }
    }

    /// Claims the frame for the object that the mover is bringing in, where the frame is free.
    pub fn try_claim(&self, mover: &mut MoverSeat<S>, frame: usize, obj: usize) -> bool
        requires table { IsSeat self.now mover.old }
        requires low { (frame < self.now.sizes.frames) × (obj < self.now.sizes.objects) }
        requires hands { (mover.old.view.hand.bringing ≡ Some obj) × (mover.old.view.hand.leaving ≡ None) × HasNoFrame mover.old.view.hand }
        ensures table { IsSeat self.now mover.new }
        ensures told { Claimed frame mover.old mover.new result }
        ensures logged { result ≡ true → Adds mover.old.log mover.new.log (frame_word self.now.sizes frame) (Claims mover.old.view.number obj frame) (λ n. n ≡ 0) }
        ensures step { Steps S.honest (Claims mover.old.view.number obj frame) mover.old.view mover.new.view (λ x. result ≡ true ↔ x.frame frame ≡ 0) }
    {
        self.words
            .claim_word(&mut mover.seat, obj, frame, obj as u64 + 1)
            == 0
    }

    /// Fills the cell `i` of the frame that the mover has claimed.
    pub fn fill(&self, mover: &mut MoverSeat<S>, frame: usize, i: usize, v: u64)
        requires table { IsSeat self.now mover.old }
        requires low { (frame < self.now.sizes.frames) × (i < self.now.sizes.cells) }
        requires claimed { mover.old.view.hand.claimed ≡ Some frame }
        ensures table { IsSeat self.now mover.new }
        ensures filled { mover.new ≡ record mover.old { view = with_hand mover.old.view (filling mover.old.view.hand i v); log = mover.new.log } }
        ensures logged { AddsOne mover.old.log mover.new.log (cell_word self.now.sizes frame i) (Fills mover.old.view.number frame i v) }
        ensures step { Steps S.honest (Fills mover.old.view.number frame i v) mover.old.view mover.new.view (LeavesCell (Fills mover.old.view.number frame i v) frame i v) }
    {
        let first = self.first_cell(frame);
        self.fill_behind(mover, first, frame, i, v);
    }

    /// Fills the cell `i` of the frame that the mover has claimed, whose cells begin at this word (`first_cell`).
    pub fn fill_behind(
        &self,
        mover: &mut MoverSeat<S>,
        first: usize,
        frame: usize,
        i: usize,
        v: u64,
    )
        requires table { IsSeat self.now mover.old }
        requires low { (frame < self.now.sizes.frames) × (i < self.now.sizes.cells) }
        requires first { first ≡ cell_word self.now.sizes frame 0 }
        requires claimed { mover.old.view.hand.claimed ≡ Some frame }
        ensures table { IsSeat self.now mover.new }
        ensures filled { mover.new ≡ record mover.old { view = with_hand mover.old.view (filling mover.old.view.hand i v); log = mover.new.log } }
        ensures logged { AddsOne mover.old.log mover.new.log (cell_word self.now.sizes frame i) (Fills mover.old.view.number frame i v) }
        ensures step { Steps S.honest (Fills mover.old.view.number frame i v) mover.old.view mover.new.view (LeavesCell (Fills mover.old.view.number frame i v) frame i v) }
    {
        self.words.fill_cell(&mut mover.seat, first, frame, i, v);
    }

    /// The object is in the claimed frame, all of whose cells were filled, and its berth is back in its slot: it is clean. An owner
    /// that holds the object is told of the frame.
    pub fn arrive(&self, mover: &mut MoverSeat<S>, obj: usize, frame: usize)
        requires table { IsSeat self.now mover.old }
        requires low { (obj < self.now.sizes.objects) × (frame < self.now.sizes.frames) }
        requires hands { (mover.old.view.hand.bringing ≡ Some obj) × (mover.old.view.hand.claimed ≡ Some frame) × (mover.old.view.hand.leaving ≡ None) }
        requires filled { Filled S.honest self.now.sizes.cells mover.old.view.hand }
        ensures table { IsSeat self.now mover.new }
        ensures arrived { Holds mover.old.view obj → mover.new ≡ record mover.old { view = with_note (with_hand mover.old.view (arriving mover.old.view.hand)) obj (told (note mover.old.view obj) (Some frame)); brought = None; log = mover.new.log } }
        ensures brought { IsUnheld mover.old.view obj → mover.new ≡ record mover.old { view = with_hand mover.old.view (arriving mover.old.view.hand); brought = None; log = mover.new.log } }
        ensures held_log { Holds mover.old.view obj → AddsOne mover.old.log mover.new.log obj (Arrives mover.old.view.number obj frame true) }
        ensures unheld_log { IsUnheld mover.old.view obj → AddsOne mover.old.log mover.new.log obj (Arrives mover.old.view.number obj frame false) }
        ensures step { Holds mover.old.view obj → Steps S.honest (Arrives mover.old.view.number obj frame true) mover.old.view mover.new.view (LeavesWord (Arrives mover.old.view.number obj frame true) obj (note mover.old.view obj).count (Here frame true)) }
        ensures unheld_step { IsUnheld mover.old.view obj → Steps S.honest (Arrives mover.old.view.number obj frame false) mover.old.view mover.new.view (LeavesAt (Arrives mover.old.view.number obj frame false) obj (Here frame true)) }
    {
        let berth = mover.brought.take();
        self.words
            .table
            .shared
            .exchange(&mut mover.seat, obj, berth);
        let by = Word::arrival(mover.number, frame as u64);
        self.words.arrive_word(&mut mover.seat, obj, frame, by);
    }

    /// Gives up the object that the mover is bringing in, for which it has claimed no frame: it stays in its store cell, and
    /// its berth is back in its slot.
    pub fn retreat(&self, mover: &mut MoverSeat<S>, obj: usize)
        requires table { IsSeat self.now mover.old }
        requires low { obj < self.now.sizes.objects }
        requires hands { (mover.old.view.hand.bringing ≡ Some obj) × (mover.old.view.hand.leaving ≡ None) × (mover.old.view.hand.claimed ≡ None) }
        ensures table { IsSeat self.now mover.new }
        ensures retreated { mover.new ≡ record mover.old { view = with_hand mover.old.view (retreating mover.old.view.hand); brought = None; log = mover.new.log } }
        ensures logged { AddsOne mover.old.log mover.new.log obj (Retreats mover.old.view.number obj) }
        ensures step { Steps S.honest (Retreats mover.old.view.number obj) mover.old.view mover.new.view (LeavesAt (Retreats mover.old.view.number obj) obj Away) }
    {
        let berth = mover.brought.take();
        self.words
            .table
            .shared
            .exchange(&mut mover.seat, obj, berth);
        self.words.retreat_word(&mut mover.seat, obj);
    }
}
