//! The table of a scenario, and what several scenarios do with an object.
ghost use Rattle.std.specs.Prelude.{◌≡◌, ◌≢◌, ℕ, ◌<◌, ◌≤◌, ◌/◌, true, None, Some, IfSome, length};
ghost use Rattle.pointer_word.specs.Hands.{listed};
ghost use Rattle.pointer_word.specs.Calls.{Filled};
ghost use Rattle.pointer_word.specs.Asked.{HasNoFrame, HasNothing};
ghost use Rattle.pointer_word.specs.Ordered.{IsCopied};
ghost use Rattle.object_lock.specs.Seats.{Owns, note, with_hand};
ghost use Rattle.object_lock.specs.Seating.{IsMovingOut};
ghost use Rattle.object_lock.specs.SeatViews.{IsSeat};
ghost use Rattle.object_lock.specs.Fresh.{IsFreshMover, IsFreshOwner, sizes_of};
ghost use Rattle.object_lock.specs.Telling.{HasPut};

use cells::Piece;
use object_lock::{Begin, Held, MoverSeat, ObjectTable, OwnerSeat};
use remote_store::{Config, MOST_CELLS, RawStore, Stores};
use std::alloc::Global;

/// Fills the claimed frame with zeros, which are what was promised.
pub(crate) fn fill_zeros<S: RawStore>(
    table: &ObjectTable<S>,
    mover: &mut MoverSeat<S>,
    frame: usize,
)
    requires table { IsSeat table.now mover.old × (frame < table.now.sizes.frames) }
    requires claimed { mover.old.view.hand.claimed ≡ Some frame }
    requires zeros { (i : ℕ) → i < table.now.sizes.cells → listed mover.old.view.hand.promised i ≡ 0 }
    ensures table { IsSeat table.now mover.new }
    ensures same { mover.new ≡ record mover.old { view = with_hand mover.old.view (record mover.old.view.hand { filled = mover.new.view.hand.filled }); log = mover.new.log } }
    ensures filled { Filled S.honest table.now.sizes.cells mover.new.view.hand }
{
    for i in 0..table.cells() {
        table.fill(mover, frame, i, 0);
    }
}

/// Fills the claimed frame with the words, which are those that were promised.
pub(crate) fn fill_words<S: RawStore>(
    table: &ObjectTable<S>,
    mover: &mut MoverSeat<S>,
    frame: usize,
    words: &[u64],
)
    requires table { IsSeat table.now mover.old × (frame < table.now.sizes.frames) }
    requires claimed { mover.old.view.hand.claimed ≡ Some frame }
    requires words { length words.now ≡ table.now.sizes.cells }
    requires promised { S.honest → (i : ℕ) → i < table.now.sizes.cells → listed words.now i ≡ listed mover.old.view.hand.promised i }
    ensures table { IsSeat table.now mover.new }
    ensures same { mover.new ≡ record mover.old { view = with_hand mover.old.view (record mover.old.view.hand { filled = mover.new.view.hand.filled }); log = mover.new.log } }
    ensures filled { Filled S.honest table.now.sizes.cells mover.new.view.hand }
{
    for i in 0..words.len() {
        table.fill(mover, frame, i, words[i]);
    }
}

/// Opens an object that is away and into whose berth nothing was put, and brings it into the frame, where that is free.
pub(crate) fn bring_in<S: RawStore>(
    table: &ObjectTable<S>,
    owner: &mut OwnerSeat<S>,
    obj: usize,
    frame: usize,
) -> bool
    requires table { IsSeat table.now owner.old × (frame < table.now.sizes.frames) }
    requires owns { Owns owner.old.view obj × ((note owner.old.view obj).count ≡ 0) × HasNothing owner.old.view.hand }
    ensures table { IsSeat table.now owner.new }
    ensures here { result ≡ true → Owns owner.new.view obj × ((note owner.new.view obj).count ≡ 1) × ((note owner.new.view obj).frame ≡ Some frame) }
    ensures hand { result ≡ true → HasNothing owner.new.view.hand }
{
    let Held::Away = table.open(owner, obj) else {
        return false;
    };
    let Begin::Taken = table.try_begin(owner, obj, 1) else {
        return false;
    };
    if owner.stored(obj) || !table.try_claim(owner, frame, obj) {
        return false;
    }
    fill_zeros(table, owner, frame);
    table.arrive(owner, obj, frame);
    true
}

/// Brings in the object, into whose berth something was put: its cell 0 then.
pub(crate) fn bring_back<S: RawStore>(
    table: &ObjectTable<S>,
    owner: &mut OwnerSeat<S>,
    obj: usize,
    frame: usize,
) -> Option<u64>
    requires table { IsSeat table.now owner.old × (frame < table.now.sizes.frames) }
    requires begun { Owns owner.old.view obj × ((note owner.old.view obj).count ≡ 1) × (owner.old.view.hand.bringing ≡ Some obj) × (owner.old.view.hand.leaving ≡ None) × HasNoFrame owner.old.view.hand }
    ensures table { IsSeat table.now owner.new }
    ensures here { IfSome result (λ _. Owns owner.new.view obj × ((note owner.new.view obj).count ≡ 1) × ((note owner.new.view obj).frame ≡ Some frame)) }
    ensures hand { IfSome result (λ _. HasNothing owner.new.view.hand) }
{
    if !table.try_claim(owner, frame, obj) || !owner.stored(obj) {
        return None;
    }
    let mut buffer = [0; MOST_CELLS];
    let cells = table.cells();
    let words = &mut buffer[..cells];
    let Ok(()) = owner.get(obj, &mut *words) else {
        return None;
    };
    fill_words(table, owner, frame, &*words);
    table.arrive(owner, obj, frame);
    Some(table.load(owner, obj, frame, 0))
}

/// Copies the cells of the object that the mover is moving out of the frame.
fn copy_cells<S: RawStore>(
    table: &ObjectTable<S>,
    mover: &mut MoverSeat<S>,
    frame: usize,
    words: &mut [u64],
)
    requires table { IsSeat table.now mover.old × (frame < table.now.sizes.frames) }
    requires leaves { IsMovingOut mover.old.view.hand frame }
    requires words { length words.old ≡ table.now.sizes.cells }
    ensures table { IsSeat table.now mover.new }
    ensures length { length words.new ≡ table.now.sizes.cells }
    ensures same { mover.new ≡ record mover.old { view = with_hand mover.old.view (record mover.old.view.hand { copied = mover.new.view.hand.copied }); log = mover.new.log } }
    ensures copied { IsCopied mover.new.view.hand words.new table.now.sizes.cells }
{
    for i in 0..words.len() {
        words[i] = table.copy_word(mover, frame, i);
    }
}

/// Copies the cells of the object that the mover is moving out, and puts them into its berth.
pub(crate) fn copy_and_put<S: RawStore>(
    table: &ObjectTable<S>,
    mover: &mut MoverSeat<S>,
    obj: usize,
    frame: usize,
) -> bool
    requires table { IsSeat table.now mover.old × (frame < table.now.sizes.frames) }
    requires leaves { (mover.old.view.hand.leaving ≡ Some obj) × (mover.old.view.hand.source ≡ frame) }
    ensures table { IsSeat table.now mover.new }
    ensures same { mover.new ≡ record mover.old { view = with_hand mover.old.view (record mover.old.view.hand { copied = mover.new.view.hand.copied }); taken = mover.new.taken; store = mover.new.store; refusals = mover.new.refusals; log = mover.new.log } }
    ensures put { result ≡ true → HasPut S.fits S.content table.now.sizes.cells obj mover.new }
{
    let mut buffer = [0; MOST_CELLS];
    let cells = table.cells();
    let words = &mut buffer[..cells];
    copy_cells(table, mover, frame, &mut *words);
    mover.put(obj, &*words).is_ok()
}

/// A table of four frames for pieces of 64 cells, the seat of its only program, which is mover 1, and that of another mover, which is mover 2.
pub(crate) fn owner_and_mover<M: Stores + Drop>(
    alloc: Global,
    objects: u32,
    stores: M,
) -> Option<(ObjectTable<M::S>, OwnerSeat<M::S>, MoverSeat<M::S>)>
    requires objects { (0 < objects) × (objects ≤ 16777216) }
    requires store { M.makes stores 67 }
    ensures { IfSome result (λ t. (t.0.sizes ≡ sizes_of objects 4 64 2) × IsFreshOwner t.0 (objects / 1) t.1 × IsFreshMover t.0 t.2) }
{
    let config = Config {
        frames: 4,
        objects,
        evacuators: 1,
        fetchers: 0,
        workers: 4,
        quantum: 1_000,
        stores,
    };
    let Ok((table, mut owners, mut movers)) = ObjectTable::<M::S>::new(
        alloc,
        1,
        &config,
        Piece::Cells64,
    ) else {
        return None;
    };
    let Some(owner) = owners.pop() else {
        return None;
    };
    let Some(mover) = movers.pop() else {
        return None;
    };
    Some((table, owner, mover))
}
