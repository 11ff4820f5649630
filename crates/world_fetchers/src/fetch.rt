//! Bringing in an object that nobody waits for, an event at a time.
ghost use Rattle.std.specs.Prelude.{◌≡◌, ◌<◌, ℕ, List, [], None, Some, false, length, option_map, slice_index};
ghost use Rattle.pointer_word.specs.Calls.{Arrives, Begins, Claims, Fills, Retreats, Unclaims, act};
ghost use Rattle.pointer_word.specs.Legal.{holds};
ghost use Rattle.pointer_word.specs.Machine.{Far, State};
ghost use Rattle.pointer_word.specs.Sound.{Inv};
ghost use Rattle.world_actors.specs.Acting.{Leads, Shows, Unread};
ghost use Rattle.world_actors.specs.Asking.{asked_in};
ghost use Rattle.world_fetchers.specs.Fetching.{Brings, fetching_of};
ghost use Rattle.world_memory.specs.Answered.{AnswersSo, Gets};
ghost use Rattle.world_memory.specs.Shown.{IsNew};
ghost use Rattle.world_semantics.specs.Fetchers.{Filling, Reading, as_mode};
ghost use Rattle.world_semantics.specs.Turns.{brings, to_fill};
ghost use Rattle.world_semantics.specs.Worlds.{ReadsHonestly, Sizes};

use remote_store::{Port, RawStore};
use world_memory::{Lock, ObjectPlace};

/// How far a fetcher is with an object that it brings in.
#[derive(Clone, Copy, PartialEq, Eq, Debug)]
pub enum Fetching {
    /// It seeks a frame.
    Bringing(usize),
    /// It has claimed the frame, and is to read the store.
    Reading {
        object: usize,
        frame: usize,
    },
    /// It fills the frame with what it has read, from the cell at `at` on.
    Filling {
        object: usize,
        frame: usize,
        at: usize,
    },
    /// It fills the frame with zeros, from the cell at `at` on.
    Clearing {
        object: usize,
        frame: usize,
        at: usize,
    },
    /// Its store failed, and it gives up the frame that it claimed.
    Releasing {
        object: usize,
        frame: usize,
    },
    /// It gives up the object that it brings in.
    Retreating(usize),
}

impl Fetching {
    /// With a frame claimed it is filled with zeros, where nothing was ever put, else the store is read.
    pub(crate) fn begun(object: usize, frame: usize, is_new: bool) -> Fetching
        ensures { (far : Far) (words : List ℕ) → IsNew is_new far → fetching_of result words ≡ to_fill object frame far }
    {
        if is_new {
            Fetching::Clearing {
                object,
                frame,
                at: 0,
            }
        } else {
            Fetching::Reading { object, frame }
        }
    }
}

/// Tries to begin to bring the object in. False where it is not away, or has a hold.
pub(crate) fn begin<S: RawStore>(lock: &mut Lock<S>, mover: u16, object: usize) -> bool
    ensures { (z : Sizes) (s : State) → object < z.objects → (s.hand mover).bringing ≡ None → Shows S.content z lock.old.memory lock.old.berths s
        → let t = act s (Begins mover object 0 false) in Shows S.content z lock.new.memory lock.new.berths t × (holds (t.hand mover).bringing object ≡ result) }
{
    let row = lock.memory.object(object);
    if row.count == 0 {
        if row.is_away() {
            lock.memory.put_place(object, ObjectPlace::Coming(mover));
            true
        } else {
            false
        }
    } else {
        false
    }
}

/// Tries to claim the frame for the object. False where somebody holds it.
pub(crate) fn claim<S: RawStore>(lock: &mut Lock<S>, object: usize, frame: usize) -> bool
    ensures { (m : ℕ) (z : Sizes) (s : State) → frame < z.frames → (s.hand m).claimed ≡ None → Shows S.content z lock.old.memory lock.old.berths s
        → let t = act s (Claims m object frame) in Shows S.content z lock.new.memory lock.new.berths t × (holds (t.hand m).claimed frame ≡ result) }
{
    if lock.memory.is_free(frame) {
        lock.memory.hold_frame(frame, Some(object));
        true
    } else {
        false
    }
}

/// Reads the store.
fn read<S: RawStore>(
    lock: &Lock<S>,
    port: &mut Port<S>,
    object: usize,
    frame: usize,
    words: &mut [u64],
) -> Fetching
    ensures { (m : ℕ) (z : Sizes) (s : State) → length words.old ≡ z.cells → let d = Reading object frame in
        Brings S.content S.honest z lock.now.memory lock.now.berths m d s → Leads z.cells s (λ a. brings z.cells m false a d Some None None)
        (λ a. (S.honest → ReadsHonestly z.cells s (as_mode d) a.read) × AnswersSo S.reliable S.failures S.read_gives z.cells lock.now.berths.items port.old port.new s.far (Gets object) a)
        (λ u r. Shows S.content z lock.now.memory lock.now.berths u × (r ≡ Some (fetching_of result words.new))) }
{
    if lock.berths.get(port, object, words) {
        Fetching::Filling {
            object,
            frame,
            at: 0,
        }
    } else {
        Fetching::Releasing { object, frame }
    }
}

/// The word of this index.
fn word(words: &[u64], index: usize) -> u64
    requires { index < length words.now }
    ensures { result ≡ slice_index words.now index }
{
    words[index]
}

/// Fills a cell of the frame that was claimed.
fn fill<S: RawStore>(lock: &mut Lock<S>, frame: usize, index: usize, value: u64)
    ensures { (m : ℕ) (z : Sizes) (s : State) → index < z.cells → Inv S.honest z.cells s → (s.hand m).claimed ≡ Some frame → Shows S.content z lock.old.memory lock.old.berths s
        → Shows S.content z lock.new.memory lock.new.berths (act s (Fills m frame index value)) }
{
    lock.memory.put_cell(frame, index, value);
}

/// The frame is filled, and the object is in it.
fn arrive<S: RawStore>(lock: &mut Lock<S>, object: usize, frame: usize)
    ensures { (m : ℕ) (z : Sizes) (s : State) → Inv S.honest z.cells s → (s.hand m).bringing ≡ Some object → Shows S.content z lock.old.memory lock.old.berths s
        → Shows S.content z lock.new.memory lock.new.berths (act s (Arrives m object frame false)) }
{
    lock.memory
        .put_place(object, ObjectPlace::Here(frame, true));
}

/// Fills the next cell with what was read; behind the last the object arrives.
fn fill_next<S: RawStore>(
    lock: &mut Lock<S>,
    object: usize,
    frame: usize,
    at: usize,
    words: &[u64],
) -> Option<Fetching>
    ensures { (m : ℕ) (z : Sizes) (s : State) → length words.now ≡ z.cells → let d = Filling object frame words.now at in
        Brings S.content S.honest z lock.old.memory lock.old.berths m d s → Leads z.cells s (λ a. brings z.cells m false a d Some None None) Unread
        (λ u r. Shows S.content z lock.new.memory lock.new.berths u × (r ≡ option_map (λ e. fetching_of e words.now) result)) }
{
    if at < words.len() {
        let value = word(words, at);
        fill(lock, frame, at, value);
        Some(Fetching::Filling {
            object,
            frame,
            at: at + 1,
        })
    } else {
        arrive(lock, object, frame);
        None
    }
}

/// Fills the next cell with 0; behind the last the object arrives.
fn clear_next<S: RawStore>(
    lock: &mut Lock<S>,
    object: usize,
    frame: usize,
    at: usize,
) -> Option<Fetching>
    ensures { (words : List ℕ) (m : ℕ) (z : Sizes) (s : State) → let d = Filling object frame [] at in
        Brings S.content S.honest z lock.old.memory lock.old.berths m d s → Leads z.cells s (λ a. brings z.cells m false a d Some None None) Unread
        (λ u r. Shows S.content z lock.new.memory lock.new.berths u × (r ≡ option_map (λ e. fetching_of e words) result)) }
{
    if at < lock.memory.size() {
        fill(lock, frame, at, 0);
        Some(Fetching::Clearing {
            object,
            frame,
            at: at + 1,
        })
    } else {
        arrive(lock, object, frame);
        None
    }
}

/// Gives up the frame that was claimed.
fn release<S: RawStore>(lock: &mut Lock<S>, frame: usize)
    ensures { (m : ℕ) (z : Sizes) (s : State) → Inv S.honest z.cells s → (s.hand m).claimed ≡ Some frame → Shows S.content z lock.old.memory lock.old.berths s
        → Shows S.content z lock.new.memory lock.new.berths (act s (Unclaims m frame)) }
{
    lock.memory.hold_frame(frame, None);
}

/// Gives up the object: it is away again.
fn retreat<S: RawStore>(lock: &mut Lock<S>, object: usize)
    ensures { (m : ℕ) (z : Sizes) (s : State) → Inv S.honest z.cells s → (s.hand m).bringing ≡ Some object → Shows S.content z lock.old.memory lock.old.berths s
        → Shows S.content z lock.new.memory lock.new.berths (act s (Retreats m object)) }
{
    lock.memory.put_place(object, ObjectPlace::Away);
}

/// What is next of a fetcher that brings an object in, and how far it is then. It is always enabled.
pub(crate) fn bring<S: RawStore>(
    lock: &mut Lock<S>,
    port: &mut Port<S>,
    fetching: Fetching,
    words: &mut [u64],
) -> Option<Fetching>
    ensures { (m : ℕ) (z : Sizes) (s : State) → length words.old ≡ z.cells → let d = fetching_of fetching words.old in
        Brings S.content S.honest z lock.old.memory lock.old.berths m d s → Leads z.cells s (λ a. brings z.cells m false a d Some None None)
        (λ a. (S.honest → ReadsHonestly z.cells s (as_mode d) a.read) × AnswersSo S.reliable S.failures S.read_gives z.cells lock.old.berths.items port.old port.new s.far (asked_in z.cells (as_mode d)) a)
        (λ u r. Shows S.content z lock.new.memory lock.new.berths u × (r ≡ option_map (λ e. fetching_of e words.new) result)) }
{
    match fetching {
        Fetching::Reading { object, frame } => Some(read(lock, port, object, frame, words)),
        Fetching::Filling { object, frame, at } => fill_next(lock, object, frame, at, words),
        Fetching::Clearing { object, frame, at } => clear_next(lock, object, frame, at),
        Fetching::Releasing { object, frame } => {
            release(lock, frame);
            Some(Fetching::Retreating(object))
        }
        Fetching::Bringing(object) => {
            retreat(lock, object);
            None
        }
        Fetching::Retreating(object) => {
            retreat(lock, object);
            None
        }
    }
}
