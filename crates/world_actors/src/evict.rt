//! Moving an object out of its frame, an event at a time.
ghost use Rattle.std.specs.Prelude.{◌≡◌, ◌<◌, ◌≤◌, ℕ, List, None, Some, false, length, option_map};
ghost use Rattle.pointer_word.specs.Calls.{Aborts, Leaves, Marks, Releases, act};
ghost use Rattle.pointer_word.specs.Legal.{holds};
ghost use Rattle.pointer_word.specs.Machine.{State};
ghost use Rattle.pointer_word.specs.Sound.{Inv};
ghost use Rattle.world_actors.specs.Acting.{Done, Failed, Leads, Moves, On, Shows, Unread, UnreadSo, outcome_of, resumes};
ghost use Rattle.world_memory.specs.Answered.{AnswersSo, Puts};
ghost use Rattle.world_actors.specs.Asking.{asked_out};
ghost use Rattle.world_semantics.specs.InHand.{MovesOut};
ghost use Rattle.world_actors.specs.Seats.{IsSteady, Waits, eviction_of, mode_of};
ghost use Rattle.world_semantics.specs.Programs.{Bringing, Evicting, Retreating};
ghost use Rattle.code_form.specs.declared.touch.Touch.{Touch};
ghost use Rattle.world_semantics.specs.Turns.{evicts};
ghost use Rattle.world_semantics.specs.Worlds.{Sizes};

use crate::program::{Eviction, Mode};
use remote_store::{Port, RawStore};
use world_memory::{Lock, ObjectPlace};

/// What an event of moving out leads to.
#[derive(Clone, Copy, PartialEq, Eq, Debug)]
pub(crate) enum Evicted {
    /// It goes on.
    On(Eviction),
    /// It has ended well.
    Done,
    /// It has ended, because the store failed.
    Failed,
}

impl Evicted {
    /// How it goes on, if it does.
    pub(crate) fn eviction(self) -> Option<Eviction>
        ensures { (words : List ℕ) → option_map (λ e. eviction_of e words) result ≡ resumes Some None None (outcome_of self words) }
    {
        match self {
            Evicted::On(eviction) => Some(eviction),
            Evicted::Done | Evicted::Failed => None,
        }
    }
}

impl Evicted {
    /// The mode of a program that moves an object out to bring this one in.
    pub(crate) fn mode(self, object: usize) -> Mode
        ensures mode { (words : List ℕ) → mode_of result words ≡ resumes (λ e. Evicting object e) (Bringing object) (Retreating object) (outcome_of self words) }
        ensures waits { (x : Touch) → IsSteady x → Waits result x }
    {
        match self {
            Evicted::On(eviction) => Mode::Evicting { object, eviction },
            Evicted::Done => Mode::Bringing(object),
            Evicted::Failed => Mode::Retreating(object),
        }
    }
}

/// Tries to mark the object in the frame, to move it out. False where it isn't there, or is held, or is clean, or moves already.
pub(crate) fn mark<S: RawStore>(lock: &mut Lock<S>, mover: u16, object: usize, frame: usize) -> bool
    ensures marks { (z : Sizes) (s : State) → object < z.objects → (s.hand mover).leaving ≡ None → Shows S.content z lock.old.memory lock.old.berths s
        → let t = act s (Marks mover object frame) in Shows S.content z lock.new.memory lock.new.berths t × (holds (t.hand mover).leaving object ≡ result) }
    ensures refused { result ≡ false → lock.new ≡ lock.old }
{
    if lock.memory.object(object).is_at_rest(frame) {
        lock.memory
            .put_place(object, ObjectPlace::Leaving(frame, mover, true));
        true
    } else {
        false
    }
}

/// Tries to have the object leave the frame. False where it isn't clean there, or is held.
pub(crate) fn leave<S: RawStore>(
    lock: &mut Lock<S>,
    mover: u16,
    object: usize,
    frame: usize,
) -> bool
    ensures leaves { (z : Sizes) (s : State) → object < z.objects → (s.hand mover).freed ≡ None → Shows S.content z lock.old.memory lock.old.berths s
        → let t = act s (Leaves mover object frame) in Shows S.content z lock.new.memory lock.new.berths t × (holds (t.hand mover).freed frame ≡ result) }
    ensures refused { result ≡ false → lock.new ≡ lock.old }
{
    // Only the clauses speak of the mover, which has no berth in hand for it.
    let _ = mover;
    if lock.memory.object(object).is_clean(frame) {
        lock.memory.put_place(object, ObjectPlace::Away);
        true
    } else {
        false
    }
}

/// Copies the next cell.
fn copy<S: RawStore>(
    lock: &Lock<S>,
    object: usize,
    frame: usize,
    copied: usize,
    words: &mut [u64],
) -> Evicted
    requires { copied < length words.old }
    ensures { (m : ℕ) (z : Sizes) (s : State) → length words.old ≡ z.cells → let e = eviction_of (Eviction.Copying object frame copied) words.old in
        Moves S.content S.honest z lock.now.memory lock.now.berths m e s → Leads z.cells s (λ a. evicts z.cells m a e On Done Failed) Unread
        (λ u r. Shows S.content z lock.now.memory lock.now.berths u × (r ≡ outcome_of result words.new)) }
{
    words[copied] = lock.memory.cell(frame, copied);
    Evicted::On(Eviction::Copying {
        object,
        frame,
        at: copied + 1,
    })
}

/// Puts the words that were copied.
fn put<S: RawStore>(
    lock: &mut Lock<S>,
    port: &mut Port<S>,
    object: usize,
    frame: usize,
    copied: usize,
    words: &[u64],
) -> Evicted
    requires { length words.now ≤ copied }
    ensures { (m : ℕ) (z : Sizes) (s : State) → length words.now ≡ z.cells → let e = eviction_of (Eviction.Copying object frame copied) words.now in
        Moves S.content S.honest z lock.old.memory lock.old.berths m e s → Leads z.cells s (λ a. evicts z.cells m a e On Done Failed)
        (UnreadSo (AnswersSo S.reliable S.failures S.read_gives z.cells lock.old.berths.items port.old port.new s.far (Puts object)))
        (λ u r. Shows S.content z lock.new.memory lock.new.berths u × (r ≡ outcome_of result words.now)) }
{
    if lock.berths.put(port, object, words) {
        Evicted::On(Eviction::Stored { object, frame })
    } else {
        Evicted::On(Eviction::NotStored { object, frame })
    }
}

/// Tries to commit: the object is away where its mark still stands and it has no hold.
fn commit<S: RawStore>(lock: &mut Lock<S>, mover: u16, object: usize, frame: usize) -> Evicted
    ensures { (words : List ℕ) (z : Sizes) (s : State) → let e = eviction_of (Eviction.Stored object frame) words in
        Moves S.content S.honest z lock.old.memory lock.old.berths mover e s → Leads z.cells s (λ a. evicts z.cells mover a e On Done Failed) Unread
        (λ u r. Shows S.content z lock.new.memory lock.new.berths u × (r ≡ outcome_of result words)) }
{
    if lock.memory.object(object).is_marked(frame, mover) {
        lock.memory.put_place(object, ObjectPlace::Away);
        Evicted::On(Eviction::Freed(frame))
    } else {
        Evicted::On(Eviction::Refused { object, frame })
    }
}

/// Gives the object's berth back: it stays in its frame.
fn abort<S: RawStore>(lock: &mut Lock<S>, object: usize, frame: usize)
    ensures { (m : ℕ) (z : Sizes) (s : State) → Inv S.honest z.cells s → MovesOut object frame (s.hand m) → Shows S.content z lock.old.memory lock.old.berths s
        → Shows S.content z lock.new.memory lock.new.berths (act s (Aborts m object frame)) }
{
    lock.memory
        .put_place(object, ObjectPlace::Here(frame, false));
}

/// Gives the freed frame back.
fn release<S: RawStore>(lock: &mut Lock<S>, frame: usize)
    ensures { (m : ℕ) (z : Sizes) (s : State) → Inv S.honest z.cells s → (s.hand m).freed ≡ Some frame → Shows S.content z lock.old.memory lock.old.berths s
        → Shows S.content z lock.new.memory lock.new.berths (act s (Releases m frame)) }
{
    lock.memory.hold_frame(frame, None);
}

/// An event of a mover that moves an object out. It is always enabled.
pub(crate) fn evict<S: RawStore>(
    lock: &mut Lock<S>,
    port: &mut Port<S>,
    mover: u16,
    eviction: Eviction,
    words: &mut [u64],
) -> Evicted
    ensures { (z : Sizes) (s : State) → length words.old ≡ z.cells → let e = eviction_of eviction words.old in
        Moves S.content S.honest z lock.old.memory lock.old.berths mover e s → Leads z.cells s (λ a. evicts z.cells mover a e On Done Failed)
        (UnreadSo (AnswersSo S.reliable S.failures S.read_gives z.cells lock.old.berths.items port.old port.new s.far (asked_out z.cells e)))
        (λ u r. Shows S.content z lock.new.memory lock.new.berths u × (r ≡ outcome_of result words.new)) }
{
    match eviction {
        Eviction::Copying { object, frame, at } => {
            if at < words.len() {
                copy(lock, object, frame, at, words)
            } else {
                put(lock, port, object, frame, at, words)
            }
        }
        Eviction::Stored { object, frame } => commit(lock, mover, object, frame),
        Eviction::NotStored { object, frame } => {
            abort(lock, object, frame);
            Evicted::Failed
        }
        Eviction::Refused { object, frame } => {
            abort(lock, object, frame);
            Evicted::Done
        }
        Eviction::Freed(frame) => {
            release(lock, frame);
            Evicted::Done
        }
    }
}
