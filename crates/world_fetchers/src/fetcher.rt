//! A fetcher: a mover that brings objects in.
ghost use Rattle.cells.specs.Pieces.{cells_in};
ghost use Rattle.std.specs.Prelude.{◌≡◌, ◌<◌, IfOk, None, Some, false, length, true};
ghost use Rattle.pointer_word.specs.Machine.{State};
ghost use Rattle.world_actors.specs.Acting.{Goes, Leads, Shows, Unread, UnreadSo};
ghost use Rattle.world_actors.specs.Asking.{asked_in};
ghost use Rattle.world_fetchers.specs.Fetching.{Fetches, asked_ahead, fetching_in, fetching_of};
ghost use Rattle.world_memory.specs.Answered.{AnswersSo, Nothing};
ghost use Rattle.world_semantics.specs.Fetchers.{as_mode};
ghost use Rattle.world_semantics.specs.Turns.{brings, fetcher_claims, fetcher_idle, fetcher_turn};
ghost use Rattle.world_semantics.specs.Worlds.{FetchesHonestly, ReadsHonestly, Sizes, in_range};

use crate::fetch::{Fetching, begin, bring, claim};
use cells::Piece;
use remote_store::{Port, RawStore};
use std::alloc::{AllocError, Global};
use world_memory::Lock;
use world_semantics::event::{Choice, Step};

/// Its number as a mover, how far it is with an object that it brings in, if it does, and the words that it fills a frame with.
#[derive(Drop)]
pub struct FetcherActor {
    pub(crate) mover: u16,
    pub(crate) fetching: Option<Fetching>,
    pub(crate) words: Vec<u64>,
}

impl FetcherActor {
    /// A fetcher that is idle, of pieces of this size.
    pub fn new(alloc: Global, mover: u16, piece: Piece) -> Result<FetcherActor, AllocError>
        ensures { IfOk result (λ f. (f.mover ≡ mover) × (f.fetching ≡ None) × (length f.words.items ≡ cells_in piece)) }
    {
        Ok(FetcherActor {
            mover,
            fetching: None,
            words: Vec::from_elem(alloc, 0, piece.cells())?,
        })
    }

    /// How far it is with an object that it brings in.
    fn fetching(&self) -> Option<Fetching>
        ensures { result ≡ self.now.fetching }
    {
        self.fetching
    }

    /// Tries to begin to bring an object in.
    fn seek<S: RawStore>(&mut self, lock: &mut Lock<S>, choice: Choice) -> Step
        requires { self.old.fetching ≡ None }
        ensures mover { self.new.mover ≡ self.old.mover }
        ensures wide { length self.new.words.items ≡ length self.old.words.items }
        ensures goes { (z : Sizes) (s : State) → in_range z choice ≡ true → Fetches S.content S.honest z lock.old.memory lock.old.berths self.old s
            → Goes z.cells s (λ a. fetcher_idle self.old.mover choice) Unread (λ u d. Shows S.content z lock.new.memory lock.new.berths u × (d ≡ fetching_in self.new))
            ((lock.new ≡ lock.old) × (self.new ≡ self.old)) result }
    {
        match choice {
            Choice::Begin(object) => {
                let object = object as usize;
                if begin(lock, self.mover, object) {
                    self.fetching = Some(Fetching::Bringing(object));
                }
                Step::Took
            }
            Choice::Next
            | Choice::Look(_)
            | Choice::Claim(_)
            | Choice::Mark(_, _)
            | Choice::Leave(_, _) => Step::NotEnabled,
        }
    }

    /// Tries to claim a frame for the object that it brings in.
    fn claim<S: RawStore>(&mut self, lock: &mut Lock<S>, object: usize, frame: usize)
        requires { self.old.fetching ≡ Some (Fetching.Bringing object) }
        ensures mover { self.new.mover ≡ self.old.mover }
        ensures wide { length self.new.words.items ≡ length self.old.words.items }
        ensures leads { (z : Sizes) (s : State) → frame < z.frames → Fetches S.content S.honest z lock.old.memory lock.old.berths self.old s
            → Leads z.cells s (λ a. fetcher_claims self.old.mover frame (fetching_of (Fetching.Bringing object) self.old.words.items)) Unread
            (λ u d. Shows S.content z lock.new.memory lock.new.berths u × (d ≡ fetching_in self.new)) }
    {
        let is_new = lock.berths.is_new(object);
        if claim(lock, object, frame) {
            self.fetching = Some(Fetching::begun(object, frame, is_new));
        }
    }

    /// Tries to claim a frame, where it seeks one.
    fn try_claim<S: RawStore>(
        &mut self,
        lock: &mut Lock<S>,
        fetching: Fetching,
        frame: usize,
    ) -> Step
        requires { self.old.fetching ≡ Some fetching }
        ensures mover { self.new.mover ≡ self.old.mover }
        ensures wide { length self.new.words.items ≡ length self.old.words.items }
        ensures goes { (z : Sizes) (s : State) → frame < z.frames → Fetches S.content S.honest z lock.old.memory lock.old.berths self.old s
            → Goes z.cells s (λ a. fetcher_claims self.old.mover frame (fetching_of fetching self.old.words.items)) (UnreadSo (λ a. asked_in z.cells (as_mode (fetching_of fetching self.old.words.items)) ≡ Nothing))
            (λ u d. Shows S.content z lock.new.memory lock.new.berths u × (d ≡ fetching_in self.new)) ((lock.new ≡ lock.old) × (self.new ≡ self.old)) result }
    {
        match fetching {
            Fetching::Bringing(object) => {
                self.claim(lock, object, frame);
                Step::Took
            }
            _ => Step::NotEnabled,
        }
    }

    /// Goes on with bringing in.
    fn go_on<S: RawStore>(&mut self, lock: &mut Lock<S>, port: &mut Port<S>, fetching: Fetching)
        requires { self.old.fetching ≡ Some fetching }
        ensures mover { self.new.mover ≡ self.old.mover }
        ensures wide { length self.new.words.items ≡ length self.old.words.items }
        ensures leads { (z : Sizes) (s : State) → Fetches S.content S.honest z lock.old.memory lock.old.berths self.old s
            → Leads z.cells s (λ a. brings z.cells self.old.mover false a (fetching_of fetching self.old.words.items) Some None None)
            (λ a. (S.honest → ReadsHonestly z.cells s (as_mode (fetching_of fetching self.old.words.items)) a.read)
            × AnswersSo S.reliable S.failures S.read_gives z.cells lock.old.berths.items port.old port.new s.far (asked_in z.cells (as_mode (fetching_of fetching self.old.words.items))) a)
            (λ u d. Shows S.content z lock.new.memory lock.new.berths u × (d ≡ fetching_in self.new)) }
    {
        self.fetching = bring(lock, port, fetching, &mut self.words);
    }

    /// Does what it chooses.
    pub fn turn<S: RawStore>(
        &mut self,
        lock: &mut Lock<S>,
        port: &mut Port<S>,
        choice: Choice,
    ) -> Step
        ensures mover { self.new.mover ≡ self.old.mover }
        ensures wide { length self.new.words.items ≡ length self.old.words.items }
        ensures goes { (z : Sizes) (s : State) → in_range z choice ≡ true → Fetches S.content S.honest z lock.old.memory lock.old.berths self.old s
            → Goes z.cells s (λ a. fetcher_turn z.cells self.old.mover (fetching_in self.old) choice a)
            (λ a. (S.honest → FetchesHonestly z.cells s (fetching_in self.old) a.read)
            × AnswersSo S.reliable S.failures S.read_gives z.cells lock.old.berths.items port.old port.new s.far (asked_ahead z.cells (fetching_in self.old)) a)
            (λ u d. Shows S.content z lock.new.memory lock.new.berths u × (d ≡ fetching_in self.new))
            ((lock.new ≡ lock.old) × (port.new ≡ port.old) × (self.new ≡ self.old)) result }
    {
        match self.fetching() {
            None => self.seek(lock, choice),
            Some(fetching) => match choice {
                Choice::Next => {
                    self.go_on(lock, port, fetching);
                    Step::Took
                }
                Choice::Claim(frame) => self.try_claim(lock, fetching, frame as usize),
                _ => Step::NotEnabled,
            },
        }
    }
}
