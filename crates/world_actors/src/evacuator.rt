//! An evacuator: a mover that moves objects out of their frames.
ghost use Rattle.cells.specs.Pieces.{cells_in};
ghost use Rattle.std.specs.Prelude.{◌≡◌, IfOk, None, Some, length, true};
ghost use Rattle.pointer_word.specs.Machine.{State};
ghost use Rattle.world_actors.specs.Acting.{Evacuates, Goes, Leads, Shows, Unread, UnreadSo, eviction_in};
ghost use Rattle.world_memory.specs.Answered.{AnswersSo};
ghost use Rattle.world_actors.specs.Asking.{asked_idly, asked_out};
ghost use Rattle.world_actors.specs.Seats.{eviction_of};
ghost use Rattle.world_semantics.specs.Turns.{evacuator_idle, evacuator_turn, evicts};
ghost use Rattle.world_semantics.specs.Worlds.{Sizes, in_range};

use crate::evict::{evict, leave, mark};
use crate::program::Eviction;
use cells::Piece;
use remote_store::{Port, RawStore};
use std::alloc::{AllocError, Global};
use world_memory::Lock;
use world_semantics::event::{Choice, Step};

/// Its number as a mover, how far it is with moving an object out, if it does, and the words that it has copied.
#[derive(Drop)]
pub struct EvacuatorActor {
    pub(crate) mover: u16,
    pub(crate) eviction: Option<Eviction>,
    pub(crate) words: Vec<u64>,
}

impl EvacuatorActor {
    /// An evacuator that is idle, of pieces of this size.
    pub fn new(alloc: Global, mover: u16, piece: Piece) -> Result<EvacuatorActor, AllocError>
        ensures { IfOk result (λ e. (e.mover ≡ mover) × (e.eviction ≡ None) × (length e.words.items ≡ cells_in piece)) }
    {
        Ok(EvacuatorActor {
            mover,
            eviction: None,
            words: Vec::from_elem(alloc, 0, piece.cells())?,
        })
    }

    /// How far it is with moving an object out.
    fn eviction(&self) -> Option<Eviction>
        ensures { result ≡ self.now.eviction }
    {
        self.eviction
    }

    /// Looks at a frame, or tries to mark an object, or to have a clean one leave.
    fn seek<S: RawStore>(&mut self, lock: &mut Lock<S>, choice: Choice) -> Step
        requires { self.old.eviction ≡ None }
        ensures mover { self.new.mover ≡ self.old.mover }
        ensures wide { length self.new.words.items ≡ length self.old.words.items }
        ensures goes { (z : Sizes) (s : State) → in_range z choice ≡ true → Evacuates S.content S.honest z lock.old.memory lock.old.berths self.old s
            → Goes z.cells s (λ a. evacuator_idle self.old.mover choice) Unread (λ u d. Shows S.content z lock.new.memory lock.new.berths u × (d ≡ eviction_in self.new))
            ((lock.new ≡ lock.old) × (self.new ≡ self.old)) result }
    {
        match choice {
            Choice::Look(_) => Step::Took,
            Choice::Mark(object, frame) => {
                let (object, frame) = (object as usize, frame as usize);
                if mark(lock, self.mover, object, frame) {
                    self.eviction = Some(Eviction::Copying {
                        object,
                        frame,
                        at: 0,
                    });
                }
                Step::Took
            }
            Choice::Leave(object, frame) => {
                let (object, frame) = (object as usize, frame as usize);
                if leave(lock, self.mover, object, frame) {
                    self.eviction = Some(Eviction::Freed(frame));
                }
                Step::Took
            }
            Choice::Next | Choice::Claim(_) | Choice::Begin(_) => Step::NotEnabled,
        }
    }

    /// Goes on with moving out.
    fn go_on<S: RawStore>(&mut self, lock: &mut Lock<S>, port: &mut Port<S>, eviction: Eviction)
        requires { self.old.eviction ≡ Some eviction }
        ensures mover { self.new.mover ≡ self.old.mover }
        ensures wide { length self.new.words.items ≡ length self.old.words.items }
        ensures leads { (z : Sizes) (s : State) → Evacuates S.content S.honest z lock.old.memory lock.old.berths self.old s
            → Leads z.cells s (λ a. evicts z.cells self.old.mover a (eviction_of eviction self.old.words.items) Some None None)
            (UnreadSo (AnswersSo S.reliable S.failures S.read_gives z.cells lock.old.berths.items port.old port.new s.far (asked_out z.cells (eviction_of eviction self.old.words.items)))) (λ u d. Shows S.content z lock.new.memory lock.new.berths u × (d ≡ eviction_in self.new)) }
    {
        self.eviction = evict(lock, port, self.mover, eviction, &mut self.words).eviction();
    }

    /// Does what it chooses.
    pub fn turn<S: RawStore>(
        &mut self,
        lock: &mut Lock<S>,
        port: &mut Port<S>,
        choice: Choice,
    ) -> Step
        ensures mover { self.new.mover ≡ self.old.mover }
        ensures wide { length self.new.words.items ≡ length self.old.words.items }
        ensures goes { (z : Sizes) (s : State) → in_range z choice ≡ true → Evacuates S.content S.honest z lock.old.memory lock.old.berths self.old s
            → Goes z.cells s (λ a. evacuator_turn z.cells self.old.mover (eviction_in self.old) choice a)
            (UnreadSo (AnswersSo S.reliable S.failures S.read_gives z.cells lock.old.berths.items port.old port.new s.far (asked_idly z.cells (eviction_in self.old)))) (λ u d. Shows S.content z lock.new.memory lock.new.berths u × (d ≡ eviction_in self.new))
            ((lock.new ≡ lock.old) × (port.new ≡ port.old) × (self.new ≡ self.old)) result }
    {
        match self.eviction() {
            None => self.seek(lock, choice),
            Some(eviction) => match choice {
                Choice::Next => {
                    self.go_on(lock, port, eviction);
                    Step::Took
                }
                _ => Step::NotEnabled,
            },
        }
    }
}
