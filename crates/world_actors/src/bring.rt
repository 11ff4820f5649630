//! A program's turns as it brings an object in, and as it gives up because its store failed.
ghost use Rattle.std.specs.Prelude.{◌≡◌, ◌<◌, ◌≤◌, ℕ, suc, List, true, false, cond};
ghost use Rattle.pointer_word.specs.Calls.{Arrives, Begins, Claims, Fills, Leaves, Marks, Retreats, Unclaims};
ghost use Rattle.pointer_word.specs.Hands.{known, listed};
ghost use Rattle.pointer_word.specs.Machine.{Far};
ghost use Rattle.world_actors.specs.Acting.{IsProgram, Turns, TurnsIn, TurnsTold};
ghost use Rattle.world_memory.specs.Answered.{AnswersSo};
ghost use Rattle.world_semantics.specs.Fetchers.{as_mode};
ghost use Rattle.world_semantics.specs.Programs.{Program as Defined, Bringing, Closing, Evicting, Filling, Missing, Retreating, finished as finished_as, in_mode};
ghost use Rattle.world_actors.specs.Seats.{IsSteady, Waits, eviction_of, mode_of, next_touch};
ghost use Rattle.world_memory.specs.Shown.{IsNew};
ghost use Rattle.world_semantics.specs.Turns.{Alone, Calls, began, evicts, left_so, marked_so, program_claimed, read_so, seeks, to_fill};
ghost use Rattle.world_semantics.specs.Worlds.{in_range};

use crate::evict::{leave, mark};
use crate::program::{Eviction, Mode, ProgramActor};
use remote_store::{Port, RawStore};
use world_memory::{Lock, ObjectPlace};
use world_semantics::event::{Choice, Step};

impl<'a> ProgramActor<'a> {
    /// An aim whose hold is open completes where the object is in a frame.
    pub(crate) fn find(&mut self, object: usize, frame: Option<usize>)
        requires { IsSteady (next_touch self.old) }
        ensures setting { self.new.setting ≡ self.old.setting }
        ensures found { (p : Defined) → IsProgram self.old p → IsProgram self.new (cond (known frame) (finished_as self.old.setting p 0) (in_mode p (Missing object))) }
    {
        match frame {
            Some(_) => self.finish(0),
            None => self.set_mode(Mode::Missing(object)),
        }
    }

    /// Tries to begin to bring the object in.
    pub(crate) fn begin<S: RawStore>(&mut self, lock: &mut Lock<S>, object: usize) -> Step
        requires mode { self.old.mode ≡ Mode.Missing object }
        requires steady { IsSteady (next_touch self.old) }
        ensures { Turns S.content S.honest lock.old.memory lock.new.memory lock.old.berths lock.new.berths self.old self.new
            (λ s p a. Calls (Begins self.old.setting.mover object (s.note object).count true) (began self.old.setting p object)) ((lock.new ≡ lock.old) × (self.new ≡ self.old)) result }
    {
        let row = lock.memory.object(object);
        if row.count == 0 {
            Step::NotEnabled
        } else if row.is_away() {
            let mover = self.mover();
            lock.memory.put_place(object, ObjectPlace::Coming(mover));
            self.set_mode(Mode::Bringing(object));
            Step::Took
        } else {
            lock.memory.tell(object);
            self.find(object, row.place.frame());
            Step::Took
        }
    }

    /// With a frame claimed it is to fill it with zeros, where nothing was ever put, else to read the store.
    fn start(&mut self, object: usize, frame: usize, is_new: bool)
        requires { IsSteady (next_touch self.old) }
        ensures setting { self.new.setting ≡ self.old.setting }
        ensures starts { (far : Far) (p : Defined) → IsNew is_new far → IsProgram self.old p → IsProgram self.new (in_mode p (as_mode (to_fill object frame far))) }
    {
        if is_new {
            self.set_mode(Mode::Clearing {
                object,
                frame,
                at: 0,
            });
        } else {
            self.set_mode(Mode::Reading { object, frame });
        }
    }

    /// Tries to claim a frame for the object that it brings in.
    fn claim<S: RawStore>(&mut self, lock: &mut Lock<S>, object: usize, frame: usize) -> Step
        requires mode { self.old.mode ≡ Mode.Bringing object }
        requires steady { IsSteady (next_touch self.old) }
        ensures { TurnsIn S.content (λ z. frame < z.frames) S.honest lock.old.memory lock.new.memory lock.old.berths lock.new.berths self.old self.new
            (λ s p a. Calls (Claims self.old.setting.mover object frame) (program_claimed self.old.setting p object frame)) ((lock.new ≡ lock.old) × (self.new ≡ self.old)) result }
    {
        if lock.memory.is_free(frame) {
            lock.memory.hold_frame(frame, Some(object));
            let is_new = lock.berths.is_new(object);
            self.start(object, frame, is_new);
            Step::Took
        } else {
            Step::Took
        }
    }

    /// Tries to mark another object, to move it out.
    fn mark_other<S: RawStore>(
        &mut self,
        lock: &mut Lock<S>,
        object: usize,
        other: usize,
        frame: usize,
    ) -> Step
        requires mode { self.old.mode ≡ Mode.Bringing object }
        requires steady { IsSteady (next_touch self.old) }
        ensures { TurnsIn S.content (λ z. other < z.objects) S.honest lock.old.memory lock.new.memory lock.old.berths lock.new.berths self.old self.new
            (λ s p a. Calls (Marks self.old.setting.mover other frame) (marked_so self.old.setting p object other frame)) ((lock.new ≡ lock.old) × (self.new ≡ self.old)) result }
    {
        let mover = self.mover();
        if mark(lock, mover, other, frame) {
            self.set_mode(Mode::Evicting {
                object,
                eviction: Eviction::Copying {
                    object: other,
                    frame,
                    at: 0,
                },
            });
            Step::Took
        } else {
            Step::Took
        }
    }

    /// Tries to have another object leave, which is clean.
    fn leave_other<S: RawStore>(
        &mut self,
        lock: &mut Lock<S>,
        object: usize,
        other: usize,
        frame: usize,
    ) -> Step
        requires mode { self.old.mode ≡ Mode.Bringing object }
        requires steady { IsSteady (next_touch self.old) }
        ensures { TurnsIn S.content (λ z. other < z.objects) S.honest lock.old.memory lock.new.memory lock.old.berths lock.new.berths self.old self.new
            (λ s p a. Calls (Leaves self.old.setting.mover other frame) (left_so self.old.setting p object frame)) ((lock.new ≡ lock.old) × (self.new ≡ self.old)) result }
    {
        let mover = self.mover();
        if leave(lock, mover, other, frame) {
            self.set_mode(Mode::Evicting {
                object,
                eviction: Eviction::Freed(frame),
            });
            Step::Took
        } else {
            Step::Took
        }
    }

    /// Seeks a frame for the object that it brings in.
    pub(crate) fn seek<S: RawStore>(
        &mut self,
        lock: &mut Lock<S>,
        object: usize,
        choice: Choice,
    ) -> Step
        requires mode { self.old.mode ≡ Mode.Bringing object }
        requires steady { IsSteady (next_touch self.old) }
        ensures { TurnsIn S.content (λ z. in_range z choice ≡ true) S.honest lock.old.memory lock.new.memory lock.old.berths lock.new.berths self.old self.new
            (λ s p a. seeks self.old.setting p object choice) ((lock.new ≡ lock.old) × (self.new ≡ self.old)) result }
    {
        match choice {
            Choice::Look(_) => Step::Took,
            Choice::Claim(frame) => self.claim(lock, object, frame as usize),
            Choice::Mark(other, frame) => {
                self.mark_other(lock, object, other as usize, frame as usize)
            }
            Choice::Leave(other, frame) => {
                self.leave_other(lock, object, other as usize, frame as usize)
            }
            Choice::Next | Choice::Begin(_) => Step::NotEnabled,
        }
    }

    /// Reads the store.
    pub(crate) fn read<S: RawStore>(
        &mut self,
        lock: &Lock<S>,
        port: &mut Port<S>,
        object: usize,
        frame: usize,
    )
        requires mode { self.old.mode ≡ Mode.Reading object frame }
        requires steady { IsSteady (next_touch self.old) }
        ensures { TurnsTold S.content (λ z. Unit {0}) S.honest lock.now.memory lock.now.memory lock.now.berths lock.now.berths self.old self.new
            (λ n. AnswersSo S.reliable S.failures S.read_gives n lock.now.berths.items port.old port.new) (λ s p a. Alone (in_mode p (as_mode (read_so object frame a.read)))) (Unit {0}) Step.Took }
    {
        if self.get(lock, port, object) {
            self.set_mode(Mode::Filling {
                object,
                frame,
                at: 0,
            });
        } else {
            self.set_mode(Mode::Releasing { object, frame });
        }
    }

    /// The frame is filled: the object is in it, and the aim completes.
    pub(crate) fn arrive<S: RawStore>(
        &mut self,
        lock: &mut Lock<S>,
        object: usize,
        frame: usize,
    ) -> Step
        requires steady { IsSteady (next_touch self.old) }
        ensures { (words : List ℕ) (k : ℕ) → mode_of self.old.mode self.old.words ≡ Filling object frame words k → self.old.setting.size ≤ k
            → Turns S.content S.honest lock.old.memory lock.new.memory lock.old.berths lock.new.berths self.old self.new
            (λ s p a. Calls (Arrives self.old.setting.mover object frame true) (λ t. finished_as self.old.setting p 0)) ((lock.new ≡ lock.old) × (self.new ≡ self.old)) result }
    {
        if lock.memory.object(object).count == 0 {
            Step::NotEnabled
        } else {
            lock.memory
                .put_place(object, ObjectPlace::Here(frame, true));
            lock.memory.tell(object);
            self.finish(0);
            Step::Took
        }
    }

    /// Fills the next cell of the frame with this value, and is then in this mode; or the object arrives.
    pub(crate) fn fill<S: RawStore>(
        &mut self,
        lock: &mut Lock<S>,
        object: usize,
        frame: usize,
        index: usize,
        value: u64,
        next: Mode,
    )
        requires steady { Waits next (next_touch self.old) }
        requires index { index < self.old.setting.size }
        ensures { (words : List ℕ) → mode_of self.old.mode self.old.words ≡ Filling object frame words index → value ≡ listed words index → Filling object frame words (suc index) ≡ mode_of next self.old.words
            → Turns S.content S.honest lock.old.memory lock.new.memory lock.old.berths lock.new.berths self.old self.new
            (λ s p a. Calls (Fills self.old.setting.mover frame index (listed words index)) (λ t. in_mode p (Filling object frame words (suc index)))) (Unit {0}) Step.Took }
    {
        lock.memory.put_cell(frame, index, value);
        self.set_mode(next);
    }

    /// An event of moving another object out.
    pub(crate) fn move_out<S: RawStore>(
        &mut self,
        lock: &mut Lock<S>,
        port: &mut Port<S>,
        object: usize,
        eviction: Eviction,
    )
        requires mode { self.old.mode ≡ Mode.Evicting object eviction }
        requires steady { IsSteady (next_touch self.old) }
        ensures { TurnsTold S.content (λ z. Unit {0}) S.honest lock.old.memory lock.new.memory lock.old.berths lock.new.berths self.old self.new
            (λ n. AnswersSo S.reliable S.failures S.read_gives n lock.old.berths.items port.old port.new)
            (λ s p a. evicts self.old.setting.size self.old.setting.mover a (eviction_of eviction self.old.words) (λ d. in_mode p (Evicting object d)) (in_mode p (Bringing object)) (in_mode p (Retreating object))) (Unit {0}) Step.Took }
    {
        let mode = self.evict(lock, port, eviction).mode(object);
        self.set_mode(mode);
    }

    /// Gives up the frame that it claimed.
    pub(crate) fn release<S: RawStore>(&mut self, lock: &mut Lock<S>, object: usize, frame: usize)
        requires { self.old.mode ≡ Mode.Releasing object frame }
        ensures { Turns S.content S.honest lock.old.memory lock.new.memory lock.old.berths lock.new.berths self.old self.new
            (λ s p a. Calls (Unclaims self.old.setting.mover frame) (λ t. in_mode p (Retreating object))) (Unit {0}) Step.Took }
    {
        lock.memory.hold_frame(frame, None);
        self.set_mode(Mode::Retreating(object));
    }

    /// Gives up the object that it brings in.
    pub(crate) fn retreat<S: RawStore>(&mut self, lock: &mut Lock<S>, object: usize)
        requires { self.old.mode ≡ Mode.Retreating object }
        ensures { Turns S.content S.honest lock.old.memory lock.new.memory lock.old.berths lock.new.berths self.old self.new
            (λ s p a. Calls (Retreats self.old.setting.mover object) (λ t. in_mode p Closing)) (Unit {0}) Step.Took }
    {
        lock.memory.put_place(object, ObjectPlace::Away);
        self.set_mode(Mode::Closing);
    }
}
