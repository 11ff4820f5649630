//! A program's turn, by its mode.
ghost use Rattle.std.specs.Prelude.{◌≡◌, [], true};
ghost use Rattle.world_actors.specs.Acting.{Turns, TurnsTold};
ghost use Rattle.world_memory.specs.Answered.{AnswersSo};
ghost use Rattle.world_actors.specs.Seats.{IsSteady, Waits, mode_of, next_touch};
ghost use Rattle.world_semantics.specs.Fetchers.{Filling};
ghost use Rattle.world_semantics.specs.Turns.{by_mode, program_brings, program_turn};
ghost use Rattle.world_semantics.specs.Worlds.{in_range};

use crate::program::{Mode, ProgramActor};
use remote_store::{Port, RawStore};
use world_memory::Lock;
use world_semantics::event::{Choice, Step};

impl<'a> ProgramActor<'a> {
    /// Fills the next cell with what it has read; behind the last the object arrives.
    fn fill_next<S: RawStore>(
        &mut self,
        lock: &mut Lock<S>,
        object: usize,
        frame: usize,
        index: usize,
    ) -> Step
        requires mode { self.old.mode ≡ Mode.Filling object frame index }
        requires steady { IsSteady (next_touch self.old) }
        ensures { Turns S.content S.honest lock.old.memory lock.new.memory lock.old.berths lock.new.berths self.old self.new
            (λ s p a. program_brings self.old.setting p a (Filling object frame self.old.words index)) ((lock.new ≡ lock.old) × (self.new ≡ self.old)) result }
    {
        if index < self.size() {
            let value = self.word(index);
            let next = Mode::Filling {
                object,
                frame,
                at: index + 1,
            };
            self.fill(lock, object, frame, index, value, next);
            Step::Took
        } else {
            self.arrive(lock, object, frame)
        }
    }

    /// Fills the next cell with 0; behind the last the object arrives.
    fn clear_next<S: RawStore>(
        &mut self,
        lock: &mut Lock<S>,
        object: usize,
        frame: usize,
        index: usize,
    ) -> Step
        requires mode { self.old.mode ≡ Mode.Clearing object frame index }
        requires steady { IsSteady (next_touch self.old) }
        ensures { Turns S.content S.honest lock.old.memory lock.new.memory lock.old.berths lock.new.berths self.old self.new
            (λ s p a. program_brings self.old.setting p a (Filling object frame [] index)) ((lock.new ≡ lock.old) × (self.new ≡ self.old)) result }
    {
        if index < self.size() {
            let next = Mode::Clearing {
                object,
                frame,
                at: index + 1,
            };
            self.fill(lock, object, frame, index, 0, next);
            Step::Took
        } else {
            self.arrive(lock, object, frame)
        }
    }

    /// Goes on in this mode.
    fn advance<S: RawStore>(&mut self, lock: &mut Lock<S>, port: &mut Port<S>, mode: Mode) -> Step
        requires mode { self.old.mode ≡ mode }
        requires waits { Waits mode (next_touch self.old) }
        ensures { TurnsTold S.content (λ z. Unit {0}) S.honest lock.old.memory lock.new.memory lock.old.berths lock.new.berths self.old self.new
            (λ n. AnswersSo S.reliable S.failures S.read_gives n lock.old.berths.items port.old port.new)
            (λ s p a. by_mode self.old.setting s p (mode_of mode self.old.words) Choice.Next a) ((lock.new ≡ lock.old) × (port.new ≡ port.old) × (self.new ≡ self.old)) result }
    {
        match mode {
            Mode::Ready => self.instruct(lock),
            Mode::Missing(object) => self.begin(lock, object),
            Mode::Reading { object, frame } => {
                self.read(lock, port, object, frame);
                Step::Took
            }
            Mode::Filling { object, frame, at } => self.fill_next(lock, object, frame, at),
            Mode::Clearing { object, frame, at } => self.clear_next(lock, object, frame, at),
            Mode::Evicting { object, eviction } => {
                self.move_out(lock, port, object, eviction);
                Step::Took
            }
            Mode::Releasing { object, frame } => {
                self.release(lock, object, frame);
                Step::Took
            }
            Mode::Retreating(object) => {
                self.retreat(lock, object);
                Step::Took
            }
            Mode::Closing => self.give_up(lock),
            Mode::Bringing(_) | Mode::Wanted(_) => Step::NotEnabled,
        }
    }

    /// Does what it chooses.
    pub fn turn<S: RawStore>(
        &mut self,
        lock: &mut Lock<S>,
        port: &mut Port<S>,
        choice: Choice,
    ) -> Step
        ensures { TurnsTold S.content (λ z. in_range z choice ≡ true) S.honest lock.old.memory lock.new.memory lock.old.berths lock.new.berths self.old self.new
            (λ n. AnswersSo S.reliable S.failures S.read_gives n lock.old.berths.items port.old port.new)
            (λ s p a. program_turn self.old.setting s p choice a) ((lock.new ≡ lock.old) × (port.new ≡ port.old) × (self.new ≡ self.old)) result }
    {
        match self.mode() {
            Mode::Bringing(object) => self.seek(lock, object, choice),
            mode => match choice {
                Choice::Next => self.advance(lock, port, mode),
                _ => Step::NotEnabled,
            },
        }
    }
}
