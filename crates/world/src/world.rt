//! The world: its memory, programs, evacuators and fetchers, and its events.
ghost use Rattle.std.specs.Prelude.{◌≡◌, ◌≢◌, ◌+◌, ◌<◌, ◌≤◌, ℕ, IfOk, IfErr, length, true};
ghost use Rattle.code_form.specs.Form.{Image as ImageOf};
ghost use Rattle.world.specs.Opened.{cell_of, images_of, sizes_of};
ghost use Rattle.world_semantics.specs.Pieces.{HaveOnePiece, piece_of};
ghost use Rattle.world.specs.Parts.{parts};
ghost use Rattle.pointer_word.specs.Words.{pack};
ghost use Rattle.world.specs.Stepped.{IsWorld, Stepped};
ghost use Rattle.world.specs.Telling.{StoreTold};
ghost use Rattle.world_semantics.specs.Worlds.{Sizes, World as Defined, in_range, start};

use crate::make::{new_evacuators, new_fetchers, new_programs};
use cells::Want;
use code_form::Image;
use pointer_word::Word;
use remote_store::{Config, Port, RawStore, Stores};
use std::alloc::Global;
use world_actors::{EvacuatorActor, ProgramActor};
use world_fetchers::FetcherActor;
use world_memory::{Berths, Lock, WorldMemory};
use world_semantics::event::{Actor, Choice, Step};

/// A world as code keeps it: its memory with the berths, and each actor with its way to the store.
#[derive(Drop)]
pub struct World<'a, S: RawStore> {
    pub(crate) lock: Lock<S>,
    pub(crate) programs: Vec<(ProgramActor<'a>, Port<S>)>,
    pub(crate) evacuators: Vec<(EvacuatorActor, Port<S>)>,
    pub(crate) fetchers: Vec<(FetcherActor, Port<S>)>,
}

impl<'a, S: RawStore> World<'a, S> {
    /// The opening world, whose pieces are those of the images: every object away with no hold, every frame free and zero, nothing in the store, each program at its
    /// beginning, and each evacuator and each fetcher idle. `OutOfMemory` where a growth was refused, and the wants of making the stores and their cells.
    pub fn new<M: Stores<S = S> + Drop>(
        alloc: Global,
        images: &'a [Image],
        config: &Config<M>,
    ) -> Result<World<'a, S>, Want>
        requires images { (0 < length images.now) × (length images.now ≤ 256) }
        requires frames { (0 < config.now.frames) × (config.now.frames ≤ 1048576) }
        requires objects { (0 < config.now.objects) × (config.now.objects ≤ 16777216) }
        requires evacuators { config.now.evacuators ≤ 64 }
        requires fetchers { config.now.fetchers ≤ 64 }
        requires pieces { HaveOnePiece (images_of images.now) (length images.now) }
        requires store { M.makes config.now.stores (piece_of (images_of images.now) + 3) }
        ensures opens { IfOk result (λ world. IsWorld S.content S.honest (sizes_of (length images.now) config.now.frames config.now.objects config.now.evacuators config.now.fetchers (piece_of (images_of images.now))) (images_of images.now)
            (parts world) (start (images_of images.now))) }
        ensures wants { IfErr result (λ want. want ≢ Want.NoObjects) }
    {
        let objects = config.objects as usize;
        let piece = images[0].piece;
        let Ok(memory) = WorldMemory::new(alloc, objects, config.frames as usize, piece) else {
            return Err(Want::OutOfMemory);
        };
        let store = config.stores.one(alloc)?;
        let berths = Berths::new(alloc, &store, objects, piece)?;
        let share = objects / images.len();
        let programs = new_programs(alloc, &config.stores, images, share as u64)?;
        let count = config.evacuators as usize;
        let evacuators = new_evacuators(alloc, &config.stores, images.len(), count, piece)?;
        let before = images.len() + count;
        let fetchers = new_fetchers(
            alloc,
            &config.stores,
            before,
            config.fetchers as usize,
            piece,
        )?;
        Ok(World {
            lock: Lock { memory, berths },
            programs,
            evacuators,
            fetchers,
        })
    }

    /// An object's word.
    pub fn word(&self, object: u32) -> Word
        ensures { (z : Sizes) (images : ℕ → ImageOf) (w : Defined) → IsWorld S.content S.honest z images (parts self.now) w
            → result.bits ≡ pack (w.lock.word object) }
    {
        self.lock.memory.object(object as usize).word()
    }

    /// The cell of this index of the frame where the object is, if it is in one.
    pub fn cell(&self, object: u32, index: usize) -> Option<u64>
        ensures { (z : Sizes) (images : ℕ → ImageOf) (w : Defined) → IsWorld S.content S.honest z images (parts self.now) w
            → result ≡ cell_of w.lock object index }
    {
        match self.lock.memory.object(object as usize).place.frame() {
            Some(frame) => Some(self.lock.memory.cell(frame, index)),
            None => None,
        }
    }

    /// Whether there are an object and a frame of these numbers.
    fn is_in_range(&self, choice: Choice) -> bool
        ensures { (z : Sizes) → (length self.now.lock.memory.objects ≡ z.objects) → (length self.now.lock.memory.frames ≡ z.frames) → result ≡ in_range z choice }
    {
        let objects = self.lock.memory.objects();
        let frames = self.lock.memory.frames();
        match choice {
            Choice::Next => true,
            Choice::Look(frame) | Choice::Claim(frame) => (frame as usize) < frames,
            Choice::Mark(object, frame) | Choice::Leave(object, frame) => {
                (object as usize) < objects && (frame as usize) < frames
            }
            Choice::Begin(object) => (object as usize) < objects,
        }
    }

    /// An evacuator does what it chooses, where that is in range.
    fn step_evacuator(&mut self, number: usize, choice: Choice) -> Step
        ensures { (z : Sizes) (images : ℕ → ImageOf) (w : Defined) → in_range z choice ≡ true → IsWorld S.content S.honest z images (parts self.old) w
            → Stepped S.content S.honest z images (parts self.new) w (Actor.Evacuator number) choice
            (StoreTold S.reliable S.failures S.read_gives z w (parts self.old) (parts self.new) (Actor.Evacuator number))
            (parts self.new ≡ parts self.old) result }
    {
        if number < self.evacuators.len() {
            let (evacuator, port) = &mut self.evacuators[number];
            evacuator.turn(&mut self.lock, port, choice)
        } else {
            Step::NotEnabled
        }
    }

    /// A fetcher does what it chooses, where that is in range.
    fn step_fetcher(&mut self, number: usize, choice: Choice) -> Step
        ensures { (z : Sizes) (images : ℕ → ImageOf) (w : Defined) → in_range z choice ≡ true → IsWorld S.content S.honest z images (parts self.old) w
            → Stepped S.content S.honest z images (parts self.new) w (Actor.Fetcher number) choice
            (StoreTold S.reliable S.failures S.read_gives z w (parts self.old) (parts self.new) (Actor.Fetcher number))
            (parts self.new ≡ parts self.old) result }
    {
        if number < self.fetchers.len() {
            let (fetcher, port) = &mut self.fetchers[number];
            fetcher.turn(&mut self.lock, port, choice)
        } else {
            Step::NotEnabled
        }
    }

    /// A program does what it chooses, where that is in range.
    fn step_program(&mut self, number: usize, choice: Choice) -> Step
        ensures { (z : Sizes) (images : ℕ → ImageOf) (w : Defined) → in_range z choice ≡ true → IsWorld S.content S.honest z images (parts self.old) w
            → Stepped S.content S.honest z images (parts self.new) w (Actor.Program number) choice
            (StoreTold S.reliable S.failures S.read_gives z w (parts self.old) (parts self.new) (Actor.Program number))
            (parts self.new ≡ parts self.old) result }
    {
        if number < self.programs.len() {
            let (program, port) = &mut self.programs[number];
            program.turn(&mut self.lock, port, choice)
        } else {
            Step::NotEnabled
        }
    }

    /// An actor does what it chooses. Took exactly where the world has that step, which is then made; else nothing changes.
    pub fn step(&mut self, actor: Actor, choice: Choice) -> Step
        ensures { (z : Sizes) (images : ℕ → ImageOf) (w : Defined) → IsWorld S.content S.honest z images (parts self.old) w
            → Stepped S.content S.honest z images (parts self.new) w actor choice
            (StoreTold S.reliable S.failures S.read_gives z w (parts self.old) (parts self.new) actor)
            (parts self.new ≡ parts self.old) result }
    {
        if !self.is_in_range(choice) {
            return Step::NotEnabled;
        }
        match actor {
            Actor::Program(number) => self.step_program(number as usize, choice),
            Actor::Evacuator(number) => self.step_evacuator(number as usize, choice),
            Actor::Fetcher(number) => self.step_fetcher(number as usize, choice),
        }
    }
}
