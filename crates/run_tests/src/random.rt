//! Schedules that a generator makes.

use crate::opening::open;
use crate::setting::Setting;
use crate::shelf::Shelf;
use crate::steps::put_ends;
use cells::Run;
use code_form::Image;
use remote_store::RawStore;
use std::alloc::{AllocError, Global};
use std::fmt::Write;
use world::{Actor, Choice, World};

/// How many steps are tried before the ends of programs are looked at.
const STEPS: u32 = 1_000;

/// How often so many steps are tried, at most.
const MOST_TRIALS: u32 = 5_000;

/// Numbers that follow from a seed other than 0, by shifts and exclusive or.
#[derive(Drop)]
struct Generator {
    state: u64,
}

impl Generator {
    /// A number below this one, or 0.
    fn below(&mut self, bound: u32) -> u32 {
        self.state ^= self.state << 13;
        self.state ^= self.state >> 7;
        self.state ^= self.state << 17;
        (self.state % u64::from(bound.max(1))) as u32
    }
}

/// How many of each there are in a world.
#[derive(Clone, Copy)]
struct Numbers {
    programs: u32,
    evacuators: u32,
    fetchers: u32,
    frames: u32,
    objects: u32,
}

impl Numbers {
    /// An actor: a program as often as a mover.
    fn actor(self, generator: &mut Generator) -> Actor {
        match generator.below(4) {
            0 => Actor::Evacuator(generator.below(self.evacuators)),
            1 => Actor::Fetcher(generator.below(self.fetchers)),
            _ => Actor::Program(generator.below(self.programs)),
        }
    }

    /// A choice: what is next as often as a verb.
    fn choice(self, generator: &mut Generator) -> Choice {
        let object = generator.below(self.objects);
        let frame = generator.below(self.frames);
        match generator.below(8) {
            0 => Choice::Look(frame),
            1 => Choice::Claim(frame),
            2 => Choice::Mark(object, frame),
            3 => Choice::Leave(object, frame),
            4 => Choice::Begin(object),
            _ => Choice::Next,
        }
    }
}

/// Tries steps of the generator's choice; those that are not enabled change nothing.
fn try_steps<S: RawStore>(world: &mut World<'_, S>, numbers: Numbers, generator: &mut Generator) {
    for _ in 0..STEPS {
        let actor = numbers.actor(generator);
        let choice = numbers.choice(generator);
        world.step(actor, choice);
    }
}

/// Whether each program has stopped, or wants something.
fn have_ended<S: RawStore>(alloc: Global, world: &World<'_, S>) -> Result<bool, AllocError> {
    for program in 0..world.programs() {
        if let Run::Running = world.ended(alloc, program)?.run {
            return Ok(false);
        }
    }
    Ok(true)
}

/// Tries steps until each program has ended, and no longer than it may take.
fn go_on<S: RawStore>(
    alloc: Global,
    world: &mut World<'_, S>,
    numbers: Numbers,
    generator: &mut Generator,
) -> Result<(), AllocError> {
    for _ in 0..MOST_TRIALS {
        if have_ended(alloc, world)? {
            return Ok(());
        }
        try_steps(world, numbers, generator);
    }
    Ok(())
}

/// The ends of the programs, behind the steps that the generator chooses by this seed.
fn put_steps<S: RawStore>(
    alloc: Global,
    text: &mut String,
    world: &mut World<'_, S>,
    numbers: Numbers,
    seed: u64,
) -> Result<(), AllocError> {
    let mut generator = Generator { state: seed };
    go_on(alloc, world, numbers, &mut generator)?;
    put_ends(alloc, text, world)
}

/// The same of a world of these images.
fn put_seed(
    alloc: Global,
    text: &mut String,
    images: &[Image],
    setting: &Setting<'_>,
    seed: u64,
) -> Result<(), AllocError> {
    let numbers = Numbers {
        programs: u32::try_from(images.len()).unwrap_or(0),
        evacuators: setting.evacuators,
        fetchers: setting.fetchers,
        frames: setting.frames,
        objects: setting.objects,
    };
    match open(alloc, images, setting) {
        Some(mut world) => put_steps(alloc, text, &mut world, numbers, seed),
        None => text.push_str("no world\n"),
    }
}

/// For each seed of the setting the ends of the programs of these images.
fn put_seeds(
    alloc: Global,
    text: &mut String,
    images: &[Image],
    setting: &Setting<'_>,
) -> Result<(), AllocError> {
    for seed in &setting.numbers {
        writeln!(text, "seed {seed}")?;
        put_seed(alloc, text, images, setting, *seed)?;
    }
    Ok(())
}

/// The same, told.
fn tell_seeds(
    alloc: Global,
    images: &[Image],
    setting: &Setting<'_>,
) -> Result<String, AllocError> {
    let mut told = String::new(alloc);
    put_seeds(alloc, &mut told, images, setting)?;
    Ok(told)
}

/// What is told of a row: for each of its seeds the ends of its programs.
pub(crate) fn tell(
    alloc: Global,
    shelf: &Shelf,
    setting: &Setting<'_>,
) -> Result<String, AllocError> {
    match setting.images(alloc, shelf)? {
        Some(images) => tell_seeds(alloc, &images, setting),
        None => String::from_str(alloc, "no such image"),
    }
}
