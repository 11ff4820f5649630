//! What can be seen of the machine in a state, and the clauses that must hold of it:
//! - the word of each object is one that there is, and the last event changed it as that actor may, or not at all, as where it was not enabled;
//! - no two objects are in one frame;
//! - each cell of an object in a frame is the last value that was stored there, and 0 where nothing was;
//! - each program runs, or has stopped with the result that is wanted.

use crate::setting::{Setting, Stored};
use crate::words::{frame_bit, is_lawful, is_word};
use cells::{Ended, Run, Stop};
use code_form::Image;
use remote_store::RawStore;
use std::alloc::Global;
use world::{Actor, World};

/// What was seen of the last state: the words before its event, how many instructions each program has completed, how many programs run, and how many cells a piece has; and of
/// all states: how many there were, in how many a clause did not hold, and how many events were not enabled.
#[derive(Drop)]
pub struct Seen {
    pub(crate) words: Vec<u64>,
    pub(crate) completed: Vec<u64>,
    pub(crate) running: u32,
    cells: usize,
    pub(crate) states: u64,
    pub(crate) wrong: u64,
    pub(crate) refused: u64,
}

impl Seen {
    /// Nothing, of the run of these images.
    pub(crate) fn new(alloc: Global, images: &[Image]) -> Seen {
        let cells = match images.first() {
            Some(image) => image.piece.cells(),
            None => 0,
        };
        Seen {
            words: Vec::new(alloc),
            completed: Vec::new(alloc),
            running: 0,
            cells,
            states: 0,
            wrong: 0,
            refused: 0,
        }
    }

    /// A try of an event, which was enabled or not, and whether all clauses hold behind it.
    pub(crate) fn note(&mut self, took: bool, right: bool) {
        if took {
            self.states = self.states.wrapping_add(1);
        } else {
            self.refused = self.refused.wrapping_add(1);
        }
        if !right {
            self.wrong = self.wrong.wrapping_add(1);
        }
    }

    /// The words are those of the world.
    pub(crate) fn set_words<S: RawStore>(&mut self, world: &World<'_, S>) {
        let mut object = 0u32;
        for word in &mut self.words {
            *word = world.word(object).bits;
            object = object.saturating_add(1);
        }
    }

    /// A program more. Whether it runs, or has stopped with the result.
    fn note_program(&mut self, number: usize, ended: &Ended, wanted: u32) -> bool {
        if let Some(completed) = self.completed.get_mut(number) {
            *completed = ended.completed;
        }
        match &ended.run {
            Run::Running => {
                self.running = self.running.saturating_add(1);
                true
            }
            Run::Stopped(Stop::Ended(number)) => i64::from(*number) == i64::from(wanted),
            _ => false,
        }
    }
}

/// An actor as a mover: its number among all of them, and, of a program, its own and how many objects it has.
#[derive(Clone, Copy)]
struct Hand {
    mover: u64,
    number: u32,
    share: u32,
}

/// What the actor is as a mover, of so many programs.
fn hand_of(actor: Actor, programs: u32, setting: &Setting<'_>) -> Hand {
    let (before, number, share) = match actor {
        Actor::Program(number) => (0, number, setting.objects.checked_div(programs)),
        Actor::Evacuator(number) => (programs, number, None),
        Actor::Fetcher(number) => (programs.saturating_add(setting.evacuators), number, None),
    };
    Hand {
        mover: u64::from(before)
            .saturating_add(u64::from(number))
            .saturating_add(1),
        number,
        share: share.unwrap_or(0),
    }
}

/// The last value that was stored in this cell, where the programs have completed so many instructions.
fn latest(stored: &[Stored], completed: &[u64], object: u32, index: usize) -> u64 {
    let mut latest = 0;
    for store in stored {
        let completed = completed.get(store.program).copied().unwrap_or(0);
        if store.object == object && store.index == index && completed >= store.behind {
            latest = store.value;
        }
    }
    latest
}

/// Whether each cell of the object, if it is in a frame, is the last value that was stored there.
fn has_latest<S: RawStore>(
    world: &World<'_, S>,
    setting: &Setting<'_>,
    seen: &Seen,
    object: u32,
) -> bool {
    for index in 0..seen.cells {
        if let Some(value) = world.cell(object, index)
            && value != latest(&setting.stored, &seen.completed, object, index)
        {
            return false;
        }
    }
    true
}

/// Looks at the cells. Whether they are what was stored last.
fn look_at_cells<S: RawStore>(world: &World<'_, S>, setting: &Setting<'_>, seen: &Seen) -> bool {
    for object in 0..setting.objects {
        if !has_latest(world, setting, seen, object) {
            return false;
        }
    }
    true
}

/// Looks at the programs. Whether each runs, or has stopped with the result; not so where memory ran out.
fn look_at_programs<S: RawStore>(
    alloc: Global,
    world: &World<'_, S>,
    setting: &Setting<'_>,
    seen: &mut Seen,
) -> bool {
    let mut right = true;
    seen.running = 0;
    for number in 0..world.programs() {
        right = match world.ended(alloc, number) {
            Ok(ended) => seen.note_program(number, &ended, setting.result) && right,
            Err(_) => false,
        };
    }
    right
}

/// Looks at the words, behind an event of this actor, which was enabled or not. Whether they are as they must be.
fn look_at_words<S: RawStore>(
    world: &World<'_, S>,
    setting: &Setting<'_>,
    actor: Actor,
    took: bool,
    words: &[u64],
) -> bool {
    let programs = u32::try_from(world.programs()).unwrap_or(0);
    let hand = hand_of(actor, programs, setting);
    let movers = u64::from(programs)
        .saturating_add(u64::from(setting.evacuators))
        .saturating_add(u64::from(setting.fetchers));
    let mut frames: u64 = 0;
    let mut right = true;
    let mut object = 0u32;
    for old in words {
        let new = world.word(object).bits;
        let held = frame_bit(new);
        let owns = object.checked_div(hand.share) == Some(hand.number);
        right = right
            && (*old == new || took && is_lawful(*old, new, hand.mover, owns))
            && frames & held == 0
            && is_word(new, movers, u64::from(setting.frames));
        frames |= held;
        object = object.saturating_add(1);
    }
    right
}

/// Looks at the world behind an event of this actor, which was enabled or not. Whether all clauses hold.
pub(crate) fn look<S: RawStore>(
    alloc: Global,
    world: &World<'_, S>,
    setting: &Setting<'_>,
    actor: Actor,
    took: bool,
    seen: &mut Seen,
) -> bool {
    let words = look_at_words(world, setting, actor, took, &seen.words);
    let programs = look_at_programs(alloc, world, setting, seen);
    words && programs && look_at_cells(world, setting, seen)
}
