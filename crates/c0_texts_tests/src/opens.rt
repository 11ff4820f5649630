//! Texts whose image runs alone in a world, step by step: how often a step opens a hold of a piece.

use crate::asked::Asked;
use c0_image::compile;
use cells::{Piece, Want};
use remote_store::{Config, FarHeap, RawStore};
use std::alloc::Global;
use std::io;
use std::io::Write;
use world::{Actor, Choice, Step, World};

/// How many frames there are, and how many objects: each object finds a free frame.
const FRAMES: u32 = 4;

/// More steps than such a text takes.
const STEPS: u32 = 1_000_000;

/// How many holds there are of all objects.
fn holds<S: RawStore>(world: &World<'_, S>) -> u64 {
    let mut sum = 0u64;
    for object in 0..FRAMES {
        sum = sum.wrapping_add(world.word(object).count());
    }
    sum
}

/// Takes a step of the program: where it seeks a frame, it claims this one. Whether it took one, and which frame is to be claimed next.
fn go_on<S: RawStore>(world: &mut World<'_, S>, frame: u32) -> (bool, u32) {
    let program = Actor::Program(0);
    if world.step(program, Choice::Next) == Step::Took {
        return (true, frame);
    }
    if world.step(program, Choice::Claim(frame)) == Step::Took {
        return (true, frame.saturating_add(1));
    }
    (false, frame)
}

/// Takes steps of the program until none is enabled, and tells how many of them raised the holds.
fn count_opens<S: RawStore>(world: &mut World<'_, S>) -> u64 {
    let mut opens = 0u64;
    let mut frame = 0;
    let mut before = holds(world);
    for _ in 0..STEPS {
        let (taken, next) = go_on(world, frame);
        if !taken {
            return opens;
        }
        frame = next;
        let after = holds(world);
        if after > before {
            opens = opens.saturating_add(1);
        }
        before = after;
    }
    opens
}

/// Tells how the program of this world ends, and whether it opened a hold, and no more than it was asked for. False where it did not.
fn tell_opens<S: RawStore, O: Write>(
    alloc: Global,
    most: u64,
    name: &str,
    world: &mut World<'_, S>,
    out: &mut O,
) -> io::Result<bool> {
    let opens = count_opens(world);
    if world.programs() == 0 {
        return Ok(false);
    }
    let run = world.ended(alloc, 0)?.run;
    if opens == 0 || opens > most {
        writeln!(out, "{name}: {run}, with {opens} opens")?;
        return Ok(false);
    }
    writeln!(out, "{name}: {run}, with at most {most} opens")?;
    Ok(true)
}

/// Runs the text alone in a world, and tells of it. False where it opened no hold, or more than it was asked for, where it is refused, or where memory ran out.
pub(crate) fn open_few<O: Write>(
    alloc: Global,
    asked: Asked,
    name: &str,
    text: &[u8],
    out: &mut O,
) -> io::Result<bool> {
    let Ok(verified) = compile(alloc, text, false, asked.level, Piece::Cells64) else {
        return Ok(false);
    };
    let images = [verified.into_image()];
    let config = Config {
        frames: FRAMES,
        objects: FRAMES,
        evacuators: 0,
        fetchers: 0,
        workers: 1,
        quantum: 1,
        stores: FarHeap::new(images[0].piece),
    };
    let world: Result<World<'_, FarHeap>, Want> = World::new(alloc, &images, &config);
    match world {
        Ok(mut world) => tell_opens(alloc, asked.number, name, &mut world, out),
        Err(_want) => Ok(false),
    }
}
