//! Steps of a world.

use crate::opening::open;
use crate::schedules::put_ended;
use crate::setting::{Repeated, Setting};
use crate::shelf::Shelf;
use code_form::Image;
use remote_store::RawStore;
use std::alloc::{AllocError, Global};
use std::fmt::Write;
use world::{Actor, Choice, Step, World};

/// How many of so many steps are taken.
fn take<S: RawStore>(world: &mut World<'_, S>, actor: Actor, choice: Choice, count: u32) -> u32 {
    let mut taken = 0u32;
    for _ in 0..count {
        if world.step(actor, choice) == Step::Took {
            taken = taken.saturating_add(1);
        }
    }
    taken
}

/// The word of object 0, and its first cell.
fn put_object<S: RawStore>(text: &mut String, world: &World<'_, S>) -> Result<(), AllocError> {
    let bits = world.word(0).bits;
    write!(text, "word {bits:x}")?;
    match world.cell(0, 0) {
        Some(value) => writeln!(text, ", cell {value}"),
        None => text.push_str(", no cell\n"),
    }
}

/// Takes the steps of a line, and tells where object 0 is then.
fn put_line<S: RawStore>(
    text: &mut String,
    world: &mut World<'_, S>,
    line: &Repeated<'_>,
    more: u32,
) -> Result<(), AllocError> {
    let Some((actor, choice)) = line.event else {
        return text.push_str("no line\n");
    };
    let count = line.least.saturating_add(more).min(line.most);
    let taken = take(world, actor, choice, count);
    if taken < count {
        write!(text, "{taken} taken, ")?;
    }
    put_object(text, world)
}

/// The ends of the programs.
pub(crate) fn put_ends<S: RawStore>(
    alloc: Global,
    text: &mut String,
    world: &World<'_, S>,
) -> Result<(), AllocError> {
    for number in 0..world.programs() {
        put_ended(text, number, &world.ended(alloc, number)?)?;
    }
    Ok(())
}

/// Takes the steps of these lines, of which each comes so many more times than its least: where object 0 is before and behind each, and how the programs end.
fn put_steps<S: RawStore>(
    alloc: Global,
    text: &mut String,
    world: &mut World<'_, S>,
    lines: &[Repeated<'_>],
    more: u32,
) -> Result<(), AllocError> {
    put_object(text, world)?;
    for line in lines {
        put_line(text, world, line, more)?;
    }
    put_ends(alloc, text, world)
}

/// The same in a world of these images.
fn put_images(
    alloc: Global,
    text: &mut String,
    images: &[Image],
    setting: &Setting<'_>,
    more: u32,
) -> Result<(), AllocError> {
    match open(alloc, images, setting) {
        Some(mut world) => put_steps(alloc, text, &mut world, &setting.lines, more),
        None => text.push_str("no world"),
    }
}

/// What is told of these images where a line that comes in several numbers comes in its least and so many more.
fn tell_images(
    alloc: Global,
    images: &[Image],
    setting: &Setting<'_>,
    more: u32,
) -> Result<String, AllocError> {
    let mut told = String::new(alloc);
    put_images(alloc, &mut told, images, setting, more)?;
    Ok(told)
}

/// How many numbers the line comes in, but for one.
fn more(lines: &[Repeated<'_>]) -> u32 {
    let mut more = 0u32;
    for repeated in lines {
        more = more.max(repeated.most.saturating_sub(repeated.least));
    }
    more
}

/// Tells where one of these numbers differs from the first, of which this is told.
fn put_other(
    alloc: Global,
    first: &mut String,
    images: &[Image],
    setting: &Setting<'_>,
) -> Result<(), AllocError> {
    for more in 1..=more(&setting.lines) {
        let other = tell_images(alloc, images, setting, more)?;
        if other != *first {
            return write!(first, "and with {more} more:\n{other}");
        }
    }
    Ok(())
}

/// What is told of these images, for each number in which a line comes. Where one differs from the first, that is told too.
fn tell_numbers(
    alloc: Global,
    images: &[Image],
    setting: &Setting<'_>,
) -> Result<String, AllocError> {
    let mut first = tell_images(alloc, images, setting, 0)?;
    put_other(alloc, &mut first, images, setting)?;
    Ok(first)
}

/// What is told of a row.
pub(crate) fn tell(
    alloc: Global,
    shelf: &Shelf,
    setting: &Setting<'_>,
) -> Result<String, AllocError> {
    match setting.images(alloc, shelf)? {
        Some(images) => tell_numbers(alloc, &images, setting),
        None => String::from_str(alloc, "no such image"),
    }
}
