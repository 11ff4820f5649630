//! Images forged of an image's bytes, and what becomes of them, counted.

use crate::opening::open;
use crate::setting::Setting;
use crate::shelf::Shelf;
use cells::{Ended, Run, Stop};
use code_form::Image;
use image_reader::decode;
use remote_store::RawStore;
use scope_verifier::verify;
use std::alloc::{AllocError, Global};
use std::fmt::Write;
use std::slice::from_ref;
use world::{Actor, Choice, Step, World};

/// How many instructions of an image are looked at.
const MOST_COMPLETED: u64 = 1_000;

/// More events than so many instructions have.
const MOST_EVENTS: u64 = MOST_COMPLETED * 300;

/// What becomes of images, and of how many.
#[derive(Drop)]
struct Sort {
    name: String,
    count: u32,
}

/// What has become of images: how many of each sort, as they were met, the sum of the results, and how many instructions were completed.
#[derive(Drop)]
struct Table {
    sorts: Vec<Sort>,
    results: i64,
    completed: u64,
}

impl Table {
    /// One image more of this sort.
    fn note(&mut self, alloc: Global, name: &str) -> Result<(), AllocError> {
        for sort in &mut self.sorts {
            if sort.name.as_str() == name {
                sort.count = sort.count.wrapping_add(1);
                return Ok(());
            }
        }
        let name = String::from_str(alloc, name)?;
        self.sorts.push(Sort { name, count: 1 })?;
        Ok(())
    }

    /// One run more, which ended so, or was long enough.
    fn note_end(&mut self, alloc: Global, ended: &Ended) -> Result<(), AllocError> {
        self.completed = self.completed.wrapping_add(ended.completed);
        match &ended.run {
            Run::Stopped(Stop::Ended(result)) => {
                self.results = self.results.wrapping_add(i64::from(*result));
                self.note(alloc, "result")
            }
            Run::Stopped(Stop::ErrorCalled(_)) => self.note(alloc, "error"),
            run => {
                let name = format!(in alloc; "{run}")?;
                self.note(alloc, &name)
            }
        }
    }

    /// Whether a run goes no further, or has completed enough. It is counted then.
    fn note_if_at_end(&mut self, alloc: Global, ended: &Ended) -> Result<bool, AllocError> {
        if let Run::Running = ended.run
            && ended.completed < MOST_COMPLETED
        {
            return Ok(false);
        }
        self.note_end(alloc, ended)?;
        Ok(true)
    }

    /// A line for each sort, and the sums.
    fn put(&self, told: &mut String) -> Result<(), AllocError> {
        for sort in &self.sorts {
            let name = sort.name.as_str();
            let count = sort.count;
            writeln!(told, "{name}: {count}")?;
        }
        let (results, completed) = (self.results, self.completed);
        writeln!(told, "results come to {results}, {completed} completed")
    }
}

/// The first event of the program that is enabled of what is next and the claims of frames. Whether there is one.
fn goes_on<S: RawStore>(world: &mut World<'_, S>, frames: u32) -> bool {
    if world.step(Actor::Program(0), Choice::Next) == Step::Took {
        return true;
    }
    for frame in 0..frames {
        if world.step(Actor::Program(0), Choice::Claim(frame)) == Step::Took
            && world.step(Actor::Program(0), Choice::Next) == Step::Took
        {
            return true;
        }
    }
    false
}

/// Whether the program goes no further, or has completed enough. It is counted then.
fn is_at_end<S: RawStore>(
    alloc: Global,
    world: &World<'_, S>,
    table: &mut Table,
) -> Result<bool, AllocError> {
    if world.programs() == 0 {
        return Ok(true);
    }
    let ended = world.ended(alloc, 0)?;
    table.note_if_at_end(alloc, &ended)
}

/// Runs the program until it has ended or completed enough, and counts what became of it.
fn follow<S: RawStore>(
    alloc: Global,
    world: &mut World<'_, S>,
    frames: u32,
    table: &mut Table,
) -> Result<(), AllocError> {
    for _ in 0..MOST_EVENTS {
        if is_at_end(alloc, world, table)? {
            return Ok(());
        }
        if !goes_on(world, frames) {
            return table.note(alloc, "stuck");
        }
    }
    table.note(alloc, "endless")
}

/// What becomes of an image that is verified, counted.
fn try_verified(
    alloc: Global,
    image: &Image,
    setting: &Setting<'_>,
    table: &mut Table,
) -> Result<(), AllocError> {
    match open(alloc, from_ref(image), setting) {
        Some(mut world) => follow(alloc, &mut world, setting.frames, table),
        None => table.note(alloc, "no world"),
    }
}

/// What becomes of an image that was read, counted: it is verified, and run.
fn try_image(
    alloc: Global,
    image: Image,
    setting: &Setting<'_>,
    table: &mut Table,
) -> Result<(), AllocError> {
    match verify(alloc, image) {
        Ok(verified) => try_verified(alloc, &verified.into_image(), setting, table),
        Err(fault) => {
            let name = format!(in alloc; "{fault}")?;
            table.note(alloc, &name)
        }
    }
}

/// What becomes of these bytes, counted.
fn try_bytes(
    alloc: Global,
    bytes: &[u8],
    setting: &Setting<'_>,
    table: &mut Table,
) -> Result<(), AllocError> {
    match decode(alloc, bytes) {
        Ok(image) => try_image(alloc, image, setting, table),
        Err(fault) => {
            let name = format!(in alloc; "{fault}")?;
            table.note(alloc, &name)
        }
    }
}

/// Puts this byte there.
fn put(bytes: &mut [u8], at: usize, value: u8) {
    if let Some(place) = bytes.get_mut(at) {
        *place = value;
    }
}

/// Puts each other value in place of a byte.
fn change_at(
    alloc: Global,
    forged: &mut [u8],
    at: usize,
    setting: &Setting<'_>,
    table: &mut Table,
) -> Result<(), AllocError> {
    let held = forged.get(at).copied().unwrap_or(0);
    for value in 0..=255u8 {
        put(forged, at, value);
        if value != held {
            try_bytes(alloc, forged, setting, table)?;
        }
    }
    put(forged, at, held);
    Ok(())
}

/// The same of each byte.
fn change(
    alloc: Global,
    forged: &mut [u8],
    setting: &Setting<'_>,
    table: &mut Table,
) -> Result<(), AllocError> {
    for at in 0..forged.len() {
        change_at(alloc, forged, at, setting, table)?;
    }
    Ok(())
}

/// Puts the bytes from this place to before that one behind others.
fn put_part(
    forged: &mut Vec<u8>,
    bytes: &[u8],
    start: usize,
    end: usize,
) -> Result<(), AllocError> {
    match bytes.get(start..end) {
        Some(part) => forged.extend_from_slice(part),
        None => Ok(()),
    }
}

/// Puts the parts of the bytes that these numbers say, each from its first to before its last, one behind another.
fn put_parts(forged: &mut Vec<u8>, bytes: &[u8], numbers: &[u64]) -> Result<(), AllocError> {
    for part in numbers.chunks_exact(2) {
        if let [start, end] = part {
            put_part(forged, bytes, *start as usize, *end as usize)?;
        }
    }
    Ok(())
}

/// What becomes of the image that these numbers say, counted: a byte is put at a place, and parts are joined.
fn try_joined(
    alloc: Global,
    bytes: &mut [u8],
    forged: &mut Vec<u8>,
    numbers: &[u64],
    setting: &Setting<'_>,
    table: &mut Table,
) -> Result<(), AllocError> {
    let [at, value, parts @ ..] = numbers else {
        return Ok(());
    };
    let at = *at as usize;
    let held = bytes.get(at).copied().unwrap_or(0);
    put(bytes, at, u8::try_from(*value).unwrap_or(0));
    forged.clear();
    put_parts(forged, bytes, parts)?;
    put(bytes, at, held);
    try_bytes(alloc, forged, setting, table)
}

/// The same of each twelve of the setting's numbers.
fn join(
    alloc: Global,
    bytes: &mut [u8],
    setting: &Setting<'_>,
    table: &mut Table,
) -> Result<(), AllocError> {
    let mut forged = Vec::new(alloc);
    for numbers in setting.numbers.chunks_exact(12) {
        try_joined(alloc, bytes, &mut forged, numbers, setting, table)?;
    }
    Ok(())
}

/// What becomes of the images that are forged of these bytes, counted: as the setting's numbers say, or, where there are none, with each byte changed to each other value.
fn forge(
    alloc: Global,
    bytes: &mut [u8],
    setting: &Setting<'_>,
    table: &mut Table,
) -> Result<(), AllocError> {
    if setting.numbers.is_empty() {
        change(alloc, bytes, setting, table)
    } else {
        join(alloc, bytes, setting, table)
    }
}

/// The same, told.
fn tell_bytes(
    alloc: Global,
    bytes: &mut [u8],
    setting: &Setting<'_>,
    told: &mut String,
) -> Result<(), AllocError> {
    let mut table = Table {
        sorts: Vec::new(alloc),
        results: 0,
        completed: 0,
    };
    forge(alloc, bytes, setting, &mut table)?;
    table.put(told)
}

/// The same of the image that a row names.
fn put_forged(
    alloc: Global,
    shelf: &Shelf,
    setting: &Setting<'_>,
    told: &mut String,
) -> Result<(), AllocError> {
    match setting.bytes(shelf) {
        Some(bytes) => {
            let mut bytes = bytes.to_vec(alloc)?;
            tell_bytes(alloc, &mut bytes, setting, told)
        }
        None => told.push_str("no such image"),
    }
}

/// What becomes of the images that are forged of the one that a row names.
pub(crate) fn tell(
    alloc: Global,
    shelf: &Shelf,
    setting: &Setting<'_>,
) -> Result<String, AllocError> {
    let mut told = String::new(alloc);
    put_forged(alloc, shelf, setting, &mut told)?;
    Ok(told)
}
