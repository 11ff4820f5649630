//! Worlds that take steps, by lists of letters.

use crate::clauses::{Seen, look};
use crate::opening::open;
use crate::setting::{Repeated, Setting};
use crate::shelf::Shelf;
use code_form::Image;
use remote_store::RawStore;
use std::alloc::{AllocError, Global};
use world::{Actor, Choice, Step, World};

/// More rounds of the rest than programs take to end.
const MOST_ROUNDS: u32 = 10_000;

/// More walks than there are.
const MOST_WALKS: u32 = 100_000_000;

/// Where the walks are, and what is seen.
#[derive(Drop)]
struct Walk<'a> {
    /// The lines before all others, each with how often it comes.
    before: Vec<Repeated<'a>>,
    /// The letters of the list, and 0 behind its length.
    path: Vec<u32>,
    length: usize,
    seen: Seen,
    walks: u64,
    ended: u64,
}

/// Tries an event, and looks at what it leads to. Whether it was enabled.
fn take_and_look<S: RawStore>(
    alloc: Global,
    world: &mut World<'_, S>,
    setting: &Setting<'_>,
    actor: Actor,
    choice: Choice,
    seen: &mut Seen,
) -> bool {
    seen.set_words(world);
    let took = world.step(actor, choice) == Step::Took;
    let right = look(alloc, world, setting, actor, took, seen);
    seen.note(took, right);
    took
}

/// Tries the event of a line. Whether it was enabled. It is looked at, unless it is only taken again.
fn take<S: RawStore>(
    alloc: Global,
    world: &mut World<'_, S>,
    setting: &Setting<'_>,
    line: &Repeated<'_>,
    looks: bool,
    seen: &mut Seen,
) -> bool {
    match line.event {
        Some((actor, choice)) if looks => {
            take_and_look(alloc, world, setting, actor, choice, seen)
        }
        Some((actor, choice)) => world.step(actor, choice) == Step::Took,
        None => false,
    }
}

/// Tries the event of a line as often as it comes.
fn take_often<S: RawStore>(
    alloc: Global,
    world: &mut World<'_, S>,
    setting: &Setting<'_>,
    line: &Repeated<'_>,
    looks: bool,
    seen: &mut Seen,
) {
    for _ in 0..line.often {
        take(alloc, world, setting, line, looks, seen);
    }
}

/// Tries the lines before all others.
fn begin<S: RawStore>(
    alloc: Global,
    world: &mut World<'_, S>,
    setting: &Setting<'_>,
    before: &[Repeated<'_>],
    looks: bool,
    seen: &mut Seen,
) {
    for line in before {
        take_often(alloc, world, setting, line, looks, seen);
    }
}

/// Takes the first letter from this one on that has a line which is enabled, if there is one.
fn take_letter<S: RawStore>(
    alloc: Global,
    world: &mut World<'_, S>,
    setting: &Setting<'_>,
    from: u32,
    looks: bool,
    seen: &mut Seen,
) -> Option<u32> {
    for line in &setting.letters {
        if line.least >= from && take(alloc, world, setting, line, looks, seen) {
            return Some(line.least);
        }
    }
    None
}

/// Takes the letters of a list of which so many are known, the last of them or one behind it, and goes on as long as the list may be, with 0 behind its end. How many are taken.
fn go_along<S: RawStore>(
    alloc: Global,
    world: &mut World<'_, S>,
    setting: &Setting<'_>,
    path: &mut [u32],
    known: usize,
    seen: &mut Seen,
) -> usize {
    let mut length = 0usize;
    for letter in path {
        let looks = length.saturating_add(1) >= known;
        let taken = take_letter(alloc, world, setting, *letter, looks, seen);
        *letter = taken.unwrap_or(0);
        if taken.is_none() {
            return length;
        }
        length = length.saturating_add(1);
    }
    length
}

/// Tries each line of the rest. Whether one is enabled.
fn go_round<S: RawStore>(
    alloc: Global,
    world: &mut World<'_, S>,
    setting: &Setting<'_>,
    seen: &mut Seen,
) -> bool {
    let mut taken = false;
    for line in &setting.rest {
        taken = take(alloc, world, setting, line, true, seen) || taken;
    }
    taken
}

/// Tries the rest until none of it is enabled.
fn finish<S: RawStore>(
    alloc: Global,
    world: &mut World<'_, S>,
    setting: &Setting<'_>,
    seen: &mut Seen,
) {
    for _ in 0..MOST_ROUNDS {
        if !go_round(alloc, world, setting, seen) {
            return;
        }
    }
}

/// One walk in a fresh world: the lines before all others, the list as far as it goes, and the rest, unless the list is one that was taken before, but for its last letter.
fn go<S: RawStore>(
    alloc: Global,
    world: &mut World<'_, S>,
    setting: &Setting<'_>,
    walk: &mut Walk<'_>,
) {
    let known = walk.length;
    let seen = &mut walk.seen;
    begin(alloc, world, setting, &walk.before, known == 0, seen);
    walk.length = go_along(alloc, world, setting, &mut walk.path, known, seen);
    if walk.length >= known {
        finish(alloc, world, setting, seen);
        walk.walks = walk.walks.wrapping_add(1);
        if seen.running == 0 {
            walk.ended = walk.ended.wrapping_add(1);
        }
    }
}

/// One walk in a world of its own of these images. Whether there is one.
fn go_anew(alloc: Global, images: &[Image], setting: &Setting<'_>, walk: &mut Walk<'_>) -> bool {
    match open(alloc, images, setting) {
        Some(mut world) => {
            go(alloc, &mut world, setting, walk);
            true
        }
        None => false,
    }
}

impl Walk<'_> {
    /// The next list, whose letters are below this one, if there is one.
    fn next_list(&mut self, letters: u32) -> bool {
        for _ in 0..self.length {
            let last = self.length.saturating_sub(1);
            if let Some(letter) = self.path.get_mut(last) {
                if letter.saturating_add(1) < letters {
                    *letter = letter.saturating_add(1);
                    return true;
                }
                *letter = 0;
            }
            self.length = last;
        }
        false
    }

    /// The next numbers of the lines before all others, if there are any.
    fn next_numbers(&mut self) -> bool {
        for line in &mut self.before {
            if line.often < line.most {
                line.often = line.often.saturating_add(1);
                return true;
            }
            line.often = line.least;
        }
        false
    }

    /// Nothing seen, on the first walk of a row.
    fn prepare(&mut self, setting: &Setting<'_>, programs: usize) -> Result<(), AllocError> {
        self.path.resize(setting.length as usize, 0)?;
        self.seen.words.resize(setting.objects as usize, 0)?;
        self.seen.completed.resize(programs, 0)
    }
}

/// The number behind that of the last letter.
fn letters(setting: &Setting<'_>) -> u32 {
    match setting.letters.last() {
        Some(line) => line.least.saturating_add(1),
        None => 0,
    }
}

/// All walks. Whether each has a world.
fn go_all(alloc: Global, images: &[Image], setting: &Setting<'_>, walk: &mut Walk<'_>) -> bool {
    let letters = letters(setting);
    for _ in 0..MOST_WALKS {
        if !go_anew(alloc, images, setting, walk) {
            return false;
        }
        if !walk.next_list(letters) && !walk.next_numbers() {
            return true;
        }
    }
    false
}

/// What is seen on all walks of these images, where nothing was seen yet.
fn tell_all(
    alloc: Global,
    images: &[Image],
    setting: &Setting<'_>,
    walk: &mut Walk<'_>,
) -> Result<String, AllocError> {
    walk.prepare(setting, images.len())?;
    if !go_all(alloc, images, setting, walk) {
        return String::from_str(alloc, "no world");
    }
    let (walks, ended) = (walk.walks, walk.ended);
    let (states, wrong, refused) = (walk.seen.states, walk.seen.wrong, walk.seen.refused);
    format!(in alloc;
        "{walks} walks, {ended} to the end\n{states} states, {wrong} wrong; {refused} events not enabled\n"
    )
}

/// The same, from nothing.
fn tell_images(
    alloc: Global,
    images: &[Image],
    setting: &Setting<'_>,
) -> Result<String, AllocError> {
    let before = setting.lines.to_vec(alloc)?;
    let mut walk = Walk {
        before,
        path: Vec::new(alloc),
        length: 0,
        seen: Seen::new(alloc, images),
        walks: 0,
        ended: 0,
    };
    tell_all(alloc, images, setting, &mut walk)
}

/// What is told of a row.
pub(crate) fn tell(
    alloc: Global,
    shelf: &Shelf,
    setting: &Setting<'_>,
) -> Result<String, AllocError> {
    match setting.images(alloc, shelf)? {
        Some(images) => tell_images(alloc, &images, setting),
        None => String::from_str(alloc, "no such image"),
    }
}
