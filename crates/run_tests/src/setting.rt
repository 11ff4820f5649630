//! What a row says of its run.
ghost use Rattle.cells.specs.Pieces.{cells_in};
ghost use Rattle.object_lock.specs.Fresh.{IsWithinLimits};
ghost use Rattle.std.specs.Prelude.{◌≡◌, ◌<◌, ◌≤◌, ◌+◌, IfSome, length};
ghost use Rattle.world.specs.Opened.{images_of};
ghost use Rattle.world_semantics.specs.Pieces.{HaveOnePiece, piece_of};

use crate::shelf::Shelf;
use cells::Piece;
use code_form::Image;
use remote_store::{Config, FarHeap, FaultPlan, FaultStores};
use schedule_lines::line::read_line;
use std::alloc::{AllocError, Global};
use std::str::from_utf8;
use world::{Actor, Choice};

/// A line of a schedule, with its event if it is one, the least and the greatest number of how often it comes, and how often it does.
#[derive(Clone, Copy)]
pub struct Repeated<'a> {
    pub(crate) least: u32,
    pub(crate) most: u32,
    pub(crate) often: u32,
    pub(crate) line: &'a str,
    pub(crate) event: Option<(Actor, Choice)>,
}

/// What a cell of an object holds behind so many instructions of a program.
#[derive(Clone, Copy)]
pub struct Stored {
    pub(crate) program: usize,
    pub(crate) behind: u64,
    pub(crate) object: u32,
    pub(crate) index: usize,
    pub(crate) value: u64,
}

/// What a row says of its run.
#[derive(Drop)]
pub struct Setting<'a> {
    names: Vec<&'a str>,
    pub(crate) frames: u32,
    pub(crate) objects: u32,
    pub(crate) evacuators: u32,
    pub(crate) fetchers: u32,
    workers: u32,
    quantum: u32,
    plan: FaultPlan,
    pub(crate) held: bool,
    pub(crate) written: bool,
    pub(crate) length: u32,
    pub(crate) result: u32,
    pub(crate) numbers: Vec<u64>,
    pub(crate) stored: Vec<Stored>,
    pub(crate) lines: Vec<Repeated<'a>>,
    /// Lines of letters, whose least number is the letter's, and the lines that are tried behind all others.
    pub(crate) letters: Vec<Repeated<'a>>,
    pub(crate) rest: Vec<Repeated<'a>>,
}

/// The size of the pieces of these images. None where they have several.
#[tactic(auto, using(crate::proofs::Sizes::size_at))]
pub(crate) fn size_of(images: &[Image]) -> Option<Piece>
    requires { 0 < length images.now }
    ensures size { IfSome result (λ p. cells_in p ≡ piece_of (images_of images.now)) }
    ensures same { IfSome result (λ p. HaveOnePiece (images_of images.now) (length images.now)) }
{
    let piece = images[0].piece;
    let cells = piece.cells();
    for image in images {
        if image.piece.cells() != cells {
            return None;
        }
    }
    Some(piece)
}

/// Sets the number to what the word is. Whether it is one.
fn set(number: &mut u32, word: &str) -> bool {
    match word.parse() {
        Ok(value) => {
            *number = value;
            true
        }
        Err(_) => false,
    }
}

/// The plan of these words.
fn plan(words: &str) -> Option<FaultPlan> {
    let (word, number) = words.split_once(' ')?;
    let number = number.parse().ok()?;
    match word {
        "at" => Some(FaultPlan::Only(number)),
        "from" => Some(FaultPlan::From(number)),
        _ => None,
    }
}

/// The event of a line, if it is one.
fn event_of(alloc: Global, line: &str) -> Result<Option<(Actor, Choice)>, AllocError> {
    let whole = format!(in alloc; "{line}\n")?;
    match read_line(whole.as_bytes()) {
        Some((actor, choice, _)) => Ok(Some((actor, choice))),
        None => Ok(None),
    }
}

/// The numbers that this word is: one twice, or two.
fn bounds_of(word: &str) -> Option<(u32, u32)> {
    match word.split_once("..") {
        Some((least, most)) => Some((least.parse().ok()?, most.parse().ok()?)),
        None => {
            let often = word.parse().ok()?;
            Some((often, often))
        }
    }
}

/// A line more, where the word is a number or two. Whether it is.
fn put_line<'a>(
    alloc: Global,
    lines: &mut Vec<Repeated<'a>>,
    word: &str,
    line: &'a str,
) -> Result<bool, AllocError> {
    let Some((least, most)) = bounds_of(word) else {
        return Ok(false);
    };
    let event = event_of(alloc, line)?;
    lines.push(Repeated {
        least,
        most,
        often: least,
        line,
        event,
    })?;
    Ok(true)
}

/// What is stored as these five numbers say.
fn stored_of(numbers: &[u64]) -> Option<Stored> {
    match numbers {
        [program, behind, object, index, value] => Some(Stored {
            program: *program as usize,
            behind: *behind,
            object: u32::try_from(*object).ok()?,
            index: *index as usize,
            value: *value,
        }),
        _ => None,
    }
}

impl<'a> Setting<'a> {
    /// One frame, one object, no evacuator and no fetcher, one worker that runs one instruction at once, a store that does not fail, and no hold that stays open.
    fn new(alloc: Global) -> Setting<'a> {
        Setting {
            names: Vec::new(alloc),
            frames: 1,
            objects: 1,
            evacuators: 0,
            fetchers: 0,
            workers: 1,
            quantum: 1,
            plan: FaultPlan::Never,
            held: false,
            written: false,
            length: 0,
            result: 0,
            numbers: Vec::new(alloc),
            stored: Vec::new(alloc),
            lines: Vec::new(alloc),
            letters: Vec::new(alloc),
            rest: Vec::new(alloc),
        }
    }

    /// More numbers. Whether all these words are numbers.
    fn add_numbers(&mut self, words: &str) -> Result<bool, AllocError> {
        for word in words.split(' ') {
            let Ok(number) = word.parse() else {
                return Ok(false);
            };
            self.numbers.push(number)?;
        }
        Ok(true)
    }

    /// What a program stored. Whether these words are the five numbers of it.
    fn add_stored(&mut self, words: &str) -> Result<bool, AllocError> {
        self.numbers.clear();
        if !self.add_numbers(words)? {
            return Ok(false);
        }
        match stored_of(&self.numbers) {
            Some(stored) => {
                self.stored.push(stored)?;
                Ok(true)
            }
            None => Ok(false),
        }
    }

    /// What this line says more. Whether it says something.
    fn add(&mut self, alloc: Global, line: &'a str) -> Result<bool, AllocError> {
        let (word, rest) = line.split_once(' ').unwrap_or((line, ""));
        match word {
            "image" => {
                self.names.push(rest)?;
                Ok(true)
            }
            "frames" => Ok(set(&mut self.frames, rest)),
            "objects" => Ok(set(&mut self.objects, rest)),
            "evacuators" => Ok(set(&mut self.evacuators, rest)),
            "fetchers" => Ok(set(&mut self.fetchers, rest)),
            "workers" => Ok(set(&mut self.workers, rest)),
            "quantum" => Ok(set(&mut self.quantum, rest)),
            "lists" => Ok(set(&mut self.length, rest)),
            "result" => Ok(set(&mut self.result, rest)),
            "loads" | "runs" | "seeds" | "budgets" | "forged" => self.add_numbers(rest),
            "stored" => self.add_stored(rest),
            "held" => {
                self.held = true;
                Ok(true)
            }
            "written" => {
                self.written = true;
                Ok(true)
            }
            "fails" => match plan(rest) {
                Some(plan) => {
                    self.plan = plan;
                    Ok(true)
                }
                None => Ok(false),
            },
            "rest" => put_line(alloc, &mut self.rest, "1", rest),
            "letter" => {
                let (number, line) = rest.split_once(' ').unwrap_or((rest, ""));
                put_line(alloc, &mut self.letters, number, line)
            }
            _ => put_line(alloc, &mut self.lines, word, rest),
        }
    }

    /// What the lines of this text say more. Whether each says something.
    fn add_all(&mut self, alloc: Global, text: &'a [u8]) -> Result<bool, AllocError> {
        for line in text.split(|byte| *byte == b'\n') {
            let Ok(line) = from_utf8(line) else {
                return Ok(false);
            };
            if !self.add(alloc, line)? {
                return Ok(false);
            }
        }
        Ok(true)
    }

    /// What the lines of this text say. None where one of them says nothing.
    pub(crate) fn of(alloc: Global, text: &'a [u8]) -> Result<Option<Setting<'a>>, AllocError> {
        let mut setting = Setting::new(alloc);
        if setting.add_all(alloc, text)? {
            Ok(Some(setting))
        } else {
            Ok(None)
        }
    }

    /// The bytes of the first image that it names, if that is there.
    pub(crate) fn bytes<'s>(&self, shelf: &'s Shelf) -> Option<&'s [u8]> {
        shelf.bytes(self.names.first()?)
    }

    /// The images that it names. None where one is not there.
    pub(crate) fn images(
        &self,
        alloc: Global,
        shelf: &Shelf,
    ) -> Result<Option<Vec<Image>>, AllocError> {
        let mut images = Vec::new(alloc);
        for name in &self.names {
            let Some(image) = shelf.image(alloc, name) else {
                return Ok(None);
            };
            images.push(image)?;
        }
        Ok(Some(images))
    }

    /// Its numbers, whatever they are, and stores for pieces of this size that fail by its plan. None where memory ran out.
    pub(crate) fn any_config(
        &self,
        alloc: Global,
        piece: Piece,
    ) -> Option<Config<FaultStores<FarHeap>>>
        ensures store { IfSome result (λ c. c.stores.stores.words ≡ cells_in piece + 3) }
    {
        let stores = FaultStores::new(alloc, FarHeap::new(piece), self.plan).ok()?;
        Some(Config {
            frames: self.frames,
            objects: self.objects,
            evacuators: self.evacuators,
            fetchers: self.fetchers,
            workers: self.workers,
            quantum: self.quantum,
            stores,
        })
    }

    /// Its numbers, and stores for pieces of this size that fail by its plan. None where a number is out of its range, or memory ran out.
    pub(crate) fn config(&self, alloc: Global, piece: Piece) -> Option<Config<FaultStores<FarHeap>>>
        ensures store { IfSome result (λ c. c.stores.stores.words ≡ cells_in piece + 3) }
        ensures frames { IfSome result (λ c. (0 < c.frames) × (c.frames ≤ 1048576)) }
        ensures objects { IfSome result (λ c. (0 < c.objects) × (c.objects ≤ 16777216)) }
        ensures movers { IfSome result (λ c. (c.evacuators ≤ 64) × (c.fetchers ≤ 64)) }
        ensures limits { IfSome result (λ c. IsWithinLimits 1 c.frames c.objects c.evacuators c.fetchers) }
    {
        let frames = self.frames;
        let objects = self.objects;
        let evacuators = self.evacuators;
        let fetchers = self.fetchers;
        if frames == 0 || frames > 1_048_576 || objects == 0 || objects > 16_777_216 {
            return None;
        }
        if evacuators > 64 || fetchers > 64 {
            return None;
        }
        let Ok(stores) = FaultStores::new(alloc, FarHeap::new(piece), self.plan) else {
            return None;
        };
        Some(Config {
            frames,
            objects,
            evacuators,
            fetchers,
            workers: self.workers,
            quantum: self.quantum,
            stores,
        })
    }
}
