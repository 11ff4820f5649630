//! What the instructions of a run touch.

use crate::setting::Setting;
use crate::shelf::Shelf;
use code_execution::Execution;
use code_form::{Cell, Image, Touch};
use std::alloc::{AllocError, Global};
use std::fmt::Write;

/// More instructions than a run of a row completes.
const LIMIT: u32 = 400;

/// What the next instruction touches, whether it is blocked, and whether the run has stopped.
#[derive(Clone, Copy)]
struct Seen {
    touch: Touch,
    blocked: bool,
    stopped: bool,
}

/// What was told so far, but for some plain touches.
#[derive(Drop)]
struct Tape {
    told: String,
    plain: u32,
}

/// A cell more.
fn put_cell(text: &mut String, cell: Cell) -> Result<(), AllocError> {
    let reference = cell.reference;
    let index = cell.index;
    write!(text, "{reference}.{index}")
}

/// A cell more, if there is one.
fn put_wanted(text: &mut String, wanted: Option<Cell>) -> Result<(), AllocError> {
    match wanted {
        Some(cell) => put_cell(text, cell),
        None => text.push_str("nothing"),
    }
}

/// A touch more.
fn put_touch(text: &mut String, touch: Touch) -> Result<(), AllocError> {
    match touch {
        Touch::Plain => text.push_str("plain"),
        Touch::Hints(wanted) => {
            text.push_str("hints at ")?;
            put_wanted(text, wanted)
        }
        Touch::Aims(scope, wanted) => {
            write!(text, "aims {scope} at ")?;
            put_wanted(text, wanted)
        }
        Touch::Loads(scope, cell) => {
            write!(text, "loads by {scope} from ")?;
            put_cell(text, cell)
        }
        Touch::Stores(scope, cell, value) => {
            write!(text, "stores {value} by {scope} to ")?;
            put_cell(text, cell)
        }
        Touch::Leaves(scope) => write!(text, "leaves {scope}"),
        Touch::Allocs(cells) => write!(text, "allocates {cells}"),
        Touch::Ends => text.push_str("ends"),
        Touch::Wrong => text.push_str("wrong"),
        Touch::Nothing => text.push_str("nothing"),
    }
}

impl Tape {
    /// The plain touches are told.
    fn finish(&mut self) -> Result<(), AllocError> {
        let plain = self.plain;
        if plain > 0 {
            writeln!(self.told, "plain {plain}")?;
        }
        self.plain = 0;
        Ok(())
    }

    /// What is seen more.
    fn add(&mut self, seen: Seen) -> Result<(), AllocError> {
        if seen.touch == Touch::Plain && !seen.blocked && !seen.stopped {
            self.plain = self.plain.saturating_add(1);
            return Ok(());
        }
        self.finish()?;
        put_touch(&mut self.told, seen.touch)?;
        if seen.blocked {
            self.told.push_str(", blocked")?;
        }
        if seen.stopped {
            self.told.push_str(", stopped")?;
        }
        self.told.push('\n')
    }
}

/// What is seen of a run.
fn look(alloc: Global, execution: &Execution<'_>) -> Result<Seen, AllocError> {
    Ok(Seen {
        touch: execution.next(),
        blocked: execution.is_blocked(),
        stopped: execution.stop(alloc)?.is_some(),
    })
}

/// Does the next instruction, where a load gives this value.
fn step(execution: &mut Execution<'_>, loaded: u64) -> Result<(), AllocError> {
    match execution.next() {
        Touch::Allocs(_) => execution.allocate(),
        Touch::Plain
        | Touch::Hints(_)
        | Touch::Aims(..)
        | Touch::Loads(..)
        | Touch::Stores(..)
        | Touch::Leaves(_)
        | Touch::Ends
        | Touch::Wrong
        | Touch::Nothing => execution.proceed(loaded),
    }
}

/// Does the instructions until nothing is left to do, and tells what each touches.
fn follow(
    alloc: Global,
    execution: &mut Execution<'_>,
    loads: &[u64],
    tape: &mut Tape,
) -> Result<(), AllocError> {
    let mut loaded = 0usize;
    for _ in 0..LIMIT {
        let seen = look(alloc, execution)?;
        tape.add(seen)?;
        if seen.touch == Touch::Nothing {
            return Ok(());
        }
        step(execution, loads.get(loaded).copied().unwrap_or(0))?;
        if let Touch::Loads(..) = seen.touch {
            loaded = loaded.saturating_add(1);
        }
    }
    Ok(())
}

/// How a run stopped, and what it printed.
fn put_end(alloc: Global, execution: &Execution<'_>, text: &mut String) -> Result<(), AllocError> {
    match execution.stop(alloc)? {
        Some(stop) => writeln!(text, "{stop}")?,
        None => text.push_str("no stop\n")?,
    }
    put_output(text, execution.output())
}

/// What was printed more.
pub(crate) fn put_output(text: &mut String, output: &[u8]) -> Result<(), AllocError> {
    text.push_str("output:")?;
    if !output.is_empty() {
        text.push(' ')?;
    }
    for byte in output {
        text.push(*byte as char)?;
    }
    text.push('\n')
}

/// What is told of a run.
fn tell_run(
    alloc: Global,
    execution: &mut Execution<'_>,
    loads: &[u64],
) -> Result<String, AllocError> {
    let mut tape = Tape {
        told: String::new(alloc),
        plain: 0,
    };
    follow(alloc, execution, loads, &mut tape)?;
    tape.finish()?;
    put_end(alloc, execution, &mut tape.told)?;
    Ok(tape.told)
}

/// What is told of an image's run.
fn tell_image(alloc: Global, image: &Image, loads: &[u64]) -> Result<String, AllocError> {
    let mut execution = Execution::new(alloc, image)?;
    tell_run(alloc, &mut execution, loads)
}

/// What is told of a row.
pub(crate) fn tell(
    alloc: Global,
    shelf: &Shelf,
    setting: &Setting<'_>,
) -> Result<String, AllocError> {
    let Some(images) = setting.images(alloc, shelf)? else {
        return String::from_str(alloc, "no such image");
    };
    match images.first() {
        Some(image) => tell_image(alloc, image, &setting.numbers),
        None => String::from_str(alloc, "no image"),
    }
}
