//! Schedules, replayed.

use crate::setting::{Repeated, Setting, size_of};
use crate::shelf::Shelf;
use crate::touches::put_output;
use cells::Ended;
use std::alloc::{AllocError, Global};
use std::fmt::Write;
use world::replay;

/// A line, as often as it comes.
fn put_line(text: &mut String, repeated: &Repeated<'_>) -> Result<(), AllocError> {
    for _ in 0..repeated.often {
        text.push_str(repeated.line)?;
        text.push('\n')?;
    }
    Ok(())
}

/// The lines of a row.
fn put_lines(text: &mut String, lines: &[Repeated<'_>]) -> Result<(), AllocError> {
    for line in lines {
        put_line(text, line)?;
    }
    Ok(())
}

/// The same, as a text.
fn schedule(alloc: Global, lines: &[Repeated<'_>]) -> Result<String, AllocError> {
    let mut text = String::new(alloc);
    put_lines(&mut text, lines)?;
    Ok(text)
}

/// How a program runs, how many instructions it completed, and what it printed.
pub(crate) fn put_ended(text: &mut String, number: usize, ended: &Ended) -> Result<(), AllocError> {
    let run = &ended.run;
    let completed = ended.completed;
    writeln!(text, "p{number}: {run}, {completed} completed")?;
    put_output(text, &ended.output)
}

/// The ends of programs.
fn put_ends(text: &mut String, ends: &[Ended]) -> Result<(), AllocError> {
    for (number, ended) in ends.iter().enumerate() {
        put_ended(text, number, ended)?;
    }
    Ok(())
}

/// The same, told.
fn tell_ends(alloc: Global, ends: &[Ended]) -> Result<String, AllocError> {
    let mut told = String::new(alloc);
    put_ends(&mut told, ends)?;
    Ok(told)
}

/// What is told of this schedule of a row.
fn tell_schedule(
    alloc: Global,
    shelf: &Shelf,
    setting: &Setting<'_>,
    schedule: &[u8],
) -> Result<String, AllocError> {
    let Some(images) = setting.images(alloc, shelf)? else {
        return String::from_str(alloc, "no such image");
    };
    if images.is_empty() || images.len() > 256 {
        return String::from_str(alloc, "no image, or too many");
    }
    let Some(piece) = size_of(&images) else {
        return String::from_str(alloc, "pieces of other sizes");
    };
    let Some(config) = setting.config(alloc, piece) else {
        return String::from_str(alloc, "numbers out of range");
    };
    match replay(alloc, images, &config, schedule) {
        Ok(report) => tell_ends(alloc, &report.ended),
        Err(refused) => format!(in alloc; "{refused}"),
    }
}

/// What is told of a row.
pub(crate) fn tell(
    alloc: Global,
    shelf: &Shelf,
    setting: &Setting<'_>,
) -> Result<String, AllocError> {
    let schedule = schedule(alloc, &setting.lines)?;
    tell_schedule(alloc, shelf, setting, schedule.as_bytes())
}
