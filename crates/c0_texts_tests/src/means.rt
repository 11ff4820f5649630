//! Texts whose plain meaning is told, and compared with the run of their image.
use crate::again::compile_again;
use crate::asked::Asked;
use crate::runs::execute;
use c0_meaning::Meant;
use c0_plain::mean_text;
use c0_source::fault::Fault;
use c0_syntax::level::Level;
use cells::{Run, Stop};
use std::alloc::Global;
use std::io;
use std::io::Write;
use std::sync::Wait;
use std::thread::Threads;
use std::time::Clock;

/// Writes what a program printed, with its last line finished, and how it ended.
fn tell<O: Write>(out: &mut O, meant: &Meant) -> io::Result<()> {
    out.write_all(&meant.output)?;
    if meant.output.last().is_some_and(|byte| *byte != b'\n') {
        writeln!(out)?;
    }
    match &meant.stop {
        Some(stop) => writeln!(out, "{stop}"),
        None => writeln!(out, "cut"),
    }
}

/// Whether the compiled text, written and read again, prints this and stops so.
fn runs_so<R: Threads + Wait + Clock + Sync>(
    alloc: Global,
    rt: &R,
    asked: Asked,
    text: &[u8],
    output: &[u8],
    stop: &Stop,
) -> Result<bool, Fault> {
    let Some(read) = compile_again(alloc, text, asked.checks, asked.level)? else {
        return Ok(false);
    };
    let ended = execute(alloc, rt, read)?;
    let same_end = match &ended.run {
        Run::Stopped(other) => other == stop,
        Run::Running | Run::Wanted(_) => false,
    };
    Ok(same_end && ended.output.as_slice() == output)
}

/// Tells what a text means, and where that has ended whether the compiled text does the same. False where it does not.
fn tell_both<R: Threads + Wait + Clock + Sync, O: Write>(
    alloc: Global,
    rt: &R,
    asked: Asked,
    text: &[u8],
    meant: &Meant,
    out: &mut O,
) -> io::Result<bool> {
    tell(out, meant)?;
    let Some(stop) = &meant.stop else {
        return Ok(true);
    };
    match runs_so(alloc, rt, asked, text, &meant.output, stop) {
        Ok(true) => {
            writeln!(out, "run: the same")?;
            Ok(true)
        }
        Ok(false) => {
            writeln!(out, "run: otherwise")?;
            Ok(false)
        }
        Err(fault) => {
            writeln!(out, "run: {fault}")?;
            Ok(false)
        }
    }
}

/// Runs this text plainly, for so many turns, and tells what it means. False where it is refused, or the compiled text does something else.
pub(crate) fn mean<R: Threads + Wait + Clock + Sync, O: Write>(
    alloc: Global,
    rt: &R,
    asked: Asked,
    name: &str,
    text: &[u8],
    out: &mut O,
) -> io::Result<bool> {
    let flag = if asked.checks { " -d" } else { "" };
    let level = match asked.level {
        Level::C0 => "",
        Level::Loops => " --level 1",
    };
    let turns = asked.number;
    writeln!(out, "mean{flag}{level} --turns {turns} {name}")?;
    match mean_text(alloc, text, asked.checks, asked.level, turns) {
        Ok(meant) => tell_both(alloc, rt, asked, text, &meant, out),
        Err(fault) => {
            writeln!(out, "{fault}")?;
            Ok(false)
        }
    }
}
