//! Texts that are printed from their trees and read back, and run with their contracts checked.
use crate::again::compile_again;
use crate::runs::execute;
use c0_front::{check_text, read_text};
use c0_source::fault::Fault;
use c0_source::position::line_column;
use c0_syntax::level::Level;
use c0_syntax::print::print;
use cells::Ended;
use std::alloc::Global;
use std::io;
use std::io::Write;
use std::sync::Wait;
use std::thread::Threads;
use std::time::Clock;

/// The text, as its tree is printed.
fn printed(alloc: Global, level: Level, text: &[u8]) -> Result<String, Fault> {
    let program = read_text(alloc, text, level)?;
    print(alloc, &program)
}

/// Whether the text is accepted, and what is printed of its tree is printed of its own tree too.
fn reads_back(alloc: Global, level: Level, text: &[u8]) -> Result<bool, Fault> {
    let _typed = check_text(alloc, text, level)?;
    let once = printed(alloc, level, text)?;
    let twice = printed(alloc, level, once.as_bytes())?;
    Ok(once == twice)
}

/// The end of the text's program, with its contracts checked, as its image has it that was written and read again. None where that is another image.
fn ended<R: Threads + Wait + Clock + Sync>(
    alloc: Global,
    rt: &R,
    level: Level,
    text: &[u8],
) -> Result<Option<Ended>, Fault> {
    match compile_again(alloc, text, true, level)? {
        Some(read) => Ok(Some(execute(alloc, rt, read)?)),
        None => Ok(None),
    }
}

/// Tells what the fault of this text is, and where.
fn tell_fault<O: Write>(out: &mut O, name: &str, text: &[u8], fault: Fault) -> io::Result<()> {
    let place = line_column(text, fault.span.start);
    let line = place.line;
    let column = place.column;
    writeln!(out, "{name}:{line}:{column}: {fault}")
}

/// Tells what a program printed, and how it ended.
fn tell_end<O: Write>(out: &mut O, ended: &Ended) -> io::Result<()> {
    out.write_all(&ended.output)?;
    let run = &ended.run;
    writeln!(out, "{run}")
}

/// Checks, prints and runs this text. False where something is not as it has to be.
pub(crate) fn print_back<R: Threads + Wait + Clock + Sync, O: Write>(
    alloc: Global,
    rt: &R,
    level: Level,
    name: &str,
    text: &[u8],
    out: &mut O,
) -> io::Result<bool> {
    match reads_back(alloc, level, text) {
        Ok(true) => writeln!(out, "{name}: ok")?,
        Ok(false) => {
            writeln!(out, "{name}: printed otherwise")?;
            return Ok(false);
        }
        Err(fault) => {
            tell_fault(out, name, text, fault)?;
            return Ok(false);
        }
    }
    match ended(alloc, rt, level, text) {
        Ok(Some(ended)) => {
            tell_end(out, &ended)?;
            Ok(true)
        }
        Ok(None) => {
            writeln!(out, "{name}: read otherwise")?;
            Ok(false)
        }
        Err(fault) => {
            tell_fault(out, name, text, fault)?;
            Ok(false)
        }
    }
}
