//! The command `mean`: what the program of a text means within some turns.
ghost use Rattle.std.specs.Prelude.{◌≡◌, ◌≢◌, ◌⊎◌, ◌++◌, ℕ, IsSome, List, codes};
ghost use Rattle.c0_front.specs.Texts.{IsTypedAs};
ghost use Rattle.c0_syntax.specs.Levels.{has_loops};
ghost use Rattle.c0_typed.specs.Trees as y;
ghost use Rattle.cells.specs.Stops.{stop_of};
ghost use Rattle.c0_meaning.specs.Run.{ended_of, meant_of};
ghost use Rattle.command_line.specs.Shell.{bound_of};
ghost use Rattle.c0far.specs.Driven.{IsOverLimit, Means};
ghost use Rattle.c0far.specs.NoCode.{LacksMemory};
ghost use Rattle.command_messages.specs.Shown.{StandsAt, TellsCall, TellsPlace, TellsWhere, newline, shown_meaning, shown_numbers, shown_stop};
ghost use Rattle.command_files.specs.FileTexts.{HasText, Known};
ghost use Rattle.command_messages.specs.Statuses.{ended_status};
ghost use Rattle.command_messages.specs.Wants.{passed_line};
ghost use Rattle.streams.specs.Streams.{IsQuiet, IsWritten, Says, Writes, writes};

use crate::last_calls::{called, write_call};
use c0_meaning::{Meant, Numbers, Placed};
use c0_plain::{Untold, mean_text_placed};
use c0_source::fault::FaultKind;
use c0_source::position::{Position, line_column};
use c0_typed::Site;
use cells::Stop;
use command_files::{FileError, Files};
use command_line::words::Bound;
use command_messages::{
    REFUSED, STOPPED, WANTED, after, say_memory, say_refused, say_unread, write_output,
    write_passed,
};
use memory_limit::{MemoryLimit, MemoryUse};
use std::alloc::Global;
use streams::{Failed, Stream};

/// The status of a program that has stopped so, or was cut.
fn status_of(stop: &Option<Stop>) -> u8
    ensures { result ≡ ended_status (ended_of stop.now) }
{
    match stop {
        None | Some(Stop::Ended(_)) => 0,
        Some(_) => STOPPED,
    }
}

/// Says what a program printed, and how it stopped or that it was cut: a newline stands between them where the output doesn't end in one.
fn say_meaning<O: Stream>(out: &mut O, meant: &Meant) -> u8
    ensures { Says (writes O.contents O.failures out.old out.new) (shown_meaning (meant_of meant.now)) (ended_status (ended_of meant.now.stop)) result }
{
    let status = status_of(&meant.stop);
    if write_output(out, &meant.output).is_err() {
        return REFUSED;
    }
    match &meant.stop {
        Some(stop) => after(writeln!(out, "{stop}"), status),
        None => after(writeln!(out, "cut"), status),
    }
}

/// Writes the numbers that stopped a program, and the end of their line.
fn write_numbers<E: Stream>(err: &mut E, numbers: Option<Numbers>) -> Result<(), Failed>
    ensures { IsWritten (writes E.contents E.failures err.old err.new) (shown_numbers numbers ++ newline) result }
{
    match numbers {
        None => writeln!(err),
        Some(Numbers::Index { index, length }) => {
            writeln!(err, " (index {index}, length {length})")
        }
        Some(Numbers::Length(length)) => writeln!(err, " (length {length})"),
    }
}

/// Writes that a program stopped so, at a place of a file's text, by these numbers.
pub(crate) fn write_stop<E: Stream>(
    err: &mut E,
    file: &str,
    position: Position,
    stop: &Stop,
    numbers: Option<Numbers>,
) -> Result<(), Failed>
    ensures { IsWritten (writes E.contents E.failures err.old err.new) (shown_stop file.now position.line position.column (stop_of stop.now) numbers) result }
{
    let line = position.line;
    let column = position.column;
    write!(err, "{file}:{line}:{column}: {stop}")?;
    write_numbers(err, numbers)
}

/// Says that a program stopped so, at a site of a file's text, by these numbers; the status is this one, unless the write failed.
fn say_stop<E: Stream>(
    err: &mut E,
    file: &str,
    text: &[u8],
    site: Site,
    stop: &Stop,
    numbers: Option<Numbers>,
    status: u8,
) -> u8
    ensures { (line : ℕ) × (column : ℕ) × StandsAt text.now site.offset line column
        × Says (writes E.contents E.failures err.old err.new) (shown_stop file.now line column (stop_of stop.now) numbers) status result }
{
    let position = line_column(text, site.offset);
    after(write_stop(err, file, position, stop, numbers), status)
}

/// Says where a program of a file's text stopped, if it did otherwise than by a result; the status is this one, unless the write failed.
fn say_place<E: Stream>(err: &mut E, file: &str, text: &[u8], placed: &Placed, status: u8) -> u8
    ensures { TellsPlace file.now text.now (ended_of placed.now.meant.stop) (writes E.contents E.failures err.old err.new) status result }
{
    let Some(site) = placed.place else {
        return status;
    };
    let Some(stop) = &placed.meant.stop else {
        return status;
    };
    if status_of(&placed.meant.stop) != STOPPED {
        return status;
    }
    say_stop(err, file, text, site, stop, placed.numbers, status)
}

/// Says what a plain run came to, and where it stopped, if that is asked for.
fn say_placed<O: Stream, E: Stream>(
    out: &mut O,
    err: &mut E,
    explains: bool,
    file: &str,
    text: &[u8],
    placed: &Placed,
) -> u8
    ensures { (status : ℕ) × Says (writes O.contents O.failures out.old out.new) (shown_meaning (meant_of placed.now.meant)) (ended_status (ended_of placed.now.meant.stop)) status
        × TellsWhere explains file.now text.now (ended_of placed.now.meant.stop) (writes E.contents E.failures err.old err.new) status result }
{
    let status = say_meaning(out, &placed.meant);
    if explains {
        say_place(err, file, text, placed, status)
    } else {
        status
    }
}

/// Writes that memory ran out, and what passed the limit of so many MiB.
fn write_over<E: Stream>(err: &mut E, limit: u32, taker: MemoryUse) -> Result<(), Failed>
    ensures { IsWritten (writes E.contents E.failures err.old err.new) ((codes "out of memory" ++ newline) ++ passed_line 0 taker limit) result }
{
    writeln!(err, "out of memory")?;
    write_passed(err, 0, taker, limit)
}

/// Says which function was called last in the plain run of a file's text, if that is asked for and known; the status is this one, unless the write failed.
fn say_call<E: Stream>(
    alloc: Global,
    err: &mut E,
    bound: Bound,
    file: &str,
    text: &[u8],
    call: Option<usize>,
    status: u8,
) -> u8
    ensures { TellsCall bound.explains file.now text.now (writes E.contents E.failures err.old err.new) status result }
{
    if !bound.explains || status != WANTED {
        return status;
    }
    match called(alloc, text, bound.texts.level, call) {
        Some(name) => after(write_call(err, file, text, &name), status),
        None => status,
    }
}

/// Says that the plain run of a file's text passed the limit, by this use of memory.
fn say_over<E: Stream>(
    alloc: Global,
    err: &mut E,
    bound: Bound,
    file: &str,
    text: &[u8],
    taker: MemoryUse,
    call: Option<usize>,
) -> u8
    requires { bound.limit ≢ 0 }
    ensures { (held : Known) (out : Writes) (p : y.Program) → IsTypedAs (has_loops bound.texts.level) text.now p → HasText held text.now → IsQuiet out → IsOverLimit (bound_of bound) file.now held out (writes E.contents E.failures err.old err.new) result }
{
    let status = after(write_over(err, bound.limit, taker), WANTED);
    say_call(alloc, err, bound, file, text, call, status)
}

/// Says that memory was refused to the plain run of a file's text.
fn say_no_room<E: Stream>(
    alloc: Global,
    err: &mut E,
    bound: Bound,
    file: &str,
    text: &[u8],
    untold: Untold,
) -> u8
    requires { IsSome untold.passed → (p : y.Program) × IsTypedAs (has_loops bound.texts.level) text.now p }
    ensures { (held : Known) (out : Writes) → HasText held text.now → IsQuiet out
        → LacksMemory out (writes E.contents E.failures err.old err.new) result ⊎ IsOverLimit (bound_of bound) file.now held out (writes E.contents E.failures err.old err.new) result }
{
    match untold.passed {
        Some(taker) if bound.limit != 0 => {
            say_over(alloc, err, bound, file, text, taker, untold.call)
        }
        _ => say_memory(err),
    }
}

/// The plain run of a text, which stands in this file.
fn mean_named<O: Stream, E: Stream>(
    alloc: Global,
    bound: Bound,
    file: &str,
    text: &[u8],
    out: &mut O,
    err: &mut E,
) -> u8
    ensures { (held : Known) → HasText held text.now → Means (bound_of bound) file.now held (writes O.contents O.failures out.old out.new) (writes E.contents E.failures err.old err.new) result }
{
    match mean_text_placed(
        alloc,
        text,
        bound.texts.checks,
        bound.texts.level,
        bound.turns,
        MemoryLimit::of_mebibytes(bound.limit),
    ) {
        Ok(placed) => say_placed(out, err, bound.explains, file, text, &placed),
        Err(untold) if untold.fault.kind == FaultKind::OutOfMemory => {
            say_no_room(alloc, err, bound, file, text, untold)
        }
        Err(untold) => say_refused(err, file, text, bound.texts.level, untold.fault),
    }
}

/// The plain run of a file's text.
pub fn mean<F: Files, O: Stream, E: Stream>(
    alloc: Global,
    bound: Bound,
    file: &str,
    files: &mut F,
    out: &mut O,
    err: &mut E,
) -> u8
    ensures files { (name : List ℕ) → F.holds files.new name ≡ F.holds files.old name }
    ensures done { Means (bound_of bound) file.now (F.holds files.old file.now) (writes O.contents O.failures out.old out.new) (writes E.contents E.failures err.old err.new) result }
{
    match files.read_text(alloc, file) {
        Ok(text) => mean_named(alloc, bound, file, &text, out, err),
        Err(FileError::Cannot) => say_unread(err, file),
        Err(FileError::OutOfMemory) => say_memory(err),
    }
}
