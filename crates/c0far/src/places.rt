//! Where programs stopped, and which function they called last where calls passed the limit of memory: it is told by the plain run of their texts.
ghost use Rattle.std.specs.Prelude.{◌≡◌, ℕ, IfErr, IfOk, IfSome, List, false, map};
ghost use Rattle.std.specs.Io.KnownBytes.{Appends};
ghost use Rattle.c0far.specs.FileCode.{names_image};
ghost use Rattle.command_files.specs.FileTexts.{HasText, Known};
ghost use Rattle.cells.specs.Stops.{stop_of};
ghost use Rattle.c0far.specs.Places.{ArePlaces, IsPlace, TellsBeside};
ghost use Rattle.command_messages.specs.Shown.{StandsAt, shown_stop};
ghost use Rattle.streams.specs.Streams.{IsWritten, NoneFailed, OneFailed, writes};

use crate::code::is_image_name;
use crate::last_calls::{called, write_call};
use crate::plain::write_stop;
use c0_meaning::{Numbers, Placed};
use c0_plain::{Untold, mean_text_placed};
use c0_source::position::line_column;
use c0_syntax::name::Name;
use c0_typed::Site;
use cells::{Run, Stop, Want};
use command_files::Files;
use command_line::words::RunOptions;
use command_messages::{REFUSED, STOPPED, say_more, status_of};
use executor::{Finished, MoverCounts};
use memory_limit::{MemoryLimit, MemoryUse};
use std::alloc::Global;
use streams::{Failed, Stream};

/// What the plain run of a text came to.
#[derive(Drop)]
struct PlainEnd {
    text: Vec<u8>,
    came: Result<Placed, Untold>,
}

/// Where in a text its program stops, and by which numbers.
#[derive(Drop)]
struct StopSite {
    text: Vec<u8>,
    site: Site,
    numbers: Option<Numbers>,
}

/// Which function of a text was called last.
#[derive(Drop)]
struct LastCall {
    text: Vec<u8>,
    name: Name,
}

/// The plain run of the text of a file, within the limit of memory. A program reads no input, so it ends as it does however it is run, but for want of memory. There is none
/// of an image.
fn run_plainly<F: Files>(
    alloc: Global,
    asked: RunOptions<'_>,
    file: &str,
    files: &mut F,
) -> Option<PlainEnd>
    ensures files { (name : List ℕ) → F.holds files.new name ≡ F.holds files.old name }
    ensures text { IfSome result (λ r. HasText (F.holds files.old file.now) r.text.items) }
    ensures named { IfSome result (λ r. names_image file.now ≡ false) }
{
    if is_image_name(file) {
        return None;
    }
    let Ok(text) = files.read_text(alloc, file) else {
        return None;
    };
    let limit = MemoryLimit::of_mebibytes(asked.limit);
    let texts = asked.compiling.texts;
    let came = mean_text_placed(alloc, &text, texts.checks, texts.level, u64::MAX, limit);
    Some(PlainEnd { text, came })
}

/// Where the program of a file stops that is run plainly.
fn stop_site<F: Files>(
    alloc: Global,
    asked: RunOptions<'_>,
    file: &str,
    files: &mut F,
) -> Option<StopSite>
    ensures files { (name : List ℕ) → F.holds files.new name ≡ F.holds files.old name }
    ensures text { IfSome result (λ r. HasText (F.holds files.old file.now) r.text.items) }
    ensures named { IfSome result (λ r. names_image file.now ≡ false) }
{
    let Some(PlainEnd { text, came }) = run_plainly(alloc, asked, file, files) else {
        return None;
    };
    let Ok(placed) = came else {
        return None;
    };
    match placed.place {
        Some(site) => Some(StopSite {
            text,
            site,
            numbers: placed.numbers,
        }),
        None => None,
    }
}

/// Which function the program of a file calls last that is run plainly, where its calls pass the limit.
fn last_call<F: Files>(
    alloc: Global,
    asked: RunOptions<'_>,
    file: &str,
    files: &mut F,
) -> Option<LastCall>
    ensures files { (name : List ℕ) → F.holds files.new name ≡ F.holds files.old name }
    ensures text { IfSome result (λ r. HasText (F.holds files.old file.now) r.text.items) }
    ensures named { IfSome result (λ r. names_image file.now ≡ false) }
{
    let Some(PlainEnd { text, came }) = run_plainly(alloc, asked, file, files) else {
        return None;
    };
    let Err(untold) = came else {
        return None;
    };
    match called(alloc, &text, asked.compiling.texts.level, untold.call) {
        Some(name) => Some(LastCall { text, name }),
        None => None,
    }
}

/// Writes that a program stopped so, at a site of a text of this file.
fn write_found<E: Stream>(
    err: &mut E,
    file: &str,
    stop: &Stop,
    found: &StopSite,
) -> Result<(), Failed>
    ensures { (line : ℕ) × (column : ℕ) × StandsAt found.now.text.items found.now.site.offset line column
        × IsWritten (writes E.contents E.failures err.old err.new) (shown_stop file.now line column (stop_of stop.now) found.now.numbers) result }
{
    let position = line_column(&found.text, found.site.offset);
    write_stop(err, file, position, stop, found.numbers)
}

/// Writes where the program of a file stopped, which ended so, if it is known.
fn write_stopped<F: Files, E: Stream>(
    alloc: Global,
    asked: RunOptions<'_>,
    file: &str,
    files: &mut F,
    run: &Run,
    err: &mut E,
) -> Result<(), Failed>
    ensures files { (name : List ℕ) → F.holds files.new name ≡ F.holds files.old name }
    ensures written { IfOk result (λ u. (bytes : List ℕ) × IsPlace file.now (F.holds files.old file.now) run.now bytes × Appends (E.contents err.old) (E.contents err.new) bytes × NoneFailed (writes E.contents E.failures err.old err.new)) }
    ensures failed { IfErr result (λ u. OneFailed (writes E.contents E.failures err.old err.new)) }
{
    let Run::Stopped(stop) = run else {
        return Ok(());
    };
    if status_of(run) != STOPPED {
        return Ok(());
    }
    match stop_site(alloc, asked, file, files) {
        Some(found) => write_found(err, file, stop, &found),
        None => Ok(()),
    }
}

/// Writes which function the program of a file called last, which ended so, if its calls passed the limit and that is known. Where the system refused memory, the text is
/// not run once more.
fn write_wanted<F: Files, E: Stream>(
    alloc: Global,
    asked: RunOptions<'_>,
    file: &str,
    files: &mut F,
    run: &Run,
    passed: Option<MemoryUse>,
    err: &mut E,
) -> Result<(), Failed>
    ensures files { (name : List ℕ) → F.holds files.new name ≡ F.holds files.old name }
    ensures written { IfOk result (λ u. (bytes : List ℕ) × IsPlace file.now (F.holds files.old file.now) run.now bytes × Appends (E.contents err.old) (E.contents err.new) bytes × NoneFailed (writes E.contents E.failures err.old err.new)) }
    ensures failed { IfErr result (λ u. OneFailed (writes E.contents E.failures err.old err.new)) }
{
    let Some(MemoryUse::Calls) = passed else {
        return Ok(());
    };
    let Run::Wanted(Want::OutOfMemory) = run else {
        return Ok(());
    };
    match last_call(alloc, asked, file, files) {
        Some(found) => write_call(err, file, &found.text, &found.name),
        None => Ok(()),
    }
}

/// Writes where the program of a file stopped, or which function it called last, which ended so, if that is known.
fn write_place<F: Files, E: Stream>(
    alloc: Global,
    asked: RunOptions<'_>,
    file: &str,
    files: &mut F,
    run: &Run,
    passed: Option<MemoryUse>,
    err: &mut E,
) -> Result<(), Failed>
    ensures files { (name : List ℕ) → F.holds files.new name ≡ F.holds files.old name }
    ensures written { IfOk result (λ u. (bytes : List ℕ) × IsPlace file.now (F.holds files.old file.now) run.now bytes × Appends (E.contents err.old) (E.contents err.new) bytes × NoneFailed (writes E.contents E.failures err.old err.new)) }
    ensures failed { IfErr result (λ u. OneFailed (writes E.contents E.failures err.old err.new)) }
{
    if let Run::Wanted(_) = run {
        write_wanted(alloc, asked, file, files, run, passed, err)
    } else {
        write_stopped(alloc, asked, file, files, run, err)
    }
}

/// Writes where the programs of files stopped, which ended so.
fn write_places<F: Files, E: Stream>(
    alloc: Global,
    asked: RunOptions<'_>,
    names: &[&str],
    files: &mut F,
    programs: &[Finished],
    err: &mut E,
) -> Result<(), Failed>
    ensures files { (name : List ℕ) → F.holds files.new name ≡ F.holds files.old name }
    ensures written { IfOk result (λ u. (held : List ℕ → Known) → ((name : List ℕ) → F.holds files.old name ≡ held name)
        → (bytes : List ℕ) × ArePlaces held (map (λ n. n.now) names.now) programs.now bytes × Appends (E.contents err.old) (E.contents err.new) bytes × NoneFailed (writes E.contents E.failures err.old err.new)) }
    ensures failed { IfErr result (λ u. OneFailed (writes E.contents E.failures err.old err.new)) }
{
    match names {
        [] => Ok(()),
        [name, others @ ..] => match programs {
            [] => Ok(()),
            [one, rest @ ..] => {
                let passed = one.counts.passed;
                write_place(alloc, asked, name, files, &one.end.run, passed, err)?;
                write_places(alloc, asked, others, files, rest, err)
            }
        },
    }
}

/// Tells what is asked for beside the ends of the programs of files; the status is this one, unless a write failed.
pub(crate) fn say_beside<F: Files, E: Stream>(
    alloc: Global,
    asked: RunOptions<'_>,
    share: usize,
    names: &[&str],
    files: &mut F,
    programs: &[Finished],
    movers: &[MoverCounts],
    took: Option<u64>,
    err: &mut E,
    status: u8,
) -> u8
    ensures files { (name : List ℕ) → F.holds files.new name ≡ F.holds files.old name }
    ensures told { (held : List ℕ → Known) → ((name : List ℕ) → F.holds files.old name ≡ held name)
        → TellsBeside asked.entry.explains asked.entry.stats asked.entry.limit held (map (λ n. n.now) names.now) share programs.now movers.now took (writes E.contents E.failures err.old err.new) status result }
{
    if !asked.explains {
        return say_more(err, asked, share, programs, movers, took, status);
    }
    match write_places(alloc, asked, names, files, programs, err) {
        Ok(()) => say_more(err, asked, share, programs, movers, took, status),
        Err(Failed) => REFUSED,
    }
}
