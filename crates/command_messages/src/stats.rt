//! The table of what was counted, which is told on the standard error where it is asked for.
ghost use Rattle.std.specs.Prelude.{◌+◌, ◌++◌, ◌<◌, ◌^◌, length};
ghost use Rattle.command_messages.specs.Stats.{evacuator_line, fetcher_line, mover_lines, program_line, program_lines, shown_calls, shown_moves, shown_others, shown_work, stats_text, time_line};
ghost use Rattle.streams.specs.Streams.{IsWritten, writes};

use executor::{Evacuated, Fetched, Finished, MoverCounts};
use streams::{Failed, Stream};

/// Writes how many instructions program number `number` completed, how many turns it had, how many objects it allocated, and in how many frames these were seen.
fn write_work<E: Stream>(err: &mut E, number: u64, one: &Finished) -> Result<(), Failed>
    ensures { IsWritten (writes E.contents E.failures err.old err.new) (shown_work number one.now) result }
{
    let instructions = one.end.completed;
    let turns = one.turns;
    let objects = one.counts.objects;
    let frames = one.counts.frames;
    write!(
        err,
        "program {number}: instructions {instructions}, turns {turns}, objects {objects}, frames {frames}"
    )
}

/// Writes how many pieces it opened, and how many objects it moved by itself.
fn write_moves<E: Stream>(err: &mut E, one: &Finished) -> Result<(), Failed>
    ensures { IsWritten (writes E.contents E.failures err.old err.new) (shown_moves one.now) result }
{
    let opened = one.counts.opened;
    let brought = one.counts.brought;
    let written = one.counts.written;
    let left = one.counts.left;
    write!(
        err,
        ", opened {opened}, brought {brought}, written {written}, left {left}"
    )
}

/// Writes how many calls of the store it made, and how many hints it gave.
fn write_calls<E: Stream>(err: &mut E, one: &Finished) -> Result<(), Failed>
    ensures { IsWritten (writes E.contents E.failures err.old err.new) (shown_calls one.now) result }
{
    let calls = one.counts.calls;
    let failed = one.refusals.count;
    let hints = one.counts.hints;
    let dropped = one.counts.dropped;
    writeln!(
        err,
        ", calls {calls}, failed {failed}, hints {hints}, dropped {dropped}"
    )
}

/// Writes what it did beside its instructions.
fn write_others<E: Stream>(err: &mut E, one: &Finished) -> Result<(), Failed>
    ensures { IsWritten (writes E.contents E.failures err.old err.new) (shown_others one.now) result }
{
    write_moves(err, one)?;
    write_calls(err, one)
}

/// Writes the line of a program.
#[tactic(auto, unfolding(crate::specs::Stats::program_line))]
fn write_program<E: Stream>(err: &mut E, number: u64, one: &Finished) -> Result<(), Failed>
    ensures { IsWritten (writes E.contents E.failures err.old err.new) (program_line number one.now) result }
{
    write_work(err, number, one)?;
    write_others(err, one)
}

/// Writes the lines of several programs, whose numbers are those from this one on.
fn write_programs<E: Stream>(err: &mut E, number: u64, programs: &[Finished]) -> Result<(), Failed>
    requires { number + length programs.now < 2 ^ 64 }
    ensures { IsWritten (writes E.contents E.failures err.old err.new) (program_lines number programs.now) result }
{
    match programs {
        [] => Ok(()),
        [one, rest @ ..] => {
            write_program(err, number, one)?;
            write_programs(err, number + 1, rest)
        }
    }
}

/// Writes the line of an evacuator.
fn write_evacuator<E: Stream>(err: &mut E, number: u64, counts: Evacuated) -> Result<(), Failed>
    ensures { IsWritten (writes E.contents E.failures err.old err.new) (evacuator_line number counts) result }
{
    let Evacuated {
        rounds,
        left,
        aborted,
        failed,
    } = counts;
    writeln!(
        err,
        "evacuator {number}: rounds {rounds}, left {left}, aborted {aborted}, failed {failed}"
    )
}

/// Writes the line of a fetcher.
fn write_fetcher<E: Stream>(err: &mut E, number: u64, counts: Fetched) -> Result<(), Failed>
    ensures { IsWritten (writes E.contents E.failures err.old err.new) (fetcher_line number counts) result }
{
    let Fetched {
        brought,
        dropped,
        failed,
    } = counts;
    writeln!(
        err,
        "fetcher {number}: brought {brought}, dropped {dropped}, failed {failed}"
    )
}

/// Writes the lines of movers: evacuators are numbered from the one number on, and fetchers from the other.
fn write_movers<E: Stream>(
    err: &mut E,
    evacuators: u64,
    fetchers: u64,
    movers: &[MoverCounts],
) -> Result<(), Failed>
    requires evacuators { evacuators + length movers.now < 2 ^ 64 }
    requires fetchers { fetchers + length movers.now < 2 ^ 64 }
    ensures { IsWritten (writes E.contents E.failures err.old err.new) (mover_lines evacuators fetchers movers.now) result }
{
    match movers {
        [] => Ok(()),
        [MoverCounts::Evacuates(counts), rest @ ..] => {
            write_evacuator(err, evacuators, *counts)?;
            write_movers(err, evacuators + 1, fetchers, rest)
        }
        [MoverCounts::Fetches(counts), rest @ ..] => {
            write_fetcher(err, fetchers, *counts)?;
            write_movers(err, evacuators, fetchers + 1, rest)
        }
    }
}

/// Writes the line of the time.
fn write_time<E: Stream>(err: &mut E, took: Option<u64>) -> Result<(), Failed>
    ensures { IsWritten (writes E.contents E.failures err.old err.new) (time_line took) result }
{
    match took {
        Some(took) => writeln!(err, "time: {took} ms"),
        None => Ok(()),
    }
}

/// Writes the lines of movers, and then that of the time.
fn write_rest<E: Stream>(
    err: &mut E,
    movers: &[MoverCounts],
    took: Option<u64>,
) -> Result<(), Failed>
    ensures { IsWritten (writes E.contents E.failures err.old err.new) (mover_lines 0 0 movers.now ++ time_line took) result }
{
    write_movers(err, 0, 0, movers)?;
    write_time(err, took)
}

/// Writes the table.
pub(crate) fn write_stats<E: Stream>(
    err: &mut E,
    programs: &[Finished],
    movers: &[MoverCounts],
    took: Option<u64>,
) -> Result<(), Failed>
    ensures { IsWritten (writes E.contents E.failures err.old err.new) (stats_text programs.now movers.now took) result }
{
    write_programs(err, 0, programs)?;
    write_rest(err, movers, took)
}
