//! What is told on the standard error beside the ends of programs, where it is asked for: what they wanted, and the table of what was counted.
ghost use Rattle.std.specs.Prelude.{◌≡◌, ◌+◌, ◌++◌, ◌<◌, ◌^◌, length};
ghost use Rattle.command_messages.specs.Stats.{stats_text};
ghost use Rattle.command_messages.specs.Wants.{TellsMore, share_of as equal_share, failure_line, has_lines as lines_of, limit_line, limit_lines, memory_line, objects_line, passed_line, refused_line, shown_call, shown_cause, shown_failure, shown_get, shown_last, shown_put, want_line, want_lines, wants_text};
ghost use Rattle.streams.specs.Streams.{IsWritten, writes};

use crate::say::after;
use crate::stats::write_stats;
use cells::{Run, Want};
use command_line::words::RunOptions;
use executor::{Finished, MoverCounts};
use memory_limit::MemoryUse;
use remote_store::{Cause, RefusedCall};
use streams::{Failed, Stream};

/// Writes why the store failed, as it stands behind the call that failed.
fn write_cause<E: Stream>(err: &mut E, cause: Cause) -> Result<(), Failed>
    ensures { IsWritten (writes E.contents E.failures err.old err.new) (shown_cause cause) result }
{
    match cause {
        Cause::Untold => Ok(()),
        Cause::NotFound => write!(err, ": no such file or folder"),
        Cause::Denied => write!(err, ": permission denied"),
        Cause::Full => write!(err, ": no room is left"),
        Cause::NotRegular => write!(err, ": not a regular file"),
        Cause::OtherLength => write!(err, ": not as long as it was written"),
    }
}

/// Writes that a put of the object was refused.
#[tactic(auto, unfolding(crate::specs::Wants::shown_put))]
fn write_put<E: Stream>(err: &mut E, object: usize) -> Result<(), Failed>
    ensures { IsWritten (writes E.contents E.failures err.old err.new) (shown_put object) result }
{
    write!(err, "cannot write object {object}")
}

/// Writes that a get of the object was refused.
#[tactic(auto, unfolding(crate::specs::Wants::shown_get))]
fn write_get<E: Stream>(err: &mut E, object: usize) -> Result<(), Failed>
    ensures { IsWritten (writes E.contents E.failures err.old err.new) (shown_get object) result }
{
    write!(err, "cannot read object {object}")
}

/// Writes which call was refused, and why.
fn write_call<E: Stream>(err: &mut E, call: RefusedCall) -> Result<(), Failed>
    ensures { IsWritten (writes E.contents E.failures err.old err.new) (shown_call call) result }
{
    match call {
        RefusedCall::Put(object, cause) => {
            write_put(err, object)?;
            write_cause(err, cause)
        }
        RefusedCall::Get(object, cause) => {
            write_get(err, object)?;
            write_cause(err, cause)
        }
        RefusedCall::Wrong(object) => write!(err, "object {object} is not as it was written"),
    }
}

/// Writes the last call that was refused, or that none was.
fn write_last<E: Stream>(err: &mut E, last: Option<RefusedCall>) -> Result<(), Failed>
    ensures { IsWritten (writes E.contents E.failures err.old err.new) (shown_last last) result }
{
    match last {
        Some(call) => write_call(err, call),
        None => write!(err, "gave back other cells than were written"),
    }
}

/// Writes the end of the line of a program for which the store failed.
fn write_failure<E: Stream>(err: &mut E, last: Option<RefusedCall>) -> Result<(), Failed>
    ensures { IsWritten (writes E.contents E.failures err.old err.new) (shown_failure last) result }
{
    write_last(err, last)?;
    writeln!(err)
}

/// Writes the line of a program for which the store failed.
fn write_store<E: Stream>(err: &mut E, number: u64, last: Option<RefusedCall>) -> Result<(), Failed>
    ensures { IsWritten (writes E.contents E.failures err.old err.new) (failure_line number last) result }
{
    write!(err, "program {number}: store: ")?;
    write_failure(err, last)
}

/// Writes the line of a program that wanted more objects than its share has.
fn write_objects<E: Stream>(err: &mut E, number: u64, share: usize, used: u64) -> Result<(), Failed>
    ensures { IsWritten (writes E.contents E.failures err.old err.new) (objects_line number share used) result }
{
    writeln!(
        err,
        "program {number}: no objects: {used} of {share} are in use"
    )
}

/// Writes the line of a program of which this took more than so many MiB.
pub fn write_passed<E: Stream>(
    err: &mut E,
    number: u64,
    taker: MemoryUse,
    limit: u32,
) -> Result<(), Failed>
    ensures { IsWritten (writes E.contents E.failures err.old err.new) (passed_line number taker limit) result }
{
    writeln!(err, "program {number}: {taker} took more than {limit} MiB")
}

/// Writes the line of a program for which the system refused memory.
fn write_memory<E: Stream>(err: &mut E, number: u64) -> Result<(), Failed>
    ensures { IsWritten (writes E.contents E.failures err.old err.new) (memory_line number) result }
{
    writeln!(
        err,
        "program {number}: out of memory: the system refused more"
    )
}

/// Writes the line of a program for which memory was refused, because this passed the limit, or by the system.
fn write_refused<E: Stream>(
    err: &mut E,
    number: u64,
    limit: u32,
    passed: Option<MemoryUse>,
) -> Result<(), Failed>
    ensures { IsWritten (writes E.contents E.failures err.old err.new) (refused_line number limit passed) result }
{
    match passed {
        Some(taker) => write_passed(err, number, taker, limit),
        None => write_memory(err, number),
    }
}

/// Writes the line of a program that ended so, if it wanted memory as it passed the limit.
fn write_limit<E: Stream>(
    err: &mut E,
    number: u64,
    limit: u32,
    run: &Run,
    passed: Option<MemoryUse>,
) -> Result<(), Failed>
    ensures { IsWritten (writes E.contents E.failures err.old err.new) (limit_line number limit run.now passed) result }
{
    let Run::Wanted(Want::OutOfMemory) = run else {
        return Ok(());
    };
    match passed {
        Some(taker) => write_passed(err, number, taker, limit),
        None => Ok(()),
    }
}

/// Writes the line of a program, if it wanted something.
#[tactic(auto, unfolding(crate::specs::Wants::want_line))]
fn write_want<E: Stream>(
    err: &mut E,
    number: u64,
    limit: u32,
    share: usize,
    one: &Finished,
) -> Result<(), Failed>
    ensures { IsWritten (writes E.contents E.failures err.old err.new) (want_line number limit share one.now) result }
{
    match one.end.run {
        Run::Running | Run::Stopped(_) => Ok(()),
        Run::Wanted(Want::OutOfMemory) => write_refused(err, number, limit, one.counts.passed),
        Run::Wanted(Want::NoObjects) => write_objects(err, number, share, one.counts.objects),
        Run::Wanted(Want::StoreFailed) => write_store(err, number, one.refusals.last),
    }
}

/// Writes the lines of several programs, whose numbers are those from this one on.
fn write_wants<E: Stream>(
    err: &mut E,
    number: u64,
    limit: u32,
    share: usize,
    programs: &[Finished],
) -> Result<(), Failed>
    requires { number + length programs.now < 2 ^ 64 }
    ensures { IsWritten (writes E.contents E.failures err.old err.new) (want_lines number limit share programs.now) result }
{
    match programs {
        [] => Ok(()),
        [one, rest @ ..] => {
            write_want(err, number, limit, share, one)?;
            write_wants(err, number + 1, limit, share, rest)
        }
    }
}

/// Writes the lines of those among several programs that passed the limit, whose numbers are those from this one on.
fn write_limits<E: Stream>(
    err: &mut E,
    number: u64,
    limit: u32,
    programs: &[Finished],
) -> Result<(), Failed>
    requires { number + length programs.now < 2 ^ 64 }
    ensures { IsWritten (writes E.contents E.failures err.old err.new) (limit_lines number limit programs.now) result }
{
    match programs {
        [] => Ok(()),
        [one, rest @ ..] => {
            write_limit(err, number, limit, &one.end.run, one.counts.passed)?;
            write_limits(err, number + 1, limit, rest)
        }
    }
}

/// Writes what programs wanted, where that is asked for, else which passed the limit.
fn write_lines<E: Stream>(
    err: &mut E,
    asked: RunOptions<'_>,
    share: usize,
    programs: &[Finished],
) -> Result<(), Failed>
    ensures { IsWritten (writes E.contents E.failures err.old err.new) (wants_text asked.entry.explains asked.entry.limit share programs.now) result }
{
    if asked.explains {
        write_wants(err, 0, asked.limit, share, programs)
    } else {
        write_limits(err, 0, asked.limit, programs)
    }
}

/// Writes these lines, and then the table.
fn write_both<E: Stream>(
    err: &mut E,
    asked: RunOptions<'_>,
    share: usize,
    programs: &[Finished],
    movers: &[MoverCounts],
    took: Option<u64>,
) -> Result<(), Failed>
    ensures { IsWritten (writes E.contents E.failures err.old err.new) (wants_text asked.entry.explains asked.entry.limit share programs.now ++ stats_text programs.now movers.now took) result }
{
    write_lines(err, asked, share, programs)?;
    write_stats(err, programs, movers, took)
}

/// Whether lines of programs are told.
fn has_lines(asked: RunOptions<'_>) -> bool
    ensures { result ≡ lines_of asked.entry.explains asked.entry.limit }
{
    asked.explains || asked.limit != 0
}

/// How many objects each of so many programs has.
pub fn share_of(objects: u32, count: usize) -> usize
    ensures { result ≡ equal_share objects count }
{
    if count == 0 {
        0
    } else {
        objects as usize / count
    }
}

/// Tells what is asked for beside the ends; the status is this one, unless a write failed.
pub fn say_more<E: Stream>(
    err: &mut E,
    asked: RunOptions<'_>,
    share: usize,
    programs: &[Finished],
    movers: &[MoverCounts],
    took: Option<u64>,
    status: u8,
) -> u8
    ensures { TellsMore asked.entry.explains asked.entry.stats asked.entry.limit share programs.now movers.now took (writes E.contents E.failures err.old err.new) status result }
{
    match (has_lines(asked), asked.stats) {
        (false, false) => status,
        (false, true) => after(write_stats(err, programs, movers, took), status),
        (true, false) => after(write_lines(err, asked, share, programs), status),
        (true, true) => after(
            write_both(err, asked, share, programs, movers, took),
            status,
        ),
    }
}
