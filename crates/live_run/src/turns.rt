//! Turns of a program, behind each of which what it printed is written.
ghost use Rattle.cells.specs.Outcomes.{IsPrefix};
ghost use Rattle.live_run.specs.Lives.{IsOverUnless, IsSame, Shows};
ghost use Rattle.std.specs.Prelude.{◌≡◌, [], IfOk, MatchResult, drop, length, true};
ghost use Rattle.streams.specs.Streams.{IsWritten, OneFailed, writes};

use program_run::{OpenGate, ProgramRun, Turn};
use remote_store::RawStore;
use std::sync::Wait;
use streams::{Failed, Stream};

/// Writes these bytes, but for the first, so many; where there are no others, nothing.
fn write_behind<O: Stream>(out: &mut O, bytes: &[u8], count: usize) -> Result<(), Failed>
    ensures { IsWritten (writes O.contents O.failures out.old out.new) (drop count bytes.now) result }
{
    if count >= bytes.len() {
        return Ok(());
    }
    out.write_all(&bytes[count..])
}

/// Gives the program a turn, and writes what it printed there. Whether its run goes on.
fn round<S: RawStore, O: Stream, R: Wait>(
    rt: &R,
    program: &mut ProgramRun<'_, S>,
    quantum: u64,
    out: &mut O,
) -> Result<bool, Failed>
    ensures same { IsSame program.old program.new }
    ensures over { IfOk result (λ goes. IsOverUnless goes program.new) }
    ensures shown { IsWritten (writes O.contents O.failures out.old out.new) (drop (length program.old.printed) program.new.printed) result }
    ensures grows { S.honest → IsPrefix program.old.printed program.new.printed }
{
    let before = program.output().len();
    let turn = program.turn(rt, &OpenGate, quantum);
    write_behind(out, program.output(), before)?;
    match turn {
        Turn::Ended => Ok(false),
        Turn::Held | Turn::Ran => Ok(true),
    }
}

/// Gives the program turns until its run is over, and writes behind each what it printed there.
pub(crate) fn go_on<S: RawStore, O: Stream, R: Wait>(
    rt: &R,
    program: &mut ProgramRun<'_, S>,
    quantum: u64,
    out: &mut O,
) -> Result<(), Failed>
    requires begins { program.old.printed ≡ [] }
    ensures same { IsSame program.old program.new }
    ensures shown { MatchResult result (λ _. (program.new.over ≡ true) × Shows S.honest program.new.printed (writes O.contents O.failures out.old out.new)) (λ _. OneFailed (writes O.contents O.failures out.old out.new)) }
{
    for _ in rt.forever() {
        let goes = round(rt, program, quantum, out)?;
        if !goes {
            return Ok(());
        }
    }
    unreachable!()
}
