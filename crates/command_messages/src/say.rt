//! What commands say on their two streams, with the exit status.
ghost use Rattle.std.specs.Prelude.{◌≡◌, ◌++◌, ◌+◌, ◌<◌, ◌^◌, ℕ, [], MatchResult, codes, cond, length, map};
ghost use Rattle.c0_front.specs.Texts.{IsRefusedText, IsTypedAs};
ghost use Rattle.c0_source.specs.declared.fault.FaultKind.TheVariants.{OutOfMemory};
ghost use Rattle.c0_syntax.specs.Levels.{has_loops};
ghost use Rattle.c0_typed.specs.Trees as y;
ghost use Rattle.command_messages.specs.Refusals.{HasFailed, SaysFault};
ghost use Rattle.command_messages.specs.Shown.{StandsAt, ends_status, is_open, newline, shown_end, shown_ends, shown_fault, shown_from, shown_program, shown_rest};
ghost use Rattle.command_messages.specs.Statuses.{run_status};
ghost use Rattle.command_files.specs.FileTexts.{HasText, Known};
ghost use Rattle.executor.specs.Ends.{end_of};
ghost use Rattle.streams.specs.Streams.{IsQuiet, IsWritten, Says, Writes, writes};

use c0_source::fault::Fault;
use c0_source::position::{Position, line_column};
use c0_syntax::level::Level;
use cells::{Ended, Run, Stop};
use executor::Finished;
use region::AdmitFault;
use streams::{Failed, Stream};

/// Some program has stopped otherwise than by a result.
pub const STOPPED: u8 = 1;
/// A refused text, file or usage, or a failed write.
pub const REFUSED: u8 = 2;
/// Some want of memory, objects or store.
pub const WANTED: u8 = 3;

/// The status where a write succeeded, else that of a failed write.
pub fn after(written: Result<(), Failed>, status: u8) -> u8
    ensures { MatchResult written (λ _. result ≡ status) (λ _. result ≡ 2) }
{
    match written {
        Ok(()) => status,
        Err(Failed) => REFUSED,
    }
}

/// Says that a growth was refused.
pub fn say_memory<E: Stream>(err: &mut E) -> u8
    ensures { Says (writes E.contents E.failures err.old err.new) (codes "out of memory" ++ newline) 3 result }
{
    after(writeln!(err, "out of memory"), WANTED)
}

/// Says why a text is refused, and where.
fn say_at<E: Stream>(err: &mut E, file: &str, position: Position, fault: Fault) -> u8
    ensures { Says (writes E.contents E.failures err.old err.new) (shown_fault file.now position.line position.column fault) 2 result }
{
    let line = position.line;
    let column = position.column;
    after(writeln!(err, "{file}:{line}:{column}: {fault}"), REFUSED)
}

/// Says why a text is refused, at the line and column of the fault.
pub fn say_fault<E: Stream>(err: &mut E, file: &str, text: &[u8], fault: Fault) -> u8
    ensures { (line : ℕ) × (column : ℕ) × StandsAt text.now fault.span.start line column
        × Says (writes E.contents E.failures err.old err.new) (shown_fault file.now line column fault) 2 result }
{
    let position = line_column(text, fault.span.start);
    say_at(err, file, position, fault)
}

/// Says why a text that is the text of no well-typed program of this level is refused, at the line and column of the fault.
pub fn say_refused<E: Stream>(
    err: &mut E,
    file: &str,
    text: &[u8],
    level: Level,
    fault: Fault,
) -> u8
    requires cause { IsRefusedText (has_loops level) text.now fault }
    requires other { fault.kind ≡ OutOfMemory → ⊥ }
    requires none { (p : y.Program) → IsTypedAs (has_loops level) text.now p → ⊥ }
    ensures { (held : Known) (out : Writes) → HasText held text.now → IsQuiet out → HasFailed (has_loops level) file.now held out (writes E.contents E.failures err.old err.new) result }
{
    // For the proof alone: the clauses speak of the level.
    let _ = level;
    say_fault(err, file, text, fault)
}

/// Says that a file was not read.
pub fn say_unread<E: Stream>(err: &mut E, file: &str) -> u8
    ensures { Says (writes E.contents E.failures err.old err.new) (file.now ++ (codes ": cannot be read" ++ newline)) 2 result }
{
    after(writeln!(err, "{file}: cannot be read"), REFUSED)
}

/// Whether these bytes end in a line that is not finished.
fn ends_open(bytes: &[u8]) -> bool
    ensures { result ≡ is_open bytes.now }
{
    match bytes.last() {
        Some(byte) => *byte != b'\n',
        None => false,
    }
}

/// Finishes the last line of what was written.
fn finish_line<O: Stream>(out: &mut O, output: &[u8]) -> Result<(), Failed>
    ensures { IsWritten (writes O.contents O.failures out.old out.new) (cond (is_open output.now) newline []) result }
{
    if !ends_open(output) {
        return Ok(());
    }
    writeln!(out)
}

/// Writes what a program printed, with its last line finished.
pub fn write_output<O: Stream>(out: &mut O, output: &[u8]) -> Result<(), Failed>
    ensures { IsWritten (writes O.contents O.failures out.old out.new) (output.now ++ cond (is_open output.now) newline []) result }
{
    out.write_all(output)?;
    finish_line(out, output)
}

/// Says why programs are not admitted.
pub fn say_admission<E: Stream>(err: &mut E, fault: AdmitFault) -> u8
    ensures { SaysFault fault (writes E.contents E.failures err.old err.new) result }
{
    match fault {
        AdmitFault::OutOfMemory => say_memory(err),
        AdmitFault::TooSmall { .. } | AdmitFault::TooMany | AdmitFault::PieceDiffers { .. } => {
            after(writeln!(err, "{fault}"), REFUSED)
        }
    }
}

/// The status of a run that has ended so.
pub fn status_of(run: &Run) -> u8
    ensures { result ≡ run_status run.now }
{
    match run {
        Run::Wanted(_) => WANTED,
        Run::Stopped(Stop::Ended(_)) | Run::Running => 0,
        Run::Stopped(_) => STOPPED,
    }
}

/// The status of programs that have ended so: the greatest of theirs.
fn status_of_all(ends: &[Ended]) -> u8
    ensures { result ≡ ends_status ends.now }
{
    match ends {
        [] => 0,
        [ended, rest @ ..] => status_of(&ended.run).max(status_of_all(rest)),
    }
}

/// The same of programs whose ends are told with what was counted.
fn status_of_finished(programs: &[Finished]) -> u8
    ensures { result ≡ ends_status (map end_of programs.now) }
{
    match programs {
        [] => 0,
        [one, rest @ ..] => status_of(&one.end.run).max(status_of_finished(rest)),
    }
}

/// Writes what a program printed and how it ended: a newline stands between them where the output doesn't end in one.
fn write_end<O: Stream>(out: &mut O, ended: &Ended) -> Result<(), Failed>
    ensures { IsWritten (writes O.contents O.failures out.old out.new) (shown_end ended.now) result }
{
    write_output(out, &ended.output)?;
    let run = &ended.run;
    writeln!(out, "{run}")
}

/// Writes how a program ended whose output was written: a newline stands in front where the output doesn't end in one.
fn write_rest<O: Stream>(out: &mut O, ended: &Ended) -> Result<(), Failed>
    ensures { IsWritten (writes O.contents O.failures out.old out.new) (shown_rest ended.now) result }
{
    finish_line(out, &ended.output)?;
    let run = &ended.run;
    writeln!(out, "{run}")
}

/// Writes what a program of several printed and how it ended, behind its number.
fn write_program<O: Stream>(out: &mut O, number: u64, ended: &Ended) -> Result<(), Failed>
    ensures { IsWritten (writes O.contents O.failures out.old out.new) (shown_program number ended.now) result }
{
    writeln!(out, "program {number}:")?;
    write_end(out, ended)
}

/// Writes the same of several programs, whose numbers are those from this one on.
fn write_from<O: Stream>(out: &mut O, number: u64, ends: &[Ended]) -> Result<(), Failed>
    requires { number + length ends.now < 2 ^ 64 }
    ensures { IsWritten (writes O.contents O.failures out.old out.new) (shown_from number ends.now) result }
{
    match ends {
        [] => Ok(()),
        [ended, rest @ ..] => {
            write_program(out, number, ended)?;
            write_from(out, number + 1, rest)
        }
    }
}

/// Writes the ends of programs: that of one alone without a number.
fn write_ends<O: Stream>(out: &mut O, ends: &[Ended]) -> Result<(), Failed>
    ensures { IsWritten (writes O.contents O.failures out.old out.new) (shown_ends ends.now) result }
{
    match ends {
        [ended] => write_end(out, ended),
        _ => write_from(out, 0, ends),
    }
}

/// Writes the ends of several programs that are told with what was counted, whose numbers are those from this one on.
fn write_finished_from<O: Stream>(
    out: &mut O,
    number: u64,
    programs: &[Finished],
) -> Result<(), Failed>
    requires { number + length programs.now < 2 ^ 64 }
    ensures { IsWritten (writes O.contents O.failures out.old out.new) (shown_from number (map end_of programs.now)) result }
{
    match programs {
        [] => Ok(()),
        [one, rest @ ..] => {
            write_program(out, number, &one.end)?;
            write_finished_from(out, number + 1, rest)
        }
    }
}

/// Writes the ends of programs that are told with what was counted: that of one alone without a number.
fn write_finished<O: Stream>(out: &mut O, programs: &[Finished]) -> Result<(), Failed>
    ensures { IsWritten (writes O.contents O.failures out.old out.new) (shown_ends (map end_of programs.now)) result }
{
    match programs {
        [one] => write_end(out, &one.end),
        _ => write_finished_from(out, 0, programs),
    }
}

/// Says what a program printed and how it ended.
pub fn say_end<O: Stream>(out: &mut O, ended: &Ended) -> u8
    ensures { Says (writes O.contents O.failures out.old out.new) (shown_end ended.now) (run_status ended.now.run) result }
{
    let status = status_of(&ended.run);
    after(write_end(out, ended), status)
}

/// Says what each program printed and how it ended.
pub fn say_ends<O: Stream>(out: &mut O, ends: &[Ended]) -> u8
    ensures { Says (writes O.contents O.failures out.old out.new) (shown_ends ends.now) (ends_status ends.now) result }
{
    let status = status_of_all(ends);
    after(write_ends(out, ends), status)
}

/// Says what each program printed and how it ended, of those whose ends are told with what was counted.
pub fn say_finished<O: Stream>(out: &mut O, programs: &[Finished]) -> u8
    ensures { Says (writes O.contents O.failures out.old out.new) (shown_ends (map end_of programs.now)) (ends_status (map end_of programs.now)) result }
{
    let status = status_of_finished(programs);
    after(write_finished(out, programs), status)
}

/// Says how a program ended whose output was written.
pub fn say_rest<O: Stream>(out: &mut O, ended: &Ended) -> u8
    ensures { Says (writes O.contents O.failures out.old out.new) (shown_rest ended.now) (run_status ended.now.run) result }
{
    let status = status_of(&ended.run);
    after(write_rest(out, ended), status)
}
