//! What is printed of a run.
ghost use Rattle.cells.specs.Lines.{run_line};
ghost use Rattle.std.specs.Io.KnownBytes.{Appends};
ghost use Rattle.std.specs.Prelude.{◌≡◌, ◌++◌, IfOk, OnOk, codes, string_bytes};

use cells::{Run, Stop, Want};
use std::alloc::{AllocError, Global};
use std::io;
use std::io::Write;

const WANTS: [Want; 3] = [Want::OutOfMemory, Want::NoObjects, Want::StoreFailed];

/// What a caller knows of the text of a run.
fn text_of(alloc: Global, run: &Run) -> Result<String, AllocError>
    ensures { IfOk result (λ text. string_bytes text ≡ run_line run.now) }
{
    format!(in alloc; "{run}")
}

/// What a caller knows of a line that it writes.
fn say<O: Write>(out: &mut O, run: &Run) -> io::Result<()>
    ensures { OnOk result (Appends (O.contents out.old) (O.contents out.new) (run_line run.now ++ codes "\n")) }
{
    writeln!(out, "{run}")
}

/// The want of this number.
fn want(number: u8) -> Option<Want> {
    for want in WANTS {
        if want as u8 == number {
            return Some(want);
        }
    }
    None
}

/// The stop of these words.
fn stop(alloc: Global, words: &[&str]) -> Result<Option<Stop>, AllocError> {
    Ok(match words {
        ["ended", number] => number.parse().ok().map(Stop::Ended),
        ["error", text] => Some(Stop::ErrorCalled(String::from_str(alloc, text)?)),
        ["assertion"] => Some(Stop::AssertFailed),
        ["null"] => Some(Stop::NullFault),
        ["bounds"] => Some(Stop::BoundsFault),
        ["length"] => Some(Stop::LengthFault),
        ["arithmetic"] => Some(Stop::ArithFault),
        _ => None,
    })
}

/// The run of these words.
fn run(alloc: Global, words: &[&str]) -> Result<Option<Run>, AllocError> {
    match words {
        ["running"] => Ok(Some(Run::Running)),
        ["stopped", words @ ..] => Ok(stop(alloc, words)?.map(Run::Stopped)),
        ["wants", number] => match number.parse() {
            Ok(number) => Ok(want(number).map(Run::Wanted)),
            Err(_) => Ok(None),
        },
        _ => Ok(None),
    }
}

/// What is shown of the run of these words, where the same is written of it.
pub(crate) fn put_end(alloc: Global, words: &[&str], told: &mut String) -> io::Result<()> {
    let Some(run) = run(alloc, words)? else {
        return Ok(told.push_str("no run")?);
    };
    let mut written = Vec::new(alloc);
    say(&mut written, &run)?;
    let text = text_of(alloc, &run)?;
    told.push_str(text.as_str())?;
    if written.strip_suffix(b"\n") != Some(text.as_bytes()) {
        told.push_str(", and otherwise as a line")?;
    }
    Ok(())
}
