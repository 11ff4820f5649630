//! The commands, over files and two streams.
ghost use Rattle.std.specs.Prelude.{◌≡◌, ◌++◌, ℕ, List, codes, map};
ghost use Rattle.c0_syntax.specs.Levels.{has_loops};
ghost use Rattle.command_line.specs.Help.{help_text, version_text};
ghost use Rattle.c0far.specs.Driven.{Answers, Checks, ChecksImage, ChecksText, IsDriven};
ghost use Rattle.command_files.specs.FileTexts.{HasText, Known};
ghost use Rattle.command_messages.specs.Shown.{newline};
ghost use Rattle.streams.specs.Streams.{Says, writes};

use crate::code::{code_of, is_image_name, unchecked};
use crate::images::{build, list};
use crate::lives::run_live;
use crate::plain::mean;
use crate::replays::replay;
use crate::runs::run;
use c0_front::check_text;
use c0_source::fault::FaultKind;
use c0_syntax::level::Level;
use cells::Piece;
use command_files::{FileError, Files};
use command_line::help::{VERSION, asks_version, complaint, page};
use command_line::line::line;
use command_line::words::{Line, Usage};
use command_messages::{REFUSED, after, say_memory, say_refused, say_unread};
use std::alloc::Global;
use std::sync::Wait;
use std::thread::Threads;
use std::time::Clock;
use streams::Stream;

/// Says that a text keeps the static rules.
fn say_ok<O: Stream>(out: &mut O) -> u8
    ensures { Says (writes O.contents O.failures out.old out.new) (codes "ok" ++ newline) 0 result }
{
    after(writeln!(out, "ok"), 0)
}

/// Says what is wrong with words that are no command line, and shows a page of help.
pub fn say_help<E: Stream>(err: &mut E, words: &[&str]) -> u8
    ensures { Says (writes E.contents E.failures err.old err.new) (help_text (map (λ w. w.now) words.now)) 2 result }
{
    let complaint = complaint(words);
    let page = page(words);
    after(writeln!(err, "{complaint}{page}"), REFUSED)
}

/// Says the number of this version.
fn say_version<O: Stream>(out: &mut O) -> u8
    ensures { Says (writes O.contents O.failures out.old out.new) version_text 0 result }
{
    let version = VERSION;
    after(writeln!(out, "{version}"), 0)
}

/// Answers words that are no command: by the number of this version where they ask for it.
fn answer<O: Stream, E: Stream>(out: &mut O, err: &mut E, words: &[&str]) -> u8
    ensures { Answers (map (λ w. w.now) words.now) (writes O.contents O.failures out.old out.new) (writes E.contents E.failures err.old err.new) result }
{
    if asks_version(words) {
        say_version(out)
    } else {
        say_help(err, words)
    }
}

/// Tells whether a text, which stands in this file, keeps the static rules of this level.
fn check_named<O: Stream, E: Stream>(
    alloc: Global,
    level: Level,
    file: &str,
    text: &[u8],
    out: &mut O,
    err: &mut E,
) -> u8
    ensures { (held : Known) → HasText held text.now → ChecksText (has_loops level) file.now held (writes O.contents O.failures out.old out.new) (writes E.contents E.failures err.old err.new) result }
{
    match check_text(alloc, text, level) {
        Ok(_typed) => say_ok(out),
        Err(fault) if fault.kind == FaultKind::OutOfMemory => say_memory(err),
        Err(fault) => say_refused(err, file, text, level, fault),
    }
}

/// Tells whether a file's text keeps the static rules of this level.
fn check_text_of<F: Files, O: Stream, E: Stream>(
    alloc: Global,
    level: Level,
    file: &str,
    files: &mut F,
    out: &mut O,
    err: &mut E,
) -> u8
    ensures files { (name : List ℕ) → F.holds files.new name ≡ F.holds files.old name }
    ensures done { ChecksText (has_loops level) file.now (F.holds files.old file.now) (writes O.contents O.failures out.old out.new) (writes E.contents E.failures err.old err.new) result }
{
    match files.read_text(alloc, file) {
        Ok(text) => check_named(alloc, level, file, &text, out, err),
        Err(FileError::Cannot) => say_unread(err, file),
        Err(FileError::OutOfMemory) => say_memory(err),
    }
}

/// Tells whether a file's image may be run.
fn check_image<F: Files, O: Stream, E: Stream>(
    alloc: Global,
    level: Level,
    file: &str,
    files: &mut F,
    out: &mut O,
    err: &mut E,
) -> u8
    ensures files { (name : List ℕ) → F.holds files.new name ≡ F.holds files.old name }
    ensures done { ChecksImage (has_loops level) file.now (F.holds files.old file.now) (writes O.contents O.failures out.old out.new) (writes E.contents E.failures err.old err.new) result }
{
    match code_of(alloc, unchecked(level, Piece::Cells64), file, files, err) {
        Ok(_verified) => say_ok(out),
        Err(status) => status,
    }
}

/// Tells whether a file's text keeps the static rules of this level, or its image may be run.
fn check<F: Files, O: Stream, E: Stream>(
    alloc: Global,
    level: Level,
    file: &str,
    files: &mut F,
    out: &mut O,
    err: &mut E,
) -> u8
    ensures files { (name : List ℕ) → F.holds files.new name ≡ F.holds files.old name }
    ensures done { Checks (has_loops level) file.now (F.holds files.old file.now) (writes O.contents O.failures out.old out.new) (writes E.contents E.failures err.old err.new) result }
{
    if is_image_name(file) {
        check_image(alloc, level, file, files, out, err)
    } else {
        check_text_of(alloc, level, file, files, out, err)
    }
}

/// Does the command that the words name, of which the first is the program's name, and gives the exit status: 3 where there
/// was a want of memory, objects or store; else 2 where a text, a file or the words are refused, or a write failed;
/// else 1 where the program stopped otherwise than by a result; else 0.
pub fn drive<W: Wait + Threads + Clock + Sync, F: Files, O: Stream, E: Stream>(
    alloc: Global,
    rt: &W,
    words: &[&str],
    files: &mut F,
    out: &mut O,
    err: &mut E,
) -> u8
    ensures { IsDriven F.Place.honest (F.holds files.old) (F.holds files.new) (map (λ w. w.now) words.now) (writes O.contents O.failures out.old out.new) (writes E.contents E.failures err.old err.new) result }
{
    match line(alloc, words) {
        Ok(
            Line::Build {
                compiling,
                out: target,
                file,
            },
        ) => build(alloc, compiling, target, file, files, out, err),
        Ok(Line::Check { level, file }) => check(alloc, level, file, files, out, err),
        Ok(Line::List { level, piece, file }) => list(alloc, level, piece, file, files, out, err),
        Ok(Line::Mean { asked, file }) => mean(alloc, asked, file, files, out, err),
        Ok(
            Line::Replay {
                asked,
                files: names,
            },
        ) => { replay(alloc, asked, &names, files, out, err) }
        Ok(
            Line::Run {
                asked,
                files: names,
            },
        ) => run(alloc, rt, asked, &names, files, out, err),
        Ok(Line::Live { asked, file }) => run_live(alloc, rt, asked, file, files, out, err),
        Err(Usage::Refused) => answer(out, err, words),
        Err(Usage::OutOfMemory) => say_memory(err),
    }
}
