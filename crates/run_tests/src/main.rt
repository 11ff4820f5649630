//! Goes through files of rows about images and their runs: what is told of each must be what stands beside it. Each row of which something else is told is shown, and
//! then how many rows there were; the status is 1 where one was shown.
//!
//! Before the name of a file stands what its rows and those of the files behind it are:
//! - `list`: an image's bytes, and its listing, or `fault` and its number; the bytes of what is read must be the same again, or, of version 1, those of version 2 for pieces
//!   of 64 cells;
//! - `verify`: `scopes` and the number of scopes of an image that is verified, `verify fault` and its number of another, `fault` and its number where there
//!   is none;
//! - `images`: an image's bytes, under its name, and its listing; the rows behind it name it;
//! - `touches`: a line for each instruction of a run tells what it touches, whether it is blocked, and whether the run has stopped, with plain ones in a row on one
//!   line; then how the run stopped, and what it printed. `loads` has what its loads are given, in order;
//! - `session`: an image runs over far memory, `runs` has how many instructions each call of `run` may complete; each call's answer is told, with how
//!   many instructions were completed, and then what was printed; of one that is not verified its fault;
//! - `schedule`: images run in one world, by lines that stand behind how often each comes; what `replay` answers is told;
//! - `steps`: the same step by step: behind each line the word of object 0 and its first cell are told, and how many of its steps were taken, unless
//!   all were. In place of a number may stand `A..B`: the row holds for each number of these, whose first is `A` and whose last is `B`.
//! - `random`: images run in one world, by steps that a generator chooses by each of `seeds`, until each program has ended; what `World::ended` tells of each
//!   program is told behind each seed;
//! - `admission`: how many frames the verified images may need at once is told, and whether they are admitted, or why not.
//! - `rounds`: two programs are admitted, and each brings its first object in, and closes its hold of it unless `held` stands there; `budgets` has the budget of
//!   each round of an evacuator: what it came to is told, with how many frames are free then;
//! - `forge`: images are forged of the bytes of an image, and it is counted what becomes of them: by which number they are refused, or how they end in a world of their
//!   own within 1,000 instructions. `forged AT VALUE A B ..` puts a byte at a place, and then five parts of the bytes one behind another, each from `A` to before `B`;
//!   a row without such a line has each byte changed to each other value;
//! - `walk`: steps of a world. First come lines, each behind how often it comes; in place of that number may stand `A..B`, and the row holds for each of these numbers.
//!   Behind them comes each list of `lists` letters in turn. `letter N LINE` is a line of letter `N`, which is the first of its lines that is enabled; the letters stand in
//!   order. Then the lines of `rest LINE` are tried in turn, until none of them is enabled. What is no line is never enabled. `stored P K O I V`: program `P` has stored `V` in cell `I` of object `O` when it has completed `K`
//!   instructions. `result V`: whoever stops has this result. In each state all that can be seen of the machine is looked at: see `clauses`.
//!
//! A row names its `image`, or each of its images, and its numbers: `frames`, `objects`, `evacuators`, `fetchers`. `fails at N` has the call of this number of the
//! store fail alone, `fails from N` each one from there on.
#![tactic(auto)]

mod admissions;
mod clauses;
mod forging;
mod listings;
mod opening;
mod random;
mod rounds;
mod schedules;
mod sessions;
mod setting;
mod shelf;
mod steps;
mod touches;
mod versions;
mod walks;
mod words;

use crate::setting::Setting;
use crate::shelf::Shelf;
use std::alloc::{AllocError, Global};
use std::io::Write;
use std::process::ExitCode;
use std::sync::Wait;
use std::{env, fs, io};
use test_rows::{Row, compare, rows};

/// What is asked of a run.
#[derive(Clone, Copy)]
enum Asked {
    Touches,
    Session,
    Schedule,
    Steps,
    Random,
    Admission,
    Rounds,
    Forge,
    Walk,
}

/// What the rows of a file are.
#[derive(Clone, Copy)]
enum Kind {
    Bytes(listings::Asked),
    Images,
    Runs(Asked),
}

impl Kind {
    /// What this word says that rows are, if it is no name of a file.
    fn of(word: &str) -> Option<Kind> {
        match word {
            "list" => Some(Kind::Bytes(listings::Asked::Listing)),
            "verify" => Some(Kind::Bytes(listings::Asked::Verdict)),
            "images" => Some(Kind::Images),
            "touches" => Some(Kind::Runs(Asked::Touches)),
            "session" => Some(Kind::Runs(Asked::Session)),
            "schedule" => Some(Kind::Runs(Asked::Schedule)),
            "steps" => Some(Kind::Runs(Asked::Steps)),
            "random" => Some(Kind::Runs(Asked::Random)),
            "admission" => Some(Kind::Runs(Asked::Admission)),
            "rounds" => Some(Kind::Runs(Asked::Rounds)),
            "forge" => Some(Kind::Runs(Asked::Forge)),
            "walk" => Some(Kind::Runs(Asked::Walk)),
            _ => None,
        }
    }
}

/// What is told of a run of this setting.
fn tell_setting<R: Wait>(
    rt: &R,
    alloc: Global,
    asked: Asked,
    setting: &Setting<'_>,
    shelf: &Shelf,
) -> Result<String, AllocError> {
    match asked {
        Asked::Touches => touches::tell(alloc, shelf, setting),
        Asked::Session => sessions::tell(rt, alloc, shelf, setting),
        Asked::Schedule => schedules::tell(alloc, shelf, setting),
        Asked::Steps => steps::tell(alloc, shelf, setting),
        Asked::Random => random::tell(alloc, shelf, setting),
        Asked::Admission => admissions::tell(alloc, shelf, setting),
        Asked::Rounds => rounds::tell(rt, alloc, shelf, setting),
        Asked::Forge => forging::tell(alloc, shelf, setting),
        Asked::Walk => walks::tell(alloc, shelf, setting),
    }
}

/// What is told of a run.
fn tell_run<R: Wait>(
    rt: &R,
    alloc: Global,
    asked: Asked,
    given: &[u8],
    shelf: &Shelf,
) -> Result<String, AllocError> {
    match Setting::of(alloc, given)? {
        Some(setting) => tell_setting(rt, alloc, asked, &setting, shelf),
        None => String::from_str(alloc, "a line that says nothing"),
    }
}

/// What is told of a row.
fn tell<R: Wait>(
    rt: &R,
    alloc: Global,
    kind: Kind,
    row: &Row,
    shelf: &mut Shelf,
) -> Result<String, AllocError> {
    match kind {
        Kind::Bytes(asked) => listings::tell(alloc, asked, &row.given),
        Kind::Images => shelf.put(alloc, &row.title, &row.given),
        Kind::Runs(asked) => tell_run(rt, alloc, asked, &row.given, shelf),
    }
}

/// Shows the row if something else is told of it than what is wanted. Whether it is not shown.
fn go_on<R: Wait, O: Write>(
    rt: &R,
    alloc: Global,
    kind: Kind,
    row: &Row,
    shelf: &mut Shelf,
    out: &mut O,
) -> io::Result<bool> {
    let told = tell(rt, alloc, kind, row, shelf)?;
    let told = told.as_bytes();
    compare(row, told.strip_suffix(b"\n").unwrap_or(told), out)
}

/// Shows the rows of which something else is told than what is wanted, and how many rows there are. Whether none is shown.
fn go_through<R: Wait, O: Write>(
    rt: &R,
    alloc: Global,
    kind: Kind,
    name: &str,
    rows: &[Row],
    shelf: &mut Shelf,
    out: &mut O,
) -> io::Result<bool> {
    let mut all = true;
    for row in rows {
        all = go_on(rt, alloc, kind, row, shelf, out)? && all;
    }
    let count = rows.len();
    writeln!(out, "{name}: {count} rows")?;
    Ok(all)
}

/// The rows of the file of this name.
fn rows_of(rt: &HostRuntime, name: &str) -> io::Result<Vec<Row>> {
    let text = fs::read(rt, name)?;
    Ok(rows(rt.alloc(), &text)?)
}

/// Goes through the rows of the file of this name. Whether none is shown.
fn go_through_file<R: Wait, O: Write>(
    rt: &R,
    host: &HostRuntime,
    kind: Kind,
    name: &str,
    shelf: &mut Shelf,
    out: &mut O,
) -> io::Result<bool> {
    let rows = rows_of(host, name)?;
    go_through(rt, host.alloc(), kind, name, &rows, shelf, out)
}

/// Goes through the rows of all files that the words name. The status.
fn go_through_all<R: Wait, O: Write>(
    rt: &R,
    host: &HostRuntime,
    words: &[String],
    shelf: &mut Shelf,
    out: &mut O,
) -> io::Result<u8> {
    let mut kind = Kind::Images;
    let mut status = 0;
    for word in words.iter().skip(1) {
        let word = word.as_str();
        match Kind::of(word) {
            Some(other) => kind = other,
            None => {
                if !go_through_file(rt, host, kind, word, shelf, out)? {
                    status = 1;
                }
            }
        }
    }
    Ok(status)
}

fn main(rt: HostRuntime) -> io::Result<ExitCode> {
    let words: Vec<String> = env::args(&rt)?.collect(rt.alloc())?;
    let mut out = io::writer(&rt);
    let mut shelf = Shelf::new(rt.alloc());
    let status = go_through_all(&rt, &rt, &words, &mut shelf, &mut out)?;
    Ok(ExitCode::from(status))
}
