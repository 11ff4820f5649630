//! Runs texts plainly, and compiled, from an image that was written and read again: alone, over a store that fails, or side by side beside movers; and
//! does command lines over files in memory. It goes through the texts that the words name: each is run plainly, and what it means is told: the command,
//! what the program prints, and how it ends; where it ends, the text is compiled too, its image is written, read again and run, and a line tells whether
//! that printed the same and ended the same way. Before a name may stand `-d`, for contracts to be checked, `-l`, for the level of the language that has
//! `break` and `continue`, and a number of turns in place of 5,000. Behind `-p` it is checked, its tree is printed and read back, and its image runs with
//! its contracts checked; behind `-f` it runs once for each call of the store, which fails; behind `-h` it runs alone, and what it hinted is looked at
//! then; behind a number and `-o` it runs alone in a world, and opens no more holds than that; behind `-m` it runs twice at once, and both meet with two
//! movers; behind `-w` it runs twice on one worker, the first behind the second; behind `-c` it runs by turns of one instruction, and what asks for them
//! is counted; behind `-t` it is kept, and all that are kept run at once in the end, each of them twice. Behind `-x` it is a file of rows of command
//! lines, which are done over files in memory.
//!
//! Behind a word it is a file of rows, and what is asked of each is told: of a text `tokens`, `kinds`, `count`, `read`, `read-loops`, `print`, `print-again`,
//! `tree`, `shapes`, `check`, `check-loops` or `typed`; of a line of names, and a line of those that are looked for among them, `numbers`; and of the name of
//! a type that stands for `int`, and a name, `pointer`. Each row of which something else is told than what stands beside it is shown, and then how many rows
//! there were. The status is 1 where a text is refused, or something is not as it has to be.
#![tactic(auto)]

mod again;
mod asked;
mod commands;
mod failures;
mod hinted;
mod means;
mod opens;
mod prints;
mod questions;
mod rows;
mod runs;
mod together;
mod turns;

use crate::asked::{Asked, Way};
use crate::commands::do_rows;
use crate::failures::fail_each_call;
use crate::hinted::leave_hints;
use crate::means::mean;
use crate::opens::open_few;
use crate::prints::print_back;
use crate::questions::ask;
use crate::together::{Together, meet};
use crate::turns::{one_at_a_time, one_behind_another};
use std::alloc::Global;
use std::io::Write;
use std::process::ExitCode;
use std::sync::Wait;
use std::thread::Threads;
use std::time::Clock;
use std::{env, fs, io};

/// Runs this text as it is asked, and tells of it. False where something is not as it has to be.
fn tell<R: Threads + Wait + Clock + Sync, O: Write>(
    alloc: Global,
    rt: &R,
    asked: Asked,
    name: &str,
    text: &[u8],
    together: &mut Together,
    out: &mut O,
) -> io::Result<bool> {
    match asked.way {
        Way::Means => mean(alloc, rt, asked, name, text, out),
        Way::Prints => print_back(alloc, rt, asked.level, name, text, out),
        Way::Fails => fail_each_call(alloc, rt, name, text, out),
        Way::Hints => leave_hints(alloc, rt, name, text, out),
        Way::Opens => open_few(alloc, asked, name, text, out),
        Way::Meets => meet(alloc, rt, name, text, out),
        Way::Waits => one_behind_another(alloc, rt, name, text, out),
        Way::Counts => one_at_a_time(alloc, rt, name, text, out),
        Way::Joins => Ok(together.add(name, text)?),
        Way::Does => do_rows(alloc, rt, text, out),
        Way::Asks(question) => ask(alloc, question, name, text, out),
    }
}

fn main(rt: HostRuntime) -> io::Result<ExitCode> {
    let words: Vec<String> = env::args(&rt)?.collect(rt.alloc())?;
    let mut out = io::writer(&rt);
    let mut asked = Asked::plainly();
    let mut together = Together::new(rt.alloc());
    let mut status = 0;
    for word in words.iter().skip(1) {
        if let Some(more) = asked.with(word.as_str()) {
            asked = more;
            continue;
        }
        let text = fs::read(&rt, word.as_str())?;
        let kept = &mut together;
        if !tell(rt.alloc(), &rt, asked, word.as_str(), &text, kept, &mut out)? {
            status = 1;
        }
        asked = Asked::plainly();
    }
    if !together.run(&rt, &mut out)? {
        status = 1;
    }
    Ok(ExitCode::from(status))
}
