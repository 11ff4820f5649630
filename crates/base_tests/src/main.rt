//! Goes through files of rows about crates that others stand on: what is told of each row must be what stands beside it. Each row of which something else
//! is told is shown, and then how many rows there were; the status is 1 where one was shown.
//!
//! The name of a file says what its rows are. Of some each line is answered by a line:
//! - `operators.rows`: an operator and two numbers; its value, or `fault` where it has none;
//! - `ends.rows`: where a run is, and what it stopped with or wants; what is printed of it;
//! - `faults.rows`: the number of a fault and where its byte is, or a refusal of memory; what is printed of it, and where it is;
//! - `words.rows`: the parts of a pointer word, or its bits, and what is done with them; its bits then, and what they say.
//!
//! Of others a row is one text:
//! - `same.rows`: a name of things of typed trees; each of them, and which of them are the same;
//! - `source.rows`: what stands in the source of it;
//! - `schedule.rows`: who acts in the line that begins it, what it chooses, and how many bytes stand behind the line, or `no line`;
//! - `unassigned.rows`: the number of a local that is not assigned; what a program means that returns it;
//! - `code.rows`: how many scopes a function has, and then its code, from its smallest parts on; the blocks that it becomes.
#![tactic(auto)]

mod code;
mod ends;
mod faults;
mod meaning;
mod operators;
mod pointers;
mod same;
mod tell;

use crate::tell::{Asked, tell};
use std::alloc::Global;
use std::io::Write;
use std::process::ExitCode;
use std::{env, fs, io};
use test_rows::{compare, rows};

/// Goes through the rows of a text: how many there are, and whether what is wanted is told of each.
fn go_through<O: Write>(
    alloc: Global,
    asked: Asked,
    text: &[u8],
    out: &mut O,
) -> io::Result<(usize, bool)> {
    let rows = rows(alloc, text)?;
    let mut all = true;
    for row in &rows {
        let told = tell(alloc, asked, &row.given)?;
        all = compare(row, told.as_bytes(), out)? && all;
    }
    Ok((rows.len(), all))
}

fn main(rt: HostRuntime) -> io::Result<ExitCode> {
    let names: Vec<String> = env::args(&rt)?.collect(rt.alloc())?;
    let mut out = io::writer(&rt);
    let mut status = 0;
    for name in names.iter().skip(1) {
        let Some(asked) = Asked::of(name.as_str()) else {
            writeln!(out, "{name}: no such rows")?;
            return Ok(ExitCode::from(1));
        };
        let text = fs::read(&rt, name.as_str())?;
        let (count, all) = go_through(rt.alloc(), asked, &text, &mut out)?;
        writeln!(out, "{name}: {count} rows")?;
        if !all {
            status = 1;
        }
    }
    Ok(ExitCode::from(status))
}
