//! Runs images again and again over a store of which another call fails or lies each time, and tells whether just the programs ended that met it. It goes
//! through the files of rows that the words name. Each row runs an image again and again over a store of which one call fails or lies, another one in
//! each run, until none is met; it is printed with what came of it.
//!
//! A row is `IMAGE STORE PROGRAMS MOVERS PLAN STEP LEAST`:
//! - `IMAGE` is the file of an image, whose code runs `PROGRAMS` times side by side, with six frames and 1,100 objects each;
//! - `STORE` is `memory`, or `folder` for files in a folder in memory;
//! - there are `MOVERS` evacuators, and as many fetchers;
//! - `PLAN` is `at`, where one call fails, `from`, where each later one fails too, or the lie that one read tells: `older`, `other` or `short`;
//! - the calls are those of the numbers 1, 1 + `STEP` and so on;
//! - in at least `LEAST` of the runs some program wants the store.
//!
//! First the image runs over a store that never fails, and its end is told. In each other run a program wants the store just where one call was refused through its
//! own port, and each other program ends as that one did. Where there are no movers, the call that fails is one of a program, so some program wants the store.
#![tactic(auto)]

mod counted;
mod rows;
mod runs;
mod sweeps;

use crate::rows::Sweep;
use crate::sweeps::{Outcome, sweep};
use std::io::Write;
use std::process::ExitCode;
use std::{env, fs, io};

fn main(rt: HostRuntime) -> io::Result<ExitCode> {
    let words: Vec<String> = env::args(&rt)?.collect(rt.alloc())?;
    let mut out = io::writer(&rt);
    let mut status = 0;
    for name in words.iter().skip(1) {
        let text = fs::read_to_string(&rt, name.as_str())?;
        for line in text.lines() {
            let parts: Vec<&str> = line.split(' ').collect(rt.alloc())?;
            let Some(row) = Sweep::of(&parts) else {
                writeln!(out, "{line}: no row")?;
                continue;
            };
            let image = fs::read(&rt, row.image)?;
            let outcome = sweep(rt.alloc(), &rt, &image, row);
            if !matches!(outcome, Outcome::Right(_)) {
                status = 1;
            }
            writeln!(out, "{line}: {outcome}")?;
        }
    }
    Ok(ExitCode::from(status))
}
