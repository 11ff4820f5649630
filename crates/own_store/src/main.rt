//! Runs the image that the word names over a store of its own, which tells how many rows went to it and came back. `docs/RUNTIME.md` explains it.
#![tactic(auto)]

mod store;

use crate::store::TalliedHeaps;
use cells::Ended;
use executor::{OpenGate, run_all};
use image_reader::decode;
use region::piece_of;
use remote_store::Config;
use scope_verifier::{Verified, verify};
use std::alloc::Global;
use std::io::Write;
use std::process::ExitCode;
use std::sync::Wait;
use std::sync::atomic::Ordering;
use std::thread::Threads;
use std::time::Clock;
use std::{env, fs, io};

/// The images of these bytes, verified. None where they are no image, or one that may not be run.
fn programs_of(alloc: Global, bytes: &[u8]) -> Option<Vec<Verified>> {
    let image = decode(alloc, bytes).ok()?;
    let verified = verify(alloc, image).ok()?;
    let mut programs = Vec::new(alloc);
    programs.push(verified).ok()?;
    Some(programs)
}

/// The end of the image's program, over eight frames, and how many rows were moved.
fn run<R: Threads + Wait + Clock + Sync>(
    rt: &R,
    alloc: Global,
    bytes: &[u8],
) -> Option<(Ended, u64)> {
    let programs = programs_of(alloc, bytes)?;
    let (stores, rows) = TalliedHeaps::new(alloc, piece_of(&programs)).ok()?;
    let config = Config {
        frames: 8,
        objects: 2_000,
        evacuators: 1,
        fetchers: 1,
        workers: 4,
        quantum: 1_000,
        stores,
    };
    let mut ends = run_all(alloc, rt, programs, config, &OpenGate).ok()?;
    let ended = ends.pop()?;
    Some((ended, rows.load(Ordering::SeqCst)))
}

fn main(rt: HostRuntime) -> io::Result<ExitCode> {
    let words: Vec<String> = env::args(&rt)?.collect(rt.alloc())?;
    let mut out = io::writer(&rt);
    let Some(name) = words.get(1) else {
        return Ok(ExitCode::from(2));
    };
    let bytes = fs::read(&rt, name.as_str())?;
    let Some((ended, rows)) = run(&rt, rt.alloc(), &bytes) else {
        return Ok(ExitCode::from(2));
    };
    out.write_all(&ended.output)?;
    let run = &ended.run;
    let moved = if rows > 0 { "some" } else { "no" };
    writeln!(out, "{run}, {moved} rows moved")?;
    Ok(ExitCode::from(0))
}
