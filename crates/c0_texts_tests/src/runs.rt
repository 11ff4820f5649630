//! Runs of compiled texts.
use cells::Ended;
use executor::{Gate, OpenGate, run_all};
use region::piece_of;
use remote_store::{Config, FarHeap};
use scope_verifier::Verified;
use std::alloc::{AllocError, Global};
use std::io;
use std::io::Write;
use std::sync::Wait;
use std::thread::Threads;
use std::time::Clock;

/// Over how many frames and objects programs run.
#[derive(Clone, Copy)]
pub(crate) struct Sizes {
    pub(crate) frames: u32,
    pub(crate) objects: u32,
    pub(crate) workers: u32,
    pub(crate) quantum: u32,
}

/// The ends of these programs, run side by side beside so many evacuators and fetchers. None where they are not admitted, or memory ran out.
pub(crate) fn run_together<R: Threads + Wait + Clock + Sync, G: Gate>(
    alloc: Global,
    rt: &R,
    programs: Vec<Verified>,
    sizes: Sizes,
    movers: u32,
    gate: &G,
) -> Option<Vec<Ended>> {
    let config = Config {
        frames: sizes.frames,
        objects: sizes.objects,
        evacuators: movers,
        fetchers: movers,
        workers: sizes.workers,
        quantum: sizes.quantum,
        stores: FarHeap::new(piece_of(&programs)),
    };
    run_all(alloc, rt, programs, config, gate).ok()
}

/// The end of this program, run alone beside an evacuator and a fetcher.
pub(crate) fn execute<R: Threads + Wait + Clock + Sync>(
    alloc: Global,
    rt: &R,
    verified: Verified,
) -> Result<Ended, AllocError> {
    let mut programs = Vec::new(alloc);
    programs.push(verified)?;
    let sizes = Sizes {
        frames: 64,
        objects: 65_536,
        workers: 4,
        quantum: 1_000,
    };
    let Some(mut ends) = run_together(alloc, rt, programs, sizes, 1, &OpenGate) else {
        return Err(AllocError);
    };
    match ends.pop() {
        Some(ended) => Ok(ended),
        None => Err(AllocError),
    }
}

/// Tells how each of these programs ended.
pub(crate) fn tell_runs<O: Write>(ends: &[Ended], out: &mut O) -> io::Result<()> {
    for end in ends {
        let run = &end.run;
        writeln!(out, "{run}")?;
    }
    Ok(())
}
