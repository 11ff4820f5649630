//! Scenarios of hints and fetchers, and what each came to.

mod frames;
mod moves;
mod owners;
mod queues;
mod regions;
mod scenario;

use crate::hints::queues::{cross_threads, fill_queue};
use crate::hints::scenario::{Scenario, Story, play};
use cells::Piece;
use remote_store::{FarHeap, FaultPlan, FaultStores};
use std::alloc::Global;
use std::io;
use std::io::Write;
use std::sync::Wait;
use std::thread::Threads;

/// What comes of hints of an object that is moved out, where the first get fails. `None` where memory runs out.
fn fail_once<R: Wait>(rt: &R, alloc: Global) -> Option<Story> {
    // The first call of the store is the put.
    let stores = FaultStores::new(alloc, FarHeap::new(Piece::Cells64), FaultPlan::Only(2)).ok()?;
    play(rt, alloc, Scenario::MovedOut, stores)
}

/// Plays the scenarios, and tells what each came to.
pub(crate) fn tell<R: Threads + Wait + Sync, O: Write>(
    alloc: Global,
    rt: &R,
    out: &mut O,
) -> io::Result<()> {
    writeln!(out, "a queue of hints: {:?}", fill_queue(rt, alloc))?;
    writeln!(
        out,
        "a hint of another thread: {:?}",
        cross_threads(rt, alloc)
    )?;
    let stores = FarHeap::new(Piece::Cells64);
    let moved_out = play(rt, alloc, Scenario::MovedOut, stores);
    writeln!(out, "a store that does not fail: {moved_out:?}")?;
    let failed = fail_once(rt, alloc);
    writeln!(out, "a store that fails the first get: {failed:?}")?;
    let no_frame = play(rt, alloc, Scenario::NoFrame, stores);
    writeln!(out, "two frames: {no_frame:?}")
}
