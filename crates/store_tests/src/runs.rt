//! One run.
ghost use Rattle.region.specs.Admission.{image_at};
ghost use Rattle.std.specs.Prelude.{◌≡◌, ◌+◌};
ghost use Rattle.world_semantics.specs.Pieces.{piece_of as first_piece};

use crate::counted::{Calls, CountedStores};
use crate::rows::{Plan, Sweep};
use executor::{Finished, OpenGate, run_all_counted};
use file_store::{FileStores, MemFolder};
use image_reader::decode;
use memory_limit::MemoryLimit;
use region::piece_of;
use remote_store::{Config, FarHeap, FaultPlan, FaultStores, Lie, LyingStores, Stores};
use scope_verifier::{Verified, verify};
use std::alloc::Global;
use std::sync::Wait;
use std::thread::Threads;
use std::time::Clock;

/// Frames of each program.
const FRAMES: u32 = 6;

/// Objects of each program.
const OBJECTS: u32 = 1_100;

/// So many programs of the image of these bytes, verified.
fn programs_of(alloc: Global, image: &[u8], count: u32) -> Option<Vec<Verified>> {
    let mut programs = Vec::new(alloc);
    for _program in 0..count {
        let verified = verify(alloc, decode(alloc, image).ok()?).ok()?;
        programs.push(verified).ok()?;
    }
    Some(programs)
}

/// The ends of these programs over these stores.
fn run_over<R: Threads + Wait + Clock + Sync, M: Stores + Drop>(
    alloc: Global,
    rt: &R,
    programs: Vec<Verified>,
    row: Sweep<'_>,
    stores: M,
) -> Option<Vec<Finished>>
    requires { M.makes stores (first_piece (image_at programs.items) + 3) }
{
    let config = Config {
        frames: FRAMES.wrapping_mul(row.programs),
        objects: OBJECTS.wrapping_mul(row.programs),
        evacuators: row.movers,
        fetchers: row.movers,
        workers: 4,
        quantum: 1_000,
        stores,
    };
    let limit = MemoryLimit::of_mebibytes(0);
    match run_all_counted(alloc, rt, programs, config, limit, &OpenGate) {
        Ok(counted) => Some(counted.programs),
        Err(_refused) => None,
    }
}

/// The same over ways to these stores, of which the read of this number lies so.
fn run_lying<R: Threads + Wait + Clock + Sync, M: Stores + Drop>(
    alloc: Global,
    rt: &R,
    programs: Vec<Verified>,
    row: Sweep<'_>,
    lying: (Lie, u64),
    stores: M,
) -> Option<Vec<Finished>>
    requires { M.makes stores (first_piece (image_at programs.items) + 3) }
{
    let (lie, number) = lying;
    match LyingStores::new(alloc, stores, lie, FaultPlan::Only(number)) {
        Ok(stores) => run_over(alloc, rt, programs, row, stores),
        Err(_refused) => None,
    }
}

/// The same over ways to these stores that go wrong by this plan at the call, or the read, of this number.
fn run_planned<R: Threads + Wait + Clock + Sync, M: Stores + Drop>(
    alloc: Global,
    rt: &R,
    programs: Vec<Verified>,
    row: Sweep<'_>,
    number: u64,
    stores: M,
) -> Option<Vec<Finished>>
    requires { M.makes stores (first_piece (image_at programs.items) + 3) }
{
    match row.plan {
        Plan::Lies(lie) => run_lying(alloc, rt, programs, row, (lie, number), stores),
        Plan::Never | Plan::At | Plan::From => {
            match FaultStores::new(alloc, stores, row.plan.faults(number)) {
                Ok(stores) => run_over(alloc, rt, programs, row, stores),
                Err(_refused) => None,
            }
        }
    }
}

/// The ends of a row's programs, where the call, or the read, of this number goes wrong. The calls that came to the store below are counted.
pub(crate) fn run<R: Threads + Wait + Clock + Sync>(
    alloc: Global,
    rt: &R,
    image: &[u8],
    row: Sweep<'_>,
    number: u64,
    calls: Calls,
) -> Option<Vec<Finished>> {
    let programs = programs_of(alloc, image, row.programs)?;
    if row.in_folder {
        let stores = FileStores::new(MemFolder::new());
        let stores = CountedStores { stores, calls };
        return run_planned(alloc, rt, programs, row, number, stores);
    }
    let stores = FarHeap::new(piece_of(&programs));
    let stores = CountedStores { stores, calls };
    run_planned(alloc, rt, programs, row, number, stores)
}
