//! Texts that are run over 10 objects and 4 frames, once for each call of the store, which fails in that run alone.
use c0_image::compile;
use c0_syntax::level::Level;
use cells::{Piece, Run, Want};
use object_lock::ObjectTable;
use remote_store::{Config, FarHeap, FaultPlan, FaultStore, FaultStores};
use scope_verifier::Verified;
use session::Session;
use std::alloc::Global;
use std::io;
use std::io::Write;
use std::sync::Wait;

/// More calls than a run makes.
const MOST_CALLS: u64 = 100;
/// Fewer than a run makes.
const LEAST_CALLS: u64 = 8;
/// More instructions than a run completes.
const LIMIT: u64 = 10_000;

/// What the image answers where the store fails by this plan, and what it answers when it is asked again. None where memory ran out.
fn ran<R: Wait>(alloc: Global, rt: &R, verified: &Verified, plan: FaultPlan) -> Option<(Run, Run)> {
    let piece = verified.image().piece;
    let Ok(stores) = FaultStores::new(alloc, FarHeap::new(piece), plan) else {
        return None;
    };
    let config = Config {
        frames: 4,
        objects: 10,
        evacuators: 0,
        fetchers: 0,
        workers: 4,
        quantum: 1_000,
        stores,
    };
    let Ok((table, mut owners, _movers)) = ObjectTable::<FaultStore<FarHeap>>::new(
        alloc, 1, &config, piece,
    ) else {
        return None;
    };
    let Some(seat) = owners.pop() else {
        return None;
    };
    let Ok(mut session) = Session::over(alloc, &table, verified, seat) else {
        return None;
    };
    let first = session.run(rt, LIMIT);
    if session.completed() > LIMIT {
        return None;
    }
    Some((first, session.run(rt, LIMIT)))
}

/// The first call that no run makes, and how the program ends where all calls succeed. None where a run did otherwise.
fn each_call_fails<R: Wait>(alloc: Global, rt: &R, verified: &Verified) -> Option<(u64, Run)> {
    for number in 1..MOST_CALLS {
        let Some((first, second)) = ran(alloc, rt, verified, FaultPlan::Only(number)) else {
            return None;
        };
        if first != second {
            return None;
        }
        if first != Run::Wanted(Want::StoreFailed) {
            return Some((number, first));
        }
    }
    None
}

/// Tells how this program ends. False where a run did otherwise than it has to: where the store fails the program wants it, and
/// still does when it is asked again, and behind the last call it ends as if none had failed. Ten objects in four frames are moved out six times
/// at least, and brought back, by at least eight calls.
fn tell_calls<R: Wait, O: Write>(
    alloc: Global,
    rt: &R,
    name: &str,
    verified: &Verified,
    out: &mut O,
) -> io::Result<bool> {
    match each_call_fails(alloc, rt, verified) {
        Some((calls, run)) => {
            writeln!(out, "{name}: {run}")?;
            Ok(calls >= LEAST_CALLS)
        }
        None => {
            writeln!(out, "{name}: a run did otherwise")?;
            Ok(false)
        }
    }
}

/// Runs the program of this text with each call of the store failing in turn, and tells how it ends. False where it is refused, or a run did otherwise.
pub(crate) fn fail_each_call<R: Wait, O: Write>(
    alloc: Global,
    rt: &R,
    name: &str,
    text: &[u8],
    out: &mut O,
) -> io::Result<bool> {
    match compile(alloc, text, false, Level::C0, Piece::Cells64) {
        Ok(verified) => tell_calls(alloc, rt, name, &verified, out),
        Err(fault) => {
            writeln!(out, "{name}: {fault}")?;
            Ok(false)
        }
    }
}
