//! Texts whose hints are looked at: a session runs with nobody to serve them, then one is taken, and a fetcher looks for another.
ghost use Rattle.object_lock.specs.Fresh.{IsFresh, IsFreshMover};
ghost use Rattle.std.specs.Prelude.{◌≡◌, ◌<◌, ◌≤◌, length};

use c0_image::compile;
use c0_syntax::level::Level;
use cells::Piece;
use fetcher::{HintPass, Hints, Served, serve_one};
use object_lock::{MoverSeat, OwnerSeat};
use region::{Region, admit, piece_of};
use remote_store::{Config, FarHeap};
use scope_verifier::Verified;
use session::Session;
use std::alloc::Global;
use std::io;
use std::io::Write;
use std::sync::Wait;

/// More instructions than such a text completes.
const LIMIT: u64 = 10_000;

/// Runs the region's program at its seat, until it has stopped.
fn run_alone<R: Wait>(
    alloc: Global,
    rt: &R,
    region: &Region<FarHeap>,
    hints: &Hints,
    pass: HintPass,
    seat: OwnerSeat<FarHeap>,
)
    requires fresh { IsFresh region.now.table seat }
    requires own { seat.view.low ≤ seat.view.high }
    requires program { (0 < seat.view.number) × (seat.view.number ≤ length region.now.programs) }
    requires pass { pass ≡ hints.now }
{
    let Ok(mut session) = Session::new(alloc, region, hints, pass, seat) else {
        return;
    };
    if session.completed() < LIMIT {
        let _ = session.run(rt, LIMIT);
    }
}

/// The object that the oldest hint names, if there is one, and what a fetcher comes to that looks for the next.
fn serve<R: Wait>(
    rt: &R,
    region: &Region<FarHeap>,
    hints: &Hints,
    mut pass: HintPass,
    mut seat: MoverSeat<FarHeap>,
) -> (Option<usize>, Served)
    requires seat { IsFreshMover region.now.table seat }
    requires hints { hints.now.objects ≡ region.now.objects }
    requires pass { pass ≡ hints.now }
{
    let oldest = hints.pop(rt, &mut pass);
    let served = serve_one(rt, region, hints, &mut pass, &mut seat);
    (oldest, served)
}

/// What was hinted behind a run of this program, over eight frames and ten objects. None where memory ran out.
fn served_behind<R: Wait>(
    alloc: Global,
    rt: &R,
    verified: Verified,
) -> Option<(Option<usize>, Served)> {
    let mut programs = Vec::new(alloc);
    if programs.push(verified).is_err() {
        return None;
    }
    let config = Config {
        frames: 8,
        objects: 10,
        evacuators: 0,
        fetchers: 1,
        workers: 4,
        quantum: 1_000,
        stores: FarHeap::new(piece_of(&programs)),
    };
    let Ok((region, mut owners, mut movers)) = admit(alloc, programs, config) else {
        return None;
    };
    let Ok((hints, mut passes)) = Hints::new(alloc, &region) else {
        return None;
    };
    let (Some(owner), Some(mover)) = (owners.pop(), movers.pop()) else {
        return None;
    };
    let (Some(first), Some(second)) = (passes.pop(), passes.pop()) else {
        return None;
    };
    run_alone(alloc, rt, &region, &hints, first, owner);
    Some(serve(rt, &region, &hints, second, mover))
}

/// Runs the text alone, and tells which hint it left first, and whether it left more. False where it is refused, or memory ran out.
pub(crate) fn leave_hints<R: Wait, O: Write>(
    alloc: Global,
    rt: &R,
    name: &str,
    text: &[u8],
    out: &mut O,
) -> io::Result<bool> {
    let Ok(verified) = compile(alloc, text, false, Level::C0, Piece::Cells64) else {
        return Ok(false);
    };
    match served_behind(alloc, rt, verified) {
        Some((None, _)) => {
            writeln!(out, "{name}: no hint")?;
            Ok(true)
        }
        Some((Some(object), Served::Nothing)) => {
            writeln!(out, "{name}: a hint of object {object}")?;
            Ok(true)
        }
        Some((Some(object), Served::Dropped | Served::Brought | Served::Failed)) => {
            writeln!(out, "{name}: a hint of object {object}, and more")?;
            Ok(true)
        }
        None => Ok(false),
    }
}
