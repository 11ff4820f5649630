//! The run of one program, alone in its region.
ghost use Rattle.live_run.specs.Lives.{EndsLive, IsLeft, IsNotShown};
ghost use Rattle.object_lock.specs.Fresh.{IsFresh};
ghost use Rattle.program_run.specs.Acting.{share_at, share_by};
ghost use Rattle.program_run.specs.Executed.{IsFinishedOver};
ghost use Rattle.region.specs.Admission.{IsAdmitted, IsWithinWork, image_at};
ghost use Rattle.std.specs.Prelude.{◌≡◌, ◌+◌, ◌-◌, ◌<◌, ◌≤◌, IfErr, IfOk, length};
ghost use Rattle.streams.specs.Streams.{writes};
ghost use Rattle.world_semantics.specs.Pieces.{piece_of};

use crate::turns::go_on;
use cells::Ended;
use hint_queue::Hints;
use memory_limit::MemoryLimit;
use object_lock::OwnerSeat;
use program_run::{Finished, ProgramRun};
use region::{AdmitFault, Region, admit};
use remote_store::{Config, RawStore, Stores};
use scope_verifier::Verified;
use std::alloc::Global;
use std::sync::Wait;
use streams::{Failed, Stream};

/// Why a program is not seen to its end.
#[derive(Clone, Copy, Debug, PartialEq, Eq)]
pub enum LiveError {
    /// It is not admitted, or memory was refused before it ran.
    NotRun(AdmitFault),
    /// A write failed.
    Unwritten,
}

/// Runs the region's program of this seat within a limit of memory, and writes behind each turn of so many instructions what it printed there.
fn run_region<S: RawStore, O: Stream, R: Wait>(
    alloc: Global,
    rt: &R,
    region: &Region<S>,
    seat: OwnerSeat<S>,
    quantum: u64,
    limit: MemoryLimit,
    out: &mut O,
) -> Result<Finished, LiveError>
    requires fresh { IsFresh region.now.table seat }
    requires own { seat.view.low ≤ seat.view.high }
    requires program { (0 < seat.view.number) × (seat.view.number ≤ length region.now.programs) }
    requires cells { region.now.table.sizes.cells ≡ (image_at region.now.programs (seat.view.number - 1)).piece }
    ensures ends { IfOk result (λ f. EndsLive S.honest S.reliable (seat.view.high - seat.view.low) (image_at region.now.programs (seat.view.number - 1)) (writes O.contents O.failures out.old out.new) f.end) }
    ensures finished { IfOk result (λ f. S.honest → IsFinishedOver S.reliable (share_at seat.view) (image_at region.now.programs (seat.view.number - 1)) f) }
    ensures left { IfErr result (λ error. IsLeft (writes O.contents O.failures out.old out.new) error) }
{
    let Ok((hints, mut passes)) = Hints::new(alloc, region) else {
        return Err(LiveError::NotRun(AdmitFault::OutOfMemory));
    };
    let Some(pass) = passes.pop() else {
        unreachable!()
    };
    let Ok(mut program) = ProgramRun::new(alloc, region, &hints, pass, seat) else {
        return Err(LiveError::NotRun(AdmitFault::OutOfMemory));
    };
    program.bound(limit);
    match go_on(rt, &mut program, quantum, out) {
        Ok(()) => {
            let (finished, _seat) = program.into_finished();
            Ok(finished)
        }
        Err(Failed) => Err(LiveError::Unwritten),
    }
}

/// Runs the program as `run_live` does, and tells beside its end how many calls of the store were refused through its own port, modulo 2^64: over an honest store one
/// where it wants the store, and else none; and the end is what its session came to by what it did, instruction by instruction. It tells what else was counted of it, too,
/// of which no contract speaks. Its calls, and its output, keep within a limit of memory: where one comes to more, it wants memory.
pub fn run_live_counted<S: RawStore, M: Stores<S = S> + Drop, O: Stream, R: Wait>(
    alloc: Global,
    rt: &R,
    programs: Vec<Verified>,
    config: Config<M>,
    limit: MemoryLimit,
    out: &mut O,
) -> Result<Finished, LiveError>
    requires one { length programs.items ≡ 1 }
    requires makes { M.makes config.stores (piece_of (image_at programs.items) + 3) }
    ensures ends { IfOk result (λ f. EndsLive S.honest S.reliable config.objects (image_at programs.items 0) (writes O.contents O.failures out.old out.new) f.end) }
    ensures finished { IfOk result (λ f. S.honest → IsFinishedOver S.reliable (share_by 0 config.objects) (image_at programs.items 0) f) }
    ensures admitted { IfOk result (λ _. IsAdmitted programs.items config.frames config.objects config.evacuators config.fetchers × IsWithinWork config.workers config.quantum) }
    ensures left { IfErr result (λ error. IsNotShown programs.items config.frames config.objects config.evacuators config.fetchers config.workers config.quantum (writes O.contents O.failures out.old out.new) error) }
{
    let quantum = u64::from(config.quantum);
    let (region, mut owners, _movers) = match admit(alloc, programs, config) {
        Ok(admitted) => admitted,
        Err(fault) => return Err(LiveError::NotRun(fault)),
    };
    let Some(seat) = owners.pop() else {
        unreachable!()
    };
    run_region(alloc, rt, &region, seat, quantum, limit, out)
}

/// Runs one program to its end on the calling thread, over a region of these numbers, and writes what it prints as it comes: behind each turn of the quantum's
/// instructions what it printed there. No worker is started, and the seats of evacuators and fetchers, which admission counts, are left: the program moves objects
/// by itself. Its end is answered where each write succeeded: over an honest store it is that of the code's run with all objects, and just its output was written. The
/// first write that fails ends the run. The faults are those of `admit`; `OutOfMemory` also where a growth for the run was refused before it began.
pub fn run_live<S: RawStore, M: Stores<S = S> + Drop, O: Stream, R: Wait>(
    alloc: Global,
    rt: &R,
    programs: Vec<Verified>,
    config: Config<M>,
    out: &mut O,
) -> Result<Ended, LiveError>
    requires one { length programs.items ≡ 1 }
    requires makes { M.makes config.stores (piece_of (image_at programs.items) + 3) }
    ensures ends { IfOk result (λ e. EndsLive S.honest S.reliable config.objects (image_at programs.items 0) (writes O.contents O.failures out.old out.new) e) }
    ensures admitted { IfOk result (λ _. IsAdmitted programs.items config.frames config.objects config.evacuators config.fetchers × IsWithinWork config.workers config.quantum) }
    ensures left { IfErr result (λ error. IsNotShown programs.items config.frames config.objects config.evacuators config.fetchers config.workers config.quantum (writes O.contents O.failures out.old out.new) error) }
{
    let limit = MemoryLimit::of_mebibytes(0);
    match run_live_counted(alloc, rt, programs, config, limit, out) {
        Ok(finished) => Ok(finished.end),
        Err(error) => Err(error),
    }
}
