//! The run of all programs of a region.
ghost use Rattle.std.specs.List.{All};
ghost use Rattle.std.specs.Prelude.{◌≡◌, ◌+◌, ◌-◌, ◌/◌, ◌<◌, ◌≤◌, ℕ, List, IfErr, IfOk, length, map};
ghost use Rattle.executor.specs.Ends.{AreEnds, AreFinished, end_of};
ghost use Rattle.object_lock.specs.Kept.{slot_has, slot_keeps};
ghost use Rattle.executor.specs.Together.{HasRunTogether};
ghost use Rattle.object_lock.specs.Fresh.{AreNumbered, IsFreshMover, IsFreshOwner, sizes_of};
ghost use Rattle.program_run.specs.declared.run.Finished.{Finished};
ghost use Rattle.region.specs.Admission.{IsAdmitted, IsDenied, IsWithinWork, image_at};
ghost use Rattle.world_semantics.specs.Pieces.{piece_of};

use crate::counts::Counted;
use crate::filing::{all_ends, file_all, no_ends, without_numbers};
use crate::movers::{counts_of, seats_of};
use crate::places::run_beside;
use crate::starting::{begin_all, enqueue, start_movers, start_workers};
use cells::Ended;
use fetcher::Hints;
use memory_limit::MemoryLimit;
use object_lock::{MoverSeat, OwnerSeat};
use program_run::Gate;
use region::{AdmitFault, Region, admit, fits};
use remote_store::{Config, RawStore, Stores};
use scope_verifier::Verified;
use std::alloc::{AllocError, Global};
use std::sync::Wait;
use std::sync::atomic::AtomicUsize;
use std::thread::Threads;
use std::time::Clock;

/// Runs the programs of a region at their seats, beside its movers. All memory that this takes beside that of the programs is taken before the first thread is made.
fn run_region<S: RawStore + Send, G: Gate, R: Threads + Wait + Clock + Sync>(
    alloc: Global,
    rt: &R,
    gate: &G,
    region: &Region<S>,
    owners: Vec<OwnerSeat<S>>,
    evacuators: usize,
    movers: Vec<MoverSeat<S>>,
    share: usize,
    workers: usize,
    quantum: u64,
    limit: MemoryLimit,
) -> Result<Counted, AllocError>
    requires numbers { AreNumbered 1 (length region.now.programs) owners.items }
    requires owners { All (IsFreshOwner region.now.table share) owners.items }
    requires movers { All (IsFreshMover region.now.table) movers.items }
    requires enough { length movers.items ≤ evacuators + region.now.fetchers }
    requires cells { (k : ℕ) → k < length region.now.programs → (image_at region.now.programs k).piece ≡ region.now.table.sizes.cells }
    requires mover_numbers { AreNumbered (length region.now.programs + 1) (length movers.items) movers.items }
    requires some { (0 < length region.now.programs) × (0 < region.now.table.sizes.objects) × (evacuators ≤ length movers.items) }
    requires seats { region.now.table.sizes.seats ≡ length region.now.programs + length movers.items }
    ensures ends { IfOk result (λ r. AreFinished S.honest S.reliable share region.now.programs r.programs.items) }
    ensures together { IfOk result (λ r. S.honest → HasRunTogether (slot_keeps S.fits S.content region.now.table.sizes.cells) (slot_has S.fits region.now.table.sizes.cells) S.honest S.reliable region.now.table.sizes share (length region.now.programs)
        evacuators (length movers.items - evacuators) (image_at region.now.programs) r.programs.items) }
{
    let Ok((hints, mut passes)) = Hints::new(alloc, region) else {
        return Err(AllocError);
    };
    let count = region.programs();
    let ends = Vec::with_capacity(alloc, count)?;
    let counts = Vec::with_capacity(alloc, movers.len())?;
    let seats = Vec::with_capacity(alloc, count + movers.len())?;
    let tasks = begin_all(alloc, region, &hints, &mut passes, owners, share, limit)?;
    let (queue, mut pass) = enqueue(alloc, rt, region, share, tasks)?;
    let places = no_ends(alloc, &queue, count)?;
    let workers = start_workers(alloc, &queue, &mut pass, workers, count)?;
    let movers = start_movers(alloc, region, &hints, evacuators, count + 1, movers, passes)?;
    let left = AtomicUsize::new(count);
    let (movers, workers) = run_beside(rt, gate, &left, quantum, movers, workers);
    let counts = counts_of(&movers, counts);
    let seats = seats_of(movers, seats);
    let (programs, seats) = all_ends(&queue, file_all(&queue, workers, places), ends, seats)?;
    // Of all seats at once: what each of them knows is so in one state of the table.
    region.table().meet(seats);
    Ok(Counted {
        programs,
        movers: counts,
    })
}

/// Runs the programs as `run_all` does, and tells beside each end how many calls of the store were refused through the program's own port, modulo 2^64: over an
/// honest store one where the program wants the store, and else none. So what fails through other ports, those of other programs, evacuators and fetchers, ends no
/// program. All of it is told in one state of the table: what each of its seats did, and of whom it is. It tells what else was counted of each program and of each mover, too, of which no contract speaks. The calls of each program, and its output, keep within
/// a limit of memory: where one comes to more, the program wants memory. The faults are those of `run_all`.
pub fn run_all_counted<
    S: RawStore + Send,
    M: Stores<S = S> + Drop,
    G: Gate,
    R: Threads + Wait + Clock + Sync,
>(
    alloc: Global,
    rt: &R,
    programs: Vec<Verified>,
    config: Config<M>,
    limit: MemoryLimit,
    gate: &G,
) -> Result<Counted, AdmitFault>
    requires { M.makes config.stores (piece_of (image_at programs.items) + 3) }
    ensures ends { IfOk result (λ r. AreFinished S.honest S.reliable (config.objects / length programs.items) programs.items r.programs.items) }
    ensures together { IfOk result (λ r. S.honest → HasRunTogether (slot_keeps S.fits S.content (piece_of (image_at programs.items))) (slot_has S.fits (piece_of (image_at programs.items))) S.honest S.reliable
        (sizes_of config.objects config.frames (piece_of (image_at programs.items)) (length programs.items + config.evacuators + config.fetchers)) (config.objects / length programs.items) (length programs.items) config.evacuators config.fetchers (image_at programs.items) r.programs.items) }
    ensures admitted { IfOk result (λ _. IsAdmitted programs.items config.frames config.objects config.evacuators config.fetchers × IsWithinWork config.workers config.quantum) }
    ensures refused { IfErr result (λ fault. IsDenied programs.items config.frames config.objects config.evacuators config.fetchers config.workers config.quantum fault) }
{
    let objects = config.objects as usize;
    let evacuators = config.evacuators as usize;
    let workers = config.workers as usize;
    let quantum = u64::from(config.quantum);
    let (region, owners, movers) = admit(alloc, programs, config)?;
    let share = objects / region.programs().max(1);
    match run_region(
        alloc, rt, gate, &region, owners, evacuators, movers, share, workers, quantum, limit,
    ) {
        Ok(counted) => Ok(counted),
        Err(_refused) => Err(AdmitFault::OutOfMemory),
    }
}

/// Runs the programs to their ends over a region of these numbers, by turns on the threads of so many workers, beside evacuators and fetchers on threads of
/// theirs. A worker takes the program that waits longest, asks the gate once whether it may go, runs it for `quantum` instructions where it may, and puts it
/// back; the only one that has not ended it keeps. The ends stand in the programs' order: over an honest store each is that of the code's run with an equal
/// share of the objects, whatever the others do. The gate is told of each end and of each turn of a mover. Movers go on until every program has ended. A
/// worker or a mover whose thread cannot be made is not run; where none can be made the calling thread is the one worker. The faults are those of `admit`;
/// `OutOfMemory` also where a growth for the programs, the workers, the movers or the queues was refused before any of them ran, and only where the programs
/// are admitted.
pub fn run_all<
    S: RawStore + Send,
    M: Stores<S = S> + Drop,
    G: Gate,
    R: Threads + Wait + Clock + Sync,
>(
    alloc: Global,
    rt: &R,
    programs: Vec<Verified>,
    config: Config<M>,
    gate: &G,
) -> Result<Vec<Ended>, AdmitFault>
    requires { M.makes config.stores (piece_of (image_at programs.items) + 3) }
    ensures ends { IfOk result (λ v. AreEnds S.honest S.reliable (config.objects / length programs.items) programs.items v.items) }
    ensures together { IfOk result (λ v. S.honest → (all : List Finished) × (v.items ≡ map end_of all) × HasRunTogether (slot_keeps S.fits S.content (piece_of (image_at programs.items))) (slot_has S.fits (piece_of (image_at programs.items))) S.honest S.reliable
        (sizes_of config.objects config.frames (piece_of (image_at programs.items)) (length programs.items + config.evacuators + config.fetchers)) (config.objects / length programs.items) (length programs.items) config.evacuators config.fetchers (image_at programs.items) all) }
    ensures admitted { IfOk result (λ _. IsAdmitted programs.items config.frames config.objects config.evacuators config.fetchers × IsWithinWork config.workers config.quantum) }
    ensures refused { IfErr result (λ fault. IsDenied programs.items config.frames config.objects config.evacuators config.fetchers config.workers config.quantum fault) }
{
    // Before anything takes memory: what admission refuses is told first.
    fits(&programs, &config)?;
    let Ok(ends) = Vec::with_capacity(alloc, programs.len()) else {
        return Err(AdmitFault::OutOfMemory);
    };
    let limit = MemoryLimit::of_mebibytes(0);
    let counted = run_all_counted(alloc, rt, programs, config, limit, gate)?;
    Ok(without_numbers(counted.programs, ends))
}
