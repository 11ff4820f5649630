//! The command `run`: the codes of files, run side by side over the memory that is asked for.
ghost use Rattle.std.specs.Prelude.{◌≡◌, ◌⊎◌, ◌/◌, ◌+◌, ℕ, IfErr, IfOk, List, MatchResult, length, map};
ghost use Rattle.command_line.specs.Shell.{memory_of, started_of};
ghost use Rattle.executor.specs.Ends.{AreFinished};
ghost use Rattle.region.specs.Admission.{IsAdmitted, IsDenied, IsRefused, IsWithinWork, image_at};
ghost use Rattle.world_semantics.specs.Pieces.{piece_of as first_piece};
ghost use Rattle.c0far.specs.Runs.{IsHonestIn, IsReliableIn, RanAsOne, RanOver, Runs, world_over};
ghost use Rattle.streams.specs.Streams.{writes};

use crate::code::codes_of;
use crate::places::say_beside;
use crate::room::take_room;
use crate::timing::{milliseconds, passed_since};
use command_files::Files;
use command_line::words::RunOptions;
use command_messages::{say_admission, say_finished, share_of};
use executor::{Counted, OpenGate, run_all_counted};
use file_store::FileStores;
use memory_limit::MemoryLimit;
use region::{AdmitFault, fits, piece_of};
use remote_store::{Config, FarHeap, FaultPlan, FaultStores, Stores};
use scope_verifier::Verified;
use session_events::{runs_are_seats, seats_are_a_world};
use std::alloc::Global;
use std::sync::Wait;
use std::thread::Threads;
use std::time::Clock;
use streams::Stream;

/// Runs these programs over these stores.
fn run_with<W: Wait + Threads + Clock + Sync, M: Stores + Drop>(
    alloc: Global,
    rt: &W,
    programs: Vec<Verified>,
    asked: RunOptions<'_>,
    stores: M,
) -> Result<Counted, AdmitFault>
    requires { M.makes stores (first_piece (image_at programs.items) + 3) }
    ensures ended { IfOk result (λ r. AreFinished M.S.honest M.S.reliable (asked.entry.memory.objects / length programs.items) programs.items r.programs.items) }
    ensures together { IfOk result (λ r. RanAsOne M.S.honest M.S.reliable (world_over (memory_of asked.entry.memory) asked.entry.evacuators asked.entry.fetchers programs.items) (image_at programs.items) r.programs.items) }
    ensures refused { IfErr result (λ fault. (fault ≡ AdmitFault.OutOfMemory) ⊎ IsRefused programs.items asked.entry.memory.frames asked.entry.memory.objects asked.entry.evacuators asked.entry.fetchers asked.entry.work.workers asked.entry.work.quantum fault) }
{
    let config = Config {
        frames: asked.memory.frames,
        objects: asked.memory.objects,
        evacuators: asked.evacuators,
        fetchers: asked.fetchers,
        workers: asked.work.workers,
        quantum: asked.work.quantum,
        stores,
    };
    let limit = MemoryLimit::of_mebibytes(asked.limit);
    runs_are_seats::<M::S>();
    seats_are_a_world::<M::S>();
    run_all_counted(alloc, rt, programs, config, limit, &OpenGate)
}

/// Runs these programs over these stores, whose calls fail from the one on that is asked for.
fn run_over<W: Wait + Threads + Clock + Sync, M: Stores + Drop>(
    alloc: Global,
    rt: &W,
    programs: Vec<Verified>,
    asked: RunOptions<'_>,
    stores: M,
) -> Result<Counted, AdmitFault>
    requires { M.makes stores (first_piece (image_at programs.items) + 3) }
    ensures ended { IfOk result (λ r. AreFinished M.S.honest (M.S.reliable × (asked.entry.memory.fail_from ≡ 0)) (asked.entry.memory.objects / length programs.items) programs.items r.programs.items) }
    ensures together { IfOk result (λ r. RanAsOne M.S.honest (M.S.reliable × (asked.entry.memory.fail_from ≡ 0)) (world_over (memory_of asked.entry.memory) asked.entry.evacuators asked.entry.fetchers programs.items) (image_at programs.items) r.programs.items) }
    ensures refused { IfErr result (λ fault. (fault ≡ AdmitFault.OutOfMemory) ⊎ IsRefused programs.items asked.entry.memory.frames asked.entry.memory.objects asked.entry.evacuators asked.entry.fetchers asked.entry.work.workers asked.entry.work.quantum fault) }
{
    if asked.memory.fail_from == 0 {
        return run_with(alloc, rt, programs, asked, stores);
    }
    match FaultStores::new(alloc, stores, FaultPlan::From(asked.memory.fail_from)) {
        Ok(stores) => run_with(alloc, rt, programs, asked, stores),
        Err(_refused) => Err(AdmitFault::OutOfMemory),
    }
}

/// Runs these programs over the memory that is asked for.
fn run_programs<W: Wait + Threads + Clock + Sync, F: Files>(
    alloc: Global,
    rt: &W,
    programs: Vec<Verified>,
    asked: RunOptions<'_>,
    files: &F,
) -> Result<Counted, AdmitFault>
    ensures ended { IfOk result (λ r. RanOver F.Place.honest (memory_of asked.entry.memory) programs.items r.programs.items) }
    ensures together { IfOk result (λ r. RanAsOne (IsHonestIn F.Place.honest (memory_of asked.entry.memory).store) (IsReliableIn (memory_of asked.entry.memory)) (world_over (memory_of asked.entry.memory) asked.entry.evacuators asked.entry.fetchers programs.items) (image_at programs.items) r.programs.items) }
    ensures refused { IfErr result (λ fault. (fault ≡ AdmitFault.OutOfMemory) ⊎ IsRefused programs.items asked.entry.memory.frames asked.entry.memory.objects asked.entry.evacuators asked.entry.fetchers asked.entry.work.workers asked.entry.work.quantum fault) }
{
    match asked.memory.store {
        None => {
            let piece = piece_of(&programs);
            take_room(alloc, asked.memory.objects as usize, piece);
            let stores = FarHeap::new(piece);
            run_over(alloc, rt, programs, asked, stores)
        }
        Some(name) => match files.folder(alloc, name) {
            Ok(folder) => run_over(alloc, rt, programs, asked, FileStores::new(folder)),
            Err(_refused) => Err(AdmitFault::OutOfMemory),
        },
    }
}

/// Whether these programs are admitted to the memory, the movers and the workers that are asked for.
pub(crate) fn fits_asked(programs: &[Verified], asked: RunOptions<'_>) -> Result<(), AdmitFault>
    ensures { MatchResult result (λ _. IsAdmitted programs.now asked.entry.memory.frames asked.entry.memory.objects asked.entry.evacuators asked.entry.fetchers × IsWithinWork asked.entry.work.workers asked.entry.work.quantum)
        (λ fault. IsRefused programs.now asked.entry.memory.frames asked.entry.memory.objects asked.entry.evacuators asked.entry.fetchers asked.entry.work.workers asked.entry.work.quantum fault) }
{
    let RunOptions { memory, work, .. } = asked;
    let config = Config {
        frames: memory.frames,
        objects: memory.objects,
        evacuators: asked.evacuators,
        fetchers: asked.fetchers,
        workers: work.workers,
        quantum: work.quantum,
        stores: FarHeap::new(piece_of(programs)),
    };
    fits(programs, &config)
}

/// Runs these programs over the memory that is asked for, where they are admitted. What admission refuses is told before anything else is done.
fn run_asked<W: Wait + Threads + Clock + Sync, F: Files>(
    alloc: Global,
    rt: &W,
    programs: Vec<Verified>,
    asked: RunOptions<'_>,
    files: &F,
) -> Result<Counted, AdmitFault>
    ensures ended { IfOk result (λ r. RanOver F.Place.honest (memory_of asked.entry.memory) programs.items r.programs.items) }
    ensures together { IfOk result (λ r. RanAsOne (IsHonestIn F.Place.honest (memory_of asked.entry.memory).store) (IsReliableIn (memory_of asked.entry.memory)) (world_over (memory_of asked.entry.memory) asked.entry.evacuators asked.entry.fetchers programs.items) (image_at programs.items) r.programs.items) }
    ensures admitted { IfOk result (λ v. IsAdmitted programs.items asked.entry.memory.frames asked.entry.memory.objects asked.entry.evacuators asked.entry.fetchers × IsWithinWork asked.entry.work.workers asked.entry.work.quantum) }
    ensures refused { IfErr result (λ fault. IsDenied programs.items asked.entry.memory.frames asked.entry.memory.objects asked.entry.evacuators asked.entry.fetchers asked.entry.work.workers asked.entry.work.quantum fault) }
{
    fits_asked(&programs, asked)?;
    run_programs(alloc, rt, programs, asked, files)
}

/// Runs the codes of these files side by side.
pub fn run<W: Wait + Threads + Clock + Sync, F: Files, O: Stream, E: Stream>(
    alloc: Global,
    rt: &W,
    asked: RunOptions<'_>,
    names: &[&str],
    files: &mut F,
    out: &mut O,
    err: &mut E,
) -> u8
    ensures files { (name : List ℕ) → F.holds files.new name ≡ F.holds files.old name }
    ensures done { Runs F.Place.honest (started_of asked.entry) (map (λ n. n.now) names.now) (F.holds files.old) (writes O.contents O.failures out.old out.new) (writes E.contents E.failures err.old err.new) result }
{
    let programs = match codes_of(alloc, asked.compiling, names, files, err) {
        Ok(programs) => programs,
        Err(status) => return status,
    };
    let share = share_of(asked.memory.objects, programs.len());
    let begun = milliseconds(rt);
    match run_asked(alloc, rt, programs, asked, files) {
        Ok(counted) => {
            let took = passed_since(rt, begun);
            let status = say_finished(out, &counted.programs);
            say_beside(
                alloc,
                asked,
                share,
                names,
                files,
                &counted.programs,
                &counted.movers,
                took,
                err,
                status,
            )
        }
        Err(fault) => say_admission(err, fault),
    }
}
