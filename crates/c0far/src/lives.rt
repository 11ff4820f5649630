//! The command `run --live`: the code of one file, run by itself over the memory that is asked for, of which what it prints is written as it comes.
ghost use Rattle.std.specs.Prelude.{◌≡◌, ◌+◌, ℕ, IfErr, IfOk, List, length};
ghost use Rattle.c0far.specs.Lives.{IsBroken, RanLive, RunsLive};
ghost use Rattle.command_line.specs.Shell.{memory_of, started_of};
ghost use Rattle.live_run.specs.Lives.{EndsLive, IsNotShown};
ghost use Rattle.program_run.specs.Acting.{share_by};
ghost use Rattle.program_run.specs.Executed.{IsFinishedOver};
ghost use Rattle.region.specs.Admission.{IsAdmitted, IsWithinWork, image_at};
ghost use Rattle.streams.specs.Streams.{writes};
ghost use Rattle.world_semantics.specs.Pieces.{piece_of as first_piece};

use crate::code::codes_of;
use crate::places::say_beside;
use crate::room::take_room;
use crate::runs::fits_asked;
use crate::timing::{milliseconds, passed_since};
use command_files::Files;
use command_line::words::RunOptions;
use command_messages::{REFUSED, say_admission, say_rest, share_of};
use file_store::FileStores;
use live_run::{Finished, LiveError, run_live_counted};
use memory_limit::MemoryLimit;
use region::{AdmitFault, piece_of};
use remote_store::{Config, FarHeap, FaultPlan, FaultStores, Stores};
use scope_verifier::Verified;
use std::alloc::Global;
use std::slice::from_ref;
use std::sync::Wait;
use std::thread::Threads;
use std::time::Clock;
use streams::Stream;

/// Runs the one program over these stores.
fn live_with<W: Wait, M: Stores + Drop, O: Stream>(
    alloc: Global,
    rt: &W,
    programs: Vec<Verified>,
    asked: RunOptions<'_>,
    stores: M,
    out: &mut O,
) -> Result<Finished, LiveError>
    requires one { length programs.items ≡ 1 }
    requires makes { M.makes stores (first_piece (image_at programs.items) + 3) }
    ensures ended { IfOk result (λ f. EndsLive M.S.honest M.S.reliable asked.entry.memory.objects (image_at programs.items 0) (writes O.contents O.failures out.old out.new) f.end) }
    ensures finished { IfOk result (λ f. M.S.honest → IsFinishedOver M.S.reliable (share_by 0 asked.entry.memory.objects) (image_at programs.items 0) f) }
    ensures broken { IfErr result (λ error. IsBroken asked.entry programs.items (writes O.contents O.failures out.old out.new) error) }
{
    let config = Config {
        frames: asked.memory.frames,
        objects: asked.memory.objects,
        evacuators: asked.evacuators,
        fetchers: asked.fetchers,
        workers: asked.work.workers,
        quantum: asked.work.quantum,
        stores,
    };
    let limit = MemoryLimit::of_mebibytes(asked.limit);
    run_live_counted(alloc, rt, programs, config, limit, out)
}

/// Runs the one program over these stores, whose calls fail from the one on that is asked for.
fn live_over<W: Wait, M: Stores + Drop, O: Stream>(
    alloc: Global,
    rt: &W,
    programs: Vec<Verified>,
    asked: RunOptions<'_>,
    stores: M,
    out: &mut O,
) -> Result<Finished, LiveError>
    requires one { length programs.items ≡ 1 }
    requires makes { M.makes stores (first_piece (image_at programs.items) + 3) }
    ensures ended { IfOk result (λ f. EndsLive M.S.honest (M.S.reliable × (asked.entry.memory.fail_from ≡ 0)) asked.entry.memory.objects (image_at programs.items 0) (writes O.contents O.failures out.old out.new) f.end) }
    ensures finished { IfOk result (λ f. M.S.honest → IsFinishedOver (M.S.reliable × (asked.entry.memory.fail_from ≡ 0)) (share_by 0 asked.entry.memory.objects) (image_at programs.items 0) f) }
    ensures broken { IfErr result (λ error. IsBroken asked.entry programs.items (writes O.contents O.failures out.old out.new) error) }
{
    if asked.memory.fail_from == 0 {
        return live_with(alloc, rt, programs, asked, stores, out);
    }
    match FaultStores::new(alloc, stores, FaultPlan::From(asked.memory.fail_from)) {
        Ok(stores) => live_with(alloc, rt, programs, asked, stores, out),
        Err(_refused) => Err(LiveError::NotRun(AdmitFault::OutOfMemory)),
    }
}

/// Runs the one program over the memory that is asked for.
fn live_program<W: Wait, F: Files, O: Stream>(
    alloc: Global,
    rt: &W,
    programs: Vec<Verified>,
    asked: RunOptions<'_>,
    files: &F,
    out: &mut O,
) -> Result<Finished, LiveError>
    requires { length programs.items ≡ 1 }
    ensures ended { IfOk result (λ f. RanLive F.Place.honest (memory_of asked.entry.memory) programs.items (writes O.contents O.failures out.old out.new) f) }
    ensures broken { IfErr result (λ error. IsBroken asked.entry programs.items (writes O.contents O.failures out.old out.new) error) }
{
    match asked.memory.store {
        None => {
            let piece = piece_of(&programs);
            take_room(alloc, asked.memory.objects as usize, piece);
            let stores = FarHeap::new(piece);
            live_over(alloc, rt, programs, asked, stores, out)
        }
        Some(name) => match files.folder(alloc, name) {
            Ok(folder) => live_over(alloc, rt, programs, asked, FileStores::new(folder), out),
            Err(_refused) => Err(LiveError::NotRun(AdmitFault::OutOfMemory)),
        },
    }
}

/// Runs the one program over the memory that is asked for, where it is admitted. What admission refuses is told before anything else is done.
fn live_asked<W: Wait, F: Files, O: Stream>(
    alloc: Global,
    rt: &W,
    programs: Vec<Verified>,
    asked: RunOptions<'_>,
    files: &F,
    out: &mut O,
) -> Result<Finished, LiveError>
    requires { length programs.items ≡ 1 }
    ensures ended { IfOk result (λ f. RanLive F.Place.honest (memory_of asked.entry.memory) programs.items (writes O.contents O.failures out.old out.new) f) }
    ensures admitted { IfOk result (λ _. IsAdmitted programs.items asked.entry.memory.frames asked.entry.memory.objects asked.entry.evacuators asked.entry.fetchers × IsWithinWork asked.entry.work.workers asked.entry.work.quantum) }
    ensures left { IfErr result (λ error. IsNotShown programs.items asked.entry.memory.frames asked.entry.memory.objects asked.entry.evacuators asked.entry.fetchers asked.entry.work.workers asked.entry.work.quantum (writes O.contents O.failures out.old out.new) error) }
{
    match fits_asked(&programs, asked) {
        Ok(()) => live_program(alloc, rt, programs, asked, files, out),
        Err(fault) => Err(LiveError::NotRun(fault)),
    }
}

/// Runs the code of this file by itself, and writes what it prints as it comes.
pub fn run_live<W: Wait + Threads + Clock, F: Files, O: Stream, E: Stream>(
    alloc: Global,
    rt: &W,
    asked: RunOptions<'_>,
    name: &str,
    files: &mut F,
    out: &mut O,
    err: &mut E,
) -> u8
    ensures files { (name : List ℕ) → F.holds files.new name ≡ F.holds files.old name }
    ensures done { RunsLive F.Place.honest (started_of asked.entry) name.now (F.holds files.old) (writes O.contents O.failures out.old out.new) (writes E.contents E.failures err.old err.new) result }
{
    let programs = match codes_of(alloc, asked.compiling, &[name], files, err) {
        Ok(programs) => programs,
        Err(status) => return status,
    };
    let share = share_of(asked.memory.objects, programs.len());
    let begun = milliseconds(rt);
    match live_asked(alloc, rt, programs, asked, files, out) {
        Ok(finished) => {
            let took = passed_since(rt, begun);
            let status = say_rest(out, &finished.end);
            say_beside(
                alloc,
                asked,
                share,
                &[name],
                files,
                from_ref(&finished),
                &[],
                took,
                err,
                status,
            )
        }
        Err(LiveError::NotRun(fault)) => say_admission(err, fault),
        Err(LiveError::Unwritten) => REFUSED,
    }
}
