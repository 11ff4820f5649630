//! The command `replay`: the codes of files in one world, by a schedule.
ghost use Rattle.std.specs.Prelude.{◌≡◌, ◌+◌, ◌++◌, ℕ, List, codes, decimal, length, map};
ghost use Rattle.command_line.specs.Shell.{compiling_of, replayed_of};
ghost use Rattle.region.specs.Admission.{IsAdmitted, IsWithinWork, image_at};
ghost use Rattle.world_semantics.specs.Pieces.{piece_of as first_piece};
ghost use Rattle.command_files.specs.FileTexts.{HasText, Known};
ghost use Rattle.c0far.specs.FileCode.{AreCodes};
ghost use Rattle.c0far.specs.Replays.{Admits, Replays, ReplaysLines, ReplaysOver};
ghost use Rattle.command_messages.specs.Shown.{newline};
ghost use Rattle.streams.specs.Streams.{Says, writes};

use crate::code::codes_of;
use command_files::{FileError, Files};
use command_line::words::ReplayOptions;
use command_messages::{REFUSED, after, say_admission, say_ends, say_memory, say_unread};
use file_store::FileStores;
use region::{fits, piece_of};
use remote_store::{Config, FarHeap, FaultPlan, FaultStores, Stores};
use schedule_replay::replay_admitted;
use scope_verifier::Verified;
use std::alloc::Global;
use streams::Stream;
use world::Refused;

/// Says which line of the schedule is refused.
fn say_line<E: Stream>(err: &mut E, line: u64) -> u8
    ensures { Says (writes E.contents E.failures err.old err.new) (codes "refused line " ++ (decimal line ++ newline)) 2 result }
{
    after(writeln!(err, "refused line {line}"), REFUSED)
}

/// Replays these lines of these programs, which are admitted.
fn replay_lines<M: Stores + Drop, O: Stream, E: Stream>(
    alloc: Global,
    asked: ReplayOptions<'_>,
    programs: Vec<Verified>,
    config: &Config<M>,
    lines: &[u8],
    out: &mut O,
    err: &mut E,
) -> u8
    requires numbers { (config.now.frames ≡ asked.memory.frames) × (config.now.objects ≡ asked.memory.objects) × (config.now.evacuators ≡ asked.evacuators) × (config.now.fetchers ≡ asked.fetchers) }
    requires store { M.makes config.now.stores (first_piece (image_at programs.items) + 3) }
    requires turns { (config.now.workers ≡ asked.work.workers) × (config.now.quantum ≡ asked.work.quantum) }
    requires admitted { IsAdmitted programs.items config.now.frames config.now.objects config.now.evacuators config.now.fetchers }
    requires work { IsWithinWork config.now.workers config.now.quantum }
    ensures { (names : List (List ℕ)) (held : List ℕ → Known) → AreCodes (compiling_of asked.entry.compiling) held names programs.items → HasText (held asked.entry.schedule.now) lines.now
        → ReplaysLines M.S.honest M.S.reliable (replayed_of asked.entry) names held (writes O.contents O.failures out.old out.new) (writes E.contents E.failures err.old err.new) result }
{
    // For the proof alone: the clauses speak of what was asked for.
    let _ = asked;
    match replay_admitted(alloc, programs, config, lines) {
        Ok(ends) => say_ends(out, &ends),
        Err(Refused::Line { line }) => say_line(err, line),
        Err(Refused::OutOfMemory) => say_memory(err),
    }
}

/// Replays the schedule of these programs over these stores.
fn replay_with<M: Stores + Drop, F: Files, O: Stream, E: Stream>(
    alloc: Global,
    asked: ReplayOptions<'_>,
    programs: Vec<Verified>,
    stores: M,
    files: &mut F,
    out: &mut O,
    err: &mut E,
) -> u8
    requires { M.makes stores (first_piece (image_at programs.items) + 3) }
    ensures files { (name : List ℕ) → F.holds files.new name ≡ F.holds files.old name }
    ensures done { (names : List (List ℕ)) → AreCodes (compiling_of asked.entry.compiling) (F.holds files.old) names programs.items
        → ReplaysOver M.S.honest M.S.reliable (replayed_of asked.entry) names (F.holds files.old) (writes O.contents O.failures out.old out.new) (writes E.contents E.failures err.old err.new) result }
{
    let config = Config {
        frames: asked.memory.frames,
        objects: asked.memory.objects,
        evacuators: asked.evacuators,
        fetchers: asked.fetchers,
        workers: asked.work.workers,
        quantum: asked.work.quantum,
        stores,
    };
    if let Err(fault) = fits(&programs, &config) {
        return say_admission(err, fault);
    }
    match files.read(alloc, asked.schedule) {
        Ok(lines) => replay_lines(alloc, asked, programs, &config, &lines, out, err),
        Err(FileError::Cannot) => say_unread(err, asked.schedule),
        Err(FileError::OutOfMemory) => say_memory(err),
    }
}

/// Replays the schedule of these programs over these stores, whose calls fail from the one on that is asked for.
fn replay_over<M: Stores + Drop, F: Files, O: Stream, E: Stream>(
    alloc: Global,
    asked: ReplayOptions<'_>,
    programs: Vec<Verified>,
    stores: M,
    files: &mut F,
    out: &mut O,
    err: &mut E,
) -> u8
    requires { M.makes stores (first_piece (image_at programs.items) + 3) }
    ensures files { (name : List ℕ) → F.holds files.new name ≡ F.holds files.old name }
    ensures done { (names : List (List ℕ)) → AreCodes (compiling_of asked.entry.compiling) (F.holds files.old) names programs.items
        → ReplaysOver M.S.honest (M.S.reliable × (asked.entry.memory.fail_from ≡ 0)) (replayed_of asked.entry) names (F.holds files.old) (writes O.contents O.failures out.old out.new) (writes E.contents E.failures err.old err.new) result }
{
    if asked.memory.fail_from == 0 {
        return replay_with(alloc, asked, programs, stores, files, out, err);
    }
    match FaultStores::new(alloc, stores, FaultPlan::From(asked.memory.fail_from)) {
        Ok(stores) => replay_with(alloc, asked, programs, stores, files, out, err),
        Err(_refused) => say_memory(err),
    }
}

/// Replays the schedule of these programs over the memory that is asked for.
fn replay_codes<F: Files, O: Stream, E: Stream>(
    alloc: Global,
    asked: ReplayOptions<'_>,
    programs: Vec<Verified>,
    files: &mut F,
    out: &mut O,
    err: &mut E,
) -> u8
    ensures files { (name : List ℕ) → F.holds files.new name ≡ F.holds files.old name }
    ensures done { (names : List (List ℕ)) → AreCodes (compiling_of asked.entry.compiling) (F.holds files.old) names programs.items
        → Replays F.Place.honest (replayed_of asked.entry) names (F.holds files.old) (writes O.contents O.failures out.old out.new) (writes E.contents E.failures err.old err.new) result }
{
    match asked.memory.store {
        None => {
            let stores = FarHeap::new(piece_of(&programs));
            replay_over(alloc, asked, programs, stores, files, out, err)
        }
        Some(name) => match files.folder(alloc, name) {
            Ok(folder) => replay_over(
                alloc,
                asked,
                programs,
                FileStores::new(folder),
                files,
                out,
                err,
            ),
            Err(_refused) => say_memory(err),
        },
    }
}

/// Replays the schedule that is asked for, of the codes of these files.
pub fn replay<F: Files, O: Stream, E: Stream>(
    alloc: Global,
    asked: ReplayOptions<'_>,
    names: &[&str],
    files: &mut F,
    out: &mut O,
    err: &mut E,
) -> u8
    ensures files { (name : List ℕ) → F.holds files.new name ≡ F.holds files.old name }
    ensures done { Replays F.Place.honest (replayed_of asked.entry) (map (λ n. n.now) names.now) (F.holds files.old) (writes O.contents O.failures out.old out.new) (writes E.contents E.failures err.old err.new) result }
{
    match codes_of(alloc, asked.compiling, names, files, err) {
        Ok(programs) => replay_codes(alloc, asked, programs, files, out, err),
        Err(status) => status,
    }
}
