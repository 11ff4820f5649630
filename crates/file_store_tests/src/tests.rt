//! The two ways of each test.
ghost use Rattle.cells.specs.Pieces.{cells_in};
ghost use Rattle.std.specs.Prelude.{◌≡◌, ◌+◌, ◌≤◌, ℕ, length, IfOk};

use crate::disk::Disk;
use crate::foreign::Foreign;
use crate::play::play;
use crate::rows::{Over, sized};
use crate::ways::{BerthWay, Counted, FolderWay, LyingWay, PortWay, StoreWay};
use cells::{Piece, Want};
use file_store::{FileStore, FileStores, Folder, MemFolder};
use remote_store::{
    FarHeap, FaultPlan, FaultStore, FaultStores, HEADER_WORDS, Lie, LyingStore, LyingStores,
    RawStore, Stores,
};
use std::alloc::Global;
use std::io;
use std::io::Write;

/// The way that a test begins with, and the other.
type Two<W> = (W, W);

/// Two ways through ports to the files of this folder.
fn ports<D: Folder + Clone + Send>(alloc: Global, folder: D) -> Result<Two<PortWay<D>>, Want> {
    let stores = FileStores::new(folder);
    let first = PortWay::new(alloc, stores.one(alloc)?)?;
    let other = PortWay::new(alloc, stores.one(alloc)?)?;
    Ok((first, other))
}

/// Two ways to new cells of these stores.
fn cells_of<S: RawStore + Counted>(
    alloc: Global,
    first: S,
    other: S,
) -> Result<Two<StoreWay<S>>, Want>
    ensures { IfOk result (λ two. (n : ℕ) → S.makes first n → S.makes other n → S.fits two.0.cell n × S.fits two.1.cell n) }
{
    let first = StoreWay::new(alloc, first)?;
    let other = StoreWay::new(alloc, other)?;
    Ok((first, other))
}

/// Two ways to a store in memory, of which the call of this number fails.
fn planned(
    alloc: Global,
    number: u64,
) -> Result<Two<StoreWay<FaultStore<FileStore<MemFolder>>>>, Want> {
    let files = FileStores::new(MemFolder::new());
    let Ok(stores) = FaultStores::new(alloc, files, FaultPlan::Only(number)) else {
        return Err(Want::OutOfMemory);
    };
    cells_of(alloc, stores.one(alloc)?, stores.one(alloc)?)
}

/// Two ways to a store in memory for pieces of this size that fails by this plan.
fn heaps(
    alloc: Global,
    piece: Piece,
    plan: FaultPlan,
) -> Result<(FaultStore<FarHeap>, FaultStore<FarHeap>), Want>
    ensures { IfOk result (λ two. (two.0.store.words ≡ cells_in piece + 3) × (two.1.store.words ≡ cells_in piece + 3)) }
{
    let Ok(stores) = FaultStores::new(alloc, FarHeap::new(piece), plan) else {
        return Err(Want::OutOfMemory);
    };
    Ok((stores.one(alloc)?, stores.one(alloc)?))
}

/// Two ways through ports to such a store.
fn heap_ports(
    alloc: Global,
    piece: Piece,
    plan: FaultPlan,
) -> Result<Two<BerthWay<FaultStore<FarHeap>>>, Want>
    ensures { IfOk result (λ two. (length two.0.berth.cell.row.items ≡ cells_in piece + 3) × (length two.1.berth.cell.row.items ≡ cells_in piece + 3)) }
{
    let (first, other) = heaps(alloc, piece, plan)?;
    Ok((BerthWay::new(alloc, first)?, BerthWay::new(alloc, other)?))
}

/// Two ways to a store in memory for pieces of this size that tells this lie by this plan.
fn lying(
    alloc: Global,
    piece: Piece,
    lie: Lie,
    plan: FaultPlan,
) -> Result<Two<LyingStore<FarHeap>>, Want>
    ensures { IfOk result (λ two. (two.0.store.words ≡ cells_in piece + 3) × (two.1.store.words ≡ cells_in piece + 3)) }
{
    let Ok(stores) = LyingStores::new(alloc, FarHeap::new(piece), lie, plan) else {
        return Err(Want::OutOfMemory);
    };
    Ok((stores.one(alloc)?, stores.one(alloc)?))
}

/// Two ways through ports to such a store.
fn lying_ports(
    alloc: Global,
    piece: Piece,
    lie: Lie,
    plan: FaultPlan,
) -> Result<Two<LyingWay>, Want>
    ensures first { IfOk result (λ two. (length two.0.even.cell.cell.row.items ≡ cells_in piece + 3) × (length two.0.odd.cell.cell.row.items ≡ cells_in piece + 3)) }
    ensures other { IfOk result (λ two. (length two.1.even.cell.cell.row.items ≡ cells_in piece + 3) × (length two.1.odd.cell.cell.row.items ≡ cells_in piece + 3)) }
{
    let (first, other) = lying(alloc, piece, lie, plan)?;
    Ok((LyingWay::new(alloc, first)?, LyingWay::new(alloc, other)?))
}

/// Two ways to such a store.
fn heap_stores(
    alloc: Global,
    piece: Piece,
    plan: FaultPlan,
) -> Result<Two<StoreWay<FaultStore<FarHeap>>>, Want>
    ensures { IfOk result (λ two. (length two.0.cell.row.items ≡ cells_in piece + 3) × (length two.1.cell.row.items ≡ cells_in piece + 3)) }
{
    let (first, other) = heaps(alloc, piece, plan)?;
    cells_of(alloc, first, other)
}

/// Two stores, each in a folder whose reads give so many bytes.
fn foreign(alloc: Global, count: usize) -> Result<Two<StoreWay<FileStore<Foreign>>>, Want> {
    let first = FileStore::new(Foreign { count, failures: 0 });
    let other = FileStore::new(Foreign { count, failures: 0 });
    cells_of(alloc, first, other)
}

/// Two ways to this folder.
fn folders<D: Folder + Counted + Clone>(
    alloc: Global,
    folder: D,
) -> Result<Two<FolderWay<D>>, Want> {
    let Ok(other) = folder.clone() else {
        return Err(Want::OutOfMemory);
    };
    Ok((
        FolderWay::new(alloc, folder)?,
        FolderWay::new(alloc, other)?,
    ))
}

/// Does the rows of a test over this, with the words of a piece of this size: its cells through ports, and a whole row else.
fn test<O: Write>(
    disk: &Disk,
    piece: Piece,
    over: Over,
    rows: &[&str],
    out: &mut O,
) -> io::Result<()> {
    let alloc = disk.alloc();
    let cells = piece.cells();
    let row = cells + HEADER_WORDS;
    match over {
        Over::PortsOfMemory => play(disk, ports(alloc, MemFolder::new()), cells, rows, out),
        Over::PortsOfMissing => play(disk, ports(alloc, MemFolder::missing()), cells, rows, out),
        Over::PortsOfDisk(old) => play(disk, ports(alloc, disk.make(old, row)?), cells, rows, out),
        Over::StoresOfForeign(count) => play(disk, foreign(alloc, count), row, rows, out),
        Over::PlannedStores(number) => play(disk, planned(alloc, number), row, rows, out),
        Over::PortsOfHeap(plan) => play(disk, heap_ports(alloc, piece, plan), cells, rows, out),
        Over::PortsOfLying(lie, plan) => {
            play(disk, lying_ports(alloc, piece, lie, plan), cells, rows, out)
        }
        Over::StoresOfHeap(plan) => play(disk, heap_stores(alloc, piece, plan), row, rows, out),
        Over::MissingFolder => play(disk, folders(alloc, MemFolder::missing()), row, rows, out),
        Over::DiskFolder(old) => play(disk, folders(alloc, disk.make(old, row)?), row, rows, out),
    }
}

/// Does each test of this text.
pub(crate) fn go_through<O: Write>(disk: &Disk, text: &str, out: &mut O) -> io::Result<()> {
    for part in text.split('=').skip(1) {
        let lines: Vec<&str> = part.trim().split('\n').collect(disk.alloc())?;
        let Some((title, rows)) = lines.split_first() else {
            continue;
        };
        writeln!(out, "= {title}")?;
        let words: Vec<&str> = title.split(' ').collect(disk.alloc())?;
        let (piece, words) = sized(&words);
        if let Some(over) = Over::of(words) {
            test(disk, piece, over, rows, out)?;
        }
    }
    Ok(())
}
