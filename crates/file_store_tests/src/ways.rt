//! Ways to write words and to read them, one for each level.
ghost use Rattle.std.specs.Prelude.{◌≡◌, ◌≤◌, ◌+◌, ℕ, length, IfOk};

use crate::foreign::Foreign;
use byteorder::{ByteOrder, LittleEndian};
use cells::Want;
use file_store::{
    DiskFolder, FileStore, Folder, MOST_BYTES, MemFolder, get_from_file, put_into_file,
};
use remote_store::{
    Berth, Failed, FarCell, FarHeap, FaultStore, LyingCell, LyingStore, Port, RawStore, Refusal,
};
use std::alloc::Global;
use std::fmt;

/// What a way has counted.
#[derive(Clone, Copy)]
pub(crate) enum Counts {
    /// The version of the berth, how many puts and gets were refused, and how many calls of the store failed.
    Port(u64, u64, u64),
    /// The versions of two berths, how many puts and gets were refused, and how many reads of the store lied.
    Lying(u64, u64, u64, u64),
    /// How many calls failed.
    Store(u64),
    /// How many calls failed, and how many bytes the last read gave.
    Folder(u64, usize),
}

impl fmt::Display for Counts {
    fn fmt<W: fmt::Write>(&self, f: &mut fmt::Formatter<W>) -> fmt::Result {
        match self {
            Counts::Port(version, refusals, failures) => write!(
                f,
                "version {version}, refusals {refusals}, failures {failures}"
            ),
            Counts::Lying(even, odd, refusals, lies) => write!(
                f,
                "versions {even} and {odd}, refusals {refusals}, lies {lies}"
            ),
            Counts::Store(failures) => write!(f, "failures {failures}"),
            Counts::Folder(failures, count) => write!(f, "failures {failures}, bytes {count}"),
        }
    }
}

/// A way to a place for words. `takes` tells how many words it may write or read at once, which no call changes.
pub(crate) trait Way: Drop {
    ghost takes: { Self → ℕ → Type 0 };

    /// Writes the words, at a port as those of this object.
    fn put(&mut self, object: usize, words: &[u64]) -> Result<(), Failed>
        requires { takes self.old (length words.now) }
        ensures { (n : ℕ) → takes self.old n → takes self.new n };

    /// Reads words, at a port those of this object.
    fn get(&mut self, object: usize, words: &mut [u64]) -> Result<(), Refusal>
        requires { takes self.old (length words.old) }
        ensures takes { (n : ℕ) → takes self.old n → takes self.new n }
        ensures length { length words.new ≡ length words.old };

    /// What it has counted.
    fn counts(&self) -> Counts;
}

/// A berth in files, and a port to them.
#[derive(Drop)]
pub(crate) struct PortWay<D: Folder> {
    port: Port<FileStore<D>>,
    berth: Berth<D::File>,
}

impl<D: Folder> PortWay<D> {
    /// A berth in a new file of this store.
    pub(crate) fn new(alloc: Global, store: FileStore<D>) -> Result<PortWay<D>, Want> {
        let cell = store.cell(alloc)?;
        Ok(PortWay {
            port: Port::new(store),
            berth: Berth::new(cell),
        })
    }
}

/// The methods of `Way`, which the checker doesn't cover in an `impl` of a trait for every folder.
impl<D: Folder> PortWay<D> {
    fn put_cells(&mut self, object: usize, words: &[u64]) -> Result<(), Failed>
        requires { length words.now ≤ 256 }
    {
        put_into_file(&mut self.berth, &mut self.port, object, words)
    }

    // Nothing is asked of a berth into which nothing was put.
    fn get_cells(&mut self, object: usize, words: &mut [u64]) -> Result<(), Refusal>
        requires { length words.old ≤ 256 }
        ensures { length words.new ≡ length words.old }
    {
        if self.berth.version == 0 {
            return Err(Refusal::Wrong);
        }
        get_from_file(&self.berth, &mut self.port, object, words)
    }

    fn counted(&self) -> Counts {
        Counts::Port(
            self.berth.version,
            self.port.refusals().count,
            self.port.store().failures(),
        )
    }
}

impl Way for PortWay<MemFolder> {
    ghost takes = { λ _ n. n ≤ 256 };

    fn put(&mut self, object: usize, words: &[u64]) -> Result<(), Failed> {
        self.put_cells(object, words)
    }

    fn get(&mut self, object: usize, words: &mut [u64]) -> Result<(), Refusal> {
        self.get_cells(object, words)
    }

    fn counts(&self) -> Counts {
        self.counted()
    }
}

impl<'a> Way for PortWay<DiskFolder<'a, HostRuntime>> {
    ghost takes = { λ _ n. n ≤ 256 };

    fn put(&mut self, object: usize, words: &[u64]) -> Result<(), Failed> {
        self.put_cells(object, words)
    }

    fn get(&mut self, object: usize, words: &mut [u64]) -> Result<(), Refusal> {
        self.get_cells(object, words)
    }

    fn counts(&self) -> Counts {
        self.counted()
    }
}

/// A berth in a store, and a port to it.
#[derive(Drop)]
pub(crate) struct BerthWay<S: RawStore + Counted> {
    port: Port<S>,
    berth: Berth<S::Cell>,
}

impl<S: RawStore + Counted> BerthWay<S> {
    /// A berth in a new cell of this store.
    pub(crate) fn new(alloc: Global, store: S) -> Result<BerthWay<S>, Want>
        ensures { IfOk result (λ way. (n : ℕ) → S.makes store n → S.fits way.berth.cell n) }
    {
        let cell = store.cell(alloc)?;
        Ok(BerthWay {
            port: Port::new(store),
            berth: Berth::new(cell),
        })
    }
}

impl Way for BerthWay<FaultStore<FarHeap>> {
    ghost takes = { λ w n. (n ≤ 256) × (length w.berth.cell.row.items ≡ n + 3) };

    fn put(&mut self, object: usize, words: &[u64]) -> Result<(), Failed> {
        self.berth.put(&mut self.port, object, words)
    }

    // Nothing is asked of a berth into which nothing was put.
    fn get(&mut self, object: usize, words: &mut [u64]) -> Result<(), Refusal> {
        if self.berth.version == 0 {
            return Err(Refusal::Wrong);
        }
        self.berth.get(&mut self.port, object, words)
    }

    fn counts(&self) -> Counts {
        Counts::Port(
            self.berth.version,
            self.port.refusals().count,
            self.port.store().failed_calls(),
        )
    }
}

/// Two berths in a store that lies, one for objects with even numbers and one for the others, and a port to it.
#[derive(Drop)]
pub(crate) struct LyingWay {
    port: Port<LyingStore<FarHeap>>,
    even: Berth<LyingCell<FarCell>>,
    odd: Berth<LyingCell<FarCell>>,
}

impl LyingWay {
    /// Two berths in new cells of this store.
    pub(crate) fn new(alloc: Global, store: LyingStore<FarHeap>) -> Result<LyingWay, Want>
        ensures { IfOk result (λ way. (length way.even.cell.cell.row.items ≡ store.store.words) × (length way.odd.cell.cell.row.items ≡ store.store.words)) }
    {
        let even = store.cell(alloc)?;
        let odd = store.cell(alloc)?;
        Ok(LyingWay {
            port: Port::new(store),
            even: Berth::new(even),
            odd: Berth::new(odd),
        })
    }
}

/// Gets the object's words from this berth. Nothing is asked of one into which nothing was put.
fn get_of(
    berth: &Berth<LyingCell<FarCell>>,
    port: &mut Port<LyingStore<FarHeap>>,
    object: usize,
    words: &mut [u64],
) -> Result<(), Refusal>
    requires most { length words.old ≤ 256 }
    requires fits { length berth.now.cell.cell.row.items ≡ length words.old + 3 }
    ensures { length words.new ≡ length words.old }
{
    if berth.version == 0 {
        return Err(Refusal::Wrong);
    }
    berth.get(port, object, words)
}

impl Way for LyingWay {
    ghost takes = { λ w n. (n ≤ 256) × (length w.even.cell.cell.row.items ≡ n + 3) × (length w.odd.cell.cell.row.items ≡ n + 3) };

    fn put(&mut self, object: usize, words: &[u64]) -> Result<(), Failed> {
        if object % 2 == 0 {
            self.even.put(&mut self.port, object, words)
        } else {
            self.odd.put(&mut self.port, object, words)
        }
    }

    fn get(&mut self, object: usize, words: &mut [u64]) -> Result<(), Refusal> {
        if object % 2 == 0 {
            get_of(&self.even, &mut self.port, object, words)
        } else {
            get_of(&self.odd, &mut self.port, object, words)
        }
    }

    fn counts(&self) -> Counts {
        Counts::Lying(
            self.even.version,
            self.odd.version,
            self.port.refusals().count,
            self.port.store().lies(),
        )
    }
}

/// A store or a folder that tells how many of its calls failed.
pub(crate) trait Counted {
    /// How many calls failed.
    fn failed_calls(&self) -> u64;
}

impl Counted for FileStore<Foreign> {
    fn failed_calls(&self) -> u64 {
        self.failures()
    }
}

impl Counted for FaultStore<FileStore<MemFolder>> {
    fn failed_calls(&self) -> u64 {
        self.failures()
    }
}

impl Counted for FaultStore<FarHeap> {
    fn failed_calls(&self) -> u64 {
        self.failures()
    }
}

/// A store, and a cell of it.
#[derive(Drop)]
pub(crate) struct StoreWay<S: RawStore + Counted> {
    store: S,
    cell: S::Cell,
}

impl<S: RawStore + Counted> StoreWay<S> {
    /// A new cell of this store.
    pub(crate) fn new(alloc: Global, store: S) -> Result<StoreWay<S>, Want>
        ensures { IfOk result (λ way. (n : ℕ) → S.makes store n → S.fits way.cell n) }
    {
        let cell = store.cell(alloc)?;
        Ok(StoreWay { store, cell })
    }
}

impl<S: RawStore + Counted> Way for StoreWay<S> {
    ghost takes = { λ w n. S.fits w.cell n };

    fn put(&mut self, _object: usize, words: &[u64]) -> Result<(), Failed> {
        self.store.write(&mut self.cell, words)
    }

    fn get(&mut self, _object: usize, words: &mut [u64]) -> Result<(), Refusal> {
        match self.store.read(&self.cell, words) {
            Ok(()) => Ok(()),
            Err(_failed) => Err(Refusal::Failed),
        }
    }

    fn counts(&self) -> Counts {
        Counts::Store(self.store.failed_calls())
    }
}

impl Counted for MemFolder {
    fn failed_calls(&self) -> u64 {
        self.failures()
    }
}

impl<'a> Counted for DiskFolder<'a, HostRuntime> {
    fn failed_calls(&self) -> u64 {
        self.failures()
    }
}

/// A folder, and a file of it.
#[derive(Drop)]
pub(crate) struct FolderWay<D: Folder + Counted> {
    folder: D,
    file: D::File,
    given: usize,
}

impl<D: Folder + Counted> FolderWay<D> {
    /// A new file of this folder.
    pub(crate) fn new(alloc: Global, folder: D) -> Result<FolderWay<D>, Want> {
        let file = folder.make(alloc)?;
        Ok(FolderWay {
            folder,
            file,
            given: 0,
        })
    }
}

impl<D: Folder + Counted> Way for FolderWay<D> {
    ghost takes = { λ _ n. n ≤ 259 };

    fn put(&mut self, _object: usize, words: &[u64]) -> Result<(), Failed> {
        let mut room = [0; MOST_BYTES];
        let bytes = &mut room[..8 * words.len()];
        LittleEndian::write_u64_into(words, &mut *bytes);
        self.folder.write(&mut self.file, &*bytes)
    }

    fn get(&mut self, _object: usize, words: &mut [u64]) -> Result<(), Refusal> {
        let mut room = [0; MOST_BYTES];
        let bytes = &mut room[..8 * words.len()];
        let Ok(given) = self.folder.read(&self.file, &mut *bytes) else {
            return Err(Refusal::Failed);
        };
        self.given = given;
        LittleEndian::read_u64_into(&*bytes, words);
        Ok(())
    }

    fn counts(&self) -> Counts {
        Counts::Folder(self.folder.failed_calls(), self.given)
    }
}
