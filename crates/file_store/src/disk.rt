//! A folder on a disk.
ghost use Rattle.std.specs.Prelude.{◌≡◌, ◌≢◌, ℕ, ◌+◌, ◌%◌, ◌≤◌, ◌++◌, true, false, List, Option, Some, None, cond, codes, decimal, length, take, string_bytes, IfOk, IfErr, IsOk, MatchResult};
ghost use Rattle.std.specs.Arc.{arc_value};

use crate::failures::Failures;
use crate::folder::{Folder, MOST_BYTES};
use cells::Want;
use remote_store::{Cause, Failed};
use std::alloc::{AllocError, Global};
use std::fs::{OpenFile, OpenOptions};
use std::io::{Read, Write};
use std::rt::Files;
use std::snapshot::Snapshot;
use std::sync::Arc;
use std::sync::atomic::{AtomicU64, Ordering};
use std::{fs, io};

/// How often a read is tried again that a signal interrupts.
const MOST_TRIES: u32 = 1_000_000;

/// A folder's path, and the number of the next new file.
#[derive(Drop)]
struct FolderPlace {
    path: String,
    next: AtomicU64,
}

impl FolderPlace {
    // A number for a new file. No other call draws it, until 2^64 are drawn.
    fn draw(&self) -> u64 {
        self.next.fetch_add(1, Ordering::SeqCst)
    }

    // The path of the file of this number, whose name is the number in decimal digits.
    fn file_path(&self, alloc: Global, number: u64) -> Result<String, AllocError>
        ensures { IfOk result (λ path. string_bytes path ≡ string_bytes self.now.path ++ (codes "/" ++ decimal number)) }
    {
        let path = self.path.as_str();
        format!(in alloc; "{path}/{number}")
    }
}

/// A file on a disk: its number in its folder, whether the last write of it succeeded, and how many bytes that had.
#[derive(Drop)]
pub struct DiskFile {
    number: u64,
    written: bool,
    size: usize,
    put: Snapshot<[u8; MOST_BYTES]>,
}

/// One mover's way to a folder on a disk. It takes no lock. `failures` counts the calls that failed through this value,
/// modulo 2^64. No contract tells which bytes come back: they are those that were written while nobody else writes in the
/// folder and the disk gives back what it was given. So it doesn't count as honest.
#[derive(Drop)]
pub struct DiskFolder<'a, R: Files + AllocGlobal> {
    rt: &'a R,
    place: Arc<FolderPlace>,
    failures: Failures,
}

impl<'a, R: Files + AllocGlobal> DiskFolder<'a, R> {
    /// The folder of this path, which need not be there, through which nothing failed yet. No folder has an empty path. Its new files are named from 0 on,
    /// in place of any that are there.
    pub fn new(alloc: Global, rt: &'a R, path: &str) -> Result<DiskFolder<'a, R>, AllocError>
        ensures path { IfOk result (λ made. string_bytes (arc_value made.place).path ≡ path.now) }
        ensures runtime { IfOk result (λ made. made.rt.now ≡ rt.entry.now) }
        ensures failures { IfOk result (λ made. made.failures.count ≡ 0) }
    {
        let path = String::from_str(alloc, path)?;
        let next = AtomicU64::new(0);
        let place = Arc::new(alloc, FolderPlace { path, next })?;
        Ok(DiskFolder {
            rt,
            place,
            failures: Failures::none(),
        })
    }

    /// How many calls failed through this way, modulo 2^64.
    pub fn failures(&self) -> u64
        ensures { result ≡ self.now.failures.count }
    {
        self.failures.count
    }
}

impl<'a, R: Files + AllocGlobal> Clone for DiskFolder<'a, R> {
    ghost is_clone = { λ old new. (arc_value new.place ≡ arc_value old.place) × (new.failures ≡ old.failures) };

    /// One more way to the same folder.
    fn clone(&self) -> Result<DiskFolder<'a, R>, AllocError> {
        let place = Arc::try_clone(&self.place)?;
        Ok(DiskFolder {
            rt: self.rt,
            place,
            failures: self.failures,
        })
    }
}

// What a failure of this kind is told as.
fn cause_of(kind: io::ErrorKind) -> Cause {
    match kind {
        io::ErrorKind::NotFound | io::ErrorKind::NotADirectory => Cause::NotFound,
        io::ErrorKind::PermissionDenied | io::ErrorKind::ReadOnlyFilesystem => Cause::Denied,
        io::ErrorKind::StorageFull
        | io::ErrorKind::QuotaExceeded
        | io::ErrorKind::FileTooLarge
        | io::ErrorKind::WriteZero => Cause::Full,
        io::ErrorKind::AlreadyExists | io::ErrorKind::IsADirectory => Cause::NotRegular,
        _ => Cause::Untold,
    }
}

// The bytes as clauses see them, in a room for the most. The copy is no more than that, and left out of what is built.
#[inline]
fn snapshot_of(bytes: &[u8]) -> Snapshot<[u8; MOST_BYTES]>
    requires { length bytes.now ≤ MOST_BYTES }
    ensures { take (length bytes.now) result.value ≡ bytes.now }
{
    let mut room = [0; MOST_BYTES];
    room[..bytes.len()].copy_from_slice(bytes);
    Snapshot::of(&room)
}

// A regular file of this path, to write into it, or a new one. Anything else that has the path is neither opened nor followed.
fn open_regular<R: Files>(rt: &R, path: &str) -> io::Result<R::File> {
    let mut options = OpenOptions::new();
    options.write(true);
    match fs::symlink_metadata(rt, path) {
        Ok(there) if there.is_file() => {}
        Ok(_other) => return Err(io::Error::from(io::ErrorKind::AlreadyExists)),
        Err(error) if error.kind() == io::ErrorKind::NotFound => {
            options.create_new(true);
        }
        Err(error) => return Err(error),
    }
    options.open(rt, path)
}

// Makes these bytes the whole of the file, which is opened anew. A longer file is cut off behind them and not before: a file that is emptied first has
// some file systems wait for the disk.
fn write_file<R: Files + AllocGlobal>(
    rt: &R,
    place: &FolderPlace,
    number: u64,
    bytes: &[u8],
) -> io::Result<()> {
    if place.path.is_empty() {
        return Err(io::Error::from(io::ErrorKind::NotFound));
    }
    let path = place.file_path(rt.alloc(), number)?;
    let mut file = open_regular(rt, path.as_str())?;
    file.write_all(bytes)?;
    file.set_len(bytes.len() as u64)
}

// Reads until there is no more room, or the file has ended, and gives the number of bytes that were read. What a signal interrupts is tried again.
fn fill<F: Read>(file: &mut F, bytes: &mut [u8]) -> io::Result<usize>
    ensures { IfOk result (λ count. count ≤ length bytes.old) }
{
    let mut count = 0;
    let mut interrupted = 0;
    'fill: while count < bytes.len() {
        match file.read(&mut bytes[count..]) {
            Ok(0) => break,
            Ok(more) => count += more,
            Err(error) if error.kind() == io::ErrorKind::Interrupted && interrupted < MOST_TRIES =>
                {
                    interrupted += 1;
                }
            Err(error) => return Err(error),
        }
    }
    Ok(count)
}

// Reads the file's first bytes, as many as there is room for, and gives their number.
fn read_file<R: Files + AllocGlobal>(
    rt: &R,
    place: &FolderPlace,
    number: u64,
    bytes: &mut [u8],
) -> io::Result<usize>
    ensures { IfOk result (λ count. count ≤ length bytes.old) }
{
    let path = place.file_path(rt.alloc(), number)?;
    let mut file = fs::open(rt, path.as_str())?;
    fill(&mut file, bytes)
}

impl<'a, R: Files + AllocGlobal> Folder for DiskFolder<'a, R> {
    type File = DiskFile;

    ghost use Rattle.file_store.specs.FileRows.{ReadsBytes};

    ghost honest = { ⊥ };

    ghost failures = { λ s. s.failures.count };

    ghost content = { λ f. cond f.written (Some (take f.size f.put.value)) None };

    ghost read_gives = { λ _ f _ _. f.written ≡ true };

    // The file itself is made by the first write of it.
    fn make(&self, _alloc: Global) -> Result<DiskFile, Want>
        ensures wants { IfErr result (λ want. want ≢ Want.NoObjects) }
        ensures made { IsOk result }
        ensures written { IfOk result (λ file. file.written ≡ false) }
    {
        Ok(DiskFile {
            number: self.place.draw(),
            written: false,
            size: 0,
            put: Snapshot::of(&[0; MOST_BYTES]),
        })
    }

    fn write(&mut self, file: &mut DiskFile, bytes: &[u8]) -> Result<(), Failed>
        requires { length bytes.now ≤ MOST_BYTES }
        ensures put { IfOk result (λ _. cond file.new.written (Some (take file.new.size file.new.put.value)) None ≡ Some bytes.now) }
        ensures written { MatchResult result (λ _. file.new.written ≡ true) (λ _. file.new.written ≡ false) }
        ensures number { file.new.number ≡ file.old.number }
        ensures counted { MatchResult result (λ _. self.new.failures.count ≡ self.old.failures.count) (λ _. self.new.failures.count ≡ (self.old.failures.count + 1) % 18446744073709551616) }
    {
        file.size = bytes.len();
        file.put = snapshot_of(bytes);
        match write_file(self.rt, &self.place, file.number, bytes) {
            Ok(()) => {
                file.written = true;
                Ok(())
            }
            Err(error) => {
                file.written = false;
                Err(self.failures.failed(cause_of(error.kind())))
            }
        }
    }

    // A file that was not written yet may be an old one of this name, so it is not read.
    fn read(&mut self, file: &DiskFile, bytes: &mut [u8]) -> Result<usize, Failed>
        ensures length { length bytes.new ≡ length bytes.old }
        ensures room { IfOk result (λ count. count ≤ length bytes.old) }
        ensures got { IfOk result (λ count. ⊥ → (held : List ℕ) → cond file.now.written (Some (take file.now.size file.now.put.value)) None ≡ Some held → ReadsBytes held (take count bytes.new)) }
        ensures gave { IfOk result (λ _. file.now.written ≡ true) }
        ensures counted { MatchResult result (λ _. self.new.failures.count ≡ self.old.failures.count) (λ _. self.new.failures.count ≡ (self.old.failures.count + 1) % 18446744073709551616) }
    {
        if !file.written {
            return Err(self.failures.failed(Cause::Untold));
        }
        match read_file(self.rt, &self.place, file.number, bytes) {
            Ok(count) => Ok(count),
            Err(error) => Err(self.failures.failed(cause_of(error.kind()))),
        }
    }
}
