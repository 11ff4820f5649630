//! A store whose cells are files.
ghost use Rattle.std.specs.Prelude.{◌≡◌, ◌≢◌, ℕ, ◌+◌, ◌*◌, ◌%◌, ◌≤◌, ◌⊎◌, List, length, Some, IfOk, IsOk, IfErr, MatchResult};
ghost use Rattle.remote_store.specs.Kept.{Reads};
ghost use Rattle.file_store.specs.FileRows.{HasRoom, row_in, word_bytes};

use crate::bytes::{put_words, take_words};
use crate::failures::Failures;
use crate::folder::{Folder, MOST_BYTES};
use cells::Want;
use remote_store::{Cause, Failed, MOST_WORDS, RawStore, Stores};
use std::alloc::Global;

/// Room for the bytes of the longest row and one more, which tells a file that is longer.
const ROOM: usize = MOST_BYTES + 1;

/// One mover's way to a store of files, each of which holds the bytes of a row. A call fails where the folder fails, and a
/// read where another number of bytes comes than the row that is read has. `failures` counts both, modulo 2^64. It is honest where the folder
/// is.
#[derive(Drop)]
pub struct FileStore<D: Folder> {
    folder: D,
    failures: Failures,
}

impl<D: Folder> FileStore<D> {
    /// A store in the files of this folder, through which nothing failed yet.
    pub fn new(folder: D) -> FileStore<D>
        ensures folder { result.folder ≡ folder }
        ensures failures { result.failures.count ≡ 0 }
    {
        FileStore {
            folder,
            failures: Failures::none(),
        }
    }

    /// How many calls failed through this way, modulo 2^64.
    pub fn failures(&self) -> u64
        ensures { result ≡ self.now.failures.count }
    {
        self.failures.count
    }
}

impl<D: Folder> RawStore for FileStore<D> {
    type Cell = D::File;

    ghost honest = { D.honest };

    ghost reliable = { ⊥ };

    ghost failures = { λ s. s.failures.count };

    ghost content = { λ c. row_in (D.content c) };

    ghost read_gives = { λ before c row after. D.read_gives before.folder c (word_bytes row) after.folder };

    // A file holds rows of any length. What is written and read of it at once has room for the longest.
    ghost fits = { λ _ n. HasRoom n };

    ghost makes = { λ _ n. HasRoom n };

    fn cell(&self, alloc: Global) -> Result<D::File, Want> {
        self.folder.make(alloc)
    }

    fn write(&mut self, c: &mut D::File, w: &[u64]) -> Result<(), Failed>
        requires { length w.now ≤ MOST_WORDS }
        ensures put { IfOk result (λ _. row_in (D.content c.new) ≡ Some w.now) }
        ensures bytes { IfOk result (λ _. D.content c.new ≡ Some (word_bytes w.now)) }
        ensures sure { ⊥ → IsOk result }
        ensures counted { MatchResult result (λ _. self.new.failures.count ≡ self.old.failures.count) (λ _. self.new.failures.count ≡ (self.old.failures.count + 1) % 18446744073709551616) }
        ensures cause { MatchResult result (λ _. D.failures self.new.folder ≡ D.failures self.old.folder)
            (λ _. D.failures self.new.folder ≡ (D.failures self.old.folder + 1) % 18446744073709551616) }
    {
        let mut room = [0; MOST_BYTES];
        let bytes = &mut room[..8 * w.len()];
        put_words(w, &mut *bytes);
        match self.folder.write(c, &*bytes) {
            Ok(()) => Ok(()),
            Err(failed) => Err(self.failures.failed(failed.cause)),
        }
    }

    fn read(&mut self, c: &D::File, w: &mut [u64]) -> Result<(), Failed>
        requires { length w.old ≤ MOST_WORDS }
        ensures length { length w.new ≡ length w.old }
        ensures got { IfOk result (λ _. D.honest → (ws : List ℕ) → row_in (D.content c.now) ≡ Some ws → length ws ≡ length w.old → Reads ws w.new) }
        ensures gave { IfOk result (λ _. D.read_gives self.old.folder c.now (word_bytes w.new) self.new.folder) }
        ensures sure { ⊥ → IsOk result × ((ws : List ℕ) → row_in (D.content c.now) ≡ Some ws → length ws ≡ length w.old → w.new ≡ ws) }
        ensures counted { MatchResult result (λ _. self.new.failures.count ≡ self.old.failures.count) (λ _. self.new.failures.count ≡ (self.old.failures.count + 1) % 18446744073709551616) }
        ensures cause { MatchResult result (λ _. D.failures self.new.folder ≡ D.failures self.old.folder)
            (λ _. (w.new ≡ w.old) × ((D.failures self.new.folder ≡ (D.failures self.old.folder + 1) % 18446744073709551616)
            ⊎ ((found : List ℕ) × D.read_gives self.old.folder c.now found self.new.folder × (length found ≢ 8 * length w.old)))) }
    {
        let size = 8 * w.len();
        let mut room = [0; ROOM];
        let bytes = &mut room[..size + 1];
        let count = match self.folder.read(c, &mut *bytes) {
            Ok(count) => count,
            Err(failed) => return Err(self.failures.failed(failed.cause)),
        };
        if count != size {
            return Err(self.failures.failed(Cause::OtherLength));
        }
        take_words(&bytes[..size], w);
        Ok(())
    }
}

/// Makes each mover's way to one folder's files.
#[derive(Drop)]
pub struct FileStores<D: Folder + Clone + Send> {
    folder: D,
}

impl<D: Folder + Clone + Send> FileStores<D> {
    /// Ways to the files of this folder.
    pub fn new(folder: D) -> FileStores<D>
        ensures { result.folder ≡ folder }
    {
        FileStores { folder }
    }
}

impl<D: Folder + Clone + Send> Stores for FileStores<D> {
    type S = FileStore<D>;

    ghost makes = { λ _ n. HasRoom n };

    fn one(&self, _alloc: Global) -> Result<FileStore<D>, Want>
        ensures wants { IfErr result (λ want. want ≢ Want.NoObjects) }
        ensures folder { IfOk result (λ way. D.is_clone self.now.folder way.folder) }
        ensures failures { IfOk result (λ way. way.failures.count ≡ 0) }
    {
        match self.folder.clone() {
            Ok(folder) => Ok(FileStore {
                folder,
                failures: Failures::none(),
            }),
            Err(_refused) => Err(Want::OutOfMemory),
        }
    }
}
