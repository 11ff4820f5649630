//! A folder in memory.
ghost use Rattle.std.specs.Prelude.{◌≡◌, ◌≢◌, ℕ, ◌+◌, ◌%◌, ◌≤◌, min, true, false, List, [], Some, length, take, IfOk, IfErr, IsOk, MatchResult};

use crate::failures::Failures;
use crate::folder::{Folder, MOST_BYTES};
use cells::Want;
use remote_store::{Cause, Failed};
use std::alloc::Global;

/// A folder in memory, which may be missing. It is honest: what a file holds stands in the file itself. `failures` counts
/// the calls that failed through this value, modulo 2^64.
#[derive(Clone, Copy)]
pub struct MemFolder {
    there: bool,
    failures: Failures,
}

/// A file in memory.
#[derive(Drop)]
pub struct MemFile {
    bytes: Vec<u8>,
}

impl MemFolder {
    /// A folder that is there, through which nothing failed yet.
    pub fn new() -> MemFolder
        ensures there { result.there ≡ true }
        ensures failures { result.failures.count ≡ 0 }
    {
        MemFolder {
            there: true,
            failures: Failures::none(),
        }
    }

    /// A folder that is not there: each write and each read of its files fails.
    pub fn missing() -> MemFolder
        ensures there { result.there ≡ false }
        ensures failures { result.failures.count ≡ 0 }
    {
        MemFolder {
            there: false,
            failures: Failures::none(),
        }
    }

    /// How many calls failed through this way, modulo 2^64.
    pub fn failures(&self) -> u64
        ensures { result ≡ self.now.failures.count }
    {
        self.failures.count
    }
}

// Copies as many of the first bytes as there is room for, and gives their number.
fn copy_front(held: &[u8], bytes: &mut [u8]) -> usize
    ensures count { result ≡ min (length held.now) (length bytes.old) }
    ensures front { take result bytes.new ≡ take result held.now }
{
    let count = held.len().min(bytes.len());
    bytes[..count].copy_from_slice(&held[..count]);
    count
}

impl Folder for MemFolder {
    type File = MemFile;

    ghost use Rattle.file_store.specs.FileRows.{ReadsBytes};

    ghost honest = { Unit {0} };

    ghost failures = { λ s. s.failures.count };

    ghost content = { λ f. Some f.bytes.items };

    ghost read_gives = { λ _ f found _. found ≡ take (length found) f.bytes.items };

    fn make(&self, alloc: Global) -> Result<MemFile, Want>
        ensures wants { IfErr result (λ want. want ≢ Want.NoObjects) }
        ensures made { IsOk result }
        ensures bytes { IfOk result (λ file. file.bytes.items ≡ []) }
    {
        Ok(MemFile {
            bytes: Vec::new(alloc),
        })
    }

    fn write(&mut self, file: &mut MemFile, bytes: &[u8]) -> Result<(), Failed>
        requires { length bytes.now ≤ MOST_BYTES }
        ensures put { IfOk result (λ _. Some file.new.bytes.items ≡ Some bytes.now) }
        ensures there { IfOk result (λ _. self.old.there ≡ true) }
        ensures same { self.new.there ≡ self.old.there }
        ensures counted { MatchResult result (λ _. self.new.failures.count ≡ self.old.failures.count) (λ _. self.new.failures.count ≡ (self.old.failures.count + 1) % 18446744073709551616) }
    {
        if !self.there {
            return Err(self.failures.failed(Cause::NotFound));
        }
        file.bytes.clear();
        match file.bytes.extend_from_slice(bytes) {
            Ok(()) => Ok(()),
            Err(_refused) => Err(self.failures.failed(Cause::Full)),
        }
    }

    fn read(&mut self, file: &MemFile, bytes: &mut [u8]) -> Result<usize, Failed>
        ensures length { length bytes.new ≡ length bytes.old }
        ensures room { IfOk result (λ count. count ≤ length bytes.old) }
        ensures got { IfOk result (λ count. Unit {0} → (held : List ℕ) → Some file.now.bytes.items ≡ Some held → ReadsBytes held (take count bytes.new)) }
        ensures gave { IfOk result (λ count. take count bytes.new ≡ take (length (take count bytes.new)) file.now.bytes.items) }
        ensures count { IfOk result (λ count. count ≡ min (length file.now.bytes.items) (length bytes.old)) }
        ensures there { MatchResult result (λ _. self.old.there ≡ true) (λ _. self.old.there ≡ false) }
        ensures same { self.new.there ≡ self.old.there }
        ensures counted { MatchResult result (λ _. self.new.failures.count ≡ self.old.failures.count) (λ _. self.new.failures.count ≡ (self.old.failures.count + 1) % 18446744073709551616) }
    {
        if !self.there {
            return Err(self.failures.failed(Cause::NotFound));
        }
        let count = copy_front(&file.bytes, bytes);
        Ok(count)
    }
}
