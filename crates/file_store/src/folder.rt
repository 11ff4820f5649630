//! Files, each of which holds the bytes of one row.
ghost use Rattle.std.specs.Prelude.{◌≡◌, ◌≢◌, ℕ, ◌+◌, ◌%◌, ◌≤◌, List, Option, Some, length, take, IfOk, IfErr, MatchResult};

use cells::Want;
use remote_store::{Failed, MOST_WORDS};
use std::alloc::Global;

/// The most bytes of a row: eight for each of its words.
pub const MOST_BYTES: usize = 8 * MOST_WORDS;

/// One mover's way to a folder of files. `content` is what a file holds: the bytes of the last write of it, where that
/// succeeded. An `honest` folder reads back those bytes, or another number of them, or bytes of another header. `failures`
/// counts the calls that failed through this value, modulo 2^64. `read_gives` tells which bytes a read of a file gave, by the
/// folder before it and after it.
pub trait Folder: Drop {
    type File: Send + Drop;

    ghost use Rattle.file_store.specs.FileRows.{ReadsBytes};

    ghost honest: { Type 0 };

    ghost failures: { Self → ℕ };

    ghost content: { Self.File → Option (List ℕ) };

    ghost read_gives: { Self → Self.File → List ℕ → Self → Type 0 };

    /// A new file. `OutOfMemory` where a growth is refused, `StoreFailed` where the folder has no more. It may succeed where
    /// there is no such folder.
    fn make(&self, alloc: Global) -> Result<Self::File, Want>
        ensures { IfErr result (λ want. want ≢ Want.NoObjects) };

    /// Makes these bytes the whole of the file. After a failure nothing is known of what the file holds.
    fn write(&mut self, file: &mut Self::File, bytes: &[u8]) -> Result<(), Failed>
        requires { length bytes.now ≤ MOST_BYTES }
        ensures put { IfOk result (λ _. content file.new ≡ Some bytes.now) }
        ensures counted { MatchResult result (λ _. failures self.new ≡ failures self.old) (λ _. failures self.new ≡ (failures self.old + 1) % 18446744073709551616) };

    /// Reads the file's first bytes, as many as there is room for, and gives their number. After a failure `bytes` may hold
    /// any bytes.
    fn read(&mut self, file: &Self::File, bytes: &mut [u8]) -> Result<usize, Failed>
        ensures length { length bytes.new ≡ length bytes.old }
        ensures room { IfOk result (λ count. count ≤ length bytes.old) }
        ensures got { IfOk result (λ count. honest → (held : List ℕ) → content file.now ≡ Some held → ReadsBytes held (take count bytes.new)) }
        ensures gave { IfOk result (λ count. read_gives self.old file.now (take count bytes.new) self.new) }
        ensures counted { MatchResult result (λ _. failures self.new ≡ failures self.old) (λ _. failures self.new ≡ (failures self.old + 1) % 18446744073709551616) };
}
