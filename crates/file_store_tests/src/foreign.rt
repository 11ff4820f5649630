//! A folder that is none of those of `file_store`.

use cells::Want;
use file_store::Folder;
use remote_store::{Cause, Failed};
use std::alloc::Global;

/// A folder whose reads give so many bytes, and of which each write fails.
#[derive(Drop)]
pub(crate) struct Foreign {
    pub(crate) count: usize,
    pub(crate) failures: u64,
}

impl Folder for Foreign {
    type File = ();

    ghost use Rattle.std.specs.Prelude.{None};

    ghost honest = { ⊥ };

    ghost failures = { λ s. s.failures };

    ghost content = { λ _. None };

    ghost read_gives = { λ _ _ _ _. Unit {0} };

    fn make(&self, _alloc: Global) -> Result<(), Want> {
        Ok(())
    }

    fn write(&mut self, _file: &mut (), _bytes: &[u8]) -> Result<(), Failed> {
        self.failures = self.failures.wrapping_add(1);
        Err(Failed {
            cause: Cause::Untold,
        })
    }

    // Bytes 0 and 9 alone are not zero.
    fn read(&mut self, _file: &(), bytes: &mut [u8]) -> Result<usize, Failed> {
        let count = self.count.min(bytes.len());
        if count > 9 {
            bytes[0] = 1;
            bytes[9] = 2;
        }
        Ok(count)
    }
}
