//! The numbers of a system, and what makes its stores.
ghost use Rattle.std.specs.Prelude.{◌≢◌, ℕ, IfErr, IfOk};

use crate::raw::RawStore;
use cells::Want;
use std::alloc::Global;

/// Makes each mover's way to one store. `makes` tells of how many words the rows may be that its cells hold.
pub trait Stores {
    type S: RawStore + Send + Drop;

    ghost makes: { Self → ℕ → Type 0 };

    /// One more way to the store. `OutOfMemory` where a growth is refused, `StoreFailed` where the store can't be reached.
    fn one(&self, alloc: Global) -> Result<Self::S, Want>
        ensures wants { IfErr result (λ want. want ≢ Want.NoObjects) }
        ensures makes { IfOk result (λ s. (n : ℕ) → makes self.now n → Self.S.makes s n) };
}

/// How many frames, objects, evacuators, fetchers and workers a system has, how many instructions a worker runs at once of one program, and its stores.
#[derive(Drop)]
pub struct Config<M: Stores + Drop> {
    pub frames: u32,
    pub objects: u32,
    pub evacuators: u32,
    pub fetchers: u32,
    pub workers: u32,
    pub quantum: u32,
    pub stores: M,
}
