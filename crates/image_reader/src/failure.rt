//! Why nothing is read.
ghost use Rattle.std.specs.Prelude.{◌≡◌};

use instruction_table::ImageFault;
use std::alloc::{AllocError, AllocFailed};

/// Why nothing is read: memory ran out, or the first thing that is wrong.
#[derive(Clone, Copy, Debug, PartialEq, Eq)]
pub enum Failure {
    Memory,
    Fault(ImageFault),
}

impl From<AllocError> for Failure {
    ghost use Rattle.image_reader.specs.declared.failure.Failure.TheVariants.{Memory};

    ghost from_gives = { λ _ e. e ≡ Memory };

    fn from(_: AllocError) -> Failure {
        Failure::Memory
    }
}

impl<T: Drop> From<AllocFailed<T>> for Failure {
    ghost use Rattle.image_reader.specs.declared.failure.Failure.TheVariants.{Memory};

    ghost from_gives = { λ _ e. e ≡ Memory };

    fn from(_: AllocFailed<T>) -> Failure {
        Failure::Memory
    }
}
