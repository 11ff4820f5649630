//! Why no tree is read.

ghost use Rattle.std.specs.Prelude.{◌≡◌};

use std::alloc::{AllocError, AllocFailed};

/// Why no tree is read. The number says how many tokens stand from the fault's place on.
#[derive(Clone, Copy, Debug, PartialEq, Eq)]
pub enum ReadError {
    OutOfMemory,
    Syntax(usize),
    TooDeep(usize),
    TooLarge(usize),
}

impl From<AllocError> for ReadError {
    ghost use Rattle.c0_grammar_laws.specs.declared.read_error.ReadError.TheVariants.{OutOfMemory};

    ghost from_gives = { λ _ e. e ≡ OutOfMemory };

    fn from(_: AllocError) -> ReadError {
        ReadError::OutOfMemory
    }
}

impl<T: Drop> From<AllocFailed<T>> for ReadError {
    ghost use Rattle.c0_grammar_laws.specs.declared.read_error.ReadError.TheVariants.{OutOfMemory};

    ghost from_gives = { λ _ e. e ≡ OutOfMemory };

    fn from(_: AllocFailed<T>) -> ReadError {
        ReadError::OutOfMemory
    }
}
