//! What can be wrong with an image.
ghost use Rattle.scope_verifier_laws.specs.FaultNumbers.{fault_line, fault_number};
ghost use Rattle.std.specs.Prelude.{◌≡◌, Some};

use std::alloc::{AllocError, AllocFailed};
use std::fmt;
use thiserror::Error;

/// Why an image is not accepted. Each fault has a number, by which it is shown.
#[derive(Clone, Copy, Debug, PartialEq, Eq, Error)]
pub enum VerifyFault {
    /// A load or a store by a scope that is not aimed.
    NotAimed = 1,
    /// A load or a store of a place that was not checked, or of a cell that the layout does not have.
    NotChecked = 2,
    /// A scope that may be open at a call, a return or an allocation.
    OpenScope = 3,
    /// A function with more than four scopes, or the number of a scope that its function does not have.
    TooManyScopes = 4,
    /// The number of a block that is not there, a function without blocks, or a block that does not end in its one instruction that leads out of it.
    OutOfCode = 5,
    /// Any other number of what is not there, or something of a kind that does not fit.
    OperandKind = 6,
    /// Entry facts of a block that do not hold where it is entered.
    EntryFacts = 7,
    /// Memory ran out.
    OutOfMemory = 8,
}

impl VerifyFault {
    /// The number of the fault.
    pub fn number(self) -> u8
        ensures { result ≡ fault_number self }
    {
        self as u8
    }
}

// By hand: a `Display` that the derive of `Error` writes does not state its text. With no message it writes none.
impl fmt::Display for VerifyFault {
    ghost output = { λ fault. Some (fault_line fault) };

    fn fmt<W: fmt::Write>(&self, f: &mut fmt::Formatter<W>) -> fmt::Result {
        write!(f, "verify fault {}", self.number())
    }
}

impl From<AllocError> for VerifyFault {
    ghost use Rattle.scope_verifier_laws.specs.declared.fault.VerifyFault.TheVariants.{OutOfMemory};

    ghost from_gives = { λ _ f. f ≡ OutOfMemory };

    fn from(_: AllocError) -> VerifyFault {
        VerifyFault::OutOfMemory
    }
}

impl<T: Drop> From<AllocFailed<T>> for VerifyFault {
    ghost use Rattle.scope_verifier_laws.specs.declared.fault.VerifyFault.TheVariants.{OutOfMemory};

    ghost from_gives = { λ _ f. f ≡ OutOfMemory };

    fn from(_: AllocFailed<T>) -> VerifyFault {
        VerifyFault::OutOfMemory
    }
}
