//! Why programs are not admitted.
ghost use Rattle.region.specs.Faults.{fault_line, fault_number};
ghost use Rattle.std.specs.Prelude.{◌≡◌, Some};

use std::fmt;
use thiserror::Error;

/// Why programs are not admitted to a system. Each fault has a number.
#[derive(Clone, Copy, Debug, PartialEq, Eq, Error)]
pub enum AdmitFault {
    /// There are fewer frames than the programs, evacuators and fetchers may need at once.
    TooSmall { need: u64, have: u64 },
    /// There is no program, or some number is beyond its limit.
    TooMany,
    /// A growth was refused, or the store could not be reached.
    OutOfMemory,
    /// The pieces of this program have another size than those of program 0.
    PieceDiffers { program: u32 },
}

impl AdmitFault {
    /// The number of the fault.
    pub fn number(self) -> u8
        ensures { result ≡ fault_number self }
    {
        match self {
            AdmitFault::TooSmall { .. } => 1,
            AdmitFault::TooMany => 2,
            AdmitFault::OutOfMemory => 3,
            AdmitFault::PieceDiffers { .. } => 4,
        }
    }
}

// By hand: a `Display` that the derive of `Error` writes does not state its text. With no message it writes none.
impl fmt::Display for AdmitFault {
    ghost output = { λ fault. Some (fault_line fault) };

    fn fmt<W: fmt::Write>(&self, f: &mut fmt::Formatter<W>) -> fmt::Result {
        match self {
            AdmitFault::TooSmall { need, have } => write!(f, "too small: need {need} have {have}"),
            AdmitFault::TooMany => write!(f, "too many"),
            AdmitFault::OutOfMemory => write!(f, "out of memory"),
            AdmitFault::PieceDiffers { program } => write!(f, "piece differs: program {program}"),
        }
    }
}
