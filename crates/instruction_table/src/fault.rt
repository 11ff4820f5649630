//! What can be wrong with the bytes of an image.
ghost use Rattle.instruction_table.specs.FaultNumbers.{fault_line, fault_number};
ghost use Rattle.std.specs.Prelude.{◌≡◌, Some};

use std::alloc::{AllocError, AllocFailed};
use std::fmt;
use thiserror::Error;

/// Why bytes give no image, or an image no bytes or no listing. Each fault has a number, by which it is shown.
#[derive(Clone, Copy, Debug, PartialEq, Eq, Error)]
pub enum ImageFault {
    /// The bytes end before the image does.
    Short = 1,
    /// The bytes do not begin as those of an image.
    Magic = 2,
    /// A version that is not known.
    Version = 3,
    /// A code that no instruction has.
    BadOp = 4,
    /// A tag that no kind or no fact has, an offset in a layout, or a truth value, a character or a byte of a text out of its
    /// range.
    BadOperand = 5,
    /// Bytes behind the image.
    Trailing = 6,
    /// Memory ran out.
    OutOfMemory = 7,
}

impl ImageFault {
    /// The number of the fault.
    pub fn number(self) -> u8
        ensures { result ≡ fault_number self }
    {
        self as u8
    }
}

// By hand: a `Display` that the derive of `Error` writes does not state its text. With no message it writes none.
impl fmt::Display for ImageFault {
    ghost output = { λ fault. Some (fault_line fault) };

    fn fmt<W: fmt::Write>(&self, f: &mut fmt::Formatter<W>) -> fmt::Result {
        write!(f, "image fault {}", self.number())
    }
}

impl From<AllocError> for ImageFault {
    ghost use Rattle.instruction_table.specs.declared.fault.ImageFault.TheVariants.{OutOfMemory};

    ghost from_gives = { λ _ f. f ≡ OutOfMemory };

    fn from(_: AllocError) -> ImageFault {
        ImageFault::OutOfMemory
    }
}

impl<T: Drop> From<AllocFailed<T>> for ImageFault {
    ghost use Rattle.instruction_table.specs.declared.fault.ImageFault.TheVariants.{OutOfMemory};

    ghost from_gives = { λ _ f. f ≡ OutOfMemory };

    fn from(_: AllocFailed<T>) -> ImageFault {
        ImageFault::OutOfMemory
    }
}
