//! Faults of simple instructions.
ghost use Rattle.cells.specs.Stops.{stop_of as stop_read};
ghost use Rattle.code_operations.specs.Commands.{fault_of};
ghost use Rattle.std.specs.Prelude.{◌≡◌};

use cells::Stop;

/// A fault of a simple instruction.
#[derive(Clone, Copy)]
pub enum Fault {
    AssertFailed,
    Null,
    Bounds,
    Length,
    Arith,
}

impl Fault {
    /// How it stops the program.
    pub fn stop(self) -> Stop
        ensures { stop_read result ≡ fault_of self }
    {
        match self {
            Fault::AssertFailed => Stop::AssertFailed,
            Fault::Null => Stop::NullFault,
            Fault::Bounds => Stop::BoundsFault,
            Fault::Length => Stop::LengthFault,
            Fault::Arith => Stop::ArithFault,
        }
    }
}
