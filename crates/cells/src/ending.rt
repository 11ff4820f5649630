//! How a program ends, and what a run can want.
ghost use Rattle.std.specs.Prelude.{Some};
ghost use Rattle.cells.specs.Lines.{run_line, stop_line, want_line};

use std::fmt;
use thiserror::Error;

/// How a program stops.
#[derive(Debug, PartialEq, Eq, Drop)]
pub enum Stop {
    /// `main` returned this number.
    Ended(i32),
    /// A condition of `assert` or of a checked contract was false.
    AssertFailed,
    /// `error` was called with this text, which is no part of the output.
    ErrorCalled(String),
    /// NULL was dereferenced.
    NullFault,
    /// An index was below 0 or not below the array's length.
    BoundsFault,
    /// An array of a negative length was asked for.
    LengthFault,
    /// A division or a shift had no value.
    ArithFault,
}

/// What a run can want; it then ends without a stop.
#[derive(Clone, Copy, Debug, PartialEq, Eq, Error)]
pub enum Want {
    /// A growth of memory was refused.
    OutOfMemory = 1,
    /// An allocation's pieces don't fit in what is left of the program's share of objects.
    NoObjects = 2,
    /// A call of the program's own to the store failed.
    StoreFailed = 3,
}

/// Where a run is after some instructions.
#[derive(Debug, PartialEq, Eq, Drop)]
pub enum Run {
    Running,
    Stopped(Stop),
    Wanted(Want),
}

/// A program's end: what it printed, how it ended, and how many instructions it completed.
#[derive(Debug, Drop)]
pub struct Ended {
    pub output: Vec<u8>,
    pub run: Run,
    pub completed: u64,
}

impl fmt::Display for Stop {
    ghost output = { λ stop. Some (stop_line stop) };

    fn fmt<W: fmt::Write>(&self, f: &mut fmt::Formatter<W>) -> fmt::Result {
        match self {
            Stop::Ended(number) => write!(f, "result: {number}"),
            Stop::AssertFailed => write!(f, "assertion failed"),
            Stop::ErrorCalled(text) => write!(f, "error: {text}"),
            Stop::NullFault => write!(f, "null fault"),
            Stop::BoundsFault => write!(f, "bounds fault"),
            Stop::LengthFault => write!(f, "length fault"),
            Stop::ArithFault => write!(f, "arithmetic fault"),
        }
    }
}

// By hand: a `Display` that the derive of `Error` writes does not state its text. With no message it writes none.
impl fmt::Display for Want {
    ghost output = { λ want. Some (want_line want) };

    fn fmt<W: fmt::Write>(&self, f: &mut fmt::Formatter<W>) -> fmt::Result {
        match self {
            Want::OutOfMemory => write!(f, "out of memory"),
            Want::NoObjects => write!(f, "no objects"),
            Want::StoreFailed => write!(f, "store failed"),
        }
    }
}

impl fmt::Display for Run {
    ghost output = { λ run. Some (run_line run) };

    fn fmt<W: fmt::Write>(&self, f: &mut fmt::Formatter<W>) -> fmt::Result {
        match self {
            Run::Running => write!(f, "running"),
            Run::Stopped(stop) => write!(f, "{stop}"),
            Run::Wanted(want) => write!(f, "{want}"),
        }
    }
}
