//! How a run stops.
ghost use Rattle.cells.specs.Stops.{stop_of as stop_read};
ghost use Rattle.code_execution.specs.Statuses.{halt_of};
ghost use Rattle.code_form.specs.Growth.{has_text};
ghost use Rattle.std.specs.Prelude.{◌≡◌, MatchResult, true};

use cells::Stop;
use code_operations::Fault;
use std::alloc::{AllocError, Global};

/// How a run stops. The text of an error is that of the image.
#[derive(Clone, Copy)]
pub(crate) enum Halt<'a> {
    Ended(i32),
    ErrorCalled(&'a str),
    Failed(Fault),
}

impl<'a> Halt<'a> {
    /// How the program has stopped. `Err` where memory is refused for the text of an error.
    pub(crate) fn stop(self, alloc: Global) -> Result<Stop, AllocError>
        ensures { MatchResult result (λ s. stop_read s ≡ halt_of self.entry) (λ _. has_text (Some (halt_of self.entry)) ≡ true) }
    {
        match self {
            Halt::Ended(number) => Ok(Stop::Ended(number)),
            Halt::ErrorCalled(text) => Ok(Stop::ErrorCalled(String::from_str(alloc, text)?)),
            Halt::Failed(fault) => Ok(fault.stop()),
        }
    }
}
