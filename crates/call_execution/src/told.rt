//! What is told of what an instruction is to do: what it touches, and how it stops the program.
ghost use Rattle.call_execution.specs.Decisions.{decided, refuses};
ghost use Rattle.cells.specs.Stops.{stop_of as stop_read};
ghost use Rattle.code_form.specs.Code.{Frame, Running, stop_of};
ghost use Rattle.code_form.specs.declared.allocation.Allocation.{Allocation};
ghost use Rattle.code_form.specs.Touches.{resumed, touch_of};
ghost use Rattle.std.specs.Prelude.{◌≡◌, ℕ, List, MatchResult, length, option_map, true};

use crate::call::Decision;
use cells::Stop;
use code_form::Touch;
use code_operations::{Allocations, Command, number};
use std::alloc::{AllocError, Global};

impl<'a> Decision<'a> {
    /// What it touches, where so many calls wait.
    #[inline(always)]
    pub fn touch(self, allocations: &Allocations, waiting: usize) -> Touch
        ensures { (f : Frame) (st : List Frame) (o : List ℕ) → length st ≡ waiting → result ≡ touch_of (decided f st allocations.now o self.entry) }
    {
        match self {
            Decision::Does(command) => command.touch(),
            Decision::Aims { scope, aim } => Touch::Aims(scope as usize, aim.cell(allocations)),
            Decision::Loads { scope, cell, .. } => Touch::Loads(scope as usize, cell),
            Decision::Stores { scope, cell, value } => Touch::Stores(scope as usize, cell, value),
            Decision::Leaves { scope } => Touch::Leaves(scope as usize),
            Decision::Calls { .. } | Decision::Jumps(_) => Touch::Plain,
            Decision::Returns { .. } => if waiting == 0 {
                Touch::Ends
            } else {
                Touch::Plain
            },
            Decision::Errs(_) => Touch::Ends,
            Decision::Fails => Touch::Wrong,
        }
    }

    /// How it stops the program, where so many calls wait, if it does. `Err` where memory is refused for the text of an error.
    pub fn stop(self, alloc: Global, waiting: usize) -> Result<Option<Stop>, AllocError>
        ensures { (f : Frame) (st : List Frame) (al : List Allocation) (o : List ℕ) → length st ≡ waiting → MatchResult result
            (λ s. option_map stop_read s ≡ stop_of (resumed (decided f st al o self.entry) (Running f st al o) 0))
            (λ _. refuses self.entry ≡ true) }
    {
        match self {
            Decision::Does(Command::Stops(fault)) => Ok(Some(fault.stop())),
            Decision::Returns { value } if waiting == 0 => Ok(Some(Stop::Ended(number(value)))),
            Decision::Errs(text) => Ok(Some(Stop::ErrorCalled(String::from_str(alloc, text)?))),
            _ => Ok(None),
        }
    }
}
