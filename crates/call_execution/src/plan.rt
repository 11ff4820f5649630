//! What an instruction is to do that aims, uses or leaves a scope.
ghost use Rattle.call_execution.specs.Decisions.{decided, uses_scope};
ghost use Rattle.call_execution.specs.Planning.{PlansEffect};
ghost use Rattle.code_form.specs.Code.{Frame};
ghost use Rattle.code_form.specs.Touches.{touch_of};
ghost use Rattle.std.specs.Prelude.{◌≡◌, ℕ, List, MatchOption, false};

use crate::aims::Aim;
use crate::call::Decision;
use code_form::Cell;
use code_operations::Allocations;

/// What the next instruction is to do, which aims, uses or leaves a scope: what it touches, and what is left to do where that is done. It holds
/// as long as nothing is done.
#[derive(Clone, Copy)]
pub enum Plan {
    /// Aims the scope; `wanted` is the cell that it is then aimed at, if there is one.
    Aims {
        scope: u8,
        aim: Aim,
        wanted: Option<Cell>,
    },
    Loads {
        scope: u8,
        to: u32,
        cell: Cell,
    },
    Stores {
        scope: u8,
        cell: Cell,
        value: u64,
    },
    Leaves {
        scope: u8,
    },
}

impl<'a> Decision<'a> {
    /// It as a plan, where it aims, uses or leaves a scope.
    #[inline(always)]
    pub fn into_plan(self, allocations: &Allocations) -> Option<Plan>
        ensures { (f : Frame) (st : List Frame) (o : List ℕ) → MatchOption result
            (uses_scope (touch_of (decided f st allocations.now o self.entry)) ≡ false)
            (λ p. PlansEffect p (decided f st allocations.now o self.entry) f st allocations.now o) }
    {
        match self {
            Decision::Aims { scope, aim } => {
                let wanted = aim.cell(allocations);
                Some(Plan::Aims { scope, aim, wanted })
            }
            Decision::Loads { scope, to, cell } => Some(Plan::Loads { scope, to, cell }),
            Decision::Stores { scope, cell, value } => Some(Plan::Stores { scope, cell, value }),
            Decision::Leaves { scope } => Some(Plan::Leaves { scope }),
            Decision::Does(_)
            | Decision::Calls { .. }
            | Decision::Jumps(_)
            | Decision::Returns { .. }
            | Decision::Errs(_)
            | Decision::Fails => None,
        }
    }
}
