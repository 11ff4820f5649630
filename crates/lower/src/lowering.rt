//! Structured code of typed programs.
ghost use Rattle.c0_source.specs.FaultNumbers.{memory_fault};
ghost use Rattle.c0_typed.specs.Typing.{FitsProgram};
ghost use Rattle.c0_typed.specs.Views.{program_of};
ghost use Rattle.lower_tables.specs.Gathered.{singles_of};
ghost use Rattle.lower.specs.Laws.{MeansTheSame};
ghost use Rattle.lower.specs.Lowered.{lowered as lowered_with};
ghost use Rattle.middle_form.specs.Views.{program_of as program_read};
ghost use Rattle.std.specs.Prelude.{◌≡◌, IfErr, IfOk};

use crate::laws::lowered_means_the_same;
use crate::program::lowered;
use c0_source::fault::Fault;
use c0_typed::Typed;
use middle_form::Middle;
use std::alloc::Global;

/// The structured code of a well-typed program, which is the one of the definition: for every number of turns it prints the same and stops or is cut alike. `checks` tells
/// whether contracts are checked; each `ensures` stands once, where all returns of its function meet. The only fault is 50, where
/// memory is refused, or a function has more registers than numbers of 32 bits tell apart.
pub fn lower(alloc: Global, typed: &Typed, checks: bool) -> Result<Middle, Fault>
    requires { FitsProgram (program_of typed.now) }
    ensures exact { IfOk result (λ m. program_read m ≡ lowered_with (singles_of typed.now) checks typed.now) }
    ensures same { IfOk result (λ m. MeansTheSame typed.now checks (program_read m)) }
    ensures refused { IfErr result (λ f. f ≡ memory_fault) }
{
    lowered_means_the_same();
    Ok(lowered(alloc, typed, checks)?)
}
