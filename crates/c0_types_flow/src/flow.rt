//! Which locals are assigned on each path of a function, and whether each path ends in `return` or `error`.

ghost use Rattle.std.specs.Prelude.{◌≡◌, IfOk};
ghost use Rattle.c0_syntax.specs.Views.{name_of};
ghost use Rattle.c0_rules.specs.Assignment as a;
ghost use Rattle.c0_rules.specs.FaultPaths.{is_unassigned};
ghost use Rattle.c0_types_flow.specs.FlowViews.{behind_of, flow_of, letters_of};
ghost use Rattle.c0_rules.specs.Mentions.{OfVariable};
ghost use Rattle.c0_rules.specs.Types.{Name as Letters, is_among};

use c0_syntax::name::Name;
use std::alloc::{AllocError, Global};

pub(crate) mod after;
pub(crate) mod assigned;
pub(crate) mod lists;
pub mod paths;
pub(crate) mod statements;

use lists::{is_one_of, those_among, with, without};

/// What stands before a statement.
#[derive(Debug, Drop)]
pub(crate) enum Flow<'a> {
    /// Each path has ended in `return` or `error`, or left a turn of a loop.
    Ended,
    /// Some path leads here, and these locals in scope are those that some such path has not assigned, the last declared first.
    Reached(Vec<&'a str>),
}

/// What stands behind a statement, seen from what stands before it. Most statements change nothing, and cost nothing then.
#[derive(Debug, Drop)]
pub(crate) enum Behind<'a> {
    /// What stands before it.
    Same,
    /// Something else, or the same written once more.
    Changed(Flow<'a>),
}

impl<'a> Behind<'a> {
    /// The flow behind a statement, where this one stands before it.
    pub(crate) fn over<'f>(&'f self, before: &'f Flow<'a>) -> &'f Flow<'a>
        ensures { flow_of result.now ≡ behind_of (flow_of before.now) self.now }
    {
        match self {
            Behind::Same => before,
            Behind::Changed(flow) => flow,
        }
    }

    /// What stands behind two statements, of which the second begins where this one leads.
    pub(crate) fn then(self, second: Behind<'a>) -> Behind<'a>
        ensures { (f : a.Flow) → behind_of f result ≡ behind_of (behind_of f self.entry) second.entry }
    {
        match second {
            Behind::Same => self,
            changed => changed,
        }
    }
}

impl<'a> Flow<'a> {
    /// Whether some path has not assigned the local of this name.
    pub(crate) fn lacks(&self, name: &str) -> bool
        ensures { result ≡ is_unassigned (flow_of self.now) (OfVariable name.now) }
    {
        match self {
            Flow::Ended => false,
            Flow::Reached(names) => is_one_of(name, names),
        }
    }

    // Whether no path leads here.
    fn has_ended(&self) -> bool
        ensures { result ≡ a.has_ended (flow_of self.now) }
    {
        match self {
            Flow::Ended => true,
            Flow::Reached(_) => false,
        }
    }

    // The locals that some path has not assigned.
    fn unassigned(&self) -> &[&'a str]
        ensures { (n : Letters) → is_among n (letters_of result.now) ≡ is_unassigned (flow_of self.now) (OfVariable n) }
    {
        match self {
            Flow::Ended => &[],
            Flow::Reached(names) => names,
        }
    }

    // Behind the declaration of a local without a value.
    fn declare(&self, alloc: Global, name: &'a Name) -> Result<Behind<'a>, AllocError>
        ensures { IfOk result (λ behind. behind_of (flow_of self.now) behind ≡ a.declared_only (name_of name.now) (flow_of self.now)) }
    {
        match self {
            Flow::Ended => Ok(Behind::Same),
            Flow::Reached(names) => {
                let names = with(alloc, &name.text, names)?;
                Ok(Behind::Changed(Flow::Reached(names)))
            }
        }
    }

    // Behind an assignment to this local.
    #[tactic(auto, using(c0_rules::proofs::Assigned::none_lost))]
    fn assign(&self, alloc: Global, name: &Name) -> Result<Behind<'a>, AllocError>
        ensures { IfOk result (λ behind. behind_of (flow_of self.now) behind ≡ a.assigned_to (name_of name.now) (flow_of self.now)) }
    {
        match self {
            Flow::Ended => Ok(Behind::Same),
            Flow::Reached(names) => {
                if !is_one_of(&name.text, names) {
                    return Ok(Behind::Same);
                }
                let names = without(alloc, names, &name.text)?;
                Ok(Behind::Changed(Flow::Reached(names)))
            }
        }
    }

    // Behind a choice of two ways that both began here and changed something.
    #[tactic(auto, using(crate::proofs::Flows::merged))]
    fn merge(
        &self,
        alloc: Global,
        first: &Flow<'a>,
        second: &Flow<'a>,
    ) -> Result<Flow<'a>, AllocError>
        ensures { IfOk result (λ flow. flow_of flow ≡ a.joined (flow_of self.now) (flow_of first.now) (flow_of second.now)) }
    {
        match self {
            Flow::Ended => Ok(Flow::Ended),
            Flow::Reached(names) => {
                if first.has_ended() && second.has_ended() {
                    return Ok(Flow::Ended);
                }
                let lacked = those_among(alloc, names, first.unassigned(), second.unassigned())?;
                Ok(Flow::Reached(lacked))
            }
        }
    }

    // Behind a choice of two ways that began here. Where one of them changes nothing, it lacks all that was lacked.
    #[tactic(auto, using(crate::proofs::Flows::joined_before, crate::proofs::Flows::joined_first))]
    fn join(
        &self,
        alloc: Global,
        first: &Behind<'a>,
        second: &Behind<'a>,
    ) -> Result<Behind<'a>, AllocError>
        ensures { IfOk result (λ behind. behind_of (flow_of self.now) behind ≡ a.joined (flow_of self.now) (behind_of (flow_of self.now) first.now) (behind_of (flow_of self.now) second.now)) }
    {
        match (first, second) {
            (Behind::Changed(first), Behind::Changed(second)) => {
                Ok(Behind::Changed(self.merge(alloc, first, second)?))
            }
            _ => Ok(Behind::Same),
        }
    }

    // At the end of a scope that began here.
    fn leave(&self, alloc: Global, inner: &Behind<'a>) -> Result<Behind<'a>, AllocError>
        ensures { IfOk result (λ behind. behind_of (flow_of self.now) behind ≡ a.left_scope (flow_of self.now) (behind_of (flow_of self.now) inner.now)) }
    {
        self.join(alloc, inner, inner)
    }
}
