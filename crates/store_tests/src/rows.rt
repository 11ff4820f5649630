//! Reading a row.

use remote_store::{FaultPlan, Lie};

/// What goes wrong in a run.
#[derive(Clone, Copy, PartialEq, Eq)]
pub(crate) enum Plan {
    /// Nothing.
    Never,
    /// One call fails.
    At,
    /// A call and all later ones fail.
    From,
    /// One read tells this lie.
    Lies(Lie),
}

impl Plan {
    /// The plan of this word.
    fn of(word: &str) -> Option<Plan> {
        match word {
            "at" => Some(Plan::At),
            "from" => Some(Plan::From),
            "older" => Some(Plan::Lies(Lie::OlderVersion)),
            "other" => Some(Plan::Lies(Lie::OtherObject)),
            "short" => Some(Plan::Lies(Lie::ShortCell)),
            _ => None,
        }
    }

    /// Which calls fail, where it is the call of this number that goes wrong.
    pub(crate) fn faults(self, number: u64) -> FaultPlan {
        match self {
            Plan::At => FaultPlan::Only(number),
            Plan::From => FaultPlan::From(number),
            Plan::Never | Plan::Lies(_) => FaultPlan::Never,
        }
    }

    /// Whether each call of a program that is planned to go wrong does: of a cell that was written once there is no older row, and a way may have met no other.
    pub(crate) fn is_sure(self) -> bool {
        matches!(self, Plan::At | Plan::From | Plan::Lies(Lie::ShortCell))
    }
}

/// What a row asks for: runs of an image, in each of which another call goes wrong.
#[derive(Clone, Copy)]
pub(crate) struct Sweep<'a> {
    pub(crate) image: &'a str,
    pub(crate) in_folder: bool,
    pub(crate) programs: u32,
    pub(crate) movers: u32,
    pub(crate) plan: Plan,
    pub(crate) step: u64,
    pub(crate) least: u64,
}

/// Whether the store of this word is a folder.
fn is_folder(word: &str) -> Option<bool> {
    match word {
        "memory" => Some(false),
        "folder" => Some(true),
        _ => None,
    }
}

impl<'a> Sweep<'a> {
    /// What the row of these words asks for.
    pub(crate) fn of(words: &[&'a str]) -> Option<Sweep<'a>> {
        let [image, store, programs, movers, plan, step, least] = words else {
            return None;
        };
        Some(Sweep {
            image,
            in_folder: is_folder(store)?,
            programs: programs.parse().ok()?,
            movers: movers.parse().ok()?,
            plan: Plan::of(plan)?,
            step: step.parse().ok()?,
            least: least.parse().ok()?,
        })
    }
}
