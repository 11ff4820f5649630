//! The actors of a world: what a step of each program and each evacuator does.
#![tactic(auto)]

mod bring;
mod evacuator;
mod evict;
mod instruct;
mod program;
mod turn;

pub use evacuator::EvacuatorActor;
pub use program::{Eviction, Mode, ProgramActor};
