//! The store behind the frames: each mover's way to it, an object's place in it, a store in memory, one that fails by plan, and one that lies by plan.
#![tactic(auto)]

mod berth;
mod config;
mod fault;
mod heap;
mod lying;
mod port;
mod raw;

pub use berth::Berth;
pub use config::{Config, Stores};
pub use fault::{FaultPlan, FaultStore, FaultStores};
pub use heap::{FarCell, FarHeap};
pub use lying::{Lie, LyingCell, LyingStore, LyingStores};
pub use port::{Cause, Failed, Port, Refusal, Refusals, RefusedCall};
pub use raw::{HEADER_WORDS, MOST_CELLS, MOST_WORDS, RawStore, USUAL_CELLS};
