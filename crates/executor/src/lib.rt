//! `run_all`: the programs of a region by turns on the threads of a few workers, beside evacuators and fetchers.
#![tactic(auto)]

mod all;
mod counts;
mod filing;
mod movers;
mod places;
mod starting;
mod workers;

pub use all::{run_all, run_all_counted};
pub use counts::{Counted, Evacuated, Fetched, MoverCounts};
pub use program_run::{Finished, Gate, OpenGate};
pub use session::Session;
