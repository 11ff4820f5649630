//! The run of one program of a region to its end, in turns of some number of instructions, where a gate may hold it up.
#![tactic(auto)]

mod gate;
mod run;

pub use gate::{Gate, OpenGate};
pub use run::{Finished, ProgramRun, Turn};
