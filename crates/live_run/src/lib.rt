//! The run of one program, of which what it prints is written as it comes.
#![tactic(auto)]

mod live;
mod turns;

pub use live::{LiveError, run_live, run_live_counted};
pub use program_run::Finished;
