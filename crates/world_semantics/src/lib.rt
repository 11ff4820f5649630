//! Every interleaving of programs with movers that move objects in and out, as a machine over events in definitions, and its laws.
#![tactic(auto)]

pub mod event;
pub mod hold;
mod laws;

pub use laws::{
    answers, enabled_calls, enough_frames, every_schedule, programs_follow, scopes_follow, wants,
    worked_schedules,
};
